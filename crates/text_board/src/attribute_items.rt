//! The BIOS attributes of a board file.
ghost use Rattle.std.specs.Prelude.{◌≡◌, ◌≤◌, ◌<◌, [], true, is_some, length, IfOk, IfErr, map};
ghost use Rattle.std.specs.List.{list_all, AllZip};
ghost use Rattle.record_base.specs.AttributeRange.{AllowsIndexes};
ghost use Rattle.record_base.specs.AttributeSizes.{most_attributes};
ghost use Rattle.record_base.specs.Attributes.{AreInPlace};
ghost use Rattle.toml.specs.View.{view, table_view};
ghost use Rattle.text_fields.specs.declared.row.Shape.TheVariants as shape;
ghost use Rattle.text_fields.specs.Trees.{IsNaturalIn, HasNumber, table_of, members_in};
ghost use Rattle.text_fields.specs.Attributes.{text_of};
ghost use Rattle.text_fields.specs.CheckedRows.{row_of, is_always_there, shape_of};
ghost use Rattle.text_board.specs.AttributeItems.{IsTextIn, HoldsEnumeration, HoldsString, HoldsInteger, HoldsKind, HoldsAttribute, IsAttributeIn};
ghost use Rattle.text_fields.specs.Ranges.{is_table};
ghost use Rattle.text_board.specs.Faults.{IsFirstFault, attribute_rows, attribute_faults_at, attribute_faults};

use crate::check::checked;
use crate::fault::{FileFault, Item};
use crate::tables::{ENUMERATION, INTEGER, STRING, TOP, attribute_rows};
use record_base::{
    Attribute, AttributeKind, Attributes, EnumerationAttribute, Indexes, IntegerAttribute,
    IntegerSteps, StringAttribute, Text, TextLengths,
};
use std::alloc::Global;
use text_fields::attributes::{indexes_of, string_in, text};
use text_fields::tree::{has_text, members_of};
use text_fields::{Checked, Field};
use toml::Value;

/// The texts that these values are.
fn texts_of(alloc: Global, values: &[Value]) -> Result<Vec<Text>, FileFault>
    requires { list_all (λ value. is_some (text_of (view value))) values.now ≡ true }
    ensures held { IfOk result (λ texts. AllZip IsTextIn (map view values.now) texts.items) }
    ensures err { IfErr result (λ why. why ≡ FileFault.Memory) }
{
    let mut texts = Vec::new(alloc);
    for value in values {
        match texts.push(text(value).unwrap()) {
            Ok(()) => {}
            Err(_) => return Err(FileFault::Memory),
        }
    }
    Ok(texts)
}

/// The indexes of the enumeration's values in the field.
fn indexes(item: &Checked<'_>, field: Field) -> Indexes
    requires rows { item.now.rows.now ≡ ENUMERATION }
    requires always { is_always_there (row_of field ENUMERATION) ≡ true }
    requires indexes { shape_of (row_of field ENUMERATION) ≡ shape.Indexes }
    ensures held { AllZip IsNaturalIn (members_in field (table_view item.now.table.now)) result }
    ensures allowed { AllowsIndexes
        (length (members_in Field.Values (table_view item.now.table.now))) result }
{
    indexes_of(members_of(item.value(field)))
}

/// The enumeration that the table is.
fn enumeration(alloc: Global, item: &Checked<'_>) -> Result<EnumerationAttribute, FileFault>
    requires { item.now.rows.now ≡ ENUMERATION }
    ensures held { IfOk result (HoldsEnumeration (table_view item.now.table.now)) }
    ensures err { IfErr result (λ why. why ≡ FileFault.Memory) }
{
    let values = texts_of(alloc, members_of(item.value(Field::Values)))?;
    let default = indexes(item, Field::Default);
    let current = indexes(item, Field::Current);
    Ok(EnumerationAttribute::new(values, default, current).unwrap())
}

/// The lengths that the string that the table is can have.
fn lengths(item: &Checked<'_>) -> TextLengths
    requires { item.now.rows.now ≡ STRING }
    ensures least { HasNumber Field.Least (table_view item.now.table.now) result.least }
    ensures most { HasNumber Field.Most (table_view item.now.table.now) result.most }
{
    let least = item.word(Field::Least);
    TextLengths::new(least, item.natural(Field::Most) as u16).unwrap()
}

/// A copy of the bytes, in memory of its own.
fn own(alloc: Global, bytes: &[u8]) -> Result<Vec<u8>, FileFault>
    ensures held { IfOk result (λ own. own.items ≡ bytes.now) }
    ensures err { IfErr result (λ why. why ≡ FileFault.Memory) }
{
    match Vec::from_slice(alloc, bytes) {
        Ok(own) => Ok(own),
        Err(_) => Err(FileFault::Memory),
    }
}

/// The string that the table is.
fn string(alloc: Global, item: &Checked<'_>) -> Result<StringAttribute, FileFault>
    requires { item.now.rows.now ≡ STRING }
    ensures held { IfOk result (HoldsString (table_view item.now.table.now)) }
    ensures err { IfErr result (λ why. why ≡ FileFault.Memory) }
{
    let string_type = item.byte(Field::StringType);
    let lengths = lengths(item);
    let default = own(alloc, string_in(item.table, Field::Default))?;
    let current = own(alloc, string_in(item.table, Field::Current))?;
    Ok(StringAttribute::new(string_type, lengths, default, current).unwrap())
}

/// The integer that the table is.
fn integer(item: &Checked<'_>) -> IntegerAttribute
    requires { item.now.rows.now ≡ INTEGER }
    ensures { HoldsInteger (table_view item.now.table.now) result }
{
    let steps = IntegerSteps {
        lower: item.natural(Field::Lower),
        upper: item.natural(Field::Upper),
        increment: item.number(Field::Increment),
    };
    let default = item.natural(Field::Default);
    let current = item.natural(Field::Current);
    IntegerAttribute::new(steps, default, current).unwrap()
}

/// The kind of attribute that the table is, by the kind that it names.
fn kind(alloc: Global, item: &Checked<'_>) -> Result<AttributeKind, FileFault>
    requires { item.now.rows.now ≡ attribute_rows (table_view item.now.table.now) }
    ensures held { IfOk result (HoldsKind (table_view item.now.table.now)) }
    ensures err { IfErr result (λ why. why ≡ FileFault.Memory) }
{
    if has_text(item.table, Field::Kind, "enumeration") {
        let enumeration = enumeration(alloc, item)?;
        return Ok(AttributeKind::Enumeration(enumeration));
    }
    if has_text(item.table, Field::Kind, "string") {
        let string = string(alloc, item)?;
        return Ok(AttributeKind::Text(string));
    }
    Ok(AttributeKind::Integer(integer(item)))
}

/// The attribute that the table is, with this handle.
fn attribute(alloc: Global, handle: u16, item: &Checked<'_>) -> Result<Attribute, FileFault>
    requires { item.now.rows.now ≡ attribute_rows (table_view item.now.table.now) }
    ensures handle { IfOk result (λ attribute. attribute.handle ≡ handle) }
    ensures held { IfOk result (HoldsAttribute (table_view item.now.table.now)) }
    ensures err { IfErr result (λ why. why ≡ FileFault.Memory) }
{
    let kind = kind(alloc, item)?;
    Ok(Attribute {
        handle,
        name: item.text(Field::NameText),
        read_only: item.flag(Field::ReadOnly),
        kind,
    })
}

/// The attribute that the value is, at this place of the file's attributes.
fn attribute_at(alloc: Global, place: usize, value: &Value) -> Result<Attribute, FileFault>
    requires few { place < most_attributes }
    requires table { is_table (view value.now) ≡ true }
    ensures sound { IfOk result (λ _. attribute_faults_at place (table_of (view value.now)) ≡ []) }
    ensures handle { IfOk result (λ attribute. attribute.handle ≡ place) }
    ensures held { IfOk result (IsAttributeIn (view value.now)) }
    ensures err { IfErr result
        (IsFirstFault (attribute_faults_at place (table_of (view value.now)))) }
{
    let table = value.as_table().unwrap();
    let item = checked(Item::Attribute(place), attribute_rows(table), table)?;
    attribute(alloc, place as u16, &item)
}

/// The attributes that these tables are, up to the first fault.
fn attributes_of(alloc: Global, values: &[Value]) -> Result<Vec<Attribute>, FileFault>
    requires few { length values.now ≤ most_attributes }
    requires tables { list_all (λ value. is_table (view value)) values.now ≡ true }
    ensures sound { IfOk result (λ _. attribute_faults (map view values.now) ≡ []) }
    ensures held { IfOk result (λ attributes.
        AllZip IsAttributeIn (map view values.now) attributes.items) }
    ensures handles { IfOk result (λ attributes. AreInPlace attributes.items) }
    ensures err { IfErr result (IsFirstFault (attribute_faults (map view values.now))) }
{
    let mut attributes = Vec::new(alloc);
    for (place, value) in values.iter().enumerate() {
        let attribute = attribute_at(alloc, place, value)?;
        match attributes.push(attribute) {
            Ok(()) => {}
            Err(_) => return Err(FileFault::Memory),
        }
    }
    Ok(attributes)
}

/// The attributes of the file.
pub fn attributes(alloc: Global, top: &Checked<'_>) -> Result<Attributes, FileFault>
    requires { top.now.rows.now ≡ TOP }
    ensures sound { IfOk result (λ _.
        attribute_faults (members_in Field.Attribute (table_view top.now.table.now)) ≡ []) }
    ensures held { IfOk result (λ attributes. AllZip IsAttributeIn
        (members_in Field.Attribute (table_view top.now.table.now)) attributes.items) }
    ensures err { IfErr result (IsFirstFault
        (attribute_faults (members_in Field.Attribute (table_view top.now.table.now)))) }
{
    let attributes = attributes_of(alloc, top.tables(Field::Attribute))?;
    Ok(Attributes::new(attributes).unwrap())
}
