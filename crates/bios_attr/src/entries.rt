//! The entries of the string table and of the attribute table.
ghost use Rattle.std.specs.Prelude.{◌≡◌, ◌+◌, ◌≤◌, ◌*◌, [], ◌++◌, OnOk, length};
ghost use Rattle.record_base.specs.declared.attribute.AttributeKind.TheVariants.{Enumeration, Text};
ghost use Rattle.bios_attr.specs.declared.bios_table.BiosTable.TheVariants.{Attributes};
ghost use Rattle.bios_attr.specs.Attributes.{handles_of, string_entry, string_entries, integer_fields, kind_fields, attribute_entry, attribute_entries};
ghost use Rattle.bios_attr.specs.AttributeEntry.{AreSmall, HasItsBytes};
ghost use Rattle.bios_attr.specs.TableEntry.{AreEntriesOf};
ghost use Rattle.bios_attr.specs.TableContents.{numbers_of, fields_of, attribute_contents};

use crate::strings::handle_of;
use crate::value_entry::shown_type;
use record_base::attribute_sizes::MOST_INDEXES;
use record_base::{
    Attribute, AttributeKind, EnumerationAttribute, IntegerAttribute, IntegerSteps,
    StringAttribute, Text,
};
use std::alloc::AllocError;
use two_wire::Bytes;

/// How many bytes an entry has at most between the handle of its name and a text: what it says of an enumeration, which has two numbers, the
/// handles of the possible values, and the indexes of those that it is at first.
const MOST_FIELDS: usize = 2 + 3 * MOST_INDEXES;

/// Some of an entry's bytes, without a text.
type Fields = Bytes<{ MOST_FIELDS }>;

/// Appends a string's entry.
fn push_string(table: &mut Vec<u8>, handle: u16, text: &Text) -> Result<(), AllocError>
    ensures { OnOk result (table.new.items ≡ table.old.items ++ string_entry handle text.now) }
{
    table.extend_from_slice(&handle.to_le_bytes())?;
    table.extend_from_slice(&(text.len() as u16).to_le_bytes())?;
    table.extend_from_slice(text.as_slice())?;
    Ok(())
}

/// Appends the entries of strings, whose handles count from 0.
pub(crate) fn push_strings(table: &mut Vec<u8>, strings: &[Text]) -> Result<(), AllocError>
    requires { length strings.now ≤ 65535 }
    ensures { OnOk result (table.new.items ≡ table.old.items ++ string_entries 0 strings.now) }
{
    for (handle, text) in strings.iter().enumerate() {
        push_string(table, handle as u16, text)?;
    }
    Ok(())
}

/// Appends the handles of texts.
fn push_handles(fields: &mut Fields, strings: &[Text], texts: &[Text])
    requires few { length strings.now ≤ 65535 }
    requires room { length fields.old + 2 * length texts.now ≤ MOST_FIELDS }
    ensures handles { fields.new ≡ fields.old ++ handles_of strings.now texts.now }
    ensures len { length fields.new ≡ length fields.old + 2 * length texts.now }
{
    for text in texts {
        let handle = handle_of(strings, text) as u16;
        fields.extend_from_slice(&handle.to_le_bytes());
    }
}

/// Appends what an enumeration's entry says.
fn push_enumeration(
    table: &mut Vec<u8>,
    strings: &[Text],
    enumeration: &EnumerationAttribute,
) -> Result<(), AllocError>
    requires { length strings.now ≤ 65535 }
    ensures bytes { OnOk result (table.new.items
        ≡ table.old.items ++ kind_fields strings.now (Enumeration enumeration.now)) }
    ensures whole { HasItsBytes (fields_of strings.now (Enumeration enumeration.now)) }
{
    let values = enumeration.values.as_slice();
    let mut fields = Fields::new();
    fields.push(values.len() as u8);
    push_handles(&mut fields, strings, values);
    fields.push(enumeration.default.len() as u8);
    fields.extend_from_slice(enumeration.default.as_slice());
    table.extend_from_slice(fields.as_slice())?;
    Ok(())
}

/// Appends what a string's entry says.
fn push_text(table: &mut Vec<u8>, string: &StringAttribute) -> Result<(), AllocError>
    ensures { OnOk result (table.new.items ≡ table.old.items ++ kind_fields [] (Text string.now)) }
{
    let default = string.default.as_slice();
    let mut fields = Fields::new();
    fields.push(string.string_type);
    fields.extend_from_slice(&string.lengths.least.to_le_bytes());
    fields.extend_from_slice(&string.lengths.most.to_le_bytes());
    fields.extend_from_slice(&(default.len() as u16).to_le_bytes());
    table.extend_from_slice(fields.as_slice())?;
    table.extend_from_slice(default)?;
    Ok(())
}

/// Appends what an integer's entry says.
fn push_integer(table: &mut Vec<u8>, integer: &IntegerAttribute) -> Result<(), AllocError>
    ensures bytes { OnOk result
        (table.new.items ≡ table.old.items ++ integer_fields integer.now) }
    ensures small { AreSmall (numbers_of integer.now) }
{
    let IntegerSteps {
        lower,
        upper,
        increment,
    } = integer.steps;
    let default = integer.default;
    let mut fields = Fields::new();
    fields.extend_from_slice(&lower.to_le_bytes());
    fields.extend_from_slice(&upper.to_le_bytes());
    fields.extend_from_slice(&increment.to_le_bytes());
    fields.extend_from_slice(&default.to_le_bytes());
    table.extend_from_slice(fields.as_slice())?;
    Ok(())
}

/// Appends what an attribute's entry says of its kind.
fn push_kind(table: &mut Vec<u8>, strings: &[Text], kind: &AttributeKind) -> Result<(), AllocError>
    requires { length strings.now ≤ 65535 }
    ensures bytes { OnOk result
        (table.new.items ≡ table.old.items ++ kind_fields strings.now kind.now) }
    ensures whole { HasItsBytes (fields_of strings.now kind.now) }
{
    match kind {
        AttributeKind::Enumeration(enumeration) => push_enumeration(table, strings, enumeration),
        AttributeKind::Text(string) => push_text(table, string),
        AttributeKind::Integer(integer) => push_integer(table, integer),
    }
}

/// Appends an attribute's entry.
fn push_attribute(
    table: &mut Vec<u8>,
    strings: &[Text],
    attribute: &Attribute,
) -> Result<(), AllocError>
    requires { length strings.now ≤ 65535 }
    ensures bytes { OnOk result
        (table.new.items ≡ table.old.items ++ attribute_entry strings.now attribute.now) }
    ensures whole { OnOk result (HasItsBytes (fields_of strings.now attribute.now.kind)) }
{
    let mut fields = Fields::new();
    fields.extend_from_slice(&attribute.handle.to_le_bytes());
    fields.push(shown_type(attribute.read_only, attribute.kind.type_code()));
    let name = handle_of(strings, &attribute.name) as u16;
    fields.extend_from_slice(&name.to_le_bytes());
    table.extend_from_slice(fields.as_slice())?;
    push_kind(table, strings, &attribute.kind)
}

/// Appends the entries of attributes.
pub(crate) fn push_attributes(
    table: &mut Vec<u8>,
    strings: &[Text],
    attributes: &[Attribute],
) -> Result<(), AllocError>
    requires { length strings.now ≤ 65535 }
    ensures bytes { OnOk result (table.new.items
        ≡ table.old.items ++ attribute_entries strings.now attributes.now) }
    ensures whole { OnOk result
        (AreEntriesOf Attributes (attribute_contents strings.now attributes.now)) }
{
    for attribute in attributes {
        push_attribute(table, strings, attribute)?;
    }
    Ok(())
}
