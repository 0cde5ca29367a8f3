//! The tables that tell of a board's attributes.
ghost use Rattle.std.specs.Prelude.{◌≡◌, ◌≤◌, IfOk, length};
ghost use Rattle.bios_attr.specs.Attributes.{string_entries, attribute_entries};
ghost use Rattle.bios_attr.specs.Tables.{IsTable};
ghost use Rattle.bios_attr.specs.declared.bios_table.BiosTable.TheVariants as table_name;
ghost use Rattle.bios_attr.specs.TableEntry.{IsTableOf};
ghost use Rattle.bios_attr.specs.TableContents.{attribute_contents};

use crate::bios_table::BiosTable;
use crate::current_values::{CurrentValues, EntryHead, heads_of, show_values};
use crate::entries::{push_attributes, push_strings};
use crate::strings::strings_of;
use crate::table::{MOST_BEHIND, finish};
use pldm_base::{Part, part};
use record_base::attribute_sizes::MOST_VALUE;
use record_base::{Attribute, Attributes, Text};
use std::alloc::{AllocError, Global};
use std::marker::Model;
use two_wire::Code;

/// The tables of a board's attributes. All their memory is taken when they are opened.
pub struct Tables {
    strings: Vec<u8>,
    attributes: Vec<u8>,
    heads: Vec<EntryHead>,
    values: Vec<u8>,
}

// Written out: the crates above would prove a derived one anew.
impl Drop for Tables {
    fn drop(self) {
        let Tables {
            strings,
            attributes,
            heads,
            values,
        } = self;
        drop(strings);
        drop(attributes);
        drop(heads);
        drop(values);
    }
}

impl Model for Tables {
    ghost use Rattle.std.specs.Prelude.{◌+◌, ◌*◌, ◌≤◌, length};
    ghost use Rattle.std.specs.Vec.{vec_capacity};
    ghost use Rattle.record_base.specs.AttributeSizes.{most_value};
    ghost use Rattle.bios_attr.specs.Tables.{OpenedTables};

    ghost Value = { OpenedTables };

    ghost view = { λ t. record {
      strings = t.strings.items;
      attributes = t.attributes.items;
      heads = t.heads.items;
      values = t.values.items;
    } };

    ghost invariant = { λ t. (3 + most_value) * length t.heads.items + 7 ≤ vec_capacity t.values };
}

/// The table of strings.
fn string_table(alloc: Global, strings: &[Text]) -> Result<Vec<u8>, AllocError>
    requires { length strings.now ≤ 65535 }
    ensures { IfOk result (λ table. IsTable (string_entries 0 strings.now) table.items) }
{
    let mut table = Vec::new(alloc);
    push_strings(&mut table, strings)?;
    finish(&mut table)?;
    Ok(table)
}

/// The table of attributes.
fn attribute_table(
    alloc: Global,
    strings: &[Text],
    attributes: &[Attribute],
) -> Result<Vec<u8>, AllocError>
    requires { length strings.now ≤ 65535 }
    ensures table { IfOk result (λ table.
        IsTable (attribute_entries strings.now attributes.now) table.items) }
    ensures contents { IfOk result (λ table. IsTableOf table_name.Attributes
        (attribute_contents strings.now attributes.now) table.items) }
{
    let mut table = Vec::new(alloc);
    push_attributes(&mut table, strings, attributes)?;
    finish(&mut table)?;
    Ok(table)
}

impl Tables {
    ghost use Rattle.std.specs.Prelude.{◌≡◌, Err, IfOk, MatchOption, IsOkAnd};
    ghost use Rattle.two_wire.specs.Codes.{pldm_invalid_data};
    ghost use Rattle.pldm_base.specs.Parts.{asked_offset, IsPart};
    ghost use Rattle.bios_attr.specs.Tables.{AreTables, ShowsValues, table_named};
    ghost use Rattle.bios_attr.specs.TableContents.{HaveContents, HasValues};

    /// The tables of these attributes. The table of values is empty until values are shown.
    pub fn open(alloc: Global, attributes: &Attributes) -> Result<Tables, AllocError>
        ensures tables { IfOk result (λ tables. AreTables attributes.now.items tables) }
        ensures contents { IfOk result (λ tables. HaveContents attributes.now.items tables) }
    {
        let attributes = attributes.items.as_slice();
        let strings = strings_of(alloc, attributes)?;
        let heads = heads_of(alloc, attributes)?;
        let room = (3 + MOST_VALUE) * heads.len() + MOST_BEHIND;
        Ok(Tables {
            strings: string_table(alloc, strings.as_slice())?,
            attributes: attribute_table(alloc, strings.as_slice(), attributes)?,
            heads,
            values: Vec::with_capacity(alloc, room)?,
        })
    }

    /// Makes the table of values that of the values that stand now. It takes no memory.
    pub fn show<V: CurrentValues>(&mut self, current: &V)
        ensures shown { ShowsValues self.old (V.value_of current.now) self.new }
        ensures contents { HasValues self.old.heads (V.value_of current.now) self.new.values }
    {
        show_values(&mut self.values, self.heads.as_slice(), current);
    }

    /// The bytes of a table.
    pub fn table(&self, table: BiosTable) -> &[u8]
        ensures { result.now ≡ table_named self.now table }
    {
        match table {
            BiosTable::Strings => self.strings.as_slice(),
            BiosTable::Attributes => self.attributes.as_slice(),
            BiosTable::Values => self.values.as_slice(),
        }
    }

    /// The part of a table that a request asks for by its transfer operation and its transfer handle.
    pub fn part(&self, table: BiosTable, operation: u8, handle: u32) -> Result<Part<'_>, Code>
        ensures { MatchOption (asked_offset (table_named self.now table) operation handle)
            (result ≡ Err pldm_invalid_data)
            (λ offset. IsOkAnd result (IsPart (table_named self.now table) offset)) }
    {
        part(self.table(table), operation, handle)
    }
}
