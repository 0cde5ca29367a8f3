//! The names of attributes.
ghost use Rattle.std.specs.Option.{option_map};
ghost use Rattle.report_words.specs.AttributeNames.{HasName, HasText, NamesByHandle};

use crate::table_entries::find_entry;
use bios_attr::{BiosTable, TableEntry};

/// The handle of an attribute's name, by the table of attributes.
fn name_handle(attributes: &[u8], attribute: u16) -> Option<u16>
    ensures { NamesByHandle attributes.now attribute result }
{
    match find_entry(BiosTable::Attributes, attributes, attribute) {
        Some(TableEntry::Attribute(entry)) => Some(entry.name),
        _ => None,
    }
}

/// The text of a string, by the table of strings.
fn text_of<'a>(strings: &'a [u8], handle: u16) -> Option<&'a [u8]>
    ensures { HasText strings.now handle (option_map (λ text. text.now) result) }
{
    match find_entry(BiosTable::Strings, strings, handle) {
        Some(TableEntry::String(entry)) => Some(entry.text.as_slice()),
        _ => None,
    }
}

/// The name of an attribute, by the tables of attributes and of strings: none where one of them isn't whole, or has no such entry.
pub fn attribute_name<'a>(attributes: &[u8], strings: &'a [u8], attribute: u16) -> Option<&'a [u8]>
    ensures { HasName attributes.now strings.now attribute
        (option_map (λ text. text.now) result) }
{
    match name_handle(attributes, attribute) {
        Some(handle) => text_of(strings, handle),
        None => None,
    }
}
