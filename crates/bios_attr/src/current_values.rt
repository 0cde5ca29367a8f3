//! The value table, which shows the values as they stand.
ghost use Rattle.std.specs.Prelude.{◌≡◌, ◌+◌, ◌*◌, ◌≤◌, ◌++◌, ◌∷◌, map, All, IfOk, ℕ, List, length, vec_len, vec_capacity};
ghost use Rattle.record_base.specs.AttributeSizes.{most_value};
ghost use Rattle.record_base.specs.AttributeValue.{two_bytes};
ghost use Rattle.bios_attr.specs.ValueEntry.{IsByteList};
ghost use Rattle.bios_attr.specs.Values.{head_of, value_entries, IsShown};
ghost use Rattle.bios_attr.specs.Tables.{IsTable};

use crate::table::finish;
use crate::value_entry::shown_type;
use record_base::Attribute;
use std::alloc::{AllocError, Global};

/// What an entry of the value table has before the value: the attribute, and its type.
#[derive(Clone, Copy)]
pub struct EntryHead {
    pub attribute: u16,
    pub code: u8,
}

/// The values of attributes as they stand now.
pub trait CurrentValues {
    /// The bytes that the attribute's entry has behind the type.
    ghost value_of: { Self → ℕ → List ℕ };

    /// The bytes that the attribute's entry has behind the type.
    fn value(&self, attribute: u16) -> &[u8]
        ensures value { result.now ≡ value_of self.now attribute }
        ensures few { length result.now ≤ most_value };
}

/// What an attribute's entry has before the value.
fn head_of(attribute: &Attribute) -> EntryHead
    ensures { result ≡ head_of attribute.now }
{
    EntryHead {
        attribute: attribute.handle,
        code: shown_type(attribute.read_only, attribute.kind.type_code()),
    }
}

/// Appends a value entry.
fn push_value(table: &mut Vec<u8>, head: EntryHead, value: &[u8])
    requires { vec_len table.old + 3 + length value.now ≤ vec_capacity table.old }
    ensures bytes { table.new.items
        ≡ table.old.items ++ (two_bytes head.attribute ++ head.code ∷ value.now) }
    ensures small { IsByteList value.now }
    ensures len { vec_len table.new ≡ vec_len table.old + 3 + length value.now }
    ensures capacity { vec_capacity table.old ≤ vec_capacity table.new }
{
    let [low, high] = head.attribute.to_le_bytes();
    table.extend_from_slice(&[low, high, head.code]).unwrap();
    table.extend_from_slice(value).unwrap();
}

/// Makes `table` the table of the values that stand now. It takes no memory.
pub(crate) fn show_values<V: CurrentValues>(table: &mut Vec<u8>, heads: &[EntryHead], current: &V)
    requires { (3 + most_value) * length heads.now + 7 ≤ vec_capacity table.old }
    ensures table { IsTable (value_entries (V.value_of current.now) heads.now) table.new.items }
    ensures shown { All (λ head. IsShown (V.value_of current.now head.attribute)) heads.now }
    ensures capacity { vec_capacity table.old ≤ vec_capacity table.new }
{
    table.clear();
    for head in heads {
        push_value(table, *head, current.value(head.attribute));
    }
    finish(table).unwrap();
}

/// What the entries of attributes have before their values.
pub(crate) fn heads_of(
    alloc: Global,
    attributes: &[Attribute],
) -> Result<Vec<EntryHead>, AllocError>
    ensures { IfOk result (λ heads. heads.items ≡ map head_of attributes.now) }
{
    let mut heads = Vec::new(alloc);
    for attribute in attributes {
        let Ok(()) = heads.push(head_of(attribute)) else {
            return Err(AllocError);
        };
    }
    Ok(heads)
}
