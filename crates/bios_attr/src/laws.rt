//! What holds of the definitions.
ghost use Rattle.std.specs.Prelude.{◌≡◌, ◌↔◌, ◌≤◌, ◌++◌, ℕ, List, length, map, Some, IsTrue};
ghost use Rattle.record_base.specs.declared.attribute_range.AttributeRange.{AttributeRange};
ghost use Rattle.record_base.specs.declared.attribute_value.AttributeValue.{AttributeValue};
ghost use Rattle.bios_attr.specs.declared.value_entry.ValueEntry.{ValueEntry};
ghost use Rattle.bios_attr.specs.declared.string_entry.StringEntry.{StringEntry};
ghost use Rattle.bios_attr.specs.declared.attribute_entry.AttributeEntry.{AttributeEntry};
ghost use Rattle.record_base.specs.AttributeValue.{HasEightBytes};
ghost use Rattle.bios_attr.specs.StringEntry.{string_bytes, string_at};
ghost use Rattle.bios_attr.specs.AttributeEntry.{HasItsBytes, attribute_bytes, attribute_at};
ghost use Rattle.bios_attr.specs.ValueEntry.{entry_bytes, entry_in, IsByteList};
ghost use Rattle.bios_attr.specs.declared.bios_table.BiosTable.{BiosTable};
ghost use Rattle.bios_attr.specs.declared.table_entry.TableEntry.{TableEntry};
ghost use Rattle.bios_attr.specs.TableEntry.{table_of, written, IsWhole, IsEntryRead, entry_at, IsTableOf};
ghost use Rattle.bios_attr.specs.declared.bios_table.BiosTable.TheVariants.{Strings};
ghost use Rattle.bios_attr.specs.declared.table_entry.TableEntry.TheVariants.{String};
ghost use Rattle.bios_attr.specs.Attributes.{string_entries};
ghost use Rattle.bios_attr.specs.Tables.{IsTable};
ghost use Rattle.bios_attr.specs.StringTable.{numbered};
ghost use Rattle.record_base.specs.AttributeRange.{AllowsValue, allows};

/// A value entry that is written is read as itself, so bytes are at most one; and one that is read is written as the same bytes.
pub fn entries_are_read_as_written()
    ensures written { (entry : ValueEntry) → HasEightBytes entry.value
        → entry_in (entry_bytes entry) ≡ Some entry }
    ensures read { (bytes : List ℕ) (entry : ValueEntry) → IsByteList bytes
        → entry_in bytes ≡ Some entry → entry_bytes entry ≡ bytes }
{}

/// A string entry that is written is read as itself, with what is behind it; and one that is read is written as the same bytes.
pub fn strings_are_read_as_written()
    ensures written { (entry : StringEntry) (rest : List ℕ)
        → string_at (string_bytes entry ++ rest) ≡ Some (entry, rest) }
    ensures read { (bytes : List ℕ) (entry : StringEntry) (rest : List ℕ) → IsByteList bytes
        → string_at bytes ≡ Some (entry, rest) → string_bytes entry ++ rest ≡ bytes }
{}

/// An attribute entry that is written is read as itself, with what is behind it; and one that is read is written as the same bytes.
pub fn attributes_are_read_as_written()
    ensures written { (entry : AttributeEntry) (rest : List ℕ) → HasItsBytes entry.kind
        → attribute_at (attribute_bytes entry ++ rest) ≡ Some (entry, rest) }
    ensures read { (bytes : List ℕ) (entry : AttributeEntry) (rest : List ℕ) → IsByteList bytes
        → attribute_at bytes ≡ Some (entry, rest)
        → (attribute_bytes entry ++ rest ≡ bytes) × HasItsBytes entry.kind }
{}

/// An entry of a table that is written is read as itself, with what is behind it; one that is read is written as the same bytes; and none has fewer
/// than four of them.
pub fn table_entries_are_read_as_written()
    ensures written { (entry : TableEntry) (rest : List ℕ) → IsWhole entry
        → entry_at (table_of entry) (written entry ++ rest) ≡ Some (entry, rest) }
    ensures read { (table : BiosTable) (bytes : List ℕ) (entry : TableEntry) (rest : List ℕ)
        → IsByteList bytes → entry_at table bytes ≡ Some (entry, rest)
        → IsEntryRead table bytes (entry, rest) }
    ensures long { (entry : TableEntry) → 4 ≤ length (written entry) }
{}

/// Bytes are the table of one list of entries at most.
pub fn one_list_of_entries()
    ensures { (table : BiosTable) (entries others : List TableEntry) (bytes : List ℕ)
        → IsTableOf table entries bytes → IsTableOf table others bytes → entries ≡ others }
{}

/// A table of strings that is written is that of these strings, with handles from 0 on.
pub fn string_tables_have_their_strings()
    ensures { (strings : List (List ℕ)) (bytes : List ℕ) → IsTable (string_entries 0 strings) bytes
        → IsTableOf Strings (map String (numbered 0 strings)) bytes }
{}

/// The test says which values an attribute can have.
pub fn allows_is_the_rule()
    ensures { (r : AttributeRange) (v : AttributeValue) → IsTrue (allows r v) ↔ AllowsValue r v }
{}
