//! The attributes of PLDM BIOS Control and Configuration (DSP0247): their value entries, the record of an attribute's value, and the
//! tables that tell of them.
#![tactic(auto)]

pub mod attribute_entry;
pub mod bios_attribute;
pub mod bios_table;
pub mod current_values;
mod entries;
pub mod entry_parts;
pub mod laws;
pub mod rest;
pub mod string_entry;
mod strings;
mod table;
pub mod table_entry;
pub mod tables;
pub mod value_entry;
pub mod whole_table;

pub use attribute_entry::{
    AttributeEntry, EnumerationFields, IntegerFields, KindFields, TextFields,
};
pub use bios_attribute::{AskedPart, AttributeLimits};
pub use bios_table::BiosTable;
pub use current_values::{CurrentValues, EntryHead};
pub use rest::Rest;
pub use string_entry::StringEntry;
pub use table_entry::TableEntry;
pub use tables::Tables;
pub use value_entry::ValueEntry;
pub use whole_table::{TableError, count_table};
