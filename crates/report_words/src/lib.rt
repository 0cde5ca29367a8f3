//! What reports say in words: what completion codes and phases are called, what they mean, and what to do about them (`docs/CODES.md` has the same
//! words), the names of sensors and attributes, which a controller's own tables give, and the records of a board that have another value than they
//! began with, each in a line.
#![tactic(auto)]

mod attribute_names;
mod board_names;
mod change_list;
mod codes;
mod first_records;
mod ipmi;
mod laws;
mod phases;
mod pldm;
mod row;
mod sensor_names;
mod table_entries;
mod table_names;

pub use attribute_names::attribute_name;
pub use board_names::BoardNames;
pub use change_list::ChangeList;
pub use codes::{NamedCode, code_row};
pub use laws::each_change_is_listed;
pub use phases::{PhaseRow, phase_row};
pub use row::CodeRow;
pub use sensor_names::{IdString, SensorHead, id_string, sensor_head};
pub use table_names::{Names, attribute_of, sensor_of};
