//! Looks at a controller's records over links, by greetings and Gets alone, and reads the names of sensors and attributes from the controller's own
//! tables. Those are read once, of those alone that records name, and where a request isn't answered there are none.
#![tactic(auto)]

mod asking;
mod attributes;
mod buses;
mod look_driver;
mod reading;
mod records;
mod sensors;
mod session;

pub use look_driver::{LookEnd, drive_again, drive_look};
pub use reading::{KnownNames, NamedRecords, look_and_name, read_names};
pub use records::{Came, Found, LookFault, Looked, StopFault, look_and_stay, look_at_each};
pub use session::{OpenFault, Session, Way};
