//! What both two-wire buses of the controller have in common: bytes, addresses, bounded numbers, completion codes
//! and check bytes.
#![tactic(auto)]

mod address;
mod buffer;
mod bus;
mod bytes;
mod checks;
pub mod circles;
pub mod code;
mod data;
mod laws;
pub mod log_size;
mod number;
mod packet_error;
pub mod places;
mod retries;
pub mod size;

pub use address::Address;
pub use buffer::Buffer;
pub use bus::Bus;
pub use bytes::{Bytes, Frame};
pub use checks::check_byte;
pub use code::Code;
pub use data::Data;
pub use laws::{all_bytes_have_a_pec, one_pec};
pub use number::{Below, Lun, NetFn};
pub use packet_error::pec;
pub use retries::{MOST_RETRIES, RETRIES_END, Retries};
