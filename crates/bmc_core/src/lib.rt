//! The ports that bring requests to a board, whose crate's items it names again, and the windows in which a port keeps the requests that it carried
//! out, with their replies. And the model of a port: how requests and replies are bytes, what is on the wires, and which events of the model of a bus
//! a port's steps are. Each law is the contract of a function without a body.
#![tactic(auto)]

mod circle;
pub mod ipmb_port;
pub mod out;
pub mod packets;
pub mod port;
pub mod port_laws;
pub mod smbus_port;
pub mod step;
mod window;
mod window_request;
mod windows;

pub use bmc_board::{Board, Command, Lengths, Line, is_changing, read_request};
pub use ipmb_port::{IpmbPending, IpmbPort};
pub use out::{Disposition, Frames, Out, Reason};
pub use port::{At, Pending, Port};
pub use smbus_port::{SmbusPending, SmbusPort};
pub use step::{ServeOutcome, Step};
pub use window_request::{Found, WindowRequest};
pub use windows::Windows;
