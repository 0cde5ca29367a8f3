//! Messages of the Intelligent Platform Management Bus, and the frames that carry them.
#![tactic(auto)]

mod fault;
mod laws;
mod message;
mod reading;
mod sameness;
mod writing;

pub use fault::FrameFault;
pub use laws::{fault_or_message, one_frame, one_message, same_bytes_same_frame};
pub use message::{Header, Msg, Party, Request, Response, Sequence};
pub use reading::read_frame;
pub use sameness::same_request;
pub use writing::{
    begin_response, end_response, write_request, write_response, write_response_into,
};
