//! A lab, and each event that happens in it: a board, its two ports, a manager and the frames between them; what is wrong with an
//! event, and what is noted of it.
#![tactic(auto)]

mod ages;
mod calls;
mod fault;
mod frames;
mod lab_state;
mod noise;
mod note;
mod noted;
mod others;
mod part;
mod port_side;
mod restart;
mod step;
mod told;

pub use ages::{BusAge, FrameAge, is_still_open};
pub use fault::Ages;
pub use frames::{Frames, MOST_FRAMES, SentFrame};
pub use lab_state::Lab;
pub use model_lab::{Fault, Way, lab_names};
pub use note::{Delivery, Note};
pub use others::{idle_fault, message_fault, noise_fault, request_fault};
pub use part::ManagerPart;
pub use step::Refused;
