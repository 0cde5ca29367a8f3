//! The links over which a worker hears frames and sends them: what a link is, one in memory, and one over UDP.
#![tactic(auto)]

mod link;
mod mem_link;
mod udp_link;

pub use link::{Counts, Heard, Link, LinkFault};
pub use mem_link::{MOST_KEPT, MemFault, MemLink};
pub use udp_link::UdpLink;
