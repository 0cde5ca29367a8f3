//! MCTP over the System Management Bus: packets, messages cut into packets and assembled again, and an endpoint's
//! control commands.
#![tactic(auto)]

mod assembler;
mod control_fault;
mod endpoint;
mod fault;
mod laws;
mod message;
mod packet;
mod place;
mod placing;
mod reading;
mod some_data;
mod splitting;
mod taken;
mod writing;

pub use assembler::Assembler;
pub use control_fault::ControlFault;
pub use endpoint::{ControlReply, Endpoint, EndpointId};
pub use fault::PacketFault;
pub use laws::{
    comes_back, each_name_alone, fault_or_packet, has_cut, one_cut, one_packet, stays_sound,
};
pub use message::Message;
pub use packet::{Envelope, Name, Packet, Payload, Sequence, Tag, UNIT_SIZE};
pub use reading::read_packet;
pub use some_data::SomeData;
pub use splitting::{split, split_into};
pub use taken::{DropCause, Taken};
pub use writing::{write_packet, write_packet_into};
