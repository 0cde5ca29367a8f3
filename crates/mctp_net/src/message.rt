//! Messages.
use crate::{Envelope, SomeData};
use two_wire::size::MOST_MESSAGE_BYTES;

/// A message: its first byte is its type, 00h for control and 01h for PLDM (DSP0239, "MCTP message type codes").
#[derive(Drop)]
pub struct Message<'a> {
    pub envelope: Envelope,
    /// All bytes of the message, the type first, where they lie.
    pub body: SomeData<'a, { MOST_MESSAGE_BYTES }>,
}
