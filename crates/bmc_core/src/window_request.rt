//! Requests as a port hears them, and what it does with one.
use two_wire::{Below, Data};

/// A request of one of `NUMBERS` numbers.
#[derive(Drop)]
pub struct WindowRequest<'a, const NUMBERS: u8> {
    /// Its bytes behind the first, where they lie.
    pub rest: &'a [u8],
    /// Who asks: an address of IPMB, or an EID.
    pub requester: u8,
    /// The number that the requester gave to it.
    pub number: Below<NUMBERS>,
    /// The first of its bytes.
    pub first: u8,
}

/// What is to be done with a request.
#[derive(Drop)]
pub enum Found<'a, const CAP: usize> {
    /// The request is answered by the reply of the one that it repeats.
    Repeats(Data<'a, CAP>),
    /// The request is answered that the port is busy.
    Busy,
    /// The request is carried out, and then kept.
    New,
}
