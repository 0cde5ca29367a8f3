//! Notes.
use bmc_core::Disposition;
use text_lines::Event;
use two_wire::Bus;
use undo_core::Phase;

/// A frame that came to an end.
#[derive(Clone, Copy)]
pub struct Delivery {
    /// The bus that it came over.
    pub on: Bus,
    /// Whether the manager had begun a newer request on the bus.
    pub late: bool,
}

/// What is noted of an event that happened.
#[derive(Clone, Copy)]
pub struct Note<'a> {
    pub event: &'a Event,
    /// The frame that it delivered.
    pub came: Option<Delivery>,
    /// What the controller did with it.
    pub done: Option<Disposition>,
    /// The bus of the first frame that was sent at it.
    pub sends: Option<Bus>,
    /// How many frames had been sent before it.
    pub before: usize,
    /// How many had been sent after it.
    pub after: usize,
    /// The manager's phase after it.
    pub phase: Phase,
}
