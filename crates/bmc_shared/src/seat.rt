//! Those who may call the board.
ghost use Rattle.std.specs.Prelude.{◌≡◌, [], false, length};

use crate::events::Calls;
use crate::opening::Opening;
use std::sync::ledger::Share;

/// One that may call the board: its number, what it called and was answered, and its share of the ledger that counts the history's events.
#[derive(Drop)]
pub struct Seat<J: Opening> {
    pub(crate) number: u8,
    pub(crate) calls: Calls,
    /// Whether a call of it found the history full.
    pub(crate) refused: bool,
    pub(crate) share: Share<J>,
    ghost counted: { length calls.items ≡ share.amount },
    ghost roomy: { calls.room ≡ J.room },
    ghost one_part: { share.parts ≡ 1 },
}

/// The three seats of one board: those of two ports, 0 and 1, and the scanner's, 2.
#[derive(Drop)]
pub struct Seats<J: Opening> {
    pub first: Seat<J>,
    pub second: Seat<J>,
    pub scanner: Seat<J>,
    ghost numbers: { (first.number ≡ 0) × (second.number ≡ 1) × (scanner.number ≡ 2) },
}

impl<J: Opening> Seat<J> {
    /// A seat that called nothing yet.
    pub(crate) fn new(number: u8, calls: Calls, share: Share<J>) -> Self
        requires empty { calls.items ≡ [] }
        requires room { calls.room ≡ J.room }
        requires part { share.parts ≡ 1 }
        requires none { share.amount ≡ 0 }
        ensures number { result.number ≡ number }
        ensures calls { result.calls.items ≡ [] }
        ensures refused { result.refused ≡ false }
    {
        Seat {
            number,
            calls,
            refused: false,
            share,
        }
    }

    /// The seat's number.
    pub fn number(&self) -> u8
        ensures { result ≡ self.now.number }
    {
        self.number
    }

    /// What it called and was answered, in order.
    pub fn calls(&self) -> &Calls
        ensures { result.now.items ≡ self.now.calls.items }
    {
        &self.calls
    }

    /// Whether a call of it found the history full.
    pub fn was_refused(&self) -> bool
        ensures { result ≡ self.now.refused }
    {
        self.refused
    }

    /// How many calls it made, and its share. It lets its list go.
    pub(crate) fn close(self) -> (usize, Share<J>)
        ensures calls { result.0 ≡ length self.calls.items }
        ensures counted { result.0 ≡ result.1.amount }
        ensures part { result.1.parts ≡ 1 }
    {
        let Seat {
            number: _,
            calls,
            refused: _,
            share,
        } = self;
        (calls.len(), share)
    }
}
