//! What a field is, in words.
ghost use Rattle.std.specs.Prelude.{Some};
ghost use Rattle.std.specs.Fmt.{DisplaysOnOk};
ghost use Rattle.record_words.specs.ShownWords as words;

use crate::boot_way::BootWay;
use crate::digits::{Hex, Spaced};
use crate::meaning::Meaning;
use crate::numbers::SizedNumber;
use crate::quoted::{Quoted, trimmed};
use record_base::user_sizes::USER_NAME_SIZE;
use std::fmt;

/// What a field is.
#[derive(Clone, Copy, PartialEq)]
pub enum Shown {
    /// An operation leaves the field.
    Kept,
    /// A byte that counts, as of a threshold.
    Raw(u8),
    /// A byte that doesn't count, as of bits.
    Bits(u8),
    /// The events of a sensor, a bit for each.
    Events(u16),
    Number(u32),
    /// Whether something is on.
    Switch(bool),
    /// What a number means.
    Means(Meaning),
    /// The name of a user, behind which there is 00h.
    Name([u8; USER_NAME_SIZE]),
    /// An address of the Internet Protocol, version 4.
    Address([u8; 4]),
    /// Bits of a mask.
    Masked(MaskedByte),
    /// How a system boots.
    Boot(BootWay),
    /// Bytes.
    Bytes([u8; 5]),
    /// The number of an effecter.
    Sized(SizedNumber),
    /// The state of an effecter's field, with another choice than 00h and 01h.
    Chosen(ChosenState),
}

/// The bits that a request gives to the places of a mask.
#[derive(Clone, Copy, PartialEq)]
pub struct MaskedByte {
    pub mask: u8,
    pub bits: u8,
}

/// A state, and the choice in front of it.
#[derive(Clone, Copy, PartialEq)]
pub struct ChosenState {
    pub choice: u8,
    pub state: u8,
}

impl Shown {
    /// Writes bytes and bits.
    fn write_bits<W: fmt::Write>(&self, f: &mut fmt::Formatter<W>) -> fmt::Result
        ensures { DisplaysOnOk W.write_str_gives f.old result (words.bits_words self.now) f.new }
    {
        match self {
            Shown::Raw(byte) => {
                let digits = Hex(*byte);
                write!(f, "{byte} ({digits}h)")
            }
            Shown::Bits(byte) => {
                let digits = Hex(*byte);
                write!(f, "{digits}h")
            }
            Shown::Events(events) => {
                let [low, high] = events.to_le_bytes();
                let front = Hex(high);
                let back = Hex(low);
                write!(f, "{front}{back}h")
            }
            Shown::Masked(MaskedByte { mask, bits }) => {
                let set = Hex(*bits);
                let within = Hex(*mask);
                write!(f, "bits {set}h of {within}h")
            }
            Shown::Chosen(ChosenState { choice, state }) => {
                let digits = Hex(*choice);
                write!(f, "{state} (choice {digits}h)")
            }
            _ => Ok(()),
        }
    }

    /// Writes texts, addresses and numbers.
    fn write_others<W: fmt::Write>(&self, f: &mut fmt::Formatter<W>) -> fmt::Result
        ensures { DisplaysOnOk W.write_str_gives f.old result (words.other_words self.now) f.new }
    {
        match self {
            Shown::Number(number) => write!(f, "{number}"),
            Shown::Name(name) => {
                let text = Quoted(trimmed(name));
                write!(f, "{text}")
            }
            Shown::Address([first, second, third, fourth]) => {
                write!(f, "{first}.{second}.{third}.{fourth}")
            }
            Shown::Bytes(bytes) => {
                let digits = Spaced(bytes);
                write!(f, "bytes{digits}")
            }
            _ => Ok(()),
        }
    }
}

impl fmt::Display for Shown {
    ghost use Rattle.record_words.specs.ShownWords.{shown_words};

    ghost output = { λ it. Some (shown_words it) };

    fn fmt<W: fmt::Write>(&self, f: &mut fmt::Formatter<W>) -> fmt::Result {
        match self {
            Shown::Kept => f.write_str("as it is"),
            Shown::Switch(true) => f.write_str("on"),
            Shown::Switch(false) => f.write_str("off"),
            Shown::Means(meaning) => write!(f, "{meaning}"),
            Shown::Boot(way) => write!(f, "{way}"),
            Shown::Sized(number) => write!(f, "{number}"),
            Shown::Raw(_)
            | Shown::Bits(_)
            | Shown::Events(_)
            | Shown::Masked(_)
            | Shown::Chosen(_) => self.write_bits(f),
            Shown::Number(_) | Shown::Name(_) | Shown::Address(_) | Shown::Bytes(_) => {
                self.write_others(f)
            }
        }
    }
}
