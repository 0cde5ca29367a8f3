//! The number of an effecter in words, by its size.
ghost use Rattle.std.specs.Prelude.{◌≡◌, Some};
ghost use Rattle.std.specs.Fmt.{DisplaysOnOk};
ghost use Rattle.record_words.specs.NumberWords as words;

use crate::meaning::Meaning;
use std::fmt;

/// The number of an effecter: the code of its size (DSP0248), how many bytes it has, and these as a number without a sign.
#[derive(Clone, Copy, PartialEq)]
pub struct SizedNumber {
    pub code: u8,
    pub width: u8,
    pub number: u32,
}

/// How many numbers so many bytes have.
fn span(width: u8) -> u64
    ensures { result ≡ words.span width }
{
    match width {
        1 => 0x100,
        2 => 0x1_0000,
        _ => 0x1_0000_0000,
    }
}

/// The size of a code.
fn size_of(code: u8) -> Meaning
    ensures { result ≡ words.size_of code }
{
    match code {
        0 => Meaning::Uint8,
        1 => Meaning::Sint8,
        2 => Meaning::Uint16,
        3 => Meaning::Sint16,
        4 => Meaning::Uint32,
        5 => Meaning::Sint32,
        _ => Meaning::UnknownSize,
    }
}

/// How many bytes a number has whose size has this code.
fn width_of(code: u8) -> u8
    ensures { result ≡ words.width_of code }
{
    match code {
        0 | 1 => 1,
        2 | 3 => 2,
        4 | 5 => 4,
        _ => 0,
    }
}

impl SizedNumber {
    /// Whether it is a number below 0, in two's complement.
    fn is_negative(&self) -> bool
        ensures { result ≡ words.is_negative self.now }
    {
        self.code % 2 == 1 && u64::from(self.number) >= span(self.width) / 2
    }

    /// Writes the number, with its sign.
    fn write_number<W: fmt::Write>(&self, f: &mut fmt::Formatter<W>) -> fmt::Result
        ensures { DisplaysOnOk W.write_str_gives f.old result (Some (words.number_words self.now))
            f.new }
    {
        let number = u64::from(self.number);
        if !self.is_negative() {
            return write!(f, "{number}");
        }
        let below = span(self.width).saturating_sub(number);
        write!(f, "-{below}")
    }

    /// Writes its size, and how many bytes it has where these aren't the size's.
    fn write_size<W: fmt::Write>(&self, f: &mut fmt::Formatter<W>) -> fmt::Result
        ensures { DisplaysOnOk W.write_str_gives f.old result (Some (words.size_words self.now))
            f.new }
    {
        let code = self.code;
        let width = self.width;
        let size = size_of(code);
        if width == width_of(code) {
            return write!(f, " ({size})");
        }
        write!(f, " ({size} {code}, {width} bytes)")
    }
}

impl fmt::Display for SizedNumber {
    ghost output = { λ it. Some (words.sized_words it) };

    fn fmt<W: fmt::Write>(&self, f: &mut fmt::Formatter<W>) -> fmt::Result {
        self.write_number(f)?;
        self.write_size(f)
    }
}
