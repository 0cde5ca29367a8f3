//! Bytes in hexadecimal.
ghost use Rattle.std.specs.Prelude.{◌≡◌, ◌<◌, Some, true};
ghost use Rattle.std.specs.Fmt.{digit_glyph};
ghost use Rattle.record_words.specs.Digits.{hex_of, spaced_of};

use std::fmt;

/// The hexadecimal digit of a number, in upper case.
fn digit(number: u8) -> u8
    requires { number < 16 }
    ensures value { result ≡ digit_glyph true number }
    ensures ascii { result < 128 }
{
    if number < 10 {
        b'0' + number
    } else {
        b'A' - 10 + number
    }
}

/// A byte, shown as two hexadecimal digits in upper case.
#[derive(Clone, Copy)]
pub(crate) struct Hex(pub(crate) u8);

impl fmt::Display for Hex {
    ghost output = { λ it. Some (hex_of it.0) };

    fn fmt<W: fmt::Write>(&self, f: &mut fmt::Formatter<W>) -> fmt::Result {
        let high = digit(self.0 / 16 % 16);
        let low = digit(self.0 % 16);
        f.write_char(high as char)?;
        f.write_char(low as char)
    }
}

/// Bytes, each shown as a space and two hexadecimal digits.
#[derive(Clone, Copy)]
pub(crate) struct Spaced<'a>(pub(crate) &'a [u8]);

impl fmt::Display for Spaced<'_> {
    ghost output = { λ it. Some (spaced_of it.0.now) };

    fn fmt<W: fmt::Write>(&self, f: &mut fmt::Formatter<W>) -> fmt::Result {
        for byte in self.0 {
            let digits = Hex(*byte);
            write!(f, " {digits}")?;
        }
        Ok(())
    }
}
