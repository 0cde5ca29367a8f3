//! Texts in quotes, as printable ASCII.
ghost use Rattle.std.specs.Prelude.{◌≡◌, Some};
ghost use Rattle.std.specs.Fmt.{DisplaysOnOk};
ghost use Rattle.record_words.specs.Quotes.{escape_of, escaped, is_plain, quoted, trimmed};

use crate::digits::Hex;
use std::fmt;

/// The first byte of ASCII that is printed, a space.
const FIRST_PRINTED: u8 = b' ';

/// The last one.
const LAST_PRINTED: u8 = b'~';

/// Whether the byte is printable ASCII, and neither a quote nor a backslash.
fn is_plain(byte: u8) -> bool
    ensures { result ≡ is_plain byte }
{
    FIRST_PRINTED <= byte && byte <= LAST_PRINTED && byte != b'"' && byte != b'\\'
}

/// A byte of a text: as it is where it is plain, and else `\x` and two hexadecimal digits.
#[derive(Clone, Copy)]
struct Escaped(u8);

impl fmt::Display for Escaped {
    ghost output = { λ it. Some (escape_of it.0) };

    fn fmt<W: fmt::Write>(&self, f: &mut fmt::Formatter<W>) -> fmt::Result {
        if is_plain(self.0) {
            return f.write_char(self.0 as char);
        }
        let digits = Hex(self.0);
        write!(f, "\\x{digits}")
    }
}

/// The bytes of a text, shown between quotes as printable ASCII.
#[derive(Clone, Copy)]
pub struct Quoted<'a>(pub &'a [u8]);

impl fmt::Display for Quoted<'_> {
    ghost output = { λ it. Some (quoted it.0.now) };

    fn fmt<W: fmt::Write>(&self, f: &mut fmt::Formatter<W>) -> fmt::Result {
        f.write_str("\"")?;
        self.write_escaped(f)?;
        f.write_str("\"")
    }
}

impl Quoted<'_> {
    /// Writes the bytes, each as it is or escaped.
    fn write_escaped<W: fmt::Write>(&self, f: &mut fmt::Formatter<W>) -> fmt::Result
        ensures { DisplaysOnOk W.write_str_gives f.old result
            (Some (escaped self.now.0.now)) f.new }
    {
        for byte in self.0 {
            let shown = Escaped(*byte);
            write!(f, "{shown}")?;
        }
        Ok(())
    }
}

/// The bytes without the 00h at their end.
pub(crate) fn trimmed(bytes: &[u8]) -> &[u8]
    ensures { result.now ≡ trimmed bytes.now }
{
    let mut end = bytes.len();
    while end > 0 && bytes[end - 1] == 0 {
        end -= 1;
    }
    &bytes[..end]
}
