//! Texts as printable ASCII.
ghost use Rattle.std.specs.Prelude.{◌≡◌, ◌<◌, ◌++◌, OnOk, string_bytes};
ghost use Rattle.file_words.specs.Escapes.{digit, escape, escaped, is_printable};

use std::alloc::AllocError;

/// The first byte of ASCII that is printed, a space.
const FIRST_PRINTED: u8 = b' ';

/// The last one.
const LAST_PRINTED: u8 = b'~';

/// Whether the byte is printable ASCII.
fn is_printable(byte: u8) -> bool
    ensures { result ≡ is_printable byte }
{
    FIRST_PRINTED <= byte && byte <= LAST_PRINTED
}

/// The hexadecimal digit that says the number, in lower case.
fn digit(number: u8) -> u8
    requires { number < 16 }
    ensures value { result ≡ digit number }
    ensures ascii { result < 128 }
{
    if number < 10 {
        b'0' + number
    } else {
        b'a' + (number - 10)
    }
}

/// Adds the byte as it is, or as `\x` and two hexadecimal digits.
fn push_byte(text: &mut String, byte: u8) -> Result<(), AllocError>
    ensures { OnOk result (string_bytes text.new ≡ string_bytes text.old ++ escape byte) }
{
    if is_printable(byte) {
        return text.push(byte as char);
    }
    text.push_str("\\x")?;
    text.push(digit(byte / 16) as char)?;
    text.push(digit(byte % 16) as char)
}

/// Adds the word, with `\x` and two hexadecimal digits for each byte that isn't printable ASCII.
pub fn push_escaped(text: &mut String, word: &str) -> Result<(), AllocError>
    ensures { OnOk result (string_bytes text.new ≡ string_bytes text.old ++ escaped word.now) }
{
    for byte in word.as_bytes() {
        push_byte(text, *byte)?;
    }
    Ok(())
}
