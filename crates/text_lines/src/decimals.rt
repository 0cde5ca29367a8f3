//! Numbers in decimal digits.
ghost use Rattle.std.specs.Prelude.{◌==◌, slice_index, ◌≡◌, ◌≢◌, ◌<◌, ◌≤◌, ◌^◌, ℕ, IfSome, IfNone, length};
ghost use Rattle.std.specs.Option.{SomeIff};
ghost use Rattle.std.specs.Fmt.{decimal};
ghost use Rattle.std.specs.Str.Parse.{IsNumeral, digits_value};

/// Whether the word's first byte is this one.
fn begins_with(word: &str, first: u8) -> bool
    requires { 0 < first }
    ensures { result ≡ (slice_index word.now 0 == first) }
{
    match word.as_bytes() {
        [byte, ..] => *byte == first,
        [] => false,
    }
}

/// The number that the word is in decimal digits, of which the first is 0 only where it's the only one.
pub fn plain_number(word: &str) -> Option<u32>
    ensures some { IfSome result (λ number. (number < 2 ^ 32) × (word.now ≡ decimal number)) }
    ensures none { IfNone result ((number : ℕ) → number < 2 ^ 32 → word.now ≢ decimal number) }
{
    if begins_with(word, b'+') {
        return None;
    }
    if begins_with(word, b'0') && word.len() > 1 {
        return None;
    }
    word.parse().ok()
}

/// The number that the word is in at most so many decimal digits, of which the first ones may be 0.
pub fn number(word: &str, most: usize) -> Option<u32>
    requires { most ≤ 9 }
    ensures { SomeIff result (IsNumeral 10 word.now × (length word.now ≤ most))
        (digits_value 10 word.now) }
{
    if begins_with(word, b'+') || word.len() > most {
        return None;
    }
    word.parse().ok()
}
