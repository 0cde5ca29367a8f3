//! Numbers among the words.
ghost use Rattle.std.specs.Prelude.{◌==◌, slice_index, ◌≡◌};

/// Whether the word begins with the sign that Rust's numbers may have and a decimal number among words has not.
pub fn has_plus(word: &str) -> bool
    ensures { result ≡ (slice_index word.now 0 == 43) }
{
    match word.as_bytes() {
        [byte, ..] => *byte == b'+',
        [] => false,
    }
}
