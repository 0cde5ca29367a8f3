//! Numbers among the words.
ghost use Rattle.std.specs.Prelude.{◌<◌, ◌≤◌, ◌^◌};
ghost use Rattle.std.specs.Option.{SomeIff};
ghost use Rattle.std.specs.Str.Parse.{IsNumeral, digits_value};

use app_base::has_plus;

/// The port that the word is in decimal digits.
pub fn port_of(word: &str) -> Option<u16>
    ensures { SomeIff result
        (IsNumeral 10 word.now × (digits_value 10 word.now < 2 ^ 16)) (digits_value 10 word.now) }
{
    if has_plus(word) {
        return None;
    }
    word.parse().ok()
}

/// The number of 32 bits that the word is in decimal digits.
pub fn number_of(word: &str) -> Option<u32>
    ensures { SomeIff result
        (IsNumeral 10 word.now × (digits_value 10 word.now < 2 ^ 32)) (digits_value 10 word.now) }
{
    if has_plus(word) {
        return None;
    }
    word.parse().ok()
}

/// The number that a word is, from the least one on.
pub fn number_from(least: u32, word: &str) -> Option<u32>
    ensures { SomeIff result
        (IsNumeral 10 word.now × (digits_value 10 word.now < 2 ^ 32)
        × (least ≤ digits_value 10 word.now))
        (digits_value 10 word.now) }
{
    let Some(number) = number_of(word) else {
        return None;
    };
    if number < least {
        return None;
    }
    Some(number)
}
