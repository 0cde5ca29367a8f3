//! Numbers among the words.
ghost use Rattle.std.specs.Prelude.{◌≤◌, ◌<◌, ◌^◌};
ghost use Rattle.std.specs.Option.{SomeIff};
ghost use Rattle.std.specs.Str.Parse.{IsNumeral, digits_value};

use app_base::has_plus;
use lab_play::Percent;

/// The number behind the most of a hundred.
pub const PERCENT_END: u64 = 101;

/// That behind the most frames of a hundred that are late: where all were, nothing would be left to come past them.
pub const DELAY_END: u64 = 100;

/// The number that the word is in decimal digits.
pub fn number_of(word: &str) -> Option<u64>
    ensures { SomeIff result
        (IsNumeral 10 word.now × (digits_value 10 word.now < 2 ^ 64)) (digits_value 10 word.now) }
{
    if has_plus(word) {
        return None;
    }
    word.parse().ok()
}

/// How many of a hundred the word is in decimal digits, where that is below the end.
pub fn percent_of(word: &str, end: u64) -> Option<Percent>
    requires { end ≤ 101 }
    ensures { SomeIff result
        (IsNumeral 10 word.now × (digits_value 10 word.now < end)) (digits_value 10 word.now) }
{
    match number_of(word) {
        Some(number) if number < end => Some(Percent::new(number as u8)),
        _ => None,
    }
}
