//! Numbers on a circle, as the bits of a word.
ghost use Rattle.std.specs.Prelude.{◌≡◌, ℕ, ◌<◌, IsTrue};
ghost use Rattle.std.specs.Int.{bit_at};
ghost use Rattle.bmc_core.specs.Circle.{is_circle, next_bit};

use two_wire::circles::SEQUENCE_NUMBERS;

/// The numbers of the next half of the circle, which a window forgets when it keeps a request of this number.
pub(crate) fn next_half<const NUMBERS: u8>(number: u8) -> u64
    requires circle { IsTrue (is_circle NUMBERS) }
    requires on { number < NUMBERS }
    ensures { (n : ℕ) → n < NUMBERS → bit_at result n ≡ next_bit NUMBERS number n }
{
    let places = u32::from(number) + 1;
    if NUMBERS == SEQUENCE_NUMBERS {
        0xFFFF_FFFF_u64.rotate_left(places)
    } else {
        u64::from(0xFFFF_u32.rotate_left(places))
    }
}
