//! Masks of a byte, as sets of places: bit i stands for place i.
ghost use Rattle.std.specs.Prelude.{◌≡◌, ◌<◌};
ghost use Rattle.record_base.specs.Masks.{has, is_within};

/// Whether the mask has the place.
pub fn has(mask: u8, place: usize) -> bool
    requires { place < 8 }
    ensures { result ≡ has mask place }
{
    (mask >> place) & 1 == 1
}

/// Whether each place of the mask is one of the set's.
pub fn is_within(mask: u8, set: u8) -> bool
    ensures { result ≡ is_within mask set }
{
    mask & !set == 0
}
