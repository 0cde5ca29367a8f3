//! Under which numbers a greeting's requests go.
ghost use Rattle.std.specs.Prelude.{◌≡◌};
ghost use Rattle.undo_plans.specs.GreetingPlaces.{greeting_places};
ghost use Rattle.undo_plans.specs.Greeter.{place_after};

use two_wire::Bus;

/// The places of the requests on IPMB, counted from the manager's next request: half a circle of
/// numbers before that, and right before it.
const IPMB_PLACES: [u8; 2] = [31, 63];

/// Those on SMBus: half a circle before, and then one under each of the eight tags.
const SMBUS_PLACES: [u8; 9] = [15, 24, 25, 26, 27, 28, 29, 30, 31];

/// The places of the requests on a bus.
fn places(bus: Bus) -> &'static [u8]
    ensures { result.now ≡ greeting_places bus }
{
    match bus {
        Bus::Ipmb => &IPMB_PLACES,
        Bus::Smbus => &SMBUS_PLACES,
    }
}

/// The first place above this one.
pub(crate) fn place_after(bus: Bus, place: u8) -> Option<u8>
    ensures { result ≡ place_after bus place }
{
    places(bus).iter().copied().find(|next| place < *next)
}
