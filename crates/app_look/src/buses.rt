//! The buses on which looks go.
ghost use Rattle.std.specs.Prelude.{◌≡◌, ◌||◌};
ghost use Rattle.model_undo.specs.Machine.{same_bus};
ghost use Rattle.app_look.specs.Findings.{are_used, bus_at};

use record_base::{Asked, Key, RecordKind};
use record_kinds::Limits;
use two_wire::Bus;

/// The bus on which a record's Get goes.
fn bus_of(key: &Key) -> Bus
    ensures { result ≡ bus_at key.now }
{
    match Limits::get_asked(key) {
        Asked::Ipmi { .. } => Bus::Ipmb,
        Asked::Pldm { .. } => Bus::Smbus,
    }
}

/// Whether a bus is used that was already, or that is this one.
fn is_used_with(used: bool, bus: Bus, other: Bus) -> bool
    ensures { result ≡ (used || same_bus bus other) }
{
    let same = matches!(
        (bus, other),
        (Bus::Ipmb, Bus::Ipmb) | (Bus::Smbus, Bus::Smbus)
    );
    used || same
}

/// Whether a Get of one of the records goes on this bus.
pub(crate) fn looks_use(keys: &[Key], bus: Bus) -> bool
    ensures { result ≡ are_used bus keys.now }
{
    let mut used = false;
    for key in keys {
        used = is_used_with(used, bus, bus_of(key));
    }
    used
}
