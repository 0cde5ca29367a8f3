//! The buses on which requests go.
ghost use Rattle.std.specs.Prelude.{◌≡◌, ◌||◌, map};
ghost use Rattle.bmc_core.specs.Wires.{bus_of as bus_of_request};
ghost use Rattle.model_undo.specs.Machine.{same_bus};
ghost use Rattle.undo_plans.specs.Requests.{meant};
ghost use Rattle.app_run.specs.Buses.{bus_of_step, is_used};

use record_base::{Asked, Op, RecordKind};
use record_kinds::Limits;
use two_wire::Bus;
use undo_plans::{Requests, Steps, UndoRequest};

/// Whether both are the same.
fn is_same(bus: Bus, other: Bus) -> bool
    ensures { result ≡ same_bus bus other }
{
    matches!(
        (bus, other),
        (Bus::Ipmb, Bus::Ipmb) | (Bus::Smbus, Bus::Smbus)
    )
}

/// Whether a bus is used that was already, or on which another request goes.
fn is_used_with(used: bool, bus: Bus, other: Bus) -> bool
    ensures { result ≡ (used || same_bus bus other) }
{
    used || is_same(bus, other)
}

/// The bus on which a request goes.
fn bus_of(asked: &Asked) -> Bus
    ensures { result ≡ bus_of_request asked.now }
{
    match asked {
        Asked::Ipmi { .. } => Bus::Ipmb,
        Asked::Pldm { .. } => Bus::Smbus,
    }
}

/// The bus on which a step's requests go.
fn bus_of_step(op: &Op<'_>) -> Bus
    ensures { result ≡ bus_of_step op.now }
{
    bus_of(&Limits::get_asked(&Limits::key(op)))
}

/// The bus on which a request goes that undoes a step.
fn bus_of_undo(request: &UndoRequest<'_>) -> Bus
    ensures { result ≡ bus_of_request (meant request.now) }
{
    match request {
        UndoRequest::Ipmi { .. } => Bus::Ipmb,
        UndoRequest::Pldm(_) => Bus::Smbus,
    }
}

/// Whether requests of the steps go on this bus.
pub fn steps_use(steps: &Steps, bus: Bus) -> bool
    ensures { result ≡ is_used bus (map bus_of_step steps.now) }
{
    let mut used = false;
    for place in 0..steps.len() {
        let op = steps.get(place).unwrap();
        used = is_used_with(used, bus, bus_of_step(&op));
    }
    used
}

/// Whether one of the requests goes on this bus.
pub fn requests_use(requests: &Requests, bus: Bus) -> bool
    ensures { result ≡ is_used bus (map bus_of_request requests.now.members) }
{
    let mut used = false;
    for place in 0..requests.len() {
        let request = requests.get(place).unwrap();
        used = is_used_with(used, bus, bus_of_undo(&request));
    }
    used
}
