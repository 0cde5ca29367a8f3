//! The look by which it is known which steps of a plan are kept.
ghost use Rattle.std.specs.Prelude.{◌≡◌, ◌<◌, IfErr, IfOk, Some, length, map, slice_get};
ghost use Rattle.record_base.specs.declared.op.Op.{Op as AnyOp};
ghost use Rattle.record_kinds.specs.Limits.{key_of};
ghost use Rattle.app_look.specs.Reading.{FindsWithNames};
ghost use Rattle.app_change.specs.KeepLook.{FailsFor, KeptByLook, records_of};

use crate::keeping::{Narrowed, kept_steps};
use app_look::{KnownNames, LookFault, NamedRecords, OpenFault, Way, look_and_name};
use record_base::{Key, RecordKind};
use record_kinds::Limits;
use std::alloc::{AllocError, Global};
use std::net::Net;
use undo_plans::Steps;

/// The steps that a look keeps, and the names of sensors and attributes that were read behind it.
#[derive(Drop)]
pub struct NamedSteps {
    pub narrowed: Narrowed,
    pub names: KnownNames,
}

/// The record of the step of this place.
fn key_at(steps: &Steps, place: usize) -> Key
    requires { place < length steps.now }
    ensures { (op : AnyOp) → slice_get steps.now place ≡ Some op → result ≡ key_of op }
{
    let _steps = steps.len();
    let op = steps.get(place).unwrap();
    Limits::key(&op)
}

/// The records of the steps, in their order.
fn keys_of(alloc: Global, steps: &Steps) -> Result<Vec<Key>, AllocError>
    ensures { IfOk result (λ keys. keys.items ≡ map key_of steps.now) }
{
    let mut keys = Vec::new(alloc);
    for place in 0..steps.len() {
        keys.push(key_at(steps, place))?;
    }
    Ok(keys)
}

/// Greets the controller, looks at the record of each step, and reads the names of sensors and attributes.
fn look<R: Net>(rt: &R, alloc: Global, way: &Way, steps: &Steps) -> Result<NamedRecords, LookFault>
    ensures found { IfOk result (λ named.
        FindsWithNames way.now (records_of steps.now) named.found.items named.names) }
    ensures fault { IfErr result (FailsFor way.now steps.now) }
{
    match keys_of(alloc, steps) {
        Ok(keys) => look_and_name(rt, alloc, way, keys.as_slice()),
        Err(AllocError) => Err(LookFault::Unopened(OpenFault::Memory)),
    }
}

/// Greets the controller, looks at the record of each step, and keeps those steps that change something.
pub fn keep_by_look<R: Net>(
    rt: &R,
    alloc: Global,
    way: &Way,
    steps: &Steps,
) -> Result<NamedSteps, LookFault>
    ensures kept { IfOk result (λ told.
        KeptByLook way.now steps.now told.narrowed.kept told.names) }
    ensures fault { IfErr result (FailsFor way.now steps.now) }
{
    match look(rt, alloc, way, steps) {
        Ok(named) => {
            let NamedRecords { found, names } = named;
            match kept_steps(alloc, steps, found.as_slice()) {
                Ok(narrowed) => Ok(NamedSteps { narrowed, names }),
                Err(AllocError) => Err(LookFault::Unopened(OpenFault::Memory)),
            }
        }
        Err(why) => Err(why),
    }
}
