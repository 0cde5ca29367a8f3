//! How much room the requests need that undo a plan.
ghost use Rattle.std.specs.Prelude.{◌≡◌, ◌≤◌, [], IfOk, OnOk};
ghost use Rattle.undo_plans.specs.Requests.{most_undo_data};
ghost use Rattle.undo_core.specs.Room.{most_data, data_for, HasRoom};

use cfg_records::Op;
use std::alloc::{AllocError, Global};
use two_wire::size::MOST_IPMI_REQUEST_DATA;
use undo_plans::{MOST_UNDO_DATA, Requests, Steps};

/// The most bytes of data of a request that undoes an operation of this kind.
fn most_bytes(op: &Op<'_>) -> usize
    ensures value { result ≡ most_data op.now }
    ensures small { result ≤ most_undo_data }
{
    match op {
        Op::BiosAttribute(_) => MOST_UNDO_DATA,
        _ => MOST_IPMI_REQUEST_DATA,
    }
}

/// The most bytes of data of all requests that undo these steps.
fn bytes_for(steps: &Steps) -> usize
    ensures { result ≡ data_for steps.now }
{
    let mut bytes = 0;
    for place in 0..steps.len() {
        let op = steps.get(place).unwrap();
        bytes += most_bytes(&op);
    }
    bytes
}

/// Takes the memory for the requests that undo these steps, behind those that there are.
pub(crate) fn make_room(requests: &mut Requests, steps: &Steps) -> Result<(), AllocError>
    ensures members { requests.new.members ≡ requests.old.members }
    ensures waiting { requests.new.waiting ≡ requests.old.waiting }
    ensures room { OnOk result (HasRoom steps.now requests.new) }
{
    requests.reserve(steps.len(), bytes_for(steps))
}

/// No request, with the room for those that undo these steps.
pub(crate) fn room_for(alloc: Global, steps: &Steps) -> Result<Requests, AllocError>
    ensures members { IfOk result (λ requests. requests.members ≡ []) }
    ensures room { IfOk result (λ requests. HasRoom steps.now requests) }
{
    Requests::open(alloc, steps.len(), bytes_for(steps))
}
