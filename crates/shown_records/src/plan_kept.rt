//! Whether a text is read as the steps that it was written of.
ghost use Rattle.std.specs.Prelude.{◌≡◌, ◌↔◌, IfOk, IsTrue};
ghost use Rattle.record_base.specs.Keys.{same_key};
ghost use Rattle.record_kinds.specs.Limits.{key_of, words};
ghost use Rattle.shown_records.specs.KeptText.{AreAlike, IsAlike, IsPlanText};

use plan_file::{PlanFault, one_plan, read_plan};
use record_base::{Key, Op, RecordKind};
use record_kinds::Limits;
use std::alloc::{AllocError, Global};
use undo_plans::Steps;

/// Whether both records are the same.
fn is_same_record(first: &Key, second: &Key) -> bool
    ensures { result ≡ same_key first.now second.now }
{
    first.cmp(second).is_eq()
}

/// Whether both operations are on the same record.
fn are_on_one_record(first: &Op<'_>, second: &Op<'_>) -> bool
    ensures { IsTrue result ↔ (key_of first.now ≡ key_of second.now) }
{
    let one = Limits::key(first);
    let other = Limits::key(second);
    is_same_record(&one, &other)
}

/// Whether both operations have the same data in their requests.
fn have_same_data(first: &Op<'_>, second: &Op<'_>) -> bool
    ensures { IsTrue result ↔ (words.set_data first.now ≡ words.set_data second.now) }
{
    Limits::set_data(first).as_slice() == Limits::set_data(second).as_slice()
}

/// Whether both operations are on the same record, and are carried out by the same request.
fn are_alike(first: &Op<'_>, second: &Op<'_>) -> bool
    ensures { IsTrue result ↔ IsAlike first.now second.now }
{
    are_on_one_record(first, second) && have_same_data(first, second)
}

/// Whether the steps are carried out by the same requests.
fn are_all_alike(first: &Steps, second: &Steps) -> bool
    ensures { IsTrue result ↔ AreAlike first.now second.now }
{
    if first.len() != second.len() {
        return false;
    }
    for place in 0..first.len() {
        let one = first.get(place).unwrap();
        let other = second.get(place).unwrap();
        if !are_alike(&one, &other) {
            return false;
        }
    }
    true
}

/// Whether the text is a plan of these steps.
pub(crate) fn is_kept_by(alloc: Global, text: &str, steps: &Steps) -> Result<bool, AllocError>
    ensures { IfOk result (λ kept. IsTrue kept ↔ IsPlanText text.now steps.now) }
{
    one_plan();
    match read_plan(alloc, text) {
        Ok(plan) => Ok(are_all_alike(&plan.steps, steps)),
        Err(PlanFault::Memory) => Err(AllocError),
        Err(_) => Ok(false),
    }
}
