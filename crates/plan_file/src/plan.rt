//! The text of a plan.
ghost use Rattle.std.specs.Prelude.{◌≡◌, ◌⊎◌, ◌≤◌, [], true, Err, Some, IfOk, IfErr, length, map};
ghost use Rattle.toml.specs.View.{table_view, view};
ghost use Rattle.std.specs.List.{list_all, AllZip};
ghost use Rattle.two_wire.specs.Retries.{most_retries};
ghost use Rattle.undo_plans.specs.Steps.{most_steps};
ghost use Rattle.text_fields.specs.Trees.{number_in, table_of};
ghost use Rattle.text_fields.specs.Ranges.{is_table};
ghost use Rattle.text_fields.specs.Faults.{field_faults, first};
ghost use Rattle.plan_file.specs.PlanFaults.{own_fault, step_faults, steps_faults};
ghost use Rattle.plan_file.specs.PlanHolds.{IsStepIn, or_three, AnswersPlan, ReadsPlan};

use crate::plan_fault::PlanFault;
use crate::step::read_step;
use record_base::Op;
use record_base::attribute_sizes::MOST_SENT;
use std::alloc::Global;
use text_fields::tree::{members_in, number};
use text_fields::{Field, FieldFault, Need, Row, Shape, first_fault};
use toml::{Table, Value};
use two_wire::{Bytes, MOST_RETRIES, Retries};
use undo_plans::{MOST_STEPS, Plan, Steps};

/// A plan's own fields.
pub const PLAN: [Row; 2] = [
    Row(
        Field::Retries,
        Shape::Number(0, MOST_RETRIES as u32),
        Need::Never,
    ),
    Row(Field::Step, Shape::Tables(MOST_STEPS), Need::Never),
];

/// How often the frames of a request are sent again where a plan doesn't say it.
pub const RETRIES: u8 = 3;

/// The fault, of a plan's own field: too many steps have a name of their own.
fn of_plan(fault: FieldFault) -> PlanFault
    ensures { result ≡ own_fault fault }
{
    match fault {
        FieldFault::Range(Field::Step) => PlanFault::TooMany,
        fault => PlanFault::Field(fault),
    }
}

/// The change that the step of this place asks for. What it gives to an attribute is written to `room`.
fn step_at<'v>(
    place: usize,
    value: &Value,
    room: &'v mut Bytes<{ MOST_SENT }>,
) -> Result<Op<'v>, PlanFault>
    requires { is_table (view value.now) ≡ true }
    ensures sound { IfOk result (λ _. step_faults (table_of (view value.now)) ≡ []) }
    ensures held { IfOk result (IsStepIn (view value.now)) }
    ensures err { IfErr result
        (λ why. first (map (PlanFault.Step place) (step_faults (table_of (view value.now))))
        ≡ Some why) }
{
    match read_step(value.as_table().unwrap(), room) {
        Ok(op) => Ok(op),
        Err(fault) => Err(PlanFault::Step(place, fault)),
    }
}

/// The changes that these steps ask for, up to the first fault.
fn steps_of(alloc: Global, values: &[Value]) -> Result<Steps, PlanFault>
    requires tables { list_all (λ value. is_table (view value)) values.now ≡ true }
    requires few { length values.now ≤ most_steps }
    ensures sound { IfOk result (λ _. steps_faults 0 (map view values.now) ≡ []) }
    ensures held { IfOk result (λ steps. AllZip IsStepIn (map view values.now) steps) }
    ensures err { IfErr result
        (λ why. (why ≡ PlanFault.Memory)
        ⊎ (first (steps_faults 0 (map view values.now)) ≡ Some why)) }
{
    let mut steps = Steps::none(alloc);
    for (place, value) in values.iter().enumerate() {
        let mut room = Bytes::new();
        let op = step_at(place, value, &mut room)?;
        match steps.push(&op) {
            Ok(()) => {}
            Err(_) => return Err(PlanFault::Memory),
        }
    }
    Ok(steps)
}

/// The number, as one of retries.
fn retries_of(number: u64) -> Retries
    requires { number ≤ most_retries }
    ensures { result ≡ number }
{
    Retries::new(number as u8)
}

/// How often the plan lets frames be sent again.
fn retries(tree: &Table) -> Retries
    requires { field_faults PLAN (table_view tree.now) ≡ [] }
    ensures { result ≡ or_three (number_in Field.Retries (table_view tree.now)) }
{
    match number(tree, Field::Retries) {
        Some(number) => retries_of(number),
        None => Retries::new(RETRIES),
    }
}

/// The plan that the tree holds, or its first fault.
fn plan_of(alloc: Global, tree: &Table) -> Result<Plan, PlanFault>
    ensures { (result ≡ Err PlanFault.Memory) ⊎ AnswersPlan (table_view tree.now) result }
{
    if let Some(fault) = first_fault(&PLAN, tree) {
        return Err(of_plan(fault));
    }
    let steps = steps_of(alloc, members_in(tree, Field::Step))?;
    Ok(Plan {
        steps,
        retries: retries(tree),
    })
}

/// The plan that the text holds, or why it is no plan: its first fault. The faults of the plan's own fields come first, then those
/// of each step in the file's order, in the order in which `StepFault` and the tables of fields list them. Keys that name no
/// field are ignored.
pub fn read_plan(alloc: Global, text: &str) -> Result<Plan, PlanFault>
    ensures { (result ≡ Err PlanFault.Memory) ⊎ ReadsPlan text.now result }
{
    match toml::table_from_str(alloc, text) {
        Ok(tree) => plan_of(alloc, &tree),
        Err(error) if error.is_memory() => Err(PlanFault::Memory),
        Err(_) => Err(PlanFault::Text),
    }
}
