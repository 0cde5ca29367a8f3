//! The first fault of a step.
ghost use Rattle.std.specs.Prelude.{◌≡◌, None, Some};
ghost use Rattle.std.specs.List.{find};
ghost use Rattle.toml.specs.View.{table_view};
ghost use Rattle.text_fields.specs.Faults.{first};
ghost use Rattle.plan_file.specs.PlanFaults.{outside_word, is_outside, asks, kind_faults, step_faults};

use plan_file::{KIND, NoGet, OutsidePlan, StepFault, kind_in};
use text_fields::tree::{has_text, in_field, number};
use text_fields::{Field, first_fault};
use toml::Table;

/// All that no plan changes.
const OUTSIDE: [OutsidePlan; 3] = [OutsidePlan::Password, OutsidePlan::Clock, OutsidePlan::Log];

/// All that no Get shows.
const NO_GETS: [NoGet; 4] = [
    NoGet::SessionLimit,
    NoGet::FlagsClear,
    NoGet::BothStores,
    NoGet::SetInProgress,
];

/// What a step's `kind` calls it.
fn word_of(outside: OutsidePlan) -> &'static str
    ensures { result.now ≡ outside_word outside }
{
    match outside {
        OutsidePlan::Password => "password",
        OutsidePlan::Clock => "clock",
        OutsidePlan::Log => "log",
    }
}

/// Whether the step asks for it.
fn asks(step: &Table, no_get: NoGet) -> bool
    ensures { result ≡ asks (table_view step.now) no_get }
{
    match no_get {
        NoGet::SessionLimit => {
            has_text(step, Field::Kind, "user-access")
                && in_field(step, Field::SessionLimit).is_some()
        }
        NoGet::FlagsClear => {
            has_text(step, Field::Kind, "watchdog") && in_field(step, Field::FlagsClear).is_some()
        }
        NoGet::BothStores => {
            has_text(step, Field::Kind, "channel-access") && has_text(step, Field::Store, "both")
        }
        NoGet::SetInProgress => {
            has_text(step, Field::Kind, "boot-param")
                && matches!(number(step, Field::Param), Some(0))
        }
    }
}

/// What the step would change that no plan changes.
fn outside_plan(step: &Table) -> Option<OutsidePlan>
    ensures { result ≡ find (is_outside (table_view step.now)) OUTSIDE }
{
    OUTSIDE
        .iter()
        .copied()
        .find(|outside| has_text(step, Field::Kind, word_of(*outside)))
}

/// The first that the step asks for and no Get shows.
fn no_get(step: &Table) -> Option<NoGet>
    ensures { result ≡ find (asks (table_view step.now)) NO_GETS }
{
    NO_GETS.iter().copied().find(|no_get| asks(step, *no_get))
}

/// Why the step's `kind` names no kind.
fn kind_fault(step: &Table) -> StepFault
    ensures { first (kind_faults (table_view step.now) None) ≡ Some result }
{
    match first_fault(&KIND, step) {
        Some(fault) => StepFault::Field(fault),
        None => StepFault::UnknownKind,
    }
}

/// The first fault of a step, as the reader of plans has it.
pub fn step_fault(step: &Table) -> Option<StepFault>
    ensures { result ≡ first (step_faults (table_view step.now)) }
{
    if let Some(outside) = outside_plan(step) {
        return Some(StepFault::OutsidePlan(outside));
    }
    if let Some(no_get) = no_get(step) {
        return Some(StepFault::NoGet(no_get));
    }
    let Some(kind) = kind_in(step) else {
        return Some(kind_fault(step));
    };
    match first_fault(kind.rows(), step) {
        Some(fault) => Some(StepFault::Field(fault)),
        None => None,
    }
}
