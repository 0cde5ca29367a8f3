//! The steps of a plan: their faults, and what they hold.
ghost use Rattle.std.specs.Prelude.{◌≡◌, [], None, Some, IfOk, IfErr};
ghost use Rattle.std.specs.List.{find};
ghost use Rattle.toml.specs.View.{table_view};
ghost use Rattle.text_fields.specs.Faults.{first};
ghost use Rattle.plan_file.specs.PlanFaults.{outside_word, is_outside, asks, kind_faults, step_faults};
ghost use Rattle.plan_file.specs.PlanHolds.{HoldsStep};

use crate::kind::{KIND, kind_in};
use crate::plan_fault::{NoGet, OutsidePlan, StepFault};
use record_base::Op;
use record_base::attribute_sizes::MOST_SENT;
use text_fields::tree::{has_text, in_field, number};
use text_fields::{Checked, Field, first_fault};
use toml::Table;
use two_wire::Bytes;

/// All that no plan changes.
pub const OUTSIDE: [OutsidePlan; 3] = [OutsidePlan::Password, OutsidePlan::Clock, OutsidePlan::Log];

/// All that no Get shows.
pub const NO_GETS: [NoGet; 4] = [
    NoGet::SessionLimit,
    NoGet::FlagsClear,
    NoGet::BothStores,
    NoGet::SetInProgress,
];

impl OutsidePlan {
    /// What a step's `kind` calls it.
    fn word(&self) -> &'static str
        ensures { result.now ≡ outside_word self.now }
    {
        match self {
            OutsidePlan::Password => "password",
            OutsidePlan::Clock => "clock",
            OutsidePlan::Log => "log",
        }
    }
}

impl NoGet {
    /// Whether the step asks for it.
    fn is_asked(&self, step: &Table) -> bool
        ensures { result ≡ asks (table_view step.now) self.now }
    {
        match self {
            NoGet::SessionLimit => {
                has_text(step, Field::Kind, "user-access")
                    && in_field(step, Field::SessionLimit).is_some()
            }
            NoGet::FlagsClear => {
                has_text(step, Field::Kind, "watchdog")
                    && in_field(step, Field::FlagsClear).is_some()
            }
            NoGet::BothStores => {
                has_text(step, Field::Kind, "channel-access")
                    && has_text(step, Field::Store, "both")
            }
            NoGet::SetInProgress => {
                has_text(step, Field::Kind, "boot-param")
                    && matches!(number(step, Field::Param), Some(0))
            }
        }
    }
}

/// What the step would change that no plan changes.
fn outside_plan(step: &Table) -> Option<OutsidePlan>
    ensures { result ≡ find (is_outside (table_view step.now)) OUTSIDE }
{
    OUTSIDE
        .iter()
        .copied()
        .find(|outside| has_text(step, Field::Kind, outside.word()))
}

/// The first that the step asks for and no Get shows.
fn no_get(step: &Table) -> Option<NoGet>
    ensures { result ≡ find (asks (table_view step.now)) NO_GETS }
{
    NO_GETS.iter().copied().find(|no_get| no_get.is_asked(step))
}

/// Why the step's `kind` names no kind.
fn kind_fault(step: &Table) -> StepFault
    ensures { first (kind_faults (table_view step.now) None) ≡ Some result }
{
    match first_fault(&KIND, step) {
        Some(fault) => StepFault::Field(fault),
        None => StepFault::UnknownKind,
    }
}

/// The change that the step asks for, or its first fault. What the change gives to an attribute is written to `room`.
pub fn read_step<'v>(step: &Table, room: &'v mut Bytes<{ MOST_SENT }>) -> Result<Op<'v>, StepFault>
    ensures sound { IfOk result (λ _. step_faults (table_view step.now) ≡ []) }
    ensures held { IfOk result (HoldsStep (table_view step.now)) }
    ensures err { IfErr result (λ why. first (step_faults (table_view step.now)) ≡ Some why) }
{
    if let Some(outside) = outside_plan(step) {
        return Err(StepFault::OutsidePlan(outside));
    }
    if let Some(no_get) = no_get(step) {
        return Err(StepFault::NoGet(no_get));
    }
    let Some(kind) = kind_in(step) else {
        return Err(kind_fault(step));
    };
    match Checked::new(kind.rows(), step) {
        Ok(known) => Ok(kind.change(&known, room)),
        Err(fault) => Err(StepFault::Field(fault)),
    }
}
