//! The step that sets the watchdog timer.
ghost use Rattle.std.specs.Prelude.{◌≡◌, ◌≤◌, ◌/◌, ◌%◌};
ghost use Rattle.toml.specs.View.{table_view};
ghost use Rattle.record_base.specs.Masks.{has};
ghost use Rattle.plan_file.specs.Kinds.Watchdog.{HoldsWatchdog};

use record_base::SetWatchdog;
use text_fields::{BYTE, Checked, Field, Need, Row, Shape};

/// The fields of a step that sets the watchdog timer.
pub const FIELDS: [Row; 6] = [
    Row(Field::Use, Shape::Number(1, 5), Need::Always),
    Row(Field::NoLog, Shape::Flag, Need::Always),
    Row(Field::Action, Shape::Number(0, 3), Need::Always),
    Row(Field::Interrupt, Shape::Number(0, 3), Need::Always),
    Row(Field::Pre, BYTE, Need::Always),
    Row(Field::Initial, Shape::Number(0, 0xFFFF), Need::Always),
];

/// The byte of a use of the watchdog timer, which is stopped. Bit 7: its expiration isn't logged.
fn use_byte(no_log: bool, timer_use: u8) -> u8
    requires { timer_use ≤ 5 }
    ensures timer_use { result % 128 ≡ timer_use }
    ensures no_log { has result 7 ≡ no_log }
{
    if no_log {
        (1 << 7) + timer_use
    } else {
        timer_use
    }
}

/// The byte of a pre-timeout interrupt and an action at the timeout.
fn actions_byte(interrupt: u8, action: u8) -> u8
    requires { (interrupt ≤ 3) × (action ≤ 3) }
    ensures { (result / 16 ≡ interrupt) × (result % 16 ≡ action) }
{
    (interrupt << 4) + action
}

/// What the step makes of the watchdog timer. It neither keeps the timer running nor clears flags.
pub fn read(step: &Checked<'_>) -> SetWatchdog
    requires { step.now.rows.now ≡ FIELDS }
    ensures { HoldsWatchdog (table_view step.now.table.now) result }
{
    SetWatchdog {
        timer_use: use_byte(step.flag(Field::NoLog), step.byte(Field::Use)),
        actions: actions_byte(step.byte(Field::Interrupt), step.byte(Field::Action)),
        pre_timeout: step.byte(Field::Pre),
        flags_to_clear: 0,
        initial: step.word(Field::Initial),
    }
}
