//! The texts that a play is told in: a board file, a plan and a schedule.
ghost use Rattle.app_play.specs.Inputs.{InputsAreRead};

use cfg_records::BoardFile;
use plan_file::{PlanFault, read_plan};
use std::alloc::Global;
use std::fmt;
use text_board::{FileFault, read_board};
use text_lines::{Schedule, ScheduleFault, read_schedule};
use undo_plans::Plan;

/// What a play begins with, and what happens in it.
#[derive(Drop)]
pub struct Inputs {
    pub file: BoardFile,
    pub plan: Plan,
    pub events: Schedule,
}

/// Why texts tell no play.
#[derive(Clone, Copy, Debug)]
pub enum InputFault {
    /// The first text is no board file.
    Board(FileFault),
    /// The second text is no plan.
    Plan(PlanFault),
    /// The third text is no schedule.
    Schedule(ScheduleFault),
}

/// The board, the plan and the events of these texts, or the fault of the first text that has one.
pub fn read_inputs(
    alloc: Global,
    board: &str,
    plan: &str,
    schedule: &str,
) -> Result<Inputs, InputFault>
    ensures { InputsAreRead board.now plan.now schedule.now result }
{
    let file = match read_board(alloc, board) {
        Ok(file) => file,
        Err(why) => return Err(InputFault::Board(why)),
    };
    let plan = match read_plan(alloc, plan) {
        Ok(plan) => plan,
        Err(why) => {
            drop(file);
            return Err(InputFault::Plan(why));
        }
    };
    match read_schedule(alloc, schedule) {
        Ok(events) => Ok(Inputs { file, plan, events }),
        Err(why) => {
            drop(file);
            drop(plan);
            Err(InputFault::Schedule(why))
        }
    }
}

impl fmt::Display for InputFault {
    ghost use Rattle.std.specs.Prelude.{Some};
    ghost use Rattle.app_play.specs.Inputs.{input_fault_name};

    ghost output = { λ fault. Some (input_fault_name fault) };

    fn fmt<W: fmt::Write>(&self, f: &mut fmt::Formatter<W>) -> fmt::Result {
        match self {
            InputFault::Board(why) => write!(f, "board {why}"),
            InputFault::Plan(why) => write!(f, "plan {why}"),
            InputFault::Schedule(why) => write!(f, "schedule {why}"),
        }
    }
}
