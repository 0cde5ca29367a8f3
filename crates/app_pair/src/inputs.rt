//! The texts that a pair is told in: a board file and a plan.
ghost use Rattle.std.specs.Prelude.{◌≡◌, IfOk, string_bytes};
ghost use Rattle.app_base.specs.declared.console.Stream.TheVariants.{Error};
ghost use Rattle.app_base.specs.declared.status.Status.TheVariants.{RefusedFile};
ghost use Rattle.app_pair.specs.Inputs.{InputsAreRead, is_memory, refusal_line};

use app_base::{Report, Status};
use cfg_records::BoardFile;
use plan_file::{PlanFault, read_plan};
use std::alloc::{AllocError, Global};
use text_board::{FileFault, read_board};
use undo_plans::Plan;

/// A board, and what is to be done to it.
#[derive(Drop)]
pub struct Inputs {
    pub file: BoardFile,
    pub plan: Plan,
}

/// Why texts tell no pair.
#[derive(Clone, Copy, Debug)]
pub enum InputFault {
    /// The first text is no board file.
    Board(FileFault),
    /// The second text is no plan.
    Plan(PlanFault),
}

/// The board and the plan of these texts, or the fault of the first text that has one.
pub fn read_inputs(alloc: Global, board: &str, plan: &str) -> Result<Inputs, InputFault>
    ensures { InputsAreRead board.now plan.now result }
{
    let file = match read_board(alloc, board) {
        Ok(file) => file,
        Err(why) => return Err(InputFault::Board(why)),
    };
    match read_plan(alloc, plan) {
        Ok(plan) => Ok(Inputs { file, plan }),
        Err(why) => Err(InputFault::Plan(why)),
    }
}

/// Whether a text wasn't read for want of memory.
pub(crate) fn is_memory(why: &InputFault) -> bool
    ensures { result ≡ is_memory why.now }
{
    match why {
        InputFault::Board(why) => matches!(why, FileFault::Memory),
        InputFault::Plan(why) => matches!(why, PlanFault::Memory),
    }
}

/// What is said of a text that is refused.
pub(crate) fn refusal(alloc: Global, why: InputFault) -> Result<Report, AllocError>
    ensures stream { IfOk result (λ report. report.stream ≡ Error) }
    ensures text { IfOk result (λ report. string_bytes report.text ≡ refusal_line why) }
    ensures status { IfOk result (λ report. report.status ≡ RefusedFile) }
{
    let mut text = String::new(alloc);
    match why {
        InputFault::Board(why) => writeln!(text, "board {why}")?,
        InputFault::Plan(why) => writeln!(text, "plan {why}")?,
    }
    Ok(Report::complaint(text, Status::RefusedFile))
}
