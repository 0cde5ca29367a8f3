//! What holds of plays in which the manager is made again.
ghost use Rattle.std.specs.Prelude.{ℕ, List};
ghost use Rattle.record_base.specs.declared.op.Op.{Op};
ghost use Rattle.cfg_records.specs.declared.board_file.BoardFile.{BoardFile as AnyBoardFile};
ghost use Rattle.lab_play.specs.Restarts.{RestartedPlaysStand, RestartsUnsettle};

use model_headline::laws::{restarts_are_followed, restarts_leave_everything_standing};

/// What a play tells stands, also where the manager's process ends, at any events and as often as you like, and the manager is made again: the phase
/// says what the records are, what is undone stays so, and a plan that halted has its cause, which may be a restart.
pub fn restarted_plays_stand()
    ensures { (file : AnyBoardFile) (plan : List Op) (retries : ℕ)
        → RestartedPlaysStand file plan retries }
{
    restarts_are_followed();
    restarts_leave_everything_standing();
}

/// A manager that is made again has the request unsettled that was open; where none was, it is in the phase in which the other was.
pub fn restarts_unsettle()
    ensures { RestartsUnsettle }
{}
