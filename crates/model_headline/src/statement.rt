//! The headline's statement.

ghost use Rattle.std.specs.Prelude.{ℕ, List};
ghost use Rattle.record_base.specs.declared.op.Op.{Op};
ghost use Rattle.cfg_records.specs.declared.board_file.BoardFile.{BoardFile};
ghost use Rattle.undo_plans.specs.declared.names.Names.{Names};
ghost use Rattle.model_headline.specs.Claim.{IsController, ours, Claim};
ghost use Rattle.model_headline.specs.Keeps.{KeepsPromise, PlaysAreStated};
ghost use Rattle.model_headline.specs.Refines.{Refines};

/// The headline. After every honest schedule, and so at each of its events, the manager's phase says what the records are. Once the plan is undone,
/// and after all that comes then, every record is what it was at the start, and each Get, also one in parts, is answered with the same code and shows
/// the same configuration. A plan that halted has its cause in the schedule.
pub fn undone_means_unchanged()
    ensures controller { (setup : BoardFile) → IsController setup (ours setup) }
    ensures claim { (setup : BoardFile) (names : Names) (plan : List Op) (retries : ℕ)
        → Claim setup (ours setup) names plan retries }
{}

/// The machinery is of the statement, and leaves no schedule out. Each schedule of its lab is one of the statement's. It is honest there, and joins no
/// stale packets, exactly where it is honest in the statement; and then both labs are alike after it. Its headline follows from the claim. The board's
/// command relation is within what the statement says of answers.
pub fn machinery_refines_the_statement()
    ensures { (setup : BoardFile) (names : Names) (plan : List Op) (retries : ℕ)
        → Refines setup names plan retries }
{}

/// Every play keeps its promise, where no event that it takes breaks the premise on packets: its phase says what the records are, undone means that each
/// is what it was at the start, and a plan that halted has a reason. What it tells is what the statement's lab has after as many events, each of them
/// honest there.
pub fn plays_keep_their_promise()
    ensures promise { (file : BoardFile) (plan : List Op) (retries : ℕ)
        → KeepsPromise file plan retries }
    ensures stated { (file : BoardFile) (plan : List Op) (retries : ℕ)
        → PlaysAreStated file plan retries }
{}
