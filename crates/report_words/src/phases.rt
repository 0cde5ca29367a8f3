//! What is said of where a plan stands.
use model_undo::{Phase, Why};

/// What is said of a phase: what it means, what to do about it in a play, if anything, and what behind `bmcnet`.
#[derive(Clone, Copy)]
pub struct PhaseRow {
    pub meaning: &'static str,
    pub in_play: &'static str,
    pub over_links: &'static str,
}

/// The row of these words.
fn row(meaning: &'static str, in_play: &'static str, over_links: &'static str) -> PhaseRow {
    PhaseRow {
        meaning,
        in_play,
        over_links,
    }
}

/// What is said of a plan that halted for this reason.
fn halt_row(why: Why) -> PhaseRow {
    match why {
        Why::Stop => row(
            "the manager was told to stop before this step, or was made again",
            "`undo` takes back the steps before it",
            "`bmcnet undo` takes back the steps before it",
        ),
        Why::GetRefused(_) => row(
            "the controller refused the step's Get, with this code",
            "mend the step: the board may have no such sensor, user or attribute. `undo` takes back the steps before it",
            "mend the step. `bmcnet undo` takes back the steps before it",
        ),
        Why::NotRestorable => row(
            "the Get shows what no Set brings back, so none was sent",
            "leave the step out, or bring the record into a state that can be set. `undo` takes back the steps before it",
            "leave the step out, or bring the record into a state that can be set. `bmcnet undo` takes back the steps before it",
        ),
        Why::Refused(_) => row(
            "the controller refused the step's Set, with this code, and changed nothing",
            "mend the step. `undo` takes back the steps before it",
            "mend the step. `bmcnet undo` takes back the steps before it",
        ),
    }
}

/// What is said of a phase.
pub fn phase_row(phase: Phase) -> PhaseRow {
    match phase {
        Phase::Fresh => row("nothing was begun", "`start`", "call `bmcnet run` again"),
        Phase::Getting(_) => row(
            "the step's Get is open",
            "deliver its frames and the reply's, or `quiet`",
            "the turns were over: undo `UNDO.part`, and give more",
        ),
        Phase::Setting(_) => row(
            "the step's Set is open",
            "deliver its frames and the reply's, or `quiet`",
            "the turns were over: undo `UNDO.part`, and give more",
        ),
        Phase::Done => row(
            "each step was done",
            "`undo` takes all back",
            "`bmcnet undo` takes all back",
        ),
        Phase::Halted(_, why) => halt_row(why),
        Phase::Unsettled(_) => row(
            "the request was sent as often as it may be, and no reply came: nobody knows whether it was carried out",
            "`again` sends the same request once more, and there is no undo before it is settled",
            "undo `UNDO.part`: it takes back the steps before",
        ),
        Phase::Undoing(_) => row(
            "the request that takes the step back is open",
            "deliver its frames and the reply's, or `quiet`",
            "the turns were over: call `bmcnet undo` again",
        ),
        Phase::Undone => row("all is taken back", "", ""),
        Phase::UndoRefused(_, _) => row(
            "the controller refused to take the step back, with this code. The sample controller doesn't, unless others set the record in between",
            "look at the record by its Get",
            "look at the record by its Get",
        ),
    }
}
