//! The same at a record whose Gets and Sets are two requests each, of which the board stages the first of a Set. So the theorems hold of series of
//! requests, and aren't about nothing there.

ghost use Rattle.two_wire.specs.declared.Bus.{Bus};
ghost use Rattle.model_bus.specs.Addresses.{Addresses};
ghost use Rattle.model_bus.specs.Answered.{Answered};
ghost use Rattle.model_undo.specs.IsFamily.{IsFamily};
ghost use Rattle.model_undo.specs.TwoBuses.{OverBothBuses, DeliveredOverBothBuses, HoweverSent};
ghost use Rattle.model_undo.specs.Headline.{AlwaysStands, UndoneForGood, StopsOnlyIfTold};
ghost use Rattle.model_undo.specs.Giving.{HaltsByAnswers};
ghost use Rattle.model_undo.specs.RecordsRun.{RecordsStand};
ghost use Rattle.model_undo.specs.Resume.{GoesOnAlike};
ghost use Rattle.model_undo.specs.Unsettled.{UnsettledByQuiet};
ghost use Rattle.model_undo.specs.Silence.{RestartsAreSilences};
ghost use Rattle.model_undo.specs.Restart.{KeepsPlace};
ghost use Rattle.model_undo.specs.Clean.{AnswersByRow};
ghost use Rattle.model_undo.specs.CleanSeries.{AlwaysRunsThrough};
ghost use Rattle.model_undo.specs.CleanBuses.{AlwaysRunsThroughBuses};
ghost use Rattle.model_undo.specs.SeriesExample.{Asked, Board, pairs, pair_family, pair_wires};

/// A record of two bytes is a family, a byte at a time: its Gets and its Sets are two requests each.
pub fn pairs_are_a_family()
    ensures { IsFamily pair_family }
{}

/// The phase says what the records are, and a halt has its cause, without buses.
pub fn pairs_stand()
    ensures { RecordsStand pair_family }
{}

/// The phase says what the records are, and a halt has its cause, over both buses.
pub fn pair_phases_stand()
    ensures { (at : Bus → Addresses)
        → OverBothBuses at (λ buses. AlwaysStands pair_family buses pair_wires) }
{}

/// A halt is caused by answers that the board gave in that very schedule: to one of the requests of a Get or of a Set, or to all of a Get.
pub fn pairs_halt_by_given_answers()
    ensures { (at : Bus → Addresses)
        → OverBothBuses at (λ buses. HaltsByAnswers pair_family buses pair_wires) }
{}

/// Once a plan is undone, the record is for good what it was, and Gets of two requests show so.
pub fn pairs_are_undone_for_good()
    ensures { (at : Bus → Addresses)
        → OverBothBuses at (λ buses. UndoneForGood pair_family buses pair_wires) }
{}

/// A plan halts because of a stop only where it was stopped, where another manager went on from its list, or where the manager was made again.
pub fn pairs_stop_only_if_told()
    ensures { (at : Bus → Addresses)
        → OverBothBuses at (λ buses. StopsOnlyIfTold pair_family buses pair_wires) }
{}

/// A manager that goes on from a list of series does from `undo` on what the list's own manager would have done.
pub fn resumed_pairs_go_on_alike()
    ensures { GoesOnAlike pairs }
{}

/// A restart is a stop and a silence, whichever request of a series is open.
pub fn pair_restarts_are_silences()
    ensures { (at : Bus → Addresses)
        → HoweverSent at (λ buses. RestartsAreSilences pair_family buses pair_wires) }
{}

/// The manager that is made again has the same request of the series open, and the data of the replies before it.
pub fn restarted_pairs_keep_their_place()
    ensures { KeepsPlace pairs }
{}

/// A request comes to be unsettled only by a call of `quiet`, whichever of its series it is.
pub fn pairs_unsettled_only_by_quiet()
    ensures { UnsettledByQuiet pairs }
{}

/// Where the board answers each request at once and the manager takes each reply, a plan takes as many requests as the Gets and Sets of its steps
/// have, and ends done, or halts at the first step that the board doesn't carry out. Its undo takes as many as the series have that undo the steps
/// that were done, and ends with the records of the start. This knows no bus.
pub fn plans_run_through()
    ensures { (answer : Board → Asked → Answered × Board) → AnswersByRow pair_family answer
        → AlwaysRunsThrough pair_family answer }
{}

/// Over two buses that lose nothing a plan runs just so.
pub fn plans_run_through_over_buses()
    ensures { (at : Bus → Addresses) (answer : Board → Asked → Answered × Board)
        → AnswersByRow pair_family answer
        → DeliveredOverBothBuses at (λ buses come.
        AlwaysRunsThroughBuses pair_family buses come pair_wires answer) }
{}
