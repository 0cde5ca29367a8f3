//! What holds of a plan and its undo at the records and the commands of a board.

ghost use Rattle.two_wire.specs.declared.Bus.{Bus};
ghost use Rattle.cfg_records.specs.declared.board_file.BoardFile.{BoardFile};
ghost use Rattle.model_undo.specs.IsFamily.{IsFamily};
ghost use Rattle.model_bus.specs.Addresses.{Addresses};
ghost use Rattle.model_undo.specs.TwoBuses.{OverBothBuses, DeliveredOverBothBuses, HoweverSent};
ghost use Rattle.model_undo.specs.Headline.{AlwaysStands, UndoneForGood, StopsOnlyIfTold};
ghost use Rattle.model_undo.specs.Giving.{HaltsByAnswers};
ghost use Rattle.model_undo.specs.RecordsRun.{RecordsStand};
ghost use Rattle.model_undo.specs.Resume.{GoesOnAlike};
ghost use Rattle.model_undo.specs.Restart.{KeepsPlace};
ghost use Rattle.model_undo.specs.Silence.{RestartsAreSilences};
ghost use Rattle.model_undo.specs.Clean.{AnswersByRow};
ghost use Rattle.model_undo.specs.CleanSeries.{AreFinite, AlwaysRunsThrough};
ghost use Rattle.model_undo.specs.CleanBuses.{AlwaysRunsThroughBuses};
ghost use Rattle.model_lab.specs.ManagerWords.{manager_words};
ghost use Rattle.model_lab.specs.Family.{family, answer};
ghost use Rattle.model_lab.specs.ManagerWires.{wires};
ghost use Rattle.model_lab.specs.Board.{StartsValid, StartsReady, QuietMay, BenchMay, AnswersMay};

/// The kinds of record and the command relation meet the laws of a family, whatever the board's file is.
pub fn records_are_a_family()
    ensures { (setup : BoardFile) (at : Bus → Addresses) → IsFamily (family setup at) }
{}

/// Where the open request is carried out at most once, its reply is taken, and nothing else changes a record, the phase says at every moment
/// what the records are, and a plan that halted has the cause that it names. This knows no bus.
pub fn records_stand()
    ensures { (setup : BoardFile) (at : Bus → Addresses) → RecordsStand (family setup at) }
{}

/// At every moment of every honest schedule of both buses the manager's phase says what the records are, and a plan that halted has the
/// cause that it names. SMBus goes in whole messages, or in packets, cut in any way that a receiver can join.
pub fn phases_stand()
    ensures { (setup : BoardFile) (at : Bus → Addresses)
        → OverBothBuses at (λ buses. AlwaysStands (family setup at) buses (wires at)) }
{}

/// A halt has its cause in its own schedule. Refused, GetRefused and NotRestorable come only where the board gave that answer to the Set or to the
/// Get of that step, at the records after the steps before it; Stop comes only where the manager was told to stop, another went on from its list, or it was made again.
pub fn halts_by_given_answers()
    ensures { (setup : BoardFile) (at : Bus → Addresses)
        → OverBothBuses at (λ buses. HaltsByAnswers (family setup at) buses (wires at)) }
{}

/// Once a plan is undone, and at every moment from then on, every record is what it was before the plan, and each Get that is carried out,
/// whoever asks it, shows the same configuration.
pub fn undone_is_for_good()
    ensures { (setup : BoardFile) (at : Bus → Addresses)
        → OverBothBuses at (λ buses. UndoneForGood (family setup at) buses (wires at)) }
{}

/// A plan halts because of a stop only where it was stopped, where another manager went on from its list, or where the manager was made again.
pub fn stops_only_if_told()
    ensures { (setup : BoardFile) (at : Bus → Addresses)
        → OverBothBuses at (λ buses. StopsOnlyIfTold (family setup at) buses (wires at)) }
{}

/// A manager that goes on from a list is halted after as many steps as the list undoes, with no request open, and gives that same list. From
/// `undo` on it goes through the same phases and sends the same requests, under the same numbers, as the manager from which the list was taken.
pub fn resumed_goes_on_alike()
    ensures { (at : Bus → Addresses) → GoesOnAlike (manager_words at) }
{}

/// A manager's process may end at any moment, and the manager be made again of what it wrote down. It is then as if it had been told to stop, where
/// it was within a plan, and had heard nothing until its request was unsettled. Where no request is open, nothing changes.
pub fn restarts_are_silences()
    ensures { (setup : BoardFile) (at : Bus → Addresses)
        → HoweverSent at (λ buses. RestartsAreSilences (family setup at) buses (wires at)) }
{}

/// The manager that is made again has the same request open under the same number, gives the same list, and sends nothing by itself. `quiet`, `again`
/// and `stop` change nothing of what it is made of.
pub fn restarted_keeps_its_place()
    ensures { (at : Bus → Addresses) → KeepsPlace (manager_words at) }
{}

/// Each series of requests that the manager makes has an end, whatever the replies are.
pub fn series_have_ends()
    ensures { (at : Bus → Addresses) → AreFinite (manager_words at) }
{}

/// Where the board answers each request at once and the manager takes each reply, a plan takes as many requests as the Gets and Sets of its steps
/// have, and ends done, or halts at the first step that the board doesn't carry out. Its undo takes as many as the series have that undo the steps
/// that were done, and ends with the records of the start. This knows no bus.
pub fn plans_run_through()
    ensures answers { (setup : BoardFile) (at : Bus → Addresses)
        → AnswersByRow (family setup at) (answer setup) }
    ensures through { (setup : BoardFile) (at : Bus → Addresses)
        → AlwaysRunsThrough (family setup at) (answer setup) }
{}

/// Over two buses that lose nothing a plan runs just so: each request is delivered once, each reply is delivered once, nobody else asks, and such a
/// schedule is honest. The port of each bus is to have a place for the manager at the start, and what is sent in packets is to be cut.
pub fn plans_run_through_over_buses()
    ensures { (setup : BoardFile) (at : Bus → Addresses)
        → DeliveredOverBothBuses at (λ buses come.
        AlwaysRunsThroughBuses (family setup at) buses come (wires at) (answer setup)) }
{}

/// A board starts with valid records, as the other theorems ask, and its limits allow only such.
pub fn boards_start_valid()
    ensures { (setup : BoardFile) (at : Bus → Addresses) → StartsValid setup at }
{}

/// A board starts ready for the first request of each series, since nothing is staged.
pub fn boards_start_ready()
    ensures { (setup : BoardFile) (at : Bus → Addresses) → StartsReady setup at }
{}

/// What isn't configuration may become anything on the bench, but for what is staged.
pub fn bench_may_change()
    ensures { (setup : BoardFile) (at : Bus → Addresses)
        → HoweverSent at (BenchMay setup at) }
{}

/// Others may have the board answer requests whose commands set no configuration, at any moment. These leave what is staged, too.
pub fn quiet_requests_may_come()
    ensures { (setup : BoardFile) (at : Bus → Addresses)
        → HoweverSent at (QuietMay setup at) }
{}

/// A schedule may have each answer of the board to a request of the manager.
pub fn answers_may_come()
    ensures { (setup : BoardFile) (at : Bus → Addresses)
        → HoweverSent at (AnswersMay setup at) }
{}
