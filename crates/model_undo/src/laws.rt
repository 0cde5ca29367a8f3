//! What holds of a plan and its undo, at a board of registers. Each theorem is proved over any family of kinds of record, as a lemma
//! (`proofs/Headline.antt`, `proofs/Resume.antt`, `proofs/Clean.antt`), and stands here as the contract of a function that does nothing.

ghost use Rattle.two_wire.specs.declared.Bus.{Bus};
ghost use Rattle.model_bus.specs.Packet.{packets_of};
ghost use Rattle.model_undo.specs.IsFamily.{IsFamily};
ghost use Rattle.model_bus.specs.Addresses.{Addresses};
ghost use Rattle.model_undo.specs.TwoBuses.{with_packets, packets_come, OverBothBuses, DeliveredOverBothBuses, HoweverSent};
ghost use Rattle.model_undo.specs.Headline.{AlwaysStands, UndoneForGood, StopsOnlyIfTold};
ghost use Rattle.model_undo.specs.Giving.{HaltsByAnswers};
ghost use Rattle.model_undo.specs.Resume.{GoesOnAlike};
ghost use Rattle.model_undo.specs.Unsettled.{UnsettledByQuiet};
ghost use Rattle.model_undo.specs.Silence.{RestartsAreSilences};
ghost use Rattle.model_undo.specs.Restart.{KeepsPlace};
ghost use Rattle.model_undo.specs.RecordsRun.{RecordsStand};
ghost use Rattle.model_undo.specs.Clean.{AnswersByRow, AlwaysRunsClean};
ghost use Rattle.model_undo.specs.CleanBuses.{AllCanBeSent, AlwaysRunsOverBuses};
ghost use Rattle.model_bus.specs.Answered.{Answered};
ghost use Rattle.model_undo.specs.Registers.{Board, Asked, register_words, registers, wires};

/// The registers are a family of kinds of record: masked Sets, refusals that depend on the old value, and replies from which
/// nothing is undone.
pub fn registers_are_a_family()
    ensures { IsFamily registers }
{}

/// Where the open request is carried out at most once, its reply is taken, and nothing else changes a record, the phase says at every moment
/// what the records are, and a plan that halted has the cause that it names. This knows no bus.
pub fn records_stand()
    ensures { RecordsStand registers }
{}

/// At every moment of every honest schedule of both buses the manager's phase says what the records are, and a plan that halted has the
/// cause that it names. SMBus goes in whole messages, or in packets, cut in any way that a receiver can join.
pub fn phases_stand()
    ensures { (at : Bus → Addresses)
        → OverBothBuses at (λ buses. AlwaysStands registers buses wires) }
{}

/// A halt has its cause in its own schedule. Refused, GetRefused and NotRestorable come only where the board gave that answer to the Set or to the
/// Get of that step, at the records after the steps before it; Stop comes only where the manager was told to stop, another went on from its list, or it was made again.
pub fn halts_by_given_answers()
    ensures { (at : Bus → Addresses)
        → OverBothBuses at (λ buses. HaltsByAnswers registers buses wires) }
{}

/// Once a plan is undone, and at every moment from then on, every record is what it was before the plan, and each Get that is carried out,
/// whoever asks it, shows the same configuration.
pub fn undone_is_for_good()
    ensures { (at : Bus → Addresses)
        → OverBothBuses at (λ buses. UndoneForGood registers buses wires) }
{}

/// A plan halts because of a stop only where it was stopped, where another manager went on from its list, or where the manager was made again.
pub fn stops_only_if_told()
    ensures { (at : Bus → Addresses)
        → OverBothBuses at (λ buses. StopsOnlyIfTold registers buses wires) }
{}

/// A manager that goes on from a list is halted after as many steps as the list undoes, with no request open, and gives that same list. From
/// `undo` on it goes through the same phases and sends the same requests, under the same numbers, as the manager from which the list was taken.
pub fn resumed_goes_on_alike()
    ensures { GoesOnAlike register_words }
{}

/// A manager's process may end at any moment, and the manager be made again of what it wrote down. It is then as if it had been told to stop, where
/// it was within a plan, and had heard nothing until its request was unsettled. Where no request is open, nothing changes.
pub fn restarts_are_silences()
    ensures { (at : Bus → Addresses)
        → HoweverSent at (λ buses. RestartsAreSilences registers buses wires) }
{}

/// The manager that is made again has the same request open under the same number, gives the same list, and sends nothing by itself. `quiet`, `again`
/// and `stop` change nothing of what it is made of.
pub fn restarted_keeps_its_place()
    ensures { KeepsPlace register_words }
{}

/// A request comes to be unsettled only by a call of `quiet`, after its frames were sent again as often as is allowed since it was opened or
/// since `again`.
pub fn unsettled_only_by_quiet()
    ensures { UnsettledByQuiet register_words }
{}

/// Where the board answers each request at once and the manager takes each reply, a plan takes two requests for each step and ends done, or
/// halts at the first step whose Get is refused, whose Get shows what can't be restored, or whose Set is refused. Its undo takes one request
/// for each step that was done, and ends with the records of the start. This knows no bus.
pub fn plans_run_clean()
    ensures { (answer : Board → Asked → Answered × Board) → AnswersByRow registers answer
        → AlwaysRunsClean registers answer }
{}

/// Over two buses that lose nothing a plan runs just so: each request is delivered once, each reply is delivered once, nobody else asks, and such a
/// schedule is honest. The port of each bus is to have a place for the manager at the start, and what is sent in packets is to be cut: what the
/// registers say is.
pub fn plans_run_clean_over_buses()
    ensures runs { (at : Bus → Addresses) (answer : Board → Asked → Answered × Board)
        → AnswersByRow registers answer
        → DeliveredOverBothBuses at (λ buses come.
        AlwaysRunsOverBuses registers buses come wires answer) }
    ensures cut { (at : Bus → Addresses) (answer : Board → Asked → Answered × Board)
        → AnswersByRow registers answer
        → AllCanBeSent registers (with_packets at packets_of) (packets_come at packets_of) wires
        answer }
{}
