//! Laws of the definitions.

ghost use Rattle.std.specs.Prelude.{ℕ, Bool, List};
ghost use Rattle.record_base.specs.declared.message.Asked.{Asked};
ghost use Rattle.record_base.specs.declared.message.Answered.{Answered};
ghost use Rattle.cfg_records.specs.declared.board_file.BoardFile.{BoardFile};
ghost use Rattle.model_bus.specs.Request.{Request as Heard, Entry};
ghost use Rattle.bmc_board.specs.State.{State};
ghost use Rattle.bmc_core.specs.Bytes.{AreReadBack, AreTheModels, AcceptsFrames, IsNumbered};
ghost use Rattle.bmc_core.specs.Turns.{TurnsBy};
ghost use Rattle.bmc_core.specs.Cuts.{PartsAreCuts, PartsAreHeard};
ghost use Rattle.bmc_core.specs.PortEvents.{RequestsLeaveLog, PartsLeaveLog};

/// A request's bytes are read as that request, and a reply's as its answer.
pub fn bytes_are_read_back()
    ensures { AreReadBack }
{}

/// The bytes of requests and replies are those of which the model of a bus speaks.
pub fn bytes_are_the_models()
    ensures { AreTheModels }
{}

/// The manager's test against a request takes the reply to it, unless that has a code of a busy port. A taken reply has the request's number.
pub fn test_takes_the_reply()
    ensures accepts { AcceptsFrames }
    ensures numbered { IsNumbered }
{}

/// The packets of a message are a cut of it, and those of the model of a bus.
pub fn parts_are_cuts()
    ensures { PartsAreCuts }
{}

/// All packets of a message, one after another, are heard as the message, where it goes to the port's endpoint and there is a slot for it.
/// Else nothing comes of them but what they leave waiting.
pub fn parts_are_heard()
    ensures { PartsAreHeard }
{}

/// What a turn is, by what is done with the request.
pub fn turns_are_these()
    ensures { (above : ℕ → ℕ → Bool) (r : Heard) (spell : Answered → List ℕ)
        (setup : BoardFile) (asked : Asked) (log : List Entry) (before : State)
        → TurnsBy above r spell setup asked log before }
{}

/// A request on IPMB and a packet on SMBus leave at a port what the model's events leave: the log, and what waits.
pub fn packets_leave_log()
    ensures requests { RequestsLeaveLog }
    ensures packets { PartsLeaveLog }
{}
