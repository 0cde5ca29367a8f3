//! Schedules that compute, so that no theorem is about nothing: each is the contract of a function without a body.

ghost use Rattle.model_undo.specs.Registers.{wires};
ghost use Rattle.model_undo.specs.Example.{EndsUndone, messages, quiet_messages, by_message, mixed, quiet_mixed, long_wires, by_packet, run_and_undo, run_resume_undo, run_restart_undo, HaltsThenUndone};
ghost use Rattle.model_undo.specs.SeriesExample.{GoesOver};

/// A plan of a step over each bus and its undo. On either bus a request is lost and so is a reply, a kept reply answers a retry, and a request is
/// unsettled and sent again; a late copy comes, its reply too, and somebody else asks. It ends undone, with the records of the start. In packets
/// each message on SMBus is of two, and of some only the first comes.
pub fn plan_ends_undone()
    ensures messages { EndsUndone messages wires quiet_messages (run_and_undo messages by_message) }
    ensures packets { EndsUndone mixed long_wires quiet_mixed (run_and_undo mixed by_packet) }
{}

/// The plan ends undone where another manager undoes it, with the run's requests in the windows and its frames still live.
pub fn resumed_plan_ends_undone()
    ensures messages { EndsUndone messages wires quiet_messages
        (run_resume_undo messages by_message) }
    ensures packets { EndsUndone mixed long_wires quiet_mixed (run_resume_undo mixed by_packet) }
{}

/// The same where the manager's process ends again and again and the manager is made again: while a Set is open, which was carried out or wasn't, of
/// the plan and of its undo, and where no request is open. Within the plan's first step the plan halts after that step.
pub fn restarted_plan_ends_undone()
    ensures messages { EndsUndone messages wires quiet_messages
        (run_restart_undo messages by_message) }
    ensures packets { EndsUndone mixed long_wires quiet_mixed
        (run_restart_undo mixed by_packet) }
    ensures message_halt { HaltsThenUndone messages wires quiet_messages by_message }
    ensures packet_halt { HaltsThenUndone mixed long_wires quiet_mixed by_packet }
{}

/// A plan whose Gets and Sets are two requests each: phases, requests with their numbers, the undo from both replies, a stop between two
/// requests, a refusal of the second, and a first reply that ends a Get.
pub fn series_are_gone_over()
    ensures { GoesOver }
{}
