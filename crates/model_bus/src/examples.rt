//! Schedules that compute, so that no theorem is about nothing: each is the contract of a function without a body.

ghost use Rattle.model_bus.specs.Numbering.{ipmb, smbus};
ghost use Rattle.model_bus.specs.Example.{EndsAnswered, ShowsRepeats, ipmb_example, smbus_example};
ghost use Rattle.model_bus.specs.Premise.{Counts, InUseAtStart, too_old, forgotten_while_open, older_than_idle, in_the_managers_name, resumed_while_open};
ghost use Rattle.model_bus.specs.Greeting.{OneIsNotEnough, BothAreEnough, HalfIsEnough};
ghost use Rattle.model_bus.specs.GreetingPackets.{EachTagIsNeeded, SinglesClear};
ghost use Rattle.model_bus.specs.GreetingExample.{ConstantsAreNotEnough, CountedIsEnough, LateCopiesForget};
ghost use Rattle.model_bus.specs.PacketExample.{PacketsEndAnswered, PacketsShowRepeats, CarriesWhatNobodySent, example_bus, packet_example, stale_assembly};

/// On IPMB, with sequence numbers from 60 on: a busy answer, an idle, a lost frame, a delayed reply, a second manager in the
/// first one's place, and a repeat after 31 newer requests. All 33 requests are answered.
pub fn ipmb_schedule_ends_answered()
    ensures ends { EndsAnswered (ipmb 44 32 60) ipmb_example 33 }
    ensures shows { ShowsRepeats (ipmb 44 32 60) ipmb_example 69 }
{}

/// On SMBus in whole messages, with instances from 28 on: the same with 7 newer requests.
pub fn smbus_schedule_ends_answered()
    ensures ends { EndsAnswered (smbus 44 32 28) smbus_example 9 }
    ensures shows { ShowsRepeats (smbus 44 32 28) smbus_example 21 }
{}

/// In packets, two for each message: a lost end that a later copy's takes the place of, packets out of order, and another
/// requester's start under the same tag, beside the rest.
pub fn packet_schedule_ends_answered()
    ensures ends { PacketsEndAnswered (example_bus 28) packet_example 9 }
    ensures shows { PacketsShowRepeats (example_bus 28) packet_example }
{}

/// Why joins need a premise: every packet is of a live frame, but a message is carried out that nobody sent.
pub fn stale_assembly_carries_what_nobody_sent()
    ensures { CarriesWhatNobodySent (example_bus 0) stale_assembly }
{}

/// Why each premise is there. A copy that comes after 32 newer requests, or after the window was forgotten, or after a request
/// that a manager left open when another took its place, is carried out once more than the request was begun; and where
/// somebody uses the manager's address, or its window holds something at the start, the manager takes a reply to what it
/// didn't ask.
pub fn premises_are_needed()
    ensures span { Counts (ipmb 44 32 0) too_old 33 34 33 }
    ensures open_request { Counts (ipmb 44 32 0) forgotten_while_open 1 2 0 }
    ensures older_frames { Counts (ipmb 44 32 0) older_than_idle 1 2 1 }
    ensures address { Counts (ipmb 44 32 0) in_the_managers_name 1 0 1 }
    ensures resume { Counts (ipmb 44 32 1) resumed_while_open 1 2 1 }
    ensures empty_window { InUseAtStart (ipmb 44 32 0) }
{}

/// Why a manager greets twice: one greeting under one number can itself be a repeat.
pub fn greetings_are_two()
    ensures one { OneIsNotEnough }
    ensures both { BothAreEnough }
    ensures half { HalfIsEnough }
    ensures tags { EachTagIsNeeded }
    ensures clear { SinglesClear }
{}

/// Why the numbers of a greeting count from the manager's next request, and why no late copies of both greetings may come.
pub fn greetings_count_from_the_next()
    ensures constants { ConstantsAreNotEnough }
    ensures counted { CountedIsEnough }
    ensures late { LateCopiesForget }
{}
