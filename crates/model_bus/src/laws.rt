//! The theorems, each the contract of a function without a body.

ghost use Rattle.std.specs.Prelude.{ℕ, Bool, List};
ghost use Rattle.model_bus.specs.Request.{Entry};
ghost use Rattle.model_bus.specs.Numbering.{ipmb, smbus, is_above};
ghost use Rattle.model_bus.specs.Repeat.{RuleIsSentence, RequestersOf, EightSuffice};
ghost use Rattle.model_bus.specs.Greeting.{GreetingForgets};
ghost use Rattle.model_bus.specs.GreetingTags.{GreetingClears};
ghost use Rattle.model_bus.specs.Window.{RowsAreTheRule, WindowsApart};
ghost use Rattle.model_bus.specs.Schedule.{NoneOpenIsHonest, TestTells};
ghost use Rattle.model_bus.specs.AtMostOnce.{AlwaysAtMostOnce};
ghost use Rattle.model_bus.specs.Effect.{EventsHaveEffects};
ghost use Rattle.model_bus.specs.Packet.{IsCutting, CutsAll, packets_of};
ghost use Rattle.model_bus.specs.PacketSchedule.{LiveWhereJoined, OneRequestWhereJoined, RecentWhereWhole, AlwaysAtMostOnceInPackets, RuleImplies, NoneOpenIsPacketHonest};
ghost use Rattle.model_bus.specs.PacketEffect.{EventsHavePacketEffects, OthersAsk};
ghost use Rattle.model_bus.specs.Bytes.{ReadsRequests};
ghost use Rattle.model_bus.specs.CleanLink.{OpenGoesThrough, OpenGoesThroughInPackets, CutIsWhole};
ghost use Rattle.model_bus.specs.Slots.{SlotsDecide};
ghost use Rattle.two_wire.specs.Circles.{sequence_numbers, instances};
ghost use Rattle.two_wire.specs.declared.Bus.{Bus};
ghost use Rattle.two_wire.specs.declared.Bus.TheVariants.{Ipmb, Smbus};
ghost use Rattle.model_bus.specs.Answering.{TestIsModel, TestIsModelInPackets, BusyFails};
ghost use Rattle.model_bus.specs.Resume.{ResumedGoesOn, GoesOnInPackets, TagsGoOn, NothingWaitsWhereClosed};

/// Over every honest schedule of whole messages the manager's requests are carried out at most once, in the order begun,
/// and it takes for each the reply that is kept for it.
pub fn requests_are_carried_at_most_once()
    ensures ipmb { (manager controller first : ℕ)
        → AlwaysAtMostOnce (ipmb manager controller first) }
    ensures smbus { (manager controller first : ℕ)
        → AlwaysAtMostOnce (smbus manager controller first) }
{}

/// What each honest event does to the open request: nothing, or it is carried out for the first time, or the reply that
/// is kept for it is taken.
pub fn events_have_effects()
    ensures ipmb { (manager controller first : ℕ)
        → EventsHaveEffects (ipmb manager controller first) }
    ensures smbus { (manager controller first : ℕ)
        → EventsHaveEffects (smbus manager controller first) }
{}

/// Where another manager takes the place of one, its requests count from the number that came next. By its own requests and
/// replies alone it then does what the bus says of a manager: which request is open, under which number, what comes next, and
/// which replies are taken. So the theorems, which count both managers' requests together, are about it.
pub fn resumed_manager_goes_on()
    ensures ipmb { (manager controller : ℕ) → ResumedGoesOn (ipmb manager controller) }
    ensures smbus { (manager controller : ℕ) → ResumedGoesOn (smbus manager controller) }
    ensures tags { TagsGoOn }
{}

/// The resumed manager goes on in packets too. At such a moment nothing waits at the manager, so that nothing is dropped.
pub fn resumed_manager_goes_on_in_packets()
    ensures recent { GoesOnInPackets RecentWhereWhole }
    ensures live { GoesOnInPackets LiveWhereJoined }
    ensures one_request { GoesOnInPackets OneRequestWhereJoined }
    ensures nothing_waits { NothingWaitsWhereClosed RecentWhereWhole }
{}

/// What a link without loss gives. The open request's first frame that comes is carried out, unless the controller is busy; any
/// frame that comes with its reply is taken; and the packets of a message, one after another, are the message.
pub fn open_request_goes_through()
    ensures ipmb { (manager controller first : ℕ)
        → OpenGoesThrough (ipmb manager controller first) }
    ensures smbus { (manager controller first : ℕ)
        → OpenGoesThrough (smbus manager controller first) }
    ensures in_packets { OpenGoesThroughInPackets RecentWhereWhole }
    ensures cut { CutIsWhole }
{}

/// Of what is live, the manager's test on bytes (number, command, the next netFn or the same type, a code that isn't one of a
/// busy port) takes exactly what the model takes by the number. So the model needn't look at commands.
pub fn test_on_bytes_is_the_model()
    ensures ipmb { (manager controller first : ℕ)
        → TestIsModel Ipmb (ipmb manager controller first) }
    ensures smbus { (manager controller first : ℕ)
        → TestIsModel Smbus (smbus manager controller first) }
    ensures in_packets { TestIsModelInPackets Smbus RecentWhereWhole }
    ensures busy { (on : Bus) → BusyFails on }
{}

/// What another requester's packets do at the port. A message that they make is a request only where it is one by its bytes;
/// control messages, other types and malformed requests leave the bus and its log as they are, so they take no window.
pub fn only_requests_take_windows()
    ensures read { ReadsRequests }
    ensures packets { OthersAsk }
{}

/// A test decides if a frame is live.
pub fn live_test_tells()
    ensures { TestTells }
{}

/// A lab that forgets the manager's window, or puts another manager in its place, only while no request is open on either bus
/// keeps the schedule honest.
pub fn none_open_is_honest()
    ensures whole { NoneOpenIsHonest }
    ensures in_packets { NoneOpenIsPacketHonest }
{}

/// The rule for repeated, busy and new requests is its sentence, with numbers modulo 64 and modulo 32, and the requesters
/// that count for busy are those that had something carried out since their last idle.
pub fn rule_is_its_sentence()
    ensures ipmb { RuleIsSentence (is_above sequence_numbers) }
    ensures smbus { RuleIsSentence (is_above instances) }
    ensures requesters { (log : List Entry) → RequestersOf log }
{}

/// The rule never lets in more than eight requesters at a time.
pub fn eight_windows_suffice()
    ensures { (is_above : ℕ → ℕ → Bool) → EightSuffice is_above }
{}

/// A port that keeps a list of its requesters, each once and in any order, tells by it who is busy.
pub fn slots_decide_who_is_busy()
    ensures { SlotsDecide }
{}

/// A port that keeps one row for each number of each requester, and looks at no list, does what the rule says.
pub fn rows_are_the_rule()
    ensures ipmb { RowsAreTheRule sequence_numbers }
    ensures smbus { RowsAreTheRule instances }
    ensures apart { (circle : ℕ) → WindowsApart circle }
{}

/// The same where messages go in packets: it is enough that the packets that wait are recent still where one of them
/// completes a message at the port. So it holds where a packet that waits counts as delivered again when another is joined
/// to it, and where no packet is joined to one of another request.
pub fn requests_are_carried_at_most_once_in_packets()
    ensures recent { AlwaysAtMostOnceInPackets RecentWhereWhole }
    ensures live { AlwaysAtMostOnceInPackets LiveWhereJoined }
    ensures one_request { AlwaysAtMostOnceInPackets OneRequestWhereJoined }
{}

/// Either rule for every join implies the rule for the packets that complete a message.
pub fn join_rules_imply_recent()
    ensures live { RuleImplies LiveWhereJoined RecentWhereWhole }
    ensures one_request { RuleImplies OneRequestWhereJoined RecentWhereWhole }
{}

/// What each honest event of packets does to the open request.
pub fn packet_events_have_effects()
    ensures recent { EventsHavePacketEffects RecentWhereWhole }
    ensures live { EventsHavePacketEffects LiveWhereJoined }
    ensures one_request { EventsHavePacketEffects OneRequestWhereJoined }
{}

/// Runs of 64 bytes are a way to cut messages, and each message of at most 256 bytes is cut.
pub fn runs_of_64_are_a_cutting()
    ensures cut { IsCutting packets_of }
    ensures each { CutsAll packets_of }
{}

/// A manager that greets makes a fresh start, whatever the port did before: after its two greetings, or after the one, the rule says
/// of its requests, copies of them and everybody else's what it would say had the port forgotten what it had carried out for the
/// manager before.
pub fn greeting_is_a_fresh_start()
    ensures ipmb { (manager controller first : ℕ)
        → GreetingForgets sequence_numbers (ipmb manager controller first) }
    ensures smbus { (manager controller first : ℕ)
        → GreetingForgets instances (smbus manager controller first) }
{}

/// A manager that greets in packets, with one request under each of the eight tags, clears what waits at the port under its requests' names,
/// whatever a run before it left there.
pub fn greeting_clears_what_waits()
    ensures { GreetingClears }
{}
