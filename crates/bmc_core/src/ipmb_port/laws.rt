//! What holds of what a port on IPMB does: each law is the contract of a function without a body.
ghost use Rattle.std.specs.Prelude.{List, ℕ};
ghost use Rattle.cfg_records.specs.declared.board_file.BoardFile.{BoardFile};
ghost use Rattle.bmc_core.specs.PortSteps.{PortState};
ghost use Rattle.bmc_core.specs.IpmbHeard.{HearsAtMostOne};
ghost use Rattle.bmc_core.specs.IpmbRuns.{AreHeardThenAnswered, Arrival, KeepsTheRule, PortAndBoard, PortEvent, CarriesTheRule};

/// A port at an address hears at most one thing in the same bytes.
pub fn one_thing_is_heard()
    ensures { (wire : ℕ) (bytes : List ℕ) → HearsAtMostOne wire bytes }
{}

/// A port of a board hears a request, and then gets the board's answer to it.
pub fn a_request_is_heard_and_then_answered()
    ensures { AreHeardThenAnswered }
{}

/// Over any list of frames, idle requesters and requests that get any answer or are dropped, the requests that a port carries out are
/// those of the rule for repeated requests, over the requests that get answers.
pub fn what_is_answered_is_kept_by_the_rule()
    ensures { (port : PortState) (cs : List Arrival) → KeepsTheRule port cs }
{}

/// Over any list of frames and idle requesters, whatever others do to the board between, the requests that a port has carried out are
/// those of the rule, over what is heard, each with the board's answer at that moment.
pub fn what_is_heard_is_carried_out_by_the_rule()
    ensures { (setup : BoardFile) (x : PortAndBoard) (es : List PortEvent)
        → CarriesTheRule setup x es }
{}
