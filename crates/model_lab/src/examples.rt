//! Runs that compute, so that no definition is about nothing: each is the contract of a function without a body.

ghost use Rattle.model_lab.specs.Example.{ShowsFaults, TwoStepsUndone, RepliesOnce, SettlesAgain};
ghost use Rattle.model_lab.specs.LongExample.{CopiesAge, NinthIsBusy, AnswersPackets, JoinsPackets};
ghost use Rattle.model_lab.specs.PacketExample.{SetsInPackets, TakesPackets};
ghost use Rattle.model_lab.specs.FullExample.{FillsUp};
ghost use Rattle.model_lab.specs.PlayExample.{PlaysTwoSteps};

/// Frames that weren't sent, that go another way or that are somebody else's, noise that is a frame, and an idle while a request is open.
pub fn faults_are_shown()
    ensures { ShowsFaults }
{}

/// A plan of two steps on thresholds, and its undo, each frame once: twelve frames.
pub fn two_steps_are_undone()
    ensures { TwoStepsUndone }
{}

/// A Set whose reply is lost is sent again: the reply that was kept is taken, and a late copy of it changes nothing.
pub fn kept_reply_is_taken()
    ensures { RepliesOnce }
{}

/// A Set without retries is unsettled, is sent again, and is undone.
pub fn unsettled_set_is_undone()
    ensures { SettlesAgain }
{}

/// A late copy of a request gets the reply that was kept, and changes nothing; a later one isn't taken.
pub fn copies_age()
    ensures { CopiesAge }
{}

/// A ninth requester finds the port busy.
pub fn ninth_requester_finds_it_busy()
    ensures { NinthIsBusy }
{}

/// A PLDM request and a control request, each in one packet, with the packets of their replies.
pub fn packets_are_answered()
    ensures { AnswersPackets }
{}

/// A message of four packets that come out of order, twice, with other requesters' messages in between.
pub fn packets_are_joined()
    ensures { JoinsPackets }
{}

/// A manager sends a request of four packets twice, which come out of order, with other requesters' messages in between; and takes the reply.
pub fn set_in_packets_is_answered()
    ensures { SetsInPackets }
{}

/// The manager takes a reply of two packets, in order, and drops what waits where the port says that it is busy.
pub fn reply_in_packets_is_taken()
    ensures { TakesPackets }
{}

/// A lab sends 65,536 frames, and refuses the event after that.
pub fn lab_fills_up()
    ensures { FillsUp }
{}

/// Two steps on thresholds are done and undone in twelve frames.
pub fn two_steps_are_played()
    ensures { PlaysTwoSteps }
{}
