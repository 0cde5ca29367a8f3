//! The model's world does what a lab does at an event.

ghost use Rattle.std.specs.Prelude.{ℕ, ◌≤◌, List, length};
ghost use Rattle.record_base.specs.declared.op.Op.{Op};
ghost use Rattle.cfg_records.specs.declared.board_file.BoardFile.{BoardFile};
ghost use Rattle.cfg_records.specs.Records.{Records};
ghost use Rattle.undo_plans.specs.declared.names.Names.{Names};
ghost use Rattle.undo_plans.specs.Steps.{most_steps};
ghost use Rattle.model_headline.specs.Follows.{CallsAreFollowed, RestartsAreFollowed, RepliesAreFollowed, RequestsAreFollowed, OthersAreFollowed};
ghost use Rattle.model_headline.specs.Fresh.{FreshStartsStand, GreetedIsFresh};
ghost use Rattle.model_headline.specs.Theorem.{Headline, IsTrusted, IsTakenAndOwn, PremisesAgree};
ghost use Rattle.model_headline.specs.Restarted.{StandsOverRestarts};
ghost use Rattle.model_headline.specs.Plays.{PlaysStand};
ghost use Rattle.model_headline.specs.CleanLink.{RunsOnCleanLink};
ghost use Rattle.model_headline.specs.CleanParts.{TakesParts};
ghost use Rattle.model_headline.specs.CleanPlays.{PlaysRunClean};

/// Where the manager is called, the model's world goes on to one that the lab shows then. So it is in each phase, also where the call is refused.
pub fn calls_are_followed()
    ensures { (setup : BoardFile) (names : Names) (plan : List Op) (start : Records)
        → CallsAreFollowed setup names plan start }
{}

/// Where the manager's process ends, at any moment, and it is made again, the model's world goes on to one that the lab shows then.
pub fn restarts_are_followed()
    ensures { (setup : BoardFile) (names : Names) (plan : List Op) (start : Records)
        → RestartsAreFollowed setup names plan start }
{}

/// Where a live frame comes to the manager, whole on IPMB or a packet on SMBus, the model's world goes on to one that the lab shows then.
pub fn replies_are_followed()
    ensures { (setup : BoardFile) (names : Names) (plan : List Op) (start : Records)
        → RepliesAreFollowed setup names plan start }
{}

/// Where a live frame of the manager comes to the port, whole on IPMB or a packet on SMBus that joins no other request's assembly, the
/// model's world goes on to one that the lab shows then.
pub fn requests_are_followed()
    ensures { (setup : BoardFile) (names : Names) (plan : List Op) (start : Records)
        → RequestsAreFollowed setup names plan start }
{}

/// So it does at an honest request of another on IPMB, at all packets of an honest message of another on SMBus, at noise, where a requester is
/// idle, and where what isn't configuration changes.
pub fn others_are_followed()
    ensures { (setup : BoardFile) (names : Names) (plan : List Op) (start : Records)
        → OthersAreFollowed setup names plan start }
{}

/// The headline, over a lab. After every honest schedule in which no packet joins one that waited while eight or more newer requests were
/// begun, so at each of its events, the manager's phase says what the records are, and a plan that halted has its cause. Once the plan is
/// undone, and after all that comes then, every record is what it was at the start, and each Get is answered with the same code and shows
/// the same configuration. So does a Get of the manager in several requests, each answered with 00h.
pub fn undo_takes_everything_back()
    ensures { (setup : BoardFile) (names : Names) (plan : List Op) (retries : ℕ)
        → Headline setup names plan retries (IsTrusted setup names plan retries) }
{}

/// So it is from any start at which the manager's windows are fresh, whatever the controller did before, also for the manager, as
/// where the manager has greeted it: the phase says what the records are, and once the plan is undone all is as it was at this start.
pub fn fresh_starts_stand()
    ensures stand { (setup : BoardFile) (names : Names) (plan : List Op) (retries : ℕ)
        → FreshStartsStand setup names plan retries }
    ensures greeted { (setup : BoardFile) (names : Names) (plan : List Op) (retries : ℕ)
        → GreetedIsFresh setup names plan retries }
{}

/// So it is of every schedule that a lab takes and in which no packet joins another request's assembly.
pub fn taken_schedules_are_undone()
    ensures { (setup : BoardFile) (names : Names) (plan : List Op) (retries : ℕ)
        → Headline setup names plan retries (IsTakenAndOwn setup names plan retries) }
{}

/// So it is where the manager's process ends, at any moment and as often as you like, and the manager is made again of what it wrote down. The cause
/// of a halted plan may be a restart then, too.
pub fn restarts_leave_everything_standing()
    ensures { (setup : BoardFile) (names : Names) (plan : List Op) (retries : ℕ)
        → StandsOverRestarts setup names plan retries }
{}

/// Where each event is honest, no packet joins one that has waited so long exactly where none joins another request's assembly; and what a
/// lab takes is honest.
pub fn premises_agree()
    ensures { (setup : BoardFile) (names : Names) (plan : List Op) (retries : ℕ)
        → PremisesAgree setup names plan retries }
{}

/// What every play tells, by either premise on packets: its phase says what the records are, what is undone stays so, and a plan that
/// halted has its cause.
pub fn plays_stand()
    ensures { (file : BoardFile) (plan : List Op) (retries : ℕ) → PlaysStand file plan retries }
{}

/// Over a link that loses, repeats and delays nothing, and on which nobody else asks, a plan is done after the requests of each step's Get
/// and Set, or halts at the first step that isn't accepted or can't be restored. Its undo takes the requests of one series for each step
/// that was done. A step takes a request for each part of the entry that it finds and of its own, its undo one for each part of the entry
/// found: two and one where it isn't of an attribute. A plan of at most 256 steps has such schedules, and a lab takes each of their events.
pub fn clean_links_run_plans()
    ensures { (setup : BoardFile) (names : Names) (plan : List Op) (retries : ℕ)
        → RunsOnCleanLink setup names plan retries }
{}

/// A plan of at most 256 steps has clean schedules. A play of one takes it whole, and tells it: so the plan ran, and so it was undone.
pub fn clean_plays_run_plans()
    ensures { (file : BoardFile) (plan : List Op) (retries : ℕ) → length plan ≤ most_steps
        → PlaysRunClean file plan retries }
{}

/// A Get that is carried out is as many requests as the record's entry has parts, and a Set as many as its own entry has. A record that is no
/// attribute's is got by one request, and set by one.
pub fn series_take_parts()
    ensures { (setup : BoardFile) (names : Names) → TakesParts setup names }
{}
