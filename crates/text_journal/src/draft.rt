//! What the lines of a journal say so far.
ghost use Rattle.std.specs.Prelude.{◌≡◌, ◌≢◌, ◌↔◌, ◌<◌, ◌≤◌, ◌+◌, ◌^◌, ℕ, suc, List, Bool, true, false, None, IfOk, IfSome, IfNone, MatchOption, length, codes};
ghost use Rattle.undo_plans.specs.Steps.{most_steps};
ghost use Rattle.undo_plans.specs.declared.names.Names.{Names as AnyNames};
ghost use Rattle.undo_plans.specs.declared.kept_stage.Counts.{Counts as AnyCounts};
ghost use Rattle.text_lines.specs.UndoText.{BeginsWith};
ghost use Rattle.text_journal.specs.JournalLines.{IsNamesLine, names_bytes, AreEven, numbers_line};
ghost use Rattle.text_journal.specs.JournalText.{said_in, kept_so_far, then, start, no_names, IsOpen, Takes, Lacks, Leads, IsVersion, IsRetries, AreNames, AreListed, IsCount, IsStep, IsUndo, IsWaiting, IsTold, AreCounts, AreReplies, IsShown, Fits, told_line};

use crate::line::{first_bytes, first_number, first_numbers, first_words};
use crate::request::first_spelt;
use crate::stage::first_stage;
use std::alloc::{AllocError, Global};
use two_wire::Address;
use undo_plans::{Contents, Counts, KeptStage, KeptTask, MOST_STEPS, Names, Requests, Steps};

/// What the next line has to say.
#[derive(Clone, Copy)]
pub(crate) enum Place {
    Version,
    Retries,
    Names,
    Listed,
    /// How many steps there are.
    Count,
    /// A step, or behind the last how many requests undo.
    Step,
    /// A request that undoes a step, or behind the last how many wait.
    Request,
    /// The request that waits, or behind it the stage.
    Waiting,
    /// Whether the plan is to stop.
    Told,
    Counts,
    Replies,
    /// There is no next line.
    End,
}

/// A journal as far as its lines were read.
#[derive(Drop)]
pub(crate) struct Draft {
    pub(crate) place: Place,
    /// How many lines are still to come of the list that the next line is in.
    pub(crate) left: usize,
    pub(crate) contents: Contents,
}

/// Names before their line was read.
fn unread_names() -> Names
    ensures { result ≡ no_names }
{
    let zero = Address::new(0).unwrap();
    Names {
        own_address: zero,
        peer_address: zero,
        own_wire: zero,
        peer_wire: zero,
        own_eid: 0,
        peer_eid: 0,
    }
}

/// The names on the text's first line behind these words, and the text behind that line.
fn first_names<'a>(
    alloc: Global,
    words: &str,
    text: &'a str,
) -> Result<Option<(Names, &'a str)>, AllocError>
    ensures { IfOk result (λ found. MatchOption found
        ((more : List ℕ) (names : AnyNames)
        → ¬ BeginsWith (λ line. IsNamesLine words.now line names) text.now more)
        (λ it. BeginsWith (λ line. IsNamesLine words.now line it.0) text.now it.1.now)) }
{
    let Some(found) = first_bytes(alloc, words, text)? else {
        return Ok(None);
    };
    let Some(names) = names_of(found.0.as_slice()) else {
        return Ok(None);
    };
    Ok(Some((names, found.1)))
}

/// The names of these bytes: three pairs of the manager's and its controller's.
fn names_of(bytes: &[u8]) -> Option<Names>
    ensures some { IfSome result (λ names. AreEven names × (names_bytes names ≡ bytes.now)) }
    ensures none { IfNone result ((names : AnyNames) → AreEven names
        → names_bytes names ≢ bytes.now) }
{
    let [
        own_address,
        peer_address,
        own_wire,
        peer_wire,
        own_eid,
        peer_eid,
    ] = bytes
    else {
        return None;
    };
    Some(Names {
        own_address: Address::new(*own_address)?,
        peer_address: Address::new(*peer_address)?,
        own_wire: Address::new(*own_wire)?,
        peer_wire: Address::new(*peer_wire)?,
        own_eid: *own_eid,
        peer_eid: *peer_eid,
    })
}

/// That the text's first line tells the plan to go on, and the text behind that line.
fn first_go(text: &str) -> Option<(bool, &str)>
    ensures some { IfSome result (λ found.
        BeginsWith (λ line. line ≡ told_line found.0) text.now found.1.now) }
    ensures none { IfNone result ((more : List ℕ)
        → ¬ BeginsWith (λ line. line ≡ told_line false) text.now more) }
{
    match first_words("go", text) {
        Some(rest) => Some((false, rest)),
        None => None,
    }
}

/// Whether the text's first line tells the plan to stop, and the text behind that line.
fn first_told(text: &str) -> Option<(bool, &str)>
    ensures some { IfSome result (λ found.
        BeginsWith (λ line. line ≡ told_line found.0) text.now found.1.now) }
    ensures none { IfNone result ((more : List ℕ) (stopped : Bool)
        → ¬ BeginsWith (λ line. line ≡ told_line stopped) text.now more) }
{
    match first_words("stop", text) {
        Some(rest) => Some((true, rest)),
        None => first_go(text),
    }
}

/// The number as a count, where a count can be it.
fn count_of(number: u32) -> Option<u16>
    ensures some { IfSome result (λ count. (count < 2 ^ 16) × (count ≡ number)) }
    ensures none { IfNone result (2 ^ 16 ≤ number) }
{
    if number > u32::from(u16::MAX) {
        return None;
    }
    Some(number as u16)
}

/// The counts on the text's first line, and the text behind that line.
fn first_counts(text: &str) -> Option<(Counts, &str)>
    ensures some { IfSome result (λ found. (found.0.ipmb < 2 ^ 16) × (found.0.smbus < 2 ^ 16)
        × BeginsWith (λ line. line ≡ numbers_line (codes "counts ") found.0.ipmb found.0.smbus)
        text.now found.1.now) }
    ensures none { IfNone result ((more : List ℕ) (counts : AnyCounts)
        → counts.ipmb < 2 ^ 16 → counts.smbus < 2 ^ 16
        → ¬ BeginsWith (λ line. line ≡ numbers_line (codes "counts ") counts.ipmb counts.smbus)
        text.now more) }
{
    let Some(found) = first_numbers("counts ", text) else {
        return None;
    };
    let Some(ipmb) = count_of(found.0.0) else {
        return None;
    };
    let Some(smbus) = count_of(found.0.1) else {
        return None;
    };
    Some((Counts { ipmb, smbus }, found.1))
}

/// Whether so many requests may wait behind so many others.
fn may_wait(waiting: u32, members: usize) -> bool
    requires { members ≤ most_steps }
    ensures { (result ≡ true) ↔ ((waiting ≤ 1) × (waiting + members ≤ most_steps)) }
{
    waiting <= 1 && waiting as usize + members <= MOST_STEPS
}

impl Draft {
    /// The draft in front of the first line.
    pub(crate) fn new(alloc: Global) -> Result<Self, AllocError>
        ensures { IfOk result (λ draft. said_in draft ≡ start) }
    {
        let requests = Requests::open(alloc, 0, 0)?;
        Ok(Draft {
            place: Place::Version,
            left: 0,
            contents: Contents {
                steps: Steps::none(alloc),
                retries: 0,
                names: unread_names(),
                listed: None,
                stage: KeptStage::Fresh,
                stopped: false,
                requests,
                counts: Counts { ipmb: 0, smbus: 0 },
                replies: Vec::new(alloc),
            },
        })
    }

    /// The next line has to say this, and so many lines of its list are to come.
    fn turn(&mut self, place: Place, left: usize)
        ensures { said_in self.new ≡ then place left (kept_so_far self.old.contents) }
    {
        self.place = place;
        self.left = left;
    }

    /// Takes the line of the version.
    fn version<'a>(&mut self, text: &'a str) -> Option<&'a str>
        ensures some { IfSome result (λ rest. Takes (IsVersion (kept_so_far self.old.contents))
            text.now rest.now (said_in self.new)) }
        ensures none { IfNone result (Lacks (IsVersion (kept_so_far self.old.contents)) text.now) }
    {
        let Some(rest) = first_words("journal 1", text) else {
            return None;
        };
        self.turn(Place::Retries, 0);
        Some(rest)
    }

    /// Takes the line of the retries.
    fn retries<'a>(&mut self, text: &'a str) -> Option<&'a str>
        ensures some { IfSome result (λ rest. Takes (IsRetries (kept_so_far self.old.contents))
            text.now rest.now (said_in self.new)) }
        ensures none { IfNone result (Lacks (IsRetries (kept_so_far self.old.contents)) text.now) }
    {
        let Some(found) = first_number("retries ", text) else {
            return None;
        };
        if found.0 > u32::from(u8::MAX) {
            return None;
        }
        self.contents.retries = found.0 as u8;
        self.turn(Place::Names, 0);
        Some(found.1)
    }

    /// Takes the line of the names.
    fn names<'a>(&mut self, alloc: Global, text: &'a str) -> Result<Option<&'a str>, AllocError>
        ensures { IfOk result (λ found. MatchOption found
            (Lacks (AreNames (kept_so_far self.old.contents)) text.now)
            (λ rest. Takes (AreNames (kept_so_far self.old.contents)) text.now rest.now
            (said_in self.new))) }
    {
        match first_names(alloc, "names ", text) {
            Ok(Some(found)) => {
                self.contents.names = found.0;
                self.turn(Place::Listed, 0);
                Ok(Some(found.1))
            }
            Ok(None) => Ok(None),
            Err(refused) => Err(refused),
        }
    }

    /// Takes the line of the names in the list.
    fn listed<'a>(&mut self, alloc: Global, text: &'a str) -> Result<Option<&'a str>, AllocError>
        ensures { IfOk result (λ found. MatchOption found
            (Lacks (AreListed (kept_so_far self.old.contents)) text.now)
            (λ rest. Takes (AreListed (kept_so_far self.old.contents)) text.now rest.now
            (said_in self.new))) }
    {
        if let Some(rest) = first_words("unlisted", text) {
            self.contents.listed = None;
            self.turn(Place::Count, 0);
            return Ok(Some(rest));
        }
        match first_names(alloc, "listed ", text) {
            Ok(Some(found)) => {
                self.contents.listed = Some(found.0);
                self.turn(Place::Count, 0);
                Ok(Some(found.1))
            }
            Ok(None) => Ok(None),
            Err(refused) => Err(refused),
        }
    }

    /// Takes the line that counts the steps.
    fn count<'a>(&mut self, text: &'a str) -> Option<&'a str>
        ensures some { IfSome result (λ rest. Takes (IsCount (kept_so_far self.old.contents))
            text.now rest.now (said_in self.new)) }
        ensures none { IfNone result (Lacks (IsCount (kept_so_far self.old.contents)) text.now) }
    {
        let Some(found) = first_number("steps ", text) else {
            return None;
        };
        if found.0 as usize > MOST_STEPS {
            return None;
        }
        self.turn(Place::Step, found.0 as usize);
        Some(found.1)
    }

    /// Takes the line that counts the requests that undo.
    fn undo_count<'a>(&mut self, text: &'a str) -> Option<&'a str>
        ensures some { IfSome result (λ rest. Takes (IsStep 0 (kept_so_far self.old.contents))
            text.now rest.now (said_in self.new)) }
        ensures none { IfNone result (Lacks (IsStep 0 (kept_so_far self.old.contents)) text.now) }
    {
        let Some(found) = first_number("undo ", text) else {
            return None;
        };
        if found.0 as usize > MOST_STEPS {
            return None;
        }
        self.turn(Place::Request, found.0 as usize);
        Some(found.1)
    }

    /// Takes the line that counts the requests that wait.
    fn waiting_count<'a>(&mut self, text: &'a str) -> Option<&'a str>
        ensures some { IfSome result (λ rest. Takes (IsUndo 0 (kept_so_far self.old.contents))
            text.now rest.now (said_in self.new)) }
        ensures none { IfNone result (Lacks (IsUndo 0 (kept_so_far self.old.contents)) text.now) }
    {
        let Some(found) = first_number("waiting ", text) else {
            return None;
        };
        if !may_wait(found.0, self.contents.requests.len()) {
            return None;
        }
        self.turn(Place::Waiting, found.0 as usize);
        Some(found.1)
    }

    /// Takes the line of a step, behind which so many are left.
    fn step<'a>(
        &mut self,
        alloc: Global,
        left: usize,
        text: &'a str,
    ) -> Result<Option<&'a str>, AllocError>
        requires { length self.old.contents.steps < most_steps }
        ensures { IfOk result (λ found. MatchOption found
            (Lacks (IsStep (suc left) (kept_so_far self.old.contents)) text.now)
            (λ rest. Takes (IsStep (suc left) (kept_so_far self.old.contents)) text.now rest.now
            (said_in self.new))) }
    {
        let Some(found) = first_spelt(alloc, text)? else {
            return Ok(None);
        };
        let Some(op) = found.0.step() else {
            return Ok(None);
        };
        self.contents.steps.push(&op)?;
        self.turn(Place::Step, left);
        Ok(Some(found.1))
    }

    /// Takes the line of a request that undoes, behind which so many are left.
    fn request<'a>(
        &mut self,
        alloc: Global,
        left: usize,
        text: &'a str,
    ) -> Result<Option<&'a str>, AllocError>
        requires few { length self.old.contents.requests.members < most_steps }
        requires none { self.old.contents.requests.waiting ≡ None }
        ensures { IfOk result (λ found. MatchOption found
            (Lacks (IsUndo (suc left) (kept_so_far self.old.contents)) text.now)
            (λ rest. Takes (IsUndo (suc left) (kept_so_far self.old.contents)) text.now rest.now
            (said_in self.new))) }
    {
        let Some(found) = first_spelt(alloc, text)? else {
            return Ok(None);
        };
        let Some(request) = found.0.request() else {
            return Ok(None);
        };
        self.contents.requests.add(&request)?;
        self.turn(Place::Request, left);
        Ok(Some(found.1))
    }

    /// Takes the line of the request that waits, behind which so many are left.
    fn waiting<'a>(
        &mut self,
        alloc: Global,
        left: usize,
        text: &'a str,
    ) -> Result<Option<&'a str>, AllocError>
        requires { length self.old.contents.requests.members < most_steps }
        ensures { IfOk result (λ found. MatchOption found
            (Lacks (IsWaiting (suc left) (kept_so_far self.old.contents)) text.now)
            (λ rest. Takes (IsWaiting (suc left) (kept_so_far self.old.contents)) text.now rest.now
            (said_in self.new))) }
    {
        let Some(found) = first_spelt(alloc, text)? else {
            return Ok(None);
        };
        let Some(request) = found.0.request() else {
            return Ok(None);
        };
        self.contents.requests.hold(&request)?;
        self.turn(Place::Waiting, left);
        Ok(Some(found.1))
    }

    /// Whether a manager can be at this stage with what was read.
    fn fits(&self, stage: &KeptStage) -> bool
        ensures { (result ≡ true) ↔ Fits (kept_so_far self.now.contents) stage.now }
    {
        let waits = match stage {
            KeptStage::Open {
                task: KeptTask::Set(_),
                ..
            } => true,
            _ => self.contents.requests.waiting().is_none(),
        };
        waits && stage.is_of(&self.contents.steps, &self.contents.requests)
    }

    /// Takes the line of the stage.
    fn stage<'a>(&mut self, text: &'a str) -> Option<&'a str>
        ensures some { IfSome result (λ rest. Takes (IsWaiting 0 (kept_so_far self.old.contents))
            text.now rest.now (said_in self.new)) }
        ensures none { IfNone result
            (Lacks (IsWaiting 0 (kept_so_far self.old.contents)) text.now) }
    {
        let Some(found) = first_stage(text) else {
            return None;
        };
        if !self.fits(&found.0) {
            return None;
        }
        self.contents.stage = found.0;
        self.turn(Place::Told, 0);
        Some(found.1)
    }

    /// Takes the line that says whether the plan is to stop.
    fn told<'a>(&mut self, text: &'a str) -> Option<&'a str>
        ensures some { IfSome result (λ rest. Takes (IsTold (kept_so_far self.old.contents))
            text.now rest.now (said_in self.new)) }
        ensures none { IfNone result (Lacks (IsTold (kept_so_far self.old.contents)) text.now) }
    {
        let Some(found) = first_told(text) else {
            return None;
        };
        if !self.contents.stage.is_stopped_so(found.0) {
            return None;
        }
        self.contents.stopped = found.0;
        self.turn(Place::Counts, 0);
        Some(found.1)
    }

    /// Takes the line of the counts.
    fn counts<'a>(&mut self, text: &'a str) -> Option<&'a str>
        requires { Fits (kept_so_far self.old.contents) self.old.contents.stage }
        ensures some { IfSome result (λ rest. Takes (AreCounts (kept_so_far self.old.contents))
            text.now rest.now (said_in self.new)) }
        ensures none { IfNone result (Lacks (AreCounts (kept_so_far self.old.contents)) text.now) }
    {
        let Some(found) = first_counts(text) else {
            return None;
        };
        let Contents {
            stage,
            steps,
            requests,
            ..
        } = &self.contents;
        if !stage.has_counts(steps, requests, found.0) {
            return None;
        }
        self.contents.counts = found.0;
        self.turn(Place::Replies, 0);
        Some(found.1)
    }

    /// Takes the line of what the replies show.
    fn shown<'a>(&mut self, alloc: Global, text: &'a str) -> Result<Option<&'a str>, AllocError>
        ensures { IfOk result (λ found. MatchOption found
            (Lacks (IsShown (kept_so_far self.old.contents)) text.now)
            (λ rest. Takes (IsShown (kept_so_far self.old.contents)) text.now rest.now
            (said_in self.new))) }
    {
        let Some(found) = first_bytes(alloc, "replies ", text)? else {
            return Ok(None);
        };
        let bytes = found.0.as_slice();
        if bytes.is_empty() {
            return Ok(None);
        }
        if !self.contents.stage.has_replies(bytes) {
            return Ok(None);
        }
        self.contents.replies = found.0;
        self.turn(Place::End, 0);
        Ok(Some(found.1))
    }

    /// Takes the line of the replies.
    fn replies<'a>(&mut self, alloc: Global, text: &'a str) -> Result<Option<&'a str>, AllocError>
        ensures { IfOk result (λ found. MatchOption found
            (Lacks (AreReplies (kept_so_far self.old.contents)) text.now)
            (λ rest. Takes (AreReplies (kept_so_far self.old.contents)) text.now rest.now
            (said_in self.new))) }
    {
        match first_words("no replies", text) {
            Some(rest) => {
                self.contents.replies = Vec::new(alloc);
                self.turn(Place::End, 0);
                Ok(Some(rest))
            }
            None => self.shown(alloc, text),
        }
    }

    /// Takes a line of the steps, or the one behind them.
    fn step_line<'a>(&mut self, alloc: Global, text: &'a str) -> Result<Option<&'a str>, AllocError>
        requires { self.old.left + length self.old.contents.steps ≤ most_steps }
        ensures { IfOk result (λ found. MatchOption found
            (Lacks (IsStep self.old.left (kept_so_far self.old.contents)) text.now)
            (λ rest. Takes (IsStep self.old.left (kept_so_far self.old.contents))
            text.now rest.now (said_in self.new))) }
    {
        if self.left == 0 {
            return Ok(self.undo_count(text));
        }
        self.step(alloc, self.left - 1, text)
    }

    /// Takes a line of the requests that undo, or the one behind them.
    fn request_line<'a>(
        &mut self,
        alloc: Global,
        text: &'a str,
    ) -> Result<Option<&'a str>, AllocError>
        requires few { self.old.left + length self.old.contents.requests.members ≤ most_steps }
        requires none { self.old.contents.requests.waiting ≡ None }
        ensures { IfOk result (λ found. MatchOption found
            (Lacks (IsUndo self.old.left (kept_so_far self.old.contents)) text.now)
            (λ rest. Takes (IsUndo self.old.left (kept_so_far self.old.contents))
            text.now rest.now (said_in self.new))) }
    {
        if self.left == 0 {
            return Ok(self.waiting_count(text));
        }
        self.request(alloc, self.left - 1, text)
    }

    /// Takes the line of the request that waits, or the stage's.
    fn waiting_line<'a>(
        &mut self,
        alloc: Global,
        text: &'a str,
    ) -> Result<Option<&'a str>, AllocError>
        requires { self.old.left + length self.old.contents.requests.members ≤ most_steps }
        ensures { IfOk result (λ found. MatchOption found
            (Lacks (IsWaiting self.old.left (kept_so_far self.old.contents)) text.now)
            (λ rest. Takes (IsWaiting self.old.left (kept_so_far self.old.contents))
            text.now rest.now (said_in self.new))) }
    {
        if self.left == 0 {
            return Ok(self.stage(text));
        }
        self.waiting(alloc, self.left - 1, text)
    }

    /// Takes the next line: gives the text behind it, or nothing where the text begins with no line that may come next.
    pub(crate) fn take<'a>(
        &mut self,
        alloc: Global,
        text: &'a str,
    ) -> Result<Option<&'a str>, AllocError>
        requires { IsOpen (said_in self.old) }
        ensures { IfOk result (λ found. MatchOption found
            (Lacks (Leads (said_in self.old)) text.now)
            (λ rest. Takes (Leads (said_in self.old)) text.now rest.now (said_in self.new))) }
    {
        match self.place {
            Place::Version => Ok(self.version(text)),
            Place::Retries => Ok(self.retries(text)),
            Place::Names => self.names(alloc, text),
            Place::Listed => self.listed(alloc, text),
            Place::Count => Ok(self.count(text)),
            Place::Step => self.step_line(alloc, text),
            Place::Request => self.request_line(alloc, text),
            Place::Waiting => self.waiting_line(alloc, text),
            Place::Told => Ok(self.told(text)),
            Place::Counts => Ok(self.counts(text)),
            Place::Replies => self.replies(alloc, text),
            Place::End => Ok(None),
        }
    }
}
