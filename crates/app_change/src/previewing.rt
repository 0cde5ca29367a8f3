//! `bmcnet preview`: the records of a plan's steps are looked at, and it is told what each step would make of them. Nothing is set.
ghost use Rattle.std.specs.Prelude.{◌≡◌, IfOk, length};
ghost use Rattle.std.specs.List.{list_any};
ghost use Rattle.app_base.specs.Ending.{RunEnds};
ghost use Rattle.app_change.specs.Preview.{PreviewEndsOf, PreviewEndsOn, PreviewEndsOver};
ghost use Rattle.app_change.specs.Preview.{PreviewsTo, SaysLookFault, TellsOf};
ghost use Rattle.app_change.specs.Preview.{is_barred, keys_of, status_of, way_of};

use crate::foreseeing::key_at;
use crate::outlook_json::outlooks_json;
use crate::outlook_text::outlooks_text;
use crate::outlooks::{Outlook, foresee_all};
use app_apply::applying::{lacks_port, say, say_on};
use app_apply::refusing::{say_refused, say_unread};
use app_apply::sentences::{port_text, push_unanswered};
use app_apply::{Reach, StrictFault, strict_plan};
use app_base::{Console, ReportFault, Status, Stream, TextFiles, end_run, text_of};
use app_look::{Found, LookFault, NamedRecords, OpenFault, StopFault, Way, look_and_name};
use app_run::Unanswered;
use record_base::{Key, RecordKind};
use record_kinds::Limits;
use record_words::RecordName;
use report_words::Names;
use shown_records::Meaning;
use std::alloc::{AllocError, Global};
use std::io;
use std::net::Net;
use two_wire::Retries;
use undo_plans::{Plan, Steps};

/// What the words of `bmcnet preview` ask for.
#[derive(Drop)]
pub struct PreviewWords {
    /// The word of the plan.
    pub plan: String,
    /// Whether an object in a line is said of each step, in place of words.
    pub json: bool,
    /// Where the controller is.
    pub reach: Reach,
}

/// The way of looks to where the controller is.
fn way_of(reach: &Reach, retries: Retries) -> Way
    ensures { result ≡ way_of reach.now retries }
{
    Way {
        ipmb_port: reach.ipmb_port,
        smbus_port: reach.smbus_port.unwrap_or(0),
        wait_ms: reach.wait_ms,
        retries,
        again: reach.again,
    }
}

/// The records of the steps, in their order.
fn keys_of(alloc: Global, steps: &Steps) -> Result<Vec<Key>, AllocError>
    ensures { IfOk result (λ keys. keys.items ≡ keys_of steps.now) }
{
    let mut keys = Vec::new(alloc);
    for place in 0..steps.len() {
        keys.push(key_at(steps, place))?;
    }
    Ok(keys)
}

/// Whether a step can't be done: its Get was refused, or it couldn't be taken back.
pub(crate) fn is_barred(outlook: &Outlook) -> bool
    ensures { result ≡ is_barred outlook.now }
{
    match outlook {
        Outlook::Foreseen(foreseen) => matches!(foreseen.meaning, Meaning::NotRestorable),
        Outlook::Refused(_) => true,
    }
}

/// Whether a step can't be done.
fn any_barred(outlooks: &[Outlook]) -> bool
    ensures { result ≡ list_any is_barred outlooks.now }
{
    outlooks.iter().any(|outlook| is_barred(outlook))
}

/// The status of a run that tells this of the steps.
fn status_of(outlooks: &[Outlook]) -> Status
    ensures { result ≡ status_of outlooks.now }
{
    if any_barred(outlooks) {
        Status::Halted
    } else {
        Status::Success
    }
}

/// What is said of the steps: an object of each, or else lines.
fn text_for(
    alloc: Global,
    steps: &Steps,
    outlooks: &[Outlook],
    names: &Names,
    json: bool,
) -> Result<String, AllocError> {
    if json {
        outlooks_json(alloc, steps, outlooks, names)
    } else {
        outlooks_text(alloc, steps, outlooks, names)
    }
}

/// Tells of each step what it would make of what the steps before it leave, by what was found of its record, with the names that are known.
fn tell_of<W: io::Write, E: io::Write>(
    alloc: Global,
    steps: &Steps,
    found: &[Found],
    names: &Names,
    json: bool,
    console: &mut Console<W, E>,
) -> u8
    requires { length found.now ≡ length steps.now }
    ensures { TellsOf W.contents E.contents steps.now found.now
        console.old console.new result }
{
    let Ok(outlooks) = foresee_all(alloc, steps, found) else {
        return end_run(&Err(ReportFault::Memory), console);
    };
    let status = status_of(outlooks.as_slice());
    let text = text_for(alloc, steps, outlooks.as_slice(), names, json);
    say_on(text, Stream::Output, status, console)
}

/// That this greeting wasn't answered.
fn unanswered_text(alloc: Global, why: Unanswered, reach: &Reach) -> Result<String, AllocError> {
    let mut text = String::new(alloc);
    push_unanswered(&mut text, why, reach)?;
    text.push_str("; nothing was set\n")?;
    Ok(text)
}

/// That the Get of the record of this step wasn't answered.
fn silent_text(alloc: Global, steps: &Steps, place: usize) -> Result<String, AllocError> {
    let number = place as u128 + 1;
    let mut text = String::new(alloc);
    write!(text, "no answer to the Get of step {number}")?;
    if let Some(op) = steps.get(place) {
        write!(text, ", {}", RecordName(Limits::key(&op)))?;
    }
    text.push_str("; nothing was set\n")?;
    Ok(text)
}

/// Says why no look was made.
fn end_unopened<W: io::Write, E: io::Write>(
    alloc: Global,
    why: OpenFault,
    reach: &Reach,
    console: &mut Console<W, E>,
) -> u8
    ensures { RunEnds W.contents E.contents (SaysLookFault (LookFault.Unopened why))
        console.old console.new result }
{
    match why {
        OpenFault::Memory => end_run(&Err(ReportFault::Memory), console),
        OpenFault::NoLink => {
            let text = String::from_str(alloc, "no socket could be had; nothing was set\n");
            say(text, Status::Stopped, console)
        }
        OpenFault::Ungreeted(why) => {
            let text = unanswered_text(alloc, why, reach);
            say(text, Status::Unsettled, console)
        }
    }
}

/// Says why not each record was looked at.
fn end_untold<W: io::Write, E: io::Write>(
    alloc: Global,
    steps: &Steps,
    why: LookFault,
    reach: &Reach,
    console: &mut Console<W, E>,
) -> u8
    ensures { RunEnds W.contents E.contents (SaysLookFault why) console.old console.new result }
{
    match why {
        LookFault::Unopened(why) => end_unopened(alloc, why, reach, console),
        LookFault::Stopped(StopFault::Silent(place)) => {
            let text = silent_text(alloc, steps, place);
            say(text, Status::Unsettled, console)
        }
        LookFault::Stopped(StopFault::Memory) => end_run(&Err(ReportFault::Memory), console),
    }
}

/// Looks at the records of the plan's steps, and tells of each step.
fn preview_over<W: io::Write, E: io::Write, R: Net>(
    rt: &R,
    alloc: Global,
    plan: &Plan,
    words: &PreviewWords,
    console: &mut Console<W, E>,
) -> u8
    ensures { PreviewsTo W.contents E.contents plan.now words.now console.old console.new result }
{
    let Ok(keys) = keys_of(alloc, &plan.steps) else {
        return end_run(&Err(ReportFault::Memory), console);
    };
    let way = way_of(&words.reach, plan.retries);
    match look_and_name(rt, alloc, &way, keys.as_slice()) {
        Ok(named) => {
            let NamedRecords { found, names } = named;
            let names = names.unwrap_or(Names::new(alloc));
            tell_of(
                alloc,
                &plan.steps,
                found.as_slice(),
                &names,
                words.json,
                console,
            )
        }
        Err(why) => end_untold(alloc, &plan.steps, why, &words.reach, console),
    }
}

/// Previews a plan that is taken, where the ports that it needs are known.
fn preview_plan<W: io::Write, E: io::Write, R: Net>(
    rt: &R,
    alloc: Global,
    plan: &Plan,
    words: &PreviewWords,
    console: &mut Console<W, E>,
) -> u8
    ensures { PreviewEndsOver W.contents E.contents plan.now words.now
        console.old console.new result }
{
    if lacks_port(plan, &words.reach) {
        let why = port_text(alloc, "the plan");
        return say_refused(alloc, words.json, why, Status::RefusedWords, console);
    }
    preview_over(rt, alloc, plan, words, console)
}

/// Previews the plan of this text.
fn preview_on<W: io::Write, E: io::Write, R: Net>(
    rt: &R,
    alloc: Global,
    text: &str,
    words: &PreviewWords,
    console: &mut Console<W, E>,
) -> u8
    ensures { PreviewEndsOn W.contents E.contents text.now words.now
        console.old console.new result }
{
    match strict_plan(alloc, words.plan.as_str(), text) {
        Ok(plan) => preview_plan(rt, alloc, &plan, words, console),
        Err(StrictFault::Memory) => end_run(&Err(ReportFault::Memory), console),
        Err(StrictFault::Refused(why)) => {
            say_refused(alloc, words.json, Ok(why), Status::RefusedFile, console)
        }
    }
}

/// Tells what each step of the plan of the file that the words name would make of a controller's records, by greetings and Gets alone.
pub fn preview<F: TextFiles, W: io::Write, E: io::Write, R: Net>(
    rt: &R,
    alloc: Global,
    files: &F,
    words: &PreviewWords,
    console: &mut Console<W, E>,
) -> u8
    ensures { PreviewEndsOf W.contents E.contents (F.gives files.now) words.now
        console.old console.new result }
{
    match text_of(files, words.plan.as_str()) {
        Ok(text) => preview_on(rt, alloc, text.as_str(), words, console),
        Err(unread) => say_unread(alloc, words.json, &unread, console),
    }
}
