//! `bmcnet show`: what a controller's records are set to, as plans.
ghost use Rattle.std.specs.Prelude.{◌≡◌, IfErr, OnOk, length, string_bytes};
ghost use Rattle.app_base.specs.Ending.{RunEnds};
ghost use Rattle.app_base.specs.Console.{IsWrittenTo};
ghost use Rattle.app_run.specs.Ends.{PrintsNothing};
ghost use Rattle.app_show.specs.Show.{EndsInFiles, EndsInObjects, EndsOnOutput, EndsOpened};
ghost use Rattle.app_show.specs.Show.{EndsPut, EndsRead, EndsTold, EndsUnopened};
ghost use Rattle.app_show.specs.Show.{EndsWithTexts, SaysText, ShowEndsOf};
ghost use Rattle.app_show.specs.Show.{is_misfit, lacks_port, way_of};

use crate::backup::Backup;
use crate::keys::IdRange;
use crate::objects::only_text;
use crate::putting::{Unput, files_of, first_taken, put_all};
use crate::reading::{ReadFault, Reader};
use crate::texts::{
    counts_text, no_files_text, no_link_text, no_port_text, silent_text, taken_text, told_text,
    ungreeted_text, unput_text, unwritten_text,
};
use crate::writing::{all_texts, plan_texts, step_count};
use app_apply::Reach;
use app_apply::applying::say;
use app_base::{Console, Report, ReportFault, Status, Stream, end_run};
use app_journal::{UndoFiles, WritesFiles};
use app_look::{OpenFault, Session, Way};
use std::alloc::{AllocError, Global};
use std::io;
use std::net::Net;
use two_wire::Retries;

/// How often a Get is sent again.
const SHOW_RETRIES: u8 = 3;

/// What the words of `bmcnet show` ask for.
#[derive(Drop)]
pub struct ShowWords {
    /// The ids of the effecters that are looked at.
    pub effecters: Vec<IdRange>,
    /// The name of the files that get the plans. Without one standard output gets them.
    pub out: Option<String>,
    /// Whether standard output gets an object in a line of each record, in place of the plans.
    pub json: bool,
    /// Where the controller is.
    pub reach: Reach,
}

/// A looker's way to the controller.
fn way_of(reach: &Reach) -> Way
    ensures { result ≡ way_of reach.now }
{
    Way {
        ipmb_port: reach.ipmb_port,
        smbus_port: reach.smbus_port.unwrap_or(0),
        wait_ms: reach.wait_ms,
        retries: Retries::new(SHOW_RETRIES),
        again: reach.again,
    }
}

/// Ends a run that made no look.
fn end_unopened<W: io::Write, E: io::Write>(
    alloc: Global,
    why: OpenFault,
    reach: &Reach,
    console: &mut Console<W, E>,
) -> u8
    ensures { EndsUnopened W.contents E.contents why console.old console.new result }
{
    match why {
        OpenFault::Memory => end_run(&Err(ReportFault::Memory), console),
        OpenFault::NoLink => say(no_link_text(alloc), Status::Stopped, console),
        OpenFault::Ungreeted(why) => {
            let text = ungreeted_text(alloc, why, reach);
            say(text, Status::Unsettled, console)
        }
    }
}

/// Says on standard error how many records are in the plans, or gives the status of a run that can't say it.
fn say_counts<W: io::Write, E: io::Write>(
    counts: &str,
    console: &mut Console<W, E>,
) -> Result<(), u8>
    ensures said { OnOk result (IsWrittenTo Stream.Error counts.now
        (W.contents console.old.out) (W.contents console.new.out)
        (E.contents console.old.err) (E.contents console.new.err)) }
    ensures unsaid { IfErr result
        (RunEnds W.contents E.contents PrintsNothing console.old console.new) }
{
    match console.write(Stream::Error, counts.as_bytes()) {
        Ok(()) => Ok(()),
        Err(why) => {
            drop(why);
            Err(u8::from(Status::Output))
        }
    }
}

/// Writes the texts of all plans to standard output, and ends the run.
fn print_texts<W: io::Write, E: io::Write>(all: String, console: &mut Console<W, E>) -> u8
    ensures { RunEnds W.contents E.contents
        (SaysText Stream.Output (string_bytes all) Status.Success) console.old console.new result }
{
    let report = Report {
        stream: Stream::Output,
        text: all,
        status: Status::Success,
    };
    end_run(&Ok(report), console)
}

/// Ends a run whose plans go to standard output: how many records are in them is said on standard error before.
fn end_on_output<W: io::Write, E: io::Write>(
    alloc: Global,
    texts: &[String],
    counts: &str,
    console: &mut Console<W, E>,
) -> u8
    ensures { EndsOnOutput W.contents E.contents texts.now console.old console.new result }
{
    let Ok(all) = all_texts(alloc, texts) else {
        return end_run(&Err(ReportFault::Memory), console);
    };
    match say_counts(counts, console) {
        Ok(()) => print_texts(all, console),
        Err(status) => {
            drop(all);
            status
        }
    }
}

/// The name of the file at this place.
fn name_at(all: &[UndoFiles], place: usize) -> &str {
    match all.get(place) {
        Some(file) => file.part.as_str(),
        None => "",
    }
}

/// Writes plans to files of which none is there, and ends the run.
fn end_put<F: WritesFiles, W: io::Write, E: io::Write>(
    alloc: Global,
    files: &mut F,
    all: &[UndoFiles],
    texts: &[String],
    counts: Result<String, AllocError>,
    console: &mut Console<W, E>,
) -> u8
    requires { length all.now ≡ length texts.now }
    ensures { EndsPut W.contents E.contents F.WritesFiles all.now texts.now
        files.old files.new console.old console.new result }
{
    match put_all(files, all, texts) {
        Ok(()) => say(counts, Status::Success, console),
        Err(Unput { place }) => {
            drop(counts);
            let text = unput_text(alloc, name_at(all, place), place);
            say(text, Status::RefusedFile, console)
        }
    }
}

/// Ends a run whose plans go to files of this name.
fn end_in_files<F: WritesFiles, W: io::Write, E: io::Write>(
    alloc: Global,
    files: &mut F,
    name: &str,
    texts: &[String],
    counts: Result<String, AllocError>,
    console: &mut Console<W, E>,
) -> u8
    ensures { EndsInFiles W.contents E.contents F.WritesFiles name.now texts.now
        files.old files.new console.old console.new result }
{
    let Ok(all) = files_of(alloc, name, texts.len()) else {
        drop(counts);
        return end_run(&Err(ReportFault::Memory), console);
    };
    match first_taken(&*files, all.as_slice()) {
        Ok(None) => end_put(alloc, files, all.as_slice(), texts, counts, console),
        Ok(Some(place)) => {
            drop(counts);
            let text = taken_text(alloc, name_at(all.as_slice(), place));
            say(text, Status::RefusedFile, console)
        }
        Err(AllocError) => {
            drop(counts);
            end_run(&Err(ReportFault::Memory), console)
        }
    }
}

/// Ends a run that has the texts of its plans.
fn end_with_texts<F: WritesFiles, W: io::Write, E: io::Write>(
    alloc: Global,
    files: &mut F,
    texts: &[String],
    backup: &Backup,
    words: &ShowWords,
    console: &mut Console<W, E>,
) -> u8
    ensures { EndsWithTexts W.contents E.contents F.WritesFiles words.now texts.now
        files.old files.new console.old console.new result }
{
    let counts = counts_text(alloc, step_count(backup), texts.len(), backup.remarks.len());
    match &words.out {
        Some(name) => end_in_files(alloc, files, name.as_str(), texts, counts, console),
        None => match counts {
            Ok(counts) => end_on_output(alloc, texts, counts.as_str(), console),
            Err(AllocError) => end_run(&Err(ReportFault::Memory), console),
        },
    }
}

/// Ends a run that read the controller's records.
fn end_read<F: WritesFiles, W: io::Write, E: io::Write>(
    alloc: Global,
    files: &mut F,
    backup: &Backup,
    words: &ShowWords,
    console: &mut Console<W, E>,
) -> u8
    ensures { EndsRead W.contents E.contents F.WritesFiles words.now backup.now
        files.old files.new console.old console.new result }
{
    match plan_texts(alloc, backup) {
        Ok(Some(texts)) => {
            end_with_texts(alloc, files, texts.as_slice(), backup, words, console)
        }
        Ok(None) => say(unwritten_text(alloc), Status::Stopped, console),
        Err(AllocError) => end_run(&Err(ReportFault::Memory), console),
    }
}

/// Ends a run that has the text of its objects.
fn end_with_objects<W: io::Write, E: io::Write>(
    alloc: Global,
    texts: &[String],
    backup: &Backup,
    console: &mut Console<W, E>,
) -> u8
    ensures { EndsOnOutput W.contents E.contents texts.now console.old console.new result }
{
    match told_text(alloc, step_count(backup), backup.remarks.len()) {
        Ok(counts) => end_on_output(alloc, texts, counts.as_str(), console),
        Err(AllocError) => end_run(&Err(ReportFault::Memory), console),
    }
}

/// Ends a run that read the controller's records, and tells of them in objects.
fn end_in_objects<W: io::Write, E: io::Write>(
    alloc: Global,
    backup: &Backup,
    console: &mut Console<W, E>,
) -> u8
    ensures { EndsInObjects W.contents E.contents console.old console.new result }
{
    match only_text(alloc, backup) {
        Ok(texts) => end_with_objects(alloc, texts.as_slice(), backup, console),
        Err(AllocError) => end_run(&Err(ReportFault::Memory), console),
    }
}

/// Ends a run that read the controller's records, by its words.
fn end_told<F: WritesFiles, W: io::Write, E: io::Write>(
    alloc: Global,
    files: &mut F,
    backup: &Backup,
    words: &ShowWords,
    console: &mut Console<W, E>,
) -> u8
    ensures { EndsTold W.contents E.contents F.WritesFiles words.now backup.now
        files.old files.new console.old console.new result }
{
    if words.json {
        end_in_objects(alloc, backup, console)
    } else {
        end_read(alloc, files, backup, words, console)
    }
}

/// Reads the controller's records, and ends the run.
fn show_over<F: WritesFiles, W: io::Write, E: io::Write>(
    alloc: Global,
    files: &mut F,
    session: Session,
    words: &ShowWords,
    console: &mut Console<W, E>,
) -> u8
    ensures { EndsOpened W.contents E.contents F.WritesFiles words.now session
        files.old files.new console.old console.new result }
{
    let mut session = session;
    let mut reader = Reader::new(alloc);
    let smbus = words.reach.smbus_port.is_some();
    match reader.read_all(&mut session, smbus, words.effecters.as_slice()) {
        Ok(()) => end_told(alloc, files, &reader.backup, words, console),
        Err(ReadFault::Memory) => end_run(&Err(ReportFault::Memory), console),
        Err(ReadFault::Silent) => say(silent_text(alloc), Status::Unsettled, console),
    }
}

/// Whether effecters are asked for, and no port of SMBus is known.
fn lacks_port(words: &ShowWords) -> bool
    ensures { result ≡ lacks_port words.now }
{
    words.reach.smbus_port.is_none() && !words.effecters.is_empty()
}

/// Whether the words don't go together.
fn is_misfit(words: &ShowWords) -> bool
    ensures { result ≡ is_misfit words.now }
{
    lacks_port(words) || words.json && words.out.is_some()
}

/// Why the words don't go together.
fn misfit_text(alloc: Global, words: &ShowWords) -> Result<String, AllocError> {
    if lacks_port(words) {
        no_port_text(alloc)
    } else {
        no_files_text(alloc)
    }
}

/// Shows what a controller's records are set to, as plans that set each to what it is.
pub fn show<F: WritesFiles, W: io::Write, E: io::Write, R: Net>(
    rt: &R,
    alloc: Global,
    files: &mut F,
    words: &ShowWords,
    console: &mut Console<W, E>,
) -> u8
    ensures { ShowEndsOf W.contents E.contents F.WritesFiles words.now files.old files.new
        console.old console.new result }
{
    if is_misfit(words) {
        return say(misfit_text(alloc, words), Status::RefusedWords, console);
    }
    let way = way_of(&words.reach);
    let smbus = words.reach.smbus_port.is_some();
    match Session::open(rt, alloc, &way, true, smbus) {
        Ok(session) => show_over(alloc, files, session, words, console),
        Err(why) => end_unopened(alloc, why, &words.reach, console),
    }
}
