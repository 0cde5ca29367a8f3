//! What is said of a play that is asked to end by what came of the plan, or for the list of the changed records.
ghost use Rattle.std.specs.Prelude.{◌≡◌, [], IfOk, string_bytes};
ghost use Rattle.cfg_records.specs.declared.board_file.BoardFile.{BoardFile as AnyFile};
ghost use Rattle.model_lab.specs.Played.{Told};
ghost use Rattle.lab_play.specs.Ends.{TellsPlay};
ghost use Rattle.report_words.specs.Changes.{IsListOf, listed};
ghost use Rattle.app_base.specs.declared.console.Stream.TheVariants.{Output};
ghost use Rattle.app_base.specs.Ending.{RunEnds};
ghost use Rattle.app_base.specs.Refusals.{SaysUnless, is_loose};
ghost use Rattle.app_play.specs.Strict.{DrawsBy, NotesBy, NotesEnd, PlaysBy, PrintsAsked, PrintsStrictly, RecountsBy, SaysBy};
ghost use Rattle.app_play.specs.Strict.{drawing_by, ended_by, listed_text};

use crate::account::Account;
use crate::drawn;
use crate::ended::{Ended, parts_of};
use crate::inputs::{Inputs, read_inputs};
use crate::report::{account_of, status};
use crate::restarted::{self, first_behind, place_refusal};
use crate::run::{Shown, is_memory, refusal_report, show};
use app_base::{Console, Ending, NamedText, Report, Status, end_status, files_refusal};
use cfg_records::BoardFile;
use lab_play::{LabFault, Played, Stopped, play_noted, play_restarting};
use lab_run::Note;
use report_words::ChangeList;
use std::alloc::{AllocError, Global};
use std::io;
use text_lines::Event;
use undo_plans::Plan;

/// What a play is asked for beside how it is shown.
#[derive(Clone, Copy)]
pub struct PlayOptions {
    /// Whether its status says what came of the plan, and files with a key that nothing reads, or without a step, are refused.
    pub strict: bool,
    /// Whether each record that changed is told, behind how many did. A chart tells none.
    pub list: bool,
}

/// The texts of a play, and the words that name them.
#[derive(Clone, Copy)]
pub struct PlayTexts<'a> {
    pub board: NamedText<'a>,
    pub plan: NamedText<'a>,
    pub schedule: &'a str,
}

/// How a play with this account ends, of a plan of so many steps.
fn ending_of(strict: bool, steps: usize, account: &Account) -> Status
    ensures { result ≡ ended_by strict steps account.now account.now.stopped }
{
    match account.stopped {
        None if strict => {
            let halted = account.undo.len() < steps;
            end_status(account.phase, halted, account.changed)
        }
        stopped => status(stopped),
    }
}

/// Plays a plan on a board by a schedule, and notes each event that happens; where there are places, the manager is made again behind the events
/// of these.
fn played_by<'a>(
    alloc: Global,
    file: BoardFile,
    plan: Plan,
    places: &[usize],
    events: &'a [Event],
    notes: &mut Vec<Note<'a>>,
) -> Result<Played, LabFault>
    requires { notes.now.items ≡ [] }
    ensures plays { PlaysBy file plan.steps plan.retries places.now events.now result }
    ensures noted { NotesBy file plan.steps plan.retries places.now events.now result
        notes.new.items }
{
    if places.is_empty() {
        play_noted(alloc, file, plan, events, notes)
    } else {
        play_restarting(alloc, file, plan, events, places, notes)
    }
}

/// What is said in lines of what was played, whose account this is.
fn listed_report(
    alloc: Global,
    options: PlayOptions,
    shown: (bool, bool),
    steps: usize,
    list: &ChangeList,
    played: &Played,
    account: &Account,
) -> Result<Report, AllocError>
    ensures stream { IfOk result (λ report. report.stream ≡ Output) }
    ensures text { (told : Told) (file : AnyFile) → TellsPlay played.now told
        → IsListOf options.list file list.now
        → IfOk result (λ report. string_bytes report.text
        ≡ listed_text (listed options.list file told.records) shown.0 shown.1 account.now) }
    ensures status { IfOk result (λ report. report.status
        ≡ ended_by options.strict steps account.now account.now.stopped) }
{
    let (frames, premises) = shown;
    let mut lines = String::new(alloc);
    list.push(&mut lines, played.records())?;
    let text = account.listed_text(alloc, lines.as_str(), frames, premises)?;
    Ok(Report::output(text, ending_of(options.strict, steps, account)))
}

/// What is said in lines of the play that these inputs tell.
fn lines_report(
    alloc: Global,
    options: PlayOptions,
    shown: (bool, bool),
    places: &[usize],
    inputs: Inputs,
) -> Result<Report, AllocError>
    ensures stream { IfOk result (λ report. report.stream ≡ Output) }
    ensures told { IfOk result (λ report. RecountsBy options shown.0 shown.1 places.now inputs
        (string_bytes report.text) report.status) }
{
    let Inputs { file, plan, events } = inputs;
    let steps = plan.steps.len();
    let list = ChangeList::of(alloc, options.list, &file)?;
    let mut notes = Vec::new(alloc);
    let events = events.as_slice();
    match parts_of(played_by(alloc, file, plan, places, events, &mut notes)) {
        Ok(ended) => {
            let Ended { played, stopped } = ended;
            let account = account_of(&played, stopped);
            let report = listed_report(alloc, options, shown, steps, &list, &played, &account);
            drop(played);
            report
        }
        Err(AllocError) => Err(AllocError),
    }
}

/// Plays a plan so, and gives the event that the lab didn't take, and how the play ends.
fn noted_ending<'a>(
    alloc: Global,
    strict: bool,
    file: BoardFile,
    plan: Plan,
    places: &[usize],
    events: &'a [Event],
    notes: &mut Vec<Note<'a>>,
) -> Result<(Option<Stopped>, Status), AllocError>
    requires { notes.now.items ≡ [] }
    ensures { IfOk result (λ ended. NotesEnd strict file plan.steps plan.retries places.now
        events.now ended.0 ended.1 notes.new.items) }
{
    let steps = plan.steps.len();
    match parts_of(played_by(alloc, file, plan, places, events, notes)) {
        Ok(ended) => {
            let Ended { played, stopped } = ended;
            let status = ending_of(strict, steps, &account_of(&played, stopped));
            drop(played);
            Ok((stopped, status))
        }
        Err(AllocError) => Err(AllocError),
    }
}

/// The chart with these notes, and the line of the event that wasn't taken.
fn drawing_by(
    alloc: Global,
    notes: &[Note],
    places: &[usize],
    stopped: Option<Stopped>,
) -> Result<Report, AllocError>
    ensures stream { IfOk result (λ report. report.stream ≡ Output) }
    ensures text { IfOk result (λ report. string_bytes report.text
        ≡ drawing_by places.now notes.now stopped) }
{
    if places.is_empty() {
        drawn::drawing(alloc, notes, stopped)
    } else {
        restarted::drawing(alloc, notes, places, stopped)
    }
}

/// What is drawn of the play that these inputs tell.
fn chart_report(
    alloc: Global,
    strict: bool,
    places: &[usize],
    inputs: Inputs,
) -> Result<Report, AllocError>
    ensures stream { IfOk result (λ report. report.stream ≡ Output) }
    ensures drawn { IfOk result (λ report. DrawsBy strict places.now inputs
        (string_bytes report.text) report.status) }
{
    let Inputs { file, plan, events } = inputs;
    let mut notes = Vec::new(alloc);
    let events = events.as_slice();
    let (stopped, status) = noted_ending(alloc, strict, file, plan, places, events, &mut notes)?;
    let mut report = drawing_by(alloc, notes.as_slice(), places, stopped)?;
    report.status = status;
    Ok(report)
}

/// What is said of the play that these inputs tell, as it is to be shown; or of the first place that is behind the last event.
fn inputs_report(
    alloc: Global,
    options: PlayOptions,
    shown: Shown,
    places: &[usize],
    inputs: Inputs,
) -> Result<Report, AllocError>
    ensures { IfOk result (λ report. SaysBy options places.now shown inputs report.stream
        (string_bytes report.text) report.status) }
{
    if let Some(place) = first_behind(places, inputs.events.as_slice()) {
        return place_refusal(alloc, place);
    }
    match shown {
        Shown::Lines { frames, premises } => {
            lines_report(alloc, options, (frames, premises), places, inputs)
        }
        Shown::Chart => chart_report(alloc, options.strict, places, inputs),
    }
}

/// What is said of what was read of these texts, unless the run is strict and a file is refused so.
fn read_report(
    alloc: Global,
    options: PlayOptions,
    shown: Shown,
    places: &[usize],
    texts: PlayTexts<'_>,
    inputs: Inputs,
) -> Result<Report, AllocError>
    ensures { IfOk result (λ report. SaysUnless
        (is_loose options.strict texts.entry.board.text.now texts.entry.plan.text.now inputs.plan)
        (SaysBy options places.now shown inputs)
        report.stream (string_bytes report.text) report.status) }
{
    let PlayTexts { board, plan, .. } = texts;
    match files_refusal(alloc, options.strict, board, plan, &inputs.plan)? {
        Some(report) => Ok(report),
        None => inputs_report(alloc, options, shown, places, inputs),
    }
}

/// What is said of the play that the texts tell with these options, or of the first text that is refused.
fn strict_report(
    alloc: Global,
    options: PlayOptions,
    shown: Shown,
    places: &[usize],
    texts: PlayTexts<'_>,
) -> Result<Report, AllocError>
    ensures { IfOk result (λ report. PrintsAsked options shown places.now
        texts.entry.board.text.now texts.entry.plan.text.now texts.entry.schedule.now
        report.stream (string_bytes report.text) report.status) }
{
    match read_inputs(alloc, texts.board.text, texts.plan.text, texts.schedule) {
        Ok(inputs) => read_report(alloc, options, shown, places, texts, inputs),
        Err(why) if is_memory(&why) => Err(AllocError),
        Err(why) => refusal_report(alloc, why),
    }
}

/// Says that, and gives the status.
fn strict_show<W: io::Write, E: io::Write>(
    alloc: Global,
    options: PlayOptions,
    shown: Shown,
    places: &[usize],
    texts: PlayTexts<'_>,
    console: &mut Console<W, E>,
) -> u8
    ensures { RunEnds W.contents E.contents
        (PrintsAsked options shown places.now texts.entry.board.text.now
        texts.entry.plan.text.now texts.entry.schedule.now)
        console.old console.new result }
{
    let report = strict_report(alloc, options, shown, places, texts);
    u8::from(Ending::of(&report).write(console))
}

/// Shows the play that the texts tell: what `show` does, with these options. With `strict` the status says what came of the plan, unless an event has a
/// fault: 10 where it halted, 11 where a request is open or unsettled, 12 where one that undoes was refused, and 13 where records are changed
/// although all is undone or nothing began; a plan that was undone halted where fewer requests undo it than it has steps. It is 3, with the
/// lines of `bmclab check`, where a key of the board file or of the plan is unknown or not used, or the plan has no step. With `list` a line
/// for each changed record stands behind that of the records.
pub fn show_asked<W: io::Write, E: io::Write>(
    alloc: Global,
    options: PlayOptions,
    shown: Shown,
    places: &[usize],
    texts: PlayTexts<'_>,
    console: &mut Console<W, E>,
) -> u8
    ensures { RunEnds W.contents E.contents
        (PrintsStrictly options.strict options.list shown places.now
        texts.entry.board.text.now texts.entry.plan.text.now texts.entry.schedule.now)
        console.old console.new result }
{
    if !options.strict && !options.list {
        return show(
            alloc,
            shown,
            places,
            texts.board.text,
            texts.plan.text,
            texts.schedule,
            console,
        );
    }
    strict_show(alloc, options, shown, places, texts, console)
}
