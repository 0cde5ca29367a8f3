//! What comes of a text: what is read of it, or its fault.
use app_play::{Inputs, read_inputs};
use app_serve::read_readings;
use cfg_records::{Op, RecordKind};
use file_faults::{Sheet, Source};
use plan_file::read_plan;
use record_kinds::Limits;
use std::alloc::Global;
use std::fmt::{Debug, Display};
use std::process::Abort;
use text_board::read_board;
use text_check::{checked, form_or};
use text_journal::read_journal;
use text_lines::{
    behind, byte, bytes, first_line, first_word, number, plain_number, push_requests,
    read_schedule, read_undo, write_undo,
};
use undo_plans::{Contents, Plan, Requests, UndoList, UndoRequest};

/// What a text is of.
#[derive(Clone, Copy)]
pub enum Form {
    Board,
    Plan,
    Undo,
    /// An undo text, whose list is shown.
    List,
    Journal,
    Schedule,
    Readings,
    /// A board file, a plan and a schedule, with a line `---` before the second and the third.
    Play,
    /// A file of the name `file`, of which is told what there is to tell.
    Check,
    Part(PartForm),
}

/// What a part of a text is.
#[derive(Clone, Copy)]
pub enum PartForm {
    /// A text whose first line is cut off.
    FirstLine,
    /// A line whose first word is cut off.
    FirstWord,
    /// What stands behind `ipmb `.
    Behind,
    /// A number without leading zeros.
    PlainNumber,
    /// A number of at most nine digits.
    Number,
    Byte,
    Bytes,
}

/// What comes of a text.
#[derive(Drop)]
pub struct Came {
    /// Whether it is read.
    is_read: bool,
    /// What is read, as text, or what the text's fault is called.
    pub text: String,
}

impl PartForm {
    /// The form that stories call so.
    fn of(word: &str) -> Option<PartForm> {
        match word {
            "first line" => Some(PartForm::FirstLine),
            "first word" => Some(PartForm::FirstWord),
            "behind" => Some(PartForm::Behind),
            "plain number" => Some(PartForm::PlainNumber),
            "number" => Some(PartForm::Number),
            "byte" => Some(PartForm::Byte),
            "bytes" => Some(PartForm::Bytes),
            _ => None,
        }
    }
}

impl Form {
    /// The form that stories call so.
    pub fn of(word: &str) -> Option<Form> {
        match word {
            "board" => Some(Form::Board),
            "plan" => Some(Form::Plan),
            "undo" => Some(Form::Undo),
            "list" => Some(Form::List),
            "journal" => Some(Form::Journal),
            "schedule" => Some(Form::Schedule),
            "readings" => Some(Form::Readings),
            "play" => Some(Form::Play),
            "check" => Some(Form::Check),
            _ => Some(Form::Part(PartForm::of(word)?)),
        }
    }
}

/// This is read.
fn read_as(text: String) -> Came {
    Came {
        is_read: true,
        text,
    }
}

/// A fault, by its name.
fn refused<E: Display>(rt: &impl Abort, alloc: Global, fault: &E) -> Came {
    Came {
        is_read: false,
        text: format!(in alloc; "{fault}").expect(rt, "memory"),
    }
}

/// What is read shows all that it says, as Rust writes it.
pub fn shown<T: Debug + Drop, E: Display + Drop>(
    rt: &impl Abort,
    alloc: Global,
    read: Result<T, E>,
) -> Came {
    match read {
        Ok(read) => read_as(format!(in alloc; "{read:?}").expect(rt, "memory")),
        Err(fault) => refused(rt, alloc, &fault),
    }
}

/// What is cut in two shows both parts, with a bar between them.
fn cut(rt: &impl Abort, alloc: Global, parts: Option<(&str, &str)>) -> Came {
    match parts {
        Some((first, rest)) => read_as(format!(in alloc; "{first}|{rest}").expect(rt, "memory")),
        None => refused(rt, alloc, &"none"),
    }
}

/// Adds the line of a step's request, as an undo text has it.
fn push_step(rt: &impl Abort, alloc: Global, text: &mut String, step: &Op<'_>) {
    let mut requests = Requests::open(alloc, 0, 0).expect(rt, "memory");
    let asked = Limits::set_asked(step);
    requests.add(&UndoRequest::of(&asked)).expect(rt, "memory");
    push_requests(alloc, text, &requests).expect(rt, "memory");
    drop(requests);
}

/// How often the plan's frames are sent again, and the requests of its steps, a line each.
fn sent(rt: &impl Abort, alloc: Global, plan: &Plan) -> String {
    let mut text = String::new(alloc);
    write!(text, "{}: ", plan.retries.number()).expect(rt, "memory");
    for place in 0..plan.steps.len() {
        if let Some(step) = plan.steps.get(place) {
            push_step(rt, alloc, &mut text, &step);
        }
    }
    let sent = String::from_str(alloc, text.as_str().trim_end());
    drop(text);
    sent.expect(rt, "memory")
}

/// A plan shows what is sent.
fn came_of_plan(rt: &impl Abort, alloc: Global, text: &str) -> Came {
    match read_plan(alloc, text) {
        Ok(plan) => {
            let sent = sent(rt, alloc, &plan);
            drop(plan);
            read_as(sent)
        }
        Err(fault) => refused(rt, alloc, &fault),
    }
}

/// An undo text shows what is written of its list.
fn came_of_undo(rt: &impl Abort, alloc: Global, text: &str) -> Came {
    match read_undo(alloc, text) {
        Ok(list) => {
            let written = write_undo(alloc, &list);
            drop(list);
            read_as(written.expect(rt, "memory"))
        }
        Err(fault) => refused(rt, alloc, &fault),
    }
}

/// A journal shows how many steps and requests it has, how far it is, and what was answered.
fn kept(rt: &impl Abort, alloc: Global, contents: &Contents) -> String {
    let (steps, requests) = (contents.steps.len(), contents.requests.len());
    let (stage, counts) = (contents.stage, contents.counts);
    let replies = contents.replies.as_slice();
    let text = format!(in alloc; "{steps}, {requests}, {stage:?}, {counts:?}, {replies:?}");
    text.expect(rt, "memory")
}

/// A journal's text shows what it keeps.
fn came_of_journal(rt: &impl Abort, alloc: Global, text: &str) -> Came {
    match read_journal(alloc, text) {
        Ok(journal) => {
            let kept = kept(rt, alloc, &journal.contents);
            drop(journal);
            read_as(kept)
        }
        Err(fault) => refused(rt, alloc, &fault),
    }
}

/// Each request of the list, in the order of the steps, the numbers and the names.
fn listed(rt: &impl Abort, alloc: Global, list: &UndoList) -> String {
    let mut text = String::new(alloc);
    for place in 0..list.requests.len() {
        if let Some(request) = list.requests.get(place) {
            write!(text, "{request:?}, ").expect(rt, "memory");
        }
    }
    let (next, names) = (list.next, list.names);
    write!(text, "{next:?}, {names:?}").expect(rt, "memory");
    text
}

/// An undo text shows its list.
fn came_of_list(rt: &impl Abort, alloc: Global, text: &str) -> Came {
    match read_undo(alloc, text) {
        Ok(list) => {
            let listed = listed(rt, alloc, &list);
            drop(list);
            read_as(listed)
        }
        Err(fault) => refused(rt, alloc, &fault),
    }
}

/// What stands in front of a line `---`, and behind it.
fn parted(texts: &str) -> (&str, &str) {
    texts.split_once("---\n").unwrap_or((texts, ""))
}

/// What the texts of a play are read as: the board and the events as Rust writes them, and between them what the plan sends.
fn played(rt: &impl Abort, alloc: Global, inputs: Inputs) -> String {
    let Inputs { file, plan, events } = inputs;
    let mut text = format!(in alloc; "{file:?}").expect(rt, "memory");
    let sent = sent(rt, alloc, &plan);
    write!(text, ", {}, {events:?}", sent.as_str()).expect(rt, "memory");
    drop(sent);
    drop(file);
    drop(plan);
    drop(events);
    text
}

/// The texts of a play, with `---` between them, show what is read of each.
fn came_of_play(rt: &impl Abort, alloc: Global, text: &str) -> Came {
    let (board, others) = parted(text);
    let (plan, schedule) = parted(others);
    match read_inputs(alloc, board, plan, schedule) {
        Ok(inputs) => read_as(played(rt, alloc, inputs)),
        Err(fault) => refused(rt, alloc, &fault),
    }
}

/// A file that is looked at shows what is told of it, and then what came of it.
fn came_of_check(rt: &impl Abort, alloc: Global, file: &str) -> Came {
    let name = "file";
    let mut sheet = Sheet::new(alloc);
    let form = form_or(alloc, None, file).expect(rt, "memory");
    let outcome = checked(alloc, &mut sheet, Source { name, file }, form).expect(rt, "memory");
    let mut text = sheet.into_text();
    write!(text, "{outcome:?}").expect(rt, "memory");
    read_as(text)
}

/// What comes of a part of a text.
fn came_of_part(rt: &impl Abort, alloc: Global, form: PartForm, text: &str) -> Came {
    match form {
        PartForm::FirstLine => cut(rt, alloc, first_line(text)),
        PartForm::FirstWord => cut(rt, alloc, first_word(text)),
        PartForm::Behind => shown(rt, alloc, behind("ipmb ", text).ok_or("none")),
        PartForm::PlainNumber => shown(rt, alloc, plain_number(text).ok_or("none")),
        PartForm::Number => shown(rt, alloc, number(text, 9).ok_or("none")),
        PartForm::Byte => shown(rt, alloc, byte(text).ok_or("none")),
        PartForm::Bytes => {
            let bytes = bytes(alloc, text).expect(rt, "memory");
            shown(rt, alloc, bytes.ok_or("none"))
        }
    }
}

/// What comes of a text of this form.
pub fn came_of(rt: &impl Abort, alloc: Global, form: Form, text: &str) -> Came {
    match form {
        Form::Board => shown(rt, alloc, read_board(alloc, text)),
        Form::Plan => came_of_plan(rt, alloc, text),
        Form::Undo => came_of_undo(rt, alloc, text),
        Form::List => came_of_list(rt, alloc, text),
        Form::Journal => came_of_journal(rt, alloc, text),
        Form::Schedule => shown(rt, alloc, read_schedule(alloc, text)),
        Form::Readings => shown(rt, alloc, read_readings(alloc, text)),
        Form::Play => came_of_play(rt, alloc, text),
        Form::Check => came_of_check(rt, alloc, text),
        Form::Part(part) => came_of_part(rt, alloc, part, text),
    }
}

/// Whether the text has a part exactly so often as the words say: a number, and the part.
fn holds(text: &str, words: &str) -> bool {
    match words.split_once(' ') {
        Some((times, part)) => times.parse() == Ok(text.matches(part).count()),
        None => false,
    }
}

impl Came {
    /// Whether it is what the story tells.
    pub fn is(&self, told: &str) -> bool {
        let text = self.text.as_str();
        if !self.is_read {
            return text == told;
        }
        match told.strip_prefix("holds ") {
            Some(words) => holds(text, words),
            None => told == "reads" || text == told,
        }
    }
}
