//! The runs that a story's lines ask for.
use super::asked::{push_asked, push_named};
use super::paper::{Paper, Sheet, new_sheet, push_ending, push_sheet};
use super::scene::Scene;
use super::text::parted;
use app_base::{Ending, Refusal, Report, refuse};
use app_bmclab::{
    Chances, Links, Notes, Percent, ScheduleFiles, ScheduleOptions, run_line, schedule_of_files,
    schedule_run,
};
use app_play::{PlayFiles, PlayOptions, Shown, chart_run, play_of_files, play_run, show};
use bmc_lab::{frame_of_file, frame_run};
use std::alloc::{AllocError, Global};
use stories::NoOutcome;
use two_wire::Bus;

/// A play of the story's texts: in lines, with its frames, with the premise on packets, drawn, or as a call of `show` does it.
fn play(alloc: Global, scene: &Scene, shown: &str, paper: &mut Paper) -> Result<u8, NoOutcome> {
    let (Ok(board), Ok(plan), Ok(schedule)) = (
        scene.file("board.toml"),
        scene.file("plan.toml"),
        scene.file("schedule.txt"),
    ) else {
        return Err(NoOutcome::Unread);
    };
    let frames = shown == "frames";
    let premises = shown == "premises";
    Ok(match shown {
        "chart" => chart_run(alloc, board, plan, schedule, paper),
        "show" => show(alloc, Shown::Chart, &[], board, plan, schedule, paper),
        _ => play_run(alloc, frames, premises, board, plan, schedule, paper),
    })
}

/// A frame to the story's board, or to the sample board.
fn send(
    alloc: Global,
    scene: &Scene,
    bus: Bus,
    digits: &str,
    paper: &mut Paper,
) -> Result<u8, NoOutcome> {
    let board = scene.file("board.toml").ok();
    match hex::decode(alloc, digits) {
        Ok(bytes) => Ok(frame_run(alloc, bus, board, bytes.as_slice(), paper)),
        Err(_) => Err(NoOutcome::Unread),
    }
}

/// The schedule by which the plan is undone and where packets may join late ones, drawn from this seed.
fn draw_late(alloc: Global, scene: &Scene, seed: &str, paper: &mut Paper) -> Result<u8, NoOutcome> {
    let chances = Chances {
        lose: Percent::new(10),
        repeat: Percent::new(30),
        delay: Percent::new(50),
        others: Percent::new(5),
        seed: seed.parse::<u64>()?,
        late_joins: true,
    };
    let wanted = ScheduleOptions {
        links: Links::Drawn(chances),
        undo: true,
    };
    match (scene.file("board.toml"), scene.file("plan.toml")) {
        (Ok(board), Ok(plan)) => {
            let mut notes = new_sheet(alloc);
            Ok(schedule_run(alloc, wanted, board, plan, &mut notes, paper))
        }
        _ => Err(NoOutcome::Unread),
    }
}

/// A call over the story's files: a frame to the board of one, a play that is drawn, or the clean schedule of a plan that is undone.
fn call(alloc: Global, scene: &Scene, name: &str, paper: &mut Paper) -> Result<u8, NoOutcome> {
    let board = "board.toml";
    let plan = "plan.toml";
    let schedule = "schedule.txt";
    match name {
        "frame_of_file" => {
            // Get Device ID.
            let get = [0x20u8, 0x18, 0xC8, 0x2C, 0x00, 0x01, 0xD3];
            Ok(frame_of_file(alloc, scene, Bus::Ipmb, Some(board), &get, paper))
        }
        "play_of_files" => {
            let files = PlayFiles {
                board,
                plan,
                schedule,
            };
            let options = PlayOptions {
                strict: false,
                list: false,
            };
            let shown = Shown::Chart;
            Ok(play_of_files(alloc, scene, options, shown, &[], files, paper))
        }
        "schedule_of_files" => {
            let files = ScheduleFiles { board, plan };
            let wanted = ScheduleOptions {
                links: Links::Clean,
                undo: true,
            };
            let mut notes = new_sheet(alloc);
            Ok(schedule_of_files(alloc, scene, wanted, files, &mut notes, paper))
        }
        _ => Err(NoOutcome::Unread),
    }
}

/// A refusal by itself: of a file, of memory for a report or for words, or of words, with a text.
fn refuse_by(alloc: Global, what: &str, paper: &mut Paper) -> Result<u8, NoOutcome> {
    match parted(what) {
        ("file", word) => {
            let report = Report::of_file(alloc, word);
            let ended = Ending::of(&report).write(paper);
            drop(report);
            Ok(u8::from(ended))
        }
        ("report", _) => Ok(u8::from(Ending::of(&Err(AllocError)).write(paper))),
        ("memory", _) => Ok(refuse(&Refusal::Memory, paper)),
        ("words", text) => {
            let why = Refusal::Words(format!(in alloc; "{text}\n")?);
            let ended = refuse(&why, paper);
            drop(why);
            Ok(ended)
        }
        _ => Err(NoOutcome::Unread),
    }
}

/// The words of a command line: `''` is an empty one, and `~` stands for a space.
pub fn words_of(alloc: Global, line: &str) -> Result<Vec<String>, AllocError> {
    let mut words = Vec::new(alloc);
    for word in line.split(' ') {
        let word = if word == "''" { "" } else { word };
        words.push(word.replace(alloc, "~", " ")?)?;
    }
    Ok(words)
}

/// Notes on a terminal, or elsewhere, of which nothing is written.
fn new_notes(alloc: Global, is_terminal: bool) -> Notes<Sheet> {
    Notes {
        writer: new_sheet(alloc),
        is_terminal,
    }
}

/// A run of a command line, with the story's files, which notes here.
fn run_noted(
    alloc: Global,
    scene: &Scene,
    line: &str,
    notes: &mut Notes<Sheet>,
    paper: &mut Paper,
) -> Result<u8, NoOutcome> {
    let words = words_of(alloc, line)?;
    let ended = run_line(alloc, scene, words.as_slice(), notes, paper);
    drop(words);
    Ok(ended)
}

/// A run of a command line, with the story's files.
fn run_words(alloc: Global, scene: &Scene, line: &str, paper: &mut Paper) -> Result<u8, NoOutcome> {
    let mut notes = new_notes(alloc, false);
    let ended = run_noted(alloc, scene, line, &mut notes, paper);
    drop(notes);
    ended
}

/// Appends what a run of a command line notes, on a terminal or elsewhere.
fn push_notes(
    alloc: Global,
    scene: &Scene,
    is_terminal: bool,
    line: &str,
    came: &mut String,
) -> Result<(), NoOutcome> {
    let mut paper = scene.paper();
    let mut notes = new_notes(alloc, is_terminal);
    let ended = run_noted(alloc, scene, line, &mut notes, &mut paper);
    drop(paper);
    let pushed = match ended {
        Ok(_) => push_sheet(came, &notes.writer),
        Err(why) => Err(why),
    };
    drop(notes);
    pushed
}

/// The run that the line asks for, and its status.
fn run(alloc: Global, scene: &Scene, line: &str, paper: &mut Paper) -> Result<u8, NoOutcome> {
    let (word, rest) = parted(line);
    match word {
        "lines" | "frames" | "premises" | "chart" | "show" => play(alloc, scene, word, paper),
        "ipmb" => send(alloc, scene, Bus::Ipmb, rest, paper),
        "smbus" => send(alloc, scene, Bus::Smbus, rest, paper),
        "bmclab" => run_words(alloc, scene, line, paper),
        "late" => draw_late(alloc, scene, rest, paper),
        "call" => call(alloc, scene, rest, paper),
        "refuse" => refuse_by(alloc, rest, paper),
        _ => Err(NoOutcome::Unread),
    }
}

/// Appends how the run that the line asks for ends, and what it writes.
fn push_run(alloc: Global, scene: &Scene, line: &str, came: &mut String) -> Result<(), NoOutcome> {
    let mut paper = scene.paper();
    let pushed = match run(alloc, scene, line, &mut paper) {
        Ok(status) => push_ending(came, status, &paper),
        Err(why) => Err(why),
    };
    drop(paper);
    pushed
}

/// Appends what comes of the line: what its words ask for, or how a run ends, and what it writes.
pub fn push_came(
    alloc: Global,
    scene: &Scene,
    line: &str,
    came: &mut String,
) -> Result<(), NoOutcome> {
    match parted(line) {
        ("asks", words) => Ok(push_asked(alloc, came, words)?),
        ("names", words) => Ok(push_named(alloc, came, words)?),
        ("notes", words) => push_notes(alloc, scene, false, words, came),
        ("terminal", words) => push_notes(alloc, scene, true, words, came),
        _ => push_run(alloc, scene, line, came),
    }
}
