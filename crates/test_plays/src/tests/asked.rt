//! What the words of a command line ask for, as a line.
use super::runs::words_of;
use super::text::parted;
use app_base::{Refusal, Status};
use app_bmclab::words::read;
use app_bmclab::{CheckWay, Links, ScheduleWords, Words};
use app_play::{PlayOptions, Shown};
use bmc_lab::{AskedFrame, asked_frame};
use record_base::Asked;
use std::alloc::{AllocError, Global};

/// Appends a frame's bus and its bytes.
fn push_frame(alloc: Global, text: &mut String, frame: &AskedFrame) -> Result<(), AllocError> {
    let digits = hex::encode_upper(alloc, frame.bytes.as_slice())?;
    let pushed = write!(text, "{} {}", frame.bus.name(), digits.as_str());
    drop(digits);
    pushed
}

/// How a play is shown.
fn shown_name(shown: Shown) -> &'static str {
    match shown {
        Shown::Chart => "chart",
        Shown::Lines { frames, premises } => match (frames, premises) {
            (false, false) => "lines",
            (true, false) => "frames",
            (false, true) => "premises",
            (true, true) => "frames and premises",
        },
    }
}

/// What a play is asked for beside that.
fn options_name(options: PlayOptions) -> &'static str {
    match (options.strict, options.list) {
        (false, false) => "",
        (true, false) => " strict",
        (false, true) => " listed",
        (true, true) => " strict and listed",
    }
}

/// Appends the places behind whose events the manager's process ends, where there are some.
fn push_restarts(text: &mut String, places: &[usize]) -> Result<(), AllocError> {
    if places.is_empty() {
        return Ok(());
    }
    text.push_str(" restart")?;
    for place in places {
        write!(text, " {place}")?;
    }
    Ok(())
}

/// Appends what the buses do.
fn push_links(text: &mut String, links: &Links) -> Result<(), AllocError> {
    match links {
        Links::Clean => text.push_str("clean"),
        Links::Drawn(chances) => {
            let (lose, repeat) = (chances.lose.number(), chances.repeat.number());
            let (delay, others) = (chances.delay.number(), chances.others.number());
            write!(
                text,
                "lose {lose} repeat {repeat} delay {delay} others {others}"
            )?;
            let late = if chances.late_joins { " late" } else { "" };
            write!(text, " seed {}{late}", chances.seed)
        }
    }
}

/// Appends a schedule: what the buses do, whether the plan is undone, and its files' words.
fn push_schedule(text: &mut String, words: &ScheduleWords) -> Result<(), AllocError> {
    push_links(text, &words.wanted.links)?;
    let undo = if words.wanted.undo { " undo" } else { "" };
    write!(
        text,
        "{undo} {} {}",
        words.board.as_str(),
        words.plan.as_str()
    )
}

/// Appends the board file's word, where there is one.
fn push_board(text: &mut String, board: Option<&str>) -> Result<(), AllocError> {
    match board {
        Some(board) => write!(text, " {board}"),
        None => Ok(()),
    }
}

/// Appends a request's bus and its bytes: the network function or the type, the command, and the data.
fn push_request(alloc: Global, text: &mut String, request: &Asked) -> Result<(), AllocError> {
    let (bus, first, command, body) = match request {
        Asked::Ipmi {
            net_fn,
            command,
            body,
            ..
        } => ("ipmb", net_fn.number(), *command, body.as_slice()),
        Asked::Pldm {
            kind,
            command,
            body,
            ..
        } => ("smbus", kind.number(), *command, body.as_slice()),
    };
    let head = hex::encode_upper(alloc, &[first, command])?;
    let digits = hex::encode_upper(alloc, body)?;
    write!(text, "ask {bus} {}{}", head.as_str(), digits.as_str())
}

/// Appends the words of files to check, and of the board against which.
fn push_files(text: &mut String, way: &CheckWay, files: &[String]) -> Result<(), AllocError> {
    text.push_str("check")?;
    if let CheckWay::Against(board) = way {
        write!(text, " against {}", board.as_str())?;
    }
    for file in files {
        write!(text, " {}", file.as_str())?;
    }
    Ok(())
}

/// Appends what is asked for, or how the words are refused.
fn push_words(
    alloc: Global,
    text: &mut String,
    asked: &Result<Words, Refusal>,
) -> Result<(), AllocError> {
    match asked {
        Ok(Words::Frame(words)) => {
            push_frame(alloc, text, &words.frame)?;
            if words.explain {
                text.push_str(" explained")?;
            }
            push_board(text, words.board.as_deref())
        }
        Ok(Words::Ask(words)) => {
            push_request(alloc, text, &words.request)?;
            push_board(text, words.board.as_deref())
        }
        Ok(Words::Play(words)) => {
            let (board, plan) = (words.board.as_str(), words.plan.as_str());
            let shown = shown_name(words.shown);
            let explain = if words.explain { " explained" } else { "" };
            let options = options_name(words.options);
            let schedule = words.schedule.as_str();
            write!(text, "{shown}{explain}{options} {board} {plan} {schedule}")?;
            push_restarts(text, words.restarts.as_slice())
        }
        Ok(Words::Schedule(words)) => push_schedule(text, words),
        Ok(Words::Check(words)) => push_files(text, &words.way, words.files.as_slice()),
        Ok(Words::Version) => text.push_str("version"),
        Err(Refusal::Words(_)) => text.push_str("refused"),
        Err(Refusal::Memory) => text.push_str("memory"),
    }
}

/// Appends what the words of the line ask for, or how they are refused, as a line.
pub fn push_asked(alloc: Global, text: &mut String, line: &str) -> Result<(), AllocError> {
    let words = words_of(alloc, line)?;
    let asked = read(alloc, words.as_slice());
    drop(words);
    let pushed = push_words(alloc, text, &asked);
    drop(asked);
    pushed?;
    text.push_str("\n")
}

/// Appends the frame that the words BUS and HEX name, or how they are refused, as a line.
pub fn push_named(alloc: Global, text: &mut String, words: &str) -> Result<(), AllocError> {
    let (bus, digits) = parted(words);
    match asked_frame(alloc, Some(bus), digits) {
        Ok(frame) => {
            let pushed = push_frame(alloc, text, &frame);
            drop(frame);
            pushed?;
        }
        Err(Status::RefusedWords) => text.push_str("refused")?,
        Err(_) => text.push_str("memory")?,
    }
    text.push_str("\n")
}
