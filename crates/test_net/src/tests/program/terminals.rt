//! What a run and an undo tell on a terminal of how far they are.
use super::files::FakeFiles;
use super::texts::{TWO_STEPS, UNDO};
use super::{End, expect_end, expect_line, new_line, new_paper};
use app_run::{RunWords, UndoWords, run, undo};
use std::alloc::{AllocError, Global};
use std::net::Net;
use std::process::Abort;

/// The words `run --wait 1 PLAN 9 9 TURNS out.txt`.
fn run_words(alloc: Global, plan: &str, turns: u32) -> Result<RunWords, AllocError> {
    Ok(RunWords {
        plan: String::from_str(alloc, plan)?,
        ipmb_port: 9,
        smbus_port: 9,
        turns,
        undo: String::from_str(alloc, "out.txt")?,
        wait_ms: 1,
        again: 0,
        forget: None,
        greet: false,
        replace: false,
        strict: false,
    })
}

/// The words `undo --wait 1 UNDO 9 9 TURNS`.
fn undo_words(alloc: Global, undo: &str, turns: u32) -> Result<UndoWords, AllocError> {
    Ok(UndoWords {
        undo: String::from_str(alloc, undo)?,
        ipmb_port: 9,
        smbus_port: 9,
        turns,
        wait_ms: 1,
        greet: false,
        strict: false,
    })
}

/// A run of a plan of two steps tells this on its line, and ends so.
fn expect_run(rt: &(impl Abort + Net), alloc: Global, told: &str, end: End) {
    let words = run_words(alloc, "plan.toml", 9).expect(rt, "memory");
    let mut files = FakeFiles::new(alloc, &[("plan.toml", TWO_STEPS)]);
    let mut paper = new_paper(alloc);
    let mut line = new_line(alloc, true);
    let status = run(rt, alloc, &mut files, &words, &mut line, &mut paper);
    drop(files);
    drop(words);
    expect_line(rt, line, told.as_bytes());
    expect_end(rt, status, paper, end);
}

/// An undo of a list of one request tells this on its line, and ends so.
fn expect_undo(rt: &(impl Abort + Net), alloc: Global, told: &str, end: End) {
    let words = undo_words(alloc, "list.txt", 0).expect(rt, "memory");
    let mut files = FakeFiles::new(alloc, &[("list.txt", UNDO)]);
    let mut paper = new_paper(alloc);
    let mut line = new_line(alloc, true);
    let status = undo(rt, alloc, &mut files, &words, &mut line, &mut paper);
    drop(files);
    drop(words);
    expect_line(rt, line, told.as_bytes());
    expect_end(rt, status, paper, end);
}

#[test]
fn a_run_that_nobody_answers_tells_its_retries(rt: HostRuntime) {
    let told =
        "\rstep 1 of 2: get power-policy\u{1b}[K\rstep 1 of 2: get power-policy, retry 1\u{1b}[K\
\rstep 1 of 2: no reply, retry 1\u{1b}[K\n";
    let end = End {
        status: 0,
        out: b"phase Unsettled 0\n",
        err: &[],
    };
    expect_run(&rt, rt.alloc(), told, end);
}

#[test]
fn an_undo_that_has_no_turns_tells_its_first_step(rt: HostRuntime) {
    let end = End {
        status: 0,
        out: b"phase Undoing 0\n",
        err: &[],
    };
    expect_undo(&rt, rt.alloc(), "\rundoing step 1 of 1\u{1b}[K\n", end);
}
