//! A controller and a manager over sockets of the loopback address.
use super::files::FakeFiles;
use super::texts::{BOARD, PLAN, UNREADABLE};
use super::{End, expect_end, new_paper};
use app_pair::{PairOptions, PairWords, pair};
use std::alloc::{AllocError, Global};
use std::net::Net;
use std::process::Abort;
use std::sync::Wait;
use std::thread::Threads;

/// The words `pair [OPTIONS] board.toml plan.toml TURNS`.
pub(crate) fn pair_words(alloc: Global, options: PairOptions) -> Result<PairWords, AllocError> {
    Ok(PairWords {
        board: String::from_str(alloc, "board.toml")?,
        plan: String::from_str(alloc, "plan.toml")?,
        options,
    })
}

/// A pair of so many turns that is asked for nothing else.
pub(crate) fn plain(turns: u32) -> PairOptions {
    PairOptions {
        turns,
        strict: false,
        list: false,
    }
}

/// A pair that is strict, and lists what changed.
fn strict(turns: u32) -> PairOptions {
    PairOptions {
        turns,
        strict: true,
        list: true,
    }
}

/// A pair with these options over files of these texts ends so.
pub(crate) fn expect_pair<R: Abort + Net + Threads + Wait + Sync>(
    rt: &R,
    alloc: Global,
    options: PairOptions,
    texts: &[(&str, &str)],
    end: End,
) {
    let words = pair_words(alloc, options).expect(rt, "memory");
    let files = FakeFiles::new(alloc, texts);
    let mut paper = new_paper(alloc);
    let status = pair(rt, alloc, &files, &words, &mut paper);
    drop(files);
    drop(words);
    expect_end(rt, status, paper, end);
}

/// A pair of the board and a plan writes these lines and ends with this status.
fn expect_lines<R: Abort + Net + Threads + Wait + Sync>(
    rt: &R,
    alloc: Global,
    options: PairOptions,
    plan: &str,
    lines: &[u8],
    status: u8,
) {
    let texts = [("board.toml", BOARD), ("plan.toml", plan)];
    let end = End {
        status,
        out: lines,
        err: &[],
    };
    expect_pair(rt, alloc, options, &texts, end);
}

/// A strict pair of this board and this plan is refused with this line.
fn expect_refused<R: Abort + Net + Threads + Wait + Sync>(
    rt: &R,
    alloc: Global,
    board: &str,
    plan: &str,
    line: &[u8],
) {
    let end = End {
        status: 3,
        out: &[],
        err: line,
    };
    expect_pair(
        rt,
        alloc,
        strict(20),
        &[("board.toml", board), ("plan.toml", plan)],
        end,
    );
}

#[test]
fn a_pair_runs_a_plan_and_undoes_it(rt: HostRuntime) {
    let lines = b"phase Done\nphase Undone\nrecords same\n";
    expect_lines(&rt, rt.alloc(), plain(20), PLAN, lines, 0);
}

#[test]
fn a_strict_pair_that_undid_its_plan_ends_well(rt: HostRuntime) {
    let lines = b"phase Done\nphase Undone\nrecords same\n";
    expect_lines(&rt, rt.alloc(), strict(20), PLAN, lines, 0);
}

#[test]
fn a_pair_undoes_a_plan_that_halted(rt: HostRuntime) {
    let lines = b"phase Halted 0 NotRestorable\nphase Undone\nrecords same\n";
    expect_lines(&rt, rt.alloc(), plain(20), UNREADABLE, lines, 0);
}

#[test]
fn a_strict_pair_whose_plan_halted_says_so(rt: HostRuntime) {
    let lines = b"phase Halted 0 NotRestorable\nphase Undone\nrecords same\n";
    expect_lines(&rt, rt.alloc(), strict(20), UNREADABLE, lines, 10);
}

#[test]
fn a_pair_without_turns_has_an_open_request(rt: HostRuntime) {
    let lines = b"phase Getting 0\nphase Getting 0\nrecords same\n";
    expect_lines(&rt, rt.alloc(), plain(0), PLAN, lines, 0);
    expect_lines(&rt, rt.alloc(), strict(0), PLAN, lines, 11);
}

#[test]
fn a_strict_pair_refuses_what_nothing_reads(rt: HostRuntime) {
    let alloc = rt.alloc();
    let misspelt = "[[step]]\nkind = \"thresholds\"\nsensor = 5\nucc = 64\n";
    let line = b"plan.toml:4: step 0 (thresholds): unknown key ucc, nearest is unc\n";
    expect_refused(&rt, alloc, BOARD, misspelt, line);
    let empty = b"plan.toml: plan, 0 steps, retries 3\n";
    expect_refused(&rt, alloc, BOARD, "", empty);
    let board = format!(in alloc; "{BOARD}frobnicate = 3\n").expect(&rt, "memory");
    let line = b"board.toml:45: sensor 1: unknown key frobnicate\n";
    expect_refused(&rt, alloc, board.as_str(), "", line);
    drop(board);
}
