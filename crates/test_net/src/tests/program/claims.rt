//! Runs and undos of files that another process holds, that have something to take back, or that are FIFOs.
use super::files::FakeFiles;
use super::{End, expect_end, expect_line, new_line, new_paper};
use app_run::{RunWords, UndoWords, run, undo};
use std::alloc::Global;
use std::net::Net;
use std::process::Abort;

/// The words `run --wait 1 empty.toml 9 9 5 out.txt`, with `--replace` or without it.
fn run_words(rt: &impl Abort, alloc: Global, replace: bool) -> RunWords {
    RunWords {
        plan: String::from_str(alloc, "empty.toml").expect(rt, "memory"),
        ipmb_port: 9,
        smbus_port: 9,
        turns: 5,
        undo: String::from_str(alloc, "out.txt").expect(rt, "memory"),
        wait_ms: 1,
        again: 0,
        forget: None,
        greet: false,
        replace,
        strict: false,
    }
}

/// A run over these files ends so.
fn expect_run(
    rt: &(impl Abort + Net),
    alloc: Global,
    files: &mut FakeFiles,
    replace: bool,
    end: End,
) {
    let words = run_words(rt, alloc, replace);
    let mut paper = new_paper(alloc);
    let mut line = new_line(alloc, true);
    let status = run(rt, alloc, files, &words, &mut line, &mut paper);
    drop(words);
    expect_line(rt, line, &[]);
    expect_end(rt, status, paper, end);
}

/// An undo of the file of this word ends so.
fn expect_undo(
    rt: &(impl Abort + Net),
    alloc: Global,
    files: &mut FakeFiles,
    word: &str,
    end: End,
) {
    let words = UndoWords {
        undo: String::from_str(alloc, word).expect(rt, "memory"),
        ipmb_port: 9,
        smbus_port: 9,
        turns: 5,
        wait_ms: 1,
        greet: false,
        strict: false,
    };
    let mut paper = new_paper(alloc);
    let mut line = new_line(alloc, true);
    let status = undo(rt, alloc, files, &words, &mut line, &mut paper);
    drop(words);
    expect_line(rt, line, &[]);
    expect_end(rt, status, paper, end);
}

/// A call that is refused by this line on standard error.
fn refused(told: &[u8]) -> End<'_> {
    End {
        status: 3,
        out: &[],
        err: told,
    }
}

/// The undo text of a manager that did nothing.
const NOTHING_DONE: &str = "undo 2\nnext ipmb 0 smbus 0\nnames ipmb 2C 20 smbus 30 20 eid 08 0A\n";

/// The undo text of the list that `DONE` has.
const LIST: &str = "undo 1\nnext ipmb 2 smbus 0\nipmb 10260538000000505F6E\n";

/// The journal of a manager that did a step.
const DONE: &str = concat!(
    "journal 1\nretries 3\nnames 2C203020080A\nunlisted\nsteps 1\nipmb 102605380000004B5C64\n",
    "undo 1\nipmb 10260538000000505F6E\nwaiting 0\nstage done 0 0\ngo\ncounts 2 0\nno replies\n"
);

#[test]
fn files_that_another_process_holds_are_left_alone(rt: HostRuntime) {
    let alloc = rt.alloc();
    let texts = [
        ("empty.toml", ""),
        ("out.txt", LIST),
        ("out.txt.part", DONE),
    ];
    let mut files = FakeFiles::new(alloc, &texts);
    files.is_held = true;
    let run = refused(b"file out.txt\n");
    expect_run(&rt, alloc, &mut files, false, run);
    expect_run(&rt, alloc, &mut files, true, run);
    expect_undo(&rt, alloc, &mut files, "out.txt", run);
    let part = refused(b"file out.txt.part\n");
    expect_undo(&rt, alloc, &mut files, "out.txt.part", part);
    assert_eq!(&rt; files.count(), 0);
    drop(files);
}

#[test]
fn a_journal_has_the_lock_of_the_undo_text_beside_it(rt: HostRuntime) {
    let alloc = rt.alloc();
    let texts = [("empty.toml", ""), ("out.txt.part", "journal 1\n")];
    let mut files = FakeFiles::new(alloc, &texts);
    let line = refused(b"journal Line 2\n");
    expect_undo(&rt, alloc, &mut files, "out.txt.part", line);
    expect_run(&rt, alloc, &mut files, false, refused(b"file out.txt\n"));
    expect_undo(
        &rt,
        alloc,
        &mut files,
        "out.txt",
        refused(b"file out.txt\n"),
    );
    for held in &files.held {
        assert_eq!(&rt; held.as_str(), "out.txt.lock");
    }
    assert_eq!(&rt; files.held.len(), 3);
    drop(files);
}

#[test]
fn a_journal_that_has_something_is_put_aside_where_it_is_replaced(rt: HostRuntime) {
    let alloc = rt.alloc();
    let texts = [("empty.toml", ""), ("out.txt.part.1", "what was there")];
    let mut files = FakeFiles::new(alloc, &texts);
    files.put("out.txt.part", DONE).ok().expect(&rt, "memory");
    expect_run(&rt, alloc, &mut files, false, refused(b"file out.txt\n"));
    assert_eq!(&rt; files.text_at("out.txt.part"), Some(DONE));
    let replaced = End {
        status: 0,
        out: b"phase Done\n",
        err: b"aside out.txt.part.2\n",
    };
    expect_run(&rt, alloc, &mut files, true, replaced);
    assert_eq!(&rt; files.text_at("out.txt.part.2"), Some(DONE));
    assert_eq!(&rt; files.text_at("out.txt.part"), None);
    assert_eq!(&rt; files.text_at("out.txt"), Some(NOTHING_DONE));
    drop(files);
}

#[test]
fn a_journal_whose_list_the_undo_text_has_is_over(rt: HostRuntime) {
    let alloc = rt.alloc();
    let texts = [("empty.toml", "")];
    let mut files = FakeFiles::new(alloc, &texts);
    files.put("out.txt.part", DONE).ok().expect(&rt, "memory");
    files.put("out.txt", LIST).ok().expect(&rt, "memory");
    let done = End {
        status: 0,
        out: b"phase Done\n",
        err: &[],
    };
    expect_run(&rt, alloc, &mut files, false, done);
    assert_eq!(&rt; files.text_at("out.txt"), Some(NOTHING_DONE));
    drop(files);
}

#[test]
fn a_fifo_gets_the_list_and_has_no_files_beside_it(rt: HostRuntime) {
    let alloc = rt.alloc();
    let texts = [("empty.toml", "")];
    let mut files = FakeFiles::new(alloc, &texts);
    files.has_stream = true;
    let done = End {
        status: 0,
        out: b"phase Done\n",
        err: &[],
    };
    expect_run(&rt, alloc, &mut files, false, done);
    assert_eq!(&rt; files.text_at("out.txt"), Some(NOTHING_DONE));
    let undone = End {
        status: 0,
        out: b"phase Undone\n",
        err: &[],
    };
    expect_undo(&rt, alloc, &mut files, "out.txt", undone);
    assert_eq!(&rt; (files.count(), files.held.len()), (1, 0));
    drop(files);
}
