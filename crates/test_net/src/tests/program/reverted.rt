//! The undo of a journal that nobody answers, or that has nothing to settle.
use super::files::FakeFiles;
use super::{End, expect_end, expect_line, new_line, new_paper};
use app_run::{UndoWords, undo};
use std::alloc::Global;
use std::net::Net;
use std::process::Abort;

/// The undo of the file `out.txt.part` of this text, with so many turns, ends so, whose line is no terminal's. So many files are written then.
fn expect_reverted(
    rt: &(impl Abort + Net),
    alloc: Global,
    text: &str,
    turns: u32,
    end: End,
    written: usize,
) {
    let words = UndoWords {
        undo: String::from_str(alloc, "out.txt.part").expect(rt, "memory"),
        ipmb_port: 9,
        smbus_port: 9,
        turns,
        wait_ms: 1,
        greet: true,
        strict: false,
    };
    let texts = [("out.txt.part", text)];
    let mut files = FakeFiles::new(alloc, &texts);
    let mut paper = new_paper(alloc);
    let mut line = new_line(alloc, false);
    let status = undo(rt, alloc, &mut files, &words, &mut line, &mut paper);
    assert_eq!(rt; files.count(), written);
    drop(files);
    drop(words);
    expect_line(rt, line, &[]);
    expect_end(rt, status, paper, end);
}

/// The same of the journal of a manager that did the one step of its plan, at this stage.
fn expect_stage(
    rt: &(impl Abort + Net),
    alloc: Global,
    stage: &str,
    turns: u32,
    out: &[u8],
    written: usize,
) {
    let text = format!(in alloc;
        "journal 1
retries 3
names 2C203020080A
unlisted
steps 1
ipmb 102605380000004B5C64
undo 1
ipmb 10260538000000505F6E
waiting 0
stage {stage}
stop
counts 2 0
no replies
"
    )
    .expect(rt, "memory");
    let end = End {
        status: 0,
        out,
        err: &[],
    };
    expect_reverted(rt, alloc, text.as_str(), turns, end, written);
    drop(text);
}

#[test]
fn a_journal_at_undone_is_told_as_undone(rt: HostRuntime) {
    let undone = b"phase Undone\n";
    expect_stage(&rt, rt.alloc(), "undone 0 0", 5, undone, 0);
}

#[test]
fn an_open_request_stays_unsettled_that_nobody_answers(rt: HostRuntime) {
    let unsettled = b"phase Unsettled 0\n";
    expect_stage(&rt, rt.alloc(), "undo 0 0", 5, unsettled, 0);
    let undoing = b"phase Undoing 0\n";
    expect_stage(&rt, rt.alloc(), "undo 0 0", 0, undoing, 0);
}

/// The journal of this text is refused, with this on standard error.
fn expect_refused(rt: &(impl Abort + Net), alloc: Global, text: &str, told: &[u8]) {
    let end = End {
        status: 3,
        out: &[],
        err: told,
    };
    expect_reverted(rt, alloc, text, 5, end, 0);
}

#[test]
fn a_journal_is_refused_before_a_link_opens(rt: HostRuntime) {
    let alloc = rt.alloc();
    expect_refused(&rt, alloc, "journal 1\n", b"journal Line 2\n");
    let rest =
        "unlisted\nsteps 0\nundo 0\nwaiting 0\nstage fresh 0 0\ngo\ncounts 0 0\nno replies\n";
    let others = format!(in alloc; "journal 1\nretries 3\nnames 2E203020080A\n{rest}");
    let others = others.expect(&rt, "memory");
    expect_refused(&rt, alloc, others.as_str(), b"undo OtherNames\n");
    let often = format!(in alloc; "journal 1\nretries 16\nnames 2C203020080A\n{rest}");
    let often = often.expect(&rt, "memory");
    expect_refused(&rt, alloc, often.as_str(), b"journal Retries\n");
}
