//! Files that are refused, and links that can't be had.
use super::files::FakeFiles;
use super::pairs::{expect_pair, plain};
use super::texts::{BOARD, OTHERS, PLAN, UNDO};
use super::{End, expect_end, expect_line, new_line, new_paper};
use app_run::{RunWords, UndoWords, run, undo};
use app_serve::{ServeWords, serve};
use std::alloc::{AllocError, Global};
use std::net::{Net, UdpSocket};
use std::process::Abort;
use std::sync::Wait;
use std::thread::Threads;
use std::time::Clock;

/// A word.
fn word(alloc: Global, text: &str) -> Result<String, AllocError> {
    String::from_str(alloc, text)
}

/// The words `serve BOARD PORT 0 1`.
fn serve_words(alloc: Global, board: &str, port: u16) -> Result<ServeWords, AllocError> {
    Ok(ServeWords {
        board: word(alloc, board)?,
        ipmb_port: port,
        smbus_port: 0,
        turns: 1,
        wait_ms: 200,
        periods: false,
        quiet: None,
        forget: None,
        readings: None,
        repeats: false,
        clock: false,
        strict: false,
        list: false,
    })
}

/// The words `run PLAN 9 9 0 out.txt`.
fn run_words(alloc: Global, plan: &str) -> Result<RunWords, AllocError> {
    Ok(RunWords {
        plan: word(alloc, plan)?,
        ipmb_port: 9,
        smbus_port: 9,
        turns: 0,
        undo: word(alloc, "out.txt")?,
        wait_ms: 200,
        again: 0,
        forget: None,
        greet: false,
        replace: false,
        strict: false,
    })
}

/// The words `undo UNDO 9 9 0`, with `--greet` or without it.
fn undo_words(alloc: Global, undo: &str, greet: bool) -> Result<UndoWords, AllocError> {
    Ok(UndoWords {
        undo: word(alloc, undo)?,
        ipmb_port: 9,
        smbus_port: 9,
        turns: 0,
        wait_ms: 200,
        greet,
        strict: false,
    })
}

/// A call that is refused: it ends with status 3, and this is on standard error.
fn refused(told: &[u8]) -> End<'_> {
    End {
        status: 3,
        out: &[],
        err: told,
    }
}

/// `bmcnet serve` of the file `board.toml`, at this port of IPMB, ends so.
fn expect_served<R: Abort + Net + Threads + Wait + Clock + Sync>(
    rt: &R,
    alloc: Global,
    port: u16,
    texts: &[(&str, &str)],
    end: End,
) {
    let words = serve_words(alloc, "board.toml", port).expect(rt, "memory");
    let files = FakeFiles::new(alloc, texts);
    let mut paper = new_paper(alloc);
    let status = serve(rt, alloc, &files, &words, &mut paper);
    drop(files);
    drop(words);
    expect_end(rt, status, paper, end);
}

#[test]
fn a_board_that_is_not_there_is_refused(rt: HostRuntime) {
    expect_served(&rt, rt.alloc(), 0, &[], refused(b"file board.toml\n"));
}

#[test]
fn a_text_that_is_no_board_is_refused(rt: HostRuntime) {
    let texts = [("board.toml", PLAN)];
    expect_served(
        &rt,
        rt.alloc(),
        0,
        &texts,
        refused(b"board Missing top tid\n"),
    );
}

#[test]
fn a_port_that_is_taken_can_not_be_served(rt: HostRuntime) {
    let socket = UdpSocket::bind(&rt, "127.0.0.1:0")
        .ok()
        .expect(&rt, "a socket");
    let port = socket.local_addr().ok().expect(&rt, "an address").port();
    let alloc = rt.alloc();
    let told = format!(in alloc;
        "port {port} of IPMB can't be opened on 127.0.0.1: is it in use?\n"
    );
    let told = told.expect(&rt, "memory");
    let end = End {
        status: 4,
        out: &[],
        err: told.as_bytes(),
    };
    expect_served(&rt, alloc, port, &[("board.toml", BOARD)], end);
    drop(told);
}

/// A run of the file `plan.toml` of this text ends with status 3 and this on standard error, and writes no list.
fn expect_refused_plan(
    rt: &(impl Abort + Net),
    alloc: Global,
    texts: &[(&str, &str)],
    told: &[u8],
) {
    let words = run_words(alloc, "plan.toml").expect(rt, "memory");
    let mut files = FakeFiles::new(alloc, texts);
    let mut paper = new_paper(alloc);
    let mut line = new_line(alloc, true);
    let status = run(rt, alloc, &mut files, &words, &mut line, &mut paper);
    drop(words);
    assert_eq!(rt; files.count(), 0);
    drop(files);
    expect_line(rt, line, &[]);
    expect_end(rt, status, paper, refused(told));
}

#[test]
fn a_plan_is_refused_before_it_is_run(rt: HostRuntime) {
    expect_refused_plan(&rt, rt.alloc(), &[], b"file plan.toml\n");
    let password = "[[step]]\nkind = \"password\"\n";
    let texts = [("plan.toml", password)];
    expect_refused_plan(&rt, rt.alloc(), &texts, b"plan 0 OutsidePlan Password\n");
}

/// An undo of the file `list.txt`, over files of these texts, which greets or doesn't, ends so, and its line tells nothing. So many files
/// are written then.
fn expect_undo(
    rt: &(impl Abort + Net),
    alloc: Global,
    is_terminal: bool,
    greet: bool,
    texts: &[(&str, &str)],
    end: End,
    written: usize,
) {
    let words = undo_words(alloc, "list.txt", greet).expect(rt, "memory");
    let mut files = FakeFiles::new(alloc, texts);
    let mut paper = new_paper(alloc);
    let mut line = new_line(alloc, is_terminal);
    let status = undo(rt, alloc, &mut files, &words, &mut line, &mut paper);
    assert_eq!(rt; files.count(), written);
    drop(files);
    drop(words);
    expect_line(rt, line, &[]);
    expect_end(rt, status, paper, end);
}

#[test]
fn the_first_bad_line_of_an_undo_text_is_told(rt: HostRuntime) {
    expect_undo(
        &rt,
        rt.alloc(),
        true,
        false,
        &[],
        refused(b"file list.txt\n"),
        0,
    );
    let texts = [("list.txt", "undo 1\nnext ipmb 4 smbus 0\nusb 10\n")];
    expect_undo(
        &rt,
        rt.alloc(),
        true,
        false,
        &texts,
        refused(b"undo Line 3\n"),
        0,
    );
}

#[test]
fn an_undo_text_with_other_names_is_refused(rt: HostRuntime) {
    let texts = [("list.txt", OTHERS)];
    expect_undo(
        &rt,
        rt.alloc(),
        true,
        false,
        &texts,
        refused(b"undo OtherNames\n"),
        0,
    );
}

#[test]
fn all_files_are_read_before_a_text_is_refused(rt: HostRuntime) {
    let bad = [("board.toml", "tid = 5\n")];
    expect_pair(
        &rt,
        rt.alloc(),
        plain(1),
        &bad,
        refused(b"file plan.toml\n"),
    );
    let both = [("board.toml", "tid = 5\n"), ("plan.toml", "[[step]]\n")];
    let clock = refused(b"board Missing top clock\n");
    expect_pair(&rt, rt.alloc(), plain(1), &both, clock);
    let second = [("board.toml", BOARD), ("plan.toml", "retries = 16\n")];
    let retries = refused(b"plan Range retries\n");
    expect_pair(&rt, rt.alloc(), plain(1), &second, retries);
}

/// The texts that a run leaves in the file of the undo text and in that of the journal.
#[derive(Clone, Copy)]
struct Left<'a> {
    undo: Option<&'a str>,
    part: Option<&'a str>,
}

/// What a run finds: its plan's word, the files' texts, how many changes are made of them, whether its line is a terminal's, and whether it greets.
#[derive(Clone, Copy)]
struct Found<'a> {
    plan: &'a str,
    texts: &'a [(&'a str, &'a str)],
    changes: usize,
    is_terminal: bool,
    greet: bool,
}

/// These are the texts that the files have.
fn expect_left(rt: &impl Abort, files: FakeFiles, left: Left) {
    assert_eq!(rt; files.text_at("out.txt"), left.undo);
    assert_eq!(rt; files.text_at("out.txt.part"), left.part);
    drop(files);
}

/// A run that finds this ends so, tells nothing on its line, and leaves these texts.
fn expect_run(rt: &(impl Abort + Net), alloc: Global, found: Found, end: End, left: Left) {
    let mut words = run_words(alloc, found.plan).expect(rt, "memory");
    words.greet = found.greet;
    let mut files = FakeFiles::new(alloc, found.texts);
    files.changes_left = found.changes;
    let mut paper = new_paper(alloc);
    let mut line = new_line(alloc, found.is_terminal);
    let status = run(rt, alloc, &mut files, &words, &mut line, &mut paper);
    drop(words);
    expect_left(rt, files, left);
    expect_line(rt, line, &[]);
    expect_end(rt, status, paper, end);
}

/// The undo text of a manager that did nothing.
const NOTHING_DONE: &str = "undo 2\nnext ipmb 0 smbus 0\nnames ipmb 2C 20 smbus 30 20 eid 08 0A\n";

/// The journal of a manager that has no step, and did nothing.
const FRESH_WITHOUT_STEPS: &str = concat!(
    "journal 1\nretries 3\nnames 2C203020080A\nlisted 2C203020080A\nsteps 0\n",
    "undo 0\nwaiting 0\nstage fresh 0 0\ngo\ncounts 0 0\nno replies\n"
);

/// The journal of the plan's manager that did nothing: its step is Set Sensor Event Enable of sensor 5, for its upper non-critical
/// threshold and its upper critical one, each going high.
const FRESH: &str = concat!(
    "journal 1\nretries 3\nnames 2C203020080A\nlisted 2C203020080A\nsteps 1\nipmb 102805D080020000\n",
    "undo 0\nwaiting 0\nstage fresh 0 0\ngo\ncounts 0 0\nno replies\n"
);

/// The journal of the plan's manager whose first Get is open.
const FIRST_GET: &str = concat!(
    "journal 1\nretries 3\nnames 2C203020080A\nlisted 2C203020080A\nsteps 1\nipmb 102805D080020000\n",
    "undo 0\nwaiting 0\nstage get 0 0\nstop\ncounts 0 0\nno replies\n"
);

#[test]
fn nobody_answers_a_manager_without_turns(rt: HostRuntime) {
    let found = Found {
        plan: "plan.toml",
        texts: &[("plan.toml", PLAN)],
        changes: usize::MAX,
        is_terminal: false,
        greet: false,
    };
    let getting = End {
        status: 0,
        out: b"phase Getting 0\n",
        err: &[],
    };
    let left = Left {
        undo: None,
        part: Some(FIRST_GET),
    };
    expect_run(&rt, rt.alloc(), found, getting, left);
    let undoing = End {
        status: 0,
        out: b"phase Undoing 0\n",
        err: &[],
    };
    expect_undo(
        &rt,
        rt.alloc(),
        false,
        false,
        &[("list.txt", UNDO)],
        undoing,
        1,
    );
}

/// Nobody answers a greeting: the manager does nothing, and behind its phase the bus is named.
#[test]
fn nobody_answers_a_greeting(rt: HostRuntime) {
    let found = Found {
        plan: "plan.toml",
        texts: &[("plan.toml", PLAN)],
        changes: usize::MAX,
        is_terminal: true,
        greet: true,
    };
    let fresh = End {
        status: 0,
        out: b"phase Fresh\n",
        err: b"no answer on ipmb\n",
    };
    let left = Left {
        undo: None,
        part: Some(FRESH),
    };
    expect_run(&rt, rt.alloc(), found, fresh, left);
    let halted = End {
        status: 0,
        out: b"phase Halted 1 Stop\n",
        err: b"no answer on ipmb\n",
    };
    expect_undo(
        &rt,
        rt.alloc(),
        true,
        true,
        &[("list.txt", UNDO)],
        halted,
        1,
    );
}

/// A run of a plan without steps, of whose files so many changes are made, ends so, and leaves these texts.
fn expect_empty_run(rt: &(impl Abort + Net), alloc: Global, changes: usize, end: End, left: Left) {
    let found = Found {
        plan: "empty.toml",
        texts: &[("empty.toml", "")],
        changes,
        is_terminal: true,
        greet: false,
    };
    expect_run(rt, alloc, found, end, left);
}

#[test]
fn a_file_that_can_not_be_made_is_told_before_a_link_is_had(rt: HostRuntime) {
    let left = Left {
        undo: None,
        part: None,
    };
    for changes in 0..2 {
        expect_empty_run(&rt, rt.alloc(), changes, refused(b"file out.txt\n"), left);
    }
}

#[test]
fn an_undo_text_that_can_not_be_written_is_told_behind_the_phase(rt: HostRuntime) {
    let unkept = End {
        status: 3,
        out: b"phase Done\n",
        err: b"file out.txt\n",
    };
    let part = Left {
        undo: None,
        part: Some(FRESH_WITHOUT_STEPS),
    };
    for changes in 2..4 {
        expect_empty_run(&rt, rt.alloc(), changes, unkept, part);
    }
    let both = Left {
        undo: Some(NOTHING_DONE),
        part: Some(FRESH_WITHOUT_STEPS),
    };
    expect_empty_run(&rt, rt.alloc(), 4, unkept, both);
    let kept = End {
        status: 0,
        out: b"phase Done\n",
        err: &[],
    };
    let undo = Left {
        undo: Some(NOTHING_DONE),
        part: None,
    };
    expect_empty_run(&rt, rt.alloc(), 5, kept, undo);
}

/// The journal can't be kept before the first request goes out: so nothing is sent, and the manager is the one that did nothing.
#[test]
fn a_request_whose_journal_can_not_be_kept_is_not_sent(rt: HostRuntime) {
    let unkept = End {
        status: 3,
        out: b"phase Fresh\n",
        err: b"file out.txt\n",
    };
    let left = Left {
        undo: None,
        part: Some(FRESH),
    };
    for changes in 2..4 {
        let found = Found {
            plan: "plan.toml",
            texts: &[("plan.toml", PLAN)],
            changes,
            is_terminal: false,
            greet: false,
        };
        expect_run(&rt, rt.alloc(), found, unkept, left);
    }
}
