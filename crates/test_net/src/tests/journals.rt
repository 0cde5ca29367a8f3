//! A manager whose journal is kept in files that fail.
use super::driven::{TURNS, manager_on, sample_records};
use super::shared::expect_equal;
use super::wired::Wired;
use app_journal::{
    HoldFault, JournalKeeper, JournalTexts, Place, PlaceFault, ReviveFault, Standing, UndoFiles,
    WriteFault, WritesFiles, revive_text, standing_in,
};
use bmc_ports::{DriveEnd, KeptBack, Observer, drive_observed};
use cfg_records::{Key, StartValue, changed_count};
use std::alloc::Global;
use std::process::Abort;
use two_wire::Bus;
use undo_core::{Manager, Phase, Sent, Why};
use wire_links::MemLink;

/// The most changes of files that are tried to fail.
const MOST_CHANGES: usize = 100;

/// The file of a journal, which takes so many texts more.
#[derive(Drop)]
struct PartFile {
    alloc: Global,
    changes_left: usize,
    /// What was written, and has no name yet.
    next: String,
    /// What the file has.
    part: String,
}

impl PartFile {
    fn new(alloc: Global, changes_left: usize) -> PartFile {
        PartFile {
            alloc,
            changes_left,
            next: String::new(alloc),
            part: String::new(alloc),
        }
    }

    /// One change less is left. Where none is, it fails.
    fn change(&mut self) -> Result<(), WriteFault> {
        if self.changes_left == 0 {
            return Err(WriteFault);
        }
        self.changes_left -= 1;
        Ok(())
    }

    /// This text, in memory of its own.
    fn copy(&self, text: &str) -> Result<String, WriteFault> {
        String::from_str(self.alloc, text).map_err(|_| WriteFault)
    }
}

impl WritesFiles for PartFile {
    // It states nothing of what it takes.
    ghost takes = { λ old word text answer new. Unit {0} };

    ghost pours = { λ old word text answer new. Unit {0} };

    ghost leads = { λ files word answer. Unit {0} };

    ghost renames = { λ old from to answer new. Unit {0} };

    ghost removes = { λ old word answer new. Unit {0} };

    ghost holds = { λ old word answer new. Unit {0} };

    fn write(&mut self, _word: &str, text: &str) -> Result<(), WriteFault> {
        self.change()?;
        self.next = self.copy(text)?;
        Ok(())
    }

    fn pour(&mut self, _word: &str, _text: &str) -> Result<(), WriteFault> {
        self.change()
    }

    fn rename(&mut self, _from: &str, _to: &str) -> Result<(), WriteFault> {
        self.change()?;
        self.part = self.copy(self.next.as_str())?;
        Ok(())
    }

    fn remove(&mut self, _word: &str) -> Result<(), WriteFault> {
        self.change()
    }

    fn hold(&mut self, _word: &str) -> Result<(), HoldFault> {
        Ok(())
    }

    fn place(&self, _word: &str) -> Result<Place, PlaceFault> {
        Ok(Place::Stream)
    }
}

/// A manager over a board, and the records that the board had.
#[derive(Drop)]
struct Bench<'a> {
    bus: Bus,
    link: &'a mut Wired,
    other: &'a mut MemLink,
    records: &'a [(Key, StartValue)],
}

/// Drives the manager over the links, while its journal is kept.
fn drive_kept(
    bench: &mut Bench,
    manager: &mut Manager,
    sent: Option<Sent>,
    keeper: &mut JournalKeeper<PartFile>,
) -> DriveEnd {
    match bench.bus {
        Bus::Ipmb => drive_observed(manager, sent, bench.link, bench.other, TURNS, keeper),
        Bus::Smbus => drive_observed(manager, sent, bench.other, bench.link, TURNS, keeper),
    }
}

/// How many of the board's records are changed.
fn changed_on(bench: &Bench) -> usize {
    changed_count(bench.link.board.store(), bench.records)
}

/// The file has the text that the keeper knows.
fn expect_same_text(rt: &impl Abort, keeper: &JournalKeeper<PartFile>) {
    assert_eq!(rt; keeper.files.part.as_str(), keeper.texts.last.as_str());
}

/// The manager is made again of the journal that was put last, settles its request and takes back what it did: no record is changed then.
fn expect_taken_back(
    rt: &impl Abort,
    alloc: Global,
    bench: &mut Bench,
    keeper: &mut JournalKeeper<PartFile>,
) {
    expect_same_text(rt, keeper);
    let mut manager = revive_text(alloc, keeper.texts.last.as_str())
        .ok()
        .expect(rt, "a journal");
    keeper.files.changes_left = usize::MAX;
    let Ok(sent) = manager.again() else {
        // It had begun nothing.
        expect_equal(rt, "phase", manager.phase(), Phase::Fresh);
        expect_equal(rt, "records that changed", changed_on(bench), 0);
        drop(manager);
        return;
    };
    let settled = drive_kept(bench, &mut manager, sent, keeper).ok();
    let stopped = matches!(settled, Some(Phase::Halted(_, Why::Stop)));
    expect_equal(rt, "whether it stopped", stopped, true);
    let sent = manager.undo().ok().expect(rt, "a plan to be undone");
    let undone = drive_kept(bench, &mut manager, sent, keeper).ok();
    expect_equal(rt, "phase", undone, Some(Phase::Undone));
    expect_equal(rt, "records that changed", changed_on(bench), 0);
    expect_same_text(rt, keeper);
    let standing = standing_in(alloc, keeper.texts.last.as_str()).expect(rt, "memory");
    expect_equal(rt, "what stands", standing, Standing::Nothing);
    drop(manager);
}

/// A plan is run on the bus, over a file that takes so many changes. Whether it came to its end.
fn is_run(
    rt: &impl Abort,
    alloc: Global,
    bench: &mut Bench,
    manager: Manager,
    keeper: &mut JournalKeeper<PartFile>,
) -> bool {
    let mut manager = manager;
    expect_equal(rt, "whether it may begin", keeper.look(&manager), true);
    let sent = manager.start().ok().expect(rt, "a plan to be run");
    let end = drive_kept(bench, &mut manager, sent, keeper);
    drop(manager);
    match end {
        Ok(phase) => {
            expect_equal(rt, "phase", phase, Phase::Done);
            expect_equal(rt, "records that changed", changed_on(bench), 1);
            true
        }
        Err(KeptBack) => {
            expect_taken_back(rt, alloc, bench, keeper);
            false
        }
    }
}

/// The same over a board and links of its own.
fn runs_with(rt: &impl Abort, alloc: Global, bus: Bus, changes: usize) -> bool {
    let records = sample_records(rt, alloc);
    let mut link = Wired::new(rt, alloc, bus);
    let mut other = MemLink::new(alloc, &[]).ok().expect(rt, "memory");
    let mut file = PartFile::new(alloc, changes);
    let beside = UndoFiles::of(alloc, "undo.txt").expect(rt, "memory");
    let manager = manager_on(rt, alloc, bus);
    let mut texts = JournalTexts::of(alloc, &manager).expect(rt, "memory");
    let room = texts.last.capacity();
    // The file has no text yet.
    texts.last.clear();
    let mut keeper = JournalKeeper {
        files: &mut file,
        beside: &beside,
        texts: &mut texts,
    };
    let mut bench = Bench {
        bus,
        link: &mut link,
        other: &mut other,
        records: records.as_slice(),
    };
    let done = is_run(rt, alloc, &mut bench, manager, &mut keeper);
    drop(keeper);
    expect_equal(rt, "room of the last text", texts.last.capacity(), room);
    expect_equal(rt, "room of the other", texts.written.capacity(), room);
    drop(texts);
    drop(beside);
    drop(file);
    drop(other);
    drop(link);
    drop(records);
    done
}

/// How many changes of files a run on this bus makes: with less of them it is taken back.
fn changes_made(rt: &impl Abort, alloc: Global, bus: Bus) -> usize {
    // The first two put the journal of the manager that did nothing.
    for changes in 2..MOST_CHANGES {
        if runs_with(rt, alloc, bus, changes) {
            return changes;
        }
    }
    MOST_CHANGES
}

#[test]
fn whichever_change_of_files_fails_a_plan_is_run_or_taken_back(rt: HostRuntime) {
    // Two steps of two requests each: five journals are written and renamed, the first before any request. The last one need not be.
    let ipmb = changes_made(&rt, rt.alloc(), Bus::Ipmb);
    expect_equal(&rt, "thresholds on IPMB", ipmb, 10);
    // One step of two requests: three journals.
    let smbus = changes_made(&rt, rt.alloc(), Bus::Smbus);
    expect_equal(&rt, "a text on SMBus", smbus, 6);
}

/// A journal of two steps, whose lists and stage follow.
const HEAD: &str =
    "journal 1\nretries 3\nnames 2C203020080A\nunlisted\nsteps 1\nipmb 102605380000004B5C64\n";

/// A text says this of what there is to take back.
fn expect_standing(rt: &impl Abort, alloc: Global, text: &str, wanted: Standing) {
    let standing = standing_in(alloc, text).expect(rt, "memory");
    expect_equal(rt, text, standing, wanted);
}

/// The same of a journal that begins with `HEAD`.
fn expect_journal(rt: &impl Abort, alloc: Global, behind: &str, wanted: Standing) {
    let text = format!(in alloc; "{HEAD}{behind}").expect(rt, "memory");
    expect_standing(rt, alloc, text.as_str(), wanted);
}

#[test]
fn something_to_take_back_is_a_list_or_an_open_change(rt: HostRuntime) {
    let alloc = rt.alloc();
    let waits =
        "undo 0\nwaiting 1\nipmb 102405FF0000\nstage set 0 0\nstop\ncounts 1 0\nno replies\n";
    let undoes =
        "undo 1\nipmb 102405FF0000\nwaiting 0\nstage undo 0 0\nstop\ncounts 2 0\nno replies\n";
    let done = "undo 1\nipmb 102405FF0000\nwaiting 0\nstage done 0 0\ngo\ncounts 2 0\nno replies\n";
    expect_journal(&rt, alloc, waits, Standing::Something);
    expect_journal(&rt, alloc, undoes, Standing::Something);
    expect_journal(&rt, alloc, done, Standing::Something);
    let fresh = "undo 0\nwaiting 0\nstage fresh 0 0\ngo\ncounts 0 0\nno replies\n";
    let gets = "undo 0\nwaiting 0\nstage get 0 0\nstop\ncounts 0 0\nno replies\n";
    let undone =
        "undo 1\nipmb 102405FF0000\nwaiting 0\nstage undone 0 0\ngo\ncounts 3 0\nno replies\n";
    expect_journal(&rt, alloc, fresh, Standing::Nothing);
    expect_journal(&rt, alloc, gets, Standing::Nothing);
    expect_journal(&rt, alloc, undone, Standing::Nothing);
    let list = "undo 1\nnext ipmb 2 smbus 0\nipmb 102405FF0000\n";
    expect_standing(&rt, alloc, list, Standing::Something);
    let none = "undo 1\nnext ipmb 2 smbus 0\n";
    expect_standing(&rt, alloc, none, Standing::Nothing);
    expect_standing(&rt, alloc, "", Standing::NoJournal);
    expect_standing(&rt, alloc, "journal 1\n", Standing::NoJournal);
}

/// No manager is made of this text, and this is why.
fn expect_unmade(rt: &impl Abort, alloc: Global, text: &str, wanted: ReviveFault) {
    let why = revive_text(alloc, text).err();
    expect_equal(rt, text, why, Some(wanted));
}

#[test]
fn no_manager_is_made_of_other_texts(rt: HostRuntime) {
    let alloc = rt.alloc();
    expect_unmade(&rt, alloc, "journal 1\n", ReviveFault::Line(2));
    let rest =
        "unlisted\nsteps 0\nundo 0\nwaiting 0\nstage fresh 0 0\ngo\ncounts 0 0\nno replies\n";
    let others = format!(in alloc; "journal 1\nretries 3\nnames 2E203020080A\n{rest}");
    let others = others.expect(&rt, "memory");
    expect_unmade(&rt, alloc, others.as_str(), ReviveFault::OtherNames);
    let often = format!(in alloc; "journal 1\nretries 16\nnames 2C203020080A\n{rest}");
    let often = often.expect(&rt, "memory");
    expect_unmade(&rt, alloc, often.as_str(), ReviveFault::Retries);
}
