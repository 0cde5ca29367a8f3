//! A manager that runs its plan while its journal is kept, and the list that is kept of it at the end.
ghost use Rattle.std.specs.Prelude.{◌≡◌, true, IfOk, IfErr, OnErr, string_bytes};
ghost use Rattle.wire_links.specs.Counted.{none_counted};
ghost use Rattle.bmc_ports.specs.Conversation.{links};
ghost use Rattle.app_journal.specs.Reviving.{IsFault, IsMadeOf};
ghost use Rattle.app_run.specs.Driven.{is_over};
ghost use Rattle.app_run.specs.Outcome.{KeepsList, RunsBeside};
ghost use Rattle.app_run.specs.Told.{MayTellWay, TellsSettling};
ghost use Rattle.app_run.specs.Ways.{SettlesUnkept};

use crate::links::BusLinks;
use crate::observer::{ProgressWriter, RunWatch};
use crate::preparing::Ready;
use crate::progress::{PlanOutline, Progress};
use crate::running::RunWords;
use crate::trying::{settle_watched, try_plan};
use app_journal::{JournalKeeper, ReviveFault, UndoFiles, WriteFault, WritesFiles, revive_text};
use bmc_ports::KeptBack;
use std::alloc::{AllocError, Global};
use std::io;
use undo_core::{Manager, Phase};
use wire_links::UdpLink;

/// A manager that ran a plan, its phase, and whether its journal was kept at each look.
#[derive(Drop)]
pub(crate) struct Ran {
    pub manager: Manager,
    pub phase: Phase,
    pub kept: Result<(), WriteFault>,
}

/// The manager that is made again of the last text that the journal's file was given.
pub fn revive_last<F: WritesFiles>(
    alloc: Global,
    keeper: &JournalKeeper<F>,
) -> Result<Manager, ReviveFault>
    ensures made { IfOk result (IsMadeOf (string_bytes keeper.now.texts.now.last)) }
    ensures fault { IfErr result (λ why. IsFault why (string_bytes keeper.now.texts.now.last)) }
{
    revive_text(alloc, keeper.texts.last.as_str())
}

/// Makes a manager again of the last text that the journal's file was given, and has it settle what is open, while the same watch looks at it.
/// Where its journal can't be kept either, it is left where it is.
fn settle<F: WritesFiles, P: io::Write>(
    alloc: Global,
    ipmb: &mut UdpLink,
    smbus: &mut UdpLink,
    turns: u32,
    watch: &mut RunWatch<F, P>,
) -> Result<Ran, ReviveFault>
    ensures settles { IfOk result (λ ran. SettlesUnkept F.takes F.renames
        watch.old.keeper.beside.now turns ran.manager ran.phase ran.kept
        (links ipmb.old smbus.old) (string_bytes watch.old.keeper.texts.now.last)
        watch.old.keeper.files.now watch.new.keeper.files.now) }
    ensures fault { IfErr result (λ why. IsFault why
        (string_bytes watch.old.keeper.texts.now.last)) }
    ensures same { OnErr result (watch.new.keeper.files.now ≡ watch.old.keeper.files.now) }
    ensures told { TellsSettling P.contents watch.old.teller.course.kinds.now
        watch.old.teller.course.steps
        watch.old.teller.progress.now watch.new.teller.progress.now }
    ensures same_files { watch.new.keeper.files.ghost_name ≡ watch.old.keeper.files.ghost_name }
    ensures same_line { watch.new.teller.progress.ghost_name
        ≡ watch.old.teller.progress.ghost_name }
{
    let mut manager = match revive_last(alloc, &watch.keeper) {
        Ok(manager) => manager,
        Err(why) => return Err(why),
    };
    let _end = settle_watched(&mut manager, ipmb, smbus, turns, watch);
    let phase = manager.phase();
    Ok(Ran {
        manager,
        phase,
        kept: Err(WriteFault),
    })
}

/// Has a manager that is ready run its plan over these links. Meanwhile its journal, of which the file beside the one of the undo text has the last
/// text, is kept there, and the line of its progress is written, which is ended then. Where its journal can't be kept, the manager that is made of
/// the last text of that takes its place, and settles what is open.
pub(crate) fn run_over<F: WritesFiles, P: io::Write>(
    alloc: Global,
    files: &mut F,
    beside: &UndoFiles,
    ready: Ready,
    ends: BusLinks,
    words: &RunWords,
    progress: &mut Progress<P>,
) -> Result<Ran, ReviveFault>
    requires ipmb { ends.ipmb.counts ≡ none_counted }
    requires smbus { ends.smbus.counts ≡ none_counted }
    ensures runs { RunsBeside F.takes F.renames beside.now ready.manager words.now result
        (string_bytes ready.texts.last) files.old files.new }
    ensures told { MayTellWay P.contents ready.kinds.items ready.manager
        progress.old progress.new }
{
    let Ready {
        mut manager,
        kinds,
        greetings: _,
        mut texts,
    } = ready;
    let BusLinks {
        mut ipmb,
        mut smbus,
    } = ends;
    let course = PlanOutline {
        steps: kinds.len(),
        kinds: kinds.as_slice(),
    };
    let mut watch = RunWatch {
        keeper: JournalKeeper {
            files,
            beside: &*beside,
            texts: &mut texts,
        },
        teller: ProgressWriter {
            alloc,
            progress,
            course,
        },
    };
    let RunWords { turns, again, .. } = *words;
    match try_plan(
        &mut manager,
        &mut ipmb,
        &mut smbus,
        turns,
        again,
        &mut watch,
    ) {
        Ok(phase) => {
            watch.end();
            Ok(Ran {
                manager,
                phase,
                kept: Ok(()),
            })
        }
        Err(KeptBack) => {
            drop(manager);
            let ran = settle(alloc, &mut ipmb, &mut smbus, turns, &mut watch);
            watch.end();
            ran
        }
    }
}

/// Whether the plan ended or halted, so that there is a list to keep.
fn is_over(phase: Phase) -> bool
    ensures { result ≡ is_over phase }
{
    matches!(phase, Phase::Done | Phase::Halted(_, _))
}

/// Keeps the manager's undo text in its file, where the plan ended or halted, and then removes the file of the journal. Else it does nothing.
pub(crate) fn keep<F: WritesFiles>(
    alloc: Global,
    files: &mut F,
    beside: &UndoFiles,
    ran: &Ran,
) -> Result<Result<(), WriteFault>, AllocError>
    ensures kept { IfOk result (λ answer. KeepsList F.WritesFiles
        (is_over ran.now.phase) beside.now ran.now.manager files.old answer files.new) }
    ensures memory { OnErr result ((is_over ran.now.phase ≡ true) × (files.new ≡ files.old)) }
{
    if !is_over(ran.phase) {
        return Ok(Ok(()));
    }
    match beside.put_undo(alloc, files, ran.manager.undo_list()) {
        Ok(Ok(())) => Ok(beside.remove_part(files)),
        Ok(Err(why)) => Ok(Err(why)),
        Err(why) => Err(why),
    }
}
