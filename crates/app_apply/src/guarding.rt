//! FILE, taken for one process: held, and looked at.
ghost use Rattle.std.specs.Prelude.{◌≡◌, IfOk};
ghost use Rattle.app_apply.specs.Guard.{Guards, GuardsHeld, HoldsOwn, LeadsToOwn, PutsOwnAside};
ghost use Rattle.app_apply.specs.Guard.{StandsOwn, StandsWithin, is_nothing};

use app_base::{TextFiles, UnreadFile};
use app_journal::{
    HoldFault, Place, PlaceFault, Standing, UndoFiles, WriteFault, WritesFiles, free_name,
    standing_in,
};
use std::alloc::{AllocError, Global};

/// FILE is held, and nothing would be lost.
#[derive(Drop)]
pub struct Guarded {
    /// Its word and those beside it.
    pub beside: UndoFiles,
    /// The word under which lies now what it had, where that was put aside.
    pub aside: Option<String>,
}

/// What came of taking FILE.
#[derive(Drop)]
pub enum Guard {
    /// It may be written over.
    Taken(Guarded),
    /// Another process holds it, or it can't be held.
    Held,
    /// It has this, and isn't to be written over.
    Occupied(Standing),
}

/// The words of the file to which this word leads, or nothing where it leads to no plain file, and to none that can be made.
fn own_files<F: WritesFiles>(
    alloc: Global,
    files: &F,
    word: &str,
) -> Result<Option<UndoFiles>, AllocError>
    ensures { IfOk result (LeadsToOwn (F.leads files.now) word.now) }
{
    match files.place(word) {
        Ok(Place::Free(path)) => Ok(Some(UndoFiles::of_journal(alloc, path.as_str())?)),
        Ok(Place::File(path)) => Ok(Some(UndoFiles::of_journal(alloc, path.as_str())?)),
        Ok(Place::Stream) => Ok(None),
        Err(PlaceFault::NoPlace) => Ok(None),
        Err(PlaceFault::Memory) => Err(AllocError),
    }
}

/// Holds the file to which this word leads, before anything else is done with it. It gives nothing where that can't be held.
pub fn hold_own<F: WritesFiles>(
    alloc: Global,
    files: &mut F,
    word: &str,
) -> Result<Option<UndoFiles>, AllocError>
    ensures { HoldsOwn F.WritesFiles word.now result files.old files.new }
{
    let Some(beside) = own_files(alloc, &*files, word)? else {
        return Ok(None);
    };
    match beside.hold(files) {
        Ok(()) => Ok(Some(beside)),
        Err(HoldFault) => {
            drop(beside);
            Ok(None)
        }
    }
}

/// What the plain file of this word has.
fn standing_within<F: TextFiles>(
    alloc: Global,
    files: &F,
    word: &str,
) -> Result<Standing, AllocError>
    ensures { IfOk result (StandsWithin (F.gives files.now) word.now) }
{
    match files.text(word) {
        Ok(text) => standing_in(alloc, text.as_str()),
        Err(UnreadFile::NoText) => Ok(Standing::NoJournal),
        Err(UnreadFile::Memory) => Err(AllocError),
    }
}

/// What the file of this word has, which may not be there.
fn standing_own<F: TextFiles + WritesFiles>(
    alloc: Global,
    files: &F,
    word: &str,
) -> Result<Standing, AllocError>
    ensures { IfOk result (StandsOwn (F.gives files.now) (F.leads files.now) word.now) }
{
    match files.place(word) {
        Ok(Place::Free(_)) => Ok(Standing::Nothing),
        Ok(Place::File(_)) => standing_within(alloc, files, word),
        Ok(Place::Stream) => Ok(Standing::NoJournal),
        Err(PlaceFault::NoPlace) => Ok(Standing::NoJournal),
        Err(PlaceFault::Memory) => Err(AllocError),
    }
}

/// Puts the file of this word aside, under the first free name. It gives that, or nothing where none is free or the file can't be renamed.
pub fn put_aside<F: WritesFiles>(
    alloc: Global,
    files: &mut F,
    word: &str,
) -> Result<Option<String>, AllocError>
    ensures { PutsOwnAside F.WritesFiles word.now result files.old files.new }
{
    let Some(name) = free_name(alloc, &*files, word)? else {
        return Ok(None);
    };
    match files.rename(word, name.as_str()) {
        Ok(()) => Ok(Some(name)),
        Err(WriteFault) => {
            drop(name);
            Ok(None)
        }
    }
}

/// Whether there is nothing to take back.
pub fn is_nothing(standing: Standing) -> bool
    ensures { result ≡ is_nothing standing }
{
    matches!(standing, Standing::Nothing)
}

/// Takes a file that is held and has this.
fn guard_held<F: WritesFiles>(
    alloc: Global,
    files: &mut F,
    beside: UndoFiles,
    standing: Standing,
    replace: bool,
) -> Result<Guard, AllocError>
    ensures { GuardsHeld F.WritesFiles beside standing replace result files.old files.new }
{
    if is_nothing(standing) {
        return Ok(Guard::Taken(Guarded {
            beside,
            aside: None,
        }));
    }
    if !replace {
        drop(beside);
        return Ok(Guard::Occupied(standing));
    }
    match put_aside(alloc, files, beside.undo.as_str())? {
        Some(name) => Ok(Guard::Taken(Guarded {
            beside,
            aside: Some(name),
        })),
        None => {
            drop(beside);
            Ok(Guard::Occupied(standing))
        }
    }
}

/// Takes the file to which this word leads: it is held first, and then looked at. Where it has something to take back, or what is no journal and no
/// undo text, it isn't to be written over, unless it is to be replaced. Then it is put aside, under a free name.
pub(crate) fn take_file<F: TextFiles + WritesFiles>(
    alloc: Global,
    files: &mut F,
    word: &str,
    replace: bool,
) -> Result<Guard, AllocError>
    ensures { Guards F.TextFiles F.WritesFiles word.now replace result files.old files.new }
{
    let Some(beside) = hold_own(alloc, files, word)? else {
        return Ok(Guard::Held);
    };
    match standing_own(alloc, &*files, beside.undo.as_str()) {
        Ok(standing) => guard_held(alloc, files, beside, standing, replace),
        Err(why) => {
            drop(beside);
            Err(why)
        }
    }
}
