//! The files of an undo text, taken for one process.
ghost use Rattle.std.specs.Prelude.{◌≡◌, IfOk, string_bytes};
ghost use Rattle.app_journal.specs.Claiming.{Claims, ClaimsHeld, HoldsFiles, IsFirstFree, IsFreeAt, LeadsTo};
ghost use Rattle.app_journal.specs.Claiming.{LooksAt, MayHave, PutsAside, StandsAt, StandsIn, may_go};

use crate::files::{HoldFault, Place, PlaceFault, WriteFault, WritesFiles};
use crate::standing::{Standing, standing_beside};
use crate::undo_files::UndoFiles;
use app_base::{TextFiles, UnreadFile};
use std::alloc::{AllocError, Global};

/// The first number that isn't tried for a file that is put aside.
const NUMBERS_END: u32 = 10_000;

/// Files that are held, and whose journal's file has nothing that would be lost.
#[derive(Drop)]
pub struct Taken {
    pub beside: UndoFiles,
    /// The word under which the journal's file that was there lies now, where there was something to take back.
    pub aside: Option<String>,
}

/// What came of a claim.
#[derive(Drop)]
pub enum Claim {
    /// The files are held, and may be written over.
    Taken(Taken),
    /// They aren't to be touched: another process holds them, they can't be held, or something would be lost.
    Refused,
}

/// The words of the files to which this word leads, or nothing where it leads to none.
fn files_at<F: WritesFiles>(
    alloc: Global,
    files: &F,
    word: &str,
) -> Result<Option<UndoFiles>, AllocError>
    ensures { IfOk result (LeadsTo (F.leads files.now) word.now) }
{
    match files.place(word) {
        Ok(Place::Free(path)) => Ok(Some(UndoFiles::of(alloc, path.as_str())?)),
        Ok(Place::File(path)) => Ok(Some(UndoFiles::of(alloc, path.as_str())?)),
        Ok(Place::Stream) => Ok(Some(UndoFiles::of_stream(alloc, word)?)),
        Err(PlaceFault::NoPlace) => Ok(None),
        Err(PlaceFault::Memory) => Err(AllocError),
    }
}

/// Holds the files to which this word leads, before anything else is done with them. A FIFO or a device needs no hold. It gives nothing where
/// they can't be held.
pub fn hold_files<F: WritesFiles>(
    alloc: Global,
    files: &mut F,
    word: &str,
) -> Result<Option<UndoFiles>, AllocError>
    ensures { HoldsFiles F.WritesFiles word.now result files.old files.new }
{
    let Some(beside) = files_at(alloc, &*files, word)? else {
        return Ok(None);
    };
    if beside.is_stream {
        return Ok(Some(beside));
    }
    match beside.hold(files) {
        Ok(()) => Ok(Some(beside)),
        Err(HoldFault) => {
            drop(beside);
            Ok(None)
        }
    }
}

/// What the file of this word has, beside an undo text.
fn standing_of<F: TextFiles>(
    alloc: Global,
    files: &F,
    word: &str,
    undo: &str,
) -> Result<Standing, AllocError>
    ensures { IfOk result (λ standing. StandsIn (F.gives files.now) word.now undo.now standing) }
{
    match files.text(word) {
        Ok(text) => standing_beside(alloc, text.as_str(), undo),
        Err(UnreadFile::NoText) => Ok(Standing::NoJournal),
        Err(UnreadFile::Memory) => Err(AllocError),
    }
}

impl UndoFiles {
    /// What the journal's file has, beside this undo text: a journal whose list that has is nothing.
    pub fn standing<F: TextFiles + WritesFiles>(
        &self,
        alloc: Global,
        files: &F,
        undo: &str,
    ) -> Result<Standing, AllocError>
        ensures { IfOk result (StandsAt (F.gives files.now) (F.leads files.now) self.now undo.now) }
    {
        if self.is_stream {
            return Ok(Standing::Nothing);
        }
        let part = self.part.as_str();
        match files.place(part) {
            Ok(Place::Free(_)) => Ok(Standing::Nothing),
            Ok(Place::File(_)) => standing_of(alloc, files, part, undo),
            Ok(Place::Stream) => Ok(Standing::NoJournal),
            Err(PlaceFault::NoPlace) => Ok(Standing::NoJournal),
            Err(PlaceFault::Memory) => Err(AllocError),
        }
    }
}

// ---- a claim

/// The text that the file of this word has, or none where it can't be read.
fn text_in<F: TextFiles>(alloc: Global, files: &F, word: &str) -> Result<String, AllocError>
    ensures { IfOk result (λ text. MayHave (F.gives files.now) word.now (string_bytes text)) }
{
    match files.text(word) {
        Ok(text) => Ok(text),
        Err(UnreadFile::NoText) => Ok(String::new(alloc)),
        Err(UnreadFile::Memory) => Err(AllocError),
    }
}

/// What the journal's file has, beside the text that the file of the undo text has.
fn looked_at<F: TextFiles + WritesFiles>(
    alloc: Global,
    files: &F,
    beside: &UndoFiles,
) -> Result<Standing, AllocError>
    ensures { IfOk result (LooksAt (F.gives files.now) (F.leads files.now) beside.now) }
{
    if beside.is_stream {
        return Ok(Standing::Nothing);
    }
    let undo = text_in(alloc, files, beside.undo.as_str())?;
    beside.standing(alloc, files, undo.as_str())
}

/// Whether a file that has this may be written over.
fn may_go(standing: Standing) -> bool
    ensures { result ≡ may_go standing }
{
    matches!(standing, Standing::Nothing)
}

/// Whether this word names no file.
pub fn is_free<F: WritesFiles>(files: &F, word: &str) -> Result<bool, AllocError>
    ensures { IfOk result (IsFreeAt (F.leads files.now) word.now) }
{
    match files.place(word) {
        Ok(Place::Free(_)) => Ok(true),
        Ok(_) | Err(PlaceFault::NoPlace) => Ok(false),
        Err(PlaceFault::Memory) => Err(AllocError),
    }
}

/// The first of the words with a number behind this one that names no file.
pub fn free_name<F: WritesFiles>(
    alloc: Global,
    files: &F,
    word: &str,
) -> Result<Option<String>, AllocError>
    ensures { IfOk result (IsFirstFree (F.leads files.now) word.now) }
{
    for number in 1..NUMBERS_END {
        let name = format!(in alloc; "{word}.{number}")?;
        if is_free(files, name.as_str())? {
            return Ok(Some(name));
        }
    }
    Ok(None)
}

/// Puts the journal's file aside, under the first free name.
fn put_aside<F: WritesFiles>(
    alloc: Global,
    files: &mut F,
    beside: UndoFiles,
) -> Result<Claim, AllocError>
    ensures { PutsAside F.WritesFiles beside result files.old files.new }
{
    let Some(name) = free_name(alloc, &*files, beside.part.as_str())? else {
        drop(beside);
        return Ok(Claim::Refused);
    };
    match files.rename(beside.part.as_str(), name.as_str()) {
        Ok(()) => Ok(Claim::Taken(Taken {
            beside,
            aside: Some(name),
        })),
        Err(WriteFault) => {
            drop(beside);
            drop(name);
            Ok(Claim::Refused)
        }
    }
}

/// Claims files that are held.
fn claim_held<F: TextFiles + WritesFiles>(
    alloc: Global,
    files: &mut F,
    beside: UndoFiles,
    replace: bool,
) -> Result<Claim, AllocError>
    ensures { ClaimsHeld F.TextFiles F.WritesFiles beside replace result files.old files.new }
{
    let standing = looked_at(alloc, &*files, &beside)?;
    if may_go(standing) {
        return Ok(Claim::Taken(Taken {
            beside,
            aside: None,
        }));
    }
    if !replace {
        drop(beside);
        return Ok(Claim::Refused);
    }
    put_aside(alloc, files, beside)
}

/// Claims the files of the undo text to which this word leads: they are held first. Where the journal's file has something to take back which the
/// undo text hasn't, or is no journal, they aren't to be touched, unless it is to be replaced. Then it is put aside, under a free name.
pub fn claim_files<F: TextFiles + WritesFiles>(
    alloc: Global,
    files: &mut F,
    word: &str,
    replace: bool,
) -> Result<Claim, AllocError>
    ensures { Claims F.TextFiles F.WritesFiles word.now replace result files.old files.new }
{
    match hold_files(alloc, files, word)? {
        Some(beside) => claim_held(alloc, files, beside, replace),
        None => Ok(Claim::Refused),
    }
}
