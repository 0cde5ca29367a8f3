//! The files that get plans.
ghost use Rattle.std.specs.Prelude.{◌≡◌, IfErr, IfOk, OnOk, length, string_bytes};
ghost use Rattle.app_journal.specs.Beside.{IsOwn};
ghost use Rattle.app_journal.specs.Claiming.{IsFreeAt};
ghost use Rattle.app_show.specs.Putting.{AreFilesOf, IsFirstTaken, IsStemOf, PutsAll, StopsPutting};
ghost use Rattle.app_show.specs.Putting.{file_name};

use app_journal::{UndoFiles, WriteFault, WritesFiles, is_free};
use std::alloc::{AllocError, Global};

/// The file at this place can't be written.
#[derive(Clone, Copy, Debug)]
pub(crate) struct Unput {
    pub place: usize,
}

/// The name without `.toml` at its end.
fn stem_of(name: &str) -> &str
    ensures { IsStemOf name.now result.now }
{
    match name.strip_suffix(".toml") {
        Some(stem) => stem,
        None => name,
    }
}

/// The name of the file of the plan of this number, of so many.
fn file_name(alloc: Global, stem: &str, number: usize, count: usize) -> Result<String, AllocError>
    ensures { IfOk result (λ name. string_bytes name ≡ file_name stem.now number count) }
{
    if count == 1 {
        format!(in alloc; "{stem}.toml")
    } else {
        format!(in alloc; "{stem}-{number}.toml")
    }
}

/// The file of the plan of this number, of so many.
fn file_of(alloc: Global, stem: &str, number: usize, count: usize) -> Result<UndoFiles, AllocError>
    ensures { IfOk result (IsOwn (file_name stem.now number count)) }
{
    let name = file_name(alloc, stem, number, count)?;
    UndoFiles::of_journal(alloc, name.as_str())
}

/// The files of so many plans, by the name that is given for them.
pub(crate) fn files_of(
    alloc: Global,
    name: &str,
    count: usize,
) -> Result<Vec<UndoFiles>, AllocError>
    ensures { IfOk result (λ all. AreFilesOf name.now count all.items) }
{
    let stem = stem_of(name);
    let mut all = Vec::new(alloc);
    for place in 0..count {
        let file = file_of(alloc, stem, place + 1, count)?;
        all.push(file)?;
    }
    Ok(all)
}

/// Whether this file isn't there.
fn is_absent<F: WritesFiles>(files: &F, file: &UndoFiles) -> Result<bool, AllocError>
    ensures { IfOk result (IsFreeAt (F.leads files.now) (string_bytes file.now.part)) }
{
    is_free(files, file.part.as_str())
}

/// The place of the first file that is there, if any is.
pub(crate) fn first_taken<F: WritesFiles>(
    files: &F,
    all: &[UndoFiles],
) -> Result<Option<usize>, AllocError>
    ensures { IfOk result (IsFirstTaken (F.leads files.now) all.now) }
{
    for place in 0..all.len() {
        if !is_absent(files, &all[place])? {
            return Ok(Some(place));
        }
    }
    Ok(None)
}

/// Has each file get its text, by its name alone, one after another.
pub(crate) fn put_all<F: WritesFiles>(
    files: &mut F,
    all: &[UndoFiles],
    texts: &[String],
) -> Result<(), Unput>
    requires { length all.now ≡ length texts.now }
    ensures put { OnOk result (PutsAll F.WritesFiles all.now texts.now files.old files.new) }
    ensures stopped { IfErr result (λ why.
        StopsPutting F.WritesFiles all.now texts.now why files.old files.new) }
{
    for place in 0..all.len() {
        let text = texts[place].as_str();
        if let Err(WriteFault) = all[place].put(files, text) {
            return Err(Unput { place });
        }
    }
    Ok(())
}
