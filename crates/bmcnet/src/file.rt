//! The files of the host that are written, too.
use app_base::{HostFiles, TextFiles, UnreadFile};
use app_journal::{HoldFault, Place, PlaceFault, WriteFault, WritesFiles};
use std::alloc::{Allocator, Global};
use std::fs::{File, OpenFile, OpenOptions};
use std::io::Write;
use std::path::PathBuf;
use std::rt::Files;
use std::{fs, io};

/// The files of the host, by their paths.
#[derive(Drop)]
pub struct NetFiles<'a, R: Files + AllocGlobal> {
    /// How they are read.
    pub read: HostFiles<'a, R>,
    /// Those that the process holds.
    pub held: Vec<HeldFile>,
}

/// A file that the process holds, by its path.
#[derive(Drop)]
pub struct HeldFile {
    path: String,
    file: File,
}

impl<R: Files + AllocGlobal> TextFiles for NetFiles<'_, R> {
    // Nothing is promised of what the host's files hold.
    ghost gives = { λ files word given. Unit {0} };

    fn text(&self, word: &str) -> Result<String, UnreadFile> {
        self.read.text(word)
    }
}

/// The folder that has the file of this path.
fn folder_of(path: &str) -> &str {
    match path.rsplit_once('/') {
        Some(("", _)) => "/",
        Some((folder, _)) => folder,
        None => ".",
    }
}

/// Makes the file of this path anew, writes the text to it, and waits until the disk has it. No link is followed: one that has the path goes, as an older
/// file does.
fn write_through<R: Files>(rt: &R, path: &str, text: &str) -> io::Result<()> {
    if fs::symlink_metadata(rt, path).is_ok() {
        fs::remove_file(rt, path)?;
    }
    let mut file = File::create_new(rt, path)?;
    file.write_all(text.as_bytes())?;
    file.sync_all()
}

/// Waits until the disk has the names in the folder of this path.
fn sync_names<R: Files>(rt: &R, path: &str) -> io::Result<()> {
    let folder = File::open(rt, folder_of(path))?;
    folder.sync_all()
}

/// Renames a file, and waits until the disk has its name.
fn rename_through<R: Files>(rt: &R, from: &str, to: &str) -> io::Result<()> {
    fs::rename(rt, from, to)?;
    sync_names(rt, to)
}

/// Removes a file, and waits until the disk has lost its name.
fn remove_through<R: Files>(rt: &R, path: &str) -> io::Result<()> {
    fs::remove_file(rt, path)?;
    sync_names(rt, path)
}

/// The file of this path, which is made where there is none, once it is locked.
fn lock_file<R: Files<File = File>>(rt: &R, path: &str) -> Result<File, HoldFault> {
    let mut how = OpenOptions::new();
    how.read(true).write(true).create(true);
    let Ok(file) = how.open(rt, path) else {
        return Err(HoldFault);
    };
    match file.try_lock() {
        Ok(()) => Ok(file),
        Err(_) => Err(HoldFault),
    }
}

/// Whether one of the files that are held has this path.
fn is_held(held: &[HeldFile], path: &str) -> bool {
    held.iter().any(|one| one.path.as_str() == path)
}

/// Writes the text to the FIFO or the device of this path.
fn write_plain<R: Files<File = File>>(rt: &R, path: &str, text: &str) -> io::Result<()> {
    let mut how = OpenOptions::new();
    how.write(true);
    let mut file = how.open(rt, path)?;
    file.write_all(text.as_bytes())
}

/// The most links that are followed one after another, as the system's own limit.
const MOST_LINKS: usize = 40;

/// The path where a link of this path leads to that one: that is beside it, unless it begins at the root.
fn led_to<A: Allocator>(
    alloc: Global,
    path: &str,
    link: &PathBuf<A>,
) -> Result<String, PlaceFault> {
    let Some(target) = link.to_str() else {
        return Err(PlaceFault::NoPlace);
    };
    let path = match path.rsplit_once('/') {
        Some((folder, _)) if !target.starts_with('/') => format!(in alloc; "{folder}/{target}"),
        _ => String::from_str(alloc, target),
    };
    path.map_err(|_| PlaceFault::Memory)
}

/// The path where the links of this one lead.
fn end_of_links<R: Files + AllocGlobal>(rt: &R, path: &str) -> Result<String, PlaceFault> {
    let alloc = rt.alloc();
    let mut at = String::from_str(alloc, path).map_err(|_| PlaceFault::Memory)?;
    for _ in 0..MOST_LINKS {
        match fs::read_link(rt, at.as_str()) {
            Ok(link) => at = led_to(alloc, at.as_str(), &link)?,
            Err(_) => return Ok(at),
        }
    }
    Err(PlaceFault::NoPlace)
}

/// Where the links of this path lead.
fn place_of<R: Files + AllocGlobal>(rt: &R, path: &str) -> Result<Place, PlaceFault> {
    match fs::metadata(rt, path) {
        Ok(is) if is.is_file() => Ok(Place::File(end_of_links(rt, path)?)),
        Ok(is) if is.is_dir() => Err(PlaceFault::NoPlace),
        Ok(_) => Ok(Place::Stream),
        Err(why) if matches!(why.kind(), io::ErrorKind::NotFound) => {
            Ok(Place::Free(end_of_links(rt, path)?))
        }
        Err(_) => Err(PlaceFault::NoPlace),
    }
}

/// What came of writing, as a run tells it.
fn written(answer: io::Result<()>) -> Result<(), WriteFault> {
    match answer {
        Ok(()) => Ok(()),
        Err(_) => Err(WriteFault),
    }
}

impl<R: Files<File = File> + AllocGlobal> WritesFiles for NetFiles<'_, R> {
    // Nothing is promised of what the host keeps of a text.
    ghost takes = { λ old word text answer new. Unit {0} };

    // Nor of what a FIFO or a device makes of it.
    ghost pours = { λ old word text answer new. Unit {0} };

    // Nor of where a renaming leaves it.
    ghost renames = { λ old from to answer new. Unit {0} };

    // Nor of what a removal leaves.
    ghost removes = { λ old word answer new. Unit {0} };

    // Nor of who holds what.
    ghost holds = { λ old word answer new. Unit {0} };

    // Nor of where links lead.
    ghost leads = { λ files word answer. Unit {0} };

    fn write(&mut self, word: &str, text: &str) -> Result<(), WriteFault> {
        written(write_through(self.read.rt, word, text))
    }

    fn pour(&mut self, word: &str, text: &str) -> Result<(), WriteFault> {
        written(write_plain(self.read.rt, word, text))
    }

    fn rename(&mut self, from: &str, to: &str) -> Result<(), WriteFault> {
        written(rename_through(self.read.rt, from, to))
    }

    fn remove(&mut self, word: &str) -> Result<(), WriteFault> {
        written(remove_through(self.read.rt, word))
    }

    // What the process holds already it goes on holding.
    fn hold(&mut self, word: &str) -> Result<(), HoldFault> {
        if is_held(self.held.as_slice(), word) {
            return Ok(());
        }
        let Ok(path) = String::from_str(self.read.rt.alloc(), word) else {
            return Err(HoldFault);
        };
        let file = lock_file(self.read.rt, word)?;
        match self.held.push(HeldFile { path, file }) {
            Ok(()) => Ok(()),
            Err(_) => Err(HoldFault),
        }
    }

    fn place(&self, word: &str) -> Result<Place, PlaceFault> {
        place_of(self.read.rt, word)
    }
}
