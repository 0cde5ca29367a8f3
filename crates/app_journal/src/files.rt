//! Files that texts are written to.

/// A file isn't written, doesn't get its name or isn't removed: it can't be opened, renamed or removed, or not all of its text was taken.
#[derive(Clone, Copy, Debug)]
pub struct WriteFault;

/// A file isn't held: another process holds it, or it can't be opened.
#[derive(Clone, Copy, Debug)]
pub struct HoldFault;

/// Where the links of a word lead.
#[derive(Debug, Drop)]
pub enum Place {
    /// To this word, which names no file.
    Free(String),
    /// To this word, which names a plain file.
    File(String),
    /// To something else that takes a text, as a FIFO or a device.
    Stream,
}

/// Why nothing is known of where a word leads.
#[derive(Clone, Copy, Debug)]
pub enum PlaceFault {
    /// Memory was refused.
    Memory,
    /// It leads to a folder, nowhere, or to what can't be looked at.
    NoPlace,
}

/// Files that take texts, by the words that name them.
pub trait WritesFiles {
    ghost use Rattle.std.specs.Prelude.{ℕ, List, Result};
    ghost use Rattle.app_journal.specs.declared.files.Place.{Place};
    ghost use Rattle.app_journal.specs.declared.files.PlaceFault.{PlaceFault};
    ghost use Rattle.app_journal.specs.declared.files.WriteFault.{WriteFault};
    ghost use Rattle.app_journal.specs.declared.files.HoldFault.{HoldFault};

    /// What a writing of this text to the file that this word names may answer, and what it may leave of the files.
    ghost takes: { Self → (word text : List ℕ) → Result (Unit {0}) WriteFault → Self → Type 0 };

    /// The same of a FIFO or a device.
    ghost pours: { Self → (word text : List ℕ) → Result (Unit {0}) WriteFault → Self → Type 0 };

    /// What a renaming from the first word to the second comes to.
    ghost renames: { Self → (from to : List ℕ) → Result (Unit {0}) WriteFault → Self → Type 0 };

    /// What a removal of the file that this word names comes to.
    ghost removes: { Self → (word : List ℕ) → Result (Unit {0}) WriteFault → Self → Type 0 };

    /// What a hold on the file that this word names comes to.
    ghost holds: { Self → (word : List ℕ) → Result (Unit {0}) HoldFault → Self → Type 0 };

    /// Where the links of this word may lead.
    ghost leads: { Self → (word : List ℕ) → Result Place PlaceFault → Type 0 };

    /// Writes the text to the file that the word names, and waits until the file's disk has it. What the file had before is gone.
    fn write(&mut self, word: &str, text: &str) -> Result<(), WriteFault>
        ensures { takes self.old word.now text.now result self.new };

    /// Writes the text to the FIFO or the device that the word names.
    fn pour(&mut self, word: &str, text: &str) -> Result<(), WriteFault>
        ensures { pours self.old word.now text.now result self.new };

    /// Has the second word name the file that the first one names. The first names none then, and the file that the second one named is gone.
    fn rename(&mut self, from: &str, to: &str) -> Result<(), WriteFault>
        ensures { renames self.old from.now to.now result self.new };

    /// Has the word name no file.
    fn remove(&mut self, word: &str) -> Result<(), WriteFault>
        ensures { removes self.old word.now result self.new };

    /// Holds the file that the word names, which is made where there is none, until the process ends. No other process holds it meanwhile.
    fn hold(&mut self, word: &str) -> Result<(), HoldFault>
        ensures { holds self.old word.now result self.new };

    /// Where the links of the word lead.
    fn place(&self, word: &str) -> Result<Place, PlaceFault>
        ensures { leads self.now word.now result };
}
