//! Files in memory.
use app_base::{TextFiles, UnreadFile};
use app_journal::{HoldFault, Place, PlaceFault, WriteFault, WritesFiles};
use std::alloc::{AllocError, Global};

/// Files that hold these texts, each by its word, and take others, unless they are locked.
#[derive(Drop)]
pub(crate) struct FakeFiles<'a> {
    alloc: Global,
    texts: &'a [(&'a str, &'a str)],
    /// So many changes are left until no file is written, renamed or removed any more.
    pub changes_left: usize,
    /// The words of the files that were written, and their texts.
    written: Vec<(String, String)>,
    /// Each text that a file of this word got, by its name alone.
    pub renamed: Vec<(String, String)>,
    /// The words of the files that are held.
    pub held: Vec<String>,
    /// Another process holds all of them.
    pub is_held: bool,
    /// Each word leads to a FIFO.
    pub has_stream: bool,
}

impl<'a> FakeFiles<'a> {
    pub fn new(alloc: Global, texts: &'a [(&'a str, &'a str)]) -> FakeFiles<'a> {
        FakeFiles {
            alloc,
            texts,
            changes_left: usize::MAX,
            written: Vec::new(alloc),
            renamed: Vec::new(alloc),
            held: Vec::new(alloc),
            is_held: false,
            has_stream: false,
        }
    }

    /// The text that is in the file of this word, of those that were written.
    pub fn text_at(&self, word: &str) -> Option<&str> {
        for (name, text) in &self.written {
            if name.as_str() == word {
                return Some(text.as_str());
            }
        }
        None
    }

    /// Has the file of this word have this text, as another process left it.
    pub fn put(&mut self, word: &str, text: &str) -> Result<(), AllocError> {
        self.keep(word, text)
    }

    /// How many files were written and are there.
    pub fn count(&self) -> usize {
        self.written.len()
    }

    /// One change less is left. Where none is, it fails.
    fn change(&mut self) -> Result<(), WriteFault> {
        if self.changes_left == 0 {
            return Err(WriteFault);
        }
        self.changes_left -= 1;
        Ok(())
    }

    /// Takes the file of this word away.
    fn take(&mut self, word: &str) -> Option<String> {
        for place in 0..self.written.len() {
            if self.written[place].0.as_str() == word {
                return Some(self.written.remove(place).1);
            }
        }
        None
    }

    fn keep(&mut self, word: &str, text: &str) -> Result<(), AllocError> {
        let _old = self.take(word);
        let word = String::from_str(self.alloc, word)?;
        let text = String::from_str(self.alloc, text)?;
        self.written.push((word, text))?;
        Ok(())
    }

    fn note(&mut self, word: &str, text: &str) -> Result<(), AllocError> {
        let word = String::from_str(self.alloc, word)?;
        let text = String::from_str(self.alloc, text)?;
        self.renamed.push((word, text))?;
        Ok(())
    }
}

impl TextFiles for FakeFiles<'_> {
    // Nothing is promised of what these files hold.
    ghost gives = { λ files word given. Unit {0} };

    fn text(&self, word: &str) -> Result<String, UnreadFile> {
        if let Some(text) = self.text_at(word) {
            return String::from_str(self.alloc, text).map_err(|_| UnreadFile::Memory);
        }
        for (name, text) in self.texts {
            if *name == word {
                return String::from_str(self.alloc, text).map_err(|_| UnreadFile::Memory);
            }
        }
        Err(UnreadFile::NoText)
    }
}

impl WritesFiles for FakeFiles<'_> {
    // Nor of what they take.
    ghost takes = { λ before word text answer after. Unit {0} };

    ghost pours = { λ before word text answer after. Unit {0} };

    ghost leads = { λ files word answer. Unit {0} };

    ghost renames = { λ before from to answer after. Unit {0} };

    ghost removes = { λ before word answer after. Unit {0} };

    ghost holds = { λ before word answer after. Unit {0} };

    fn write(&mut self, word: &str, text: &str) -> Result<(), WriteFault> {
        self.change()?;
        self.keep(word, text).map_err(|_| WriteFault)
    }

    fn pour(&mut self, word: &str, text: &str) -> Result<(), WriteFault> {
        self.write(word, text)
    }

    fn rename(&mut self, from: &str, to: &str) -> Result<(), WriteFault> {
        self.change()?;
        let Some(text) = self.take(from) else {
            return Err(WriteFault);
        };
        self.keep(to, text.as_str()).map_err(|_| WriteFault)?;
        self.note(to, text.as_str()).map_err(|_| WriteFault)
    }

    fn remove(&mut self, word: &str) -> Result<(), WriteFault> {
        self.change()?;
        match self.take(word) {
            Some(_) => Ok(()),
            None => Err(WriteFault),
        }
    }

    fn hold(&mut self, word: &str) -> Result<(), HoldFault> {
        if self.is_held {
            return Err(HoldFault);
        }
        self.held
            .push(String::from_str(self.alloc, word).map_err(|_| HoldFault)?)
            .map_err(|_| HoldFault)
    }

    fn place(&self, word: &str) -> Result<Place, PlaceFault> {
        if self.has_stream {
            return Ok(Place::Stream);
        }
        let path = String::from_str(self.alloc, word).map_err(|_| PlaceFault::Memory)?;
        match self.text(word) {
            Ok(_) => Ok(Place::File(path)),
            Err(_) => Ok(Place::Free(path)),
        }
    }
}
