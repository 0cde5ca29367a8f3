//! The lines that are told of a file.
use std::alloc::{AllocError, Global};

/// How many lines of one sort are told of a file.
const MOST_TOLD: usize = 10;

/// What is told of a file: of each sort of line at most ten, and then how many more there are.
#[derive(Drop)]
pub struct Sheet {
    /// The lines.
    pub text: String,
    /// How many lines of this sort there are.
    count: usize,
}

impl Sheet {
    /// A sheet of which nothing is written.
    pub fn new(alloc: Global) -> Sheet {
        Sheet {
            text: String::new(alloc),
            count: 0,
        }
    }

    /// The lines that are told.
    pub fn into_text(self) -> String {
        let Sheet { text, count: _ } = self;
        text
    }

    /// Whether one more line of this sort is told. It is counted if not, too.
    pub fn takes(&mut self) -> bool {
        self.count = self.count.saturating_add(1);
        self.count <= MOST_TOLD
    }

    /// Ends the lines of one sort, which the file of this name has.
    pub fn end(&mut self, name: &str, sort: &str) -> Result<(), AllocError> {
        let more = self.count.saturating_sub(MOST_TOLD);
        self.count = 0;
        match more {
            0 => Ok(()),
            1 => writeln!(self.text, "{name}: and 1 more {sort}"),
            _ => writeln!(self.text, "{name}: and {more} more {sort}s"),
        }
    }
}
