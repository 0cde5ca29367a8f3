//! What runs write to, and how they end.
use app_base::Console;
use std::alloc::Global;
use std::io;
use stories::NoOutcome;

/// What a writer was given, and how many of its calls are left before the one that fails, if one is to fail.
#[derive(Drop)]
pub struct Sheet {
    text: Vec<u8>,
    left: Option<usize>,
}

impl io::Write for Sheet {
    fn write(&mut self, buf: &[u8]) -> io::Result<usize> {
        match self.left {
            Some(0) => {
                // The next call doesn't fail.
                self.left = None;
                return Err(io::Error::from(io::ErrorKind::BrokenPipe));
            }
            Some(left) => self.left = Some(left - 1),
            None => {}
        }
        // A writer may take less than it is given.
        let taken = buf.len().min(7);
        self.text.extend_from_slice(&buf[..taken])?;
        Ok(taken)
    }

    fn flush(&mut self) -> io::Result<()> {
        Ok(())
    }
}

/// An empty sheet, whose writer doesn't fail.
pub fn new_sheet(alloc: Global) -> Sheet {
    Sheet {
        text: Vec::new(alloc),
        left: None,
    }
}

/// Appends what was written, behind a line that says whether anything was.
pub fn push_sheet(came: &mut String, sheet: &Sheet) -> Result<(), NoOutcome> {
    let Ok(text) = str::from_utf8(sheet.text.as_slice()) else {
        return Err(NoOutcome::Unread);
    };
    let head = if text.is_empty() { "nothing" } else { "noted" };
    write!(came, "{head}\n{text}")?;
    Ok(())
}

/// Standard output and standard error.
pub type Paper = Console<Sheet, Sheet>;

/// An empty paper, each of whose writers fails behind so many calls, if it does.
pub fn new_paper(alloc: Global, out: Option<usize>, err: Option<usize>) -> Paper {
    let out = Sheet {
        text: Vec::new(alloc),
        left: out,
    };
    let err = Sheet {
        text: Vec::new(alloc),
        left: err,
    };
    Console::new(out, err)
}

/// Which streams were written to, and whether the last line has no end.
fn streams_of(out: &str, err: &str) -> &'static str {
    match (out.is_empty(), err.is_empty()) {
        (true, true) => "",
        (false, true) if out.ends_with('\n') => " out",
        (false, true) => " out cut",
        (true, false) if err.ends_with('\n') => " err",
        (true, false) => " err cut",
        (false, false) => " out err",
    }
}

/// Appends the status, which streams were written to, and what was written.
pub fn push_ending(came: &mut String, status: u8, paper: &Paper) -> Result<(), NoOutcome> {
    let out = str::from_utf8(paper.out.text.as_slice());
    let err = str::from_utf8(paper.err.text.as_slice());
    let (Ok(out), Ok(err)) = (out, err) else {
        return Err(NoOutcome::Unread);
    };
    let streams = streams_of(out, err);
    let end = if streams.ends_with("cut") { "\n" } else { "" };
    write!(came, "{status}{streams}\n{out}{err}{end}")?;
    Ok(())
}
