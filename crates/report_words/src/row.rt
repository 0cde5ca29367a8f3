//! What is said of a completion code.
ghost use Rattle.std.specs.Prelude.{◌≡◌};

/// What the codes are called that a command has for itself.
pub(crate) const OF_COMMAND: &str = "particular to a command";

/// What is said of a completion code: what its standard calls it, what it says here, and what to do about it, if anything.
#[derive(Clone, Copy)]
pub struct CodeRow {
    pub name: &'static str,
    pub meaning: &'static str,
    pub advice: &'static str,
}

/// The row of these words.
pub(crate) fn row(name: &'static str, meaning: &'static str, advice: &'static str) -> CodeRow
    ensures { result.name.now ≡ name.now }
{
    CodeRow {
        name,
        meaning,
        advice,
    }
}
