//! The version of an undo text, on its first line.
ghost use Rattle.std.specs.Prelude.{◌≡◌, ◌≢◌, ◌++◌, ℕ, List, IfSome, IfNone};
ghost use Rattle.text_lines.specs.Cuts.{ended};
ghost use Rattle.text_lines.specs.declared.undo_version.Version.{Version as AnyVersion};
ghost use Rattle.text_lines.specs.Versions.{version_line, head_length};

use crate::cut::behind;

/// The version of a text.
#[derive(Clone, Copy)]
pub enum Version {
    /// The text has no names.
    One,
    /// The text has the names of the manager and of the controller.
    Two,
}

/// The first line of version 1, and the line feed that ends it.
const FIRST: &str = "undo 1\n";

/// The first line of version 2.
const SECOND: &str = "undo 2\n";

/// The version on the first line of the text, and the text behind that line.
pub fn first_version(text: &str) -> Option<(Version, &str)>
    ensures some { IfSome result
        (λ found. text.now ≡ ended (version_line found.0) ++ found.1.now) }
    ensures none { IfNone result ((version : AnyVersion) (rest : List ℕ)
        → text.now ≢ ended (version_line version) ++ rest) }
{
    if let Some(rest) = behind(FIRST, text) {
        return Some((Version::One, rest));
    }
    if let Some(rest) = behind(SECOND, text) {
        return Some((Version::Two, rest));
    }
    None
}

/// How many lines stand in front of the requests.
pub fn head_lines(version: Version) -> usize
    ensures { result ≡ head_length version }
{
    match version {
        Version::One => 2,
        Version::Two => 3,
    }
}

impl Version {
    /// The first line of its texts, and the line feed that ends it.
    pub fn line(self) -> &'static str
        ensures { result.now ≡ ended (version_line self) }
    {
        match self {
            Version::One => FIRST,
            Version::Two => SECOND,
        }
    }
}
