//! Lines on records whose sensor or attribute has a name.
ghost use Rattle.std.specs.Prelude.{◌≡◌, ◌++◌, List, OnOk, ℕ, string_bytes};
ghost use Rattle.std.specs.Option.{option_map};
ghost use Rattle.record_words.specs.NamedWords.{IsNamed};

use crate::name::Subject;
use crate::quoted::Quoted;
use record_base::Key;
use std::alloc::{AllocError, Global};

/// Adds what is said of a record, with the name of its sensor or attribute behind the number, in quotes: `sensor 5 ("CPU 1 temp") upper
/// critical: 90 (5Ah)`.
pub fn push_named(
    alloc: Global,
    text: &mut String,
    key: &Key,
    name: Option<&[u8]>,
    said: &str,
) -> Result<(), AllocError>
    ensures { OnOk result ((shown : List ℕ)
        × IsNamed key.now (option_map (λ name. name.now) name.entry) said.now shown
        × (string_bytes text.new ≡ string_bytes text.old ++ shown)) }
{
    let Some(name) = name else {
        return text.push_str(said);
    };
    let subject = Subject(*key);
    let quoted = Quoted(name);
    let front = format!(in alloc; "{subject}")?;
    match said.strip_prefix(front.as_str()) {
        Some(rest) => write!(text, "{front} ({quoted}){rest}"),
        None => text.push_str(said),
    }
}
