//! The line of the names.
ghost use Rattle.std.specs.Prelude.{◌≡◌, ◌≢◌, ◌++◌, ◌∷◌, [], ℕ, List, Ok, IfSome, IfNone, OnOk, string_bytes};
ghost use Rattle.std.specs.List.{flat_map};
ghost use Rattle.hex.specs.Hex.{decode_of};
ghost use Rattle.text_lines.specs.Cuts.{space, ended};
ghost use Rattle.undo_plans.specs.declared.names.Names.{Names as AnyNames};
ghost use Rattle.text_lines.specs.declared.undo_version.Version.TheVariants.{Two};
ghost use Rattle.text_lines.specs.UndoText.{IsPair, AreEven, IsNamesLine, AreNamesLines, BeginsWith, version_of, pair_of, names_line, names_lines};

use crate::cut::{behind, first_line, first_word};
use crate::spelt::byte;
use crate::undo_version::Version;
use std::alloc::{AllocError, Global};
use two_wire::Address;
use undo_plans::Names;

/// The line of the names, up to the first address.
const NAMES_IPMB: &str = "names ipmb ";

/// What stands between the addresses on IPMB and those on SMBus, behind the first space.
const SMBUS: &str = "smbus ";

/// What stands between those and the endpoint identifiers, behind the first space.
const EID: &str = "eid ";

/// The manager's address on a bus, and the controller's.
#[derive(Clone, Copy)]
struct Places {
    own: Address,
    peer: Address,
}

/// The byte of the text's first word, and what stands behind the space that ends it.
fn first_byte(text: &str) -> Option<(u8, &str)>
    ensures some { IfSome result (λ found. (digits : List ℕ)
        × (decode_of digits ≡ Ok (found.0 ∷ [])) × (text.now ≡ digits ++ space ∷ found.1.now)) }
    ensures none { IfNone result ((digits : List ℕ) (byte : ℕ) (rest : List ℕ)
        → decode_of digits ≡ Ok (byte ∷ []) → text.now ≢ digits ++ space ∷ rest) }
{
    let Some(parts) = first_word(text) else {
        return None;
    };
    match byte(parts.0) {
        Some(number) => Some((number, parts.1)),
        None => None,
    }
}

/// The two addresses of the text's first two words, and what stands behind the space that ends the second.
fn first_places(text: &str) -> Option<(Places, &str)>
    ensures some { IfSome result
        (λ found. (words : List ℕ) × (text.now ≡ words ++ space ∷ found.1.now)
        × IsPair words found.0.own found.0.peer × AreEven found.0.own found.0.peer) }
    ensures none { IfNone result ((words : List ℕ) (own peer : ℕ) (rest : List ℕ)
        → IsPair words own peer → AreEven own peer → text.now ≢ words ++ space ∷ rest) }
{
    let Some(first) = first_byte(text) else {
        return None;
    };
    let Some(second) = first_byte(first.1) else {
        return None;
    };
    let Some(own) = Address::new(first.0) else {
        return None;
    };
    match Address::new(second.0) {
        Some(peer) => Some((Places { own, peer }, second.1)),
        None => None,
    }
}

/// The two endpoint identifiers that the words are.
fn eids(words: &str) -> Option<(u8, u8)>
    ensures some { IfSome result (λ found. IsPair words.now found.0 found.1) }
    ensures none { IfNone result ((own peer : ℕ) → ¬ IsPair words.now own peer) }
{
    let Some(first) = first_byte(words) else {
        return None;
    };
    match byte(first.1) {
        Some(peer) => Some((first.0, peer)),
        None => None,
    }
}

/// The names that the line has.
fn names(line: &str) -> Option<Names>
    ensures some { IfSome result (λ names. IsNamesLine line.now names) }
    ensures none { IfNone result ((names : AnyNames) → ¬ IsNamesLine line.now names) }
{
    let Some(all) = behind(NAMES_IPMB, line) else {
        return None;
    };
    let Some(ipmb) = first_places(all) else {
        return None;
    };
    let Some(others) = behind(SMBUS, ipmb.1) else {
        return None;
    };
    let Some(smbus) = first_places(others) else {
        return None;
    };
    let Some(last) = behind(EID, smbus.1) else {
        return None;
    };
    let Some(eid) = eids(last) else {
        return None;
    };
    Some(Names {
        own_address: ipmb.0.own,
        peer_address: ipmb.0.peer,
        own_wire: smbus.0.own,
        peer_wire: smbus.0.peer,
        own_eid: eid.0,
        peer_eid: eid.1,
    })
}

/// The names on the first line of the text, and the text behind that line.
fn first_names(text: &str) -> Option<(Names, &str)>
    ensures some { IfSome result
        (λ found. BeginsWith (λ line. IsNamesLine line found.0) text.now found.1.now) }
    ensures none { IfNone result ((more : List ℕ) (names : AnyNames)
        → ¬ BeginsWith (λ line. IsNamesLine line names) text.now more) }
{
    let Some(parts) = first_line(text) else {
        return None;
    };
    match names(parts.0) {
        Some(names) => Some((names, parts.1)),
        None => None,
    }
}

/// The names that the text begins with where it's behind the numbers of this version, and what stands behind their line.
pub fn version_names(version: Version, text: &str) -> Option<(Option<Names>, &str)>
    ensures version { IfSome result (λ found. version_of found.0 ≡ version) }
    ensures some { IfSome result (λ found. (lines : List (List ℕ)) × AreNamesLines lines found.0
        × (text.now ≡ flat_map ended lines ++ found.1.now)) }
    ensures none { IfNone result ((version ≡ Two) × ((more : List ℕ) (names : AnyNames)
        → ¬ BeginsWith (λ line. IsNamesLine line names) text.now more)) }
{
    match version {
        Version::One => Some((None, text)),
        Version::Two => match first_names(text) {
            Some(found) => Some((Some(found.0), found.1)),
            None => None,
        },
    }
}

/// Adds these words and a pair of bytes in upper-case hexadecimal.
fn push_pair(
    alloc: Global,
    text: &mut String,
    words: &str,
    own: u8,
    peer: u8,
) -> Result<(), AllocError>
    ensures text { OnOk result (string_bytes text.new
        ≡ string_bytes text.old ++ (words.now ++ pair_of own peer)) }
    ensures lines { OnOk result (IsPair (pair_of own peer) own peer) }
{
    let own_digits = hex::encode_upper(alloc, [own])?;
    let peer_digits = hex::encode_upper(alloc, [peer])?;
    write!(text, "{words}{own_digits} {peer_digits}")
}

/// Adds the line of the names.
fn push_names(alloc: Global, text: &mut String, names: &Names) -> Result<(), AllocError>
    ensures text { OnOk result (string_bytes text.new
        ≡ string_bytes text.old ++ ended (names_line names.now)) }
    ensures lines { OnOk result (IsNamesLine (names_line names.now) names.now) }
{
    let own = names.own_address.byte();
    push_pair(alloc, text, "names ipmb ", own, names.peer_address.byte())?;
    let own = names.own_wire.byte();
    push_pair(alloc, text, " smbus ", own, names.peer_wire.byte())?;
    push_pair(alloc, text, " eid ", names.own_eid, names.peer_eid)?;
    writeln!(text)
}

/// Adds the line of the names, where there are some.
pub fn push_names_line(
    alloc: Global,
    text: &mut String,
    names: &Option<Names>,
) -> Result<(), AllocError>
    ensures text { OnOk result (string_bytes text.new
        ≡ string_bytes text.old ++ flat_map ended (names_lines names.now)) }
    ensures lines { OnOk result (AreNamesLines (names_lines names.now) names.now) }
{
    match names {
        None => Ok(()),
        Some(names) => push_names(alloc, text, names),
    }
}
