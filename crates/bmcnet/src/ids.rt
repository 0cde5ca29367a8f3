//! Ids of effecters among the words.
ghost use Rattle.std.specs.Prelude.{List, IfOk, IfSome, IfNone, MatchOption};
ghost use Rattle.text_lines.specs.Cuts.{CutsAt, LacksByte};
ghost use Rattle.app_show.specs.declared.keys.IdRange.{IdRange as AnyRange};
ghost use Rattle.bmcnet.specs.Ids.{IsBetween, IsIdRange, NamesRanges, comma, dash};

use crate::number::port_of;
use app_show::IdRange;
use std::alloc::{AllocError, Global};

/// What stands before the first comma of the word, and what behind it.
fn cut_at_comma(word: &str) -> Option<(&str, &str)>
    ensures some { IfSome result (λ parts. CutsAt comma word.now parts.0.now parts.1.now) }
    ensures none { IfNone result (LacksByte comma word.now) }
{
    word.split_once(',')
}

/// What stands before the first dash of the word, and what behind it.
fn cut_at_dash(word: &str) -> Option<(&str, &str)>
    ensures some { IfSome result (λ parts. CutsAt dash word.now parts.0.now parts.1.now) }
    ensures none { IfNone result (LacksByte dash word.now) }
{
    word.split_once('-')
}

/// The ids from the first word up to the second one. An id has as many bits as a port.
fn range_between(front: &str, back: &str) -> Option<IdRange>
    ensures some { IfSome result (IsBetween front.now back.now) }
    ensures none { IfNone result ((range : AnyRange) → ¬ IsBetween front.now back.now range) }
{
    let Some(first) = port_of(front) else {
        return None;
    };
    let Some(last) = port_of(back) else {
        return None;
    };
    if last < first {
        return None;
    }
    Some(IdRange { first, last })
}

/// The ids that the word names: one, or all from a first one up to a last one, with a dash between the two.
fn id_range(word: &str) -> Option<IdRange>
    ensures some { IfSome result (IsIdRange word.now) }
    ensures none { IfNone result ((range : AnyRange) → ¬ IsIdRange word.now range) }
{
    match cut_at_dash(word) {
        Some((front, back)) => range_between(front, back),
        None => range_between(word, word),
    }
}

/// The ids that the word names, with a comma between two ranges.
pub(crate) fn id_ranges(alloc: Global, word: &str) -> Result<Option<Vec<IdRange>>, AllocError>
    ensures { IfOk result (λ found. MatchOption found
        ((ranges : List AnyRange) → ¬ NamesRanges word.now ranges)
        (λ ranges. NamesRanges word.now ranges.items)) }
{
    let mut ranges = Vec::new(alloc);
    let mut rest = word;
    while let Some((first, behind)) = cut_at_comma(rest) {
        let Some(range) = id_range(first) else {
            return Ok(None);
        };
        ranges.push(range)?;
        rest = behind;
    }
    let Some(last) = id_range(rest) else {
        return Ok(None);
    };
    ranges.push(last)?;
    Ok(Some(ranges))
}
