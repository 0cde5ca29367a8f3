//! Places in a schedule among the words.
ghost use Rattle.std.specs.Prelude.{ℕ, List, IfOk, IfSome, IfNone, MatchOption};
ghost use Rattle.text_lines.specs.Cuts.{CutsAt, LacksByte};
ghost use Rattle.app_bmclab.specs.Places.{comma, IsPlaceAbove, NamesAbove};

use std::alloc::{AllocError, Global};
use text_lines::plain_number;

/// What stands before the first comma of the word, and what behind it.
fn cut_at_comma(word: &str) -> Option<(&str, &str)>
    ensures some { IfSome result (λ parts. CutsAt comma word.now parts.0.now parts.1.now) }
    ensures none { IfNone result (LacksByte comma word.now) }
{
    word.split_once(',')
}

/// The place that the word is in decimal digits, if it is above that one.
fn place_above(low: usize, word: &str) -> Option<usize>
    ensures some { IfSome result (IsPlaceAbove low word.now) }
    ensures none { IfNone result ((place : ℕ) → ¬ IsPlaceAbove low word.now place) }
{
    let Some(number) = plain_number(word) else {
        return None;
    };
    let place = number as usize;
    if place > low { Some(place) } else { None }
}

/// The places that the word names: decimal numbers from 1, each above the one before it, with a comma between two.
pub fn places_of(alloc: Global, word: &str) -> Result<Option<Vec<usize>>, AllocError>
    ensures { IfOk result (λ found. MatchOption found
        ((places : List ℕ) → ¬ NamesAbove 0 word.now places)
        (λ places. NamesAbove 0 word.now places.items)) }
{
    let mut places = Vec::new(alloc);
    let mut low = 0;
    let mut rest = word;
    while let Some((first, behind)) = cut_at_comma(rest) {
        let Some(place) = place_above(low, first) else {
            return Ok(None);
        };
        places.push(place)?;
        low = place;
        rest = behind;
    }
    let Some(last) = place_above(low, rest) else {
        return Ok(None);
    };
    places.push(last)?;
    Ok(Some(places))
}
