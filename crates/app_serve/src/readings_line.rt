//! The lines of a text of readings.
ghost use Rattle.std.specs.Prelude.{◌∷◌, [], map, IfOk};
ghost use Rattle.text_lines.specs.Reads.{FindsOne};
ghost use Rattle.app_serve.specs.ReadingsLine.{IsTime, AreWordsOf, SayTimed, IsReadingLine};

use bmc_board::Bench;
use bmc_ports::Timed;
use std::alloc::{AllocError, Global};
use text_lines::{byte, words};
use two_wire::Below;

/// The first number that has another bit set than bits 4:0.
const END_OF_STATES: u8 = 32;

/// The milliseconds that the word is in decimal digits.
fn milliseconds(word: &str) -> Option<u64>
    ensures { FindsOne (IsTime word.now) result }
{
    if word.starts_with('+') {
        return None;
    }
    word.parse().ok()
}

/// What one word says.
fn tick(word: &str) -> Option<Bench>
    ensures { FindsOne (AreWordsOf (word.now ∷ [])) result }
{
    match word {
        "tick" => Some(Bench::Tick),
        _ => None,
    }
}

/// What the word `chassis` and a state say.
fn chassis(word: &str, state: &str) -> Option<Bench>
    ensures { FindsOne (AreWordsOf (word.now ∷ state.now ∷ [])) result }
{
    if word != "chassis" {
        return None;
    }
    let state = byte(state)?;
    if state >= END_OF_STATES {
        return None;
    }
    Some(Bench::Chassis(Below::new(state)))
}

/// What the word `scan`, a sensor and a reading say.
fn scan(word: &str, sensor: &str, raw: &str) -> Option<Bench>
    ensures { FindsOne (AreWordsOf (word.now ∷ sensor.now ∷ raw.now ∷ [])) result }
{
    if word != "scan" {
        return None;
    }
    let sensor = byte(sensor)?;
    let raw = byte(raw)?;
    Some(Bench::Reading { sensor, raw })
}

/// What the words say.
fn bench(words: &[&str]) -> Option<Bench>
    ensures { FindsOne (AreWordsOf (map (λ x. x.now) words.now)) result }
{
    match *words {
        [word] => tick(word),
        [word, state] => chassis(word, state),
        [word, sensor, raw] => scan(word, sensor, raw),
        _ => None,
    }
}

/// What the words say, the first of which is its time.
fn timed(words: &[&str]) -> Option<Timed>
    ensures { FindsOne (SayTimed (map (λ x. x.now) words.now)) result }
{
    let [time, what @ ..] = words else {
        return None;
    };
    let at_ms = milliseconds(time)?;
    let Some(event) = bench(what) else {
        return None;
    };
    Some(Timed { at_ms, event })
}

/// What the line says.
pub fn read_line(alloc: Global, line: &str) -> Result<Option<Timed>, AllocError>
    ensures { IfOk result (λ found. FindsOne (IsReadingLine line.now) found) }
{
    let words = words(alloc, line)?;
    Ok(timed(words.as_slice()))
}
