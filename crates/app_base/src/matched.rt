//! What was matched of a command line's words.
ghost use Rattle.std.specs.Prelude.{◌≡◌, IfOk, IfErr, Some, map, option_map, string_bytes};
ghost use Rattle.clap.specs.Words.{all_of, first_of, found_of, one_text, rows_of};
ghost use Rattle.app_base.specs.Asked.{RefusesWords, is_given, says_yes};

use crate::refusal::Refusal;
use clap::ArgMatches;
use std::alloc::Global;

/// A word, kept.
fn kept(alloc: Global, word: &str) -> Result<String, Refusal>
    ensures word { IfOk result (λ kept. string_bytes kept ≡ word.now) }
    ensures memory { IfErr result (λ refusal. refusal ≡ Refusal.Memory) }
{
    match String::from_str(alloc, word) {
        Ok(word) => Ok(word),
        Err(_) => Err(Refusal::Memory),
    }
}

/// The refusal of words that lack one that clap wants. Clap refuses them before.
pub fn lacking(alloc: Global) -> Refusal {
    Refusal::Words(String::new(alloc))
}

/// The word that has this name, where one is given, as it was matched.
pub fn word_of<'a>(matches: &ArgMatches<'a>, name: &str) -> Option<&'a str>
    ensures { option_map (λ word. word.now) result
        ≡ first_of name.now (rows_of (found_of matches.now)) }
{
    matches.get_str(name)
}

/// The word that has this name.
pub fn named(alloc: Global, matches: &ArgMatches, name: &str) -> Result<String, Refusal>
    ensures word { IfOk result
        (λ word. first_of name.now (rows_of (found_of matches.now))
        ≡ Some (string_bytes word)) }
    ensures refused { IfErr result
        (RefusesWords (λ word. first_of name.now (rows_of (found_of matches.now)) ≡ Some word)) }
{
    match word_of(matches, name) {
        Some(word) => kept(alloc, word),
        None => Err(lacking(alloc)),
    }
}

/// The word that has this name, where one is given.
pub fn given(alloc: Global, matches: &ArgMatches, name: &str) -> Result<Option<String>, Refusal>
    ensures word { IfOk result
        (λ word. option_map string_bytes word
        ≡ first_of name.now (rows_of (found_of matches.now))) }
    ensures memory { IfErr result (λ refusal. refusal ≡ Refusal.Memory) }
{
    match word_of(matches, name) {
        Some(word) => Ok(Some(kept(alloc, word)?)),
        None => Ok(None),
    }
}

/// The words, each in memory of its own.
fn all_kept(alloc: Global, words: &[&str]) -> Result<Vec<String>, Refusal>
    ensures words { IfOk result
        (λ kept. map string_bytes kept.items ≡ map (λ word. word.now) words.now) }
    ensures memory { IfErr result (λ refusal. refusal ≡ Refusal.Memory) }
{
    let mut all = Vec::new(alloc);
    for word in words {
        let word = kept(alloc, word)?;
        if all.push(word).is_err() {
            return Err(Refusal::Memory);
        }
    }
    Ok(all)
}

/// The words that have this name.
pub fn all_named(alloc: Global, matches: &ArgMatches, name: &str) -> Result<Vec<String>, Refusal>
    ensures words { IfOk result
        (λ words. all_of name.now (rows_of (found_of matches.now))
        ≡ Some (map string_bytes words.items)) }
    ensures refused { IfErr result
        (RefusesWords (λ words. all_of name.now (rows_of (found_of matches.now)) ≡ Some words)) }
{
    match matches.get_strs(name) {
        Some(words) => all_kept(alloc, words),
        None => Err(lacking(alloc)),
    }
}

/// Whether the text that has this name says yes.
fn has_yes(matches: &ArgMatches, name: &str) -> bool
    ensures { result ≡ says_yes (one_text (found_of matches.now) name.now) }
{
    // `get_flag` promises nothing of a text that is neither `true` nor `false`.
    matches.get_one::<bool>(name).unwrap_or(false)
}

/// Whether the flag of this name is given.
pub fn has_flag(matches: &ArgMatches, name: &str) -> bool
    ensures { result ≡ is_given name.now (rows_of (found_of matches.now)) }
{
    has_yes(matches, name)
}
