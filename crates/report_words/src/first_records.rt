//! What a board begins with, as a list of its changed records wants it.
ghost use Rattle.std.specs.Prelude.{◌≡◌, ◌==◌, ◌∷◌, ◌++◌, [], find, not, IfOk, OnOk, string_bytes};
ghost use Rattle.std.specs.List.{flat_map};
ghost use Rattle.text_lines.specs.Cuts.{ended};
ghost use Rattle.cfg_records.specs.declared.board_file.BoardFile.{BoardFile as AnyFile};
ghost use Rattle.cfg_records.specs.Changed.{is_value};
ghost use Rattle.record_words.specs.OpWords.{words_of};
ghost use Rattle.report_words.specs.Changes.{AreFirstOf, change_line, change_told, changed_lines, held, lines_over, type_at, type_of, types_of};

use crate::board_names::BoardNames;
use cfg_records::{BoardFile, Key, StartValue, Store};
use record_base::AtOnce;
use record_words::{InWords, change_in_words, push_named};
use std::alloc::{AllocError, Global};

/// The records of a board as they begin, in its order, the types of its attributes, and the names of its sensors and attributes.
#[derive(Drop)]
pub(crate) struct FirstRecords {
    start: Vec<(Key, StartValue)>,
    /// Of each attribute its handle and its type.
    types: Vec<(u16, u8)>,
    names: BoardNames,
}

/// Of each attribute of the board its handle and its type.
fn types_of(alloc: Global, file: &BoardFile) -> Result<AtOnce<(u16, u8)>, AllocError>
    ensures { IfOk result (λ types. types.items.items ≡ types_of file.now) }
{
    let attributes = file.attributes.items.as_slice();
    attributes
        .iter()
        .map(|a| (a.handle, a.kind.type_code()))
        .collect(alloc)
}

/// The attribute that has this handle, with its type.
fn typed(types: &[(u16, u8)], handle: u16) -> Option<(u16, u8)>
    ensures { result ≡ find (λ typed. typed.0 == handle) types.now }
{
    types.iter().copied().find(|typed| typed.0 == handle)
}

/// The type of the attribute that has this handle, and 0 where there is none.
fn type_of(types: &[(u16, u8)], handle: u16) -> u8
    ensures { result ≡ type_of types.now handle }
{
    match typed(types, handle) {
        Some((_, code)) => code,
        None => 0,
    }
}

/// The type of the record's attribute, where it is the record of one.
fn type_at(types: &[(u16, u8)], key: &Key) -> u8
    ensures { result ≡ type_at types.now key.now }
{
    match key {
        Key::BiosAttribute(handle) => type_of(types, *handle),
        _ => 0,
    }
}

/// Whether the store has another value at the key of this record.
fn is_changed<S: Store>(store: &S, first: &(Key, StartValue)) -> bool
    ensures { result ≡ not (is_value first.now.1 (S.records store.now first.now.0)) }
{
    match store.get(&first.0) {
        Some(value) => value != first.1.as_slice(),
        None => true,
    }
}

/// What the store has at the key.
fn held<'a, S: Store>(store: &'a S, key: &Key) -> &'a [u8]
    ensures { result.now ≡ held (S.records store.now key.now) }
{
    match store.get(key) {
        Some(value) => value,
        None => &[],
    }
}

/// What is told of a record: what it began with, and what the store has.
fn told_change<'a, S: Store>(
    types: &[(u16, u8)],
    store: &'a S,
    first: &'a (Key, StartValue),
) -> InWords<'a>
    ensures { words_of result ≡ change_told types.now (S.records store.now) first.now }
{
    let (key, old) = first;
    change_in_words(key, type_at(types, key), old.as_slice(), held(store, key))
}

/// Adds what is told of a record, with the name of its sensor or attribute.
fn push_told<S: Store>(
    text: &mut String,
    types: &[(u16, u8)],
    names: &BoardNames,
    store: &S,
    first: &(Key, StartValue),
) -> Result<(), AllocError>
    ensures { OnOk result (string_bytes text.new ≡ string_bytes text.old
        ++ change_line types.now names.now (S.records store.now) first.now) }
{
    let alloc = *text.allocator();
    let change = told_change(types, store, first);
    let told = format!(in alloc; "{change}")?;
    let key = &first.0;
    push_named(alloc, text, key, names.name_of(key), told.as_str())
}

/// Adds the line of a record.
fn push_change<S: Store>(
    text: &mut String,
    types: &[(u16, u8)],
    names: &BoardNames,
    store: &S,
    first: &(Key, StartValue),
) -> Result<(), AllocError>
    ensures { OnOk result (string_bytes text.new ≡ string_bytes text.old
        ++ ended (change_line types.now names.now (S.records store.now) first.now)) }
{
    push_told(text, types, names, store, first)?;
    text.push_str("\n")
}

/// Adds that line, where the store has another value.
fn push_changed<S: Store>(
    text: &mut String,
    types: &[(u16, u8)],
    names: &BoardNames,
    store: &S,
    first: &(Key, StartValue),
) -> Result<(), AllocError>
    ensures { OnOk result (string_bytes text.new ≡ string_bytes text.old
        ++ flat_map ended
        (lines_over types.now names.now (S.records store.now) (first.now ∷ []))) }
{
    if is_changed(store, first) {
        push_change(text, types, names, store, first)
    } else {
        Ok(())
    }
}

/// Adds that of each of these records, where the store has another value.
fn push_each<S: Store>(
    text: &mut String,
    types: &[(u16, u8)],
    names: &BoardNames,
    store: &S,
    start: &[(Key, StartValue)],
) -> Result<(), AllocError>
    ensures { OnOk result (string_bytes text.new ≡ string_bytes text.old
        ++ flat_map ended (lines_over types.now names.now (S.records store.now) start.now)) }
{
    for first in start {
        push_changed(text, types, names, store, first)?;
    }
    Ok(())
}

impl FirstRecords {
    /// Those of the board of a file.
    pub(crate) fn of(alloc: Global, file: &BoardFile) -> Result<FirstRecords, AllocError>
        ensures { IfOk result (AreFirstOf file.now) }
    {
        let start = file.records(alloc)?;
        let types = types_of(alloc, file)?.items;
        let names = BoardNames::of(alloc, file)?;
        Ok(FirstRecords {
            start,
            types,
            names,
        })
    }

    /// Adds a line for each record that has another value in the store: what it began with, and what it has. The lines come in the board's order.
    pub(crate) fn push_changes<S: Store>(
        &self,
        text: &mut String,
        store: &S,
    ) -> Result<(), AllocError>
        ensures { (file : AnyFile) → AreFirstOf file self.now
            → OnOk result (string_bytes text.new ≡ string_bytes text.old
            ++ flat_map ended (changed_lines file (S.records store.now))) }
    {
        let types = self.types.as_slice();
        push_each(text, types, &self.names, store, self.start.as_slice())
    }
}
