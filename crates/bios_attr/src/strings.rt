//! The strings of a board's attributes.
ghost use Rattle.std.specs.Prelude.{◌≡◌, ◌≤◌, OnOk, IfOk, length};
ghost use Rattle.std.specs.List.{list_any, position};
ghost use Rattle.bios_attr.specs.Attributes.{is_text, with_text, with_texts, texts_of, strings_of, handle_of};

use record_base::{Attribute, AttributeKind, Text};
use std::alloc::{AllocError, Global};

/// Whether the texts are one.
fn is_text(text: &Text, other: &Text) -> bool
    ensures { result ≡ is_text text.now other.now }
{
    other.as_slice() == text.as_slice()
}

/// Where the text stands among the strings.
fn place_of(strings: &[Text], text: &Text) -> Option<usize>
    ensures { result ≡ position (is_text text.now) strings.now }
{
    strings.iter().position(|other| is_text(text, other))
}

/// The handle of a text: its place among the strings.
pub(crate) fn handle_of(strings: &[Text], text: &Text) -> usize
    ensures value { result ≡ handle_of strings.now text.now }
    ensures few { result ≤ length strings.now }
{
    place_of(strings, text).unwrap_or(0)
}

/// Whether the text is among the strings.
fn is_there(strings: &[Text], text: &Text) -> bool
    ensures { result ≡ list_any (is_text text.now) strings.now }
{
    strings.iter().any(|other| is_text(text, other))
}

/// Puts a text behind the strings, unless it is among them.
fn push_text(strings: &mut Vec<Text>, text: &Text) -> Result<(), AllocError>
    ensures { OnOk result (strings.new.items ≡ with_text strings.old.items text.now) }
{
    if is_there(strings.as_slice(), text) {
        return Ok(());
    }
    let Ok(()) = strings.push(text.copy()) else {
        return Err(AllocError);
    };
    Ok(())
}

/// Puts texts behind the strings, each unless it is among them.
fn push_texts(strings: &mut Vec<Text>, texts: &[Text]) -> Result<(), AllocError>
    ensures { OnOk result (strings.new.items ≡ with_texts strings.old.items texts.now) }
{
    for text in texts {
        push_text(strings, text)?;
    }
    Ok(())
}

/// Puts the texts that an attribute uses behind the strings.
fn push_attribute(strings: &mut Vec<Text>, attribute: &Attribute) -> Result<(), AllocError>
    ensures { OnOk result (strings.new.items
        ≡ with_texts strings.old.items (texts_of attribute.now)) }
{
    push_text(strings, &attribute.name)?;
    match &attribute.kind {
        AttributeKind::Enumeration(enumeration) => {
            push_texts(strings, enumeration.values.as_slice())
        }
        _ => Ok(()),
    }
}

/// The strings of attributes: their distinct texts, in order of first use.
pub(crate) fn strings_of(alloc: Global, attributes: &[Attribute]) -> Result<Vec<Text>, AllocError>
    ensures { IfOk result (λ strings. strings.items ≡ strings_of attributes.now) }
{
    let mut strings = Vec::new(alloc);
    for attribute in attributes {
        push_attribute(&mut strings, attribute)?;
    }
    Ok(strings)
}
