//! The boards that stories are told of.
use crate::sample::SAMPLE;
use cfg_records::{BoardFile, sample_board};
use std::alloc::{AllocError, Global};
use text_board::{FileFault, TOP, read_board};

/// What stands behind a line's word, where the line is one of the board's.
fn board_line(line: &str) -> Option<&str> {
    line.strip_prefix("board ")
}

/// Whether a board file has a field of this name.
fn is_field(name: &str) -> bool {
    for row in TOP.iter() {
        if row.0.word() == name {
            return true;
        }
    }
    false
}

/// Whether what stands behind `board` gives a field of a board file, or goes on with a list that a line before began.
pub fn is_of_board(own: &str) -> bool {
    match own.split_once(" = ") {
        Some((field, _)) => is_field(field) || own.starts_with("{"),
        None => own == "]",
    }
}

/// Whether a line of the story gives the field.
fn is_given(story: &str, field: &str) -> bool {
    for line in story.lines() {
        if let Some((own, _)) = board_line(line).unwrap_or("").split_once(" = ") {
            if own == field {
                return true;
            }
        }
    }
    false
}

/// Appends the lines that the story gives. Gives whether there are any.
fn push_given(file: &mut String, story: &str) -> Result<bool, AllocError> {
    let mut any = false;
    for line in story.lines() {
        if let Some(own) = board_line(line) {
            file.push_str(own)?;
            file.push_str("\n")?;
            any = true;
        }
    }
    Ok(any)
}

/// Appends the sample board's own fields but those that the story gives.
fn push_fields(file: &mut String, story: &str) -> Result<(), AllocError> {
    let (fields, _) = SAMPLE.split_once("\n[").unwrap_or((SAMPLE, ""));
    for line in fields.lines() {
        let (field, _) = line.split_once(" = ").unwrap_or((line, ""));
        if !is_given(story, field) {
            file.push_str(line)?;
            file.push_str("\n")?;
        }
    }
    Ok(())
}

/// The field that the table is of: `[sensor]]` and what follows, behind its first bracket, is of `sensor`.
fn field_of(table: &str) -> &str {
    let (head, _) = table.split_once(']').unwrap_or((table, ""));
    head.trim_start_matches('[')
}

/// Appends the sample board's tables but those of fields that the story gives.
fn push_tables(file: &mut String, story: &str) -> Result<(), AllocError> {
    let (_, tables) = SAMPLE.split_once("\n[").unwrap_or((SAMPLE, ""));
    for table in tables.split("\n[") {
        if !is_given(story, field_of(table)) {
            file.push_str("[")?;
            file.push_str(table)?;
            file.push_str("\n")?;
        }
    }
    Ok(())
}

/// Appends the lines that the story gives, and the sample board's fields and tables but those that it gives. Gives whether there are any.
fn push_board(file: &mut String, story: &str) -> Result<bool, AllocError> {
    if !push_given(file, story)? {
        return Ok(false);
    }
    push_fields(file, story)?;
    push_tables(file, story)?;
    Ok(true)
}

/// The text of the story's board, if it gives any line of one.
fn board_text(alloc: Global, story: &str) -> Result<Option<String>, AllocError> {
    let mut file = String::new(alloc);
    match push_board(&mut file, story) {
        Ok(true) => Ok(Some(file)),
        Ok(false) => Ok(None),
        Err(refused) => Err(refused),
    }
}

/// The sample board.
fn sample_of(alloc: Global) -> Result<BoardFile, FileFault> {
    match sample_board(alloc) {
        Ok(file) => Ok(file),
        Err(_) => Err(FileFault::Memory),
    }
}

/// The board of this text.
fn board_in(alloc: Global, text: String) -> Result<BoardFile, FileFault> {
    let board = read_board(alloc, text.as_str());
    drop(text);
    board
}

/// The board of the story's lines `board FIELD = VALUE`: the sample board, with these fields in place of its own.
pub fn board_of(alloc: Global, story: &str) -> Result<BoardFile, FileFault> {
    match board_text(alloc, story) {
        Ok(Some(text)) => board_in(alloc, text),
        Ok(None) => sample_of(alloc),
        Err(_) => Err(FileFault::Memory),
    }
}
