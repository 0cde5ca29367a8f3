//! What a line of a story stands for: lines that come several times, and pieces of lines that do, or that count.
use stories::NoOutcome;

/// The first word, and the words behind it.
pub fn parted(words: &str) -> (&str, &str) {
    words.split_once(' ').unwrap_or((words, ""))
}

/// The number in the copy of this place: `5+2` is 5, then 7, and `5-1` is 5, then 4.
fn counted(word: &str, place: u32) -> Result<u32, NoOutcome> {
    if let Some((first, step)) = word.split_once('+') {
        let more = step.parse::<u32>()?.wrapping_mul(place);
        return Ok(first.parse::<u32>()?.wrapping_add(more));
    }
    let (first, step) = word.split_once('-').ok_or(NoOutcome::Unread)?;
    let less = step.parse::<u32>()?.wrapping_mul(place);
    Ok(first.parse::<u32>()?.wrapping_sub(less))
}

/// Appends what stands in braces: `3*00` is `000000`, `5+2` counts in decimal digits, and `x5+2` in two hexadecimal ones.
fn push_counted(text: &mut String, word: &str, place: u32) -> Result<(), NoOutcome> {
    if let Some((times, piece)) = word.split_once('*') {
        for _ in 0..times.parse::<u32>()? {
            text.push_str(piece)?;
        }
        return Ok(());
    }
    match word.strip_prefix('x') {
        Some(word) => write!(text, "{:02X}", counted(word, place)?)?,
        None => write!(text, "{}", counted(word, place)?)?,
    }
    Ok(())
}

/// Appends the line of the copy of this place, in which comes for what stands in braces what that stands for, and its end.
fn push_line(text: &mut String, line: &str, place: u32) -> Result<(), NoOutcome> {
    let mut pieces = line.split('{');
    text.push_str(pieces.next().unwrap_or(""))?;
    for piece in pieces {
        let (word, behind) = piece.split_once('}').ok_or(NoOutcome::Unread)?;
        push_counted(text, word, place)?;
        text.push_str(behind)?;
    }
    text.push_str("\n")?;
    Ok(())
}

/// Appends the lines of the copy of this place.
fn push_copy(text: &mut String, lines: &str, place: u32) -> Result<(), NoOutcome> {
    for line in lines.split(" / ") {
        push_line(text, line, place)?;
    }
    Ok(())
}

/// How often the lines come, and the lines: `3 x tick` is three times `tick`. An empty line comes never.
fn times_of(line: &str) -> (u32, &str) {
    if let Some((digits, lines)) = line.split_once(" x ") {
        if let Ok(times) = digits.parse::<u32>() {
            return (times, lines);
        }
    }
    (if line.is_empty() { 0 } else { 1 }, line)
}

/// Appends the lines that a line of a story stands for.
pub fn push_lines(text: &mut String, line: &str) -> Result<(), NoOutcome> {
    let (times, lines) = times_of(line);
    for place in 0..times {
        push_copy(text, lines, place)?;
    }
    Ok(())
}
