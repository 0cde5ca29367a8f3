//! The words of a line, and what their names mean.
ghost use Rattle.std.specs.Prelude.{◌≡◌, IfOk, map};
ghost use Rattle.text_lines.specs.ScheduleText.{lines_of, words_of, IsNumber};
ghost use Rattle.text_lines.specs.EventLine.{call_name};
ghost use Rattle.text_lines.specs.Reads.{FindsOne};

use model_undo::Call;
use std::alloc::{AllocError, Global};

/// The most digits of a frame's number.
const MOST_DIGITS: usize = 9;

/// The lines of a text: as many as line feeds, and one. Their room is asked for once.
pub fn lines(alloc: Global, text: &str) -> Result<Vec<&str>, AllocError>
    ensures { IfOk result (λ lines. map (λ x. x.now) lines.items ≡ lines_of text.now) }
{
    let mut lines = Vec::with_capacity(alloc, text.split('\n').count())?;
    lines.extend(text.split('\n'))?;
    Ok(lines)
}

/// The words of a line: what stands between two spaces, also where that is nothing. Their room is asked for once.
pub fn words(alloc: Global, line: &str) -> Result<Vec<&str>, AllocError>
    ensures { IfOk result (λ words. map (λ x. x.now) words.items ≡ words_of line.now) }
{
    let mut words = Vec::with_capacity(alloc, line.split(' ').count())?;
    words.extend(line.split(' '))?;
    Ok(words)
}

/// The call's name.
pub fn call_name(call: Call) -> &'static str
    ensures { result.now ≡ call_name call }
{
    match call {
        Call::Start => "start",
        Call::Quiet => "quiet",
        Call::Stop => "stop",
        Call::Again => "again",
        Call::Undo => "undo",
    }
}

/// The call of this name.
pub fn find_call(name: &str) -> Option<Call>
    ensures { FindsOne (λ call. name.now ≡ call_name call) result }
{
    match name {
        "start" => Some(Call::Start),
        "quiet" => Some(Call::Quiet),
        "stop" => Some(Call::Stop),
        "again" => Some(Call::Again),
        "undo" => Some(Call::Undo),
        _ => None,
    }
}

/// The frame's number in 1 to 9 decimal digits.
pub fn frame_number(digits: &str) -> Option<u32>
    ensures { FindsOne (IsNumber 9 digits.now) result }
{
    crate::decimals::number(digits, MOST_DIGITS)
}
