//! Columns of a fixed width.
ghost use Rattle.std.specs.Prelude.{◌≡◌, ◌++◌, OnOk, replicate, string_bytes};
ghost use Rattle.app_play.specs.Columns.{at_most, in_column};

use std::alloc::AllocError;

/// Adds so many spaces.
fn push_spaces(text: &mut String, count: usize) -> Result<(), AllocError>
    ensures { OnOk result (string_bytes text.new ≡ string_bytes text.old ++ replicate count 32) }
{
    for _ in 0..count {
        text.push_str(" ")?;
    }
    Ok(())
}

/// Adds so many stars.
fn push_stars(text: &mut String, count: usize) -> Result<(), AllocError>
    ensures { OnOk result (string_bytes text.new ≡ string_bytes text.old ++ replicate count 42) }
{
    for _ in 0..count {
        text.push_str("*")?;
    }
    Ok(())
}

/// Adds what a column holds, or stars where that is too long.
pub(crate) fn push_at_most(text: &mut String, width: usize, cell: &str) -> Result<(), AllocError>
    ensures { OnOk result (string_bytes text.new
        ≡ string_bytes text.old ++ at_most width cell.now) }
{
    if cell.len() <= width {
        text.push_str(cell)
    } else {
        push_stars(text, width)
    }
}

/// Adds what a column holds, and spaces up to its end.
pub(crate) fn push_column(text: &mut String, width: usize, cell: &str) -> Result<(), AllocError>
    ensures { OnOk result (string_bytes text.new
        ≡ string_bytes text.old ++ in_column width cell.now) }
{
    if cell.len() > width {
        return push_stars(text, width);
    }
    text.push_str(cell)?;
    push_spaces(text, width - cell.len())
}
