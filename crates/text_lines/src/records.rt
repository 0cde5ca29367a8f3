//! The line that says how many records are changed.
ghost use Rattle.std.specs.Prelude.{◌≡◌, ◌++◌, OnOk, string_bytes};
ghost use Rattle.text_lines.specs.Cuts.{ended};
ghost use Rattle.text_lines.specs.RecordsLine.{records_line};

use std::alloc::AllocError;

/// Adds the line that says whether records are changed, and how many.
pub fn push_records(text: &mut String, changed: usize) -> Result<(), AllocError>
    ensures { OnOk result (string_bytes text.new
        ≡ string_bytes text.old ++ ended (records_line changed)) }
{
    match changed {
        0 => text.push_str("records same\n"),
        _ => writeln!(text, "records changed {changed}"),
    }
}
