//! What holds of plays that are shown in either way.
ghost use Rattle.std.specs.Prelude.{◌≤◌, ℕ, List, length};
ghost use Rattle.std.specs.List.{All};
ghost use Rattle.lab_run.specs.declared.note.Note.{Note as AnyNote};
ghost use Rattle.app_play.specs.declared.inputs.Inputs.{Inputs};
ghost use Rattle.app_play.specs.declared.run.Shown.{Shown};
ghost use Rattle.app_play.specs.Alike.{EndAlike};
ghost use Rattle.app_play.specs.Chart.{chart_lines};
ghost use Rattle.app_play.specs.Determined.{OneText, SaysOne};
ghost use Rattle.app_play.specs.Run.{tells_of, PrintsPlay};

/// No line of a chart is longer than eighty columns.
pub fn lines_have_eighty_columns()
    ensures { (notes : List AnyNote) → All (λ line. length line ≤ 80) (chart_lines notes) }
{}

/// The lines of a play and its chart end alike: with the line of the same fault, or without one, and with one status.
pub fn charts_end_as_lines()
    ensures { (inputs : Inputs) → EndAlike inputs }
{
    model_lab::laws::one_ending();
}

/// The inputs of a play determine its text and its status, in lines and drawn.
pub fn one_text()
    ensures { (shown : Shown) → OneText (tells_of shown) }
{
    model_lab::laws::one_ending();
}

/// Three texts determine what a run says of them, on which stream and with which status: the text of their play, or the line of the
/// first that is refused.
pub fn one_run()
    ensures { (shown : Shown) (board plan schedule : List ℕ)
        → SaysOne (PrintsPlay (tells_of shown) board plan schedule) }
{
    one_text();
    text_board::one_board();
    plan_file::one_plan();
    text_lines::one_schedule();
    text_lines::refused_or_told();
}
