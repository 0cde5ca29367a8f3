//! The lines of an account.
ghost use Rattle.std.specs.Prelude.{◌≡◌, ◌++◌, OnOk, codes, string_bytes};
ghost use Rattle.std.specs.Fmt.{decimal};
ghost use Rattle.std.specs.List.{flat_map};
ghost use Rattle.text_lines.specs.Cuts.{ended};
ghost use Rattle.app_play.specs.Lines.{end_name, frame_line, frame_lines, premise_lines, said, stopped_line};

use lab_play::Stopped;
use lab_run::{SentFrame, Way};
use std::alloc::{AllocError, Global};

/// Which end sends what goes this way.
fn end_of(way: Way) -> &'static str
    ensures { result.now ≡ end_name way }
{
    match way {
        Way::ToPort => "mgr",
        Way::ToManager | Way::ToOthers => "bmc",
    }
}

/// Adds the line of the frame of this number.
fn push_frame(
    alloc: Global,
    text: &mut String,
    number: usize,
    frame: &SentFrame,
) -> Result<(), AllocError>
    ensures { OnOk result (string_bytes text.new
        ≡ string_bytes text.old ++ ended (frame_line number frame.now)) }
{
    let end = end_of(frame.way);
    let bus = frame.mark.on.name();
    let digits = hex::encode_upper(alloc, frame.bytes.as_slice())?;
    writeln!(text, "frame {number} {end} {bus} {digits}")
}

/// Adds the lines of the frames, the first of which has number 0.
pub fn push_frames(alloc: Global, text: &mut String, frames: &[SentFrame]) -> Result<(), AllocError>
    ensures { OnOk result (string_bytes text.new
        ≡ string_bytes text.old ++ flat_map ended (frame_lines frames.now)) }
{
    for (number, frame) in frames.iter().enumerate() {
        push_frame(alloc, text, number, frame)?;
    }
    Ok(())
}

/// Adds the line of the event that broke the premise on packets first.
fn push_broken(text: &mut String, place: usize) -> Result<(), AllocError>
    ensures { OnOk result (string_bytes text.new
        ≡ string_bytes text.old ++ ended (said (codes "premise broken") (decimal place))) }
{
    writeln!(text, "premise broken {place}")
}

/// Adds the line that says that each event kept the premise on packets.
fn push_kept(text: &mut String) -> Result<(), AllocError>
    ensures { OnOk result (string_bytes text.new
        ≡ string_bytes text.old ++ ended (codes "premises kept")) }
{
    text.push_str("premises kept\n")
}

/// Adds the line that says which event broke the premise on packets first, or that each kept it. Where none broke it and one has a
/// fault, nothing is said.
pub fn push_premise(
    text: &mut String,
    broken: Option<usize>,
    stopped: Option<Stopped>,
) -> Result<(), AllocError>
    ensures { OnOk result (string_bytes text.new
        ≡ string_bytes text.old ++ flat_map ended (premise_lines broken stopped)) }
{
    let Some(place) = broken else {
        return match stopped {
            Some(_) => Ok(()),
            None => push_kept(text),
        };
    };
    push_broken(text, place)
}

/// Adds the line of the event that wasn't taken.
pub fn push_stopped(text: &mut String, stopped: Stopped) -> Result<(), AllocError>
    ensures { OnOk result (string_bytes text.new
        ≡ string_bytes text.old ++ ended (stopped_line stopped)) }
{
    let Stopped { place, fault } = stopped;
    writeln!(text, "fault {place} {fault}")
}
