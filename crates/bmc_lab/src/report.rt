//! What a run says of what a port did.
ghost use Rattle.std.specs.Prelude.{◌≡◌, ◌++◌, IfOk, OnOk, string_bytes};
ghost use Rattle.bmc_core.specs.Outs.{sent};
ghost use Rattle.bmc_lab.specs.Report.{status_of, frame_line, text_of};

use app_base::{Report, Status, Stream};
use bmc_core::{Disposition, Out};
use std::alloc::{AllocError, Global};
use two_wire::Frame;

/// Adds the line of a frame: its bytes in upper-case hexadecimal.
fn push_line(alloc: Global, text: &mut String, frame: &Frame) -> Result<(), AllocError>
    ensures { OnOk result (string_bytes text.new ≡ string_bytes text.old ++ frame_line frame.now) }
{
    let digits = hex::encode_upper(alloc, frame.as_slice())?;
    text.push_str(digits.as_str())?;
    text.push_str("\n")
}

/// Whether a port sent something.
fn status(out: &Out) -> Status
    ensures { result ≡ status_of (sent out.now) }
{
    match out.frames.as_slice() {
        [] => Status::NotSent,
        _ => Status::Success,
    }
}

/// The report of what a port did: a line for each frame that it sent, and why it ignored what it heard, or that it waits for
/// the rest of a message.
pub fn port_report(alloc: Global, out: &Out) -> Result<Report, AllocError>
    ensures stream { IfOk result (λ report. report.stream ≡ Stream.Output) }
    ensures text { IfOk result (λ report. string_bytes report.text ≡ text_of out.now) }
    ensures status { IfOk result (λ report. report.status ≡ status_of (sent out.now)) }
{
    let mut text = String::new(alloc);
    for frame in out.frames.as_slice() {
        push_line(alloc, &mut text, frame)?;
    }
    match out.done {
        Disposition::Ignored(reason) => writeln!(text, "ignored {reason}")?,
        Disposition::Waiting => text.push_str("waiting\n")?,
        Disposition::Answered | Disposition::Repeated | Disposition::Busy | Disposition::Control =>
            {}
    }
    Ok(Report::output(text, status(out)))
}
