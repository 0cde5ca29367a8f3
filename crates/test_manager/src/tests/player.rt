//! What stories and tests have in common: what is appended, and that all comes as told.
use super::expect_equal;
use super::scene::Managed;
use std::alloc::Global;
use std::fmt::Debug;
use std::process::Abort;
use stories::{NoOutcome, report_of};
use undo_core::Phase;

/// Appends what the phase is called.
pub fn push_phase(phase: Phase, text: &mut String) -> Result<(), NoOutcome> {
    write!(text, " {phase}")?;
    Ok(())
}

/// Appends why there is no manager.
pub fn push_fault(fault: impl Copy + Debug, text: &mut String) -> Result<(), NoOutcome> {
    write!(text, " {fault:?}")?;
    Ok(())
}

/// This is said of the stories of the text.
pub fn expect_report(rt: &impl Abort, alloc: Global, text: &str, report: &str) {
    let said = report_of::<Managed>(alloc, text).expect(rt, "memory");
    expect_equal(rt, said.as_str(), report);
}

/// All comes as the stories of the text tell.
pub fn expect_told(rt: &impl Abort, alloc: Global, text: &str) {
    expect_report(rt, alloc, text, "");
}
