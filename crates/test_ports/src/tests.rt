//! What ports do with requests that come again, with damage and with floods, on the sample board, and boards with a history.
mod board;
mod damage;
mod either;
mod floods;
mod history;
mod ipmb;
mod smbus;
mod told_wrong;
mod window;
mod worked;

use bmc_core::{Disposition, Out};
use std::alloc::Global;
use std::fmt::Debug;
use std::process::Abort;
use stories::play;

/// This is said of the stories: of each line that comes otherwise than it is told, what came.
pub(crate) fn expect_report(rt: &impl Abort, alloc: Global, stories: &str, told: &str) {
    let report = play(alloc, stories).expect(rt, "memory");
    expect_equal(rt, report.as_str(), told);
}

/// All of the stories comes as it is told.
pub(crate) fn expect_told(rt: &impl Abort, alloc: Global, stories: &str) {
    expect_report(rt, alloc, stories, "");
}

/// The port did this, and sent this frame and no other.
pub(crate) fn expect_out(rt: &impl Abort, out: &Out, done: Disposition, frame: &[u8]) {
    expect_equal(rt, out.done, done);
    match out.frames.as_slice() {
        [sent] => expect_equal(rt, sent.as_slice(), frame),
        _ => panic!(rt; "not one frame"),
    }
}

/// The value is the one that is wanted.
pub(crate) fn expect_equal<T: Copy + Debug + PartialEq>(rt: &impl Abort, value: T, wanted: T) {
    assert_eq!(rt; value, wanted);
}
