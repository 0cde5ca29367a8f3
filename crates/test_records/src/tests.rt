//! Records and their kinds: stories by theme, and calls one by one.
mod attribute;
mod attributes;
mod bench;
mod both_stores;
mod by_definition;
mod calls;
mod commands;
mod effecters;
mod lan;
mod log;
mod long_strings;
mod names;
mod parts;
mod records;
mod sel;
mod sensors;
mod string_parts;
mod tables;
mod told_wrong;
mod undo;
mod users;
mod values;
mod watchdog;

use std::alloc::Global;
use std::fmt::Debug;
use std::process::Abort;
use stories::play;

/// This is said of the stories: of each line that comes otherwise than it is told, what came.
pub(crate) fn expect_report(rt: &impl Abort, alloc: Global, stories: &str, told: &str) {
    let report = play(alloc, stories).expect(rt, "memory");
    expect_equal(rt, report.as_str(), told);
    drop(report);
}

/// All of the stories comes as it is told.
pub(crate) fn expect_told(rt: &impl Abort, alloc: Global, stories: &str) {
    expect_report(rt, alloc, stories, "");
}

/// The bytes are these.
pub(crate) fn expect_bytes(rt: &impl Abort, came: &[u8], told: &[u8]) {
    expect_equal(rt, came, told);
}

/// The value is the one that is wanted.
pub(crate) fn expect_equal<T: Copy + Debug + PartialEq>(rt: &impl Abort, value: T, wanted: T) {
    assert_eq!(rt; value, wanted);
}

/// So it is. What that says comes where it isn't so.
pub(crate) fn expect(rt: &impl Abort, holds: bool, what: &str) {
    assert!(rt; holds, "{what}");
}

/// So it is in each case. The name of a case where it isn't so comes: of the names, which have `, ` between two, the one in its place.
pub(crate) fn expect_each(rt: &impl Abort, hold: &[bool], names: &str) {
    let mut names = names.split(", ");
    for holds in hold {
        expect(rt, *holds, names.next().unwrap_or("no name"));
    }
}
