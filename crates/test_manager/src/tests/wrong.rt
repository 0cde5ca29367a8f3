//! Lines that tell something else than what comes.
use super::player::expect_report;

/// Each kind of line, and each is wrong.
const WRONG: &str = "
story wrong
start -> Getting 0
plan 3 -> Done
plan 16 -> Fresh
plan x -> Fresh
start -> 2010D02C002705A8 Getting 1
stop -> refused Getting 0
undo -> Undone
quiet -> Getting 0
shows -> open Smbus undo 0 next 0 0
ipmb 2C14C0200027003F140A05505F6E3B -> Setting 0
smbus 2C14C0200027003F140A05505F6E3A -> Setting 0
ipmb 2C1 -> Getting 0
wait -> Getting 0
start
text 3 00 02 -> Halted 0 Stop
text 3 -> Halted 1 Stop
text 3 00 -> Halted 1 Stop
list 1 -> Halted 1 Stop
again -> Undoing 0
";

/// What is said of them.
const REPORT: &str = "\
wrong: start -> Getting 0 | unread
wrong: plan 3 -> Done | came Fresh
wrong: plan 16 -> Fresh | came Retries
wrong: plan x -> Fresh | unread
wrong: start -> 2010D02C002705A8 Getting 1 | came 2010D02C002705A8 Getting 0
wrong: stop -> refused Getting 0 | came Getting 0
wrong: undo -> Undone | came refused Getting 0
wrong: quiet -> Getting 0 | came 2010D02C002705A8 Getting 0
wrong: shows -> open Smbus undo 0 next 0 0 | came open Ipmb undo 0 next 0 0
wrong: ipmb 2C14C0200027003F140A05505F6E3B -> Setting 0 | came Getting 0
wrong: smbus 2C14C0200027003F140A05505F6E3A -> Setting 0 | came Getting 0
wrong: ipmb 2C1 -> Getting 0 | unread
wrong: wait -> Getting 0 | unread
wrong: start | came refused Getting 0
wrong: text 3 00 02 -> Halted 0 Stop | came Halted 1 Stop
wrong: text 3 -> Halted 1 Stop | unread
wrong: text 3 00 -> Halted 1 Stop | unread
wrong: list 1 -> Halted 1 Stop | came Halted 2 Stop
wrong: again -> Undoing 0 | came refused Halted 2 Stop
";

#[test]
fn wrong_lines_are_noticed(rt: HostRuntime) {
    expect_report(&rt, rt.alloc(), WRONG, REPORT);
    expect_report(&rt, rt.alloc(), "# A remark.", "no story\n");
}
