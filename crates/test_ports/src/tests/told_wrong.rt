//! Stories of ports and windows that are told wrong on purpose: the player says of each line what came.
use super::expect_report;

/// Each kind of line, told otherwise than it comes, and lines that can't be read.
const WRONG: &str = "\
story wrong
dropped ipmb 2010D0400C270588 -> Answered
dropped ipmb 2010D0400C270589 -> asked
dropped ipmb 2 -> asked
dropped i2c 20 -> asked
cuts ipmb 2010D0400C270588 -> 8 Ignored(Frame(Short))
cuts i2c 20 -> 1 Ignored(Frame(Short))
changed ipmb 2010D0400C270588 -> 2040 Ignored(Frame(BodySum))
changed smbus 2 -> 255 Ignored(Packet(Short))
told ipmb 2010D0400C270588 -> Repeated 4014AC200C27003F140A05505F6E2E
told ipmb 2010D0400C270588 -> Answered 4014AC200C27003F140A05505F6E2E
dropped ipmb 2010D0400C270588 -> asked
told smbus 2 -> Waiting
told smbus 200F0931010008C801800002ED -> Control
window ipmb keeps 40 05 42 : 07 -> Busy
window ipmb keeps 40 05 42 : 08 -> New
window ipmb finds 40 05 42 -> Repeats 08
window ipmb finds 40 40 42 -> New
window pldm finds 08 20 02 -> New
window ipmb keeps 40 05 -> New
window ipmb keeps 40 05 42 : 00*33 -> New
window ipmb idles 42 -> yes
window ipmb idles 40 -> no
window ipmb idles -> yes
window ipmb finds 4 -> New
window ipmb tells 40 05 42 -> New
window i2c finds 40 05 42 -> New
idle ipmb 40 -> no
";

/// What is said of them.
const REPORT: &str = "\
wrong: dropped ipmb 2010D0400C270588 -> Answered | came asked
wrong: dropped ipmb 2010D0400C270589 -> asked | came Ignored(Frame(BodySum))
wrong: dropped ipmb 2 -> asked | came no bytes
wrong: dropped i2c 20 -> asked | came no bytes
wrong: cuts ipmb 2010D0400C270588 -> 8 Ignored(Frame(Short)) | came 7 Ignored(Frame(Short)) 1 Ignored(Frame(BodySum))
wrong: cuts i2c 20 -> 1 Ignored(Frame(Short)) | came no bytes
wrong: changed ipmb 2010D0400C270588 -> 2040 Ignored(Frame(BodySum)) | came 765 Ignored(Frame(HeadSum)) 1275 Ignored(Frame(BodySum))
wrong: changed smbus 2 -> 255 Ignored(Packet(Short)) | came no bytes
wrong: told ipmb 2010D0400C270588 -> Repeated 4014AC200C27003F140A05505F6E2E | came Answered 4014AC200C27003F140A05505F6E2E
wrong: told ipmb 2010D0400C270588 -> Answered 4014AC200C27003F140A05505F6E2E | came Repeated 4014AC200C27003F140A05505F6E2E
wrong: dropped ipmb 2010D0400C270588 -> asked | came Repeated 4014AC200C27003F140A05505F6E2E
wrong: told smbus 2 -> Waiting | came no bytes
wrong: told smbus 200F0931010008C801800002ED -> Control | came Answered 300F0B2101080AC00100000200051C
wrong: window ipmb keeps 40 05 42 : 07 -> Busy | came New
wrong: window ipmb keeps 40 05 42 : 08 -> New | came Repeats 07
wrong: window ipmb finds 40 05 42 -> Repeats 08 | came Repeats 07
wrong: window ipmb finds 40 40 42 -> New | came no request
wrong: window pldm finds 08 20 02 -> New | came no request
wrong: window ipmb keeps 40 05 -> New | came no request
wrong: window ipmb keeps 40 05 42 : 00*33 -> New | came too long
wrong: window ipmb idles 42 -> yes | came no
wrong: window ipmb idles 40 -> no | came yes
wrong: window ipmb idles -> yes | came no requester
wrong: window ipmb finds 4 -> New | came no bytes
wrong: window ipmb tells 40 05 42 -> New | came no line
wrong: window i2c finds 40 05 42 -> New | came no windows
wrong: idle ipmb 40 -> no | came yes
";

#[test]
fn wrong_lines_are_noticed(rt: HostRuntime) {
    expect_report(&rt, rt.alloc(), WRONG, REPORT);
}
