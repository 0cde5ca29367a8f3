//! Stories that are told wrong on purpose: the player says of each line what came.
use super::expect_report;

/// Each kind of line, told otherwise than it comes, and lines, boards and texts that can't be read.
const WRONG: &str = "# Before the first story only remarks stand.
tick
story each kind of line
ipmi 10 2D 05 -> 00 00E0C1
ipmi 10 2D 05 -> 00 00E0C0 00
ipmi 10 2D 05 -> 00
ipmi 10 2D 05 -> 00 01..
ipmi 12 2D 05 -> C2
ipmi 10 2D 0 -> C7
pldm 00 02 -> 00 06
pldm 40 02 -> 20
kept ipmi 10 27 05 -> 140A05505F6F
kept ipmi 10 27 09 -> 00
kept ipmi 10 26 05 -> 00
marked ipmi 10 26 -> gets
marked pldm 03 08 -> sets
marked 03 08 -> sets
from 2
reads 09 60
reads 05
tick ten
chassis 20
change ipmi 10 24 05FF0301 : 0202 -> 0302 : 05FF0202
change ipmi 10 24 05FF0301 : 0203 -> 0301 : 05FF0203
change ipmi 10 24 05FF0301 : 0202 -> 0301 : 05FF0203
change ipmi 10 24 05FF0301 : 02 -> 0301 : 05FF0203
change ipmi 10 24 05000301 : 0202 -> 0301 : 05FF0202
change ipmi 10 27 05 : 0202 -> 0301 : 05FF0202
undo ipmi 10 24 05FF0301 : 0202 -> 05FF0203
undo ipmi 10 24 05FF0301 : 02 -> 05FF0202
undo ipmi 10 24 05FF0301 -> none
ipmb 2018C82C0001D3 -> Repeated
ipmb 2018C82C0001D4 -> Answered
ipmb 2018C82C00 -> Answered
smbus 200F0931010008C8018000 02ED -> Answered
idle ipmb 2C -> no
idle smbus 31 -> yes
idle i2c 31 -> no
tocks
ipmi 10 2D 05
board enable = 8
board enables = 8

story a board that can't be
board enables = 0x10
ipmi 18 2F -> 00 10

story a board that is no file
board enables = 
ipmi 18 2F -> 00 10

story no line comes
# A remark.";

/// What is said of them.
const SAID: &str = "tick | no story
each kind of line: ipmi 10 2D 05 -> 00 00E0C1 | came 00 00E0C0
each kind of line: ipmi 10 2D 05 -> 00 00E0C0 00 | came 00 00E0C0
each kind of line: ipmi 10 2D 05 -> 00 | came 00 00E0C0
each kind of line: ipmi 10 2D 05 -> 00 01.. | came 00 00E0C0
each kind of line: ipmi 10 2D 0 -> C7 | came no request
each kind of line: pldm 00 02 -> 00 06 | came 00 05
each kind of line: pldm 40 02 -> 20 | came no request
each kind of line: kept ipmi 10 27 05 -> 140A05505F6F | came 140A05505F6E
each kind of line: kept ipmi 10 27 09 -> 00 | came none
each kind of line: kept ipmi 10 26 05 -> 00 | came no record
each kind of line: marked ipmi 10 26 -> gets | came sets
each kind of line: marked pldm 03 08 -> sets | came gets
each kind of line: marked 03 08 -> sets | came no request
each kind of line: from 2 | came no requester
each kind of line: reads 09 60 | came none
each kind of line: reads 05 | came no event
each kind of line: tick ten | came no number
each kind of line: chassis 20 | came no event
each kind of line: change ipmi 10 24 05FF0301 : 0202 -> 0302 : 05FF0202 | came 0301 : 05FF0202
each kind of line: change ipmi 10 24 05FF0301 : 0203 -> 0301 : 05FF0203 | came 00 0202 00 00 0301 00 00 0203
each kind of line: change ipmi 10 24 05FF0301 : 0202 -> 0301 : 05FF0203 | came 00 0203 00 00 0301 00 00 0202
each kind of line: change ipmi 10 24 05FF0301 : 02 -> 0301 : 05FF0203 | came none
each kind of line: change ipmi 10 24 05000301 : 0202 -> 0301 : 05FF0202 | came no change
each kind of line: change ipmi 10 27 05 : 0202 -> 0301 : 05FF0202 | came no change
each kind of line: undo ipmi 10 24 05FF0301 : 0202 -> 05FF0203 | came 05FF0202
each kind of line: undo ipmi 10 24 05FF0301 : 02 -> 05FF0202 | came none
each kind of line: ipmb 2018C82C0001D3 -> Repeated | came Answered 2C1CB820000100200101050207CDAB003412F1
each kind of line: ipmb 2018C82C0001D4 -> Answered | came Ignored(Frame(BodySum))
each kind of line: ipmb 2018C82C00 -> Answered | came Ignored(Frame(Short))
each kind of line: smbus 200F0931010008C8018000 02ED -> Answered | came Answered 300F0B2101080AC00100000200051C
each kind of line: idle ipmb 2C -> no | came yes
each kind of line: idle smbus 31 -> yes | came no
each kind of line: idle i2c 31 -> no | came no requester
each kind of line: tocks | unread
each kind of line: ipmi 10 2D 05 | came 00 00E0C0
each kind of line: board enable = 8 | came no field
a board that can't be: no scene: Range(Place { item: Top, field: Enables })
a board that is no file: no scene: Text
no line comes: no line
";

#[test]
fn a_story_that_is_told_wrong_and_a_text_without_one_are_noticed(rt: HostRuntime) {
    expect_report(&rt, rt.alloc(), WRONG, SAID);
    expect_report(&rt, rt.alloc(), "", "no story\n");
    expect_report(&rt, rt.alloc(), "# A remark.\ntick", "no story\n");
    expect_report(&rt, rt.alloc(), "story", "no story\n");
    expect_report(&rt, rt.alloc(), "story ", ": no line\n");
}
