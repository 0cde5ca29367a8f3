//! The texts of journals, good and bad.
use super::expect_told;

/// What is read of journals.
const JOURNALS: &str = r#"
# The plan wasn't begun: no prefix of the text is a journal.
file journal
+ journal 1
+ retries 3
+ names 2C203020080A
+ unlisted
+ steps 1
+ ipmb 102605380000004B5C64
+ undo 0
+ waiting 0
+ stage fresh 0 0
+ go
+ counts 0 0
+ no replies
ends reads => 140
=> 1, 0, Fresh, Counts { ipmb: 0, smbus: 0 }, []

# The Set of the second step is open, and what undoes it waits.
file journal
+ journal 1
+ retries 3
+ names 2C203020080A
+ listed 2C203020080A
+ steps 2
+ ipmb 102605380000004B5C64
+ ipmb 102405FF0102
+ undo 1
+ ipmb 10260538000000505F6E
+ waiting 1
+ ipmb 102405FF0000
+ stage set 1 0
+ stop
+ counts 3 0
+ no replies
ends reads => 213
=> 2, 1, Open { task: Set(1), part: 0 }, Counts { ipmb: 3, smbus: 0 }, []

# A part of an attribute's entry came.
file journal
+ journal 1
+ retries 3
+ names 2C203020080A
+ unlisted
+ steps 1
+ smbus 0307000000000501000106007261636B2D31
+ undo 0
+ waiting 0
+ stage get 0 1
+ stop
+ counts 0 1
+ replies 0000000005
ends reads => 165
=> 1, 0, Open { task: Get(0), part: 1 }, Counts { ipmb: 0, smbus: 1 }, [0, 0, 0, 0, 5]

file journal
# The first bad line is named.
=> Line 1
journal 1 => Line 1
journal 2\n => Line 1
undo 2\n => Line 1
journal 1\n => Line 2
behind journal 1\n
retries 256\n | retries 03\n | retries -1\n | retries 3 \n | retries\n => Line 2
retries 0\n | retries 255\n => Line 3
behind journal 1\nretries 3\n
names 2D203020080A\n | names 2C21302008FF\n | names 2C203020080\n | names 2C2030200800\r\n | names 2C203020\n | listed 2C203020080A\n => Line 3
behind journal 1\nretries 3\nnames 2C203020080A\n
listed\n | listed none\n | names 2C203020080A\n => Line 4
unlisted\n | listed 2c203020080a\n => Line 5
behind journal 1\nretries 3\nnames 2C203020080A\nunlisted\n
steps 257\n | steps 01\n | step 1\n | undo 0\n => Line 5
steps 0\n => Line 6
behind journal 1\nretries 3\nnames 2C203020080A\nunlisted\nsteps 1\n
# A Get, a Set of another length, a Set to logical unit 1, and a Set with a byte that no hysteresis has.
ipmb 102705\n | ipmb 1026053800\n | ipmb 112605380000004B5C64\n | ipmb 102405000102\n | ipmb \n | usb 1026\n | undo 0\n => Line 6
behind journal 1\nretries 3\nnames 2C203020080A\nunlisted\nsteps 0\n
undo 1\nipmb 10\n | undo 1\nipmb 1C26053\n | undo 1\nipmb 1426\n | undo 1\nwaiting 0\n => Line 7
undo 257\n => Line 6
undo 0\n => Line 7
undo 1\nipmb 13260530\n | undo 1\nsmbus 3FFF\n => Line 8
undo 0\nwaiting 2\n => Line 7
undo 0\nwaiting 1\nipmb 10\n => Line 8
undo 256\n<256:ipmb 1026\n>waiting 1\n => Line 263
undo 256\n<256:ipmb 1026\n>waiting 0\nstage done 0 0\n => Line 265

# The stage fits the lists above it.
behind journal 1\nretries 3\nnames 2C203020080A\nunlisted\nsteps 1\nipmb 102605380000004B5C64\nundo 1\nipmb 102405FF0000\nwaiting 0\n
stage fresh 0 0\n | stage get 0 0\n | stage get 1 0\n | stage undo 1 0\n | stage undo 0 1\n | stage set 0 0\n | stage done 0 1\n | stage halted 257 0\n => Line 10
stage halted 1 5\n | stage set-refused 1 0\n | stage set-refused 1 256\n | stage undo-refused 256 5\n | stage ended 0 0\n | stage done\n | stage done 0\n => Line 10
stage done 0 0\n | stage undo 0 0\n | stage halted 1 0\n | stage set-refused 1 204\n | stage undone 0 0\n => Line 11
behind journal 1\nretries 3\nnames 2C203020080A\nunlisted\nsteps 1\nipmb 102605380000004B5C64\nundo 0\nwaiting 1\nipmb 102405FF0000\n
stage fresh 0 0\n | stage get 0 0\n | stage set 0 1\n | stage done 0 0\n => Line 10
stage set 0 0\ngo\n => Line 11
stage set 0 0\nstop\ncounts 65536 0\n | stage set 0 0\nstop\ncounts 6000 133\n => Line 12
stage set 0 0\nstop\ncounts 6000 132\n => Line 13
stage set 0 0\nstop\ncounts 1 0\nreplies 00\n | stage set 0 0\nstop\ncounts 1 0\nreplies \n => Line 13
stage set 0 0\nstop\ncounts 1 0\nno replies\n\n => Line 14
"#;

#[test]
fn journals_are_read(rt: HostRuntime) {
    expect_told(&rt, rt.alloc(), JOURNALS);
}
