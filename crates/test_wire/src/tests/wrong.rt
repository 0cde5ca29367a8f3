//! Lines that tell something else than what comes.
use super::player::expect_report;

/// Each kind of line, and each is wrong.
const WRONG: &str = "
story wrong
sum 20 18 -> C9
pec 31 32 33 34 35 36 37 38 39 -> F5
crc32 31 32 33 34 35 36 37 38 39 -> 00000000
ipmb 20 18 C8 2C 00 01 D3 -> request 06 01 to 20.0 from 2C.0 sequence 1 data
ipmb 20 18 C9 2C 00 01 D4 -> BodySum
packet 20 0F 08 31 01 00 08 C8 00 80 02 51 -> Count
pldm 80 00 02 -> Short
reply 00 00 02 -> reply 0 type 0 command 02 code 00 data
cuts ipmb 20 18 C8 -> Short*2
changed ipmb 20 18 C8 2C 00 01 D3 -> 1 read
same ipmb 20 18 C8 2C 00 01 D3 / 20 18 C8 2C 04 01 CF -> yes
same pldm 83 00 02 / A3 00 -> no
control 00 80 02 -> nothing at 0A
split 1 -> 20 0F 06 31 01 0A 08 CB 00 7A
back 65 -> same
take 0B 08 8B 00*64 -> Waiting
own 0B -> 0A
clear -> yes
table 00 01 -> 02
part 01 0 -> flag 05 next 1 bytes 00 01
entry 00 0 -> flag 05 next 0 bytes 00 01
# Of these nothing comes.
ipmb 2G -> Short
ipmb 20 -> Short*x
take 0A 08 8B 00*65 -> Waiting
back 257 -> same
frame 20 -> Short
cuts frame 20 -> Short
";

/// What is said of them.
const REPORT: &str = "\
wrong: sum 20 18 -> C9 | came C8
wrong: pec 31 32 33 34 35 36 37 38 39 -> F5 | came F4
wrong: crc32 31 32 33 34 35 36 37 38 39 -> 00000000 | came CBF43926
wrong: ipmb 20 18 C8 2C 00 01 D3 -> request 06 01 to 20.0 from 2C.0 sequence 1 data | came request 06 01 to 20.0 from 2C.0 sequence 0 data
wrong: ipmb 20 18 C9 2C 00 01 D4 -> BodySum | came HeadSum
wrong: packet 20 0F 08 31 01 00 08 C8 00 80 02 51 -> Count | came Pec
wrong: pldm 80 00 02 -> Short | came request 0 type 0 command 02 data
wrong: reply 00 00 02 -> reply 0 type 0 command 02 code 00 data | came Short
wrong: cuts ipmb 20 18 C8 -> Short*2 | came Short Short Short
wrong: changed ipmb 20 18 C8 2C 00 01 D3 -> 1 read | came 0 read
wrong: same ipmb 20 18 C8 2C 00 01 D3 / 20 18 C8 2C 04 01 CF -> yes | came no
wrong: same pldm 83 00 02 / A3 00 -> no | came no requests
wrong: control 00 80 02 -> nothing at 0A | came 00 00 02 00 0A 00 00 at 0A
wrong: split 1 -> 20 0F 06 31 01 0A 08 CB 00 7A | came 20 0F 06 31 01 0A 08 CB 00 79
wrong: back 65 -> same | came Waiting same
wrong: take 0B 08 8B 00*64 -> Waiting | came NotOurs
wrong: own 0B -> 0A | came nothing
wrong: clear -> yes | came nothing
wrong: table 00 01 -> 02 | came nothing
wrong: part 01 0 -> flag 05 next 1 bytes 00 01 | came flag 05 next 0 bytes 00 01
wrong: entry 00 0 -> flag 05 next 0 bytes 00 01 | came 02
wrong: ipmb 2G -> Short | unread
wrong: ipmb 20 -> Short*x | unread
wrong: take 0A 08 8B 00*65 -> Waiting | unread
wrong: back 257 -> same | unread
wrong: frame 20 -> Short | unread
wrong: cuts frame 20 -> Short | unread
";

#[test]
fn wrong_lines_are_noticed(rt: HostRuntime) {
    expect_report(&rt, rt.alloc(), WRONG, REPORT);
    expect_report(&rt, rt.alloc(), "# A remark.", "no story\n");
}
