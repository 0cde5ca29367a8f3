//! Plans by what their steps set: BIOS attributes, numeric effecters, users and channels, LAN parameters, and many steps.
use super::expect_told;

/// BIOS attributes, of which some requests are of several packets.
const ATTRIBUTES: &str = "story a plan of four steps over both buses is undone
board sample
plan
  [[step]] / kind = \"thresholds\" / sensor = 5 / unc = 0x4B / uc = 0x5A
  [[step]] / kind = \"thresholds\" / sensor = 5 / uc = 0x5C / unr = 0x64
  [[step]] / kind = \"bios-attribute\" / handle = 2 / number = 40
  [[step]] / kind = \"boot-param\" / param = 5 / invalid = false / data = [128, 4, 0, 0, 0]
schedule
  start
  8 x to-bmc {0+2} / to-mgr {1+2}
  undo
  4 x to-bmc {16+2} / to-mgr {17+2}
lines -> 0 out
  phase Undone
  frames 24
  undo 4
  ipmb 0008050000000000
  smbus 030700000000050200031E00000000000000
  ipmb 10260530000000005A6E
  ipmb 10260518000000505F00
  records same

# The Set of a name of 200 bytes has four packets. It is cut short by its third, and comes again whole, with two others in between; the
# reply to its first copy's third packet isn't any.
story a request of four packets comes whole though others come between, and is undone by one of one
board sample
plan: [[step]] / kind = \"bios-attribute\" / handle = 1 / text = \"{200*x}\"
schedule
  start / to-bmc 0 / to-mgr 1 / to-bmc 2 / to-bmc 3 / to-bmc 5 / quiet / to-bmc 6 / other smbus 0B 01800002 / to-bmc 7
  other smbus 0C 01800002 / to-bmc 8 / to-bmc 5 / to-bmc 9 / to-mgr 12
lines -> 0 out
  phase Done
  frames 13
  undo 1
  smbus 0307000000000501000106007261636B2D31
  records changed 1
schedule: start / to-bmc 0 / to-mgr 1
frames -> 0 out
  phase Setting 0 / frames 6 / undo 0 / records same
  frame 0 mgr smbus 200F1031010A08C801800308000000000101000B
  frame 1 bmc smbus 300F1A2101080AC00100030800000000000501000106007261636B2D3150
  frame 2 mgr smbus 200F4531010A0889018103070000000005010001C800{50*78}73
  frame 3 mgr smbus 200F4531010A0819{64*78}50
  frame 4 mgr smbus 200F4531010A0829{64*78}6F
  frame 5 mgr smbus 200F1B31010A0879{22*78}6E
schedule
  start / to-bmc 0 / to-mgr 1 / to-bmc 2 / to-bmc 3 / to-bmc 5 / quiet / to-bmc 6 / other smbus 0B 01800002 / to-bmc 7
  other smbus 0C 01800002 / to-bmc 8 / to-bmc 5 / to-bmc 9 / to-mgr 12
  undo / to-bmc 13 / to-mgr 14
lines -> 0 out
  phase Undone
  frames 15
  undo 1
  smbus 0307000000000501000106007261636B2D31
  records same

# Each text is four packets, under a tag of its own. The first packet of the first Set (2) comes again once the next Get was begun, and waits; the
# other three join it, and the reply that was kept is sent again (12). Of the second Set the first copy's last packet (16) comes behind the second
# copy, and completes the first; the whole second copy comes once the next Get was begun. The first half of the third Set waits while the undo begins
# (28, 29), and its second half comes when two newer requests were begun. No packet joins one of another request.
story late packets of long texts change nothing
board sample
plan
  [[step]] / kind = \"bios-attribute\" / handle = 1 / text = \"{200*a}\"
  [[step]] / kind = \"bios-attribute\" / handle = 1 / text = \"{200*b}\"
  [[step]] / kind = \"bios-attribute\" / handle = 1 / text = \"{200*c}\"
schedule
  start / to-bmc 0 / to-mgr 1 / to-bmc 2 / to-bmc 3 / to-bmc 4 / to-bmc 5 / to-mgr 6
  to-bmc 2 / to-bmc 7 / to-mgr 8 / to-bmc 3 / to-mgr 9 / to-bmc 4 / to-bmc 5 / to-mgr 10 / to-mgr 11 / to-mgr 12
  to-bmc 13 / to-bmc 14 / to-bmc 15 / quiet / to-bmc 16 / to-mgr 21 / to-bmc 17 / to-bmc 18 / to-bmc 19 / to-bmc 20 / to-mgr 23
  to-bmc 22 / to-mgr 24 / to-mgr 25 / to-mgr 26 / to-mgr 27 / to-bmc 28 / to-bmc 29 / to-bmc 30 / to-bmc 31 / to-mgr 32
premises -> 0 out
  phase Done
  frames 33
  undo 3
  smbus 03070000000005010001C800{200*62}
  smbus 03070000000005010001C800{200*61}
  smbus 0307000000000501000106007261636B2D31
  records changed 1
  premises kept
then
  to-bmc 28 / to-bmc 29 / undo / to-bmc 33 / to-bmc 34 / to-bmc 35 / to-bmc 36 / to-mgr 37
  to-bmc 38 / to-bmc 39 / to-bmc 40 / to-bmc 41 / to-bmc 30 / to-bmc 31 / to-mgr 42 / to-mgr 43 / to-bmc 44 / to-mgr 45 / to-bmc 38
premises -> 0 out
  phase Undone
  frames 46
  undo 3
  smbus 03070000000005010001C800{200*62}
  smbus 03070000000005010001C800{200*61}
  smbus 0307000000000501000106007261636B2D31
  records same
  premises kept

# Steps set notes that are as long as they can be, the asset's name and the delay twice. The undo of the notes has the tag of the Set of the
# name. The first packet of that Set comes again, and waits, and the last three packets of the undo of the notes join it: no event has a
# fault, and the plan is undone, but the asset has a name that nobody gave it.
story packets that join another request's change a record
board sample
  [[attribute]] / name = \"Notes\" / kind = \"string\" / string_type = 1 / least = 0 / most = 200 / default = \"\"
  current = \"{200*y}\" / readonly = false
plan
  [[step]] / kind = \"bios-attribute\" / handle = 3 / text = \"{200*a}\"
  [[step]] / kind = \"bios-attribute\" / handle = 1 / text = \"{200*b}\"
  [[step]] / kind = \"bios-attribute\" / handle = 2 / number = 40
  [[step]] / kind = \"bios-attribute\" / handle = 2 / number = 50
schedule
  start / to-bmc 0 / to-mgr 1 / to-mgr 2 / to-mgr 3 / to-mgr 4 / to-bmc 5 / to-bmc 6 / to-bmc 7 / to-bmc 8 / to-mgr 9
  to-bmc 10 / to-mgr 11 / to-bmc 12 / to-bmc 13 / to-bmc 14 / to-bmc 15 / to-mgr 16 / to-bmc 12
  4 x to-bmc {17+2} / to-mgr {18+2}
  undo
  3 x to-bmc {25+2} / to-mgr {26+2}
  to-bmc 32 / to-bmc 33 / to-bmc 34 / to-mgr 35 / quiet / to-bmc 36 / to-bmc 37 / to-bmc 38 / to-bmc 39 / to-mgr 40
lines -> 0 out
  phase Undone
  frames 41
  undo 4
  smbus 030700000000050200032800000000000000
  smbus 030700000000050200031E00000000000000
  smbus 0307000000000501000106007261636B2D31
  smbus 03070000000005030001C800{200*79}
  records changed 1
";

/// Numeric effecters, over the System Management Bus.
const EFFECTERS: &str = "# Each bus has numbers of its own.
story a plan over both buses is undone
board sample effecter
plan
  [[step]] / kind = \"numeric-effecter\" / effecter = 4 / size = 2 / value = 1000
  [[step]] / kind = \"thresholds\" / sensor = 5 / uc = 0x5A
schedule
  start
  4 x to-bmc {0+2} / to-mgr {1+2}
  undo
  2 x to-bmc {8+2} / to-mgr {9+2}
frames -> 0 out
  phase Undone
  frames 12
  undo 2
  ipmb 10260510000000005F00
  smbus 0231040002F401
  records same
  frame 0 mgr smbus 200F0B31010A08C8018002320400BA
  frame 1 bmc smbus 300F102101080AC001000232000201F401F40147
  frame 2 mgr smbus 200F0E31010A08C901810231040002E80336
  frame 3 bmc smbus 300F0A2101080AC1010102310031
  frame 4 mgr ipmb 2010D02C002705A8
  frame 5 bmc ipmb 2C14C0200027003F140A05505F6E3A
  frame 6 mgr ipmb 2010D02C04260510000000005A003B
  frame 7 bmc ipmb 2C14C020042600B6
  frame 8 mgr ipmb 2010D02C08260510000000005F0032
  frame 9 bmc ipmb 2C14C020082600B2
  frame 10 mgr smbus 200F0E31010A08CA01820231040002F4011E
  frame 11 bmc smbus 300F0A2101080AC2010202310070

part one-step: [[step]] / kind = \"numeric-effecter\" / effecter = 4 / size = 2 / value = 1000

# The Set comes a third time after it was undone, and changes nothing.
story a reply that is lost on SMBus is sent again
board sample effecter
plan one-step
schedule: start / to-bmc 0 / to-mgr 1 / to-bmc 2 / quiet / to-bmc 4 / to-mgr 5 / undo / to-bmc 6 / to-mgr 7 / to-bmc 2
frames -> 0 out
  phase Undone
  frames 9
  undo 1
  smbus 0231040002F401
  records same
  frame 0 mgr smbus 200F0B31010A08C8018002320400BA
  frame 1 bmc smbus 300F102101080AC001000232000201F401F40147
  frame 2 mgr smbus 200F0E31010A08C901810231040002E80336
  frame 3 bmc smbus 300F0A2101080AC1010102310031
  frame 4 mgr smbus 200F0E31010A08C901810231040002E80336
  frame 5 bmc smbus 300F0A2101080AC1010102310031
  frame 6 mgr smbus 200F0E31010A08CA01820231040002F4011E
  frame 7 bmc smbus 300F0A2101080AC2010202310070
  frame 8 bmc smbus 300F0A2101080AC1010102310031

# Somebody else sends GetTID with 62 bytes of data: two packets, and a wrong length. Each request of the manager is one packet, which joins no
# other. The Set comes twice, and so does the other's message.
story packets of others stand apart from the manager's
board sample effecter
plan one-step
schedule
  start / other smbus 0B 01800002{62*00} / to-bmc 0 / to-mgr 2 / other smbus 0B 01800002{62*00}
  to-bmc 3 / to-bmc 3 / to-mgr 5 / undo / to-bmc 7 / to-mgr 8
frames -> 0 out
  phase Undone
  frames 9
  undo 1
  smbus 0231040002F401
  records same
  frame 0 mgr smbus 200F0B31010A08C8018002320400BA
  frame 1 bmc smbus 420F0A21010B0AC0010000020377
  frame 2 bmc smbus 300F102101080AC001000232000201F401F40147
  frame 3 mgr smbus 200F0E31010A08C901810231040002E80336
  frame 4 bmc smbus 420F0A21010B0AC0010000020377
  frame 5 bmc smbus 300F0A2101080AC1010102310031
  frame 6 bmc smbus 300F0A2101080AC1010102310031
  frame 7 mgr smbus 200F0E31010A08CA01820231040002F4011E
  frame 8 bmc smbus 300F0A2101080AC2010202310070

# Above the upper bound, and of another size: bad data.
story a step that an effecter refuses halts the plan
board sample effecter disabled
plan: [[step]] / kind = \"numeric-effecter\" / effecter = 4 / size = 2 / value = 1001
schedule: start / to-bmc 0 / to-mgr 1 / to-bmc 2 / to-mgr 3
lines -> 0 out: phase Halted 0 Refused 02 / frames 4 / undo 0 / records same
plan: [[step]] / kind = \"numeric-effecter\" / effecter = 4 / size = 3 / value = 1
lines -> 0 out: phase Halted 0 Refused 02 / frames 4 / undo 0 / records same

story a step on an effecter that is not there, or is disabled, halts the plan
board sample effecter disabled
plan: [[step]] / kind = \"numeric-effecter\" / effecter = 5 / size = 2 / value = 1
schedule: start / to-bmc 0 / to-mgr 1
lines -> 0 out: phase Halted 0 GetRefused 80 / frames 2 / undo 0 / records same
plan: [[step]] / kind = \"numeric-effecter\" / effecter = 6 / size = 0 / value = 1
lines -> 0 out: phase Halted 0 NotRestorable / frames 2 / undo 0 / records same

# Seven requests were begun since the first Set: it gets the reply that was kept, and changes nothing. One request later it is too old.
story a late copy on SMBus is too old after eight requests
board sample effecter
plan
  5 x [[step]] / kind = \"numeric-effecter\" / effecter = 4 / size = 2 / value = {600+100}
schedule
  start
  8 x to-bmc {0+2} / to-mgr {1+2}
  to-bmc 2
lines -> 0 out
  phase Getting 4 / frames 18 / undo 4
  smbus 02310400022003 / smbus 0231040002BC02 / smbus 02310400025802 / smbus 0231040002F401
  records changed 1
then: to-bmc 16 / to-mgr 18 / to-bmc 2
lines -> 4 out
  phase Setting 4 / frames 20 / undo 4
  smbus 02310400022003 / smbus 0231040002BC02 / smbus 02310400025802 / smbus 0231040002F401
  records changed 1
  fault 21 Aged
";

/// Users and channels.
const USERS: &str = "story a plan of users and channels is undone
board sample
# The name of user 2, what this user may do on channel 1, and the access of this channel.
plan
  [[step]] / kind = \"user-name\" / user = 2 / name = \"root\"
  [[step]] / kind = \"user-access\" / channel = 1 / user = 2 / limit = 3 / callback = false / link = true / messaging = false
  [[step]] / kind = \"channel-access\" / channel = 1 / store = \"non-volatile\" / access = 0x39 / limit = 5
schedule
  start
  6 x to-bmc {0+2} / to-mgr {1+2}
  undo
  3 x to-bmc {12+2} / to-mgr {13+2}
lines -> 0 out
  phase Undone
  frames 18
  undo 3
  ipmb 1840014244
  ipmb 1843910204
  ipmb 18450261646D696E0000000000000000000000
  records same

story the name of user 1 is fixed
board sample
plan: [[step]] / kind = \"user-name\" / user = 1 / name = \"root\"
schedule: start / to-bmc 0 / to-mgr 1 / to-bmc 2 / to-mgr 3
lines -> 0 out: phase Halted 0 Refused CC / frames 4 / undo 0 / records same
";

/// LAN parameters.
const LAN: &str = "story an address on a LAN is undone
board sample lan
plan: [[step]] / kind = \"lan-param\" / channel = 1 / param = 3 / data = [192, 0, 2, 10]
schedule: start / to-bmc 0 / to-mgr 1 / to-bmc 2 / to-mgr 3 / undo / to-bmc 4 / to-mgr 5
frames -> 0 out
  phase Undone
  frames 6
  undo 1
  ipmb 30010103C0000201
  records same
  frame 0 mgr ipmb 2030B02C000201030000CE
  frame 1 bmc ipmb 2C34A02000020011C00002010A
  frame 2 mgr ipmb 2030B02C04010103C000020AFF
  frame 3 bmc ipmb 2C34A020040100DB
  frame 4 mgr ipmb 2030B02C08010103C000020104
  frame 5 bmc ipmb 2C34A020080100D7

# The address comes from a server, and lies in another network.
story each LAN parameter is undone, the last first
board sample lan
plan
  [[step]] / kind = \"lan-param\" / channel = 1 / param = 4 / data = [2]
  [[step]] / kind = \"lan-param\" / channel = 1 / param = 3 / data = [198, 51, 100, 7]
  [[step]] / kind = \"lan-param\" / channel = 1 / param = 6 / data = [255, 255, 254, 0]
  [[step]] / kind = \"lan-param\" / channel = 1 / param = 12 / data = [198, 51, 100, 1]
  [[step]] / kind = \"lan-param\" / channel = 1 / param = 20 / data = [100, 131]
schedule
  start
  10 x to-bmc {0+2} / to-mgr {1+2}
lines -> 0 out
  phase Done
  frames 20
  undo 5
  ipmb 300101140000
  ipmb 3001010CC00002FE
  ipmb 30010106FFFFFF00
  ipmb 30010103C0000201
  ipmb 3001010401
  records changed 5
then
  undo
  5 x to-bmc {20+2} / to-mgr {21+2}
lines -> 0 out
  phase Undone
  frames 30
  undo 5
  ipmb 300101140000
  ipmb 3001010CC00002FE
  ipmb 30010106FFFFFF00
  ipmb 30010103C0000201
  ipmb 3001010401
  records same

# Twice the same address: the second Get shows what the first Set made.
story an address that is set twice goes back twice
board sample lan
plan
  2 x [[step]] / kind = \"lan-param\" / channel = 1 / param = 3 / data = [192, 0, 2, {10+10}]
schedule
  start
  4 x to-bmc {0+2} / to-mgr {1+2}
lines -> 0 out: phase Done / frames 8 / undo 2 / ipmb 30010103C000020A / ipmb 30010103C0000201 / records changed 1
then: undo / to-bmc 8 / to-mgr 9 / to-bmc 10 / to-mgr 11
lines -> 0 out: phase Undone / frames 12 / undo 2 / ipmb 30010103C000020A / ipmb 30010103C0000201 / records same

story a step on a channel without LAN parameters halts the plan
board sample
plan: [[step]] / kind = \"lan-param\" / channel = 1 / param = 20 / data = [100, 128]
schedule: start / to-bmc 0 / to-mgr 1
lines -> 0 out: phase Halted 0 GetRefused CC / frames 2 / undo 0 / records same
board sample lan
plan: [[step]] / kind = \"lan-param\" / channel = 2 / param = 20 / data = [100, 128]
lines -> 0 out: phase Halted 0 GetRefused CC / frames 2 / undo 0 / records same

# It changes the configuration, so no schedule has somebody else send it. A Get may come.
story others set no LAN parameter and get each
board sample lan
schedule: other ipmb 40 300001010402
lines -> 4 out: phase Fresh / frames 0 / undo 0 / records same / fault 1 Changing
schedule: other ipmb 40 30000201040000
frames -> 0 out: phase Fresh / frames 1 / undo 0 / records same / frame 0 bmc ipmb 40348C200002001101CC
";

/// Long plans, and a copy of a frame that comes late.
const LATE: &str = "# Step i makes the positive hysteresis i + 1, and the negative one 2.
story a late copy gets the kept reply, and then is too old
board sample
plan
  21 x [[step]] / kind = \"hysteresis\" / sensor = 5 / positive = {1+1} / negative = 2
schedule
  start
  30 x to-bmc {0+2} / to-mgr {1+2}
  to-bmc 6
lines -> 0 out
  phase Getting 15 / frames 62 / undo 15
  14 x ipmb 102405FF{x14-1}02
  ipmb 102405FF0202
  records changed 1
then
  to-bmc 60 / to-mgr 62
  9 x to-bmc {63+2} / to-mgr {64+2}
  to-bmc 6
lines -> 4 out
  phase Getting 20 / frames 82 / undo 20
  19 x ipmb 102405FF{x19-1}02
  ipmb 102405FF0202
  records changed 1
  fault 83 Aged

# The numbers of requests go round: the Get of step 32 is request 64, and its frame 128.
story request 64 has the bytes of request 0
board sample
plan
  33 x [[step]] / kind = \"hysteresis\" / sensor = 5 / positive = {1+1} / negative = 2
schedule
  start
  64 x to-bmc {0+2} / to-mgr {1+2}
frames -> 0 out
  phase Getting 32 / frames 129 / undo 32
  31 x ipmb 102405FF{x31-1}02
  ipmb 102405FF0202
  records changed 1
  frame 0 mgr ipmb 2010D02C002505FFAB
  ..
  frame 128 mgr ipmb 2010D02C002505FFAB

story forty steps are undone
board sample
plan
  40 x [[step]] / kind = \"hysteresis\" / sensor = 5 / positive = {1+1} / negative = 2
schedule
  start
  80 x to-bmc {0+2} / to-mgr {1+2}
  undo
  40 x to-bmc {160+2} / to-mgr {161+2}
lines -> 0 out
  phase Undone / frames 240 / undo 40
  39 x ipmb 102405FF{x39-1}02
  ipmb 102405FF0202
  records same
";

#[test]
fn plans_are_undone_or_halt(rt: HostRuntime) {
    expect_told(&rt, rt.alloc(), ATTRIBUTES);
    expect_told(&rt, rt.alloc(), EFFECTERS);
    expect_told(&rt, rt.alloc(), USERS);
    expect_told(&rt, rt.alloc(), LAN);
}

#[test]
fn long_plans_are_undone_and_late_copies_age(rt: HostRuntime) {
    expect_told(&rt, rt.alloc(), LATE);
}
