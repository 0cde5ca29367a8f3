//! Events that a lab does not take, what others do, and texts that are refused.
use super::expect_told;

/// Events that a lab does not take.
const FAULTS: &str = "story the event that has a fault is told last
board sample
plan events
schedule: to-bmc 9
lines -> 4 out: phase Fresh / frames 0 / undo 0 / records same / fault 1 NoFrame
schedule: start / to-mgr 0
lines -> 4 out: phase Getting 0 / frames 1 / undo 0 / records same / fault 2 WrongWay
schedule: other ipmb 40 1000260510000000005A00
lines -> 4 out: phase Fresh / frames 0 / undo 0 / records same / fault 1 Changing
schedule: other ipmb 2C 180001
lines -> 4 out: phase Fresh / frames 0 / undo 0 / records same / fault 1 Impersonates
# What is changing and from the manager's address is changing first.
schedule: other ipmb 2C 1000260510000000005A00
lines -> 4 out: phase Fresh / frames 0 / undo 0 / records same / fault 1 Changing
schedule: noise ipmb 2018C82C0001D3
lines -> 4 out: phase Fresh / frames 0 / undo 0 / records same / fault 1 Forged
schedule: start / idle ipmb 2C
lines -> 4 out: phase Getting 0 / frames 1 / undo 0 / records same / fault 2 StillOpen
# A request on one bus keeps the manager's window on the other.
schedule: start / idle smbus 08
lines -> 4 out: phase Getting 0 / frames 1 / undo 0 / records same / fault 2 StillOpen
# Lines that are skipped are no events, and what comes behind the fault isn't played.
schedule: # begin /  / start / to-mgr 0 / to-bmc 0
lines -> 4 out: phase Getting 0 / frames 1 / undo 0 / records same / fault 2 WrongWay

story a fault is told behind the frames
board sample
plan events
schedule: start / to-bmc 0 / to-bmc 1
frames -> 4 out
  phase Getting 0
  frames 2
  undo 0
  records same
  frame 0 mgr ipmb 2010D02C002905A6
  frame 1 bmc ipmb 2C14C020002900C000020000F5
  fault 3 WrongWay

story a window that was forgotten makes older frames too old
board sample
plan events
schedule: start / to-bmc 0 / to-mgr 1 / to-bmc 2 / to-mgr 3 / idle ipmb 2C / to-bmc 2
lines -> 4 out: phase Done / frames 4 / undo 1 / ipmb 102805E080000000 / records changed 1 / fault 7 Aged

story a lab that sent 65,536 frames has no room
board sample
plan events
schedule
  65537 x other ipmb 40 280042
lines -> 4 out: phase Fresh / frames 65536 / undo 0 / records same / fault 65537 Room

# The Set's four packets are frames 65,534 to 65,537. Then nothing else is sent, but a tenth of a second may go by.
story a message goes across the 65,536th frame
board sample
plan: [[step]] / kind = \"bios-attribute\" / handle = 1 / text = \"{200*x}\"
schedule
  start / to-bmc 0
  65532 x other ipmb 40 280042
  to-mgr 1 / tick / to-bmc 65534
lines -> 4 out: phase Setting 0 / frames 65538 / undo 0 / records same / fault 65537 Room
";

/// What others ask, what happens on the bench, and noise.
const OTHERS: &str = "story a message of somebody else is answered
board sample
schedule: other smbus 0B 01800002
frames -> 0 out
  phase Fresh / frames 1 / undo 0 / records same
  frame 0 bmc smbus 420F0B21010B0AC00100000200053B

story a reading is taken, shown and logged
board sample
schedule: scan 05 60 / other ipmb 40 10002D05 / other ipmb 40 2804430000000000FF
frames -> 0 out
  phase Fresh / frames 2 / undo 0 / records same
  frame 0 bmc ipmb 4014AC20002D0060C0D8BB
  frame 1 bmc ipmb 402C9420044300FFFF0100020000000020000401050159605F55

story ten ticks are a second
board sample
schedule
  10 x tick
  other ipmb 40 280048
frames -> 0 out
  phase Fresh / frames 1 / undo 0 / records same
  frame 0 bmc ipmb 402C94200048000100000097

story a clock at its end stays there
board sample
swap clock = 0 => clock = 0xFFFFFFFF
schedule
  other ipmb 40 280048
  20 x tick
  other ipmb 42 280048
frames -> 0 out
  phase Fresh / frames 2 / undo 0 / records same
  frame 0 bmc ipmb 402C9420004800FFFFFFFF9C
  frame 1 bmc ipmb 422C9220004800FFFFFFFF9C

story noise changes nothing
board sample
schedule: noise ipmb 2018C82C0001D4 / noise smbus FF
lines -> 0 out: phase Fresh / frames 0 / undo 0 / records same

# Two packets of a Set wait at the controller, and then two of the reply to a Get at the manager. Bytes come that are too short, too long, damaged in
# either checksum or odd in an address, on IPMB; on SMBus too short, no MCTP, of a wrong count, damaged or of another version. Among them are a start under the
# name of the packets that wait, and the next of them.
story a noise of every sort leaves the packets that wait at either end
board sample
plan
  [[step]] / kind = \"bios-attribute\" / handle = 1 / text = \"{200*x}\"
  [[step]] / kind = \"bios-attribute\" / handle = 1 / text = \"b\"
schedule
  start / to-bmc 0 / to-mgr 1 / to-bmc 2 / to-bmc 3
  noise ipmb 2010D02C0029 / noise ipmb {33*00} / noise ipmb 2010D12C002905A6 / noise ipmb 2010D02C002905A7 / noise ipmb 2110CF2C002905A6
  noise smbus 200F0B31010A08C9 / noise smbus 200E0B31010A08C901810232040007 / noise smbus 200F0C31010A08C901810232040007
  noise smbus 200F0B31010A08C901810232040008 / noise smbus 200F0B31020A08C9018102320400BF / noise smbus 200F4531010A0829{64*78}6E
  to-bmc 4 / to-bmc 5 / to-mgr 6 / to-bmc 7 / to-mgr 8 / to-mgr 9
  noise ipmb 2C14C0200029 / noise ipmb {80*2C} / noise ipmb 2C14C120002900C000020000F5 / noise ipmb 2C14C020002900C000020000F6
  noise ipmb 2D14BF20002900C000020000F5
  noise smbus 300F0A2101080AC2 / noise smbus 310F0A2101080AC201020308005F / noise smbus 300F0B2101080AC201020308005F
  noise smbus 300F0A2101080AC2010203080060 / noise smbus 300F0A2102080AC20102030800D4 / noise smbus 300F452101080A22{64*78}CA
  to-mgr 10 / to-mgr 11 / to-bmc 12 / to-mgr 13
lines -> 0 out
  phase Done
  frames 14
  undo 2
  smbus 03070000000005010001C800{200*78}
  smbus 0307000000000501000106007261636B2D31
  records changed 1
then: undo / to-bmc 14 / to-bmc 15 / to-bmc 16 / to-bmc 17 / to-mgr 18 / to-bmc 19 / to-mgr 20
lines -> 0 out
  phase Undone
  frames 21
  undo 2
  smbus 03070000000005010001C800{200*78}
  smbus 0307000000000501000106007261636B2D31
  records same
";

/// Texts that are refused.
const REFUSED: &str = "story the first text that is refused is named
board: tid =
plan events
schedule: start
frames -> 3 err: board Text
board: tid = 5
plan: retries = 16
schedule: begin
frames -> 3 err: board Missing top clock
board sample
frames -> 3 err: plan Range retries
schedule: start
plan: [[step]] / kind = \"password\"
frames -> 3 err: plan 0 OutsidePlan Password
plan: [[step]] / kind = \"clock\"
frames -> 3 err: plan 0 OutsidePlan Clock
plan: [[step]] / kind = \"log\"
frames -> 3 err: plan 0 OutsidePlan Log
plan: [[step]] / kind = \"watchdog\" / flags_clear = 0
frames -> 3 err: plan 0 NoGet FlagsClear
# In a step of another kind the field is ignored.
plan: [[step]] / kind = \"power-policy\" / policy = 2 / flags_clear = 0
lines -> 0 out: phase Getting 0 / frames 1 / undo 0 / records same
plan events
schedule: start / to-bmc x
frames -> 3 err: schedule Line 2
# A carriage return stands before the line's end.
schedule: start\r
frames -> 3 err: schedule Line 1

story a plan of 257 steps has too many, and one of 256 is played
board sample
plan
  257 x [[step]] / kind = \"power-policy\" / policy = 2
schedule: start
lines -> 3 err: plan TooMany
plan
  256 x [[step]] / kind = \"power-policy\" / policy = 2
lines -> 0 out: phase Getting 0 / frames 1 / undo 0 / records same
";

#[test]
fn the_event_that_has_a_fault_is_told_last(rt: HostRuntime) {
    expect_told(&rt, rt.alloc(), FAULTS);
}

#[test]
fn others_are_answered_and_texts_are_refused(rt: HostRuntime) {
    expect_told(&rt, rt.alloc(), OTHERS);
    expect_told(&rt, rt.alloc(), REFUSED);
}
