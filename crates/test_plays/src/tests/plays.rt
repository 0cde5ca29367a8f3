//! What a play tells.
use super::expect_told;

/// Frames, phases in which a run ends, and boards.
const ENDS: &str = "story frames are told where they are asked for
board sample
plan events
schedule: start / to-bmc 0 / to-mgr 1
lines -> 0 out: phase Setting 0 / frames 3 / undo 0 / records same
then: to-bmc 2 / to-mgr 3 / undo / to-bmc 4 / to-mgr 5
frames -> 0 out
  phase Undone
  frames 6
  undo 1
  ipmb 102805E080000000
  records same
  frame 0 mgr ipmb 2010D02C002905A6
  frame 1 bmc ipmb 2C14C020002900C000020000F5
  frame 2 mgr ipmb 2010D02C042805D08002000051
  frame 3 bmc ipmb 2C14C020042800B4
  frame 4 mgr ipmb 2010D02C082805E0800000003F
  frame 5 bmc ipmb 2C14C020082800B0

story a reply that was kept is told as a frame
board sample
plan events
# The last line brings the lost reply after all, and changes nothing.
schedule: start / to-bmc 0 / to-mgr 1 / to-bmc 2 / quiet / to-bmc 4 / to-mgr 5 / to-mgr 3
frames -> 0 out
  phase Done
  frames 6
  undo 1
  ipmb 102805E080000000
  records changed 1
  frame 0 mgr ipmb 2010D02C002905A6
  frame 1 bmc ipmb 2C14C020002900C000020000F5
  frame 2 mgr ipmb 2010D02C042805D08002000051
  frame 3 bmc ipmb 2C14C020042800B4
  frame 4 mgr ipmb 2010D02C042805D08002000051
  frame 5 bmc ipmb 2C14C020042800B4

# The stories of `examples` have the ends of both.
story a plan that is unsettled can not be taken back yet
board sample
part no-retries: retries = 0
plan no-retries events
schedule: start / to-bmc 0 / to-mgr 1 / quiet
lines -> 0 out: phase Unsettled 0 / frames 3 / undo 0 / records same
then: undo
lines -> 0 out: phase Unsettled 0 / frames 3 / undo 0 / records same

story the step before a refused one is done until it is taken back
board sample
plan
  [[step]] / kind = \"hysteresis\" / sensor = 5 / positive = 4 / negative = 4
  [[step]] / kind = \"thresholds\" / sensor = 5 / uc = 0x70
schedule
  start
  4 x to-bmc {0+2} / to-mgr {1+2}
lines -> 0 out: phase Halted 1 Refused CC / frames 8 / undo 1 / ipmb 102405FF0202 / records changed 1

story an empty plan needs no frame, there and back
board sample
lines -> 0 out: phase Fresh / frames 0 / undo 0 / records same
schedule: start
lines -> 0 out: phase Done / frames 0 / undo 0 / records same
then: undo
lines -> 0 out: phase Undone / frames 0 / undo 0 / records same

story a call in a wrong phase changes nothing
board sample
schedule: undo / again
lines -> 0 out: phase Fresh / frames 0 / undo 0 / records same

story a sensor has no Set that brings an unreadable threshold back
board sample
plan: [[step]] / kind = \"thresholds\" / sensor = 7 / unr = 0xF0
schedule: start / to-bmc 0 / to-mgr 1
lines -> 0 out: phase Halted 0 NotRestorable / frames 2 / undo 0 / records same
then: undo
lines -> 0 out: phase Undone / frames 2 / undo 0 / records same

story a ninth requester finds the port busy
board sample
# Nine requesters reserve the event log, and the first once more.
schedule
  9 x other ipmb {x64+2} 280042
  other ipmb 40 280042
frames -> 0 out
  phase Fresh
  frames 10
  undo 0
  records same
  frame 0 bmc ipmb 402C942000420001009D
  frame 1 bmc ipmb 422C922000420002009C
  frame 2 bmc ipmb 442C902000420003009B
  frame 3 bmc ipmb 462C8E2000420004009A
  frame 4 bmc ipmb 482C8C20004200050099
  frame 5 bmc ipmb 4A2C8A20004200060098
  frame 6 bmc ipmb 4C2C8820004200070097
  frame 7 bmc ipmb 4E2C8620004200080096
  frame 8 bmc ipmb 502C84200042C0DE
  frame 9 bmc ipmb 402C942000420001009D

story a board file says which board it is
# This board has no sensors, so a Get of one is refused with code CBh.
board fields device-20h
plan events
schedule: start / to-bmc 0 / to-mgr 1
lines -> 0 out: phase Halted 0 GetRefused CB / frames 2 / undo 0 / records same

story a board file has the positive hysteresis before the negative one
board sample
swap hysteresis = [2, 2] => hysteresis = [3, 1]
ipmb 2010D02C042505FFA7 -> 0 out: 2C14C0200425000301B3

story each record that changed counts
board sample
plan events
  [[step]] / kind = \"power-policy\" / policy = 2
schedule
  start / to-bmc 0 / to-mgr 1 / to-bmc 2 / to-mgr 3 / to-bmc 4 / to-mgr 5 / to-bmc 6 / to-mgr 7
lines -> 0 out: phase Done / frames 8 / undo 2 / ipmb 000601 / ipmb 102805E080000000 / records changed 2

story a schedule keeps the premise on packets
board sample
plan events
schedule: start / to-bmc 0 / to-mgr 1 / to-bmc 2 / to-mgr 3
premises -> 0 out: phase Done / frames 4 / undo 1 / ipmb 102805E080000000 / records changed 1 / premises kept
then: to-mgr 9
premises -> 4 out: phase Done / frames 4 / undo 1 / ipmb 102805E080000000 / records changed 1 / fault 6 NoFrame
";

#[test]
fn a_run_ends_in_any_phase(rt: HostRuntime) {
    expect_told(&rt, rt.alloc(), ENDS);
}
