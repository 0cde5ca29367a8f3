//! What `bmclab play --explain` says of plays, and `bmclab schedule` of the schedules that it writes.
use super::expect_told;

/// Plays that are explained.
const PLAYS: &str = "story a refused Set says its code, and what was never tried
# Upper critical would lie above upper non-recoverable, which is 6Eh.
board sample
plan
  [[step]] / kind = \"hysteresis\" / sensor = 5 / positive = 4 / negative = 4
  [[step]] / kind = \"thresholds\" / sensor = 5 / uc = 0x70
  [[step]] / kind = \"hysteresis\" / sensor = 5 / positive = 6 / negative = 6
schedule: start / to-bmc 0 / to-mgr 1 / to-bmc 2 / to-mgr 3 / to-bmc 4 / # A remark. / to-mgr 5 / to-bmc 6 / to-mgr 7
notes bmclab play --explain board.toml plan.toml schedule.txt -> noted
  halted at event 9, line 10 of the schedule, step 2 of 3 (sensor 5 thresholds): the controller refused the step's Set, with this code, and changed nothing
  CCh invalid data field: a value, bit or number that this board or profile doesn't take; a channel without LAN parameters
  next: look at the values that the command takes
  next: mend the step. `undo` takes back the steps before it
  1 of 3 steps was never tried
notes bmclab play --chart --explain board.toml plan.toml schedule.txt -> noted
  halted at event 9, line 10 of the schedule, step 2 of 3 (sensor 5 thresholds): the controller refused the step's Set, with this code, and changed nothing
  CCh invalid data field: a value, bit or number that this board or profile doesn't take; a channel without LAN parameters
  next: look at the values that the command takes
  next: mend the step. `undo` takes back the steps before it
  1 of 3 steps was never tried
terminal bmclab play board.toml plan.toml schedule.txt -> noted
  halted at event 9, line 10 of the schedule, step 2 of 3 (sensor 5 thresholds): the controller refused the step's Set, with this code, and changed nothing
  CCh invalid data field: a value, bit or number that this board or profile doesn't take; a channel without LAN parameters
  next: look at the values that the command takes
  next: mend the step. `undo` takes back the steps before it
  1 of 3 steps was never tried
notes bmclab play board.toml plan.toml schedule.txt -> nothing
bmclab play --explain board.toml plan.toml schedule.txt -> 0 out
  phase Halted 1 Refused CC / frames 8 / undo 1 / ipmb 102405FF0202 / records changed 1

# The sensor's record is a compact one, and its id string has ten bytes of ASCII (IPMI 2.0, type/length byte CAh).
story the names that a board gives are said
board sample
swap sdr = [\"010051C00100\"] => sdr = [\"01005102252000050000000000000000000000000000000000000000000000CA496E6C65742054656D70\"]
plan
  [[step]] / kind = \"thresholds\" / sensor = 5 / uc = 0x70
  [[step]] / kind = \"bios-attribute\" / handle = 2 / number = 40
schedule: start / to-bmc 0 / to-mgr 1 / to-bmc 2 / to-mgr 3
notes bmclab play --explain board.toml plan.toml schedule.txt -> noted
  halted at event 5, line 5 of the schedule, step 1 of 2 (sensor 5 (\"Inlet Temp\") thresholds): the controller refused the step's Set, with this code, and changed nothing
  CCh invalid data field: a value, bit or number that this board or profile doesn't take; a channel without LAN parameters
  next: look at the values that the command takes
  next: mend the step. `undo` takes back the steps before it
  1 of 2 steps was never tried
plan: [[step]] / kind = \"bios-attribute\" / handle = 2 / number = 40
schedule: start
notes bmclab play --explain board.toml plan.toml schedule.txt -> noted
  step 1 of 1 (attribute 2 (\"Delay\")): the step's Get is open / next: deliver its frames and the reply's, or `quiet`
terminal bmclab play --chart --restart 1 board.toml plan.toml schedule.txt -> noted
  step 1 of 1 (attribute 2 (\"Delay\")): ..

story a halt is told of a plan that is undone
# There is no sensor 9.
board sample
plan
  [[step]] / kind = \"hysteresis\" / sensor = 9 / positive = 4 / negative = 4
  [[step]] / kind = \"power-policy\" / policy = 1
  [[step]] / kind = \"power-policy\" / policy = 2
schedule: start / to-bmc 0 / to-mgr 1 / undo
notes bmclab play --explain board.toml plan.toml schedule.txt -> noted
  halted at event 3, line 3 of the schedule, step 1 of 3 (sensor 9 hysteresis): the controller refused the step's Get, with this code
  CBh not present: no such sensor, or no such record
  next: name one that the board has
  next: mend the step: the board may have no such sensor, user or attribute. `undo` takes back the steps before it
  all is taken back
  2 of 3 steps were never tried

story what can't be restored is told
# The watchdog timer of the sample board was never set.
board sample
plan
  [[step]] / kind = \"watchdog\" / use = 4 / no_log = false / action = 1 / interrupt = 0 / pre = 10 / initial = 600
schedule: start / to-bmc 0 / to-mgr 1
notes bmclab play --explain board.toml plan.toml schedule.txt -> noted
  halted at event 3, line 3 of the schedule, step 1 of 1 (watchdog timer): the Get shows what no Set brings back, so none was sent
  next: leave the step out, or bring the record into a state that can be set. `undo` takes back the steps before it

story an unsettled request says what that means, and a fault has its line
board sample
plan
  retries = 0
  [[step]] / kind = \"power-policy\" / policy = 1
  [[step]] / kind = \"power-policy\" / policy = 2
schedule: # The Get isn't heard. / start / quiet /  / to-bmc 7
notes bmclab play --explain board.toml plan.toml schedule.txt -> noted
  step 1 of 2 (power restore policy): the request was sent as often as it may be, and no reply came: nobody knows whether it was carried out
  next: `again` sends the same request once more, and there is no undo before it is settled
  1 of 2 steps was never tried
  event 3 is line 5 of the schedule: to-bmc 7

story a code of PLDM is told by PLDM
# The sample board has no effecter.
board sample
plan
  [[step]] / kind = \"numeric-effecter\" / effecter = 3 / size = 0 / value = 1
schedule: start / to-bmc 0 / to-mgr 1
notes bmclab play --explain board.toml plan.toml schedule.txt -> noted
  halted at event 3, line 3 of the schedule, step 1 of 1 (numeric effecter 3): the controller refused the step's Get, with this code
  80h particular to a command: no such effecter
  next: name one that the board has
  next: mend the step: the board may have no such sensor, user or attribute. `undo` takes back the steps before it

story plans that are done, undone, stopped or not begun
board sample
plan events
notes bmclab play --explain board.toml plan.toml schedule.txt -> noted
  nothing was begun / next: `start` / 1 of 1 steps was never tried
schedule: start
notes bmclab play --explain board.toml plan.toml schedule.txt -> noted
  step 1 of 1 (sensor 5 event enable): the step's Get is open / next: deliver its frames and the reply's, or `quiet`
schedule: start / to-bmc 0 / to-mgr 1 / to-bmc 2 / to-mgr 3
notes bmclab play --explain board.toml plan.toml schedule.txt -> noted
  each step was done / next: `undo` takes all back
schedule: start / stop / to-bmc 0 / to-mgr 1
notes bmclab play --explain board.toml plan.toml schedule.txt -> noted
  halted at event 4, line 4 of the schedule, step 1 of 1 (sensor 5 event enable): the manager was told to stop before this step, or was made again
  next: `undo` takes back the steps before it

story nothing explains texts that are refused
board sample
plan events
schedule: begin
notes bmclab play --explain board.toml plan.toml schedule.txt -> nothing
bmclab play --explain board.toml plan.toml schedule.txt -> 3 err: schedule Line 1
schedule: start
notes bmclab play --explain --restart 2 board.toml plan.toml schedule.txt -> nothing
notes bmclab play --explain none.toml plan.toml schedule.txt -> nothing
memory plan
notes bmclab play --explain board.toml plan.toml schedule.txt -> nothing
bmclab play --explain board.toml plan.toml schedule.txt -> 5 err: memory

story files in each other's place are told
board: [[step]] / kind = \"power-policy\" / policy = 2
plan sample
schedule: start
bmclab play --explain board.toml plan.toml schedule.txt -> 3 err: board Missing top tid
notes bmclab play --explain board.toml plan.toml schedule.txt -> noted
  board.toml is read as a board file, and looks like a plan
  plan.toml is read as a plan, and looks like a board file
terminal bmclab play board.toml plan.toml schedule.txt -> noted
  board.toml is read as a board file, and looks like a plan
  plan.toml is read as a plan, and looks like a board file
notes bmclab play board.toml plan.toml schedule.txt -> nothing
board sample
notes bmclab play --explain board.toml plan.toml schedule.txt -> noted
  plan.toml is read as a plan, and looks like a board file
  each step was done / next: `undo` takes all back
plan: start
schedule: [[step]] / kind = \"power-policy\" / policy = 2
bmclab play --explain board.toml plan.toml schedule.txt -> 3 err: plan Text
notes bmclab play --explain board.toml plan.toml schedule.txt -> noted
  plan.toml is read as a plan, and looks like a schedule
  schedule.txt is read as a schedule, and looks like a plan
";

/// Schedules that are written.
const WRITTEN: &str = "story a schedule in which the plan halts says so
board sample
plan
  [[step]] / kind = \"thresholds\" / sensor = 5 / uc = 0x70
  [[step]] / kind = \"hysteresis\" / sensor = 5 / positive = 6 / negative = 6
notes bmclab schedule --undo board.toml plan.toml -> noted
  halted at event 5, line 5 of the schedule, step 1 of 2 (sensor 5 thresholds): the controller refused the step's Set, with this code, and changed nothing
  CCh invalid data field: a value, bit or number that this board or profile doesn't take; a channel without LAN parameters
  next: look at the values that the command takes
  next: mend the step. `undo` takes back the steps before it
  1 of 2 steps was never tried

story a schedule's note says the names that the board gives
board sample
plan: [[step]] / kind = \"bios-attribute\" / handle = 2 / number = 35
notes bmclab schedule board.toml plan.toml -> noted
  halted at event 5, line 5 of the schedule, step 1 of 1 (attribute 2 (\"Delay\")): the controller refused the step's Set, with this code, and changed nothing
  02h invalid data: a value, flag, handle or type that isn't taken
  ..

story a schedule that comes to its end says nothing
board sample
plan events
notes bmclab schedule board.toml plan.toml -> nothing
notes bmclab schedule --undo board.toml plan.toml -> nothing
notes bmclab schedule --lose 20 --seed 1 --undo board.toml plan.toml -> nothing
notes bmclab schedule none.toml plan.toml -> nothing
";

/// A schedule that ends for want of room.
const FULL: &str = "story a schedule that ends for want of room says so
board sample
plan events
notes bmclab schedule --lose 100 board.toml plan.toml -> noted
  the schedule ends for want of room, after 65536 frames, in phase Getting 0
";

#[test]
fn plays_are_explained(rt: HostRuntime) {
    expect_told(&rt, rt.alloc(), PLAYS);
}

#[test]
fn schedules_say_where_they_end(rt: HostRuntime) {
    expect_told(&rt, rt.alloc(), WRITTEN);
}

#[test]
fn a_schedule_says_that_it_has_no_more_room(rt: HostRuntime) {
    expect_told(&rt, rt.alloc(), FULL);
}
