//! Plays that end by what came of the plan, and lists of the records that changed.
use super::{expect_equal, expect_told};
use app_base::{Status, end_status, halts, records_status, strict_status};
use std::process::Abort;
use two_wire::Code;
use undo_core::{Phase, Why};

/// The statuses.
const STATUSES: &str =
    "story a request that is open, and one that is unsettled, end a strict play with 11
board sample
part no-retries: retries = 0
plan no-retries events
schedule: start / to-bmc 0 / to-mgr 1
bmclab play --strict board.toml plan.toml schedule.txt -> 11 out: phase Setting 0 / frames 3 / undo 0 / records same
bmclab play board.toml plan.toml schedule.txt -> 0 out: phase Setting 0 / frames 3 / undo 0 / records same
then: quiet
bmclab play --strict board.toml plan.toml schedule.txt -> 11 out: phase Unsettled 0 / frames 3 / undo 0 / records same

story a manager that is made again while a request is open ends one with 11
board sample
plan events
schedule: start
bmclab play --strict --list --restart 1 board.toml plan.toml schedule.txt -> 11 out: phase Unsettled 0 / frames 1 / undo 0 / records same
bmclab play --strict --chart --restart 1 board.toml plan.toml schedule.txt -> 11 out: event ..Unsettled 0

story a plan that is done, and one that is undone, end one with 0
board sample
plan events
schedule: start / to-bmc 0 / to-mgr 1 / to-bmc 2 / to-mgr 3
bmclab play --strict board.toml plan.toml schedule.txt -> 0 out: phase Done / frames 4 / undo 1 / ipmb 102805E080000000 / records changed 1
then: undo
bmclab play --strict board.toml plan.toml schedule.txt -> 11 out: phase Undoing 0 / frames 5 / undo 1 / ipmb 102805E080000000 / records changed 1
then: to-bmc 4 / to-mgr 5
bmclab play --strict board.toml plan.toml schedule.txt -> 0 out: phase Undone / frames 6 / undo 1 / ipmb 102805E080000000 / records same

story no plan that begins ends one with 0
board sample
plan events
bmclab play --strict board.toml plan.toml schedule.txt -> 0 out: phase Fresh / frames 0 / undo 0 / records same

story a plan that halted ends one with 10, and so it does once it is undone
board sample
plan
  [[step]] / kind = \"hysteresis\" / sensor = 5 / positive = 4 / negative = 4
  [[step]] / kind = \"thresholds\" / sensor = 5 / uc = 0x70
schedule
  start
  4 x to-bmc {0+2} / to-mgr {1+2}
bmclab play --strict board.toml plan.toml schedule.txt -> 10 out: phase Halted 1 Refused CC / frames 8 / undo 1 / ipmb 102405FF0202 / records changed 1
bmclab play --strict --chart board.toml plan.toml schedule.txt -> 10 out: event ..Halted 1 Refused CC
then: undo / to-bmc 8 / to-mgr 9
bmclab play --strict board.toml plan.toml schedule.txt -> 10 out: phase Undone / frames 10 / undo 1 / ipmb 102405FF0202 / records same
bmclab play --strict --chart board.toml plan.toml schedule.txt -> 10 out: event ..Undone
bmclab play --strict --list --explain board.toml plan.toml schedule.txt -> 10 out: phase Undone / frames 10 / undo 1 / ipmb 102405FF0202 / records same
notes bmclab play --strict --explain board.toml plan.toml schedule.txt -> noted
  halted at event 9, line 9 of the schedule, step 2 of 2 (sensor 5 thresholds): the controller refused the step's Set, with this code, and changed nothing
  CCh invalid data field: a value, bit or number that this board or profile doesn't take; a channel without LAN parameters
  next: look at the values that the command takes
  next: mend the step. `undo` takes back the steps before it
  all is taken back
bmclab play board.toml plan.toml schedule.txt -> 0 out: phase Undone / frames 10 / undo 1 / ipmb 102405FF0202 / records same
then: to-bmc 12
bmclab play --strict board.toml plan.toml schedule.txt -> 4 out
  phase Undone / frames 10 / undo 1 / ipmb 102405FF0202 / records same / fault 13 NoFrame

# A late packet joins those of the last undo: 50 bytes of its text lie behind the 14 of what stands before them.
story a record that changed although all is undone ends one with 13
board fields device-20h
  [[attribute]] / name = \"Label\" / kind = \"string\" / string_type = 1 / least = 0 / most = 200 / default = \"\" / current = \"rack-1\" / readonly = false
  [[attribute]] / name = \"Notes\" / kind = \"string\" / string_type = 1 / least = 0 / most = 200 / default = \"\" / current = \"{200*y}\" / readonly = false
  [[attribute]] / name = \"Delay\" / kind = \"integer\" / lower = 0 / upper = 300 / increment = 10 / default = 30 / current = 30 / readonly = false
plan
  [[step]] / kind = \"bios-attribute\" / handle = 1 / text = \"{200*a}\"
  [[step]] / kind = \"bios-attribute\" / handle = 0 / text = \"{200*b}\"
  [[step]] / kind = \"bios-attribute\" / handle = 2 / number = 40
  [[step]] / kind = \"bios-attribute\" / handle = 2 / number = 50
schedule
  start / to-bmc 0 / to-mgr 1 / to-mgr 2 / to-mgr 3 / to-mgr 4 / to-bmc 5 / to-bmc 6 / to-bmc 7 / to-bmc 8 / to-mgr 9
  to-bmc 10 / to-mgr 11 / to-bmc 12 / to-bmc 13 / to-bmc 14 / to-bmc 15 / to-mgr 16 / to-bmc 12 / to-bmc 17 / to-mgr 18
  to-bmc 19 / to-mgr 20 / to-bmc 21 / to-mgr 22 / to-bmc 23 / to-mgr 24 / undo / to-bmc 25 / to-mgr 26 / to-bmc 27 / to-mgr 28
  to-bmc 29 / to-mgr 30 / to-bmc 32 / to-bmc 33 / to-bmc 34 / to-mgr 35 / quiet / to-bmc 36 / to-bmc 37 / to-bmc 38 / to-bmc 39 / to-mgr 40
bmclab play --strict board.toml plan.toml schedule.txt -> 13 out: phase Undone / .. / records changed 1
bmclab play --strict --chart board.toml plan.toml schedule.txt -> 13 out: event ..Undone
bmclab play --list --premises board.toml plan.toml schedule.txt -> 0 out
  phase Undone / .. / records changed 1 / attribute 0 (\"Label\"): \"rack-1\" -> \"{50*b}{150*y}\" / premise broken 35
";

/// The list of the records that changed.
const LISTS: &str = "story each record that changed has a line, in the board's order
board sample
plan events
  [[step]] / kind = \"power-policy\" / policy = 2
  [[step]] / kind = \"hysteresis\" / sensor = 5 / positive = 4 / negative = 2
  [[step]] / kind = \"bios-attribute\" / handle = 2 / number = 40
schedule
  start
  8 x to-bmc {0+2} / to-mgr {1+2}
bmclab play --list board.toml plan.toml schedule.txt -> 0 out
  phase Done / frames 16 / undo 4 / .. / records changed 4
  sensor 5 positive-going hysteresis: 2 (02h) -> 4 (04h)
  sensor 5 assertion events: 0200h -> 0280h
  power restore policy: previous -> always on
  attribute 2 (\"Delay\"): 30 -> 40
schedule: start / to-bmc 0 / to-mgr 1 / to-bmc 2
bmclab play --list --frames board.toml plan.toml schedule.txt -> 0 out
  phase Setting 0 / frames 4 / undo 0 / records changed 1 / sensor 5 assertion events: 0200h -> 0280h / frame 0 mgr ipmb 2010D02C002905A6 / ..

# The sensor's record is a compact one, and its id string has ten bytes of ASCII (IPMI 2.0, type/length byte CAh).
story a sensor's name stands behind its number
board sample
swap sdr = [\"010051C00100\"] => sdr = [\"01005102252000050000000000000000000000000000000000000000000000CA496E6C65742054656D70\"]
plan
  [[step]] / kind = \"hysteresis\" / sensor = 5 / positive = 4 / negative = 2
schedule
  start
  2 x to-bmc {0+2} / to-mgr {1+2}
bmclab play --list board.toml plan.toml schedule.txt -> 0 out
  phase Done / frames 4 / undo 1 / .. / records changed 1 / sensor 5 (\"Inlet Temp\") positive-going hysteresis: 2 (02h) -> 4 (04h)

# IPMI 2.0: `IPMI` is 29h DCh A6h in characters of six bits.
story a name in characters of six bits is told
board sample
swap sdr = [\"010051C00100\"] => sdr = [\"010051021E20000500000000000000000000000000000000000000000000008429DCA6\"]
plan
  [[step]] / kind = \"hysteresis\" / sensor = 5 / positive = 4 / negative = 2
schedule
  start
  2 x to-bmc {0+2} / to-mgr {1+2}
bmclab play --list board.toml plan.toml schedule.txt -> 0 out
  phase Done / frames 4 / undo 1 / .. / records changed 1 / sensor 5 (\"IPMI\") positive-going hysteresis: 2 (02h) -> 4 (04h)

# The id string of the first record is in BCD plus, which isn't told.
story the first record of a sensor alone names it
board sample
swap sdr = [\"010051C00100\"] => sdr = [\"010051021C20000500000000000000000000000000000000000000000000004212\", \"02005102252000050000000000000000000000000000000000000000000000CA496E6C65742054656D70\"]
plan
  [[step]] / kind = \"hysteresis\" / sensor = 5 / positive = 4 / negative = 2
schedule
  start
  2 x to-bmc {0+2} / to-mgr {1+2}
bmclab play --list board.toml plan.toml schedule.txt -> 0 out
  phase Done / frames 4 / undo 1 / .. / records changed 1 / sensor 5 positive-going hysteresis: 2 (02h) -> 4 (04h)

story no record that changed has none
board sample
plan events
bmclab play --list board.toml plan.toml schedule.txt -> 0 out: phase Fresh / frames 0 / undo 0 / records same
";

/// Files that are refused.
const REFUSED: &str = "story a key that nothing reads is refused
board sample
plan: [[step]] / kind = \"thresholds\" / sensor = 5 / ucc = 0x40
schedule: start / to-bmc 0
bmclab play --list board.toml plan.toml schedule.txt -> 0 out: phase Getting 0 / frames 2 / undo 0 / records same
bmclab play --strict board.toml plan.toml schedule.txt -> 3 err: plan.toml:4: step 0 (thresholds): unknown key ucc, nearest is unc
bmclab play --strict --chart board.toml plan.toml schedule.txt -> 3 err: plan.toml:4: step 0 (thresholds): unknown key ucc, nearest is unc
bmclab play --strict --restart 9 board.toml plan.toml schedule.txt -> 3 err: plan.toml:4: step 0 (thresholds): unknown key ucc, nearest is unc
# Then nothing is explained.
bmclab play --strict --explain board.toml plan.toml schedule.txt -> 3 err: plan.toml:4: step 0 (thresholds): unknown key ucc, nearest is unc
notes bmclab play --strict --explain board.toml plan.toml schedule.txt -> nothing
# The board is looked at first.
swap tid = 5 => tidd = 5
bmclab play --strict board.toml plan.toml schedule.txt -> 3 err: board Missing top tid

story a plan without a step is refused
board sample
plan: retries = 2
schedule: start
bmclab play --strict board.toml plan.toml schedule.txt -> 3 err: plan.toml: plan, 0 steps, retries 2
bmclab play board.toml plan.toml schedule.txt -> 0 out: phase Done / frames 0 / undo 0 / records same
# A board is no plan.
bmclab play --strict board.toml board.toml schedule.txt -> 3 err
  board.toml: plan, 0 steps, retries 3 / board.toml:48: top: unknown key attribute / ..
bmclab play --strict --restart 2 board.toml board.toml schedule.txt -> 3 err: board.toml: plan, 0 steps, retries 3 / ..

story a text that is refused without this is refused so
board sample
plan: retries = 99
bmclab play --strict board.toml plan.toml schedule.txt -> 3 err: plan Range retries
bmclab play --strict --list board.toml none.toml schedule.txt -> 3 err: file none.toml
";

#[test]
fn a_strict_play_ends_by_its_phase_and_its_records(rt: HostRuntime) {
    expect_told(&rt, rt.alloc(), STATUSES);
}

#[test]
fn records_that_changed_are_listed(rt: HostRuntime) {
    expect_told(&rt, rt.alloc(), LISTS);
}

#[test]
fn files_with_keys_that_nothing_reads_are_refused(rt: HostRuntime) {
    expect_told(&rt, rt.alloc(), REFUSED);
}

/// A plan that halted.
fn halted() -> Phase {
    Phase::Halted(2, Why::Stop)
}

/// An undo that was refused.
fn refused(rt: &impl Abort) -> Phase {
    Phase::UndoRefused(1, Code::new(0xCC).expect(rt, "a code"))
}

#[test]
fn each_phase_has_a_status(rt: HostRuntime) {
    expect_equal(&rt, strict_status(Phase::Done), Status::Success);
    expect_equal(&rt, strict_status(Phase::Undone), Status::Success);
    expect_equal(&rt, strict_status(halted()), Status::Halted);
    expect_equal(&rt, strict_status(Phase::Unsettled(0)), Status::Unsettled);
    expect_equal(&rt, strict_status(Phase::Undoing(3)), Status::Unsettled);
    expect_equal(&rt, strict_status(Phase::Fresh), Status::Unsettled);
    expect_equal(&rt, strict_status(refused(&rt)), Status::UndoRefused);
    expect_equal(&rt, halts(halted()), true);
    expect_equal(&rt, halts(Phase::Undone), false);
    expect_equal(&rt, records_status(0), Status::Success);
    expect_equal(&rt, records_status(2), Status::RecordsChanged);
    expect_equal(&rt, end_status(refused(&rt), false, 1), Status::UndoRefused);
    expect_equal(
        &rt,
        end_status(Phase::Undone, true, 1),
        Status::RecordsChanged,
    );
    expect_equal(
        &rt,
        end_status(Phase::Fresh, false, 1),
        Status::RecordsChanged,
    );
    expect_equal(&rt, end_status(Phase::Done, false, 4), Status::Success);
}
