//! Schedules that `bmclab schedule` writes, and their plays.
use super::expect_told;

/// Clean schedules, files that are refused, and where a schedule ends.
const SCHEDULES: &str = "story a clean schedule delivers each frame as soon as it was sent
board sample
plan events
bmclab schedule board.toml plan.toml -> 0 out
  start / to-bmc 0 / to-mgr 1 / to-bmc 2 / to-mgr 3
bmclab schedule --undo board.toml plan.toml -> 0 out
  start / to-bmc 0 / to-mgr 1 / to-bmc 2 / to-mgr 3 / undo / to-bmc 4 / to-mgr 5
make bmclab schedule board.toml plan.toml
premises -> 0 out
  phase Done / frames 4 / undo 1 / ipmb 102805E080000000 / records changed 1 / premises kept
make bmclab schedule --undo board.toml plan.toml
premises -> 0 out
  phase Undone / frames 6 / undo 1 / ipmb 102805E080000000 / records same / premises kept

story a schedule by which nothing happens is the clean one
board sample
plan events
bmclab schedule --seed 7 --undo board.toml plan.toml -> 0 out
  start / to-bmc 0 / to-mgr 1 / to-bmc 2 / to-mgr 3 / undo / to-bmc 4 / to-mgr 5
bmclab schedule --lose 0 --repeat 0 --delay 0 --others 0 board.toml plan.toml -> 0 out
  start / to-bmc 0 / to-mgr 1 / to-bmc 2 / to-mgr 3

story two steps are undone in the other order
board sample
plan
  [[step]] / kind = \"thresholds\" / sensor = 5 / unc = 0x4B / uc = 0x5A
  [[step]] / kind = \"thresholds\" / sensor = 5 / uc = 0x5C / unr = 0x64
bmclab schedule --undo board.toml plan.toml -> 0 out
  start / to-bmc 0 / to-mgr 1 / to-bmc 2 / to-mgr 3 / to-bmc 4 / to-mgr 5 / to-bmc 6 / to-mgr 7
  undo / to-bmc 8 / to-mgr 9 / to-bmc 10 / to-mgr 11
make bmclab schedule --undo board.toml plan.toml
premises -> 0 out
  phase Undone / frames 12 / undo 2 / ipmb 10260530000000005A6E / ipmb 10260518000000505F00 / records same / premises kept

story a plan that halts ends it there
# Upper critical would lie above upper non-recoverable, which is 6Eh.
board sample
plan
  [[step]] / kind = \"hysteresis\" / sensor = 5 / positive = 4 / negative = 4
  [[step]] / kind = \"thresholds\" / sensor = 5 / uc = 0x70
  [[step]] / kind = \"hysteresis\" / sensor = 5 / positive = 6 / negative = 6
bmclab schedule board.toml plan.toml -> 0 out
  start / to-bmc 0 / to-mgr 1 / to-bmc 2 / to-mgr 3 / to-bmc 4 / to-mgr 5 / to-bmc 6 / to-mgr 7
bmclab schedule --undo board.toml plan.toml -> 0 out
  start / to-bmc 0 / to-mgr 1 / to-bmc 2 / to-mgr 3 / to-bmc 4 / to-mgr 5 / to-bmc 6 / to-mgr 7 / undo / to-bmc 8 / to-mgr 9
make bmclab schedule --undo board.toml plan.toml
lines -> 0 out
  phase Undone / frames 10 / undo 1 / ipmb 102405FF0202 / records same

story a plan without steps is done at once
board sample
bmclab schedule board.toml plan.toml -> 0 out: start
bmclab schedule --undo board.toml plan.toml -> 0 out
  start / undo

story a message on SMBus comes packet by packet
# The text of 200 bytes goes in packets of 64, 64, 64 and 22 bytes; the old one fits into one.
board sample
plan
  [[step]] / kind = \"bios-attribute\" / handle = 1 / text = \"{200*a}\"
bmclab schedule --undo board.toml plan.toml -> 0 out
  start / to-bmc 0 / to-mgr 1 / to-bmc 2 / to-bmc 3 / to-bmc 4 / to-bmc 5 / to-mgr 6 / undo / to-bmc 7 / to-mgr 8
make bmclab schedule --undo board.toml plan.toml
premises -> 0 out: phase Undone / frames 9 / ..records same / premises kept

story files are refused as those of a play are
board: tid =
plan events
bmclab schedule board.toml plan.toml -> 3 err: board Text
bmclab schedule none.toml plan.toml -> 3 err: file none.toml
bmclab schedule board.toml none.toml -> 3 err: file none.toml
board sample
bmclab schedule board.toml schedule.txt -> 0 out: start
plan: [[step]] / kind = \"events\"
bmclab schedule --lose 10 board.toml plan.toml -> 3 err: plan ..
unreadable plan
bmclab schedule board.toml plan.toml -> 3 err: file plan.toml
memory plan
bmclab schedule board.toml plan.toml -> 5 err: memory
";

/// A schedule that uses all room.
const ALL_LOST: &str = "story nothing is delivered where all is lost, and all room is used
board sample
plan events
make bmclab schedule --lose 100 board.toml plan.toml
premises -> 0 out
  phase Getting 0 / frames 65536 / undo 0 / records same / premises kept
";

/// Words that ask for no schedule.
const REFUSED: &str = "story words that ask for no schedule say why
bmclab schedule -> 2 err
  error: the following required arguments were not provided:
    <BOARD>
    <PLAN> /  / Usage: bmclab schedule <BOARD> <PLAN> /  / For more information, try '--help'.
bmclab schedule a -> 2 err
  error: the following required arguments were not provided:
    <PLAN> /  / Usage: bmclab schedule <BOARD> <PLAN> /  / For more information, try '--help'.
bmclab schedule a b c -> 2 err
  error: unexpected argument 'c' found /  / Usage: bmclab schedule [OPTIONS] <BOARD> <PLAN> /  / For more information, try '--help'.
bmclab schedule --lose 101 a b -> 2 err
  error: invalid value '101' for '--lose <N>': a decimal number from 0 to 100 /  / Usage: bmclab schedule [OPTIONS] <BOARD> <PLAN> /  / For more information, try '--help'.
bmclab schedule --repeat x a b -> 2 err
  error: invalid value 'x' for '--repeat <N>': a decimal number from 0 to 100 /  / Usage: bmclab schedule [OPTIONS] <BOARD> <PLAN> /  / For more information, try '--help'.
bmclab schedule --delay +1 a b -> 2 err
  error: invalid value '+1' for '--delay <N>': a decimal number from 0 to 99 /  / Usage: bmclab schedule [OPTIONS] <BOARD> <PLAN> /  / For more information, try '--help'.
bmclab schedule --delay 100 a b -> 2 err
  error: invalid value '100' for '--delay <N>': a decimal number from 0 to 99 /  / Usage: bmclab schedule [OPTIONS] <BOARD> <PLAN> /  / For more information, try '--help'.
bmclab schedule --others '' a b -> 2 err
  error: invalid value '' for '--others <N>': a decimal number from 0 to 100 /  / Usage: bmclab schedule [OPTIONS] <BOARD> <PLAN> /  / For more information, try '--help'.
bmclab schedule --seed 18446744073709551616 a b -> 2 err
  error: invalid value '18446744073709551616' for '--seed <S>': a decimal number from 0 to 18446744073709551615 /  / Usage: bmclab schedule [OPTIONS] <BOARD> <PLAN> /  / For more information, try '--help'.
bmclab schedule --lose -1 a b -> 2 err
  error: unexpected argument '-1' found /  /   tip: to pass '-1' as a value, use '-- -1' /  / Usage: bmclab schedule [OPTIONS] <BOARD> <PLAN> /  / For more information, try '--help'.
bmclab schedule --lose -> 2 err
  error: a value is required for '--lose <N>' but none was supplied /  / For more information, try '--help'.
bmclab schedule --lose 1 --lose 2 a b -> 2 err
  error: the argument '--lose <N>' cannot be used multiple times /  / Usage: bmclab schedule [OPTIONS] <BOARD> <PLAN> /  / For more information, try '--help'.
bmclab schedule --seed 1 --seed 1 a b -> 2 err
  error: the argument '--seed <S>' cannot be used multiple times /  / Usage: bmclab schedule [OPTIONS] <BOARD> <PLAN> /  / For more information, try '--help'.
bmclab schedule --undo --undo a b -> 2 err
  error: the argument '--undo' cannot be used multiple times /  / Usage: bmclab schedule [OPTIONS] <BOARD> <PLAN> /  / For more information, try '--help'.
bmclab schedule --undo=yes a b -> 2 err
  error: unexpected value 'yes' for '--undo' found; no more were expected /  / Usage: bmclab schedule --undo <BOARD> <PLAN> /  / For more information, try '--help'.
bmclab schedule --loose 1 a b -> 2 err
  error: unexpected argument '--loose' found /  /   tip: a similar argument exists: '--lose' /  / Usage: bmclab schedule --lose <N> <BOARD> <PLAN> /  / For more information, try '--help'.
bmclab schedule --help -> 2 err
  Writes a schedule of a plan on a board: a clean one, or one that is drawn /  / Usage: bmclab schedule [OPTIONS] <BOARD> <PLAN> /  / Arguments:
    <BOARD>  The board file, as sample.toml
    <PLAN>   The plan, as examples/clean/plan.toml /  / Options:
        --lose <N>    So many frames in a hundred are lost, as in --lose 10
        --repeat <N>  So many in a hundred of the others come twice, as in --repeat 10
        --delay <N>   So many in a hundred let later ones past, as in --delay 10
        --others <N>  So often in a hundred somebody else asks before an event, as in --others 10
        --seed <S>    What all of that is drawn from, as in --seed 7; 0 where none is named
        --undo        Takes the plan back, too, once it is done or has halted
    -h, --help        Print help /  / Examples:
    bmclab schedule sample.toml examples/clean/plan.toml
    bmclab schedule --undo sample.toml examples/clean/plan.toml
    bmclab schedule --lose 20 --repeat 10 --delay 10 --others 5 --seed 7 --undo sample.toml examples/clean/plan.toml /  / Without --lose, --repeat, --delay, --others and --seed it is the clean one: each frame comes once, as soon as it was sent.

story words ask for a schedule
asks bmclab schedule a b -> clean a b
asks bmclab schedule --undo a b -> clean undo a b
asks bmclab schedule a b --undo -> clean undo a b
asks bmclab schedule --lose 10 a b -> lose 10 repeat 0 delay 0 others 0 seed 0 a b
asks bmclab schedule --repeat=0 a b -> lose 0 repeat 0 delay 0 others 0 seed 0 a b
asks bmclab schedule --delay 99 a --undo b -> lose 0 repeat 0 delay 99 others 0 seed 0 undo a b
asks bmclab schedule --lose 100 a b -> lose 100 repeat 0 delay 0 others 0 seed 0 a b
asks bmclab schedule --others 007 a b -> lose 0 repeat 0 delay 0 others 7 seed 0 a b
asks bmclab schedule --seed 18446744073709551615 a b -> lose 0 repeat 0 delay 0 others 0 seed 18446744073709551615 a b
asks bmclab schedule --lose 1 --repeat 2 --delay 3 --others 4 --seed 5 a b -> lose 1 repeat 2 delay 3 others 4 seed 5 a b
asks bmclab schedule --lose 256 a b -> refused
asks bmclab schedule --board a b -> refused
";

/// Schedules that are drawn from twenty seeds: a play takes each event, keeps the premises, and ends where it began.
const DRAWN: &str = "story drawn schedules are taken and undone
board sample
plan
  [[step]] / kind = \"hysteresis\" / sensor = 5 / positive = 4 / negative = 4
  [[step]] / kind = \"bios-attribute\" / handle = 1 / text = \"{200*a}\"
  [[step]] / kind = \"thresholds\" / sensor = 5 / uc = 0x5C
make bmclab schedule --lose 20 --repeat 20 --delay 20 --others 20 --seed 0 --undo board.toml plan.toml
premises -> 0 out: phase Undone / ..records same / premises kept
make bmclab schedule --lose 20 --repeat 20 --delay 20 --others 20 --seed 1 --undo board.toml plan.toml
premises -> 0 out: phase Undone / ..records same / premises kept
make bmclab schedule --lose 20 --repeat 20 --delay 20 --others 20 --seed 2 --undo board.toml plan.toml
premises -> 0 out: phase Undone / ..records same / premises kept
make bmclab schedule --lose 20 --repeat 20 --delay 20 --others 20 --seed 3 --undo board.toml plan.toml
premises -> 0 out: phase Undone / ..records same / premises kept
make bmclab schedule --lose 20 --repeat 20 --delay 20 --others 20 --seed 4 --undo board.toml plan.toml
premises -> 0 out: phase Undone / ..records same / premises kept
make bmclab schedule --lose 20 --repeat 20 --delay 20 --others 20 --seed 5 --undo board.toml plan.toml
premises -> 0 out: phase Undone / ..records same / premises kept
make bmclab schedule --lose 20 --repeat 20 --delay 20 --others 20 --seed 6 --undo board.toml plan.toml
premises -> 0 out: phase Undone / ..records same / premises kept
make bmclab schedule --lose 20 --repeat 20 --delay 20 --others 20 --seed 7 --undo board.toml plan.toml
premises -> 0 out: phase Undone / ..records same / premises kept
make bmclab schedule --lose 20 --repeat 20 --delay 20 --others 20 --seed 8 --undo board.toml plan.toml
premises -> 0 out: phase Undone / ..records same / premises kept
make bmclab schedule --lose 20 --repeat 20 --delay 20 --others 20 --seed 9 --undo board.toml plan.toml
premises -> 0 out: phase Undone / ..records same / premises kept
make bmclab schedule --lose 20 --repeat 20 --delay 20 --others 20 --seed 10 --undo board.toml plan.toml
premises -> 0 out: phase Undone / ..records same / premises kept
make bmclab schedule --lose 20 --repeat 20 --delay 20 --others 20 --seed 11 --undo board.toml plan.toml
premises -> 0 out: phase Undone / ..records same / premises kept
make bmclab schedule --lose 20 --repeat 20 --delay 20 --others 20 --seed 12 --undo board.toml plan.toml
premises -> 0 out: phase Undone / ..records same / premises kept
make bmclab schedule --lose 20 --repeat 20 --delay 20 --others 20 --seed 13 --undo board.toml plan.toml
premises -> 0 out: phase Undone / ..records same / premises kept
make bmclab schedule --lose 20 --repeat 20 --delay 20 --others 20 --seed 14 --undo board.toml plan.toml
premises -> 0 out: phase Undone / ..records same / premises kept
make bmclab schedule --lose 20 --repeat 20 --delay 20 --others 20 --seed 15 --undo board.toml plan.toml
premises -> 0 out: phase Undone / ..records same / premises kept
make bmclab schedule --lose 20 --repeat 20 --delay 20 --others 20 --seed 16 --undo board.toml plan.toml
premises -> 0 out: phase Undone / ..records same / premises kept
make bmclab schedule --lose 20 --repeat 20 --delay 20 --others 20 --seed 17 --undo board.toml plan.toml
premises -> 0 out: phase Undone / ..records same / premises kept
make bmclab schedule --lose 20 --repeat 20 --delay 20 --others 20 --seed 18 --undo board.toml plan.toml
premises -> 0 out: phase Undone / ..records same / premises kept
make bmclab schedule --lose 20 --repeat 20 --delay 20 --others 20 --seed 19 --undo board.toml plan.toml
premises -> 0 out: phase Undone / ..records same / premises kept
";

#[test]
fn schedules_are_written_or_refused_and_played(rt: HostRuntime) {
    expect_told(&rt, rt.alloc(), SCHEDULES);
    expect_told(&rt, rt.alloc(), REFUSED);
}

#[test]
fn a_schedule_uses_all_room(rt: HostRuntime) {
    expect_told(&rt, rt.alloc(), ALL_LOST);
}

#[test]
fn drawn_schedules_are_taken_and_undone(rt: HostRuntime) {
    expect_told(&rt, rt.alloc(), DRAWN);
}
