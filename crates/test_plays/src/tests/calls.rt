//! The calls of the runs one by one, and writers that fail.
use super::expect_told;

/// Each call, by rows of its own.
const CALLS: &str = "story a frame is sent
ipmb 2018C82C0001D3 -> 0 out: 2C1CB820000100200101050207CDAB003412F1

story a frame is sent to the board of a file
bmclab frame 2018C82C0001D3 -> 0 out: 2C1CB820000100200101050207CDAB003412F1
bmclab frame --board none.toml 2018C82C0001D3 -> 3 err: file none.toml
call frame_of_file -> 3 err: file board.toml
board sample
call frame_of_file -> 0 out: 2C1CB820000100200101050207CDAB003412F1

story words name a bus and bytes
names smbus C8aB -> smbus C8AB
names can 2018 -> refused

story a plan is played, shown and drawn
board fields device-20h
schedule: start
lines -> 0 out: phase Done / frames 0 / undo 0 / records same
frames -> 0 out: phase Done / frames 0 / undo 0 / records same
bmclab play --frames board.toml plan.toml schedule.txt -> 0 out: phase Done / frames 0 / undo 0 / records same
chart -> 0 out
  event mgr  |comes             sends            |bmc     phase
  1     start|                                   |        Done
show -> 0 out
  event mgr  |comes             sends            |bmc     phase
  1     start|                                   |        Done
call play_of_files -> 0 out
  event mgr  |comes             sends            |bmc     phase
  1     start|                                   |        Done

story a schedule is written
board fields device-20h
call schedule_of_files -> 0 out: start / undo
bmclab schedule --undo board.toml plan.toml -> 0 out: start / undo
late 4 -> 0 out: start / undo

story words ask for a frame and a play
asks bmclab frame --bus smbus 2018 -> smbus 2018
asks bmclab play --chart a.toml b.toml c.txt -> chart a.toml b.toml c.txt
";

/// Writers that fail. They take seven bytes at a time.
const CUT: &str = "# The line of 17 bytes takes three calls of the writer.
story a write that fails ends a run with 6 and is not repeated
fails out 0
ipmb 2010D02C08260510000000005A0037 -> 6
fails out 1
ipmb 2010D02C08260510000000005A0037 -> 6 out cut: 2C14C02
fails out 2
ipmb 2010D02C08260510000000005A0037 -> 6 out cut: 2C14C020082600
fails out 3
ipmb 2010D02C08260510000000005A0037 -> 0 out: 2C14C020082600B2

story a write of standard output that fails ends a play with 6
board fields device-20h
fails out 0
schedule: start
lines -> 6
schedule: to-bmc 0
lines -> 6
# Nothing is written to standard output.
schedule: begin
lines -> 3 err: schedule Line 1

story a write of standard error that fails ends a play with 6
board fields device-20h
fails err 0
schedule: begin
lines -> 6
# Nothing is written to standard error.
schedule: start
lines -> 0 out: phase Done / frames 0 / undo 0 / records same
schedule: to-bmc 0
lines -> 4 out: phase Fresh / frames 0 / undo 0 / records same / fault 1 NoFrame

story a refusal is told on standard error alone
fails out 0
refuse file no.toml -> 3 err: file no.toml
refuse report -> 5 err: memory
refuse words no -> 2 err: no
refuse memory -> 5 err: memory
fails err 0
refuse report -> 6
refuse words no -> 6
";

#[test]
fn each_call_writes_its_text(rt: HostRuntime) {
    expect_told(&rt, rt.alloc(), CALLS);
}

#[test]
fn a_write_that_fails_ends_a_run_with_6(rt: HostRuntime) {
    expect_told(&rt, rt.alloc(), CUT);
}
