//! Stories that are told wrong: the player notices each kind of line.
use super::expect_noticed;

/// Each kind of line, told wrong.
const WRONG: &str = "story every run is told wrong
board sample
lines -> 1 out: phase Fresh / frames 0 / undo 0 / records same
lines -> 0 err: phase Fresh / frames 0 / undo 0 / records same
lines -> 0: phase Fresh
lines -> 0
lines -> 0 out: phase Fresh / .. / records changed 1
frames -> 0 out: phase Done / ..
chart -> 0 out: event
premises -> 0 out: phase Fresh / .. / premise broken 1
ipmb 2018C82C0001D3 -> 0 out: 2C1CB820000100200101050207CDAB003412F0
smbus 2018C82C0001D3 -> 1 out: ignored NotMctp
bmclab frame 2018C82C0001D3 -> 3
asks bmclab frame 2018 -> smbus 2018
names ipmb 2018 -> smbus 2018
show -> 0 out: event
call schedule_of_files -> 0 out: start
make bmclab schedule board.toml plan.toml
other bmclab schedule board.toml plan.toml
same bmclab schedule --undo board.toml plan.toml
same refuse memory
refuse memory -> 5 out: memory
fails out 1
ipmb 2018C82C0001D3 -> 6 out: 2C1CB82
late 4 -> 6 out: start
unreadable plan
lines -> 0 out: phase Fresh / frames 0 / undo 0 / records same
bmclab play board.toml plan.toml schedule.txt -> 0
memory plan
bmclab play board.toml plan.toml schedule.txt -> 0

story a story's texts are told wrong
board none
plan: retries = {3
schedule: start
then: undo
lines -> 0 out: phase Done
part events
swap nothing => something
unreadable file
fails in 0
fails out none
make refuse memory
make late x
line -> 0
call run_line -> 0
refuse nothing -> 0
ipmb 201 -> 0
ipmb 2018C82C0001D3
# A remark has no lines.
  start
story nothing is played of this one
board sample
";

/// What is said of each.
const NOTICED: &str = "every run is told wrong, line 3: came 0 out
phase Fresh
frames 0
undo 0
records same
every run is told wrong, line 4: came 0 out
phase Fresh
frames 0
undo 0
records same
every run is told wrong, line 5: came 0 out
phase Fresh
frames 0
undo 0
records same
every run is told wrong, line 6: came 0 out
phase Fresh
frames 0
undo 0
records same
every run is told wrong, line 7: came 0 out
phase Fresh
frames 0
undo 0
records same
every run is told wrong, line 8: came 0 out
phase Fresh
frames 0
undo 0
records same
every run is told wrong, line 9: came 0 out
event mgr  |comes             sends            |bmc     phase
every run is told wrong, line 10: came 0 out
phase Fresh
frames 0
undo 0
records same
premises kept
every run is told wrong, line 11: came 0 out
2C1CB820000100200101050207CDAB003412F1
every run is told wrong, line 12: came 1 out
ignored Short
every run is told wrong, line 13: came 0 out
2C1CB820000100200101050207CDAB003412F1
every run is told wrong, line 14: came ipmb 2018
every run is told wrong, line 15: came ipmb 2018
every run is told wrong, line 16: came 0 out
event mgr  |comes             sends            |bmc     phase
every run is told wrong, line 17: came 0 out
start
undo
every run is told wrong, line 19: came 0 out
start
every run is told wrong, line 20: came 0 out
start
undo
every run is told wrong, line 21: came 5 err
memory
every run is told wrong, line 22: came 5 err
memory
every run is told wrong, line 24: came 6 out cut
2C1CB82
every run is told wrong, line 25: came 6 out cut
start
u
every run is told wrong, line 27: can't be read
every run is told wrong, line 28: came 3 err
file plan.toml
every run is told wrong, line 30: came 5 err
memory
a story's texts are told wrong, line 33: can't be read
a story's texts are told wrong, line 34: can't be read
a story's texts are told wrong, line 37: can't be read
a story's texts are told wrong, line 38: can't be read
a story's texts are told wrong, line 39: can't be read
a story's texts are told wrong, line 40: can't be read
a story's texts are told wrong, line 41: can't be read
a story's texts are told wrong, line 42: can't be read
a story's texts are told wrong, line 43: came 5 err
memory
a story's texts are told wrong, line 44: can't be read
a story's texts are told wrong, line 45: can't be read
a story's texts are told wrong, line 46: can't be read
a story's texts are told wrong, line 47: can't be read
a story's texts are told wrong, line 48: can't be read
a story's texts are told wrong, line 49: came 0 out
2C1CB820000100200101050207CDAB003412F1
a story's texts are told wrong, line 50: can't be read
nothing is played of this one, line 54: nothing was played
";

#[test]
fn stories_that_are_told_wrong_are_noticed(rt: HostRuntime) {
    expect_noticed(&rt, rt.alloc(), WRONG, NOTICED);
    expect_noticed(&rt, rt.alloc(), "", ", line 1: nothing was played\n");
}
