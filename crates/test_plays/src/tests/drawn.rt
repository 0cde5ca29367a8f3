//! Schedules that are drawn on buses where packets may join late ones.
use super::expect_told;

/// A plan of texts of four packets each, and one of texts of three parts each.
const DRAWN: &str = "# A plan that sets the label five times.
part labels
  [[step]] / kind = \"bios-attribute\" / handle = 1 / text = \"{200*a}\"
  [[step]] / kind = \"bios-attribute\" / handle = 1 / text = \"{200*b}\"
  [[step]] / kind = \"bios-attribute\" / handle = 1 / text = \"{200*c}\"
  [[step]] / kind = \"bios-attribute\" / handle = 1 / text = \"{200*d}\"
  [[step]] / kind = \"bios-attribute\" / handle = 1 / text = \"{200*e}\"

# One that sets an only attribute, of 1,024 bytes at most, and now of none.
part texts
  [[step]] / kind = \"bios-attribute\" / handle = 0 / text = \"{400*a}\"
  [[step]] / kind = \"bios-attribute\" / handle = 0 / text = \"{400*b}\"
  [[step]] / kind = \"bios-attribute\" / handle = 0 / text = \"{400*c}\"

# The sample board's only attribute.
part text
  [[attribute]] / name = \"A\" / kind = \"string\" / string_type = 1 / least = 0 / most = 1024 / default = \"\" / current = \"\" / readonly = false

story a plan is undone where packets may join late and none does
board sample
plan labels
make late 4
premises -> 0 out: phase Undone / ..records same / premises kept
make late 5
premises -> 0 out: phase Undone / ..records same / premises kept
board rack text
plan texts
make late 4
premises -> 0 out: phase Undone / ..records same / premises kept

story another seed draws another schedule, and the same seed the same
board sample
plan labels
make bmclab schedule --lose 10 --repeat 30 --delay 50 --others 5 --seed 1 --undo board.toml plan.toml
same bmclab schedule --lose 10 --repeat 30 --delay 50 --others 5 --seed 1 --undo board.toml plan.toml
other bmclab schedule --lose 10 --repeat 30 --delay 50 --others 5 --seed 2 --undo board.toml plan.toml
other bmclab schedule --lose 10 --repeat 30 --delay 50 --others 5 --seed 4294967297 --undo board.toml plan.toml

story what never happens needs no seed
board sample
plan labels
make bmclab schedule --lose 0 --repeat 0 --delay 0 --others 0 --seed 1 --undo board.toml plan.toml
same bmclab schedule --lose 0 --repeat 0 --delay 0 --others 0 --seed 2 --undo board.toml plan.toml
other bmclab schedule --repeat 100 --seed 1 --undo board.toml plan.toml
premises -> 0 out: phase Undone / ..records same / premises kept

story packets join late only where they may
board sample
plan labels
make late 24
premises -> 0 out: ..premise broken 536
make bmclab schedule --lose 10 --repeat 30 --delay 50 --others 5 --seed 24 --undo board.toml plan.toml
premises -> 0 out: phase Undone / ..records same / premises kept
make late 30
premises -> 0 out: ..premise broken 453
make bmclab schedule --lose 10 --repeat 30 --delay 50 --others 5 --seed 30 --undo board.toml plan.toml
premises -> 0 out: phase Undone / ..records same / premises kept
board rack text
plan texts
make late 13
premises -> 0 out: ..premise broken 385
make bmclab schedule --lose 10 --repeat 30 --delay 50 --others 5 --seed 13 --undo board.toml plan.toml
premises -> 0 out: phase Undone / ..records same / premises kept
make late 16
premises -> 0 out: ..premise broken 694
make bmclab schedule --lose 10 --repeat 30 --delay 50 --others 5 --seed 16 --undo board.toml plan.toml
premises -> 0 out: phase Undone / ..records same / premises kept
";

#[test]
fn packets_join_late_only_where_they_may(rt: HostRuntime) {
    expect_told(&rt, rt.alloc(), DRAWN);
}
