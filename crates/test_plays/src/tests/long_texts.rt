//! Plans that set long texts, in parts.
use super::expect_told;

/// A text of 400 bytes is set in three parts, of four packets, four and one.
const LONG: &str = "story a text of 400 bytes is set in three parts, and undone by one request
board sample
swap most = 200 => most = 1024
plan: [[step]] / kind = \"bios-attribute\" / handle = 1 / text = \"{400*a}\"
schedule
  start / to-bmc 0 / to-mgr 1
  4 x to-bmc {2+1}
  to-mgr 6
  4 x to-bmc {7+1}
  to-mgr 11 / to-bmc 12
lines -> 0 out: phase Setting 0 / frames 14 / undo 0 / records changed 1
then: to-mgr 13
lines -> 0 out: phase Done / frames 14 / undo 1 / smbus 0307000000000501000106007261636B2D31 / records changed 1
then: undo / to-bmc 14 / to-mgr 15
lines -> 0 out
  phase Undone
  frames 16
  undo 1
  smbus 0307000000000501000106007261636B2D31
  records same

# Nothing is written before the last part.
story a record changes at the last part alone
board sample
swap most = 200 => most = 1024
plan: [[step]] / kind = \"bios-attribute\" / handle = 1 / text = \"{400*a}\"
schedule
  start / to-bmc 0 / to-mgr 1
  4 x to-bmc {2+1}
  to-mgr 6
  4 x to-bmc {7+1}
  to-mgr 11
lines -> 0 out: phase Setting 0 / frames 13 / undo 0 / records same

# The Get of the second step has three replies, and so has its undo three requests.
story a long text is got, and brought back, in parts
board sample
swap most = 200 => most = 1024
plan
  [[step]] / kind = \"bios-attribute\" / handle = 1 / text = \"{400*a}\"
  [[step]] / kind = \"bios-attribute\" / handle = 1 / text = \"b\"
schedule
  start / to-bmc 0 / to-mgr 1
  4 x to-bmc {2+1}
  to-mgr 6
  4 x to-bmc {7+1}
  to-mgr 11 / to-bmc 12 / to-mgr 13
  to-bmc 14
  4 x to-mgr {15+1}
  to-bmc 19
  4 x to-mgr {20+1}
  to-bmc 24 / to-mgr 25 / to-bmc 26 / to-mgr 27
  undo
  4 x to-bmc {28+1}
  to-mgr 32
  4 x to-bmc {33+1}
  to-mgr 37 / to-bmc 38 / to-mgr 39 / to-bmc 40 / to-mgr 41
premises -> 0 out
  phase Undone
  frames 42
  undo 2
  smbus 030700000000050100019001{400*61}
  smbus 0307000000000501000106007261636B2D31
  records same
  premises kept

# The reply to the second part is lost, and so is the last part once. An old copy of the first part comes late, and gets its kept reply. Others ask.
story parts are lost, repeated and late, and the text is there
board sample
swap most = 200 => most = 1024
plan: [[step]] / kind = \"bios-attribute\" / handle = 1 / text = \"{400*a}\"
schedule
  start / to-bmc 0 / to-mgr 1
  4 x to-bmc {2+1}
  to-mgr 6
  other smbus 0C 0180030800000000010100
  4 x to-bmc {7+1}
  quiet
  4 x to-bmc {13+1}
lines -> 0 out: phase Setting 0 / frames 18 / undo 0 / records same
then
  to-mgr 17 / to-bmc 18
  4 x to-bmc {2+1}
  to-mgr 12 / to-mgr 19
premises -> 0 out
  phase Done
  frames 21
  undo 1
  smbus 0307000000000501000106007261636B2D31
  records changed 1
  premises kept

# Between two parts of its Get a plan stops at once, and between two parts of its Set behind the last.
story a plan stops in a Get of several parts at once
board sample
swap most = 200 => most = 1024
plan
  [[step]] / kind = \"bios-attribute\" / handle = 1 / text = \"{400*a}\"
  [[step]] / kind = \"bios-attribute\" / handle = 1 / text = \"b\"
schedule
  start / to-bmc 0 / to-mgr 1
  4 x to-bmc {2+1}
  stop / to-mgr 6
  4 x to-bmc {7+1}
  to-mgr 11 / to-bmc 12 / to-mgr 13
lines -> 0 out: phase Halted 1 Stop / frames 14 / undo 1 / smbus 0307000000000501000106007261636B2D31 / records changed 1
schedule
  start / to-bmc 0 / to-mgr 1
  4 x to-bmc {2+1}
  to-mgr 6
  4 x to-bmc {7+1}
  to-mgr 11 / to-bmc 12 / to-mgr 13
  to-bmc 14 / stop
  4 x to-mgr {15+1}
lines -> 0 out: phase Halted 1 Stop / frames 19 / undo 1 / smbus 0307000000000501000106007261636B2D31 / records changed 1

# The longest text has six parts there, and six back.
story a text of 1024 bytes goes in six parts
board sample
swap most = 200 => most = 1024
plan
  [[step]] / kind = \"bios-attribute\" / handle = 1 / text = \"{1024*a}\"
  [[step]] / kind = \"bios-attribute\" / handle = 1 / text = \"b\"
make bmclab schedule --undo board.toml plan.toml
premises -> 0 out
  phase Undone
  frames 90
  undo 2
  smbus 030700000000050100010004{1024*61}
  smbus 0307000000000501000106007261636B2D31
  records same
  premises kept

# A name of 200 bytes has an entry of 205, which goes whole, and one of 201 goes in two parts.
story an entry of 206 bytes goes in two parts
board sample
swap most = 200 => most = 1024
plan: [[step]] / kind = \"bios-attribute\" / handle = 1 / text = \"{200*a}\"
make bmclab schedule --undo board.toml plan.toml
lines -> 0 out: phase Undone / frames 9 / undo 1 / smbus 0307000000000501000106007261636B2D31 / records same
plan: [[step]] / kind = \"bios-attribute\" / handle = 1 / text = \"{201*a}\"
make bmclab schedule --undo board.toml plan.toml
lines -> 0 out: phase Undone / frames 11 / undo 1 / smbus 0307000000000501000106007261636B2D31 / records same

# The attribute takes 300 bytes at most, so the first part is refused.
story a text that is too long is refused by its first part
board sample
swap most = 200 => most = 300
plan: [[step]] / kind = \"bios-attribute\" / handle = 1 / text = \"{301*a}\"
make bmclab schedule --undo board.toml plan.toml
lines -> 0 out: phase Undone / frames 7 / undo 0 / records same
make bmclab schedule board.toml plan.toml
lines -> 0 out: phase Halted 0 Refused 02 / frames 7 / undo 0 / records same
";

#[test]
fn long_texts_are_set_got_and_brought_back_in_parts(rt: HostRuntime) {
    expect_told(&rt, rt.alloc(), LONG);
}
