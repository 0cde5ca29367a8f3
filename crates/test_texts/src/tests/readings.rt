//! Texts of readings, good and bad.
use super::expect_told;

/// What texts of readings say.
const READINGS: &str = r#"
# A line of each form, with a comment and a blank line between.
file readings
+ # a board that warms up
+ 0 scan 05 60
+ 100 tick
+
+ 100 scan 0A fF
+ 2500 chassis 1f
+ 18446744073709551615 chassis 00
=> [Timed { at_ms: 0, event: Reading { sensor: 5, raw: 96 } }, Timed { at_ms: 100, event: Tick }, Timed { at_ms: 100, event: Reading { sensor: 10, raw: 255 } }, Timed { at_ms: 2500, event: Chassis(Below { number: 31 }) }, Timed { at_ms: 18446744073709551615, event: Chassis(Below { number: 0 }) }]

# A text may say nothing, and the last line needs no line feed. The first digits of a time may be 0.
file readings
=> []
\n# nothing\n\n => []
007 tick => [Timed { at_ms: 7, event: Tick }]
0000000000000000000000000000000000000000 tick\n => [Timed { at_ms: 0, event: Tick }]

# Times are decimal numbers of 64 bits.
18446744073709551616 tick => Line 1
99999999999999999999 tick => Line 1
+1 tick => Line 1
-1 tick => Line 1
0x1 tick => Line 1
1.5 tick => Line 1
ms tick => Line 1

# Words are separated by single spaces, and nothing else stands on a line.
tick => Line 1
5 => Line 1
5  => Line 1
 5 tick => Line 1
5  tick => Line 1
5 tick  => Line 1
5 tick\r\n => Line 1
 # a comment => Line 1
  => Line 1
5 Tick => Line 1
5 tick 1 => Line 1
5 tock => Line 1

# Sensors, readings and states have two hexadecimal digits each.
5 scan 05 => Line 1
5 scan => Line 1
5 scan 5 60 => Line 1
5 scan 05 060 => Line 1
5 scan 05 6G => Line 1
5 scan 05 60 00 => Line 1
5 scan  60 => Line 1
5 Scan 05 60 => Line 1
5 chassis => Line 1
5 chassis  => Line 1
5 chassis 1 => Line 1
5 chassis 001 => Line 1
5 chassis 1G => Line 1
5 chassis 01 01 => Line 1

# Bits 4:0 alone may be set of a state.
5 chassis 1F => reads
5 chassis 20 | 5 chassis 21 | 5 chassis 3F | 5 chassis 40 | 5 chassis 80 | 5 chassis FF => Line 1

# Times may be equal and don't fall. The skipped lines count, and the first bad line is named, whatever is wrong with it.
5 tick\n5 tick\n6 tick => reads
5 tick\n4 tick => Line 2
0 tick\n5 tick\n4 tick\n3 tick\nnothing => Line 3
18446744073709551615 tick\n18446744073709551614 tick => Line 2
10 tick\n9 tick\n10 tick => Line 2
7 tick\n6 tick\nhalt => Line 2
<300:# tick\n>299 tick => holds 301 Tick
<300:# tick\n>298 tick => Line 301
<5000:7 tick\n> => holds 5000 Tick
<5000:7 tick\n>6 tick => Line 5001
behind # a comment\n\n
7 tick\n\n6 tick => Line 5
7 tick\nhalt\n6 tick => Line 4

# Each prefix is read, or refused at its last line.
file readings
+ # a run
+ 12 tick
+ 12 scan 05 60
+ 13 chassis 1F
ends reads => 0 1 2 3 4 5 6 7 8 15 16 29 30 43 44
ends Line 2 => 9 10 11 12 13 14
ends Line 3 => 17 18 19 20 21 22 23 24 25 26 27 28
ends Line 4 => 31 32 33 34 35 36 37 38 39 40 41 42
"#;

#[test]
fn readings_are_read(rt: HostRuntime) {
    expect_told(&rt, rt.alloc(), READINGS);
}
