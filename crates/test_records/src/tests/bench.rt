//! Readings of a board's sensors, its clock, its timer and its chassis, by worked values.
use super::expect_told;

/// What happens at the bench, and what is shown of it.
const BENCH: &str = "story a reading is shown and logged
ipmi 10 2D 05 -> 00 00E0C0
reads 05 60
ipmi 10 2D 05 -> 00 60C0D8
ipmi 28 43 0000000000FF -> 00 FFFF0100020000000020000401050159605F
# Upper critical isn't crossed again, and no deassertion is enabled.
reads 05 61
reads 05 10
ipmi 28 40 -> 00 51010010 00*9 02
# The reading is beyond lower non-critical alone.
ipmi 10 2D 05 -> 00 10C0C1

story a sensor that is not there is not read
reads 09 60 -> none

story a sensor that does not scan is not read
ipmi 10 2D 09 -> CB
reads 07 FF
ipmi 10 2D 07 -> 00 0020C0

story a fall is logged as a deassertion
ipmi 10 28 05D000000002 -> 00
reads 05 60
reads 05 5D
reads 05 5C
ipmi 28 43 0000FFFF00FF -> 00 FFFF02000200000000200004010581595C5F

story each threshold has its bit
reads 05 09
ipmi 10 2D 05 -> 00 09C0C3
reads 05 05
ipmi 10 2D 05 -> 00 05C0C7
reads 05 6E
ipmi 10 2D 05 -> 00 6EC0F8

story a sensor that scans without messages shows so
ipmi 10 28 0540 -> 00
reads 05 60
ipmi 10 2D 05 -> 00 6040D8

story the clock is set and ticks
tick
ipmi 28 49 01020304 -> 00
tick 9
ipmi 28 48 -> 00 01020304
tick
ipmi 28 48 -> 00 02020304

story the watchdog counts down and stops
ipmi 18 24 010000000300 -> 00
tick
ipmi 18 25 -> 00 0100000003000300
ipmi 18 22 -> 00
tick 2
ipmi 18 25 -> 00 4100000003000100
tick
ipmi 18 25 -> 00 0100000203000000
tick
ipmi 18 25 -> 00 0100000203000000

story each use of the timer has its flag
ipmi 18 24 020000000100 -> 00
ipmi 18 22 -> 00
tick
ipmi 18 25 -> 00 0200000401000000
ipmi 18 24 030000000000 -> 00
ipmi 18 22 -> 00
tick
ipmi 18 25 -> 00 0300000C00000000

story chassis bits are shown
ipmi 00 01 -> 00 200000
chassis 15
ipmi 00 01 -> 00 350000
chassis 1F
ipmi 00 01 -> 00 3F0000

story a policy that is not known is shown beside the chassis bits
board policy = 3
ipmi 00 01 -> 00 600000
chassis 00
ipmi 00 01 -> 00 600000

story events stay out of the log where the enables say so
board enables = 0xE7
reads 05 60
ipmi 10 2D 05 -> 00 60C0D8
ipmi 28 40 -> 00 51000020 00*9 02
# Once the enables are set, upper critical is crossed again.
ipmi 18 2E 08 -> 00
reads 05 10
reads 05 60
ipmi 28 40 -> 00 51010010 00*9 02

story the clock begins as its file says
board clock = 0x04030201
ipmi 28 48 -> 00 01020304

story upper critical rises and falls
# Of the events, upper critical alone is enabled, asserted and deasserted. It is left 2 below its threshold of 5Fh.
ipmi 10 28 05D000020002 -> 00
reads 05 5E
ipmi 10 2D 05 -> 00 5EC0C8
ipmi 28 40 -> 00 51000020 00*9 02
reads 05 60
ipmi 10 2D 05 -> 00 60C0D8
ipmi 28 43 0000FFFF00FF -> 00 FFFF01000200000000200004010501 59605F
reads 05 5F
ipmi 10 2D 05 -> 00 5FC0D8
reads 05 5D
ipmi 10 2D 05 -> 00 5DC0D8
ipmi 28 40 -> 00 51010010 00*9 02
reads 05 5C
ipmi 10 2D 05 -> 00 5CC0C8
ipmi 28 43 0000FFFF00FF -> 00 FFFF02000200000000200004010581 595C5F
reads 05 4D
ipmi 10 2D 05 -> 00 4DC0C0
ipmi 28 40 -> 00 51020000 00*9 02

story all events of a reading come in order
board log = 20
ipmi 10 28 05D0FF0FFF0F -> 00
ipmi 10 29 05 -> 00 C0FF0FFF0F
# All lower thresholds are reached.
reads 05 00
ipmi 28 40 -> 00 51 0600 E000 00*8 02
ipmi 10 2D 05 -> 00 00C0C7
# Each threshold's high event comes and its low one is taken back, in the order of their places.
reads 05 FF
ipmi 28 40 -> 00 51 1200 2000 00*8 02
ipmi 10 2D 05 -> 00 FFC0F8
ipmi 28 43 0000070000FF -> 00 0800 0700 02 00000000 2000 04 01 05 01 51 FF 14
ipmi 28 43 0000080000FF -> 00 0900 0800 02 00000000 2000 04 01 05 81 50 FF 14
ipmi 28 43 0000090000FF -> 00 0A00 0900 02 00000000 2000 04 01 05 01 53 FF 0A
ipmi 28 43 00000A0000FF -> 00 0B00 0A00 02 00000000 2000 04 01 05 81 52 FF 0A
ipmi 28 43 00000B0000FF -> 00 0C00 0B00 02 00000000 2000 04 01 05 01 55 FF 05
ipmi 28 43 00000C0000FF -> 00 0D00 0C00 02 00000000 2000 04 01 05 81 54 FF 05
ipmi 28 43 00000D0000FF -> 00 0E00 0D00 02 00000000 2000 04 01 05 01 57 FF 50
ipmi 28 43 00000E0000FF -> 00 0F00 0E00 02 00000000 2000 04 01 05 81 56 FF 50
ipmi 28 43 00000F0000FF -> 00 1000 0F00 02 00000000 2000 04 01 05 01 59 FF 5F
ipmi 28 43 0000100000FF -> 00 1100 1000 02 00000000 2000 04 01 05 81 58 FF 5F
ipmi 28 43 0000110000FF -> 00 1200 1100 02 00000000 2000 04 01 05 01 5B FF 6E
ipmi 28 43 0000120000FF -> 00 FFFF 1200 02 00000000 2000 04 01 05 81 5A FF 6E

story a sensor without messages makes no events
ipmi 10 28 0540 -> 00
reads 05 00
reads 05 FF
ipmi 28 40 -> 00 51000020 00*9 02
# All events are enabled.
ipmi 10 28 0550FF0FFF0F -> 00
ipmi 10 29 05 -> 00 40FF0FFF0F
reads 05 00
ipmi 10 2D 05 -> 00 0040C7
ipmi 28 40 -> 00 51000020 00*9 02

story hysteresis does not wrap
board sensor = [{ number = 5, type = 1, readable = 0x3F, settable = 0x3F, thresholds = [0xFE, 0, 0, 0xFF, 0xFF, 0xFF], hysteresis = [2, 2], supported = 0xFFF, flags = 0xC0, assert = 0x200, deassert = 0x200 }]
reads 05 FF
ipmi 10 2D 05 -> 00 FFC0F8
reads 05 FE
ipmi 10 2D 05 -> 00 FEC0F9
reads 05 FE
ipmi 10 2D 05 -> 00 FEC0F9
# No reading is above FEh by more than 2.
reads 05 FF
ipmi 10 2D 05 -> 00 FFC0F9
reads 05 FC
ipmi 10 2D 05 -> 00 FCC0C1
";

#[test]
fn what_happens_at_the_bench_is_shown(rt: HostRuntime) {
    expect_told(&rt, rt.alloc(), BENCH);
}
