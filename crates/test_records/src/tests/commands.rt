//! Commands: each refusal, in the order of the checks, what is answered, and which commands are setting ones.
use super::expect_told;

/// Commands of a board.
const COMMANDS: &str = "story each check of a command has its code
ipmi 11 26 0510000000005A -> C2
ipmi 11 2B 0510000000005A -> C2
ipmi 10 2B 0510000000005A -> C1
ipmi 18 26 0510000000005A -> C1
ipmi 10 26 0510000000005A -> C7
ipmi 10 27 0510 -> C7
ipmi 10 26 0910000000005A00 -> CB
ipmi 10 27 09 -> CB
# A threshold that can't be set, and bit 7 of the mask.
ipmi 10 26 0704000000000000 -> CC
ipmi 10 26 0590000000005A00 -> CC
ipmi 10 26 0510000000005A00 -> 00

story each check of a PLDM command has its code
pldm 01 02 00 -> 20
pldm 3F 03 -> 20
pldm 00 03 00 -> 05
pldm 02 02 -> 05
pldm 03 04 -> 05
pldm 00 02 00 -> 03
pldm 00 04 00 -> 03
pldm 00 02 -> 00 05
pldm 00 04 -> 00 0D00000000000000

story masks that are missing are empty
# Selection 10: offset 9 of the assertions is in the second byte of the mask.
ipmi 10 28 05E0FF -> 00
ipmi 10 29 05 -> 00 C000020000
ipmi 10 28 05E00002 -> 00
ipmi 10 29 05 -> 00 C000000000
ipmi 10 28 05D00002 -> 00
# Selection 00 alone takes events that aren't supported.
ipmi 10 28 054FFFFF -> 00
ipmi 10 29 05 -> 00 4000020000
ipmi 10 28 05500010 -> CC
ipmi 10 28 056000000010 -> CC
ipmi 10 28 0570 -> CC
ipmi 10 28 0970 -> CB
ipmi 10 29 09 -> CB
ipmi 10 28 05 -> C7
ipmi 10 28 05000000000000 -> C7
ipmi 10 29 05 -> 00 4000020000

story a sensor that is not there is refused
ipmi 10 25 09FF -> CB
ipmi 10 24 09FF0301 -> CB

story global enables are set and got
ipmi 19 2E -> C2
ipmi 18 2E -> C7
ipmi 18 2E 1800 -> C7
ipmi 18 2E 18 -> CC
ipmi 18 2F 00 -> C7
ipmi 18 2F -> 00 08
ipmi 18 2E E7 -> 00
ipmi 18 2F -> 00 E7

story boot parameter 0 begins a set once
ipmi 01 08 -> C2
ipmi 00 08 -> C7
ipmi 00 08 000000 -> C7
ipmi 00 08 0002 -> CC
ipmi 00 08 0001 -> 00
ipmi 00 08 0001 -> 81
ipmi 00 08 80 -> 00
ipmi 00 09 000000 -> 00 010001
ipmi 00 08 8000 -> 00
ipmi 00 09 800101 -> 00 010000

story boot parameters are set and got
# The selector is looked at before the length of the data.
ipmi 00 08 010000 -> 80
ipmi 00 08 030000 -> C7
ipmi 00 08 0400 -> C7
ipmi 00 08 0500000000 -> C7
ipmi 00 09 0300 -> C7
ipmi 00 09 060000 -> 80
# Bits 4:0 of parameter 3, with and without the mark.
ipmi 00 08 83FF -> 00
ipmi 00 09 030000 -> 00 01831F
ipmi 00 08 03 -> 00
ipmi 00 09 030000 -> 00 01031F
# The masked bits of parameter 4.
ipmi 00 08 040F35 -> 00
ipmi 00 09 040000 -> 00 01040005
ipmi 00 08 84F09A -> 00
ipmi 00 09 040000 -> 00 01840095
# The five bytes of parameter 5.
ipmi 00 08 058004010203 -> 00
ipmi 00 09 850707 -> 00 01058004010203
ipmi 00 08 85 -> 00
ipmi 00 09 050000 -> 00 01858004010203

story the last of 32 sensors is shown
board sensor = [
board { number = 223, type = 1, readable = 0x3F, settable = 0x3F, thresholds = [0, 0, 0, 0, 0, 0], hysteresis = [0, 1], supported = 0xFFF, flags = 0x80, assert = 0, deassert = 0 },
board { number = 224, type = 1, readable = 0x3F, settable = 0x3F, thresholds = [1, 1, 1, 1, 1, 1], hysteresis = [1, 1], supported = 0xFFF, flags = 0x80, assert = 1, deassert = 0 },
board { number = 225, type = 1, readable = 0x3F, settable = 0x3F, thresholds = [2, 2, 2, 2, 2, 2], hysteresis = [2, 1], supported = 0xFFF, flags = 0x80, assert = 2, deassert = 0 },
board { number = 226, type = 1, readable = 0x3F, settable = 0x3F, thresholds = [3, 3, 3, 3, 3, 3], hysteresis = [3, 1], supported = 0xFFF, flags = 0x80, assert = 3, deassert = 0 },
board { number = 227, type = 1, readable = 0x3F, settable = 0x3F, thresholds = [4, 4, 4, 4, 4, 4], hysteresis = [4, 1], supported = 0xFFF, flags = 0x80, assert = 4, deassert = 0 },
board { number = 228, type = 1, readable = 0x3F, settable = 0x3F, thresholds = [5, 5, 5, 5, 5, 5], hysteresis = [5, 1], supported = 0xFFF, flags = 0x80, assert = 5, deassert = 0 },
board { number = 229, type = 1, readable = 0x3F, settable = 0x3F, thresholds = [6, 6, 6, 6, 6, 6], hysteresis = [6, 1], supported = 0xFFF, flags = 0x80, assert = 6, deassert = 0 },
board { number = 230, type = 1, readable = 0x3F, settable = 0x3F, thresholds = [7, 7, 7, 7, 7, 7], hysteresis = [7, 1], supported = 0xFFF, flags = 0x80, assert = 7, deassert = 0 },
board { number = 231, type = 1, readable = 0x3F, settable = 0x3F, thresholds = [8, 8, 8, 8, 8, 8], hysteresis = [8, 1], supported = 0xFFF, flags = 0x80, assert = 8, deassert = 0 },
board { number = 232, type = 1, readable = 0x3F, settable = 0x3F, thresholds = [9, 9, 9, 9, 9, 9], hysteresis = [9, 1], supported = 0xFFF, flags = 0x80, assert = 9, deassert = 0 },
board { number = 233, type = 1, readable = 0x3F, settable = 0x3F, thresholds = [10, 10, 10, 10, 10, 10], hysteresis = [10, 1], supported = 0xFFF, flags = 0x80, assert = 10, deassert = 0 },
board { number = 234, type = 1, readable = 0x3F, settable = 0x3F, thresholds = [11, 11, 11, 11, 11, 11], hysteresis = [11, 1], supported = 0xFFF, flags = 0x80, assert = 11, deassert = 0 },
board { number = 235, type = 1, readable = 0x3F, settable = 0x3F, thresholds = [12, 12, 12, 12, 12, 12], hysteresis = [12, 1], supported = 0xFFF, flags = 0x80, assert = 12, deassert = 0 },
board { number = 236, type = 1, readable = 0x3F, settable = 0x3F, thresholds = [13, 13, 13, 13, 13, 13], hysteresis = [13, 1], supported = 0xFFF, flags = 0x80, assert = 13, deassert = 0 },
board { number = 237, type = 1, readable = 0x3F, settable = 0x3F, thresholds = [14, 14, 14, 14, 14, 14], hysteresis = [14, 1], supported = 0xFFF, flags = 0x80, assert = 14, deassert = 0 },
board { number = 238, type = 1, readable = 0x3F, settable = 0x3F, thresholds = [15, 15, 15, 15, 15, 15], hysteresis = [15, 1], supported = 0xFFF, flags = 0x80, assert = 15, deassert = 0 },
board { number = 239, type = 1, readable = 0x3F, settable = 0x3F, thresholds = [16, 16, 16, 16, 16, 16], hysteresis = [16, 1], supported = 0xFFF, flags = 0x80, assert = 16, deassert = 0 },
board { number = 240, type = 1, readable = 0x3F, settable = 0x3F, thresholds = [17, 17, 17, 17, 17, 17], hysteresis = [17, 1], supported = 0xFFF, flags = 0x80, assert = 17, deassert = 0 },
board { number = 241, type = 1, readable = 0x3F, settable = 0x3F, thresholds = [18, 18, 18, 18, 18, 18], hysteresis = [18, 1], supported = 0xFFF, flags = 0x80, assert = 18, deassert = 0 },
board { number = 242, type = 1, readable = 0x3F, settable = 0x3F, thresholds = [19, 19, 19, 19, 19, 19], hysteresis = [19, 1], supported = 0xFFF, flags = 0x80, assert = 19, deassert = 0 },
board { number = 243, type = 1, readable = 0x3F, settable = 0x3F, thresholds = [20, 20, 20, 20, 20, 20], hysteresis = [20, 1], supported = 0xFFF, flags = 0x80, assert = 20, deassert = 0 },
board { number = 244, type = 1, readable = 0x3F, settable = 0x3F, thresholds = [21, 21, 21, 21, 21, 21], hysteresis = [21, 1], supported = 0xFFF, flags = 0x80, assert = 21, deassert = 0 },
board { number = 245, type = 1, readable = 0x3F, settable = 0x3F, thresholds = [22, 22, 22, 22, 22, 22], hysteresis = [22, 1], supported = 0xFFF, flags = 0x80, assert = 22, deassert = 0 },
board { number = 246, type = 1, readable = 0x3F, settable = 0x3F, thresholds = [23, 23, 23, 23, 23, 23], hysteresis = [23, 1], supported = 0xFFF, flags = 0x80, assert = 23, deassert = 0 },
board { number = 247, type = 1, readable = 0x3F, settable = 0x3F, thresholds = [24, 24, 24, 24, 24, 24], hysteresis = [24, 1], supported = 0xFFF, flags = 0x80, assert = 24, deassert = 0 },
board { number = 248, type = 1, readable = 0x3F, settable = 0x3F, thresholds = [25, 25, 25, 25, 25, 25], hysteresis = [25, 1], supported = 0xFFF, flags = 0x80, assert = 25, deassert = 0 },
board { number = 249, type = 1, readable = 0x3F, settable = 0x3F, thresholds = [26, 26, 26, 26, 26, 26], hysteresis = [26, 1], supported = 0xFFF, flags = 0x80, assert = 26, deassert = 0 },
board { number = 250, type = 1, readable = 0x3F, settable = 0x3F, thresholds = [27, 27, 27, 27, 27, 27], hysteresis = [27, 1], supported = 0xFFF, flags = 0x80, assert = 27, deassert = 0 },
board { number = 251, type = 1, readable = 0x3F, settable = 0x3F, thresholds = [28, 28, 28, 28, 28, 28], hysteresis = [28, 1], supported = 0xFFF, flags = 0x80, assert = 28, deassert = 0 },
board { number = 252, type = 1, readable = 0x3F, settable = 0x3F, thresholds = [29, 29, 29, 29, 29, 29], hysteresis = [29, 1], supported = 0xFFF, flags = 0x80, assert = 29, deassert = 0 },
board { number = 253, type = 1, readable = 0x3F, settable = 0x3F, thresholds = [30, 30, 30, 30, 30, 30], hysteresis = [30, 1], supported = 0xFFF, flags = 0x80, assert = 30, deassert = 0 },
board { number = 254, type = 1, readable = 0x3F, settable = 0x3F, thresholds = [31, 31, 31, 31, 31, 31], hysteresis = [31, 1], supported = 0xFFF, flags = 0x80, assert = 31, deassert = 0 },
board ]
ipmi 10 27 FE -> 00 3F1F1F1F1F1F1F
ipmi 10 25 FEFF -> 00 1F01
ipmi 10 29 FE -> 00 801F000000
";

/// Which commands are setting ones.
const MARKED: &str = "story setting commands are marked
marked ipmi 00 01 -> gets
marked ipmi 00 06 -> sets
marked ipmi 10 24 -> sets
marked ipmi 10 25 -> gets
marked ipmi 10 26 -> sets
marked ipmi 10 27 -> gets
marked ipmi 10 28 -> sets
marked ipmi 10 29 -> gets
marked ipmi 18 01 -> gets
marked ipmi 18 22 -> gets
marked ipmi 18 24 -> sets
marked ipmi 18 25 -> gets
marked ipmi 18 40 -> sets
marked ipmi 18 40 FF*2 -> sets
marked ipmi 18 40 FF*4 -> sets
marked ipmi 18 41 -> gets
marked ipmi 18 41 FF*1 -> gets
marked ipmi 18 41 FF*3 -> gets
marked ipmi 18 43 -> sets
marked ipmi 18 43 FF*2 -> sets
marked ipmi 18 43 FF*5 -> sets
marked ipmi 18 44 -> gets
marked ipmi 18 44 FF*1 -> gets
marked ipmi 18 44 FF*3 -> gets
marked ipmi 18 45 -> sets
marked ipmi 18 45 FF*16 -> sets
marked ipmi 18 45 FF*18 -> sets
marked ipmi 18 46 -> gets
marked ipmi 18 46 FF*2 -> gets
marked ipmi 18 47 -> gets
marked ipmi 18 47 FF*1 -> gets
marked ipmi 18 47 FF*3 -> gets
marked ipmi 18 47 FF*17 -> gets
marked ipmi 18 47 FF*19 -> gets
marked ipmi 18 47 FF*21 -> gets
marked ipmi 18 47 FF*23 -> gets
marked ipmi 30 01 -> sets
marked ipmi 30 02 -> gets
marked pldm 00 02 -> gets
marked pldm 00 04 -> gets
marked pldm 02 31 040002E803 -> sets
marked pldm 02 32 0400 -> gets
marked pldm 02 39 09000201020000 -> sets
marked pldm 02 3A 0900 -> gets
marked pldm 03 07 00000000050200032800000000000000 -> sets
marked pldm 03 08 00000000010200 -> gets
marked pldm 03 01 000000000100 -> gets
";

#[test]
fn each_check_of_a_command_has_its_code(rt: HostRuntime) {
    expect_told(&rt, rt.alloc(), COMMANDS);
}

#[test]
fn setting_commands_are_marked(rt: HostRuntime) {
    expect_told(&rt, rt.alloc(), MARKED);
}
