//! LAN parameters: each refusal in the order of the checks, what is shown, and changes that are undone. Channels 1 and 15 have LAN
//! parameters, 2 has none, and the other channels aren't there.
use super::expect_told;

/// What is refused.
const REFUSED: &str = "story the unit, the command and the length of LAN requests come first
board channel = [
board { number = 1, sessions = true, access = [2, 2], limit = [4, 4], users = [0x14, 0x14] },
board { number = 2, sessions = true, access = [2, 2], limit = [4, 4], users = [0x14, 0x14] },
board { number = 15, sessions = false },
board ]
board lan = [
board { channel = 1, ip = [192, 0, 2, 1], source = 1, mask = [255, 255, 255, 0], gateway = [192, 0, 2, 254], vlan = [0, 0] },
board { channel = 15, ip = [10, 0, 0, 1], source = 4, mask = [255, 0, 0, 0], gateway = [10, 0, 0, 254], vlan = [0x34, 0x8A] },
board ]
ipmi 31 01 -> C2
ipmi 31 01 0104 -> C2
ipmi 31 01 010402 -> C2
ipmi 31 02 -> C2
ipmi 31 02 01030000 -> C2
ipmi 31 03 -> C2
ipmi 30 00 010402 -> C1
ipmi 30 03 01030000 -> C1
# Under three bytes, also where there is no such channel, or no such selector.
ipmi 30 01 -> C7
ipmi 30 01 01 -> C7
ipmi 30 01 0104 -> C7
ipmi 30 01 0204 -> C7
ipmi 30 01 0100 -> C7
ipmi 30 01 FFFF -> C7
# Other than four bytes, also of a channel that has none, of another selector, and where the revision alone is asked for.
ipmi 30 02 -> C7
ipmi 30 02 01 -> C7
ipmi 30 02 0103 -> C7
ipmi 30 02 010300 -> C7
ipmi 30 02 0103000000 -> C7
ipmi 30 02 020300 -> C7
ipmi 30 02 010000 -> C7
ipmi 30 02 81 -> C7
ipmi 30 02 8103000000 -> C7
# What was shown at first is shown in the end.
ipmi 30 02 01030000 -> 00 11C0000201
ipmi 30 02 01040000 -> 00 1101
ipmi 30 02 01060000 -> 00 11FFFFFF00
ipmi 30 02 010C0000 -> 00 11C00002FE
ipmi 30 02 01140000 -> 00 110000
ipmi 30 02 0F030000 -> 00 110A000001
ipmi 30 02 0F040000 -> 00 1104
ipmi 30 02 0F060000 -> 00 11FF000000
ipmi 30 02 0F0C0000 -> 00 110A0000FE
ipmi 30 02 0F140000 -> 00 11348A

story Set LAN Configuration Parameters refuses in order
board channel = [
board { number = 1, sessions = true, access = [2, 2], limit = [4, 4], users = [0x14, 0x14] },
board { number = 2, sessions = true, access = [2, 2], limit = [4, 4], users = [0x14, 0x14] },
board { number = 15, sessions = false },
board ]
board lan = [
board { channel = 1, ip = [192, 0, 2, 1], source = 1, mask = [255, 255, 255, 0], gateway = [192, 0, 2, 254], vlan = [0, 0] },
board { channel = 15, ip = [10, 0, 0, 1], source = 4, mask = [255, 0, 0, 0], gateway = [10, 0, 0, 254], vlan = [0x34, 0x8A] },
board ]
# A channel that isn't there, and one without LAN parameters.
ipmi 30 01 0003C000020A -> CC
ipmi 30 01 0E0402 -> CC
ipmi 30 01 0203C000020A -> CC
ipmi 30 01 020402 -> CC
ipmi 30 01 0206FFFF0000 -> CC
ipmi 30 01 020CC00002FD -> CC
ipmi 30 01 02140180 -> CC
# Such a channel comes before another selector, before the length of the data, and before a source that is none.
ipmi 30 01 020000 -> CC
ipmi 30 01 FE0000 -> CC
ipmi 30 01 02FF00 -> CC
ipmi 30 01 0203C0 -> CC
ipmi 30 01 02040102 -> CC
ipmi 30 01 021401 -> CC
ipmi 30 01 020405 -> CC
# Another selector: 0, which begins a set, the neighbours of those that there are, and the greatest. It comes before the length of the data.
ipmi 30 01 010001 -> 80
ipmi 30 01 010000 -> 80
ipmi 30 01 0100C000020A -> 80
ipmi 30 01 010101 -> 80
ipmi 30 01 010200 -> 80
ipmi 30 01 0102C000020A -> 80
ipmi 30 01 010501 -> 80
ipmi 30 01 0105020000000001 -> 80
ipmi 30 01 0107400000 -> 80
ipmi 30 01 010BC000020A -> 80
ipmi 30 01 010D000000000000 -> 80
ipmi 30 01 01130000 -> 80
ipmi 30 01 011500 -> 80
ipmi 30 01 0183C000020A -> 80
ipmi 30 01 01FF 00*23 -> 80
ipmi 30 01 0F0001 -> 80
# The length of the data.
ipmi 30 01 0103C00002 -> C7
ipmi 30 01 0103C000020A00 -> C7
ipmi 30 01 0103 00*23 -> C7
ipmi 30 01 0104 0101 -> C7
ipmi 30 01 0106FF -> C7
ipmi 30 01 0106FFFFFF -> C7
ipmi 30 01 0106FFFF000000 -> C7
ipmi 30 01 010CC00002 -> C7
ipmi 30 01 010CC00002FD00 -> C7
ipmi 30 01 011401 -> C7
ipmi 30 01 0114018000 -> C7
ipmi 30 01 0F0401FF -> C7
# The length comes before a source that is none.
ipmi 30 01 01040500 -> C7
# A source that is none: bits 3:0 above 4, whatever bits 7:4 are.
ipmi 30 01 010405 -> CC
ipmi 30 01 01040F -> CC
ipmi 30 01 010415 -> CC
ipmi 30 01 0104F8 -> CC
ipmi 30 01 0F0406 -> CC
# What was shown at first is shown in the end.
ipmi 30 02 01030000 -> 00 11C0000201
ipmi 30 02 01040000 -> 00 1101
ipmi 30 02 01060000 -> 00 11FFFFFF00
ipmi 30 02 010C0000 -> 00 11C00002FE
ipmi 30 02 01140000 -> 00 110000
ipmi 30 02 0F030000 -> 00 110A000001
ipmi 30 02 0F040000 -> 00 1104
ipmi 30 02 0F060000 -> 00 11FF000000
ipmi 30 02 0F0C0000 -> 00 110A0000FE
ipmi 30 02 0F140000 -> 00 11348A

story Get LAN Configuration Parameters refuses in order
board channel = [
board { number = 1, sessions = true, access = [2, 2], limit = [4, 4], users = [0x14, 0x14] },
board { number = 2, sessions = true, access = [2, 2], limit = [4, 4], users = [0x14, 0x14] },
board ]
board lan = [
board { channel = 1, ip = [192, 0, 2, 1], source = 1, mask = [255, 255, 255, 0], gateway = [192, 0, 2, 254], vlan = [0, 0] },
board ]
# A channel that isn't there, and one without LAN parameters.
ipmi 30 02 00030000 -> CC
ipmi 30 02 0F140000 -> CC
ipmi 30 02 02030000 -> CC
ipmi 30 02 02040000 -> CC
ipmi 30 02 02060000 -> CC
ipmi 30 02 020C0000 -> CC
ipmi 30 02 02140000 -> CC
# Such a channel comes before another selector, and has no revision either.
ipmi 30 02 02000000 -> CC
ipmi 30 02 02FF0000 -> CC
ipmi 30 02 82030000 -> CC
ipmi 30 02 82000000 -> CC
ipmi 30 02 80000000 -> CC
# Another selector.
ipmi 30 02 01000000 -> 80
ipmi 30 02 01010000 -> 80
ipmi 30 02 01020000 -> 80
ipmi 30 02 01050000 -> 80
ipmi 30 02 01070000 -> 80
ipmi 30 02 010B0000 -> 80
ipmi 30 02 010D0000 -> 80
ipmi 30 02 01130000 -> 80
ipmi 30 02 01150000 -> 80
ipmi 30 02 01830000 -> 80
ipmi 30 02 01FF0000 -> 80

story the sample board has no LAN parameters
ipmi 30 01 010402 -> CC
ipmi 30 01 010001 -> CC
ipmi 30 02 01040000 -> CC
ipmi 30 02 81000000 -> CC
kept ipmi 30 02 01040000 -> none
";

/// What is shown, and what bits are ignored.
const SHOWN: &str = "story an address is set over IPMB and shown
board lan = [
board { channel = 1, ip = [192, 0, 2, 1], source = 1, mask = [255, 255, 255, 0], gateway = [192, 0, 2, 254], vlan = [0, 0] },
board ]
ipmb 2030B02C0001 0103C000020A03 -> Answered 2C34A020000100DF
ipmb 2030B02C0402 01030000CA -> Answered 2C34A02004020011C000020AFD

story the revision alone is shown whatever the selector is
board lan = [
board { channel = 1, ip = [192, 0, 2, 1], source = 1, mask = [255, 255, 255, 0], gateway = [192, 0, 2, 254], vlan = [0, 0] },
board ]
ipmi 30 02 81030000 -> 00 11
ipmi 30 02 81140000 -> 00 11
ipmi 30 02 81000000 -> 00 11
ipmi 30 02 81FF0000 -> 00 11
ipmi 30 02 F1FFFFFF -> 00 11
# Such a request is no Get of a record.
kept ipmi 30 02 81030000 -> no record
kept ipmi 30 02 01030000 -> C0000201

story the last two bytes of a Get and bits beside a channel are ignored
board lan = [
board { channel = 1, ip = [192, 0, 2, 1], source = 1, mask = [255, 255, 255, 0], gateway = [192, 0, 2, 254], vlan = [0, 0] },
board ]
ipmi 30 02 0103FFFF -> 00 11C0000201
ipmi 30 02 01040100 -> 00 1101
ipmi 30 02 01060001 -> 00 11FFFFFF00
ipmi 30 02 710C1234 -> 00 11C00002FE
ipmi 30 02 4114FF00 -> 00 110000
ipmi 30 01 F103C000020A -> 00
ipmi 30 02 01030000 -> 00 11C000020A
ipmi 30 01 810402 -> 00
ipmi 30 02 01040000 -> 00 1102
ipmi 30 01 21140180 -> 00
ipmi 30 02 01140000 -> 00 110180

story bits of a source and of a VLAN are ignored
board lan = [
board { channel = 1, ip = [192, 0, 2, 1], source = 1, mask = [255, 255, 255, 0], gateway = [192, 0, 2, 254], vlan = [0, 0] },
board ]
ipmi 30 01 0104F4 -> 00
ipmi 30 02 01040000 -> 00 1104
ipmi 30 01 010410 -> 00
ipmi 30 02 01040000 -> 00 1100
ipmi 30 01 0114FFFF -> 00
ipmi 30 02 01140000 -> 00 11FF8F
ipmi 30 01 01140070 -> 00
ipmi 30 02 01140000 -> 00 110000
ipmi 30 01 0114 2AD3 -> 00
ipmi 30 02 01140000 -> 00 112A83
# The others haven't changed.
ipmi 30 02 01030000 -> 00 11C0000201
ipmi 30 02 01060000 -> 00 11FFFFFF00
ipmi 30 02 010C0000 -> 00 11C00002FE
# The store keeps what is shown.
kept ipmi 30 02 01040000 -> 00
kept ipmi 30 02 01140000 -> 2A83

story an address may be any four bytes and each channel has its own
board channel = [
board { number = 1, sessions = true, access = [2, 2], limit = [4, 4], users = [0x14, 0x14] },
board { number = 15, sessions = false },
board ]
board lan = [
board { channel = 15, ip = [10, 0, 0, 1], source = 4, mask = [255, 0, 0, 0], gateway = [10, 0, 0, 254], vlan = [0x34, 0x8A] },
board { channel = 1, ip = [192, 0, 2, 1], source = 1, mask = [255, 255, 255, 0], gateway = [192, 0, 2, 254], vlan = [0, 0] },
board ]
ipmi 30 01 010300000000 -> 00
ipmi 30 01 0106FF00FF00 -> 00
ipmi 30 01 010CFFFFFFFF -> 00
kept ipmi 30 02 01030000 -> 00000000
kept ipmi 30 02 01040000 -> 01
kept ipmi 30 02 01060000 -> FF00FF00
kept ipmi 30 02 010C0000 -> FFFFFFFF
kept ipmi 30 02 01140000 -> 0000
kept ipmi 30 02 0F030000 -> 0A000001
kept ipmi 30 02 0F040000 -> 04
kept ipmi 30 02 0F060000 -> FF000000
kept ipmi 30 02 0F0C0000 -> 0A0000FE
kept ipmi 30 02 0F140000 -> 348A

story a Set of LAN parameters is marked and a Get is not
marked ipmi 30 01 -> sets
marked ipmi 30 01 0104 -> sets
marked ipmi 30 01 0103C000020A -> sets
marked ipmi 30 01 020000 -> sets
marked ipmi 30 02 -> gets
marked ipmi 30 02 01030000 -> gets
marked ipmi 30 02 81000000 -> gets
marked ipmi 30 02 0103000000 -> gets
marked ipmi 30 03 -> gets
";

/// Changes that are undone, and what undoes them.
const CHANGES: &str = "story changes of each LAN parameter are undone
board channel = [
board { number = 1, sessions = true, access = [2, 2], limit = [4, 4], users = [0x14, 0x14] },
board { number = 15, sessions = false },
board ]
board lan = [
board { channel = 1, ip = [192, 0, 2, 1], source = 1, mask = [255, 255, 255, 0], gateway = [192, 0, 2, 254], vlan = [0, 0] },
board { channel = 15, ip = [10, 0, 0, 1], source = 4, mask = [255, 0, 0, 0], gateway = [10, 0, 0, 254], vlan = [0x34, 0x8A] },
board ]
change ipmi 30 01 0103C000020A : 11C0000201 -> 11C000020A : 0103C0000201
change ipmi 30 01 010402 : 1101 -> 1102 : 010401
change ipmi 30 01 0106FFFF0000 : 11FFFFFF00 -> 11FFFF0000 : 0106FFFFFF00
change ipmi 30 01 010CC00002FD : 11C00002FE -> 11C00002FD : 010CC00002FE
change ipmi 30 01 01146483 : 110000 -> 116483 : 01140000
# Ignored bits of the request change nothing, and are 0 in what undoes it.
change ipmi 30 01 0104F3 : 1101 -> 1103 : 010401
change ipmi 30 01 0114FF7F : 110000 -> 11FF0F : 01140000
# The last channel.
change ipmi 30 01 0F030A000002 : 110A000001 -> 110A000002 : 0F030A000001
change ipmi 30 01 0F0400 : 1104 -> 1100 : 0F0404
change ipmi 30 01 0F06FFFF0000 : 11FF000000 -> 11FFFF0000 : 0F06FF000000
change ipmi 30 01 0F0C00000000 : 110A0000FE -> 1100000000 : 0F0C0A0000FE
change ipmi 30 01 0F140000 : 11348A -> 110000 : 0F14348A

story LAN parameters are undone from the reply alone
undo ipmi 30 01 0103C000020A : 11C0000201 -> 0103C0000201
undo ipmi 30 01 0E06FFFF0000 : 11FFFFFF00 -> 0E06FFFFFF00
undo ipmi 30 01 000CC00002FD : 1100000000 -> 000C00000000
# Bits that are ignored in a source and in a VLAN are 0 in what undoes them.
undo ipmi 30 01 010402 : 11F1 -> 010401
undo ipmi 30 01 01140000 : 1134FA -> 0114348A
# A reply that is too short or too long, the revision alone, and the value without it.
undo ipmi 30 01 0103C000020A : 11C00002 -> none
undo ipmi 30 01 0103C000020A : 11C000020100 -> none
undo ipmi 30 01 0103C000020A : 11 -> none
undo ipmi 30 01 0103C000020A : C0000201 -> none
undo ipmi 30 01 010402 : 11 -> none
undo ipmi 30 01 010402 : 01 -> none
undo ipmi 30 01 010402 : 110100 -> none
undo ipmi 30 01 01146483 : 11 -> none
undo ipmi 30 01 01146483 : 1100 -> none
undo ipmi 30 01 01146483 : 11000000 -> none
# The reply of another parameter's length.
undo ipmi 30 01 0106FFFF0000 : 1101 -> none
undo ipmi 30 01 010402 : 110000 -> none
";

#[test]
fn requests_on_lan_parameters_refuse_in_order(rt: HostRuntime) {
    expect_told(&rt, rt.alloc(), REFUSED);
}

#[test]
fn lan_parameters_are_shown_as_they_were_set(rt: HostRuntime) {
    expect_told(&rt, rt.alloc(), SHOWN);
}

#[test]
fn changes_of_lan_parameters_are_undone(rt: HostRuntime) {
    expect_told(&rt, rt.alloc(), CHANGES);
}
