//! Users, channels and passwords: each refusal in the order of the checks, what is shown, and changes that are undone. Channel 1 is the sample
//! board's; 2 has sessions, and an access of its own in each store; 15 has none.
use super::expect_told;

/// What is refused, and what bits are ignored.
const REFUSED: &str = "story users and channels are shown by their bits alone
board channel = [
board { number = 1, sessions = true, access = [2, 2], limit = [4, 4], users = [0x14, 0x14] },
board { number = 2, sessions = true, access = [0x3A, 0x09], limit = [3, 5], users = [0x71, 0x2F] },
board { number = 15, sessions = false },
board ]
# Bits beside a channel, a store and a user are ignored.
ipmi 18 41 F27F -> 00 3A03
ipmi 18 41 A2BF -> 00 0905
ipmi 18 44 F2C2 -> 00 0280012F
ipmi 18 46 C2 -> 00 61646D696E 00*11
# What was shown at first is shown in the end.
ipmi 18 41 0140 -> 00 0204
ipmi 18 41 0180 -> 00 0204
ipmi 18 41 0240 -> 00 3A03
ipmi 18 41 0280 -> 00 0905
ipmi 18 44 0101 -> 00 02800114
ipmi 18 44 0102 -> 00 02800114
ipmi 18 44 0201 -> 00 02800171
ipmi 18 44 0202 -> 00 0280012F
ipmi 18 46 01 -> 00 00*16
ipmi 18 46 02 -> 00 61646D696E 00*11

story the unit and the length come first
board channel = [
board { number = 1, sessions = true, access = [2, 2], limit = [4, 4], users = [0x14, 0x14] },
board { number = 2, sessions = true, access = [0x3A, 0x09], limit = [3, 5], users = [0x71, 0x2F] },
board { number = 15, sessions = false },
board ]
ipmi 18 40 -> C7
ipmi 19 40 -> C2
ipmi 18 40 FF*2 -> C7
ipmi 19 40 FF*2 -> C2
ipmi 18 40 FF*4 -> C7
ipmi 19 40 FF*4 -> C2
ipmi 18 41 -> C7
ipmi 19 41 -> C2
ipmi 18 41 FF*1 -> C7
ipmi 19 41 FF*1 -> C2
ipmi 18 41 FF*3 -> C7
ipmi 19 41 FF*3 -> C2
ipmi 18 43 -> C7
ipmi 19 43 -> C2
ipmi 18 43 FF*2 -> C7
ipmi 19 43 FF*2 -> C2
ipmi 18 43 FF*5 -> C7
ipmi 19 43 FF*5 -> C2
ipmi 18 44 -> C7
ipmi 19 44 -> C2
ipmi 18 44 FF*1 -> C7
ipmi 19 44 FF*1 -> C2
ipmi 18 44 FF*3 -> C7
ipmi 19 44 FF*3 -> C2
ipmi 18 45 -> C7
ipmi 19 45 -> C2
ipmi 18 45 FF*16 -> C7
ipmi 19 45 FF*16 -> C2
ipmi 18 45 FF*18 -> C7
ipmi 19 45 FF*18 -> C2
ipmi 18 46 -> C7
ipmi 19 46 -> C2
ipmi 18 46 FF*2 -> C7
ipmi 19 46 FF*2 -> C2
ipmi 18 47 -> C7
ipmi 19 47 -> C2
ipmi 18 47 FF*1 -> C7
ipmi 19 47 FF*1 -> C2
ipmi 18 47 FF*3 -> C7
ipmi 19 47 FF*3 -> C2
ipmi 18 47 FF*17 -> C7
ipmi 19 47 FF*17 -> C2
ipmi 18 47 FF*19 -> C7
ipmi 19 47 FF*19 -> C2
ipmi 18 47 FF*21 -> C7
ipmi 19 47 FF*21 -> C2
ipmi 18 47 FF*23 -> C7
ipmi 19 47 FF*23 -> C2
# What was shown at first is shown in the end.
ipmi 18 41 0140 -> 00 0204
ipmi 18 41 0180 -> 00 0204
ipmi 18 41 0240 -> 00 3A03
ipmi 18 41 0280 -> 00 0905
ipmi 18 44 0101 -> 00 02800114
ipmi 18 44 0102 -> 00 02800114
ipmi 18 44 0201 -> 00 02800171
ipmi 18 44 0202 -> 00 0280012F
ipmi 18 46 01 -> 00 00*16
ipmi 18 46 02 -> 00 61646D696E 00*11

story Set Channel Access refuses in order
board channel = [
board { number = 1, sessions = true, access = [2, 2], limit = [4, 4], users = [0x14, 0x14] },
board { number = 2, sessions = true, access = [0x3A, 0x09], limit = [3, 5], users = [0x71, 0x2F] },
board { number = 15, sessions = false },
board ]
# An unknown channel, and one without sessions, before all that is to be set, and where nothing is.
ipmi 18 40 034244 -> CC
ipmi 18 40 030000 -> CC
ipmi 18 40 0FC4C6 -> 82
ipmi 18 40 0F0000 -> 82
# A store of 11b.
ipmi 18 40 02C200 -> CC
ipmi 18 40 0200C4 -> CC
ipmi 18 40 0241C4 -> CC
ipmi 18 40 02C184 -> CC
# A mode above 3.
ipmi 18 40 024400 -> CC
ipmi 18 40 02BF84 -> CC
# A limit that is none of 1 to 5.
ipmi 18 40 020040 -> CC
ipmi 18 40 020086 -> CC
ipmi 18 40 02818F -> CC
# Where neither is set, mode and limit may be any.
ipmi 18 40 02070F -> 00
# What was shown at first is shown in the end.
ipmi 18 41 0140 -> 00 0204
ipmi 18 41 0180 -> 00 0204
ipmi 18 41 0240 -> 00 3A03
ipmi 18 41 0280 -> 00 0905
ipmi 18 44 0101 -> 00 02800114
ipmi 18 44 0102 -> 00 02800114
ipmi 18 44 0201 -> 00 02800171
ipmi 18 44 0202 -> 00 0280012F
ipmi 18 46 01 -> 00 00*16
ipmi 18 46 02 -> 00 61646D696E 00*11

story Get Channel Access refuses in order
board channel = [
board { number = 1, sessions = true, access = [2, 2], limit = [4, 4], users = [0x14, 0x14] },
board { number = 2, sessions = true, access = [0x3A, 0x09], limit = [3, 5], users = [0x71, 0x2F] },
board { number = 15, sessions = false },
board ]
ipmi 18 41 0340 -> CC
ipmi 18 41 0080 -> CC
# Without sessions, before a store that is none.
ipmi 18 41 0F40 -> 82
ipmi 18 41 0F00 -> 82
ipmi 18 41 0FC0 -> 82
ipmi 18 41 0100 -> CC
ipmi 18 41 01C0 -> CC
# What was shown at first is shown in the end.
ipmi 18 41 0140 -> 00 0204
ipmi 18 41 0180 -> 00 0204
ipmi 18 41 0240 -> 00 3A03
ipmi 18 41 0280 -> 00 0905
ipmi 18 44 0101 -> 00 02800114
ipmi 18 44 0102 -> 00 02800114
ipmi 18 44 0201 -> 00 02800171
ipmi 18 44 0202 -> 00 0280012F
ipmi 18 46 01 -> 00 00*16
ipmi 18 46 02 -> 00 61646D696E 00*11

story user access refuses in order
board channel = [
board { number = 1, sessions = true, access = [2, 2], limit = [4, 4], users = [0x14, 0x14] },
board { number = 2, sessions = true, access = [0x3A, 0x09], limit = [3, 5], users = [0x71, 0x2F] },
board { number = 15, sessions = false },
board ]
# An unknown channel, one without sessions, user 0, and a user above the most.
ipmi 18 43 830204 -> CC
ipmi 18 43 8F0204 -> CC
ipmi 18 43 820004 -> CC
ipmi 18 43 82030400 -> CC
# A limit that is none of 1 to 5, and not 15.
ipmi 18 43 820200 -> CC
ipmi 18 43 820206 -> CC
ipmi 18 43 02020E00 -> CC
ipmi 18 44 0302 -> CC
ipmi 18 44 0F02 -> CC
ipmi 18 44 0100 -> CC
ipmi 18 44 0103 -> CC
# What was shown at first is shown in the end.
ipmi 18 41 0140 -> 00 0204
ipmi 18 41 0180 -> 00 0204
ipmi 18 41 0240 -> 00 3A03
ipmi 18 41 0280 -> 00 0905
ipmi 18 44 0101 -> 00 02800114
ipmi 18 44 0102 -> 00 02800114
ipmi 18 44 0201 -> 00 02800171
ipmi 18 44 0202 -> 00 0280012F
ipmi 18 46 01 -> 00 00*16
ipmi 18 46 02 -> 00 61646D696E 00*11

story user names refuse in order
board channel = [
board { number = 1, sessions = true, access = [2, 2], limit = [4, 4], users = [0x14, 0x14] },
board { number = 2, sessions = true, access = [0x3A, 0x09], limit = [3, 5], users = [0x71, 0x2F] },
board { number = 15, sessions = false },
board ]
# User 0, a user above the most, and user 1, whose name is fixed.
ipmi 18 45 007A 00*15 -> CC
ipmi 18 45 037A 00*15 -> CC
ipmi 18 45 017A 00*15 -> CC
ipmi 18 45 417A 00*15 -> CC
ipmi 18 46 00 -> CC
ipmi 18 46 03 -> CC
ipmi 18 46 3F -> CC
# What was shown at first is shown in the end.
ipmi 18 41 0140 -> 00 0204
ipmi 18 41 0180 -> 00 0204
ipmi 18 41 0240 -> 00 3A03
ipmi 18 41 0280 -> 00 0905
ipmi 18 44 0101 -> 00 02800114
ipmi 18 44 0102 -> 00 02800114
ipmi 18 44 0201 -> 00 02800171
ipmi 18 44 0202 -> 00 0280012F
ipmi 18 46 01 -> 00 00*16
ipmi 18 46 02 -> 00 61646D696E 00*11

story Set User Password refuses in order
board channel = [
board { number = 1, sessions = true, access = [2, 2], limit = [4, 4], users = [0x14, 0x14] },
board { number = 2, sessions = true, access = [0x3A, 0x09], limit = [3, 5], users = [0x71, 0x2F] },
board { number = 15, sessions = false },
board ]
# The length, before an unknown user.
ipmi 18 47 0002 00*15 -> C7
# An unknown user, before the size of the password.
ipmi 18 47 0000 -> CC
ipmi 18 47 0302 -> CC
ipmi 18 47 8003 00*16 -> CC
ipmi 18 47 8303 00*20 -> CC
# Set and test with another size than the first byte says.
ipmi 18 47 0202 -> C7
ipmi 18 47 0202 00*20 -> C7
ipmi 18 47 8202 -> C7
ipmi 18 47 8202 00*16 -> C7
ipmi 18 47 0203 -> C7
ipmi 18 47 0203 00*20 -> C7
ipmi 18 47 8203 -> C7
ipmi 18 47 8203 00*16 -> C7
# A test: another size, be the text the same or another; another text; and the sixteen bytes 00h of the opening.
ipmi 18 47 8203 00*20 -> 81
ipmi 18 47 8203 61*20 -> 81
ipmi 18 47 0203 61*16 -> 80
ipmi 18 47 0203 00*16 -> 00
ipmi 18 47 0103 00*16 -> 00
# Disable and enable take each length.
ipmi 18 47 0200 00*16 -> 00
ipmi 18 47 8200 00*16 -> 00
ipmi 18 47 0200 00*20 -> 00
# What was shown at first is shown in the end.
ipmi 18 41 0140 -> 00 0204
ipmi 18 41 0180 -> 00 0204
ipmi 18 41 0240 -> 00 3A03
ipmi 18 41 0280 -> 00 0905
ipmi 18 44 0101 -> 00 02800114
ipmi 18 44 0102 -> 00 02800114
ipmi 18 44 0201 -> 00 02800171
ipmi 18 44 0202 -> 00 0280012F
ipmi 18 46 01 -> 00 00*16
ipmi 18 46 02 -> 00 61646D696E 00*11
";

/// Passwords: of sixteen bytes, from 01h to 10h, and of twenty, from 01h to 14h; others are of the same size.
const PASSWORDS: &str = "story a password is tested by size and text
board channel = [
board { number = 1, sessions = true, access = [2, 2], limit = [4, 4], users = [0x14, 0x14] },
board { number = 2, sessions = true, access = [0x3A, 0x09], limit = [3, 5], users = [0x71, 0x2F] },
board { number = 15, sessions = false },
board ]
ipmi 18 47 02020102030405060708090A0B0C0D0E0F10 -> 00
ipmi 18 47 02030102030405060708090A0B0C0D0E0F10 -> 00
ipmi 18 47 02030102030405060708090A0B0C0D0E0F00 -> 80
ipmi 18 47 82030102030405060708090A0B0C0D0E0F1011121314 -> 81
ipmi 18 47 82030002030405060708090A0B0C0D0E0F1011121314 -> 81
ipmi 18 47 82020102030405060708090A0B0C0D0E0F1011121314 -> 00
ipmi 18 47 82030102030405060708090A0B0C0D0E0F1011121314 -> 00
ipmi 18 47 82030002030405060708090A0B0C0D0E0F1011121314 -> 80
ipmi 18 47 02030102030405060708090A0B0C0D0E0F10 -> 81
ipmi 18 47 02030102030405060708090A0B0C0D0E0F00 -> 81
# User 1's is what it was.
ipmi 18 47 0103 00*16 -> 00
ipmi 18 47 0203 00*16 -> 81
# What was shown at first is shown in the end.
ipmi 18 41 0140 -> 00 0204
ipmi 18 41 0180 -> 00 0204
ipmi 18 41 0240 -> 00 3A03
ipmi 18 41 0280 -> 00 0905
ipmi 18 44 0101 -> 00 02800114
ipmi 18 44 0102 -> 00 02800114
ipmi 18 44 0201 -> 00 02800171
ipmi 18 44 0202 -> 00 0280012F
ipmi 18 46 01 -> 00 00*16
ipmi 18 46 02 -> 00 61646D696E 00*11

story a password of 16 bytes is never shown
board channel = [
board { number = 1, sessions = true, access = [2, 2], limit = [4, 4], users = [0x14, 0x14] },
board { number = 2, sessions = true, access = [0x3A, 0x09], limit = [3, 5], users = [0x71, 0x2F] },
board { number = 15, sessions = false },
board ]
ipmi 18 47 02020102030405060708090A0B0C0D0E0F10 -> 00
# What was shown at first is shown in the end.
ipmi 18 41 0140 -> 00 0204
ipmi 18 41 0180 -> 00 0204
ipmi 18 41 0240 -> 00 3A03
ipmi 18 41 0280 -> 00 0905
ipmi 18 44 0101 -> 00 02800114
ipmi 18 44 0102 -> 00 02800114
ipmi 18 44 0201 -> 00 02800171
ipmi 18 44 0202 -> 00 0280012F
ipmi 18 46 01 -> 00 00*16
ipmi 18 46 02 -> 00 61646D696E 00*11

story a password of 20 bytes is never shown
board channel = [
board { number = 1, sessions = true, access = [2, 2], limit = [4, 4], users = [0x14, 0x14] },
board { number = 2, sessions = true, access = [0x3A, 0x09], limit = [3, 5], users = [0x71, 0x2F] },
board { number = 15, sessions = false },
board ]
ipmi 18 47 82020102030405060708090A0B0C0D0E0F1011121314 -> 00
ipmi 18 47 82030102030405060708090A0B0C0D0E0F1011121314 -> 00
# What was shown at first is shown in the end.
ipmi 18 41 0140 -> 00 0204
ipmi 18 41 0180 -> 00 0204
ipmi 18 41 0240 -> 00 3A03
ipmi 18 41 0280 -> 00 0905
ipmi 18 44 0101 -> 00 02800114
ipmi 18 44 0102 -> 00 02800114
ipmi 18 44 0201 -> 00 02800171
ipmi 18 44 0202 -> 00 0280012F
ipmi 18 46 01 -> 00 00*16
ipmi 18 46 02 -> 00 61646D696E 00*11

story who is enabled is shown
board channel = [
board { number = 1, sessions = true, access = [2, 2], limit = [4, 4], users = [0x14, 0x14] },
board { number = 2, sessions = true, access = [0x3A, 0x09], limit = [3, 5], users = [0x71, 0x2F] },
board { number = 15, sessions = false },
board ]
# Enabled twice, which counts once; other bits of the operation's byte are ignored.
ipmi 18 47 0201 -> 00
ipmi 18 47 42FD -> 00
ipmi 18 44 0102 -> 00 02410114
ipmi 18 44 0202 -> 00 0241012F
ipmi 18 44 0101 -> 00 02810114
ipmi 18 47 0101 -> 00
ipmi 18 44 0101 -> 00 02420114
ipmi 18 47 0200 -> 00
ipmi 18 44 0102 -> 00 02810114
ipmi 18 44 0101 -> 00 02410114
# The store keeps what it kept.
kept ipmi 18 44 0101 -> 14
kept ipmi 18 44 0102 -> 14
";

/// Changes of both stores, where a refused part leaves the other undone, and changes that are undone.
const CHANGES: &str = "story a change of both stores is whole
board channel = [
board { number = 1, sessions = true, access = [2, 2], limit = [4, 4], users = [0x14, 0x14] },
board { number = 2, sessions = true, access = [0x3A, 0x09], limit = [3, 5], users = [0x71, 0x2F] },
board { number = 15, sessions = false },
board ]
ipmi 18 40 024186 -> CC
ipmi 18 40 024482 -> CC
ipmi 18 40 028140 -> CC
ipmi 18 40 028742 -> CC
# What was shown at first is shown in the end.
ipmi 18 41 0140 -> 00 0204
ipmi 18 41 0180 -> 00 0204
ipmi 18 41 0240 -> 00 3A03
ipmi 18 41 0280 -> 00 0905
ipmi 18 44 0101 -> 00 02800114
ipmi 18 44 0102 -> 00 02800114
ipmi 18 44 0201 -> 00 02800171
ipmi 18 44 0202 -> 00 0280012F
ipmi 18 46 01 -> 00 00*16
ipmi 18 46 02 -> 00 61646D696E 00*11

story a change of both stores is undone
board channel = [
board { number = 1, sessions = true, access = [2, 2], limit = [4, 4], users = [0x14, 0x14] },
board { number = 2, sessions = true, access = [0x3A, 0x09], limit = [3, 5], users = [0x71, 0x2F] },
board { number = 15, sessions = false },
board ]
ipmi 18 40 024182 -> 00
ipmi 18 41 0240 -> 00 0103
ipmi 18 41 0280 -> 00 0902
ipmi 18 40 020085 -> 00
ipmi 18 40 027A00 -> 00
# What was shown at first is shown in the end.
ipmi 18 41 0140 -> 00 0204
ipmi 18 41 0180 -> 00 0204
ipmi 18 41 0240 -> 00 3A03
ipmi 18 41 0280 -> 00 0905
ipmi 18 44 0101 -> 00 02800114
ipmi 18 44 0102 -> 00 02800114
ipmi 18 44 0201 -> 00 02800171
ipmi 18 44 0202 -> 00 0280012F
ipmi 18 46 01 -> 00 00*16
ipmi 18 46 02 -> 00 61646D696E 00*11

story a change of both stores is undone by one request
board channel = [
board { number = 1, sessions = true, access = [2, 2], limit = [4, 4], users = [0x14, 0x14] },
board { number = 2, sessions = true, access = [0x3A, 0x09], limit = [3, 5], users = [0x71, 0x2F] },
board { number = 15, sessions = false },
board ]
ipmi 18 40 028341 -> 00
ipmi 18 41 0240 -> 00 3A01
ipmi 18 41 0280 -> 00 0305
ipmi 18 40 028943 -> 00
# What was shown at first is shown in the end.
ipmi 18 41 0140 -> 00 0204
ipmi 18 41 0180 -> 00 0204
ipmi 18 41 0240 -> 00 3A03
ipmi 18 41 0280 -> 00 0905
ipmi 18 44 0101 -> 00 02800114
ipmi 18 44 0102 -> 00 02800114
ipmi 18 44 0201 -> 00 02800171
ipmi 18 44 0202 -> 00 0280012F
ipmi 18 46 01 -> 00 00*16
ipmi 18 46 02 -> 00 61646D696E 00*11

story changes of user access are undone
board channel = [
board { number = 1, sessions = true, access = [2, 2], limit = [4, 4], users = [0x14, 0x14] },
board { number = 2, sessions = true, access = [0x3A, 0x09], limit = [3, 5], users = [0x71, 0x2F] },
board { number = 15, sessions = false },
board ]
# Bits 6:4 and the limit; the old limit is 15, no access.
change ipmi 18 43 D20203 : 0280012F -> 02800153 : A2020F
# The limit alone: bits 6:4 of the request are ignored. The limit of sessions is accepted, and not kept.
change ipmi 18 43 52020507 : 0280012F -> 02800125 : 02020F
# All bits off, and no access; bits beside the user and the limit are ignored.
change ipmi 18 43 82C1FF : 02800171 -> 0280010F : F20101

story changes of a channel in one store and of a name are undone
board channel = [
board { number = 1, sessions = true, access = [2, 2], limit = [4, 4], users = [0x14, 0x14] },
board { number = 2, sessions = true, access = [0x3A, 0x09], limit = [3, 5], users = [0x71, 0x2F] },
board { number = 15, sessions = false },
board ]
change ipmi 18 40 024900 : 3A03 -> 0903 : 027A00
change ipmi 18 40 020082 : 0905 -> 0902 : 020085
change ipmi 18 40 02B381 : 0905 -> 3301 : 028985
# Bits 7:6 beside the user are ignored, and 0 in what undoes it.
change ipmi 18 45 C2 726F6F74 00*11 FF : 61646D696E 00*11 -> 726F6F74 00*11 FF : 02 61646D696E 00*11

story users and channels are undone from the reply alone
# The same whether a user is enabled.
undo ipmi 18 43 A10203 : 02800114 -> 910204
undo ipmi 18 43 A10203 : 02410114 -> 910204
# Each store has an undo of its part alone.
undo ipmi 18 40 024100 : 3A03 -> 027A00
undo ipmi 18 40 020082 : 0905 -> 020085
";

#[test]
fn users_and_channels_refuse_in_order(rt: HostRuntime) {
    expect_told(&rt, rt.alloc(), REFUSED);
}

#[test]
fn passwords_are_tested_and_never_shown(rt: HostRuntime) {
    expect_told(&rt, rt.alloc(), PASSWORDS);
}

#[test]
fn changes_of_users_and_channels_are_whole_and_undone(rt: HostRuntime) {
    expect_told(&rt, rt.alloc(), CHANGES);
}
