//! Users and channels of board files.
use super::expect_told;

/// What boards say of users and channels.
const CHANNELS: &str = r#"
file board
with bare
# A board of two users.
until users = [""] -> users = ["", "admin"] => reads
# A channel with sessions, and one without. No line stands in them twice but `[[channel]]`.
+ [[channel]]
+ number = 1
+ sessions = true
+ access = [2, 0x3B]
+ limit = [4, 5]
+ users = [0x14, 0x2F]
+ [[channel]]
+ number = 15
+ sessions = false

=> holds 1 channels: Distinct { items: Items { items: [Channel { number: BitField { number: 1 }, non_volatile: ChannelAccess { access: 2, limit: 4 }, volatile: ChannelAccess { access: 59, limit: 5 } }] } }
=> holds 1 sessionless: Distinct { items: Items { items: [BitField { number: 15 }] } }
# 14h is 20, and 2Fh is 47.
=> holds 1 user_accesses: Distinct { items: Items { items: [UserAccess { on: UserOnChannel { channel: BitField { number: 1 }, user: BitField { number: 1 } }, byte: 20 }, UserAccess { on: UserOnChannel { channel: BitField { number: 1 }, user: BitField { number: 2 } }, byte: 47 }] } }

# Each field left out, of another type, just beyond its range and just inside, and more.
at number = 1
=> Missing channel 0 number
number = true => WrongType channel 0 number
number = 12 | number = 14 => Range channel 0 number
number = 0 | number = 11 => reads
at access = [2, 0x3B]
=> Missing channel 0 access
access = [2, true] | access = 2 => WrongType channel 0 access
access = [2] | access = [4, 2] | access = [2, 2, 2] | access = [2, 64] => Range channel 0 access
access = [0, 0] | access = [3, 0x3B] | access = [0x38, 1] | access = [0, 0x30] => reads
at limit = [4, 5]
=> Missing channel 0 limit
limit = 4 | limit = [4, "5"] => WrongType channel 0 limit
limit = [0, 5] | limit = [4, 6] | limit = [] | limit = [4, 15] => Range channel 0 limit
limit = [1, 1] | limit = [5, 5] | limit = [1, 5] | limit = [5, 1] => reads
at users = [0x14, 0x2F]
=> Missing channel 0 users
users = [0x14, ""] | users = 0x14 | users = [[]] => WrongType channel 0 users
users = [0x14] | users = [0x14, 0x94] | users = [0x14, 0x14, 0x14] | users = [0x10, 0x14] | users = [-1, 0x14] => Range channel 0 users
users = [0x14, 0x16] => Range channel 0 users
users = [1, 0x7F] | users = [0x05, 0x0F] | users = [0x75, 0x11] | users = [0x0F, 0x71] | users = [1, 1] | users = [2, 3] => reads
at number = 15
=> Missing channel 1 number
number = [15] => WrongType channel 1 number
number = 16 | number = -1 => Range channel 1 number
number = 0 | number = 2 => reads

# The first fault counts.
at number = 15
number = 1 => Twice channel 1 number
at sessions = true
=> Missing channel 0 sessions
sessions = 1 => WrongType channel 0 sessions
# A channel without sessions needs nothing else, and what it has besides is ignored.
sessions = false => reads
at sessions = false
sessions = false\naccess = true\nlimit = [0, 6]\nusers = [0] => reads
sessions = true => Missing channel 1 access
sessions = true\naccess = [4, 4]\nlimit = [4, true]\nusers = [1, 1] => WrongType channel 1 limit
sessions = true\naccess = [3, 3]\nlimit = [4, 4]\nusers = [] => Range channel 1 users
# An item's own fault comes before its number, and the number before the next item.
at number = 15
number = 1\nadded = 1\n[[channel]] => Missing channel 1 sessions
at sessions = false
sessions = false\n[[channel]]\nnumber = 1\nsessions = false => Twice channel 2 number

# Channels come between sensors and effecters.
file board
with bare
at tid = 5
channel = []\ntid = 5 => reads
channel = 1\ntid = 5 => WrongType top channel
channel = [{}, 1]\ntid = 5 => WrongType top channel
channel = [{}]\ntid = 5 => Missing channel 0 number
channel = [{}]\nsensor = [{number = 1}]\ntid = 5 => Missing sensor 0 type
channel = [{}]\nnumeric = [{id = 1}]\ntid = 5 => Missing channel 0 number
sensor = 1\nchannel = 1\ntid = 5 => WrongType top sensor
numeric = 1\nchannel = 1\ntid = 5 => WrongType top channel

# How many users and channels a board has at most, on each of which each user may do the same.
file board
with bare
at users = [""]
users = [""<16:, "user #">]\nchannel = [<8:{number = #, sessions = true, access = [2, 2], limit = [4, 4], users = [20, 20, 20, 20, 20, 20, 20, 20, 20, 20, 20, 20, 20, 20, 20, 20, 20]}, >] => Range top users
users = [""<15:, "user #">]\nchannel = [<9:{number = #, sessions = true, access = [2, 2], limit = [4, 4], users = [20, 20, 20, 20, 20, 20, 20, 20, 20, 20, 20, 20, 20, 20, 20, 20]}, >] => Range top channel
until users = [""] -> users = [""<15:, "user #">]\nchannel = [<8:{number = #, sessions = true, access = [2, 2], limit = [4, 4], users = [20, 20, 20, 20, 20, 20, 20, 20, 20, 20, 20, 20, 20, 20, 20, 20]}, >] => reads
behind
=> holds 16 User {
=> holds 8 non_volatile:
=> holds 128 UserAccess {
# The last is that of user 16 on channel 7.
=> holds 1 UserAccess { on: UserOnChannel { channel: BitField { number: 7 }, user: BitField { number: 16 } }, byte: 20 }] } }
"#;

#[test]
fn channels_are_read(rt: HostRuntime) {
    expect_told(&rt, rt.alloc(), CHANNELS);
}
