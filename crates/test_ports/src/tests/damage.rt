//! Frames and packets that come damaged. Each frame is cut off at each place, and comes with each other byte at each place.
use super::expect_report;

const FRAMES: &str = "\
story damaged frames leave board and windows as they were
# A requester has the identifier of the device, a length that is refused, a threshold set, shown, and one refused.
ipmb 2018C82C0001D3 -> Answered 2C1CB820000100200101050207CDAB003412F1
ipmb 2018C82C0401 00*25 CF -> Answered 2C1CB8200401C714
ipmb 2010D02C08260510000000005A0037 -> Answered 2C14C020082600B2
ipmb 2010D02C0C27059C -> Answered 2C14C0200C27003F140A05505A6E33
ipmb 2010D02C1026051000000000700019 -> Answered 2C14C0201026CCDE
# Each of these frames comes cut off at each place, and with each other byte at each place.
cuts ipmb 2018C82C0001D3 -> 7 Ignored(Frame(Short))
changed ipmb 2018C82C0001D3 -> 637 Ignored(Frame(HeadSum)) 128 Ignored(Frame(Short)) 1020 Ignored(Frame(BodySum))
cuts ipmb 2018C82C0401 00*25 CF -> 7 Ignored(Frame(Short)) 25 Ignored(Frame(BodySum))
changed ipmb 2018C82C0401 00*25 CF -> 765 Ignored(Frame(HeadSum)) 7395 Ignored(Frame(BodySum))
cuts ipmb 2010D02C08260510000000005A0037 -> 7 Ignored(Frame(Short)) 8 Ignored(Frame(BodySum))
changed ipmb 2010D02C08260510000000005A0037 -> 765 Ignored(Frame(HeadSum)) 3060 Ignored(Frame(BodySum))
cuts ipmb 2010D02C0C27059C -> 7 Ignored(Frame(Short)) 1 Ignored(Frame(BodySum))
changed ipmb 2010D02C0C27059C -> 765 Ignored(Frame(HeadSum)) 1275 Ignored(Frame(BodySum))
cuts ipmb 2010D02C1026051000000000700019 -> 7 Ignored(Frame(Short)) 8 Ignored(Frame(BodySum))
changed ipmb 2010D02C1026051000000000700019 -> 765 Ignored(Frame(HeadSum)) 3060 Ignored(Frame(BodySum))
# Each gets the reply that was kept; the store keeps what was set, and seven requesters more have windows.
ipmb 2018C82C0001D3 -> Repeated 2C1CB820000100200101050207CDAB003412F1
ipmb 2018C82C0401 00*25 CF -> Repeated 2C1CB8200401C714
ipmb 2010D02C08260510000000005A0037 -> Repeated 2C14C020082600B2
ipmb 2010D02C0C27059C -> Repeated 2C14C0200C27003F140A05505A6E33
ipmb 2010D02C1026051000000000700019 -> Repeated 2C14C0201026CCDE
kept ipmi 10 27 05 -> 140A05505A6E
ipmb 2028B84000427E -> Answered 402C942000420001009D
ipmb 2028B84200427C -> Answered 422C922000420002009C
ipmb 2028B84400427A -> Answered 442C902000420003009B
ipmb 2028B846004278 -> Answered 462C8E2000420004009A
ipmb 2028B848004276 -> Answered 482C8C20004200050099
ipmb 2028B84A004274 -> Answered 4A2C8A20004200060098
ipmb 2028B84C004272 -> Answered 4C2C8820004200070097
ipmb 2028B84E004270 -> Busy 4E2C86200042C0DE

story frames that were damaged before come whole
cuts ipmb 2018C82C0001D3 -> 7 Ignored(Frame(Short))
changed ipmb 2018C82C0001D3 -> 637 Ignored(Frame(HeadSum)) 128 Ignored(Frame(Short)) 1020 Ignored(Frame(BodySum))
cuts ipmb 2018C82C0401 00*25 CF -> 7 Ignored(Frame(Short)) 25 Ignored(Frame(BodySum))
changed ipmb 2018C82C0401 00*25 CF -> 765 Ignored(Frame(HeadSum)) 7395 Ignored(Frame(BodySum))
cuts ipmb 2010D02C08260510000000005A0037 -> 7 Ignored(Frame(Short)) 8 Ignored(Frame(BodySum))
changed ipmb 2010D02C08260510000000005A0037 -> 765 Ignored(Frame(HeadSum)) 3060 Ignored(Frame(BodySum))
cuts ipmb 2010D02C0C27059C -> 7 Ignored(Frame(Short)) 1 Ignored(Frame(BodySum))
changed ipmb 2010D02C0C27059C -> 765 Ignored(Frame(HeadSum)) 1275 Ignored(Frame(BodySum))
cuts ipmb 2010D02C1026051000000000700019 -> 7 Ignored(Frame(Short)) 8 Ignored(Frame(BodySum))
changed ipmb 2010D02C1026051000000000700019 -> 765 Ignored(Frame(HeadSum)) 3060 Ignored(Frame(BodySum))
kept ipmi 10 27 05 -> 140A05505F6E
ipmb 2018C82C0001D3 -> Answered 2C1CB820000100200101050207CDAB003412F1
ipmb 2018C82C0401 00*25 CF -> Answered 2C1CB8200401C714
ipmb 2010D02C08260510000000005A0037 -> Answered 2C14C020082600B2
ipmb 2010D02C0C27059C -> Answered 2C14C0200C27003F140A05505A6E33
ipmb 2010D02C1026051000000000700019 -> Answered 2C14C0201026CCDE
";

const PACKETS: &str = "\
story damaged packets leave windows, assemblies and the endpoint as they were
smbus 200F0931010A08C801800002BE -> Answered 300F0B2101080AC00100000200051C
smbus 200F0831010008C800800250 -> Control 300F0C2101080AC0000002000A000040
# A message begins: an attribute is to have a text of a hundred letters.
smbus 200F4531010A0B880180030700000000050100016400 61*50 4A -> Waiting
cuts smbus 200F0931010A08C801800002BE -> 10 Ignored(Packet(Short)) 3 Ignored(Packet(Count))
changed smbus 200F0931010A08C801800002BE -> 511 Ignored(Packet(NotMctp)) 2549 Ignored(Packet(Pec)) 255 Ignored(Packet(Count))
cuts smbus 200F0831010008C800800250 -> 10 Ignored(Packet(Short)) 2 Ignored(Packet(Count))
changed smbus 200F0831010008C800800250 -> 511 Ignored(Packet(NotMctp)) 2294 Ignored(Packet(Pec)) 255 Ignored(Packet(Count))
pldm 03 08 00000000 01 0100 -> 00 00000000 05 0100 01 0600 7261636B2D31
smbus 200F0931010A08C801800002BE -> Repeated 300F0B2101080AC00100000200051C
smbus 200F0831010008C800800250 -> Control 300F0C2101080AC0000002000A000040
# The rest of the message comes.
smbus 200F3731010A0B58 61*50 FF -> Answered 300F0E21010B0AC001000307000000000075
pldm 03 08 00000000 01 0100 -> 00 00000000 05 0100 01 6400 61*100

story packets that were damaged before come whole
cuts smbus 200F0931010A08C801800002BE -> 10 Ignored(Packet(Short)) 3 Ignored(Packet(Count))
changed smbus 200F0931010A08C801800002BE -> 511 Ignored(Packet(NotMctp)) 2549 Ignored(Packet(Pec)) 255 Ignored(Packet(Count))
cuts smbus 200F0831010008C800800250 -> 10 Ignored(Packet(Short)) 2 Ignored(Packet(Count))
changed smbus 200F0831010008C800800250 -> 511 Ignored(Packet(NotMctp)) 2294 Ignored(Packet(Pec)) 255 Ignored(Packet(Count))
smbus 200F0931010A08C801800002BE -> Answered 300F0B2101080AC00100000200051C
smbus 200F0831010008C800800250 -> Control 300F0C2101080AC0000002000A000040
";

#[test]
fn what_is_damaged_changes_nothing(rt: HostRuntime) {
    for stories in [FRAMES, PACKETS] {
        expect_report(&rt, rt.alloc(), stories, "");
    }
}
