//! Worked frames to the two ports of a board, one after the other.
use super::expect_told;

/// Frames on IPMB.
const IPMB: &str = "story Get Device ID is answered
ipmb 2018C82C0001D3 -> Answered 2C1CB820000100200101050207CDAB003412F1

story upper critical is set and got again
ipmb 2010D02C08260510000000005A0037 -> Answered 2C14C020082600B2
ipmb 2010D02C0C27059C -> Answered 2C14C0200C27003F140A05505A6E33
kept ipmi 10 27 05 -> 140A05505A6E

story hysteresis is set and got again
ipmb 2010D02C002405FF0301A8 -> Answered 2C14C020002400BC
ipmb 2010D02C042505FFA7 -> Answered 2C14C0200425000301B3

story events are enabled and got again
ipmb 2010D02C042805D08002000051 -> Answered 2C14C020042800B4
ipmb 2010D02C0829059E -> Answered 2C14C020082900C0800200006D

story the self test found no error
ipmb 2018C82C0004D0 -> Answered 2C1CB820000400550087

story a watchdog that was never set is not reset
ipmb 2018C82C0022B2 -> Answered 2C1CB8200022803E

story the chassis status shows the power policy
ipmb 2000E02C0001D3 -> Answered 2C04D020000100200000BF
# The upper five bits of the policy's byte are ignored.
ipmb 2000E02C04060AC0 -> Answered 2C04D02004060007CF
ipmb 2000E02C0801CB -> Answered 2C04D02008010040000097

story the longest frame is heard and a longer one is not
ipmb 2018C82C0401 00*25 CF -> Answered 2C1CB8200401C714
ipmb 2018C82C0401 00*25 00CF -> Ignored(Frame(Long))

story a logical unit is looked at before the command
# A command that isn't known, to LUN 1.
ipmb 2011CF2C142B95 -> Answered 2C14C020152BC2DE

story the event of a reading is got
reads 05 60
ipmb 2028B82C00430000000000FF92 -> Answered 2C2CA820004300FFFF0100020000000020000401050159605F59

story the log is reserved
ipmb 2028B84000427E -> Answered 402C942000420001009D

story a frame with a fault is ignored and changes nothing
ipmb 2010D02C08260510000000005A0038 -> Ignored(Frame(BodySum))
# Both checksums are wrong.
ipmb 2010D12C08260510000000005A0038 -> Ignored(Frame(HeadSum))
ipmb 2018C82C0001 -> Ignored(Frame(Short))
kept ipmi 10 27 05 -> 140A05505F6E

story thresholds out of order are refused and change nothing
# Upper critical above upper non-recoverable.
ipmb 2010D02C1026051000000000700019 -> Answered 2C14C0201026CCDE
# Lower non-recoverable above lower critical.
ipmb 2010D02C1026050400000B0000008A -> Answered 2C14C0201026CCDE
kept ipmi 10 27 05 -> 140A05505F6E

story frames to others and responses are ignored
# Get Device ID to 22h: the first address and its checksum differ.
ipmb 2218C62C0001D3 -> Ignored(NotOurs)
# A response to 20h from 2Ch, with netFn 07h, and one to 22h.
ipmb 201CC42C000100D3 -> Ignored(NotRequest)
ipmb 221CC22C000100D3 -> Ignored(NotOurs)
";

/// Packets on the System Management Bus.
const SMBUS: &str = "story an endpoint says its identifier
smbus 200F0831010008C800800250 -> Control 300F0C2101080AC0000002000A000040

story the terminus and its types are told
smbus 200F0931010A08C801800002BE -> Answered 300F0B2101080AC00100000200051C
smbus 200F0931010A08C801800004AC -> Answered 300F122101080AC001000004000D0000000000000094
# Bit 5 of the first byte is ignored.
smbus 200F0931010A08C801A00002FD -> Answered 300F0B2101080AC00100000200051C
# A type that the controller doesn't know.
smbus 200F0931010A08C801800102AB -> Answered 300F0A2101080AC0010001022095

story an identifier that was taken is the endpoint's from then on
smbus 200F0A31010A08C8008101000918 -> Control 300F0C21010809C0000101000009007E
smbus 200F0931010A08C801800002BE -> Ignored(Dropped(NotOurs))
# Tag 3 and instance 5.
smbus 200F0931010908CB01850002BE -> Answered 300F0B21010809C3010500020005A2

story a message of two packets is answered to where the last came from
# GetTID with 61 bytes of data: a wrong length.
smbus 200F4531010A08880180000200 00*59 44 -> Waiting
smbus 200F0633010A085800F5 -> Answered 320F0A2101080AC0010000020338

story one Out serves for many calls
ipmb 2018C82C0001D3 -> Answered 2C1CB820000100200101050207CDAB003412F1
# A wrong checksum, and nothing is left of the reply.
ipmb 2018C82C0001D4 -> Ignored(Frame(BodySum))
# The same request again: the frame of a longer reply, then of a shorter one.
ipmb 2018C82C0001D3 -> Repeated 2C1CB820000100200101050207CDAB003412F1
ipmb 2018C82C0022B2 -> Answered 2C1CB8200022803E
# A packet after frames, and one of a message that isn't whole.
smbus 200F0931010A08C801800002BE -> Answered 300F0B2101080AC00100000200051C
smbus 200F4531010A08880180000200 00*59 44 -> Waiting
smbus 200F0931010A08C801800002BE -> Repeated 300F0B2101080AC00100000200051C
smbus 200F0631010A08C87E3B -> Ignored(MessageType)
ipmb 2018C82C0001D3 -> Answered 2C1CB820000100200101050207CDAB003412F1
ipmb 2018C82C0001D4 -> Ignored(Frame(BodySum))
ipmb 2018C82C0001D3 -> Repeated 2C1CB820000100200101050207CDAB003412F1
ipmb 2018C82C0022B2 -> Answered 2C1CB8200022803E

story each packet fault is a reason
smbus 200F0531010A08C800 -> Ignored(Packet(Short))
smbus 200E0931010A08C801800002A1 -> Ignored(Packet(NotMctp))
smbus 200F0831010A08C801800002D6 -> Ignored(Packet(Count))
smbus 200F0931010A08C801800002BF -> Ignored(Packet(Pec))
smbus 200F0931020A08C8018000028B -> Ignored(Packet(Version))
# The packet error code and the version are wrong.
smbus 200F0931020A08C8018000028A -> Ignored(Packet(Pec))

story each message that is no request of the controller has its reason
# To the two-wire address 22h.
smbus 220F0931010A08C80180000204 -> Ignored(NotOurs)
# Under a tag that the sender doesn't own, whatever the type is.
smbus 200F0931010A08C001800002A7 -> Ignored(NotRequest)
smbus 200F0631010A08C07E93 -> Ignored(NotRequest)
# A control message that is no request, and one that is too short.
smbus 200F0831010A08C8000002FB -> Ignored(NotRequest)
smbus 200F0731010A08C800804F -> Ignored(NotRequest)
smbus 200F0631010A08C87E3B -> Ignored(MessageType)
smbus 200F0831010A08C801800028 -> Ignored(Pldm(Short))
smbus 200F0931010A08C801804002E5 -> Ignored(Pldm(Version))
smbus 200F0931010A08C801000002B5 -> Ignored(Pldm(NotRequest))
smbus 200F0931010A08C801C0000238 -> Ignored(Pldm(NotRequest))
smbus 200F0931010A08C801800002BE -> Answered 300F0B2101080AC00100000200051C

story each drop cause is a reason
smbus 200F0931010B08C80180000261 -> Ignored(Dropped(NotOurs))
# To the broadcast identifier.
smbus 200F093101FF08C801800002A9 -> Ignored(Dropped(NotOurs))
smbus 200F0931010A0858018000021B -> Ignored(Dropped(NoStart))
smbus 200F0931010A08D8018000028C -> Ignored(Dropped(OutOfSequence))
smbus 200F0931010A08880180000276 -> Ignored(Dropped(UnitSize))
# Packets of 64 bytes of payload that are no end.
smbus 200F4531010A088801 00*63 33 -> Waiting
smbus 200F4531010A081801 00*63 8E -> Waiting
smbus 200F4531010A082801 00*63 B1 -> Waiting
smbus 200F4531010A083801 00*63 A4 -> Waiting
# The fifth packet of a message is too long.
smbus 200F4531010A080801 00*63 9B -> Ignored(Dropped(TooLong))
# Beside eight messages in parts there is no room for a ninth.
smbus 200F4531010A108801 00*63 EE -> Waiting
smbus 200F4531010A118801 00*63 B9 -> Waiting
smbus 200F4531010A128801 00*63 40 -> Waiting
smbus 200F4531010A138801 00*63 17 -> Waiting
smbus 200F4531010A148801 00*63 B5 -> Waiting
smbus 200F4531010A158801 00*63 E2 -> Waiting
smbus 200F4531010A168801 00*63 1B -> Waiting
smbus 200F4531010A178801 00*63 4C -> Waiting
smbus 200F4531010A188801 00*63 58 -> Ignored(Dropped(NoSlot))
# A message in one packet needs no room.
smbus 200F0931010A08C801800002BE -> Answered 300F0B2101080AC00100000200051C
";

/// Requests to a board of a file.
const EFFECTERS: &str = "story effecters of a file are set and got
# Two effecters: 9 of states, and 4 of u16 from 0 to 1000.
board state = [{id = 9, operational = 1, states = [[1, 2], [1, 2, 3]], current = [1, 1]}]
board numeric = [{id = 4, size = 2, operational = 1, lower = 0, upper = 1000, current = 500}]
pldm 02 39 09000201020000 -> 00
pldm 02 3A 0900 -> 00 02010202010101
pldm 02 39 09000200000104 -> 81
pldm 02 31 040002E803 -> 00
pldm 02 32 0400 -> 00 0201E803E803
pldm 02 31 040002E903 -> 02
";

#[test]
fn frames_come_to_the_ports_of_a_board(rt: HostRuntime) {
    expect_told(&rt, rt.alloc(), IPMB);
    expect_told(&rt, rt.alloc(), SMBUS);
    expect_told(&rt, rt.alloc(), EFFECTERS);
}
