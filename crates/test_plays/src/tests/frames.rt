//! Frames to a fresh controller: what `frame_run` writes, and how it ends.
use super::expect_told;

/// Frames to the sample board and to those of files.
const FRAMES: &str = "story a run says what was sent, or why nothing was
ipmb 2018C82C0001D3 -> 0 out: 2C1CB820000100200101050207CDAB003412F1
ipmb 2010D02C08260510000000005A0037 -> 0 out: 2C14C020082600B2
ipmb 2010D02C08260510000000005A0038 -> 1 out: ignored BodySum
ipmb 2218C62C0001D3 -> 1 out: ignored NotOurs
smbus 200F0831010008C800800250 -> 0 out: 300F0C2101080AC0000002000A000040
smbus 200F0931010A08C801800002BE -> 0 out: 300F0B2101080AC00100000200051C
smbus 200F4531010A08880180000200000000000000000000000000000000000000000000000000000000000000000000000000000000000000000000000000000000000000000000000044 -> 1 out: waiting
smbus 200F0931010B08C80180000261 -> 1 out: ignored NotOurs
smbus 220F0931010A08C80180000204 -> 1 out: ignored NotOurs
smbus 200F0631010A08C87E3B -> 1 out: ignored MessageType
smbus 200F0931010A08C801C0000238 -> 1 out: ignored NotRequest
smbus 200F0931010A08C801800002BF -> 1 out: ignored Pec
smbus 2010D02C08260510000000005A0037 -> 1 out: ignored NotMctp

# The second and the third are what user 2 may do on channel 1, and the name; the last is the name of the asset.
story the sample file is answered for as the sample board
ipmb 2018C82C0001D3 -> 0 out: 2C1CB820000100200101050207CDAB003412F1
ipmb 2018C82C004401028D -> 0 out: 2C1CB8200044000280011405
ipmb 2018C82C0046028C -> 0 out: 2C1CB82000460061646D696E000000000000000000000091
ipmb 2010D02C0C27059C -> 0 out: 2C14C0200C27003F140A05505F6E2E
ipmb 2010D02C08260510000000005A0037 -> 0 out: 2C14C020082600B2
smbus 200F0931010A08C801800002BE -> 0 out: 300F0B2101080AC00100000200051C
smbus 200F1031010A08C801800308000000000101000B -> 0 out: 300F1A2101080AC00100030800000000000501000106007261636B2D3150
board sample
ipmb 2018C82C0001D3 -> 0 out: 2C1CB820000100200101050207CDAB003412F1
ipmb 2018C82C004401028D -> 0 out: 2C1CB8200044000280011405
ipmb 2018C82C0046028C -> 0 out: 2C1CB82000460061646D696E000000000000000000000091
ipmb 2010D02C0C27059C -> 0 out: 2C14C0200C27003F140A05505F6E2E
ipmb 2010D02C08260510000000005A0037 -> 0 out: 2C14C020082600B2
smbus 200F0931010A08C801800002BE -> 0 out: 300F0B2101080AC00100000200051C
smbus 200F1031010A08C801800308000000000101000B -> 0 out: 300F1A2101080AC00100030800000000000501000106007261636B2D3150

story Get Device ID shows the file's device
board sample
swap id = 0x20 => id = 0x21
ipmb 2018C82C0001D3 -> 0 out: 2C1CB820000100210101050207CDAB003412F0

# The value is 500 at first; 1000 is taken, and 1001 is bad data. No effecter is 5.
story a file's effecter has values of its range
board sample effecter
smbus 200F0B31010A08C8018002320400BA -> 0 out: 300F102101080AC001000232000201F401F40147
smbus 200F0E31010A08C801800231040002E8034D -> 0 out: 300F0A2101080AC001000231000E
smbus 200F0E31010A08C801800231040002E90358 -> 0 out: 300F0A2101080AC0010002310200
smbus 200F0B31010A08C8018002320500AF -> 0 out: 300F0A2101080AC00100023280B8

story the first fault of a board's file is named
board sample
swap policy = 1 => policy = 4
ipmb 2018C82C0001D3 -> 3 err: board Range top policy
board sample
swap number = 7 => number = 5
ipmb 2018C82C0001D3 -> 3 err: board Twice sensor 1 number
board sample
swap [device] => [other]
ipmb 2018C82C0001D3 -> 3 err: board Missing top device
board sample
swap id = 0x20 => id = true
ipmb 2018C82C0001D3 -> 3 err: board WrongType device id
board sample
swap tid = 5 => tid =
ipmb 2018C82C0001D3 -> 3 err: board Text
";

/// A file that has as much of everything as a file can.
const FULL: &str =
    "# A file that has as much of everything as a file can, but for its sensor data records.
part full-top
  tid = 5 / clock = 0xFFFFFFFF / log = 1024 / enables = 0x08 / policy = 1 / watchdog = [0, 0, 0, 0]
  boot3 = 0 / boot4 = 0 / boot5 = [0, 0, 0, 0, 0]
  users = [\"\", \"1\", \"2\", \"3\", \"4\", \"5\", \"6\", \"7\", \"8\", \"9\", \"10\", \"11\", \"12\", \"13\", \"14\", \"15\"]
part full-items
  32 x [[sensor]] / number = {0+1} / type = 1 / readable = 0x3F / settable = 0x3F / thresholds = [0x14, 0x0A, 0x05, 0x50, 0x5F, 0x6E] / hysteresis = [2, 2] / supported = 0xFFF / flags = 0xC0 / assert = 0x200 / deassert = 0
  8 x [[channel]] / number = {0+1} / sessions = true / access = [2, 2] / limit = [4, 4] / users = [1, 2, 3, 4, 5, 15, 1, 2, 3, 4, 5, 15, 1, 2, 3, 4]
  32 x [[state]] / id = {0+1} / operational = 1 / states = [[1], [2], [3], [4], [5], [6], [7], [8]] / current = [1, 2, 3, 4, 5, 6, 7, 8]
  32 x [[numeric]] / id = {0+1} / size = 0 / operational = 2 / lower = 0 / upper = 255 / current = 7
  64 x [[attribute]] / name = \"{0+1}\" / kind = \"enumeration\" / values = [\"0\", \"1\", \"2\", \"3\", \"4\", \"5\", \"6\", \"7\", \"8\", \"9\", \"10\", \"11\", \"12\", \"13\", \"14\", \"15\"] / default = [0] / current = [15, 14, 13, 12, 11, 10, 9, 8, 7, 6, 5, 4, 3, 2, 1, 0] / readonly = false
# Sensor data records of the ids 1 to 64, and 1 to 65.
part records-64
  sdr = [
  64 x \"{x1+1}0051C00100\",
  ]
part records-65
  sdr = [
  65 x \"{x1+1}0051C00100\",
  ]

# The last record, sensor, user, channel, effecter and attribute of the file are there, and no further ones.
story the last of all items of a full file is shown
board full-top records-64 device-20h full-items
smbus 200F1031010A08C80180030800000000013F0024 -> 0 out: 300F232101080AC0010003080000000000053F0000100F0E0D0C0B0A0908070605040302010050
smbus 200F0B31010A08C80180023A1F002B -> 0 out: 300F232101080AC00100023A000801010101020201030301040401050501060601070701080835
smbus 200F0B31010A08C8018002321F007A -> 0 out: 300F0E2101080AC0010002320000020707CD
ipmb 2010D02C00271F8E -> 0 out: 2C14C020002700..
ipmb 2010D02C0027208D -> 0 out: 2C14C0200027CB..
ipmb 2018C82C0044071079 -> 0 out: 2C1CB820004400..
ipmb 2018C82C0044081078 -> 0 out: 2C1CB8200044CC..
ipmb 2018C82C0044071178 -> 0 out: 2C1CB8200044CC..
ipmb 2028B82C00230000400000066B -> 0 out: 2C2CA820002300..
ipmb 2028B82C00230000410000066A -> 0 out: 2C2CA8200023CB..
# The clock is at its end.
ipmb 2028B82C00488C -> 0 out: 2C2CA820004800FFFFFFFF9C

# Each of 64 attributes has a name and four values of its own. Of these 320 strings the last part of their table has those from number 302 on, and then the check.
story 64 attributes have more strings than a byte counts
board fields device-20h
  64 x [[attribute]] / name = \"N{x0+1}\" / kind = \"enumeration\" / values = [\"a{x0+1}\", \"b{x0+1}\", \"c{x0+1}\", \"d{x0+1}\"] / default = [0] / current = [1] / readonly = false
smbus 200F0F31010A08C801800301400800000000C0 -> 0 out
  300F452101080A800100030100000000000433432E0103006233432F01030063334330010300643343310103004E334432010300613344330103006233443401030063334435010362
  300F452101080A1000643344360103004E33453701030061334538010300623345390103006333453A0103006433453B0103004E33463C0103006133463D0103006233463E010300EB
  300F132101080A606333463F010300643346A0B1B26DA6
plan: [[step]] / kind = \"bios-attribute\" / handle = 63 / indexes = [3]
schedule: start / to-bmc 0 / to-mgr 1 / to-bmc 2 / to-mgr 3
lines -> 0 out: phase Done / frames 4 / undo 1 / smbus 030700000000053F00000101 / records changed 1

story a file with 65 records is none
board full-top records-65 device-20h full-items
ipmb 2018C82C0001D3 -> 3 err: board Range top sdr
";

#[test]
fn a_run_says_what_was_sent_or_why_nothing_was(rt: HostRuntime) {
    expect_told(&rt, rt.alloc(), FRAMES);
    expect_told(&rt, rt.alloc(), FULL);
}
