//! Undo texts, good and bad.
use super::expect_told;

/// What is read of undo texts, and written of it.
const UNDO_TEXTS: &str = r#"
# The text of a plan that sets upper thresholds of sensor 5 twice. Of its prefixes those are read that end behind lines 2, 3 and 4.
file undo
+ undo 1
+ next ipmb 4 smbus 0
+ ipmb 10260530000000005A6E
+ ipmb 10260518000000505F00
ends reads => 27 53 79

# The list has the request of the first step first: 18h is the mask of upper non-critical 50h and upper critical 5Fh, and 30h that of upper
# critical 5Ah and upper non-recoverable 6Eh.
file list
+ undo 1
+ next ipmb 4 smbus 0
+ ipmb 10260530000000005A6E
+ ipmb 10260518000000505F00
=> Ipmi { net_fn: NetFn { number: 4 }, lun: Below { number: 0 }, command: 38, body: Data { bytes: [5, 24, 0, 0, 0, 80, 95, 0] } }, Ipmi { net_fn: NetFn { number: 4 }, lun: Below { number: 0 }, command: 38, body: Data { bytes: [5, 48, 0, 0, 0, 0, 90, 110] } }, NextNumbers { ipmb: Below { number: 4 }, smbus: Below { number: 0 } }, None

# A text of version 2 has the names in line 3. Of its prefixes those are read that end behind lines 3, 4 and 5.
file undo
+ undo 2
+ next ipmb 4 smbus 0
+ names ipmb 2C 20 smbus 30 20 eid 08 0A
+ ipmb 10260530000000005A6E
+ ipmb 10260518000000505F00
ends reads => 66 92 118
=> undo 2\nnext ipmb 4 smbus 0\nnames ipmb 2C 20 smbus 30 20 eid 08 0A\nipmb 10260530000000005A6E\nipmb 10260518000000505F00\n

file list
+ undo 2
+ next ipmb 4 smbus 0
+ names ipmb 2C 20 smbus 30 22 eid 08 0A
=> NextNumbers { ipmb: Below { number: 4 }, smbus: Below { number: 0 } }, Some(Names { own_address: Address { byte: 44 }, peer_address: Address { byte: 32 }, own_wire: Address { byte: 48 }, peer_wire: Address { byte: 34 }, own_eid: 8, peer_eid: 10 })

file undo
# The first bad line is named.
=> Line 1
undo 1 => Line 1
undo 3\nnext ipmb 4 smbus 0\n => Line 1
undo 3\nnext ipmb 4 smbus 0\nnames ipmb 2C 20 smbus 30 20 eid 08 0A\n => Line 1
undo 2 => Line 1
journal 1\nretries 3\n => Line 1
Undo 1\nnext ipmb 4 smbus 0\n => Line 1
undo 1\r\nnext ipmb 4 smbus 0\n => Line 1
undo 1\n => Line 2
undo 1\n\n => Line 2
undo 1\nnext ipmb 4 smbus 0 => Line 2
undo 1\nnext ipmb 64 smbus 0\n => Line 2
undo 1\nnext ipmb 4 smbus 32\n => Line 2
undo 1\nnext ipmb 04 smbus 0\n => Line 2
undo 1\nnext ipmb 4 smbus 00\n => Line 2
undo 1\nnext ipmb +4 smbus 0\n => Line 2
undo 1\nnext ipmb 4  smbus 0\n => Line 2
undo 1\nnext ipmb 4 smbus 0 \n => Line 2
undo 1\nnext ipmb  smbus 0\n => Line 2
undo 1\nnext smbus 0 ipmb 4\n => Line 2
undo 2\n => Line 2
undo 2\nnext ipmb 64 smbus 0\nnames ipmb 2C 20 smbus 30 20 eid 08 0A\n => Line 2
undo 2\nnames ipmb 2C 20 smbus 30 20 eid 08 0A\nnext ipmb 4 smbus 0\n => Line 2
undo 2\nnext ipmb 4 smbus 0\n => Line 3
behind undo 1\nnext ipmb 4 smbus 0\n
usb 10260530000000005A6E\n => Line 3
\n => Line 3
ipmb 10260530000000005A6E => Line 3
ipmb 10\n => Line 3
ipmb \n => Line 3
ipmb 102\n => Line 3
ipmb 1026 05\n => Line 3
ipmb 1126\n => Line 3
ipmb 1426\n => Line 3
IPMB 1026\n => Line 3
smbus 03\n => Line 3
smbus 4307\n => Line 3
ipmb 1026\nsmbus 8307\n => Line 4
ipmb 1026\n ipmb 1026\n => Line 4

names ipmb 2C 20 smbus 30 20 eid 08 0A\n => Line 3

# In version 2 line 3 has the names: two digits each, and addresses with bit 0 clear.
behind undo 2\nnext ipmb 4 smbus 0\n
names ipmb 2C 20 smbus 30 20 eid 08 0A\n | names ipmb 00 FE smbus 00 FE eid 00 FF\n => reads
names ipmb 2C 20 smbus 30 20 eid 09 0B\n => undo 2\nnext ipmb 4 smbus 0\nnames ipmb 2C 20 smbus 30 20 eid 09 0B\n
names ipmb 2D 20 smbus 30 20 eid 08 0A\n => Line 3
names ipmb 2C 21 smbus 30 20 eid 08 0A\n => Line 3
names ipmb 2C 20 smbus 31 20 eid 08 0A\n => Line 3
names ipmb 2C 20 smbus 30 21 eid 08 0A\n => Line 3
names ipmb 2C 20 smbus 30 20 eid 08 0A => Line 3
names ipmb 2C 20 smbus 30 20 eid 08 0A \n => Line 3
names ipmb 2C 20 smbus 30 20 eid 8 0A\n => Line 3
names ipmb 2C 20 smbus 30 20 eid 08 A\n => Line 3
names ipmb 02C 20 smbus 30 20 eid 08 0A\n => Line 3
names ipmb 2C 20 smbus 30 20 eid 08 0A0A\n => Line 3
names ipmb 2C 20 smbus 30 20 eid 0x 0A\n => Line 3
names ipmb 2C  20 smbus 30 20 eid 08 0A\n => Line 3
names ipmb 2C20 smbus 30 20 eid 08 0A\n => Line 3
names ipmb 2C 20 smbus 30 20\n => Line 3
names smbus 30 20 ipmb 2C 20 eid 08 0A\n => Line 3
Names ipmb 2C 20 smbus 30 20 eid 08 0A\n => Line 3
\n => Line 3
ipmb 10260530000000005A6E\n => Line 3
names ipmb 2C 20 smbus 30 20 eid 08 0A\nusb 10260530000000005A6E\n => Line 4
names ipmb 2C 20 smbus 30 20 eid 08 0A\nnames ipmb 2C 20 smbus 30 20 eid 08 0A\n => Line 4
names ipmb 2C 20 smbus 30 20 eid 08 0A\nipmb 1026\nsmbus 8307\n => Line 5

# The longest requests are read.
behind undo 1\nnext ipmb 0 smbus 0\n
ipmb F8<26:00>\n | smbus 3F<253:00>\n => reads
ipmb F8<27:00>\n | smbus 3F<254:00>\n => Line 3

# One that sets an attribute to a whole entry of over 205 bytes goes in parts, and has up to 1,036 bytes.
smbus 0307<4:00>05<248:61>\n | smbus 0307<4:00>05<1029:61>\n | smbus 0307<4:FF>05<1029:61>\n => reads
smbus 0307<4:00>05<1030:61>\n | smbus 0307<4:00>04<248:61>\n | smbus 0307<4:00>01<248:61>\n => Line 3
smbus 0308<4:00>05<248:61>\n | smbus 0207<4:00>05<248:61>\n | smbus 0306<4:00>05<1029:61>\n => Line 3

# There are at most 256 requests.
<256:ipmb 1026\n> => holds 256 ipmb 1026
<257:ipmb 1026\n> => Line 259
behind undo 2\nnext ipmb 0 smbus 0\nnames ipmb 2C 20 smbus 30 20 eid 08 0A\n
<256:ipmb 1026\n> => holds 256 ipmb 1026
<257:ipmb 1026\n> => Line 260
smbus 0307<4:00>05<1029:61>\n => reads
smbus 0307<4:00>05<1030:61>\n => Line 4

# An empty list and requests of both buses are read, and written as they were.
behind
undo 1\nnext ipmb 0 smbus 0\n => undo 1\nnext ipmb 0 smbus 0\n
undo 1\nnext ipmb 63 smbus 31\nsmbus 0307000000000501000106007261636B2D31\n => undo 1\nnext ipmb 63 smbus 31\nsmbus 0307000000000501000106007261636B2D31\n
undo 1\nnext ipmb 0 smbus 3\nsmbus 0307<4:00>050100019001<400:61>\n => undo 1\nnext ipmb 0 smbus 3\nsmbus 0307<4:00>050100019001<400:61>\n
undo 1\nnext ipmb 63 smbus 31\nsmbus 3FFF\nipmb F8FF\n => undo 1\nnext ipmb 63 smbus 31\nsmbus 3FFF\nipmb F8FF\n
# The undo of a step on thresholds of sensor 5, and of one on numeric effecter 4 before it.
undo 1\nnext ipmb 2 smbus 2\nipmb 10260510000000005F00\nsmbus 0231040002F401\n => undo 1\nnext ipmb 2 smbus 2\nipmb 10260510000000005F00\nsmbus 0231040002F401\n

# The undo of a step on an address, in a text that names the machines.
undo 2\nnext ipmb 2 smbus 0\nnames ipmb 2C 20 smbus 30 20 eid 08 0A\nipmb 30010103C0000201\n => undo 2\nnext ipmb 2 smbus 0\nnames ipmb 2C 20 smbus 30 20 eid 08 0A\nipmb 30010103C0000201\n

# Digits are read in either case.
undo 2\nnext ipmb 2 smbus 0\nnames ipmb 2c 20 smbus 30 20 eid 08 0a\nipmb 30010103c0000201\n => undo 2\nnext ipmb 2 smbus 0\nnames ipmb 2C 20 smbus 30 20 eid 08 0A\nipmb 30010103C0000201\n
undo 1\nnext ipmb 4 smbus 0\nipmb 10260530000000005a6e\nipmb 10260518000000505f00\n => undo 1\nnext ipmb 4 smbus 0\nipmb 10260530000000005A6E\nipmb 10260518000000505F00\n
"#;

#[test]
fn undo_texts_are_read(rt: HostRuntime) {
    expect_told(&rt, rt.alloc(), UNDO_TEXTS);
}
