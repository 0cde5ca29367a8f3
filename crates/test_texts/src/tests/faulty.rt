//! Files with faults: each line that is told of them.
use super::expect_told;

/// Faults of a board file's own table and of `[device]`.
const BOARDS: &str = r#"
file check
with sample
at log = 2
log = 1025 => file: board refused, Range: table top, field log\nfile:3: top: log = 1025: a number from 1 to 1024\nRefused
log = "2" => file: board refused, WrongType: table top, field log\nfile:3: top: log = "2": a number from 1 to 1024\nRefused
log = 2.5 => file: board refused, WrongType: table top, field log\nfile:3: top: log = a number with a fraction: a number from 1 to 1024\nRefused
at enables = 0x08
enables = 0x18 => file: board refused, Range: table top, field enables\nfile:4: top: enables = 24: a number from 0 to 255 whose bit 4 is clear\nRefused
at policy = 1
policy = 4 => file: board refused, Range: table top, field policy\nfile:5: top: policy = 4: a number from 0 to 3\nRefused
at users = ["", "admin"]
users = ["", 5] => file: board refused, WrongType: table top, field users\nfile:6: top: users[1] = 5: a list of 1 to 16 texts of at most 16 bytes, the first of them empty\nRefused
users = ["", "a name that is long"] => file: board refused, Range: table top, field users\nfile:6: top: users[1] = "a name that is long": a list of 1 to 16 texts of at most 16 bytes, the first of them empty\nRefused
users = ["root", "admin"] => file: board refused, Range: table top, field users\nfile:6: top: users = ["root", "admin"]: a list of 1 to 16 texts of at most 16 bytes, the first of them empty\nRefused

# Where the file's own table has a fault, another's is told, too.
users = ["admin"] => file: board refused, Range: table top, field users\nfile:6: top: users = ["admin"]: a list of 1 to 16 texts of at most 16 bytes, the first of them empty\nfile:47: channel 0: users = [20, 20]: a list of 1, one for each user: bit 7 clear, and 1 to 5 or 15 in bits 3:0\nRefused
at watchdog = [0, 0, 0, 0]
watchdog = [0, 0, 0] => file: board refused, Range: table top, field watchdog\nfile:7: top: watchdog = [0, 0, 0]: a list of 4: use 0 to 5 and bit 7, actions 0 to 3 in bits 6:4 and in 2:0, 0 to 255, 0 to 65535\nRefused
at boot3 = 0
boot3 = 32 => file: board refused, Range: table top, field boot3\nfile:8: top: boot3 = 32: a number from 0 to 31\nRefused
at boot5 = [0, 0, 0, 0, 0]
boot5 = [0, 0, 0, 0] => file: board refused, Range: table top, field boot5\nfile:10: top: boot5 = [0, 0, 0, 0]: a list of 5 bytes\nRefused
boot5 = [0, 0, 0, 0, 256] => file: board refused, Range: table top, field boot5\nfile:10: top: boot5[4] = 256: a list of 5 bytes\nRefused
at sdr = ["010051C00100"]
sdr = ["010051C00100", "01"] => file: board refused, Range: table top, field sdr\nfile:11: top: sdr[1] = "01": a list of at most 64 texts, each a sensor data record in hexadecimal digits\nRefused
sdr = ["010051C00100", "020051C00100", "010051C00100"] => file: board refused, Twice: table top, field sdr\nfile:11: top: sdr[2] = "010051C00100": a record before has its id, too\nRefused
at minor = 0x05
minor = 0x1A => file: board refused, Range: table device, field minor\nfile:16: device: minor = 26: two decimal digits in a byte, the tens in its upper half, as 0x23\nRefused
at manufacturer = 0xABCD
manufacturer = 0x1000000 => file: board refused, Range: table device, field manufacturer\nfile:18: device: manufacturer = 16777216: a number from 0 to 16777215\nRefused

# Two faults, and a key with a slip.
at tid = 5
tid = 256\nenabels = 1 => file: board refused, Range: table top, field tid\nfile:1: top: tid = 256: a number from 0 to 255\nfile:2: top: unknown key enabels, nearest is enables\nRefused
tidd = 5 => file: board refused, Missing: table top, field tid\nfile: top: lacks tid: a number from 0 to 255\nfile:1: top: unknown key tidd, nearest is tid\nRefused
"#;

/// Faults of items of a board file.
const ITEMS: &str = r#"
file check
with sample
at thresholds = [0x14, 0x0A, 0x05, 0x50, 0x5F, 0x6E]
thresholds = [20, 10, 5, 80, 95] => file: board refused, Range: table sensor, item 0, field thresholds\nfile:25: sensor 0: thresholds = [20, 10, 5, 80, 95]: a list of 6 bytes: 0 where the sensor has none, and none above a higher one\nRefused
at hysteresis = [2, 2]
hysteresis = [2, 300] => file: board refused, Range: table sensor, item 0, field hysteresis\nfile:26: sensor 0: hysteresis[1] = 300: a list of 2 bytes\nRefused
at flags = 0xC0
flags = 1 => file: board refused, Range: table sensor, item 0, field flags\nfile:28: sensor 0: flags = 1: 0, 0x40, 0x80 or 0xC0\nRefused
at assert = 0x200
assert = 0x1000 => file: board refused, Range: table sensor, item 0, field assert\nfile:29: sensor 0: assert = 4096: a number that has no bit but those of supported, 4095\nRefused
at number = 1
number = 12 => file: board refused, Range: table channel, item 0, field number\nfile:43: channel 0: number = 12: a number from 0 to 11, or 15\nRefused
at access = [2, 2]
access = [2, 64] => file: board refused, Range: table channel, item 0, field access\nfile:45: channel 0: access = [2, 64]: a list of 2 numbers from 0 to 63 whose bits 2:0 are at most 3\nRefused
at limit = [4, 4]
limit = [4, 6] => file: board refused, Range: table channel, item 0, field limit\nfile:46: channel 0: limit[1] = 6: a list of 2 numbers from 1 to 5\nRefused
at users = [0x14, 0x14]
users = [0x14, 0x94] => file: board refused, Range: table channel, item 0, field users\nfile:47: channel 0: users[1] = 148: a list of 2, one for each user: bit 7 clear, and 1 to 5 or 15 in bits 3:0\nRefused
at name = "Quiet"
name = 5 => file: board refused, WrongType: table attribute, item 0, field name\nfile:49: attribute 0: name = 5: a text of at most 200 bytes\nRefused
at kind = "enumeration"
kind = "enum" => file: board refused, Range: table attribute, item 0, field kind\nfile:50: attribute 0: kind = "enum": "enumeration", "string" or "integer"\nfile:53: attribute 0: unknown key current\nfile:52: attribute 0: unknown key default\nfile:51: attribute 0: unknown key values\nRefused
at default = [0]
default = [2] => file: board refused, Range: table attribute, item 0, field default\nfile:52: attribute 0: default[0] = 2: a list of 1 to 2 indexes of values, counted from 0\nRefused
at most = 200
most = -1 => file: board refused, Range: table attribute, item 1, field most\nfile:60: attribute 1: most = -1: a number from least, 0, to 1024\nRefused
at lower = 0
lower = 400 => file: board refused, Range: table attribute, item 2, field upper\nfile:68: attribute 2: upper = 300: a number from lower, 400, on\nRefused
at default = 30
default = 35 => file: board refused, Range: table attribute, item 2, field default\nfile:70: attribute 2: default = 35: a number from lower, 0, to upper, 300, by steps of increment, 10\nRefused
at increment = 10
incremnt = 10 => file: board refused, Missing: table attribute, item 2, field increment\nfile:64: attribute 2: lacks increment: a number from 0 to 4294967295\nfile:69: attribute 2: unknown key incremnt, nearest is increment\nRefused

# Each item's first fault is told, and behind the faults the keys that nothing reads.
file check
with bare
[[sensor]]\nnumber = 300\n[[sensor]]\nnumbr = 5 => file: board refused, Missing: table sensor, item 0, field type\nfile:20: sensor 0: lacks type: a number from 0 to 255\nfile:22: sensor 1: lacks number: a number from 0 to 254\nfile:23: sensor 1: unknown key numbr, nearest is number\nRefused
[[lan]]\nchannel = 3\nip = [0, 0, 0, 0]\nsource = 0\nmask = [0, 0, 0, 0]\ngatway = [0, 0, 0, 0]\nvlan = [0, 0] => file: board refused, Missing: table lan, item 0, field gateway\nfile:20: lan 0: lacks gateway: a list of 4 bytes\nfile:25: lan 0: unknown key gatway, nearest is gateway\nRefused
[[lan]]\nchannel = 3\nip = [0, 0, 0, 0]\nsource = 0\nmask = [0, 0, 0, 0]\ngateway = [0, 0, 0, 0]\nvlan = [0, 0] => file: board refused, Range: table lan, item 0, field channel\nfile:21: lan 0: channel = 3: the number of a [[channel]] of the file\nRefused
[[state]]\nid = 1\noperational = 2\nstates = [[1, 2]]\ncurrent = [3] => file: board refused, Range: table state, item 0, field current\nfile:24: state 0: current = [3]: a list of 1, each a state of its field's list in states\nRefused
[[numeric]]\nid = 1\nsize = 1\noperational = 2\nlower = 1\nupper = 200\ncurrent = 1 => file: board refused, Range: table numeric, item 0, field upper\nfile:25: numeric 0: upper = 200: a number from -128 to 127, as size says, and not below lower\nRefused
<1025:[[state]]\n> => file: board refused, Range: table top, field state\nfile: more than 1024 tables of a sort, so none is looked at\nRefused
<12:[[state]]\n> => holds 1 \nfile: and 2 more faults\nRefused
"#;

/// Faults of plans.
const PLANS: &str = r#"
file check
retries = "3" => file: plan refused, WrongType: table top, field retries\nfile:1: top: retries = "3": a number from 0 to 15\nRefused
step = 5 => file: plan refused, WrongType: table top, field step\nfile:1: top: step = 5: an array of at most 256 tables\nRefused
+ retries = 3
[[step]]\nkind = "hysteresis"\nsensor = 5\npositive = 300\nnegative = 2 => file: plan refused, Range: table step, item 0, field positive\nfile:5: step 0 (hysteresis): positive = 300: a number from 0 to 255\nRefused
[[step]]\nkind = "hysteresys" => file: plan refused, UnknownKind: table step, item 0, field kind\nfile:3: step 0 (hysteresys): kind = "hysteresys": no kind of step, nearest is hysteresis\nRefused
[[step]]\nkind = "\u001b[31m" => file: plan refused, UnknownKind: table step, item 0, field kind\nfile:3: step 0 (\x1b[31m): kind = "\x1b[31m": no kind of step\nRefused
[[step]]\nkind = 5 => file: plan refused, WrongType: table step, item 0, field kind\nfile:3: step 0: kind = 5: a text\nRefused
[[step]]\nkind = "password" => file: plan refused, OutsidePlan Password: table step, item 0, field kind\nfile:3: step 0 (password): kind = "password": no plan sets passwords, since no Get shows one\nRefused
[[step]]\nkind = "log" => file: plan refused, OutsidePlan Log: table step, item 0, field kind\nfile:3: step 0 (log): kind = "log": no plan changes the log, since nothing brings its records back\nRefused
[[step]]\nkind = "bios-attribute"\nhandle = 1\nvalue = "x" => file: plan refused, Missing: table step, item 0, field indexes\nfile:2: step 0 (bios-attribute): lacks indexes: a list of 1 to 16 bytes, and neither text nor number beside it\nfile:5: step 0 (bios-attribute): unknown key value\nRefused
[[step]]\nkind = "event-enable"\nsensor = 9\nmessages = true\nscanning = true\nselect = "on"\nassert = []\ndeassert = [] => file: plan refused, Range: table step, item 0, field select\nfile:7: step 0 (event-enable): select = "on": "leave", "enable" or "disable"\nRefused
[[step]]\nkind = "event-enable"\nsensor = 9\nmessages = true\nscanning = true\nselect = "enable"\nassert = [3, 12]\ndeassert = [] => file: plan refused, Range: table step, item 0, field assert\nfile:8: step 0 (event-enable): assert[1] = 12: a list of numbers from 0 to 11\nRefused
[[step]]\nkind = "boot-param"\nparam = 5\ninvalid = false\ndata = [0, 0] => file: plan refused, Range: table step, item 0, field data\nfile:6: step 0 (boot-param): data = [0, 0]: a list of 5 bytes, as param says\nRefused
[[step]]\nkind = "lan-param"\nchannel = 1\nparam = 5\ndata = [0] => file: plan refused, Range: table step, item 0, field param\nfile:5: step 0 (lan-param): param = 5: 3, 4, 6, 12 or 20\nRefused
[[step]]\nkind = "state-effecter"\neffecter = 1\nstates = [1, 300] => file: plan refused, Range: table step, item 0, field states\nfile:5: step 0 (state-effecter): states[1] = 300: a list of 1 to 8 numbers from -1 to 255\nRefused
[[step]]\nkind = "user-name"\nuser = 0\nname = "me" => file: plan refused, Range: table step, item 0, field user\nfile:4: step 0 (user-name): user = 0: a number from 1 to 63\nRefused
[[step]]\nkind = "user-access"\nchannel = 1\nuser = 2\nlimit = 6 => file: plan refused, Range: table step, item 0, field limit\nfile:6: step 0 (user-access): limit = 6: a number from 1 to 5, or 15\nRefused
[[step]]\nkind = "channel-access"\nchannel = 1\nstore = "rom"\naccess = 2 => file: plan refused, Range: table step, item 0, field store\nfile:5: step 0 (channel-access): store = "rom": "non-volatile" or "volatile"\nRefused
[[step]]\nkind = "numeric-effecter"\neffecter = 1\nsize = 1\nvalue = 128 => file: plan refused, Range: table step, item 0, field value\nfile:6: step 0 (numeric-effecter): value = 128: a number from -128 to 127, as size says\nRefused
[[step]]\nkind = "global-enables"\nvalue = 0x10 => file: plan refused, Range: table step, item 0, field value\nfile:4: step 0 (global-enables): value = 16: a number from 0 to 255 whose bit 4 is clear\nRefused

# Two steps with faults, and one without.
[[step]]\nkind = "power-policy"\npolicy = 3\n[[step]]\nkind = "power-policy"\npolicy = 2\n[[step]]\nkind = "power-policy"\npolcy = 2 => file: plan refused, Range: table step, item 0, field policy\nfile:4: step 0 (power-policy): policy = 3: a number from 0 to 2\nfile:8: step 2 (power-policy): lacks policy: a number from 0 to 2\nfile:10: step 2 (power-policy): unknown key polcy, nearest is policy\nRefused
"#;

/// Bad lines of schedules, undo texts and journals.
const LINES: &str = r#"
file check
start\nscan 05 => file: schedule refused, line 2\nfile:2: scan 05: scan SENSOR READING, two hexadecimal digits each\nRefused
start\r\n => file: schedule refused, line 1\nfile:1: start\x0d: it ends with a carriage return\nRefused
start \n => file: schedule refused, line 1\nfile:1: start : it ends with a space\nRefused
start\n to-bmc 1\n => file: schedule refused, line 2\nfile:2:  to-bmc 1: it begins with a space\nRefused
scan  05 40 => file: schedule refused, line 1\nfile:1: scan  05 40: two spaces between words, at column 5\nRefused
to-bmc 1234567890 => file: schedule refused, line 1\nfile:1: to-bmc 1234567890: to-bmc and a frame's number, 1 to 9 digits\nRefused
to-bcm 1 => file: schedule refused, line 1\nfile:1: to-bcm 1: no line has the word to-bcm, nearest is to-bmc\nRefused
noise ipmb => file: schedule refused, line 1\nfile:1: noise ipmb: noise BUS HEX: ipmb or smbus, and 1 to 80 bytes, two hexadecimal digits each\nRefused
﻿retries = 9 => file: plan, 0 steps, retries 9\nfile:1: it begins with a byte order mark\nFine
﻿start => file: schedule refused, line 1\nfile:1: \xef\xbb\xbfstart: it begins with a byte order mark\nRefused
begin => file: schedule refused, line 1\nfile:1: begin: no line has the word begin\nRefused
noise ipmb <40:00>0 => file: schedule refused, line 1\nfile:1: noise ipmb <24:00>0..: noise BUS HEX: ipmb or smbus, and 1 to 80 bytes, two hexadecimal digits each\nRefused

undo 1\r\nnext ipmb 4 smbus 0\n => file: undo text refused, line 1\nfile:1: undo 1\x0d: it ends with a carriage return\nRefused
undo 3\n => file: undo text refused, line 1\nfile:1: undo 3: undo 1 or undo 2 alone\nRefused
undo 1\nnext ipmb 64 smbus 0\n => file: undo text refused, line 2\nfile:2: next ipmb 64 smbus 0: next ipmb N smbus N: numbers below 64 and below 32, without leading zeros\nRefused
undo 1\nnext ipmb 4 smbus 0\nipmb 1026 => file: undo text refused, line 3\nfile:3: ipmb 1026: no line feed ends it\nRefused
undo 1\nnext ipmb 4 smbus 0\nipmb 1\n => file: undo text refused, line 3\nfile:3: ipmb 1: ipmb and a request: netFn with unit 0, command and at most 25 bytes, two hexadecimal digits each\nRefused
undo 1\nnext ipmb 4 smbus 0\n\n => file: undo text refused, line 3\nfile:3: nothing stands here: no line is blank\nRefused
undo 1\nnext ipmb 4 smbus 0\nimpb 1026\n => file: undo text refused, line 3\nfile:3: impb 1026: no line has the word impb, nearest is ipmb\nRefused
undo 1\nnext ipmb 4 smbus 0\n<257:ipmb 10260530000000005A6E\n> => file: undo text refused, line 259\nfile:259: ipmb 10260530000000005A6E: at most 256 requests\nRefused

journal 2\n => file: journal refused, line 1\nfile:1: journal 2: journal 1 alone, where the lines above call for it\nRefused
journal 1\n => file: journal refused, line 2\nfile:2: nothing stands here: the text ends in front of its last line\nRefused
journal 1\nretries 256\n => file: journal refused, line 2\nfile:2: retries 256: retries and a number from 0 to 255, where the lines above call for it\nRefused
journal 1\nretreis 3\n => file: journal refused, line 2\nfile:2: retreis 3: no line has the word retreis, nearest is retries\nRefused
journal 1\nretries 3 => file: journal refused, line 2\nfile:2: retries 3: no line feed ends it\nRefused
journal 1\nretries 3\nnames  2C\n => file: journal refused, line 3\nfile:3: names  2C: two spaces between words, at column 6\nRefused
"#;

#[test]
fn faults_of_boards_are_told(rt: HostRuntime) {
    expect_told(&rt, rt.alloc(), BOARDS);
}

#[test]
fn faults_of_items_are_told(rt: HostRuntime) {
    expect_told(&rt, rt.alloc(), ITEMS);
}

#[test]
fn faults_of_plans_are_told(rt: HostRuntime) {
    expect_told(&rt, rt.alloc(), PLANS);
}

#[test]
fn bad_lines_are_told(rt: HostRuntime) {
    expect_told(&rt, rt.alloc(), LINES);
}
