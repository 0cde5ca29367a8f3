//! Board files: the fields of a board, of its device and of its sensors.
use super::expect_told;

/// What boards say of themselves, of their devices and of sensors.
const BOARDS: &str = r#"
# The sample board. Each field left out, of another type, just beyond its range and just inside, and more. The line of `deassert` is each
# sensor's.
file board
with sample

at tid = 5
=> Missing top tid
tid = true => WrongType top tid
tid = -1 | tid = 256 => Range top tid
tid = 0 | tid = 255 => reads
at clock = 0
=> Missing top clock
clock = 0.5 => WrongType top clock
clock = -1 | clock = 0x100000000 => Range top clock
clock = 1 | clock = 0xFFFFFFFF => reads
at log = 2
=> Missing top log
log = [2] => WrongType top log
log = 0 | log = 1025 => Range top log
log = 1 | log = 1024 => reads
at enables = 0x08
=> Missing top enables
enables = true => WrongType top enables
enables = 0x10 | enables = 0x100 => Range top enables
enables = 0 | enables = 0xEF => reads
at policy = 1
=> Missing top policy
policy = "1" => WrongType top policy
policy = -1 | policy = 4 => Range top policy
policy = 0 | policy = 3 => reads
at users = ["", "admin"]
=> Missing top users
users = ["", 1] | users = "" => WrongType top users
users = ["admin"] | users = ["", "seventeen letters"] | users = [] | users = ["a", ""] => Range top users
users = ["", ""] | users = ["", "sixteen letters!"] | users = ["", "éééééééé"] | users = ["", "a"] => reads
at watchdog = [0, 0, 0, 0]
=> Missing top watchdog
watchdog = [0, 0, 0, false] => WrongType top watchdog
watchdog = [0x86, 0, 0, 0] | watchdog = [0, 0x44, 0, 65536] => Range top watchdog
watchdog = [0x85, 0x33, 255, 65535] | watchdog = [0, 0, 0, 1] => reads
at sdr = ["010051C00100"]
=> Missing top sdr
sdr = ["010051C00100", 1] => WrongType top sdr
sdr = ["010051C00200"] | sdr = ["FFFF51C000"] => Range top sdr
sdr = [] | sdr = ["feFF51c000", "010051C00100"] => reads
at boot3 = 0
=> Missing top boot3
boot3 = [0] => WrongType top boot3
boot3 = -1 | boot3 = 32 => Range top boot3
boot3 = 1 | boot3 = 31 => reads
at boot4 = 0
=> Missing top boot4
boot4 = [0] => WrongType top boot4
boot4 = -1 | boot4 = 256 => Range top boot4
boot4 = 1 | boot4 = 255 => reads
at boot5 = [0, 0, 0, 0, 0]
=> Missing top boot5
boot5 = 0 => WrongType top boot5
boot5 = [0, 0, 0, 0] | boot5 = [0, 0, 0, 0, 256] => Range top boot5
boot5 = [255, 0, 0, 0, 0] | boot5 = [0, 0, 0, 0, 255] => reads
at id = 0x20
=> Missing device id
id = 1.0 => WrongType device id
id = -1 | id = 256 => Range device id
id = 0 | id = 255 => reads
at revision = 1
=> Missing device revision
revision = [1] => WrongType device revision
revision = -1 | revision = 256 => Range device revision
revision = 0 | revision = 255 => reads
at major = 1
=> Missing device major
major = true => WrongType device major
major = -1 | major = 256 => Range device major
major = 0 | major = 255 => reads
at minor = 0x05
=> Missing device minor
minor = "5" => WrongType device minor
minor = 0x0A | minor = 0xA0 => Range device minor
minor = 0 | minor = 0x99 => reads
at support = 0x07
=> Missing device support
support = true => WrongType device support
support = -1 | support = 256 => Range device support
support = 0 | support = 255 => reads
at manufacturer = 0xABCD
=> Missing device manufacturer
manufacturer = true => WrongType device manufacturer
manufacturer = -1 | manufacturer = 0x1000000 => Range device manufacturer
manufacturer = 0 | manufacturer = 0xFFFFFF => reads
at product = 0x1234
=> Missing device product
product = true => WrongType device product
product = -1 | product = 0x10000 => Range device product
product = 0 | product = 0xFFFF => reads
at number = 7
=> Missing sensor 1 number
number = true => WrongType sensor 1 number
number = -1 | number = 255 => Range sensor 1 number
number = 0 | number = 254 => reads
at type = 4
=> Missing sensor 1 type
type = true => WrongType sensor 1 type
type = -1 | type = 256 => Range sensor 1 type
type = 0 | type = 255 => reads
at readable = 0x18
=> Missing sensor 1 readable
readable = true => WrongType sensor 1 readable
readable = -1 | readable = 64 => Range sensor 1 readable
readable = 0 | readable = 63 => reads
at settable = 0x38
=> Missing sensor 1 settable
settable = true => WrongType sensor 1 settable
settable = -1 | settable = 64 => Range sensor 1 settable
settable = 0x38 | settable = 63 => reads
at thresholds = [0, 0, 0, 0x90, 0xA0, 0xB0]
=> Missing sensor 1 thresholds
thresholds = [0, 0, 0, 0x90, 0xA0, true] => WrongType sensor 1 thresholds
thresholds = [0, 0, 0, 9, 9] | thresholds = [0, 0, 0, 9, 9, 8] => Range sensor 1 thresholds
thresholds = [0, 0, 0, 9, 9, 9] | thresholds = [0, 0, 0, 0, 255, 255] => reads
at hysteresis = [0, 0]
=> Missing sensor 1 hysteresis
hysteresis = 0 => WrongType sensor 1 hysteresis
hysteresis = [0] | hysteresis = [0, 256] => Range sensor 1 hysteresis
hysteresis = [0, 255] | hysteresis = [255, 0] => reads
at supported = 0xFC0
=> Missing sensor 1 supported
supported = [0xFC0] => WrongType sensor 1 supported
supported = -1 | supported = 4096 => Range sensor 1 supported
supported = 0 | supported = 4095 => reads
at flags = 0
=> Missing sensor 1 flags
flags = true => WrongType sensor 1 flags
flags = 0x20 | flags = 0x100 => Range sensor 1 flags
flags = 0x40 | flags = 0xC0 => reads
at assert = 0
=> Missing sensor 1 assert
assert = [6] => WrongType sensor 1 assert
assert = -1 | assert = 0x20 => Range sensor 1 assert
assert = 0x40 | assert = 0xFC0 => reads
at deassert = 0
=> Missing sensor 0 deassert
deassert = "0" => WrongType sensor 0 deassert
deassert = -1 | deassert = 0x1000 => Range sensor 0 deassert
deassert = 0x40 | deassert = 0xFC0 => reads

# The first fault counts.
at number = 7
number = 5 => Twice sensor 1 number
at sdr = ["010051C00100"]
sdr = ["010051C000", "020051C000", "010051C0020102"] => Twice top sdr
sdr = ["010051C0010"] | sdr = ["000051C000"] => Range top sdr
at [device]
=> Missing top device
[other] => Missing top device
device = 1 => WrongType top device
at tid = 5
tid = | tid = 5\ntid = 5 | tid = 99999999999999999999 => Text
at policy = 1
sensor = 1 => Text
at settable = 0x3F
settable = 64\nnumber = 255 => Text
at hysteresis = [2, 2]
hysteresis = [2, -2] => Range sensor 0 hysteresis
at readable = 0x18
readable = 64\nadded = true => Range sensor 1 readable
at supported = 0xFFF
supported = 0x1FF => Range sensor 0 assert
supported = 4096 => Range sensor 0 supported
at assert = 0x200
assert = 0x10200 => Range sensor 0 assert
at deassert = 0
deassert = 0x20 => Range sensor 1 deassert

# Bit 7 of the flags says whether the sensor makes event messages, and bit 6 whether readings of it are taken. The first sensor does both.
at flags = 0
flags = 0 => holds 1 messages: false, scanning: false
flags = 0x40 => holds 1 messages: false, scanning: true
flags = 0x80 => holds 1 messages: true, scanning: false
flags = 0xC0 => holds 2 messages: true, scanning: true

# The hysteresis for rising thresholds comes first, and that for falling ones second.
at hysteresis = [2, 2]
hysteresis = [3, 1] => holds 1 Hysteresis { positive: 3, negative: 1 }

# Of the prefixes those are read whose last table has each field that it needs: with the device's last number cut to 0, 0x1, 0x12, 0x123 or
# whole, and with the channel, with the last line feed and without.
file board
with bare
until users = [""] -> users = ["", "admin"] => reads
until sdr = [] -> sdr = ["010051C00100"] => reads
+ [[channel]]
+ number = 15
+ sessions = false
ends reads => 268 270 271 272 273 274 314 315

# How many sensors a board has at most.
file board
with bare
=> holds 0 Sensor {
<32:[[sensor]]\nnumber = #\ntype = 1\nreadable = 0\nsettable = 0\nthresholds = [0, 0, 0, 0, 0, 0]\nhysteresis = [0, 0]\nsupported = 0\nflags = 0\nassert = 0\ndeassert = 0\n> => holds 32 Sensor {
<33:[[sensor]]\nnumber = #\ntype = 1\nreadable = 0\nsettable = 0\nthresholds = [0, 0, 0, 0, 0, 0]\nhysteresis = [0, 0]\nsupported = 0\nflags = 0\nassert = 0\ndeassert = 0\n> => Range top sensor
"#;

#[test]
fn boards_are_read(rt: HostRuntime) {
    expect_told(&rt, rt.alloc(), BOARDS);
}
