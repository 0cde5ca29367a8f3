//! The sample board as a file, of which stories of several crates are told.

/// The sample board: its own fields, and its tables.
pub const SAMPLE: &str = r#"tid = 5
clock = 0
log = 2
enables = 0x08
policy = 1
users = ["", "admin"]
watchdog = [0, 0, 0, 0]
boot3 = 0
boot4 = 0
boot5 = [0, 0, 0, 0, 0]
sdr = ["010051C00100"]
[device]
id = 0x20
revision = 1
major = 1
minor = 0x05
support = 0x07
manufacturer = 0xABCD
product = 0x1234
[[sensor]]
number = 5
type = 1
readable = 0x3F
settable = 0x3F
thresholds = [0x14, 0x0A, 0x05, 0x50, 0x5F, 0x6E]
hysteresis = [2, 2]
supported = 0xFFF
flags = 0xC0
assert = 0x200
deassert = 0
[[sensor]]
number = 7
type = 4
readable = 0x18
settable = 0x38
thresholds = [0, 0, 0, 0x90, 0xA0, 0xB0]
hysteresis = [0, 0]
supported = 0xFC0
flags = 0
assert = 0
deassert = 0
[[channel]]
number = 1
sessions = true
access = [2, 2]
limit = [4, 4]
users = [0x14, 0x14]
[[attribute]]
name = "Quiet"
kind = "enumeration"
values = ["off", "on"]
default = [0]
current = [0]
readonly = false
[[attribute]]
name = "Asset"
kind = "string"
string_type = 1
least = 0
most = 200
default = ""
current = "rack-1"
readonly = false
[[attribute]]
name = "Delay"
kind = "integer"
lower = 0
upper = 300
increment = 10
default = 30
current = 30
readonly = false
"#;
