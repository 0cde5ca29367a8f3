//! The texts of the files that runs read.

/// A board with two sensors.
pub(crate) const BOARD: &str = "tid = 5
clock = 0
log = 2
enables = 0x08
policy = 1
users = [\"\"]
watchdog = [0, 0, 0, 0]
sdr = []
boot3 = 0
boot4 = 0
boot5 = [0, 0, 0, 0, 0]

[device]
id = 0x20
revision = 1
major = 1
minor = 0x05
support = 0x07
manufacturer = 0xABCD
product = 0x1234

[[sensor]]
number = 5
type = 1
readable = 0x3F
settable = 0x3F
thresholds = [0x14, 0x0A, 0x05, 0x50, 0x5F, 0x6E]
hysteresis = [2, 2]
supported = 0xFFF
flags = 0xC0
assert = 0x200
deassert = 0

[[sensor]]
number = 7
type = 4
readable = 0x18
settable = 0x38
thresholds = [0, 0, 0, 0x90, 0xA0, 0xB0]
hysteresis = [0, 0]
supported = 0xFC0
flags = 0
assert = 0
deassert = 0
";

/// A plan that adds two events to those that sensor 5 tells, of which it tells one already.
pub(crate) const PLAN: &str = "[[step]]
kind = \"event-enable\"
sensor = 5
messages = true
scanning = true
select = \"enable\"
assert = [7, 9]
deassert = []
";

/// A plan of two steps, whose requests are sent again once.
pub(crate) const TWO_STEPS: &str = "retries = 1

[[step]]
kind = \"power-policy\"
policy = 2

[[step]]
kind = \"hysteresis\"
sensor = 5
positive = 1
negative = 1
";

/// A plan that halts before its Set: what sensor 7's upper non-recoverable threshold was can't be read.
pub(crate) const UNREADABLE: &str = "[[step]]
kind = \"thresholds\"
sensor = 7
unr = 0xF0
";

/// What undoes the first plan, once it was run.
pub(crate) const UNDO: &str = "undo 1
next ipmb 2 smbus 0
ipmb 102805E080000000
";

/// The same of a manager with the identifier 09h.
pub(crate) const OTHERS: &str = "undo 2
next ipmb 2 smbus 0
names ipmb 2C 20 smbus 30 20 eid 09 0A
ipmb 102805E080000000
";
