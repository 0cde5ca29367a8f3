//! Board files that stories begin with.

/// A board without sensors, channels, attributes and effecters.
pub const BARE: &str = r#"tid = 5
clock = 0
log = 2
enables = 0x08
policy = 1
users = [""]
watchdog = [0, 0, 0, 0]
boot3 = 0
boot4 = 0
boot5 = [0, 0, 0, 0, 0]
sdr = []
[device]
id = 0x20
revision = 1
major = 1
minor = 0x05
support = 0x07
manufacturer = 0xABCD
product = 0x1234
"#;
