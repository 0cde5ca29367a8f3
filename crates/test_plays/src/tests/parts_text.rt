//! Texts that stories of several themes use.

/// They stand before each theme.
pub const SHARED: &str = "# Effecter 4: u16 from 0 to 1000, and 500 at first.
part effecter: [[numeric]] / id = 4 / size = 2 / operational = 1 / lower = 0 / upper = 1000 / current = 500

# Effecter 6, which is disabled.
part disabled: [[numeric]] / id = 6 / size = 0 / operational = 2 / lower = 0 / upper = 9 / current = 9

# Effecters of u16 from 0 to 1000, of s8 from -2 to 1, of u32, which is disabled, and of s32 from -70,000 to -1. Effecter 9 has two fields of states.
part effecters
  [[state]] / id = 9 / operational = 1 / states = [[1, 2], [1, 2, 3]] / current = [1, 1]
  [[numeric]] / id = 4 / size = 2 / operational = 1 / lower = 0 / upper = 1000 / current = 500
  [[numeric]] / id = 5 / size = 1 / operational = 1 / lower = -2 / upper = 1 / current = 0
  [[numeric]] / id = 6 / size = 4 / operational = 2 / lower = 0 / upper = 9 / current = 9
  [[numeric]] / id = 261 / size = 5 / operational = 1 / lower = -70000 / upper = -1 / current = -1

# The LAN parameters of channel 1.
part lan
  [[lan]] / channel = 1 / ip = [192, 0, 2, 1] / source = 1 / mask = [255, 255, 255, 0] / gateway = [192, 0, 2, 254] / vlan = [0, 0]

# Sensor 5 reports when its upper non-critical threshold (offset 7) and its upper critical one (offset 9) are going high. The sample
# board has 9 enabled.
part events
  [[step]]
  kind = \"event-enable\"
  sensor = 5
  messages = true
  scanning = true
  select = \"enable\"
  assert = [7, 9]
  deassert = []

# The own fields of a board without users, and the sample board's device.
part fields
  tid = 5 / clock = 0 / log = 2 / enables = 0x08 / policy = 1 / users = [\"\"] / watchdog = [0, 0, 0, 0] / sdr = []
  boot3 = 0 / boot4 = 0 / boot5 = [0, 0, 0, 0, 0]
part device-20h
  [device] / id = 0x20 / revision = 1 / major = 1 / minor = 0x05 / support = 0x07 / manufacturer = 0xABCD / product = 0x1234
";
