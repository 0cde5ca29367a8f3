//! Numeric effecters: of board files, and of the steps of plans.
use super::expect_told;

/// What boards and plans say of numeric effecters.
const NUMERIC: &str = r#"
file board
with bare
# Two numeric effecters. No line stands in them twice but `[[numeric]]`, nor in the board above.
+ [[numeric]]
+ id = 4
+ size = 2
+ operational = 1
+ lower = 0
+ upper = 1000
+ current = 500
+ [[numeric]]
+ id = 5
+ size = 1
+ operational = 2
+ lower = -2
+ upper = 1
+ current = -1

# -2 to 1, and -1, are shown by their bits, in two's complement.
=> holds 1 numeric_effecters: Distinct { items: Items { items: [NumericEffecter { id: 4, enabled: true, range: NumericRange { size: U16, lower: 0, upper: 1000 }, current: 500 }, NumericEffecter { id: 5, enabled: false, range: NumericRange { size: S8, lower: 254, upper: 1 }, current: 255 }] } }

# Each field left out, of another type, just beyond its range and just inside, and more.
at id = 4
=> Missing numeric 0 id
id = 4.0 => WrongType numeric 0 id
id = -1 | id = 0x10000 => Range numeric 0 id
id = 0 | id = 0xFFFF => reads
at size = 2
=> Missing numeric 0 size
size = true => WrongType numeric 0 size
size = -1 | size = 6 => Range numeric 0 size
size = 3 | size = 5 => reads
at operational = 1
=> Missing numeric 0 operational
operational = [1] => WrongType numeric 0 operational
operational = 0 | operational = 3 => Range numeric 0 operational
operational = 2 | operational = 0x01 => reads
at lower = 0
=> Missing numeric 0 lower
lower = false => WrongType numeric 0 lower
lower = -1 | lower = 0x10000 => Range numeric 0 lower
lower = 1 | lower = 500 => reads
at upper = 1000
=> Missing numeric 0 upper
upper = "" => WrongType numeric 0 upper
upper = -1 | upper = 0x10000 => Range numeric 0 upper
upper = 500 | upper = 0xFFFF => reads
at current = 500
=> Missing numeric 0 current
current = [500] => WrongType numeric 0 current
current = -1 | current = 1001 => Range numeric 0 current
current = 0 | current = 1000 => reads
at size = 1
=> Missing numeric 1 size
size = "1" => WrongType numeric 1 size
size = 7 | size = 256 => Range numeric 1 size
size = 3 | size = 5 => reads
at operational = 2
=> Missing numeric 1 operational
operational = true => WrongType numeric 1 operational
operational = -1 | operational = 4 => Range numeric 1 operational
operational = 1 | operational = 0x02 => reads
at lower = -2
=> Missing numeric 1 lower
lower = -2.0 => WrongType numeric 1 lower
lower = -129 | lower = 128 => Range numeric 1 lower
lower = -128 | lower = -1 => reads
at upper = 1
=> Missing numeric 1 upper
upper = {} => WrongType numeric 1 upper
upper = -3 | upper = 128 => Range numeric 1 upper
upper = -1 | upper = 127 => reads
at current = -1
=> Missing numeric 1 current
current = true => WrongType numeric 1 current
current = -3 | current = 2 => Range numeric 1 current
current = -2 | current = 1 => reads

# The first fault counts.
at id = 5
id = 4 => Twice numeric 1 id
# A lower bound above the upper one is the upper one's fault.
at lower = 0
lower = 1001 => Range numeric 0 upper
lower = 501 => Range numeric 0 current
at upper = 1000
upper = 499 => Range numeric 0 current
# No number is of a size that isn't there, and -2 is of no size without a sign.
at size = 2
size = 6\nadded = 1 => Range numeric 0 size
at size = 1
size = 0 | size = 4 => Range numeric 1 lower
# All that are missing come before those of another type, and these before those out of their ranges.
at id = 4
id = 65536\n[[numeric]] => Missing numeric 0 size
at size = 2
size = true => WrongType numeric 0 size
at lower = -2
[[numeric]]\nlower = 0 => Missing numeric 1 lower
# An item's own fault comes before its id, and the id before the next item.
at current = -1
current = -1\n[[numeric]]\nid = 4 => Missing numeric 2 size
at id = 5
id = 4\n[[numeric]] => Missing numeric 1 size

# Numeric effecters beside other items, how many there are, and the numbers of each size.
file board
with bare

# Numeric effecters come behind all else.
at tid = 5
tid = 5 | numeric = []\ntid = 5 => reads
numeric = 1\ntid = 5 | numeric = [{}, 1]\ntid = 5 => WrongType top numeric
numeric = 1\npolicy = 4\ntid = 5 => Text
numeric = [{}]\ntid = 5 => Missing numeric 0 id
numeric = [{}]\nsensor = [{number = 1}]\ntid = 5 => Missing sensor 0 type
numeric = 1\nsensor = [{number = 1}]\ntid = 5 => WrongType top numeric
sensor = 1\nnumeric = 1\ntid = 5 => WrongType top sensor

# A board has at most 32 of them.
behind
<32:[[numeric]]\nid = #\nsize = 0\noperational = 1\nlower = 0\nupper = 0\ncurrent = 0\n> => holds 32 NumericEffecter {
<33:[[numeric]]\nid = #\nsize = 0\noperational = 1\nlower = 0\nupper = 0\ncurrent = 0\n> => Range top numeric

# The least and the greatest number of each size, shown by their bits: a number below 0 in two's complement.
behind [[numeric]]\nid = 0\noperational = 1\n
size = 0\nlower = 0\nupper = 255\ncurrent = 255 => holds 1 { id: 0, enabled: true, range: NumericRange { size: U8, lower: 0, upper: 255 }, current: 255 }
size = 1\nlower = -128\nupper = 127\ncurrent = 127 => holds 1 { id: 0, enabled: true, range: NumericRange { size: S8, lower: 128, upper: 127 }, current: 127 }
size = 2\nlower = 0\nupper = 65535\ncurrent = 65535 => holds 1 { id: 0, enabled: true, range: NumericRange { size: U16, lower: 0, upper: 65535 }, current: 65535 }
size = 3\nlower = -32768\nupper = 32767\ncurrent = 32767 => holds 1 { id: 0, enabled: true, range: NumericRange { size: S16, lower: 32768, upper: 32767 }, current: 32767 }
size = 4\nlower = 0\nupper = 4294967295\ncurrent = 4294967295 => holds 1 { id: 0, enabled: true, range: NumericRange { size: U32, lower: 0, upper: 4294967295 }, current: 4294967295 }
size = 5\nlower = -2147483648\nupper = 2147483647\ncurrent = 2147483647 => holds 1 { id: 0, enabled: true, range: NumericRange { size: S32, lower: 2147483648, upper: 2147483647 }, current: 2147483647 }

# The numbers just below the least and just above the greatest.
size = 0\nlower = -1\nupper = 0\ncurrent = 0 => Range numeric 0 lower
size = 0\nlower = 0\nupper = 256\ncurrent = 256 => Range numeric 0 upper
size = 1\nlower = -129\nupper = 0\ncurrent = 0 => Range numeric 0 lower
size = 1\nlower = 0\nupper = 128\ncurrent = 128 => Range numeric 0 upper
size = 2\nlower = -1\nupper = 0\ncurrent = 0 => Range numeric 0 lower
size = 2\nlower = 0\nupper = 65536\ncurrent = 65536 => Range numeric 0 upper
size = 3\nlower = -32769\nupper = 0\ncurrent = 0 => Range numeric 0 lower
size = 3\nlower = 0\nupper = 32768\ncurrent = 32768 => Range numeric 0 upper
size = 4\nlower = -1\nupper = 0\ncurrent = 0 => Range numeric 0 lower
size = 4\nlower = 0\nupper = 4294967296\ncurrent = 4294967296 => Range numeric 0 upper
size = 5\nlower = -2147483649\nupper = 0\ncurrent = 0 => Range numeric 0 lower
size = 5\nlower = 0\nupper = 2147483648\ncurrent = 2147483648 => Range numeric 0 upper

# Steps on the value of an effecter.
file plan

behind [[step]]\nkind = "numeric-effecter"\neffecter = 261\n
size = 0\nvalue = 256 | size = 0\nvalue = -1 | size = 1\nvalue = 128 | size = 1\nvalue = -129 | size = 2\nvalue = 65536 => 0 Range value
size = 3\nvalue = -32769 | size = 4\nvalue = 4294967296 | size = 5\nvalue = 2147483648 | size = 5\nvalue = -2147483649 => 0 Range value
size = 5\nvalue = -9223372036854775808 | size = 4\nvalue = 9223372036854775807 => 0 Range value
size = 6\nvalue = 256 => 0 Range size
size = 6\nvalue = true => 0 WrongType value
size = true\nvalue = 1 => 0 WrongType size
size = 0 => 0 Missing value
value = 0 => 0 Missing size

# What is sent has, behind the effecter and the size, the number's bytes, the low one first.
size = 0\nvalue = 255 => 3: smbus 0231050100FF
size = 1\nvalue = -128 => 3: smbus 023105010180
size = 1\nvalue = 127 => 3: smbus 02310501017F
size = 2\nvalue = 1000 => 3: smbus 0231050102E803
size = 3\nvalue = -2 => 3: smbus 0231050103FEFF
size = 4\nvalue = 0x12345678 => 3: smbus 023105010478563412
size = 5\nvalue = -70000 => 3: smbus 023105010590EEFEFF
size = 5\nvalue = -1 => 3: smbus 0231050105<4:FF>
"#;

#[test]
fn numeric_effecters_are_read(rt: HostRuntime) {
    expect_told(&rt, rt.alloc(), NUMERIC);
}
