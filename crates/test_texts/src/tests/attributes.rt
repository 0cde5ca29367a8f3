//! BIOS attributes: of board files, and of the steps of plans.
use super::expect_told;

/// What boards and plans say of attributes.
const ATTRIBUTES: &str = r#"
file board
with bare
# An attribute of each kind. No line stands in them twice but `[[attribute]]`, nor in the board above.
+ [[attribute]]
+ name = "Boot"
+ kind = "enumeration"
+ values = ["disk", "net"]
+ default = [0]
+ current = [1]
+ readonly = false
+ [[attribute]]
+ name = "Owner"
+ kind = "string"
+ string_type = 1
+ least = 2
+ most = 8
+ default = "abcd"
+ current = "rack-2"
+ readonly = true
+ [[attribute]]
+ name = "Wait"
+ kind = "integer"
+ lower = 20
+ upper = 300
+ increment = 10
+ default = 30
+ current = 40
+ readonly = false # each time

# Names and texts are shown by their bytes: `Boot`, `disk` and `net`, `Owner`, `abcd` and `rack-2`, `Wait`.
=> holds 1 attributes: Attributes { items: Items { items: [Attribute { handle: 0, name: Bytes { items: [66, 111, 111, 116] }, read_only: false, kind: Enumeration(EnumerationAttribute { values: Items { items: [Bytes { items: [100, 105, 115, 107] }, Bytes { items: [110, 101, 116] }] }, default: Bytes { items: [0] }, current: Bytes { items: [1] } }) }, Attribute { handle: 1,
=> holds 1 }, Attribute { handle: 1, name: Bytes { items: [79, 119, 110, 101, 114] }, read_only: true, kind: Text(StringAttribute { string_type: 1, lengths: TextLengths { least: 2, most: 8 }, default: Items { items: [97, 98, 99, 100] }, current: Items { items: [114, 97, 99, 107, 45, 50] } }) }, Attribute { handle: 2,
=> holds 1 }, Attribute { handle: 2, name: Bytes { items: [87, 97, 105, 116] }, read_only: false, kind: Integer(IntegerAttribute { steps: IntegerSteps { lower: 20, upper: 300, increment: 10 }, default: 30, current: 40 }) }] } }

# Each field left out, of another type, just beyond its range and just inside, and more.
at values = ["disk", "net"]
=> Missing attribute 0 values
values = ["disk", 1] => WrongType attribute 0 values
values = ["", "", "", "", "", "", "", "", "", "", "", "", "", "", "", "", ""] => Range attribute 0 values
values = ["a", "a", "a", "a", "a", "a", "a", "a", "a", "a", "a", "a", "a", "a", "a", "a", "a"] => Range attribute 0 values
values = ["", "", "", "", "", "", "", "", "", "", "", "", "", "", "", ""] | values = ["net", "net"] => reads
at default = [0]
=> Missing attribute 0 default
default = 0 | default = [true] => WrongType attribute 0 default
default = [] | default = [2] | default = [-1] | default = [0, 1, 0] => Range attribute 0 default
default = [1] | default = [0, 1] | default = [1, 0] | default = [1, 1] => reads
at current = [1]
=> Missing attribute 0 current
current = [[1]] => WrongType attribute 0 current
current = [1, 2] | current = [256] => Range attribute 0 current
current = [0] | current = [1, 0] => reads
at string_type = 1
=> Missing attribute 1 string_type
string_type = "1" => WrongType attribute 1 string_type
string_type = -1 | string_type = 256 => Range attribute 1 string_type
string_type = 0 | string_type = 255 => reads
at least = 2
=> Missing attribute 1 least
least = 2.0 => WrongType attribute 1 least
least = -1 | least = 1025 => Range attribute 1 least
least = 0 | least = 4 => reads
at most = 8
=> Missing attribute 1 most
most = "8" => WrongType attribute 1 most
most = 1025 | most = 1 => Range attribute 1 most
most = 1024 | most = 6 => reads
at default = "abcd"
=> Missing attribute 1 default
default = 4 => WrongType attribute 1 default
default = "a" | default = "nine char" => Range attribute 1 default
default = "ab" | default = "eight ch" => reads
at current = "rack-2"
=> Missing attribute 1 current
current = ["rack-2"] => WrongType attribute 1 current
current = "" | current = "ééééé" => Range attribute 1 current
current = "é" | current = "éééé" => reads
at lower = 20
=> Missing attribute 2 lower
lower = true => WrongType attribute 2 lower
lower = -1 | lower = -9223372036854775808 => Range attribute 2 lower
lower = 0 | lower = 30 => reads
at upper = 300
=> Missing attribute 2 upper
upper = 300.0 => WrongType attribute 2 upper
upper = 19 | upper = -1 => Range attribute 2 upper
upper = 40 | upper = 9223372036854775807 => reads
at increment = 10
=> Missing attribute 2 increment
increment = [10] => WrongType attribute 2 increment
increment = -1 | increment = 4294967296 => Range attribute 2 increment
increment = 0 | increment = 5 => reads
at default = 30
=> Missing attribute 2 default
default = "30" => WrongType attribute 2 default
default = 35 | default = 10 => Range attribute 2 default
default = 20 | default = 300 => reads
at current = 40
=> Missing attribute 2 current
current = true => WrongType attribute 2 current
current = 310 | current = 41 => Range attribute 2 current
current = 20 | current = 300 => reads

# An attribute has the fields of its kind.
at kind = "enumeration"
=> Missing attribute 0 kind
kind = 0 => WrongType attribute 0 kind
kind = "" | kind = "Enumeration" | kind = "password" => Range attribute 0 kind
kind = 'enumeration' => reads
kind = "string" => Missing attribute 0 string_type
kind = "integer" => Missing attribute 0 lower
at kind = "string"
kind = "enumeration" => Missing attribute 1 values
at kind = "integer"
kind = "string" => Missing attribute 2 string_type
at readonly = true
=> Missing attribute 1 readonly
readonly = 1 => WrongType attribute 1 readonly
readonly = false | readonly = true\nvalues = 1\nlower = -1 => reads
at name = "Owner"
=> Missing attribute 1 name
name = 1 => WrongType attribute 1 name
name = "" | name = "Boot" => reads

# The first fault counts.
at values = ["disk", "net"]
values = [] => Range attribute 0 values
values = ["disk"] => Range attribute 0 current
# The bound that leaves no value is the fault, and else the value beyond it.
at least = 2
least = 9 => Range attribute 1 most
least = 5 => Range attribute 1 default
at most = 8
most = 5 => Range attribute 1 current
at lower = 20
lower = 301 | lower = 9223372036854775807 => Range attribute 2 upper
lower = 40 | lower = 21 => Range attribute 2 default
at upper = 300
upper = 35 => Range attribute 2 current
at increment = 10
increment = 4294967295 => Range attribute 2 default
increment = 10\nadded = 1 => reads
# All that are missing come before those of another type, and these before those out of their ranges.
at name = "Boot"
[[attribute]] => Missing attribute 0 name
at kind = "enumeration"
kind = 1\n[[attribute]] => Missing attribute 0 readonly
at default = [0]
default = [9]\n[[attribute]] => Missing attribute 0 current
default = [9]\nadded = 1 => Range attribute 0 default
at readonly = false
readonly = 1\n[[attribute]] => WrongType attribute 0 readonly
readonly = false\n[[attribute]] => Missing attribute 1 name

# Two of an enumeration's values can be its present ones.
at current = [1]
current = [1, 0] => holds 1 default: Bytes { items: [0] }, current: Bytes { items: [1, 0] }

# Attributes beside other items, how many there are, and how long their texts are.
file board
with bare

# Attributes come between channels and state effecters.
at tid = 5
tid = 5 | attribute = []\ntid = 5 => reads
attribute = 1\ntid = 5 | attribute = [{}, 1]\ntid = 5 => WrongType top attribute
attribute = [{}]\ntid = 5 => Missing attribute 0 name
attribute = [{}]\nchannel = [{number = 1}]\ntid = 5 => Missing channel 0 sessions
attribute = [{}]\nstate = [{id = 1}]\ntid = 5 => Missing attribute 0 name
channel = 1\nattribute = 1\ntid = 5 => WrongType top channel
state = 1\nattribute = 1\ntid = 5 => WrongType top attribute

# A board has at most 64 of them, and each has its place as its handle.
behind
<64:[[attribute]]\nname = "a"\nkind = "integer"\nlower = #\nupper = #\nincrement = 0\ndefault = #\ncurrent = #\nreadonly = false\n> => holds 64 Attribute { handle:
<64:[[attribute]]\nname = "a"\nkind = "integer"\nlower = #\nupper = #\nincrement = 0\ndefault = #\ncurrent = #\nreadonly = false\n> => holds 1 [<63:Attribute { handle: #, name: Bytes { items: [97] }, read_only: false, kind: Integer(IntegerAttribute { steps: IntegerSteps { lower: #, upper: #, increment: 0 }, default: #, current: # }) }, >Attribute { handle: 63, name: Bytes { items: [97] }, read_only: false, kind: Integer(IntegerAttribute { steps: IntegerSteps { lower: 63, upper: 63, increment: 0 }, default: 63, current: 63 }) }]
<65:[[attribute]]\nname = "a"\nkind = "integer"\nlower = #\nupper = #\nincrement = 0\ndefault = #\ncurrent = #\nreadonly = false\n> => Range top attribute

# Names and possible values have at most 200 bytes, and the texts of a string 1,024.
behind [[attribute]]\nreadonly = false\n
name = "<200:n>"\nkind = "enumeration"\nvalues = ["a"]\ndefault = [0]\ncurrent = [0] => reads
name = "<201:n>"\nkind = "enumeration"\nvalues = ["a"]\ndefault = [0]\ncurrent = [0] => Range attribute 0 name
name = "a"\nkind = "enumeration"\nvalues = ["", "<200:n>"]\ndefault = [0]\ncurrent = [1] => reads
name = "a"\nkind = "enumeration"\nvalues = ["", "<201:n>"]\ndefault = [0]\ncurrent = [1] => Range attribute 0 values
name = "a"\nkind = "string"\nstring_type = 0\nleast = 0\nmost = 1024\ndefault = "<1024:n>"\ncurrent = "" => reads
name = "a"\nkind = "string"\nstring_type = 0\nleast = 0\nmost = 1024\ndefault = "<1025:n>"\ncurrent = "" => Range attribute 0 default
name = "a"\nkind = "string"\nstring_type = 0\nleast = 0\nmost = 1024\ndefault = ""\ncurrent = "<1024:n>" => reads
name = "a"\nkind = "string"\nstring_type = 0\nleast = 0\nmost = 1024\ndefault = ""\ncurrent = "<1025:n>" => Range attribute 0 current

# An enumeration can be all of its 16 values. The name and both lists of indexes are bytes, as each value is.
behind
[[attribute]]\nname = "Groups"\nkind = "enumeration"\nvalues = ["0", "1", "2", "3", "4", "5", "6", "7", "8", "9", "10", "11", "12", "13", "14", "15"]\ndefault = [15]\ncurrent = [15, 14, 13, 12, 11, 10, 9, 8, 7, 6, 5, 4, 3, 2, 1, 0]\nreadonly = false => holds 19 Bytes {
[[attribute]]\nname = "Groups"\nkind = "enumeration"\nvalues = ["0", "1", "2", "3", "4", "5", "6", "7", "8", "9", "10", "11", "12", "13", "14", "15"]\ndefault = [15]\ncurrent = [15, 14, 13, 12, 11, 10, 9, 8, 7, 6, 5, 4, 3, 2, 1, 0]\nreadonly = false => holds 1 default: Bytes { items: [15] }, current: Bytes { items: [15, 14, 13, 12, 11, 10, 9, 8, 7, 6, 5, 4, 3, 2, 1, 0] }

# A step for each form of a value. No line stands in it twice but `[[step]]` and the kind's.
file plan
+ [[step]]
+ kind = "bios-attribute"
+ handle = 7
+ indexes = [3]
+ [[step]]
+ kind = "bios-attribute"
+ handle = 8
+ text = "rack-1"
+ [[step]]
+ kind = "bios-attribute"
+ handle = 9
+ number = 30

=> 3: smbus 0307<4:00>050700000103\nsmbus 0307<4:00>0508000106007261636B2D31\nsmbus 0307<4:00>050900031E<7:00>

# Each field left out, of another type, just beyond its range and just inside. A step that gives no value lacks the indexes.
at handle = 7
=> 0 Missing handle
handle = "7" => 0 WrongType handle
handle = -1 | handle = 65536 => 0 Range handle
handle = 0 | handle = 65535 => reads
at indexes = [3]
=> 0 Missing indexes
indexes = 3 | indexes = [3, true] | indexes = [[3]] => 0 WrongType indexes
indexes = [] | indexes = [256] | indexes = [3, -1] | indexes = [256, 3] | indexes = [-1] => 0 Range indexes
indexes = [9223372036854775807] => 0 Range indexes
indexes = [0] | indexes = [255] | indexes = [255, 0] | indexes = [3, 3] | indexes = [0x10] | indexes = [0, 255] => reads
at handle = 8
=> 1 Missing handle
handle = 8.0 => 1 WrongType handle
handle = -2 | handle = 0x10000 => 1 Range handle
handle = 1 | handle = 0xFFFF => reads
at number = 30
=> 2 Missing indexes
number = "30" | number = 30.0 => 2 WrongType number
number = -1 | number = -9223372036854775808 | number = -2 | number = -300 => 2 Range number
number = 0 | number = 9223372036854775807 | number = 1 | number = 0x100000000 => reads

# Steps on the value of an attribute.
file plan

behind [[step]]\nkind = "bios-attribute"\n
handle = 1 | handle = 65536 => 0 Missing indexes
=> 0 Missing handle
value = 1\nindex = [1] | text = 1 => 0 Missing handle
handle = 1\ntext = 1 | handle = 1\ntext = [""] => 0 WrongType text
handle = 1\nindexes = [1]\ntext = "" | handle = 1\nindexes = [1]\nnumber = 0 => 0 Range indexes
handle = 1\ntext = ""\nnumber = 0 => 0 Range text
handle = 1\nindexes = [1]\ntext = ""\nnumber = 0 => 0 Range indexes
# The order of the lines tells nothing.
number = 0\ntext = ""\nhandle = 1 => 0 Range text
number = 0\nindexes = [1]\nhandle = 1 => 0 Range indexes
# A number that no attribute has isn't the first.
handle = 1\ntext = ""\nnumber = -1 => 0 Range text
# A fault of a type comes before that of several, and so does the handle's.
handle = 1\nindexes = [1]\ntext = 1 => 0 WrongType text
handle = 1\nindexes = [1]\nnumber = "" => 0 WrongType number
handle = 1\ntext = 1\nnumber = "" => 0 WrongType text
handle = true\nindexes = 1\ntext = "" => 0 WrongType handle
handle = -1\nindexes = [1]\ntext = "" | handle = -1\nindexes = [] => 0 Range handle

# A step lists 1 to 16 indexes.
behind [[step]]\nkind = "bios-attribute"\nhandle = 1\n
indexes = [] => 0 Range indexes
indexes = [<1:255, >] | indexes = [<16:255, >] => reads
indexes = [<17:255, >] => 0 Range indexes
# A text has at most 1,024 bytes: 513 letters can be 1,026.
text = "<1023:a>" | text = "<1024:a>" => reads
text = "<1025:a>" => 0 Range text
text = "<512:é>" => reads
text = "<513:é>" => 0 Range text

# What is sent has, behind four bytes of a handle, 05h, the attribute and its type, the value: how many indexes there are, and these;
behind [[step]]\nkind = "bios-attribute"\nhandle = 261\n
indexes = [0] => 3: smbus 0307<4:00>050501000100
indexes = [255, 0, 3] => 3: smbus 0307<4:00>0505010003FF0003
indexes = [<16:255, >] => 3: smbus 0307<4:00>0505010010<16:FF>
# a text's length in two bytes, and the text in UTF-8;
text = "" => 3: smbus 0307<4:00>050501010000
text = "ab" => 3: smbus 0307<4:00>0505010102006162
text = "é" => 3: smbus 0307<4:00>050501010200C3A9
text = "<200:a>" => 3: smbus 0307<4:00>05050101C800<200:61>
# a number in eight bytes, the low one first.
number = 0 => 3: smbus 0307<4:00>05050103<8:00>
number = 0x0102030405060708 => 3: smbus 0307<4:00>050501030807060504030201
number = 9223372036854775807 => 3: smbus 0307<4:00>05050103<7:FF>7F
"#;

#[test]
fn attributes_are_read(rt: HostRuntime) {
    expect_told(&rt, rt.alloc(), ATTRIBUTES);
}
