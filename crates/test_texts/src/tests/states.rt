//! State effecters: of board files, and of the steps of plans.
use super::expect_told;

/// What boards and plans say of state effecters.
const STATES: &str = r#"
file board
with bare
# Two state effecters. No line stands in them twice but `[[state]]`, nor in the board above.
+ [[state]]
+ id = 4
+ operational = 1
+ states = [[1, 2, 255], [7]]
+ current = [2, 7]
+ [[state]]
+ id = 5
+ operational = 2
+ states = [[0]]
+ current = [0]

=> holds 1 state_effecters: Distinct { items: Items { items: [StateEffecter { id: 4, enabled: true, fields: Items { items: [StateField { allowed: Items { items: [1, 2, 255] }, current: 2 }, StateField { allowed: Items { items: [7] }, current: 7 }] } }, StateEffecter { id: 5, enabled: false, fields: Items { items: [StateField { allowed: Items { items: [0] }, current: 0 }] } }] } }

# Each field left out, of another type, just beyond its range and just inside, and more.
at id = 4
=> Missing state 0 id
id = 4.0 => WrongType state 0 id
id = -1 | id = 0x10000 => Range state 0 id
id = 0 | id = 0xFFFF => reads
at operational = 1
=> Missing state 0 operational
operational = [1] => WrongType state 0 operational
operational = 0 | operational = 3 => Range state 0 operational
operational = 2 | operational = 0x01 => reads
at states = [[1, 2, 255], [7]]
=> Missing state 0 states
states = [1, 2] | states = [[1, 2], 7] | states = [[1, true], [7]] => WrongType state 0 states
states = [] | states = [[1, 2, 256], [7]] | states = [[2], [-1, 7]] => Range state 0 states
states = [[2], [7], [], [], [], [], [], [], []] | states = [[256], []] | states = [[], [-1]] => Range state 0 states
states = [[2], [7]] | states = [[0, 1, 2], [255, 7, 7]] | states = [[2, 2], [7]] | states = [[2, 255], [0, 7]] => reads
states = [[2, 0], [7, 0]] | states = [[2, 1], [7, 1]] => reads
at current = [2, 7]
=> Missing state 0 current
current = 2 | current = [2, true] | current = [[2, 7]] => WrongType state 0 current
current = [2] | current = [2, 7, 7] | current = [7, 2] | current = [3, 7] | current = [] | current = [2, -1] => Range state 0 current
current = [1, 7] | current = [255, 7] | current = [0x01, 7] | current = [2, 0x07] | current = [0xFF, 7] | current = [1, 0x7] => reads
at id = 5
=> Missing state 1 id
id = true => WrongType state 1 id
id = 65536 | id = -5 => Range state 1 id
id = 6 | id = 0 => reads
at operational = 2
=> Missing state 1 operational
operational = true => WrongType state 1 operational
operational = -1 | operational = 4 => Range state 1 operational
operational = 1 | operational = 0x02 => reads
at states = [[0]]
=> Missing state 1 states
states = [{}] => WrongType state 1 states
states = [[0, 256]] | states = [[0], [0], [0], [0], [0], [0], [0], [0], [0]] => Range state 1 states
states = [[1, 0]] | states = [[0, 255]] => reads
at current = [0]
=> Missing state 1 current
current = "0" => WrongType state 1 current
current = [1] | current = [256] => Range state 1 current
current = [0x00] | current = [0b0] => reads

# The first fault counts.
at id = 5
id = 4 => Twice state 1 id
# A field that can be in no state is in none.
at states = [[0]]
states = [[]] | states = [[0], [0]] => Range state 1 current
states = [[0, 256]]\nadded = 1 => Range state 1 states
# All that are missing come before those of another type, and these before those out of their ranges.
at id = 4
id = 65536\n[[state]] => Missing state 0 operational
at operational = 1
operational = true => WrongType state 0 operational
operational = 1\n[[state]]\noperational = 1\nid = true => Missing state 0 states
at current = [2, 7]
current = [3, 7]\n[[state]] => Range state 0 current
# An item's own fault comes before its id, and the id before the next item.
at current = [0]
current = [0]\n[[state]]\nid = 4 => Missing state 2 operational
current = [0]\n[[state]]\nid = 4\noperational = 1\nstates = [[0]]\ncurrent = [1] => Range state 2 current
current = [0]\n[[state]]\nid = 4\noperational = 1\nstates = [[0]]\ncurrent = [0]\n[[state]] => Twice state 2 id

# State effecters beside other items, how many there are, and how many fields and states.
file board
with bare

# State effecters come between channels and numeric effecters.
at tid = 5
tid = 5 | state = []\ntid = 5 => reads
state = 1\ntid = 5 | state = [{}, 1]\ntid = 5 => WrongType top state
state = [{}]\ntid = 5 => Missing state 0 id
state = [{}]\nchannel = [{number = 1}]\ntid = 5 => Missing channel 0 sessions
state = [{}]\nnumeric = [{id = 1}]\ntid = 5 => Missing state 0 id
channel = 1\nstate = 1\ntid = 5 => WrongType top channel
numeric = 1\nstate = 1\ntid = 5 => WrongType top state

# A board has at most 32 of them.
behind
<32:[[state]]\nid = #\noperational = 1\nstates = [[3]]\ncurrent = [3]\n> => holds 32 StateEffecter {
<32:[[state]]\nid = #\noperational = 1\nstates = [[3]]\ncurrent = [3]\n> => holds 0 NumericEffecter {
<33:[[state]]\nid = #\noperational = 1\nstates = [[3]]\ncurrent = [3]\n> => Range top state

# Ids are distinct among state effecters alone.
behind [[numeric]]\nid = 4\nsize = 0\noperational = 1\nlower = 0\nupper = 1\ncurrent = 1\n
[[state]]\nid = 4\noperational = 1\nstates = [[1]]\ncurrent = [1] => holds 1 StateEffecter { id: 4,
[[state]]\nid = 4\noperational = 1\nstates = [[1]]\ncurrent = [1] => holds 1 NumericEffecter { id: 4,

# An effecter has at most 8 fields, and a field any number of states.
behind [[state]]\nid = 9\noperational = 1\nstates =
 []\ncurrent = [] => Range state 0 states
 [<1:[1, 2], >]\ncurrent = [<1:2, >] => holds 1 StateField {
 [<8:[1, 2], >]\ncurrent = [<8:2, >] => holds 8 StateField {
 [<9:[1, 2], >]\ncurrent = [<9:2, >] => Range state 0 states
 [[<257:7, >]]\ncurrent = [7] => reads

# Steps on the states of an effecter.
file plan

behind [[step]]\nkind = "state-effecter"\n
effecter = 0\nstates = [0] | effecter = 65535\nstates = [0] => reads
effecter = 65536\nstates = [0] | effecter = -1\nstates = [0] => 0 Range effecter
effecter = true\nstates = [0] => 0 WrongType effecter
states = [0] => 0 Missing effecter
effecter = true => 0 Missing states
effecter = 65536\nstates = 0 | effecter = 1\nstates = [0, true] | effecter = 1\nstates = [[0]] => 0 WrongType states
effecter = 1\nstates = [] | effecter = 1\nstates = [0, -2] | effecter = 1\nstates = [256, 0] => 0 Range states
effecter = 1\nstates = [-9223372036854775808] | effecter = 1\nstates = [9223372036854775807] => 0 Range states
effecter = 1\nstates = [1, 2, 3, 4, 5, 6, 7, 8] => reads
effecter = 1\nstates = [1, 2, 3, 4, 5, 6, 7, 8, 9] => 0 Range states

# What is sent has, behind the effecter and how many fields there are, for each field whether it is set, and the state.
behind [[step]]\nkind = "state-effecter"\neffecter = 261\nstates =
 [0] => 3: smbus 02390501010100
 [255] => 3: smbus 023905010101FF
 [-1] => 3: smbus 02390501010000
 [2, -1, 7] => 3: smbus 0239050103010200000107
 [1, 2, 3, 4, 5, 6, 7, -1] => 3: smbus 02390501080101010201030104010501060107<2:00>
"#;

#[test]
fn state_effecters_are_read(rt: HostRuntime) {
    expect_told(&rt, rt.alloc(), STATES);
}
