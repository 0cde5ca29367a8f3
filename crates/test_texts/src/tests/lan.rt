//! LAN parameters: of board files, and of the steps of plans.
use super::expect_told;

/// What boards and plans say of LAN parameters.
const LAN: &str = r#"
file board
with bare
# A channel with sessions, and two without.
until users = [""] -> users = [""]\nchannel = [{number = 2, sessions = true, access = [2, 2], limit = [4, 4], users = [20]}, {number = 15, sessions = false}, {number = 0, sessions = false}] => reads
# The LAN parameters of two of them. No line stands in them twice but `[[lan]]`, nor in the board above.
+ [[lan]]
+ channel = 2
+ ip = [192, 0, 2, 1]
+ source = 1
+ mask = [255, 255, 255, 0]
+ gateway = [192, 0, 2, 254]
+ vlan = [0x2A, 0x81]
+ [[lan]]
+ channel = 15
+ ip = [198, 51, 100, 7]
+ source = 0
+ mask = [255, 255, 0, 0]
+ gateway = [0, 0, 0, 0]
+ vlan = [0, 0]

# 2Ah is 42, and 81h is 129.
=> holds 1 lans: Distinct { items: Items { items: [Lan { number: BitField { number: 2 }, ip: Ipv4Address { first: 192, second: 0, third: 2, fourth: 1 }, source: 1, mask: Ipv4Address { first: 255, second: 255, third: 255, fourth: 0 }, gateway: Ipv4Address { first: 192, second: 0, third: 2, fourth: 254 }, vlan: VlanBytes { low: 42, high: 129 } }, Lan { number: BitField { number: 15 }, ip: Ipv4Address { first: 198, second: 51, third: 100, fourth: 7 }, source: 0, mask: Ipv4Address { first: 255, second: 255, third: 0, fourth: 0 }, gateway: Ipv4Address { first: 0, second: 0, third: 0, fourth: 0 }, vlan: VlanBytes { low: 0, high: 0 } }] } }

# Each field left out, of another type, just beyond its range and just inside, and more. The channel is one that the file lists.
at channel = 2
=> Missing lan 0 channel
channel = true | channel = [2] => WrongType lan 0 channel
channel = 1 | channel = 3 | channel = -1 | channel = 14 | channel = 16 | channel = 0x1000000000000000 => Range lan 0 channel
channel = 0 => reads
at channel = 15
channel = 12 | channel = 18 => Range lan 1 channel
channel = 0 => reads
at ip = [192, 0, 2, 1]
=> Missing lan 0 ip
ip = 1 | ip = "192.0.2.1" | ip = [192, 0, 2, "1"] => WrongType lan 0 ip
ip = [192, 0, 2] | ip = [192, 0, 2, 1, 1] | ip = [] => Range lan 0 ip
ip = [256, 0, 2, 1] | ip = [192, 0, 2, -1] | ip = [192, 0, 2, 256] => Range lan 0 ip
ip = [0, 0, 0, 0] | ip = [255, 255, 255, 255] => reads
at source = 1
=> Missing lan 0 source
source = [1] | source = false => WrongType lan 0 source
source = -1 | source = 5 | source = 0x11 => Range lan 0 source
source = 0 | source = 4 => reads
at mask = [255, 255, 255, 0]
=> Missing lan 0 mask
mask = true | mask = [255, 255, [], 0] => WrongType lan 0 mask
mask = [255, 255, 255] | mask = [255, 255, 255, 0, 0] | mask = [255, 255, 255, -1] => Range lan 0 mask
mask = [0, 0, 0, 0] | mask = [1, 2, 3, 4] => reads
at gateway = [192, 0, 2, 254]
=> Missing lan 0 gateway
gateway = {} | gateway = [192, 0, 2, 2.5] => WrongType lan 0 gateway
gateway = [192] | gateway = [192, 0, 2, 254, 0] | gateway = [192, 0, 256, 254] => Range lan 0 gateway
gateway = [0, 0, 0, 0] | gateway = [255, 255, 255, 255] => reads
# Bits 6:4 of the second byte are clear.
at vlan = [0x2A, 0x81]
=> Missing lan 0 vlan
vlan = 0x2A | vlan = [0x2A, true] => WrongType lan 0 vlan
vlan = [0x2A] | vlan = [0x2A, 0x81, 0] | vlan = [256, 0] | vlan = [0, 256] | vlan = [-1, 0] => Range lan 0 vlan
vlan = [0, 0x10] | vlan = [0, 0x20] | vlan = [0, 0x40] | vlan = [0x2A, 0xF1] | vlan = [0x2A, 0x91] => Range lan 0 vlan
vlan = [255, 0x8F] | vlan = [0, 0x80] | vlan = [0, 0x0F] => reads
at vlan = [0, 0]
vlan = [0, 0x70] => Range lan 1 vlan

# The first fault counts: an item's missing fields, then those of another type, then those out of their ranges, each in the fields' order,
# then that its channel is taken.
at channel = 15
channel = 2 => Twice lan 1 channel
at gateway = [0, 0, 0, 0]
=> Missing lan 1 gateway
gateway = [0, 0, 0, 0]\n[[lan]] => Missing lan 1 vlan
at mask = [255, 255, 0, 0]
mask = []\nadded = 1 => Range lan 1 mask
until channel = 15 -> channel = 2 => reads
at source = 0
source = 0 => Twice lan 1 channel
source = 5 => Range lan 1 source
source = "0" => WrongType lan 1 source
=> Missing lan 1 source
until source = 1 -> source = 5 => Twice lan 1 channel
source = 0 | source = "0" => Range lan 0 source
until channel = 2 -> channel = 7 => Range lan 0 source
at ip = [192, 0, 2, 1]
ip = [192, 0, 2, 1] | ip = [] => Range lan 0 channel
ip = 0 => WrongType lan 0 ip
=> Missing lan 0 ip

# LAN parameters come between channels and attributes.
file board
with bare
at tid = 5
lan = []\ntid = 5 => reads
lan = 1\ntid = 5 => WrongType top lan
lan = {}\ntid = 5 => WrongType top lan
lan = [{}, 1]\ntid = 5 => WrongType top lan
lan = [{}]\ntid = 5 => Missing lan 0 channel
lan = [{}]\nchannel = [{}]\ntid = 5 => Missing channel 0 number
lan = [{}]\nattribute = [{}]\ntid = 5 => Missing lan 0 channel
lan = 1\nchannel = 1\ntid = 5 => WrongType top channel
lan = 1\nattribute = 1\ntid = 5 => WrongType top lan
# No channel is listed.
lan = [{channel = 0, ip = [0, 0, 0, 0], source = 0, mask = [0, 0, 0, 0], gateway = [0, 0, 0, 0], vlan = [0, 0]}]\ntid = 5 => Range lan 0 channel

# How many channels can have LAN parameters at most.
file board
with bare
at tid = 5
lan = [<9:{}, >]\ntid = 5 => Range top lan
lan = [<8:{}, >]\ntid = 5 => Missing lan 0 channel
tid = 5\nchannel = [<8:{number = #, sessions = false}, >]\nlan = [<8:{channel = #, ip = [0, 0, 0, 0], source = 0, mask = [0, 0, 0, 0], gateway = [0, 0, 0, 0], vlan = [0, 0]}, >] => reads

# A step for each parameter.
file plan
+ [[step]]
+ kind = "lan-param"
+ channel = 1
+ param = 3
+ data = [192, 0, 2, 1]
+ [[step]]
+ kind = "lan-param"
+ channel = 15
+ param = 4
+ data = [2]
+ [[step]]
+ kind = "lan-param"
+ channel = 0
+ param = 6
+ data = [255, 255, 255, 0]
+ [[step]]
+ kind = "lan-param"
+ channel = 2
+ param = 12
+ data = [192, 0, 2, 254]
+ [[step]]
+ kind = "lan-param"
+ channel = 3
+ param = 20
+ data = [0x2A, 0x81]

# Each step is one request to the network function 0Ch, Transport: its command 01h, the channel, the parameter and the data.
=> 3: ipmb 30010103C0000201\nipmb 30010F0402\nipmb 30010006FFFFFF00\nipmb 3001020CC00002FE\nipmb 300103142A81

# Each field left out, of another type, just beyond its range and just inside, and more.
at channel = 15
=> 1 Missing channel
channel = true => 1 WrongType channel
channel = -1 | channel = 16 => 1 Range channel
channel = 0 | channel = 12 => reads
at param = 3
=> 0 Missing param
param = "3" => 0 WrongType param
param = 0 | param = 2 | param = 5 | param = 7 | param = 11 | param = 13 | param = 19 | param = 21 | param = -3 | param = 259 => 0 Range param
param = 6 | param = 12 => reads
param = 4 | param = 20 => 0 Range data
at data = [192, 0, 2, 1]
=> 0 Missing data
data = 1 | data = [192, 0, 2, true] => 0 WrongType data
data = [192, 0, 2] | data = [192, 0, 2, 1, 1] | data = [] | data = [192, 0, 2, 256] | data = [-1, 0, 2, 1] => 0 Range data
data = [0, 0, 0, 0] | data = [255, 255, 255, 255] => reads
at data = [2]
=> 1 Missing data
data = 2 => 1 WrongType data
data = [5] | data = [0x12] | data = [-1] | data = [2, 2] | data = [] => 1 Range data
data = [0] | data = [4] => reads
at data = [255, 255, 255, 0]
data = [255, 255, 255] | data = [255, 255, 255, 0, 0] => 2 Range data
data = [1, 2, 3, 4] => reads
at data = [192, 0, 2, 254]
data = [192] | data = [192, 0, 2, 256] => 3 Range data
data = [0, 0, 0, 0] => reads
at data = [0x2A, 0x81]
=> 4 Missing data
data = [[0x2A], [0x81]] => 4 WrongType data
data = [0x2A] | data = [0x2A, 0x81, 0] | data = [256, 0] | data = [0, 0x10] | data = [0, 0x20] | data = [0, 0x40] | data = [0x2A, 0xF1] => 4 Range data
data = [255, 0x8F] | data = [0, 0] | data = [0, 0x80] => reads

# The first fault counts.
file plan
behind [[step]]\nkind = "lan-param"\n
channel = 16\nparam = 3 => 0 Missing data
channel = 16\nparam = 5\ndata = "" => 0 WrongType data
channel = 16\nparam = 5\ndata = [] => 0 Range channel
channel = 15\nparam = 5\ndata = [] => 0 Range param
channel = 15\nparam = true => 0 Missing data
data = [1] => 0 Missing channel

# What a check tells of `[[lan]]`, and of such a step.
file check
with bare
[[channel]]\nnumber = 2\nsessions = false\n[[lan]]\nchannel = 2\nip = [0, 0, 0, 0]\nsource = 0\nmask = [0, 0, 0, 0]\ngateway = [0, 0, 0, 0]\nvlan = [0, 0] => holds 1 \nFine
[[channel]]\nnumber = 2\nsessions = false\n[[lan]]\nchannel = 2\nip = [0, 0, 0, 0]\nsource = 0\nmask = [0, 0, 0, 0]\ngateway = [0, 0, 0, 0]\nvlan = [0, 0]\nvlam = 1 => holds 1 \nfile:30: lan 0: unknown key vlam, nearest is vlan\nTold
[[lan]]\nchannel = 2 => file: board refused, Missing: table lan, item 0, field ip\nfile:20: lan 0: lacks ip: a list of 4 bytes\nRefused
file check
[[step]]\nkind = "lan-param"\nchannel = 1\nparam = 4\ndata = [1] => file: plan, 1 step, retries 3\nfile: step 0: channel 1 IP address source: static\nFine
[[step]]\nkind = "lan-param"\nchannel = 1\nparam = 4\ndata = [1]\nparma = 4 => file: plan, 1 step, retries 3\nfile:6: step 0 (lan-param): unknown key parma, nearest is param\nfile: step 0: channel 1 IP address source: static\nTold
[[step]]\nkind = "lan-param"\nchannel = 1\nparam = 4\ndata = [5] => file: plan refused, Range: table step, item 0, field data\nfile:5: step 0 (lan-param): data = [5]: a list of one number from 0 to 4\nRefused
"#;

#[test]
fn lan_parameters_are_read(rt: HostRuntime) {
    expect_told(&rt, rt.alloc(), LAN);
}
