//! Plans: what they hold, and their faults.
use super::expect_told;

/// What plans say.
const PLANS: &str = r#"
# A step of each kind, but for users, channels, BIOS attributes and state effecters. No line stands in it twice but `[[step]]`.
file plan
+ [[step]]
+ kind = "thresholds"
+ sensor = 5
+ lnc = 1
+ lc = 2
+ lnr = 3
+ unc = 4
+ uc = 5
+ unr = 6
+ [[step]]
+ kind = "hysteresis"
+ sensor = 6
+ positive = 7
+ negative = 8
+ [[step]]
+ kind = "event-enable"
+ sensor = 9
+ messages = true
+ scanning = false
+ select = "enable"
+ assert = [7, 9, 7]
+ deassert = [0, 11]
+ [[step]]
+ kind = "watchdog"
+ use = 3
+ no_log = true
+ action = 1
+ interrupt = 2
+ pre = 10
+ initial = 3000
+ [[step]]
+ kind = "power-policy"
+ policy = 2
+ [[step]]
+ kind = "global-enables"
+ value = 0x08
+ [[step]]
+ kind = "boot-param"
+ param = 4
+ invalid = false
+ data = [3, 1]
+ [[step]]
+ kind = "numeric-effecter"
+ effecter = 261
+ size = 2
+ value = 1000

# Each step is one request: network function and command, and the data.
=> 3: ipmb 1026053F010203040506\nipmb 102406FF0708\nipmb 1028099080020108\nipmb 182483210A00B80B\nipmb 000602\nipmb 182E08\nipmb 0008040301\nsmbus 0231050102E803

# Each field left out, of another type, just beyond its range and just inside, and more. No threshold is needed.
at sensor = 5
=> 0 Missing sensor
sensor = true => 0 WrongType sensor
sensor = -1 | sensor = 256 => 0 Range sensor
sensor = 0 | sensor = 255 => reads
at lnc = 1
=> reads
lnc = true => 0 WrongType lnc
lnc = -1 | lnc = 256 => 0 Range lnc
lnc = 0 | lnc = 255 => reads
at lc = 2
=> reads
lc = "2" => 0 WrongType lc
lc = -1 | lc = 256 => 0 Range lc
lc = 0 | lc = 255 => reads
at lnr = 3
=> reads
lnr = [3] => 0 WrongType lnr
lnr = -1 | lnr = 256 => 0 Range lnr
lnr = 0 | lnr = 255 => reads
at unc = 4
=> reads
unc = 4.0 => 0 WrongType unc
unc = -1 | unc = 256 => 0 Range unc
unc = 0 | unc = 255 => reads
at uc = 5
=> reads
uc = false => 0 WrongType uc
uc = -1 | uc = 256 => 0 Range uc
uc = 0 | uc = 255 => reads
at unr = 6
=> reads
unr = {} => 0 WrongType unr
unr = -1 | unr = 256 => 0 Range unr
unr = 0 | unr = 255 => reads
at sensor = 6
=> 1 Missing sensor
sensor = "6" => 1 WrongType sensor
sensor = -1 | sensor = 256 => 1 Range sensor
sensor = 0 | sensor = 255 => reads
at positive = 7
=> 1 Missing positive
positive = true => 1 WrongType positive
positive = -1 | positive = 256 => 1 Range positive
positive = 0 | positive = 255 => reads
at negative = 8
=> 1 Missing negative
negative = [8] => 1 WrongType negative
negative = -1 | negative = 256 => 1 Range negative
negative = 0 | negative = 255 => reads
at policy = 2
=> 4 Missing policy
policy = true => 4 WrongType policy
policy = -1 | policy = 3 => 4 Range policy
policy = 0 | policy = 1 => reads
at sensor = 9
=> 2 Missing sensor
sensor = [] => 2 WrongType sensor
sensor = -1 | sensor = 256 => 2 Range sensor
sensor = 0 | sensor = 255 => reads
at select = "enable"
=> 2 Missing select
select = 1 => 2 WrongType select
select = "" | select = "Enable" => 2 Range select
select = "leave" | select = "disable" => reads
at assert = [7, 9, 7]
=> 2 Missing assert
assert = [7, true] => 2 WrongType assert
assert = [-1] | assert = [0, 12] => 2 Range assert
assert = [] | assert = [0, 11, 0] => reads
at deassert = [0, 11]
=> 2 Missing deassert
deassert = 0 => 2 WrongType deassert
deassert = [12] | deassert = [11, -1] => 2 Range deassert
deassert = [11] | deassert = [0] => reads
at use = 3
=> 3 Missing use
use = true => 3 WrongType use
use = 0 | use = 6 => 3 Range use
use = 1 | use = 5 => reads
at action = 1
=> 3 Missing action
action = true => 3 WrongType action
action = -1 | action = 4 => 3 Range action
action = 0 | action = 3 => reads
at interrupt = 2
=> 3 Missing interrupt
interrupt = "2" => 3 WrongType interrupt
interrupt = -1 | interrupt = 4 => 3 Range interrupt
interrupt = 0 | interrupt = 3 => reads
at pre = 10
=> 3 Missing pre
pre = [10] => 3 WrongType pre
pre = -1 | pre = 256 => 3 Range pre
pre = 0 | pre = 255 => reads
at initial = 3000
=> 3 Missing initial
initial = true => 3 WrongType initial
initial = -1 | initial = 65536 => 3 Range initial
initial = 0 | initial = 65535 => reads
at value = 0x08
=> 5 Missing value
value = true => 5 WrongType value
value = 0x10 | value = 256 => 5 Range value
value = 0 | value = 0xEF => reads
at effecter = 261
=> 7 Missing effecter
effecter = true => 7 WrongType effecter
effecter = -1 | effecter = 65536 => 7 Range effecter
effecter = 0 | effecter = 65535 => reads
at size = 2
=> 7 Missing size
size = "2" => 7 WrongType size
size = -1 | size = 6 => 7 Range size
size = 3 | size = 5 => reads
at value = 1000
=> 7 Missing value
value = 1000.0 => 7 WrongType value
value = -1 | value = 65536 => 7 Range value
value = 0 | value = 65535 => reads

# Booleans are no numbers, and numbers no booleans.
at messages = true
messages = 1 => 2 WrongType messages
=> 2 Missing messages
at scanning = false
scanning = "" => 2 WrongType scanning
=> 2 Missing scanning
scanning = true => reads
at no_log = true
no_log = 0 => 3 WrongType no_log
=> 3 Missing no_log
no_log = false => reads

# Whole plans, and steps of which a part is told.
file plan

# How often the frames of a request are sent again: 3 times where a plan doesn't say it.
=> 3:
retries = 0 => 0:
retries = 15 => 15:
step = []\nretry = 16 => 3:

# The first fault counts.
retries = | retries = 99999999999999999999 => Text
retries = true => WrongType retries
retries = 16 | retries = -1 => Range retries
retries = 16\nstep = 1 => WrongType step
retries = ""\nstep = [1] => WrongType retries
step = [{}, 1] => WrongType step
retries = 16\nstep = [{}] => Range retries
step = [{}] => 0 Missing kind
step = [{kind = 1}] => 0 WrongType kind
step = [{kind = "Clock"}] | step = [{kind = "lan-params"}] => 0 UnknownKind
step = [{kind = "power-policy"}, {kind = "log"}] => 0 Missing policy
step = [{kind = "power-policy", policy = 1}, {kind = "log"}] => 1 OutsidePlan Log
step = [{kind = "thresholds", lnc = true, lc = 256}] => 0 Missing sensor

# A plan has at most 256 steps.
<256:[[step]]\nkind = "power-policy"\npolicy = 1\n> => holds 256 ipmb 000601
[[step]]\nkind = "log"\n<256:[[step]]\nkind = "power-policy"\npolicy = 1\n> => TooMany
retries = 16\n<257:[[step]]\nkind = "power-policy"\npolicy = 1\n> => Range retries
<257:[[step]]\nkind = "power-policy"\npolicy = 1\n> => TooMany

# Passwords, the clock and the log stand outside plans.
behind [[step]]\nkind =
 "password"\n => 0 OutsidePlan Password
 "clock"\n => 0 OutsidePlan Clock
 "log"\n => 0 OutsidePlan Log

# What no Get shows is refused.
behind step = [{kind = "watchdog",
 flags_clear = 0}] => 0 NoGet FlagsClear
behind [[step]]\n
kind = "user-access"\nsession_limit = "" => 0 NoGet SessionLimit
kind = "user-access" => 0 Missing channel
kind = "watchdog"\nflags_clear = 0 | kind = "watchdog"\nflags_clear = true => 0 NoGet FlagsClear
kind = "watchdog"\nsession_limit = 0 => 0 Missing use
kind = "channel-access"\nstore = "both" => 0 NoGet BothStores
kind = "channel-access"\nstore = "volatile" | kind = "channel-access"\nstore = 0 => 0 Missing channel
kind = "boot-param"\nparam = 0 => 0 NoGet SetInProgress
kind = "boot-param"\nparam = 3 | kind = "boot-param"\nparam = false => 0 Missing invalid
kind = "thresholds"\nflags_clear = 0 => 0 Missing sensor

# Events are needed unless they are left.
behind [[step]]\nkind = "event-enable"\nsensor = 0\nmessages = true\nscanning = true\n
select = "leave" => reads
select = "leave"\nassert = [12] => 0 Range assert
select = "leave"\ndeassert = 1 => 0 WrongType deassert
select = "enable"\nassert = [] => 0 Missing deassert
select = "disable"\ndeassert = [] | select = 0 => 0 Missing assert
assert = [] => 0 Missing select

# Data of a boot parameter are its own. What is sent has the mark and the parameter, and the data or none.
behind [[step]]\nkind = "boot-param"\ninvalid = true\n
param = 2 => 0 Range param
param = 6\ndata = 0 => 0 WrongType data
param = 3\ndata = [32] | param = 3\ndata = [] => 0 Range data
param = 3\ndata = [true] => 0 WrongType data
param = 4\ndata = [1] | param = 4\ndata = [256, 0] | param = 5\ndata = [0, 0, 0, 0] => 0 Range data
data = [0] => 0 Missing param
param = 3\ndata = [31] => 3: ipmb 0008831F
param = 4\ndata = [255, 0] => 3: ipmb 000884FF00
param = 5\ndata = [1, 2, 3, 4, 5] => 3: ipmb 0008850102030405
param = 3 => 3: ipmb 000883
param = 5 => 3: ipmb 000885

# Two steps on thresholds: the mask is of those that a step gives.
behind [[step]]\nkind = "thresholds"\nsensor = 5\nunc = 0x4B\nuc = 0x5A\n
[[step]]\nkind = "thresholds"\nsensor = 5\nuc = 0x5C\nunr = 0x64 => 3: ipmb 102605180000004B5A00\nipmb 10260530000000005C64

# A plan of one step, of which six prefixes are plans.
file plan
+ retries = 15
+ [[step]]
+ kind = "power-policy"
+ policy = 2
ends reads => 0 11 12 13 54 55
"#;

#[test]
fn plans_are_read(rt: HostRuntime) {
    expect_told(&rt, rt.alloc(), PLANS);
}
