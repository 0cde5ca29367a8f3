//! Steps of plans that change users and channels.
use super::expect_told;

/// What plans say of users and channels.
const USERS: &str = r#"
# A step of each kind. No line stands in it twice but `[[step]]`.
file plan
+ [[step]]
+ kind = "user-name"
+ user = 2
+ name = "operator"
+ [[step]]
+ kind = "user-access"
+ channel = 1
+ user = 3
+ limit = 4
+ callback = true
+ link = false
+ messaging = true
+ [[step]]
+ kind = "channel-access"
+ channel = 6
+ store = "volatile"
+ access = 0x2B
+ limit = 5

# The name has sixteen bytes. D1h: bit 7, callback, messages, and channel 1. ABh and 85h: the volatile store changes.
=> 3: ipmb 1845026F70657261746F72<8:00>\nipmb 1843D10304\nipmb 184006AB85

# Each field left out, of another type, just beyond its range and just inside, and more. Of a channel's access and limit a step needs one.
at user = 2
=> 0 Missing user
user = "2" => 0 WrongType user
user = 0 | user = 64 => 0 Range user
user = 1 | user = 63 => reads
at name = "operator"
=> 0 Missing name
name = 1 => 0 WrongType name
name = "seventeen letters" | name = "ééééééééa" => 0 Range name
name = "" | name = "sixteen letters!" => reads
at channel = 1
=> 1 Missing channel
channel = [1] => 1 WrongType channel
channel = -1 | channel = 16 => 1 Range channel
channel = 0 | channel = 15 => reads
at user = 3
=> 1 Missing user
user = true => 1 WrongType user
user = 0 | user = 64 => 1 Range user
user = 1 | user = 63 => reads
at limit = 4
=> 1 Missing limit
limit = 4.0 | limit = {} => 1 WrongType limit
limit = 0 | limit = 6 | limit = 14 | limit = 16 => 1 Range limit
limit = 1 | limit = 5 | limit = 15 | limit = 2 => reads
at channel = 6
=> 2 Missing channel
channel = "6" => 2 WrongType channel
channel = -1 | channel = 16 => 2 Range channel
channel = 0 | channel = 15 => reads
at store = "volatile"
=> 2 Missing store
store = 1 => 2 WrongType store
store = "" | store = "Volatile" => 2 Range store
store = "non-volatile" | store = "volatile" => reads
at access = 0x2B
=> reads
access = true | access = [2] => 2 WrongType access
access = 64 | access = 0x2C | access = -1 | access = 7 => 2 Range access
access = 0 | access = 0x3B | access = 3 | access = 0x38 => reads
at limit = 5
=> reads
limit = "5" => 2 WrongType limit
limit = 0 | limit = 6 => 2 Range limit
limit = 1 | limit = 4 => reads

# Callback, link and messages come together.
at callback = true
=> 1 Missing callback
at link = false
=> 1 Missing link
at messaging = true
=> 1 Missing messaging
at callback = true
callback = 1 => 1 WrongType callback
at link = false
link = "" => 1 WrongType link
at messaging = true
messaging = [] => 1 WrongType messaging
at limit = 4
session_limit = 4 => 1 NoGet SessionLimit

# Steps of which a part is told.
file plan

# Callback, link and messages come together.
behind [[step]]\nkind = "user-access"\nchannel = 1\nuser = 2\n
limit = 4 => reads
limit = 6\nlink = true => 0 Missing callback
limit = 6\ncallback = true => 0 Missing link
limit = 6\ncallback = 0\nlink = 0 => 0 Missing messaging
callback = true => 0 Missing limit

# A name has sixteen bytes. It is sent behind the user.
behind [[step]]\nkind = "user-name"\nuser = 63\n
name = "" => 3: ipmb 18453F<16:00>
name = "a" => 3: ipmb 18453F61<15:00>
name = "sixteen letters!" => 3: ipmb 18453F7369787465656E206C65747465727321
name = "éa" => 3: ipmb 18453FC3A961<13:00>

# Bits of a user change where a step has them. The first byte sent has bit 7 there, callback, link and messages in bits 6:4, and the channel.
behind [[step]]\nkind = "user-access"\nchannel = 15\nuser = 1\nlimit = 15\n
=> 3: ipmb 18430F010F
callback = false\nlink = false\nmessaging = false => 3: ipmb 18438F010F
callback = false\nlink = true\nmessaging = false => 3: ipmb 1843AF010F
callback = false\nlink = false\nmessaging = true => 3: ipmb 18439F010F
callback = true\nlink = false\nmessaging = false => 3: ipmb 1843CF010F
callback = true\nlink = true\nmessaging = true => 3: ipmb 1843FF010F

# A channel changes in what a step gives: in the bytes of the access and of the limit, bits 7:6 are 01 where the non-volatile store changes.
behind [[step]]\nkind = "channel-access"\nchannel = 0\nstore = "non-volatile"\n
access = 2 => 3: ipmb 1840004200
limit = 3 => 3: ipmb 1840000043
access = 0x3A\nlimit = 1 => 3: ipmb 1840007A41

# A step on a channel changes something in one store.
behind [[step]]\nkind = "channel-access"\nchannel = 1\n
store = "volatile" => 0 Missing access
store = "both" => 0 NoGet BothStores
access = 1 => 0 Missing store
store = "neither"\nlimit = 1 => 0 Range store
store = 0\nlimit = 0 => 0 WrongType store
store = "volatile"\nlimit = true => 0 WrongType limit
store = "volatile"\nlimit = 15 => 0 Range limit
"#;

#[test]
fn steps_on_users_and_channels_are_read(rt: HostRuntime) {
    expect_told(&rt, rt.alloc(), USERS);
}
