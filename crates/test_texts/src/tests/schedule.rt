//! The lines of schedules, good and bad.
use super::expect_told;

/// What schedules say.
const SCHEDULES: &str = r#"
# An event of each form. The first digits of `2a07` are the function of number 10 on logical unit 2, and the last the sequence number 1 of
# logical unit 3.
file schedule
+ # what others do
+ start
+ to-bmc 0
+ to-mgr 007
+ noise ipmb ff
+
+ noise smbus 00aB
+ idle ipmb 2C
+ idle smbus 08
+ scan 05 60
+ tick
+ other smbus 0B 01800002
+ other ipmb 40 2a074205fF

=> Schedule { events: [Calls(Start), ToBmc(0), ToMgr(7), Noise(Ipmb, Octets { items: [255] }), Noise(Smbus, Octets { items: [0, 171] }), Idle(Ipmb, 44), Idle(Smbus, 8), OnBench(Scan { sensor: 5, reading: 96 }), OnBench(Tick), OtherSmbus(OtherMessage { from: 11, body: Octets { items: [1, 128, 0, 2] } }), OtherIpmb(OtherRequest { requester: Party { address: Address { byte: 64 }, lun: Below { number: 3 } }, responder: Below { number: 2 }, net_fn: NetFn { number: 10 }, sequence: Below { number: 1 }, command: 66, body: Bytes { items: [5, 255] } })] }

# Schedules, good and bad.
file schedule

# The calls of the manager. The last line needs no line feed.
start\nquiet\nstop\nagain\nundo => Schedule { events: [Calls(Start), Calls(Quiet), Calls(Stop), Calls(Again), Calls(Undo)] }

# Frames have numbers of at most nine digits.
to-bmc 0\nto-mgr 007\nto-bmc 999999999 => Schedule { events: [ToBmc(0), ToMgr(7), ToBmc(999999999)] }

# Bad lines are named.
stat => Line 1
Start => Line 1
start  => Line 1
 start => Line 1
start\r\n => Line 1
start\n \n => Line 2
 # a comment => Line 1
start\nstop now => Line 2
to-bmc => Line 1
to-bmc  => Line 1
to-bmc  1 => Line 1
to-bmc 1 2 => Line 1
to-bmc +1 => Line 1
to-bmc -1 => Line 1
to-bmc 0x1 => Line 1
to-mgr 1234567890 => Line 1
to-mgr 0000000001 => Line 1
other ipmb 41 280042 => Line 1
other ipmb 40 2C => Line 1
other ipmb 40 2800 => Line 1
other ipmb 40 2C0042 => Line 1
other ipmb 4 280042 => Line 1
other ipmb 40 28004 => Line 1
other ipmb 40 28004G => Line 1
other i2c 40 280042 => Line 1
other ipmb 40 => Line 1
other smbus 0B => Line 1
other smbus 0B  => Line 1
noise ipmb => Line 1
noise ipmb  => Line 1
idle ipmb 020 => Line 1
scan 05 => Line 1
tick 1 => Line 1
behind # a comment\n
\nstart\nhalt\nstop => Line 4

# Each prefix is read, or refused at its last line.
file schedule
+ # a run
+ start
+ to-bmc 0
+ to-mgr 1
+ other ipmb 40 280042
+ noise smbus FF
+ idle smbus 08
+ scan 05 60
ends reads => 0 1 2 3 4 5 6 7 8 13 14 22 23 31 32 52 53 67 68 81 82 92 93
ends Line 2 => 9 10 11 12
ends Line 3 => 15 16 17 18 19 20 21
ends Line 4 => 24 25 26 27 28 29 30
ends Line 5 => 33 34 35 36 37 38 39 40 41 42 43 44 45 46 47 48 49 50 51
ends Line 6 => 54 55 56 57 58 59 60 61 62 63 64 65 66
ends Line 7 => 69 70 71 72 73 74 75 76 77 78 79 80
ends Line 8 => 83 84 85 86 87 88 89 90 91
"#;

#[test]
fn schedules_are_read(rt: HostRuntime) {
    expect_told(&rt, rt.alloc(), SCHEDULES);
}
