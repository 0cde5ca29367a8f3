//! What a check says in words of undo texts, plans and journals that are good, in the terms of IPMI 2.0 and of PLDM.
use super::expect_told;

/// An undo text with a request of each kind, and one that sets a password. The first of its lines is the last step's.
const UNDONE: &str = r#"
file check
+ undo 1
+ next ipmb 4 smbus 0
+ ipmb 10260903050300000000
+ ipmb 102407FF0400
+ ipmb 102807E000000200
+ ipmb 000601
+ ipmb 182402030A005802
+ ipmb 182E01
+ ipmb 000805E014000000
+ smbus 0231050101F6
+ smbus 023906010201090000
+ ipmb 1845036E696768740000000000000000000000
+ ipmb 1843A20304
+ ipmb 1840020083
+ ipmb 3001020C0A0000FE
+ smbus 030700000000050700010400422D3132
+ ipmb 18470202736563726574000000000000000000 00
at ipmb 18470202736563726574000000000000000000 00
ipmb 184702027365637265740000000000000000 => file: undo text, 15 requests\nfile: undo of step 14: sensor 9 lower non-critical <- 5 (05h); lower critical <- 3 (03h)\nfile: undo of step 13: sensor 7 positive-going hysteresis <- 4 (04h); negative-going hysteresis <- 0 (00h)\nfile: undo of step 12: sensor 7 event messages <- on; scanning <- on; disable deassertion events <- 0002h\nfile: undo of step 11: power restore policy <- previous\nfile: undo of step 10: watchdog timer use <- BIOS/POST; don't log <- off; pre-timeout interrupt <- none; timeout action <- power cycle; pre-timeout interval in s <- 10; initial countdown in 100 ms <- 600\nfile: undo of step 9: BMC global enables receive message queue interrupt <- on; event message buffer full interrupt <- off; event message buffer <- off; system event logging <- off; OEM 0 <- off; OEM 1 <- off; OEM 2 <- off\nfile: undo of step 8: boot device <- CD/DVD, each time, EFI; other flags <- bytes 00 00 00 00 00; flags marked invalid <- off\nfile: undo of step 7: numeric effecter 261 <- -10 (sint8)\nfile: undo of step 6: state effecter 262 field 1 <- 9\nfile: undo of step 5: user 3 name <- "night"\nfile: undo of step 4: user 3 on channel 2 privilege limit <- administrator; restricted to callback <- off; link authentication <- on; IPMI messaging <- off\nfile: undo of step 3: channel 2 volatile privilege limit <- operator\nfile: undo of step 2: channel 2 default gateway address <- 10.0.0.254\nfile: undo of step 1: attribute 7 <- "B-12"\nfile: undo of step 0: user 2 password: (not shown)\nFine

# A request of no record is named by its command, and its data aren't shown.
file check
undo 1\nnext ipmb 4 smbus 0\nipmb 1801\nsmbus 0202AA\n => file: undo text, 2 requests\nfile: undo of step 1: IPMI network function 6, command 1: of no record\nfile: undo of step 0: PLDM type 2, command 2: of no record\nFine
"#;

/// A plan with a step of each kind.
const PLANNED: &str = r#"
file check
+ [[step]]
+ kind = "thresholds"
+ sensor = 5
+ unc = 0x4B
+ uc = 0x5A
+ [[step]]
+ kind = "hysteresis"
+ sensor = 5
+ positive = 3
+ negative = 1
+ [[step]]
+ kind = "event-enable"
+ sensor = 5
+ messages = true
+ scanning = true
+ select = "enable"
+ assert = [7, 9]
+ deassert = []
+ [[step]]
+ kind = "watchdog"
+ use = 4
+ no_log = true
+ action = 1
+ interrupt = 2
+ pre = 30
+ initial = 3000
+ [[step]]
+ kind = "power-policy"
+ policy = 0
+ [[step]]
+ kind = "global-enables"
+ value = 0x09
+ [[step]]
+ kind = "boot-param"
+ param = 5
+ invalid = false
+ data = [0x80, 0x04, 0, 0, 0]
+ [[step]]
+ kind = "bios-attribute"
+ handle = 2
+ number = 40
+ [[step]]
+ kind = "state-effecter"
+ effecter = 262
+ states = [-1, 2]
+ [[step]]
+ kind = "numeric-effecter"
+ effecter = 261
+ size = 3
+ value = -400
+ [[step]]
+ kind = "user-name"
+ user = 3
+ name = "night shift"
+ [[step]]
+ kind = "user-access"
+ channel = 2
+ user = 3
+ limit = 3
+ [[step]]
+ kind = "channel-access"
+ channel = 2
+ store = "volatile"
+ limit = 3
+ [[step]]
+ kind = "lan-param"
+ channel = 1
+ param = 6
+ data = [255, 255, 255, 0]
=> file: plan, 14 steps, retries 3\nfile: step 0: sensor 5 upper non-critical: 75 (4Bh); upper critical: 90 (5Ah)\nfile: step 1: sensor 5 positive-going hysteresis: 3 (03h); negative-going hysteresis: 1 (01h)\nfile: step 2: sensor 5 event messages: on; scanning: on; enable assertion events: 0280h\nfile: step 3: watchdog timer use: SMS/OS; don't log: on; pre-timeout interrupt: NMI; timeout action: hard reset; pre-timeout interval in s: 30; initial countdown in 100 ms: 3000\nfile: step 4: power restore policy: always off\nfile: step 5: BMC global enables receive message queue interrupt: on; event message buffer full interrupt: off; event message buffer: off; system event logging: on; OEM 0: off; OEM 1: off; OEM 2: off\nfile: step 6: boot device: pxe, once, BIOS; other flags: bytes 00 00 00 00 00; flags marked invalid: off\nfile: step 7: attribute 2: 40\nfile: step 8: state effecter 262 field 2: 2\nfile: step 9: numeric effecter 261: -400 (sint16)\nfile: step 10: user 3 name: "night shift"\nfile: step 11: user 3 on channel 2 privilege limit: operator\nfile: step 12: channel 2 volatile privilege limit: operator\nfile: step 13: channel 1 subnet mask: 255.255.255.0\nFine
"#;

/// How far the manager of a journal is, and what is taken back.
const JOURNALS: &str = r#"
# The plan wasn't begun.
file check
journal 1\nretries 3\nnames 2C203020080A\nunlisted\nsteps 1\nipmb 102605380000004B5C64\nundo 0\nwaiting 0\nstage fresh 0 0\ngo\ncounts 0 0\nno replies\n => file: journal, 1 step\nfile: fresh\nFine

# A Set is open: what undoes its step is listed only if it was carried out.
file check
+ journal 1
+ retries 3
+ names 2C203020080A
+ listed 2C203020080A
+ steps 2
+ ipmb 102605380000004B5C64
+ ipmb 102405FF0102
+ undo 1
+ ipmb 10260538000000505F6E
+ waiting 1
+ ipmb 102405FF0000
+ stage set 1 0
+ stop
+ counts 3 0
+ no replies
=> file: journal, 2 steps\nfile: open: Set of step 1, sensor 5 positive-going hysteresis: 1 (01h); negative-going hysteresis: 2 (02h)\nfile: undo of step 1 if its Set was carried out: sensor 5 positive-going hysteresis <- 0 (00h); negative-going hysteresis <- 0 (00h)\nfile: undo of step 0: sensor 5 upper non-critical <- 80 (50h); upper critical <- 95 (5Fh); upper non-recoverable <- 110 (6Eh)\nFine

# A part of an attribute's entry came.
file check
journal 1\nretries 3\nnames 2C203020080A\nunlisted\nsteps 1\nsmbus 0307000000000501000106007261636B2D31\nundo 0\nwaiting 0\nstage get 0 1\nstop\ncounts 0 1\nreplies 0000000005\n => file: journal, 1 step\nfile: open: Get of step 0, attribute 1 (1 of its requests answered)\nFine

# The plan ended, and two steps may be taken back.
file check
+ journal 1
+ retries 3
+ names 2C203020080A
+ unlisted
+ steps 3
+ ipmb 000602
+ ipmb 182E08
+ ipmb 000601
+ undo 2
+ ipmb 000600
+ ipmb 1845026F707300000000000000000000000000
+ waiting 0
+ stage done 0 0
+ go
+ counts 4 0
+ no replies
at stage done 0 0
stage done 0 0 => file: journal, 3 steps\nfile: done\nfile: undo of step 1: user 2 name <- "ops"\nfile: undo of step 0: power restore policy <- always off\nFine
stage halted 2 0 => file: journal, 3 steps\nfile: halted at step 2, power restore policy: previous: a stop came before it\nfile: undo of step 1: user 2 name <- "ops"\nfile: undo of step 0: power restore policy <- always off\nFine
stage set-refused 2 204 => holds 1 file: halted at step 2, power restore policy: previous: its Set was refused, CCh\n
stage get-refused 2 203 => holds 1 file: halted at step 2, power restore policy: previous: its Get was refused, CBh\n
stage not-restorable 2 0 => holds 1 file: halted at step 2, power restore policy: previous: no Set brings back what its Get showed\n
stage halted 3 0 => holds 1 file: halted at step 3: a stop came before it\n

# It is being taken back: nothing above the open step or the refused one is still to come.
stage undo 1 0 => file: journal, 3 steps\nfile: open: undo of step 1, user 2 name <- "ops"\nfile: undo of step 1: user 2 name <- "ops"\nfile: undo of step 0: power restore policy <- always off\nFine
stage undo 0 0 => file: journal, 3 steps\nfile: open: undo of step 0, power restore policy <- always off\nfile: undo of step 0: power restore policy <- always off\nFine
stage undo-refused 0 5 => file: journal, 3 steps\nfile: refused: undo of step 0, power restore policy <- always off: 05h\nfile: undo of step 0: power restore policy <- always off\nFine
stage undo-refused 7 5 => holds 1 file: refused: undo of step 7: 05h\nfile: undo of step 1: 
stage undone 0 0 => file: journal, 3 steps\nfile: undone\nFine
"#;

#[test]
fn undo_texts_are_said_in_words(rt: HostRuntime) {
    expect_told(&rt, rt.alloc(), UNDONE);
}

#[test]
fn plans_are_said_in_words(rt: HostRuntime) {
    expect_told(&rt, rt.alloc(), PLANNED);
}

#[test]
fn journals_are_said_in_words(rt: HostRuntime) {
    expect_told(&rt, rt.alloc(), JOURNALS);
}
