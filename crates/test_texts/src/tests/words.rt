//! Records in words: the names, the operations and the values of each kind, and requests that undo.
use super::story::expect_equal;
use cfg_records::{Op, RecordKind};
use record_kinds::Limits;
use record_words::{RecordName, Way, change_in_words, op_in_words, undo_in_words, undone_op};
use std::alloc::Global;
use std::process::Abort;
use text_lines::read_undo;
use undo_plans::{UndoList, UndoRequest};

/// Requests that undo, as lines of an undo text, and what is said of each.
const UNDONE: &str = r#"
ipmb 10260530000000005A6E => sensor 5 upper critical <- 90 (5Ah); upper non-recoverable <- 110 (6Eh)
ipmb 10260518000000505F00 => sensor 5 upper non-critical <- 80 (50h); upper critical <- 95 (5Fh)
ipmb 10260507050301000000 => sensor 5 lower non-critical <- 5 (05h); lower critical <- 3 (03h); lower non-recoverable <- 1 (01h)
ipmb 1026FE1000000000FF00 => sensor 254 upper critical <- 255 (FFh)
ipmb 10260500000000000000 => sensor 5 thresholds: no change
ipmb 102405FF0102 => sensor 5 positive-going hysteresis <- 1 (01h); negative-going hysteresis <- 2 (02h)
ipmb 102805D001000000 => sensor 5 event messages <- on; scanning <- on; enable assertion events <- 0001h
ipmb 102805600000FF0F => sensor 5 event messages <- off; scanning <- on; disable deassertion events <- 0FFFh
ipmb 000602 => power restore policy <- always on
ipmb 000603 => power restore policy: no change
ipmb 182404310500B004 => watchdog timer use <- SMS/OS; don't log <- off; pre-timeout interrupt <- messaging interrupt; timeout action <- hard reset; pre-timeout interval in s <- 5; initial countdown in 100 ms <- 1200
ipmb 182E08 => BMC global enables receive message queue interrupt <- off; event message buffer full interrupt <- off; event message buffer <- off; system event logging <- on; OEM 0 <- off; OEM 1 <- off; OEM 2 <- off
ipmb 0008058004000000 => boot device <- pxe, once, BIOS; other flags <- bytes 00 00 00 00 00; flags marked invalid <- off
ipmb 00088309 => boot flag valid bit clearing <- 09h; flag valid bit clearing marked invalid <- on
ipmb 0008040301 => boot info acknowledge <- bits 01h of 03h; info acknowledge marked invalid <- off
ipmb 000885 => boot flags marked invalid <- on
smbus 0231030000FA => numeric effecter 3 <- 250 (uint8)
smbus 0231030001FB => numeric effecter 3 <- -5 (sint8)
smbus 023907000201030000 => state effecter 7 field 1 <- 3
ipmb 1845026F707300000000000000000000000000 => user 2 name <- "ops"
ipmb 184391020F => user 2 on channel 1 privilege limit <- no access; restricted to callback <- off; link authentication <- off; IPMI messaging <- on
ipmb 1840014200 => channel 1 non-volatile access mode <- always available; user level authentication <- on; per-message authentication <- on; PEF alerting <- on
ipmb 30010103C0A80001 => channel 1 IP address <- 192.168.0.1
smbus 030700000000050200032800000000000000 => attribute 2 <- 40
ipmb 18470202736563726574000000000000000000 => user 2 password: (not shown)
ipmb 184742036F746865720000000000000000000000000000 => user 2 password: (not shown)
ipmb 1801 => IPMI network function 6, command 1: of no record
ipmb 102405FF01 => IPMI network function 4, command 36: of no record
smbus 0202 => PLDM type 2, command 2: of no record
"#;

/// Operations, by the requests that carry them out, and what is said of each where nobody knows what was there.
const ALONE: &str = r#"
ipmb 10260510000000005A00 => sensor 5 upper critical: 90 (5Ah)
ipmb 102805C0 => sensor 5 event messages: on; scanning: on
ipmb 102805F0 => sensor 5 event messages: on; scanning: on; selection: reserved
ipmb 000600 => power restore policy: always off
ipmb 000601 => power restore policy: previous
ipmb 000605 => power restore policy: 05h
ipmb 1824C3230010FFFF => watchdog timer use: OS load; don't log: on; don't stop: on; pre-timeout interrupt: NMI; timeout action: power cycle; pre-timeout interval in s: 0; expiration flags to clear: 10h; initial countdown in 100 ms: 65535
ipmb 182E1F => BMC global enables receive message queue interrupt: on; event message buffer full interrupt: on; event message buffer: on; system event logging: on; reserved bit 4: on; OEM 0: off; OEM 1: off; OEM 2: off
ipmb 00080503D5123456 => boot device: CD/DVD, once, BIOS, not valid; other flags: bytes 03 C1 12 34 56; flags marked invalid: off
ipmb 000805E03C00000A => boot device: floppy, each time, EFI; other flags: bytes 00 00 00 00 0A; flags marked invalid: off
smbus 0231030003FBFF => numeric effecter 3: -5 (sint16)
smbus 0231030005FBFFFFFF => numeric effecter 3: -5 (sint32)
smbus 0231030004FFFFFFFF => numeric effecter 3: 4294967295 (uint32)
smbus 0231030002E803 => numeric effecter 3: 1000 (uint16)
smbus 023103000701 => numeric effecter 3: 1 (unknown size 7, 1 bytes)
smbus 023907000200000205 => state effecter 7 field 2: 5 (choice 02h)
smbus 023907000100FF => state effecter 7: no change
ipmb 184502225C0A7F410000000000000000000000 => user 2 name: "\x22\x5C\x0A\x7FA"
ipmb 18450241004200000000000000000000000000 => user 2 name: "A\x00B"
ipmb 18450200000000000000000000000000000000 => user 2 name: ""
ipmb 1843010204 => user 2 on channel 1 privilege limit: administrator
ipmb 1843E1020305 => user 2 on channel 1 privilege limit: operator; restricted to callback: on; link authentication: on; IPMI messaging: off; session limit: 5
ipmb 1840010083 => channel 1 volatile privilege limit: operator
ipmb 184001BA84 => channel 1 volatile access mode: always available; user level authentication: off; per-message authentication: off; PEF alerting: off; privilege limit: administrator
ipmb 3001010402 => channel 1 IP address source: DHCP
ipmb 30010106FFFFFF00 => channel 1 subnet mask: 255.255.255.0
ipmb 3001010C0A0000FE => channel 1 default gateway address: 10.0.0.254
ipmb 300101146481 => channel 1 802.1q VLAN: on; 802.1q VLAN ID: 356
smbus 0307000000000501000106007261636B2D31 => attribute 1: "rack-1"
smbus 03070000000005000000020002 => attribute 0: indexes 0 2
smbus 030700000000050900070102 => attribute 9: type 7 bytes 01 02
"#;

/// Operations over what a Get showed, whose data stand behind the request.
const OVER: &str = r#"
ipmb 10260510000000005A00 3F050301505F6E => sensor 5 upper critical: 95 (5Fh) -> 90 (5Ah)
ipmb 10260510000000005F00 3F050301505F6E => sensor 5 thresholds: no change
ipmb 10260518000000505A00 3F050301505F6E => sensor 5 upper critical: 95 (5Fh) -> 90 (5Ah)
ipmb 10260538000000465A63 3F050301505F6E => sensor 5 upper non-critical: 80 (50h) -> 70 (46h); upper critical: 95 (5Fh) -> 90 (5Ah); upper non-recoverable: 110 (6Eh) -> 99 (63h)
ipmb 102405FF0102 0103 => sensor 5 negative-going hysteresis: 3 (03h) -> 2 (02h)
ipmb 102805D003000000 C001000000 => sensor 5 enable assertion events: 0002h
ipmb 102805D001000000 C001000000 => sensor 5 event enable: no change
ipmb 102805A001000000 C003000000 => sensor 5 scanning: on -> off; disable assertion events: 0001h
ipmb 000602 000000 => power restore policy: always off -> always on
ipmb 182404310500B004 043105002C010000 => watchdog timer initial countdown in 100 ms: 300 -> 1200
ipmb 182E08 00 => BMC global enables system event logging: off -> on
ipmb 0008058004000000 0105E008000000 => boot device: disk, each time, EFI -> pxe, once, BIOS
ipmb 0008058004000000 01858004000001 => boot other flags: bytes 00 00 00 00 01 -> bytes 00 00 00 00 00; flags marked invalid: on -> off
ipmb 0008040301 01040000 => boot info acknowledge: bits 00h of 03h -> bits 01h of 03h
smbus 0231030000FA 00016464 => numeric effecter 3: 100 (uint8) -> 250 (uint8)
smbus 02390700010103 01010202 => state effecter 7 field 1: 2 -> 3
ipmb 1845026F707300000000000000000000000000 61646D696E0000000000000000000000 => user 2 name: "admin" -> "ops"
ipmb 184391020F 0A420113 => user 2 on channel 1 privilege limit: operator -> no access
ipmb 1840014200 0104 => channel 1 non-volatile access mode: pre-boot only -> always available
ipmb 30010103C0A80001 110A000001 => channel 1 IP address: 10.0.0.1 -> 192.168.0.1
smbus 030700000000050200032800000000000000 00000000050200031E00000000000000 => attribute 2: 30 -> 40
smbus 030700000000050200032800000000000000 00000000050200032800000000000000 => attribute 2: no change
smbus 0307000000000501000106007261636B2D31 0000000005010001010022 => attribute 1: "\x22" -> "rack-1"
"#;

/// The records of operations, and what is said of each whose value changes from the first bytes to the others.
const VALUES: &str = r#"
ipmb 10260510000000005A00 050301505F6E 050301505A6E => sensor 5 upper critical: 95 (5Fh) -> 90 (5Ah)
ipmb 102405FF0102 0102 0203 => sensor 5 positive-going hysteresis: 1 (01h) -> 2 (02h); negative-going hysteresis: 2 (02h) -> 3 (03h)
ipmb 102805C0 C001000000 8003000000 => sensor 5 scanning: on -> off; assertion events: 0001h -> 0003h
ipmb 000600 00 03 => power restore policy: always off -> unknown
ipmb 182404310500B004 043105B004 053105B004 => watchdog timer use: SMS/OS -> OEM
ipmb 182E08 00 08 => BMC global enables system event logging: off -> on
ipmb 0008058004000000 008004000000 018008000000 => boot device: pxe, once, BIOS -> disk, once, BIOS; flags marked invalid: off -> on
ipmb 00080309 0009 0008 => boot flag valid bit clearing: 09h -> 08h
ipmb 0008040301 0001 0101 => boot info acknowledge marked invalid: off -> on
smbus 0231030000FA 64 FA => numeric effecter 3: 100 -> 250
smbus 02390700010103 0102 0103 => state effecter 7 field 2: 2 -> 3
ipmb 1845026F707300000000000000000000000000 61646D696E0000000000000000000000 6F707300000000000000000000000000 => user 2 name: "admin" -> "ops"
ipmb 1843010204 13 24 => user 2 on channel 1 privilege limit: operator -> administrator; link authentication: off -> on; IPMI messaging: on -> off
ipmb 1840014200 0204 0303 => channel 1 non-volatile access mode: always available -> shared; privilege limit: administrator -> operator
ipmb 300101146480 6480 6500 => channel 1 802.1q VLAN: on -> off; 802.1q VLAN ID: 100 -> 101
ipmb 3001010402 01 02 => channel 1 IP address source: static -> DHCP
smbus 030700000000050200032800000000000000 1E00000000000000 2800000000000000 => attribute 2: 30 -> 40
ipmb 000600 02 02 => power restore policy: no change
"#;

/// The records of operations, and their names.
const NAMES: &str = r#"
ipmb 10260510000000005A00 => sensor 5 thresholds
ipmb 102405FF0102 => sensor 5 hysteresis
ipmb 102805C0 => sensor 5 event enable
ipmb 000600 => power restore policy
ipmb 182404310500B004 => watchdog timer
ipmb 182E08 => BMC global enables
ipmb 00080309 => boot flag valid bit clearing
ipmb 0008040301 => boot info acknowledge
ipmb 0008058004000000 => boot flags
smbus 0231030000FA => numeric effecter 3
smbus 02390700010103 => state effecter 7
ipmb 18450200000000000000000000000000000000 => user 2 name
ipmb 1843010204 => user 2 access on channel 1
ipmb 1840014200 => channel 1 non-volatile access
ipmb 1840010083 => channel 1 volatile access
ipmb 18400100C3 => channel 1 unnamed access
smbus 030700000000050200032800000000000000 => attribute 2
ipmb 30010103C0A80001 => LAN parameter 3 of channel 1
"#;

/// The list of one request: a bus, and the digits behind it.
pub(super) fn list_of(rt: &impl Abort, alloc: Global, bus: &str, digits: &str) -> UndoList {
    let text = format!(in alloc; "undo 1\nnext ipmb 4 smbus 0\n{bus} {digits}\n");
    let text = text.expect(rt, "memory");
    let list = read_undo(alloc, text.as_str());
    drop(text);
    list.expect(rt, "a request")
}

/// The bytes of hexadecimal digits.
pub(super) fn bytes_of(rt: &impl Abort, alloc: Global, digits: &str) -> Vec<u8> {
    let bytes = text_lines::bytes(alloc, digits).expect(rt, "memory");
    bytes.expect(rt, "digits")
}

/// What a line tells of.
#[derive(Clone, Copy)]
enum Tells {
    Undone,
    Alone,
    Over,
    Values,
    Name,
}

/// The operation over what the Get showed, in words.
fn over<'a>(rt: &impl Abort, alloc: Global, op: &Op<'a>, shown: &'a [u8]) -> String {
    let before = Limits::inverse(op, shown).expect(rt, "an inverse");
    let line = op_in_words(Way::There, op, Some(&before));
    let text = format!(in alloc; "{line}");
    drop(line);
    drop(before);
    text.expect(rt, "memory")
}

/// The record whose value changes from these bytes to those, in words.
fn changed(rt: &impl Abort, alloc: Global, op: &Op<'_>, digits: &str) -> String {
    let (first, second) = digits.split_once(' ').expect(rt, "two values");
    let old = bytes_of(rt, alloc, first);
    let new = bytes_of(rt, alloc, second);
    let key = Limits::key(op);
    let kind = match op {
        Op::BiosAttribute(set) => set.attribute_type,
        _ => 0,
    };
    let line = change_in_words(&key, kind, old.as_slice(), new.as_slice());
    let text = format!(in alloc; "{line}");
    drop(line);
    drop(new);
    drop(old);
    text.expect(rt, "memory")
}

/// What is told of a request, of what a Get showed, and of the bytes behind it.
fn told<'a>(
    rt: &impl Abort,
    alloc: Global,
    tells: Tells,
    request: &'a UndoRequest<'a>,
    shown: &'a [u8],
    rest: &str,
) -> String {
    if let Tells::Undone = tells {
        let line = undo_in_words(request);
        let text = format!(in alloc; "{line}");
        drop(line);
        return text.expect(rt, "memory");
    }
    let op = undone_op(request).expect(rt, "an operation");
    let text = match tells {
        Tells::Over => over(rt, alloc, &op, shown),
        Tells::Values => changed(rt, alloc, &op, rest),
        Tells::Name => {
            let name = RecordName(Limits::key(&op));
            format!(in alloc; "{name}").expect(rt, "memory")
        }
        Tells::Alone | Tells::Undone => {
            let line = op_in_words(Way::There, &op, None);
            let text = format!(in alloc; "{line}");
            drop(line);
            text.expect(rt, "memory")
        }
    };
    drop(op);
    text
}

/// What a Get showed, where the operation is told over that.
fn shown_by(rt: &impl Abort, alloc: Global, tells: Tells, digits: &str) -> Vec<u8> {
    match tells {
        Tells::Over => bytes_of(rt, alloc, digits),
        _ => Vec::new(alloc),
    }
}

/// The request of these words, and what is told of it.
fn told_of(rt: &impl Abort, alloc: Global, tells: Tells, words: &str) -> String {
    let (bus, behind) = words.split_once(' ').expect(rt, "a bus");
    let (digits, rest) = behind.split_once(' ').unwrap_or((behind, ""));
    let shown = shown_by(rt, alloc, tells, rest);
    let list = list_of(rt, alloc, bus, digits);
    let request = list.requests.get(0).expect(rt, "a request");
    let said = told(rt, alloc, tells, &request, shown.as_slice(), rest);
    drop(request);
    drop(list);
    drop(shown);
    said
}

/// Each line tells what it says of its request.
fn expect_said(rt: &impl Abort, alloc: Global, tells: Tells, lines: &str) {
    for line in lines.lines() {
        if let Some((words, wanted)) = line.split_once(" => ") {
            let said = told_of(rt, alloc, tells, words);
            expect_equal(rt, said.as_str(), wanted);
            drop(said);
        }
    }
}

#[test]
fn requests_that_undo_are_read_back(rt: HostRuntime) {
    expect_said(&rt, rt.alloc(), Tells::Undone, UNDONE);
}

#[test]
fn operations_are_said(rt: HostRuntime) {
    expect_said(&rt, rt.alloc(), Tells::Alone, ALONE);
}

#[test]
fn operations_are_said_over_what_a_get_showed(rt: HostRuntime) {
    expect_said(&rt, rt.alloc(), Tells::Over, OVER);
}

#[test]
fn changed_records_are_said(rt: HostRuntime) {
    expect_said(&rt, rt.alloc(), Tells::Values, VALUES);
}

#[test]
fn records_are_named(rt: HostRuntime) {
    expect_said(&rt, rt.alloc(), Tells::Name, NAMES);
}
