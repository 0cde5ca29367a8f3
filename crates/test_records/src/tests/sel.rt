//! Calls of a System Event Log.
use super::{expect, expect_bytes, expect_each};
use sel_log::{FIRST_RECORD, LAST_RECORD, LogRecord, Sel, SelFault};
use std::alloc::Global;
use std::process::Abort;
use two_wire::code;

/// Sensor 5 goes above its upper critical threshold of 5Fh, with a reading of 60h.
const EVENT: [u8; 16] = [
    0, 0, 0x02, 0, 0, 0, 0, 0x20, 0x00, 0x04, 0x01, 0x05, 0x01, 0x59, 0x60, 0x5F,
];

/// The event as the first record, at 04030201h seconds.
const FIRST_EVENT: [u8; 16] = [
    0x01, 0x00, 0x02, 1, 2, 3, 4, 0x20, 0x00, 0x04, 0x01, 0x05, 0x01, 0x59, 0x60, 0x5F,
];

/// Why there is no log of 0, of 1, of 1,024 and of 1,025 records.
fn faults_at(alloc: Global) -> [Option<SelFault>; 4] {
    [
        Sel::new(alloc, 0).err(),
        Sel::new(alloc, 1).err(),
        Sel::new(alloc, 1_024).err(),
        Sel::new(alloc, 1_025).err(),
    ]
}

#[test]
fn a_log_has_1_to_1_024_records(rt: HostRuntime) {
    let too = Some(SelFault::Capacity);
    let wanted = [too, None, None, too];
    expect(
        &rt,
        faults_at(rt.alloc()) == wanted,
        "0, 1, 1,024 and 1,025",
    );
}

/// A log of two records.
fn log(rt: &impl Abort, alloc: Global) -> Sel {
    Sel::new(alloc, 2).ok().expect(rt, "memory")
}

/// An empty log comes to 04030201h seconds, and the event is added.
fn add_event(log: &mut Sel) -> [bool; 3] {
    let is_empty = log.entry(FIRST_RECORD).is_none();
    log.set_time(0x0403_0201);
    log.tick();
    let is_time = log.time() == 0x0403_0201;
    let added = log.add(&LogRecord::from_slice(&EVENT));
    [is_empty, is_time, added == Ok(1)]
}

/// What the log tells of itself once the event is its last.
fn told(log: &Sel) -> [bool; 5] {
    let info = log.info();
    [
        info.count == 1,
        info.free_bytes == 16,
        !info.overflow,
        info.last_clear == 0,
        info.last_add == 0x0403_0201,
    ]
}

/// The log is cleared without a reservation, and then with its first one.
fn clear(log: &mut Sel) -> [bool; 4] {
    [
        log.clear(0) == Err(code::RESERVATION_CANCELED),
        log.reserve() == 1,
        log.clear(1).is_ok(),
        log.info().count == 0,
    ]
}

/// The log shows the event as its last.
fn expect_event(rt: &impl Abort, log: &Sel) {
    let entry = log.entry(LAST_RECORD).expect(rt, "an entry");
    expect_bytes(rt, entry.kept.as_slice(), &FIRST_EVENT);
    expect(rt, entry.next == 0xFFFF, "the last");
}

#[test]
fn an_event_is_added_and_shown_and_a_log_is_cleared(rt: HostRuntime) {
    let mut log = log(&rt, rt.alloc());
    let added = add_event(&mut log);
    expect_each(&rt, &added, "an empty log, the time, the first record");
    expect_event(&rt, &log);
    let told = told(&log);
    expect_each(
        &rt,
        &told,
        "one record, one place, no overflow, never cleared, the time of the last add",
    );
    let cleared = clear(&mut log);
    drop(log);
    expect_each(
        &rt,
        &cleared,
        "no reservation, the first reservation, it clears, nothing is left",
    );
}

/// All reservations but the last are made, and then two more.
fn reserve_all(log: &mut Sel) -> [bool; 4] {
    for _ in 0..0xFFFE {
        let _ = log.reserve();
    }
    [
        log.reserve() == 0xFFFF,
        log.reserve() == 1,
        log.is_reserved(1),
        !log.is_reserved(0xFFFF),
    ]
}

#[test]
fn reservations_pass_over_0000h(rt: HostRuntime) {
    let mut log = log(&rt, rt.alloc());
    let reserved = reserve_all(&mut log);
    drop(log);
    expect_each(
        &rt,
        &reserved,
        "the last, the first again, it holds, one at a time",
    );
}

#[test]
fn the_codes_of_a_log_are_the_standards(rt: HostRuntime) {
    let codes = [
        code::RESERVATION_CANCELED.value(),
        code::OUT_OF_RANGE.value(),
        code::NOT_PRESENT.value(),
    ];
    expect_bytes(&rt, &codes, &[0xC5, 0xC9, 0xCB]);
}
