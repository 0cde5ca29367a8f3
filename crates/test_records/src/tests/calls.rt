//! Calls of a board, of its tables of commands, and of the kinds of record.
use super::{expect, expect_bytes, expect_equal};
use bmc_board::{Bench, Board, Command, Lengths, NoSensor, Records, is_changing, read_request};
use cfg_records::{Asked, Key, Op, RecordKind, Store, sample_board};
use record_base::{
    AccessStore, BootChange, BootFlags, BootParameter, ChannelChange, ChannelNumber, EventChange,
    EventMasks, FieldChange, FieldChanges, MaskedBits, NumericBytes, SetBiosAttribute,
    SetBootParam, SetChannelAccess, SetEventEnable, SetGlobalEnables, SetHysteresis,
    SetNumericEffecter, SetPowerPolicy, SetStateEffecter, SetThresholds, SetUserAccess,
    SetUserName, SetWatchdog, SixBits,
};
use record_kinds::{Limits, PlainKind};
use std::alloc::Global;
use std::process::Abort;
use two_wire::{Bytes, Lun, NetFn};

/// Upper critical of sensor 5 becomes 5Ah.
const UPPER_CRITICAL: Op<'static> = Op::Thresholds(SetThresholds {
    sensor: 5,
    mask: 0x10,
    values: [0, 0, 0, 0, 0x5A, 0],
});

/// A board with the sample board's records.
fn sample(rt: &impl Abort, alloc: Global) -> Board<Records> {
    let file = sample_board(alloc).expect(rt, "memory");
    Board::of_file(alloc, file).expect(rt, "memory")
}

/// The board carries the request out, and replies so.
fn expect_reply(rt: &impl Abort, board: &mut Board<Records>, asked: &Asked, data: &[u8]) {
    let reply = board.answer(asked);
    expect_equal(rt, reply.code, 0);
    expect_bytes(rt, reply.body.as_slice(), data);
}

#[test]
fn a_board_answers_and_keeps_the_record_and_the_bench_reaches_it(rt: HostRuntime) {
    let mut board = sample(&rt, rt.alloc());
    expect_reply(&rt, &mut board, &Limits::set_asked(&UPPER_CRITICAL), &[]);
    let get = Limits::get_asked(&Key::Thresholds(5));
    let shown = [0x3F, 0x14, 0x0A, 0x05, 0x50, 0x5A, 0x6E];
    expect_reply(&rt, &mut board, &get, &shown);
    let kept = board.store().get(&Key::Thresholds(5));
    expect_bytes(&rt, kept.expect(&rt, "a record"), &shown[1..]);
    let reading = Bench::Reading {
        sensor: 9,
        raw: 0x60,
    };
    let no_sensor = board.bench(reading);
    let tick = board.bench(Bench::Tick);
    drop(board);
    expect_equal(&rt, no_sensor, Err(NoSensor));
    expect_equal(&rt, tick, Ok(()));
}

/// The data of the request that makes upper critical of sensor 5 this.
fn set_data(upper_critical: u8) -> [u8; 8] {
    [5, 0x10, 0, 0, 0, 0, upper_critical, 0]
}

#[test]
fn a_change_is_asked_and_read(rt: HostRuntime) {
    expect_equal(&rt, Limits::key(&UPPER_CRITICAL), Key::Thresholds(5));
    let set = Limits::set_asked(&UPPER_CRITICAL);
    let asked = Asked::Ipmi {
        from: 0,
        net_fn: NetFn::new(4),
        lun: Lun::new(0),
        command: 0x26,
        body: Bytes::from_slice(&set_data(0x5A)),
    };
    expect(&rt, set.is(&asked), "the request");
    expect(&rt, is_changing(&set), "it changes records");
    let (command, body) = read_request(&set);
    let is_set = matches!(command, Ok(Command::Set(PlainKind::Thresholds)));
    expect(&rt, is_set, "the command");
    expect_bytes(&rt, body, &set_data(0x5A));
}

#[test]
fn a_change_is_undone(rt: HostRuntime) {
    let reply = [0x3F, 0x14, 0x0A, 0x05, 0x50, 0x5F, 0x6E];
    let undo = Limits::inverse(&UPPER_CRITICAL, &reply).expect(&rt, "an undo");
    expect_bytes(&rt, Limits::set_data(&undo).as_slice(), &set_data(0x5F));
}

/// The command takes these of the lengths from 0 on: `+` stands for each, and `.` for each other.
fn expect_allowed(rt: &impl Abort, lengths: Lengths, want: &str) {
    let body = [3; 30];
    let mut marks = [b'.'; 30];
    for length in 0..30 {
        if lengths.allow(&body[..length]) {
            marks[length] = b'+';
        }
    }
    expect_bytes(rt, &marks, want.as_bytes());
}

#[test]
fn a_command_takes_the_lengths_of_its_line(rt: HostRuntime) {
    let exactly = "....+.........................";
    expect_allowed(&rt, Lengths::Exactly(4), exactly);
    let between = "..+++++.......................";
    expect_allowed(&rt, Lengths::Between(2, 6), between);
    let at_least = ".+++++++++++++++++++++++++++++";
    expect_allowed(&rt, Lengths::AtLeast(1), at_least);
    let password = "..+...............+...+.......";
    expect_allowed(&rt, Lengths::OneOf(2, 18, 22), password);
    let three_states = ".........+....................";
    expect_allowed(&rt, Lengths::PairsCountedAt(2), three_states);
}

/// The request of the change has these data, in hexadecimal.
fn expect_data(rt: &impl Abort, alloc: Global, op: Op<'_>, want: &str) {
    let data = Limits::set_data(&op);
    let digits = hex::encode_upper(alloc, data.as_slice()).expect(rt, "memory");
    expect_equal(rt, digits.as_str(), want);
    drop(digits);
}

#[test]
fn changes_of_sensors_and_the_watchdog_have_their_data(rt: HostRuntime) {
    expect_data(&rt, rt.alloc(), UPPER_CRITICAL, "0510000000005A00");
    let op = Op::Hysteresis(SetHysteresis {
        sensor: 5,
        positive: 3,
        negative: 1,
    });
    expect_data(&rt, rt.alloc(), op, "05FF0301");
    // The events of offsets 7 and 9, asserted, and of offset 0, deasserted.
    let masks = EventMasks {
        assertions: 0x280,
        deassertions: 0x001,
    };
    let op = Op::EventEnable(SetEventEnable {
        sensor: 5,
        messages: false,
        scanning: true,
        change: EventChange::Enable(masks),
    });
    expect_data(&rt, rt.alloc(), op, "055080020100");
    let op = Op::Watchdog(SetWatchdog {
        timer_use: 0xC4,
        actions: 0x11,
        pre_timeout: 5,
        flags_to_clear: 0x10,
        initial: 6000,
    });
    expect_data(&rt, rt.alloc(), op, "C41105107017");
}

#[test]
fn changes_of_a_board_have_their_data(rt: HostRuntime) {
    let op = Op::PowerPolicy(SetPowerPolicy { policy: 2 });
    expect_data(&rt, rt.alloc(), op, "02");
    let op = Op::GlobalEnables(SetGlobalEnables { byte: 0xE7 });
    expect_data(&rt, rt.alloc(), op, "E7");
    let masked = MaskedBits {
        mask: 0x0F,
        bits: 0x5A,
    };
    let op = Op::BootParam(SetBootParam {
        invalid: true,
        change: BootChange::InfoAcknowledge(masked),
    });
    expect_data(&rt, rt.alloc(), op, "840F5A");
    let flags = BootFlags {
        validity: 0x80,
        device: 0x04,
        console: 1,
        overrides: 2,
        instance: 3,
    };
    let op = Op::BootParam(SetBootParam {
        invalid: false,
        change: BootChange::Flags(flags),
    });
    expect_data(&rt, rt.alloc(), op, "058004010203");
    let op = Op::BootParam(SetBootParam {
        invalid: true,
        change: BootChange::MarkAlone(BootParameter::Flags),
    });
    expect_data(&rt, rt.alloc(), op, "85");
}

#[test]
fn changes_of_users_and_a_channel_have_their_data(rt: HostRuntime) {
    let op = Op::UserAccess(SetUserAccess {
        first: 0x52,
        user: 2,
        limit: 5,
        session_limit: Some(7),
    });
    expect_data(&rt, rt.alloc(), op, "52020507");
    let op = Op::UserName(SetUserName {
        user: 0xC2,
        name: [
            0x72, 0x6F, 0x6F, 0x74, 0, 0, 0, 0, 0, 0, 0, 0, 0, 0, 0, 0xFF,
        ],
    });
    expect_data(&rt, rt.alloc(), op, "C2726F6F740000000000000000000000FF");
    let op = Op::ChannelAccess(SetChannelAccess {
        channel: ChannelNumber::of(2),
        store: AccessStore::Volatile,
        change: ChannelChange::Both(SixBits::of(0x33), SixBits::of(1)),
    });
    expect_data(&rt, rt.alloc(), op, "02B381");
}

#[test]
fn changes_over_pldm_have_their_data(rt: HostRuntime) {
    let op = Op::BiosAttribute(SetBiosAttribute::of(1, 1, &[2, 0, 0x61, 0x62]));
    expect_data(&rt, rt.alloc(), op, "000000000501000102006162");
    let op = Op::NumericEffecter(SetNumericEffecter {
        effecter: 261,
        size: 5,
        value: NumericBytes::Four(0x00, 0x00, 0xFF, 0xFF),
    });
    expect_data(&rt, rt.alloc(), op, "0501050000FFFF");
    let mut changes = FieldChanges::new();
    changes.push(FieldChange {
        choice: 0,
        state: 0,
    });
    changes.push(FieldChange {
        choice: 1,
        state: 3,
    });
    let op = Op::StateEffecter(SetStateEffecter {
        effecter: 9,
        changes,
    });
    expect_data(&rt, rt.alloc(), op, "09000200000103");
}
