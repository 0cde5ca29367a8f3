//! The watchdog timer, as a kind of record.
ghost use Rattle.std.specs.Prelude.{◌≡◌, ◌+◌, ◌%◌, ◌≤◌, ◌++◌, length};
ghost use Rattle.std.specs.Option.{SomeIff};
ghost use Rattle.record_base.specs.Watchdog.{IsWatchdog};
ghost use Rattle.watch_boot.specs.Watchdog.{kept_use, kept_actions, is_accepted, live_after_set, watchdog_body, watchdog_in, shown_use, watchdog_view, WasSet, live_after_reset, live_after_tick};

use record_base::mask::has;
use record_base::net_fn::APPLICATION;
use record_base::{
    Asked, CommandReader, Key, Live, Op, RecordData, RecordKind, SetWatchdog, Value, byte_at,
};
use two_wire::code::INVALID_DATA_FIELD;
use two_wire::{Buffer, Code, NetFn};

/// The number of the Set command.
const SET_WATCHDOG_TIMER: u8 = 0x24;

/// The number of the Get command.
const GET_WATCHDOG_TIMER: u8 = 0x25;

/// The bit of a timer use byte that means "don't stop" in a Set, and "running" in a Get reply.
const RUNNING_PLACE: usize = 6;

/// A Set can set any settings with a known use, interrupt and action.
#[derive(Clone, Copy)]
pub struct WatchdogLimits;

/// The bits of a timer use byte that a Set keeps: don't log in bit 7 and the use in bits 2:0.
fn kept_use(timer_use: u8) -> u8
    ensures { result ≡ kept_use timer_use }
{
    timer_use & 0x87
}

/// The bits of an actions byte that a Set keeps: the interrupt in bits 6:4 and the action in bits 2:0.
fn kept_actions(actions: u8) -> u8
    ensures { result ≡ kept_actions actions }
{
    actions & 0x77
}

/// Whether the bytes have a use from 1 to 5, and an interrupt and an action of at most 3.
fn is_accepted(op: &SetWatchdog) -> bool
    ensures { result ≡ is_accepted op.now }
{
    let timer_use = op.timer_use & 0x07;
    let interrupt = (op.actions >> 4) & 0x07;
    let action = op.actions & 0x07;
    matches!(timer_use, 1..=5) && interrupt <= 3 && action <= 3
}

/// Changes the timer's state as the operation does.
fn live_after_set(op: &SetWatchdog, live: &mut Live)
    ensures { live.new ≡ live_after_set op.now live.old }
{
    live.countdown = op.initial;
    live.expired &= !op.flags_to_clear;
    live.running = live.running && has(op.timer_use, RUNNING_PLACE);
}

/// The data of the request that carries out the operation.
fn body(op: &SetWatchdog) -> RecordData
    ensures value { result ≡ watchdog_body op.now }
    ensures six { length result ≡ 6 }
{
    let [low, high] = op.initial.to_le_bytes();
    RecordData::from_slice(&[
        op.timer_use,
        op.actions,
        op.pre_timeout,
        op.flags_to_clear,
        low,
        high,
    ])
}

/// The operation with these data.
fn watchdog_in(body: &[u8]) -> SetWatchdog
    ensures { result ≡ watchdog_in body.now }
{
    SetWatchdog {
        timer_use: byte_at(body, 0),
        actions: byte_at(body, 1),
        pre_timeout: byte_at(body, 2),
        flags_to_clear: byte_at(body, 3),
        initial: u16::from_le_bytes([byte_at(body, 4), byte_at(body, 5)]),
    }
}

/// The timer use byte of a Get reply: bit 6 says whether the timer runs.
fn shown_use(timer_use: u8, running: bool) -> u8
    requires { timer_use % 128 ≤ 5 }
    ensures { result ≡ shown_use timer_use running }
{
    if running {
        timer_use | 1 << RUNNING_PLACE
    } else {
        timer_use
    }
}

/// Appends the data of the Get reply.
fn show<B: Buffer>(value: &[u8], live: &Live, reply: &mut B)
    requires is_valid { IsWatchdog value.now }
    requires room { length (B.bytes reply.old)
        + length (watchdog_view value.now live.now) ≤ B.capacity }
    ensures { B.bytes reply.new ≡ B.bytes reply.old ++ watchdog_view value.now live.now }
{
    let [low, high] = live.countdown.to_le_bytes();
    reply.extend_from_slice(&[
        shown_use(value[0], live.running),
        value[1],
        value[2],
        live.expired,
        value[3],
        value[4],
        low,
        high,
    ]);
}

/// The timer's state after Reset Watchdog Timer: the countdown begins anew and the timer runs. None where the settings have no use.
pub fn live_after_reset(value: &[u8], live: &Live) -> Option<Live>
    requires { IsWatchdog value.now }
    ensures { SomeIff result (WasSet value.now) (live_after_reset value.now live.now) }
{
    if value[0] & 0x07 == 0 {
        return None;
    }
    Some(Live {
        chassis: live.chassis,
        countdown: u16::from_le_bytes([value[3], value[4]]),
        expired: live.expired,
        running: true,
        enabled_users: live.enabled_users,
    })
}

/// Changes the timer's state as a tenth of a second does, by the settings.
pub fn live_after_tick(value: &[u8], live: &mut Live)
    ensures { live.new ≡ live_after_tick value.now live.old }
{
    if !live.running {
        return;
    }
    live.countdown = live.countdown.saturating_sub(1);
    if live.countdown == 0 {
        live.running = false;
        live.expired |= 1 << (byte_at(value, 0) % 8);
    }
}

impl CommandReader for WatchdogLimits {
    ghost use Rattle.watch_boot.specs.WatchdogKind as watchdog;

    ghost reader = { watchdog.reader };

    #[inline(always)]
    fn key_in(_body: &[u8]) -> Key {
        Key::Watchdog
    }

    #[inline(always)]
    fn op_in(body: &[u8]) -> Op<'_> {
        Op::Watchdog(watchdog_in(body))
    }
}

impl<'a> RecordKind<'a> for WatchdogLimits {
    ghost use Rattle.watch_boot.specs.WatchdogKind as watchdog;

    type Key = ();

    type Op = SetWatchdog;

    ghost kind = { watchdog.kind };

    fn key(_op: &SetWatchdog) -> Key {
        Key::Watchdog
    }

    #[inline(always)]
    fn apply(&self, op: &SetWatchdog, _value: &[u8], new: &mut Value) -> Result<(), Code> {
        if !is_accepted(op) {
            return Err(INVALID_DATA_FIELD);
        }
        let [low, high] = op.initial.to_le_bytes();
        let timer_use = kept_use(op.timer_use);
        let actions = kept_actions(op.actions);
        new.replace(&[timer_use, actions, op.pre_timeout, low, high]);
        Ok(())
    }

    fn set_reply<B: Buffer>(_op: &SetWatchdog, _reply: &mut B) {}

    fn next_live(op: &SetWatchdog, live: &mut Live) {
        live_after_set(op, live);
    }

    fn get_data<B: Buffer>(&self, value: &[u8], live: &Live, reply: &mut B) {
        show(value, live, reply);
    }

    fn get_asked(_key: &()) -> Asked {
        Asked::ipmi(NetFn::new(APPLICATION), GET_WATCHDOG_TIMER, &[])
    }

    fn set_data(op: &SetWatchdog) -> RecordData {
        body(op)
    }

    fn set_asked(op: &SetWatchdog) -> Asked {
        let body = body(op);
        Asked::ipmi(NetFn::new(APPLICATION), SET_WATCHDOG_TIMER, body.as_slice())
    }

    fn inverse(_op: &SetWatchdog, get_data: &'a [u8]) -> Option<SetWatchdog> {
        let [timer_use, actions, pre_timeout, _, low, high, _, _] = get_data else {
            return None;
        };
        let used = timer_use & 0x07;
        if has(*timer_use, RUNNING_PLACE) || used == 0 || used > 5 {
            return None;
        }
        Some(SetWatchdog {
            timer_use: kept_use(*timer_use),
            actions: kept_actions(*actions),
            pre_timeout: *pre_timeout,
            flags_to_clear: 0,
            initial: u16::from_le_bytes([*low, *high]),
        })
    }
}
