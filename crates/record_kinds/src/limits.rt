//! The kinds of record, a line for each kind: the limits of its records, and whether its commands name the record and the operation by
//! their data alone.
ghost use Rattle.std.specs.Prelude.{◌≡◌};
ghost use Rattle.record_kinds.specs.Limits.{reader_of};

use crate::setup::Setup;
use bios_attr::*;
use cfg_records::{Asked, CommandReader, Key, Live, Op, RecordData, RecordKind, Value};
use effecter_recs::*;
use sensor_recs::*;
use two_wire::{Buffer, Code};
use user_chan::*;
use watch_boot::*;

/// A kind of record with one command to show a record and one command to change it. Each command names the record and the change by its
/// data alone, and any data name some.
#[derive(Clone, Copy)]
pub enum PlainKind {
    Thresholds,
    Hysteresis,
    EventEnable,
    /// Get Chassis Status shows the policy, and Set Power Restore Policy changes it.
    PowerPolicy,
    Watchdog,
    GlobalEnables,
    NumericEffecter,
    StateEffecter,
    UserName,
    UserAccess,
}

/// The plain kinds, a line for each kind: its name, its limits, its keys, and the limits of a key's record, by the item that the set-up has
/// for the key where they depend on one.
#[macro_export]
macro_rules! of_each_plain_kind {
    ($does:ident $how:tt) => {
        $does! { $how
            Thresholds sensor_recs::ThresholdLimits {Key::Thresholds(n) => n; at => at.sensor(*n); sensor => ThresholdLimits::of(sensor)}
            Hysteresis sensor_recs::HysteresisLimits {Key::Hysteresis(n) => n; at => at.sensor(*n); sensor => HysteresisLimits::of(sensor)}
            EventEnable sensor_recs::EventEnableLimits {Key::EventEnable(n) => n; at => at.sensor(*n); sensor => EventEnableLimits::of(sensor)}
            PowerPolicy watch_boot::PowerPolicyLimits {Key::PowerPolicy => &(); PowerPolicyLimits}
            Watchdog watch_boot::WatchdogLimits {Key::Watchdog => &(); WatchdogLimits}
            GlobalEnables watch_boot::GlobalEnablesLimits {Key::GlobalEnables => &(); GlobalEnablesLimits}
            NumericEffecter effecter_recs::NumericLimits {Key::NumericEffecter(id) => id; at => at.numeric_effecter(*id); effecter => NumericLimits::of(effecter)}
            StateEffecter effecter_recs::StateLimits {Key::StateEffecter(id) => id; at => at.state_effecter(*id); effecter => StateLimits::of(effecter)}
            UserName user_chan::UserNameLimits {Key::UserName(user) => user; at => at.user(*user); _ => UserNameLimits}
            UserAccess user_chan::UserAccessLimits {Key::UserAccess(on) => on; at => at.user_access(on); _ => UserAccessLimits { user: on.user, most: at.most_users() }}
        }
    };
}

/// The limits of one record. Limits that are a table lie in the board file.
#[derive(Drop)]
pub enum Limits<'f> {
    Thresholds(ThresholdLimits),
    Hysteresis(HysteresisLimits),
    EventEnable(EventEnableLimits),
    PowerPolicy(PowerPolicyLimits),
    Watchdog(WatchdogLimits),
    GlobalEnables(GlobalEnablesLimits),
    BootParam(BootParamLimits),
    NumericEffecter(NumericLimits),
    StateEffecter(StateLimits<'f>),
    UserName(UserNameLimits),
    UserAccess(UserAccessLimits),
    ChannelAccess(ChannelAccessLimits),
    BiosAttribute(AttributeLimits),
    LanParam(LanParamLimits),
}

/// The plain kinds, and a line for each other kind.
macro_rules! of_all_kinds {
    ([$does:ident $how:tt] $($plain:tt)*) => {
        $does! { $how
            $($plain)*
            BootParam watch_boot::BootParamLimits {Key::BootParam(parameter) => parameter; BootParamLimits { parameter: *parameter }}
            ChannelAccess user_chan::ChannelAccessLimits {Key::ChannelAccess(stored) => stored; at => at.stored_access(stored); _ => ChannelAccessLimits}
            BiosAttribute bios_attr::AttributeLimits {Key::BiosAttribute(handle) => handle; at => at.attribute(*handle); attribute => AttributeLimits::of(*handle, attribute)}
            LanParam user_chan::LanParamLimits {Key::LanParam(on) => on; at => at.lan(on.channel); _ => LanParamLimits { parameter: on.parameter }}
        }
    };
}

/// The kinds, as `of_each_plain_kind!` has them.
macro_rules! of_each_kind {
    ($does:ident $how:tt) => {
        of_each_plain_kind!(of_all_kinds [$does $how])
    };
}

/// A call of a kind's function, with these arguments after the first.
macro_rules! call {
    ($function:ident $first:ident ($($more:expr),*) $limits:ty) => {
        <$limits>::$function($first $(, $more)*)
    };
}

/// A call of the record's kind, by the record's limits.
macro_rules! by_limits {
    ([$any:expr, $function:ident $more:tt] $($kind:ident $limits:ty {$($key:tt)*})*) => {
        match $any {
            $(Limits::$kind(limits) => call!($function limits $more $limits),)*
        }
    };
}

/// A call of the record's kind with an operation of the kind, by the record's limits.
macro_rules! by_both {
    ([$any:expr, $op:expr, $value:expr, $new:expr] $($kind:ident $limits:ty {$($key:tt)*})*) => {
        match $any {
            $(Limits::$kind(limits) => match $op {
                Op::$kind(op) => limits.apply(op, $value, $new),
                _ => unreachable!(),
            },)*
        }
    };
}

/// A call of the operation's kind.
macro_rules! by_op {
    ([$op:expr, $function:ident $more:tt] $($kind:ident $limits:ty {$($key:tt)*})*) => {
        match $op {
            $(Op::$kind(op) => call!($function op $more $limits),)*
        }
    };
}

/// The operation of its kind that the operation's kind gives, if it gives one.
macro_rules! op_by_op {
    ([$op:expr, $function:ident $more:tt] $($kind:ident $limits:ty {$($key:tt)*})*) => {
        match $op {
            $(Op::$kind(op) => match call!($function op $more $limits) {
                Some(made) => Some(Op::$kind(made)),
                None => None,
            },)*
        }
    };
}

/// A call of the key's kind.
macro_rules! by_key {
    ([$any:expr, $function:ident] $($kind:ident $limits:ty {$key:pat => $own:expr; $($found:tt)*})*) => {
        match $any {
            $($key => <$limits>::$function($own),)*
        }
    };
}

/// The limits of a kind's record: those that any set-up gives, or those that the item gives which the set-up has for the record.
macro_rules! limits_of {
    ($setup:ident, $kind:ident, $made:expr) => {
        Some(Limits::$kind($made))
    };
    ($setup:ident, $kind:ident, $at:ident => $item:expr; $found:pat => $made:expr) => {{
        let $at = $setup;
        match $item {
            Some($found) => Some(Limits::$kind($made)),
            None => None,
        }
    }};
}

/// The limits of the key's record, in this set-up.
macro_rules! limits_at {
    ([$any:expr, $setup:ident] $($kind:ident $limits:ty {$key:pat => $own:expr; $($made:tt)*})*) => {
        match $any {
            $($key => limits_of!($setup, $kind, $($made)*),)*
        }
    };
}

/// The record that the data of the kind's Get name.
macro_rules! named {
    ([$any:expr, $body:expr] $($kind:ident $limits:ty {$($key:tt)*})*) => {
        match $any {
            $(PlainKind::$kind => <$limits as CommandReader>::key_in($body),)*
        }
    };
}

impl PlainKind {
    /// The record that the data of its Get name.
    #[inline(always)]
    pub fn key_in(self, body: &[u8]) -> Key
        ensures { result ≡ (reader_of self).key_in body.now }
    {
        of_each_plain_kind!(named [self, body])
    }
}

impl Setup {
    ghost use Rattle.record_kinds.specs.Limits.{limits_at};

    /// The limits of the key's record.
    #[inline(always)]
    pub fn limits(&self, key: &Key) -> Option<Limits<'_>>
        ensures { result ≡ limits_at self.now key.now }
    {
        of_each_kind!(limits_at [key, self])
    }
}

impl Limits<'_> {
    ghost use Rattle.std.specs.Prelude.{◌≡◌, ◌+◌, ◌≤◌, ◌++◌, length};
    ghost use Rattle.record_kinds.specs.Limits.{valid, view};
    ghost use Rattle.record_kinds.specs.Series.{first_shown};

    /// Appends what the first reply to a Get shows of this value: the whole data, or the first part of a long attribute's entry.
    pub fn get_first<B: Buffer>(&self, value: &[u8], live: &Live, reply: &mut B)
        requires is_valid { valid self.now value.now }
        requires room { length (B.bytes reply.old)
            + length (first_shown self.now (view self.now value.now live.now)) ≤ B.capacity }
        ensures { B.bytes reply.new
            ≡ B.bytes reply.old ++ first_shown self.now (view self.now value.now live.now) }
    {
        match self {
            Limits::BiosAttribute(own) => own.show_first(value, reply),
            _ => self.get_data(value, live, reply),
        }
    }
}

impl<'a, 'f> RecordKind<'a> for Limits<'f> {
    ghost use Rattle.std.specs.Prelude.{◌≡◌, ◌+◌, ◌≤◌, ◌++◌, length};
    ghost use Rattle.record_kinds.specs.LimitsKind as all;

    type Key = Key;

    type Op = Op<'a>;

    ghost kind = { all.kind };

    fn key(op: &Op<'a>) -> Key
        ensures { result ≡ all.kind.words.name (all.kind.words.key_of op.now) }
    {
        of_each_kind!(by_op [op, key()])
    }

    fn apply(&self, op: &Op<'a>, value: &[u8], new: &mut Value) -> Result<(), Code> {
        of_each_kind!(by_both [self, op, value, new])
    }

    fn set_reply<B: Buffer>(op: &Op<'a>, reply: &mut B)
        requires room { length (B.bytes reply.old)
            + length (all.kind.words.set_reply op.now) ≤ B.capacity }
        ensures { B.bytes reply.new ≡ B.bytes reply.old ++ all.kind.words.set_reply op.now }
    {
        of_each_kind!(by_op [op, set_reply(reply)])
    }

    fn next_live(op: &Op<'a>, live: &mut Live)
        ensures { live.new ≡ all.kind.words.next_live op.now live.old }
    {
        of_each_kind!(by_op [op, next_live(live)])
    }

    fn get_data<B: Buffer>(&self, value: &[u8], live: &Live, reply: &mut B)
        requires is_valid { (all.kind.record_words self.now).valid value.now }
        requires room { length (B.bytes reply.old)
            + length ((all.kind.record_words self.now).view value.now live.now) ≤ B.capacity }
        ensures { B.bytes reply.new
            ≡ B.bytes reply.old ++ (all.kind.record_words self.now).view value.now live.now }
    {
        of_each_kind!(by_limits [self, get_data(value, live, reply)])
    }

    fn get_asked(key: &Key) -> Asked
        ensures { result ≡ all.kind.words.get_asked key.now }
    {
        of_each_kind!(by_key [key, get_asked])
    }

    fn set_data(op: &Op<'a>) -> RecordData
        ensures { result ≡ all.kind.words.set_data op.now }
    {
        of_each_kind!(by_op [op, set_data()])
    }

    fn set_asked(op: &Op<'a>) -> Asked
        ensures { result ≡ all.kind.words.set_asked op.now }
    {
        of_each_kind!(by_op [op, set_asked()])
    }

    fn inverse(op: &Op<'a>, get_data: &'a [u8]) -> Option<Op<'a>>
        ensures { result ≡ all.kind.words.inverse op.now get_data.now }
    {
        of_each_kind!(op_by_op [op, inverse(get_data)])
    }
}
