//! The kinds of step: what names them, the tables of their fields, and what a step of each asks for. `docs/PLAN_FILES.md` says
//! what each means.
ghost use Rattle.std.specs.Prelude.{◌≡◌};
ghost use Rattle.toml.specs.View.{table_view};
ghost use Rattle.plan_file.specs.Kinds.{of_kind, kind_of, kind_in};

mod bios_attribute;
mod boot_param;
mod channel_access;
mod event_enable;
mod global_enables;
mod hysteresis;
mod lan_param;
mod numeric_effecter;
mod power_policy;
mod state_effecter;
mod thresholds;
mod user_access;
mod user_name;
mod watchdog;

use record_base::Op;
use record_base::attribute_sizes::MOST_SENT;
use text_fields::tree::has_text;
use text_fields::{Checked, Field, Need, Row, Shape};
use toml::Table;
use two_wire::Bytes;

/// A kind of step, by the kind of record that it changes.
#[derive(Clone, Copy)]
pub enum Kind {
    Thresholds,
    Hysteresis,
    EventEnable,
    Watchdog,
    PowerPolicy,
    GlobalEnables,
    BootParam,
    BiosAttribute,
    StateEffecter,
    NumericEffecter,
    UserName,
    UserAccess,
    ChannelAccess,
    LanParam,
}

/// The kinds, a line for each: its name, its module, and what a step's `kind` calls it.
macro_rules! of_each_kind {
    ($does:ident $how:tt) => {
        $does! { $how
            Thresholds thresholds "thresholds"
            Hysteresis hysteresis "hysteresis"
            EventEnable event_enable "event-enable"
            Watchdog watchdog "watchdog"
            PowerPolicy power_policy "power-policy"
            GlobalEnables global_enables "global-enables"
            BootParam boot_param "boot-param"
            BiosAttribute bios_attribute "bios-attribute"
            StateEffecter state_effecter "state-effecter"
            NumericEffecter numeric_effecter "numeric-effecter"
            UserName user_name "user-name"
            UserAccess user_access "user-access"
            ChannelAccess channel_access "channel-access"
            LanParam lan_param "lan-param"
        }
    };
}

/// Each kind, in the order of their lines.
macro_rules! kinds {
    (() $($kind:ident $module:ident $word:literal)*) => {
        [$(Kind::$kind),*]
    };
}

/// The kind's word.
macro_rules! word {
    (($any:expr) $($kind:ident $module:ident $word:literal)*) => {
        match $any {
            $(Kind::$kind => $word,)*
        }
    };
}

/// The fields of the kind's steps.
macro_rules! rows {
    (($any:expr) $($kind:ident $module:ident $word:literal)*) => {
        match $any {
            $(Kind::$kind => &$module::FIELDS,)*
        }
    };
}

/// What a step of the kind with this module makes of its record. The value of an attribute alone needs room.
macro_rules! read {
    (bios_attribute $step:expr, $room:expr) => {
        bios_attribute::read($step, $room)
    };
    ($module:ident $step:expr, $room:expr) => {
        $module::read($step)
    };
}

/// The change that a step of the kind asks for.
macro_rules! change {
    (($any:expr, $step:expr, $room:expr) $($kind:ident $module:ident $word:literal)*) => {
        match $any {
            $(Kind::$kind => Op::$kind(read!($module $step, $room)),)*
        }
    };
}

/// The kind that makes the change.
macro_rules! kind_of {
    (($op:expr) $($kind:ident $module:ident $word:literal)*) => {
        match $op {
            $(Op::$kind(_) => Kind::$kind,)*
        }
    };
}

/// All kinds of step.
pub const KINDS: [Kind; 14] = of_each_kind!(kinds());

/// The field of a step that names its kind.
pub const KIND: [Row; 1] = [Row(Field::Kind, Shape::Text, Need::Always)];

impl Kind {
    /// The kind of the steps that make such a change.
    pub fn of(op: &Op<'_>) -> Kind
        ensures { result ≡ kind_of op.now }
    {
        of_each_kind!(kind_of(op))
    }

    /// What a step's `kind` calls it.
    pub fn word(&self) -> &'static str
        ensures { result.now ≡ (of_kind self.now).word }
    {
        of_each_kind!(word(self))
    }

    /// The fields of its steps.
    pub fn rows(&self) -> &'static [Row]
        ensures { result.now ≡ (of_kind self.now).rows }
    {
        of_each_kind!(rows(self))
    }

    /// The change that a step of this kind asks for. What it gives to an attribute is written to `room`.
    pub fn change<'v>(&self, step: &Checked<'_>, room: &'v mut Bytes<{ MOST_SENT }>) -> Op<'v>
        requires { step.now.rows.now ≡ (of_kind self.now).rows }
        ensures { (of_kind self.now).Holds (table_view step.now.table.now) result }
    {
        of_each_kind!(change(self, step, room))
    }
}

/// The kind that the step names.
#[tactic(auto, unfolding(crate::specs::Kinds::kind_in))]
pub fn kind_in(step: &Table) -> Option<Kind>
    ensures { result ≡ kind_in (table_view step.now) }
{
    KINDS
        .iter()
        .copied()
        .find(|kind| has_text(step, Field::Kind, kind.word()))
}
