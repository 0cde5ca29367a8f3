//! Operations and changed records in words.
ghost use Rattle.std.specs.Prelude.{◌≡◌, None, Some};
ghost use Rattle.std.specs.Option.{option_map};
ghost use Rattle.record_words.specs.OpWords as words;

use crate::attribute::{AttributeLine, Valued};
use crate::controller::{boot_param, global_enables, power_policy, watchdog};
use crate::effecters::{numeric, states};
use crate::field::Fields;
use crate::parts::{Line, Parts, Way};
use crate::sensors::{event_enable, hysteresis, thresholds};
use crate::users::{channel_access, lan_param, user_access, user_name};
use crate::values::value_fields;
use record_base::{EventChange, Key, Op, RecordKind, SetBiosAttribute, SetEventEnable};
use record_kinds::Limits;
use std::fmt;

/// What is said in a line: `Display` writes it.
#[derive(Drop)]
pub enum InWords<'a> {
    Fields(Line),
    Attribute(AttributeLine<'a>),
}

impl fmt::Display for InWords<'_> {
    ghost output = { λ it. Some (words.words_of it) };

    fn fmt<W: fmt::Write>(&self, f: &mut fmt::Formatter<W>) -> fmt::Result {
        match self {
            InWords::Fields(line) => write!(f, "{line}"),
            InWords::Attribute(line) => write!(f, "{line}"),
        }
    }
}

/// The fields of an operation. One on an attribute has none.
fn fields_of(op: &Op<'_>) -> Fields
    ensures { result ≡ words.fields_of op.now }
{
    match op {
        Op::Thresholds(set) => thresholds(set),
        Op::Hysteresis(set) => hysteresis(set),
        Op::EventEnable(set) => event_enable(set),
        Op::PowerPolicy(set) => power_policy(set),
        Op::Watchdog(set) => watchdog(set),
        Op::GlobalEnables(set) => global_enables(set),
        Op::BootParam(set) => boot_param(set),
        Op::NumericEffecter(set) => numeric(set),
        Op::StateEffecter(set) => states(set),
        Op::UserName(set) => user_name(set),
        Op::UserAccess(set) => user_access(set),
        Op::ChannelAccess(set) => channel_access(set),
        Op::BiosAttribute(_) => Fields::of(&[]),
        Op::LanParam(set) => lan_param(set),
    }
}

/// The change of enabled events that the other undoes: it enables what that disables, and the other way round. Where the other undoes none, it
/// is the first.
fn undone_by(change: EventChange, back: EventChange) -> EventChange
    ensures { result ≡ words.undone_by change back }
{
    match back {
        EventChange::Enable(less) => EventChange::Disable(less),
        EventChange::Disable(more) => EventChange::Enable(more),
        EventChange::Leave | EventChange::Reserved => change,
    }
}

/// The fields of an operation that another undoes, where that is known. Of events those alone are enabled or disabled that weren't so before.
fn fields_over(op: &Op<'_>, before: &Option<&Op<'_>>) -> Fields
    ensures { result ≡ words.fields_over op.now (option_map (λ it. it.now) before.now) }
{
    match (op, before) {
        (Op::EventEnable(set), Some(Op::EventEnable(back))) => event_enable(&SetEventEnable {
            sensor: set.sensor,
            messages: set.messages,
            scanning: set.scanning,
            change: undone_by(set.change, back.change),
        }),
        _ => fields_of(op),
    }
}

/// The fields that a record had, where they are known.
fn olds(before: &Option<&Op<'_>>) -> Fields
    ensures { result ≡ words.olds (option_map (λ it. it.now) before.now) }
{
    match before {
        Some(op) => fields_of(op),
        None => Fields::of(&[]),
    }
}

/// The value that an attribute had, where it is known.
fn old_value<'a>(before: &Option<&Op<'a>>) -> Option<Valued<'a>>
    ensures { option_map words.meant result
        ≡ words.old_value (option_map (λ it. it.now) before.now) }
{
    match before {
        Some(Op::BiosAttribute(set)) => Some(Valued::given(set)),
        _ => None,
    }
}

/// An operation on an attribute.
fn attribute_line<'a>(
    way: Way,
    set: &SetBiosAttribute<'a>,
    before: &Option<&Op<'a>>,
) -> AttributeLine<'a>
    ensures { words.line_of result
        ≡ words.attribute_op way set.now (option_map (λ it. it.now) before.now) }
{
    AttributeLine {
        attribute: set.attribute,
        way,
        old: old_value(before),
        new: Valued::given(set),
    }
}

/// An operation, over what its record was where that is known: `before` is the operation that brings that back, as `Limits::inverse` gives it.
pub fn op_in_words<'a>(way: Way, op: &Op<'a>, before: Option<&Op<'a>>) -> InWords<'a>
    ensures { words.words_of result
        ≡ words.op_words way op.now (option_map (λ it. it.now) before.entry) }
{
    if let Op::BiosAttribute(set) = op {
        return InWords::Attribute(attribute_line(way, set, &before));
    }
    let was = olds(&before);
    let fields = fields_over(op, &before);
    InWords::Fields(Line {
        record: Limits::key(op),
        parts: Parts::of(way, was.as_slice(), &fields),
    })
}

/// A record whose value changed. `attribute_type` is the type of the attribute, where it's the record of one (DSP0247).
pub fn change_in_words<'a>(
    key: &Key,
    attribute_type: u8,
    old: &'a [u8],
    new: &'a [u8],
) -> InWords<'a>
    ensures { words.words_of result
        ≡ words.change_words key.now attribute_type old.now new.now }
{
    if let Key::BiosAttribute(attribute) = key {
        return InWords::Attribute(AttributeLine {
            attribute: *attribute,
            way: Way::There,
            old: Some(Valued {
                type_code: attribute_type,
                bytes: old,
            }),
            new: Valued {
                type_code: attribute_type,
                bytes: new,
            },
        });
    }
    let was = value_fields(key, old);
    let fields = value_fields(key, new);
    InWords::Fields(Line {
        record: *key,
        parts: Parts::of(Way::There, was.as_slice(), &fields),
    })
}
