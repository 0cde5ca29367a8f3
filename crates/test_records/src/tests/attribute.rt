//! Calls of one attribute, and of what a reply shows of it.
ghost use Rattle.std.specs.Prelude.{◌≡◌};
ghost use Rattle.record_base.specs.declared.attribute_range.AttributeRange.TheVariants as range;

use super::{expect, expect_bytes};
use bios_attr::AttributeLimits;
use bios_attr::bios_attribute::attribute_in;
use cfg_records::{RecordData, RecordKind, Value};
use record_base::{AttributeRange, SetBiosAttribute, TextLengths};

/// The value of the sample board's string.
const VALUE: [u8; 8] = [6, 0, 0x72, 0x61, 0x63, 0x6B, 0x2D, 0x31];

/// Its entry.
const SHOWN: [u8; 16] = [
    0, 0, 0, 0, 5, 1, 0, 1, 6, 0, 0x72, 0x61, 0x63, 0x6B, 0x2D, 0x31,
];

/// The limits of a string that has these lengths.
pub(crate) fn asset(lengths: TextLengths) -> AttributeLimits
    ensures handle { result.handle ≡ 1 }
    ensures text { result.range ≡ range.Text lengths }
{
    AttributeLimits {
        handle: 1,
        read_only: false,
        range: AttributeRange::Text(lengths),
    }
}

#[test]
fn a_set_gives_its_value_and_a_reply_shows_the_entry(rt: HostRuntime) {
    let lengths = TextLengths::new(0, 200).expect(&rt, "lengths");
    let asset = asset(lengths);
    let set = SetBiosAttribute::of(1, 1, &VALUE);
    let mut new = Value::new();
    let done = asset.apply(&set, &[0, 0], &mut new);
    expect(&rt, done.is_ok(), "it is carried out");
    expect_bytes(&rt, new.as_slice(), &VALUE);
    let mut reply = RecordData::new();
    asset.show(&VALUE, &mut reply);
    expect_bytes(&rt, reply.as_slice(), &SHOWN);
}

#[test]
fn the_data_of_a_request_are_read_and_a_set_is_undone_by_the_whole_entry(rt: HostRuntime) {
    let op = attribute_in(&SHOWN).ok().expect(&rt, "a request");
    expect(&rt, op.attribute == 1 && op.attribute_type == 1, "a string");
    expect_bytes(&rt, op.value.as_slice(), &VALUE);
    let any_op = SetBiosAttribute::of(0, 0, &[]);
    let undo = AttributeLimits::inverse(&any_op, &SHOWN).expect(&rt, "a reply");
    expect_bytes(&rt, AttributeLimits::set_data(&undo).as_slice(), &SHOWN);
}
