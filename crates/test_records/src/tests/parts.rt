//! Parts of boards, made by their calls: effecters, what users may do, attributes and sensor data records.
use super::{expect, expect_bytes, expect_each, expect_equal};
use cfg_records::{Items, Key, SdrRecord, StartValue};
use record_base::{
    Attribute, AttributeKind, AttributeRange, ChannelAccess, EnumerationAttribute, Indexes,
    IntegerAttribute, IntegerSteps, NumericEffecter, NumericRange, NumericSize, PossibleValues,
    StateEffecter, StateField, StringAttribute, Text, TextLengths, UserAccess, UserNumber,
    UserOnChannel,
};
use std::alloc::Global;
use std::process::Abort;

/// The record has this key and this value.
fn expect_pair(rt: &impl Abort, (key, value): (Key, StartValue), wanted: Key, bytes: &[u8]) {
    expect_equal(rt, key, wanted);
    expect_bytes(rt, value.as_slice(), bytes);
    drop(value);
}

#[test]
fn channels_have_an_access_and_users_have_one_to_them(rt: HostRuntime) {
    let on = UserOnChannel::of(2, 1);
    let access = ChannelAccess::new(0x3A, 3).expect(&rt, "an access");
    let hold = [
        access.access == 0x3A && access.limit == 3,
        ChannelAccess::new(0x3A, 6).is_none(),
        on.user == UserNumber::of(1),
        UserAccess::new(on, 0x76).is_none(),
    ];
    expect_each(
        &rt,
        &hold,
        "the access, no limit, the user, no limit of a user",
    );
    let access = UserAccess::new(on, 0x71).expect(&rt, "a user's access");
    expect_pair(&rt, access.pair(), Key::UserAccess(on), &[0x71]);
}

/// An effecter of one field, of two states.
fn state_effecter(rt: &impl Abort, alloc: Global) -> StateEffecter {
    let allowed = Items::new(vec![in alloc; 1, 2].expect(rt, "memory"));
    let field = StateField::new(allowed, 2).expect(rt, "a field");
    let fields = vec![in alloc; field].expect(rt, "memory");
    StateEffecter::new(9, true, fields).expect(rt, "an effecter")
}

// The numeric one goes from -2 to 1, and is at -1, in two's complement.
#[test]
fn effecters_have_a_number_and_states(rt: HostRuntime) {
    let range = NumericRange::new(NumericSize::S8, 0xFE, 1).expect(&rt, "a range");
    let numeric = NumericEffecter::new(5, true, range, 0xFF).expect(&rt, "an effecter");
    expect_pair(&rt, numeric.pair(), Key::NumericEffecter(5), &[0xFF]);
    let states = state_effecter(&rt, rt.alloc());
    let pair = states.pair();
    drop(states);
    expect_pair(&rt, pair, Key::StateEffecter(9), &[2]);
}

/// An attribute that is off or on.
fn quiet(rt: &impl Abort, alloc: Global) -> EnumerationAttribute {
    let names = vec![in alloc; Text::from_slice(b"off"), Text::from_slice(b"on")];
    let values = names.expect(rt, "memory");
    let (off, on) = (Indexes::from_slice(&[0]), Indexes::from_slice(&[1]));
    EnumerationAttribute::new(values, off, on).expect(rt, "an enumeration")
}

/// A text of at most 200 bytes.
fn asset(rt: &impl Abort, alloc: Global) -> Attribute {
    let lengths = TextLengths::new(0, 200).expect(rt, "lengths");
    let current = Vec::from_slice(alloc, b"ab").expect(rt, "memory");
    let text = StringAttribute::new(1, lengths, Vec::new(alloc), current);
    Attribute {
        handle: 1,
        name: Text::from_slice(b"Asset"),
        read_only: false,
        kind: AttributeKind::Text(text.expect(rt, "a text")),
    }
}

/// Which integers go by their steps, and which bytes are a record.
fn steps_and_records() -> [bool; 3] {
    let steps = IntegerSteps {
        lower: 0,
        upper: 300,
        increment: 10,
    };
    [
        IntegerAttribute::new(steps, 30, 40).is_some(),
        IntegerAttribute::new(steps, 30, 45).is_none(),
        SdrRecord::new(&[1, 0, 0x51, 0xC0, 2, 0]).is_none(),
    ]
}

#[test]
fn attributes_and_records_have_what_they_count(rt: HostRuntime) {
    let kind = AttributeKind::Enumeration(quiet(&rt, rt.alloc()));
    let range = kind.range();
    drop(kind);
    let two = PossibleValues::new(2).expect(&rt, "values");
    let is_of_two = range == AttributeRange::Enumeration(two);
    expect(&rt, is_of_two, "two values");
    let asset = asset(&rt, rt.alloc());
    let pair = asset.pair(rt.alloc());
    drop(asset);
    let pair = pair.expect(&rt, "memory");
    expect_pair(&rt, pair, Key::BiosAttribute(1), &[2, 0, 0x61, 0x62]);
    let record = SdrRecord::new(&[1, 0, 0x51, 0xC0, 1, 0]).expect(&rt, "a record");
    expect_bytes(&rt, record.as_slice(), &[1, 0, 0x51, 0xC0, 1, 0]);
    expect_each(
        &rt,
        &steps_and_records(),
        "on its steps, between them, a record of which a byte is missing",
    );
}
