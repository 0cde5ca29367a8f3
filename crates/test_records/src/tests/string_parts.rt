//! Strings that are set in parts, over PLDM.
use super::attribute::asset;
use super::{expect, expect_bytes, expect_equal, expect_told};
use record_base::TextLengths;
use record_kinds::{Entry, SetPart, Stagings, part_in};
use std::alloc::Global;
use std::process::Abort;
use two_wire::code::{PLDM_INVALID_DATA, PLDM_INVALID_LENGTH};

/// A text of 200 bytes has an entry of 205: a first part of 192 and a last one of 13. Every code stands in the order of the rules.
const PARTS: &str = "story a string is set in parts and shown
pldm 03 08 00000000010100 -> 00 0000000005 010001 0600 7261636B2D31
pldm 03 07 0000000001 010001 C800 61*187 -> 00 C0000000
# Nothing is shown of it before the last part.
pldm 03 08 00000000010100 -> 00 0000000005 010001 0600 7261636B2D31
pldm 03 07 C000000004 61*13 -> 00 00000000
pldm 03 08 00000000010100 -> 00 0000000005 010001 C800 61*200
# Its staging is gone.
pldm 03 07 C000000004 61*13 -> 02
marked pldm 03 07 C000000004 61 -> sets
marked pldm 03 07 0000000009 61 -> sets
marked pldm 03 08 00000000010100 -> gets

story the data of a part refuse in order
# Under six bytes, before the flag.
pldm 03 07 -> 03
pldm 03 07 0000000001 -> 03
pldm 03 07 0000000002 -> 03
pldm 03 07 0000000004 -> 03
pldm 03 07 00000000 -> 03
# Then the flag.
pldm 03 07 0000000000 01 -> 02
pldm 03 07 0000000003 010001 C800 61*187 -> 02
pldm 03 07 0000000006 010001 C800 61*187 -> 02
pldm 03 07 0000000081 010001 C800 61*187 -> 02
pldm 03 07 00000000FF 01 -> 02
# Then eight bytes of a first part, before the attribute is looked for.
pldm 03 07 0000000001 09 -> 03
pldm 03 07 0000000001 0900 -> 03
pldm 03 07 0000000001 090001 -> 88
pldm 03 07 0000000001 030001 C800 61*187 -> 88
pldm 03 07 0000000001 010101 C800 61*187 -> 88

story a first part refuses in order
# Another type, before the part's length.
pldm 03 07 0000000001 010000 C800 61*186 -> 02
pldm 03 07 0000000001 010003 C800 61*187 -> 02
pldm 03 07 0000000001 010081 C800 61*187 -> 02
# An attribute that is no string, whatever its part.
pldm 03 07 0000000001 000000 C800 61*187 -> 03
pldm 03 07 0000000001 020003 C800 61*187 -> 03
# Other than 192 bytes of entry, before the text's length.
pldm 03 07 0000000001 010001 -> 03
pldm 03 07 0000000001 010001 C900 61*186 -> 03
pldm 03 07 0000000001 010001 C800 61*186 -> 03
pldm 03 07 0000000001 010001 C800 61*188 -> 03
pldm 03 07 0000000001 010001 C900 61*188 -> 03
# A whole length of 192 bytes, and a shorter one.
pldm 03 07 0000000001 010001 BB00 61*187 -> 03
pldm 03 07 0000000001 010001 0600 61*187 -> 03
# A text that is too long.
pldm 03 07 0000000001 010001 C900 61*187 -> 02
pldm 03 07 0000000001 010001 FFFF 61*187 -> 02
# A whole length of 193 bytes, and another handle.
pldm 03 07 0123456701 010001 BC00 61*187 -> 00 C0000000
pldm 03 07 C000000004 62 -> 00 00000000
pldm 03 08 00000000010100 -> 00 0000000005 010001 BC00 61*187 62

story a first part refuses a text that is too short
board attribute = [
board { name = \"Asset\", kind = \"string\", string_type = 1, least = 195, most = 198, default = \"ddddddddddddddddddddddddddddddddddddddddddddddddddddddddddddddddddddddddddddddddddddddddddddddddddddddddddddddddddddddddddddddddddddddddddddddddddddddddddddddddddddddddddddddddddddddddddddddddddd\", current = \"ccccccccccccccccccccccccccccccccccccccccccccccccccccccccccccccccccccccccccccccccccccccccccccccccccccccccccccccccccccccccccccccccccccccccccccccccccccccccccccccccccccccccccccccccccccccccccccccccccc\", readonly = false },
board ]
# The whole length, before the text's.
pldm 03 07 0000000001 000001 BB00 61*187 -> 03
pldm 03 07 0000000001 000001 BC00 61*187 -> 02
pldm 03 07 0000000001 000001 C200 61*187 -> 02
pldm 03 07 0000000001 000001 C700 61*187 -> 02
pldm 03 07 0000000001 000001 C600 61*187 -> 00 C0000000
pldm 03 07 0000000001 000001 C300 61*187 -> 00 C0000000
pldm 03 07 C000000004 61*8 -> 00 00000000

story a first part refuses an attribute that can only be read
board attribute = [{ name = \"Asset\", kind = \"string\", string_type = 1, least = 0, most = 200, default = \"\", current = \"rack-1\", readonly = true }]
pldm 03 07 0000000001 000001 C800 61*187 -> 02
pldm 03 07 0000000001 000081 C800 61*187 -> 02
# Before the part's length.
pldm 03 07 0000000001 000001 C800 61*186 -> 02
pldm 03 07 C000000004 61*13 -> 02

story a later part refuses in order
# Without a staging.
pldm 03 07 0000000002 61*192 -> 02
pldm 03 07 C000000002 61*192 -> 02
pldm 03 07 0000000004 61*13 -> 02
pldm 03 07 C000000004 61*13 -> 02
pldm 03 07 0000000001 010001 C800 61*187 -> 00 C0000000
# A handle that isn't how many bytes are staged, before the part's length.
pldm 03 07 C100000002 61*191 -> 02
pldm 03 07 BF00000002 61*192 -> 02
pldm 03 07 0000000004 61*13 -> 02
pldm 03 07 C000000104 61*13 -> 02
pldm 03 07 C100000004 61*12 -> 02
# A middle part that has other than 192 bytes, and one that reaches the whole length.
pldm 03 07 C000000002 61 -> 03
pldm 03 07 C000000002 61*13 -> 03
pldm 03 07 C000000002 61*191 -> 03
pldm 03 07 C000000002 61*193 -> 03
pldm 03 07 C000000002 61*192 -> 03
# A last part that doesn't end at the whole length, or has over 192 bytes.
pldm 03 07 C000000004 61*12 -> 03
pldm 03 07 C000000004 61*14 -> 03
pldm 03 07 C000000004 61*192 -> 03
pldm 03 07 C000000004 61*193 -> 03
pldm 03 07 C000000004 61*247 -> 03
# Refused parts changed nothing: neither the value nor what is staged.
pldm 03 08 00000000010100 -> 00 0000000005 010001 0600 7261636B2D31
pldm 03 07 0000000001 010001 C900 62*187 -> 02
pldm 03 07 C000000004 63*13 -> 00 00000000
pldm 03 08 00000000010100 -> 00 0000000005 010001 C800 61*187 63*13

story a first part takes the place of an older staging
pldm 03 07 0000000001 010001 C800 61*187 -> 00 C0000000
pldm 03 07 0000000001 010001 BE00 62*187 -> 00 C0000000
pldm 03 07 C000000004 61*13 -> 03
pldm 03 07 C000000004 63*3 -> 00 00000000
pldm 03 08 00000000010100 -> 00 0000000005 010001 BE00 62*187 63*3

story a whole text leaves what is staged
pldm 03 07 0000000001 010001 C800 61*187 -> 00 C0000000
pldm 03 07 0000000005 010001 0200 6364 -> 00 00000000
pldm 03 08 00000000010100 -> 00 0000000005 010001 0200 6364
pldm 03 07 0000000005 010001 C900 62*201 -> 02
pldm 03 07 C000000004 62*13 -> 00 00000000
pldm 03 08 00000000010100 -> 00 0000000005 010001 C800 61*187 62*13

story each requester has a staging of its own
from 0B
pldm 03 07 0000000001 010001 C800 61*187 -> 00 C0000000
from 0C
pldm 03 07 C000000004 61*13 -> 02
pldm 03 07 0000000001 010001 C300 62*187 -> 00 C0000000
pldm 03 08 00000000010100 -> 00 0000000005 010001 0600 7261636B2D31
from 0B
pldm 03 07 C000000004 61*8 -> 03
pldm 03 07 C000000004 61*13 -> 00 00000000
pldm 03 08 00000000010100 -> 00 0000000005 010001 C800 61*200
from 0C
pldm 03 07 C000000004 62*8 -> 00 00000000
pldm 03 08 00000000010100 -> 00 0000000005 010001 C300 62*195

story a ninth requester waits for a staging to end
from 11
pldm 03 07 0000000001 010001 C800 61*187 -> 00 C0000000
from 12
pldm 03 07 0000000001 010001 C800 62*187 -> 00 C0000000
from 13
pldm 03 07 0000000001 010001 C800 63*187 -> 00 C0000000
from 14
pldm 03 07 0000000001 010001 C800 64*187 -> 00 C0000000
from 15
pldm 03 07 0000000001 010001 C800 65*187 -> 00 C0000000
from 16
pldm 03 07 0000000001 010001 C800 66*187 -> 00 C0000000
from 17
pldm 03 07 0000000001 010001 C800 67*187 -> 00 C0000000
from 18
pldm 03 07 0000000001 010001 C800 68*187 -> 00 C0000000
from 19
pldm 03 07 0000000001 010001 C800 69*187 -> 01
# Whatever else refuses the part comes before.
pldm 03 07 0000000001 010001 C900 69*187 -> 02
pldm 03 07 0000000001 010001 C800 69*186 -> 03
pldm 03 07 0000000001 030001 C800 69*187 -> 88
pldm 03 07 C000000004 69*13 -> 02
# A whole text needs no staging, and one of the eight may begin anew.
pldm 03 07 0000000005 010001 0200 6364 -> 00 00000000
from 18
pldm 03 07 0000000001 010001 BC00 68*187 -> 00 C0000000
from 19
pldm 03 07 0000000001 010001 C800 69*187 -> 01
from 11
pldm 03 07 C000000004 61*13 -> 00 00000000
from 19
pldm 03 07 0000000001 010001 C800 69*187 -> 00 C0000000
from 11
pldm 03 07 0000000001 010001 C800 61*187 -> 01
from 18
pldm 03 07 C000000004 6A -> 00 00000000
pldm 03 08 00000000010100 -> 00 0000000005 010001 BC00 68*187 6A
";

/// The data of a first part: of a text of 200 bytes for attribute 1, which has 187 bytes 00h so far.
fn first_part() -> [u8; 197] {
    let mut body = [0; 197];
    body[..10].copy_from_slice(&[0, 0, 0, 0, 1, 1, 0, 1, 200, 0]);
    body
}

/// What requester 0Bh staged by that part: 192 bytes of an entry.
fn staged(rt: &impl Abort, alloc: Global) -> Stagings {
    let body = first_part();
    let Ok(SetPart::Start(entry)) = part_in(&body) else {
        panic!(rt; "no first part");
    };
    let lengths = TextLengths::new(0, 200).expect(rt, "lengths");
    let mut stagings = Stagings::opening(alloc).expect(rt, "memory");
    let started = stagings.start(Some(&asset(lengths)), 0x0B, entry.as_slice());
    expect(rt, started == Ok(192), "it is staged");
    stagings
}

/// A middle part that ends the entry is refused, and so is one of a requester that staged nothing.
fn expect_refused(rt: &impl Abort, stagings: &mut Stagings) {
    let long = stagings.add(0x0B, 192, &[0; 192]);
    expect_equal(rt, long, Err(PLDM_INVALID_LENGTH));
    let other = stagings.add(0x0C, 192, &[0; 192]);
    expect_equal(rt, other, Err(PLDM_INVALID_DATA));
}

#[test]
fn a_requester_has_what_it_staged_until_it_ends(rt: HostRuntime) {
    let mut stagings = staged(&rt, rt.alloc());
    expect_refused(&rt, &mut stagings);
    let mut place = Entry::new();
    let ended = stagings.ended(0x0B, 192, &[9; 13], &mut place).ok();
    let op = ended.expect(&rt, "what is staged stays");
    expect(&rt, op.attribute == 1 && op.attribute_type == 1, "a string");
    assert!(rt; op.value.as_slice().len() == 202);
    expect_bytes(&rt, &op.value.as_slice()[189..], &[9; 13]);
    stagings.end(0x0B);
    let ended = stagings.ended(0x0B, 192, &[9; 13], &mut place);
    expect(&rt, ended.is_err(), "nothing is staged any more");
    drop(stagings);
}

#[test]
fn strings_are_set_in_parts_and_refused_in_order(rt: HostRuntime) {
    expect_told(&rt, rt.alloc(), PARTS);
}
