//! Strings of up to 1,024 bytes, over PLDM.
use super::{expect, expect_told};
use cfg_records::{Asked, Key, Op};
use record_base::SetBiosAttribute;
use record_kinds::Limits;
use std::process::Abort;
use two_wire::Below;

/// An entry of over 205 bytes is shown in parts of 192 bytes, and one of over 247 can be set in parts alone.
const LONG: &str = "story a long string is set in parts and shown in parts
board attribute = [
board { name = \"Quiet\", kind = \"enumeration\", values = [\"off\", \"on\"], default = [0], current = [0], readonly = false },
board { name = \"Asset\", kind = \"string\", string_type = 1, least = 0, most = 1024, default = \"\", current = \"rack-1\", readonly = false },
board ]
from 0B
pldm 03 07 0000000001 010001 9001 61*187 -> 00 C0000000
from 0C
pldm 03 07 C000000002 61*192 -> 02
from 0B
pldm 03 07 C000000002 61*192 -> 00 80010000
pldm 03 08 00000000010100 -> 00 0000000005 010001 0600 7261636B2D31
pldm 03 07 8001000004 61*21 -> 00 00000000
pldm 03 08 00000000010100 -> 00 C000000001 010001 9001 61*187
pldm 03 08 C0000000000100 -> 00 8001000002 61*192
pldm 03 08 80010000000100 -> 00 0000000004 61*21
# Its staging is gone.
pldm 03 07 8001000004 61*21 -> 02
# A later part begins where one ends, and another requester sees the same.
pldm 03 08 00000000000100 -> 02
pldm 03 08 BF000000000100 -> 02
pldm 03 08 40020000000100 -> 02
pldm 03 08 00010000000100 -> 02
pldm 03 08 C0010000000100 -> 02
from 0C
pldm 03 08 12345678010100 -> 00 C000000001 010001 9001 61*187
pldm 03 08 80010000000100 -> 00 0000000004 61*21
pldm 03 08 80010000000000 -> 02
pldm 03 08 80010000000900 -> 88

story a later part of a Get shows the present value
board attribute = [{ name = \"Asset\", kind = \"string\", string_type = 1, least = 0, most = 1024, default = \"\", current = \"rack-1\", readonly = false }]
pldm 03 07 0000000001 000001 9001 61*187 -> 00 C0000000
pldm 03 07 C000000002 61*192 -> 00 80010000
pldm 03 07 8001000004 61*21 -> 00 00000000
from 0B
pldm 03 08 00000000010000 -> 00 C000000001 000001 9001 61*187
# Another requester sets a text of 500 bytes. Until its last part comes, the old one is shown.
from 0C
pldm 03 07 0000000001 000001 F401 62*187 -> 00 C0000000
pldm 03 07 C000000002 63*192 -> 00 80010000
from 0B
pldm 03 08 C0000000000000 -> 00 8001000002 61*192
from 0C
pldm 03 07 8001000004 64*121 -> 00 00000000
from 0B
pldm 03 08 C0000000000000 -> 00 8001000002 63*192
pldm 03 08 80010000000000 -> 00 0000000004 64*121
# A text of 202 bytes has two parts, and a short one has none.
from 0C
pldm 03 07 0000000001 000001 CA00 65*187 -> 00 C0000000
pldm 03 07 C000000004 66*15 -> 00 00000000
from 0B
pldm 03 08 C0000000000000 -> 00 0000000004 66*15
pldm 03 08 80010000000000 -> 02
pldm 03 08 00000000010000 -> 00 C000000001 000001 CA00 65*187
pldm 03 07 0000000005 000001 0100 62 -> 00 00000000
pldm 03 08 C0000000000000 -> 02
pldm 03 08 00000000010000 -> 00 0000000005 000001 0100 62

story an entry of 205 bytes is shown whole, and one of 206 in parts
board attribute = [{ name = \"Asset\", kind = \"string\", string_type = 1, least = 0, most = 1024, default = \"\", current = \"rack-1\", readonly = false }]
pldm 03 07 0000000005 000001 C800 61*200 -> 00 00000000
pldm 03 08 00000000010000 -> 00 0000000005 000001 C800 61*200
pldm 03 08 C0000000000000 -> 02
pldm 03 07 0000000005 000001 C900 61*201 -> 00 00000000
pldm 03 08 00000000010000 -> 00 C000000001 000001 C900 61*187
pldm 03 08 C0000000000000 -> 00 0000000004 61*14
# An entry of 384 bytes has two parts.
pldm 03 07 0000000001 000001 7B01 62*187 -> 00 C0000000
# The second ends it, so it isn't a middle part.
pldm 03 07 C000000002 63*192 -> 03
pldm 03 07 C000000004 63*192 -> 00 00000000
pldm 03 08 00000000010000 -> 00 C000000001 000001 7B01 62*187
pldm 03 08 C0000000000000 -> 00 0000000004 63*192
pldm 03 08 80010000000000 -> 02
# One of 397 has three: the 205 bytes behind the first go in two.
pldm 03 07 0000000001 000001 8801 61*187 -> 00 C0000000
pldm 03 07 C000000004 62*205 -> 03
pldm 03 07 C000000002 62*192 -> 00 80010000
pldm 03 07 8001000004 63*13 -> 00 00000000
pldm 03 08 00000000010000 -> 00 C000000001 000001 8801 61*187
pldm 03 08 C0000000000000 -> 00 8001000002 62*192
pldm 03 08 80010000000000 -> 00 0000000004 63*13

story a text of 1024 bytes fits, and one of 1025 does not
board attribute = [{ name = \"Asset\", kind = \"string\", string_type = 1, least = 0, most = 1024, default = \"\", current = \"rack-1\", readonly = false }]
pldm 03 07 0000000001 000001 0104 61*187 -> 02
pldm 03 07 0000000001 000001 0004 61*187 -> 00 C0000000
pldm 03 07 C000000002 62*192 -> 00 80010000
# A part that was taken isn't taken again, and no part may be left out.
pldm 03 07 C000000002 62*192 -> 02
pldm 03 07 4002000002 62*192 -> 02
pldm 03 07 8001000002 63*192 -> 00 40020000
pldm 03 07 4002000002 64*192 -> 00 00030000
pldm 03 07 0003000002 65*192 -> 00 C0030000
# The sixth part is the last one.
pldm 03 07 C003000002 66*192 -> 03
pldm 03 07 C003000002 66*69 -> 03
pldm 03 07 C003000004 66*68 -> 03
pldm 03 07 C003000004 66*70 -> 03
pldm 03 08 00000000010000 -> 00 0000000005 000001 0600 7261636B2D31
pldm 03 07 C003000004 66*69 -> 00 00000000
pldm 03 08 00000000010000 -> 00 C000000001 000001 0004 61*187
pldm 03 08 C0000000000000 -> 00 8001000002 62*192
pldm 03 08 80010000000000 -> 00 4002000002 63*192
pldm 03 08 40020000000000 -> 00 0003000002 64*192
pldm 03 08 00030000000000 -> 00 C003000002 65*192
pldm 03 08 C0030000000000 -> 00 0000000004 66*69
pldm 03 08 80040000000000 -> 02

story a middle part of a long text refuses in order
board attribute = [{ name = \"Asset\", kind = \"string\", string_type = 1, least = 0, most = 1024, default = \"\", current = \"rack-1\", readonly = false }]
pldm 03 07 0000000001 000001 9001 61*187 -> 00 C0000000
pldm 03 07 C100000002 61*191 -> 02
pldm 03 07 C000000002 61*191 -> 03
pldm 03 07 C000000002 61*193 -> 03
pldm 03 07 C000000002 61*192 -> 00 80010000
# It would reach the whole length of 405 bytes.
pldm 03 07 8001000002 61*192 -> 03
pldm 03 07 8001000002 61*21 -> 03
pldm 03 07 8001000004 61*20 -> 03
pldm 03 07 8001000004 61*22 -> 03
pldm 03 07 8001000004 61*21 -> 00 00000000

story eight others stage, and a manager's undo in parts is refused
board attribute = [{ name = \"Asset\", kind = \"string\", string_type = 1, least = 0, most = 1024, default = \"\", current = \"rack-1\", readonly = false }]
# The manager sets a long text, and then a short one.
from 08
pldm 03 07 0000000001 000001 9001 61*187 -> 00 C0000000
pldm 03 07 C000000002 61*192 -> 00 80010000
pldm 03 07 8001000004 61*21 -> 00 00000000
pldm 03 07 0000000005 000001 0100 62 -> 00 00000000
from 11
pldm 03 07 0000000001 000001 C900 61*187 -> 00 C0000000
from 12
pldm 03 07 0000000001 000001 C900 61*187 -> 00 C0000000
from 13
pldm 03 07 0000000001 000001 C900 61*187 -> 00 C0000000
from 14
pldm 03 07 0000000001 000001 C900 61*187 -> 00 C0000000
from 15
pldm 03 07 0000000001 000001 C900 61*187 -> 00 C0000000
from 16
pldm 03 07 0000000001 000001 C900 61*187 -> 00 C0000000
from 17
pldm 03 07 0000000001 000001 C900 61*187 -> 00 C0000000
# With seven others there is room.
from 08
pldm 03 07 0000000001 000001 9001 61*187 -> 00 C0000000
pldm 03 07 C000000002 61*192 -> 00 80010000
pldm 03 07 8001000004 61*21 -> 00 00000000
pldm 03 07 0000000005 000001 0100 62 -> 00 00000000
from 18
pldm 03 07 0000000001 000001 C900 61*187 -> 00 C0000000
from 08
pldm 03 07 0000000001 000001 9001 61*187 -> 01
pldm 03 08 00000000010000 -> 00 0000000005 000001 0100 62

story a long value is in the table of values
board attribute = [{ name = \"Asset\", kind = \"string\", string_type = 1, least = 0, most = 1024, default = \"\", current = \"rack-1\", readonly = false }]
pldm 03 07 0000000001 000001 9001 61*187 -> 00 C0000000
pldm 03 07 C000000002 61*192 -> 00 80010000
pldm 03 07 8001000004 61*21 -> 00 00000000
pldm 03 01 000000000102 -> 00 C000000001 000001 9001 61*187
pldm 03 01 C00000000002 -> 00 8001000002 61*192
pldm 03 01 800100000002 -> 00 0000000004 61*21 000000 BB18DD7A
# Another text is set in parts: the table is the old one until the last comes.
pldm 03 07 0000000001 000001 F201 62*187 -> 00 C0000000
pldm 03 07 C000000002 62*192 -> 00 80010000
pldm 03 01 000000000102 -> 00 C000000001 000001 9001 61*187
pldm 03 01 800100000002 -> 00 0000000004 61*21 000000 BB18DD7A
pldm 03 07 8001000004 62*119 -> 00 00000000
pldm 03 01 000000000102 -> 00 C000000001 000001 F201 62*187
pldm 03 01 C00000000002 -> 00 8001000002 62*192
pldm 03 01 800100000002 -> 00 0000000004 62*119 00 51674584

story a change of a long string is undone
board attribute = [{ name = \"Asset\", kind = \"string\", string_type = 1, least = 0, most = 1024, default = \"\", current = \"rack-1\", readonly = false }]
undo pldm 03 07 0000000005 000001 0100 62 : 0000000005 000001 9001 61*400 -> 0000000005 000001 9001 61*400
undo pldm 03 07 0000000005 000001 0100 62 : 0000000005 000001 0004 61*1024 -> 0000000005 000001 0004 61*1024
undo pldm 03 07 0000000005 000001 0100 62 : 0000000005 000001 0104 61*1025 -> none
undo pldm 03 07 0000000005 000001 0100 62 : C000000001 000001 9001 61*187 -> none
";

/// The change has this request as the part of this number.
fn expect_part(rt: &impl Abort, set: &Op<'_>, part: u8, wanted: &Asked) {
    let came = Limits::set_next(set, part).expect(rt, "a part");
    expect(rt, came.is(wanted), "the part");
}

#[test]
fn a_set_in_parts_has_so_many_requests(rt: HostRuntime) {
    let mut value = [0x61; 402];
    value[..2].copy_from_slice(&[0x90, 0x01]);
    let set = Op::BiosAttribute(SetBiosAttribute::of(1, 1, &value));
    let mut first = [0x61; 197];
    first[..10].copy_from_slice(&[0, 0, 0, 0, 0x01, 1, 0, 1, 0x90, 0x01]);
    let first = Asked::pldm(Below::new(3), 0x07, &first);
    let mut last = [0x61; 26];
    last[..5].copy_from_slice(&[0x80, 0x01, 0, 0, 0x04]);
    let last = Asked::pldm(Below::new(3), 0x07, &last);
    expect_part(&rt, &set, 0, &first);
    expect_part(&rt, &set, 2, &last);
    expect(&rt, Limits::set_next(&set, 3).is_none(), "past the last");
}

#[test]
fn a_later_part_of_an_attribute_alone_is_asked_for(rt: HostRuntime) {
    let wanted = Asked::pldm(Below::new(3), 0x08, &[0xC0, 0, 0, 0, 0x00, 1, 0]);
    let came = Limits::get_next(&Key::BiosAttribute(1), 192).expect(&rt, "a part");
    expect(&rt, came.is(&wanted), "behind 192 bytes");
    let other = Limits::get_next(&Key::PowerPolicy, 192);
    expect(&rt, other.is_none(), "another kind");
}

#[test]
fn long_strings_are_set_and_shown_in_parts(rt: HostRuntime) {
    expect_told(&rt, rt.alloc(), LONG);
}
