//! What a port finds in its windows, over lists of requests.
use super::expect_told;
use bmc_core::{Found, WindowRequest, Windows};
use two_wire::Below;

const WINDOWS: &str = "\
story a ninth requester is busy
window ipmb keeps 40 05 4205 : 00 -> New
window ipmb keeps 42 05 4205 : 01 -> New
window ipmb keeps 44 05 4205 : 02 -> New
window ipmb keeps 46 05 4205 : 03 -> New
window ipmb keeps 48 05 4205 : 04 -> New
window ipmb keeps 4A 05 4205 : 05 -> New
window ipmb keeps 4C 05 4205 : 06 -> New
window ipmb keeps 4E 05 4205 : 07 -> New
window ipmb keeps 50 05 4205 : 08 -> Busy
window ipmb keeps 52 05 4205 : 09 -> Busy
window ipmb keeps 40 05 4205 : 63 -> Repeats 00
window ipmb keeps 40 05 4305 : 63 -> New
window ipmb idles 40 -> yes
window ipmb idles 40 -> no
window ipmb keeps 50 05 4205 : 0A -> New
window ipmb keeps 40 05 4205 : 0B -> Busy
window ipmb keeps 4E 05 4205 : 63 -> Repeats 07

story of 120 requesters the first eight are kept
window ipmb keeps 00 00 4200 : 00 -> New
window ipmb keeps 01 00 4200 : 01 -> New
window ipmb keeps 02 00 4200 : 02 -> New
window ipmb keeps 03 00 4200 : 03 -> New
window ipmb keeps 04 00 4200 : 04 -> New
window ipmb keeps 05 00 4200 : 05 -> New
window ipmb keeps 06 00 4200 : 06 -> New
window ipmb keeps 07 00 4200 : 07 -> New
window ipmb keeps 08 00 4200 : 08 -> Busy
window ipmb keeps 09 00 4200 : 09 -> Busy
window ipmb keeps 0A 00 4200 : 0A -> Busy
window ipmb keeps 0B 00 4200 : 0B -> Busy
window ipmb keeps 0C 00 4200 : 0C -> Busy
window ipmb keeps 0D 00 4200 : 0D -> Busy
window ipmb keeps 0E 00 4200 : 0E -> Busy
window ipmb keeps 0F 00 4200 : 0F -> Busy
window ipmb keeps 10 00 4200 : 10 -> Busy
window ipmb keeps 11 00 4200 : 11 -> Busy
window ipmb keeps 12 00 4200 : 12 -> Busy
window ipmb keeps 13 00 4200 : 13 -> Busy
window ipmb keeps 14 00 4200 : 14 -> Busy
window ipmb keeps 15 00 4200 : 15 -> Busy
window ipmb keeps 16 00 4200 : 16 -> Busy
window ipmb keeps 17 00 4200 : 17 -> Busy
window ipmb keeps 18 00 4200 : 18 -> Busy
window ipmb keeps 19 00 4200 : 19 -> Busy
window ipmb keeps 1A 00 4200 : 1A -> Busy
window ipmb keeps 1B 00 4200 : 1B -> Busy
window ipmb keeps 1C 00 4200 : 1C -> Busy
window ipmb keeps 1D 00 4200 : 1D -> Busy
window ipmb keeps 1E 00 4200 : 1E -> Busy
window ipmb keeps 1F 00 4200 : 1F -> Busy
window ipmb keeps 20 00 4200 : 20 -> Busy
window ipmb keeps 21 00 4200 : 21 -> Busy
window ipmb keeps 22 00 4200 : 22 -> Busy
window ipmb keeps 23 00 4200 : 23 -> Busy
window ipmb keeps 24 00 4200 : 24 -> Busy
window ipmb keeps 25 00 4200 : 25 -> Busy
window ipmb keeps 26 00 4200 : 26 -> Busy
window ipmb keeps 27 00 4200 : 27 -> Busy
window ipmb keeps 28 00 4200 : 28 -> Busy
window ipmb keeps 29 00 4200 : 29 -> Busy
window ipmb keeps 2A 00 4200 : 2A -> Busy
window ipmb keeps 2B 00 4200 : 2B -> Busy
window ipmb keeps 2C 00 4200 : 2C -> Busy
window ipmb keeps 2D 00 4200 : 2D -> Busy
window ipmb keeps 2E 00 4200 : 2E -> Busy
window ipmb keeps 2F 00 4200 : 2F -> Busy
window ipmb keeps 30 00 4200 : 30 -> Busy
window ipmb keeps 31 00 4200 : 31 -> Busy
window ipmb keeps 32 00 4200 : 32 -> Busy
window ipmb keeps 33 00 4200 : 33 -> Busy
window ipmb keeps 34 00 4200 : 34 -> Busy
window ipmb keeps 35 00 4200 : 35 -> Busy
window ipmb keeps 36 00 4200 : 36 -> Busy
window ipmb keeps 37 00 4200 : 37 -> Busy
window ipmb keeps 38 00 4200 : 38 -> Busy
window ipmb keeps 39 00 4200 : 39 -> Busy
window ipmb keeps 3A 00 4200 : 3A -> Busy
window ipmb keeps 3B 00 4200 : 3B -> Busy
window ipmb keeps 3C 00 4200 : 3C -> Busy
window ipmb keeps 3D 00 4200 : 3D -> Busy
window ipmb keeps 3E 00 4200 : 3E -> Busy
window ipmb keeps 3F 00 4200 : 3F -> Busy
window ipmb keeps 40 00 4200 : 40 -> Busy
window ipmb keeps 41 00 4200 : 41 -> Busy
window ipmb keeps 42 00 4200 : 42 -> Busy
window ipmb keeps 43 00 4200 : 43 -> Busy
window ipmb keeps 44 00 4200 : 44 -> Busy
window ipmb keeps 45 00 4200 : 45 -> Busy
window ipmb keeps 46 00 4200 : 46 -> Busy
window ipmb keeps 47 00 4200 : 47 -> Busy
window ipmb keeps 48 00 4200 : 48 -> Busy
window ipmb keeps 49 00 4200 : 49 -> Busy
window ipmb keeps 4A 00 4200 : 4A -> Busy
window ipmb keeps 4B 00 4200 : 4B -> Busy
window ipmb keeps 4C 00 4200 : 4C -> Busy
window ipmb keeps 4D 00 4200 : 4D -> Busy
window ipmb keeps 4E 00 4200 : 4E -> Busy
window ipmb keeps 4F 00 4200 : 4F -> Busy
window ipmb keeps 50 00 4200 : 50 -> Busy
window ipmb keeps 51 00 4200 : 51 -> Busy
window ipmb keeps 52 00 4200 : 52 -> Busy
window ipmb keeps 53 00 4200 : 53 -> Busy
window ipmb keeps 54 00 4200 : 54 -> Busy
window ipmb keeps 55 00 4200 : 55 -> Busy
window ipmb keeps 56 00 4200 : 56 -> Busy
window ipmb keeps 57 00 4200 : 57 -> Busy
window ipmb keeps 58 00 4200 : 58 -> Busy
window ipmb keeps 59 00 4200 : 59 -> Busy
window ipmb keeps 5A 00 4200 : 5A -> Busy
window ipmb keeps 5B 00 4200 : 5B -> Busy
window ipmb keeps 5C 00 4200 : 5C -> Busy
window ipmb keeps 5D 00 4200 : 5D -> Busy
window ipmb keeps 5E 00 4200 : 5E -> Busy
window ipmb keeps 5F 00 4200 : 5F -> Busy
window ipmb keeps 60 00 4200 : 60 -> Busy
window ipmb keeps 61 00 4200 : 61 -> Busy
window ipmb keeps 62 00 4200 : 62 -> Busy
window ipmb keeps 63 00 4200 : 63 -> Busy
window ipmb keeps 64 00 4200 : 64 -> Busy
window ipmb keeps 65 00 4200 : 65 -> Busy
window ipmb keeps 66 00 4200 : 66 -> Busy
window ipmb keeps 67 00 4200 : 67 -> Busy
window ipmb keeps 68 00 4200 : 68 -> Busy
window ipmb keeps 69 00 4200 : 69 -> Busy
window ipmb keeps 6A 00 4200 : 6A -> Busy
window ipmb keeps 6B 00 4200 : 6B -> Busy
window ipmb keeps 6C 00 4200 : 6C -> Busy
window ipmb keeps 6D 00 4200 : 6D -> Busy
window ipmb keeps 6E 00 4200 : 6E -> Busy
window ipmb keeps 6F 00 4200 : 6F -> Busy
window ipmb keeps 70 00 4200 : 70 -> Busy
window ipmb keeps 71 00 4200 : 71 -> Busy
window ipmb keeps 72 00 4200 : 72 -> Busy
window ipmb keeps 73 00 4200 : 73 -> Busy
window ipmb keeps 74 00 4200 : 74 -> Busy
window ipmb keeps 75 00 4200 : 75 -> Busy
window ipmb keeps 76 00 4200 : 76 -> Busy
window ipmb keeps 77 00 4200 : 77 -> Busy
window ipmb keeps 00 00 4200 : 63 -> Repeats 00
window ipmb keeps 01 00 4200 : 63 -> Repeats 01
window ipmb keeps 02 00 4200 : 63 -> Repeats 02
window ipmb keeps 03 00 4200 : 63 -> Repeats 03
window ipmb keeps 04 00 4200 : 63 -> Repeats 04
window ipmb keeps 05 00 4200 : 63 -> Repeats 05
window ipmb keeps 06 00 4200 : 63 -> Repeats 06
window ipmb keeps 07 00 4200 : 63 -> Repeats 07

story sequence 32 forgets sequence 0
window ipmb keeps 2C 00 4200 : 00 -> New
window ipmb keeps 2C 01 4201 : 01 -> New
window ipmb keeps 2C 02 4202 : 02 -> New
window ipmb keeps 2C 03 4203 : 03 -> New
window ipmb keeps 2C 04 4204 : 04 -> New
window ipmb keeps 2C 05 4205 : 05 -> New
window ipmb keeps 2C 06 4206 : 06 -> New
window ipmb keeps 2C 07 4207 : 07 -> New
window ipmb keeps 2C 08 4208 : 08 -> New
window ipmb keeps 2C 09 4209 : 09 -> New
window ipmb keeps 2C 0A 420A : 0A -> New
window ipmb keeps 2C 0B 420B : 0B -> New
window ipmb keeps 2C 0C 420C : 0C -> New
window ipmb keeps 2C 0D 420D : 0D -> New
window ipmb keeps 2C 0E 420E : 0E -> New
window ipmb keeps 2C 0F 420F : 0F -> New
window ipmb keeps 2C 10 4210 : 10 -> New
window ipmb keeps 2C 11 4211 : 11 -> New
window ipmb keeps 2C 12 4212 : 12 -> New
window ipmb keeps 2C 13 4213 : 13 -> New
window ipmb keeps 2C 14 4214 : 14 -> New
window ipmb keeps 2C 15 4215 : 15 -> New
window ipmb keeps 2C 16 4216 : 16 -> New
window ipmb keeps 2C 17 4217 : 17 -> New
window ipmb keeps 2C 18 4218 : 18 -> New
window ipmb keeps 2C 19 4219 : 19 -> New
window ipmb keeps 2C 1A 421A : 1A -> New
window ipmb keeps 2C 1B 421B : 1B -> New
window ipmb keeps 2C 1C 421C : 1C -> New
window ipmb keeps 2C 1D 421D : 1D -> New
window ipmb keeps 2C 1E 421E : 1E -> New
window ipmb keeps 2C 1F 421F : 1F -> New
window ipmb keeps 2C 00 4200 : 63 -> Repeats 00
window ipmb keeps 2C 20 4220 : 20 -> New
window ipmb keeps 2C 01 4201 : 63 -> Repeats 01
window ipmb keeps 2C 00 4200 : 21 -> New
window ipmb keeps 2C 20 4220 : 22 -> New

story instance 16 forgets instance 0
window pldm keeps 0B 00 0200 : 00 -> New
window pldm keeps 0B 01 0201 : 01 -> New
window pldm keeps 0B 02 0202 : 02 -> New
window pldm keeps 0B 03 0203 : 03 -> New
window pldm keeps 0B 04 0204 : 04 -> New
window pldm keeps 0B 05 0205 : 05 -> New
window pldm keeps 0B 06 0206 : 06 -> New
window pldm keeps 0B 07 0207 : 07 -> New
window pldm keeps 0B 08 0208 : 08 -> New
window pldm keeps 0B 09 0209 : 09 -> New
window pldm keeps 0B 0A 020A : 0A -> New
window pldm keeps 0B 0B 020B : 0B -> New
window pldm keeps 0B 0C 020C : 0C -> New
window pldm keeps 0B 0D 020D : 0D -> New
window pldm keeps 0B 0E 020E : 0E -> New
window pldm keeps 0B 0F 020F : 0F -> New
window pldm keeps 0B 00 0200 : 63 -> Repeats 00
window pldm keeps 0B 10 0210 : 10 -> New
window pldm keeps 0B 01 0201 : 63 -> Repeats 01
window pldm keeps 0B 00 0200 : 11 -> New

story what is looked up and not kept is new again
window ipmb finds 2C 07 281C42 -> New
window ipmb finds 2C 07 281C42 -> New
window ipmb keeps 2C 07 281C42 : 0001 -> New
window ipmb finds 2C 07 281C42 -> Repeats 0001
window ipmb idles 2E -> no
window ipmb idles 2C -> yes
window ipmb finds 2C 07 281C42 -> New

story a repeat is known until a number 32 above is kept
window ipmb keeps 2C 32 0132 : 01 -> New
window ipmb keeps 2C 32 0132 : 01 -> Repeats 01
window ipmb keeps 2C 11 0211 : 02 -> New
window ipmb keeps 2C 32 0132 : 01 -> Repeats 01
window ipmb keeps 2C 12 0312 : 03 -> New
window ipmb keeps 2C 32 0132 : 01 -> New
window ipmb keeps 2C 32 0232 : 02 -> New
window ipmb keeps 2C 32 0132 : 01 -> New

story an instance is known until one 16 above is kept
window pldm keeps 08 14 0114 : 01 -> New
window pldm keeps 08 03 0203 : 02 -> New
window pldm keeps 08 14 0114 : 01 -> Repeats 01
window pldm keeps 09 14 0114 : 01 -> New
window pldm keeps 08 04 0304 : 03 -> New
window pldm keeps 08 14 0114 : 01 -> New
window pldm keeps 09 14 0114 : 01 -> Repeats 01
window pldm idles 09 -> yes
window pldm keeps 08 14 0114 : 63 -> Repeats 01
window pldm keeps 09 14 0114 : 02 -> New

story a slot that another takes over has nothing of the first
window ipmb keeps 40 05 4205 : 00 -> New
window ipmb keeps 40 06 4306 : 01 -> New
window ipmb idles 40 -> yes
window ipmb finds 50 06 4306 -> New
window ipmb keeps 50 05 4205 : 0A -> New
window ipmb finds 50 06 4306 -> New
window ipmb keeps 50 06 4306 : 0B -> New
window ipmb keeps 50 05 4205 : 63 -> Repeats 0A
window ipmb keeps 50 06 4306 : 63 -> Repeats 0B
window pldm keeps 08 14 0114 : 00 -> New
window pldm keeps 08 15 0215 : 01 -> New
window pldm idles 08 -> yes
window pldm keeps 09 14 0114 : 0A -> New
window pldm finds 09 15 0215 -> New
window pldm keeps 09 14 0114 : 63 -> Repeats 0A
";

/// Whether this reply is repeated.
fn repeats(found: Found<'_, 32>, wanted: &[u8]) -> bool {
    match found {
        Found::Repeats(reply) => reply.as_slice() == wanted,
        _ => false,
    }
}

#[test]
fn a_request_is_kept_and_found(rt: HostRuntime) {
    let mut windows = Windows::<64, 32>::new(rt.alloc()).expect(&rt, "memory");
    let request = WindowRequest {
        requester: 0x2C,
        number: Below::new(7),
        first: 0x28,
        rest: &[0x1C, 0x42],
    };
    assert!(rt; matches!(windows.find(&request), Found::New));
    windows.keep(&request, &[0x00, 0x01]);
    assert!(rt; repeats(windows.find(&request), &[0x00, 0x01]));
    assert!(rt; windows.idle(0x2C));
}

#[test]
fn requests_come_to_windows(rt: HostRuntime) {
    expect_told(&rt, rt.alloc(), WINDOWS);
}
