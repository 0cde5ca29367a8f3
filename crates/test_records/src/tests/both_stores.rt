//! The same requests to a board over each of the two stores.
use super::{expect_bytes, expect_equal};
use bmc_board::Board;
use cfg_records::{BoardFile, Key, PackedStore, PlainStore, StartValue, Store};
use std::alloc::Global;
use std::process::Abort;
use stories::{asks, board_of};

/// The sample board with numeric effecter 4, from 0 to 1000, state effecter 9, of two fields, and LAN parameters of channel 1.
const BOARD: &str = "board numeric = [
board { id = 4, size = 2, operational = 1, lower = 0, upper = 1000, current = 500 },
board ]
board state = [
board { id = 9, operational = 1, states = [[1, 2], [1, 2, 3]], current = [1, 1] },
board ]
board lan = [
board { channel = 1, ip = [192, 0, 2, 1], source = 1, mask = [255, 255, 255, 0], gateway = [192, 0, 2, 254], vlan = [0, 0] },
board ]
";

/// A plan of four steps: two changes of the thresholds of sensor 5, the delay becomes 40, and the board is to be started otherwise.
const PLAN: &str = "ipmi 10 26 05 18 0000004B5A00 -> 00
ipmi 10 26 05 30 000000005C64 -> 00
pldm 03 07 00000000050200032800000000000000 -> 00 00000000
ipmi 00 08 05 8004000000 -> 00
ipmi 10 27 05 -> 00 3F140A054B5C64
pldm 03 08 00000000010200 -> 00 00000000050200032800000000000000";

/// What takes it back, the last step first.
const UNDO: &str = "ipmi 00 08 05 0000000000 -> 00
pldm 03 07 00000000050200031E00000000000000 -> 00 00000000
ipmi 10 26 05 30 000000005A6E -> 00
ipmi 10 26 05 18 000000505F00 -> 00
ipmi 10 27 05 -> 00 3F140A05505F6E";

/// A Set of upper critical of sensor 5 and one that is refused, since upper non-recoverable is lower; and Sets of effecters and of LAN
/// parameters, of which some are refused.
const SETS: &str = "ipmi 10 26 05 10 000000005A00 -> 00
ipmi 10 27 05 -> 00 3F140A05505A6E
ipmi 10 26 05 10 000000007000 -> CC
ipmi 10 27 05 -> 00 3F140A05505A6E
pldm 02 39 09000201020000 -> 00
pldm 02 3A 0900 -> 00 02010202010101
pldm 02 39 09000200000104 -> 81
pldm 02 31 040002E803 -> 00
pldm 02 32 0400 -> 00 0201E803E803
pldm 02 31 040002E903 -> 02
ipmi 30 01 0103C000020A -> 00
ipmi 30 01 010402 -> 00
ipmi 30 01 010405 -> CC
ipmi 30 01 0114 6483 -> 00
ipmi 30 02 01030000 -> 00 11C000020A
ipmi 30 02 01040000 -> 00 1102
ipmi 30 02 01060000 -> 00 11FFFFFF00
ipmi 30 02 010C0000 -> 00 11C00002FE
ipmi 30 02 01140000 -> 00 116483";

/// The sample board with effecters.
fn file(rt: &impl Abort, alloc: Global) -> BoardFile {
    board_of(alloc, BOARD).ok().expect(rt, "a board")
}

/// The board over a store that is a list of values.
fn plain(rt: &impl Abort, alloc: Global) -> Board<PlainStore> {
    let file = file(rt, alloc);
    let store = PlainStore::of_file(alloc, &file).expect(rt, "memory");
    Board::open(alloc, file, store).expect(rt, "memory")
}

/// The board over a store that is one image of bytes.
fn packed(rt: &impl Abort, alloc: Global) -> Board<PackedStore> {
    let file = file(rt, alloc);
    let store = PackedStore::of_file(alloc, &file).expect(rt, "memory");
    Board::open(alloc, file, store).expect(rt, "memory")
}

/// The line's request has its reply.
fn expect_reply<S: Store>(rt: &impl Abort, alloc: Global, board: &mut Board<S>, line: &str) {
    let (words, told) = line.split_once(" -> ").unwrap_or((line, ""));
    let (over, digits) = words.split_once(' ').unwrap_or((words, ""));
    let came = asks(alloc, board, 0x2C, over, digits).expect(rt, "memory");
    expect_equal(rt, came.as_str().trim_end(), told);
    drop(came);
}

/// Each line's request has its reply.
fn expect_replies<S: Store>(rt: &impl Abort, alloc: Global, board: &mut Board<S>, lines: &str) {
    for line in lines.lines() {
        expect_reply(rt, alloc, board, line);
    }
}

/// The value of this key, which both stores have alike.
fn value_in_both<'a>(
    rt: &impl Abort,
    plain: &'a PlainStore,
    packed: &PackedStore,
    key: &Key,
) -> &'a [u8] {
    let value = plain.get(key).expect(rt, "a record");
    expect_bytes(rt, packed.get(key).expect(rt, "a record"), value);
    value
}

/// Both stores have these keys' records alike. How many of them have another value than the list has.
fn changed(
    rt: &impl Abort,
    plain: &PlainStore,
    packed: &PackedStore,
    start: &[(Key, StartValue)],
) -> usize {
    let mut changed = 0usize;
    for (key, first) in start {
        if value_in_both(rt, plain, packed, key) != first.as_slice() {
            changed = changed.saturating_add(1);
        }
    }
    changed
}

/// Over both stores each line's request has its reply, and then so many records have another value than the list has.
fn expect_alike(
    rt: &impl Abort,
    alloc: Global,
    plain: &mut Board<PlainStore>,
    packed: &mut Board<PackedStore>,
    start: &[(Key, StartValue)],
    lines: &str,
    differ: usize,
) {
    expect_replies(rt, alloc, plain, lines);
    expect_replies(rt, alloc, packed, lines);
    expect_equal(
        rt,
        changed(rt, plain.store(), packed.store(), start),
        differ,
    );
}

/// The records of the sample board with effecters.
fn records(rt: &impl Abort, alloc: Global) -> Vec<(Key, StartValue)> {
    let file = file(rt, alloc);
    let records = file.records(alloc).expect(rt, "memory");
    drop(file);
    records
}

#[test]
fn records_are_the_same_over_both_stores(rt: HostRuntime) {
    let alloc = rt.alloc();
    let records = records(&rt, alloc);
    let start = records.as_slice();
    let mut plain = plain(&rt, alloc);
    let mut packed = packed(&rt, alloc);
    expect_alike(&rt, alloc, &mut plain, &mut packed, start, PLAN, 3);
    expect_alike(&rt, alloc, &mut plain, &mut packed, start, UNDO, 0);
    expect_alike(&rt, alloc, &mut plain, &mut packed, start, SETS, 6);
    drop(records);
    drop(plain);
    drop(packed);
}
