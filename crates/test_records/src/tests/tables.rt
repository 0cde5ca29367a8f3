//! Tables of attributes, by their bytes, and the calls that make and read them.
use super::{expect_bytes, expect_each, expect_equal};
use bios_attr::attribute_entry::{KindFields, attribute_at};
use bios_attr::string_entry::string_at;
use bios_attr::table_entry::entry_at;
use bios_attr::{BiosTable, CurrentValues, Tables, count_table};
use cfg_records::sample_board;
use pldm_base::{GET_FIRST_PART, GET_NEXT_PART, TransferFlag, crc32};
use record_base::attribute_sizes::MOST_VALUE;
use std::alloc::Global;
use std::process::Abort;
use two_wire::Bytes;

/// What is read of bytes, a line each: `table values HEX` counts the entries of a table, whose bytes the table's CRC-32 ends, `whole` the
/// same of bytes that have it, and `entry values HEX` tells how many bytes the first entry has.
const READ: &str = "# The tables of the sample board, with their padding.
table strings 000005005175696574010003006F6666020002006F6E0300050041737365740400050044656C6179 -> Ok(5)
table attributes 00000000000201000200010001000103000100 00C8000000 02000304 000000000000000000 2C01000000000000 0A000000 1E00000000000000 000000 -> Ok(3)
table values 00000001000100010600 7261636B2D31 0200031E00000000000000 00 -> Ok(3)
table strings -> Ok(0)
whole strings 00000000 -> Ok(0)
# Other bytes are no table.
table values 00000001000100010600 7261636B2D31 0200031E00000000000000 -> Err(WrongLength)
table values 00000001000100010600 7261636B2D31 0200031E00000000000000 01 -> Err(WrongPadding)
table values 00000001000100010600 7261636B2D31 0200031E00000000000000 0000000001 -> Err(WrongPadding)
table strings 000005005175696574010003006F6666020002006F6E0300050041737365740400050044656C6179 09000100 -> Err(NotAnEntry)
table attributes 000005005175696574010003006F6666020002006F6E0300050041737365740400050044656C6179 -> Err(NotAnEntry)
table strings 00000001000100010600 7261636B2D31 0200031E00000000000000 00 -> Err(NotAnEntry)
whole strings 01000000 -> Err(WrongCheck)
# Entries have their lengths, whatever stands behind them.
entry strings 0700 0200 6F6E -> Some(6)
entry strings 0700 0000 09 -> Some(4)
entry strings 0700 0300 6F6E -> None
entry strings 0700 02 -> None
entry attributes 0000 00 0000 01 0100 01 00 -> Some(10)
entry attributes 0000 02 0000 01 0100 01 00 -> None
entry attributes 0000 00 0000 02 0100 01 00 -> None
entry attributes 0000 00 0000 01 0100 02 00 -> None
entry attributes 0000 81 0000 01 0000 0900 0000 -> Some(12)
entry values 0000 80 01 00 09 -> Some(5)
entry values 0000 00 03 00 09 -> None
entry values 0000 02 01 00 09 -> None
# The length field alone bounds a value: no request carries a text of 300 bytes whole. Of the second a byte is missing.
entry values 0700 01 2C01 6161616161616161616161616161616161616161616161616161616161616161616161616161616161616161616161616161 \
6161616161616161616161616161616161616161616161616161616161616161616161616161616161616161616161616161 \
6161616161616161616161616161616161616161616161616161616161616161616161616161616161616161616161616161 \
6161616161616161616161616161616161616161616161616161616161616161616161616161616161616161616161616161 \
6161616161616161616161616161616161616161616161616161616161616161616161616161616161616161616161616161 \
6161616161616161616161616161616161616161616161616161616161616161616161616161616161616161616161616161 -> Some(305)
entry values 0700 01 2C01 6161616161616161616161616161616161616161616161616161616161616161616161616161616161616161616161616161 \
6161616161616161616161616161616161616161616161616161616161616161616161616161616161616161616161616161 \
6161616161616161616161616161616161616161616161616161616161616161616161616161616161616161616161616161 \
6161616161616161616161616161616161616161616161616161616161616161616161616161616161616161616161616161 \
6161616161616161616161616161616161616161616161616161616161616161616161616161616161616161616161616161 \
61616161616161616161616161616161616161616161616161616161616161616161616161616161616161616161616161 -> None";

/// Lines that are told wrong: each comes otherwise.
const WRONG: &str = "table strings -> Ok(1)
whole strings 01000000 -> Ok(0)
entry strings 0700 0200 6F6E -> Some(5)
entry numbers 0700 -> None
count strings 0700 -> None
entry strings 070 -> None";

/// What is said of them.
const SAID: &str = "table strings -> Ok(1): Ok(0)
whole strings 01000000 -> Ok(0): Err(WrongCheck)
entry strings 0700 0200 6F6E -> Some(5): Some(6)
entry numbers 0700 -> None: no line
count strings 0700 -> None: no line
entry strings 070 -> None: no line
";

/// The table of this name.
fn table_of(name: &str) -> Option<BiosTable> {
    match name {
        "strings" => Some(BiosTable::Strings),
        "attributes" => Some(BiosTable::Attributes),
        "values" => Some(BiosTable::Values),
        _ => None,
    }
}

/// The bytes of the digits, between which blanks may stand.
fn bytes_of(rt: &impl Abort, alloc: Global, digits: &str) -> Option<Vec<u8>> {
    let digits = digits.replace(alloc, " ", "").expect(rt, "memory");
    let bytes = text_lines::bytes(alloc, digits.as_str());
    drop(digits);
    bytes.expect(rt, "memory")
}

/// How many bytes the first entry has, if there is one.
fn first_length(table: BiosTable, bytes: &[u8]) -> Option<usize> {
    let (_, rest) = entry_at(table, bytes)?;
    bytes.len().checked_sub(rest.as_slice().len())
}

/// What is read of the bytes.
fn read(
    rt: &impl Abort,
    alloc: Global,
    word: &str,
    table: BiosTable,
    bytes: &mut Vec<u8>,
) -> String {
    if word == "table" {
        let check = crc32(bytes.as_slice()).to_le_bytes();
        bytes.extend_from_slice(&check).expect(rt, "memory");
    }
    let read = match word {
        "table" | "whole" => format!(in alloc; "{:?}", count_table(table, bytes.as_slice())),
        "entry" => format!(in alloc; "{:?}", first_length(table, bytes.as_slice())),
        _ => String::from_str(alloc, "no line"),
    };
    read.expect(rt, "memory")
}

/// What comes of the line's first part.
fn found(rt: &impl Abort, alloc: Global, what: &str) -> String {
    let (word, rest) = what.split_once(' ').unwrap_or((what, ""));
    let (name, digits) = rest.split_once(' ').unwrap_or((rest, ""));
    if let Some(table) = table_of(name) {
        if let Some(mut bytes) = bytes_of(rt, alloc, digits) {
            let read = read(rt, alloc, word, table, &mut bytes);
            drop(bytes);
            return read;
        }
    }
    String::from_str(alloc, "no line").expect(rt, "memory")
}

/// Appends the line with what came, where that isn't what is told.
fn push_otherwise(rt: &impl Abort, alloc: Global, report: &mut String, line: &str) {
    let (what, want) = line.split_once(" -> ").unwrap_or((line, ""));
    let came = found(rt, alloc, what);
    if came.as_str() != want && !line.starts_with("#") {
        writeln!(report, "{line}: {}", came.as_str()).expect(rt, "memory");
    }
    drop(came);
}

/// This comes otherwise than the lines tell.
fn expect_otherwise(rt: &impl Abort, alloc: Global, lines: &str, said: &str) {
    let mut report = String::new(alloc);
    for line in lines.lines() {
        push_otherwise(rt, alloc, &mut report, line);
    }
    expect_equal(rt, report.as_str(), said);
    drop(report);
}

#[test]
fn tables_and_entries_are_read_and_lines_told_wrong_are_noticed(rt: HostRuntime) {
    expect_otherwise(&rt, rt.alloc(), READ, "");
    expect_otherwise(&rt, rt.alloc(), WRONG, SAID);
}

/// The strings of an attribute and its possible values.
const STRINGS: [u8; 18] = [
    0, 0, 5, 0, 0x51, 0x75, 0x69, 0x65, 0x74, 1, 0, 3, 0, 0x6F, 0x66, 0x66, 2, 0,
];

/// The attribute: an enumeration of two values.
const ATTRIBUTE: [u8; 13] = [0, 0, 0, 0, 0, 2, 1, 0, 2, 0, 1, 0, 1];

/// An enumeration of two values, of which the first is its default.
fn expect_enumeration(rt: &impl Abort, kind: &KindFields<'_>) {
    match kind {
        KindFields::Enumeration(fields) => {
            expect_bytes(rt, fields.values.as_slice(), &[1, 0, 2, 0]);
            expect_bytes(rt, fields.default.as_slice(), &[0]);
        }
        _ => panic!(rt; "an enumeration"),
    }
}

#[test]
fn a_string_and_an_attribute_are_shown_where_they_lie(rt: HostRuntime) {
    let (entry, rest) = string_at(&STRINGS).expect(&rt, "a string");
    expect_equal(&rt, entry.handle, 0);
    expect_bytes(&rt, entry.text.as_slice(), b"Quiet");
    expect_bytes(&rt, rest.as_slice(), &STRINGS[9..]);
    let (entry, rest) = attribute_at(&ATTRIBUTE).expect(&rt, "an attribute");
    let hold = [entry.attribute == 0, entry.name == 0, !entry.read_only];
    expect_each(&rt, &hold, "the attribute, its name, it can be set");
    expect_bytes(&rt, rest.as_slice(), &[1]);
    expect_enumeration(&rt, &entry.kind);
}

/// The values of three attributes.
#[derive(Drop)]
struct Three {
    first: Bytes<{ MOST_VALUE }>,
    second: Bytes<{ MOST_VALUE }>,
    third: Bytes<{ MOST_VALUE }>,
}

impl CurrentValues for Three {
    ghost use Rattle.std.specs.Prelude.{◌==◌, if◌then◌else◌};

    ghost value_of = { λ s handle. if handle == 0 then s.first else (if handle == 1 then s.second else s.third) };

    fn value(&self, attribute: u16) -> &[u8] {
        match attribute {
            0 => self.first.as_slice(),
            1 => self.second.as_slice(),
            _ => self.third.as_slice(),
        }
    }
}

/// The values of the sample board.
fn sample_values() -> Three {
    Three {
        first: Bytes::from_slice(&[1, 0]),
        second: Bytes::from_slice(&[6, 0, 0x72, 0x61, 0x63, 0x6B, 0x2D, 0x31]),
        third: Bytes::from_slice(&[0x1E, 0, 0, 0, 0, 0, 0, 0]),
    }
}

/// The tables of the sample board.
fn sample_tables(rt: &impl Abort, alloc: Global) -> Tables {
    let file = sample_board(alloc).expect(rt, "memory");
    let mut tables = Tables::open(alloc, &file.attributes).expect(rt, "memory");
    drop(file);
    tables.show(&sample_values());
    tables
}

/// The table is given in one part, as long as this, and has so many entries.
fn expect_whole(rt: &impl Abort, tables: &Tables, table: BiosTable, length: usize, entries: usize) {
    let given = tables.part(table, GET_FIRST_PART, 9).ok();
    let part = given.expect(rt, "a part");
    let hold = [
        part.next == 0,
        part.flag == TransferFlag::StartAndEnd,
        tables.part(table, GET_NEXT_PART, 192).is_err(),
    ];
    expect_each(rt, &hold, "the last part, the only part, no part follows");
    expect_equal(rt, part.bytes.len(), length);
    expect_bytes(rt, part.bytes, tables.table(table));
    expect_equal(rt, count_table(table, part.bytes), Ok(entries));
}

#[test]
fn the_tables_of_the_sample_board_are_whole(rt: HostRuntime) {
    let tables = sample_tables(&rt, rt.alloc());
    expect_whole(&rt, &tables, BiosTable::Strings, 44, 5);
    expect_whole(&rt, &tables, BiosTable::Attributes, 64, 3);
    expect_whole(&rt, &tables, BiosTable::Values, 32, 3);
    drop(tables);
}
