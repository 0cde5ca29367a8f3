//! The fields that the reader of a file asks of a table: those of a channel and of LAN parameters rest on the whole file.
ghost use Rattle.std.specs.Prelude.{◌≡◌, IfOk, map};
ghost use Rattle.std.specs.List.{list_any};
ghost use Rattle.toml.specs.View.{table_view, view};
ghost use Rattle.text_board.specs.Faults.{channel_rows, session_rows};
ghost use Rattle.text_board.specs.LanItems.{has_number, lan_rows, listed_channels};
ghost use Rattle.file_faults.specs.Firsts.{rows_in};

use crate::group::{Group, known_rows};
use std::alloc::{AllocError, Global};
use text_board::{LAN, SESSIONS, has_sessions};
use text_fields::tree::{members_in, number};
use text_fields::{Field, LanShape, Need, Row, Shape};
use toml::{Table, Value};

/// The numbers of channels.
const NUMBERS: [u64; 16] = [0, 1, 2, 3, 4, 5, 6, 7, 8, 9, 10, 11, 12, 13, 14, 15];

/// How many fields of a channel with sessions one without has, too.
const WITHOUT_SESSIONS: usize = 2;

/// The fields of a channel with sessions, in a file of so many users.
fn session_rows(alloc: Global, users: usize) -> Result<Vec<Row>, AllocError>
    ensures { IfOk result (λ rows. rows.items ≡ session_rows users) }
{
    let mut rows = Vec::from_slice(alloc, &SESSIONS)?;
    rows.push(Row(Field::Users, Shape::UserBytes(users), Need::Always))?;
    Ok(rows)
}

/// The fields of a channel, in a file of so many users.
fn channel_rows(alloc: Global, users: usize, table: &Table) -> Result<Vec<Row>, AllocError>
    ensures { IfOk result (λ rows. rows.items ≡ channel_rows users (table_view table.now)) }
{
    if has_sessions(table) {
        return session_rows(alloc, users);
    }
    Vec::from_slice(alloc, &SESSIONS[..WITHOUT_SESSIONS])
}

/// Whether the channel that the value is has the number.
fn has_number(channel: &Value, wanted: u64) -> bool
    ensures { result ≡ has_number wanted (view channel.now) }
{
    match channel.as_table() {
        Some(table) => match number(table, Field::Number) {
            Some(number) => number == wanted,
            None => false,
        },
        None => false,
    }
}

/// Whether one of the channels has the number.
fn is_number_of(channels: &[Value], number: u64) -> bool
    ensures { result ≡ list_any (λ channel. has_number number (view channel)) channels.now }
{
    channels.iter().any(|channel| has_number(channel, number))
}

/// Of each number of a channel, whether one of these channels has it.
fn listed_channels(channels: &[Value]) -> [bool; 16]
    ensures { result ≡ listed_channels (map view channels.now) }
{
    let mut listed = [false; 16];
    for (place, number) in NUMBERS.iter().enumerate() {
        listed[place] = is_number_of(channels, *number);
    }
    listed
}

/// The fields of a `[[lan]]` in a file that lists these channels.
fn lan_rows(alloc: Global, listed: [bool; 16]) -> Result<Vec<Row>, AllocError>
    ensures { IfOk result (λ rows. rows.items ≡ lan_rows listed) }
{
    let [_, ip, source, mask, gateway, vlan] = LAN;
    let channel = Row(
        Field::Channel,
        Shape::Lan(LanShape::Channel(listed)),
        Need::Always,
    );
    Vec::from_slice(alloc, &[channel, ip, source, mask, gateway, vlan])
}

/// The fields that the reader of the file that is this tree asks of one of its tables, in its order.
pub fn rows_in(
    alloc: Global,
    group: Group,
    tree: &Table,
    table: &Table,
) -> Result<Vec<Row>, AllocError>
    ensures { IfOk result
        (λ rows. rows.items ≡ rows_in group (table_view tree.now) (table_view table.now)) }
{
    match group {
        Group::Channel => channel_rows(alloc, members_in(tree, Field::Users).len(), table),
        Group::Lan => lan_rows(alloc, listed_channels(members_in(tree, Field::Channel))),
        group => known_rows(alloc, group, table),
    }
}
