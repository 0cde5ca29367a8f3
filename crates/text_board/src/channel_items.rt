//! The channels of a board file.
ghost use Rattle.std.specs.Prelude.{◌≡◌, ◌<◌, ◌≤◌, [], true, Some, IfOk, IfErr, OnOk, map, length};
ghost use Rattle.std.specs.List.{list_all, AllZip};
ghost use Rattle.record_base.specs.BoardSizes.{most_channels, most_users};
ghost use Rattle.record_base.specs.Distinct.{NamesDiffer};
ghost use Rattle.cfg_records.specs.BoardChannels.{channel_numbers};
ghost use Rattle.toml.specs.View.{view, table_view};
ghost use Rattle.text_fields.specs.Trees.{natural, table_of, members_in, HasNumber};
ghost use Rattle.text_fields.specs.Ranges.{is_table, may_do, or_zero};
ghost use Rattle.text_fields.specs.Faults.{field_faults, first};
ghost use Rattle.text_board.specs.Faults.{own_faults, IsFirstFault, has_sessions, session_rows, channel_rows, channel_faults, users_in};
ghost use Rattle.text_board.specs.Holds.{IsNumberIn, HoldsChannel, IsChannelIn, with_sessions, without_sessions, accesses_in, parts_of, on_channel, channel_of, HoldChannels};

use crate::check::check;
use crate::fault::{FileFault, Item, Place};
use crate::items::{ArrayReader, items_of};
use crate::tables::{CHANNEL, TOP, session_rows};
use cfg_records::Distinct;
use record_base::{
    Channel, ChannelAccess, ChannelNumber, Channels, SessionlessChannels, UserAccess, UserAccesses,
    UserNumber, UserOnChannel,
};
use std::alloc::Global;
use text_fields::channels::{accesses, channel_in, limits};
use text_fields::tree::{in_field, members_in, members_of, natural};
use text_fields::{Checked, Field};
use toml::{Table, Value};

/// Whether the channel that the table is has sessions.
pub fn has_sessions(table: &Table) -> bool
    ensures { result ≡ has_sessions (table_view table.now) }
{
    match in_field(table, Field::Sessions) {
        Some(value) => match value.as_bool() {
            Some(sessions) => sessions,
            None => false,
        },
        None => false,
    }
}

/// The first fault of the fields of a channel in a file of so many users, if there is one.
fn check_channel(item: Item, users: usize, table: &Table) -> Result<(), FileFault>
    ensures ok { OnOk result
        (field_faults (channel_rows users (table_view table.now)) (table_view table.now) ≡ []) }
    ensures err { IfErr result (λ why.
        first (own_faults item (channel_rows users) (table_view table.now)) ≡ Some why) }
{
    if has_sessions(table) {
        return check(item, &session_rows(users), table);
    }
    check(item, &CHANNEL, table)
}

/// How the numbers of channels are read in a file of so many users.
#[derive(Drop)]
struct ChannelReader {
    users: usize,
}

impl ArrayReader for ChannelReader {
    type Entry = ChannelNumber;

    ghost use Rattle.text_fields.specs.declared.field.Field.TheVariants as field;
    ghost use Rattle.text_board.specs.declared.fault.Item.TheVariants as item;

    ghost item_at = { item.Channel };

    ghost rows = { λ reader. channel_rows reader.users };

    ghost named = { field.Number };

    ghost holds = { λ tree channel. HasNumber field.Number tree channel.number };

    ghost numbered = { λ tree channel held. held };

    fn number_place(place: usize) -> Place {
        Place {
            item: Item::Channel(place),
            field: Field::Number,
        }
    }

    fn read(
        &self,
        _alloc: Global,
        place: usize,
        table: &Table,
    ) -> Result<ChannelNumber, FileFault> {
        check_channel(Item::Channel(place), self.users, table)?;
        Ok(channel_in(table, Field::Number))
    }
}

/// The channel with sessions that the table is.
fn channel(users: usize, table: &Table) -> Channel
    requires { field_faults (session_rows users) (table_view table.now) ≡ [] }
    ensures { HoldsChannel (table_view table.now) result }
{
    let rows = session_rows(users);
    let item = Checked::known(&rows, table);
    let [first, second] = accesses(item.value(Field::Access)).unwrap();
    let [one, other] = limits(item.value(Field::Limit)).unwrap();
    Channel {
        number: channel_in(table, Field::Number),
        non_volatile: ChannelAccess::new(first, one).unwrap(),
        volatile: ChannelAccess::new(second, other).unwrap(),
    }
}

/// The table that the value is.
fn table_at(value: &Value) -> &Table
    requires { is_table (view value.now) ≡ true }
    ensures { table_view result.now ≡ table_of (view value.now) }
{
    value.as_table().unwrap()
}

/// The channels that have sessions.
fn channels_of(alloc: Global, users: usize, values: &[Value]) -> Result<Vec<Channel>, FileFault>
    requires tables { list_all (λ value. is_table (view value)) values.now ≡ true }
    requires sound { channel_faults users (map view values.now) ≡ [] }
    ensures held { IfOk result (λ channels.
        AllZip IsChannelIn (with_sessions (map view values.now)) channels.items) }
    ensures err { IfErr result (λ why. why ≡ FileFault.Memory) }
{
    let mut channels = Vec::new(alloc);
    for value in values {
        let table = table_at(value);
        if has_sessions(table) {
            match channels.push(channel(users, table)) {
                Ok(()) => {}
                Err(_) => return Err(FileFault::Memory),
            }
        }
    }
    Ok(channels)
}

/// The numbers of those that have none.
fn sessionless_of(
    alloc: Global,
    users: usize,
    values: &[Value],
) -> Result<Vec<ChannelNumber>, FileFault>
    requires tables { list_all (λ value. is_table (view value)) values.now ≡ true }
    requires sound { channel_faults users (map view values.now) ≡ [] }
    ensures held { IfOk result (λ channels.
        AllZip IsNumberIn (without_sessions (map view values.now)) channels.items) }
    ensures err { IfErr result (λ why. why ≡ FileFault.Memory) }
{
    let mut channels = Vec::new(alloc);
    for value in values {
        let table = table_at(value);
        if !has_sessions(table) {
            match channels.push(channel_in(table, Field::Number)) {
                Ok(()) => {}
                Err(_) => return Err(FileFault::Memory),
            }
        }
    }
    Ok(channels)
}

/// What the user of this number may do on the channel, as the value says.
fn access(channel: ChannelNumber, user: u8, value: &Value) -> UserAccess
    requires user { user < 64 }
    requires byte { may_do (view value.now) ≡ true }
    ensures { parts_of result ≡ (channel.number, (user, or_zero (natural (view value.now)))) }
{
    let on = UserOnChannel {
        channel,
        user: UserNumber { number: user },
    };
    UserAccess::new(on, natural(value).unwrap() as u8).unwrap()
}

/// What users may do on the channel, as each of these values says.
fn accesses_on(
    alloc: Global,
    channel: ChannelNumber,
    values: &[Value],
) -> Result<Vec<UserAccess>, FileFault>
    requires few { length values.now ≤ most_users }
    requires bytes { list_all (λ value. may_do (view value)) values.now ≡ true }
    ensures held { IfOk result (λ accesses.
        map parts_of accesses.items ≡ on_channel channel.number 1 (map view values.now)) }
    ensures err { IfErr result (λ why. why ≡ FileFault.Memory) }
{
    let mut accesses = Vec::new(alloc);
    for (place, value) in values.iter().enumerate() {
        match accesses.push(access(channel, place as u8 + 1, value)) {
            Ok(()) => {}
            Err(_) => return Err(FileFault::Memory),
        }
    }
    Ok(accesses)
}

/// What users may do on the channels with sessions.
fn accesses_of(alloc: Global, users: usize, values: &[Value]) -> Result<Vec<UserAccess>, FileFault>
    requires tables { list_all (λ value. is_table (view value)) values.now ≡ true }
    requires sound { channel_faults users (map view values.now) ≡ [] }
    requires few { users ≤ most_users }
    ensures held { IfOk result (λ accesses.
        map parts_of accesses.items ≡ accesses_in (with_sessions (map view values.now))) }
    ensures err { IfErr result (λ why. why ≡ FileFault.Memory) }
{
    let mut accesses = Vec::new(alloc);
    for value in values {
        let table = table_at(value);
        if has_sessions(table) {
            let channel = channel_in(table, Field::Number);
            let on = accesses_on(alloc, channel, members_in(table, Field::Users))?;
            match accesses.extend_from_slice(on.as_slice()) {
                Ok(()) => {}
                Err(_) => return Err(FileFault::Memory),
            }
        }
    }
    Ok(accesses)
}

/// What a file says of channels: those with sessions, those without, and what users may do. No two channels have one number.
#[derive(Drop)]
pub struct FileChannels {
    pub channels: Channels,
    pub sessionless: SessionlessChannels,
    pub accesses: UserAccesses,
    ghost apart: { NamesDiffer (λ number. number)
        (channel_numbers channels.items sessionless.items) },
    ghost few: { length (channel_numbers channels.items sessionless.items)
        ≤ most_channels },
}

/// The channels that these tables are.
fn split(alloc: Global, users: usize, values: &[Value]) -> Result<FileChannels, FileFault>
    requires tables { list_all (λ value. is_table (view value)) values.now ≡ true }
    requires sound { channel_faults users (map view values.now) ≡ [] }
    requires few { users ≤ most_users }
    requires most { length values.now ≤ most_channels }
    requires differ { NamesDiffer channel_of (map view values.now) }
    ensures held { IfOk result (λ file. HoldChannels (map view values.now)
        file.channels.items file.sessionless.items file.accesses.items) }
    ensures err { IfErr result (λ why. why ≡ FileFault.Memory) }
{
    let channels = channels_of(alloc, users, values)?;
    let sessionless = sessionless_of(alloc, users, values)?;
    let accesses = accesses_of(alloc, users, values)?;
    Ok(FileChannels {
        channels: Distinct::new(channels).unwrap(),
        sessionless: Distinct::new(sessionless).unwrap(),
        accesses: Distinct::new(accesses).unwrap(),
    })
}

/// The channels that these tables are, or their first fault.
fn channels_in(alloc: Global, users: usize, values: &[Value]) -> Result<FileChannels, FileFault>
    requires tables { list_all (λ value. is_table (view value)) values.now ≡ true }
    requires few { users ≤ most_users }
    requires most { length values.now ≤ most_channels }
    ensures sound { IfOk result (λ _. channel_faults users (map view values.now) ≡ []) }
    ensures held { IfOk result (λ file. HoldChannels (map view values.now)
        file.channels.items file.sessionless.items file.accesses.items) }
    ensures err { IfErr result (IsFirstFault (channel_faults users (map view values.now))) }
{
    let _numbers = items_of(&ChannelReader { users }, alloc, values)?;
    split(alloc, users, values)
}

/// The channels of the file.
pub fn file_channels(alloc: Global, top: &Checked<'_>) -> Result<FileChannels, FileFault>
    requires { top.now.rows.now ≡ TOP }
    ensures sound { IfOk result (λ _. channel_faults (users_in (table_view top.now.table.now))
        (members_in Field.Channel (table_view top.now.table.now)) ≡ []) }
    ensures held { IfOk result (λ file.
        HoldChannels (members_in Field.Channel (table_view top.now.table.now))
        file.channels.items file.sessionless.items file.accesses.items) }
    ensures err { IfErr result (IsFirstFault
        (channel_faults (users_in (table_view top.now.table.now))
        (members_in Field.Channel (table_view top.now.table.now)))) }
{
    let users = members_of(top.value(Field::Users)).len();
    channels_in(alloc, users, top.tables(Field::Channel))
}
