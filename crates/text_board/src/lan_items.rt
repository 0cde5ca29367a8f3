//! The LAN parameters of a board file.
ghost use Rattle.std.specs.Prelude.{◌≡◌, [], IfOk, IfErr, map};
ghost use Rattle.std.specs.List.{list_any, AllZip};
ghost use Rattle.toml.specs.View.{view, table_view};
ghost use Rattle.text_board.specs.Faults.{lan_faults, IsFirstFault};
ghost use Rattle.text_board.specs.LanItems.{has_number, listed_channels, lan_rows, lans_in, HoldsLan, IsLanIn};

use crate::check::checked;
use crate::fault::{FileFault, Item, Place};
use crate::items::{ArrayReader, distinct_items};
use crate::tables::TOP;
use record_base::lan::{Lan, Lans, MOST_SOURCE};
use record_base::lan_parameter::{LanAddress, LanParameter};
use std::alloc::Global;
use text_fields::channels::channel_in;
use text_fields::lan::{address, vlan};
use text_fields::tree::number;
use text_fields::{Checked, Field, LanField, LanShape, Need, Row, Shape};
use toml::{Table, Value};

/// A list of four bytes.
const ADDRESS: Shape = Shape::Lan(LanShape::Bytes(LanParameter::Address(LanAddress::Ip)));

/// A list of two bytes, the second without its ignored bits.
const VLAN: Shape = Shape::Lan(LanShape::Bytes(LanParameter::Vlan));

/// The fields of a `[[lan]]`, where each number of a channel is listed.
pub const LAN: [Row; 6] = [
    Row(
        Field::Channel,
        Shape::Lan(LanShape::Channel([true; 16])),
        Need::Always,
    ),
    Row(Field::Lan(LanField::Ip), ADDRESS, Need::Always),
    Row(
        Field::Lan(LanField::Source),
        Shape::Number(0, MOST_SOURCE as u32),
        Need::Always,
    ),
    Row(Field::Lan(LanField::Mask), ADDRESS, Need::Always),
    Row(Field::Lan(LanField::Gateway), ADDRESS, Need::Always),
    Row(Field::Lan(LanField::Vlan), VLAN, Need::Always),
];

/// The numbers of channels.
pub const NUMBERS: [u64; 16] = [0, 1, 2, 3, 4, 5, 6, 7, 8, 9, 10, 11, 12, 13, 14, 15];

/// The fields of a `[[lan]]` in a file that lists these channels.
fn lan_rows(listed: [bool; 16]) -> [Row; 6]
    ensures { result ≡ lan_rows listed }
{
    let [_, ip, source, mask, gateway, vlan] = LAN;
    let channel = Row(
        Field::Channel,
        Shape::Lan(LanShape::Channel(listed)),
        Need::Always,
    );
    [channel, ip, source, mask, gateway, vlan]
}

/// Whether the channel that the value is has the number.
fn has_number(channel: &Value, wanted: u64) -> bool
    ensures { result ≡ has_number wanted (view channel.now) }
{
    match channel.as_table() {
        Some(table) => match number(table, Field::Number) {
            Some(number) => number == wanted,
            None => false,
        },
        None => false,
    }
}

/// Whether one of the channels has the number.
fn is_number_of(channels: &[Value], number: u64) -> bool
    ensures { result ≡ list_any (λ channel. has_number number (view channel)) channels.now }
{
    channels.iter().any(|channel| has_number(channel, number))
}

/// Of each number of a channel, whether one of these channels has it.
fn listed_channels(channels: &[Value]) -> [bool; 16]
    ensures { result ≡ listed_channels (map view channels.now) }
{
    let mut listed = [false; 16];
    for (place, number) in NUMBERS.iter().enumerate() {
        listed[place] = is_number_of(channels, *number);
    }
    listed
}

/// The LAN parameters that the table is, in a file that lists these channels.
fn lan(listed: [bool; 16], item: &Checked<'_>) -> Lan
    requires { item.now.rows.now ≡ lan_rows listed }
    ensures { HoldsLan (table_view item.now.table.now) result }
{
    let channel = channel_in(item.table, Field::Channel);
    let ip = address(item.value(Field::Lan(LanField::Ip))).unwrap();
    let source = item.byte(Field::Lan(LanField::Source));
    let mask = address(item.value(Field::Lan(LanField::Mask))).unwrap();
    let gateway = address(item.value(Field::Lan(LanField::Gateway))).unwrap();
    let vlan = vlan(item.value(Field::Lan(LanField::Vlan))).unwrap();
    Lan::new(channel, ip, source, mask, gateway, vlan).unwrap()
}

/// How LAN parameters are read in a file that lists these channels.
#[derive(Drop)]
struct LanReader {
    listed: [bool; 16],
}

impl ArrayReader for LanReader {
    type Entry = Lan;

    ghost use Rattle.text_fields.specs.declared.field.Field.TheVariants as field;
    ghost use Rattle.text_board.specs.declared.fault.Item.TheVariants as item;

    ghost item_at = { item.Lan };

    ghost rows = { λ reader _. lan_rows reader.listed };

    ghost named = { field.Channel };

    ghost holds = { HoldsLan };

    ghost numbered = { λ tree lan held. held.numbered };

    fn number_place(place: usize) -> Place {
        Place {
            item: Item::Lan(place),
            field: Field::Channel,
        }
    }

    fn read(&self, _alloc: Global, place: usize, table: &Table) -> Result<Lan, FileFault> {
        let rows = lan_rows(self.listed);
        let item = checked(Item::Lan(place), &rows, table)?;
        Ok(lan(self.listed, &item))
    }
}

/// The LAN parameters of the file.
pub fn lans(alloc: Global, top: &Checked<'_>) -> Result<Lans, FileFault>
    requires { top.now.rows.now ≡ TOP }
    ensures sound { IfOk result (λ _. lan_faults (table_view top.now.table.now) ≡ []) }
    ensures held { IfOk result
        (λ lans. AllZip IsLanIn (lans_in (table_view top.now.table.now)) lans.items) }
    ensures err { IfErr result (IsFirstFault (lan_faults (table_view top.now.table.now))) }
{
    let reader = LanReader {
        listed: listed_channels(top.tables(Field::Channel)),
    };
    distinct_items(&reader, alloc, top.tables(Field::Lan(LanField::Lan)))
}
