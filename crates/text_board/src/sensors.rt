//! The sensors of a board file.
ghost use Rattle.std.specs.Prelude.{◌≡◌, [], IfOk, IfErr};
ghost use Rattle.std.specs.List.{AllZip};
ghost use Rattle.toml.specs.View.{table_view};
ghost use Rattle.text_fields.specs.Trees.{members_in};
ghost use Rattle.text_board.specs.Faults.{sensor_faults, IsFirstFault};
ghost use Rattle.text_board.specs.Holds.{HoldsEvents, HoldsSensor, IsSensorIn};

use crate::check::checked;
use crate::fault::{FileFault, Item, Place};
use crate::items::{ArrayReader, distinct_items};
use crate::tables::{SENSOR, TOP};
use cfg_records::mask::has;
use cfg_records::{Sensor, Sensors};
use record_base::event_enable::{MESSAGES_PLACE, SCANNING_PLACE};
use record_base::{EventEnable, EventMasks};
use std::alloc::Global;
use text_fields::range::thresholds;
use text_fields::tree::{byte_in, word_in};
use text_fields::{Checked, Field};
use toml::Table;

/// The events of the sensor that the table is.
fn events(item: &Checked<'_>) -> EventEnable
    requires { item.now.rows.now ≡ SENSOR }
    ensures { HoldsEvents (table_view item.now.table.now) result }
{
    let supported = item.word(Field::Supported);
    let flags = byte_in(item.table, Field::Flags);
    let enabled = EventMasks {
        assertions: word_in(item.table, Field::Assert),
        deassertions: word_in(item.table, Field::Deassert),
    };
    let messages = has(flags, MESSAGES_PLACE);
    let scanning = has(flags, SCANNING_PLACE);
    EventEnable::new(supported, messages, scanning, enabled).unwrap()
}

/// The sensor that the table is.
fn sensor(item: &Checked<'_>) -> Sensor
    requires { item.now.rows.now ≡ SENSOR }
    ensures { HoldsSensor (table_view item.now.table.now) result }
{
    Sensor {
        number: item.byte(Field::Number),
        sensor_type: item.byte(Field::Type),
        thresholds: thresholds(item.table, item.value(Field::Thresholds)).unwrap(),
        hysteresis: item.pair(Field::Hysteresis).into(),
        events: events(item),
    }
}

/// How sensors are read.
#[derive(Drop)]
struct SensorReader;

impl ArrayReader for SensorReader {
    type Entry = Sensor;

    ghost use Rattle.text_fields.specs.declared.field.Field.TheVariants as field;
    ghost use Rattle.text_board.specs.declared.fault.Item.TheVariants as item;
    ghost use Rattle.text_board.specs.declared.tables.TheConstants.{SENSOR};

    ghost item_at = { item.Sensor };

    ghost rows = { λ _ _. SENSOR };

    ghost named = { field.Number };

    ghost holds = { HoldsSensor };

    ghost numbered = { λ tree sensor held. held.numbered };

    fn number_place(place: usize) -> Place {
        Place {
            item: Item::Sensor(place),
            field: Field::Number,
        }
    }

    fn read(&self, _alloc: Global, place: usize, table: &Table) -> Result<Sensor, FileFault> {
        let item = checked(Item::Sensor(place), &SENSOR, table)?;
        Ok(sensor(&item))
    }
}

/// The sensors of the file.
pub fn sensors(alloc: Global, top: &Checked<'_>) -> Result<Sensors, FileFault>
    requires { top.now.rows.now ≡ TOP }
    ensures sound { IfOk result (λ _.
        sensor_faults (members_in Field.Sensor (table_view top.now.table.now)) ≡ []) }
    ensures held { IfOk result (λ sensors.
        AllZip IsSensorIn (members_in Field.Sensor (table_view top.now.table.now)) sensors.items) }
    ensures err { IfErr result (IsFirstFault
        (sensor_faults (members_in Field.Sensor (table_view top.now.table.now)))) }
{
    distinct_items(&SensorReader, alloc, top.tables(Field::Sensor))
}
