//! The names that a board's file gives: a sensor's in its sensor data record, and an attribute's with the attribute.
ghost use Rattle.std.specs.Prelude.{◌≡◌, ◌==◌, drop, find, map, IfOk};
ghost use Rattle.std.specs.List.{filter_map};
ghost use Rattle.std.specs.Option.{option_copied, option_map};
ghost use Rattle.report_words.specs.SensorNames.{id_string};
ghost use Rattle.report_words.specs.BoardNames.{name_of, names_of, of_attribute, of_sensor, told_attribute, told_sensor};

use crate::sensor_names::{IdString, id_string, sensor_head};
use cfg_records::BoardFile;
use record_base::{AtOnce, Attribute, Key, SdrRecord, Text};
use std::alloc::{AllocError, Global};
use std::marker::Model;

/// The names of a board's sensors and attributes.
#[derive(Drop)]
pub struct BoardNames {
    /// Of each sensor data record of a sensor the sensor's number, and its name where the record has one.
    sensors: Vec<(u8, Option<IdString>)>,
    /// Of each attribute its handle and its name.
    attributes: Vec<(u16, Text)>,
}

impl Model for BoardNames {
    ghost use Rattle.report_words.specs.BoardNames.{GivenNames};

    ghost Value = { GivenNames };

    ghost view = { λ n. record { sensors = n.sensors.items; attributes = n.attributes.items } };
}

/// The id string of a sensor data record, which begins at this offset.
fn id_in(sdr: &[u8], place: u8) -> Option<IdString>
    ensures { result ≡ id_string (drop place sdr.now) }
{
    let place = usize::from(place);
    if place < sdr.len() {
        id_string(&sdr[place..])
    } else {
        None
    }
}

/// The number and the name of the sensor that a sensor data record tells of.
fn told_sensor(sdr: &SdrRecord) -> Option<(u8, Option<IdString>)>
    ensures { result ≡ told_sensor sdr.now }
{
    let bytes = sdr.as_slice();
    match sensor_head(bytes) {
        Some(head) => Some((head.number, id_in(bytes, head.id_place))),
        None => None,
    }
}

/// The handle and the name of an attribute.
fn told_attribute(attribute: &Attribute) -> (u16, Text)
    ensures { result ≡ told_attribute attribute.now }
{
    (attribute.handle, attribute.name.copy())
}

/// What each sensor data record of the board tells of a sensor.
fn told_sensors(
    alloc: Global,
    file: &BoardFile,
) -> Result<AtOnce<(u8, Option<IdString>)>, AllocError>
    ensures { IfOk result
        (λ told. told.items.items ≡ filter_map told_sensor file.now.sdr.items) }
{
    let records = file.sdr.items.as_slice();
    records
        .iter()
        .filter_map(|record| told_sensor(record))
        .collect(alloc)
}

/// The handle and the name of each attribute of the board.
fn told_attributes(alloc: Global, file: &BoardFile) -> Result<AtOnce<(u16, Text)>, AllocError>
    ensures { IfOk result
        (λ told. told.items.items ≡ map told_attribute file.now.attributes.items) }
{
    let attributes = file.attributes.items.as_slice();
    attributes
        .iter()
        .map(|attribute| told_attribute(attribute))
        .collect(alloc)
}

/// The bytes of a name, where there is one.
fn bytes_of(name: &Option<IdString>) -> Option<&[u8]>
    ensures { option_map (λ name. name.now) result ≡ name.now }
{
    match name {
        Some(name) => Some(name.as_slice()),
        None => None,
    }
}

impl BoardNames {
    /// Those of the board of a file.
    pub fn of(alloc: Global, file: &BoardFile) -> Result<Self, AllocError>
        ensures { IfOk result (λ names. names ≡ names_of file.now) }
    {
        let sensors = told_sensors(alloc, file)?.items;
        let attributes = told_attributes(alloc, file)?.items;
        Ok(BoardNames {
            sensors,
            attributes,
        })
    }

    /// What the first record tells that tells of the sensor.
    fn first_told(&self, number: u8) -> Option<&(u8, Option<IdString>)>
        ensures { option_copied result ≡ find (λ told. told.0 == number) self.now.sensors }
    {
        self.sensors.iter().find(|told| told.0 == number)
    }

    /// The name of a sensor, by the first record that tells of it.
    fn of_sensor(&self, number: u8) -> Option<&[u8]>
        ensures { option_map (λ name. name.now) result ≡ of_sensor self.now number }
    {
        match self.first_told(number) {
            Some((_, name)) => bytes_of(name),
            None => None,
        }
    }

    /// The name of an attribute.
    fn of_attribute(&self, handle: u16) -> Option<&[u8]>
        ensures { option_map (λ name. name.now) result ≡ of_attribute self.now handle }
    {
        match self.attributes.iter().find(|told| told.0 == handle) {
            Some((_, name)) => Some(name.as_slice()),
            None => None,
        }
    }

    /// The name of the record's sensor or attribute, where it has one.
    pub fn name_of(&self, key: &Key) -> Option<&[u8]>
        ensures { option_map (λ name. name.now) result ≡ name_of self.now key.now }
    {
        match key {
            Key::Thresholds(number) | Key::Hysteresis(number) | Key::EventEnable(number) => {
                self.of_sensor(*number)
            }
            Key::BiosAttribute(handle) => self.of_attribute(*handle),
            _ => None,
        }
    }
}
