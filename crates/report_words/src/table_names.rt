//! The names of sensors and attributes, as far as they are known.
ghost use Rattle.std.specs.Prelude.{◌≡◌, ◌<◌, ◌&&◌, ◌==◌, [], IfOk, IfSome, Some, length, not};
ghost use Rattle.std.specs.List.{find, list_any, position};
ghost use Rattle.std.specs.Option.{option_copied, option_map};
ghost use Rattle.report_words.specs.TableNames.{AreNamed, AreWanted, IsNamedByTables, KnowsNone, WantsOf};
ghost use Rattle.report_words.specs.TableNames.{attribute_of, is_of_handle, is_of_number, is_unread};
ghost use Rattle.report_words.specs.TableNames.{name_of, name_of_attribute, name_of_sensor, sensor_of};
ghost use Rattle.report_words.specs.TableNames.{with_attribute, with_name, with_sensor};

use crate::attribute_names::attribute_name;
use crate::sensor_names::IdString;
use record_base::Key;
use std::alloc::{AllocError, Global};

/// A sensor, whether its record was read, and the name that it has there.
#[derive(Drop)]
pub struct SensorName {
    number: u8,
    read: bool,
    name: Option<IdString>,
}

/// An attribute, and its name where that is known.
#[derive(Drop)]
pub struct AttributeName {
    handle: u16,
    name: Option<Vec<u8>>,
}

/// The names of the sensors and attributes of some records, as far as they are known.
#[derive(Drop)]
pub struct Names {
    sensors: Vec<SensorName>,
    attributes: Vec<AttributeName>,
}

/// The sensor of which the record is, if it is a sensor's.
pub fn sensor_of(key: &Key) -> Option<u8>
    ensures { result ≡ sensor_of key.now }
{
    match key {
        Key::Thresholds(number) | Key::Hysteresis(number) | Key::EventEnable(number) => {
            Some(*number)
        }
        _ => None,
    }
}

/// The attribute whose value the record is, if it is one.
pub fn attribute_of(key: &Key) -> Option<u16>
    ensures { result ≡ attribute_of key.now }
{
    match key {
        Key::BiosAttribute(handle) => Some(*handle),
        _ => None,
    }
}

impl SensorName {
    /// The bytes of the name.
    fn name_bytes(&self) -> Option<&[u8]>
        ensures { option_map (λ name. name.now) result ≡ name_of_sensor (Some self.now) }
    {
        match &self.name {
            Some(name) => Some(name.as_slice()),
            None => None,
        }
    }
}

impl AttributeName {
    /// The bytes of the name.
    fn name_bytes(&self) -> Option<&[u8]>
        ensures { option_map (λ name. name.now) result ≡ name_of_attribute (Some self.now) }
    {
        match &self.name {
            Some(name) => Some(name.as_slice()),
            None => None,
        }
    }

    /// Names the attribute, where the tables of attributes and of strings do.
    fn name_by(
        &mut self,
        alloc: Global,
        attributes: &[u8],
        strings: &[u8],
    ) -> Result<(), AllocError>
        ensures { IfOk result (λ _. IsNamedByTables attributes.now strings.now self.old self.new) }
    {
        if let Some(text) = attribute_name(attributes, strings, self.handle) {
            self.name = Some(Vec::from_slice(alloc, text)?);
        }
        Ok(())
    }
}

impl Names {
    /// No names are known, and none are wanted.
    pub fn new(alloc: Global) -> Self
        ensures sensors { result.sensors.items ≡ [] }
        ensures attributes { result.attributes.items ≡ [] }
        ensures none { KnowsNone result }
    {
        let sensors = Vec::new(alloc);
        let attributes = Vec::new(alloc);
        Names {
            sensors,
            attributes,
        }
    }

    /// Those that these records want. None is known.
    pub fn wanted(alloc: Global, keys: &[Key]) -> Result<Self, AllocError>
        ensures { IfOk result (AreWanted keys.now) }
    {
        let mut names = Names::new(alloc);
        for key in keys {
            names.want(key)?;
        }
        Ok(names)
    }

    /// Wants the name that the record has.
    fn want(&mut self, key: &Key) -> Result<(), AllocError>
        ensures { IfOk result (λ _. WantsOf key.now self.old self.new) }
    {
        self.want_sensor(sensor_of(key))?;
        self.want_attribute(attribute_of(key))
    }

    /// Whether this sensor has an entry.
    fn has_sensor(&self, number: u8) -> bool
        ensures { result ≡ list_any (is_of_number number) self.now.sensors.items }
    {
        self.sensors.iter().any(|sensor| sensor.number == number)
    }

    /// Whether this attribute has one.
    fn has_attribute(&self, handle: u16) -> bool
        ensures { result ≡ list_any (is_of_handle handle) self.now.attributes.items }
    {
        self.attributes
            .iter()
            .any(|attribute| attribute.handle == handle)
    }

    /// Wants the name of this sensor, once.
    fn want_sensor(&mut self, sensor: Option<u8>) -> Result<(), AllocError>
        ensures sensors { IfOk result (λ _.
            self.new.sensors.items ≡ with_sensor sensor self.old.sensors.items) }
        ensures attributes { self.new.attributes ≡ self.old.attributes }
    {
        let Some(number) = sensor else {
            return Ok(());
        };
        if self.has_sensor(number) {
            return Ok(());
        }
        let sensor = SensorName {
            number,
            read: false,
            name: None,
        };
        self.sensors.push(sensor)?;
        Ok(())
    }

    /// Wants the name of this attribute, once.
    fn want_attribute(&mut self, attribute: Option<u16>) -> Result<(), AllocError>
        ensures attributes { IfOk result (λ _.
            self.new.attributes.items ≡ with_attribute attribute self.old.attributes.items) }
        ensures sensors { self.new.sensors ≡ self.old.sensors }
    {
        let Some(handle) = attribute else {
            return Ok(());
        };
        if self.has_attribute(handle) {
            return Ok(());
        }
        self.attributes.push(AttributeName { handle, name: None })?;
        Ok(())
    }

    /// Whether the name of this sensor is wanted, and its record wasn't read.
    pub fn wants_sensor(&self, number: u8) -> bool
        ensures { result ≡ list_any (λ sensor. is_of_number number sensor && is_unread sensor)
            self.now.sensors.items }
    {
        self.sensors
            .iter()
            .any(|sensor| sensor.number == number && !sensor.read)
    }

    /// Whether the record of a sensor wasn't read.
    pub fn wants_sensors(&self) -> bool
        ensures { result ≡ list_any is_unread self.now.sensors.items }
    {
        self.sensors.iter().any(|sensor| !sensor.read)
    }

    /// Whether the name of an attribute is wanted.
    pub fn wants_attributes(&self) -> bool
        ensures { result ≡ not (length self.now.attributes.items == 0) }
    {
        !self.attributes.is_empty()
    }

    /// The place of the first entry of this sensor.
    fn place_of(&self, number: u8) -> Option<usize>
        ensures value { result ≡ position (is_of_number number) self.now.sensors.items }
        ensures within { IfSome result (λ place. place < length self.now.sensors.items) }
    {
        self.sensors
            .iter()
            .position(|sensor| sensor.number == number)
    }

    /// The record of this sensor was read, and has this name or none.
    pub fn name_sensor(&mut self, number: u8, name: Option<IdString>)
        ensures sensors { self.new.sensors.items ≡ with_name number name self.old.sensors.items }
        ensures attributes { self.new.attributes ≡ self.old.attributes }
    {
        if let Some(place) = self.place_of(number) {
            self.sensors[place] = SensorName {
                number,
                read: true,
                name,
            };
        }
    }

    /// Names each attribute, by the tables of attributes and of strings.
    pub fn name_attributes(
        &mut self,
        alloc: Global,
        attributes: &[u8],
        strings: &[u8],
    ) -> Result<(), AllocError>
        ensures attributes { IfOk result (λ _. AreNamed attributes.now strings.now
            self.old.attributes.items self.new.attributes.items) }
        ensures sensors { self.new.sensors ≡ self.old.sensors }
    {
        for place in 0..self.attributes.len() {
            self.attributes[place].name_by(alloc, attributes, strings)?;
        }
        Ok(())
    }

    /// The first entry of a sensor.
    fn sensor(&self, number: u8) -> Option<&SensorName>
        ensures { option_copied result ≡ find (is_of_number number) self.now.sensors.items }
    {
        self.sensors.iter().find(|sensor| sensor.number == number)
    }

    /// The first entry of an attribute.
    fn attribute(&self, handle: u16) -> Option<&AttributeName>
        ensures { option_copied result ≡ find (is_of_handle handle) self.now.attributes.items }
    {
        self.attributes
            .iter()
            .find(|attribute| attribute.handle == handle)
    }

    /// The name of a sensor.
    fn of_sensor(&self, number: u8) -> Option<&[u8]>
        ensures { option_map (λ name. name.now) result
            ≡ name_of_sensor (find (is_of_number number) self.now.sensors.items) }
    {
        match self.sensor(number) {
            Some(sensor) => sensor.name_bytes(),
            None => None,
        }
    }

    /// The name of an attribute.
    fn of_attribute(&self, handle: u16) -> Option<&[u8]>
        ensures { option_map (λ name. name.now) result
            ≡ name_of_attribute (find (is_of_handle handle) self.now.attributes.items) }
    {
        match self.attribute(handle) {
            Some(attribute) => attribute.name_bytes(),
            None => None,
        }
    }

    /// The name of the record's sensor or attribute, where it has one that is known.
    pub fn of(&self, key: &Key) -> Option<&[u8]>
        ensures { option_map (λ name. name.now) result ≡ name_of self.now key.now }
    {
        match key {
            Key::Thresholds(number) | Key::Hysteresis(number) | Key::EventEnable(number) => {
                self.of_sensor(*number)
            }
            Key::BiosAttribute(handle) => self.of_attribute(*handle),
            _ => None,
        }
    }
}
