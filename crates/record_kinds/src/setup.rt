//! The parts of a board that never change.
ghost use Rattle.std.specs.Prelude.{◌≡◌, ◌≤◌, IfOk, length};
ghost use Rattle.std.specs.Option.{option_copied};
ghost use Rattle.record_base.specs.BoardSizes.{most_sensors};
ghost use Rattle.record_base.specs.Distinct.{NamesDiffer};
ghost use Rattle.record_kinds.specs.Places.{ArePlaces};

use cfg_records::{BoardFile, Device, Sensor};
use record_base::{
    AccessStore, Attribute, Attributes, Channel, ChannelNumber, NumericEffecter, StateEffecter,
    StoredAccess, User, UserAccess, UserNumber, UserOnChannel,
};
use std::alloc::{AllocError, Global};
use std::marker::Model;

pub mod lans;

/// The place of a sensor that the board file hasn't.
const NOWHERE: u8 = 255;

/// A board file, in which a sensor is found by its number in one step. The file lies in memory of its own.
#[derive(Drop)]
pub struct Setup {
    file: Box<BoardFile>,
    /// For each number, where in the file its sensor stands.
    places: [u8; 256],
}

impl Model for Setup {
    ghost use Rattle.std.specs.Coded.{codes};
    ghost use Rattle.record_base.specs.UsersLaws.{AreUsers-prop};
    ghost use Rattle.record_base.specs.AttributesLaws.{AreInPlace-prop};
    ghost use Rattle.cfg_records.specs.declared.board_file.BoardFile.{BoardFile};

    ghost Value = { BoardFile };

    ghost coded = { Prim.hlevel (AreUsers-prop, AreInPlace-prop, codes) };

    ghost use Rattle.record_kinds.specs.Places.{ArePlaces};

    ghost view = { λ s. s.file.value };

    ghost invariant = { λ s. ArePlaces s.file.value.sensors.items s.places };
}

/// For each number, where the sensor of this number stands.
fn places_of(sensors: &[Sensor]) -> [u8; 256]
    requires few { length sensors.now ≤ most_sensors }
    requires differ { NamesDiffer (λ sensor. sensor.number) sensors.now }
    ensures { ArePlaces sensors.now result }
{
    let mut places = [NOWHERE; 256];
    for (place, sensor) in sensors.iter().enumerate() {
        places[sensor.number as usize] = place as u8;
    }
    places
}

impl Setup {
    ghost use Rattle.record_kinds.specs.Boards.{sensor_at, numeric_at, state_at, user_at, access_at, channel_at, is_sessionless, stored_at, attribute_at};

    /// The set-up of this board file.
    pub fn new(alloc: Global, file: BoardFile) -> Result<Setup, AllocError>
        ensures { IfOk result (λ setup. setup ≡ file) }
    {
        let places = places_of(file.sensors.items.as_slice());
        match Box::new(alloc, file) {
            Ok(file) => Ok(Setup { file, places }),
            Err(_) => Err(AllocError),
        }
    }

    /// The number of the board's terminus.
    pub fn tid(&self) -> u8
        ensures { result ≡ self.now.tid }
    {
        self.file.tid
    }

    /// The identity of the board.
    pub fn device(&self) -> &Device
        ensures { result.now ≡ self.now.device }
    {
        &self.file.device
    }

    /// The sensor of this number.
    pub fn sensor(&self, number: u8) -> Option<&Sensor>
        ensures { option_copied result ≡ sensor_at self.now.sensors.items number }
    {
        let place = self.places[number as usize];
        self.file.sensors.items.as_slice().get(place as usize)
    }

    /// The numeric effecter of this id. It looks at one after another, of which there are at most 32.
    pub fn numeric_effecter(&self, id: u16) -> Option<&NumericEffecter>
        ensures { option_copied result ≡ numeric_at self.now.numeric_effecters.items id }
    {
        let effecters = self.file.numeric_effecters.items.as_slice();
        effecters.iter().find(|effecter| effecter.id == id)
    }

    /// The state effecter of this id, of at most 32.
    pub fn state_effecter(&self, id: u16) -> Option<&StateEffecter>
        ensures { option_copied result ≡ state_at self.now.state_effecters.items id }
    {
        let effecters = self.file.state_effecters.items.as_slice();
        effecters.iter().find(|effecter| effecter.id == id)
    }

    /// The user of this number, of at most 16.
    pub fn user(&self, number: UserNumber) -> Option<&User>
        ensures { option_copied result ≡ user_at self.now.users.items number.number }
    {
        let users = self.file.users.items.as_slice();
        users
            .iter()
            .find(|user| user.number.number == number.number)
    }

    /// How many users there are.
    pub fn most_users(&self) -> u8
        ensures { result ≡ length self.now.users.items }
    {
        let _ = &self.file.users;
        self.file.users.items.as_slice().len() as u8
    }

    /// The access of this user on this channel. It looks at one after another, of which there are at most 128.
    pub fn user_access(&self, on: &UserOnChannel) -> Option<&UserAccess>
        ensures { option_copied result ≡ access_at self.now.user_accesses.items on.now }
    {
        let accesses = self.file.user_accesses.items.as_slice();
        let channel = on.channel.number;
        let user = on.user.number;
        accesses.iter().find(|a| a.on.channel.number == channel && a.on.user.number == user)
    }

    /// The channel of this number, if it has sessions.
    pub fn channel(&self, number: ChannelNumber) -> Option<&Channel>
        ensures { option_copied result ≡ channel_at self.now.channels.items number.number }
    {
        let channels = self.file.channels.items.as_slice();
        channels
            .iter()
            .find(|channel| channel.number.number == number.number)
    }

    /// Whether the board has a channel of this number without sessions.
    pub fn is_sessionless(&self, number: ChannelNumber) -> bool
        ensures { result ≡ is_sessionless self.now number.number }
    {
        let channels = self.file.sessionless.items.as_slice();
        channels.iter().any(|c| c.number == number.number)
    }

    /// The attributes of the board's BIOS.
    pub fn attributes(&self) -> &Attributes
        ensures { result.now ≡ self.now.attributes }
    {
        &self.file.attributes
    }

    /// The attribute of this handle. It looks at one after another, of which there are at most 64.
    pub fn attribute(&self, handle: u16) -> Option<&Attribute>
        ensures { option_copied result ≡ attribute_at self.now.attributes.items handle }
    {
        let attributes = self.file.attributes.items.as_slice();
        attributes
            .iter()
            .find(|attribute| attribute.handle == handle)
    }

    /// The channel whose access has this name.
    pub fn stored_access(&self, at: &StoredAccess) -> Option<&Channel>
        ensures { option_copied result ≡ stored_at self.now at.now }
    {
        match at.store {
            AccessStore::NonVolatile | AccessStore::Volatile => self.channel(at.channel),
            AccessStore::Neither => None,
        }
    }
}
