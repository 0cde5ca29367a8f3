//! What a board begins with.
ghost use Rattle.std.specs.Prelude.{◌≡◌, ◌≤◌, IsTrue, map, length};
ghost use Rattle.std.specs.List.{list_all};
ghost use Rattle.record_base.specs.BoardSizes.{most_channels};
ghost use Rattle.record_base.specs.Distinct.{NamesDiffer};
ghost use Rattle.cfg_records.specs.BoardChannels.{channel_numbers, is_channel, are_listed, on_numbers, each_user_on};

use record_base::{
    AtOnce, Attributes, BootOptions, BootParameter, Channels, Device, GlobalEnables, Key, Lans,
    LogCapacity, NumericEffecters, PowerPolicy, SdrRecords, Sensors, SessionlessChannels,
    StartValue, StateEffecters, UserAccesses, Users, Watchdog,
};
use std::alloc::{AllocError, Global};

/// What a board begins with: what never changes of it, and the values of its records. The type of each part says what it can be.
#[derive(Debug)]
pub struct BoardFile {
    /// The terminus of a PLDM controller, by the number that GetTID gives (DSP0240).
    pub tid: u8,
    pub device: Device,
    pub sensors: Sensors,
    pub policy: PowerPolicy,
    pub watchdog: Watchdog,
    /// The seconds that the System Event Log's clock shows.
    pub clock: u32,
    pub log: LogCapacity,
    pub enables: GlobalEnables,
    pub sdr: SdrRecords,
    pub boot: BootOptions,
    pub numeric_effecters: NumericEffecters,
    pub state_effecters: StateEffecters,
    pub users: Users,
    /// The channels with sessions, and those without: few together, no two have one number, and each has a number from 0 to 11, or 15.
    pub channels: Channels,
    pub sessionless: SessionlessChannels,
    /// What each user may do on each channel with sessions, in the channels' order and then in the users'.
    pub user_accesses: UserAccesses,
    /// The attributes of its BIOS.
    pub attributes: Attributes,
    /// The LAN parameters of its channels. Each is of a channel that is listed.
    pub lans: Lans,
    ghost apart: { NamesDiffer (λ number. number)
        (channel_numbers channels.items sessionless.items) },
    ghost few: { length (channel_numbers channels.items sessionless.items)
        ≤ most_channels },
    ghost known: { IsTrue
        (list_all is_channel (channel_numbers channels.items sessionless.items)) },
    ghost listed: { IsTrue
        (are_listed (channel_numbers channels.items sessionless.items) lans.items) },
    ghost each: { map on_numbers user_accesses.items ≡ each_user_on channels.items users.items },
}

// Written out: the crates above would prove a derived one anew.
impl Drop for BoardFile {
    fn drop(self) {
        let BoardFile {
            tid: _,
            device: _,
            sensors,
            policy: _,
            watchdog: _,
            clock: _,
            log: _,
            enables: _,
            sdr,
            boot: _,
            numeric_effecters,
            state_effecters,
            users,
            channels,
            sessionless,
            user_accesses,
            attributes,
            lans,
        } = self;
        drop(sensors);
        drop(sdr);
        drop(numeric_effecters);
        drop(state_effecters);
        drop(users);
        drop(channels);
        drop(sessionless);
        drop(user_accesses);
        drop(attributes);
        drop(lans);
    }
}

impl BoardFile {
    ghost use Rattle.std.specs.Prelude.{◌≡◌, [], IfOk, OnOk, take, drop};
    ghost use Rattle.cfg_records.specs.Records.{KeysDiffer, LengthsFit};
    ghost use Rattle.cfg_records.specs.Boards.{joined, effecter_kinds, access_kinds, item_kinds, attribute_pairs, kinds_of, pairs_of, sensor_kinds};

    /// The records of its sensors: a line for each kind.
    fn sensor_records(&self, alloc: Global) -> Result<AtOnce<(Key, StartValue)>, AllocError>
        ensures { IfOk result
            (λ pairs. pairs.items.items ≡ joined [] (sensor_kinds self.now.sensors.items)) }
    {
        let sensors = self.sensors.items.as_slice();
        let thresholds = sensors.iter().map(|s| s.thresholds.pair(s.number));
        thresholds
            .chain(sensors.iter().map(|s| s.hysteresis.pair(s.number)))
            .chain(sensors.iter().map(|s| s.events.pair(s.number)))
            .collect(alloc)
    }

    /// The records of its effecters: a line for each kind.
    fn effecter_records(&self, alloc: Global) -> Result<AtOnce<(Key, StartValue)>, AllocError>
        ensures { IfOk result (λ pairs. pairs.items.items ≡ joined [] (effecter_kinds self.now)) }
    {
        let numeric = self.numeric_effecters.items.as_slice();
        let numeric = numeric.iter().map(|e| e.pair());
        let state = self.state_effecters.items.as_slice();
        let state = state.iter().map(|e| e.pair());
        numeric.chain(state).collect(alloc)
    }

    /// The records of its users: a line for each kind.
    fn user_records(&self, alloc: Global) -> Result<AtOnce<(Key, StartValue)>, AllocError>
        ensures { IfOk result
            (λ pairs. pairs.items.items ≡ joined [] (take 2 (access_kinds self.now))) }
    {
        let names = self.users.items.as_slice().iter().map(|u| u.pair());
        let accesses = self.user_accesses.items.as_slice();
        let accesses = accesses.iter().map(|a| a.pair());
        names.chain(accesses).collect(alloc)
    }

    /// The records of its channels: a line for each store.
    fn channel_records(&self, alloc: Global) -> Result<AtOnce<(Key, StartValue)>, AllocError>
        ensures { IfOk result
            (λ pairs. pairs.items.items ≡ joined [] (drop 2 (access_kinds self.now))) }
    {
        let channels = self.channels.items.as_slice();
        let non_volatile = channels.iter().map(|c| c.non_volatile_pair());
        let volatile = channels.iter().map(|c| c.volatile_pair());
        non_volatile.chain(volatile).collect(alloc)
    }

    /// The records of its users and channels: a line for each kind, and one for each store.
    fn access_records(&self, alloc: Global) -> Result<Vec<(Key, StartValue)>, AllocError>
        ensures { IfOk result (λ pairs. pairs.items ≡ joined [] (access_kinds self.now)) }
    {
        let mut pairs = self.user_records(alloc)?.items;
        let mut more = self.channel_records(alloc)?.items;
        pairs.append(&mut more)?;
        Ok(pairs)
    }

    /// The records of its items.
    fn item_records(&self, alloc: Global) -> Result<Vec<(Key, StartValue)>, AllocError>
        ensures { IfOk result (λ pairs. pairs.items ≡ joined [] (item_kinds self.now)) }
    {
        let mut pairs = self.sensor_records(alloc)?.items;
        let mut effecters = self.effecter_records(alloc)?.items;
        pairs.append(&mut effecters)?;
        let mut more = self.access_records(alloc)?;
        pairs.append(&mut more)?;
        Ok(pairs)
    }

    /// The records of its attributes.
    fn attribute_records(&self, alloc: Global) -> Result<Vec<(Key, StartValue)>, AllocError>
        ensures { IfOk result (λ pairs. pairs.items ≡ attribute_pairs self.now) }
    {
        let mut pairs = Vec::new(alloc);
        for attribute in self.attributes.items.as_slice() {
            pairs.push(attribute.pair(alloc)?)?;
        }
        Ok(pairs)
    }

    /// Adds the records that a board has once: the six kinds behind the nine of its items.
    fn push_single(&self, pairs: &mut Vec<(Key, StartValue)>) -> Result<(), AllocError>
        ensures { OnOk result
            (pairs.new.items ≡ joined pairs.old.items (take 6 (drop 9 (kinds_of self.now)))) }
    {
        pairs.push(self.policy.pair())?;
        pairs.push(self.watchdog.pair())?;
        pairs.push(self.enables.pair())?;
        pairs.push(self.boot.pair(BootParameter::ValidBitClearing))?;
        pairs.push(self.boot.pair(BootParameter::InfoAcknowledge))?;
        pairs.push(self.boot.pair(BootParameter::Flags))?;
        Ok(())
    }

    /// The keys of the board's records, each once, with the values that they begin with: kind after kind.
    pub fn records(&self, alloc: Global) -> Result<Vec<(Key, StartValue)>, AllocError>
        ensures pairs { IfOk result (λ pairs. pairs.items ≡ pairs_of self.now) }
        ensures differ { OnOk result (KeysDiffer (pairs_of self.now)) }
        ensures fit { OnOk result (LengthsFit (pairs_of self.now)) }
    {
        let mut pairs = self.item_records(alloc)?;
        self.push_single(&mut pairs)?;
        let mut more = self.attribute_records(alloc)?;
        pairs.append(&mut more)?;
        self.push_lans(alloc, &mut pairs)?;
        Ok(pairs)
    }
}
