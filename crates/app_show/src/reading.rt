//! The records of a controller, read one after another.
ghost use Rattle.std.specs.Prelude.{◌≡◌, ◌<◌, IfErr, IfOk, OnOk, [], ◌∷◌, is_none};
ghost use Rattle.app_look.specs.Findings.{bus_at};
ghost use Rattle.app_show.specs.Asking.{AsksAccesses, AsksAll, AsksEach, AsksHandles, AsksIpmb};
ghost use Rattle.app_show.specs.Asking.{AsksOne, AsksPeople, AsksSmbus, AsksSomeAccesses, AsksSomeUsers};
ghost use Rattle.app_show.specs.Asking.{AsksUsers, most_absent, with_next};
ghost use Rattle.app_show.specs.Reading.{IsNewReader, ReadsNamed, ReadsOn, StopsBy, StopsNamed};
ghost use Rattle.app_show.specs.Reading.{TakesLook, TakesRefusal, TakesShown, TakesSilence};
ghost use Rattle.app_show.specs.Reading.{first_of, is_absence, most_silent};

use crate::backup::{Backup, Why};
use crate::keys::{
    CHANNELS, IdRange, access_key, effecter_keys, later_access_keys, name_keys, numbered_keys,
};
use app_look::Session;
use record_base::{Asked, Key, RecordKind, UserNumber, byte_at};
use record_kinds::Limits;
use std::alloc::{AllocError, Global};
use two_wire::{Bus, Code};
use undo_look::Seen;

/// How many Gets in a row end the reading where none is answered.
const MOST_SILENT: u32 = 3;

/// How many handles in a row that show no attribute end the search for more.
const MOST_ABSENT: u32 = 4;

/// The codes of IPMI that say of a record that there is none: a parameter that isn't supported, a channel without sessions, no such command, none of
/// this LUN, and no such offset, sensor, number or kind of record.
const ABSENT_ON_IPMB: [u8; 8] = [0x80, 0x82, 0xC1, 0xC2, 0xC9, 0xCB, 0xCC, 0xCD];

/// Those of PLDM: no such data, command or type, no such effecter, and no such table, one that isn't valid, or no such attribute.
const ABSENT_ON_SMBUS: [u8; 7] = [0x02, 0x05, 0x20, 0x80, 0x83, 0x85, 0x88];

/// Why reading comes to no end.
#[derive(Clone, Copy, Debug)]
pub(crate) enum ReadFault {
    /// Memory was refused.
    Memory,
    /// As many Gets in a row weren't answered as end it.
    Silent,
}

/// What came of reading a record.
#[derive(Clone, Copy)]
pub(crate) enum Answer {
    /// It is there. The first byte that its Get shows is this.
    Found(u8),
    /// Its Get was refused, or not answered.
    Missing,
}

/// What reads records, and takes what it was told of them.
#[derive(Drop)]
pub(crate) struct Reader {
    alloc: Global,
    /// What it was told.
    pub backup: Backup,
    /// How many Gets in a row weren't answered.
    silent: u32,
}

/// The bus on which a record's Get goes.
pub(crate) fn bus_of(key: &Key) -> Bus
    ensures { result ≡ bus_at key.now }
{
    match Limits::get_asked(key) {
        Asked::Ipmi { .. } => Bus::Ipmb,
        Asked::Pldm { .. } => Bus::Smbus,
    }
}

/// Whether the code says that a controller hasn't got the record, its number or its command.
fn is_absence(bus: Bus, code: Code) -> bool
    ensures { result ≡ is_absence bus code }
{
    let byte = code.value();
    match bus {
        Bus::Ipmb => ABSENT_ON_IPMB.contains(&byte),
        Bus::Smbus => ABSENT_ON_SMBUS.contains(&byte),
    }
}

/// How many handles in a row show no attribute, with one of which this came behind so many.
fn absent_behind(answer: Answer, before: u32) -> u32
    requires { before < most_absent }
    ensures { result ≡ with_next (is_none (first_of answer)) before }
{
    match answer {
        Answer::Found(_) => 0,
        Answer::Missing => before + 1,
    }
}

impl Reader {
    /// One that was told nothing.
    pub fn new(alloc: Global) -> Reader
        ensures { IsNewReader result }
    {
        Reader {
            alloc,
            backup: Backup::new(alloc),
            silent: 0,
        }
    }

    /// Takes what the Get of a record showed.
    fn take_shown(&mut self, key: &Key, shown: &[u8]) -> Result<Answer, AllocError>
        ensures { IfOk result (λ answer.
            TakesShown key.now shown.now answer self.old self.new) }
    {
        self.silent = 0;
        self.backup.take(self.alloc, key, shown)?;
        Ok(Answer::Found(byte_at(shown, 0)))
    }

    /// Takes that the Get of a record was refused with this code.
    fn take_refusal(&mut self, key: &Key, code: Code) -> Result<Answer, AllocError>
        ensures { IfOk result (λ answer. TakesRefusal key.now code answer self.old self.new) }
    {
        self.silent = 0;
        if !is_absence(bus_of(key), code) {
            self.backup.remark(key, Why::Refused(code))?;
        }
        Ok(Answer::Missing)
    }

    /// Takes that the Get of a record wasn't answered.
    fn take_silence(&mut self, key: &Key) -> Result<Answer, AllocError>
        requires { self.old.silent < most_silent }
        ensures { IfOk result (λ answer. TakesSilence key.now answer self.old self.new) }
    {
        self.silent += 1;
        self.backup.remark(key, Why::Unanswered)?;
        Ok(Answer::Missing)
    }

    /// Takes what the last look of this session, at this record, came to.
    fn take_look(&mut self, key: &Key, session: &Session) -> Result<Answer, AllocError>
        requires { self.old.silent < most_silent }
        ensures { IfOk result (λ answer.
            TakesLook key.now session.now answer self.old self.new) }
    {
        let Some(seen) = session.seen() else {
            return self.take_silence(key);
        };
        match seen {
            Seen::Shown(shown) => self.take_shown(key, shown),
            Seen::Refused(code) => self.take_refusal(key, code),
        }
    }

    /// Reads a record.
    fn read(&mut self, session: &mut Session, key: &Key) -> Result<Answer, ReadFault>
        requires { self.old.silent < most_silent }
        ensures read { IfOk result (λ answer. ReadsOn (AsksOne key.now (first_of answer))
            session.old session.new self.old self.new) }
        ensures stopped { IfErr result (λ why. StopsBy (AsksEach (key.now ∷ [])) why
            session.old session.new self.old self.new) }
    {
        session.look(key);
        let Ok(answer) = self.take_look(key, &*session) else {
            return Err(ReadFault::Memory);
        };
        if self.silent >= MOST_SILENT {
            return Err(ReadFault::Silent);
        }
        Ok(answer)
    }

    /// Reads each of these records.
    fn read_each(&mut self, session: &mut Session, keys: &[Key]) -> Result<(), ReadFault>
        requires { self.old.silent < most_silent }
        ensures read { OnOk result (ReadsOn (AsksEach keys.now)
            session.old session.new self.old self.new) }
        ensures stopped { IfErr result (λ why. StopsBy (AsksEach keys.now) why
            session.old session.new self.old self.new) }
    {
        for place in 0..keys.len() {
            self.read(session, &keys[place])?;
        }
        Ok(())
    }

    /// Reads each of these records, where there was memory for their names.
    fn read_named(
        &mut self,
        session: &mut Session,
        keys: Result<Vec<Key>, AllocError>,
    ) -> Result<(), ReadFault>
        requires { self.old.silent < most_silent }
        ensures read { OnOk result (ReadsNamed keys
            session.old session.new self.old self.new) }
        ensures stopped { IfErr result (λ why. StopsNamed keys why
            session.old session.new self.old self.new) }
    {
        match keys {
            Ok(keys) => self.read_each(session, keys.as_slice()),
            Err(AllocError) => Err(ReadFault::Memory),
        }
    }

    /// Reads what the users may do on a channel. It gives how many users there are at most, as the first of their Gets tells, or 0 where that isn't
    /// answered.
    fn read_accesses(&mut self, session: &mut Session, channel: u8) -> Result<u8, ReadFault>
        requires { self.old.silent < most_silent }
        ensures read { IfOk result (λ users. ReadsOn (AsksAccesses channel users)
            session.old session.new self.old self.new) }
        ensures stopped { IfErr result (λ why. StopsBy (AsksSomeAccesses channel) why
            session.old session.new self.old self.new) }
    {
        let Answer::Found(first) = self.read(session, &access_key(channel, 1))? else {
            return Ok(0);
        };
        let users = UserNumber::of(first).number;
        let keys = later_access_keys(self.alloc, channel, users);
        self.read_named(session, keys)?;
        Ok(users)
    }

    /// Reads what the users may do on each of these channels. It gives how many users there are at most.
    fn read_users(&mut self, session: &mut Session, channels: &[u8]) -> Result<u8, ReadFault>
        requires { self.old.silent < most_silent }
        ensures read { IfOk result (λ most. ReadsOn (AsksUsers channels.now 0 most)
            session.old session.new self.old self.new) }
        ensures stopped { IfErr result (λ why. StopsBy (AsksSomeUsers channels.now) why
            session.old session.new self.old self.new) }
    {
        let mut most: u8 = 0;
        for place in 0..channels.len() {
            let users = self.read_accesses(session, channels[place])?;
            most = most.max(users);
        }
        Ok(most)
    }

    /// Reads what the users may do on each channel, and their names.
    fn read_people(&mut self, session: &mut Session) -> Result<(), ReadFault>
        requires { self.old.silent < most_silent }
        ensures read { OnOk result (ReadsOn AsksPeople
            session.old session.new self.old self.new) }
        ensures stopped { IfErr result (λ why. StopsBy AsksPeople why
            session.old session.new self.old self.new) }
    {
        let users = self.read_users(session, &CHANNELS)?;
        let names = name_keys(self.alloc, users);
        self.read_named(session, names)
    }

    /// Reads what answers on IPMB.
    fn read_ipmb(&mut self, session: &mut Session) -> Result<(), ReadFault>
        requires { self.old.silent < most_silent }
        ensures read { OnOk result (ReadsOn AsksIpmb
            session.old session.new self.old self.new) }
        ensures stopped { IfErr result (λ why. StopsBy AsksIpmb why
            session.old session.new self.old self.new) }
    {
        let keys = numbered_keys(self.alloc);
        self.read_named(session, keys)?;
        self.read_people(session)
    }

    /// Reads the attributes, from handle 0 on.
    fn read_attributes(&mut self, session: &mut Session) -> Result<(), ReadFault>
        requires { self.old.silent < most_silent }
        ensures read { OnOk result (ReadsOn (AsksHandles 0 0)
            session.old session.new self.old self.new) }
        ensures stopped { IfErr result (λ why. StopsBy (AsksHandles 0 0) why
            session.old session.new self.old self.new) }
    {
        let mut absent: u32 = 0;
        for handle in 0..=u16::MAX {
            let answer = self.read(session, &Key::BiosAttribute(handle))?;
            absent = absent_behind(answer, absent);
            if absent >= MOST_ABSENT {
                return Ok(());
            }
        }
        Ok(())
    }

    /// Reads what answers on SMBus.
    fn read_smbus(&mut self, session: &mut Session, effecters: &[IdRange]) -> Result<(), ReadFault>
        requires { self.old.silent < most_silent }
        ensures read { OnOk result (ReadsOn (AsksSmbus effecters.now)
            session.old session.new self.old self.new) }
        ensures stopped { IfErr result (λ why. StopsBy (AsksSmbus effecters.now) why
            session.old session.new self.old self.new) }
    {
        self.read_attributes(session)?;
        let keys = effecter_keys(self.alloc, effecters);
        self.read_named(session, keys)
    }

    /// Reads what answers: on IPMB, and on SMBus where that was greeted.
    pub fn read_all(
        &mut self,
        session: &mut Session,
        smbus: bool,
        effecters: &[IdRange],
    ) -> Result<(), ReadFault>
        requires { self.old.silent < most_silent }
        ensures read { OnOk result (ReadsOn (AsksAll smbus effecters.now)
            session.old session.new self.old self.new) }
        ensures stopped { IfErr result (λ why. StopsBy (AsksAll smbus effecters.now) why
            session.old session.new self.old self.new) }
    {
        self.read_ipmb(session)?;
        if !smbus {
            return Ok(());
        }
        self.read_smbus(session, effecters)
    }
}
