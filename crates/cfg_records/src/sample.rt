//! The sample board.
ghost use Rattle.std.specs.Prelude.{◌≡◌, [], ◌∷◌, IfOk, false};
ghost use Rattle.cfg_records.specs.Sample.{IsSampleDevice, IsTemperature, IsFan, AreSampleSensors, IsUnset, sample_record, IsSampleBoot, AreSampleUsers, AreSampleChannels, AreSampleAccesses, IsQuiet, IsAsset, IsDelay, AreSampleAttributes, IsSampleBoard};

use crate::board_file::BoardFile;
use record_base::user_sizes::USER_NAME_SIZE;
use record_base::*;
use std::alloc::{AllocError, Global};

/// A temperature sensor, all of whose thresholds can be read and set.
fn temperature() -> Sensor
    ensures { IsTemperature result }
{
    Sensor {
        number: 5,
        sensor_type: 0x01,
        thresholds: Thresholds {
            masks: ThresholdMasks {
                readable: 0x3F,
                settable: 0x3F,
            },
            values: [0x14, 0x0A, 0x05, 0x50, 0x5F, 0x6E],
        },
        hysteresis: Hysteresis {
            positive: 2,
            negative: 2,
        },
        events: EventEnable {
            supported: 0xFFF,
            messages: true,
            scanning: true,
            enabled: EventMasks {
                assertions: 0x200,
                deassertions: 0,
            },
        },
    }
}

/// A fan sensor with upper thresholds alone, of which the highest can be set and not read.
fn fan() -> Sensor
    ensures { IsFan result }
{
    Sensor {
        number: 7,
        sensor_type: 0x04,
        thresholds: Thresholds {
            masks: ThresholdMasks {
                readable: 0x18,
                settable: 0x38,
            },
            values: [0, 0, 0, 0x90, 0xA0, 0xB0],
        },
        hysteresis: Hysteresis {
            positive: 0,
            negative: 0,
        },
        events: EventEnable {
            supported: 0xFC0,
            messages: false,
            scanning: false,
            enabled: EventMasks {
                assertions: 0,
                deassertions: 0,
            },
        },
    }
}

/// A watchdog that was never set.
fn unset_watchdog() -> Watchdog
    ensures { IsUnset result }
{
    Watchdog {
        timer_use: 0,
        actions: 0,
        pre_timeout: 0,
        initial: 0,
    }
}

/// Boot parameters of 00h alone.
fn boot() -> BootOptions
    ensures { IsSampleBoot result }
{
    BootOptions {
        valid_bit_clearing: 0,
        info_acknowledge: 0,
        flags: BootFlags {
            validity: 0,
            device: 0,
            console: 0,
            overrides: 0,
            instance: 0,
        },
    }
}

/// What the sample board says of itself.
fn device() -> Device
    ensures { IsSampleDevice result }
{
    Device {
        id: 0x20,
        revision: 1,
        major: 1,
        minor: Bcd { byte: 0x05 },
        support: 0x07,
        manufacturer: ManufacturerId { number: 0xABCD },
        product: 0x1234,
    }
}

/// The sample board's only sensor data record: under id 1, of a maker's own type, with a byte behind its header.
fn sdr(alloc: Global) -> Result<SdrRecords, AllocError>
    ensures { IfOk result (λ sdr. sdr.items ≡ sample_record ∷ []) }
{
    let mut records = Vec::new(alloc);
    records.push(SdrRecord::new(&[0x01, 0x00, 0x51, 0xC0, 0x01, 0x00]).unwrap())?;
    Ok(Distinct::new(records).unwrap())
}

/// The sample board's two sensors.
fn sensors(alloc: Global) -> Result<Sensors, AllocError>
    ensures { IfOk result (λ sensors. AreSampleSensors sensors.items) }
{
    let sensors = vec![in alloc; temperature(), fan()]?;
    Ok(Distinct::new(sensors).unwrap())
}

/// Two users: the first has no name, and the second is the administrator.
fn users(alloc: Global) -> Result<Users, AllocError>
    ensures { IfOk result (λ users. AreSampleUsers users.items) }
{
    let nameless = User {
        number: UserNumber { number: 1 },
        name: [0; USER_NAME_SIZE],
    };
    let administrator = User {
        number: UserNumber { number: 2 },
        name: [
            0x61, 0x64, 0x6D, 0x69, 0x6E, 0, 0, 0, 0, 0, 0, 0, 0, 0, 0, 0,
        ],
    };
    let users = vec![in alloc; nameless, administrator]?;
    Ok(Users::new(users).unwrap())
}

/// One channel, with sessions.
fn channels(alloc: Global) -> Result<Channels, AllocError>
    ensures { IfOk result (λ channels. AreSampleChannels channels.items) }
{
    let access = ChannelAccess {
        access: 2,
        limit: 4,
    };
    let mut channels = Vec::new(alloc);
    channels.push(Channel {
        number: ChannelNumber { number: 1 },
        non_volatile: access,
        volatile: access,
    })?;
    Ok(Distinct::new(channels).unwrap())
}

/// Both users may send messages on it, as administrators.
fn user_accesses(alloc: Global) -> Result<UserAccesses, AllocError>
    ensures { IfOk result (λ accesses. AreSampleAccesses accesses.items) }
{
    let nameless = UserAccess {
        on: UserOnChannel::of(1, 1),
        byte: 0x14,
    };
    let administrator = UserAccess {
        on: UserOnChannel::of(1, 2),
        byte: 0x14,
    };
    let accesses = vec![in alloc; nameless, administrator]?;
    Ok(Distinct::new(accesses).unwrap())
}

/// The sample board's users, its channel, and what the users may do there.
#[derive(Drop)]
struct Accounts {
    users: Users,
    channels: Channels,
    user_accesses: UserAccesses,
}

/// The users, the channel and the accesses of the sample board.
fn sample_accounts(alloc: Global) -> Result<Accounts, AllocError>
    ensures users { IfOk result (λ accounts. AreSampleUsers accounts.users.items) }
    ensures channels { IfOk result (λ accounts. AreSampleChannels accounts.channels.items) }
    ensures accesses { IfOk result (λ accounts. AreSampleAccesses accounts.user_accesses.items) }
{
    Ok(Accounts {
        users: users(alloc)?,
        channels: channels(alloc)?,
        user_accesses: user_accesses(alloc)?,
    })
}

/// A setting that is off or on: "Quiet", now off.
fn quiet(alloc: Global) -> Result<AttributeKind, AllocError>
    ensures { IfOk result IsQuiet }
{
    let values = vec![in alloc;
        Text::from_slice(&[0x6F, 0x66, 0x66]),
        Text::from_slice(&[0x6F, 0x6E]),
    ]?;
    let off = Indexes::from_slice(&[0]);
    let kind = EnumerationAttribute::new(values, off.copy(), off);
    Ok(AttributeKind::Enumeration(kind.unwrap()))
}

/// A text of at most 200 bytes: "Asset", now "rack-1".
fn asset(alloc: Global) -> Result<AttributeKind, AllocError>
    ensures { IfOk result IsAsset }
{
    let lengths = TextLengths {
        least: 0,
        most: 200,
    };
    let current = Vec::from_slice(alloc, &[0x72, 0x61, 0x63, 0x6B, 0x2D, 0x31])?;
    let kind = StringAttribute::new(1, lengths, Vec::new(alloc), current);
    Ok(AttributeKind::Text(kind.unwrap()))
}

/// A number up to 300 by tens: "Delay", now 30.
fn delay() -> AttributeKind
    ensures { IsDelay result }
{
    let steps = IntegerSteps {
        lower: 0,
        upper: 300,
        increment: 10,
    };
    let kind = IntegerAttribute::new(steps, 30, 30);
    AttributeKind::Integer(kind.unwrap())
}

/// An attribute that can be set.
fn attribute(handle: u16, name: &[u8; 5], kind: AttributeKind) -> Attribute
    ensures { result ≡ record { handle = handle; name = name.now; read_only = false; kind = kind } }
{
    Attribute {
        handle,
        name: Text::from_slice(name),
        read_only: false,
        kind,
    }
}

/// The sample board's three attributes.
fn attributes(alloc: Global) -> Result<Attributes, AllocError>
    ensures { IfOk result (λ attributes. AreSampleAttributes attributes.items) }
{
    let quiet = attribute(0, &[0x51, 0x75, 0x69, 0x65, 0x74], quiet(alloc)?);
    let asset = attribute(1, &[0x41, 0x73, 0x73, 0x65, 0x74], asset(alloc)?);
    let delay = attribute(2, &[0x44, 0x65, 0x6C, 0x61, 0x79], delay());
    let attributes = vec![in alloc; quiet, asset, delay]?;
    Ok(Attributes::new(attributes).unwrap())
}

/// No items.
fn no_items<T: Numbered + Drop, const MOST: usize>(alloc: Global) -> Distinct<T, MOST>
    ensures { result.items ≡ [] }
{
    Distinct::new(Vec::new(alloc)).unwrap()
}

/// The sample board, of these parts and with no other lists.
fn board_with(
    alloc: Global,
    sensors: Sensors,
    sdr: SdrRecords,
    attributes: Attributes,
    accounts: Accounts,
) -> BoardFile
    requires sensors { AreSampleSensors sensors.items }
    requires sdr { sdr.items ≡ sample_record ∷ [] }
    requires users { AreSampleUsers accounts.users.items }
    requires channels { AreSampleChannels accounts.channels.items }
    requires accesses { AreSampleAccesses accounts.user_accesses.items }
    requires attributes { AreSampleAttributes attributes.items }
    ensures { IsSampleBoard result }
{
    BoardFile {
        tid: 5,
        device: device(),
        sensors,
        policy: PowerPolicy { number: 1 },
        watchdog: unset_watchdog(),
        clock: 0,
        log: LogCapacity { records: 2 },
        enables: GlobalEnables { byte: 0x08 },
        boot: boot(),
        sdr,
        numeric_effecters: no_items(alloc),
        state_effecters: no_items(alloc),
        users: accounts.users,
        channels: accounts.channels,
        sessionless: no_items(alloc),
        user_accesses: accounts.user_accesses,
        attributes,
        lans: no_items(alloc),
    }
}

/// The sample board, which the program takes where it is given no board file.
pub fn sample_board(alloc: Global) -> Result<BoardFile, AllocError>
    ensures { IfOk result IsSampleBoard }
{
    let sensors = sensors(alloc)?;
    let sdr = sdr(alloc)?;
    let attributes = attributes(alloc)?;
    let accounts = sample_accounts(alloc)?;
    Ok(board_with(alloc, sensors, sdr, attributes, accounts))
}
