//! How many items of a sort a board has at most.
ghost use Rattle.std.specs.Prelude.{◌≡◌};
ghost use Rattle.record_base.specs.BoardSizes.{most_sensors, most_effecters, most_state_fields, most_sdrs, most_users, most_channels, most_accesses, most_sdr_bytes};

/// Sensors.
pub const MOST_SENSORS: usize = 32;

/// Numeric effecters, and as many state effecters.
pub const MOST_EFFECTERS: usize = 32;

/// The fields of a state effecter.
pub const MOST_STATE_FIELDS: usize = 8;

/// Sensor data records.
pub const MOST_SDRS: usize = 64;

/// Users.
pub const MOST_USERS: usize = 16;

/// Channels, those with sessions and those without together.
pub const MOST_CHANNELS: usize = 8;

/// What a user may do on a channel: one for each user on each channel.
pub const MOST_ACCESSES: usize = MOST_USERS * MOST_CHANNELS;

/// The bytes of a sensor data record.
pub const MOST_SDR_BYTES: usize = 64;

/// Each constant is the definition of its name.
pub fn board_sizes_are_the_definitions()
    ensures sensors { MOST_SENSORS ≡ most_sensors }
    ensures effecters { MOST_EFFECTERS ≡ most_effecters }
    ensures state_fields { MOST_STATE_FIELDS ≡ most_state_fields }
    ensures sdrs { MOST_SDRS ≡ most_sdrs }
    ensures users { MOST_USERS ≡ most_users }
    ensures channels { MOST_CHANNELS ≡ most_channels }
    ensures accesses { MOST_ACCESSES ≡ most_accesses }
    ensures sdr_bytes { MOST_SDR_BYTES ≡ most_sdr_bytes }
{}
