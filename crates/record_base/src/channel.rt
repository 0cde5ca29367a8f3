//! Channels: in a board file, and as their access is set.
ghost use Rattle.std.specs.Prelude.{[], ◌∷◌};
ghost use Rattle.record_base.specs.ChannelAccess.{IsChannelAccess};
ghost use Rattle.record_base.specs.PartLaws.{IsChannelAccess-prop};

use crate::bit_field::BitField;
use crate::board_sizes::MOST_CHANNELS;
use crate::distinct::{Distinct, Numbered};
use crate::key::Key;
use crate::start_value::StartValue;
use crate::user_sizes::{has_mode, is_privilege};

/// The number of a channel (IPMI 2.0): 4 bits of a request.
pub type ChannelNumber = BitField<4>;

/// Where the access of a channel is kept (IPMI 2.0, Set and Get Channel Access).
#[derive(Clone, Copy, Debug, PartialEq, Eq, PartialOrd, Ord)]
pub enum AccessStore {
    /// What holds after the controller starts.
    NonVolatile,
    /// What holds now.
    Volatile,
    /// No store: a request that names one by other bits asks for no record.
    Neither,
}

/// The access of a channel in one of its stores.
#[derive(Clone, Copy, Debug, PartialEq, Eq, PartialOrd, Ord)]
pub struct StoredAccess {
    pub channel: ChannelNumber,
    pub store: AccessStore,
}

/// Who gets in over a channel, by the bytes of Get Channel Access (IPMI 2.0): the access in bits 5:0, of which 2:0 are the mode, at
/// most `MOST_MODE`, and the limit of privileges, from `LEAST_PRIVILEGE` to `MOST_PRIVILEGE`.
#[derive(Clone, Copy, Debug)]
pub struct ChannelAccess {
    pub access: u8,
    pub limit: u8,
    ghost valid: { IsChannelAccess (access ∷ limit ∷ []) } by { IsChannelAccess-prop (access ∷ limit ∷ []) },
}

/// A channel with sessions, and its access in both stores.
#[derive(Clone, Copy, Debug)]
pub struct Channel {
    pub number: ChannelNumber,
    pub non_volatile: ChannelAccess,
    pub volatile: ChannelAccess,
}

/// The channels of a board that have sessions.
pub type Channels = Distinct<Channel, { MOST_CHANNELS }>;

/// The channels of a board that have none.
pub type SessionlessChannels = Distinct<ChannelNumber, { MOST_CHANNELS }>;

/// Six bits of a byte of a request, beside the two that name a store.
pub type SixBits = BitField<6>;

/// Which of a channel's access and limit become what a request says. Of a limit only bits 3:0 count.
#[derive(Clone, Copy)]
pub enum ChannelChange {
    Access(SixBits),
    Limit(SixBits),
    Both(SixBits, SixBits),
}

/// Sets the access of a channel in one store.
#[derive(Clone, Copy)]
pub struct SetChannelAccess {
    pub channel: ChannelNumber,
    pub store: AccessStore,
    pub change: ChannelChange,
}

impl Numbered for Channel {
    ghost number_of = { λ channel. channel.number.number };

    fn number(&self) -> u16 {
        u16::from(self.number.number)
    }
}

impl ChannelAccess {
    ghost use Rattle.std.specs.Prelude.{◌≡◌, ◌↔◌, [], ◌∷◌, IsSome, IfSome};
    ghost use Rattle.record_base.specs.ChannelAccess.{IsChannelAccess};

    /// The access of these bytes, or nothing where no channel can have them.
    pub fn new(access: u8, limit: u8) -> Option<ChannelAccess>
        ensures made { IsSome result ↔ IsChannelAccess (access ∷ limit ∷ []) }
        ensures bytes { IfSome result (λ made. (made.access ≡ access) × (made.limit ≡ limit)) }
    {
        if access >= 64 || !has_mode(access) || !is_privilege(limit) {
            return None;
        }
        Some(ChannelAccess { access, limit })
    }
}

impl Channel {
    ghost use Rattle.std.specs.Prelude.{◌≡◌};
    ghost use Rattle.record_base.specs.Values.{access_value, stored};

    /// The record of its non-volatile store.
    pub fn non_volatile_pair(&self) -> (Key, StartValue)
        ensures { result ≡ (
          Key.ChannelAccess (stored self.now.number AccessStore.NonVolatile),
          access_value self.now.non_volatile,
        ) }
    {
        let stored = StoredAccess {
            channel: self.number,
            store: AccessStore::NonVolatile,
        };
        let ChannelAccess { access, limit } = self.non_volatile;
        (
            Key::ChannelAccess(stored),
            StartValue::few(&[access, limit]),
        )
    }

    /// The record of its volatile store.
    pub fn volatile_pair(&self) -> (Key, StartValue)
        ensures { result ≡ (
          Key.ChannelAccess (stored self.now.number AccessStore.Volatile),
          access_value self.now.volatile,
        ) }
    {
        let stored = StoredAccess {
            channel: self.number,
            store: AccessStore::Volatile,
        };
        let ChannelAccess { access, limit } = self.volatile;
        (
            Key::ChannelAccess(stored),
            StartValue::few(&[access, limit]),
        )
    }
}
