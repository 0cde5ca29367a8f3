//! Users: in a board file, and as they are set.
ghost use Rattle.std.specs.Prelude.{◌≡◌, [], ◌∷◌, length};
ghost use Rattle.record_base.specs.UserAccess.{is_limit, IsUserAccess};
ghost use Rattle.record_base.specs.UserSizes.{user_name_size};
ghost use Rattle.record_base.specs.PartLaws.{IsUserAccess-prop};

use crate::bit_field::BitField;
use crate::board_sizes::MOST_ACCESSES;
use crate::channel::ChannelNumber;
use crate::distinct::{Distinct, Numbered};
use crate::key::Key;
use crate::start_value::StartValue;
use crate::user_sizes::{NO_ACCESS, USER_NAME_SIZE, is_privilege};

/// The number of a user (IPMI 2.0): 6 bits of a request. No user has the number 0.
pub type UserNumber = BitField<6>;

/// A user, as far as one channel goes.
#[derive(Clone, Copy, Debug, PartialEq, Eq, PartialOrd, Ord)]
pub struct UserOnChannel {
    pub channel: ChannelNumber,
    pub user: UserNumber,
}

/// A user of a board, of a number from 1 on, and the user's name, behind which there is 00h.
#[derive(Clone, Copy, Debug)]
pub struct User {
    pub number: UserNumber,
    pub name: [u8; USER_NAME_SIZE],
    pub ghost sized: { length name ≡ user_name_size },
}

/// What a user may do on a channel with sessions, by a byte of Get User Access (IPMI 2.0): bit 6 callback alone, bit 5 link
/// authentication, bit 4 messages, and the limit of privileges in bits 3:0, 1 to 5, or 15 for no access.
#[derive(Clone, Copy, Debug)]
pub struct UserAccess {
    pub on: UserOnChannel,
    pub byte: u8,
    ghost valid: { IsUserAccess (byte ∷ []) } by { IsUserAccess-prop (byte ∷ []) },
}

/// What the users of a board may do on each of its channels with sessions.
pub type UserAccesses = Distinct<UserAccess, { MOST_ACCESSES }>;

/// Sets what a user may do on a channel, by the bytes of the request: the first has bit 7 where bits 6:4 are to become the user's,
/// and the channel in bits 3:0; the user's number, in bits 5:0; the limit of privileges, in bits 3:0; and the limit of sessions, if it
/// is there, which isn't kept.
#[derive(Clone, Copy)]
pub struct SetUserAccess {
    pub first: u8,
    pub user: u8,
    pub limit: u8,
    pub session_limit: Option<u8>,
}

/// Sets the name of a user, whose number is in bits 5:0 of the byte.
#[derive(Clone, Copy)]
pub struct SetUserName {
    pub user: u8,
    pub name: [u8; USER_NAME_SIZE],
    pub ghost sized: { length name ≡ user_name_size },
}

impl Numbered for User {
    ghost number_of = { λ user. user.number.number };

    fn number(&self) -> u16 {
        u16::from(self.number.number)
    }
}

impl Numbered for UserAccess {
    ghost use Rattle.record_base.specs.Numbers.{number_on};

    // A channel has at most 64 users.
    ghost number_of = { λ access. number_on access.on };

    fn number(&self) -> u16 {
        u16::from(self.on.channel.number) * 64 + u16::from(self.on.user.number)
    }
}

impl UserOnChannel {
    ghost use Rattle.std.specs.Prelude.{◌≡◌};
    ghost use Rattle.record_base.specs.Numbers.{user_on};

    /// The channel in bits 3:0 of the one byte, and the user in bits 5:0 of the other.
    pub fn of(channel: u8, user: u8) -> Self
        ensures { result ≡ user_on channel user }
    {
        UserOnChannel {
            channel: ChannelNumber::of(channel),
            user: UserNumber::of(user),
        }
    }
}

/// Whether it is a limit of privileges: callback to OEM, or no access.
pub fn is_limit(limit: u8) -> bool
    ensures { result ≡ is_limit limit }
{
    is_privilege(limit) || limit == NO_ACCESS
}

impl User {
    ghost use Rattle.std.specs.Prelude.{◌≡◌};

    /// The record of the user's name.
    pub fn pair(&self) -> (Key, StartValue)
        ensures { result ≡ (Key.UserName self.now.number, self.now.name) }
    {
        (Key::UserName(self.number), StartValue::few(&self.name))
    }
}

impl UserAccess {
    ghost use Rattle.std.specs.Prelude.{◌≡◌, ◌↔◌, [], ◌∷◌, IsSome, IfSome};
    ghost use Rattle.record_base.specs.UserAccess.{IsUserAccess};

    /// What this user may do, or nothing where no user can have the byte.
    pub fn new(on: UserOnChannel, byte: u8) -> Option<UserAccess>
        ensures made { IsSome result ↔ IsUserAccess (byte ∷ []) }
        ensures parts { IfSome result (λ made. (made.on ≡ on) × (made.byte ≡ byte)) }
    {
        if byte >= 128 || !is_limit(byte % 16) {
            return None;
        }
        Some(UserAccess { on, byte })
    }

    /// The record of it.
    pub fn pair(&self) -> (Key, StartValue)
        ensures { result ≡ (Key.UserAccess self.now.on, self.now.byte ∷ []) }
    {
        (Key::UserAccess(self.on), StartValue::few(&[self.byte]))
    }
}
