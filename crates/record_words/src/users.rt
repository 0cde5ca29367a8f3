//! The fields of users, of channels, and of their LAN parameters.
ghost use Rattle.std.specs.Prelude.{◌≡◌};
ghost use Rattle.record_words.specs.UserFields as users;

use crate::field::{Field, Fields};
use crate::meaning::Meaning;
use crate::shown::Shown;
use crate::term::Term;
use record_base::mask::has;
use record_base::{
    ChannelChange, LanAddress, LanChange, SetChannelAccess, SetLanParam, SetUserAccess, SetUserName,
};

/// The field of an operation on a user's name.
pub(crate) fn user_name(set: &SetUserName) -> Fields
    ensures { result ≡ users.user_name set.now }
{
    Fields::of(&[Field::of(Term::UserName, Shown::Name(set.name))])
}

/// A limit of privileges, by bits 3:0.
fn privilege(bits: u8) -> Shown
    ensures { result ≡ users.privilege bits }
{
    match bits {
        1 => Shown::Means(Meaning::Callback),
        2 => Shown::Means(Meaning::User),
        3 => Shown::Means(Meaning::Operator),
        4 => Shown::Means(Meaning::Administrator),
        5 => Shown::Means(Meaning::OemPrivilege),
        15 => Shown::Means(Meaning::NoAccess),
        _ => Shown::Bits(bits),
    }
}

/// One of bits 6:4 of the first byte, which the operation leaves where bit 7 is clear.
fn user_bit(first: u8, place: usize) -> Shown
    requires { users.IsPlace place }
    ensures { result ≡ users.user_bit first place }
{
    if has(first, 7) {
        Shown::Switch(has(first, place))
    } else {
        Shown::Kept
    }
}

/// A limit of sessions, where there is one.
fn sessions(limit: Option<u8>) -> Shown
    ensures { result ≡ users.sessions limit }
{
    match limit {
        Some(most) => Shown::Number(u32::from(most)),
        None => Shown::Kept,
    }
}

/// The fields of an operation on a user's access.
pub(crate) fn user_access(set: &SetUserAccess) -> Fields
    ensures { result ≡ users.user_access set.now }
{
    Fields::of(&[
        Field::of(Term::PrivilegeLimit, privilege(set.limit % 16)),
        Field::of(Term::CallbackOnly, user_bit(set.first, 6)),
        Field::of(Term::LinkAuthentication, user_bit(set.first, 5)),
        Field::of(Term::IpmiMessaging, user_bit(set.first, 4)),
        Field::of(Term::SessionLimit, sessions(set.session_limit)),
    ])
}

/// The access mode of a channel, by bits 2:0.
fn mode(bits: u8) -> Shown
    ensures { result ≡ users.mode bits }
{
    match bits {
        0 => Shown::Means(Meaning::ModeDisabled),
        1 => Shown::Means(Meaning::PreBootOnly),
        2 => Shown::Means(Meaning::AlwaysAvailable),
        3 => Shown::Means(Meaning::Shared),
        _ => Shown::Bits(bits),
    }
}

/// The fields of a channel's access, without the limit of privileges.
fn access(bits: u8) -> [Field; 4]
    ensures { result ≡ users.access bits }
{
    [
        Field::of(Term::AccessMode, mode(bits % 8)),
        Field::of(Term::UserLevelAuthentication, Shown::Switch(!has(bits, 3))),
        Field::of(Term::PerMessageAuthentication, Shown::Switch(!has(bits, 4))),
        Field::of(Term::PefAlerting, Shown::Switch(!has(bits, 5))),
    ]
}

/// A limit of privileges as a field.
fn limit(bits: u8) -> Field
    ensures { result ≡ users.limit bits }
{
    Field::of(Term::PrivilegeLimit, privilege(bits % 16))
}

/// The fields of an operation on a channel's access.
pub(crate) fn channel_access(set: &SetChannelAccess) -> Fields
    ensures { result ≡ users.channel_access set.now.change }
{
    match set.change {
        ChannelChange::Access(bits) => Fields::of(&access(bits.number)),
        ChannelChange::Limit(bits) => Fields::of(&[limit(bits.number)]),
        ChannelChange::Both(bits, most) => {
            let [mode, users, messages, alerting] = access(bits.number);
            Fields::of(&[mode, users, messages, alerting, limit(most.number)])
        }
    }
}

/// The name of an address.
fn address_term(which: LanAddress) -> Term
    ensures { result ≡ users.address_term which }
{
    match which {
        LanAddress::Ip => Term::IpAddress,
        LanAddress::SubnetMask => Term::SubnetMask,
        LanAddress::DefaultGateway => Term::DefaultGateway,
    }
}

/// Where an address comes from, by bits 3:0.
fn source(bits: u8) -> Shown
    ensures { result ≡ users.source bits }
{
    match bits {
        0 => Shown::Means(Meaning::Unspecified),
        1 => Shown::Means(Meaning::Static),
        2 => Shown::Means(Meaning::Dhcp),
        3 => Shown::Means(Meaning::BySoftware),
        4 => Shown::Means(Meaning::OtherSource),
        _ => Shown::Bits(bits),
    }
}

/// The fields of an operation on a LAN parameter.
pub(crate) fn lan_param(set: &SetLanParam) -> Fields
    ensures { result ≡ users.lan_param set.now.change }
{
    match set.change {
        LanChange::Address(which, to) => Fields::of(&[Field::of(
            address_term(which),
            Shown::Address(to.bytes()),
        )]),
        LanChange::AddressSource(byte) => {
            Fields::of(&[Field::of(Term::AddressSource, source(byte % 16))])
        }
        LanChange::Vlan(to) => Fields::of(&[
            Field::of(Term::VlanUse, Shown::Switch(has(to.high, 7))),
            Field::of(
                Term::VlanId,
                Shown::Number(u32::from(to.low) + 256 * u32::from(to.high % 16)),
            ),
        ]),
    }
}
