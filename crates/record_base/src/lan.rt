//! The LAN parameters of a channel, in a board file.
ghost use Rattle.std.specs.Prelude.{◌≡◌, ◌≤◌};
ghost use Rattle.record_base.specs.Vlan.{vlan_high};

use crate::board_sizes::MOST_CHANNELS;
use crate::channel::ChannelNumber;
use crate::distinct::{Distinct, Numbered};
use crate::key::Key;
use crate::lan_parameter::{Ipv4Address, LanAddress, LanParameter, ParameterOnChannel, VlanBytes};
use crate::start_value::StartValue;

/// The greatest source of an address (IPMI 2.0, IP Address Source).
pub const MOST_SOURCE: u8 = 4;

/// The first data of a channel's LAN parameters. Bits that the standard reserves are clear.
#[derive(Clone, Copy, Debug)]
pub struct Lan {
    pub number: ChannelNumber,
    pub ip: Ipv4Address,
    pub source: u8,
    pub mask: Ipv4Address,
    pub gateway: Ipv4Address,
    pub vlan: VlanBytes,
    ghost is_source: { source ≤ 4 },
    ghost is_vlan: { vlan_high vlan.high ≡ vlan.high },
}

/// The LAN parameters of a board's channels.
pub type Lans = Distinct<Lan, { MOST_CHANNELS }>;

impl Numbered for Lan {
    ghost number_of = { λ lan. lan.number.number };

    fn number(&self) -> u16 {
        u16::from(self.number.number)
    }
}

/// The second byte of a VLAN without its ignored bits, 6:4.
pub fn vlan_high(byte: u8) -> u8
    ensures { result ≡ vlan_high byte }
{
    byte / 128 * 128 + byte % 16
}

impl Lan {
    ghost use Rattle.std.specs.Prelude.{◌↔◌, IsSome, IfSome};
    ghost use Rattle.record_base.specs.LanItems.{lan_value, lan_key};

    /// The parameters of a channel, or nothing where no source has the number, or an ignored bit of the VLAN is set.
    pub fn new(
        number: ChannelNumber,
        ip: Ipv4Address,
        source: u8,
        mask: Ipv4Address,
        gateway: Ipv4Address,
        vlan: VlanBytes,
    ) -> Option<Lan>
        ensures made { IsSome result ↔ ((source ≤ 4) × (vlan_high vlan.high ≡ vlan.high)) }
        ensures parts { IfSome result
            (λ made. (made.number ≡ number) × (made.ip ≡ ip) × (made.mask ≡ mask)) }
        ensures others { IfSome result
            (λ made. (made.gateway ≡ gateway) × (made.source ≡ source)) }
        ensures vlan { IfSome result (λ made. made.vlan ≡ vlan) }
    {
        if source > MOST_SOURCE || vlan_high(vlan.high) != vlan.high {
            return None;
        }
        Some(Lan {
            number,
            ip,
            source,
            mask,
            gateway,
            vlan,
        })
    }

    /// The record of the parameter.
    pub fn pair(&self, parameter: LanParameter) -> (Key, StartValue)
        ensures { result ≡ (lan_key self.now.number parameter, lan_value self.now parameter) }
    {
        let value = match parameter {
            LanParameter::Address(LanAddress::Ip) => StartValue::few(&self.ip.bytes()),
            LanParameter::Address(LanAddress::SubnetMask) => StartValue::few(&self.mask.bytes()),
            LanParameter::Address(LanAddress::DefaultGateway) => {
                StartValue::few(&self.gateway.bytes())
            }
            LanParameter::AddressSource => StartValue::few(&[self.source]),
            LanParameter::Vlan => StartValue::few(&self.vlan.bytes()),
        };
        let name = ParameterOnChannel {
            channel: self.number,
            parameter,
        };
        (Key::LanParam(name), value)
    }
}
