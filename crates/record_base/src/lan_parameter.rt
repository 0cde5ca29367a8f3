//! LAN configuration parameters, as they are named and set.
ghost use Rattle.std.specs.Prelude.{◌≡◌};
ghost use Rattle.record_base.specs.Lan.{lan_length, lan_selector, lan_parameter_at, address_bytes, vlan_bytes, changed_parameter};

use crate::channel::ChannelNumber;

/// An address that a LAN parameter holds (IPMI 2.0).
#[derive(Clone, Copy, Debug, PartialEq, Eq, PartialOrd, Ord)]
pub enum LanAddress {
    /// Parameter 3, IP address.
    Ip,
    /// Parameter 6, subnet mask.
    SubnetMask,
    /// Parameter 12, default gateway address.
    DefaultGateway,
}

/// A LAN parameter that a controller keeps (IPMI 2.0).
#[derive(Clone, Copy, Debug, PartialEq, Eq, PartialOrd, Ord)]
pub enum LanParameter {
    /// Parameters 3, 6 and 12.
    Address(LanAddress),
    /// Parameter 4, IP address source: where the address comes from, by bits 3:0.
    AddressSource,
    /// Parameter 20, 802.1q VLAN ID: which virtual network frames belong to.
    Vlan,
}

/// A parameter of a channel.
#[derive(Clone, Copy, Debug, PartialEq, Eq, PartialOrd, Ord)]
pub struct ParameterOnChannel {
    pub channel: ChannelNumber,
    pub parameter: LanParameter,
}

/// An address of the Internet Protocol, version 4, the most significant byte first.
#[derive(Clone, Copy, Debug)]
pub struct Ipv4Address {
    pub first: u8,
    pub second: u8,
    pub third: u8,
    pub fourth: u8,
}

/// The data of parameter 20: the low byte of the VLAN ID, and a byte with its high bits in bits 3:0, which bit 7 enables.
#[derive(Clone, Copy, Debug)]
pub struct VlanBytes {
    pub low: u8,
    pub high: u8,
}

/// A change of a LAN parameter, by the data of the request.
#[derive(Clone, Copy)]
pub enum LanChange {
    /// The parameter of this name becomes this address.
    Address(LanAddress, Ipv4Address),
    /// Parameter 4 becomes bits 3:0 of this byte.
    AddressSource(u8),
    /// Parameter 20 becomes these bytes, without bits 6:4 of the second.
    Vlan(VlanBytes),
}

/// Sets a LAN parameter of a channel.
#[derive(Clone, Copy)]
pub struct SetLanParam {
    pub channel: ChannelNumber,
    pub change: LanChange,
}

impl LanParameter {
    /// The parameter of this number, its selector in a request.
    pub fn at(number: u8) -> Option<LanParameter>
        ensures { result ≡ lan_parameter_at number }
    {
        match number {
            3 => Some(LanParameter::Address(LanAddress::Ip)),
            4 => Some(LanParameter::AddressSource),
            6 => Some(LanParameter::Address(LanAddress::SubnetMask)),
            12 => Some(LanParameter::Address(LanAddress::DefaultGateway)),
            20 => Some(LanParameter::Vlan),
            _ => None,
        }
    }

    /// The number of the parameter.
    pub fn selector(self) -> u8
        ensures { result ≡ lan_selector self }
    {
        match self {
            LanParameter::Address(LanAddress::Ip) => 3,
            LanParameter::AddressSource => 4,
            LanParameter::Address(LanAddress::SubnetMask) => 6,
            LanParameter::Address(LanAddress::DefaultGateway) => 12,
            LanParameter::Vlan => 20,
        }
    }

    /// How many bytes the parameter's value has.
    pub fn length(self) -> usize
        ensures { result ≡ lan_length self }
    {
        match self {
            LanParameter::Address(_) => 4,
            LanParameter::AddressSource => 1,
            LanParameter::Vlan => 2,
        }
    }
}

impl Ipv4Address {
    /// The bytes of the address, the most significant first.
    pub fn bytes(self) -> [u8; 4]
        ensures { result ≡ address_bytes self }
    {
        [self.first, self.second, self.third, self.fourth]
    }
}

impl VlanBytes {
    /// Both bytes of the VLAN.
    pub fn bytes(self) -> [u8; 2]
        ensures { result ≡ vlan_bytes self }
    {
        [self.low, self.high]
    }
}

impl LanChange {
    /// The parameter that the change changes.
    pub fn parameter(&self) -> LanParameter
        ensures { result ≡ changed_parameter self.now }
    {
        match self {
            LanChange::Address(which, _) => LanParameter::Address(*which),
            LanChange::AddressSource(_) => LanParameter::AddressSource,
            LanChange::Vlan(_) => LanParameter::Vlan,
        }
    }
}
