//! LAN parameters in files: the channels that have them, their numbers and their data.
ghost use Rattle.std.specs.Prelude.{◌≡◌, ◌∷◌, [], false, length, is_some, option_and_then, get_or, Some, IfSome};
ghost use Rattle.std.specs.Option.{option_map_or};
ghost use Rattle.record_base.specs.Lan.{address_bytes, vlan_bytes, changed_parameter, lan_data, lan_parameter_at};
ghost use Rattle.record_base.specs.Vlan.{vlan_high};
ghost use Rattle.toml.specs.View.{view, table_view};
ghost use Rattle.text_fields.specs.Trees.{natural, bytes_in};
ghost use Rattle.text_fields.specs.Lan.{are_lan_data, lan_parameter_in, is_lan_number, is_lan_value};

use crate::field::Field;
use crate::tree::{bytes, natural, number};
use record_base::lan::{MOST_SOURCE, vlan_high};
use record_base::{Ipv4Address, LanChange, LanParameter, VlanBytes};
use toml::{Table, Value};

/// The type of a field that has to do with LAN parameters, and its range.
#[derive(Clone, Copy)]
pub enum LanShape {
    /// The number of a channel that the file lists: whether it lists each of 0 to 15.
    Channel([bool; 16]),
    /// The number of a parameter.
    Parameter,
    /// Bytes, in a list: data of this parameter.
    Bytes(LanParameter),
    /// Bytes, in a list: data of the parameter that the item names.
    Named,
}

/// The address that the value is.
pub fn address(value: &Value) -> Option<Ipv4Address>
    ensures made { is_some result ≡ is_some (bytes_in 4 (view value.now)) }
    ensures held { IfSome result
        (λ address. bytes_in 4 (view value.now) ≡ Some (address_bytes address)) }
{
    let Some(bytes) = bytes::<4>(value) else {
        return None;
    };
    let [first, second, third, fourth] = bytes;
    Some(Ipv4Address {
        first,
        second,
        third,
        fourth,
    })
}

/// The source of an address that the value is, in a list.
fn source(value: &Value) -> Option<u8>
    ensures made { is_some result ≡ are_lan_data LanParameter.AddressSource (view value.now) }
    ensures held { IfSome result (λ byte. bytes_in 1 (view value.now) ≡ Some (byte ∷ [])) }
{
    let Some(bytes) = bytes::<1>(value) else {
        return None;
    };
    let [byte] = bytes;
    if byte > MOST_SOURCE {
        return None;
    }
    Some(byte)
}

/// The VLAN that the value is.
pub fn vlan(value: &Value) -> Option<VlanBytes>
    ensures made { is_some result ≡ are_lan_data LanParameter.Vlan (view value.now) }
    ensures held { IfSome result (λ vlan. bytes_in 2 (view value.now) ≡ Some (vlan_bytes vlan)) }
    ensures clear { IfSome result (λ vlan. vlan_high vlan.high ≡ vlan.high) }
{
    let Some(bytes) = bytes::<2>(value) else {
        return None;
    };
    let [low, high] = bytes;
    if vlan_high(high) != high {
        return None;
    }
    Some(VlanBytes { low, high })
}

/// What becomes of the parameter by the data that the value is.
pub fn lan_change(parameter: LanParameter, value: &Value) -> Option<LanChange>
    ensures made { is_some result ≡ are_lan_data parameter (view value.now) }
    ensures changed { IfSome result (λ change. changed_parameter change ≡ parameter) }
    ensures held { IfSome result
        (λ change. bytes_in (length (lan_data change)) (view value.now) ≡ Some (lan_data change)) }
{
    match parameter {
        LanParameter::Address(which) => match address(value) {
            Some(address) => Some(LanChange::Address(which, address)),
            None => None,
        },
        LanParameter::AddressSource => match source(value) {
            Some(byte) => Some(LanChange::AddressSource(byte)),
            None => None,
        },
        LanParameter::Vlan => match vlan(value) {
            Some(vlan) => Some(LanChange::Vlan(vlan)),
            None => None,
        },
    }
}

/// The parameter whose number this is.
fn parameter_at(number: Option<u64>) -> Option<LanParameter>
    ensures { result ≡ option_and_then lan_parameter_at number }
{
    match number {
        Some(number) => match u8::try_from(number) {
            Ok(byte) => LanParameter::at(byte),
            Err(_) => None,
        },
        None => None,
    }
}

/// The LAN parameter that the item names.
pub fn lan_parameter_in(item: &Table) -> Option<LanParameter>
    ensures { result ≡ lan_parameter_in (table_view item.now) }
{
    parameter_at(number(item, Field::Param))
}

/// Whether the value is data of the parameter that the item names.
fn are_named_data(item: &Table, value: &Value) -> bool
    ensures { result ≡ is_lan_value (table_view item.now) LanShape.Named (view value.now) }
{
    match lan_parameter_in(item) {
        Some(parameter) => lan_change(parameter, value).is_some(),
        None => false,
    }
}

/// Whether the number at this place is listed.
fn is_listed(listed: &[bool], number: u64) -> bool
    ensures { result ≡ get_or listed.now number false }
{
    let Ok(place) = usize::try_from(number) else {
        return false;
    };
    match listed.get(place) {
        Some(listed) => *listed,
        None => false,
    }
}

/// Whether the value is the number of a channel that is listed.
fn is_listed_channel(listed: &[bool], value: &Value) -> bool
    ensures { result
        ≡ option_map_or (λ n. get_or listed.now n false) (natural (view value.now)) false }
{
    match natural(value) {
        Some(number) => is_listed(listed, number),
        None => false,
    }
}

impl LanShape {
    /// Whether a field of this shape has a number, and not a list.
    pub fn is_number(&self) -> bool
        ensures { result ≡ is_lan_number self.now }
    {
        match self {
            LanShape::Channel(_) | LanShape::Parameter => true,
            LanShape::Bytes(_) | LanShape::Named => false,
        }
    }

    /// Whether the item can have the value in a field of this shape.
    pub fn is_in_range(&self, item: &Table, value: &Value) -> bool
        ensures { result ≡ is_lan_value (table_view item.now) self.now (view value.now) }
    {
        match self {
            LanShape::Channel(listed) => is_listed_channel(listed, value),
            LanShape::Parameter => parameter_at(natural(value)).is_some(),
            LanShape::Bytes(parameter) => lan_change(*parameter, value).is_some(),
            LanShape::Named => are_named_data(item, value),
        }
    }
}
