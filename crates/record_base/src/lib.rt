//! The base of the kinds of configuration record: the keys and values of records, a board's parts, the operations on records, requests and
//! replies without their frames, and the trait of a kind of record.
#![tactic(auto)]

pub mod at_once;
pub mod attribute;
pub mod attribute_range;
pub mod attribute_sizes;
pub mod attribute_value;
pub mod attributes;
pub mod bios_attribute;
pub mod bit_field;
pub mod board_sizes;
pub mod boot_param;
pub mod channel;
pub mod command_reader;
pub mod device;
pub mod distinct;
pub mod event_enable;
pub mod field_changes;
pub mod global_enables;
pub mod hysteresis;
pub mod in_order;
pub mod items;
pub mod key;
pub mod kind;
pub mod lan;
pub mod lan_parameter;
pub mod live;
pub mod log_capacity;
pub mod mask;
pub mod message;
pub mod net_fn;
pub mod numeric_effecter;
pub mod numeric_range;
pub mod numeric_size;
pub mod op;
pub mod power_policy;
pub mod sdr_record;
pub mod sensor;
pub mod start_value;
pub mod state_effecter;
pub mod threshold_masks;
pub mod thresholds;
pub mod user;
pub mod user_sizes;
pub mod users;
pub mod value;
pub mod watchdog;

pub use at_once::AtOnce;
pub use attribute::{
    Attribute, AttributeKind, EnumerationAttribute, Indexes, IntegerAttribute, StringAttribute,
    Text,
};
pub use attribute_range::{AttributeRange, IntegerSteps, PossibleValues, TextLengths};
pub use attribute_value::AttributeValue;
pub use attributes::Attributes;
pub use bios_attribute::SetBiosAttribute;
pub use bit_field::BitField;
pub use boot_param::{BootChange, BootFlags, BootOptions, BootParameter, MaskedBits, SetBootParam};
pub use channel::{
    AccessStore, Channel, ChannelAccess, ChannelChange, ChannelNumber, Channels,
    SessionlessChannels, SetChannelAccess, SixBits, StoredAccess,
};
pub use command_reader::CommandReader;
pub use device::{Bcd, Device, ManufacturerId};
pub use distinct::{Distinct, Numbered};
pub use event_enable::{EventChange, EventEnable, EventMasks, SetEventEnable};
pub use field_changes::{FieldChange, FieldChanges};
pub use global_enables::{GlobalEnables, SetGlobalEnables};
pub use hysteresis::{Hysteresis, SetHysteresis};
pub use items::Items;
pub use key::Key;
pub use kind::{RecordKind, there_and_back};
pub use lan::{Lan, Lans};
pub use lan_parameter::{
    Ipv4Address, LanAddress, LanChange, LanParameter, ParameterOnChannel, SetLanParam, VlanBytes,
};
pub use live::Live;
pub use log_capacity::LogCapacity;
pub use message::{Answered, Asked, byte_at, bytes_at};
pub use numeric_effecter::{NumericBytes, NumericEffecter, NumericEffecters, SetNumericEffecter};
pub use numeric_range::NumericRange;
pub use numeric_size::NumericSize;
pub use op::Op;
pub use power_policy::{PowerPolicy, SetPowerPolicy};
pub use sdr_record::{SdrRecord, SdrRecords};
pub use sensor::{Sensor, Sensors};
pub use start_value::StartValue;
pub use state_effecter::{SetStateEffecter, StateEffecter, StateEffecters, StateField};
pub use threshold_masks::ThresholdMasks;
pub use thresholds::{SetThresholds, Thresholds};
pub use user::{
    SetUserAccess, SetUserName, User, UserAccess, UserAccesses, UserNumber, UserOnChannel,
};
pub use users::Users;
pub use value::{RecordData, Value};
pub use watchdog::{SetWatchdog, Watchdog};
