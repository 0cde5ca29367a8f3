//! The value of a BIOS attribute, as a kind of record.
ghost use Rattle.std.specs.Prelude.{◌≡◌, ◌+◌, ◌≤◌, ◌++◌, ◌∷◌, length};
ghost use Rattle.record_base.specs.AttributeSizes.{most_data};
ghost use Rattle.record_base.specs.AttributeValue.{two_bytes};
ghost use Rattle.bios_attr.specs.EntryParts.{first_part};
ghost use Rattle.bios_attr.specs.BiosAttribute.{no_handle, get_first_part, attribute_body, transfer_handle, attribute_in, attribute_shown_in, attribute_view, is_within, is_attribute_reply};

use crate::entry_parts::{BEFORE_ENTRY_VALUE, BEFORE_PART, goes_in_parts, part_at};
use crate::value_entry::{entry_in, shown_type};
use pldm_base::{GET_FIRST_PART, GET_NEXT_PART, MOST_WHOLE, PART_LENGTH, TransferFlag};
use record_base::attribute_sizes::{BEFORE_VALUE, MOST_INDEXES, MOST_TEXT};
use record_base::attribute_value::{AttributeValue, value_in};
use record_base::value::DATA_CAPACITY;
use record_base::{
    Asked, Attribute, AttributeRange, Key, Live, RecordData, RecordKind, SetBiosAttribute, Value,
    byte_at, bytes_at,
};
use two_wire::code::{PLDM_INVALID_DATA, PLDM_INVALID_LENGTH};
use two_wire::{Below, Buffer, Code};

/// The PLDM type of BIOS control and configuration.
pub const BIOS: u8 = 3;

/// The number of the command that sets an attribute's value.
pub const SET_CURRENT_VALUE: u8 = 0x07;

/// The number of the command that gets it.
pub const GET_CURRENT_VALUE: u8 = 0x08;

/// The transfer flag of data that is whole.
pub const START_AND_END: u8 = TransferFlag::StartAndEnd as u8;

/// How many bytes the data of a Set have at least, of whatever flag.
const LEAST_SET: usize = BEFORE_PART + 1;

/// A transfer handle that stands for nothing.
const NO_HANDLE: [u8; 4] = [0; 4];

/// What can be done with an attribute: its handle, whether it can only be read, and which values it can have.
#[derive(Clone, Copy)]
pub struct AttributeLimits {
    pub handle: u16,
    pub read_only: bool,
    pub range: AttributeRange,
}

/// Which part of an attribute's entry the data of a Get ask for.
#[derive(Clone, Copy)]
pub enum AskedPart {
    /// The first part, of the attribute with this handle.
    First(u16),
    /// The part of such an attribute that this transfer handle names.
    Later(u16, u32),
}

/// Appends an entry's bytes.
fn write_entry<B: Buffer>(attribute: u16, code: u8, value: &[u8], out: &mut B)
    requires { length (B.bytes out.old) + (3 + length value.now) ≤ B.capacity }
    ensures { B.bytes out.new ≡ B.bytes out.old ++ two_bytes attribute ++ code ∷ value.now }
{
    out.extend_from_slice(&attribute.to_le_bytes());
    out.push(code);
    out.extend_from_slice(value);
}

/// The data of the request that carries out the operation.
fn body(op: &SetBiosAttribute<'_>) -> RecordData
    ensures value { result ≡ attribute_body op.now }
    ensures short { length result ≤ most_data }
{
    let mut body = RecordData::from_slice(&NO_HANDLE);
    body.push(START_AND_END);
    write_entry(
        op.attribute,
        op.attribute_type,
        op.value.as_slice(),
        &mut body,
    );
    body
}

/// The transfer handle in the data of a request.
pub fn transfer_handle(body: &[u8]) -> u32
    ensures { result ≡ transfer_handle body.now }
{
    u32::from_le_bytes(bytes_at(body, 0))
}

/// The operation that the data of its request says: nothing where they are too short, or where their flag says that they are a part.
pub fn attribute_in(body: &[u8]) -> Result<SetBiosAttribute<'_>, Code>
    ensures { result ≡ attribute_in body.now }
{
    if body.len() < LEAST_SET {
        return Err(PLDM_INVALID_LENGTH);
    }
    if body[4] != START_AND_END {
        return Err(PLDM_INVALID_DATA);
    }
    if body.len() < BEFORE_VALUE {
        return Err(PLDM_INVALID_LENGTH);
    }
    let attribute = u16::from_le_bytes([body[5], body[6]]);
    Ok(SetBiosAttribute::of(attribute, body[7], &body[BEFORE_VALUE..]))
}

/// The part that the data of a Get ask for, or the code that refuses another transfer operation.
pub fn attribute_shown_in(body: &[u8]) -> Result<AskedPart, Code>
    ensures { result ≡ attribute_shown_in body.now }
{
    let attribute = u16::from_le_bytes([byte_at(body, 5), byte_at(body, 6)]);
    match byte_at(body, 4) {
        GET_FIRST_PART => Ok(AskedPart::First(attribute)),
        GET_NEXT_PART => Ok(AskedPart::Later(attribute, transfer_handle(body))),
        _ => Err(PLDM_INVALID_DATA),
    }
}

/// Whether a value is within the limits of all attributes.
fn is_within(value: &AttributeValue<'_>) -> bool
    ensures { result ≡ is_within value.now }
{
    match value {
        AttributeValue::Indexes(indexes) => {
            let count = indexes.as_slice().len();
            count >= 1 && count <= MOST_INDEXES
        }
        AttributeValue::Text(text) => text.as_slice().len() <= MOST_TEXT,
        AttributeValue::Number(_) => true,
    }
}

/// Whether it is a Get reply.
fn is_attribute_reply(reply: &[u8]) -> bool
    ensures { result ≡ is_attribute_reply reply.now }
{
    if reply.len() < BEFORE_VALUE || reply.len() > DATA_CAPACITY || reply[4] != START_AND_END {
        return false;
    }
    match entry_in(&reply[BEFORE_PART..]) {
        Some(entry) => is_within(&entry.value),
        None => false,
    }
}

/// The data of the request that gets an attribute's value.
fn get_body(handle: u16) -> [u8; 7]
    ensures { result ≡ no_handle ++ get_first_part ∷ two_bytes handle }
{
    let [low, high] = handle.to_le_bytes();
    [0, 0, 0, 0, GET_FIRST_PART, low, high]
}

impl AttributeLimits {
    ghost use Rattle.record_base.specs.Attribute.{range_of};

    /// The limits that an attribute gives to the record of this handle.
    pub fn of(handle: u16, attribute: &Attribute) -> Self
        ensures { result ≡ record {
          handle = handle;
          read_only = attribute.now.read_only;
          range = range_of attribute.now.kind;
        } }
    {
        AttributeLimits {
            handle,
            read_only: attribute.read_only,
            range: attribute.kind.range(),
        }
    }

    /// Appends the data of the Get reply, which show this value.
    pub fn show<B: Buffer>(&self, value: &[u8], reply: &mut B)
        requires { length (B.bytes reply.old) + length (attribute_view self.now value.now)
            ≤ B.capacity }
        ensures { B.bytes reply.new ≡ B.bytes reply.old ++ attribute_view self.now value.now }
    {
        reply.extend_from_slice(&NO_HANDLE);
        reply.push(START_AND_END);
        let code = shown_type(self.read_only, self.range.type_code());
        write_entry(self.handle, code, value, reply);
    }

    /// Appends the data of the first Get reply, which show this value: all of it, or the first part of an entry that goes in parts.
    pub fn show_first<B: Buffer>(&self, value: &[u8], reply: &mut B)
        requires { length (B.bytes reply.old)
            + length (first_part (attribute_view self.now value.now)) ≤ B.capacity }
        ensures { B.bytes reply.new
            ≡ B.bytes reply.old ++ first_part (attribute_view self.now value.now) }
    {
        if BEFORE_ENTRY_VALUE + value.len() <= MOST_WHOLE {
            self.show(value, reply);
            return;
        }
        reply.extend_from_slice(&(PART_LENGTH as u32).to_le_bytes());
        reply.push(TransferFlag::Start.byte());
        let code = shown_type(self.read_only, self.range.type_code());
        let first = &value[..PART_LENGTH - BEFORE_ENTRY_VALUE];
        write_entry(self.handle, code, first, reply);
    }
}

impl<'a> RecordKind<'a> for AttributeLimits {
    ghost use Rattle.bios_attr.specs.BiosAttributeKind as attribute;

    type Key = u16;

    type Op = SetBiosAttribute<'a>;

    ghost kind = { attribute.kind };

    fn key(op: &SetBiosAttribute<'a>) -> Key {
        Key::BiosAttribute(op.attribute)
    }

    fn apply(&self, op: &SetBiosAttribute<'a>, _value: &[u8], new: &mut Value) -> Result<(), Code> {
        if op.attribute_type != self.range.type_code() || self.read_only {
            return Err(PLDM_INVALID_DATA);
        }
        let bytes = op.value.as_slice();
        let Some(value) = value_in(op.attribute_type, bytes) else {
            return Err(PLDM_INVALID_LENGTH);
        };
        if !self.range.allows(&value) {
            return Err(PLDM_INVALID_DATA);
        }
        new.replace(bytes);
        Ok(())
    }

    fn set_reply<B: Buffer>(_op: &SetBiosAttribute<'a>, reply: &mut B) {
        reply.extend_from_slice(&NO_HANDLE);
    }

    fn next_live(_op: &SetBiosAttribute<'a>, _live: &mut Live) {}

    fn get_data<B: Buffer>(&self, value: &[u8], live: &Live, reply: &mut B)
        requires is_valid { (attribute.kind.record_words self.now).valid value.now }
        requires room { length (B.bytes reply.old)
            + length ((attribute.kind.record_words self.now).view value.now live.now)
            ≤ B.capacity }
        ensures { B.bytes reply.new
            ≡ B.bytes reply.old ++ (attribute.kind.record_words self.now).view value.now live.now }
    {
        self.show(value, reply);
    }

    fn get_asked(handle: &u16) -> Asked
        ensures { result ≡ attribute.kind.words.get_asked handle.now }
    {
        Asked::pldm(Below::new(BIOS), GET_CURRENT_VALUE, &get_body(*handle))
    }

    fn set_data(op: &SetBiosAttribute<'a>) -> RecordData {
        body(op)
    }

    fn set_asked(op: &SetBiosAttribute<'a>) -> Asked {
        let whole = body(op);
        if !goes_in_parts(whole.as_slice()) {
            return Asked::pldm(Below::new(BIOS), SET_CURRENT_VALUE, whole.as_slice());
        }
        let first = part_at(whole.as_slice(), 0).unwrap();
        Asked::pldm(Below::new(BIOS), SET_CURRENT_VALUE, first.as_slice())
    }

    fn inverse(_op: &SetBiosAttribute<'a>, get_data: &'a [u8]) -> Option<SetBiosAttribute<'a>> {
        if !is_attribute_reply(get_data) {
            return None;
        }
        let attribute = u16::from_le_bytes([get_data[5], get_data[6]]);
        Some(SetBiosAttribute::of(attribute, get_data[7], &get_data[BEFORE_VALUE..]))
    }
}
