//! An image of records: a value with its length in front, in the room that its kind may take.
ghost use Rattle.std.specs.Prelude.{◌≡◌, ◌+◌, ◌≤◌, OnOk, length};
ghost use Rattle.cfg_records.specs.Image.{length_at, value_at, WroteAt, HasAdded};

use std::alloc::AllocError;

/// The value that lies at an offset.
pub(crate) fn value_at(bytes: &[u8], at: usize) -> &[u8]
    requires { at + 2 + length_at bytes.now at ≤ length bytes.now }
    ensures { result.now ≡ value_at bytes.now at }
{
    let length = usize::from(bytes[at]) + 256 * usize::from(bytes[at + 1]);
    &bytes[at + 2..at + 2 + length]
}

/// Writes a value with its length at an offset.
pub(crate) fn write_at(bytes: &mut [u8], at: usize, value: &[u8])
    requires room { at + 2 + length value.now ≤ length bytes.old }
    requires short { length value.now ≤ 65535 }
    ensures { WroteAt bytes.old bytes.new at value.now }
{
    bytes[at] = (value.len() % 256) as u8;
    bytes[at + 1] = (value.len() / 256) as u8;
    bytes[at + 2..at + 2 + value.len()].copy_from_slice(value);
}

/// Adds a record behind the bytes.
pub(crate) fn add(bytes: &mut Vec<u8>, room: usize, value: &[u8]) -> Result<(), AllocError>
    requires fits { length value.now ≤ room }
    requires short { room ≤ 65535 }
    ensures { OnOk result (HasAdded bytes.old.items bytes.new.items room value.now) }
{
    let at = bytes.len();
    bytes.resize(at + 2 + room, 0)?;
    write_at(bytes.as_mut_slice(), at, value);
    Ok(())
}
