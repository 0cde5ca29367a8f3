//! What is told of a board whose sensor data records fit none of its sensors.
ghost use Rattle.std.specs.Prelude.{◌≡◌, ◌++◌, ◌∷◌, [], IfOk, OnOk, filter, string_bytes};
ghost use Rattle.text_lines.specs.Cuts.{ended};
ghost use Rattle.text_check.specs.Unfit.{fits_none, has_unfit, is_key, key_of, lines_of, unfit_line, unfit_lines};

use cfg_records::{BoardFile, Numbered, SdrRecord, Sensor};
use record_base::distinct::is_taken;
use std::alloc::{AllocError, Global};
use two_wire::places::CONTROLLER_WIRE;

/// How many bytes of a record stand before its key.
const BEFORE_KEY: usize = 5;

/// How many bytes the key of a record has that describes a sensor.
const KEY_SIZE: usize = 3;

/// The type of a full sensor record.
const FULL: u8 = 0x01;

/// The type of a compact one.
const COMPACT: u8 = 0x02;

/// The bytes of a record that say which sensor it describes: all three, or fewer where the record is shorter.
fn key_of(kept: &SdrRecord) -> &[u8]
    ensures { result.now ≡ key_of kept.now }
{
    let behind = &kept.as_slice()[BEFORE_KEY..];
    &behind[..behind.len().min(KEY_SIZE)]
}

/// Whether the key is one of these sensors'.
fn is_key(sensors: &[Sensor], key: &[u8]) -> bool
    ensures { result ≡ is_key sensors.now key.now }
{
    match key {
        [owner, unit, number] => {
            *owner == CONTROLLER_WIRE && *unit == 0 && is_taken(sensors, u16::from(*number))
        }
        _ => false,
    }
}

/// Whether the record describes a sensor, and none of these.
fn fits_none(sensors: &[Sensor], kept: &SdrRecord) -> bool
    ensures { result ≡ fits_none sensors.now kept.now }
{
    matches!(kept.as_slice()[3], FULL | COMPACT) && !is_key(sensors, key_of(kept))
}

/// Adds the line of a record that fits no sensor.
fn push_unfit(
    alloc: Global,
    text: &mut String,
    name: &str,
    kept: &SdrRecord,
) -> Result<(), AllocError>
    ensures { OnOk result (string_bytes text.new
        ≡ string_bytes text.old ++ ended (unfit_line name.now kept.now)) }
{
    let id = kept.number();
    let key = hex::encode_upper(alloc, key_of(kept))?;
    writeln!(text, "{name}: sdr record {id}: no sensor has the key {key}")
}

/// Tells of the record, where it describes a sensor and none of these, and whether it does.
fn tell_record(
    alloc: Global,
    text: &mut String,
    name: &str,
    sensors: &[Sensor],
    kept: &SdrRecord,
) -> Result<bool, AllocError>
    ensures told { IfOk result (λ told. told ≡ fits_none sensors.now kept.now) }
    ensures text { OnOk result (string_bytes text.new ≡ string_bytes text.old
        ++ lines_of name.now (filter (fits_none sensors.now) (kept.now ∷ []))) }
{
    if !fits_none(sensors, kept) {
        return Ok(false);
    }
    push_unfit(alloc, text, name, kept)?;
    Ok(true)
}

/// Tells of the records of the board that describe a sensor and none of the board's, a line each in the file's order, and whether there is one.
pub fn tell_unfit(
    alloc: Global,
    text: &mut String,
    name: &str,
    board: &BoardFile,
) -> Result<bool, AllocError>
    ensures told { IfOk result (λ told. told ≡ has_unfit board.now) }
    ensures text { OnOk result (string_bytes text.new
        ≡ string_bytes text.old ++ unfit_lines name.now board.now) }
{
    let sensors = board.sensors.items.as_slice();
    let mut told = false;
    for kept in board.sdr.items.as_slice() {
        if tell_record(alloc, text, name, sensors, kept)? {
            told = true;
        }
    }
    Ok(told)
}
