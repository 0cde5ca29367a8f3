//! What the Gets of effecters show behind an operation.
ghost use Rattle.std.specs.Prelude.{◌≡◌, IfOk};
ghost use Rattle.effecter_recs.specs.FieldChanges.{changed};
ghost use Rattle.effecter_recs.specs.Numeric.{value_bytes};
ghost use Rattle.shown_records.specs.Effecters.{after_numeric, after_states};

use crate::slices::behind;
use record_base::{FieldChange, NumericBytes, SetNumericEffecter, SetStateEffecter, byte_at};
use std::alloc::{AllocError, Global};
use two_wire::Bytes;

/// The choice of a change that sets its field.
const SET: u8 = 1;

/// The bytes of a number, and three for one of no size.
fn value_bytes(value: &NumericBytes) -> Bytes<4>
    ensures { result ≡ value_bytes value.now }
{
    match value {
        NumericBytes::One(only) => Bytes::from_slice(&[*only]),
        NumericBytes::Two(low, high) => Bytes::from_slice(&[*low, *high]),
        NumericBytes::Four(first, second, third, fourth) => {
            Bytes::from_slice(&[*first, *second, *third, *fourth])
        }
        NumericBytes::Other => Bytes::from_slice(&[0, 0, 0]),
    }
}

/// The pending and the present value are the operation's, behind the size and the operational state.
pub(crate) fn numeric(
    alloc: Global,
    op: &SetNumericEffecter,
    shown: &[u8],
) -> Result<Vec<u8>, AllocError>
    ensures { IfOk result (λ after. after.items ≡ after_numeric op.now shown.now) }
{
    let value = value_bytes(&op.value);
    let mut after = Vec::from_slice(alloc, &[byte_at(shown, 0), byte_at(shown, 1)])?;
    after.extend_from_slice(value.as_slice())?;
    after.extend_from_slice(value.as_slice())?;
    Ok(after)
}

/// The state of a field after a change.
fn changed(change: &FieldChange, old: u8) -> u8
    ensures { result ≡ changed change.now old }
{
    if change.choice == SET {
        change.state
    } else {
        old
    }
}

/// The fields change as the operation says, behind their number.
pub(crate) fn states(
    alloc: Global,
    op: &SetStateEffecter,
    shown: &[u8],
) -> Result<Vec<u8>, AllocError>
    ensures { IfOk result (λ after. after.items ≡ after_states op.now shown.now) }
{
    let mut after = Vec::from_slice(alloc, &[byte_at(shown, 0)])?;
    let mut rest = behind(shown, 1);
    for change in op.changes.as_slice() {
        let pending = changed(change, byte_at(rest, 1));
        let present = changed(change, byte_at(rest, 2));
        after.extend_from_slice(&[byte_at(rest, 0), pending, present])?;
        rest = behind(rest, 3);
    }
    after.extend_from_slice(rest)?;
    Ok(after)
}
