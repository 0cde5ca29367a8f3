//! The fields of effecters.
ghost use Rattle.std.specs.Prelude.{◌≡◌};
ghost use Rattle.record_words.specs.EffecterFields as effecters;

use crate::field::{Field, Fields};
use crate::numbers::SizedNumber;
use crate::shown::{ChosenState, Shown};
use record_base::{FieldChange, NumericBytes, SetNumericEffecter, SetStateEffecter};

/// The bytes of a number, how many there are, and the number.
fn number(bytes: &NumericBytes) -> (u8, u32)
    ensures { result ≡ effecters.number bytes.now }
{
    match bytes {
        NumericBytes::One(low) => (1, u32::from(*low)),
        NumericBytes::Two(low, high) => (2, u32::from_le_bytes([*low, *high, 0, 0])),
        NumericBytes::Four(first, second, third, fourth) => {
            (4, u32::from_le_bytes([*first, *second, *third, *fourth]))
        }
        NumericBytes::Other => (0, 0),
    }
}

/// The field of an operation on a numeric effecter.
pub(crate) fn numeric(set: &SetNumericEffecter) -> Fields
    ensures { result ≡ effecters.numeric set.now }
{
    let (width, number) = number(&set.value);
    Fields::of(&[Field::whole(Shown::Sized(SizedNumber {
        code: set.size,
        width,
        number,
    }))])
}

/// The state that a change gives to its field: by the choice 00h none.
fn state(changes: &[FieldChange], place: usize) -> Shown
    ensures { result ≡ effecters.state changes.now place }
{
    let Some(FieldChange { choice, state }) = changes.get(place) else {
        return Shown::Kept;
    };
    match choice {
        0 => Shown::Kept,
        1 => Shown::Number(u32::from(*state)),
        _ => Shown::Chosen(ChosenState {
            choice: *choice,
            state: *state,
        }),
    }
}

/// The fields of an operation on a state effecter.
pub(crate) fn states(set: &SetStateEffecter) -> Fields
    ensures { result ≡ effecters.states set.now.changes }
{
    let changes = set.changes.as_slice();
    Fields::of(&[
        Field::numbered(1, state(changes, 0)),
        Field::numbered(2, state(changes, 1)),
        Field::numbered(3, state(changes, 2)),
        Field::numbered(4, state(changes, 3)),
        Field::numbered(5, state(changes, 4)),
        Field::numbered(6, state(changes, 5)),
        Field::numbered(7, state(changes, 6)),
        Field::numbered(8, state(changes, 7)),
        Field::numbered(9, state(changes, 8)),
    ])
}
