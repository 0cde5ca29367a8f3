//! Lines of frames that come damaged.
use crate::fixture::Fixture;
use crate::port_lines::{hear, heard_in, port_of};
use bmc_board::{Board, Records};
use bmc_core::{Disposition, Out, Port};
use std::alloc::{AllocError, Global};

/// How a frame is damaged.
#[derive(Clone, Copy)]
pub enum Damage {
    /// The frame is cut off.
    Cut,
    /// A byte is another one.
    Changed,
}

/// How often a port did each thing, in the order in which it first did it.
type Counts = Vec<(Disposition, u32)>;

/// The port did this once more.
fn count(counts: &mut Counts, done: Disposition) -> Result<(), AllocError> {
    for (known, count) in counts.iter_mut() {
        if *known == done {
            *count = count.wrapping_add(1);
            return Ok(());
        }
    }
    match counts.push((done, 1)) {
        Ok(()) => Ok(()),
        Err(_) => Err(AllocError),
    }
}

/// Appends each number with its name.
fn push_counts(came: &mut String, counts: &[(Disposition, u32)]) -> Result<(), AllocError> {
    for (done, count) in counts {
        write!(came, "{count} {done:?} ")?;
    }
    Ok(())
}

/// The byte at the place becomes the next one.
fn change_byte(bytes: &mut [u8], place: usize) {
    if let Some(byte) = bytes.get_mut(place) {
        *byte = byte.wrapping_add(1);
    }
}

/// The port hears the bytes with each of the 255 other values at the place, and the bytes are as they were then.
fn hear_changed(
    (board, port, out): (&mut Board<Records>, &mut Port, &mut Out),
    bytes: &mut [u8],
    place: usize,
    counts: &mut Counts,
) -> Result<(), AllocError> {
    for _ in 0..255u8 {
        change_byte(bytes, place);
        hear(board, port, bytes, out);
        count(counts, out.done)?;
    }
    change_byte(bytes, place);
    Ok(())
}

/// The port hears the bytes damaged at each place.
fn hear_damaged(
    board: &mut Board<Records>,
    (port, out): (&mut Port, &mut Out),
    damage: Damage,
    bytes: &mut [u8],
    counts: &mut Counts,
) -> Result<(), AllocError> {
    for place in 0..bytes.len() {
        match damage {
            Damage::Cut => {
                hear(board, port, bytes.split_at(place).0, out);
                count(counts, out.done)?;
            }
            Damage::Changed => {
                hear_changed((&mut *board, &mut *port, &mut *out), bytes, place, counts)?;
            }
        }
    }
    Ok(())
}

/// `cuts ipmb 2018C82C0001D3`: what the port did with the first 0, 1, .. bytes, but for all of them, and how often. `changed ipmb ..`: what
/// it did with the frame with each of the 255 other values at each place.
pub fn damaged(
    alloc: Global,
    board: &mut Board<Records>,
    around: &mut Fixture,
    (damage, words): (Damage, &str),
    came: &mut String,
) -> Result<(), AllocError> {
    let Some((bus, mut bytes)) = heard_in(alloc, words)? else {
        return came.push_str("no bytes");
    };
    let mut counts = Vec::new(alloc);
    let heard = hear_damaged(
        board,
        port_of(around, bus),
        damage,
        bytes.as_mut_slice(),
        &mut counts,
    );
    drop(bytes);
    let told = match heard {
        Ok(()) => push_counts(came, counts.as_slice()),
        Err(refused) => Err(refused),
    };
    drop(counts);
    told
}
