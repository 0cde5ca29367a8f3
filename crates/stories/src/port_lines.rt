//! Lines of the ports.
ghost use Rattle.std.specs.Prelude.{◌≡◌};
ghost use Rattle.bmc_core.specs.Port.{bus_of, bus_asked};

use crate::bytes::{bytes_of, push_digits};
use crate::fixture::Fixture;
use bmc_board::{Board, Records};
use bmc_core::{Out, Pending, Port, Step};
use std::alloc::{AllocError, Global};
use two_wire::Bus;

/// What comes of a request that a port hears.
#[derive(Clone, Copy)]
pub enum Heard {
    /// The port has the board answer it.
    Served,
    /// The board answers it, and the port is told.
    Told,
    /// Nobody answers it.
    Dropped,
}

/// The bus and the bytes that the words tell, as `ipmb 2018C82C0001D3`.
pub fn heard_in(alloc: Global, words: &str) -> Result<Option<(Bus, Vec<u8>)>, AllocError> {
    let (bus, digits) = words.split_once(' ').unwrap_or((words, ""));
    let Some(bus) = Bus::named(bus) else {
        return Ok(None);
    };
    Ok(match bytes_of(alloc, digits)? {
        Some(bytes) => Some((bus, bytes)),
        None => None,
    })
}

/// Appends what a port did, and the frames that it sent.
fn push_done(alloc: Global, came: &mut String, out: &Out) -> Result<(), AllocError> {
    write!(came, "{:?}", out.done)?;
    let mut between = " ";
    for frame in out.frames.as_slice() {
        came.push_str(between)?;
        push_digits(alloc, came, frame.as_slice())?;
        between = " | ";
    }
    Ok(())
}

/// Whether the bytes are a request that is to be carried out. It is dropped.
fn is_asked(port: &mut Port, bytes: &[u8], out: &mut Out) -> bool {
    match port.hear(bytes, out) {
        Step::Ask(_) => true,
        Step::Done => false,
    }
}

/// The board carries the request out, and the port is told.
fn tell(board: &mut Board<Records>, port: &mut Port, pending: Pending, out: &mut Out)
    requires { bus_asked pending ≡ bus_of port.old }
{
    let answered = board.answer(&pending.asked());
    port.answer(pending, &answered, out);
}

/// The port hears the bytes, and is told the answer where they are a request that is to be carried out.
fn hear_told(board: &mut Board<Records>, port: &mut Port, bytes: &[u8], out: &mut Out) {
    if let Step::Ask(pending) = port.hear(bytes, out) {
        tell(board, port, pending, out);
    }
}

/// The port hears the bytes, which the board answers where they are a request that is to be carried out.
pub fn hear(board: &mut Board<Records>, port: &mut Port, bytes: &[u8], out: &mut Out) {
    port.on_frame(board, bytes, out);
}

/// The port of the bus.
pub fn port_of(around: &mut Fixture, bus: Bus) -> (&mut Port, &mut Out) {
    match bus {
        Bus::Ipmb => (&mut around.ipmb, &mut around.out),
        Bus::Smbus => (&mut around.smbus, &mut around.out),
    }
}

/// The port of the bus hears the bytes. Gives whether they are a request that nobody answers.
fn hear_as(
    board: &mut Board<Records>,
    around: &mut Fixture,
    heard: Heard,
    (bus, bytes): (Bus, &[u8]),
) -> bool {
    let (port, out) = port_of(around, bus);
    match heard {
        Heard::Served => {
            hear(board, port, bytes, out);
            false
        }
        Heard::Told => {
            hear_told(board, port, bytes, out);
            false
        }
        Heard::Dropped => is_asked(port, bytes, out),
    }
}

/// `ipmb 2018C82C0001D3` or `smbus ..`: what the port did with the frame, and the frames that it sent. So with `told` before it, where the
/// port asks and is told the board's answer. With `dropped` before it: `asked`, where the frame is a request that is to be carried out.
pub fn hears(
    alloc: Global,
    board: &mut Board<Records>,
    around: &mut Fixture,
    (heard, words): (Heard, &str),
    came: &mut String,
) -> Result<(), AllocError> {
    let Some((bus, bytes)) = heard_in(alloc, words)? else {
        return came.push_str("no bytes");
    };
    let is_left = hear_as(board, around, heard, (bus, bytes.as_slice()));
    drop(bytes);
    if is_left {
        return came.push_str("asked");
    }
    push_done(alloc, came, &around.out)
}

/// Whether the port had a window for the requester, which it forgets.
fn forget(around: &mut Fixture, bus: &str, requester: &str) -> Option<bool> {
    let requester = text_lines::byte(requester)?;
    let (port, _) = port_of(around, Bus::named(bus)?);
    Some(port.idle(requester))
}

/// `idle ipmb 40`: whether the port had a window for the requester.
pub fn idle(around: &mut Fixture, rest: &str, came: &mut String) -> Result<(), AllocError> {
    let (bus, requester) = rest.split_once(' ').unwrap_or((rest, ""));
    came.push_str(match forget(around, bus, requester) {
        Some(true) => "yes",
        Some(false) => "no",
        None => "no requester",
    })
}
