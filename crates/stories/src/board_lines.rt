//! Lines of the board alone.
use crate::bytes::{bytes_of, push_digits};
use crate::fixture::Fixture;
use crate::request::{asked_in, asked_over, key_of};
use bmc_board::{Bench, Board, Records, is_changing};
use cfg_records::{Answered, Asked, Store};
use std::alloc::{AllocError, Global};
use two_wire::Below;

/// Appends the completion code and the data of a reply.
fn push_reply(alloc: Global, came: &mut String, reply: &Answered) -> Result<(), AllocError> {
    push_digits(alloc, came, [reply.code].as_slice())?;
    came.push_str(" ")?;
    push_digits(alloc, came, reply.body.as_slice())
}

/// Appends what the board replies to the request.
pub fn push_answer<S: Store>(
    alloc: Global,
    board: &mut Board<S>,
    asked: &Asked,
    came: &mut String,
) -> Result<(), AllocError> {
    push_reply(alloc, came, &board.answer(asked))
}

/// `ipmi 10 27 05` or `pldm 02 32 0400`: what the board replies.
pub fn replies<S: Store>(
    alloc: Global,
    board: &mut Board<S>,
    (from, over, digits): (u8, &str, &str),
    came: &mut String,
) -> Result<(), AllocError> {
    match asked_over(alloc, from, over, digits)? {
        Some(asked) => push_answer(alloc, board, &asked, came),
        None => came.push_str("no request"),
    }
}

/// What the board replies to the request over IPMI or PLDM that the digits tell.
pub fn asks<S: Store>(
    alloc: Global,
    board: &mut Board<S>,
    from: u8,
    over: &str,
    digits: &str,
) -> Result<String, AllocError> {
    let mut came = String::new(alloc);
    match replies(alloc, board, (from, over, digits), &mut came) {
        Ok(()) => Ok(came),
        Err(refused) => Err(refused),
    }
}

/// Appends the bytes that the store keeps of the record that the Get names.
fn push_kept(
    alloc: Global,
    board: &Board<Records>,
    asked: &Asked,
    came: &mut String,
) -> Result<(), AllocError> {
    let Some(key) = key_of(asked) else {
        return came.push_str("no record");
    };
    match board.store().get(&key) {
        Some(bytes) => push_digits(alloc, came, bytes),
        None => came.push_str("none"),
    }
}

/// `kept ipmi 10 27 05`: what the store keeps of the record that this Get shows.
pub fn kept(
    alloc: Global,
    board: &Board<Records>,
    rest: &str,
    came: &mut String,
) -> Result<(), AllocError> {
    match asked_in(alloc, 0x2C, rest)? {
        Some(asked) => push_kept(alloc, board, &asked, came),
        None => came.push_str("no request"),
    }
}

/// `marked ipmi 10 26`: whether the request is a setting one.
pub fn marked(alloc: Global, rest: &str, came: &mut String) -> Result<(), AllocError> {
    came.push_str(match asked_in(alloc, 0x2C, rest)? {
        Some(asked) if is_changing(&asked) => "sets",
        Some(_) => "gets",
        None => "no request",
    })
}

/// `from 40`: who asks from now on.
pub fn comes_from(around: &mut Fixture, rest: &str, came: &mut String) -> Result<(), AllocError> {
    match text_lines::byte(rest) {
        Some(from) => {
            around.from = from;
            Ok(())
        }
        None => came.push_str("no requester"),
    }
}

/// What happens on the bench.
#[derive(Clone, Copy)]
pub enum Happening {
    /// A sensor gives a reading.
    Reading,
    /// The chassis bits become others.
    Chassis,
}

/// What happens so, by these bytes.
fn event_of(happening: Happening, bytes: &[u8]) -> Option<Bench> {
    match (happening, bytes) {
        (Happening::Reading, [sensor, raw]) => Some(Bench::Reading {
            sensor: *sensor,
            raw: *raw,
        }),
        (Happening::Chassis, [bits]) if *bits < 32 => Some(Bench::Chassis(Below::new(*bits))),
        _ => None,
    }
}

/// What happens comes to the board: `none` where it has no such sensor.
fn come_to(board: &mut Board<Records>, event: Option<Bench>) -> &'static str {
    match event {
        None => "no event",
        Some(event) => match board.bench(event) {
            Ok(()) => "",
            Err(_) => "none",
        },
    }
}

/// `reads 05 60`: sensor 5 gives the reading 60h. `chassis 15`: bits 4:0 of the chassis status become these.
pub fn happens(
    alloc: Global,
    board: &mut Board<Records>,
    (happening, digits): (Happening, &str),
    came: &mut String,
) -> Result<(), AllocError> {
    let event = match bytes_of(alloc, digits)? {
        Some(bytes) => event_of(happening, bytes.as_slice()),
        None => None,
    };
    came.push_str(come_to(board, event))
}

/// Lets so many tenths of a second go by.
fn pass(board: &mut Board<Records>, tenths: u32) {
    for _ in 0..tenths {
        let _ = board.bench(Bench::Tick);
    }
}

/// How many tenths of a second the words tell, in decimal: one where they tell none.
fn tenths_of(rest: &str) -> Option<u32> {
    if rest == "" {
        return Some(1);
    }
    text_lines::number(rest, 4)
}

/// `tick`, or `tick 9`: tenths of a second go by.
pub fn ticks(board: &mut Board<Records>, rest: &str, came: &mut String) -> Result<(), AllocError> {
    match tenths_of(rest) {
        Some(tenths) => {
            pass(board, tenths);
            Ok(())
        }
        None => came.push_str("no number"),
    }
}
