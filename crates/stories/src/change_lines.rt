//! Lines of changes: a Set with what a Get replies before it and after, and with what undoes it.
use crate::board_lines::push_answer;
use crate::bytes::{bytes_of, push_digits};
use crate::request::{asked_in, op_of, sent_by};
use bmc_board::{Board, Records};
use cfg_records::{Asked, Op, RecordKind};
use record_kinds::Limits;
use std::alloc::{AllocError, Global};

/// Two requesters of which each undoes what the other one set.
const ONE: u8 = 0x2C;

const OTHER: u8 = 0x40;

/// The change that the request asks for, where that written again is the request.
fn change_of(asked: &Asked) -> Option<Op<'_>> {
    let op = op_of(asked)?;
    if !Limits::set_asked(&op).is(asked) {
        return None;
    }
    Some(op)
}

/// Appends the data of the request that undoes the change, where a Get replied these bytes.
fn push_undo(
    alloc: Global,
    op: &Op<'_>,
    reply: &[u8],
    came: &mut String,
) -> Result<(), AllocError> {
    match Limits::inverse(op, reply) {
        Some(undo) => push_digits(alloc, came, Limits::set_data(&undo).as_slice()),
        None => came.push_str("none"),
    }
}

/// Appends the data of the request that undoes the one asked, where a Get replied the bytes that the digits tell.
fn push_undo_of(
    alloc: Global,
    asked: &Asked,
    digits: &str,
    came: &mut String,
) -> Result<(), AllocError> {
    let Some(op) = change_of(asked) else {
        return came.push_str("no change");
    };
    match bytes_of(alloc, digits)? {
        Some(reply) => push_undo(alloc, &op, reply.as_slice(), came),
        None => came.push_str("no reply"),
    }
}

/// `undo ipmi 10 25 05FF0301 : 0202`: the data of the request that undoes this Set, where a Get replied these before it.
pub fn undo(alloc: Global, rest: &str, came: &mut String) -> Result<(), AllocError> {
    let (words, reply) = rest.split_once(" :").unwrap_or((rest, ""));
    match asked_in(alloc, 0, words)? {
        Some(asked) => push_undo_of(alloc, &asked, reply.trim_start(), came),
        None => came.push_str("no change"),
    }
}

/// Appends what a Get replies to the requester of the record that the operation changes.
fn push_shown(
    alloc: Global,
    board: &mut Board<Records>,
    way: &mut String,
    requester: u8,
    op: &Op<'_>,
) -> Result<(), AllocError> {
    let asked = sent_by(requester, Limits::get_asked(&Limits::key(op)));
    push_answer(alloc, board, &asked, way)?;
    way.push_str(" ")
}

/// Appends the code of the requester's Set.
fn push_set(
    alloc: Global,
    board: &mut Board<Records>,
    way: &mut String,
    requester: u8,
    op: &Op<'_>,
) -> Result<(), AllocError> {
    let reply = board.answer(&sent_by(requester, Limits::set_asked(op)));
    push_digits(alloc, way, [reply.code].as_slice())?;
    way.push_str(" ")
}

/// Appends what comes of the operation and of what undoes it: one requester gets the record, the other sets it and gets it, the first undoes
/// that, and the other gets the record again.
fn push_way(
    alloc: Global,
    board: &mut Board<Records>,
    way: &mut String,
    (one, other): (u8, u8),
    (op, undo): (&Op<'_>, &Op<'_>),
) -> Result<(), AllocError> {
    push_shown(alloc, board, way, one, op)?;
    push_set(alloc, board, way, other, op)?;
    push_shown(alloc, board, way, other, op)?;
    push_set(alloc, board, way, one, undo)?;
    push_shown(alloc, board, way, other, op)
}

/// What a Get shows in between, where one way of the change went well: a Get replied `before`, both Sets were carried out, and a Get
/// replied `before` again.
fn between<'w>(way: &'w str, before: &str) -> Option<&'w str> {
    let set = way.strip_prefix("00 ")?.strip_prefix(before)?;
    let shown = set.strip_prefix(" 00 00 ")?.strip_suffix(" ")?;
    shown.strip_suffix(before)?.strip_suffix(" 00 00 ")
}

/// Plays the change in both ways, the requesters in each other's place in the second, and appends what a Get shows in between, and the data
/// of the request that undoes it. Where one of the two ways doesn't go well, that way.
fn play_ways(
    alloc: Global,
    board: &mut Board<Records>,
    (first, second): (&mut String, &mut String),
    (op, undo, before): (&Op<'_>, &Op<'_>, &str),
    came: &mut String,
) -> Result<(), AllocError> {
    push_way(alloc, board, first, (ONE, OTHER), (op, undo))?;
    let Some(after) = between(first.as_str(), before) else {
        return came.push_str(first.as_str());
    };
    push_way(alloc, board, second, (OTHER, ONE), (op, undo))?;
    if first.as_str() != second.as_str() {
        return came.push_str(second.as_str());
    }
    came.push_str(after)?;
    came.push_str(" : ")?;
    push_digits(alloc, came, Limits::set_data(undo).as_slice())
}

/// The change is carried out and undone, from a Get's reply.
fn carried_out<'a>(
    alloc: Global,
    board: &mut Board<Records>,
    op: &Op<'a>,
    reply: &'a [u8],
    came: &mut String,
) -> Result<(), AllocError> {
    let Some(undo) = Limits::inverse(op, reply) else {
        return came.push_str("none");
    };
    let before = hex::encode_upper(alloc, reply)?;
    let (mut first, mut second) = (String::new(alloc), String::new(alloc));
    let told = play_ways(
        alloc,
        board,
        (&mut first, &mut second),
        (op, &undo, before.as_str()),
        came,
    );
    drop(second);
    drop(first);
    drop(before);
    told
}

/// The change that the request asks for is carried out and undone, from a Get's reply.
fn changed(
    alloc: Global,
    board: &mut Board<Records>,
    asked: &Asked,
    before: &str,
    came: &mut String,
) -> Result<(), AllocError> {
    let Some(op) = change_of(asked) else {
        return came.push_str("no change");
    };
    match bytes_of(alloc, before)? {
        Some(reply) => carried_out(alloc, board, &op, reply.as_slice(), came),
        None => came.push_str("no reply"),
    }
}

/// `change ipmi 10 25 05FF0301 : 0202 -> 0301 : 05FF0202`: behind the Set the data of a Get's reply before it and once it is undone; those in
/// between, and the data of the request that undoes it. The Set and its undo come from two requesters, which then change places.
pub fn change(
    alloc: Global,
    board: &mut Board<Records>,
    rest: &str,
    came: &mut String,
) -> Result<(), AllocError> {
    let (words, before) = rest.split_once(" : ").unwrap_or((rest, ""));
    match asked_in(alloc, 0, words)? {
        Some(asked) => changed(alloc, board, &asked, before, came),
        None => came.push_str("no change"),
    }
}
