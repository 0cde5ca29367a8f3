//! Lines of the windows in which ports keep requests with their replies, apart from any port.
use crate::bytes::{bytes_of, push_digits};
use bmc_core::{Found, WindowRequest, Windows};
use std::alloc::{AllocError, Global};
use two_wire::Below;

/// The windows of a port on IPMB, and those of PLDM.
#[derive(Drop)]
pub struct WindowPair {
    ipmb: Windows<64, 32>,
    pldm: Windows<32, 256>,
}

/// Windows in which nothing is kept.
pub fn open_windows(alloc: Global) -> Result<WindowPair, AllocError> {
    let ipmb = Windows::new(alloc)?;
    match Windows::new(alloc) {
        Ok(pldm) => Ok(WindowPair { ipmb, pldm }),
        Err(refused) => {
            drop(ipmb);
            Err(refused)
        }
    }
}

/// The request of these bytes: its requester, its number, and at least one byte of its own.
fn request_in<const NUMBERS: u8>(bytes: &[u8]) -> Option<WindowRequest<'_, NUMBERS>> {
    let [requester, number, first, rest @ ..] = bytes else {
        return None;
    };
    if *number >= NUMBERS {
        return None;
    }
    Some(WindowRequest {
        requester: *requester,
        number: Below::new(*number),
        first: *first,
        rest,
    })
}

/// Appends what is found, with the reply that was kept.
fn push_found<const CAP: usize>(
    alloc: Global,
    found: &Found<'_, CAP>,
    came: &mut String,
) -> Result<(), AllocError> {
    match found {
        Found::New => came.push_str("New"),
        Found::Busy => came.push_str("Busy"),
        Found::Repeats(reply) => {
            came.push_str("Repeats ")?;
            push_digits(alloc, came, reply.as_slice())
        }
    }
}

/// What is found for the request, which is looked up alone.
fn find<const NUMBERS: u8, const CAP: usize>(
    alloc: Global,
    windows: &Windows<NUMBERS, CAP>,
    bytes: &[u8],
    came: &mut String,
) -> Result<(), AllocError> {
    match request_in::<NUMBERS>(bytes) {
        Some(request) => push_found(alloc, &windows.find(&request), came),
        None => came.push_str("no request"),
    }
}

/// What is found for the request. A new one is kept with the reply.
fn keep<const NUMBERS: u8, const CAP: usize>(
    alloc: Global,
    windows: &mut Windows<NUMBERS, CAP>,
    (bytes, reply): (&[u8], &[u8]),
    came: &mut String,
) -> Result<(), AllocError> {
    let Some(request) = request_in::<NUMBERS>(bytes) else {
        return came.push_str("no request");
    };
    if request.rest.len() > CAP || reply.len() > CAP {
        return came.push_str("too long");
    }
    match windows.find(&request) {
        Found::New => {
            windows.keep(&request, reply);
            came.push_str("New")
        }
        found => push_found(alloc, &found, came),
    }
}

/// Whether the requester had a window, which is forgotten.
fn forget<const NUMBERS: u8, const CAP: usize>(
    windows: &mut Windows<NUMBERS, CAP>,
    bytes: &[u8],
) -> &'static str {
    let [requester] = bytes else {
        return "no requester";
    };
    if windows.idle(*requester) {
        "yes"
    } else {
        "no"
    }
}

/// What comes of the bytes at these windows, by the word before them.
fn comes_by<const NUMBERS: u8, const CAP: usize>(
    alloc: Global,
    windows: &mut Windows<NUMBERS, CAP>,
    word: &str,
    (request, reply): (&[u8], &[u8]),
    came: &mut String,
) -> Result<(), AllocError> {
    match word {
        "finds" => find(alloc, windows, request, came),
        "keeps" => keep(alloc, windows, (request, reply), came),
        "idles" => came.push_str(forget(windows, request)),
        _ => came.push_str("no line"),
    }
}

/// The bytes of a request and of its reply.
fn bytes_in(alloc: Global, words: &str) -> Result<Option<(Vec<u8>, Vec<u8>)>, AllocError> {
    let (request, reply) = words.split_once(" : ").unwrap_or((words, ""));
    let Some(request) = bytes_of(alloc, request)? else {
        return Ok(None);
    };
    match bytes_of(alloc, reply) {
        Ok(Some(reply)) => Ok(Some((request, reply))),
        Ok(None) => Ok(None),
        Err(refused) => Err(refused),
    }
}

/// What comes of the words at these windows.
fn comes<const NUMBERS: u8, const CAP: usize>(
    alloc: Global,
    windows: &mut Windows<NUMBERS, CAP>,
    words: &str,
    came: &mut String,
) -> Result<(), AllocError> {
    let (word, words) = words.split_once(' ').unwrap_or((words, ""));
    match bytes_in(alloc, words)? {
        Some((request, reply)) => {
            let both = (request.as_slice(), reply.as_slice());
            let told = comes_by(alloc, windows, word, both, came);
            drop(reply);
            drop(request);
            told
        }
        None => came.push_str("no bytes"),
    }
}

/// `window ipmb keeps 40 05 4200 : 07` or `window pldm ..`: what is found for requester 40h's request of number 05h, which is kept with
/// the reply where it's new. With `finds` it's looked up alone; `idles 40` forgets the requester, and gives whether it had a window.
pub fn window(
    alloc: Global,
    both: &mut WindowPair,
    rest: &str,
    came: &mut String,
) -> Result<(), AllocError> {
    let (of, words) = rest.split_once(' ').unwrap_or((rest, ""));
    match of {
        "ipmb" => comes(alloc, &mut both.ipmb, words, came),
        "pldm" => comes(alloc, &mut both.pldm, words, came),
        _ => came.push_str("no windows"),
    }
}
