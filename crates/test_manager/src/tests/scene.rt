//! A manager, and the lines of what comes to it.
use super::player::{push_fault, push_phase};
use record_base::{Asked, Op, SetBiosAttribute, SetThresholds};
use std::alloc::{AllocError, Global};
use stories::{NoOutcome, NoScene, Scene};
use text_lines::read_undo;
use two_wire::{Address, Below, Bus, Retries};
use undo_core::{Manager, Sent, WrongPhase};
use undo_plans::{Names, NextNumbers, Plan, Requests, Steps, UndoList, UndoRequest};

/// The first word, and the words behind it.
fn parted(words: &str) -> (&str, &str) {
    words.split_once(' ').unwrap_or((words, ""))
}

pub fn names() -> Names {
    Names {
        own_address: Address::new(0x2C).unwrap(),
        peer_address: Address::new(0x20).unwrap(),
        own_wire: Address::new(0x2C).unwrap(),
        peer_wire: Address::new(0x20).unwrap(),
        own_eid: 0x0B,
        peer_eid: 0x0A,
    }
}

/// Those names but for the identifier of the manager's endpoint.
pub fn other_names() -> Names {
    let mut other = names();
    other.own_eid = 0x09;
    other
}

/// A step that sets thresholds of sensor 5.
fn step(mask: u8, values: [u8; 6]) -> Op<'static> {
    Op::Thresholds(SetThresholds {
        sensor: 5,
        mask,
        values,
    })
}

/// A step that sets attribute 1, a string.
fn text_step(value: &[u8]) -> Op<'_> {
    Op::BiosAttribute(SetBiosAttribute::of(1, 1, value))
}

/// A plan of the two steps, or of the first alone.
fn plan_of(alloc: Global, first: &Op<'_>, second: Option<&Op<'_>>) -> Result<Plan, AllocError> {
    let mut steps = Steps::none(alloc);
    steps.push(first)?;
    if let Some(second) = second {
        steps.push(second)?;
    }
    Ok(Plan {
        steps,
        retries: Retries::new(3),
    })
}

/// A plan of two steps, each of which sets thresholds of sensor 5.
pub fn plan(alloc: Global) -> Result<Plan, AllocError> {
    let first = step(0x18, [0, 0, 0, 0x4B, 0x5A, 0]);
    let second = step(0x30, [0, 0, 0, 0, 0x5C, 0x64]);
    plan_of(alloc, &first, Some(&second))
}

/// A plan of one step, which sets attribute 1, a string, to `b`.
fn short_text(alloc: Global) -> Result<Plan, AllocError> {
    plan_of(alloc, &text_step(&[1, 0, 0x62]), None)
}

/// A plan of two steps: the first sets that attribute to 400 bytes `a`, and the second to `b`.
fn long_text(alloc: Global) -> Result<Plan, AllocError> {
    let mut value = [0x61; 402];
    value[..2].copy_from_slice(&[0x90, 0x01]);
    plan_of(alloc, &text_step(&value), Some(&text_step(&[1, 0, 0x62])))
}

/// The data of request 31: the bytes from 10h to 55h.
fn content() -> [u8; 70] {
    let mut bytes = [0x10; 70];
    for (place, byte) in bytes.iter_mut().enumerate() {
        *byte = 0x10 + place as u8;
    }
    bytes
}

/// A list of two requests over SMBus, of which the last, and so the next, is request 31. It has these names, or none.
pub fn list(alloc: Global, names: Option<Names>) -> Result<UndoList, NoOutcome> {
    let mut requests = Requests::open(alloc, 0, 0)?;
    let state = Asked::pldm(Below::new(2), 0x39, &[5, 0, 1, 1, 2]);
    requests.add(&UndoRequest::of(&state))?;
    let attribute = Asked::pldm(Below::new(3), 0x07, &content());
    requests.add(&UndoRequest::of(&attribute))?;
    let next = NextNumbers {
        ipmb: Below::new(4),
        smbus: Below::new(31),
    };
    Ok(UndoList {
        requests,
        next,
        names,
    })
}

/// An undo text up to the digits of its one request. The next request over SMBus is request 3.
const UNDO_HEAD: &str = "\
undo 2
next ipmb 0 smbus 3
names ipmb 2C 20 smbus 2C 20 eid 0B 0A
smbus ";

/// Appends that text with these digits.
fn push_undo_text(digits: &str, text: &mut String) -> Result<(), AllocError> {
    text.push_str(UNDO_HEAD)?;
    for word in digits.split(' ') {
        text.push_str(word)?;
    }
    text.push_str("\n")
}

/// The list of that text.
fn text_list(alloc: Global, digits: &str) -> Result<UndoList, NoOutcome> {
    let mut text = String::new(alloc);
    push_undo_text(digits, &mut text)?;
    match read_undo(alloc, text.as_str()) {
        Ok(list) => Ok(list),
        Err(_) => Err(NoOutcome::Unread),
    }
}

/// Appends the frame, a word of hexadecimal digits.
fn push_frame(alloc: Global, frame: &[u8], text: &mut String) -> Result<(), AllocError> {
    let digits = hex::encode_upper(alloc, frame)?;
    write!(text, " {}", digits.as_str())
}

/// Appends each frame.
fn push_sent(alloc: Global, sent: &Sent, text: &mut String) -> Result<(), AllocError> {
    for frame in sent.frames.as_slice() {
        push_frame(alloc, frame.as_slice(), text)?;
    }
    Ok(())
}

/// Appends what the manager sends, and its phase then.
fn push_turn(
    alloc: Global,
    manager: &Manager,
    sent: Option<Sent>,
    text: &mut String,
) -> Result<(), NoOutcome> {
    if let Some(sent) = sent {
        push_sent(alloc, &sent, text)?;
    }
    push_phase(manager.phase(), text)
}

/// The manager is called so.
fn call(manager: &mut Manager, name: &str) -> Option<Result<Option<Sent>, WrongPhase>> {
    match name {
        "start" => Some(manager.start()),
        "quiet" => Some(manager.quiet()),
        "stop" => Some(manager.stop()),
        "again" => Some(manager.again()),
        "undo" => Some(manager.undo()),
        _ => None,
    }
}

/// Appends what comes of the call.
fn push_called(
    alloc: Global,
    manager: &mut Manager,
    name: &str,
    text: &mut String,
) -> Result<(), NoOutcome> {
    match call(manager, name) {
        Some(Ok(sent)) => push_turn(alloc, manager, sent, text),
        Some(Err(WrongPhase)) => {
            text.push_str(" refused")?;
            push_phase(manager.phase(), text)
        }
        None => Err(NoOutcome::Unread),
    }
}

/// The manager hears the frame of these digits on the bus. Appends what comes of it.
fn hear(
    alloc: Global,
    manager: &mut Manager,
    (bus, digits): (Bus, &str),
    text: &mut String,
) -> Result<(), NoOutcome> {
    match hex::decode(alloc, digits) {
        Ok(bytes) => {
            let sent = manager.on_frame(bus, bytes.as_slice());
            push_turn(alloc, manager, sent, text)
        }
        Err(_) => Err(NoOutcome::Unread),
    }
}

/// Appends the bus on which a request is open.
fn push_open(bus: Option<Bus>, text: &mut String) -> Result<(), AllocError> {
    match bus {
        Some(bus) => write!(text, " open {bus:?}"),
        None => text.push_str(" open none"),
    }
}

/// Appends that bus, the length of the undo list, and its numbers of the next requests on IPMB and SMBus.
fn show(manager: &Manager, text: &mut String) -> Result<(), NoOutcome> {
    push_open(manager.open_bus(), text)?;
    let undo = manager.undo_list();
    let length = undo.requests.len();
    let (ipmb, smbus) = (undo.next.ipmb.number(), undo.next.smbus.number());
    write!(text, " undo {length} next {ipmb} {smbus}")?;
    Ok(())
}

/// Appends what the manager that is there does, or shows.
fn go_on(
    alloc: Global,
    manager: &mut Manager,
    (kind, word): (&str, &str),
    text: &mut String,
) -> Result<(), NoOutcome> {
    match kind {
        "shows" => show(manager, text),
        "ipmb" => hear(alloc, manager, (Bus::Ipmb, word), text),
        "smbus" => hear(alloc, manager, (Bus::Smbus, word), text),
        _ => push_called(alloc, manager, kind, text),
    }
}

/// A manager, once a line opened one.
#[derive(Drop)]
pub struct Managed {
    manager: Option<Manager>,
}

impl Managed {
    /// The manager is there now, and its phase is appended.
    fn put(&mut self, manager: Manager, text: &mut String) -> Result<(), NoOutcome> {
        let phase = manager.phase();
        self.manager = Some(manager);
        push_phase(phase, text)
    }

    /// Opens a manager of the plan, with as many retries as the word says, or appends why there is none.
    fn begin(
        &mut self,
        alloc: Global,
        plan: Result<Plan, AllocError>,
        retries: &str,
        text: &mut String,
    ) -> Result<(), NoOutcome> {
        let retries = retries.parse::<u8>()?;
        match Manager::open(alloc, plan?, names(), retries) {
            Ok(manager) => self.put(manager, text),
            Err(fault) => push_fault(fault, text),
        }
    }

    /// The same of a manager that goes on from the list.
    fn resume(
        &mut self,
        alloc: Global,
        list: Result<UndoList, NoOutcome>,
        retries: &str,
        text: &mut String,
    ) -> Result<(), NoOutcome> {
        let retries = retries.parse::<u8>()?;
        match Manager::resume(alloc, list?, names(), retries) {
            Ok(manager) => self.put(manager, text),
            Err(fault) => push_fault(fault, text),
        }
    }

    /// The same of the list of an undo text that has one request: the words are the retries and its digits.
    fn resume_text(
        &mut self,
        alloc: Global,
        words: &str,
        text: &mut String,
    ) -> Result<(), NoOutcome> {
        let (retries, digits) = parted(words);
        self.resume(alloc, text_list(alloc, digits), retries, text)
    }

    /// A manager goes on from a list, or the one that is there goes on.
    fn come_on(
        &mut self,
        alloc: Global,
        (kind, words): (&str, &str),
        text: &mut String,
    ) -> Result<(), NoOutcome> {
        match kind {
            "list" => self.resume(alloc, list(alloc, None), words, text),
            "named" => self.resume(alloc, list(alloc, Some(names())), words, text),
            "others" => self.resume(alloc, list(alloc, Some(other_names())), words, text),
            "text" => self.resume_text(alloc, words, text),
            _ => match self.manager.as_mut() {
                Some(manager) => go_on(alloc, manager, (kind, words), text),
                None => Err(NoOutcome::Unread),
            },
        }
    }
}

impl Scene for Managed {
    fn open(_alloc: Global, _lines: &str) -> Result<Managed, NoScene> {
        Ok(Managed { manager: None })
    }

    /// Appends what comes of the words. They are those of one of these lines:
    ///
    /// - `plan 3 -> Fresh`: a manager of the plan of two steps with so many retries, and its phase, or the fault; `long 3 ..`, of a plan that sets an
    ///   attribute to a short text; `longer 3 ..`, to a long one and then to that;
    /// - `list 1 -> Halted 2 Stop`: one that goes on from the list of two requests; `named 1 ..`, from that list with the manager's names;
    ///   `others 1 -> OtherNames`, with other names;
    /// - `text 3 03 07 00*4 .. -> Halted 1 Stop`: with so many retries, one that goes on from an undo text, which has this request over SMBus;
    /// - `start -> 2010D02C002705A8 Getting 0`, `quiet ..`, `stop ..`, `again ..`, `undo ..`: a call, the frames that the manager sends, and its
    ///   phase then; before the phase stands `refused` where it refuses the call;
    /// - `ipmb 2C14C0200027CBEE -> Halted 0 GetRefused CB`, `smbus ..`: the same of a frame that it hears on this bus;
    /// - `shows -> open Ipmb undo 0 next 1 0`: the bus on which a request is open, the length of the undo list and the numbers of the next
    ///   requests on IPMB and SMBus.
    fn come(&mut self, alloc: Global, words: &str, text: &mut String) -> Result<(), NoOutcome> {
        let (kind, words) = parted(words);
        match kind {
            "plan" => self.begin(alloc, plan(alloc), words, text),
            "long" => self.begin(alloc, short_text(alloc), words, text),
            "longer" => self.begin(alloc, long_text(alloc), words, text),
            _ => self.come_on(alloc, (kind, words), text),
        }
    }

    fn is_told(_alloc: Global, came: &str, told: &str) -> Result<bool, NoOutcome> {
        Ok(came == told)
    }
}
