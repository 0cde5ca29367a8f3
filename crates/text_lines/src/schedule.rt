//! Schedules.
ghost use Rattle.std.specs.Prelude.{◌≡◌, map};
ghost use Rattle.text_lines.specs.Schedule.{LinesAreRead, TextIsRead, is_skipped};

use crate::event::Event;
use crate::event_line::{LineFault, read_line};
use crate::schedule_cuts::lines;
use std::alloc::Global;
use std::fmt;
use std::marker::Model;

/// What happens in a lab, in its order.
#[derive(Debug)]
pub struct Schedule {
    events: Vec<Event>,
}

// Written out: the crates above would prove a derived one anew.
impl Drop for Schedule {
    fn drop(self) {
        let Schedule { events } = self;
        drop(events);
    }
}

impl Model for Schedule {
    ghost use Rattle.std.specs.Prelude.{List};
    ghost use Rattle.text_lines.specs.declared.event.Event.{Event};

    ghost Value = { List Event };

    ghost view = { λ s. s.events.items };
}

impl Schedule {
    /// The events.
    pub fn as_slice(&self) -> &[Event]
        ensures { result.now ≡ self.now }
    {
        self.events.as_slice()
    }
}

/// Why a text is no schedule.
#[derive(Clone, Copy, Debug, PartialEq, Eq)]
pub enum ScheduleFault {
    /// Memory was refused.
    Memory,
    /// The line of this number, counted from 1, is no line of a schedule.
    Line(usize),
}

/// Whether a line is skipped: it's blank, or a comment.
fn is_skipped(line: &str) -> bool
    ensures { result ≡ is_skipped line.now }
{
    line.is_empty() || line.starts_with('#')
}

/// The events that the lines say.
fn events_of(alloc: Global, lines: &[&str]) -> Result<Schedule, ScheduleFault>
    ensures { LinesAreRead (map (λ x. x.now) lines.now) result }
{
    let mut events = Vec::new(alloc);
    for (place, line) in lines.iter().enumerate() {
        if is_skipped(line) {
            continue;
        }
        let event = match read_line(alloc, line) {
            Ok(event) => event,
            Err(LineFault::Memory) => return Err(ScheduleFault::Memory),
            Err(LineFault::Bad) => return Err(ScheduleFault::Line(place + 1)),
        };
        if events.push(event).is_err() {
            return Err(ScheduleFault::Memory);
        }
    }
    Ok(Schedule { events })
}

/// The events that a text says, a line each.
pub fn read_schedule(alloc: Global, text: &str) -> Result<Schedule, ScheduleFault>
    ensures { TextIsRead text.now result }
{
    match lines(alloc, text) {
        Ok(lines) => events_of(alloc, lines.as_slice()),
        Err(_) => Err(ScheduleFault::Memory),
    }
}

impl fmt::Display for ScheduleFault {
    ghost use Rattle.std.specs.Prelude.{Some};
    ghost use Rattle.text_lines.specs.EventNames.{schedule_fault_name};

    ghost output = { λ fault. Some (schedule_fault_name fault) };

    fn fmt<W: fmt::Write>(&self, f: &mut fmt::Formatter<W>) -> fmt::Result {
        match self {
            ScheduleFault::Memory => f.write_str("Memory"),
            ScheduleFault::Line(line) => write!(f, "Line {line}"),
        }
    }
}
