//! Records as steps of plans, and as remarks.
ghost use Rattle.std.specs.Prelude.{◌≡◌, [], OnErr, OnOk};
ghost use Rattle.app_show.specs.Backup.{AddsRemark, AddsStep, Says, Takes, has_none, steps_of};

use record_base::{Key, Op};
use shown_records::{Unsaid, is_sayable, op_as_it_is};
use std::alloc::{AllocError, Global};
use std::mem::replace;
use two_wire::Code;
use undo_plans::{MOST_STEPS, Steps};

/// Why there is no step for a record.
#[derive(Clone, Copy, Debug, PartialEq, Eq)]
pub enum Why {
    /// No operation sets it to what its Get shows.
    Unsaid(Unsaid),
    /// The text of a plan can't say the operation that does.
    Unwritten,
    /// Its Get was refused with this code, which doesn't say that there is no such record.
    Refused(Code),
    /// Its Get wasn't answered.
    Unanswered,
}

/// A record for which there is no step.
#[derive(Clone, Copy)]
pub struct Remark {
    pub key: Key,
    pub why: Why,
}

/// Steps that set records to what their Gets show, in plans of as many as one may have, and remarks on the other records.
#[derive(Drop)]
pub struct Backup {
    /// The plans that are full.
    pub(crate) full: Vec<Steps>,
    /// The plan to which steps are added.
    pub(crate) last: Steps,
    pub(crate) remarks: Vec<Remark>,
}

impl Backup {
    /// One of no record.
    pub fn new(alloc: Global) -> Backup
        ensures { has_none result }
    {
        Backup {
            full: Vec::new(alloc),
            last: Steps::none(alloc),
            remarks: Vec::new(alloc),
        }
    }

    /// The steps go into a new plan from here on.
    fn begin_plan(&mut self, alloc: Global) -> Result<(), AllocError>
        ensures steps { steps_of self.new ≡ steps_of self.old }
        ensures begun { OnOk result (self.new.last ≡ []) }
        ensures remarks { self.new.remarks.items ≡ self.old.remarks.items }
    {
        self.full.reserve(1)?;
        let full = replace(&mut self.last, Steps::none(alloc));
        self.full.push_reserved(full);
        Ok(())
    }

    /// Adds a step.
    fn push(&mut self, alloc: Global, op: &Op<'_>) -> Result<(), AllocError>
        ensures added { OnOk result (AddsStep op.now self.old self.new) }
        ensures kept { OnErr result (Says self.old self.new) }
    {
        if self.last.len() == MOST_STEPS {
            self.begin_plan(alloc)?;
        }
        self.last.push(op)
    }

    /// Adds a remark.
    pub(crate) fn remark(&mut self, key: &Key, why: Why) -> Result<(), AllocError>
        ensures added { OnOk result (AddsRemark key.now why self.old self.new) }
        ensures kept { OnErr result (Says self.old self.new) }
    {
        self.remarks.push(Remark { key: *key, why })?;
        Ok(())
    }

    /// Adds the step that sets the record to what its Get showed, or a remark where no operation does, or no plan's text says it. Where
    /// memory is refused, it says what it did before.
    pub fn take(&mut self, alloc: Global, key: &Key, shown: &[u8]) -> Result<(), AllocError>
        ensures taken { OnOk result (Takes key.now shown.now self.old self.new) }
        ensures kept { OnErr result (Says self.old self.new) }
    {
        let op = match op_as_it_is(key, shown) {
            Ok(op) => op,
            Err(why) => return self.remark(key, Why::Unsaid(why)),
        };
        if is_sayable(alloc, &op)? {
            self.push(alloc, &op)
        } else {
            self.remark(key, Why::Unwritten)
        }
    }
}
