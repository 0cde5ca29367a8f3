//! Records of a board, and the Sets of whole values.
ghost use Rattle.std.specs.Prelude.{◌≡◌, ◌+◌, ◌≤◌, IfOk, OnErr, Some, length};
ghost use Rattle.record_base.specs.Meaning.{room_for};
ghost use Rattle.record_kinds.specs.Limits.{key_of, set_asked};
ghost use Rattle.record_kinds.specs.Sound.{AreSoundRecords};
ghost use Rattle.record_kinds.specs.Gives.{AppendsReply, AnswersCode};
ghost use Rattle.record_kinds.specs.Sets.{MakesValue};

use crate::limits::Limits;
use crate::setup::Setup;
use crate::unknown::unknown_code;
use cfg_records::{Live, Op, RecordKind, Store, Value};
use record_base::SetChannelAccess;
use std::alloc::{AllocError, Global};
use two_wire::{Buffer, Bytes, Code};

/// The records of a board in a store of any kind, and the places where Sets make records' new values.
///
/// A Set over IPMI makes the record's new value in another place than one over PLDM. Each has memory of its own, for two reasons. Where a thread
/// for each bus shares the board, neither writes a line of the processor's cache that the other reads. And a board is small where it is moved:
/// LLVM copies an array inside a value entry by entry, and takes 10 to 30 s for a function that moves a board with two such kilobytes.
#[derive(Drop)]
pub struct KeptRecords<S: Store> {
    /// Where the records are.
    pub store: S,
    /// Where a Set over PLDM makes the record's new value.
    made_over_pldm: Box<Value>,
    /// Where a Set over IPMI makes the record's new value.
    made_over_ipmi: Box<Value>,
}

/// A place for a value that a Set makes, in memory of its own.
pub fn place_to_make(alloc: Global) -> Result<Box<Value>, AllocError> {
    match Box::new(alloc, Value::new()) {
        Ok(place) => Ok(place),
        Err(_) => Err(AllocError),
    }
}

/// Of two places, the one where this operation's new value is made: that of the bus over which its command comes. Either is right, and no clause says
/// which: what lies there is overwritten before it's read, and means nothing once the record has the value. The choice keeps threads apart (`KeptRecords`).
#[inline(always)]
fn place_for<'a>(op: &Op<'_>, over_ipmi: &'a mut Value, over_pldm: &'a mut Value) -> &'a mut Value {
    match op {
        Op::NumericEffecter(_) | Op::StateEffecter(_) | Op::BiosAttribute(_) => over_pldm,
        _ => over_ipmi,
    }
}

/// Makes the value that the operation makes of its record, and gives the record's place: nothing is written.
#[inline(always)]
fn try_set<S: Store>(
    setup: &Setup,
    store: &S,
    op: &Op<'_>,
    made: &mut Value,
) -> Result<S::Place, Code>
    requires { AreSoundRecords setup.now (S.records store.now) }
    ensures made { MakesValue setup.now (S.records store.now) op.now result made.new }
    ensures place { IfOk result (λ at. S.places store.now (key_of op.now) ≡ Some at) }
{
    let key = Limits::key(op);
    match setup.limits(&key) {
        Some(limits) => match store.find(&key) {
            Some(place) => {
                limits.apply(op, store.value(place), made)?;
                Ok(place)
            }
            None => Err(unknown_code(setup, &key)),
        },
        None => Err(unknown_code(setup, &key)),
    }
}

impl<S: Store> KeptRecords<S> {
    ghost use Rattle.record_kinds.specs.Keeps.{answer_to, records_after, live_after, answer_to_both, records_after_both};

    /// The records in this store, with these places for new values.
    pub fn over(store: S, made_over_pldm: Box<Value>, made_over_ipmi: Box<Value>) -> Self
        ensures { result.store ≡ store }
    {
        KeptRecords {
            store,
            made_over_pldm,
            made_over_ipmi,
        }
    }

    /// Carries out the operation, where its record takes it, and appends what the Set replies.
    #[inline(always)]
    pub fn set<B: Buffer>(
        &mut self,
        setup: &Setup,
        op: &Op<'_>,
        live: &mut Live,
        to: &mut B,
    ) -> Result<(), Code>
        requires sound { AreSoundRecords setup.now (S.records self.old.store) }
        requires room { length (B.bytes to.old) + room_for (set_asked op.now) ≤ B.capacity }
        ensures answer { AppendsReply B.bytes result to.old to.new
            (answer_to setup.now (S.records self.old.store) op.now) }
        ensures records { S.records self.new.store
            ≡ records_after setup.now (S.records self.old.store) op.now }
        ensures live { live.new
            ≡ live_after setup.now (S.records self.old.store) op.now live.old }
        ensures still { AreSoundRecords setup.now (S.records self.new.store) }
        // A refusal changes nothing.
        ensures refused { OnErr result (S.records self.new.store ≡ S.records self.old.store) }
    {
        let new = place_for(op, &mut self.made_over_ipmi, &mut self.made_over_pldm);
        let place = try_set(setup, &self.store, op, new)?;
        self.store.write(place, new.as_slice());
        Limits::next_live(op, live);
        Limits::set_reply(op, to);
        Ok(())
    }

    /// Changes the access of a channel in one store, and its limit in another: both or neither.
    pub fn set_stores(
        &mut self,
        setup: &Setup,
        first: &SetChannelAccess,
        second: &SetChannelAccess,
    ) -> Result<(), Code>
        requires sound { AreSoundRecords setup.now (S.records self.old.store) }
        ensures answer { AnswersCode result
            (answer_to_both setup.now (S.records self.old.store) first.now second.now) }
        ensures records { S.records self.new.store
            ≡ records_after_both setup.now (S.records self.old.store) first.now second.now }
        ensures still { AreSoundRecords setup.now (S.records self.new.store) }
        // A refusal changes nothing.
        ensures refused { OnErr result (S.records self.new.store ≡ S.records self.old.store) }
    {
        let new: &mut Value = &mut self.made_over_ipmi;
        let place = try_set(setup, &self.store, &Op::ChannelAccess(*first), new)?;
        let made: Bytes<2> = Bytes::from_slice(new.as_slice());
        let other = try_set(setup, &self.store, &Op::ChannelAccess(*second), new)?;
        self.store.write(place, made.as_slice());
        self.store.write(other, new.as_slice());
        Ok(())
    }
}
