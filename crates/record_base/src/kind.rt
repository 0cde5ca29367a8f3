//! What a kind of record is.
ghost use Rattle.std.specs.Prelude.{◌≡◌, ◌+◌, ◌≤◌, ◌++◌, ℕ, List, OnErr, SomeIff, length};
ghost use Rattle.record_base.specs.declared.live.Live.{Live};
ghost use Rattle.record_base.specs.Meaning.{DecidesValue, value_or_code};
ghost use Rattle.record_base.specs.Kind.{Kind};

use crate::key::Key;
use crate::live::Live;
use crate::message::Asked;
use crate::value::{RecordData, Value};
use two_wire::{Buffer, Code};

/// A kind of record. `self` is the limits of one record, from the board file.
pub trait RecordKind<'a> {
    /// Names one record among those of the kind.
    type Key: Copy;

    /// A change of a record of the kind.
    type Op: Drop;

    /// The kind's words and laws.
    ghost kind: { Kind Self.Key Self.Op Self };

    /// The name of the record that the operation changes.
    fn key(op: &Self::Op) -> Key
        ensures { result ≡ kind.words.name (kind.words.key_of op.now) };

    /// Writes to `new` the value that the operation makes of `value`, or gives the code that refuses the operation.
    fn apply(&self, op: &Self::Op, value: &[u8], new: &mut Value) -> Result<(), Code>
        requires of_record { (kind.record_words self.now).is_of (kind.words.key_of op.now) }
        requires is_valid { (kind.record_words self.now).valid value.now }
        ensures decides { DecidesValue (value_or_code result new.new)
            ((kind.record_words self.now).sets op.now value.now) }
        ensures outcome { value_or_code result new.new
            ≡ (kind.record_words self.now).outcome op.now value.now }
        ensures kept { OnErr result (new.new ≡ new.old) };

    /// Appends the data of the reply to the Set, after the board has carried it out.
    fn set_reply<B: Buffer>(op: &Self::Op, reply: &mut B)
        requires room { length (B.bytes reply.old) + length (kind.words.set_reply op.now)
            ≤ B.capacity }
        ensures { B.bytes reply.new ≡ B.bytes reply.old ++ kind.words.set_reply op.now };

    /// Changes the activity as the operation does, after the board has carried the operation out.
    fn next_live(op: &Self::Op, live: &mut Live)
        ensures { live.new ≡ kind.words.next_live op.now live.old };

    /// Appends the data of the Get reply.
    fn get_data<B: Buffer>(&self, value: &[u8], live: &Live, reply: &mut B)
        requires is_valid { (kind.record_words self.now).valid value.now }
        requires room { length (B.bytes reply.old)
            + length ((kind.record_words self.now).view value.now live.now) ≤ B.capacity }
        ensures { B.bytes reply.new
            ≡ B.bytes reply.old ++ (kind.record_words self.now).view value.now live.now };

    /// The request that gets the record. It has no sender, and goes to logical unit 0.
    fn get_asked(key: &Self::Key) -> Asked
        ensures { result ≡ kind.words.get_asked key.now };

    /// The data of the request that carries out the operation.
    fn set_data(op: &Self::Op) -> RecordData
        ensures { result ≡ kind.words.set_data op.now };

    /// The request that carries out the operation. It has no sender, goes to logical unit 0, and has the operation's bytes
    /// unchanged. The request of an inverse has 0 in each bit that a controller ignores.
    fn set_asked(op: &Self::Op) -> Asked
        ensures { result ≡ kind.words.set_asked op.now };

    /// The operation that brings back the value that the Get reply shows, or nothing where the data are no such reply, or the
    /// operation can't be undone from them.
    fn inverse(op: &Self::Op, get_data: &'a [u8]) -> Option<Self::Op>
        ensures { result ≡ kind.words.inverse op.now get_data.now };
}

/// The old value, which the operation and then its inverse leave. The inverse is made from the reply to a Get before both. There
/// is no value where the record refuses the operation, or the operation can't be undone from the reply.
pub fn there_and_back<'a, K: RecordKind<'a>>(
    limits: &K,
    op: &K::Op,
    value: &[u8],
    get_data: &'a [u8],
) -> Option<Value>
    requires of_record { (K.kind.record_words limits.now).is_of (K.kind.words.key_of op.now) }
    requires is_valid { (K.kind.record_words limits.now).valid value.now }
    requires was_got { (live : Live)
        × (get_data.now ≡ (K.kind.record_words limits.now).view value.now live) }
    ensures { SomeIff result
        (((new : List ℕ) × (K.kind.record_words limits.now).sets op.now value.now new)
        × K.kind.words.restorable op.now get_data.now) value.now }
{
    let mut new = Value::new();
    let Ok(()) = limits.apply(op, value, &mut new) else {
        return None;
    };
    let undo = K::inverse(op, get_data)?;
    let mut back = Value::new();
    match limits.apply(&undo, new.as_slice(), &mut back) {
        Ok(()) => Some(back),
        Err(_) => unreachable!(),
    }
}
