//! Kinds whose commands name the record and the operation by their data alone.
ghost use Rattle.std.specs.Prelude.{◌≡◌};
ghost use Rattle.record_base.specs.Reader.{Reader};

use crate::key::Key;
use crate::op::Op;

/// A kind of record whose commands name the record and the operation by their data alone. Any data name a record and an operation.
pub trait CommandReader {
    /// The record and the operation that data name.
    ghost reader: { Reader };

    /// The record that the data of a Get name.
    fn key_in(body: &[u8]) -> Key
        ensures { result ≡ reader.key_in body.now };

    /// The operation that the data of a Set name.
    fn op_in(body: &[u8]) -> Op<'_>
        ensures { result ≡ reader.op_in body.now };
}
