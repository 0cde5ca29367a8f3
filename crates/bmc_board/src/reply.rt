//! Where a reply is made.
ghost use Rattle.std.specs.Prelude.{◌≡◌, []};
ghost use Rattle.record_base.specs.declared.message.Answered.{Answered as AnyAnswer};
ghost use Rattle.bmc_board.specs.Gives.{GivesReply};
ghost use Rattle.bmc_board.specs.Carrying.{code_given};

use record_base::Answered;
use two_wire::size::MOST_PLDM_REPLY_DATA;
use two_wire::{Buffer, Bytes, Code};

/// A place for a reply, whose bytes can be read again once they are there.
pub trait Reply: Buffer {
    ghost use Rattle.std.specs.Prelude.{◌≡◌};

    /// The bytes that are there.
    fn as_slice(&self) -> &[u8]
        ensures { result.now ≡ Self.bytes self.now };
}

impl<const CAP: usize> Reply for Bytes<CAP> {
    #[inline(always)]
    fn as_slice(&self) -> &[u8] {
        Bytes::as_slice(self)
    }
}

/// The completion code of a reply.
#[inline(always)]
pub fn code_of(given: &Result<(), Code>) -> u8
    ensures { result ≡ code_given given.now }
{
    match given {
        Ok(()) => 0,
        Err(code) => code.value(),
    }
}

/// The answer whose data were appended to nothing.
pub fn answered(given: Result<(), Code>, body: Bytes<{ MOST_PLDM_REPLY_DATA }>) -> Answered
    ensures { (answer : AnyAnswer) → GivesReply given [] body answer → result ≡ answer }
{
    match given {
        Ok(()) => Answered { code: 0, body },
        Err(code) => Answered::refused(code),
    }
}
