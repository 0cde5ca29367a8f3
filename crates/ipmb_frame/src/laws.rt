//! What holds of messages and their frames.
ghost use Rattle.std.specs.Prelude.{◌≡◌, ◌<◌, ◌⊎◌, List, ℕ, All, find, None};
ghost use Rattle.ipmb_frame.specs.declared.message.Request.{Request};
ghost use Rattle.ipmb_frame.specs.declared.message.Msg.{Msg};
ghost use Rattle.ipmb_frame.specs.Fault.{has_fault, faults, HasFault};
ghost use Rattle.ipmb_frame.specs.Grammar.{IsRequest, IsMessage, request_bytes};

/// Bytes are at most one message.
pub fn one_message()
    ensures { (m n : Msg) (bytes : List ℕ) → IsMessage m bytes → IsMessage n bytes → m ≡ n }
{}

/// A message has at most one frame.
pub fn one_frame()
    ensures { (m : Msg) (xs ys : List ℕ) → IsMessage m xs → IsMessage m ys → xs ≡ ys }
{}

/// Requests between the same addresses with the same bytes are one request, in one frame.
pub fn same_bytes_same_frame()
    ensures request { (r s : Request) (xs ys : List ℕ) → IsRequest r xs → IsRequest s ys
        → r.header.responder.address ≡ s.header.responder.address
        → r.header.requester.address ≡ s.header.requester.address
        → request_bytes r ≡ request_bytes s → r ≡ s }
    ensures frame { (r s : Request) (xs ys : List ℕ) → IsRequest r xs → IsRequest s ys
        → r.header.responder.address ≡ s.header.responder.address
        → r.header.requester.address ≡ s.header.requester.address
        → request_bytes r ≡ request_bytes s → xs ≡ ys }
{}

/// Bytes have a fault or are a message, and never both.
pub fn fault_or_message()
    ensures either { (bytes : List ℕ) → All (λ b. b < 256) bytes
        → HasFault bytes ⊎ ((m : Msg) × IsMessage m bytes) }
    ensures not_both { (m : Msg) (bytes : List ℕ) → IsMessage m bytes
        → find (has_fault bytes) faults ≡ None }
{}
