//! What holds of the definitions.
ghost use Rattle.std.specs.Prelude.{◌≡◌, ◌==◌, ◌+◌, ◌*◌, ◌<◌, ◌⊎◌, ◌↔◌, List, ℕ, Some, None, length, slice_get, find, nat_lt};
ghost use Rattle.pldm_base.specs.declared.message.PldmRequest.{PldmRequest};
ghost use Rattle.pldm_base.specs.declared.message.PldmReply.{PldmReply};
ghost use Rattle.pldm_base.specs.Crc.{IsCrc32, crc_of};
ghost use Rattle.pldm_base.specs.Message.{IsRequest, IsReply, HasFault, HasReplyFault, has_fault, faults, has_reply_fault, reply_faults, request_in, reply_in};
ghost use Rattle.pldm_base.specs.Parts.{AreParts, part_length, begins_part, is_last, part_bytes};

use crate::{PldmBytes, read_pldm, read_pldm_reply};

/// Bytes are at most one request.
pub fn one_request()
    ensures { (r s : PldmRequest) (bytes : List ℕ) → IsRequest r bytes → IsRequest s bytes → r ≡ s }
{}

/// Bytes are at most one reply.
pub fn one_reply()
    ensures { (r s : PldmReply) (bytes : List ℕ) → IsReply r bytes → IsReply s bytes → r ≡ s }
{}

/// Bytes have a fault or are a request, and never both.
pub fn fault_or_request(bytes: &PldmBytes<'_>)
    ensures either { HasFault bytes.now ⊎ ((r : PldmRequest) × IsRequest r bytes.now) }
    ensures not_both { (r : PldmRequest) → IsRequest r bytes.now
        → find (has_fault bytes.now) faults ≡ None }
{
    let _ = read_pldm(bytes);
}

/// Bytes have a fault or are a reply, and never both.
pub fn fault_or_reply(bytes: &PldmBytes<'_>)
    ensures either { HasReplyFault bytes.now ⊎ ((r : PldmReply) × IsReply r bytes.now) }
    ensures not_both { (r : PldmReply) → IsReply r bytes.now
        → find (has_reply_fault bytes.now) reply_faults ≡ None }
{
    let _ = read_pldm_reply(bytes);
}

/// The request in bytes is the one that they are, and so with the reply.
pub fn in_bytes_is_the_grammar()
    ensures request { (r : PldmRequest) (bytes : List ℕ)
        → (request_in bytes ≡ Some r) ↔ IsRequest r bytes }
    ensures reply { (r : PldmReply) (bytes : List ℕ) → (reply_in bytes ≡ Some r) ↔ IsReply r bytes }
{}

/// No bytes are a request and a reply.
pub fn no_request_is_a_reply()
    ensures { (r : PldmRequest) (s : PldmReply) (bytes : List ℕ) → IsRequest r bytes
        → IsReply s bytes → ⊥ }
{}

/// Every table has parts.
pub fn every_table_has_parts()
    ensures { (table : List ℕ) → (parts : List (List ℕ)) × AreParts table parts }
{}

/// A table has no two lists of parts.
pub fn one_list_of_parts()
    ensures { (table : List ℕ) (parts pieces : List (List ℕ)) → AreParts table parts
        → AreParts table pieces
        → parts ≡ pieces }
{}

/// The parts of a table stand at the multiples of `part_length`: each begins there, with its bytes, and the last is the last.
pub fn parts_stand_at_their_offsets()
    ensures begins { (table : List ℕ) (parts : List (List ℕ)) → AreParts table parts
        → (k : ℕ) → begins_part table (part_length * k) ≡ nat_lt k (length parts) }
    ensures bytes { (table : List ℕ) (parts : List (List ℕ)) → AreParts table parts
        → (k : ℕ) → k < length parts
        → slice_get parts k ≡ Some (part_bytes table (part_length * k)) }
    ensures last { (table : List ℕ) (parts : List (List ℕ)) → AreParts table parts
        → (k : ℕ) → k < length parts → is_last table (part_length * k) ≡ (k + 1 == length parts) }
{}

/// All bytes have a CRC-32.
pub fn all_bytes_have_a_crc32()
    ensures { (bytes : List ℕ) → (crc : ℕ) × IsCrc32 bytes crc }
{}

/// No bytes have two of them.
pub fn one_crc32()
    ensures { (bytes : List ℕ) (crc check : ℕ) → IsCrc32 bytes crc → IsCrc32 bytes check
        → crc ≡ check }
{}

/// The one that bytes have is that of long division.
pub fn crc32_is_by_division()
    ensures { (bytes : List ℕ) → IsCrc32 bytes (crc_of bytes) }
{}
