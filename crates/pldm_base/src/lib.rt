//! Platform level data model: requests and replies as bytes, tables in parts, and their CRC-32.
#![tactic(auto)]

mod crc;
mod fault;
mod laws;
mod message;
mod reading;
mod sameness;
mod table;
mod transfer;
mod writing;

pub use crc::crc32;
pub use fault::{PldmFault, PldmReplyFault};
pub use laws::{
    all_bytes_have_a_crc32, every_table_has_parts, fault_or_reply, fault_or_request,
    in_bytes_is_the_grammar, no_request_is_a_reply, one_crc32, one_list_of_parts, one_reply,
    one_request, parts_stand_at_their_offsets,
};
pub use message::{Header, Instance, PldmBytes, PldmReply, PldmRequest, PldmType};
pub use reading::{read_pldm, read_pldm_reply};
pub use sameness::same_request;
pub use table::{GET_FIRST_PART, GET_NEXT_PART, MOST_WHOLE, PART_LENGTH, Part, TransferFlag};
pub use transfer::{entry_part, part, part_at};
pub use writing::{begin_pldm_reply, write_pldm, write_pldm_reply};
