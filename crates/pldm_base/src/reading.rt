//! Bytes to messages.
ghost use Rattle.std.specs.Prelude.{◌≡◌, ◌≤◌, length, IfOk, find};
ghost use Rattle.std.specs.Result.{result_err, result_ok};
ghost use Rattle.pldm_base.specs.declared.message.PldmRequest.{PldmRequest as Request};
ghost use Rattle.pldm_base.specs.declared.message.PldmReply.{PldmReply as Reply};
ghost use Rattle.pldm_base.specs.Message.{IsRequest, IsReply, has_fault, faults, has_reply_fault, reply_faults, request_in, reply_in};

use crate::{
    Header, Instance, PldmBytes, PldmFault, PldmReply, PldmReplyFault, PldmRequest, PldmType,
};
use two_wire::Data;
use two_wire::circles::INSTANCES;

/// The request that the bytes are, with its data where they lie.
pub fn read_pldm<'a>(bytes: &PldmBytes<'a>) -> Result<PldmRequest<'a>, PldmFault>
    // An error is the first fault that the bytes have, in the order of the faults.
    ensures fault { result_err result ≡ find (has_fault bytes.now) faults }
    // The bytes are the request that is read.
    ensures read { IfOk result (λ r. IsRequest r bytes.now) }
    // A request's bytes are read as that request.
    ensures whole { (r : Request) → IsRequest r bytes.now → result ≡ Ok r }
    // The request that is read is the one in the bytes.
    ensures value { result_ok result ≡ request_in bytes.now }
{
    parse_request(bytes.as_slice())
}

/// The reply that the bytes are, with its data where they lie.
pub fn read_pldm_reply<'a>(bytes: &PldmBytes<'a>) -> Result<PldmReply<'a>, PldmReplyFault>
    // An error is the first fault that the bytes have, in the order of the faults.
    ensures fault { result_err result ≡ find (has_reply_fault bytes.now) reply_faults }
    // The bytes are the reply that is read.
    ensures read { IfOk result (λ r. IsReply r bytes.now) }
    // A reply's bytes are read as that reply.
    ensures whole { (r : Reply) → IsReply r bytes.now → result ≡ Ok r }
    // The reply that is read is the one in the bytes.
    ensures value { result_ok result ≡ reply_in bytes.now }
{
    parse_reply(bytes.as_slice())
}

fn parse_request(bytes: &[u8]) -> Result<PldmRequest<'_>, PldmFault>
    requires { length bytes.now ≤ 255 }
    ensures fault { result_err result ≡ find (has_fault bytes.now) faults }
    ensures read { IfOk result (λ r. IsRequest r bytes.now) }
{
    let [first, second, command, body @ ..] = bytes else {
        return Err(PldmFault::Short);
    };
    if *second >> 6 != 0 {
        return Err(PldmFault::Version);
    }
    if *first >> 6 != 2 {
        return Err(PldmFault::NotRequest);
    }
    let header = Header {
        instance: Instance::new(*first % INSTANCES),
        pldm_type: PldmType::new(*second),
        command: *command,
    };
    let body = Data::new(body);
    Ok(PldmRequest { header, body })
}

fn parse_reply(bytes: &[u8]) -> Result<PldmReply<'_>, PldmReplyFault>
    requires { length bytes.now ≤ 255 }
    ensures fault { result_err result ≡ find (has_reply_fault bytes.now) reply_faults }
    ensures read { IfOk result (λ r. IsReply r bytes.now) }
{
    let [first, second, command, code, body @ ..] = bytes else {
        return Err(PldmReplyFault::Short);
    };
    if *second >> 6 != 0 {
        return Err(PldmReplyFault::Version);
    }
    if *first >> 6 != 0 {
        return Err(PldmReplyFault::NotReply);
    }
    let header = Header {
        instance: Instance::new(*first % INSTANCES),
        pldm_type: PldmType::new(*second),
        command: *command,
    };
    let code = *code;
    let body = Data::new(body);
    Ok(PldmReply { header, code, body })
}
