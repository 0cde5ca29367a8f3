//! Messages to bytes, written where they are sent from.
ghost use Rattle.std.specs.Prelude.{◌≡◌, ◌+◌, ◌≤◌, ◌++◌, length};
ghost use Rattle.pldm_base.specs.Message.{IsHeader, SpellsRequest, SpellsReply, request_bytes, reply_bytes, reply_start};

use crate::{Header, PldmReply, PldmRequest};
use two_wire::Buffer;

/// Appends the bytes of a request. The ignored bit is 0.
pub fn write_pldm<B: Buffer>(request: &PldmRequest<'_>, to: &mut B)
    requires { length (B.bytes to.old) + 3 + length request.now.body ≤ B.capacity }
    ensures written { B.bytes to.new ≡ B.bytes to.old ++ request_bytes request.now }
    ensures request { SpellsRequest 0 request.now (request_bytes request.now) }
{
    let Header {
        instance,
        pldm_type,
        command,
    } = request.header;
    to.extend_from_slice(&[0x80 | instance.number(), pldm_type.number(), command]);
    to.extend_from_slice(request.body.as_slice());
}

/// Appends the bytes of a reply. The ignored bit is 0.
pub fn write_pldm_reply<B: Buffer>(reply: &PldmReply<'_>, to: &mut B)
    requires { length (B.bytes to.old) + 4 + length reply.now.body ≤ B.capacity }
    ensures written { B.bytes to.new ≡ B.bytes to.old ++ reply_bytes reply.now }
    ensures reply { SpellsReply 0 reply.now (reply_bytes reply.now) }
{
    begin_pldm_reply(&reply.header, reply.code, to);
    to.extend_from_slice(reply.body.as_slice());
}

/// Appends all of a reply that stands before its data. The data, at most 251 bytes, are appended next.
pub fn begin_pldm_reply<B: Buffer>(header: &Header, code: u8, to: &mut B)
    requires { length (B.bytes to.old) + 4 ≤ B.capacity }
    ensures started { B.bytes to.new ≡ B.bytes to.old ++ reply_start header.now code }
    ensures header { IsHeader header.now }
{
    let Header {
        instance,
        pldm_type,
        command,
    } = *header;
    to.extend_from_slice(&[instance.number(), pldm_type.number(), command, code]);
}
