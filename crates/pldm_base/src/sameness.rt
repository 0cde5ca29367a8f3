//! Whether a request repeats another.
ghost use Rattle.std.specs.Prelude.{◌≡◌, ◌↔◌, IsTrue};
ghost use Rattle.pldm_base.specs.Message.{request_bytes};

use crate::PldmRequest;

/// Whether two requests have the same bytes, with the ignored bit taken as 0: instance, type, command and data.
pub fn same_request(a: &PldmRequest<'_>, b: &PldmRequest<'_>) -> bool
    ensures same { IsTrue result ↔ (a.now ≡ b.now) }
    ensures bytes { IsTrue result ↔ (request_bytes a.now ≡ request_bytes b.now) }
{
    a.header == b.header && a.body.as_slice() == b.body.as_slice()
}
