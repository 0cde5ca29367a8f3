//! What a reply leads to.
ghost use Rattle.std.specs.Prelude.{◌≡◌, ◌+◌, ◌*◌, ◌<◌, ◌≤◌, length, IfSome};
ghost use Rattle.two_wire.specs.Sizes.{most_message_bytes};
ghost use Rattle.pldm_base.specs.Parts.{part_length};
ghost use Rattle.bios_attr.specs.EntryParts.{before_part, most_entry};
ghost use Rattle.undo_plans.specs.Fitting.{most_requests};
ghost use Rattle.undo_look.specs.Requests.{get_at, next_behind};
ghost use Rattle.undo_look.specs.Replies.{shown_behind, stage_behind};
ghost use Rattle.undo_look.specs.Looks.{answered_in};
ghost use Rattle.undo_look.specs.OpenGet.{IsOpenGet, most_joined, parts_at};

use crate::data::ShownData;
use crate::hearing::Reply;
use crate::stage::Stage;
use crate::target::Target;
use bios_attr::entry_parts::goes_on;
use pldm_base::PART_LENGTH;
use record_base::Asked;
use two_wire::Code;

/// The request for the next part, behind so many replies of which this is the last.
fn next_part(target: &Target, count: u8, body: &[u8]) -> Option<Asked>
    requires { 0 < count }
    ensures asked { result ≡ next_behind target.now count body.now }
    ensures place { IfSome result (λ asked. get_at target.now count ≡ Some asked) }
    ensures full { IfSome result (λ _. length body.now ≡ before_part + part_length) }
    ensures more { IfSome result (λ _. part_length * count < most_entry) }
{
    if !goes_on(count, body) {
        return None;
    }
    target.next_asked(PART_LENGTH as u32 * u32::from(count))
}

/// The stage behind the reply, which came after so many others of the same look, and what these show then.
pub(crate) fn stage_behind(
    shown: &mut ShownData,
    target: &Target,
    parts: u8,
    reply: Reply<'_>,
) -> Stage
    requires parts { parts < most_requests }
    requires filled { length shown.old ≤ most_joined parts }
    requires short { length reply.body.now ≤ most_message_bytes }
    ensures stage { result ≡ stage_behind target.now parts (answered_in reply.entry) }
    ensures shown { shown.new ≡ shown_behind target.now parts shown.old (answered_in reply.entry) }
    ensures gets { IsOpenGet result }
    ensures parted { parts_at result < most_requests }
    ensures filled { length shown.new ≤ most_joined (parts_at result) }
{
    if let Some(code) = Code::new(reply.code) {
        return Stage::Refused(*target, code);
    }
    if let Some(asked) = next_part(target, parts + 1, reply.body) {
        shown.take(parts, reply.body);
        return Stage::Opened {
            heeded: true,
            target: *target,
            parts: parts + 1,
            asked,
        };
    }
    shown.end(target, parts, reply.body);
    Stage::Found(*target)
}
