//! What the only reply to a Get shows.
ghost use Rattle.std.specs.Prelude.{◌≡◌, [], ◌∷◌};
ghost use Rattle.undo_plans.specs.Showing.{is_whole, shown_by};

use bios_attr::bios_attribute::{START_AND_END, transfer_handle};
use bios_attr::entry_parts::entry_in;
use pldm_base::MOST_WHOLE;
use record_base::{Key, byte_at};

/// Whether a reply shows the whole entry of an attribute, as a controller gives it: no part follows, and it has at most 205 bytes.
fn is_whole(body: &[u8]) -> bool
    ensures { result ≡ is_whole body.now }
{
    byte_at(body, 4) == START_AND_END
        && (transfer_handle(body) == 0 && entry_in(body).len() <= MOST_WHOLE)
}

/// What the only reply to a record's Get shows: of an attribute nothing, where it isn't its whole entry.
pub fn shown_alone<'a>(key: &Key, body: &'a [u8]) -> &'a [u8]
    ensures { result.now ≡ shown_by key.now (body.now ∷ []) }
{
    match key {
        Key::BiosAttribute(_) if !is_whole(body) => &[],
        _ => body,
    }
}
