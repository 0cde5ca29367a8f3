//! The keys of a table, beside its fields.
ghost use Rattle.std.specs.Prelude.{◌≡◌};
ghost use Rattle.toml.specs.View.{table_view};
ghost use Rattle.text_check.specs.Known.{is_known, leaves_events, unused};

use file_faults::Group;
use std::alloc::AllocError;
use text_board::has_sessions;
use text_fields::tree::has_text;
use text_fields::{Field, Row};
use toml::Table;

/// Whether the key is the word of one of the fields.
pub(crate) fn is_known(rows: &[Row], key: &str) -> bool
    ensures { result ≡ is_known rows.now key.now }
{
    rows.iter().any(|row| row.0.word() == key)
}

/// The fields of sessions on a channel.
const OF_SESSIONS: [Field; 3] = [Field::Access, Field::Limit, Field::Users];

/// The fields of events in a step.
const OF_EVENTS: [Field; 2] = [Field::Assert, Field::Deassert];

/// Whether the step leaves its sensor's events as they are.
fn leaves_events(step: &Table) -> bool
    ensures { result ≡ leaves_events (table_view step.now) }
{
    has_text(step, Field::Kind, "event-enable") && has_text(step, Field::Select, "leave")
}

/// The fields that the reader of the table doesn't use.
pub(crate) fn unused(group: Group, table: &Table) -> &'static [Field]
    ensures { result.now ≡ unused group (table_view table.now) }
{
    match group {
        Group::Channel if !has_sessions(table) => &OF_SESSIONS,
        Group::Step if leaves_events(table) => &OF_EVENTS,
        _ => &[],
    }
}

/// Adds a key as it is, where it has letters, digits, `_` and `-` alone, or else in quotes.
pub(crate) fn push_key(text: &mut String, key: &str) -> Result<(), AllocError> {
    let is_bare = key.as_bytes().iter().all(|byte| byte.is_ascii_alphanumeric()
        || *byte == b'_'
        || *byte == b'-');
    if is_bare && !key.is_empty() {
        text.push_str(key)
    } else {
        write!(text, "{key:?}")
    }
}
