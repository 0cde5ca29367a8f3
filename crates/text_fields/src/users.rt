//! Users in files: their names and the limits of their privileges.
ghost use Rattle.std.specs.Prelude.{◌≡◌, ◌&&◌, map, is_some};
ghost use Rattle.std.specs.List.{list_all};
ghost use Rattle.record_base.specs.UserAccess.{is_limit};
ghost use Rattle.toml.specs.View.{view};
ghost use Rattle.text_fields.specs.Trees.{natural, members, or_none};
ghost use Rattle.text_fields.specs.Ranges.{passes};
ghost use Rattle.text_fields.specs.Users.{padded, name_of, begins_unnamed, are_names};

use crate::tree::{members, natural};
use record_base::board_sizes::MOST_USERS;
use record_base::user::is_limit;
use record_base::user_sizes::USER_NAME_SIZE;
use toml::Value;

/// The name whose text it is, with 00h behind it.
fn padded(text: &str) -> Option<[u8; USER_NAME_SIZE]>
    ensures { result ≡ padded text.now }
{
    let length = text.len();
    if length > USER_NAME_SIZE {
        return None;
    }
    let mut name = [0; USER_NAME_SIZE];
    name[..length].copy_from_slice(text.as_bytes());
    Some(name)
}

/// The name that the value is.
pub fn name(value: &Value) -> Option<[u8; USER_NAME_SIZE]>
    ensures { result ≡ name_of (view value.now) }
{
    match value.as_str() {
        Some(text) => padded(text),
        None => None,
    }
}

/// Whether the first value is a text without bytes.
fn begins_unnamed(values: &[Value]) -> bool
    ensures { result ≡ begins_unnamed (map view values.now) }
{
    match values.first() {
        Some(value) => match value.as_str() {
            Some(text) => text.is_empty(),
            None => false,
        },
        None => false,
    }
}

/// Whether each of the values is a name.
fn all_names(values: &[Value]) -> bool
    ensures { result ≡ list_all (λ value. is_some (name_of (view value))) values.now }
{
    values.iter().all(|value| name(value).is_some())
}

/// Whether each of the values is a name, and the first an empty one.
fn all_named(values: &[Value]) -> bool
    ensures { result ≡ (begins_unnamed (map view values.now)
        && list_all (λ value. is_some (name_of (view value))) values.now) }
{
    begins_unnamed(values) && all_names(values)
}

/// Whether the value is an array of the names of users.
pub fn are_names(value: &Value) -> bool
    ensures { result ≡ are_names (or_none (members (view value.now))) }
{
    match members(value) {
        Some(values) => values.len() <= MOST_USERS && all_named(values),
        None => false,
    }
}

/// Whether the value is a limit of a user's privileges.
pub fn is_user_limit(value: &Value) -> bool
    ensures { result ≡ passes is_limit (natural (view value.now)) }
{
    match natural(value) {
        Some(number) => match u8::try_from(number) {
            Ok(byte) => is_limit(byte),
            Err(_) => false,
        },
        None => false,
    }
}
