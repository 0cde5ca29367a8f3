//! Channels in files: their access and its stores.
ghost use Rattle.std.specs.Prelude.{◌≡◌, ◌==◌, ◌&&◌, true, length, is_some, Some, IfSome};
ghost use Rattle.std.specs.List.{list_all};
ghost use Rattle.toml.specs.View.{view, table_view};
ghost use Rattle.text_fields.specs.Trees.{natural, members, or_none, bytes_in, HasNumber, HasBelow};
ghost use Rattle.text_fields.specs.Ranges.{passes, may_do};
ghost use Rattle.record_base.specs.UserSizes.{is_privilege};
ghost use Rattle.text_fields.specs.Channels.{is_access, is_channel, store_named, store_of};

use crate::field::Field;
use crate::tree::{byte_in, bytes, members, natural};
use record_base::user::is_limit;
use record_base::user_sizes::{MOST_MODE, has_mode, is_privilege};
use record_base::{AccessStore, ChannelNumber};
use toml::{Table, Value};

/// Whether the value says who gets in over a channel.
pub fn is_access(value: &Value) -> bool
    ensures { result ≡ passes is_access (natural (view value.now)) }
{
    match natural(value) {
        Some(number) => number < 64 && number % 8 <= u64::from(MOST_MODE),
        None => false,
    }
}

/// Two bytes for the stores of a channel: who gets in.
pub fn accesses(value: &Value) -> Option<[u8; 2]>
    ensures made { is_some result ≡ passes (list_all is_access) (bytes_in 2 (view value.now)) }
    ensures held { IfSome result (λ pair. bytes_in 2 (view value.now) ≡ Some pair) }
    ensures valid { IfSome result (λ pair. list_all is_access pair ≡ true) }
{
    let Some(pair) = bytes::<2>(value) else {
        return None;
    };
    let [first, second] = pair;
    if first >= 64 || !has_mode(first) || second >= 64 || !has_mode(second) {
        return None;
    }
    Some([first, second])
}

/// Two limits for the stores of a channel.
pub fn limits(value: &Value) -> Option<[u8; 2]>
    ensures made { is_some result
        ≡ passes (list_all is_privilege) (bytes_in 2 (view value.now)) }
    ensures held { IfSome result (λ pair. bytes_in 2 (view value.now) ≡ Some pair) }
    ensures valid { IfSome result (λ pair. list_all is_privilege pair ≡ true) }
{
    let Some(pair) = bytes::<2>(value) else {
        return None;
    };
    let [first, second] = pair;
    if !is_privilege(first) || !is_privilege(second) {
        return None;
    }
    Some([first, second])
}

/// Whether the value is the number of a channel of a board.
pub fn is_channel(value: &Value) -> bool
    ensures { result ≡ passes is_channel (natural (view value.now)) }
{
    match natural(value) {
        Some(number) => number <= 11 || number == 15,
        None => false,
    }
}

/// Whether the value says what a user may do.
fn may_do(value: &Value) -> bool
    ensures { result ≡ may_do (view value.now) }
{
    match natural(value) {
        Some(number) => match u8::try_from(number) {
            Ok(byte) => byte < 128 && is_limit(byte % 16),
            Err(_) => false,
        },
        None => false,
    }
}

/// Whether each of the values says what a user may do.
fn all_may_do(values: &[Value]) -> bool
    ensures { result ≡ list_all (λ value. may_do (view value)) values.now }
{
    values.iter().all(|value| may_do(value))
}

/// Whether the value is an array that says what each of so many users may do.
pub fn are_user_bytes(value: &Value, users: usize) -> bool
    ensures { result ≡ ((length (or_none (members (view value.now))) == users)
        && list_all may_do (or_none (members (view value.now)))) }
{
    match members(value) {
        Some(values) => values.len() == users && all_may_do(values),
        None => users == 0,
    }
}

/// The store that the text names.
fn store_named(text: &str) -> Option<AccessStore>
    ensures { result ≡ store_named text.now }
{
    if text == "non-volatile" {
        return Some(AccessStore::NonVolatile);
    }
    if text == "volatile" {
        return Some(AccessStore::Volatile);
    }
    None
}

/// The store that the value names.
pub fn store(value: &Value) -> Option<AccessStore>
    ensures { result ≡ store_of (view value.now) }
{
    match value.as_str() {
        Some(text) => store_named(text),
        None => None,
    }
}

/// The channel whose number the table has in the field.
pub fn channel_in(table: &Table, field: Field) -> ChannelNumber
    requires { HasBelow 16 field (table_view table.now) }
    ensures { HasNumber field (table_view table.now) result.number }
{
    ChannelNumber::of(byte_in(table, field))
}
