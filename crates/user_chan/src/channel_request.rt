//! Requests of the commands of channel access, from their data.
ghost use Rattle.std.specs.Prelude.{◌≡◌};
ghost use Rattle.user_chan.specs.ChannelRequests.{store_at, stored_in, named, same_store, asked_for, channel_request_in};

use record_base::{
    AccessStore, ChannelChange, ChannelNumber, SetChannelAccess, SixBits, StoredAccess, byte_at,
};

/// A request of Set Channel Access.
#[derive(Clone, Copy)]
pub enum ChannelRequest {
    /// Nothing of the channel changes.
    Leave(ChannelNumber),
    /// One store changes.
    One(SetChannelAccess),
    /// The access changes in one store, and the limit in another.
    Two(SetChannelAccess, SetChannelAccess),
}

/// The store of these bits: 01b and 10b name one.
fn store_at(bits: u8) -> AccessStore
    ensures { result ≡ store_at bits }
{
    match bits {
        1 => AccessStore::NonVolatile,
        2 => AccessStore::Volatile,
        _ => AccessStore::Neither,
    }
}

/// The record that a Get Channel Access with these data asks for.
pub fn stored_in(body: &[u8]) -> StoredAccess
    ensures { result ≡ stored_in body.now }
{
    StoredAccess {
        channel: ChannelNumber::of(byte_at(body, 0)),
        store: store_at(byte_at(body, 1) / 64),
    }
}

/// The store that these bits name for a part: 00b leaves the part, and 11b names no store that a channel has.
fn named(bits: u8) -> Option<AccessStore>
    ensures { result ≡ named bits }
{
    if bits == 0 {
        return None;
    }
    Some(store_at(bits))
}

/// Whether both stores are the same.
fn same_store(a: AccessStore, b: AccessStore) -> bool
    ensures { result ≡ same_store a b }
{
    matches!(
        (a, b),
        (AccessStore::NonVolatile, AccessStore::NonVolatile)
            | (AccessStore::Volatile, AccessStore::Volatile)
            | (AccessStore::Neither, AccessStore::Neither)
    )
}

/// The request, from the stores that it names for the access and for the limit.
fn asked_for(
    channel: ChannelNumber,
    stores: (Option<AccessStore>, Option<AccessStore>),
    access: SixBits,
    limit: SixBits,
) -> ChannelRequest
    ensures { result ≡ asked_for channel stores.0 stores.1 access limit }
{
    let set = |store, change| SetChannelAccess {
        channel,
        store,
        change,
    };
    match stores {
        (None, None) => ChannelRequest::Leave(channel),
        (Some(store), None) => ChannelRequest::One(set(store, ChannelChange::Access(access))),
        (None, Some(other)) => ChannelRequest::One(set(other, ChannelChange::Limit(limit))),
        (Some(store), Some(other)) => {
            if same_store(store, other) {
                return ChannelRequest::One(set(store, ChannelChange::Both(access, limit)));
            }
            ChannelRequest::Two(
                set(store, ChannelChange::Access(access)),
                set(other, ChannelChange::Limit(limit)),
            )
        }
    }
}

/// The request of Set Channel Access with these data.
pub fn channel_request_in(body: &[u8]) -> ChannelRequest
    ensures { result ≡ channel_request_in body.now }
{
    let access = byte_at(body, 1);
    let limit = byte_at(body, 2);
    asked_for(
        ChannelNumber::of(byte_at(body, 0)),
        (named(access / 64), named(limit / 64)),
        SixBits::of(access),
        SixBits::of(limit),
    )
}
