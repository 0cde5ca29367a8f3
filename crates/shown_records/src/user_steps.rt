//! Steps on users and channels.
use crate::plan_texts::{push_flag, push_list, push_number, push_text, push_word};
use record_base::{
    AccessStore, ChannelChange, LanChange, SetChannelAccess, SetLanParam, SetUserAccess,
    SetUserName,
};
use std::alloc::AllocError;

/// The bytes without the 00h at their end.
fn trimmed(bytes: &[u8]) -> &[u8] {
    let mut end = bytes.len();
    while end > 0 && bytes[end - 1] == 0 {
        end -= 1;
    }
    &bytes[..end]
}

/// Adds the fields of a step that sets a user's name.
pub(crate) fn push_user_name(text: &mut String, set: &SetUserName) -> Result<(), AllocError> {
    push_number(text, "user", u64::from(set.user))?;
    push_text(text, "name", trimmed(&set.name))
}

/// Adds the fields of a step that sets what a user may do on a channel.
pub(crate) fn push_user_access(text: &mut String, set: &SetUserAccess) -> Result<(), AllocError> {
    push_number(text, "channel", u64::from(set.first % 16))?;
    push_number(text, "user", u64::from(set.user))?;
    push_number(text, "limit", u64::from(set.limit))?;
    if set.first < 128 {
        return Ok(());
    }
    push_flag(text, "callback", set.first / 64 % 2 == 1)?;
    push_flag(text, "link", set.first / 32 % 2 == 1)?;
    push_flag(text, "messaging", set.first / 16 % 2 == 1)
}

/// The word of a store. A plan has none for neither.
fn store_word(store: AccessStore) -> &'static str {
    match store {
        AccessStore::NonVolatile => "non-volatile",
        AccessStore::Volatile => "volatile",
        AccessStore::Neither => "neither",
    }
}

/// Adds the fields of a step that sets the access of a channel in one of its stores.
pub(crate) fn push_channel_access(
    text: &mut String,
    set: &SetChannelAccess,
) -> Result<(), AllocError> {
    push_number(text, "channel", u64::from(set.channel.number))?;
    push_word(text, "store", store_word(set.store))?;
    match &set.change {
        ChannelChange::Access(access) => push_number(text, "access", u64::from(access.number)),
        ChannelChange::Limit(limit) => push_number(text, "limit", u64::from(limit.number)),
        ChannelChange::Both(access, limit) => {
            push_number(text, "access", u64::from(access.number))?;
            push_number(text, "limit", u64::from(limit.number))
        }
    }
}

/// Adds the fields of a step that sets a LAN parameter.
pub(crate) fn push_lan_param(text: &mut String, set: &SetLanParam) -> Result<(), AllocError> {
    push_number(text, "channel", u64::from(set.channel.number))?;
    push_number(text, "param", u64::from(set.change.parameter().selector()))?;
    match &set.change {
        LanChange::Address(_, address) => push_list(text, "data", &address.bytes()),
        LanChange::AddressSource(byte) => push_list(text, "data", &[*byte]),
        LanChange::Vlan(vlan) => push_list(text, "data", &[vlan.low, vlan.high]),
    }
}
