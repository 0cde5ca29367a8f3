//! The numbers of users and channels (IPMI 2.0).
ghost use Rattle.std.specs.Prelude.{◌≡◌, ◌%◌};
ghost use Rattle.record_base.specs.UserSizes.{user_name_size, least_privilege, most_privilege, no_access, most_mode, is_privilege, has_mode};

/// How many bytes the name of a user has.
pub const USER_NAME_SIZE: usize = 16;

/// The least limit of privileges: callback.
pub const LEAST_PRIVILEGE: u8 = 1;

/// The greatest limit of privileges: OEM.
pub const MOST_PRIVILEGE: u8 = 5;

/// The limit of a user who may do nothing on a channel.
pub const NO_ACCESS: u8 = 15;

/// The last access mode of a channel: shared. The first is 0.
pub const MOST_MODE: u8 = 3;

/// Each constant is the definition of its name.
pub fn user_sizes_are_the_definitions()
    ensures name { USER_NAME_SIZE ≡ user_name_size }
    ensures least { LEAST_PRIVILEGE ≡ least_privilege }
    ensures most { MOST_PRIVILEGE ≡ most_privilege }
    ensures no_access { NO_ACCESS ≡ no_access }
    ensures mode { MOST_MODE ≡ most_mode }
{}

/// Whether a channel can have this limit of privileges.
pub fn is_privilege(limit: u8) -> bool
    ensures { result ≡ is_privilege limit }
{
    LEAST_PRIVILEGE <= limit && limit <= MOST_PRIVILEGE
}

/// Whether the mode in bits 2:0 is one that a channel can have.
pub fn has_mode(access: u8) -> bool
    ensures { result ≡ has_mode access }
{
    access % 8 <= MOST_MODE
}
