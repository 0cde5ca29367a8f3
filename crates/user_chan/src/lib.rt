//! The names of users, the access of users on channels, the access of channels, and the LAN parameters of channels, as kinds of record;
//! and the users' passwords, which no call shows.
#![tactic(auto)]

pub mod channel_access;
pub mod channel_request;
pub mod lan_param;
pub mod lan_request;
pub mod laws;
pub mod password;
pub mod user_access;
pub mod user_name;

pub use channel_access::ChannelAccessLimits;
pub use lan_param::LanParamLimits;
pub use password::{Password, PasswordChange, Passwords};
pub use user_access::UserAccessLimits;
pub use user_name::UserNameLimits;
