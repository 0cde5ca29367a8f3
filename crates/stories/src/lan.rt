//! What a request on LAN parameters asks for.
use cfg_records::{Key, Op};
use user_chan::lan_request::{LanRequest, LanShown, lan_request_in, lan_shown_in};

/// The change of a LAN parameter that the data say, if they say one.
pub fn lan_op(body: &[u8]) -> Option<Op<'_>> {
    match lan_request_in(body) {
        LanRequest::Param(op) => Some(Op::LanParam(op)),
        LanRequest::Other(_, _) => None,
    }
}

/// The LAN parameter that the data of a Get name.
pub fn lan_key(body: &[u8]) -> Option<Key> {
    match lan_shown_in(body) {
        LanShown::Param(on) => Some(Key::LanParam(on)),
        LanShown::Other(_, _) => None,
    }
}
