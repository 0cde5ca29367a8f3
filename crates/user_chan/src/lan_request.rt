//! Requests of the commands of LAN parameters, from their data.
ghost use Rattle.std.specs.Prelude.{◌≡◌, drop};
ghost use Rattle.user_chan.specs.LanRequests.{change_in, lan_request_in, lan_shown_in};

use record_base::mask::has;
use record_base::{
    ChannelNumber, Ipv4Address, LanChange, LanParameter, ParameterOnChannel, SetLanParam,
    VlanBytes, byte_at,
};

/// The answer to a request on LAN parameters that asks for no record, on a channel that has such parameters.
#[derive(Clone, Copy)]
pub enum LanAnswer {
    /// The revision alone.
    Revision,
    /// 80h: no record has the selector.
    Unsupported,
    /// C7h: the number of data isn't right for the selector.
    WrongLength,
}

/// A request of Set LAN Configuration Parameters.
#[derive(Clone, Copy)]
pub enum LanRequest {
    /// A parameter changes.
    Param(SetLanParam),
    /// No record of the channel changes. The reply is the answer.
    Other(ChannelNumber, LanAnswer),
}

/// A request of Get LAN Configuration Parameters.
#[derive(Clone, Copy)]
pub enum LanShown {
    /// A parameter.
    Param(ParameterOnChannel),
    /// No record of the channel. The reply is the answer.
    Other(ChannelNumber, LanAnswer),
}

/// The bit beside the channel of a Get that asks for the revision alone.
const REVISION_PLACE: usize = 7;

/// The change of the parameter, from the data behind the selector.
fn change_in(parameter: LanParameter, rest: &[u8]) -> Option<LanChange>
    ensures { result ≡ change_in parameter rest.now }
{
    match (parameter, rest) {
        (LanParameter::Address(which), [first, second, third, fourth]) => {
            Some(LanChange::Address(
                which,
                Ipv4Address {
                    first: *first,
                    second: *second,
                    third: *third,
                    fourth: *fourth,
                },
            ))
        }
        (LanParameter::AddressSource, [byte]) => Some(LanChange::AddressSource(*byte)),
        (LanParameter::Vlan, [low, high]) => Some(LanChange::Vlan(VlanBytes {
            low: *low,
            high: *high,
        })),
        _ => None,
    }
}

/// The data behind the channel and the selector.
fn behind(body: &[u8]) -> &[u8]
    ensures { result.now ≡ drop 2 body.now }
{
    match body {
        [_, _, rest @ ..] => rest,
        _ => &[],
    }
}

/// The request of Set LAN Configuration Parameters with these data. It checks the selector first, and then the number of bytes behind
/// the selector.
pub fn lan_request_in(body: &[u8]) -> LanRequest
    ensures { result ≡ lan_request_in body.now }
{
    let channel = ChannelNumber::of(byte_at(body, 0));
    let Some(parameter) = LanParameter::at(byte_at(body, 1)) else {
        return LanRequest::Other(channel, LanAnswer::Unsupported);
    };
    match change_in(parameter, behind(body)) {
        Some(change) => LanRequest::Param(SetLanParam { channel, change }),
        None => LanRequest::Other(channel, LanAnswer::WrongLength),
    }
}

/// The request of Get LAN Configuration Parameters with these data.
pub fn lan_shown_in(body: &[u8]) -> LanShown
    ensures { result ≡ lan_shown_in body.now }
{
    let first = byte_at(body, 0);
    let channel = ChannelNumber::of(first);
    if has(first, REVISION_PLACE) {
        return LanShown::Other(channel, LanAnswer::Revision);
    }
    match LanParameter::at(byte_at(body, 1)) {
        Some(parameter) => LanShown::Param(ParameterOnChannel { channel, parameter }),
        None => LanShown::Other(channel, LanAnswer::Unsupported),
    }
}
