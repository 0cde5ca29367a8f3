//! Requests of the commands of the system boot options, from their data.
ghost use Rattle.std.specs.Prelude.{◌≡◌, drop};
ghost use Rattle.watch_boot.specs.BootRequests as requests;

use record_base::mask::has;
use record_base::{BootChange, BootFlags, BootParameter, MaskedBits, SetBootParam, byte_at};
use two_wire::Code;
use two_wire::code::INVALID_LENGTH;

/// A request of Set System Boot Options.
#[derive(Clone, Copy)]
pub enum BootRequest {
    /// Parameter 0, set in progress, becomes this byte, or stays where there is none.
    Progress(Option<u8>),
    /// Another parameter changes.
    Param(SetBootParam),
}

/// A request of Get System Boot Options.
#[derive(Clone, Copy)]
pub enum BootShown {
    /// Parameter 0, set in progress.
    Progress,
    /// Another parameter.
    Param(BootParameter),
}

/// The bit beside a selector that marks its parameter as invalid.
const INVALID_PLACE: usize = 7;

/// The code of a parameter that isn't one of the controller's (IPMI 2.0, Set and Get System Boot Options).
const UNSUPPORTED_PARAMETER: u8 = 0x80;

/// The code of an unsupported parameter.
fn unsupported_parameter() -> Code
    ensures { result ≡ requests.unsupported_parameter }
{
    Code::new(UNSUPPORTED_PARAMETER).unwrap()
}

/// The request on parameter 0, from the data behind the selector.
fn progress_in(rest: &[u8]) -> Result<BootRequest, Code>
    ensures { result ≡ requests.progress_in rest.now }
{
    match rest {
        [] => Ok(BootRequest::Progress(None)),
        [byte] => Ok(BootRequest::Progress(Some(*byte))),
        _ => Err(INVALID_LENGTH),
    }
}

/// The change of another parameter. Without data, a Set sets the parameter's mark alone.
fn change_in(parameter: BootParameter, rest: &[u8]) -> Result<BootChange, Code>
    ensures { result ≡ requests.change_in parameter rest.now }
{
    Ok(match (parameter, rest) {
        (_, []) => BootChange::MarkAlone(parameter),
        (BootParameter::ValidBitClearing, [byte]) => BootChange::ValidBitClearing(*byte),
        (BootParameter::InfoAcknowledge, [mask, bits]) => BootChange::InfoAcknowledge(MaskedBits {
            mask: *mask,
            bits: *bits,
        }),
        (BootParameter::Flags, [validity, device, console, overrides, instance]) => {
            BootChange::Flags(BootFlags {
                validity: *validity,
                device: *device,
                console: *console,
                overrides: *overrides,
                instance: *instance,
            })
        }
        _ => return Err(INVALID_LENGTH),
    })
}

/// The data behind the first byte.
fn behind(body: &[u8]) -> &[u8]
    ensures { result.now ≡ drop 1 body.now }
{
    match body {
        [_, rest @ ..] => rest,
        [] => body,
    }
}

/// The request of Set System Boot Options with these data. It checks the selector first, and then the number of bytes behind the
/// selector.
pub fn boot_request_in(body: &[u8]) -> Result<BootRequest, Code>
    ensures { result ≡ requests.boot_request_in body.now }
{
    let first = byte_at(body, 0);
    let number = first & 0x7F;
    if number == 0 {
        return progress_in(behind(body));
    }
    let Some(parameter) = BootParameter::at(number) else {
        return Err(unsupported_parameter());
    };
    let change = change_in(parameter, behind(body))?;
    Ok(BootRequest::Param(SetBootParam {
        invalid: has(first, INVALID_PLACE),
        change,
    }))
}

/// The request of Get System Boot Options with these data.
pub fn boot_shown_in(body: &[u8]) -> Result<BootShown, Code>
    ensures { result ≡ requests.boot_shown_in body.now }
{
    let number = byte_at(body, 0) & 0x7F;
    if number == 0 {
        return Ok(BootShown::Progress);
    }
    match BootParameter::at(number) {
        Some(parameter) => Ok(BootShown::Param(parameter)),
        None => Err(unsupported_parameter()),
    }
}
