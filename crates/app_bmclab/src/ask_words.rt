//! The words behind `ask`.
ghost use Rattle.std.specs.Prelude.{◌≡◌, IfOk, IfErr};
ghost use Rattle.clap.specs.Words.{found_of, rows_of};
ghost use Rattle.app_base.specs.Line.{IsCommand};
ghost use Rattle.app_base.specs.Asked.{RefusesWords};
ghost use Rattle.app_bmclab.specs.Line.{ask_app};
ghost use Rattle.app_bmclab.specs.AskedOf.{AsksAsk};

use app_base::{Argument, Refusal, Status, all_named, given, new_command, refusal_by, word_of};
use bmc_lab::asked_request;
use clap::error::ErrorKind;
use clap::{ArgMatches, Command};
use record_base::Asked;
use std::alloc::{AllocError, Global};
use two_wire::Bus;

/// What the words of `bmclab ask` ask for.
#[derive(Drop)]
pub struct AskWords {
    /// The word of the board file, where one is given.
    pub board: Option<String>,
    pub request: Asked,
}

const ASK_ABOUT: &str =
    "Sends one request to a fresh controller, and prints its frames, the reply's code by name and its data";

const ASK_EXAMPLES: &str = "Examples:
  bmclab ask 06 01
  bmclab ask 04 27 05
  bmclab ask --bus smbus 00 02
  bmclab ask --board sample.toml 04 26 05 10 00 00 00 00 5A 00";

const BUS_HELP: &str = "The bus, as in --bus smbus:
ipmb   the request is one of IPMI; so it is where no bus is named
smbus  it is one of PLDM";

const BOARD_HELP: &str =
    "The board file, as in --board sample.toml; the sample board where none is named";

const BYTE_HELP: &str =
    "NETFN COMMAND DATA.. on IPMB, and TYPE COMMAND DATA.. on SMBus, as in 04 27 05: two hexadecimal digits for each byte, without 0x";

const ASK_ARGUMENTS: [Argument<'static>; 3] = [
    Argument::Option("bus", "BUS", BUS_HELP),
    Argument::Option("board", "FILE", BOARD_HELP),
    Argument::Several("BYTE", BYTE_HELP),
];

/// `ask [--bus ipmb|smbus] [--board FILE] BYTE..`.
pub fn ask_command<'a>(alloc: Global) -> Result<Command<'a>, AllocError>
    ensures { IfOk result (IsCommand ask_app) }
{
    new_command(alloc, "ask", ASK_ABOUT, ASK_EXAMPLES, &ASK_ARGUMENTS)
}

const REQUEST_FORM: &str =
    "invalid value for '<BYTE>...': NETFN COMMAND DATA.., where NETFN is even and below 40, with at most 25 bytes of data; with --bus smbus TYPE COMMAND DATA.., where TYPE is below 40, with at most 252; two hexadecimal digits for each byte, without 0x";

/// What is wrong with the words BUS and BYTE.. that name no request.
fn request_fault(alloc: Global, bus: Option<&str>) -> Result<String, AllocError> {
    match bus {
        Some(name) if Bus::named(name).is_none() => {
            format!(in alloc;
                "invalid value '{name}' for '--bus <BUS>'\n  [possible values: ipmb, smbus]"
            )
        }
        _ => String::from_str(alloc, REQUEST_FORM),
    }
}

/// The refusal of words BUS and BYTE.. that name no request, or for which memory was refused.
fn request_refusal(alloc: Global, status: Status, bus: Option<&str>) -> Refusal
    ensures { status ≡ Status.Memory → result ≡ Refusal.Memory }
{
    if status == Status::Memory {
        return Refusal::Memory;
    }
    match request_fault(alloc, bus) {
        Ok(fault) => {
            let command = ask_command(alloc);
            let kind = ErrorKind::InvalidValue;
            refusal_by(alloc, command, "bmclab ask", kind, fault.as_str())
        }
        Err(_) => Refusal::Memory,
    }
}

/// What the words behind `ask` ask for.
pub fn ask_words(alloc: Global, matches: &ArgMatches) -> Result<AskWords, Refusal>
    ensures asked { IfOk result (AsksAsk (rows_of (found_of matches.now))) }
    ensures refused { IfErr result (RefusesWords (AsksAsk (rows_of (found_of matches.now)))) }
{
    let bytes = all_named(alloc, matches, "BYTE")?;
    let board = given(alloc, matches, "board")?;
    let bus = word_of(matches, "bus");
    match asked_request(alloc, bus, bytes.as_slice()) {
        Ok(request) => Ok(AskWords { board, request }),
        Err(status) => Err(request_refusal(alloc, status, bus)),
    }
}
