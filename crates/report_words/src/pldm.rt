//! The completion codes of PLDM (DSP0240, and for a command's own codes DSP0247 and DSP0248).
ghost use Rattle.std.specs.Prelude.{◌≡◌, IfSome, IfNone, None, Some, codes};
ghost use Rattle.report_words.specs.CodeNames.{pldm_common, pldm_name};

use crate::row::{CodeRow, OF_COMMAND, row};

/// What is said of a code that a command has for itself.
fn command_row(code: u8) -> CodeRow
    ensures { result.name.now ≡ codes "particular to a command" }
{
    match code {
        0x80 => row(
            OF_COMMAND,
            "no such effecter",
            "name one that the board has",
        ),
        0x81 => row(
            OF_COMMAND,
            "the field can't be in that state",
            "name a state that the field can be in",
        ),
        0x83 => row(
            OF_COMMAND,
            "there is no such table",
            "give the board attributes",
        ),
        0x85 => row(
            OF_COMMAND,
            "the table's number is above 3",
            "ask for table 0, 1 or 2",
        ),
        0x88 => row(
            OF_COMMAND,
            "no such attribute",
            "name one that the board has",
        ),
        _ => row(
            OF_COMMAND,
            "one of the command's own",
            "look at the command in the standard",
        ),
    }
}

/// What is said of a code that commands have in common.
fn common_row(code: u8) -> Option<CodeRow>
    ensures some { IfSome result (λ row. pldm_common code ≡ Some row.name.now) }
    ensures none { IfNone result (pldm_common code ≡ None) }
{
    Some(match code {
        0x00 => row("success", "it was done", ""),
        0x01 => row(
            "error",
            "eight other requesters have strings on their way in parts. A requester's own last part ends one, and nothing else, no `idle` and no `--forget`",
            "have one of them send its last part, or begin a new `serve`",
        ),
        0x02 => row(
            "invalid data",
            "a value, flag, handle or type that isn't taken",
            "look at the values that the command takes",
        ),
        0x03 => row(
            "invalid length",
            "too few or too many bytes",
            "send as many as the command has",
        ),
        0x04 => row(
            "not ready",
            "eight endpoints have the port's windows",
            "`idle` frees one; ask again later",
        ),
        0x05 => row(
            "unsupported command",
            "the controller hasn't got this command",
            "take one of `COMMANDS.md`; leave the step out",
        ),
        0x20 => row(
            "invalid type",
            "the type isn't 0, 2 or 3",
            "name one of these",
        ),
        _ => return None,
    })
}

/// What is said of a code.
pub(crate) fn pldm_row(code: u8) -> Option<CodeRow>
    ensures some { IfSome result (λ row. pldm_name code ≡ Some row.name.now) }
    ensures none { IfNone result (pldm_name code ≡ None) }
{
    if 0x80 <= code {
        return Some(command_row(code));
    }
    common_row(code)
}
