//! The completion codes of IPMI (IPMI 2.0, table 5-2).
ghost use Rattle.std.specs.Prelude.{◌≡◌, IfSome, IfNone, None, Some, codes};
ghost use Rattle.report_words.specs.CodeNames.{ipmi_common, ipmi_name};

use crate::row::{CodeRow, OF_COMMAND, row};

/// What is said of a code that a command has for itself.
fn command_row(code: u8) -> CodeRow
    ensures { result.name.now ≡ codes "particular to a command" }
{
    match code {
        0x80 => row(
            OF_COMMAND,
            "no timer was ever set (Reset Watchdog Timer); another parameter than 0, 3, 4, 5 (boot options), or than 3, 4, 6, 12, 20 (LAN parameters); another password (test)",
            "set the timer before; name one of these parameters",
        ),
        0x81 => row(
            OF_COMMAND,
            "set in progress stands already (boot options); a password of another size (test)",
            "set boot parameter 0 to 0; test the size that was set",
        ),
        0x82 => row(
            OF_COMMAND,
            "the channel has no sessions (channel access)",
            "name a channel that has sessions",
        ),
        _ => row(
            OF_COMMAND,
            "one of the command's own",
            "look at the command in the standard",
        ),
    }
}

/// What is said of a code that commands have in common.
fn common_row(code: u8) -> Option<CodeRow>
    ensures some { IfSome result (λ row. ipmi_common code ≡ Some row.name.now) }
    ensures none { IfNone result (ipmi_common code ≡ None) }
{
    Some(match code {
        0x00 => row("completed", "it was done", ""),
        0xC0 => row(
            "node busy",
            "eight requesters have the port's windows, so a ninth gets none",
            "`idle` frees one; ask again later",
        ),
        0xC1 => row(
            "invalid command",
            "the controller hasn't got this command",
            "take one of `COMMANDS.md`; leave the step out",
        ),
        0xC2 => row("invalid for this LUN", "the LUN isn't 0", "address LUN 0"),
        0xC3 => row("timeout", "the controller took too long", "ask again"),
        0xC4 => row("out of space", "the log is full", "clear the log"),
        0xC5 => row(
            "reservation cancelled",
            "it isn't the present one",
            "reserve again",
        ),
        0xC6 => row(
            "data truncated",
            "the request's data were cut off",
            "send fewer bytes",
        ),
        0xC7 => row(
            "length of data invalid",
            "too few or too many bytes",
            "send as many as the command has",
        ),
        0xC8 => row(
            "data too long",
            "a field of the request is longer than it may be",
            "send fewer bytes",
        ),
        0xC9 => row(
            "parameter out of range",
            "an offset behind the record's end",
            "begin within the record",
        ),
        0xCA => row(
            "can't return so many bytes",
            "more than a reply has room for",
            "ask for at most 22",
        ),
        0xCB => row(
            "not present",
            "no such sensor, or no such record",
            "name one that the board has",
        ),
        0xCC => row(
            "invalid data field",
            "a value, bit or number that this board or profile doesn't take; a channel without LAN parameters",
            "look at the values that the command takes",
        ),
        0xCD => row(
            "illegal for this sensor or record",
            "the command isn't for a sensor or record of this type",
            "leave the step out",
        ),
        0xCE => row(
            "no response could be given",
            "the controller could give no response",
            "ask again",
        ),
        0xCF => row(
            "duplicated request",
            "the request came twice",
            "ask under a new number",
        ),
        0xD0 => row(
            "SDR repository in update mode",
            "the repository is being written",
            "ask again once the update is over",
        ),
        0xD1 => row(
            "firmware in update mode",
            "the firmware is being written",
            "ask again once the update is over",
        ),
        0xD2 => row(
            "initialization in progress",
            "the controller is starting",
            "ask again later",
        ),
        0xD3 => row(
            "destination unavailable",
            "the request can't be passed on to its device",
            "look whether the device is there",
        ),
        0xD4 => row(
            "insufficient privilege",
            "the user, or the channel, may not do so",
            "ask as a user who may",
        ),
        0xD5 => row(
            "not supported in this state",
            "not as the machine is now",
            "bring the machine into another state",
        ),
        0xD6 => row(
            "disabled",
            "what the command belongs to is disabled",
            "enable what the command belongs to",
        ),
        0xFF => row(
            "unspecified error",
            "the controller gives no reason",
            "look into the machine's log",
        ),
        _ => return None,
    })
}

/// What is said of a code.
pub(crate) fn ipmi_row(code: u8) -> Option<CodeRow>
    ensures some { IfSome result (λ row. ipmi_name code ≡ Some row.name.now) }
    ensures none { IfNone result (ipmi_name code ≡ None) }
{
    if 0x80 <= code && code <= 0xBE {
        return Some(command_row(code));
    }
    common_row(code)
}
