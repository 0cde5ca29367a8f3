//! How the lines of an undo text's head are written, and those of a journal.
use file_words::LineForm;

/// The lines in front of the requests in an undo text.
pub(crate) const UNDO_HEAD: [&str; 3] = [
    "undo 1 or undo 2 alone",
    "next ipmb N smbus N: numbers below 64 and below 32, without leading zeros",
    "names ipmb OWN PEER smbus OWN PEER eid OWN PEER: two hexadecimal digits each, of even numbers but for eid",
];

/// The lines of a journal.
pub(crate) const JOURNAL_LINES: [LineForm; 16] = [
    LineForm("journal", "journal 1 alone"),
    LineForm("retries", "retries and a number from 0 to 255"),
    LineForm(
        "names",
        "names and 6 bytes, two hexadecimal digits each, of which the first four are even",
    ),
    LineForm(
        "listed",
        "listed and 6 bytes, two hexadecimal digits each, of which the first four are even",
    ),
    LineForm("unlisted", "unlisted alone"),
    LineForm("steps", "steps and a number from 0 to 256"),
    LineForm(
        "ipmb",
        "ipmb and a request: netFn with its unit, command and at most 25 bytes, two hexadecimal digits each",
    ),
    LineForm(
        "smbus",
        "smbus and a request: type, command and data, two hexadecimal digits each",
    ),
    LineForm("undo", "undo and a number from 0 to 256"),
    LineForm("waiting", "waiting 0 or waiting 1"),
    LineForm(
        "stage",
        "stage, its word, and two numbers: the step, and the part or the code",
    ),
    LineForm("stop", "stop alone"),
    LineForm("go", "go alone"),
    LineForm("counts", "counts and two numbers from 0 to 65535"),
    LineForm(
        "replies",
        "replies and at least one byte, two hexadecimal digits each",
    ),
    LineForm("no", "no replies alone"),
];
