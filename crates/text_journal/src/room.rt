//! How long the text of a journal becomes.
ghost use Rattle.std.specs.Prelude.{◌≤◌, ◌^◌};

use record_base::Op;
use two_wire::size::MOST_IPMI_REQUEST_DATA;
use undo_plans::{MOST_UNDO_DATA, Steps};

/// How many bytes more the lines behind the lists have at most: by the digits of the stage and of both counts, and by the replies to an open Get.
const STATE_GROWTH: usize = 64 + 2 * MOST_UNDO_DATA;

/// How many bytes a request's line has at most beside the digits of its data: the name of its bus, four digits and the line's end.
const AROUND_DATA: usize = 11;

/// How many bytes the line of a request has at most that undoes this step.
fn most_of_line(op: &Op<'_>) -> usize
    ensures { result ≤ 2 ^ 12 }
{
    match op {
        Op::BiosAttribute(_) => AROUND_DATA + 2 * MOST_UNDO_DATA,
        _ => AROUND_DATA + 2 * MOST_IPMI_REQUEST_DATA,
    }
}

/// How many bytes more the text of a manager's journal comes to have at most, from the first one on, where these are the steps of its plan. A
/// text that is longer takes more memory: no contract rests on this.
pub fn journal_growth(steps: &Steps) -> usize {
    let mut growth = STATE_GROWTH;
    for place in 0..steps.len() {
        let op = steps.get(place).unwrap();
        growth += most_of_line(&op);
    }
    growth
}
