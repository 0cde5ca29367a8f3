//! A board with its history, on the sample board, and a link in memory.
ghost use Rattle.std.specs.Prelude.{◌≡◌};
ghost use Rattle.bmc_board.specs.State.{state_of};

mod gates;
mod links;
mod played;
mod rooms;
mod seats;
mod times;
mod workers;

use bmc_board::{Board, Records};
use bmc_ports::{History, Opening, Seats, Shared};
use cfg_records::sample_board;
use std::alloc::Global;
use std::fmt::Debug;
use std::process::Abort;
use std::sync::ledger::Blank;

/// The sample board.
pub(crate) fn open_sample(rt: &impl Abort, alloc: Global) -> Board<Records> {
    let file = sample_board(alloc).expect(rt, "memory");
    Board::of_file(alloc, file).expect(rt, "memory")
}

/// The value of this name is the one that is wanted.
pub(crate) fn expect_equal<T: Copy + Debug + PartialEq>(
    rt: &impl Abort,
    name: &str,
    value: T,
    wanted: T,
) {
    assert_eq!(rt; value, wanted, "{name}");
}

/// The board, which threads share from here on, and their seats.
pub(crate) fn open_shared<J: Opening, R: Abort>(
    rt: &R,
    alloc: Global,
    blank: Blank,
    board: Board<Records>,
    room: usize,
) -> (Shared<J, Records>, Seats<J>)
    requires name { blank.name ≡ J.name }
    requires parts { blank.parts ≡ J.parts }
    requires three { blank.parts ≡ 3 }
    requires setup { board.setup ≡ J.setup }
    requires opening { state_of board ≡ J.opening }
    requires room { room ≡ J.room }
{
    let opened = Shared::<J, Records>::open(alloc, blank, board, room);
    opened.ok().expect(rt, "a board that is shared")
}

/// The board and its history, once nobody shares it any more.
pub(crate) fn close<J: Opening>(
    rt: &impl Abort,
    shared: Shared<J, Records>,
    seats: Seats<J>,
) -> (Board<Records>, History)
    requires three { J.parts ≡ 3 }
{
    let closed = shared.close(seats).ok();
    closed.expect(rt, "a board that is closed")
}

/// Its history alone.
pub(crate) fn history_of<J: Opening>(
    rt: &impl Abort,
    shared: Shared<J, Records>,
    seats: Seats<J>,
) -> History
    requires three { J.parts ≡ 3 }
{
    let (board, history) = close(rt, shared, seats);
    drop(board);
    history
}
