//! A board with its history.
ghost use Rattle.std.specs.Prelude.{◌≡◌, ◌+◌, ◌≤◌, ◌<◌, ◌↔◌, [], IfOk, IfErr, OnOk, OnErr, IsErr, IsTrue, length};
ghost use Rattle.record_base.specs.Meaning.{room_for};
ghost use Rattle.bmc_board.specs.State.{state_of};
ghost use Rattle.bmc_board.specs.Asking.{as_asked};
ghost use Rattle.bmc_shared.specs.Replay.{IsReplay, IsRoom};
ghost use Rattle.bmc_shared.specs.Matching.{MatchesHistory};
ghost use Rattle.bmc_shared.specs.Calls.{IsRow, IsReply, IsHappening, GainsEvent, ExchangesHere};
ghost use Rattle.bmc_shared.specs.ReplayLaws.{Replays-prop, same_file-prop};
ghost use Rattle.bmc_shared.specs.declared.event.Call.TheVariants.{Exchanged, Benched};
ghost use Rattle.bmc_shared.specs.declared.held.OpenFault.TheVariants.{Room};

use crate::events::{Calls, Events};
use crate::history::{History, are_calls};
use crate::opening::Opening;
use bmc_board::{AskedRef, Bench, Board, NoSensor, Reply, answer_into, answered, code_of};
use cfg_records::{Answered, Asked, Store};
use std::alloc::Global;
use std::marker::PhantomData;
use two_wire::{Bytes, Code};

/// The most events that a history may have room for.
pub const MOST_EVENTS: usize = 4_096;

/// Why a board isn't opened.
#[derive(Clone, Copy, Debug, PartialEq, Eq)]
pub enum OpenFault {
    Memory,
    /// There would be room for no event, or for over `MOST_EVENTS`.
    Room,
}

/// The history has no room for another event.
#[derive(Clone, Copy, Debug, PartialEq, Eq)]
pub struct PeriodFull;

/// A board, and the history that led to it from the board that it opened with. How long the history is stands in front, next to the lock that is
/// round both: the two are written in each hold of the lock, and a line of the processor's cache that two threads write moves between them.
pub struct Held<J: Opening, S: Store> {
    history: Events,
    room: usize,
    board: Board<S>,
    of: PhantomData<J>,
    ghost setup: { board.setup ≡ J.setup } by { same_file-prop board.setup J.setup },
    ghost room_is: { room ≡ J.room },
    ghost within: { length history.items ≤ room },
    ghost roomy: { history.room ≡ room },
    ghost replays: { IsReplay J.setup J.opening history.items
        (state_of board) } by { Replays-prop J.setup J.opening history.items
            (state_of board) },
}

// Written out: the crates above would prove a derived one anew.
impl<J: Opening, S: Store> Drop for Held<J, S> {
    fn drop(self) {
        let Held {
            history,
            room: _,
            board,
            of: _,
        } = self;
        drop(history);
        drop(board);
    }
}

impl<J: Opening, S: Store> Held<J, S> {
    /// A board with no history yet. All memory is taken here.
    pub fn open(alloc: Global, board: Board<S>, room: usize) -> Result<Self, (OpenFault, Board<S>)>
        requires setup { board.setup ≡ J.setup }
        requires opening { state_of board ≡ J.opening }
        requires room { room ≡ J.room }
        ensures board { IfOk result (λ held. held.board ≡ board) }
        ensures history { IfOk result (λ held. held.history.items ≡ []) }
        ensures within { OnOk result (IsRoom room) }
        ensures room { IfErr result (λ e. (e.0 ≡ Room) ↔ ¬ IsRoom room) }
        ensures back { IfErr result (λ e. e.1 ≡ board) }
    {
        if room < 1 || room > MOST_EVENTS {
            return Err((OpenFault::Room, board));
        }
        match Events::open(alloc, room) {
            Ok(history) => Ok(Held {
                board,
                history,
                room,
                of: PhantomData,
            }),
            Err(_) => Err((OpenFault::Memory, board)),
        }
    }

    /// How many events there are.
    pub fn len(&self) -> usize
        ensures { result ≡ length self.now.history.items }
    {
        self.history.len()
    }

    /// Whether there is no room for another event.
    pub fn is_full(&self) -> bool
        ensures { IsTrue result ↔ (length self.now.history.items ≡ self.now.room) }
    {
        self.history.len() == self.room
    }

    /// The events, in order.
    pub fn events(&self) -> &Events
        ensures { result.now.items ≡ self.now.history.items }
    {
        &self.history
    }

    /// Whether a seat's list is the history's of that seat, and the history is full where the seat
    /// was refused.
    pub fn matches(&self, seat: u8, calls: &Calls, refused: bool) -> bool
        ensures { IsTrue result ↔
            MatchesHistory J.room self.now.history.items seat calls.now.items refused }
    {
        (!refused || self.is_full()) && are_calls(&self.history, seat, calls)
    }

    /// The board, and the history that leads to it.
    pub fn into_parts(self) -> (Board<S>, History)
        ensures board { result.0 ≡ self.board }
        ensures history { result.1 ≡ self.history.items }
        ensures setup { result.0.setup ≡ J.setup }
        ensures replays { IsReplay J.setup J.opening result.1 (state_of result.0) }
        ensures within { length result.1 ≤ J.room }
    {
        let Held {
            board,
            history,
            room: _,
            of: _,
        } = self;
        (board, History::new(history))
    }

    /// Has the board answer a request where it lies, and adds that to the history.
    #[inline(always)]
    fn answer<B: Reply>(
        &mut self,
        port: u8,
        asked: &AskedRef<'_>,
        reply: &mut B,
    ) -> Result<(), Code>
        requires room { length (B.bytes reply.old) + room_for (as_asked asked.now) ≤ B.capacity }
        requires place { length self.old.history.items < self.old.room }
        ensures { ExchangesHere J.setup self.old.board self.new.board
            self.old.history.items self.new.history.items port (as_asked asked.now)
            result (B.bytes reply.old) (B.bytes reply.new) }
    {
        let Held {
            board,
            history,
            room: _,
            of: _,
        } = self;
        let start = reply.as_slice().len();
        let given = answer_into(board, asked, reply);
        history.gain_exchange(port, asked, code_of(&given), &reply.as_slice()[start..]);
        given
    }

    /// The board's answer to a request that is looked at where it lies: the reply's data are
    /// appended, and the history gains the request and them. It takes no memory. Where the
    /// history has no room, nothing changes.
    #[inline(always)]
    pub fn exchange_into<B: Reply>(
        &mut self,
        port: u8,
        asked: &AskedRef<'_>,
        reply: &mut B,
    ) -> Result<Result<(), Code>, PeriodFull>
        requires room { length (B.bytes reply.old) + room_for (as_asked asked.now) ≤ B.capacity }
        ensures exchanged { IfOk result (λ given.
            ExchangesHere J.setup self.old.board self.new.board
            self.old.history.items self.new.history.items port (as_asked asked.now)
            given (B.bytes reply.old) (B.bytes reply.new)) }
        ensures full { IsErr result ↔ (length self.old.history.items ≡ J.room) }
        ensures same { OnErr result (self.new ≡ self.old) }
        ensures nothing { OnErr result (B.bytes reply.new ≡ B.bytes reply.old) }
    {
        if self.is_full() {
            return Err(PeriodFull);
        }
        Ok(self.answer(port, asked, reply))
    }

    /// The board's answer to a request, which the history gains. It takes no memory. Where the
    /// history has no room, nothing changes.
    #[inline(always)]
    pub fn exchange(&mut self, port: u8, asked: &Asked) -> Result<Answered, PeriodFull>
        ensures row { IfOk result
            (IsRow J.setup self.old.board self.new.board asked.now) }
        ensures answer { IfOk result
            (IsReply J.setup self.old.board self.new.board asked.now) }
        ensures fits { IfOk result (λ answered. length answered.body ≤ room_for asked.now) }
        ensures history { IfOk result (λ answered.
            GainsEvent self.old.history.items self.new.history.items
            port (Exchanged asked.now answered)) }
        ensures full { IsErr result ↔ (length self.old.history.items ≡ J.room) }
        ensures same { OnErr result (self.new ≡ self.old) }
    {
        let mut body = Bytes::new();
        match self.exchange_into(port, &AskedRef::of(asked), &mut body) {
            Ok(given) => Ok(answered(given, body)),
            Err(full) => Err(full),
        }
    }

    /// Has something happen on the board, and adds that to the history.
    fn happen(&mut self, port: u8, bench: &Bench) -> Result<(), NoSensor>
        requires { length self.old.history.items < self.old.room }
        ensures answer { IsHappening J.setup self.old.board self.new.board
            bench.now result }
        ensures history { GainsEvent self.old.history.items self.new.history.items
            port (Benched bench.now result) }
    {
        let Held {
            board,
            history,
            room: _,
            of: _,
        } = self;
        let answered = board.bench(*bench);
        history.gain_bench(port, bench, answered);
        answered
    }

    /// Something happens on the board beside requests, and the history gains it. It takes no
    /// memory. Where the history has no room, nothing changes.
    pub fn bench(&mut self, port: u8, bench: Bench) -> Result<Result<(), NoSensor>, PeriodFull>
        ensures answer { IfOk result
            (IsHappening J.setup self.old.board self.new.board bench) }
        ensures history { IfOk result (λ answered.
            GainsEvent self.old.history.items self.new.history.items
            port (Benched bench answered)) }
        ensures full { IsErr result ↔ (length self.old.history.items ≡ J.room) }
        ensures same { OnErr result (self.new ≡ self.old) }
    {
        if self.is_full() {
            return Err(PeriodFull);
        }
        Ok(self.happen(port, &bench))
    }
}
