//! A board that threads share, and its seats.
ghost use Rattle.std.specs.Prelude.{◌≡◌, ◌+◌, ◌≤◌, ◌<◌, ◌^◌, ◌↔◌, true, IsTrue, IfOk, IfErr, IsOk, IsErr, IfSome, OnOk, OnErr, length};
ghost use Rattle.two_wire.specs.Sizes.{most_pldm_reply_data};
ghost use Rattle.record_base.specs.Meaning.{room_for};
ghost use Rattle.bmc_board.specs.State.{state_of};
ghost use Rattle.bmc_board.specs.Asking.{as_asked};
ghost use Rattle.bmc_shared.specs.Entries.{IsBlank};
ghost use Rattle.bmc_shared.specs.Replay.{IsReplay, IsRoom};
ghost use Rattle.bmc_shared.specs.Calls.{IsRow, IsReply, IsHappening, GainsEvent, GainsCall, ExchangesHere, KeepsHere};
ghost use Rattle.bmc_shared.specs.declared.event.Call.TheVariants.{Exchanged, Benched};
ghost use Rattle.bmc_shared.specs.declared.held.OpenFault.TheVariants.{Room};
ghost use Rattle.bmc_shared.specs.Seated.{IsFreshSeat, KeepsGiven, LeavesSeat, SeatMatches, AllMatch, calls_made};
ghost use Rattle.bmc_shared.specs.declared.shared.CloseFault.TheVariants.{Mismatch};

use crate::events::Calls;
use crate::held::{Held, OpenFault, PeriodFull};
use crate::history::History;
use crate::opening::Opening;
use crate::seat::{Seat, Seats};
use bmc_board::{AskedRef, Bench, Board, NoSensor, Reply, answered, code_of};
use cfg_records::{Answered, Asked, Store};
use std::alloc::Global;
use std::sync::ledger::{Blank, Book, Share};
use std::sync::{Mutex, Wait};
use two_wire::{Bytes, Code};

/// What lies under the lock: the board with its history, whose events a book counts.
pub struct Locked<J: Opening, S: Store> {
    held: Held<J, S>,
    book: Book<J>,
    ghost counted: { length held.history.items ≡ book.total },
}

/// A board that threads share. Each call of it holds the lock for one event of the board.
pub struct Shared<J: Opening, S: Store> {
    lock: Mutex<Locked<J, S>>,
}

impl<J: Opening, S: Store> Drop for Locked<J, S> {
    fn drop(self) {
        let Locked { held, book } = self;
        drop(held);
        drop(book);
    }
}

impl<J: Opening, S: Store> Drop for Shared<J, S> {
    fn drop(self) {
        let Shared { lock } = self;
        drop(lock);
    }
}

/// Why a board isn't closed.
#[derive(Clone, Copy, Debug, PartialEq, Eq)]
pub enum CloseFault {
    /// A seat's list isn't the history's list of that seat, or a seat was refused though the
    /// history has room.
    Mismatch,
    /// The history isn't as long as the seats' lists together. It never comes.
    Count,
}

/// Puts on a seat's list what the board answered to a request, whose data begin at `start` of the
/// reply, or marks the seat as refused.
#[inline(always)]
fn keep<B: Reply>(
    calls: &mut Calls,
    refused: &mut bool,
    asked: &AskedRef<'_>,
    given: Result<Result<(), Code>, PeriodFull>,
    reply: &B,
    start: usize,
) -> Result<Result<(), Code>, PeriodFull>
    requires room { OnOk given (length calls.old.items < calls.old.room) }
    requires start { OnOk given (start ≤ length (B.bytes reply.now)) }
    requires fits { OnOk given (length (B.bytes reply.now) ≤ start + most_pldm_reply_data) }
    ensures given { result ≡ given }
    ensures kept { KeepsGiven given calls.old calls.new asked.now start (B.bytes reply.now) }
    ensures mark { OnOk given (refused.new ≡ refused.old) }
    ensures same_list { OnErr given (calls.new.items ≡ calls.old.items) }
    ensures marked { OnErr given (refused.new ≡ true) }
    ensures list_room { calls.new.room ≡ calls.old.room }
{
    match given {
        Ok(done) => {
            let body = &reply.as_slice()[start..];
            calls.gain_exchange(asked, code_of(&done), body);
            Ok(done)
        }
        Err(full) => {
            *refused = true;
            Err(full)
        }
    }
}

impl<J: Opening, S: Store> Locked<J, S> {
    /// The board's answer to a seat's request that is looked at where it lies: the reply's data
    /// are appended, and the history gains the request and them, as the ledger counts. Where the
    /// history has no room, nothing changes. The seat's list isn't written here.
    #[inline(always)]
    pub fn answer<B: Reply>(
        &mut self,
        number: u8,
        share: &mut Share<J>,
        asked: &AskedRef<'_>,
        reply: &mut B,
    ) -> Result<Result<(), Code>, PeriodFull>
        requires room { length (B.bytes reply.old) + room_for (as_asked asked.now) ≤ B.capacity }
        requires part { share.old.parts ≡ 1 }
        ensures exchanged { IfOk result (λ given.
            ExchangesHere J.setup self.old.held.board self.new.held.board
            self.old.held.history.items self.new.held.history.items number
            (as_asked asked.now) given (B.bytes reply.old) (B.bytes reply.new)) }
        ensures full { IsErr result ↔ (length self.old.held.history.items ≡ J.room) }
        ensures same { OnErr result (self.new.held ≡ self.old.held) }
        ensures nothing { OnErr result (B.bytes reply.new ≡ B.bytes reply.old) }
        ensures counted { OnOk result (share.new.amount ≡ share.old.amount + 1) }
        ensures uncounted { OnErr result (share.new.amount ≡ share.old.amount) }
        ensures place { OnOk result (share.old.amount < J.room) }
        ensures part { share.new.parts ≡ 1 }
    {
        let Locked { held, book } = self;
        book.audit(share);
        match held.exchange_into(number, asked, reply) {
            Ok(given) => {
                book.add(share, 1);
                Ok(given)
            }
            Err(full) => Err(full),
        }
    }

    /// The board's answer to a request that is looked at where it lies: the reply's data are
    /// appended, and the history and the seat's list gain the request and them. Where the history
    /// has no room, the seat is marked as refused, and nothing else changes.
    pub fn exchange_into<B: Reply>(
        &mut self,
        seat: &mut Seat<J>,
        asked: &AskedRef<'_>,
        reply: &mut B,
    ) -> Result<Result<(), Code>, PeriodFull>
        requires room { length (B.bytes reply.old) + room_for (as_asked asked.now) ≤ B.capacity }
        ensures exchanged { IfOk result (λ given.
            ExchangesHere J.setup self.old.held.board self.new.held.board
            self.old.held.history.items self.new.held.history.items seat.old.number
            (as_asked asked.now) given (B.bytes reply.old) (B.bytes reply.new)) }
        ensures full { IsErr result ↔ (length self.old.held.history.items ≡ J.room) }
        ensures same { OnErr result (self.new.held ≡ self.old.held) }
        ensures nothing { OnErr result (B.bytes reply.new ≡ B.bytes reply.old) }
        ensures kept { IfOk result (λ given.
            KeepsHere seat.old.calls.items seat.new.calls.items (as_asked asked.now)
            given (B.bytes reply.old) (B.bytes reply.new)) }
        ensures seat { LeavesSeat result seat.old seat.new }
    {
        let Seat {
            number,
            calls,
            refused,
            share,
        } = seat;
        let start = reply.as_slice().len();
        let given = self.answer(*number, share, asked, reply);
        keep(calls, refused, asked, given, reply, start)
    }

    /// The board's answer to a request, which the history and the seat's list gain. Where the
    /// history has no room, the seat is marked as refused, and nothing else changes.
    pub fn exchange(&mut self, seat: &mut Seat<J>, asked: &Asked) -> Result<Answered, PeriodFull>
        ensures row { IfOk result
            (IsRow J.setup self.old.held.board self.new.held.board asked.now) }
        ensures answer { IfOk result
            (IsReply J.setup self.old.held.board self.new.held.board asked.now) }
        ensures fits { IfOk result (λ answered. length answered.body ≤ room_for asked.now) }
        ensures history { IfOk result (λ answered.
            GainsEvent self.old.held.history.items self.new.held.history.items
            seat.old.number (Exchanged asked.now answered)) }
        ensures full { IsErr result ↔ (length self.old.held.history.items ≡ J.room) }
        ensures same { OnErr result (self.new.held ≡ self.old.held) }
        ensures kept { IfOk result (λ answered.
            GainsCall seat.old.calls.items seat.new.calls.items (Exchanged asked.now answered)) }
        ensures seat { LeavesSeat result seat.old seat.new }
    {
        let mut body = Bytes::new();
        match self.exchange_into(seat, &AskedRef::of(asked), &mut body) {
            Ok(given) => Ok(answered(given, body)),
            Err(full) => Err(full),
        }
    }

    /// Something happens on the board beside requests, and the history and the seat's list gain it.
    /// Where the history has no room, the seat is marked as refused, and nothing else changes.
    pub fn bench(
        &mut self,
        seat: &mut Seat<J>,
        bench: Bench,
    ) -> Result<Result<(), NoSensor>, PeriodFull>
        ensures answer { IfOk result
            (IsHappening J.setup self.old.held.board self.new.held.board bench) }
        ensures history { IfOk result (λ answered.
            GainsEvent self.old.held.history.items self.new.held.history.items
            seat.old.number (Benched bench answered)) }
        ensures full { IsErr result ↔ (length self.old.held.history.items ≡ J.room) }
        ensures same { OnErr result (self.new.held ≡ self.old.held) }
        ensures kept { IfOk result (λ answered.
            GainsCall seat.old.calls.items seat.new.calls.items (Benched bench answered)) }
        ensures seat { LeavesSeat result seat.old seat.new }
    {
        let Locked { held, book } = self;
        let Seat {
            number,
            calls,
            refused,
            share,
        } = seat;
        book.audit(share);
        match held.bench(*number, bench) {
            Ok(answered) => {
                book.add(share, 1);
                calls.gain_bench(&bench, answered);
                Ok(answered)
            }
            Err(full) => {
                *refused = true;
                Err(full)
            }
        }
    }
}

/// Room for each seat's list.
fn lists(alloc: Global, room: usize) -> Option<(Calls, Calls, Calls)>
    ensures first { IfSome result (λ lists. IsBlank room lists.0) }
    ensures second { IfSome result (λ lists. IsBlank room lists.1) }
    ensures scanner { IfSome result (λ lists. IsBlank room lists.2) }
{
    let Ok(first) = Calls::open(alloc, room) else {
        return None;
    };
    let Ok(second) = Calls::open(alloc, room) else {
        return None;
    };
    let Ok(scanner) = Calls::open(alloc, room) else {
        return None;
    };
    Some((first, second, scanner))
}

/// The book of a new ledger, and seats with these lists, which have its shares.
fn seated<J: Opening>(blank: Blank, lists: (Calls, Calls, Calls)) -> (Book<J>, Seats<J>)
    requires name { blank.name ≡ J.name }
    requires parts { blank.parts ≡ J.parts }
    requires three { blank.parts ≡ 3 }
    requires first { IsBlank J.room lists.0 }
    requires second { IsBlank J.room lists.1 }
    requires scanner { IsBlank J.room lists.2 }
    ensures total { result.0.total ≡ 0 }
    ensures first { IsFreshSeat result.1.first }
    ensures second { IsFreshSeat result.1.second }
    ensures scanner { IsFreshSeat result.1.scanner }
{
    let (first, second, scanner) = lists;
    let (book, mut whole) = blank.open::<J>();
    let seats = Seats {
        second: Seat::new(1, second, whole.split_off(1, 0)),
        scanner: Seat::new(2, scanner, whole.split_off(1, 0)),
        first: Seat::new(0, first, whole),
    };
    (book, seats)
}

impl<J: Opening, S: Store + Drop> Shared<J, S> {
    /// A board to be shared, and its seats. All memory is taken here.
    pub fn open(
        alloc: Global,
        blank: Blank,
        board: Board<S>,
        room: usize,
    ) -> Result<(Self, Seats<J>), (OpenFault, Blank, Board<S>)>
        requires name { blank.name ≡ J.name }
        requires parts { blank.parts ≡ J.parts }
        requires three { blank.parts ≡ 3 }
        requires setup { board.setup ≡ J.setup }
        requires opening { state_of board ≡ J.opening }
        requires room { room ≡ J.room }
        ensures first { IfOk result (λ opened. IsFreshSeat opened.1.first) }
        ensures second { IfOk result (λ opened. IsFreshSeat opened.1.second) }
        ensures scanner { IfOk result (λ opened. IsFreshSeat opened.1.scanner) }
        ensures within { OnOk result (IsRoom room) }
        ensures room { IfErr result (λ e. (e.0 ≡ Room) ↔ ¬ IsRoom room) }
        ensures back { IfErr result (λ e. (e.1 ≡ blank) × (e.2 ≡ board)) }
    {
        let held = match Held::open(alloc, board, room) {
            Ok(held) => held,
            Err((fault, board)) => return Err((fault, blank, board)),
        };
        let Some(lists) = lists(alloc, room) else {
            let (board, _) = held.into_parts();
            return Err((OpenFault::Memory, blank, board));
        };
        let (book, seats) = seated(blank, lists);
        let lock = Mutex::new(Locked { held, book });
        Ok((Shared { lock }, seats))
    }

    /// Waits for the lock, and has the board answer a request. What it answers is
    /// `Locked::exchange`'s.
    pub fn exchange<R: Wait>(
        &self,
        rt: &R,
        seat: &mut Seat<J>,
        asked: &Asked,
    ) -> Result<Answered, PeriodFull>
        ensures fits { IfOk result (λ answered. length answered.body ≤ room_for asked.now) }
        ensures kept { IfOk result (λ answered.
            GainsCall seat.old.calls.items seat.new.calls.items (Exchanged asked.now answered)) }
        ensures seat { LeavesSeat result seat.old seat.new }
    {
        self.lock.lock(rt).exchange(seat, asked)
    }

    /// Waits for the lock, and has the board answer a request that is looked at where it lies. What
    /// it answers is `Locked::exchange_into`'s. The lock is held while the board answers and its
    /// history gains that; the seat's list is written behind it.
    pub fn exchange_into<B: Reply, R: Wait>(
        &self,
        rt: &R,
        seat: &mut Seat<J>,
        asked: &AskedRef<'_>,
        reply: &mut B,
    ) -> Result<Result<(), Code>, PeriodFull>
        requires room { length (B.bytes reply.old) + room_for (as_asked asked.now) ≤ B.capacity }
        ensures nothing { OnErr result (B.bytes reply.new ≡ B.bytes reply.old) }
        ensures kept { IfOk result (λ given.
            KeepsHere seat.old.calls.items seat.new.calls.items (as_asked asked.now)
            given (B.bytes reply.old) (B.bytes reply.new)) }
        ensures seat { LeavesSeat result seat.old seat.new }
    {
        let Seat {
            number,
            calls,
            refused,
            share,
        } = seat;
        let start = reply.as_slice().len();
        let given = self.lock.lock(rt).answer(*number, share, asked, reply);
        keep(calls, refused, asked, given, reply, start)
    }

    /// Waits for the lock, and has something happen on the board beside requests. What it answers
    /// is `Locked::bench`'s.
    pub fn bench<R: Wait>(
        &self,
        rt: &R,
        seat: &mut Seat<J>,
        bench: Bench,
    ) -> Result<Result<(), NoSensor>, PeriodFull>
        ensures kept { IfOk result (λ answered.
            GainsCall seat.old.calls.items seat.new.calls.items (Benched bench answered)) }
        ensures seat { LeavesSeat result seat.old seat.new }
    {
        self.lock.lock(rt).bench(seat, bench)
    }

    /// The board and its history, where the seats' lists are the history's. It takes no lock, since
    /// nobody shares the board any more. On a fault the board isn't handed back.
    pub fn close(self, seats: Seats<J>) -> Result<(Board<S>, History), CloseFault>
        requires three { J.parts ≡ 3 }
        ensures setup { IfOk result (λ closed. closed.0.setup ≡ J.setup) }
        ensures replays { IfOk result (λ closed.
            IsReplay J.setup J.opening closed.1 (state_of closed.0)) }
        ensures within { IfOk result (λ closed. length closed.1 ≤ J.room) }
        ensures first { IfOk result (λ closed. SeatMatches J.room closed.1 0 seats.first) }
        ensures second { IfOk result (λ closed. SeatMatches J.room closed.1 1 seats.second) }
        ensures scanner { IfOk result (λ closed. SeatMatches J.room closed.1 2 seats.scanner) }
        ensures counted { IfOk result (λ closed. length closed.1 ≡ calls_made seats) }
        ensures fault { IfErr result (λ fault. fault ≡ Mismatch) }
    {
        let Shared { lock } = self;
        lock.into_inner().close(seats)
    }
}

impl<J: Opening, S: Store + Drop> Locked<J, S> {
    /// The board and its history, exactly where each seat's list is the history's of that seat, and
    /// the history is full where a seat was refused.
    pub fn close(self, seats: Seats<J>) -> Result<(Board<S>, History), CloseFault>
        requires three { J.parts ≡ 3 }
        ensures exact { IsOk result ↔ AllMatch J.room self.held.history.items seats }
        ensures fault { IfErr result (λ fault. fault ≡ Mismatch) }
        ensures board { IfOk result (λ closed. closed.0 ≡ self.held.board) }
        ensures history { IfOk result (λ closed. closed.1 ≡ self.held.history.items) }
        ensures setup { IfOk result (λ closed. closed.0.setup ≡ J.setup) }
        ensures replays { IfOk result (λ closed.
            IsReplay J.setup J.opening closed.1 (state_of closed.0)) }
        ensures within { IfOk result (λ closed. length closed.1 ≤ J.room) }
        ensures counted { length self.held.history.items ≡ calls_made seats }
    {
        let matches = self.matches(&seats);
        let Locked { held, mut book } = self;
        let calls = count_calls(&mut book, seats);
        if !matches {
            drop(held);
            return Err(CloseFault::Mismatch);
        }
        if held.len() != calls {
            drop(held);
            return Err(CloseFault::Count);
        }
        Ok(held.into_parts())
    }

    /// Whether each seat's list is the history's of that seat, and the history is full where a seat
    /// was refused.
    fn matches(&self, seats: &Seats<J>) -> bool
        ensures { IsTrue result ↔ AllMatch J.room self.now.held.history.items seats.now }
    {
        let Seats {
            first,
            second,
            scanner,
        } = seats;
        self.held.matches(0, first.calls(), first.was_refused())
            && self.held.matches(1, second.calls(), second.was_refused())
            && self.held.matches(2, scanner.calls(), scanner.was_refused())
    }
}

/// How many calls the seats made, by their lists. Their shares are all of the ledger, so the book
/// has counted as many.
fn count_calls<J: Opening>(book: &mut Book<J>, seats: Seats<J>) -> usize
    requires three { J.parts ≡ 3 }
    requires fits { book.old.total < 2 ^ 64 }
    ensures calls { result ≡ calls_made seats }
    ensures counted { book.old.total ≡ calls_made seats }
{
    let Seats {
        first,
        second,
        scanner,
    } = seats;
    let (first, mut all) = first.close();
    let (second, share) = second.close();
    all.merge(share);
    let (scanner, share) = scanner.close();
    all.merge(share);
    book.audit(&mut all);
    first + second + scanner
}
