//! The board of a file that is to be served over two links, and what is told of it once it was.
ghost use Rattle.std.specs.Prelude.{◌≡◌, [], ◌∷◌, Bool, IfOk, string_bytes};
ghost use Rattle.std.specs.List.{AllZip, flat_map};
ghost use Rattle.text_lines.specs.Cuts.{ended};
ghost use Rattle.cfg_records.specs.declared.board_file.BoardFile.{BoardFile as AnyFile};
ghost use Rattle.two_wire.specs.declared.Bus.TheVariants as bus;
ghost use Rattle.bmc_board.specs.State.{state_of};
ghost use Rattle.bmc_lab.specs.Run.{IsFreshPort};
ghost use Rattle.cfg_records.specs.Changed.{changed_in};
ghost use Rattle.report_words.specs.Changes.{IsListOf, listed};
ghost use Rattle.app_serve.specs.Served.{IsListedBoard};
ghost use Rattle.app_serve.specs.Turns.{IsFreshLane};

use crate::board::controller_ports;
use crate::ends::BusLinks;
use crate::periods::PeriodState;
use crate::run::ServeWords;
use crate::tally::{FirstState, ListedBoard, ServeAccount, account, begin_listed};
use crate::wakeful_link::WakefulLink;
use app_base::ReportFault;
use bmc_core::Port;
use bmc_ports::{Lane, Lanes};
use cfg_records::BoardFile;
use std::alloc::{AllocError, Global};
use std::time::Clock;

/// Both ports with their links and as many turns as the words have for each.
fn lanes_of<'a, R: Clock>(
    ports: [Port; 2],
    ends: BusLinks<'a, R>,
    words: &ServeWords,
) -> Lanes<WakefulLink<'a, R>, WakefulLink<'a, R>>
    requires ports { AllZip IsFreshPort (bus.Ipmb ∷ bus.Smbus ∷ []) ports }
    ensures ipmb { IsFreshLane bus.Ipmb words.now.turns words.now.forget result.first }
    ensures smbus { IsFreshLane bus.Smbus words.now.turns words.now.forget result.second }
    ensures links { (result.first.link ≡ ends.entry.ipmb.link)
        × (result.second.link ≡ ends.entry.smbus.link) }
{
    let [first, second] = ports;
    let BusLinks { ipmb, smbus } = ends;
    Lanes {
        first: Lane::new(first, ipmb.link, words.turns, words.forget),
        second: Lane::new(second, smbus.link, words.turns, words.forget),
    }
}

/// A board that begins to be served over two lanes.
#[derive(Drop)]
pub(crate) struct ReadyBoard<'a, R: Clock> {
    pub begun: ListedBoard,
    pub lanes: Lanes<WakefulLink<'a, R>, WakefulLink<'a, R>>,
}

/// The board of a file, as it begins, with both ports at these ends.
pub(crate) fn ready_board<'a, R: Clock>(
    alloc: Global,
    file: BoardFile,
    ends: BusLinks<'a, R>,
    words: &ServeWords,
) -> Result<ReadyBoard<'a, R>, ReportFault>
    ensures begun { IfOk result (λ ready. IsListedBoard words.now.list file ready.begun) }
    ensures ipmb { IfOk result (λ ready.
        IsFreshLane bus.Ipmb words.now.turns words.now.forget ready.lanes.first) }
    ensures smbus { IfOk result (λ ready.
        IsFreshLane bus.Smbus words.now.turns words.now.forget ready.lanes.second) }
{
    let Ok(ports) = controller_ports(alloc) else {
        drop(file);
        drop(ends);
        return Err(ReportFault::Memory);
    };
    let lanes = lanes_of(ports, ends, words);
    match begin_listed(alloc, file, words.list) {
        Ok(begun) => Ok(ReadyBoard { begun, lanes }),
        Err(AllocError) => {
            drop(lanes);
            Err(ReportFault::Memory)
        }
    }
}

/// What is told of a board that was served, by what it began with. Both are let go.
pub(crate) fn accounted<A: Drop, B: Drop>(
    alloc: Global,
    first: FirstState,
    course: PeriodState<'_, A, B>,
) -> Result<ServeAccount, ReportFault>
    ensures events { IfOk result (λ account. account.tally.events ≡ course.entry.events) }
    ensures changed { IfOk result (λ account. account.tally.changed
        ≡ changed_in (state_of course.entry.board).records first.start.items) }
    ensures changes { IfOk result (λ account. (asked : Bool) (file : AnyFile)
        → IsListOf asked file first.list → string_bytes account.changes
        ≡ flat_map ended (listed asked file (state_of course.entry.board).records)) }
{
    let account = account(alloc, &first, &course.board, course.events);
    drop(first);
    drop(course);
    Ok(account?)
}
