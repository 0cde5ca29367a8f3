//! A controller and a manager side by side: the controller's workers are threads, and the manager is driven beside them.
ghost use Rattle.std.specs.Prelude.{◌≡◌, IfOk, IfSome};
ghost use Rattle.bmc_board.specs.State.{state_of};
ghost use Rattle.undo_plans.specs.declared.plan.Plan.{Plan};
ghost use Rattle.app_serve.specs.Served.{IsServedBoard, most_events};
ghost use Rattle.app_pair.specs.Paired.{IsReady, RunsAndUndoes};

use crate::links::BusLinks;
use app_base::ReportFault;
use app_run::{run_plan, undo_plan};
use app_serve::{ClosedBoard, MOST_EVENTS, close_board, open_board, work};
use bmc_board::{Board, Records};
use bmc_core::Port;
use bmc_ports::{NoThread, Opening, Seats, Shared};
use std::alloc::Global;
use std::marker::Brand;
use std::sync::Wait;
use std::sync::ledger::Blank;
use std::thread;
use std::thread::Threads;
use undo_core::{Manager, Phase};

/// The manager's phases: once it ran its plan, and once it undid it.
#[derive(Clone, Copy)]
pub(crate) struct Phases {
    pub run: Phase,
    pub undone: Phase,
}

/// A controller's ports on both buses, and its ends of the links.
#[derive(Drop)]
pub(crate) struct Controller {
    pub ports: [Port; 2],
    pub ends: BusLinks,
}

/// A manager, and its ends of the links.
#[derive(Drop)]
pub(crate) struct Driver {
    pub manager: Manager,
    pub ends: BusLinks,
}

/// What came of both: the manager's phases, and the board with its history, where the serving came to an end.
#[derive(Drop)]
pub(crate) struct Paired {
    pub phases: Phases,
    pub served: Option<ClosedBoard>,
}

/// Runs the manager's plan, and undoes it, with so many turns for each.
fn run_and_undo(driver: Driver, turns: u32) -> Phases
    ensures { (plan : Plan) → IsReady plan driver
        → RunsAndUndoes plan turns result.run result.undone }
{
    let Driver { mut manager, ends } = driver;
    let BusLinks {
        mut ipmb,
        mut smbus,
    } = ends;
    let run = run_plan(&mut manager, &mut ipmb, &mut smbus, turns);
    let undone = undo_plan(&mut manager, &mut ipmb, &mut smbus, turns);
    drop(manager);
    drop(ipmb);
    drop(smbus);
    Phases { run, undone }
}

/// Serves the controller's ports.
fn serve_ports<J, R>(
    rt: &R,
    shared: &Shared<J, Records>,
    seats: Seats<J>,
    controller: Controller,
    turns: u32,
) -> Result<Seats<J>, NoThread>
where
    J: Opening + Send + Sync,
    R: Threads + Wait + Sync,
{
    let Controller { ports, ends } = controller;
    let BusLinks {
        mut ipmb,
        mut smbus,
    } = ends;
    let served = work(rt, shared, seats, ports, &mut ipmb, &mut smbus, turns);
    drop(ipmb);
    drop(smbus);
    served
}

/// Drives the manager beside a thread that serves the ports, or gives nothing where no thread can be started.
fn side_by_side<J, R>(
    rt: &R,
    shared: &Shared<J, Records>,
    seats: Seats<J>,
    controller: Controller,
    driver: Driver,
    turns: u32,
) -> Option<(Phases, Result<Seats<J>, NoThread>)>
where
    J: Opening + Send + Sync,
    R: Threads + Wait + Sync,
    ensures { (plan : Plan) → IsReady plan driver
        → IfSome result (λ both. RunsAndUndoes plan turns both.0.run both.0.undone) }
{
    thread::scope(
        thread::scope_env(),
        rt,
        |scope| -> Option<(Phases, Result<Seats<J>, NoThread>)>
            ensures { (plan : Plan) → IsReady plan driver
                → IfSome result (λ both. RunsAndUndoes plan turns both.0.run both.0.undone) }
        {
            let Ok(serving) = scope.spawn(move || -> Result<Seats<J>, NoThread> {
                serve_ports(rt, shared, seats, controller, turns)
            }) else {
                drop(driver);
                return None;
            };
            let phases = run_and_undo(driver, turns);
            Some((phases, serving.join(rt)))
        },
    )
}

/// Serves a board that is shared beside a manager, and closes it.
fn pair_shared<J, R>(
    rt: &R,
    shared: Shared<J, Records>,
    seats: Seats<J>,
    controller: Controller,
    driver: Driver,
    turns: u32,
) -> Result<Paired, ReportFault>
where
    J: Opening + Send + Sync,
    R: Threads + Wait + Sync,
    requires three { J.parts ≡ 3 }
    ensures phases { (plan : Plan) → IsReady plan driver
        → IfOk result (λ paired. RunsAndUndoes plan turns paired.phases.run paired.phases.undone) }
    ensures served { IfOk result (λ paired. IfSome paired.served
        (IsServedBoard J.setup J.opening J.room)) }
{
    let Some((phases, seats)) = side_by_side(rt, &shared, seats, controller, driver, turns) else {
        drop(shared);
        return Err(ReportFault::Stopped);
    };
    let served = match seats {
        Ok(seats) => close_board(shared, seats),
        Err(NoThread) => {
            drop(shared);
            None
        }
    };
    Ok(Paired { phases, served })
}

/// Serves a board beside a manager, with room for so many events.
fn pair_opened<J, R>(
    rt: &R,
    alloc: Global,
    blank: Blank,
    board: Board<Records>,
    room: usize,
    controller: Controller,
    driver: Driver,
    turns: u32,
) -> Result<Paired, ReportFault>
where
    J: Opening + Send + Sync,
    R: Threads + Wait + Sync,
    requires name { blank.name ≡ J.name }
    requires parts { blank.parts ≡ J.parts }
    requires three { blank.parts ≡ 3 }
    requires setup { board.setup ≡ J.setup }
    requires opening { state_of board ≡ J.opening }
    requires room { room ≡ J.room }
    ensures phases { (plan : Plan) → IsReady plan driver
        → IfOk result (λ paired. RunsAndUndoes plan turns paired.phases.run paired.phases.undone) }
    ensures served { IfOk result (λ paired. IfSome paired.served
        (IsServedBoard J.setup J.opening J.room)) }
{
    match open_board::<J>(alloc, blank, board, room) {
        Ok((shared, seats)) => pair_shared(rt, shared, seats, controller, driver, turns),
        Err(why) => {
            drop(controller);
            drop(driver);
            Err(why)
        }
    }
}

/// Serves a board beside a manager that runs its plan and undoes it. Each worker and each drive makes at most so many turns.
pub(crate) fn pair_over<R: Threads + Wait + Sync>(
    rt: &R,
    alloc: Global,
    board: Board<Records>,
    controller: Controller,
    driver: Driver,
    turns: u32,
) -> Result<Paired, ReportFault>
    ensures phases { (plan : Plan) → IsReady plan driver
        → IfOk result (λ paired. RunsAndUndoes plan turns paired.phases.run paired.phases.undone) }
    ensures served { IfOk result (λ paired. IfSome paired.served
        (IsServedBoard board.setup (state_of board) most_events)) }
{
    pair_opened::<Brand, R>(
        rt,
        alloc,
        Blank::new(3),
        board,
        MOST_EVENTS,
        controller,
        driver,
        turns,
    )
}
