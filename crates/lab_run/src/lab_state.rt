//! A lab.
ghost use Rattle.std.specs.Prelude.{◌≡◌, IfOk};
ghost use Rattle.model_lab.specs.Meaning.{lab_names as the_names};
ghost use Rattle.lab_run.specs.FramesShown.{ShowsFrames};
ghost use Rattle.lab_run.specs.Shown.{ForRepresented, BeginsOnIpmb, BeginsOnSmbus, HasPlan, BeginsLab, ForgotNone, idles_in};

use crate::ages::BusAge;
use crate::fault::Ages;
use crate::frames::Frames;
use bmc_board::{Board, Records};
use bmc_core::{At, IpmbPort, Out, SmbusPort};
use cfg_records::BoardFile;
use mctp_net::EndpointId;
use model_lab::lab_names;
use std::alloc::{AllocError, Global};
use two_wire::Bus;
use undo_core::{Manager, OpenFault};
use undo_plans::{Names, Plan};

/// How often the manager's window was forgotten, on each bus.
#[derive(Clone, Copy)]
pub(crate) struct Idles {
    pub ipmb: usize,
    pub smbus: usize,
}

impl Idles {
    /// How many idles happened on one bus.
    pub fn on(self, bus: Bus) -> usize
        ensures { result ≡ idles_in bus self }
    {
        match bus {
            Bus::Ipmb => self.ipmb,
            Bus::Smbus => self.smbus,
        }
    }
}

/// A controller's board with its two ports, a manager with a plan, and all frames that were sent.
pub struct Lab {
    pub(crate) board: Board<Records>,
    pub(crate) ipmb: IpmbPort,
    pub(crate) smbus: SmbusPort,
    pub(crate) manager: Manager,
    pub(crate) names: Names,
    pub(crate) frames: Frames,
    pub(crate) idles: Idles,
    /// What a port sent last.
    pub(crate) out: Out,
}

// Written out: the crates above would prove a derived one anew.
impl Drop for Lab {
    fn drop(self) {
        let Lab {
            board,
            ipmb,
            smbus,
            manager,
            names: _,
            frames,
            idles: _,
            out: _,
        } = self;
        drop(board);
        drop(ipmb);
        drop(smbus);
        drop(manager);
        drop(frames);
    }
}

/// A manager of a plan, with the plan's retries.
fn opened_manager(alloc: Global, plan: Plan, names: Names) -> Result<Manager, AllocError>
    ensures { IfOk result (HasPlan names plan) }
{
    let Plan { steps, retries } = plan;
    match Manager::open(alloc, Plan { steps, retries }, names, retries.number()) {
        Ok(manager) => Ok(manager),
        Err(OpenFault::Memory) => Err(AllocError),
        Err(OpenFault::Retries) => unreachable!(),
    }
}

/// The controller's port on IPMB.
fn opened_ipmb(alloc: Global) -> Result<IpmbPort, AllocError>
    ensures { IfOk result BeginsOnIpmb }
{
    IpmbPort::new(alloc, lab_names().peer_address)
}

/// The controller's port on the System Management Bus.
fn opened_smbus(alloc: Global) -> Result<SmbusPort, AllocError>
    ensures { IfOk result BeginsOnSmbus }
{
    let names = lab_names();
    let wire = names.peer_wire;
    let eid = EndpointId::new(names.peer_eid).unwrap();
    SmbusPort::new(alloc, At { wire, eid })
}

/// What a lab has beside its board: the controller's ports and a manager.
#[derive(Drop)]
struct Ends {
    ipmb: IpmbPort,
    smbus: SmbusPort,
    manager: Manager,
}

/// The ports and a manager of a plan, as they begin.
fn opened_ends(alloc: Global, plan: Plan) -> Result<Ends, AllocError>
    ensures ipmb { IfOk result (λ ends. BeginsOnIpmb ends.ipmb) }
    ensures smbus { IfOk result (λ ends. BeginsOnSmbus ends.smbus) }
    ensures manager { IfOk result (λ ends. HasPlan the_names plan ends.manager) }
{
    Ok(Ends {
        ipmb: opened_ipmb(alloc)?,
        smbus: opened_smbus(alloc)?,
        manager: opened_manager(alloc, plan, lab_names())?,
    })
}

/// The lab, in memory of its own.
fn boxed(alloc: Global, lab: Lab) -> Result<Box<Lab>, AllocError>
    ensures { IfOk result (λ boxed. boxed.value ≡ lab) }
{
    match Box::new(alloc, lab) {
        Ok(boxed) => Ok(boxed),
        Err(refused) => {
            drop(refused);
            Err(AllocError)
        }
    }
}

impl Lab {
    /// A lab as it begins, in memory of its own.
    pub fn open(alloc: Global, file: BoardFile, plan: Plan) -> Result<Box<Lab>, AllocError>
        ensures shows { IfOk result (λ lab. BeginsLab file plan.steps plan.retries lab.value) }
        ensures never { IfOk result (λ lab. ForgotNone lab.value.idles) }
    {
        let ends = match opened_ends(alloc, plan) {
            Ok(ends) => ends,
            Err(error) => {
                drop(file);
                return Err(error);
            }
        };
        match Board::of_file(alloc, file) {
            Ok(board) => boxed(
                alloc,
                Lab {
                    board,
                    ipmb: ends.ipmb,
                    smbus: ends.smbus,
                    manager: ends.manager,
                    names: lab_names(),
                    frames: Frames::new(alloc),
                    idles: Idles { ipmb: 0, smbus: 0 },
                    out: Out::new(),
                },
            ),
            Err(error) => {
                drop(ends);
                Err(error)
            }
        }
    }

    /// What tells which frames are too old.
    pub(crate) fn marks(&self) -> Ages
        ensures { ForRepresented self.now (λ _ x. ShowsFrames the_names self.now.frames result x) }
    {
        Ages {
            ipmb: BusAge {
                begun: self.manager.begun(Bus::Ipmb),
                idles: self.idles.ipmb,
            },
            smbus: BusAge {
                begun: self.manager.begun(Bus::Smbus),
                idles: self.idles.smbus,
            },
        }
    }
}
