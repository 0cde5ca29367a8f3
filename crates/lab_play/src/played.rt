//! A plan played by a schedule.
ghost use Rattle.std.specs.Prelude.{◌≡◌, [], None, IfOk};
ghost use Rattle.std.specs.List.{AllZip};
ghost use Rattle.two_wire.specs.declared.Bus.{Bus as AnyBus};
ghost use Rattle.cfg_records.specs.Records.{records_of};
ghost use Rattle.undo_core.specs.Shown.{backs};
ghost use Rattle.model_lab.specs.Played.{Told};
ghost use Rattle.lab_run.specs.Shown.{IsSentFrame, idles_in};
ghost use Rattle.lab_play.specs.Noted.{NotesPlay};
ghost use Rattle.cfg_records.specs.Changed.{changed_in};
ghost use Rattle.lab_play.specs.Ends.{TellsPlay, PlayResult, BeginsPlay, given};
ghost use Rattle.lab_play.specs.Restarting.{RestartedResult, NotesTurns};

use crate::laws::restarted_plays_stand;
use crate::noted::run_noted;
use crate::restarting::run_restarting;
use crate::run::{Stopped, run};
use crate::watch::Watch;
use bmc_board::Records;
use cfg_records::{BoardFile, Key, StartValue, Store, changed_count};
use lab_run::{Fault, Lab, Note, SentFrame};
use std::alloc::{AllocError, Global};
use text_lines::Event;
use undo_core::Phase;
use undo_plans::{Plan, UndoList};

/// What is told of a lab that was played.
pub struct Played {
    start: Vec<(Key, StartValue)>,
    lab: Box<Lab>,
    watch: Watch,
}

// Written out: the crates above would prove a derived one anew.
impl Drop for Played {
    fn drop(self) {
        let Played {
            start,
            lab,
            watch: _,
        } = self;
        drop(start);
        drop(lab);
    }
}

impl Played {
    /// Where the manager is.
    pub fn phase(&self) -> Phase
        ensures { (told : Told) → TellsPlay self.now told → result ≡ told.phase }
    {
        self.lab.phase()
    }

    /// The frames that were sent, in the order of their numbers.
    pub fn frames(&self) -> &[SentFrame]
        ensures { (told : Told) → TellsPlay self.now told
            → AllZip IsSentFrame result.now told.frames }
    {
        self.lab.frames()
    }

    /// The requests that undo what was done.
    pub fn undo(&self) -> &UndoList
        ensures { (told : Told) → TellsPlay self.now told
            → backs result.now.requests.members ≡ told.undo }
    {
        self.lab.undo_list()
    }

    /// The records.
    pub fn records(&self) -> &Records
        ensures { (told : Told) → TellsPlay self.now told
            → ⟦<Records as Store>⟧.records result.now ≡ told.records }
    {
        self.lab.store()
    }

    /// The records that the board began with.
    pub fn start(&self) -> &[(Key, StartValue)]
        ensures { (told : Told) → TellsPlay self.now told → records_of result.now ≡ told.start }
    {
        self.start.as_slice()
    }

    /// The place, counted from 1, of the first event at which a packet of the manager joined one that waited at the controller while
    /// eight or more newer requests were begun on the System Management Bus.
    pub fn premise_broken(&self) -> Option<usize>
        ensures { result ≡ self.now.watch.broken }
    {
        self.watch.broken
    }

    /// How many records have another value than they began with.
    pub fn changed(&self) -> usize
        ensures { (told : Told) → TellsPlay self.now told
            → result ≡ changed_in told.records self.now.start.items }
    {
        changed_count(self.records(), self.start.as_slice())
    }
}

/// Why a play doesn't end well.
#[derive(Drop)]
pub enum LabFault {
    /// Memory was refused.
    Memory,
    /// The event of this place, counted from 1, has the fault and isn't taken. The play is as it stood before.
    Event {
        fault: Fault,
        place: usize,
        played: Played,
    },
}

impl Played {
    /// A play that begins: a lab as it begins, and the records of its board.
    fn begin(alloc: Global, file: BoardFile, plan: Plan) -> Result<Played, AllocError>
        ensures begins { IfOk result (λ played. BeginsPlay file plan.steps plan.retries played) }
        ensures unbroken { IfOk result (λ played. played.watch.broken ≡ None) }
        ensures never { IfOk result (λ played.
            (on : AnyBus) → idles_in on played.lab.value.idles ≡ 0) }
    {
        let _steps = plan.steps.len();
        let watch = Watch::new();
        let started = file.records(alloc);
        // The lab takes the file and the plan, whether there are records or not.
        let lab = Lab::open(alloc, file, plan)?;
        match started {
            Ok(start) => Ok(Played { start, lab, watch }),
            Err(why) => {
                drop(lab);
                Err(why)
            }
        }
    }

    /// What is given of a play whose events ended so.
    fn ending(self, ended: Result<Option<Stopped>, AllocError>) -> Result<Played, LabFault>
        ensures { result ≡ given self ended }
    {
        match ended {
            Ok(None) => Ok(self),
            Ok(Some(Stopped { place, fault })) => Err(LabFault::Event {
                fault,
                place,
                played: self,
            }),
            Err(_) => {
                drop(self);
                Err(LabFault::Memory)
            }
        }
    }
}

/// Plays a plan on a board by a schedule, up to the first event that has a fault.
pub fn play(
    alloc: Global,
    file: BoardFile,
    plan: Plan,
    events: &[Event],
) -> Result<Played, LabFault>
    ensures { PlayResult file plan.steps plan.retries events.now result }
{
    let Ok(mut played) = Played::begin(alloc, file, plan) else {
        return Err(LabFault::Memory);
    };
    let ended = run(&mut played.lab, &mut played.watch, events);
    played.ending(ended)
}

/// Plays a plan as `play` does, and notes each event that happens.
pub fn play_noted<'a>(
    alloc: Global,
    file: BoardFile,
    plan: Plan,
    events: &'a [Event],
    notes: &mut Vec<Note<'a>>,
) -> Result<Played, LabFault>
    requires { notes.now.items ≡ [] }
    ensures plays { PlayResult file plan.steps plan.retries events.now result }
    ensures noted { NotesPlay file plan.steps plan.retries events.now result notes.new.items }
{
    let Ok(mut played) = Played::begin(alloc, file, plan) else {
        return Err(LabFault::Memory);
    };
    let ended = run_noted(&mut played.lab, &mut played.watch, events, notes);
    played.ending(ended)
}

/// Plays a plan as `play_noted` does, and behind the events of these places, which count from 1, ends the manager's process: the manager is made
/// again of the text of its journal. Behind an event that has a fault it isn't.
pub fn play_restarting<'a>(
    alloc: Global,
    file: BoardFile,
    plan: Plan,
    events: &'a [Event],
    places: &[usize],
    notes: &mut Vec<Note<'a>>,
) -> Result<Played, LabFault>
    requires { notes.now.items ≡ [] }
    ensures plays { RestartedResult file plan.steps plan.retries places.now events.now result }
    ensures noted { NotesTurns file plan.steps plan.retries places.now events.now result notes.new.items }
{
    restarted_plays_stand();
    let Ok(mut played) = Played::begin(alloc, file, plan) else {
        return Err(LabFault::Memory);
    };
    let lab = &mut played.lab;
    let ended = run_restarting(alloc, lab, &mut played.watch, events, places, notes);
    played.ending(ended)
}
