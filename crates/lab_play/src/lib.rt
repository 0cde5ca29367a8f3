//! A lab that is played: a schedule of events, what it leaves, a note of each event, and the play in words: where its plan halted and why, which
//! steps were never tried, how it stands at the end, and in which line of the schedule an event stands. And schedules that a lab makes of itself:
//! each event is one that it takes.
#![tactic(auto)]

mod chance;
mod clean_schedule;
mod explaining;
mod halt;
pub mod laws;
mod noted;
mod others;
mod played;
mod restarting;
mod run;
mod schedule_drawing;
mod schedule_lines;
mod schedule_making;
mod sentences;
mod traffic;
mod watch;

pub use chance::{Chances, Percent};
pub use explaining::{explanation, schedule_note};
pub use halt::{Halt, first_halt, tried_steps};
pub use played::{LabFault, Played, play, play_noted, play_restarting};
pub use restarting::has_place;
pub use run::Stopped;
pub use schedule_lines::{EventLine, event_line};
pub use schedule_making::{Links, ScheduleOptions, make_schedule};
pub use watch::{Watch, step_watched};
