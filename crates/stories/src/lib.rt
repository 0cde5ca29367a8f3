//! The player of stories: what comes to a scene, told as lines of text, with what comes of it. One player plays them on scenes of any kind; the scene
//! here is a board with its two ports. `docs/STORIES.md` has the language.
#![tactic(auto)]

mod board_lines;
mod boards;
mod bytes;
mod change_lines;
mod damage_lines;
mod fixture;
mod lan;
mod line;
mod player;
mod port_lines;
mod request;
mod sample;
mod scene;
mod story;
mod window_lines;
mod words;

pub use board_lines::asks;
pub use boards::board_of;
pub use player::report_of;
pub use sample::SAMPLE;
pub use scene::{NoOutcome, NoScene, Scene};
pub use story::{open_sample, play};
