//! The program `bmclab`: words in, lines out.
#![tactic(auto)]

use app_base::{Console, refuse, words_of_process};
use app_bmclab::{Cause, ToldFiles, notes_on, run_line};
use std::cell::Cell;
use std::process::ExitCode;

fn main(rt: HostRuntime) -> ExitCode {
    let mut console = Console::new(rt.stdout(), rt.stderr());
    let mut notes = notes_on(rt.stderr());
    let files = ToldFiles {
        rt: &rt,
        last: Cell::new(Cause::Other),
    };
    ExitCode::from(match words_of_process(&rt) {
        Ok(words) => run_line(
            rt.alloc(),
            &files,
            words.as_slice(),
            &mut notes,
            &mut console,
        ),
        Err(refusal) => refuse(&refusal, &mut console),
    })
}
