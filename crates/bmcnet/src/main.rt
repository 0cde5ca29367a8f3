//! The program `bmcnet`: words in, datagrams and lines out. Its parts are the words of its command line, the files of the host that it reads and
//! writes, and what it does with both.
#![tactic(auto)]

mod file;
mod ids;
mod number;
mod run;
mod tasks;
mod terminal;
mod words;

use crate::file::NetFiles;
use crate::run::run_line;
use crate::terminal::line_on;
use app_base::{Console, HostFiles, refuse, words_of_process};
use std::process::ExitCode;

fn main(rt: HostRuntime) -> ExitCode {
    let mut console = Console::new(rt.stdout(), rt.stderr());
    let mut progress = line_on(rt.stderr());
    let mut files = NetFiles {
        read: HostFiles { rt: &rt },
        held: Vec::new(rt.alloc()),
    };
    ExitCode::from(match words_of_process(&rt) {
        Ok(words) => run_line(
            &rt,
            rt.alloc(),
            &mut files,
            words.as_slice(),
            &mut progress,
            &mut console,
        ),
        Err(refusal) => refuse(&refusal, &mut console),
    })
}
