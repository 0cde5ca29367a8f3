//! What happens on a served board by a text of readings, where there is one.
ghost use Rattle.std.specs.Prelude.{◌≡◌, ℕ, List, Option, IfOk, IfErr, Err, option_map, string_bytes};
ghost use Rattle.app_base.specs.declared.console.Stream.TheVariants.{Error};
ghost use Rattle.app_base.specs.declared.status.Status.TheVariants.{RefusedFile};
ghost use Rattle.app_base.specs.Ending.{ReportTells};
ghost use Rattle.app_serve.specs.Run.{AreInputs, IsRefused, SaysUnserved, StandsFor, readings_line};
ghost use Rattle.app_serve.specs.declared.run.ServeWords.{ServeWords as AnyWords};
ghost use Rattle.app_serve.specs.declared.inputs.InputFault.TheVariants.{Readings};
ghost use Rattle.app_serve.specs.Served.{IsAsked, clock_list, list_for, list_in};

use crate::readings_text::{ReadingsFault, read_readings};
use crate::run::ServeWords;
use app_base::{Report, ReportFault, Status};
use bmc_board::Bench;
use bmc_ports::{Agenda, TICK_MS, Timed, Timetable};
use std::alloc::{AllocError, Global};
use std::time::{Clock, Instant};

/// The list that a text of readings stands for, where there is one.
pub(crate) fn list_of(
    alloc: Global,
    text: &Option<String>,
) -> Result<Option<Vec<Timed>>, ReadingsFault>
    ensures list { IfOk result
        (λ list. StandsFor (option_map string_bytes text.now) (list_in list)) }
    ensures refused { IfErr result (IsRefused (option_map string_bytes text.now)) }
{
    let Some(text) = text else {
        return Ok(None);
    };
    match read_readings(alloc, text.as_str()) {
        Ok(list) => Ok(Some(list)),
        Err(why) => Err(why),
    }
}

/// What a board's clock does in each round: a tenth of a second passes.
pub(crate) const CLOCK: [Timed; 1] = [Timed {
    at_ms: TICK_MS,
    event: Bench::Tick,
}];

/// What happens in a round: what a clock does, where one is to run, or what is on the list, where there is one.
fn list_to_play<'a>(runs: bool, clock: &'a [Timed], list: &'a Option<Vec<Timed>>) -> &'a [Timed]
    requires { clock.now ≡ clock_list }
    ensures { result.now ≡ list_for runs (list_in list.now) }
{
    if runs {
        return clock;
    }
    match list {
        Some(list) => list.as_slice(),
        None => &[],
    }
}

/// What is to happen by the words: what a clock does, or what is on the list, where there is one. It starts now.
pub(crate) fn agenda_of<'a, R: Clock>(
    rt: &R,
    clock: &'a [Timed],
    list: &'a Option<Vec<Timed>>,
    words: &ServeWords,
) -> Agenda<'a>
    requires { clock.now ≡ clock_list }
    ensures { IsAsked words.now (list_in list.now) result }
{
    let start = Instant::now(rt).ok();
    let table = Timetable::new(list_to_play(words.clock, clock, list), start);
    if words.clock || words.repeats {
        Agenda::again(table)
    } else {
        Agenda::once(table)
    }
}

/// The line that names the first bad line of a text of readings.
fn fault_report(alloc: Global, why: ReadingsFault) -> Result<Report, AllocError>
    ensures stream { IfOk result (λ report. report.stream ≡ Error) }
    ensures text { IfOk result (λ report. string_bytes report.text ≡ readings_line why) }
    ensures status { IfOk result (λ report. report.status ≡ RefusedFile) }
{
    let mut text = String::new(alloc);
    writeln!(text, "readings {why}")?;
    Ok(Report::complaint(text, Status::RefusedFile))
}

/// What is said of a text of readings that stands for no list.
pub(crate) fn readings_refusal(alloc: Global, why: ReadingsFault) -> Result<Report, ReportFault>
    ensures { (words : AnyWords) (board : List ℕ) (given : Option (List ℕ))
        → AreInputs board given (Err (Readings why))
        → ReportTells (SaysUnserved words board given) result }
{
    match why {
        ReadingsFault::Memory => Err(ReportFault::Memory),
        why => Ok(fault_report(alloc, why)?),
    }
}
