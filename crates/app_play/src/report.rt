//! What is said of a lab that was played.
ghost use Rattle.std.specs.Prelude.{◌≡◌, IfOk, Option, None, Some, string_bytes};
ghost use Rattle.model_lab.specs.Played.{Told};
ghost use Rattle.lab_play.specs.Ends.{TellsPlay};
ghost use Rattle.app_base.specs.declared.console.Stream.TheVariants.{Output};
ghost use Rattle.app_play.specs.Lines.{text_of};
ghost use Rattle.app_play.specs.Account.{AccountOf, status_of};

use crate::account::Account;
use app_base::{Report, Status};
use lab_play::{Played, Stopped};
use std::alloc::{AllocError, Global};

/// The account of what was played, and of the event that the lab didn't take.
pub(crate) fn account_of(played: &Played, stopped: Option<Stopped>) -> Account<'_>
    ensures told { (told : Told) → TellsPlay played.now told → AccountOf result told }
    ensures broken { result.broken ≡ played.now.watch.broken }
    ensures stopped { result.stopped ≡ stopped }
{
    Account {
        phase: played.phase(),
        frames: played.frames(),
        undo: &played.undo().requests,
        changed: played.changed(),
        broken: played.premise_broken(),
        stopped,
    }
}

/// How a run with this account ends.
pub(crate) fn status(stopped: Option<Stopped>) -> Status
    ensures { result ≡ status_of stopped }
{
    match stopped {
        None => Status::Success,
        Some(_) => Status::Stopped,
    }
}

/// The lines of the account.
pub(crate) fn account_report(
    alloc: Global,
    frames: bool,
    premises: bool,
    account: &Account,
) -> Result<Report, AllocError>
    ensures stream { IfOk result (λ report. report.stream ≡ Output) }
    ensures text { IfOk result (λ report. string_bytes report.text
        ≡ text_of frames premises account.now) }
    ensures status { IfOk result (λ report. report.status ≡ status_of account.now.stopped) }
{
    let text = account.text(alloc, frames, premises)?;
    Ok(Report::output(text, status(account.stopped)))
}
