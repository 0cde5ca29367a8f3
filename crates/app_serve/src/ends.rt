//! The controller's ends of both buses, and the line that tells of their ports.
ghost use Rattle.std.specs.Prelude.{◌≡◌, IfErr, IfOk, IfSome, string_bytes};
ghost use Rattle.app_base.specs.declared.console.Stream.TheVariants.{Error};
ghost use Rattle.app_base.specs.declared.status.Status.TheVariants.{Stopped};
ghost use Rattle.app_base.specs.Ending.{ReportTells};
ghost use Rattle.app_serve.specs.declared.run.ServeWords.{ServeWords as AnyWords};
ghost use Rattle.app_serve.specs.Run.{IsEndOf, IsTakenPort, SaysUnopened, TellsEnd, TellsUnopened, ports_line};

use crate::run::ServeWords;
use crate::wakeful_link::WakefulLink;
use app_base::{Report, ReportFault, Status};
use std::alloc::{AllocError, Global};
use std::net::Net;
use std::sync::atomic::AtomicBool;
use std::time::Clock;

/// A link that is bound, and the port that it took.
#[derive(Drop)]
pub(crate) struct End<'a, R: Clock> {
    pub link: WakefulLink<'a, R>,
    pub port: u16,
}

/// The controller's ends of both buses.
#[derive(Drop)]
pub(crate) struct BusLinks<'a, R: Clock> {
    pub ipmb: End<'a, R>,
    pub smbus: End<'a, R>,
}

/// A link at this port, or at a free one for port 0, which waits so many milliseconds and looks at the bell; or nothing where
/// it can't be had.
fn open_end<'a, R: Net + Clock>(
    rt: &'a R,
    bell: &'a AtomicBool,
    asked: u16,
    wait_ms: u32,
) -> Option<End<'a, R>>
    ensures taken { IfSome result (λ end. IsTakenPort asked end.port) }
    ensures port { IfSome result (λ end. end.link.link.named ≡ asked) }
    ensures wait { IfSome result (λ end. end.link.wait_ms ≡ wait_ms) }
{
    let link = WakefulLink::bind(rt, bell, asked, wait_ms).ok()?;
    if asked != 0 {
        return Some(End { link, port: asked });
    }
    match link.port() {
        Ok(port) => Some(End { link, port }),
        Err(_) => {
            drop(link);
            None
        }
    }
}

/// Which end can't be had: that of IPMB or of SMBus, at the port that was asked for.
#[derive(Clone, Copy, Debug)]
pub(crate) enum EndFault {
    Ipmb(u16),
    Smbus(u16),
}

/// The links at the ports that the words name, which look at the bell while they wait; or the first that can't be had.
pub(crate) fn open_ends<'a, R: Net + Clock>(
    rt: &'a R,
    bell: &'a AtomicBool,
    words: &ServeWords,
) -> Result<BusLinks<'a, R>, EndFault>
    ensures ipmb { IfOk result (λ ends. IsTakenPort words.now.ipmb_port ends.ipmb.port) }
    ensures smbus { IfOk result (λ ends. IsTakenPort words.now.smbus_port ends.smbus.port) }
    ensures ports { IfOk result (λ ends. (ends.ipmb.link.link.named ≡ words.now.ipmb_port)
        × (ends.smbus.link.link.named ≡ words.now.smbus_port)) }
    ensures waits { IfOk result (λ ends. (ends.ipmb.link.wait_ms ≡ words.now.wait_ms)
        × (ends.smbus.link.wait_ms ≡ words.now.wait_ms)) }
    ensures fault { IfErr result (IsEndOf words.now) }
{
    let Some(ipmb) = open_end(rt, bell, words.ipmb_port, words.wait_ms) else {
        return Err(EndFault::Ipmb(words.ipmb_port));
    };
    match open_end(rt, bell, words.smbus_port, words.wait_ms) {
        Some(smbus) => Ok(BusLinks { ipmb, smbus }),
        None => {
            drop(ipmb);
            Err(EndFault::Smbus(words.smbus_port))
        }
    }
}

/// The line that says that the end of this bus can't be had at this port, or at a free one for port 0.
fn unopened_text(alloc: Global, bus: &str, port: u16) -> Result<String, AllocError>
    ensures { IfOk result (λ text. TellsUnopened bus.now port (string_bytes text)) }
{
    let mut text = String::new(alloc);
    if port == 0 {
        writeln!(text, "no port of {bus} can be opened on 127.0.0.1")?;
        return Ok(text);
    }
    writeln!(
        text,
        "port {port} of {bus} can't be opened on 127.0.0.1: is it in use?"
    )?;
    Ok(text)
}

/// What is said of the end of this bus that can't be had.
fn port_report(alloc: Global, bus: &str, port: u16) -> Result<Report, AllocError>
    ensures stream { IfOk result (λ report. report.stream ≡ Error) }
    ensures text { IfOk result (λ report. TellsUnopened bus.now port (string_bytes report.text)) }
    ensures status { IfOk result (λ report. report.status ≡ Stopped) }
{
    let text = unopened_text(alloc, bus, port)?;
    Ok(Report::complaint(text, Status::Stopped))
}

/// What is said of an end that can't be had.
fn end_report(alloc: Global, why: EndFault) -> Result<Report, AllocError>
    ensures stream { IfOk result (λ report. report.stream ≡ Error) }
    ensures text { IfOk result (λ report. TellsEnd why (string_bytes report.text)) }
    ensures status { IfOk result (λ report. report.status ≡ Stopped) }
{
    match why {
        EndFault::Ipmb(port) => port_report(alloc, "IPMB", port),
        EndFault::Smbus(port) => port_report(alloc, "SMBus", port),
    }
}

/// The same, as a run ends by it.
pub(crate) fn unopened_report(alloc: Global, why: EndFault) -> Result<Report, ReportFault>
    ensures { (words : AnyWords) → IsEndOf words why → ReportTells (SaysUnopened words) result }
{
    Ok(end_report(alloc, why)?)
}

/// The line that tells of both ports.
pub(crate) fn ports_text(alloc: Global, ipmb: u16, smbus: u16) -> Result<String, AllocError>
    ensures { IfOk result (λ text. string_bytes text ≡ ports_line ipmb smbus) }
{
    let mut text = String::new(alloc);
    writeln!(
        text,
        "bmcnet: ipmb on 127.0.0.1:{ipmb}, smbus on 127.0.0.1:{smbus}"
    )?;
    Ok(text)
}
