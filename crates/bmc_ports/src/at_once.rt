//! Works that are run at once, in threads of their own.
ghost use Rattle.std.specs.Prelude.{◌≡◌, IfOk, Ok};
ghost use Rattle.bmc_ports.specs.AtOnce.{BothGive, ThreeGive};

use std::snapshot::Snapshot;
use std::sync::Wait;
use std::sync::atomic::{AtomicBool, Ordering};
use std::thread;
use std::thread::{Promise, Threads};

/// No thread could be started, for want of memory or of the system's leave. The seats are gone then.
#[derive(Clone, Copy, Debug)]
pub struct NoThread;

/// What is to be done once, and gives something back.
pub(crate) trait Work {
    /// What it gives back.
    type Given;

    /// What a work may give back.
    ghost gives: { Self → Self.Given → Type 0 };

    /// Does it.
    fn run(self) -> Self::Given
        ensures { gives self result };
}

/// What two works gave back.
#[derive(Drop)]
pub(crate) struct PairReturn<T, U> {
    pub first: T,
    pub second: U,
}

/// What a scanner's work gave back, and what those of two workers did.
#[derive(Drop)]
pub(crate) struct TrioReturn<S, T, U> {
    pub scanner: S,
    pub first: T,
    pub second: U,
}

/// What the thread of a work gives back: what that work may give.
#[derive(Drop)]
struct GivenBy<W: Work>(Snapshot<W>);

impl<W: Work> Promise<W::Given> for GivenBy<W> {
    ghost kept_by = { λ promise given. W.gives promise.0.value given };
}

/// Runs a work in a thread of its own, and another thing meanwhile in this one. Where no thread can be started, neither runs.
fn run_apart<W, U, M, R>(rt: &R, apart: W, here: M) -> Result<PairReturn<W::Given, U>, NoThread>
where
    W: Work + Send + Drop,
    W::Given: Send + Drop,
    U: Drop,
    M: FnOnce() -> U + Drop,
    R: Threads + Wait + Sync,
    requires { M.pre here }
    ensures { BothGive (W.gives apart) (M.post here) result }
{
    thread::scope(
        thread::scope_env(),
        rt,
        |scope| -> Result<PairReturn<W::Given, U>, NoThread>
            requires { M.pre here }
            ensures { BothGive (W.gives apart) (M.post here) result }
        {
            let promise = GivenBy(Snapshot::of(&apart));
            let Ok(thread) = scope.spawn_with(promise, move || apart.run()) else {
                return Err(NoThread);
            };
            let second = here();
            Ok(PairReturn {
                first: thread.join(rt),
                second,
            })
        },
    )
}

/// Runs two workers at once, the first in a thread of its own, and says once both ended. Where no thread can be started, neither runs.
fn run_workers<V, W, R>(
    rt: &R,
    first: V,
    second: W,
    over: &AtomicBool,
) -> Result<PairReturn<V::Given, W::Given>, NoThread>
where
    V: Work + Send + Drop,
    V::Given: Send + Drop,
    W: Work + Drop,
    W::Given: Drop,
    R: Threads + Wait + Sync,
    ensures { BothGive (V.gives first) (W.gives second) result }
{
    let both = run_apart(rt, first, move || second.run());
    over.store(true, Ordering::SeqCst);
    both
}

/// What a scanner gave back that ran apart from two workers.
fn joined<S: Drop, T: Drop, U: Drop>(
    ran: Result<PairReturn<S, Result<PairReturn<T, U>, NoThread>>, NoThread>,
) -> Result<TrioReturn<S, T, U>, NoThread>
    ensures { IfOk result (λ three. ran ≡ Ok (record {
      first = three.scanner;
      second = Ok (record { first = three.first; second = three.second });
    })) }
{
    let PairReturn {
        first: scanner,
        second,
    } = ran?;
    let PairReturn { first, second } = second?;
    Ok(TrioReturn {
        scanner,
        first,
        second,
    })
}

/// Runs two workers at once, the first in a thread of its own, and a scanner: in a thread beside them, where that is wanted, and else before them.
/// Once both workers ended, `over` is set. Where a thread can't be started, who would run beside it doesn't run.
pub(crate) fn run_three<S, V, W, R>(
    rt: &R,
    beside: bool,
    scanner: S,
    first: V,
    second: W,
    over: &AtomicBool,
) -> Result<TrioReturn<S::Given, V::Given, W::Given>, NoThread>
where
    S: Work + Send + Drop,
    S::Given: Send + Drop,
    V: Work + Send + Drop,
    V::Given: Send + Drop,
    W: Work + Drop,
    W::Given: Drop,
    R: Threads + Wait + Sync,
    ensures { ThreeGive (S.gives scanner) (V.gives first) (W.gives second) result }
{
    if beside {
        return joined(run_apart(rt, scanner, move || {
            run_workers(rt, first, second, over)
        }));
    }
    let scanner = scanner.run();
    match run_workers(rt, first, second, over) {
        Ok(PairReturn { first, second }) => Ok(TrioReturn {
            scanner,
            first,
            second,
        }),
        Err(why) => Err(why),
    }
}
