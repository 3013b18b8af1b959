//! Workers side by side: half of them in a thread of their own, with half of the work, and so on.
ghost use Rattle.std.specs.Prelude.{◌≡◌, ◌+◌, ◌*◌, ◌<◌, ◌≤◌, ◌++◌, length, map};
ghost use denote.Param.Send.{IsSync, IsSend};
ghost use Rattle.farm_server.specs.declared.served.TheConstants.{REQUESTS};
ghost use Rattle.farm_serving.specs.Serving.{ServesLegal};

use crate::ended::Ended;
use crate::share::{Serve, Share};
use farm_server::REQUESTS;
use std::alloc::Global;
use std::thread::{Threads, join_mut};

/// Lets all workers serve, each with its part of the share.
pub(crate) fn serve_row<P: Share + Send, W: Serve<P> + Send, R: Threads + Sync>(
    rt: &R,
    alloc: Global,
    connections: u64,
    share: &mut P,
    workers: &mut [W],
) -> Ended
    requires { length workers.old * (connections * REQUESTS) ≤ (P.standing share.old).left }
    ensures { ServesLegal connections (P.standing share.old) (P.standing share.new) (map W.station workers.old) (map W.station workers.new) result }
{
    if workers.is_empty() {
        return Ended::nothing();
    }
    serve_all(rt, alloc, connections, share, workers)
}

/// The same of a row of workers in which there is one at least.
#[cycle(halves)]
fn serve_all<P: Share + Send, W: Serve<P> + Send, R: Threads + Sync>(
    rt: &R,
    alloc: Global,
    connections: u64,
    share: &mut P,
    workers: &mut [W],
) -> Ended
    requires some { 0 < length workers.old }
    requires left { length workers.old * (connections * REQUESTS) ≤ (P.standing share.old).left }
    ensures { ServesLegal connections (P.standing share.old) (P.standing share.new) (map W.station workers.old) (map W.station workers.new) result }
{
    if workers.len() == 1 {
        return serve_one(alloc, connections, share, workers);
    }
    let (low, high) = workers.split_at_mut(workers.len() / 2);
    serve_halves(rt, alloc, connections, share, low, high)
}

/// Lets a row of one worker serve.
fn serve_one<P: Share, W: Serve<P>>(
    alloc: Global,
    connections: u64,
    share: &mut P,
    workers: &mut [W],
) -> Ended
    requires one { length workers.old ≡ 1 }
    requires left { connections * REQUESTS ≤ (P.standing share.old).left }
    ensures { ServesLegal connections (P.standing share.old) (P.standing share.new) (map W.station workers.old) (map W.station workers.new) result }
{
    workers[0].serve_over(alloc, connections, share)
}

/// Lets two rows of workers serve, each with its part of the share.
#[cycle(halves)]
fn serve_halves<P: Share + Send, W: Serve<P> + Send, R: Threads + Sync>(
    rt: &R,
    alloc: Global,
    connections: u64,
    share: &mut P,
    low: &mut [W],
    high: &mut [W],
) -> Ended
    requires low { 0 < length low.old }
    requires high { 0 < length high.old }
    requires left { (length low.old + length high.old) * (connections * REQUESTS) ≤ (P.standing share.old).left }
    ensures { ServesLegal connections (P.standing share.old) (P.standing share.new)
        (map W.station low.old ++ map W.station high.old) (map W.station low.new ++ map W.station high.new) result }
{
    let _most = share.room();
    let asks = high.len() as u64 * (connections * REQUESTS);
    let mut other = share.cut(asks);
    let (first, second) = serve_both(rt, alloc, connections, share, low, &mut other, high);
    share.merge(other);
    first.plus(second)
}

/// Lets two rows of workers serve, each with a share of its own.
#[cycle(halves)]
fn serve_both<P: Share + Send, W: Serve<P> + Send, R: Threads + Sync>(
    rt: &R,
    alloc: Global,
    connections: u64,
    share: &mut P,
    low: &mut [W],
    other: &mut P,
    high: &mut [W],
) -> (Ended, Ended)
    requires low { 0 < length low.old }
    requires high { 0 < length high.old }
    requires left { length low.old * (connections * REQUESTS) ≤ (P.standing share.old).left }
    requires other { length high.old * (connections * REQUESTS) ≤ (P.standing other.old).left }
    ensures low { ServesLegal connections (P.standing share.old) (P.standing share.new) (map W.station low.old) (map W.station low.new) result.0 }
    ensures high { ServesLegal connections (P.standing other.old) (P.standing other.new) (map W.station high.old) (map W.station high.new) result.1 }
{
    let mut front = || -> Ended
        requires { IsSync R.row × IsSend P.row × IsSend W.row × (0 < length low.now) × (length low.now * (connections * REQUESTS) ≤ (P.standing share.now).left) }
        ensures { ServesLegal connections (P.standing share.entry.now) (P.standing share.exit.now) (map W.station low.entry.now) (map W.station low.exit.now) result }
    { serve_all(rt, alloc, connections, share, low) };
    let mut back = || -> Ended
        requires { IsSync R.row × IsSend P.row × IsSend W.row × (0 < length high.now) × (length high.now * (connections * REQUESTS) ≤ (P.standing other.now).left) }
        ensures { ServesLegal connections (P.standing other.entry.now) (P.standing other.exit.now) (map W.station high.entry.now) (map W.station high.exit.now) result }
    { serve_all(rt, alloc, connections, other, high) };
    join_mut(rt, &mut front, &mut back)
}
