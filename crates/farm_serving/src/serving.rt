//! Many workers at one desk.
ghost use Rattle.std.specs.Prelude.{◌≡◌, ◌+◌, ◌*◌, ◌≤◌, length, map};
ghost use Rattle.farm_server.specs.declared.served.TheConstants.{REQUESTS};
ghost use Rattle.farm_serving.specs.Connections.{station};
ghost use Rattle.farm_serving.specs.Serving.{Serves};

use crate::ended::Ended;
use crate::halves::serve_row;
use crate::worker::Worker;
use farm_asks::question::Question;
use farm_asks::reply::Asked;
use farm_desk::Object;
use farm_machine::law::Farm;
use farm_server::Gate;
use farm_text::{Clock, Draws};
use listeners::Listener;
use shared_desk::{Shared, Token};
use std::alloc::Global;
use std::sync::Wait;
use std::thread::Threads;

/// Lets all workers serve at one desk, each in a thread and over a pass of its own, and each with this many accepts.
///
/// A token is needed that has a thousand asks left for each accept of each worker. It comes back with all calls that the
/// workers made: worker by worker, and of each worker connection by connection, in the order in which the links went back to
/// its door. `Ended` has the counts.
pub fn serve<
    O: Object<Question = Question, Answer = Asked, Law = Farm> + Send,
    D: Listener + Send,
    C: Clock + Send,
    I: Draws + Send,
    G: Gate + Send,
    R: Threads + Wait + Sync,
>(
    rt: &R,
    alloc: Global,
    shared: &Shared<O>,
    token: Token<O>,
    workers: &mut [Worker<D, C, I, G>],
    connections: u64,
) -> (Token<O>, Ended)
where
    D::Peer: Send,
    requires own { token.desk ≡ shared.now.desk }
    requires left { length workers.old * (connections * REQUESTS) ≤ token.left }
    ensures gained { length result.0.mine ≡ length token.mine + result.1.served }
    ensures serves { Serves connections token result.0
        (map (λ w. station (C.told w.clock) (I.told w.draws) (G.told w.gate) (D.given w.door) (D.taken w.door) (D.out w.door) (D.accepts w.door) (D.faults w.door)) workers.old)
        (map (λ w. station (C.told w.clock) (I.told w.draws) (G.told w.gate) (D.given w.door) (D.taken w.door) (D.out w.door) (D.accepts w.door) (D.faults w.door)) workers.new)
        result.1 }
{
    let mut pass = shared.pass(rt, token);
    let ended = serve_row(rt, alloc, connections, &mut pass, workers);
    (pass.token(), ended)
}
