//! One worker.
ghost use Rattle.std.specs.Prelude.{◌≡◌, ◌*◌, ◌<◌, ◌≤◌};
ghost use Rattle.http_wire.specs.Calls.{state_of};
ghost use Rattle.farm_server.specs.Served.{outside_of, Serves};
ghost use Rattle.farm_server.specs.declared.served.TheConstants.{REQUESTS};
ghost use Rattle.farm_serving.specs.Connections.{station, ServesLink};
ghost use Rattle.farm_serving.specs.Serving.{Works};

use crate::ended::Ended;
use causes::Failed;
use farm_asks::question::Question;
use farm_asks::reply::Asked;
use farm_desk::Desk;
use farm_machine::law::Farm;
use farm_server::{Gate, Served, serve_connection, serve_routed};
use farm_text::{Clock, Draws};
use http_wire::Link;
use listeners::Listener;
use route_table::Table;
use std::alloc::Global;

/// What one worker serves with: the door of its links, a clock, draws, and a gate that is told where its connections stand.
#[derive(Drop)]
pub struct Worker<D, C, I, G> {
    pub door: D,
    pub clock: C,
    pub draws: I,
    pub gate: G,
}

impl<D: Listener, C: Clock, I: Draws, G: Gate> Worker<D, C, I, G> {
    /// Accepts this many times. Each link that comes is served, as long as its connection lasts, and handed back to the door
    /// with the number of its messages that were asked. An accept that failed is one of them.
    ///
    /// A desk is needed that has a thousand asks left for each connection.
    pub fn serve<K: Desk<Question = Question, Answer = Asked, Law = Farm>>(
        &mut self,
        alloc: Global,
        desk: &mut K,
        connections: u64,
    ) -> Ended
        requires spare { connections * REQUESTS ≤ K.spare desk.old }
        ensures home { K.home desk.new ≡ K.home desk.old }
        ensures works { Works connections
            (record { stands = K.stands desk.old; spare = K.spare desk.old })
            (record { stands = K.stands desk.new; spare = K.spare desk.new })
            (station (C.told self.old.clock) (I.told self.old.draws) (G.told self.old.gate) (D.given self.old.door) (D.taken self.old.door) (D.out self.old.door) (D.accepts self.old.door) (D.faults self.old.door))
            (station (C.told self.new.clock) (I.told self.new.draws) (G.told self.new.gate) (D.given self.new.door) (D.taken self.new.door) (D.out self.new.door) (D.accepts self.new.door) (D.faults self.new.door))
            result }
    {
        let table = Table::new(alloc).ok();
        let _most = desk.left();
        let mut ended = Ended::nothing();
        'accepts: for _made in 0..connections {
            let one = self.serve_next(alloc, table.as_ref(), desk);
            ended = ended.plus(one);
        }
        ended
    }

    /// Accepts once, and serves what comes.
    fn serve_next<K: Desk<Question = Question, Answer = Asked, Law = Farm>>(
        &mut self,
        alloc: Global,
        table: Option<&Table>,
        desk: &mut K,
    ) -> Ended
        requires spare { REQUESTS ≤ K.spare desk.old }
        ensures home { K.home desk.new ≡ K.home desk.old }
        ensures works { Works 1
            (record { stands = K.stands desk.old; spare = K.spare desk.old })
            (record { stands = K.stands desk.new; spare = K.spare desk.new })
            (station (C.told self.old.clock) (I.told self.old.draws) (G.told self.old.gate) (D.given self.old.door) (D.taken self.old.door) (D.out self.old.door) (D.accepts self.old.door) (D.faults self.old.door))
            (station (C.told self.new.clock) (I.told self.new.draws) (G.told self.new.gate) (D.given self.new.door) (D.taken self.new.door) (D.out self.new.door) (D.accepts self.new.door) (D.faults self.new.door))
            result }
    {
        match self.door.accept() {
            Ok(peer) => self.serve_peer(alloc, table, desk, peer),
            Err(Failed) => Ended::refused(),
        }
    }

    /// Serves a link that the door gave, and hands it back.
    fn serve_peer<K: Desk<Question = Question, Answer = Asked, Law = Farm>>(
        &mut self,
        alloc: Global,
        table: Option<&Table>,
        desk: &mut K,
        mut peer: D::Peer,
    ) -> Ended
        requires spare { REQUESTS ≤ K.spare desk.old }
        requires out { 0 < D.out self.old.door }
        ensures home { K.home desk.new ≡ K.home desk.old }
        ensures serves { ServesLink (state_of D.Peer.Link peer)
            (record { stands = K.stands desk.old; spare = K.spare desk.old })
            (record { stands = K.stands desk.new; spare = K.spare desk.new })
            (station (C.told self.old.clock) (I.told self.old.draws) (G.told self.old.gate) (D.given self.old.door) (D.taken self.old.door) (D.out self.old.door) (D.accepts self.old.door) (D.faults self.old.door))
            (station (C.told self.new.clock) (I.told self.new.draws) (G.told self.new.gate) (D.given self.new.door) (D.taken self.new.door) (D.out self.new.door) (D.accepts self.new.door) (D.faults self.new.door))
            result }
    {
        let before = desk.left();
        let served = serve_link(
            alloc,
            table,
            &mut peer,
            desk,
            &mut self.clock,
            &mut self.draws,
            &mut self.gate,
        );
        let asked = before - desk.left();
        self.door.done(peer, asked);
        Ended::connection(asked, served)
    }
}

/// Serves one link, with the table of routes if there is one.
fn serve_link<
    L: Link,
    K: Desk<Question = Question, Answer = Asked, Law = Farm>,
    C: Clock,
    R: Draws,
    G: Gate,
>(
    alloc: Global,
    table: Option<&Table>,
    link: &mut L,
    desk: &mut K,
    clock: &mut C,
    draws: &mut R,
    gate: &mut G,
) -> Served
    requires { REQUESTS ≤ K.spare desk.old }
    ensures home { K.home desk.new ≡ K.home desk.old }
    ensures serves { Serves
        (record { stands = K.stands desk.old; spare = K.spare desk.old })
        (record { stands = K.stands desk.new; spare = K.spare desk.new })
        (outside_of L.Link C.Clock R.Draws G.Gate link.old clock.old draws.old gate.old)
        (outside_of L.Link C.Clock R.Draws G.Gate link.new clock.new draws.new gate.new)
        result }
{
    match table {
        Some(table) => serve_routed(alloc, table, link, desk, clock, draws, gate),
        None => serve_connection(alloc, link, desk, clock, draws, gate),
    }
}
