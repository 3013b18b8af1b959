//! What workers halve among them, and who serves over a part of it.
ghost use Rattle.std.specs.Prelude.{◌≡◌, ◌*◌, ◌≤◌, [], ◌∷◌, Some};
ghost use Rattle.history.specs.Histories.{IsLegal};
ghost use Rattle.shared_desk.specs.Standing.{Standing, gave, given, AreJoined};
ghost use Rattle.farm_machine.specs.Entry.{Entry};
ghost use Rattle.farm_machine.specs.State.{State};
ghost use Rattle.farm_machine.specs.Step.{farm_rules};
ghost use Rattle.farm_server.specs.declared.served.TheConstants.{REQUESTS};
ghost use Rattle.farm_serving.specs.Connections.{Station, station as station_of};
ghost use Rattle.farm_serving.specs.Serving.{ServesLegal};

use crate::ended::Ended;
use crate::worker::Worker;
use farm_asks::question::Question;
use farm_asks::reply::Asked;
use farm_desk::{Object, Spare};
use farm_machine::law::Farm;
use farm_server::Gate;
use farm_text::{Clock, Draws};
use listeners::Listener;
use shared_desk::Pass;
use std::alloc::Global;
use std::sync::Wait;

/// A pass of a farm's shared desk, as those see it who share it out among workers.
pub trait Share: Sized {
    /// What it stands for.
    ghost standing: { Self → Standing State Entry };

    /// How many asks are left.
    fn room(&self) -> u64
        ensures { result ≡ (standing self.now).left };

    /// A new one that has this many of the asks that are left. It has seen what this one has.
    fn cut(&mut self, asks: u64) -> Self
        requires { asks ≤ (standing self.old).left }
        ensures old { standing self.new ≡ gave (standing self.old) asks }
        ensures new { standing result ≡ given (standing self.old) asks };

    /// Takes in another one of the same desk.
    fn merge(&mut self, other: Self)
        requires { (standing other).desk ≡ (standing self.old).desk }
        ensures joined { AreJoined (standing self.old) (standing other) (standing self.new) }
        ensures legal { (opening : State) → (standing self.old).opening ≡ Some opening → IsLegal farm_rules opening (standing self.new).seen };
}

/// Who serves connections over a share of a desk.
pub trait Serve<P: Share> {
    /// What it tells.
    ghost station: { Self → Station };

    /// Accepts this many times, and serves what comes.
    fn serve_over(&mut self, alloc: Global, connections: u64, share: &mut P) -> Ended
        requires { connections * REQUESTS ≤ (P.standing share.old).left }
        ensures { ServesLegal connections (P.standing share.old) (P.standing share.new) (station self.old ∷ []) (station self.new ∷ []) result };
}

impl<'a, O: Object<Question = Question, Answer = Asked, Law = Farm>, R: Wait> Share
    for Pass<'a, O, R> {
    ghost standing = { λ pass. pass };

    fn room(&self) -> u64 {
        self.left()
    }

    fn cut(&mut self, asks: u64) -> Self {
        self.split(asks)
    }

    fn merge(&mut self, other: Self) {
        self.join(other);
    }
}

impl<
    'a,
    O: Object<Question = Question, Answer = Asked, Law = Farm>,
    R: Wait,
    D: Listener,
    C: Clock,
    I: Draws,
    G: Gate,
> Serve<Pass<'a, O, R>> for Worker<D, C, I, G> {
    ghost station = { λ w. station_of (C.told w.clock) (I.told w.draws) (G.told w.gate) (D.given w.door) (D.taken w.door) (D.out w.door) (D.accepts w.door) (D.faults w.door) };

    fn serve_over(&mut self, alloc: Global, connections: u64, share: &mut Pass<'a, O, R>) -> Ended {
        self.serve(alloc, share, connections)
    }
}
