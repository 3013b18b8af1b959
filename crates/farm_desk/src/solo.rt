//! A desk of one caller, who has the object alone.
ghost use Rattle.std.specs.Prelude.{◌≡◌, ◌^◌, ◌↔◌, ℕ, List, []};
ghost use Rattle.history.specs.Asks.{LeadsAlone};
ghost use Rattle.farm_desk.specs.Home.{nowhere};

use crate::desk::{Desk, Spare};
use crate::object::Object;
use history::Machine;
use std::marker::Model;

/// How many asks a new desk has.
const ASKS: u64 = 1 << 63;

/// The desk of one caller, who has its object alone: the history that it stands for has no calls but its own.
///
/// A contract sees it as its object and the number of asks that are left.
#[derive(Drop)]
pub struct Solo<O> {
    object: O,
    left: u64,
}

impl<O> Model for Solo<O> {
    ghost use Rattle.std.specs.Prelude.{ℕ};

    ghost Value = { O × ℕ };

    ghost view = { λ solo. (solo.object, solo.left) };
}

impl<O: Object> Solo<O> {
    /// A desk at which this object can be asked 2^63 times. It stands for exactly what leads, by these calls alone, to the
    /// object's state and is held by the object: with no call yet, for each opening that begins in that state.
    pub fn new(object: O) -> Self
        ensures object { result ≡ (object, 2 ^ 63) }
        ensures left { ⟦<Solo<O> as Spare>⟧.spare result ≡ 2 ^ 63 }
        ensures home { ⟦<Solo<O> as Desk>⟧.home result ≡ nowhere }
        ensures stands { (opening : O.Law.Opening) (seen : List O.Law.Entry) (mine : List ℕ)
            → ⟦<Solo<O> as Desk>⟧.stands result opening seen mine
            ↔ (LeadsAlone O.Law.rules (O.Law.start opening) seen mine (O.state object) × O.holds object opening seen) }
        ensures fresh { (opening : O.Law.Opening)
            → O.Law.start opening ≡ O.state object
            → O.holds object opening []
            → ⟦<Solo<O> as Desk>⟧.stands result opening [] [] }
    {
        Solo { object, left: ASKS }
    }

    /// The object itself. The desk stood for exactly what leads to its state and is held by it.
    pub fn into_object(self) -> O
        ensures object { result ≡ self.0 }
        ensures stood { (opening : O.Law.Opening) (seen : List O.Law.Entry) (mine : List ℕ)
            → ⟦<Solo<O> as Desk>⟧.stands self opening seen mine
            ↔ (LeadsAlone O.Law.rules (O.Law.start opening) seen mine (O.state result) × O.holds result opening seen) }
    {
        let Solo { object, left: _ } = self;
        object
    }
}

impl<O: Object> Spare for Solo<O> {
    ghost spare = { λ solo. solo.1 };

    fn left(&self) -> u64 {
        self.left
    }
}

impl<O: Object> Desk for Solo<O> {
    type Question = O::Question;

    type Answer = O::Answer;

    type Law = O::Law;

    ghost stands = { λ solo opening seen mine. LeadsAlone O.Law.rules (O.Law.start opening) seen mine (O.state solo.0) × O.holds solo.0 opening seen };

    ghost home = { λ solo. nowhere };

    fn ask(&mut self, question: O::Question) -> O::Answer {
        self.left -= 1;
        self.object.ask(question)
    }

    ghost legal = { λ solo opening seen mine stood. stood.0.legal };
}
