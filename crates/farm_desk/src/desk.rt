//! Where a caller asks.
ghost use Rattle.std.specs.Prelude.{◌≡◌, ℕ, ◌+◌, ◌<◌, List};
ghost use Rattle.history.specs.Histories.{IsLegal};
ghost use Rattle.history.specs.Asks.{HasAsked};
ghost use Rattle.farm_desk.specs.Home.{Home};

use history::Machine;

/// A number of asks that are left. An object that is shared counts its asks in 64 bits, so they end.
pub trait Spare {
    /// How many asks may still be made here.
    ghost spare: { Self → ℕ };

    /// How many asks may still be made here.
    fn left(&self) -> u64
        ensures { result ≡ spare self.now };
}

/// One caller's way to ask an object, alone or among others.
pub trait Desk: Spare {
    type Question;

    type Answer;
    /// The rules that each ask follows.
    type Law: Machine<Question = Self::Question, Answer = Self::Answer>;

    /// An opening, the history that was seen since, and the places there of this desk's own calls, in the order of asking.
    ghost stands: { Self → Self.Law.Opening → List Self.Law.Entry → List ℕ → Type 0 };

    /// What no ask changes.
    ghost home: { Self → Home Self.Law.State };

    /// Asks one question, of which at least one must be left.
    ///
    /// Whatever the desk stood for, it stands for a longer history, which may tell first what others did, and ends with this
    /// ask. Its call is the desk's own, and stands there with this question and the answer's reply.
    fn ask(&mut self, question: Self::Question) -> Self::Answer
        requires { 0 < Self.spare self.old }
        ensures home { home self.new ≡ home self.old }
        ensures left { Self.spare self.new + 1 ≡ Self.spare self.old }
        ensures asked { (opening : Self.Law.Opening) (seen : List Self.Law.Entry) (mine : List ℕ)
            → stands self.old opening seen mine
            → HasAsked Self.Law.rules (stands self.new opening) (Self.Law.start opening) seen mine question result };

    /// What a desk stands for is legal.
    ghost legal: { (desk : Self) (opening : Self.Law.Opening) (seen : List Self.Law.Entry) (mine : List ℕ)
        → stands desk opening seen mine
        → IsLegal Self.Law.rules (Self.Law.start opening) seen };
}
