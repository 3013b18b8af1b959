//! What can be asked by one caller at a time.
ghost use Rattle.std.specs.Prelude.{List, ◌++◌};
ghost use Rattle.history.specs.Histories.{entries, Leads};
ghost use Rattle.history.specs.Asks.{IsAsk};

use history::Machine;

/// An object with a state, which questions lead from one to the next by the rules of a machine.
pub trait Object {
    type Question;

    type Answer;
    /// The rules that each ask follows.
    type Law: Machine<Question = Self::Question, Answer = Self::Answer>;

    /// The machine's state that the object is in.
    ghost state: { Self → Self.Law.State };

    /// What the object keeps, beside its state, of a history since an opening, as the records on a disk. Where an object says
    /// nothing it is nothing.
    ghost holds: { Self → Self.Law.Opening → List Self.Law.Entry → Type 0 } = { λ _ _ _. Unit {0} };

    /// Asks one question. There is an entry that is this ask's call: the ask's entries lead from the old state to the new one,
    /// and a history that the object held goes on by them.
    fn ask(&mut self, question: Self::Question) -> Self::Answer
        ensures { (call : Self.Law.Entry)
            × IsAsk Self.Law.rules (state self.old) question result call (state self.new)
            × ((opening : Self.Law.Opening) (seen : List Self.Law.Entry)
            → Leads Self.Law.rules (Self.Law.start opening) seen (state self.old)
            → holds self.old opening seen
            → holds self.new opening (seen ++ entries Self.Law.rules (state self.old) question result call)) };
}
