//! What follows from the definitions. The functions do nothing: each contract is a law.
ghost use Rattle.std.specs.Prelude.{◌≡◌, ℕ};
ghost use Rattle.jsone_expr.specs.Trees.{Tree};
ghost use Rattle.jsone_eval.specs.Outcomes.{Outcome};
ghost use Rattle.jsone_eval.specs.Values.{Setting, IsOutcome};

/// An expression has one outcome at most.
pub fn the_outcome_is_one()
    ensures { (s : Setting) (t : Tree) (spent : ℕ) (o p : Outcome) → IsOutcome s t spent o → IsOutcome s t spent p → o ≡ p }
{}

/// No expression is without an outcome: in each setting it has a value and a cost, a fault, or costs too much.
pub fn each_expression_has_an_outcome()
    ensures { (s : Setting) (t : Tree) (spent : ℕ) → ¬ ¬ ((o : Outcome) × IsOutcome s t spent o) }
{}
