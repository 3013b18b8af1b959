//! What follows from the definitions. The functions do nothing: each contract is a law.
ghost use Rattle.std.specs.Prelude.{◌≡◌, ◌≤◌, ℕ};
ghost use Rattle.farm_text.specs.Document.{Document};
ghost use Rattle.jsone_values.specs.Weights.{weight};
ghost use Rattle.jsone_render.specs.Outcomes.{Outcome, given};
ghost use Rattle.jsone_render.specs.Templates.{IsRendered};

/// A template has one outcome at most, with one cost.
pub fn the_rendering_is_one()
    ensures { (template context : Document) (o p : Outcome Document) → IsRendered template context o → IsRendered template context p → o ≡ p }
{}

/// The value of a template weighs no more than may be paid.
pub fn the_value_is_within_the_limit()
    ensures { (template context d : Document) (spent : ℕ) → IsRendered template context (given d spent) → weight d ≤ 1000000 }
{}

/// No template is without an outcome: with each context it comes to a value and its cost, a fault, or costs too much.
pub fn each_template_has_an_outcome()
    ensures { (template context : Document) → ¬ ¬ ((o : Outcome Document) × IsRendered template context o) }
{}
