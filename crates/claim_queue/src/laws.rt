//! Laws of the collections: empty functions, whose contracts are the laws.
ghost use Rattle.std.specs.Prelude.{◌≡◌, ℕ, List, Option};
ghost use Rattle.claim_queue.specs.Dues.{Dues, first_due_of};
ghost use Rattle.claim_queue.specs.Waits.{Waits, best_of};
ghost use Rattle.claim_queue.specs.Firsts.{IsFirstDue, IsBest};

/// The first that falls due is the least of what is held, by its moment and then by its row; and there is one.
pub fn the_first_due_is_one()
    ensures least { (moment : ℕ) (dues : Dues) → IsFirstDue moment dues.rows (first_due_of moment dues) }
    ensures one { (moment : ℕ) (rows : List (Option ℕ)) (a b : Option (ℕ × ℕ)) → IsFirstDue moment rows a → IsFirstDue moment rows b → a ≡ b }
{}

/// The best is the one that goes before all others of its queue, by its priority and then by its number; and there is one.
pub fn the_best_is_one()
    ensures least { (name : List ℕ) (waits : Waits) → IsBest name waits (best_of name waits) }
    ensures one { (name : List ℕ) (waits : Waits) (a b : Option ℕ) → IsBest name waits a → IsBest name waits b → a ≡ b }
{}
