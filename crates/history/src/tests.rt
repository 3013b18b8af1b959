//! A small machine, and one history of it that was worked by hand.
ghost use Rattle.std.specs.Prelude.{◌≡◌, ℕ, ◌+◌, List, [], ◌∷◌, Option, Some, None, true, false, option_map};
ghost use Rattle.history.specs.Histories.{end_state, reply_at, asked_at, calls_of};
ghost use Rattle.history.specs.Asks.{HasOneEntry};

use super::*;

/// A sum to which a call adds, and which a tick sets back to 0. A call replies the new sum; its answer says also whether a
/// tick came before it.
struct Adding {}

impl Machine for Adding {
    type Question = u64;

    type Answer = (bool, u64);

    type State = u64;

    type Entry = Option<u64>;

    type Reply = u64;

    type Opening = u64;

    ghost rules = { record {
      lawful = λ sum entry. Unit {0};
      after = λ sum entry. elim entry [ None ↦ 0 | Some n ↦ sum + n ];
      reply = λ sum entry. option_map (λ n. sum + n) entry;
      asked = λ entry. entry;
      ticks = λ sum n answer. elim answer.0 [ true ↦ None ∷ [] | false ↦ [] ];
      told = λ answer. answer.1;
    } };

    ghost start = { λ opening. opening };
}

/// From 5: add 2 (it replies 7), back to 0, add 3 (3), add 4 (7).
fn worked_by_hand()
    ensures ends { end_state ⟦<Adding as Machine>⟧.rules 5 (Some 2 ∷ None ∷ Some 3 ∷ Some 4 ∷ []) ≡ 7 }
    ensures calls { calls_of ⟦<Adding as Machine>⟧.rules 0 (Some 2 ∷ None ∷ Some 3 ∷ Some 4 ∷ []) ≡ 0 ∷ 2 ∷ 3 ∷ [] }
    ensures first { reply_at ⟦<Adding as Machine>⟧.rules 5 (Some 2 ∷ None ∷ Some 3 ∷ Some 4 ∷ []) 0 ≡ Some 7 }
    ensures later { reply_at ⟦<Adding as Machine>⟧.rules 5 (Some 2 ∷ None ∷ Some 3 ∷ Some 4 ∷ []) 2 ≡ Some 3 }
    ensures tick { asked_at ⟦<Adding as Machine>⟧.rules (Some 2 ∷ None ∷ Some 3 ∷ Some 4 ∷ []) 1 ≡ None }
{}

/// A question has one entry, so a question and a reply have one.
fn a_sum_has_one_entry()
    ensures { HasOneEntry ⟦<Adding as Machine>⟧.rules }
{}

#[test]
fn a_history_of_sums() {
    worked_by_hand();
    a_sum_has_one_entry();
    histories_go_on::<Adding>();
    calls_have_one_place::<Adding>();
    asks_have_one_outcome::<Adding>();
}
