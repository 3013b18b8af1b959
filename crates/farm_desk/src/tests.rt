//! A small object, asked by a caller who knows no more than that it is at a desk.
ghost use Rattle.std.specs.Prelude.{◌≡◌, ℕ, ◌+◌, ◌<◌, List, [], ◌∷◌, Option, Some, None, true, false, option_map};
ghost use Rattle.history.specs.Asks.{AsksInTurn};

use super::*;
use history::Machine;
use std::test::Fail;

/// A sum to which a call adds, and which a tick sets back to 0. A call replies the new sum; its answer says also whether a
/// tick came before it.
struct Adding {}

impl Machine for Adding {
    type Question = u8;

    type Answer = (bool, u64);

    type State = u64;

    type Entry = Option<u8>;

    type Reply = u64;

    type Opening = u64;

    ghost rules = { record {
      lawful = λ sum entry. Unit {0};
      after = λ sum entry. elim entry [ None ↦ 0 | Some n ↦ sum + n ];
      reply = λ sum entry. option_map (λ n. sum + n) entry;
      asked = λ entry. entry;
      ticks = λ sum n answer. elim answer.0 [ true ↦ None ∷ [] | false ↦ [] ];
      told = λ answer. answer.1;
    } };

    ghost start = { λ opening. opening };
}

/// A sum in a variable. One that is full is set back to 0 before the next is added.
struct Sum {
    sum: u64,
}

impl Object for Sum {
    type Question = u8;

    type Answer = (bool, u64);

    type Law = Adding;

    ghost state = { λ object. object.sum };

    fn ask(&mut self, question: u8) -> (bool, u64) {
        let full = self.sum > 1000;
        if full {
            self.sum = 0;
        }
        self.sum += u64::from(question);
        (full, self.sum)
    }
}

/// Two questions in turn, at any desk.
fn ask_two<K: Desk>(desk: &mut K, first: K::Question, second: K::Question) -> (K::Answer, K::Answer)
    requires { 1 < K.spare desk.old }
    ensures home { K.home desk.new ≡ K.home desk.old }
    ensures left { K.spare desk.new + 2 ≡ K.spare desk.old }
    ensures turns { AsksInTurn K.Law.rules K.Law.start (K.stands desk.old) (K.stands desk.new) (first ∷ second ∷ [])
        (K.Law.rules.told result.0 ∷ K.Law.rules.told result.1 ∷ []) }
{
    let one = desk.ask(first);
    let two = desk.ask(second);
    (one, two)
}

#[test]
fn sums_at_a_desk(rt: HostRuntime) -> Result<(), Fail> {
    let mut desk = Solo::new(Sum { sum: 999 });
    assert_eq!(rt; desk.left(), 9_223_372_036_854_775_808);
    let (first, second) = ask_two(&mut desk, 2, 3);
    assert_eq!(rt; first, (false, 1001));
    assert_eq!(rt; second, (true, 3));
    assert_eq!(rt; desk.left(), 9_223_372_036_854_775_806);
    let Sum { sum } = desk.into_object();
    assert_eq!(rt; sum, 3);
    Ok(())
}
