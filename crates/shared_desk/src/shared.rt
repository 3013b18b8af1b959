//! The shared desk itself.
ghost use Rattle.std.specs.Prelude.{◌≡◌, ◌+◌, ◌^◌, ℕ, List, [], ◌∷◌, length, Some, IfOk, IfErr};
ghost use Rattle.std.specs.List.Sorted.{IsPermutation};
ghost use Rattle.history.specs.Asks.{LeadsAlone};
ghost use Rattle.shared_desk.specs.Standing.{fresh_token};

use crate::pass::Pass;
use crate::rule::{Hall, Turns, ViewOf};
use crate::token::Token;
use atomic_table::{Refused, Table};
use farm_desk::{Desk, Object};
use history::Machine;
use std::alloc::{AllocFailed, Global};
use std::marker::Model;
use std::snapshot::Snapshot;
use std::sync::Wait;

/// How many asks a new desk has.
pub(crate) const ASKS: u64 = 1 << 63;

/// A desk that any number of threads share.
///
/// A contract sees it as which desk it is and the object that it began with.
#[derive(Drop)]
pub struct Shared<O: Object> {
    table: Table<O, ViewOf<O>, Snapshot<O>, Turns, Global>,
}

impl<O: Object> Model for Shared<O> {
    ghost use Rattle.std.specs.Prelude.{◌≡◌};
    ghost use Rattle.shared_desk.specs.Standing.{Beginning};

    ghost Value = { Beginning O };

    ghost view = { λ shared. record { desk = shared.table.shared.table_id; first = shared.table.shared.key.value } };

    ghost invariant = { λ shared. (shared.table.shared.table_id.words ≡ 2) × (shared.table.shared.table_id.slots ≡ 1) };
}

impl<O: Object> Shared<O> {
    /// A desk of this object, and a token that has all its asks, of which there are 2^63; for want of memory the object.
    pub fn new(alloc: Global, object: O) -> Result<(Shared<O>, Token<O>), O>
        ensures first { IfOk result (λ made. made.0.first ≡ object) }
        ensures token { IfOk result (λ made. made.1 ≡ fresh_token made.0.desk (O.state object)) }
        ensures refused { IfErr result (λ back. back ≡ object) }
    {
        let about = Snapshot::of(&object);
        let mut slots = Vec::new(alloc);
        if let Err(failed) = slots.push(object) {
            let AllocFailed { value } = failed;
            slots.destroy_empty();
            return Err(value);
        }
        match Table::new(alloc, &[0, 0], slots, &about) {
            Ok((table, seat)) => Ok((
                Shared { table },
                Token {
                    seat,
                    left: ASKS,
                    asked: 0,
                },
            )),
            Err(refused) => Err(sole(refused)),
        }
    }

    /// A way to ask, for whoever has the token.
    pub fn pass<'a, R: Wait>(&'a self, rt: &'a R, token: Token<O>) -> Pass<'a, O, R>
        requires own { token.desk ≡ self.now.desk }
        ensures same { result ≡ token }
        ensures stands { (opening : O.Law.Opening) → token.opening ≡ Some (O.Law.start opening)
            → ⟦<Pass<'a, O, R> as Desk>⟧.stands result opening token.seen token.mine }
    {
        Pass::over(rt, self, token)
    }

    pub(crate) fn hall(&self) -> &Hall<O>
        ensures desk { result.now.table_id ≡ self.now.desk }
        ensures counts { (result.now.table_id.words ≡ 2) × (result.now.table_id.slots ≡ 1) }
    {
        &self.table.shared
    }

    /// The object, once every ask that was not made and every call is the token's. The history that the token saw is all that
    /// there was; it has the entries of asks in turn and no others, and its calls are the token's own.
    pub fn close(self, token: Token<O>) -> O
        requires own { token.desk ≡ self.desk }
        requires all { token.left + length token.mine ≡ 2 ^ 63 }
        ensures began { token.opening ≡ Some (O.state self.first) }
        ensures ends { (calls : List ℕ) × IsPermutation token.mine calls × LeadsAlone O.Law.rules (O.state self.first) token.seen calls (O.state result) }
        ensures holds { (opening : O.Law.Opening) → O.Law.start opening ≡ O.state self.first → O.holds self.first opening [] → O.holds result opening token.seen }
    {
        let Shared { table } = self;
        let Token {
            seat,
            left: _,
            asked: _,
        } = token;
        let mut closed = table.close_with(seat);
        let object = closed.take(0);
        closed.free();
        object
    }
}

/// The one object of a row that was refused.
fn sole<O>(refused: Refused<O, Global>) -> O
    requires { length refused.slots.items ≡ 1 }
    ensures { refused.slots.items ≡ result ∷ [] }
{
    let Refused { mut slots } = refused;
    match slots.pop() {
        Some(object) => {
            slots.destroy_empty();
            object
        }
        None => unreachable!(),
    }
}
