//! A caller's way to ask.
ghost use Rattle.std.specs.Prelude.{◌≡◌, ◌≤◌, List, ℕ, Some};
ghost use Rattle.shared_desk.specs.Standing.{gave, given, AreJoined, StandsFor, home_of};

use crate::shared::Shared;
use crate::token::Token;
use farm_desk::{Desk, Object, Spare};
use history::Machine;
use std::marker::Model;
use std::sync::Wait;

/// A way to ask at a shared desk, for one thread at a time. An ask may wait for others' asks.
///
/// A contract sees it as what it stands for, as its token.
#[derive(Drop)]
pub struct Pass<'a, O: Object, R: Wait> {
    rt: &'a R,
    shared: &'a Shared<O>,
    token: Token<O>,
}

impl<'a, O: Object, R: Wait> Model for Pass<'a, O, R> {
    ghost use Rattle.std.specs.Prelude.{◌≡◌};
    ghost use Rattle.shared_desk.specs.Standing.{Standing};

    ghost Value = { Standing O.Law.State O.Law.Entry };

    ghost view = { λ pass. pass.token };

    ghost invariant = { λ pass. pass.token.desk ≡ pass.shared.now.desk };
}

impl<'a, O: Object, R: Wait> Pass<'a, O, R> {
    pub(crate) fn over(rt: &'a R, shared: &'a Shared<O>, token: Token<O>) -> Pass<'a, O, R>
        requires { token.desk ≡ shared.now.desk }
        ensures same { result ≡ token }
        ensures stands { (opening : O.Law.Opening) → token.opening ≡ Some (O.Law.start opening)
            → ⟦<Pass<'a, O, R> as Desk>⟧.stands result opening token.seen token.mine }
    {
        Pass { rt, shared, token }
    }

    /// A new pass that has this many of the asks that are left. It has seen what this one has.
    pub fn split(&mut self, asks: u64) -> Pass<'a, O, R>
        requires { asks ≤ self.old.left }
        ensures old { self.new ≡ gave self.old asks }
        ensures new { result ≡ given self.old asks }
    {
        let token = self.token.split(self.shared.hall(), asks);
        Pass::over(self.rt, self.shared, token)
    }

    /// Takes in a pass of the same desk, with all that it has seen, its calls and the asks that it has left.
    pub fn join(&mut self, other: Pass<'a, O, R>)
        requires { other.desk ≡ self.old.desk }
        ensures joined { AreJoined self.old other.entry self.new }
        ensures stands { (opening : O.Law.Opening) → self.old.opening ≡ Some (O.Law.start opening)
            → ⟦<Pass<'a, O, R> as Desk>⟧.stands self.new opening self.new.seen self.new.mine }
    {
        let Pass {
            rt: _,
            shared: _,
            token,
        } = other;
        self.token.join(self.shared.hall(), token);
    }

    /// The token, with all that the pass stands for.
    pub fn token(self) -> Token<O>
        ensures { result ≡ self.entry }
    {
        let Pass {
            rt: _,
            shared: _,
            token,
        } = self;
        token
    }
}

impl<'a, O: Object, R: Wait> Spare for Pass<'a, O, R> {
    ghost spare = { λ pass. pass.left };

    fn left(&self) -> u64 {
        self.token.left()
    }
}

impl<'a, O: Object, R: Wait> Desk for Pass<'a, O, R> {
    type Question = O::Question;

    type Answer = O::Answer;

    type Law = O::Law;

    ghost stands = { λ pass opening seen mine. StandsFor O.Law.rules O.Law.start pass opening seen mine };

    ghost home = { λ pass. home_of pass };

    fn ask(&mut self, question: O::Question) -> O::Answer {
        self.token.ask(self.rt, self.shared.hall(), question)
    }

    ghost legal = { λ pass opening seen mine stood. stood.3 };
}
