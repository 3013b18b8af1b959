//! What a caller has of a shared desk while it asks nothing.
ghost use Rattle.std.specs.Prelude.{◌≡◌, ◌+◌, ◌<◌, ◌≤◌, length, Some};
ghost use Rattle.history.specs.Histories.{IsLegal};
ghost use Rattle.shared_desk.specs.Standing.{gave, given, AreJoined};
ghost use Rattle.shared_desk.specs.Rule.{IsAtDesk, HasTurn};

use crate::rule::{Hall, Seat};
use crate::steps::{cut, take_in};
use crate::turn::ask_in_turn;
use farm_desk::Object;
use history::Machine;
use std::marker::{Brand, Model};
use std::sync::Wait;

/// A caller's part of a shared desk: what it has seen, its own calls, and the asks that it has left.
///
/// A contract sees it as what it stands for.
#[derive(Drop)]
pub struct Token<O: Object> {
    pub(crate) seat: Seat<O>,
    pub(crate) left: u64,
    pub(crate) asked: u64,
}

impl<O: Object> Model for Token<O> {
    ghost use Rattle.std.specs.Prelude.{◌≡◌, ◌+◌, ◌≤◌, ◌^◌, length};
    ghost use Rattle.shared_desk.specs.Standing.{Standing};
    ghost use Rattle.shared_desk.specs.Rule.{IsAtRest, standing};

    ghost Value = { Standing O.Law.State O.Law.Entry };

    ghost view = { λ token. standing O.state token.seat.table_id token.seat.me.0 };

    ghost invariant = { λ token. IsAtRest O.Law.rules O.state token.seat.me × (token.left ≡ token.seat.me.0.left) × (token.asked ≡ length token.seat.me.0.mine)
        × (token.left + token.asked ≤ 9223372036854775808) };
}

impl<O: Object> Token<O> {
    /// How many asks it has left.
    pub fn left(&self) -> u64
        ensures { result ≡ self.now.left }
    {
        self.left
    }

    /// How many asks are its own.
    pub fn asked(&self) -> u64
        ensures { result ≡ length self.now.mine }
    {
        self.asked
    }

    /// Asks in turn.
    pub(crate) fn ask<R: Wait>(
        &mut self,
        rt: &R,
        hall: &Hall<O>,
        question: O::Question,
    ) -> O::Answer
        requires at { IsAtDesk hall.now.table_id self.old }
        requires left { 0 < self.old.left }
        ensures { HasTurn O.Law.rules self.old question result self.new }
    {
        self.left -= 1;
        self.asked += 1;
        ask_in_turn(rt, hall, &mut self.seat, question)
    }

    /// Gives asks away.
    pub(crate) fn split(&mut self, hall: &Hall<O>, asks: u64) -> Token<O>
        requires at { IsAtDesk hall.now.table_id self.old }
        requires asks { asks ≤ self.old.left }
        ensures old { self.new ≡ gave self.old asks }
        ensures new { result ≡ given self.old asks }
    {
        let seat = cut::<O, Brand>(hall, &mut self.seat, asks);
        self.left -= asks;
        Token {
            seat,
            left: asks,
            asked: 0,
        }
    }

    /// Takes another one in.
    pub(crate) fn join(&mut self, hall: &Hall<O>, other: Token<O>)
        requires at { IsAtDesk hall.now.table_id self.old }
        requires other { other.desk ≡ self.old.desk }
        ensures joined { AreJoined self.old other self.new }
        ensures legal { (opening : O.Law.State) → self.new.opening ≡ Some opening → IsLegal O.Law.rules opening self.new.seen }
    {
        let Token { seat, left, asked } = other;
        take_in(hall, &mut self.seat, seat);
        self.left += left;
        self.asked += asked;
    }
}
