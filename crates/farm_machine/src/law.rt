//! The law of a farm: the marker that names it, and that a verdict is one.
ghost use Rattle.std.specs.Prelude.{◌≡◌};
ghost use Rattle.farm_asks.specs.Questions.{Asking};
ghost use Rattle.farm_machine.specs.State.{State};
ghost use Rattle.farm_machine.specs.Judgement.{Judgement};
ghost use Rattle.farm_machine.specs.Step.{farm_rules};
ghost use Rattle.farm_machine.specs.Verdict.{IsVerdict};

use farm_asks::question::Question;
use farm_asks::reply::{Asked, Reply};
use history::Machine;
use std::marker::Model;

/// The law of a farm, by name. No value of it is made.
pub struct Farm {}

/// Stands for the states of a farm where a type is asked for. No value of it is made.
pub struct States {}

impl Model for States {
    ghost use Rattle.std.specs.Coded.{codes};
    ghost use Rattle.task_types.specs.Codes.{members_code};
    ghost use Rattle.hook_book.specs.Codes.{document_code};
    ghost use Rattle.farm_machine.specs.State.{State, empty_state, no_config};

    ghost Value = { State };

    ghost coded = { Prim.hlevel (codes, members_code, document_code) };

    ghost view = { λ _. empty_state no_config };
}

/// Stands for the entries of a history where a type is asked for. No value of it is made.
pub struct Entries {}

impl Model for Entries {
    ghost use Rattle.std.specs.Coded.{codes};
    ghost use Rattle.task_types.specs.Codes.{members_code};
    ghost use Rattle.hook_book.specs.Codes.{document_code};
    ghost use Rattle.farm_machine.specs.Entry.{Entry, tick};

    ghost Value = { Entry };

    ghost coded = { Prim.hlevel (codes, members_code, document_code) };

    ghost view = { λ _. tick 0 };
}

/// Stands for the openings of a history where a type is asked for. No value of it is made.
pub struct Openings {}

impl Model for Openings {
    ghost use Rattle.std.specs.Coded.{codes};
    ghost use Rattle.task_types.specs.Codes.{members_code};
    ghost use Rattle.hook_book.specs.Codes.{document_code};
    ghost use Rattle.std.specs.Prelude.{[]};
    ghost use Rattle.farm_machine.specs.Law.{Opening};
    ghost use Rattle.farm_machine.specs.State.{empty_state, no_config};

    ghost Value = { Opening };

    ghost coded = { Prim.hlevel (codes, members_code, document_code) };

    ghost view = { λ _. record { state = empty_state no_config; records = []; faults = 0 } };
}

impl Machine for Farm {
    type Question = Question;

    type Answer = Asked;

    type State = States;

    type Entry = Entries;

    type Reply = Reply;

    type Opening = Openings;

    ghost use Rattle.farm_machine.specs.Law.{opened};
    ghost use Rattle.farm_machine.specs.Step.{farm_rules};

    ghost rules = { farm_rules };

    ghost start = { opened };
}

/// The verdict of a call is one: no other judgement is the first in the order of refusals.
pub fn verdict_is_one()
    ensures { (state : State) (asking : Asking) (judgement other : Judgement)
        → IsVerdict state asking judgement → IsVerdict state asking other → judgement ≡ other }
{}
