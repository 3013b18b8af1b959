//! A call that is judged, with the reply and all the memory that its change takes.
ghost use Rattle.std.specs.Prelude.{◌≡◌, Some, None, MatchOption};
ghost use Rattle.task_types.specs.declared.change.Change.{Change};
ghost use Rattle.farm_record.specs.Records.{IsRecord};

use crate::judged::Judged;
use farm_text::Moment;
use std::marker::Model;

/// A call that is judged and has all its memory: its moment, its judgement, the plan of its change, and that change's record.
#[derive(Drop)]
pub struct Plan {
    pub(crate) moment: Moment,
    pub(crate) judged: Judged,
}

impl Model for Plan {
    ghost use Rattle.std.specs.Prelude.{◌≤◌, option_map};
    ghost use Rattle.std.specs.Coded.{codes};
    ghost use Rattle.task_types.specs.Codes.{members_code};
    ghost use Rattle.farm_text.specs.declared.moment.TheConstants.{LAST_TOLD_MOMENT};
    ghost use Rattle.farm_machine.specs.Planned.{Planned, judgement_of};
    ghost use Rattle.farm_machine.specs.Written.{AreRecorded};

    ghost Value = { Planned };

    ghost coded = { Prim.hlevel (codes, members_code) };

    ghost view = { λ p. record { moment = p.moment; judgement = judgement_of p.judged; tasks = p.judged.change } };

    ghost invariant = { λ p. (p.moment ≤ LAST_TOLD_MOMENT) × AreRecorded p.judged.change (option_map (λ r. r.items) p.judged.written) };
}

impl Plan {
    /// The record of its change, if it has one. It is borrowed.
    pub fn record_text(&self) -> Option<&[u8]>
        ensures { MatchOption result (self.now.judgement.change ≡ None)
            (λ text. (change : Change) × (self.now.judgement.change ≡ Some change) × IsRecord change text.now) }
    {
        match &self.judged.written {
            Some(text) => Some(text.as_slice()),
            None => None,
        }
    }
}
