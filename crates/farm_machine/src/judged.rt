ghost use Rattle.std.specs.Prelude.{◌≡◌, Some, None, option_map};
ghost use Rattle.farm_machine.specs.Judgement.{only_answer};
ghost use Rattle.farm_machine.specs.Written.{AreWritten};

use farm_asks::reply::Answer;
use farm_rows::TaskPlan;

/// A judgement: what a call is answered, and the plan of what it changes.
#[derive(Drop)]
pub(crate) struct Judged {
    pub(crate) answer: Answer,
    pub(crate) change: Option<TaskPlan>,
    /// What is written of the change.
    pub(crate) written: Option<Vec<u8>>,
}

impl Judged {
    /// The judgement of this answer, which changes nothing.
    pub(crate) fn only(answer: Answer) -> Judged
        ensures answer { result.answer ≡ answer }
        ensures change { result.change ≡ None }
        ensures written { AreWritten result.change (option_map (λ r. r.items) result.written) }
    {
        Judged {
            answer,
            change: None,
            written: None,
        }
    }
}
