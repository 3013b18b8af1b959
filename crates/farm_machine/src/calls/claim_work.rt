ghost use Rattle.std.specs.Prelude.{None, ◌≡◌, IfOk};

use crate::case::{Called, Done, Scene};
use call_rules::claim_scopes;
use farm_asks::question::WorkRequest;
use farm_asks::reply::Answer;
use farm_asks::works::{Telling, told};
use farm_text::Moment;
use scope_sets::Expr;
use std::alloc::{AllocError, Global};
use task_types::{Claim, Kind, RunNames};

/// How many runs a worker takes together at most.
const MOST_RUNS: u8 = 32;

/// A worker takes the runs of a queue that are next.
#[derive(Drop)]
pub(crate) struct ClaimWork {
    pub(crate) work: WorkRequest,
}

impl Called for ClaimWork {
    ghost use Rattle.farm_machine.specs.Calls.ClaimWork.{claim_work};

    ghost case = { λ call. claim_work call.work };

    fn parameter(&self, _alloc: Global, _at: &Scene<'_>) -> Result<Option<Answer>, AllocError> {
        Ok(None)
    }

    fn absent(&self, _alloc: Global, _at: &Scene<'_>) -> Result<Option<Answer>, AllocError> {
        Ok(None)
    }

    fn policy(&self, alloc: Global, _at: &Scene<'_>) -> Result<Expr, AllocError> {
        let work = &self.work;
        claim_scopes(alloc, &work.queue, &work.worker_group, &work.worker_id)
    }

    fn rule(&self, _alloc: Global, _at: &Scene<'_>) -> Result<Option<Answer>, AllocError> {
        Ok(None)
    }

    fn deed(self, alloc: Global, at: &Scene<'_>) -> Result<Done, AllocError> {
        let most = self.work.tasks.min(MOST_RUNS);
        let names = match at.tables.picks(alloc, &self.work.queue, most) {
            Ok(names) => names,
            Err(error) => {
                drop(self);
                return Err(error);
            }
        };
        match RunNames::from_list(names) {
            Some(runs) => Ok(Done::Changes(taking(self.work, runs, at.taken_until()))),
            None => {
                drop(self);
                Ok(Done::Reads(told(alloc, Telling::Taken, &[])?))
            }
        }
    }
}

/// The claim of these runs until a moment.
fn taking(work: WorkRequest, runs: RunNames, taken_until: Moment) -> Kind
    ensures { result ≡ Kind.Claim (record { taken_until = taken_until; worker_group = work.worker_group; worker_id = work.worker_id; runs = runs }) }
{
    let WorkRequest {
        queue: _,
        worker_group,
        worker_id,
        tasks: _,
    } = work;
    Kind::Claim(Claim {
        taken_until,
        worker_group,
        worker_id,
        runs,
    })
}
