ghost use Rattle.std.specs.Prelude.{None, ◌≡◌, IfOk};

use crate::case::{Called, Done, Scene};
use crate::named::absent_run;
use call_rules::reclaim_scope;
use farm_asks::answers;
use farm_asks::reply::Answer;
use scope_sets::Expr;
use std::alloc::{AllocError, Global};
use task_types::{Kind, Reclaim, RunName};

/// A worker keeps its run for longer.
#[derive(Clone, Copy)]
pub(crate) struct ReclaimTask {
    pub(crate) name: RunName,
}

impl Called for ReclaimTask {
    ghost use Rattle.farm_machine.specs.Calls.ReclaimTask.{reclaim_task};

    ghost case = { λ call. reclaim_task call.name };

    fn parameter(&self, _alloc: Global, _at: &Scene<'_>) -> Result<Option<Answer>, AllocError> {
        Ok(None)
    }

    fn absent(&self, alloc: Global, at: &Scene<'_>) -> Result<Option<Answer>, AllocError> {
        absent_run(alloc, at, self.name)
    }

    fn policy(&self, alloc: Global, _at: &Scene<'_>) -> Result<Expr, AllocError> {
        reclaim_scope(alloc, self.name.id, self.name.run)
    }

    fn rule(&self, alloc: Global, at: &Scene<'_>) -> Result<Option<Answer>, AllocError> {
        let Some(row) = at.tables.row(self.name.id) else {
            unreachable!();
        };
        if !row.is_running_at(self.name.run) {
            return Ok(Some(answers::conflict(alloc, 3, row)?));
        }
        Ok(None)
    }

    fn deed(self, _alloc: Global, at: &Scene<'_>) -> Result<Done, AllocError> {
        let taken_until = at.taken_until();
        let RunName { id, run } = self.name;
        Ok(Done::Changes(Kind::Reclaim(Reclaim {
            id,
            run,
            taken_until,
        })))
    }
}
