ghost use Rattle.std.specs.Prelude.{None, ◌≡◌, IfOk};

use crate::case::{Called, Done, Scene};
use call_rules::schedule_scopes;
use farm_asks::answers;
use farm_asks::reply::Answer;
use farm_text::SlugId;
use scope_sets::Expr;
use std::alloc::{AllocError, Global};
use task_types::Kind;

/// An unscheduled task becomes pending, whatever it waits for.
#[derive(Clone, Copy)]
pub(crate) struct ScheduleTask {
    pub(crate) id: SlugId,
}

impl Called for ScheduleTask {
    ghost use Rattle.farm_machine.specs.Calls.ScheduleTask.{schedule_task};

    ghost case = { λ call. schedule_task call.id };

    fn parameter(&self, _alloc: Global, _at: &Scene<'_>) -> Result<Option<Answer>, AllocError> {
        Ok(None)
    }

    fn absent(&self, alloc: Global, at: &Scene<'_>) -> Result<Option<Answer>, AllocError> {
        if at.tables.row(self.id).is_some() {
            return Ok(None);
        }
        Ok(Some(answers::no_task(alloc, self.id)?))
    }

    fn policy(&self, alloc: Global, at: &Scene<'_>) -> Result<Expr, AllocError> {
        let Some(row) = at.tables.row(self.id) else {
            unreachable!();
        };
        schedule_scopes(alloc, self.id, row.definition())
    }

    fn rule(&self, alloc: Global, at: &Scene<'_>) -> Result<Option<Answer>, AllocError> {
        let Some(row) = at.tables.row(self.id) else {
            unreachable!();
        };
        if !row.is_unscheduled() {
            return Ok(Some(answers::status(alloc, row)?));
        }
        Ok(None)
    }

    fn deed(self, _alloc: Global, _at: &Scene<'_>) -> Result<Done, AllocError> {
        Ok(Done::Changes(Kind::Schedule(self.id)))
    }
}
