ghost use Rattle.std.specs.Prelude.{None, ◌≡◌, IfOk};
ghost use Rattle.farm_machine.specs.Case.{IsFirstRule};
ghost use Rattle.farm_machine.specs.Calls.RerunTask.{rerun_rules};

use crate::case::{Called, Done, Scene};
use call_rules::rerun_scopes;
use farm_asks::answers;
use farm_asks::reply::Answer;
use farm_text::{Moment, SlugId};
use run_states::{MOST_RUNS, TaskRow};
use scope_sets::Expr;
use std::alloc::{AllocError, Global};
use task_types::Kind;

/// A resolved task is run again.
#[derive(Clone, Copy)]
pub(crate) struct RerunTask {
    pub(crate) id: SlugId,
}

impl Called for RerunTask {
    ghost use Rattle.farm_machine.specs.Calls.RerunTask.{rerun_task};

    ghost case = { λ call. rerun_task call.id };

    fn parameter(&self, _alloc: Global, _at: &Scene<'_>) -> Result<Option<Answer>, AllocError> {
        Ok(None)
    }

    fn absent(&self, alloc: Global, at: &Scene<'_>) -> Result<Option<Answer>, AllocError> {
        if at.tables.row(self.id).is_some() {
            return Ok(None);
        }
        Ok(Some(answers::no_task(alloc, self.id)?))
    }

    fn policy(&self, alloc: Global, at: &Scene<'_>) -> Result<Expr, AllocError> {
        let Some(row) = at.tables.row(self.id) else {
            unreachable!();
        };
        rerun_scopes(alloc, self.id, row.definition())
    }

    fn rule(&self, alloc: Global, at: &Scene<'_>) -> Result<Option<Answer>, AllocError> {
        let Some(row) = at.tables.row(self.id) else {
            unreachable!();
        };
        rule_of(alloc, row, at.moment)
    }

    fn deed(self, _alloc: Global, _at: &Scene<'_>) -> Result<Done, AllocError> {
        Ok(Done::Changes(Kind::Rerun(self.id)))
    }
}

/// The answer of the first rule that ends a rerun of this task at a moment.
fn rule_of(alloc: Global, row: &TaskRow, at: Moment) -> Result<Option<Answer>, AllocError>
    ensures { IfOk result (λ a. IsFirstRule (rerun_rules row.now at) a) }
{
    if !row.is_unscheduled() && !row.is_resolved() {
        return Ok(Some(answers::status(alloc, row)?));
    }
    if row.is_unscheduled() {
        return Ok(Some(answers::conflict(alloc, 4, row)?));
    }
    if row.definition().deadline <= at {
        return Ok(Some(answers::conflict(alloc, 5, row)?));
    }
    if row.runs().len() >= MOST_RUNS {
        return Ok(Some(answers::conflict(alloc, 6, row)?));
    }
    Ok(None)
}
