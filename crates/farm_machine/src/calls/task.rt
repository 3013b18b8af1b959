ghost use Rattle.std.specs.Prelude.{None, ◌≡◌, IfOk};

use crate::case::{Called, Done, Scene};
use call_rules::task_scope;
use farm_asks::answers;
use farm_asks::bodies::definition_text;
use farm_asks::reply::Answer;
use farm_text::SlugId;
use scope_sets::Expr;
use std::alloc::{AllocError, Global};

/// The definition of a task.
#[derive(Clone, Copy)]
pub(crate) struct Task {
    pub(crate) id: SlugId,
}

impl Called for Task {
    ghost use Rattle.farm_machine.specs.Calls.Task.{task};

    ghost case = { λ call. task call.id };

    fn parameter(&self, _alloc: Global, _at: &Scene<'_>) -> Result<Option<Answer>, AllocError> {
        Ok(None)
    }

    fn absent(&self, alloc: Global, at: &Scene<'_>) -> Result<Option<Answer>, AllocError> {
        if at.tables.row(self.id).is_some() {
            return Ok(None);
        }
        Ok(Some(answers::no_task(alloc, self.id)?))
    }

    fn policy(&self, alloc: Global, _at: &Scene<'_>) -> Result<Expr, AllocError> {
        task_scope(alloc, self.id)
    }

    fn rule(&self, _alloc: Global, _at: &Scene<'_>) -> Result<Option<Answer>, AllocError> {
        Ok(None)
    }

    fn deed(self, alloc: Global, at: &Scene<'_>) -> Result<Done, AllocError> {
        let Some(row) = at.tables.row(self.id) else {
            unreachable!();
        };
        Ok(Done::Reads(definition_text(alloc, row.definition())?))
    }
}
