ghost use Rattle.std.specs.Prelude.{None, ◌≡◌, IfOk};

use crate::case::{Called, Done, Scene};
use crate::pages::{bad_token, read_page};
use call_rules::list_dependants_scope;
use farm_asks::answers;
use farm_asks::question::PageRequest;
use farm_asks::reply::Answer;
use farm_text::SlugId;
use scope_sets::Expr;
use std::alloc::{AllocError, Global};
use task_index::lists::TaskList;

/// A page of the tasks that wait for a task.
#[derive(Clone, Copy)]
pub(crate) struct ListDependentTasks {
    pub(crate) id: SlugId,
    pub(crate) page: PageRequest,
}

impl Called for ListDependentTasks {
    ghost use Rattle.farm_machine.specs.Calls.ListDependentTasks.{list_dependent_tasks};

    ghost case = { λ call. list_dependent_tasks call.id call.page };

    fn parameter(&self, alloc: Global, at: &Scene<'_>) -> Result<Option<Answer>, AllocError> {
        bad_token(alloc, at, &TaskList::Dependants(self.id), &self.page)
    }

    fn absent(&self, alloc: Global, at: &Scene<'_>) -> Result<Option<Answer>, AllocError> {
        if at.tables.row(self.id).is_some() {
            return Ok(None);
        }
        Ok(Some(answers::no_task(alloc, self.id)?))
    }

    fn policy(&self, alloc: Global, _at: &Scene<'_>) -> Result<Expr, AllocError> {
        list_dependants_scope(alloc, self.id)
    }

    fn rule(&self, _alloc: Global, _at: &Scene<'_>) -> Result<Option<Answer>, AllocError> {
        Ok(None)
    }

    fn deed(self, alloc: Global, at: &Scene<'_>) -> Result<Done, AllocError> {
        let page = read_page(alloc, at, &TaskList::Dependants(self.id), &self.page)?;
        Ok(Done::Reads(page))
    }
}
