ghost use Rattle.std.specs.Prelude.{None, ◌≡◌, IfOk};

use crate::case::{Called, Done, Scene};
use crate::pages::{bad_token, read_page};
use call_rules::list_group_scope;
use farm_asks::answers;
use farm_asks::question::PageRequest;
use farm_asks::reply::Answer;
use farm_text::SlugId;
use scope_sets::Expr;
use std::alloc::{AllocError, Global};
use task_index::lists::TaskList;

/// A page of the tasks of a group.
#[derive(Clone, Copy)]
pub(crate) struct ListTaskGroup {
    pub(crate) group: SlugId,
    pub(crate) page: PageRequest,
}

impl Called for ListTaskGroup {
    ghost use Rattle.farm_machine.specs.Calls.ListTaskGroup.{list_task_group};

    ghost case = { λ call. list_task_group call.group call.page };

    fn parameter(&self, alloc: Global, at: &Scene<'_>) -> Result<Option<Answer>, AllocError> {
        bad_token(alloc, at, &TaskList::Group(self.group), &self.page)
    }

    fn absent(&self, alloc: Global, at: &Scene<'_>) -> Result<Option<Answer>, AllocError> {
        if at.tables.has_group(self.group) {
            return Ok(None);
        }
        Ok(Some(answers::no_group(alloc, self.group)?))
    }

    fn policy(&self, alloc: Global, _at: &Scene<'_>) -> Result<Expr, AllocError> {
        list_group_scope(alloc, self.group)
    }

    fn rule(&self, _alloc: Global, _at: &Scene<'_>) -> Result<Option<Answer>, AllocError> {
        Ok(None)
    }

    fn deed(self, alloc: Global, at: &Scene<'_>) -> Result<Done, AllocError> {
        let page = read_page(alloc, at, &TaskList::Group(self.group), &self.page)?;
        Ok(Done::Reads(page))
    }
}
