ghost use Rattle.std.specs.Prelude.{◌≡◌, None, IfOk};
ghost use Rattle.farm_machine.specs.Case.{IsFirstRule};
ghost use Rattle.farm_machine.specs.Calls.CreateTask.{joining};

use crate::case::{Called, Done, Scene};
use crate::tables::Tables;
use call_rules::create_policy;
use farm_asks::answers;
use farm_asks::reply::Answer;
use scope_sets::Expr;
use std::alloc::{AllocError, Global};
use task_types::{Creation, Kind, same};

/// A task is made.
#[derive(Drop)]
pub(crate) struct CreateTask {
    pub(crate) creation: Creation,
}

impl Called for CreateTask {
    ghost use Rattle.farm_machine.specs.Calls.CreateTask.{create_task};

    ghost case = { λ call. create_task call.creation };

    fn parameter(&self, _alloc: Global, _at: &Scene<'_>) -> Result<Option<Answer>, AllocError> {
        Ok(None)
    }

    fn absent(&self, _alloc: Global, _at: &Scene<'_>) -> Result<Option<Answer>, AllocError> {
        Ok(None)
    }

    fn policy(&self, alloc: Global, _at: &Scene<'_>) -> Result<Expr, AllocError> {
        create_policy(alloc, &self.creation.definition)
    }

    fn rule(&self, alloc: Global, at: &Scene<'_>) -> Result<Option<Answer>, AllocError> {
        let definition = &self.creation.definition;
        if let Some(row) = at.tables.row(self.creation.id) {
            if same(row.definition(), definition) {
                return Ok(Some(answers::status(alloc, row)?));
            }
            return Ok(Some(answers::conflict(alloc, 1, row)?));
        }
        if definition.deadline <= at.moment {
            return Ok(Some(answers::too_late(alloc)?));
        }
        let joining = joining(alloc, at.tables, &self.creation)?;
        Ok(joining)
    }

    fn deed(self, _alloc: Global, _at: &Scene<'_>) -> Result<Done, AllocError> {
        Ok(Done::Changes(Kind::Create(self.creation)))
    }
}

/// The answer of the first rule that ends the making of a new task: of what it waits for, and of its group.
fn joining(
    alloc: Global,
    tables: &Tables,
    creation: &Creation,
) -> Result<Option<Answer>, AllocError>
    ensures { IfOk result (λ a. IsFirstRule (joining creation.now tables.now.rows) a) }
{
    if let Some(id) = tables.missing_dependency(creation) {
        return Ok(Some(answers::bad_dependency(alloc, 16, id)?));
    }
    if let Some(id) = tables.early_dependency(creation) {
        return Ok(Some(answers::bad_dependency(alloc, 17, id)?));
    }
    if let Some(kept) = tables.scheduler_besides(creation) {
        return Ok(Some(answers::other_scheduler(alloc, kept.as_str())?));
    }
    Ok(None)
}
