//! What calls name that is not there.
ghost use Rattle.std.specs.Prelude.{◌≡◌, IfOk};
ghost use Rattle.farm_machine.specs.Absent.{absent_run};

use crate::case::Scene;
use farm_asks::answers;
use farm_asks::reply::Answer;
use std::alloc::{AllocError, Global};
use task_types::RunName;

/// The answer where the task of a run does not stand, or has no run of this number.
pub(crate) fn absent_run(
    alloc: Global,
    at: &Scene<'_>,
    name: RunName,
) -> Result<Option<Answer>, AllocError>
    ensures { IfOk result (λ a. a ≡ absent_run name at.now) }
{
    match at.tables.row(name.id) {
        Some(row) if usize::from(name.run) < row.runs().len() => Ok(None),
        Some(_) => Ok(Some(answers::no_run(alloc, name)?)),
        None => Ok(Some(answers::no_task(alloc, name.id)?)),
    }
}
