//! The tasks that a change names, as they will be: copies, which share their definitions with the tasks that stand.
ghost use Rattle.std.specs.Prelude.{◌≡◌, [], ◌∷◌, ◌++◌, map, IfOk, OnOk};
ghost use Rattle.std.specs.Option.{option_to_list};
ghost use Rattle.task_index.specs.Contents.{row_with};
ghost use Rattle.task_index.specs.Plans.{rows_with, named_rows};
ghost use Rattle.farm_rows.specs.Deeds.{kind_of, rows_after};

use crate::copies::claims;
use crate::plan::{Deed, run_room};
use crate::work::make;
use farm_text::{Moment, SlugId};
use run_states::TaskRow;
use std::alloc::{AllocError, Global};
use task_index::index::Index;
use task_index::rows::Rows;
use task_types::RunName;

/// The tasks that a change of tasks that stand names, as they will be, where a new run has this number.
pub(crate) fn shown(
    alloc: Global,
    rows: &Rows<'_>,
    at: Moment,
    number: u64,
    deed: &Deed,
) -> Result<Vec<TaskRow>, AllocError>
    ensures { IfOk result (λ v. v.items ≡ rows_after at number deed.now (named_rows (kind_of deed.now) rows.now)) }
{
    let claims = claims(alloc, at, deed)?;
    let room = run_room(alloc, deed)?;
    let mut shown = match named(alloc, rows, deed) {
        Ok(shown) => shown,
        Err(error) => {
            drop(room);
            drop(claims);
            return Err(error);
        }
    };
    let mut index = Index::given_up();
    make(&mut shown, &mut index, at, number, deed, claims, room);
    drop(index);
    Ok(shown)
}

/// Copies of the tasks that a change names, as far as they stand.
fn named(alloc: Global, rows: &Rows<'_>, deed: &Deed) -> Result<Vec<TaskRow>, AllocError>
    ensures { IfOk result (λ v. v.items ≡ named_rows (kind_of deed.now) rows.now) }
{
    match deed {
        Deed::Create(row) => one(alloc, rows, row.id()),
        Deed::Schedule(id) | Deed::Rerun(id) | Deed::Cancel(id) => one(alloc, rows, *id),
        Deed::Claim(claim) => each(alloc, rows, claim.runs.list()),
        Deed::Reclaim(reclaim) => one(alloc, rows, reclaim.id),
        Deed::Resolve(resolution) => one(alloc, rows, resolution.id),
    }
}

/// A copy of the task with this id, if it stands.
fn one(alloc: Global, rows: &Rows<'_>, id: SlugId) -> Result<Vec<TaskRow>, AllocError>
    ensures { IfOk result (λ v. v.items ≡ rows_with (id ∷ []) rows.now) }
{
    let mut found = Vec::new(alloc);
    add(alloc, &mut found, rows, id)?;
    Ok(found)
}

/// Copies of the tasks of these runs, as far as they stand.
fn each(alloc: Global, rows: &Rows<'_>, names: &[RunName]) -> Result<Vec<TaskRow>, AllocError>
    ensures { IfOk result (λ v. v.items ≡ rows_with (map (λ name. name.id) names.now) rows.now) }
{
    let mut found = Vec::with_capacity(alloc, names.len())?;
    for name in names {
        add(alloc, &mut found, rows, name.id)?;
    }
    Ok(found)
}

/// Adds a copy of the task with this id, if it stands.
fn add(
    alloc: Global,
    found: &mut Vec<TaskRow>,
    rows: &Rows<'_>,
    id: SlugId,
) -> Result<(), AllocError>
    ensures { OnOk result (found.new.items ≡ found.old.items ++ option_to_list (row_with id rows.now)) }
{
    if let Some(row) = rows.with(id) {
        found.push(row.copy(alloc)?)?;
    }
    Ok(())
}
