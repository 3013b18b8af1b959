//! The tasks that a new one waits for.
ghost use Rattle.std.specs.Prelude.{◌≡◌, nat_le, nat_lt, false, option_copied};
ghost use Rattle.std.specs.Option.{option_map_or};
ghost use Rattle.task_index.specs.Contents.{row_with};
ghost use Rattle.task_index.specs.Changes.{waits_well};
ghost use Rattle.farm_rows.specs.Waits.{is_missing, is_early, missing_dependency, early_dependency};

use farm_text::{Moment, SlugId};
use task_index::rows::Rows;
use task_types::Creation;

/// Whether each task that a new one waits for stands, and expires no earlier than its deadline; or is the task itself.
pub(crate) fn waits_well(rows: &Rows<'_>, creation: &Creation) -> bool
    ensures { result ≡ waits_well creation.now rows.now }
{
    let deadline = creation.definition.deadline;
    creation.definition.dependencies.list().iter().all(|id| *id == creation.id
        || stands_until(rows, *id, deadline))
}

/// Whether the task with this id stands, and expires no earlier than this.
fn stands_until(rows: &Rows<'_>, id: SlugId, moment: Moment) -> bool
    ensures { result ≡ option_map_or (λ row. nat_le moment row.definition.expires) (row_with id rows.now) false }
{
    match rows.with(id) {
        Some(row) => moment <= row.definition().expires,
        None => false,
    }
}

/// The first task that a new one waits for, that is not the task itself and does not stand.
pub(crate) fn missing_dependency(rows: &Rows<'_>, creation: &Creation) -> Option<SlugId>
    ensures { result ≡ missing_dependency creation.now rows.now }
{
    match find_missing(rows, creation) {
        Some(id) => Some(*id),
        None => None,
    }
}

/// The first task that a new one waits for, that is not the task itself and expires before its deadline.
pub(crate) fn early_dependency(rows: &Rows<'_>, creation: &Creation) -> Option<SlugId>
    ensures { result ≡ early_dependency creation.now rows.now }
{
    match find_early(rows, creation) {
        Some(id) => Some(*id),
        None => None,
    }
}

fn find_missing<'a>(rows: &Rows<'_>, creation: &'a Creation) -> Option<&'a SlugId>
    ensures { option_copied result ≡ missing_dependency creation.now rows.now }
{
    let ids = creation.definition.dependencies.list();
    ids.iter().find(|id| is_missing(rows, creation, **id))
}

fn find_early<'a>(rows: &Rows<'_>, creation: &'a Creation) -> Option<&'a SlugId>
    ensures { option_copied result ≡ early_dependency creation.now rows.now }
{
    let ids = creation.definition.dependencies.list();
    ids.iter().find(|id| is_early(rows, creation, **id))
}

fn is_missing(rows: &Rows<'_>, creation: &Creation, id: SlugId) -> bool
    ensures { result ≡ is_missing creation.now rows.now id }
{
    id != creation.id && rows.with(id).is_none()
}

fn is_early(rows: &Rows<'_>, creation: &Creation, id: SlugId) -> bool
    ensures { result ≡ is_early creation.now rows.now id }
{
    id != creation.id && expires_before(rows, id, creation.definition.deadline)
}

/// Whether the task with this id stands, and expires before this.
fn expires_before(rows: &Rows<'_>, id: SlugId, moment: Moment) -> bool
    ensures { result ≡ option_map_or (λ row. nat_lt row.definition.expires moment) (row_with id rows.now) false }
{
    match rows.with(id) {
        Some(row) => row.definition().expires < moment,
        None => false,
    }
}
