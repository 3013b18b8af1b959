//! The lists of tasks, page by page.
ghost use Rattle.std.specs.Prelude.{◌≡◌, ◌≤◌, map, take, drop, true, false, length, nat_lt, bytes_eq, IfOk, MatchOption};
ghost use Rattle.std.specs.List.{list_any};
ghost use Rattle.task_index.specs.Changes.{on_row};
ghost use Rattle.task_index.specs.Lists.{is_listed, listed, names_listed, behind_id, behind, page_rows, has_more};
ghost use Rattle.task_index.specs.PlaceLists.{AreListed};

use crate::listing::{page_at, page_from};
use crate::place_lists::PlaceLists;
use crate::rows::Rows;
use farm_text::SlugId;
use run_states::TaskRow;
use std::alloc::{AllocError, Global};

/// A list of tasks, in the order of their creation.
#[derive(Clone, Copy)]
pub enum TaskList {
    /// The tasks of this group.
    Group(SlugId),
    /// The tasks that wait for this one.
    Dependants(SlugId),
}

/// Some tasks of a list, in the order of their creation.
#[derive(Drop)]
pub struct Page<'a> {
    /// The tasks.
    pub rows: Vec<&'a TaskRow>,
    /// Whether the list has tasks behind these.
    pub more: bool,
}

/// Whether the task with this id stands, and is on a list.
pub fn lists(rows: &Rows<'_>, list: &TaskList, id: SlugId) -> bool
    ensures { result ≡ on_row (is_listed list.now) id rows.now }
{
    match rows.with(id) {
        Some(row) => is_listed(list, row),
        None => false,
    }
}

/// Whether a task is on a list.
fn is_listed(list: &TaskList, row: &TaskRow) -> bool
    ensures { result ≡ is_listed list.now row.now }
{
    let definition = row.definition();
    match list {
        TaskList::Group(group) => definition.task_group_id == *group,
        TaskList::Dependants(id) => is_among(definition.dependencies.list(), *id),
    }
}

/// Whether an id is among these.
fn is_among(ids: &[SlugId], id: SlugId) -> bool
    ensures { result ≡ list_any (λ other. bytes_eq other id) ids.now }
{
    ids.iter().any(|other| *other == id)
}

/// The page of a list behind the task that a token names, or the first page, with so many tasks at most; or none, where the token names no
/// task of the list.
pub fn page_behind<'a>(
    alloc: Global,
    rows: &Rows<'a>,
    lists: &PlaceLists,
    list: &TaskList,
    after: Option<SlugId>,
    limit: u16,
) -> Result<Option<Page<'a>>, AllocError>
    requires { AreListed lists.now rows.now }
    ensures { IfOk result (λ page. MatchOption page (names_listed list.now after rows.now ≡ false)
        (λ p. (names_listed list.now after rows.now ≡ true) × (map (λ row. row.now) p.rows.items ≡ page_rows after limit (listed list.now rows.now))
        × (p.more ≡ has_more after limit (listed list.now rows.now)))) }
{
    match start_of(rows, list, after) {
        Some(start) => Ok(Some(page_starting_at(alloc, rows, lists, list, start, limit)?)),
        None => Ok(None),
    }
}

/// How many tasks come up to the one that a token names, or none, where there is no token; or nothing, where the token names no task of the
/// list.
fn start_of(rows: &Rows<'_>, list: &TaskList, after: Option<SlugId>) -> Option<usize>
    ensures { MatchOption result (names_listed list.now after rows.now ≡ false)
        (λ start. (names_listed list.now after rows.now ≡ true) × (start ≤ length rows.now)
        × (listed list.now (drop start rows.now) ≡ behind after (listed list.now rows.now))) }
{
    match after {
        Some(token) => start_behind(rows, list, token),
        None => Some(0),
    }
}

/// How many tasks come up to the one with this id, where that is on the list.
fn start_behind(rows: &Rows<'_>, list: &TaskList, token: SlugId) -> Option<usize>
    ensures { MatchOption result (on_row (is_listed list.now) token rows.now ≡ false)
        (λ start. (on_row (is_listed list.now) token rows.now ≡ true) × (start ≤ length rows.now)
        × (listed list.now (drop start rows.now) ≡ behind_id token (listed list.now rows.now))) }
{
    let Some(place) = rows.place(token) else {
        return None;
    };
    let all = rows.list();
    if is_listed(list, &all[place]) {
        Some(place + 1)
    } else {
        None
    }
}

/// The first tasks of a list behind so many of all tasks, so many at most.
fn page_starting_at<'a>(
    alloc: Global,
    rows: &Rows<'a>,
    lists: &PlaceLists,
    list: &TaskList,
    start: usize,
    limit: u16,
) -> Result<Page<'a>, AllocError>
    requires { AreListed lists.now rows.now }
    ensures { IfOk result (λ p. (map (λ row. row.now) p.rows.items ≡ take limit (listed list.now (drop start rows.now)))
        × (p.more ≡ nat_lt limit (length (listed list.now (drop start rows.now))))) }
{
    let places = rows.places_on(lists, list);
    page_at(
        alloc,
        rows.list(),
        page_from(places, start, usize::from(limit)),
    )
}
