//! What is asked of tables.
use super::bodies;
use crate::words::{id, id_of, is_outcome, is_run, moment, next, stands};
use farm_rows::TaskTables;
use farm_text::SlugId;
use run_states::{Run, TaskRow};
use std::alloc::Global;
use task_index::counts::RowCounts;
use task_index::lists::{Page, TaskList};
use task_types::{Creation, RunName};

/// Whether the tables, or a task of theirs, are so.
pub(super) fn are(alloc: Global, tables: &TaskTables, parts: &str) -> Option<bool> {
    let (word, parts) = next(parts);
    match word {
        "due" => Some(tables.due(moment(parts)?)),
        "counts" => count(tables, parts),
        "next" => Some(parts.parse::<u64>().ok()? == tables.counts().next),
        _ => {
            let (task, parts) = next(parts);
            let id = id_of(task)?;
            Some(is_task(alloc, tables, id, word, parts))
        }
    }
}

/// Whether so many tasks stand, so many numbers are drawn, and this moment is the last.
fn count(tables: &TaskTables, parts: &str) -> Option<bool> {
    let (rows, rest) = next(parts);
    let (next, last) = next(rest);
    let expected = RowCounts {
        rows: rows.parse::<u32>().ok()?,
        next: next.parse::<u64>().ok()?,
        last: moment(last)?,
    };
    Some(tables.counts() == expected)
}

fn is_task(alloc: Global, tables: &TaskTables, id: SlugId, word: &str, parts: &str) -> bool {
    if word == "scheduler" {
        return is_kept(tables, id, parts);
    }
    match tables.row(id) {
        Some(row) => match word {
            "row" => stands(row, parts),
            "only" => is_only(row.runs(), parts),
            "ended" => is_ended(row.runs(), parts),
            _ => are_picked(alloc, tables, row, parts),
        },
        None => false,
    }
}

/// Whether a task has one run, which is so, and which no worker took.
fn is_only(runs: &[Run], parts: &str) -> bool {
    match runs {
        [only] => only.claim.is_none() && is_run(only, parts),
        _ => false,
    }
}

/// Whether run 0 ended so.
fn is_ended(runs: &[Run], end: &str) -> bool {
    match runs.first() {
        Some(run) => is_outcome(run.outcome, end),
        None => false,
    }
}

/// Whether the tasks of a group have this scheduler, or none where there is no task.
fn is_kept(tables: &TaskTables, group: SlugId, scheduler: &str) -> bool {
    match tables.kept_scheduler(group) {
        Some(kept) => kept.as_str() == scheduler,
        None => scheduler == "none",
    }
}

/// Whether run 0 of each of these tasks is picked from a task's queue, in this order, and as many wait.
fn are_picked(alloc: Global, tables: &TaskTables, row: &TaskRow, numbers: &str) -> bool {
    let queue = &row.definition().queue;
    match (queue.name(alloc), tables.picks(alloc, queue, 32)) {
        (Ok(name), Ok(names)) => {
            tables.pending(&name) as usize == numbers.len() && are_named(&names, numbers)
        }
        _ => false,
    }
}

fn are_named(names: &[RunName], numbers: &str) -> bool {
    let numbers = numbers.as_bytes();
    let mut all = names.len() == numbers.len();
    for (name, digit) in names.iter().zip(numbers) {
        all &= Some(name.id) == id_of_digit(*digit) && name.run == 0;
    }
    all
}

fn id_of_digit(digit: u8) -> Option<SlugId> {
    id(digit.checked_sub(b'0')?)
}

/// Whether a task and a list are so.
pub(super) fn list(alloc: Global, tables: &TaskTables, parts: &str) -> Option<bool> {
    let (word, parts) = next(parts);
    let (first, parts) = next(parts);
    if word == "judged" {
        return judged(alloc, tables, id_of(first)?, parts);
    }
    let (task, parts) = next(parts);
    let list = match first {
        "group" => TaskList::Group(id_of(task)?),
        _ => TaskList::Dependants(id_of(task)?),
    };
    match word {
        "lists" => Some(tables.lists(&list, id_of(parts)?)),
        "places" => Some(are_on(tables, &list, parts)),
        _ => page(alloc, tables, &list, parts),
    }
}

/// Whether these tasks, of which `-` is none, are missing or expire too early for a task of the definition of a name.
fn judged(alloc: Global, tables: &TaskTables, id: SlugId, parts: &str) -> Option<bool> {
    let (name, rest) = next(parts);
    match bodies::named(alloc, id, name) {
        Some(creation) => Some(is_judged(tables, creation, rest)),
        None => None,
    }
}

fn is_judged(tables: &TaskTables, creation: Creation, parts: &str) -> bool {
    let (missing, early) = next(parts);
    let is_so = tables.missing_dependency(&creation) == id_of(missing)
        && tables.early_dependency(&creation) == id_of(early);
    drop(creation);
    is_so
}

/// Whether the page behind a task, which is none for the first page, has tasks of these numbers, and tells so of more.
fn page(alloc: Global, tables: &TaskTables, list: &TaskList, parts: &str) -> Option<bool> {
    let (after, wanted) = next(parts);
    match tables.page(alloc, list, id_of(after), 2) {
        Ok(Some(page)) => Some(is_page(&page, wanted)),
        Ok(None) => Some(wanted == "off"),
        Err(_) => None,
    }
}

/// Whether the first two places of a list behind one, which is none for all, are these, and there are more.
fn are_on(tables: &TaskTables, list: &TaskList, parts: &str) -> bool {
    let (after, wanted) = next(parts);
    match list {
        TaskList::Group(group) => match tables.list(*group, after.parse::<u32>().ok(), 2) {
            Some(page) => are_places(page.places, page.more, wanted),
            None => wanted == "off",
        },
        TaskList::Dependants(id) => {
            let places = tables.dependants(*id);
            match places.get(..2) {
                Some(first) => are_places(first, places.len() > 2, wanted),
                None => are_places(places, false, wanted),
            }
        }
    }
}

fn are_places(places: &[u32], more: bool, wanted: &str) -> bool {
    let (numbers, end) = next(wanted);
    let digits = numbers.as_bytes();
    let mut all = more == (end == "more") && places.len() == digits.len();
    for (place, digit) in places.iter().zip(digits) {
        all &= *place == u32::from(digit.wrapping_sub(b'0'));
    }
    all
}

fn is_page(page: &Page<'_>, wanted: &str) -> bool {
    let (numbers, end) = next(wanted);
    page.more == (end == "more") && has_rows(&page.rows, numbers)
}

fn has_rows(rows: &[&TaskRow], numbers: &str) -> bool {
    let numbers = numbers.as_bytes();
    let mut all = rows.len() == numbers.len();
    for (row, digit) in rows.iter().zip(numbers) {
        all &= Some(row.id()) == id_of_digit(*digit);
    }
    all
}
