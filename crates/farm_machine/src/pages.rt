//! The pages of lists of tasks, as the bodies of answers.
ghost use Rattle.std.specs.Prelude.{◌≡◌, None, [], ◌∷◌, ◌++◌, map, IfOk, OnOk, if◌then◌else◌};
ghost use Rattle.std.specs.List.{last_or};
ghost use Rattle.farm_text.specs.Document.{array, items_of, document_text};
ghost use Rattle.task_statuses.specs.Tokens.{tokens_of, tokens_of_members};
ghost use Rattle.farm_machine.specs.Pages as pages;
ghost use Rattle.farm_asks.specs.Shown.{token_members};

use crate::case::Scene;
use farm_asks::answers;
use farm_asks::question::{PageRequest, Parameter};
use farm_asks::reply::Answer;
use farm_text::{SlugId, Text};
use json::Writer;
use run_states::TaskRow;
use std::alloc::{AllocError, Global};
use task_index::lists::{Page, TaskList};
use task_statuses::{id_member, write_definition, write_status};

/// The answer where the token of a page names no task of the list.
pub(crate) fn bad_token(
    alloc: Global,
    at: &Scene<'_>,
    list: &TaskList,
    page: &PageRequest,
) -> Result<Option<Answer>, AllocError>
    ensures { IfOk result (λ a. a ≡ pages.bad_token list.now page.now at.now.state.contents.rows) }
{
    match page.after {
        Some(token) if !at.tables.lists(list, token) => {
            let name = Parameter::ContinuationToken.name();
            Ok(Some(answers::bad_parameter(alloc, name)?))
        }
        _ => Ok(None),
    }
}

/// The text of the page that is asked of a list, whose token names a task of it.
pub(crate) fn read_page(
    alloc: Global,
    at: &Scene<'_>,
    list: &TaskList,
    page: &PageRequest,
) -> Result<Text, AllocError>
    requires { pages.bad_token list.now page.now at.now.state.contents.rows ≡ None }
    ensures { IfOk result (λ t. t ≡ document_text (pages.page_body list.now page.now at.now.state.contents.rows)) }
{
    let Some(shown) = at.tables.page(alloc, list, page.after, page.limit)? else {
        unreachable!();
    };
    let token = token_behind(&shown, page.after);
    page_text(alloc, list, token, shown.rows.as_slice())
}

/// The token of the page behind this one, where more tasks follow: its last task, or where it has none its own token.
fn token_behind(shown: &Page<'_>, after: Option<SlugId>) -> Option<SlugId>
    ensures { result ≡ (if shown.now.more then last_or after (map (λ row. row.id) (map (λ row. row.now) shown.now.rows.items)) else None) }
{
    if !shown.more {
        return None;
    }
    match shown.rows.last() {
        Some(row) => Some(row.id()),
        None => after,
    }
}

/// The text of a page of these tasks.
fn page_text(
    alloc: Global,
    list: &TaskList,
    token: Option<SlugId>,
    rows: &[&TaskRow],
) -> Result<Text, AllocError>
    ensures { IfOk result (λ t. t ≡ document_text (pages.page_doc list.now token (map (λ row. row.now) rows.now))) }
{
    let mut out = Writer::new(Vec::with_capacity(alloc, 1_024)?);
    write_page(alloc, list, token, rows, &mut out)?;
    Ok(Text::from_writer(out))
}

/// Writes a page of these tasks.
fn write_page(
    alloc: Global,
    list: &TaskList,
    token: Option<SlugId>,
    rows: &[&TaskRow],
    out: &mut Writer,
) -> Result<(), AllocError>
    ensures ok { OnOk result (out.new.tokens ≡ out.old.tokens ++ tokens_of (pages.page_doc list.now token (map (λ row. row.now) rows.now))) }
    ensures before { out.new.before ≡ out.old.before }
{
    out.begin_object()?;
    write_token(token, out)?;
    write_name(list, out)?;
    out.key("tasks")?;
    write_tasks(alloc, rows, out)?;
    out.end_object()
}

/// Writes the token as a member, where there is one.
fn write_token(token: Option<SlugId>, out: &mut Writer) -> Result<(), AllocError>
    ensures ok { OnOk result (out.new.tokens ≡ out.old.tokens ++ tokens_of_members (token_members token)) }
    ensures before { out.new.before ≡ out.old.before }
{
    match token {
        Some(id) => id_member("continuationToken", id, out),
        None => Ok(()),
    }
}

/// Writes the member that tells what a list is of.
fn write_name(list: &TaskList, out: &mut Writer) -> Result<(), AllocError>
    ensures ok { OnOk result (out.new.tokens ≡ out.old.tokens ++ tokens_of_members (pages.list_name list.now ∷ [])) }
    ensures before { out.new.before ≡ out.old.before }
{
    match list {
        TaskList::Group(group) => id_member("taskGroupId", *group, out),
        TaskList::Dependants(id) => id_member("taskId", *id, out),
    }
}

/// Writes the tasks of a page.
fn write_tasks(alloc: Global, rows: &[&TaskRow], out: &mut Writer) -> Result<(), AllocError>
    ensures ok { OnOk result (out.new.tokens ≡ out.old.tokens ++ tokens_of (array (items_of (map pages.listed_doc (map (λ row. row.now) rows.now))))) }
    ensures before { out.new.before ≡ out.old.before }
{
    out.begin_array()?;
    for row in rows {
        write_task(alloc, row, out)?;
    }
    out.end_array()
}

/// Writes a task of a page: its status and its definition.
fn write_task(alloc: Global, row: &TaskRow, out: &mut Writer) -> Result<(), AllocError>
    ensures ok { OnOk result (out.new.tokens ≡ out.old.tokens ++ tokens_of (pages.listed_doc row.now)) }
    ensures before { out.new.before ≡ out.old.before }
{
    out.begin_object()?;
    out.key("status")?;
    write_status(alloc, row, out)?;
    out.key("task")?;
    write_definition(alloc, row.definition(), out)?;
    out.end_object()
}
