//! The bodies of answers that tell a status or a definition: they are written, and make no documents.
ghost use Rattle.std.specs.Prelude.{◌≡◌, ◌++◌, IfOk, OnOk};
ghost use Rattle.farm_text.specs.Document.{document_text};
ghost use Rattle.farm_asks.specs.Replies.{status_body};
ghost use Rattle.farm_asks.specs.Shown.{conflict_details, conflict_body};
ghost use Rattle.task_statuses.specs.Statuses.{definition_of};
ghost use Rattle.task_statuses.specs.Tokens.{tokens_of};

use farm_text::Text;
use json::Writer;
use run_states::TaskRow;
use std::alloc::{AllocError, Global};
use task_statuses::{number_member, text_member, write_definition, write_status};
use task_types::TaskDef;

/// The text of the body that tells the status of a task.
pub fn status_text(alloc: Global, row: &TaskRow) -> Result<Text, AllocError>
    ensures { IfOk result (λ t. t ≡ document_text (status_body row.now)) }
{
    let mut out = Writer::new(Vec::with_capacity(alloc, 1_024)?);
    write_status_body(alloc, row, &mut out)?;
    Ok(Text::from_writer(out))
}

/// Writes the body that tells the status of a task.
pub(crate) fn write_status_body(
    alloc: Global,
    row: &TaskRow,
    out: &mut Writer,
) -> Result<(), AllocError>
    ensures ok { OnOk result (out.new.tokens ≡ out.old.tokens ++ tokens_of (status_body row.now)) }
    ensures before { out.new.before ≡ out.old.before }
{
    out.begin_object()?;
    out.key("status")?;
    write_status(alloc, row, out)?;
    out.end_object()
}

/// The text of the definition of a task.
pub fn definition_text(alloc: Global, definition: &TaskDef) -> Result<Text, AllocError>
    ensures { IfOk result (λ t. t ≡ document_text (definition_of definition.now)) }
{
    let mut out = Writer::new(Vec::with_capacity(alloc, 1_024)?);
    write_definition(alloc, definition, &mut out)?;
    Ok(Text::from_writer(out))
}

/// The text of the body where the state of a task forbids what is asked, by this rule.
pub(crate) fn conflict_text(alloc: Global, rule: u8, row: &TaskRow) -> Result<Text, AllocError>
    ensures { IfOk result (λ t. t ≡ document_text (conflict_body rule row.now)) }
{
    let mut out = Writer::new(Vec::with_capacity(alloc, 1_024)?);
    write_conflict(alloc, rule, row, &mut out)?;
    Ok(Text::from_writer(out))
}

/// Writes that body.
fn write_conflict(
    alloc: Global,
    rule: u8,
    row: &TaskRow,
    out: &mut Writer,
) -> Result<(), AllocError>
    ensures ok { OnOk result (out.new.tokens ≡ out.old.tokens ++ tokens_of (conflict_body rule row.now)) }
    ensures before { out.new.before ≡ out.old.before }
{
    out.begin_object()?;
    text_member("code", "RequestConflict", out)?;
    out.key("details")?;
    write_conflict_details(alloc, rule, row, out)?;
    text_member("message", "the state forbids it", out)?;
    out.end_object()
}

/// Writes which rule the state of a task breaks, and its status.
fn write_conflict_details(
    alloc: Global,
    rule: u8,
    row: &TaskRow,
    out: &mut Writer,
) -> Result<(), AllocError>
    ensures ok { OnOk result (out.new.tokens ≡ out.old.tokens ++ tokens_of (conflict_details rule row.now)) }
    ensures before { out.new.before ≡ out.old.before }
{
    out.begin_object()?;
    number_member("rule", u64::from(rule), out)?;
    out.key("status")?;
    write_status(alloc, row, out)?;
    out.end_object()
}
