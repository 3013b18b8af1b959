//! The definition of a task.
ghost use Rattle.std.specs.Prelude.{◌≡◌, ◌++◌, OnOk};
ghost use Rattle.task_statuses.specs.Statuses.{definition_of};
ghost use Rattle.task_statuses.specs.Tokens.{tokens_of};

use json::Writer;
use std::alloc::{AllocError, Global};
use task_defs::write_full_text;
use task_types::TaskDef;

/// Writes the definition of a task in full form, with each moment in 24 bytes.
pub fn write_definition(
    alloc: Global,
    definition: &TaskDef,
    out: &mut Writer,
) -> Result<(), AllocError>
    ensures ok { OnOk result (out.new.tokens ≡ out.old.tokens ++ tokens_of (definition_of definition.now)) }
    ensures before { out.new.before ≡ out.old.before }
{
    // Each moment lies where the calendar has years of four digits.
    let _created = definition.created.millis();
    let _deadline = definition.deadline.millis();
    let _expires = definition.expires.millis();
    write_full_text(alloc, definition, out)
}
