ghost use Rattle.std.specs.Prelude.{None, ◌≡◌, IfOk, count_by};
ghost use Rattle.farm_text.specs.Document.{document_text};
ghost use Rattle.task_index.specs.Picks.{waits_in};
ghost use Rattle.farm_asks.specs.Replies.{pending_body};

use crate::case::{Called, Done, Scene};
use crate::tables::Tables;
use call_rules::pending_scope;
use farm_asks::answers;
use farm_asks::reply::Answer;
use farm_text::Text;
use scope_sets::Expr;
use std::alloc::{AllocError, Global};
use task_types::TaskQueue;

/// How many tasks wait in a queue.
#[derive(Drop)]
pub(crate) struct PendingTasks {
    pub(crate) queue: TaskQueue,
}

impl Called for PendingTasks {
    ghost use Rattle.farm_machine.specs.Calls.PendingTasks.{pending_tasks};

    ghost case = { λ call. pending_tasks call.queue };

    fn parameter(&self, _alloc: Global, _at: &Scene<'_>) -> Result<Option<Answer>, AllocError> {
        Ok(None)
    }

    fn absent(&self, _alloc: Global, _at: &Scene<'_>) -> Result<Option<Answer>, AllocError> {
        Ok(None)
    }

    fn policy(&self, alloc: Global, _at: &Scene<'_>) -> Result<Expr, AllocError> {
        pending_scope(alloc, &self.queue)
    }

    fn rule(&self, _alloc: Global, _at: &Scene<'_>) -> Result<Option<Answer>, AllocError> {
        Ok(None)
    }

    fn deed(self, alloc: Global, at: &Scene<'_>) -> Result<Done, AllocError> {
        let text = pending_text(alloc, at.tables, &self.queue);
        drop(self);
        Ok(Done::Reads(text?))
    }
}

/// The text that tells how many tasks wait in a queue.
fn pending_text(alloc: Global, tables: &Tables, queue: &TaskQueue) -> Result<Text, AllocError>
    ensures { IfOk result (λ t. t ≡ document_text (pending_body queue.now (count_by (waits_in queue.now) tables.now.rows))) }
{
    let count = tables.pending(alloc, queue)?;
    let body = answers::pending_body(alloc, queue, count)?;
    let text = body.write(alloc);
    drop(body);
    text
}
