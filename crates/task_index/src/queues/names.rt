//! The names of queues.
ghost use Rattle.std.specs.Prelude.{◌≡◌, ◌↔◌, IsTrue, IfOk, string_bytes};
ghost use Rattle.task_types.specs.Forms.{queue_name};
ghost use Rattle.task_index.specs.Queues.{name_of, HasOneSlash};

use farm_text::Text;
use std::alloc::{AllocError, Global};
use task_types::TaskQueue;

/// The name of a queue: both parts, with a slash between them.
pub(crate) fn name_of(alloc: Global, queue: &TaskQueue) -> Result<Text, AllocError>
    ensures name { IfOk result (λ name. name ≡ name_of queue.now) }
    ensures slash { HasOneSlash (name_of queue.now) }
{
    let (provisioner, worker) = (queue.provisioner_id.as_str(), queue.worker_type.as_str());
    Ok(Text::from_string(joined(alloc, provisioner, worker)?))
}

/// Two texts with a slash between them.
fn joined(alloc: Global, first: &str, second: &str) -> Result<String, AllocError>
    ensures { IfOk result (λ name. string_bytes name ≡ queue_name first.now second.now) }
{
    let mut name = String::from_str(alloc, first)?;
    name.push('/')?;
    name.push_str(second)?;
    Ok(name)
}

/// Whether a name is that of a queue.
pub(crate) fn is_name_of(name: &Text, queue: &TaskQueue) -> bool
    ensures { IsTrue result ↔ (name.now ≡ name_of queue.now) }
{
    let (first, second) = (queue.provisioner_id.as_str(), queue.worker_type.as_str());
    match name.as_str().split_once('/') {
        Some((provisioner, worker)) => provisioner == first && worker == second,
        None => false,
    }
}
