//! Laws of the names of queues and of the tables: functions whose contracts are the laws.
ghost use Rattle.std.specs.Prelude.{◌≡◌, List, count_by};
ghost use Rattle.std.specs.Thread.{IsSend};
ghost use Rattle.run_states.specs.Rows.{Row};
ghost use Rattle.task_types.specs.Forms.{queue_name};
ghost use Rattle.farm_rows.specs.contracts.tables.TaskTables.{the_row};
ghost use Rattle.task_index.specs.Picks.{waits_in, waits_under};

use run_states::rows_cross_threads;
use task_types::TaskQueue;

/// The tasks that wait under the name of a queue are as many as wait in it: an identifier has no slash, so one name is one queue.
pub fn one_name_is_one_queue(queue: &TaskQueue)
    ensures { (rows : List Row) → count_by (waits_under (queue_name queue.now.provisioner_id queue.now.worker_type)) rows
        ≡ count_by (waits_in queue.now) rows }
{
    queue.provisioner_id.as_str();
    queue.worker_type.as_str();
}

/// The tables of a farm's tasks may go to another thread.
pub fn tables_cross_threads()
    ensures sent { IsSend the_row }
{
    rows_cross_threads();
}
