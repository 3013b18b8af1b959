//! How a task comes further.
ghost use Rattle.std.specs.Prelude.{◌≡◌, Some, map, length, slice_get, vec_capacity};
ghost use Rattle.dep_graph.specs.Nodes.{rows_of, dependants_of, moved};
ghost use Rattle.dep_graph.specs.Kept.{HaveOwnRows, edges_of};
ghost use Rattle.dep_graph.specs.Tables.{AreCounted};

use crate::edges::Edges;
use crate::node::Progress;
use crate::tasks::Tasks;
use crate::waits::{Step, Waits};

/// Makes the task with this row come so far, and counts again for those that depend on it.
pub(crate) fn proceed(
    tasks: &mut Tasks,
    edges: &[Edges],
    waits: &mut Waits,
    row: u32,
    progress: Progress,
)
    requires own { HaveOwnRows tasks.old.tasks }
    requires edges { edges_of edges.now ≡ map (λ task. dependants_of tasks.old.tasks task.row) tasks.old.tasks }
    requires counted { AreCounted tasks.old.tasks waits.old.lacking.items waits.old.ready }
    ensures tasks { tasks.new.tasks ≡ moved row progress tasks.old.tasks }
    ensures counted { AreCounted tasks.new.tasks waits.new.lacking.items waits.new.ready }
    ensures task_room { tasks.new.capacity ≡ tasks.old.capacity }
    ensures count_room { vec_capacity waits.new.lacking ≡ vec_capacity waits.old.lacking }
    ensures places { length waits.new.ready ≡ length waits.old.ready }
{
    match tasks.place_of(row) {
        Some(place) => proceed_at(tasks, edges, waits, place, row, progress),
        None => {}
    }
}

/// Makes the task at this place, which has this row, come so far.
fn proceed_at(
    tasks: &mut Tasks,
    edges: &[Edges],
    waits: &mut Waits,
    place: usize,
    row: u32,
    progress: Progress,
)
    requires own { HaveOwnRows tasks.old.tasks }
    requires at { slice_get (rows_of tasks.old.tasks) place ≡ Some row }
    requires edges { edges_of edges.now ≡ map (λ task. dependants_of tasks.old.tasks task.row) tasks.old.tasks }
    requires counted { AreCounted tasks.old.tasks waits.old.lacking.items waits.old.ready }
    ensures tasks { tasks.new.tasks ≡ moved row progress tasks.old.tasks }
    ensures counted { AreCounted tasks.new.tasks waits.new.lacking.items waits.new.ready }
    ensures task_room { tasks.new.capacity ≡ tasks.old.capacity }
    ensures count_room { vec_capacity waits.new.lacking ≡ vec_capacity waits.old.lacking }
    ensures places { length waits.new.ready ≡ length waits.old.ready }
{
    let before = tasks.at(place).progress();
    let step = Step {
        before,
        now: progress,
    };
    tasks.proceed(place, row, progress);
    waits.look(place, tasks.at(place));
    waits.count_each(tasks, &edges[place].rows, step);
}
