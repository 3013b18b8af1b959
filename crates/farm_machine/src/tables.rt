//! What a farm keeps.
ghost use Rattle.std.specs.Prelude.{◌≡◌, ◌≤◌, true, false, IfOk, MatchOption, map, length, count_by, option_copied};
ghost use Rattle.std.specs.List.{list_any};
ghost use Rattle.std.specs.Thread.{IsSend};
ghost use Rattle.farm_text.specs.declared.moment.TheConstants.{LAST_TOLD_MOMENT};
ghost use Rattle.task_index.specs.Contents.{no_contents, row_with, HaveOwnIds};
ghost use Rattle.task_index.specs.Changes.{on_row, may_apply, applied};
ghost use Rattle.task_index.specs.Due.{is_due, advance};
ghost use Rattle.task_index.specs.Lists.{is_listed, listed, names_listed, page_rows, has_more};
ghost use Rattle.task_index.specs.Picks.{picks, waits_in};
ghost use Rattle.task_index.specs.Plans.{IsPlanOn};
ghost use Rattle.farm_rows.specs.Summary.{summary_of};
ghost use Rattle.farm_rows.specs.Waits.{missing_dependency, early_dependency};
ghost use Rattle.farm_machine.specs.contracts.tables.Tables.{the_row};
ghost use Rattle.farm_machine.specs.Calls.CreateTask.{scheduler_besides};
ghost use Rattle.farm_machine.specs.Changes.{reached};

use farm_rows::{Summary, TaskPlan, TaskTables, one_name_is_one_queue, tables_cross_threads};
use farm_text::{Moment, SlugId};
use run_states::TaskRow;
use std::alloc::{AllocError, Global};
use std::marker::Model;
use task_index::lists::{Page, TaskList};
use task_types::{Change, Creation, Identifier, RunName, TaskQueue};

/// What a farm keeps: its tasks in the order of their creation, the last moment, and the next number.
#[derive(Drop)]
pub struct Tables {
    tasks: TaskTables,
}

impl Model for Tables {
    ghost use Rattle.std.specs.Coded.{codes};
    ghost use Rattle.task_types.specs.Codes.{members_code};
    ghost use Rattle.task_index.specs.Contents.{Contents};

    ghost Value = { Contents };

    ghost coded = { Prim.hlevel (codes, members_code) };

    ghost view = { λ t. t.tasks };
}

impl Tables {
    /// Tables without tasks. They take no memory.
    pub fn new(alloc: Global) -> Self
        ensures { result ≡ no_contents }
    {
        Tables {
            tasks: TaskTables::new(alloc),
        }
    }

    /// The last moment that was reached.
    pub fn last(&self) -> Moment
        ensures last { result ≡ self.now.last }
        ensures told { result ≤ LAST_TOLD_MOMENT }
    {
        self.tasks.counts().last
    }

    /// How many tasks stand.
    pub fn len(&self) -> u32
        ensures { result ≡ length self.now.rows }
    {
        self.tasks.counts().rows
    }

    /// How the tasks stand, counted.
    pub fn summary(&self) -> Summary
        ensures { result ≡ summary_of self.now.rows }
    {
        self.tasks.summary()
    }

    /// The task with this id.
    pub(crate) fn row(&self, id: SlugId) -> Option<&TaskRow>
        ensures { option_copied result ≡ row_with id self.now.rows }
    {
        self.tasks.row(id)
    }

    /// The first of the tasks that a new one waits for that does not stand, and is not itself.
    pub(crate) fn missing_dependency(&self, creation: &Creation) -> Option<SlugId>
        ensures { result ≡ missing_dependency creation.now self.now.rows }
    {
        self.tasks.missing_dependency(creation)
    }

    /// The first of them that expires before the new one's deadline, and is not itself.
    pub(crate) fn early_dependency(&self, creation: &Creation) -> Option<SlugId>
        ensures { result ≡ early_dependency creation.now self.now.rows }
    {
        self.tasks.early_dependency(creation)
    }

    /// The scheduler that the tasks of a new one's group have, where that is another than its own.
    pub(crate) fn scheduler_besides(&self, creation: &Creation) -> Option<&Identifier>
        ensures { option_copied result ≡ scheduler_besides creation.now self.now.rows }
    {
        let own = &creation.definition.scheduler_id;
        match self.tasks.kept_scheduler(creation.definition.task_group_id) {
            Some(kept) if kept.as_str() != own.as_str() => Some(kept),
            _ => None,
        }
    }

    /// The runs that are claimed next in a queue, so many, or all that wait.
    pub(crate) fn picks(
        &self,
        alloc: Global,
        queue: &TaskQueue,
        most: u8,
    ) -> Result<Vec<RunName>, AllocError>
        ensures names { IfOk result (λ names. names.items ≡ picks most queue.now self.now.rows) }
        ensures own { HaveOwnIds self.now.rows }
    {
        self.tasks.picks(alloc, queue, most)
    }

    /// How many tasks wait in a queue. They are counted under its name.
    pub(crate) fn pending(&self, alloc: Global, queue: &TaskQueue) -> Result<u32, AllocError>
        ensures { IfOk result (λ count. count ≡ count_by (waits_in queue.now) self.now.rows) }
    {
        one_name_is_one_queue(queue);
        let name = queue.name(alloc)?;
        Ok(self.tasks.pending(&name))
    }

    /// Whether a task is of this group.
    pub(crate) fn has_group(&self, group: SlugId) -> bool
        ensures { result ≡ list_any (is_listed (TaskList.Group group)) self.now.rows }
    {
        self.tasks.kept_scheduler(group).is_some()
    }

    /// Whether the task with this id stands, and is on a list.
    pub(crate) fn lists(&self, list: &TaskList, id: SlugId) -> bool
        ensures { result ≡ on_row (is_listed list.now) id self.now.rows }
    {
        self.tasks.lists(list, id)
    }

    /// The page of a list behind the task that a token names, or the first page, with so many tasks at most; or none, where the token
    /// names no task of the list.
    pub(crate) fn page(
        &self,
        alloc: Global,
        list: &TaskList,
        after: Option<SlugId>,
        limit: u16,
    ) -> Result<Option<Page<'_>>, AllocError>
        ensures { IfOk result (λ page. MatchOption page (names_listed list.now after self.now.rows ≡ false)
            (λ p. (names_listed list.now after self.now.rows ≡ true)
            × (map (λ row. row.now) p.rows.items ≡ page_rows after limit (listed list.now self.now.rows))
            × (p.more ≡ has_more after limit (listed list.now self.now.rows)))) }
    {
        self.tasks.page(alloc, list, after, limit)
    }

    /// The plan of a change, with all the memory that it takes, or none where the change may not be made.
    pub(crate) fn plan(
        &mut self,
        alloc: Global,
        change: Change,
    ) -> Result<Option<TaskPlan>, AllocError>
        ensures planned { IfOk result (λ plan. MatchOption plan (may_apply self.old change ≡ false)
            (λ p. (p.change ≡ change) × IsPlanOn self.old p)) }
        ensures same { self.new ≡ self.old }
    {
        self.tasks.plan(alloc, change)
    }

    /// Makes the change of a plan that was made on these tables.
    pub(crate) fn make(&mut self, plan: TaskPlan)
        requires { IsPlanOn self.old plan }
        ensures { self.new ≡ applied self.old plan.change }
    {
        self.tasks.apply(plan);
    }

    /// Makes this the last moment, which it is not before, where nothing is due at it.
    pub fn reach(&mut self, moment: Moment)
        requires told { moment ≤ LAST_TOLD_MOMENT }
        requires later { self.old.last ≤ moment }
        requires nothing_due { is_due self.old moment ≡ false }
        ensures { self.new ≡ reached self.old moment }
    {
        self.tasks.tick(moment);
    }
}

/// Whether something is due at this moment or before.
pub fn due(tables: &Tables, moment: Moment) -> bool
    ensures { result ≡ is_due tables.now moment }
{
    tables.tasks.due(moment)
}

/// Resolves all that is due at this moment, each at its own, and reaches the moment, where it is after the last. It takes no memory.
pub fn tick(tables: &mut Tables, moment: Moment)
    requires { moment ≤ LAST_TOLD_MOMENT }
    ensures { tables.new ≡ advance tables.old moment }
{
    tables.tasks.tick(moment);
}

/// A law, of a function that does nothing: what a farm keeps may go to another thread.
pub fn farms_tables_cross_threads()
    ensures sent { IsSend the_row }
{
    tables_cross_threads();
}
