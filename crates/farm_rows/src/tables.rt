//! The tables of a farm's tasks.
ghost use Rattle.std.specs.Prelude.{◌≡◌, ◌↔◌, ◌<◌, ◌≤◌, [], true, false, map, Some, None, length, slice_get, count_by, option_copied, IfOk, IfSome, IsNone, MatchOption};
ghost use Rattle.std.specs.List.{AllPairs};
ghost use Rattle.farm_text.specs.declared.moment.TheConstants.{LAST_TOLD_MOMENT};
ghost use Rattle.task_index.specs.Contents.{no_contents, row_with, counts_of, HaveOwnIds};
ghost use Rattle.task_index.specs.Due.{is_due, advance};
ghost use Rattle.task_index.specs.Picks.{waits_under, picks};
ghost use Rattle.task_index.specs.Changes.{on_row, kept_scheduler, may_create, may_be, may_apply, applied};
ghost use Rattle.farm_rows.specs.Waits.{missing_dependency, early_dependency};
ghost use Rattle.task_groups.specs.Pages.{page_rows as page_places, has_more as has_more_places};
ghost use Rattle.task_index.specs.Listing.{places_of};
ghost use Rattle.task_index.specs.Lists.{is_listed, listed, names_listed, page_rows, has_more};
ghost use Rattle.task_index.specs.Plans.{IsPlanOn};
ghost use Rattle.farm_rows.specs.Deeds.{change_of, row_of, planned_of, claims_of, run_room_of};
ghost use Rattle.farm_rows.specs.Summary.{summary_of};
ghost use Rattle.task_index.specs.Sweep.{all_turns};

mod plans;

use crate::plan::{Deed, TaskPlan};
use crate::summary::{Summary, summary_of};
use crate::turns::resolve_due;
use crate::waits::{early_dependency, missing_dependency, waits_well};
use crate::work::change;
use farm_text::{LAST_TOLD_MOMENT, Moment, SlugId, Text};
use run_states::{Claim as RunClaim, RunRoom, TaskRow};
use std::alloc::{AllocError, Global};
use std::marker::Model;
use task_index::checks::{
    is_running, kept_scheduler, may_cancel, may_join, may_keep, may_rerun, may_schedule,
};
use task_index::counts::{MOST_TASKS, RowCounts};
use task_index::index::Index;
use task_index::listing::{PlacePage, page_behind as place_page};
use task_index::lists::{Page, TaskList, lists, page_behind};
use task_index::picks::may_claim;
use task_index::place_lists::PlaceLists;
use task_index::place_lists::coming::keep_listed;
use task_index::place_lists::room::Room;
use task_index::room::add;
use task_index::rows::Rows;
use task_types::{Change, Creation, Identifier, Kind, RunName, TaskQueue};

/// The tasks of a farm in the order of their creation, the last moment that was reached, and the number that the next pending run
/// draws.
#[derive(Drop)]
pub struct TaskTables {
    rows: Vec<TaskRow>,
    last: Moment,
    next: u64,
    /// What is kept beside the tasks.
    index: Index,
    /// The places of the tasks on each list.
    lists: PlaceLists,
}

impl Model for TaskTables {
    ghost use Rattle.std.specs.Prelude.{vec_capacity};
    ghost use Rattle.std.specs.Coded.{codes};
    ghost use Rattle.task_types.specs.Codes.{members_code};
    ghost use Rattle.task_index.specs.Contents.{Contents};
    ghost use Rattle.task_index.specs.Indexed.{AreTables};

    ghost Value = { Contents };

    ghost coded = { Prim.hlevel (codes, members_code) };

    ghost view = { λ t. record { rows = t.rows.items; last = t.last; next = t.next } };

    ghost invariant = { λ t. AreTables t.rows.items t.last t.next (vec_capacity t.rows) t.index t.lists };
}

impl TaskTables {
    /// Tables without tasks, at the first moment. They take no memory.
    pub fn new(alloc: Global) -> Self
        ensures { result ≡ no_contents }
    {
        TaskTables {
            rows: Vec::new(alloc),
            last: Moment::FIRST,
            next: 0,
            index: Index::new(alloc),
            lists: PlaceLists::new(alloc),
        }
    }

    /// How many tasks stand, the next number, and the last moment.
    pub fn counts(&self) -> RowCounts
        ensures value { result ≡ counts_of self.now }
        ensures few { result.rows ≤ 1_000_000 }
        ensures told { result.last ≤ LAST_TOLD_MOMENT }
    {
        RowCounts {
            rows: self.rows.len() as u32,
            next: self.next,
            last: self.last,
        }
    }

    /// Whether something is due at this moment or before.
    pub fn due(&self, moment: Moment) -> bool
        ensures { result ≡ is_due self.now moment }
    {
        self.index.first_due(&self.rows, moment).is_some()
    }

    /// Resolves all that is due at this moment, each at its own moment, and reaches the moment, where it is after the last. It takes no
    /// memory.
    pub fn tick(&mut self, moment: Moment)
        requires { moment ≤ LAST_TOLD_MOMENT }
        ensures { self.new ≡ advance self.old moment }
    {
        self.resolve_due(moment);
        self.last = self.last.max(moment);
    }

    /// Resolves all that is due at this moment, each at its own moment.
    fn resolve_due(&mut self, moment: Moment)
        ensures { self.new ≡ all_turns self.old moment }
    {
        if !self.due(moment) {
            return;
        }
        self.next = resolve_due(&mut self.rows, &mut self.index, self.next, moment);
    }

    /// The task with this id.
    pub fn row(&self, id: SlugId) -> Option<&TaskRow>
        ensures { option_copied result ≡ row_with id self.now.rows }
    {
        self.by_ids().with(id)
    }

    /// The tasks, which are looked up by their ids.
    fn by_ids(&self) -> Rows<'_>
        ensures { result ≡ self.now.rows }
    {
        Rows::new(&self.rows, &self.index)
    }

    /// The task at this place, counted from 0 in the order of creation.
    pub fn at(&self, row: u32) -> &TaskRow
        requires { row < length self.now.rows }
        ensures { slice_get self.now.rows row ≡ Some result.now }
    {
        &self.rows[row as usize]
    }

    /// How many tasks wait in the queue of a name, as `TaskQueue::name` makes it; where no queue has it, none. It takes no memory.
    pub fn pending(&self, queue: &Text) -> u32
        ensures { result ≡ count_by (waits_under queue.now) self.now.rows }
    {
        self.index.pending(&self.rows, queue) as u32
    }

    /// The places of the tasks of a group behind the one at a place, or of the first ones where there is none, so many at most, in the order of
    /// their creation; or none, where no task is of the group. It takes no memory.
    pub fn list(&self, group: SlugId, after: Option<u32>, limit: u16) -> Option<PlacePage<'_>>
        ensures none { IsNone result ↔ (places_of (TaskList.Group group) self.now.rows ≡ []) }
        ensures places { IfSome result (λ page. page.places.now ≡ page_places after limit (places_of (TaskList.Group group) self.now.rows)) }
        ensures more { IfSome result (λ page. page.more ≡ has_more_places after limit (places_of (TaskList.Group group) self.now.rows)) }
        ensures rising { AllPairs (λ x y. x < y) (places_of (TaskList.Group group) self.now.rows) }
    {
        place_page(
            self.index.members_of(&self.rows, &self.lists, group),
            after,
            limit,
        )
    }

    /// The places of the tasks that wait for the one with this id, in the order of their creation; none, where no task has it. It takes no
    /// memory.
    pub fn dependants(&self, id: SlugId) -> &[u32]
        ensures places { result.now ≡ places_of (TaskList.Dependants id) self.now.rows }
        ensures none { row_with id self.now.rows ≡ None → result.now ≡ [] }
    {
        self.index.dependants_of(&self.rows, &self.lists, id)
    }

    /// How the tasks stand, counted.
    pub fn summary(&self) -> Summary
        ensures { result ≡ summary_of self.now.rows }
    {
        summary_of(&self.rows)
    }

    /// The runs that are claimed next in a queue, so many, or all that wait.
    pub fn picks(
        &self,
        alloc: Global,
        queue: &TaskQueue,
        most: u8,
    ) -> Result<Vec<RunName>, AllocError>
        ensures names { IfOk result (λ names. names.items ≡ picks most queue.now self.now.rows) }
        ensures own { HaveOwnIds self.now.rows }
    {
        self.index.picks(alloc, &self.rows, queue, most)
    }

    /// The scheduler that the tasks of a group have, as the first of them has it; none where the group has no task.
    pub fn kept_scheduler(&self, group: SlugId) -> Option<&Identifier>
        ensures { option_copied result ≡ kept_scheduler group self.now.rows }
    {
        kept_scheduler(&self.by_ids(), group)
    }

    /// The first task that a new one waits for, in the order of its definition, that is not the task itself and does not stand.
    pub fn missing_dependency(&self, creation: &Creation) -> Option<SlugId>
        ensures { result ≡ missing_dependency creation.now self.now.rows }
    {
        missing_dependency(&self.by_ids(), creation)
    }

    /// The first task that a new one waits for, in the order of its definition, that is not the task itself, and stands, but expires before
    /// the deadline of the new one.
    pub fn early_dependency(&self, creation: &Creation) -> Option<SlugId>
        ensures { result ≡ early_dependency creation.now self.now.rows }
    {
        early_dependency(&self.by_ids(), creation)
    }

    /// Whether the task with this id stands, and is on a list.
    pub fn lists(&self, list: &TaskList, id: SlugId) -> bool
        ensures { result ≡ on_row (is_listed list.now) id self.now.rows }
    {
        lists(&self.by_ids(), list, id)
    }

    /// The page of a list behind the task that a token names, or the first page where there is no token, with so many tasks at most; or none,
    /// where the token names no task of the list.
    pub fn page(
        &self,
        alloc: Global,
        list: &TaskList,
        after: Option<SlugId>,
        limit: u16,
    ) -> Result<Option<Page<'_>>, AllocError>
        ensures { IfOk result (λ page. MatchOption page (names_listed list.now after self.now.rows ≡ false)
            (λ p. (names_listed list.now after self.now.rows ≡ true)
            × (map (λ row. row.now) p.rows.items ≡ page_rows after limit (listed list.now self.now.rows))
            × (p.more ≡ has_more after limit (listed list.now self.now.rows)))) }
    {
        page_behind(alloc, &self.by_ids(), &self.lists, list, after, limit)
    }

    /// The plan of a change, with all the memory that it takes, or none where the change may not be made. The tables stay as they were,
    /// also where memory runs out.
    pub fn plan(&mut self, alloc: Global, change: Change) -> Result<Option<TaskPlan>, AllocError>
        ensures planned { IfOk result (λ plan. MatchOption plan (may_apply self.old change ≡ false)
            (λ p. (p.change ≡ change) × IsPlanOn self.old p)) }
        ensures same { self.new ≡ self.old }
    {
        if !self.may_apply(&change) {
            drop(change);
            return Ok(None);
        }
        let Change { at, kind } = change;
        self.plan_kind(alloc, at, kind)
    }

    /// Whether a change may be made.
    fn may_apply(&self, change: &Change) -> bool
        ensures { result ≡ may_apply self.now change.now }
    {
        let at = change.at;
        at >= self.last
            && at.millis() <= LAST_TOLD_MOMENT
            && !self.due(at)
            && self.may_be(at, &change.kind)
    }

    /// Whether what a kind of change needs holds.
    fn may_be(&self, at: Moment, kind: &Kind) -> bool
        ensures { result ≡ may_be self.now at kind.now }
    {
        match kind {
            Kind::Create(creation) => self.may_create(at, creation),
            Kind::Claim(claim) => may_claim(&self.by_ids(), at, claim),
            Kind::Schedule(id) => may_schedule(&self.by_ids(), *id),
            Kind::Rerun(id) => may_rerun(&self.by_ids(), *id, at),
            Kind::Cancel(id) => may_cancel(&self.by_ids(), *id),
            Kind::Reclaim(r) => may_keep(at, r.taken_until)
                && is_running(&self.by_ids(), r.id, r.run),
            Kind::Resolve(r) => is_running(&self.by_ids(), r.id, r.run),
            Kind::Tick => false,
        }
    }

    /// Whether a task may be created at this moment.
    fn may_create(&self, at: Moment, creation: &Creation) -> bool
        ensures { result ≡ may_create self.now at creation.now }
    {
        self.row(creation.id).is_none()
            && at < creation.definition.deadline
            && waits_well(&self.by_ids(), creation)
            && may_join(&self.by_ids(), creation)
            && self.rows.len() < MOST_TASKS
    }

    /// Makes the change of a plan that was made on these tables. It takes no memory.
    pub fn apply(&mut self, plan: TaskPlan)
        requires { IsPlanOn self.old plan }
        ensures { self.new ≡ applied self.old plan.change }
    {
        let TaskPlan {
            at,
            deed,
            rows: _,
            room,
            claims,
            run_room,
        } = plan;
        match deed {
            Deed::Create(row) => self.create(at, row, room),
            deed => self.change(at, &deed, claims, run_room),
        }
    }

    /// Adds a task that is created.
    fn create(&mut self, at: Moment, row: TaskRow, room: Room)
        requires { IsPlanOn self.old (planned_of at (Deed.Create row) [] room) }
        ensures { self.new ≡ applied self.old (change_of at (Deed.Create row)) }
    {
        let drawn = row.runs().len() as u64;
        let Room {
            rows: grown,
            lists,
            member,
            waited,
        } = room;
        keep_listed(
            &mut self.lists,
            &self.rows,
            &self.index,
            &row,
            lists,
            member,
            waited,
        );
        self.index.added(&self.rows, &row);
        add(&mut self.rows, grown, row);
        self.next += drawn;
        self.last = at;
    }

    /// Makes a change of the tasks that stand.
    fn change(&mut self, at: Moment, deed: &Deed, claims: Vec<RunClaim>, run_room: Option<RunRoom>)
        requires claims { claims.items ≡ claims_of at deed.now }
        requires run_room { run_room ≡ run_room_of deed.now }
        requires stands { row_of deed.now ≡ None }
        requires lawful { may_apply self.old (change_of at deed.now) ≡ true }
        ensures { self.new ≡ applied self.old (change_of at deed.now) }
    {
        let drawn = change(
            &mut self.rows,
            &mut self.index,
            at,
            self.next,
            deed,
            claims,
            run_room,
        );
        self.next += drawn;
        self.last = at;
    }
}
