//! The plans of changes of the tables.
ghost use Rattle.std.specs.Prelude.{◌≡◌, true, false, None, IfOk, OnOk, MatchOption};
ghost use Rattle.task_index.specs.Contents.{row_with, HaveOwnIds};
ghost use Rattle.task_index.specs.Ready.{has_ready, settled_row};
ghost use Rattle.task_index.specs.Changes.{creating, may_apply};
ghost use Rattle.task_types.specs.declared.change.Kind.TheVariants.{Create};
ghost use Rattle.task_index.specs.Plans.{named_rows, FindsRoom, IsPlanOn};
ghost use Rattle.farm_rows.specs.Deeds.{kind_of, change_of, row_of, claims_of, rows_after};

use crate::copies::claims;
use crate::plan::{Deed, TaskPlan, run_room};
use crate::shown::shown;
use crate::tables::TaskTables;
use farm_text::Moment;
use run_states::{Claim as RunClaim, TaskRow};
use std::alloc::{AllocError, Global};
use task_index::place_lists::room::Room;
use task_index::settle::settle_new;
use task_types::{Creation, Kind};

impl TaskTables {
    /// The plan of a change that may be made, by its kind.
    pub(super) fn plan_kind(
        &mut self,
        alloc: Global,
        at: Moment,
        kind: Kind,
    ) -> Result<Option<TaskPlan>, AllocError>
        requires { may_apply self.old (record { at = at; kind = kind }) ≡ true }
        ensures planned { IfOk result (λ plan. MatchOption plan (may_apply self.old (record { at = at; kind = kind }) ≡ false)
            (λ p. (p.change ≡ record { at = at; kind = kind }) × IsPlanOn self.old p)) }
        ensures same { self.new ≡ self.old }
    {
        match kind {
            Kind::Create(creation) => Ok(Some(self.plan_new(alloc, at, creation)?)),
            Kind::Claim(claim) => Ok(Some(self.plan_of(alloc, at, Deed::Claim(claim))?)),
            Kind::Schedule(id) => Ok(Some(self.plan_of(alloc, at, Deed::Schedule(id))?)),
            Kind::Rerun(id) => Ok(Some(self.plan_of(alloc, at, Deed::Rerun(id))?)),
            Kind::Cancel(id) => Ok(Some(self.plan_of(alloc, at, Deed::Cancel(id))?)),
            Kind::Reclaim(r) => Ok(Some(self.plan_of(alloc, at, Deed::Reclaim(r))?)),
            Kind::Resolve(r) => Ok(Some(self.plan_of(alloc, at, Deed::Resolve(r))?)),
            Kind::Tick => Ok(None),
        }
    }

    /// The plan of a creation that may be made. There is room beside the tasks for the one that is created.
    fn plan_new(
        &mut self,
        alloc: Global,
        at: Moment,
        creation: Creation,
    ) -> Result<TaskPlan, AllocError>
        requires { may_apply self.old (creating at creation) ≡ true }
        ensures change { IfOk result (λ p. p.change ≡ creating at creation) }
        ensures plan { IfOk result (λ p. IsPlanOn self.old p) }
        ensures same { self.new ≡ self.old }
    {
        match self.note(alloc, &creation) {
            Ok(()) => self.plan_creation(alloc, at, creation),
            Err(error) => {
                drop(creation);
                Err(error)
            }
        }
    }

    /// Makes room beside the tasks for one that is to be created.
    fn note(&mut self, alloc: Global, creation: &Creation) -> Result<(), AllocError>
        requires { row_with creation.now.id self.old.rows ≡ None }
        ensures { self.new ≡ self.old }
    {
        self.index.note(alloc, &self.rows, creation)
    }

    /// The plan of a creation that may be made.
    fn plan_creation(
        &self,
        alloc: Global,
        at: Moment,
        creation: Creation,
    ) -> Result<TaskPlan, AllocError>
        requires { may_apply self.now (creating at creation) ≡ true }
        ensures change { IfOk result (λ p. p.change ≡ creating at creation) }
        ensures plan { IfOk result (λ p. IsPlanOn self.now p) }
    {
        let room = match self.room_for(alloc, &creation) {
            Ok(room) => room,
            Err(error) => {
                drop(creation);
                return Err(error);
            }
        };
        let mut row = match TaskRow::make(alloc, creation.id, creation.definition) {
            Ok(row) => row,
            Err(error) => {
                drop(room);
                return Err(error);
            }
        };
        self.settle_in(&mut row, at);
        Ok(TaskPlan {
            at,
            deed: Deed::Create(row),
            rows: Vec::new(alloc),
            room,
            claims: Vec::new(alloc),
            run_room: None,
        })
    }

    /// The room for a task that is to be created.
    fn room_for(&self, alloc: Global, creation: &Creation) -> Result<Room, AllocError>
        ensures room { IfOk result (λ room. FindsRoom self.now.rows room (Create creation.now)) }
        ensures none { has_ready self.now ≡ false }
    {
        Room::new(alloc, &self.rows, &self.index, &self.lists, creation)
    }

    /// Makes a new task pending, where it is ready among those that stand.
    fn settle_in(&self, row: &mut TaskRow, at: Moment)
        ensures { row.new ≡ settled_row self.now at row.old }
    {
        settle_new(&self.by_ids(), row, at, self.next);
    }

    /// The plan of a change of tasks that stand, which may be made.
    fn plan_of(&self, alloc: Global, at: Moment, deed: Deed) -> Result<TaskPlan, AllocError>
        requires stands { row_of deed ≡ None }
        requires lawful { may_apply self.now (change_of at deed) ≡ true }
        ensures change { IfOk result (λ p. p.change ≡ change_of at deed) }
        ensures plan { IfOk result (λ p. IsPlanOn self.now p) }
    {
        let (claims, rows) = self.parts(alloc, at, &deed)?;
        let run_room = run_room(alloc, &deed)?;
        Ok(TaskPlan {
            at,
            deed,
            rows,
            room: Room::none(alloc),
            claims,
            run_room,
        })
    }

    /// The claims that a change makes, and the tasks that it names, as they will be. (Each task has an id of its own.)
    fn parts(
        &self,
        alloc: Global,
        at: Moment,
        deed: &Deed,
    ) -> Result<(Vec<RunClaim>, Vec<TaskRow>), AllocError>
        ensures own { OnOk result (HaveOwnIds self.now.rows) }
        ensures claims { IfOk result (λ p. p.0.items ≡ claims_of at deed.now) }
        ensures rows { IfOk result (λ p. p.1.items ≡ rows_after at self.now.next deed.now (named_rows (kind_of deed.now) self.now.rows)) }
    {
        let claims = claims(alloc, at, deed)?;
        let rows = shown(alloc, &self.by_ids(), at, self.next, deed)?;
        Ok((claims, rows))
    }
}
