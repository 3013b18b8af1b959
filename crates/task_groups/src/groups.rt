//! The groups of the tasks of a farm.
ghost use Rattle.std.specs.Prelude.{◌≡◌, ◌<◌, ◌↔◌, [], Some, None, IsNone, IfSome, IfErr, OnOk, OnErr};
ghost use Rattle.std.specs.List.{AllPairs};
ghost use Rattle.std.specs.Option.{ForSome};
ghost use Rattle.task_groups.specs.Faults.{IsCauseOf};
ghost use Rattle.task_groups.specs.Members.{no_groups, rows_of, last_row, kept_scheduler, joined};
ghost use Rattle.task_groups.specs.Pages.{page_rows, has_more};

use crate::fault::ReserveFault;
use crate::group::{Group, add_row, joining, rows_of};
use crate::page::{Page, last_of, page_of};
use farm_text::SlugId;
use slug_places::places::Places;
use std::alloc::Global;
use std::collections::BTreeMap;
use std::marker::Model;

/// The groups of the tasks of a farm, in the order of their first tasks, and the room for one task that joins one of them.
#[derive(Drop)]
pub struct Groups {
    groups: Vec<Group>,
    /// The place of each group by its id.
    places: Places,
    /// The task that joins, for which there is room.
    room: Option<Group>,
}

impl Model for Groups {
    ghost use Rattle.std.specs.Prelude.{map, option_map, vec_capacity};
    ghost use Rattle.task_groups.specs.Members.{TaskGroups};
    ghost use Rattle.task_groups.specs.Kept.{shown, joining_of, IsKept};

    ghost Value = { TaskGroups };

    ghost view = { λ g. record { groups = map shown g.groups.items; room = option_map joining_of g.room } };

    ghost invariant = { λ g. IsKept g.groups.items (vec_capacity g.groups) g.places g.room };
}

impl Groups {
    /// No groups. They take no memory.
    pub fn new(alloc: Global) -> Self
        ensures { result ≡ no_groups }
    {
        Groups {
            groups: Vec::new(alloc),
            places: BTreeMap::new(alloc),
            room: None,
        }
    }

    /// Takes the memory for one `join` of a task with this scheduler to this group, or tells the scheduler that the tasks of the group
    /// have, where it is another. Room that an earlier call left is given up.
    pub fn reserve(
        &mut self,
        alloc: Global,
        group: SlugId,
        scheduler: &str,
    ) -> Result<(), ReserveFault>
        ensures ok { OnOk result (self.new ≡ record self.old { room = Some (record { group = group; scheduler = scheduler.now }) }) }
        ensures err { OnErr result (self.new ≡ record self.old { room = None }) }
        ensures served { OnOk result (IfSome (kept_scheduler group self.old.groups) (λ kept. kept ≡ scheduler.now)) }
        ensures refused { IfErr result (λ fault. IsCauseOf fault (kept_scheduler group self.old.groups) scheduler.now) }
    {
        self.room = None;
        match joining(alloc, &mut self.groups, &mut self.places, group, scheduler) {
            Ok(joining) => {
                self.room = Some(joining);
                Ok(())
            }
            Err(fault) => Err(fault),
        }
    }

    /// Adds a task to the group, for which there is room. Its row is above the last of the group, since rows are places in the order of
    /// creation. It takes no memory.
    pub fn join(&mut self, group: SlugId, scheduler: &str, row: u32)
        requires room { self.old.room ≡ Some (record { group = group; scheduler = scheduler.now }) }
        requires last { ForSome (last_row group self.old.groups) (λ held. held < row) }
        ensures { self.new ≡ record { groups = joined group scheduler.now row self.old.groups; room = None } }
    {
        let Some(joining) = self.room.take() else {
            unreachable!();
        };
        add_row(&mut self.groups, &self.places, joining, row);
    }

    /// The last row that the group has.
    pub fn last(&self, group: SlugId) -> Option<u32>
        ensures { result ≡ last_row group self.now.groups }
    {
        last_of(rows_of(&self.groups, &self.places, group))
    }

    /// A page of the group's tasks, in the order of creation: those behind the row of a token, where there is one, and so many at most.
    /// None where the group has no task. It takes no memory.
    pub fn list(&self, group: SlugId, after: Option<u32>, limit: u16) -> Option<Page<'_>>
        ensures none { IsNone result ↔ (rows_of group self.now.groups ≡ []) }
        ensures rows { IfSome result (λ page. page.rows.now ≡ page_rows after limit (rows_of group self.now.groups)) }
        ensures more { IfSome result (λ page. page.more ≡ has_more after limit (rows_of group self.now.groups)) }
        ensures rising { AllPairs (λ x y. x < y) (rows_of group self.now.groups) }
    {
        let rows = rows_of(&self.groups, &self.places, group);
        if rows.is_empty() {
            return None;
        }
        Some(page_of(rows, after, usize::from(limit)))
    }
}
