//! The tasks of each group, by their places. Only `note` takes memory.
ghost use Rattle.std.specs.Prelude.{◌≡◌, ◌+◌, ◌<◌, ◌^◌, ◌↔◌, ◌∷◌, [], ◌++◌, IfSome, IsTrue, OnOk, Some, length, slice_get};
ghost use Rattle.task_groups.specs.Members.{no_groups, rows_of, kept_scheduler};
ghost use Rattle.task_index.specs.Members.{joining_of, AreMembers};

pub(crate) mod kept;
mod noted;

use farm_text::SlugId;
use noted::Noted;
use run_states::TaskRow;
use std::alloc::{AllocError, Global};
use std::marker::Model;
use task_groups::{Groups, ReserveFault};

/// The tasks of each group, by their places; and the room for one task more.
#[derive(Drop)]
pub(crate) struct Members {
    groups: Groups,
    /// The task that is to come, for which its group has room.
    noted: Option<Noted>,
}

impl Model for Members {
    ghost use Rattle.std.specs.Prelude.{◌≡◌, Some};
    ghost use Rattle.std.specs.Option.{ForSome};
    ghost use Rattle.task_groups.specs.Members.{TaskGroups};

    ghost Value = { TaskGroups };

    ghost view = { λ m. record { groups = m.groups.groups; room = m.noted } };

    ghost invariant = { λ m. ForSome m.noted (λ joining. m.groups.room ≡ Some joining) };
}

impl Members {
    /// Groups without tasks. They take no memory.
    pub(crate) fn new(alloc: Global) -> Self
        ensures { result ≡ no_groups }
    {
        Members {
            groups: Groups::new(alloc),
            noted: None,
        }
    }

    /// Takes the memory for a task that is to come, where its group may have it. Room that was there before is given up.
    pub(crate) fn note(
        &mut self,
        alloc: Global,
        group: SlugId,
        scheduler: &str,
    ) -> Result<(), AllocError>
        ensures same { self.new.groups ≡ self.old.groups }
        ensures room { OnOk result (IfSome (kept_scheduler group self.old.groups) (λ kept. kept ≡ scheduler.now)
            → self.new.room ≡ Some (joining_of group scheduler.now)) }
    {
        self.noted = None;
        let noted = Noted::new(alloc, group, scheduler)?;
        match self.groups.reserve(alloc, group, scheduler) {
            Ok(()) => {
                self.noted = Some(noted);
                Ok(())
            }
            Err(ReserveFault::OtherScheduler(_)) => Ok(()),
            Err(ReserveFault::NoMemory) => Err(AllocError),
        }
    }

    /// Adds a task that comes behind the others, where there is room for it. Answers whether it did.
    pub(crate) fn add(&mut self, rows: &[TaskRow], row: &TaskRow) -> bool
        requires { AreMembers self.old.groups rows.now }
        ensures added { IsTrue result → AreMembers self.new.groups (rows.now ++ row.now ∷ []) }
        ensures room { let d = row.now.definition in
            IsTrue result ↔ ((self.old.room ≡ Some (joining_of d.task_group_id d.scheduler_id)) × (length rows.now < 2 ^ 32)) }
    {
        let Some(noted) = self.noted.take() else {
            return false;
        };
        let group = row.definition().task_group_id;
        let scheduler = row.definition().scheduler_id.as_str();
        let place = rows.len();
        if place > u32::MAX as usize || !noted.is_of(group, scheduler) {
            return false;
        }
        self.groups.join(group, scheduler, place as u32);
        true
    }

    /// The place of the first task of a group.
    pub(crate) fn first(&self, group: SlugId) -> Option<u32>
        ensures { result ≡ slice_get (rows_of group self.now.groups) 0 }
    {
        match self.groups.list(group, None, 1) {
            Some(page) => page.rows.first().copied(),
            None => None,
        }
    }
}
