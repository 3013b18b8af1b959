//! A task that is to come, as it joins its group.
ghost use Rattle.std.specs.Prelude.{◌≡◌, ◌↔◌, IsTrue, IfOk};
ghost use Rattle.task_index.specs.Members.{joining_of};

use farm_text::{SlugId, Text};
use std::alloc::{AllocError, Global};
use std::marker::Model;

/// The group and the scheduler of a task that is to come.
#[derive(Drop)]
pub(crate) struct Noted {
    group: SlugId,
    scheduler: Text,
}

impl Model for Noted {
    ghost use Rattle.task_groups.specs.Members.{Joining};

    ghost Value = { Joining };

    ghost view = { λ n. record { group = n.group; scheduler = n.scheduler } };
}

impl Noted {
    /// A task of this group and this scheduler.
    pub(crate) fn new(alloc: Global, group: SlugId, scheduler: &str) -> Result<Noted, AllocError>
        ensures { IfOk result (λ noted. noted ≡ joining_of group scheduler.now) }
    {
        let scheduler = Text::from_str(alloc, scheduler)?;
        Ok(Noted { group, scheduler })
    }

    /// Whether it is of this group and this scheduler.
    pub(crate) fn is_of(&self, group: SlugId, scheduler: &str) -> bool
        ensures { IsTrue result ↔ (self.now ≡ joining_of group scheduler.now) }
    {
        self.group == group && self.scheduler.as_str() == scheduler
    }
}
