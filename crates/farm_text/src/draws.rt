ghost use Rattle.std.specs.Prelude.{◌≡◌, ℕ, ◌+◌, ◌-◌, ◌^◌, List, [], ◌∷◌, min, Option, IfOk};
ghost use Rattle.farm_text.specs.Logs.{LogGrows};
ghost use Rattle.farm_text.specs.Told.{told_by, listed_id, IsNewBeside};

use crate::slug::SlugId;
use std::alloc::AllocError;
use std::marker::Model;

/// Draws ids.
pub trait Draws: Sized {
    /// The ids drawn so far, each as its sixteen bytes, where they are kept.
    ghost told: { Self → Option (List (List ℕ)) };

    /// The next id.
    fn draw(&mut self) -> SlugId
        ensures told { LogGrows (told self.old) (told self.new) (result ∷ []) };

    /// Draws beside these, for another worker. What they have drawn so far is nothing.
    fn fork(&mut self) -> Result<Self, AllocError>
        ensures told { LogGrows (told self.old) (told self.new) [] }
        ensures new { IfOk result (λ other. IsNewBeside (told self.old) (told other)) };
}

/// Draws that give the ids of a list in order, and after them the last one again.
///
/// A contract sees them as their ids and the number of their calls.
#[derive(Drop)]
pub struct ListDraws {
    ids: Vec<SlugId>,
    calls: u64,
}

impl Model for ListDraws {
    ghost Value = { List (List ℕ) × ℕ };

    ghost view = { λ d. (d.ids.items, d.calls) };
}

impl ListDraws {
    /// Draws of these ids; an empty list gives `AAAAAAAAQACAAAAAAAAAAA`.
    pub fn new(ids: Vec<SlugId>) -> ListDraws
        ensures { result ≡ (ids.items, 0) }
    {
        ListDraws { ids, calls: 0 }
    }
}

impl Draws for ListDraws {
    ghost told = { λ d. told_by (listed_id d.0) d.1 };

    fn draw(&mut self) -> SlugId
        ensures told { LogGrows (told_by (listed_id self.old.0) self.old.1)
            (told_by (listed_id self.new.0) self.new.1) (result ∷ []) }
        ensures value { result ≡ listed_id self.old.0 self.old.1 }
        ensures next { self.new ≡ (self.old.0, min (self.old.1 + 1) (2 ^ 64 - 1)) }
    {
        let place = (self.calls as usize).min(self.ids.len().saturating_sub(1));
        let id = self.ids.get(place).copied().unwrap_or(SlugId::first());
        self.calls = self.calls.saturating_add(1);
        id
    }

    /// Other draws of these ids, from the first on.
    fn fork(&mut self) -> Result<ListDraws, AllocError>
        ensures told { LogGrows (told_by (listed_id self.old.0) self.old.1)
            (told_by (listed_id self.new.0) self.new.1) [] }
        ensures new { IfOk result (λ other. IsNewBeside (told_by (listed_id self.old.0) self.old.1) (told_by (listed_id other.0) other.1)) }
        ensures ids { IfOk result (λ other. other ≡ (self.old.0, 0)) }
        ensures kept { self.new ≡ self.old }
    {
        Ok(ListDraws::new(self.ids.clone()?))
    }
}
