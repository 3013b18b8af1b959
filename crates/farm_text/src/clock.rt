ghost use Rattle.std.specs.Prelude.{◌≡◌, ℕ, ◌+◌, ◌-◌, ◌^◌, ◌≤◌, List, [], ◌∷◌, min, Option, Some, None, IfOk};
ghost use Rattle.farm_text.specs.Logs.{LogGrows};
ghost use Rattle.farm_text.specs.Told.{told_by, listed_moment, IsNewBeside};
ghost use Rattle.farm_text.specs.declared.moment.TheConstants.{LAST_TOLD_MOMENT};

use crate::moment::{LAST_TOLD_MOMENT, Moment};
use std::alloc::AllocError;
use std::marker::Model;
use std::rt;

/// Tells the time. No order of the moments is promised.
pub trait Clock: Sized {
    /// The moments told so far, where the clock keeps them.
    ghost told: { Self → Option (List ℕ) };

    /// The moment that it tells now. No order is promised.
    fn now(&mut self) -> Moment
        ensures told { LogGrows (told self.old) (told self.new) (result ∷ []) }
        ensures within { result ≤ LAST_TOLD_MOMENT };

    /// A clock beside this one, for another worker. What it has told so far is nothing.
    fn fork(&mut self) -> Result<Self, AllocError>
        ensures told { LogGrows (told self.old) (told self.new) [] }
        ensures new { IfOk result (λ other. IsNewBeside (told self.old) (told other)) };
}

/// A clock that tells the moments of a list in order, and after them the last one again.
///
/// A contract sees it as its moments and the number of its calls.
#[derive(Drop)]
pub struct ListClock {
    moments: Vec<Moment>,
    calls: u64,
}

impl Model for ListClock {
    ghost Value = { List ℕ × ℕ };

    ghost view = { λ c. (c.moments.items, c.calls) };
}

impl ListClock {
    /// A clock over these moments; of an empty list it tells moment 0.
    ///
    /// One after the last moment that a clock tells is told as that one.
    pub fn new(moments: Vec<Moment>) -> ListClock
        ensures { result ≡ (moments.items, 0) }
    {
        ListClock { moments, calls: 0 }
    }
}

impl Clock for ListClock {
    ghost told = { λ c. told_by (listed_moment c.0) c.1 };

    fn now(&mut self) -> Moment
        ensures told { LogGrows (told_by (listed_moment self.old.0) self.old.1)
            (told_by (listed_moment self.new.0) self.new.1) (result ∷ []) }
        ensures within { result ≤ LAST_TOLD_MOMENT }
        ensures value { result ≡ listed_moment self.old.0 self.old.1 }
        ensures next { self.new ≡ (self.old.0, min (self.old.1 + 1) (2 ^ 64 - 1)) }
    {
        let place = (self.calls as usize).min(self.moments.len().saturating_sub(1));
        let moment = self.moments.get(place).copied().unwrap_or(Moment::FIRST);
        self.calls = self.calls.saturating_add(1);
        moment.min_told()
    }

    /// Another clock over these moments, from the first on.
    fn fork(&mut self) -> Result<ListClock, AllocError>
        ensures told { LogGrows (told_by (listed_moment self.old.0) self.old.1)
            (told_by (listed_moment self.new.0) self.new.1) [] }
        ensures new { IfOk result (λ other. IsNewBeside (told_by (listed_moment self.old.0) self.old.1) (told_by (listed_moment other.0) other.1)) }
        ensures moments { IfOk result (λ other. other ≡ (self.old.0, 0)) }
        ensures kept { self.new ≡ self.old }
    {
        Ok(ListClock::new(self.moments.clone()?))
    }
}

/// The clock of the runtime. Where that fails or stands before 1970, the moment told last is told again.
///
/// A contract sees it as its runtime and the moment told last.
#[derive(Drop)]
pub struct HostClock<R: rt::Clock + Copy> {
    rt: R,
    last: Moment,
}

impl<R: rt::Clock + Copy> Model for HostClock<R> {
    ghost use Rattle.std.specs.Prelude.{ℕ, ◌≤◌};
    ghost use Rattle.farm_text.specs.declared.moment.TheConstants.{LAST_TOLD_MOMENT};

    ghost Value = { R × ℕ };

    ghost view = { λ c. (c.rt, c.last) };

    ghost invariant = { λ c. c.last ≤ LAST_TOLD_MOMENT };
}

impl<R: rt::Clock + Copy> HostClock<R> {
    /// The clock of this runtime. Before its first moment it has told moment 0.
    pub fn new(rt: R) -> HostClock<R>
        ensures { result ≡ (rt, 0) }
    {
        HostClock {
            rt,
            last: Moment::FIRST,
        }
    }
}

impl<R: rt::Clock + Copy> Clock for HostClock<R> {
    ghost told = { λ _. None };

    fn now(&mut self) -> Moment
        ensures told { LogGrows None None (result ∷ []) }
        ensures within { result ≤ LAST_TOLD_MOMENT }
        ensures kept { self.new ≡ (self.old.0, result) }
    {
        if let Ok(since) = self.rt.since_1970() {
            self.last = Moment::saturating(since.as_millis());
        }
        self.last
    }

    fn fork(&mut self) -> Result<HostClock<R>, AllocError>
        ensures told { LogGrows {A = ℕ} None None [] }
        ensures new { IfOk result (λ other. IsNewBeside {A = ℕ} None None) }
        ensures same { IfOk result (λ other. other ≡ self.old) }
        ensures kept { self.new ≡ self.old }
    {
        Ok(HostClock {
            rt: self.rt,
            last: self.last,
        })
    }
}
