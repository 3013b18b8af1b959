//! A clock and draws that stand still.
ghost use Rattle.std.specs.Prelude.{◌≡◌, ◌-◌, ◌^◌, ◌<◌, ◌↔◌, IsTrue};
ghost use Rattle.farm_text.specs.Told.{told_by, first_uuid};
ghost use Rattle.load_requests.specs.Still.{midnight};

use crate::requests::task_of;
use farm_text::{Clock, Draws, Moment, SlugId};
use std::alloc::AllocError;
use std::marker::Model;

/// 2024-01-01T00:00:00.000Z, in milliseconds since 1970-01-01T00:00:00Z.
const MIDNIGHT: u64 = 1_704_067_200_000;

/// A clock at which it is always 2024-01-01T00:00:00.000Z.
///
/// A contract sees it as the number of its calls.
#[derive(Drop)]
pub struct StillClock {
    calls: u64,
}

impl Model for StillClock {
    ghost use Rattle.std.specs.Prelude.{ℕ};

    ghost Value = { ℕ };

    ghost view = { λ clock. clock.calls };
}

impl StillClock {
    /// A clock that was not asked yet.
    pub fn new() -> StillClock
        ensures { result ≡ 0 }
    {
        StillClock { calls: 0 }
    }

    /// Whether each call was counted. There may be 2^64 - 2.
    pub fn counts_all(&self) -> bool
        ensures { IsTrue result ↔ (self.now < 2 ^ 64 - 1) }
    {
        self.calls < u64::MAX
    }
}

impl Clock for StillClock {
    ghost told = { λ calls. told_by (λ _. midnight) calls };

    fn now(&mut self) -> Moment {
        self.calls = self.calls.saturating_add(1);
        let Some(moment) = Moment::from_millis(MIDNIGHT) else {
            unreachable!();
        };
        moment
    }

    fn fork(&mut self) -> Result<StillClock, AllocError> {
        Ok(StillClock::new())
    }
}

/// Draws that always give 00000000-0000-4000-8000-000000000000.
///
/// A contract sees them as the number of their calls.
#[derive(Drop)]
pub struct StillDraws {
    calls: u64,
}

impl Model for StillDraws {
    ghost use Rattle.std.specs.Prelude.{ℕ};

    ghost Value = { ℕ };

    ghost view = { λ draws. draws.calls };
}

impl StillDraws {
    /// Draws that were not asked yet.
    pub fn new() -> StillDraws
        ensures { result ≡ 0 }
    {
        StillDraws { calls: 0 }
    }

    /// Whether each call was counted. There may be 2^64 - 2.
    pub fn counts_all(&self) -> bool
        ensures { IsTrue result ↔ (self.now < 2 ^ 64 - 1) }
    {
        self.calls < u64::MAX
    }
}

impl Draws for StillDraws {
    ghost told = { λ calls. told_by (λ _. first_uuid) calls };

    fn draw(&mut self) -> SlugId {
        self.calls = self.calls.saturating_add(1);
        task_of(0)
    }

    fn fork(&mut self) -> Result<StillDraws, AllocError> {
        Ok(StillDraws::new())
    }
}
