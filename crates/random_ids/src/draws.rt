//! Ids that a random generator draws.
ghost use Rattle.std.specs.Prelude.{◌≡◌, ℕ, List, [], ◌∷◌, None, IfOk};
ghost use Rattle.causes.specs.Causes.{HasCause};
ghost use Rattle.farm_text.specs.Logs.{LogGrows};
ghost use Rattle.rand_core.specs.Stream.{fill_bytes};
ghost use Rattle.rand_chacha.specs.ChaCha.{of_seed};
ghost use Rattle.uuid.specs.Parts.{v4_of_fill};
ghost use Rattle.farm_text.specs.Told.{IsNewBeside};
ghost use Rattle.random_ids.specs.Draws.{IsSeeded, stream};

use causes::{Failed, FaultCount};
use farm_text::{Draws, SlugId};
use rand_chacha::ChaCha12Rng;
use rand_core::SeedableRng;
use std::alloc::AllocError;
use std::marker::Model;
use std::random::RandomSource;
use uuid::Uuid;

/// Random ids, of a generator that the runtime seeded once.
///
/// A contract sees them as that generator.
#[derive(Drop)]
pub struct HostDraws {
    generator: ChaCha12Rng,
}

impl Model for HostDraws {
    ghost use Rattle.rand_chacha.specs.ChaCha.{ChaCha};

    ghost Value = { ChaCha };

    ghost view = { λ d. d.generator };
}

impl HostDraws {
    /// Seeds the generator. A runtime that gives no random bytes is counted among the refused seeds.
    pub fn new(rt: &impl RandomSource, refused: &mut FaultCount) -> Result<HostDraws, Failed>
        ensures seeded { IfOk result IsSeeded }
        ensures cause { HasCause refused.old refused.new result }
    {
        let mut seed = [0; 32];
        match rt.fill_bytes(&mut seed) {
            Ok(()) => Ok(HostDraws {
                generator: ChaCha12Rng::from_seed(seed),
            }),
            Err(_) => {
                refused.raise();
                Err(Failed)
            }
        }
    }

    /// Draws of a generator of their own, which this one seeds.
    pub fn seed_another(&mut self) -> HostDraws
        ensures seeded { result ≡ of_seed (fill_bytes 32 (stream self.old)).0 }
        ensures rest { stream self.new ≡ (fill_bytes 32 (stream self.old)).1 }
    {
        HostDraws {
            generator: self.generator.fork(),
        }
    }
}

impl Draws for HostDraws {
    ghost told = { λ _. None };

    fn draw(&mut self) -> SlugId
        ensures told { LogGrows None None (result ∷ []) }
        ensures drawn { (result, stream self.new) ≡ v4_of_fill (fill_bytes 16 (stream self.old)) }
    {
        let uuid = Uuid::new_v4(&mut self.generator);
        let Some(id) = SlugId::of_uuid(uuid.into_bytes()) else {
            unreachable!();
        };
        id
    }

    /// Draws of a generator of their own, which this one seeds.
    fn fork(&mut self) -> Result<HostDraws, AllocError>
        ensures told { LogGrows {A = List ℕ} None None [] }
        ensures new { IfOk result (λ other. IsNewBeside {A = List ℕ} None None) }
        ensures seeded { IfOk result (λ other. other ≡ of_seed (fill_bytes 32 (stream self.old)).0) }
        ensures rest { stream self.new ≡ (fill_bytes 32 (stream self.old)).1 }
    {
        Ok(self.seed_another())
    }
}
