//! Why a firing makes no task.
use jsone_render::TemplateFault;
use std::alloc::AllocError;
use task_defs::DefFault;

/// Why a firing makes no task.
#[derive(Drop)]
pub enum FireFault {
    /// The template has this fault, at this place of it.
    Template(TemplateFault),
    /// The template costs more than 1,000,000.
    TooMuchWork,
    /// The least rule that the rendered definition breaks.
    Definition(DefFault),
    NoMemory,
}

impl From<AllocError> for FireFault {
    ghost use Rattle.std.specs.Prelude.{◌≡◌};
    ghost use Rattle.hook_fire.specs.declared.fault.FireFault.{FireFault};

    ghost from_gives = { λ _ fault. fault ≡ FireFault.NoMemory };

    fn from(_: AllocError) -> FireFault {
        FireFault::NoMemory
    }
}
