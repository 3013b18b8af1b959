//! Why a template has no value.
use farm_text::Text;
use jsone_values::faults::Fault;
use std::alloc::AllocError;

/// A fault, and the JSON pointer (RFC 6901) of the node of the template whose own it is.
#[derive(Drop)]
pub struct TemplateFault {
    pub rule: Fault,
    pub path: Text,
}

/// Why a template has no value.
#[derive(Drop)]
pub enum RenderFault {
    Fault(TemplateFault),
    /// More than 1,000,000 would be paid.
    TooMuchWork,
    NoMemory,
}

impl From<AllocError> for RenderFault {
    ghost use Rattle.std.specs.Prelude.{◌≡◌};
    ghost use Rattle.jsone_render.specs.declared.faults.RenderFault.{RenderFault};

    ghost from_gives = { λ _ fault. fault ≡ RenderFault.NoMemory };

    fn from(_: AllocError) -> RenderFault {
        RenderFault::NoMemory
    }
}
