//! Why bytes were not read.

use std::alloc::AllocError;

/// Why nothing was read.
#[derive(Drop)]
pub(crate) enum Unread {
    /// The bytes are no change's record.
    NotARecord,
    NoMemory,
}

impl From<AllocError> for Unread {
    ghost use Rattle.std.specs.Prelude.{◌≡◌};
    ghost use Rattle.farm_record.specs.declared.unread.Unread.{Unread};

    ghost from_gives = { λ _ e. e ≡ Unread.NoMemory };

    fn from(_error: AllocError) -> Unread {
        Unread::NoMemory
    }
}
