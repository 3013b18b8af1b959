//! The ids of the rows that were read so far, in an order in which one is found soon.
ghost use Rattle.std.specs.Prelude.{◌≡◌, ℕ, List, ◌++◌, ◌∷◌, [], IfOk};
ghost use Rattle.std.specs.List.{list_any};
ghost use Rattle.std.specs.Str.{bytes_eq};
ghost use Rattle.farm_files.specs.Earlier.{AreIdsOf};

use std::alloc::{AllocError, Global};
use std::collections::BTreeSet;

/// Whether one of the rows has the id.
pub(crate) fn has_id(ids: &BTreeSet<String>, id: &str) -> bool
    ensures { (used : List (List ℕ)) → AreIdsOf used ids.now → result ≡ list_any (λ other. bytes_eq id.now other) used }
{
    ids.contains(id)
}

/// One row more has this id.
pub(crate) fn add_id(alloc: Global, ids: &mut BTreeSet<String>, id: &str) -> Result<(), AllocError>
    ensures { IfOk result (λ _. (used : List (List ℕ)) → AreIdsOf used ids.old → AreIdsOf (used ++ id.now ∷ []) ids.new) }
{
    ids.insert(String::from_str(alloc, id)?)?;
    Ok(())
}
