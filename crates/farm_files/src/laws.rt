//! What follows from the definitions. The functions do nothing: each contract is a law.
ghost use Rattle.std.specs.Prelude.{◌≡◌, ℕ, List};
ghost use Rattle.scope_sets.specs.declared.scopes.TheConstants.{LONGEST_SCOPE};
ghost use Rattle.role_expand.specs.Cycles.{IsAccepted};
ghost use Rattle.farm_asks.specs.declared.config.Config.{Config as AnyConfig};
ghost use Rattle.farm_files.specs.Faults.{IsFirst};
ghost use Rattle.farm_files.specs.Files.{Breaks};
ghost use Rattle.farm_files.specs.Farms.{Says};
ghost use Rattle.farm_files.specs.declared.reading.TheConstants.{LONGEST_FILE};
ghost use Rattle.farm_files.specs.declared.rows.TheConstants.{MOST_ROWS};
ghost use Rattle.farm_files.specs.declared.settings.TheConstants.{LONGEST_HOST};
ghost use Rattle.farm_files.specs.declared.fault.Fault.{Fault as AnyFault};

/// A file says at most one configuration and has at most one first fault, and never both.
pub fn a_file_says_one_thing()
    ensures farm { (longest : ℕ) (bytes : List ℕ) (a b : AnyConfig) → Says longest bytes a → Says longest bytes b → a ≡ b }
    ensures fault { (longest : ℕ) (bytes : List ℕ) (f g : AnyFault) → IsFirst (Breaks longest bytes) f → IsFirst (Breaks longest bytes) g → f ≡ g }
    ensures either { (longest : ℕ) (bytes : List ℕ) (a : AnyConfig) (f : AnyFault) → Says longest bytes a → ¬ IsFirst (Breaks longest bytes) f }
{}

/// No file is without either: it says a configuration or has a first fault.
pub fn a_file_says_or_breaks()
    ensures { (longest : ℕ) (bytes : List ℕ)
        → ¬ (((config : AnyConfig) → ¬ Says longest bytes config) × ((f : AnyFault) → ¬ IsFirst (Breaks longest bytes) f)) }
{}

/// The roles of a configuration that a file says are a set of roles: each of its form, no id twice, and no cycle of parameters.
pub fn the_roles_of_a_file_are_accepted()
    ensures { (longest : ℕ) (bytes : List ℕ) (config : AnyConfig)
        → Says longest bytes config → IsAccepted LONGEST_SCOPE config.roles }
{}

/// The limits of a farm file: its greatest number of bytes, of rows of a table, and of bytes of a host. What the contracts say of
/// the constants, they say of these numbers.
pub fn the_limits()
    ensures file { LONGEST_FILE ≡ 4194304 }
    ensures rows { MOST_ROWS ≡ 10000 }
    ensures host { LONGEST_HOST ≡ 255 }
{}
