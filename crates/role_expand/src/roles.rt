ghost use Rattle.std.specs.Prelude.{◌≡◌, ◌++◌, ℕ, List, string_bytes};
ghost use Rattle.std.specs.List.{list_any};
ghost use Rattle.std.specs.Str.{bytes_eq};
ghost use Rattle.role_expand.specs.Roles.{assume, AreFree};

use scope_sets::{Scope, ScopeSet};

/// A role: its id, and the scopes that it lists.
#[derive(Drop)]
pub struct Role {
    pub id: String,
    pub scopes: Vec<Scope>,
}

/// A role, with the scope that grants it, and its scopes, each once: `plain` ones, which it gives as written to whomever it is
/// granted, and `filled` ones, which may depend on the parameter.
#[derive(Drop)]
pub(crate) struct KnownRole {
    pub(crate) role: Role,
    pub(crate) grant: Scope,
    pub(crate) plain: ScopeSet,
    pub(crate) filled: ScopeSet,
    ghost granted_by: { grant ≡ assume ++ string_bytes role.id },
    ghost listed: { (s : List ℕ) → list_any (bytes_eq s) (plain ++ filled) ≡ list_any (bytes_eq s) role.scopes.items },
    ghost free: { AreFree (string_bytes role.id) plain },
}
