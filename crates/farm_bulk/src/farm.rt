//! The farm of the load.
ghost use Rattle.std.specs.Prelude.{◌≡◌, [], ◌∷◌, IfOk};
ghost use Rattle.role_expand.specs.Roles.{roles_data};
ghost use Rattle.farm_machine.specs.State.{empty_state};
ghost use Rattle.farm_bulk.specs.Farm.{open_role, open_farm};

use farm_asks::config::Config;
use farm_asks::grants::Grants;
use farm_core::Bare;
use farm_text::Text;
use hawk_auth::ClientBook;
use hook_book::HookBook;
use role_expand::{Role, RoleSet};
use scope_sets::Scope;
use std::alloc::{AllocError, Global};

/// The role of whoever gives no credentials, who may do all.
fn roles(alloc: Global) -> Result<Vec<Role>, AllocError>
    ensures { IfOk result (λ roles. roles_data roles.items ≡ open_role ∷ []) }
{
    let mut scopes = Vec::new(alloc);
    scopes.push(Scope::from_printable(String::from_str(alloc, "*")?))?;
    let mut roles = Vec::new(alloc);
    roles.push(Role {
        id: String::from_str(alloc, "anonymous")?,
        scopes,
    })?;
    Ok(roles)
}

/// How the farm is set up.
#[tactic(auto, unfolding(crate::specs::Farm::open_farm))]
fn configuration(alloc: Global) -> Result<Config, AllocError>
    ensures { IfOk result (λ config. config ≡ open_farm) }
{
    let Ok(roles) = RoleSet::build(alloc, roles(alloc)?) else {
        return Err(AllocError);
    };
    let Ok(clients) = ClientBook::build(alloc, Vec::new(alloc)) else {
        return Err(AllocError);
    };
    Ok(Config {
        host: Text::from_str(alloc, "localhost")?,
        port: 8080,
        claim_timeout: 1200,
        max_tasks: 1_000_000,
        roles: Grants::new(alloc, roles)?,
        clients,
        hooks: HookBook::new(alloc),
    })
}

/// The farm, without tasks.
pub(crate) fn new_farm(alloc: Global) -> Result<Bare, AllocError>
    ensures { IfOk result (λ farm. farm ≡ empty_state open_farm) }
{
    Ok(Bare::new(alloc, configuration(alloc)?))
}
