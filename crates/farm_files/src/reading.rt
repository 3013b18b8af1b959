//! The farm file as a whole.
ghost use Rattle.std.specs.Prelude.{◌≡◌, ℕ, true, MatchResult, codes};
ghost use Rattle.toml.specs.Data.{get_member};
ghost use Rattle.toml.specs.View.{table_view};
ghost use Rattle.farm_files.specs.Farms.{Says, Refuses, SaysTables, RefusesTables};
ghost use Rattle.farm_files.specs.Files.{FarmBreaks, farm_in, table_names};
ghost use Rattle.farm_files.specs.Roles.{LiesOnCycle, role_rows, roles_in};
ghost use Rattle.farm_files.specs.Rows.{RowsBreak};
ghost use Rattle.farm_files.specs.Values.{has_only};
ghost use Rattle.farm_files.specs.declared.fault.Rule.{Rule as AnyRule};

use crate::clients::read_client_book;
use crate::fault::{FileFault, RowFault, Rule, Table};
use crate::hooks::read_hook_book;
use crate::roles::{read_roles, role_set};
use crate::settings::{Settings, read_settings};
use crate::values::has_only;
use farm_asks::config::Config;
use farm_asks::grants::Grants;
use std::alloc::Global;

/// The greatest number of bytes of a farm file.
pub const LONGEST_FILE: usize = 4_194_304;

/// Reads a farm file, TOML in UTF-8, as the configuration that it says.
///
/// # Errors
///
/// The first rule that the file breaks, in this order: that it is too long, that it is not TOML, a table that is not known, then what
/// is wrong with `[farm]`, then the rows of `[[role]]` from row 0, a cycle of roles' parameters, at the first role that lies on one,
/// and the rows of `[[client]]` and then of `[[hook]]` from row 0. Of the rules that one row breaks the least is told. Or want of memory.
pub fn read_farm(alloc: Global, bytes: &[u8]) -> Result<Config, FileFault>
    ensures { MatchResult result (Says LONGEST_FILE bytes.now) (Refuses LONGEST_FILE bytes.now) }
{
    read_farm_with(alloc, bytes, &mut Vec::new(alloc))
}

/// The same. Where the fault is a cycle of roles' parameters, the places of its roles are put into `cycle`, for `tell_fault`.
pub fn read_farm_with(
    alloc: Global,
    bytes: &[u8],
    cycle: &mut Vec<usize>,
) -> Result<Config, FileFault>
    ensures { MatchResult result (Says LONGEST_FILE bytes.now) (Refuses LONGEST_FILE bytes.now) }
{
    if bytes.len() > LONGEST_FILE {
        return Err(FileFault::at(Table::File, 0, Rule::TooLong));
    }
    match toml::table_from_slice(alloc, bytes) {
        Ok(top) => read_tables(alloc, &top, cycle),
        Err(error) => {
            if error.is_memory() {
                return Err(FileFault::NoMemory);
            }
            Err(FileFault::at(Table::File, 0, Rule::NotToml))
        }
    }
}

/// What the rows of `[[role]]` grant. Where they are refused for a cycle, the places of its roles are put into `cycle`.
fn read_grants(
    alloc: Global,
    top: &toml::Table,
    cycle: &mut Vec<usize>,
) -> Result<Grants, FileFault>
    requires only { has_only table_names (table_view top.now) ≡ true }
    requires farm { (rule : AnyRule) → ¬ FarmBreaks (farm_in (table_view top.now)) rule }
    ensures { MatchResult result
        (λ grants. ((row : ℕ) (rule : AnyRule) → ¬ RowsBreak role_rows (get_member (codes "role") (table_view top.now)) row rule)
        × ((row : ℕ) → ¬ LiesOnCycle (roles_in (get_member (codes "role") (table_view top.now))) row)
        × (grants ≡ roles_in (get_member (codes "role") (table_view top.now))))
        (RefusesTables (table_view top.now)) }
{
    let roles = read_roles(alloc, top)?;
    let set = role_set(alloc, roles, cycle)?;
    Ok(Grants::new(alloc, set)?)
}

fn read_tables(
    alloc: Global,
    top: &toml::Table,
    cycle: &mut Vec<usize>,
) -> Result<Config, FileFault>
    ensures { MatchResult result (SaysTables (table_view top.now)) (RefusesTables (table_view top.now)) }
{
    if !has_only(top, ["farm", "role", "client", "hook"].as_slice()) {
        return Err(FileFault::at(Table::File, 0, Rule::UnknownKey));
    }
    let settings = match read_settings(alloc, top) {
        Ok(settings) => settings,
        Err(RowFault::Breaks(rule)) => return Err(FileFault::at(Table::Farm, 0, rule)),
        Err(RowFault::NoMemory) => return Err(FileFault::NoMemory),
    };
    let roles = read_grants(alloc, top, cycle)?;
    let clients = read_client_book(alloc, top)?;
    let hooks = read_hook_book(alloc, top)?;
    let Settings {
        host,
        port,
        claim_timeout,
        max_tasks,
    } = settings;
    Ok(Config {
        host,
        port,
        claim_timeout,
        max_tasks,
        roles,
        clients,
        hooks,
    })
}
