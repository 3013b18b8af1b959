//! The roles of `[[role]]`.
ghost use Rattle.std.specs.Prelude.{◌≡◌, ℕ, ◌≤◌, ◌+◌, ◌++◌, ◌∷◌, [], map, All, IfOk, MatchResult, codes, vec_len};
ghost use Rattle.scope_sets.specs.Scopes.{IsPrintable};
ghost use Rattle.role_expand.specs.Roles.{role_data, roles_data};
ghost use Rattle.role_expand.specs.Refusals.{IsFirstBadRole, IsFirstRepeat};
ghost use Rattle.toml.specs.Data.{get_member};
ghost use Rattle.toml.specs.View.{view, table_view};
ghost use Rattle.farm_files.specs.Roles.{role_rows, role_in, roles_in, LiesOnCycle};
ghost use Rattle.farm_files.specs.Rows.{RowAtBreaks, RowsBreak, says_of};
ghost use Rattle.farm_files.specs.Parts.{role_by, AreRoleValues, RefusesValues, HasRow, RefusesKeys, IsSoundRow, RefusesRowBehind, RefusesRows, RefusesCycle};
ghost use Rattle.farm_files.specs.declared.fault.Rule.{Rule as AnyRule};
ghost use Rattle.farm_files.specs.declared.fault.Table.TheVariants.{Role as RoleTable};

use crate::earlier::{add_id, has_id};
use crate::fault::{FileFault, RowFault, Rule, Table};
use crate::rows::MOST_ROWS;
use crate::scopes::{scopes_of, texts_at};
use crate::values::has_only;
use role_expand::{BuildFault, Role, RoleSet, has_role_form};
use scope_sets::LONGEST_SCOPE;
use std::alloc::{AllocError, Global};
use std::collections::BTreeSet;
use toml::Value;

fn read_values(alloc: Global, id: &Value, scopes: &Value) -> Result<Role, RowFault>
    ensures { MatchResult result
        (λ role. AreRoleValues (view id.now) (view scopes.now) × (role_data role ≡ role_by (view id.now) (view scopes.now)))
        (RefusesValues (view id.now) (view scopes.now)) }
{
    let texts = match texts_at(alloc, scopes) {
        Ok(Some(texts)) => texts,
        Ok(None) => return Err(RowFault::Breaks(Rule::WrongKind)),
        Err(AllocError) => return Err(RowFault::NoMemory),
    };
    let Some(id) = id.as_str() else {
        return Err(RowFault::Breaks(Rule::WrongKind));
    };
    match scopes_of(alloc, &texts) {
        Ok(Some(scopes)) => Ok(Role {
            id: String::from_str(alloc, id)?,
            scopes,
        }),
        Ok(None) => Err(RowFault::Breaks(Rule::OutOfForm)),
        Err(AllocError) => Err(RowFault::NoMemory),
    }
}

fn read_keys(alloc: Global, row: &toml::Table) -> Result<Role, RowFault>
    ensures { MatchResult result
        (λ role. HasRow role_rows (table_view row.now) × All (All IsPrintable) (role_in (table_view row.now)).scopes × (role_data role ≡ role_in (table_view row.now)))
        (RefusesKeys role_rows (table_view row.now)) }
{
    if !has_only(row, ["id", "scopes"].as_slice()) {
        return Err(RowFault::Breaks(Rule::UnknownKey));
    }
    let id = match row.get("id") {
        Some(id) => id,
        None => return Err(RowFault::Breaks(Rule::MissingKey)),
    };
    match row.get("scopes") {
        Some(scopes) => read_values(alloc, id, scopes),
        None => Err(RowFault::Breaks(Rule::MissingKey)),
    }
}

/// Reads a row that stands at a place behind rows with these ids.
fn read_row(
    alloc: Global,
    ids: &BTreeSet<String>,
    row: usize,
    value: &Value,
) -> Result<Role, RowFault>
    ensures { MatchResult result
        (λ role. IsSoundRow role_rows ids.now row (view value.now) × (role_data role ≡ says_of role_rows (view value.now)))
        (RefusesRowBehind role_rows ids.now row (view value.now)) }
{
    let Some(keys) = value.as_table() else {
        return Err(RowFault::Breaks(Rule::WrongKind));
    };
    let role = match read_keys(alloc, keys) {
        Ok(role) => role,
        Err(fault) => return Err(fault),
    };
    if row >= MOST_ROWS {
        return Err(RowFault::Breaks(Rule::OutOfForm));
    }
    if !has_role_form(&role) {
        return Err(RowFault::Breaks(Rule::OutOfForm));
    }
    if has_id(ids, role.id.as_str()) {
        return Err(RowFault::Breaks(Rule::RepeatedId));
    }
    Ok(role)
}

/// These roles, and behind them one more.
fn with_role(mut roles: Vec<Role>, role: Role) -> Result<Vec<Role>, AllocError>
    ensures roles { IfOk result (λ more. roles_data more.items ≡ roles_data roles.items ++ role_data role ∷ []) }
    ensures len { IfOk result (λ more. vec_len more ≡ vec_len roles + 1) }
{
    roles.push(role)?;
    Ok(roles)
}

fn read_rows(alloc: Global, rows: &[Value]) -> Result<Vec<Role>, FileFault>
    ensures { MatchResult result
        (λ roles. ((row : ℕ) (rule : AnyRule) → ¬ RowAtBreaks role_rows (map view rows.now) row rule)
        × (roles_data roles.items ≡ map (says_of role_rows) (map view rows.now)) × (vec_len roles ≤ MOST_ROWS))
        (RefusesRows RoleTable (RowAtBreaks role_rows (map view rows.now))) }
{
    let mut roles = Vec::new(alloc);
    let mut ids = BTreeSet::new(alloc);
    for (row, value) in rows.iter().enumerate() {
        match read_row(alloc, &ids, row, value) {
            Ok(role) => {
                add_id(alloc, &mut ids, role.id.as_str())?;
                roles = with_role(roles, role)?;
            }
            Err(RowFault::Breaks(rule)) => {
                return Err(FileFault::at(Table::Role, row as u32, rule));
            }
            Err(RowFault::NoMemory) => return Err(FileFault::NoMemory),
        }
    }
    Ok(roles)
}

/// Reads the rows of `[[role]]`, which may be left out.
pub(crate) fn read_roles(alloc: Global, top: &toml::Table) -> Result<Vec<Role>, FileFault>
    ensures { MatchResult result
        (λ roles. ((row : ℕ) (rule : AnyRule) → ¬ RowsBreak role_rows (get_member (codes "role") (table_view top.now)) row rule)
        × (roles_data roles.items ≡ roles_in (get_member (codes "role") (table_view top.now))) × (vec_len roles ≤ MOST_ROWS))
        (RefusesRows RoleTable (RowsBreak role_rows (get_member (codes "role") (table_view top.now)))) }
{
    match top.get("role") {
        None => Ok(Vec::new(alloc)),
        Some(value) => match value.as_array() {
            Some(rows) => read_rows(alloc, rows),
            None => Err(FileFault::at(Table::Role, 0, Rule::WrongKind)),
        },
    }
}

/// The set of these roles, of which each is of its form and no two have one id. Where it is refused for a cycle, the places of the
/// cycle's roles are put into `cycle`.
pub(crate) fn role_set(
    alloc: Global,
    roles: Vec<Role>,
    cycle: &mut Vec<usize>,
) -> Result<RoleSet, FileFault>
    requires forms { (place : ℕ) → ¬ IsFirstBadRole LONGEST_SCOPE (roles_data roles.items) place }
    requires apart { (earlier later : ℕ) → ¬ IsFirstRepeat (roles_data roles.items) earlier later }
    requires few { vec_len roles ≤ MOST_ROWS }
    ensures { MatchResult result
        (λ set. (set ≡ roles_data roles.items) × ((row : ℕ) → ¬ LiesOnCycle (roles_data roles.items) row))
        (RefusesCycle (roles_data roles.items)) }
{
    match RoleSet::build(alloc, roles) {
        Ok(set) => Ok(set),
        Err(BuildFault::ParameterCycle(places)) => {
            let row = places[0] as u32;
            *cycle = places;
            Err(FileFault::at(Table::Role, row, Rule::ParameterCycle))
        },
        Err(BuildFault::NoMemory) => Err(FileFault::NoMemory),
        Err(BuildFault::BadRole(_)) => unreachable!(),
        Err(BuildFault::DuplicateRole(_, _)) => unreachable!(),
    }
}
