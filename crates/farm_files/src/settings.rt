//! What `[farm]` sets.
ghost use Rattle.std.specs.Prelude.{◌≡◌, ◌↔◌, IsTrue, MatchResult};
ghost use Rattle.toml.specs.Data.{table};
ghost use Rattle.toml.specs.View.{table_view};
ghost use Rattle.farm_files.specs.Faults.{RefusesRow};
ghost use Rattle.farm_files.specs.Files.{HasHostForm, FarmBreaks, farm_in, members_in};
ghost use Rattle.farm_files.specs.Parts.{settings_of};
ghost use Rattle.farm_files.specs.declared.fault.Rule.{Rule as AnyRule};

use crate::fault::{RowFault, Rule};
use crate::values::{has_only, text_or, up_to, whole_or};
use farm_text::Text;
use scope_sets::scopes::is_printable;
use std::alloc::Global;
use toml::Table;

/// The greatest number of bytes of a host.
pub const LONGEST_HOST: usize = 255;

/// What `[farm]` sets.
#[derive(Drop)]
pub(crate) struct Settings {
    pub(crate) host: Text,
    pub(crate) port: u16,
    pub(crate) claim_timeout: u32,
    pub(crate) max_tasks: u32,
}

/// Reads `[farm]`, which may be left out.
pub(crate) fn read_settings(alloc: Global, top: &Table) -> Result<Settings, RowFault>
    ensures { MatchResult result
        (λ s. ((rule : AnyRule) → ¬ FarmBreaks (farm_in (table_view top.now)) rule)
        × (s ≡ settings_of (members_in (farm_in (table_view top.now)))))
        (RefusesRow (FarmBreaks (farm_in (table_view top.now)))) }
{
    match top.get("farm") {
        None => read_table(alloc, &Table::new(alloc)),
        Some(value) => match value.as_table() {
            Some(farm) => read_table(alloc, farm),
            None => Err(RowFault::Breaks(Rule::WrongKind)),
        },
    }
}

fn read_table(alloc: Global, farm: &Table) -> Result<Settings, RowFault>
    ensures { MatchResult result
        (λ s. ((rule : AnyRule) → ¬ FarmBreaks (table (table_view farm.now)) rule) × (s ≡ settings_of (table_view farm.now)))
        (RefusesRow (FarmBreaks (table (table_view farm.now)))) }
{
    if !has_only(
        farm,
        ["host", "port", "claim_timeout", "max_tasks"].as_slice(),
    ) {
        return Err(RowFault::Breaks(Rule::UnknownKey));
    }
    let host = text_or(farm, "host", "localhost")?;
    let port = whole_or(farm, "port", 8080)?;
    let claim_timeout = whole_or(farm, "claim_timeout", 1200)?;
    let max_tasks = whole_or(farm, "max_tasks", 1_000_000)?;

    if !has_host_form(host) {
        return Err(RowFault::Breaks(Rule::OutOfForm));
    }
    Ok(Settings {
        port: up_to(65_535, port)? as u16,
        claim_timeout: up_to(86_400, claim_timeout)?,
        max_tasks: up_to(1_000_000, max_tasks)?,
        host: Text::from_str(alloc, host)?,
    })
}

/// Whether a host is 1 to `LONGEST_HOST` bytes of printable ASCII.
pub(crate) fn has_host_form(host: &str) -> bool
    ensures { IsTrue result ↔ HasHostForm LONGEST_HOST host.now }
{
    !host.is_empty() && host.len() <= LONGEST_HOST && is_printable(host.as_bytes())
}
