//! Configurations of farms, as farm files say them.
use farm_asks::config::Config;
use farm_files::read_farm;
use std::alloc::Global;
use std::test::Fail;

/// The configuration that a farm file says: an empty one has no roles, clients and hooks.
pub(crate) fn config_of(alloc: Global, file: &str) -> Result<Config, Fail> {
    match read_farm(alloc, file.as_bytes()) {
        Ok(config) => Ok(config),
        Err(_) => Err(Fail::from("the file has a fault")),
    }
}

/// The configuration of a farm that takes so many tasks, where whoever gives no credentials has these scopes, a list of TOML.
pub(crate) fn granting(alloc: Global, scopes: &str, max_tasks: u32) -> Result<Config, Fail> {
    let file = format!(in alloc;
        "[farm]\nmax_tasks = {max_tasks}\n[[role]]\nid = \"anonymous\"\nscopes = {scopes}\n"
    )?;
    config_of(alloc, file.as_str())
}
