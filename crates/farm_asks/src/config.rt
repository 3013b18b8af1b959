//! How a farm is set up.
ghost use Rattle.std.specs.Prelude.{◌≡◌};
ghost use Rattle.farm_asks.specs.Config.{counts_of};

use crate::grants::Grants;
use farm_text::Text;
use hawk_auth::ClientBook;
use hook_book::HookBook;

/// How a farm is set up.
#[derive(Drop)]
pub struct Config {
    /// The host that callers sign their calls for: 1 to 255 bytes of printable ASCII.
    pub host: Text,
    /// The port that callers sign their calls for, from 1.
    pub port: u16,
    /// How many seconds a claim of a task lasts: 1 to 86400.
    pub claim_timeout: u32,
    /// How many tasks the farm takes: 1 to 1000000.
    pub max_tasks: u32,
    /// The roles, and what they grant.
    pub roles: Grants,
    /// The clients, who sign their calls.
    pub clients: ClientBook,
    /// The hooks, which make tasks where they are triggered.
    pub hooks: HookBook,
}

/// How many rows of each kind a configuration has.
#[derive(Clone, Copy, Debug, PartialEq, Eq)]
pub struct ConfigCounts {
    pub roles: u64,
    pub clients: u64,
    pub hooks: u64,
}

impl Config {
    /// How many rows of each kind there are.
    pub fn counts(&self) -> ConfigCounts
        ensures { result ≡ counts_of self.now }
    {
        ConfigCounts {
            roles: self.roles.len() as u64,
            clients: self.clients.len() as u64,
            hooks: self.hooks.len() as u64,
        }
    }
}
