//! The farm file: what a build farm is configured by, in TOML, read whole as a `Config` or refused by the first rule that it breaks.
//!
//! A farm file has an optional table `[farm]` and any number of tables `[[role]]`, `[[client]]` and `[[hook]]`:
//!
//! ```toml
//! [farm]
//! host = "localhost"       # 1 to 255 printable ASCII bytes
//! port = 8080              # 1 to 65535
//! claim_timeout = 1200     # seconds, 1 to 86400
//! max_tasks = 1000000      # 1 to 1000000
//!
//! [[role]]                 # at most 10,000 of them
//! id = "anonymous"         # 1 to 4096 printable ASCII bytes
//! scopes = ["queue:*"]     # each at most 4096 printable ASCII bytes, not ending with `**`
//!
//! [[client]]               # at most 10,000 of them
//! id = "worker/1"          # 1 to 128 of [A-Za-z0-9!@/:.+|_-]
//! token = ".."             # 22 to 66 of [A-Za-z0-9_-]
//! scopes = ["queue:*"]     # each as of a role
//! expires = "2030-01-01T00:00:00Z"    # a date and time with an offset, from 1970 to 9998
//! disabled = false
//!
//! [[hook]]                 # at most 10,000 of them
//! group = "nightly"        # 1 to 1000 of [A-Za-z0-9_-]
//! id = "builds/linux"      # 1 to 1000 of [A-Za-z0-9_/-]
//! task = "{}"              # JSON of whole numbers: the template of the tasks that the hook makes
//! ```
//!
//! The values shown of `[farm]`, and of `disabled`, are those of a key that is left out.
#![tactic(auto)]

mod clients;
mod earlier;
mod fault;
mod faulty;
mod fields;
mod forms;
mod hooks;
pub mod laws;
mod reading;
mod roles;
mod rows;
mod scopes;
mod settings;
mod telling;
mod values;
mod words;

pub use fault::{Fault, FileFault, Rule, Table};
pub use reading::{LONGEST_FILE, read_farm, read_farm_with};
pub use rows::MOST_ROWS;
pub use settings::LONGEST_HOST;
pub use telling::tell_fault;
