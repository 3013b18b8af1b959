//! What each call of the farm asks of its caller's scopes.
//!
//! `specs/Policy.antt` is the table, a line a call. The scope names are this project's profile, formed after those of the queue
//! and hooks services in the Taskcluster reference.
#![tactic(auto)]

mod calls;
mod create;
mod hook_names;
mod hooks;
mod laws;
mod manage;
mod reads;
mod scopes;
mod work;

pub use calls::{Call, expression, ping_scopes};
pub use create::create_policy;
pub use hook_names::{HookGroupId, HookId, HookName, is_hook_group_id, is_hook_id};
pub use hooks::{hook_name, hook_scope, trigger_scope};
pub use laws::a_lower_priority_asks_less;
pub use manage::{cancel_scopes, rerun_scopes, schedule_scopes};
pub use reads::{list_dependants_scope, list_group_scope, pending_scope, status_scope, task_scope};
pub use work::{claim_scopes, reclaim_scope, resolve_scope, run_name};
