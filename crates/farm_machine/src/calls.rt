//! The calls: a file each.
pub(crate) mod cancel_task;
pub(crate) mod claim_work;
pub(crate) mod create_task;
pub(crate) mod list_dependent_tasks;
pub(crate) mod list_task_group;
pub(crate) mod pending_tasks;
pub(crate) mod ping;
pub(crate) mod reclaim_task;
pub(crate) mod report_run;
pub(crate) mod rerun_task;
pub(crate) mod schedule_task;
pub(crate) mod status;
pub(crate) mod task;
pub(crate) mod trigger_hook;
