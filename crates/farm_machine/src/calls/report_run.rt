ghost use Rattle.std.specs.Prelude.{None, ◌≡◌, IfOk};

use crate::case::{Called, Done, Scene};
use crate::named::absent_run;
use call_rules::resolve_scope;
use farm_asks::answers;
use farm_asks::reply::Answer;
use farm_rows::reason_of;
use scope_sets::Expr;
use std::alloc::{AllocError, Global};
use task_types::{Kind, Resolution, RunName};

/// A worker tells how its run ended.
#[derive(Clone, Copy)]
pub(crate) struct ReportRun {
    pub(crate) report: Resolution,
}

impl Called for ReportRun {
    ghost use Rattle.farm_machine.specs.Calls.ReportRun.{report_run};

    ghost case = { λ call. report_run call.report };

    fn parameter(&self, _alloc: Global, _at: &Scene<'_>) -> Result<Option<Answer>, AllocError> {
        Ok(None)
    }

    fn absent(&self, alloc: Global, at: &Scene<'_>) -> Result<Option<Answer>, AllocError> {
        let Resolution { id, run, reason: _ } = self.report;
        absent_run(alloc, at, RunName { id, run })
    }

    fn policy(&self, alloc: Global, _at: &Scene<'_>) -> Result<Expr, AllocError> {
        resolve_scope(alloc, self.report.id, self.report.run)
    }

    fn rule(&self, alloc: Global, at: &Scene<'_>) -> Result<Option<Answer>, AllocError> {
        let Some(row) = at.tables.row(self.report.id) else {
            unreachable!();
        };
        if row.ended_for_at(self.report.run, reason_of(self.report.reason)) {
            return Ok(Some(answers::status(alloc, row)?));
        }
        if !row.is_running_at(self.report.run) {
            return Ok(Some(answers::conflict(alloc, 3, row)?));
        }
        Ok(None)
    }

    fn deed(self, _alloc: Global, _at: &Scene<'_>) -> Result<Done, AllocError> {
        Ok(Done::Changes(Kind::Resolve(self.report)))
    }
}
