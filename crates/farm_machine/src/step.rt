//! A call in two steps: `plan` judges it and takes all its memory, `apply` makes its change and gives its reply.

ghost use Rattle.std.specs.Prelude.{◌≡◌, ◌≤◌, false, None, IfOk, option_map};
ghost use Rattle.farm_text.specs.declared.moment.TheConstants.{LAST_TOLD_MOMENT};
ghost use Rattle.task_index.specs.Due.{is_due};
ghost use Rattle.farm_asks.specs.declared.question.Call.{Call as AnyCall};
ghost use Rattle.farm_machine.specs.Changes.{moment_of as moment_by, changed};
ghost use Rattle.farm_machine.specs.Deeds.{IsReady};
ghost use Rattle.farm_machine.specs.Order.{asks};
ghost use Rattle.farm_machine.specs.Planned.{IsPlanOf, IsPlanOn};
ghost use Rattle.farm_machine.specs.Refused.{setting_at, IsJudged};
ghost use Rattle.farm_asks.specs.Replies.{bad_body};
ghost use Rattle.farm_machine.specs.Verdict.{form_of};
ghost use Rattle.farm_machine.specs.Written.{AreWritten};

use crate::calls::cancel_task::CancelTask;
use crate::calls::claim_work::ClaimWork;
use crate::calls::create_task::CreateTask;
use crate::calls::list_dependent_tasks::ListDependentTasks;
use crate::calls::list_task_group::ListTaskGroup;
use crate::calls::pending_tasks::PendingTasks;
use crate::calls::ping::Ping;
use crate::calls::reclaim_task::ReclaimTask;
use crate::calls::report_run::ReportRun;
use crate::calls::rerun_task::RerunTask;
use crate::calls::schedule_task::ScheduleTask;
use crate::calls::status::Status;
use crate::calls::task::Task;
use crate::calls::trigger_hook::judge_trigger;
use crate::case::Called;
use crate::judged::Judged;
use crate::order::judge;
use crate::plan::Plan;
use crate::tables::Tables;
use farm_asks::answers;
use farm_asks::config::Config;
use farm_asks::question::{BodyFault, Call, Caller, Question, Trigger};
use farm_asks::reply::Reply;
use farm_text::{Moment, SlugId};
use std::alloc::{AllocError, Global};

/// The moment of a call: the greater of its clock's and the last.
pub fn moment_of(tables: &Tables, question: &Question) -> Moment
    ensures value { result ≡ moment_by tables.now question.now }
    ensures told { result ≤ LAST_TOLD_MOMENT }
{
    question.moment().max(tables.last())
}

/// Judges a call and takes all the memory that it needs. The tables stay as they were.
pub fn plan(
    alloc: Global,
    tables: &mut Tables,
    config: &Config,
    question: Question,
) -> Result<Plan, AllocError>
    requires { is_due tables.old (moment_by tables.old question) ≡ false }
    ensures planned { IfOk result (IsPlanOf config.now tables.old question) }
    ensures same { tables.new ≡ tables.old }
{
    let moment = moment_of(tables, &question);
    let drawn = question.drawn();
    let (caller, call) = question.into_parts();
    let hearing = Hearing {
        caller: &caller,
        config,
        moment,
        drawn,
    };
    let judged = hearing.judgement(alloc, call, tables);
    drop(caller);
    Ok(Plan {
        moment,
        judged: judged?,
    })
}

/// Who asks what is judged, over which configuration, when, and with which id drawn for it.
#[derive(Drop)]
struct Hearing<'a> {
    caller: &'a Caller,
    config: &'a Config,
    moment: Moment,
    drawn: SlugId,
}

impl<'a> Hearing<'a> {
    /// The judgement of what is called: the dispatch to the calls.
    fn judgement(
        &self,
        alloc: Global,
        call: Call,
        tables: &mut Tables,
    ) -> Result<Judged, AllocError>
        requires { IsReady (setting_at self.now.config.now tables.old self.now.moment self.now.drawn) }
        ensures judged { IfOk result (IsJudged (setting_at self.now.config.now tables.old self.now.moment self.now.drawn) self.now.caller.now (form_of call)) }
        ensures written { IfOk result (λ judged. AreWritten judged.change (option_map (λ r. r.items) judged.written)) }
        ensures same { tables.new ≡ tables.old }
    {
        match call {
            Call::NoRoute(name) => {
                let answer = answers::not_found(alloc, "route", name.as_str())?;
                Ok(Judged::only(answer))
            }
            Call::BadParameter(parameter) => {
                Ok(Judged::only(answers::bad_parameter(alloc, parameter.name())?))
            }
            Call::BadBody(fault) => refused_body(alloc, fault),
            Call::Ping => self.judge(alloc, Ping {}, tables),
            Call::Task(id) => self.judge(alloc, Task { id }, tables),
            Call::Status(id) => self.judge(alloc, Status { id }, tables),
            Call::ListTaskGroup(group, page) => {
                self.judge(alloc, ListTaskGroup { group, page }, tables)
            }
            Call::ListDependentTasks(id, page) => {
                self.judge(alloc, ListDependentTasks { id, page }, tables)
            }
            Call::PendingTasks(queue) => self.judge(alloc, PendingTasks { queue }, tables),
            Call::CreateTask(creation) => self.judge(alloc, CreateTask { creation }, tables),
            Call::ClaimWork(work) => self.judge(alloc, ClaimWork { work }, tables),
            Call::ReclaimTask(name) => self.judge(alloc, ReclaimTask { name }, tables),
            Call::ReportRun(report) => self.judge(alloc, ReportRun { report }, tables),
            Call::ScheduleTask(id) => self.judge(alloc, ScheduleTask { id }, tables),
            Call::RerunTask(id) => self.judge(alloc, RerunTask { id }, tables),
            Call::CancelTask(id) => self.judge(alloc, CancelTask { id }, tables),
            Call::TriggerHook(trigger) => self.judge_trigger(alloc, trigger, tables),
        }
    }

    /// Judges a call that has a place in the one order. The tables stay as they were.
    fn judge<C: Called + Drop>(
        &self,
        alloc: Global,
        call: C,
        tables: &mut Tables,
    ) -> Result<Judged, AllocError>
        requires { IsReady (setting_at self.now.config.now tables.old self.now.moment self.now.drawn) }
        ensures judged { IfOk result (IsJudged (setting_at self.now.config.now tables.old self.now.moment self.now.drawn) self.now.caller.now (asks (C.case call))) }
        ensures written { IfOk result (λ judged. AreWritten judged.change (option_map (λ r. r.items) judged.written)) }
        ensures same { tables.new ≡ tables.old }
    {
        judge(
            alloc,
            self.caller,
            call,
            self.config,
            tables,
            self.moment,
            self.drawn,
        )
    }

    /// Judges a triggerHook. The tables stay as they were.
    fn judge_trigger(
        &self,
        alloc: Global,
        trigger: Trigger,
        tables: &mut Tables,
    ) -> Result<Judged, AllocError>
        requires { IsReady (setting_at self.now.config.now tables.old self.now.moment self.now.drawn) }
        ensures judged { IfOk result (IsJudged (setting_at self.now.config.now tables.old self.now.moment self.now.drawn) self.now.caller.now (form_of (AnyCall.TriggerHook trigger))) }
        ensures written { IfOk result (λ judged. AreWritten judged.change (option_map (λ r. r.items) judged.written)) }
        ensures same { tables.new ≡ tables.old }
    {
        judge_trigger(
            alloc,
            self.caller,
            trigger,
            self.config,
            tables,
            self.moment,
            self.drawn,
        )
    }
}

/// The judgement of a body that is off its form.
fn refused_body(alloc: Global, fault: BodyFault) -> Result<Judged, AllocError>
    ensures answer { IfOk result (λ judged. judged.answer ≡ bad_body fault) }
    ensures change { IfOk result (λ judged. judged.change ≡ None) }
    ensures written { IfOk result (λ judged. AreWritten judged.change (option_map (λ r. r.items) judged.written)) }
{
    Ok(Judged::only(answers::bad_body(alloc, &fault)?))
}

/// Makes the change of a plan that was made on these tables, and gives its reply. It takes no memory.
pub fn apply(tables: &mut Tables, plan: Plan) -> Reply
    requires { IsPlanOn tables.old plan }
    ensures applied { tables.new ≡ changed tables.old plan.moment plan.judgement.change }
    ensures reply { result ≡ Reply.Answered plan.judgement.answer }
{
    let Plan { moment, judged } = plan;
    let Judged {
        answer,
        change,
        written: _,
    } = judged;
    match change {
        Some(tasks) => tables.make(tasks),
        None => tables.reach(moment),
    }
    Reply::Answered(answer)
}
