//! The one order of refusals, for every call that asks something.
ghost use Rattle.std.specs.Prelude.{◌≡◌, ◌&&◌, nat_le, min, length, true, Some, None, IfOk, option_map};
ghost use Rattle.farm_text.specs.Document.{document_text};
ghost use Rattle.task_index.specs.Changes.{may_apply};
ghost use Rattle.farm_asks.specs.declared.question.Caller.{Caller};
ghost use Rattle.farm_asks.specs.Access.{Has, HasAccess};
ghost use Rattle.farm_machine.specs.Case.{changing};
ghost use Rattle.farm_machine.specs.Deeds.{IsReady};
ghost use Rattle.farm_machine.specs.Order.{asks, full, makes_task};
ghost use Rattle.farm_machine.specs.Refused.{setting_at, IsRefusal, IsJudged, IsFinished, IsPlannedSo, IsMade};
ghost use Rattle.farm_asks.specs.Replies.{ok, farm_full};
ghost use Rattle.farm_asks.specs.Tellings.{told_by};
ghost use Rattle.farm_asks.specs.Works.{at_moment};
ghost use Rattle.farm_machine.specs.Written.{AreWritten, IsWritten};

use crate::case::{Called, Done, Scene};
use crate::judged::Judged;
use crate::tables::Tables;
use farm_asks::access::{Access, access_of};
use farm_asks::answers;
use farm_asks::config::Config;
use farm_asks::question::Caller;
use farm_asks::reply::Answer;
use farm_asks::works::{Telling, telling_of, told};
use farm_record::write_record;
use farm_rows::TaskPlan;
use farm_text::{Moment, SlugId};
use run_states::TaskRow;
use scope_sets::{ScopeSet, missing};
use std::alloc::{AllocError, Global};
use task_types::{Change, Kind};

/// How many tasks a farm has at most, whatever its configuration says.
const MOST_TASKS: u32 = 1_000_000;

/// Judges a call: it is done where nothing refuses it, in the one order. The tables stay as they were.
pub(crate) fn judge<C: Called + Drop>(
    alloc: Global,
    caller: &Caller,
    call: C,
    config: &Config,
    tables: &mut Tables,
    moment: Moment,
    drawn: SlugId,
) -> Result<Judged, AllocError>
    requires { IsReady (setting_at config.now tables.old moment drawn) }
    ensures judged { IfOk result (IsJudged (setting_at config.now tables.old moment drawn) caller.now (asks (C.case call))) }
    ensures written { IfOk result (λ judged. AreWritten judged.change (option_map (λ r. r.items) judged.written)) }
    ensures same { tables.new ≡ tables.old }
{
    let at = Scene {
        config,
        tables: &*tables,
        moment,
        drawn,
    };
    if let Some(answer) = refusal(alloc, caller, &call, &at)? {
        return Ok(Judged::only(answer));
    }
    finish(alloc, call, config, tables, moment, drawn)
}

/// Judges a call that nothing refuses up to its policy: by its own rules, and by what it does. The tables stay as they were.
pub(crate) fn finish<C: Called + Drop>(
    alloc: Global,
    call: C,
    config: &Config,
    tables: &mut Tables,
    moment: Moment,
    drawn: SlugId,
) -> Result<Judged, AllocError>
    requires ready { IsReady (setting_at config.now tables.old moment drawn) }
    requires named { (C.case call (setting_at config.now tables.old moment drawn)).parameter ≡ None }
    requires there { (C.case call (setting_at config.now tables.old moment drawn)).absent ≡ None }
    ensures finished { IfOk result (IsFinished (setting_at config.now tables.old moment drawn) (C.case call (setting_at config.now tables.old moment drawn))) }
    ensures written { IfOk result (λ judged. AreWritten judged.change (option_map (λ r. r.items) judged.written)) }
    ensures same { tables.new ≡ tables.old }
{
    let at = Scene {
        config,
        tables: &*tables,
        moment,
        drawn,
    };
    if let Some(answer) = call.rule(alloc, &at)? {
        return Ok(Judged::only(answer));
    }
    match call.deed(alloc, &at)? {
        Done::Reads(body) => Ok(Judged::only(answers::ok(body))),
        Done::Changes(kind) => {
            let made = make(alloc, config, tables, moment, drawn, kind)?;
            Ok(made)
        }
    }
}

/// The answer that refuses a call up to its policy, if one does: for a parameter, for its caller, for what it is of, for scopes that are
/// missing.
pub(crate) fn refusal<C: Called>(
    alloc: Global,
    caller: &Caller,
    call: &C,
    at: &Scene<'_>,
) -> Result<Option<Answer>, AllocError>
    ensures { IfOk result (IsRefusal at.now caller.now (C.case call.now)) }
{
    if let Some(answer) = call.parameter(alloc, at)? {
        return Ok(Some(answer));
    }
    let answer = refusal_of_caller(alloc, caller, call, at)?;
    Ok(answer)
}

/// The answer that refuses a call whose parameters name what they may, if one does.
fn refusal_of_caller<C: Called>(
    alloc: Global,
    caller: &Caller,
    call: &C,
    at: &Scene<'_>,
) -> Result<Option<Answer>, AllocError>
    requires { (C.case call.now at.now).parameter ≡ None }
    ensures { IfOk result (IsRefusal at.now caller.now (C.case call.now)) }
{
    match access_of(alloc, at.config, caller, at.moment)? {
        Access::Keeps(scopes) => refusal_within(alloc, scopes, call, at),
        Access::Makes(scopes) => refusal_within(alloc, &scopes, call, at),
        Access::Refused(answer) => Ok(Some(answer)),
    }
}

/// The answer that refuses a call of whoever has these scopes, if one does.
fn refusal_within<C: Called>(
    alloc: Global,
    scopes: &ScopeSet,
    call: &C,
    at: &Scene<'_>,
) -> Result<Option<Answer>, AllocError>
    requires { (C.case call.now at.now).parameter ≡ None }
    ensures { IfOk result (λ answer. (caller : Caller) → HasAccess at.now.state.config at.now.moment caller (Has scopes.now)
        → IsRefusal at.now caller (C.case call.now) answer) }
{
    if let Some(answer) = call.absent(alloc, at)? {
        return Ok(Some(answer));
    }
    let policy = call.policy(alloc, at)?;
    let lacking = missing(alloc, scopes, &policy);
    drop(policy);
    if let Some(lack) = lacking? {
        let denial = answers::insufficient_scopes(alloc, &lack);
        drop(lack);
        return Ok(Some(denial?));
    }
    Ok(None)
}

/// Plans a change, where the farm is not full for it.
fn make(
    alloc: Global,
    config: &Config,
    tables: &mut Tables,
    moment: Moment,
    _drawn: SlugId,
    kind: Kind,
) -> Result<Judged, AllocError>
    requires { full (setting_at config.now tables.old moment _drawn).state (changing moment kind).change ≡ None
        → may_apply tables.old (at_moment moment kind) ≡ true }
    ensures made { IfOk result (IsMade (setting_at config.now tables.old moment _drawn) kind) }
    ensures written { IfOk result (λ judged. AreWritten judged.change (option_map (λ r. r.items) judged.written)) }
    ensures same { tables.new ≡ tables.old }
{
    if is_full_for(config, tables, &kind) {
        drop(kind);
        return refuse_full(alloc, tables.len());
    }
    plan_change(alloc, tables, Change { at: moment, kind })
}

/// Whether a change makes a task, and the farm has as many as it takes.
fn is_full_for(config: &Config, tables: &Tables, kind: &Kind) -> bool
    ensures { result ≡ (makes_task kind.now && nat_le (min config.now.max_tasks 1_000_000) (length tables.now.rows)) }
{
    makes_task(kind) && tables.len() >= config.max_tasks.min(MOST_TASKS)
}

/// Whether a change of this kind makes a task.
fn makes_task(kind: &Kind) -> bool
    ensures { result ≡ makes_task kind.now }
{
    match kind {
        Kind::Create(_) => true,
        _ => false,
    }
}

/// The judgement where the farm has so many tasks, and takes no more.
fn refuse_full(alloc: Global, count: u32) -> Result<Judged, AllocError>
    ensures answer { IfOk result (λ judged. judged.answer ≡ farm_full count) }
    ensures change { IfOk result (λ judged. judged.change ≡ None) }
    ensures written { IfOk result (λ judged. AreWritten judged.change (option_map (λ r. r.items) judged.written)) }
{
    Ok(Judged::only(answers::farm_full(alloc, count)?))
}

/// Plans a change that may be made.
fn plan_change(alloc: Global, tables: &mut Tables, change: Change) -> Result<Judged, AllocError>
    requires { may_apply tables.old change ≡ true }
    ensures made { IfOk result (IsPlannedSo tables.old change) }
    ensures written { IfOk result (λ judged. AreWritten judged.change (option_map (λ r. r.items) judged.written)) }
    ensures same { tables.new ≡ tables.old }
{
    let telling = telling_of(&change.kind);
    let text = match write_record(alloc, &change) {
        Ok(text) => text,
        Err(error) => {
            drop(change);
            return Err(error);
        }
    };
    let Some(plan) = tables.plan(alloc, change)? else {
        unreachable!();
    };
    tell(alloc, telling, plan, text)
}

/// The judgement of a planned change that has this text: what it leaves of the tasks that it names is told.
fn tell(
    alloc: Global,
    telling: Telling,
    plan: TaskPlan,
    text: Vec<u8>,
) -> Result<Judged, AllocError>
    requires { IsWritten plan.change text.items }
    ensures answer { IfOk result (λ judged. judged.answer ≡ ok (document_text (told_by telling plan.rows))) }
    ensures change { IfOk result (λ judged. judged.change ≡ Some plan) }
    ensures written { IfOk result (λ judged. AreWritten judged.change (option_map (λ r. r.items) judged.written)) }
{
    match told_answer(alloc, telling, plan.rows()) {
        Ok(answer) => Ok(Judged {
            answer,
            change: Some(plan),
            written: Some(text),
        }),
        Err(error) => {
            drop(plan);
            Err(error)
        }
    }
}

/// The answer that tells this of these tasks.
fn told_answer(alloc: Global, telling: Telling, rows: &[TaskRow]) -> Result<Answer, AllocError>
    ensures { IfOk result (λ a. a ≡ ok (document_text (told_by telling rows.now))) }
{
    Ok(answers::ok(told(alloc, telling, rows)?))
}
