//! The two parts of an ask of a farm over a disk: what is due is kept and resolved, and the call is judged, kept and made.
ghost use Rattle.std.specs.Prelude.{◌≡◌, ◌+◌, ◌≤◌, true, false, length, Some, None, IfOk, OnOk, OnErr, MatchOption};
ghost use Rattle.causes.specs.Causes.{HasCause};
ghost use Rattle.task_types.specs.declared.change.Change.{Change};
ghost use Rattle.farm_record.specs.Records.{IsRecord};
ghost use Rattle.farm_text.specs.declared.moment.TheConstants.{LAST_TOLD_MOMENT};
ghost use Rattle.farm_machine.specs.Changes.{moment_of as moment_by};
ghost use Rattle.farm_machine.specs.Planned.{IsPlanOf, IsPlanOn};
ghost use Rattle.farm_asks.specs.Questions.{Asking};
ghost use Rattle.farm_asks.specs.declared.config.Config.{Config as AnyConfig};
ghost use Rattle.task_index.specs.Due.{is_due};
ghost use Rattle.farm_core.specs.Asking.{IsResolvedBy, ticks_kept, ticks_failed, changes_kept, changes_failed, is_failed, Performs};
ghost use Rattle.farm_core.specs.Farm.{TellsFaults};
ghost use Rattle.farm_core.specs.Records.{KeepsRecords};

use crate::records::Records;
use disk_base::Disk;
use disk_journal::{DiskFault, Frame, Framed, frame, frame_tick, the_body_limit};
use farm_asks::config::Config;
use farm_asks::question::Question;
use farm_asks::reply::Reply;
use farm_machine::plan::Plan;
use farm_machine::step::{apply, moment_of, plan};
use farm_machine::tables::{Tables, due, tick};
use farm_record::{records_are_short, tick_record};
use farm_text::Moment;
use std::alloc::{AllocError, Global};

/// What became of the record of a call's change. Where there is no change, its keeping is done.
#[derive(Clone, Copy)]
pub(crate) enum Kept {
    Done,
    NoMemory,
    Failed,
}

/// Keeps a tick where something is due at this moment, and resolves it; and says whether anything was due. It takes no memory.
pub(crate) fn keep_due<D: Disk>(
    tables: &mut Tables,
    records: &mut Records<D>,
    moment: Moment,
) -> Result<bool, DiskFault>
    requires told { moment ≤ LAST_TOLD_MOMENT }
    requires works { records.old.halted ≡ false }
    ensures resolved { IsResolvedBy tables.old moment result tables.new }
    ensures keeps { D.tells → KeepsRecords (D.contents records.old.disk) records.old.end
        (D.contents records.new.disk) records.new.end (ticks_kept moment result) (ticks_failed moment result) }
    ensures counted { records.new.count ≡ records.old.count + length (ticks_kept moment result) }
    ensures works { OnOk result (records.new.halted ≡ false) }
    ensures halts { OnErr result (records.new.halted ≡ true) }
    ensures cause { HasCause (D.faults records.old.disk) (D.faults records.new.disk) result }
{
    if !due(tables, moment) {
        return Ok(false);
    }
    match records.keep(&frame_tick(tick_record(moment))) {
        Ok(()) => {
            tick(tables, moment);
            Ok(true)
        }
        Err(DiskFault) => Err(DiskFault),
    }
}

/// The record of a planned change in its frame, if there is a change.
fn framed_record(alloc: Global, plan: &Plan) -> Result<Option<Framed>, AllocError>
    ensures { IfOk result (λ framed. MatchOption framed (plan.now.judgement.change ≡ None)
        (λ f. (change : Change) × (plan.now.judgement.change ≡ Some change) × IsRecord change (⟦<Framed as Frame>⟧.body f))) }
{
    records_are_short();
    the_body_limit();
    match plan.record_text() {
        Some(text) => Ok(Some(frame(alloc, text)?)),
        None => Ok(None),
    }
}

/// Keeps the record of a planned change, if there is a change.
fn keep_change<D: Disk>(alloc: Global, records: &mut Records<D>, plan: &Plan) -> Kept
    requires { records.old.halted ≡ false }
    ensures keeps { D.tells → KeepsRecords (D.contents records.old.disk) records.old.end (D.contents records.new.disk) records.new.end
        (changes_kept result plan.now.judgement.change) (changes_failed result plan.now.judgement.change) }
    ensures counted { records.new.count ≡ records.old.count + length (changes_kept result plan.now.judgement.change) }
    ensures some { is_failed result ≡ true → (change : Change) × (plan.now.judgement.change ≡ Some change) }
    ensures halts { records.new.halted ≡ is_failed result }
    ensures faults { TellsFaults (D.faults records.old.disk) (D.faults records.new.disk) records.new.halted }
{
    match framed_record(alloc, plan) {
        Ok(Some(framed)) => match records.keep(&framed) {
            Ok(()) => Kept::Done,
            Err(DiskFault) => Kept::Failed,
        },
        Ok(None) => Kept::Done,
        Err(_) => Kept::NoMemory,
    }
}

/// Finishes a call that is planned: its change is kept, and then made.
fn finish<D: Disk>(
    alloc: Global,
    tables: &mut Tables,
    records: &mut Records<D>,
    plan: Plan,
    moment: Moment,
) -> Reply
    requires planned { IsPlanOn tables.old plan }
    requires moment { moment ≡ plan.moment }
    requires told { moment ≤ LAST_TOLD_MOMENT }
    requires works { records.old.halted ≡ false }
    ensures performs { (config : AnyConfig) (asking : Asking) → IsPlanOf config tables.old asking plan
        → Performs D.tells config tables.old asking result tables.new (D.contents records.old.disk) records.old.end records.old.count
        (D.contents records.new.disk) records.new.end records.new.count records.new.halted }
    ensures faults { TellsFaults (D.faults records.old.disk) (D.faults records.new.disk) records.new.halted }
    ensures halts { result ≡ Reply.DiskFault → records.new.halted ≡ true }
{
    match keep_change(alloc, records, &plan) {
        Kept::Done => apply(tables, plan),
        Kept::NoMemory => {
            drop(plan);
            tables.reach(moment);
            Reply::OutOfMemory
        }
        Kept::Failed => {
            drop(plan);
            Reply::DiskFault
        }
    }
}

/// Performs a call at whose moment nothing is due.
pub(crate) fn perform<D: Disk>(
    alloc: Global,
    tables: &mut Tables,
    records: &mut Records<D>,
    config: &Config,
    question: Question,
) -> Reply
    requires idle { is_due tables.old (moment_by tables.old question) ≡ false }
    requires works { records.old.halted ≡ false }
    ensures performs { Performs D.tells config.now tables.old question result tables.new (D.contents records.old.disk) records.old.end records.old.count
        (D.contents records.new.disk) records.new.end records.new.count records.new.halted }
    ensures faults { TellsFaults (D.faults records.old.disk) (D.faults records.new.disk) records.new.halted }
    ensures halts { result ≡ Reply.DiskFault → records.new.halted ≡ true }
{
    let moment = moment_of(tables, &question);
    match plan(alloc, tables, config, question) {
        Ok(plan) => finish(alloc, tables, records, plan, moment),
        Err(_) => {
            tables.reach(moment);
            Reply::OutOfMemory
        }
    }
}
