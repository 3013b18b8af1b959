//! The records of changes, written.
ghost use Rattle.std.specs.Prelude.{◌≡◌, ◌<◌, ◌++◌, ◌∷◌, [], ℕ, List, length, OnOk, IfOk};
ghost use Rattle.std.specs.List.{flat_map};
ghost use Rattle.std.specs.Int.{w32, to_be_bytes};
ghost use Rattle.task_types.specs.declared.change.Kind.TheVariants as kinds;
ghost use Rattle.farm_record.specs.Fields.{IsMoment, moment_text, sized, run_text, AreRuns, runs_text, IsClaim, claim_text, IsReclaim, reclaim_text, report_number, IsResolution, resolution_text};
ghost use Rattle.farm_record.specs.Records.{kind_number, HasFields, IsSpelled, IsRecord, IsSaid, tick_at};
ghost use Rattle.farm_record.specs.Writing.{IsWrittenText};
ghost use Rattle.farm_text.specs.Slug.{IsUuid4};

use farm_text::{Moment, SlugId};
use std::alloc::{AllocError, Global};
use task_defs::{a_full_form_says_its_definition, full_text_of};
use task_types::{Change, Claim, Creation, Kind, Reclaim, Report, Resolution, RunName, RunNames};

/// Writes an id: its sixteen bytes.
fn put_id(out: &mut Vec<u8>, id: SlugId) -> Result<(), AllocError>
    ensures text { OnOk result (out.new.items ≡ out.old.items ++ id) }
    ensures id { IsUuid4 id }
{
    out.extend_from_slice(&id.uuid())
}

/// Writes a moment: its milliseconds in eight bytes.
fn put_moment(out: &mut Vec<u8>, moment: Moment) -> Result<(), AllocError>
    ensures within { IsMoment moment }
    ensures text { OnOk result (out.new.items ≡ out.old.items ++ moment_text moment) }
{
    out.extend_from_slice(&moment.millis().to_be_bytes())
}

/// Writes a text behind its length, of which these are the last four bytes.
fn put_sized(out: &mut Vec<u8>, text: &[u8]) -> Result<(), AllocError>
    ensures { OnOk result (out.new.items ≡ out.old.items ++ sized text.now) }
{
    let [_, _, _, _, a, b, c, d] = (text.len() as u64).to_be_bytes();
    out.extend_from_slice(&[a, b, c, d])?;
    out.extend_from_slice(text)
}

/// Writes a run: its task's id and its number.
fn put_run(out: &mut Vec<u8>, id: SlugId, run: u8) -> Result<(), AllocError>
    ensures text { OnOk result (out.new.items ≡ out.old.items ++ (id ++ run ∷ [])) }
    ensures run { IsUuid4 id × (run < 256) }
{
    put_id(out, id)?;
    out.push(run)?;
    Ok(())
}

/// Writes runs behind their number.
fn put_runs(out: &mut Vec<u8>, runs: &RunNames) -> Result<(), AllocError>
    ensures text { OnOk result (out.new.items ≡ out.old.items ++ runs_text runs.now) }
    ensures runs { OnOk result (AreRuns runs.now) }
{
    let names = runs.list();
    out.extend_from_slice(&(names.len() as u32).to_be_bytes())?;
    for name in names {
        put_run(out, name.id, name.run)?;
    }
    Ok(())
}

/// Writes the fields of a claim.
fn put_claim(out: &mut Vec<u8>, claim: &Claim) -> Result<(), AllocError>
    ensures text { OnOk result (out.new.items ≡ out.old.items ++ claim_text claim.now) }
    ensures claim { OnOk result (IsClaim claim.now) }
{
    put_moment(out, claim.taken_until)?;
    put_sized(out, claim.worker_group.as_str().as_bytes())?;
    put_sized(out, claim.worker_id.as_str().as_bytes())?;
    put_runs(out, &claim.runs)?;
    Ok(())
}

/// Writes the fields of a reclaim.
fn put_reclaim(out: &mut Vec<u8>, reclaim: &Reclaim) -> Result<(), AllocError>
    ensures text { OnOk result (out.new.items ≡ out.old.items ++ reclaim_text reclaim.now) }
    ensures reclaim { OnOk result (IsReclaim reclaim.now) }
{
    put_run(out, reclaim.id, reclaim.run)?;
    put_moment(out, reclaim.taken_until)
}

/// The number of a report.
fn report_number(report: Report) -> u8
    ensures { result ≡ report_number report }
{
    match report {
        Report::Completed => 1,
        Report::Failed => 2,
        Report::Superseded => 3,
        Report::WorkerShutdown => 4,
        Report::MalformedPayload => 5,
        Report::ResourceUnavailable => 6,
        Report::InternalError => 7,
        Report::IntermittentTask => 8,
    }
}

/// Writes the fields of a resolution.
fn put_resolution(out: &mut Vec<u8>, resolution: &Resolution) -> Result<(), AllocError>
    ensures text { OnOk result (out.new.items ≡ out.old.items ++ resolution_text resolution.now) }
    ensures resolution { OnOk result (IsResolution resolution.now) }
{
    put_run(out, resolution.id, resolution.run)?;
    out.push(report_number(resolution.reason))?;
    Ok(())
}

/// Writes the fields of a task that is made.
fn put_creation(alloc: Global, out: &mut Vec<u8>, creation: &Creation) -> Result<(), AllocError>
    ensures { OnOk result ((fields : List ℕ) × HasFields IsWrittenText (kinds.Create creation.now) fields × (out.new.items ≡ out.old.items ++ fields)) }
{
    a_full_form_says_its_definition();
    let text = full_text_of(alloc, &creation.definition)?;
    put_id(out, creation.id)?;
    put_sized(out, text.as_bytes())?;
    Ok(())
}

/// Writes the fields of a change.
fn put_fields(alloc: Global, out: &mut Vec<u8>, kind: &Kind) -> Result<(), AllocError>
    ensures { OnOk result ((fields : List ℕ) × HasFields IsWrittenText kind.now fields × (out.new.items ≡ out.old.items ++ fields)) }
{
    match kind {
        Kind::Tick => Ok(()),
        Kind::Create(creation) => put_creation(alloc, out, creation),
        Kind::Schedule(id) => put_id(out, *id),
        Kind::Rerun(id) => put_id(out, *id),
        Kind::Cancel(id) => put_id(out, *id),
        Kind::Claim(claim) => put_claim(out, claim),
        Kind::Reclaim(reclaim) => put_reclaim(out, reclaim),
        Kind::Resolve(resolution) => put_resolution(out, resolution),
    }
}

/// The number of a kind of change.
fn kind_number(kind: &Kind) -> u8
    ensures { result ≡ kind_number kind.now }
{
    match kind {
        Kind::Tick => 1,
        Kind::Create(_) => 2,
        Kind::Schedule(_) => 3,
        Kind::Rerun(_) => 4,
        Kind::Cancel(_) => 5,
        Kind::Claim(_) => 6,
        Kind::Reclaim(_) => 7,
        Kind::Resolve(_) => 8,
    }
}

/// The record of a change: the number of its kind, its moment, and its fields, as `specs/Records.antt` says.
///
/// What is written can be read by `read_record`, if the definition of a task that is made is one that a document says.
pub fn write_record(alloc: Global, change: &Change) -> Result<Vec<u8>, AllocError>
    ensures text { IfOk result (λ v. IsSpelled change.now v.items) }
    ensures record { IfOk result (λ v. IsSaid change.now.kind → IsRecord change.now v.items) }
{
    let mut out = Vec::new(alloc);
    out.push(kind_number(&change.kind))?;
    put_moment(&mut out, change.at)?;
    put_fields(alloc, &mut out, &change.kind)?;
    Ok(out)
}

/// The record of a tick. It takes no memory.
pub fn tick_record(at: Moment) -> [u8; 9]
    ensures { IsRecord (tick_at at) result }
{
    let [a, b, c, d, e, f, g, h] = at.millis().to_be_bytes();
    [1, a, b, c, d, e, f, g, h]
}
