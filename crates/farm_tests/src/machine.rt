//! The machine itself: what it replies without a state, and a task that is made twice.
ghost use Rattle.std.specs.Prelude.{◌≡◌, ◌≤◌, max, false, IfOk, OnOk};
ghost use Rattle.farm_text.specs.declared.moment.TheConstants.{LAST_TOLD_MOMENT as last_told};
ghost use Rattle.task_index.specs.Due.{is_due};
ghost use Rattle.farm_asks.specs.Questions.{IsSaidCall};

use crate::configs::config_of;
use crate::machine::calls::call_of;
use farm_asks::config::Config;
use farm_asks::question::{Call, Caller, Question};
use farm_asks::reply::Reply;
use farm_machine::step::{apply, plan};
use farm_machine::tables::{Tables, due, tick};
use farm_text::{LAST_TOLD_MOMENT, Moment, SlugId};
use std::alloc::{AllocError, Global};
use std::test::Fail;

pub(crate) mod calls;

/// 2024-01-01T00:00:00.000Z, when the first task is made.
const CREATED: u64 = 1_704_067_200_000;

/// The moment so many milliseconds after that, or the first of all, where nothing is said.
pub(crate) fn moment(after: &str) -> Result<Moment, Fail>
    ensures { IfOk result (λ moment. moment ≤ last_told) }
{
    if after.is_empty() {
        return Ok(Moment::FIRST);
    }
    let after: u64 = after.parse().ok().ok_or("a number")?;
    let millis = CREATED.checked_add(after).ok_or("a moment")?;
    match Moment::from_millis(millis) {
        Some(moment) if moment.millis() <= LAST_TOLD_MOMENT => Ok(moment),
        _ => Err(Fail::from("no clock tells that moment")),
    }
}

/// Resolves what is due at this moment, or at the last one, where that is later.
fn reach(tables: &mut Tables, at: Moment) -> Result<(), Fail>
    requires { at ≤ last_told }
    ensures { OnOk result (is_due tables.new (max at tables.new.last) ≡ false) }
{
    let reached = at.max(tables.last());
    if due(tables, reached) {
        tick(tables, reached);
    }
    let reached = at.max(tables.last());
    if due(tables, reached) {
        return Err(Fail::from("something is still due"));
    }
    Ok(())
}

/// The status and the body of a reply, with a bar between them.
fn told(alloc: Global, reply: &Reply) -> Result<String, AllocError> {
    format!(in alloc; "{}|{}", reply.status().as_u16(), reply.body())
}

/// The status of the reply to a call at a moment at which nothing is due, with an id that is drawn for it.
fn answer(
    alloc: Global,
    tables: &mut Tables,
    farm: &Config,
    at: Moment,
    drawn: SlugId,
    call: Call,
) -> Result<u16, AllocError>
    requires told { at ≤ last_told }
    requires idle { is_due tables.old (max at tables.old.last) ≡ false }
    requires said { IsSaidCall call }
{
    let question = Question::new(at, drawn, Caller::Anonymous, call);
    let planned = plan(alloc, tables, farm, question)?;
    let reply = apply(tables, planned);
    let status = reply.status().as_u16();
    drop(reply);
    Ok(status)
}

/// The status of the reply to a call that makes the task, at the first moment.
fn make(alloc: Global, tables: &mut Tables, farm: &Config) -> Result<u16, Fail> {
    let at = moment("")?;
    let drawn = SlugId::read(b"AAAAAAAAQACAAAAAAAAAAg").ok_or("a slugid")?;
    reach(tables, at)?;
    let call = call_of(alloc, "create")?;
    Ok(answer(alloc, tables, farm, at, drawn, call)?)
}

/// Whether this is told of a reply: its status and its body.
fn is_told(alloc: Global, reply: Reply, wanted: &str) -> Result<bool, AllocError> {
    let told = told(alloc, &reply);
    drop(reply);
    Ok(told?.as_str() == wanted)
}

const NO_MEMORY: &str = r#"503|{"code":"OutOfMemory","details":{},"message":"no memory"}"#;

const FAULT: &str = r#"500|{"code":"DiskFault","details":{},"message":"the disk failed"}"#;

const HALTED: &str = r#"500|{"code":"Halted","details":{},"message":"the disk failed earlier"}"#;

#[test]
fn want_of_memory_and_faults_of_the_disk_are_told(rt: HostRuntime) -> Result<(), Fail> {
    let told = [
        is_told(rt.alloc(), Reply::OutOfMemory, NO_MEMORY)?,
        is_told(rt.alloc(), Reply::DiskFault, FAULT)?,
        is_told(rt.alloc(), Reply::Halted, HALTED)?,
    ];
    assert_eq!(rt; told, [true; 3]);
    Ok(())
}

/// How many roles, clients and hooks a farm has, and how many tasks stand in these tables after one was made twice.
fn made_twice_in(alloc: Global, tables: &mut Tables, farm: &Config) -> Result<[u64; 4], Fail> {
    if [make(alloc, tables, farm)?, make(alloc, tables, farm)?] != [200; 2] {
        return Err(Fail::from("the task is not made"));
    }
    let counts = farm.counts();
    let tasks = u64::from(tables.len());
    Ok([counts.roles, counts.clients, counts.hooks, tasks])
}

/// The same of a farm that begins.
fn made_twice_at(alloc: Global, farm: &Config) -> Result<[u64; 4], Fail> {
    let mut tables = Tables::new(alloc);
    let counts = made_twice_in(alloc, &mut tables, farm);
    drop(tables);
    counts
}

/// The same of a farm that begins, and that this file sets up.
fn made_twice(alloc: Global, file: &str) -> Result<[u64; 4], Fail> {
    let farm = config_of(alloc, file)?;
    let counts = made_twice_at(alloc, &farm);
    drop(farm);
    counts
}

/// The last moment of tables that reached a later one and then the first, or nothing, where something was due.
fn last_of(tables: &mut Tables) -> Option<u64> {
    let later = Moment::from_millis(5)?;
    if due(tables, later) {
        return None;
    }
    tick(tables, later);
    tick(tables, Moment::FIRST);
    Some(tables.last().millis())
}

/// The same of tables that begin.
fn last_moment(alloc: Global) -> Option<u64> {
    let mut tables = Tables::new(alloc);
    let last = last_of(&mut tables);
    drop(tables);
    last
}

/// The file of a farm that is open to all, with a client.
const FILE: &str =
    "role = [{ id = 'anonymous', scopes = ['*'] }]\nclient = [{ id = 'one', token = '0123456789012345678901', scopes = [], expires = '1970-01-01T00:00:00Z' }]\n";

#[test]
fn a_task_is_made_once_and_the_last_moment_never_falls(rt: HostRuntime) -> Result<(), Fail> {
    let counts = made_twice(rt.alloc(), FILE)?;
    assert_eq!(rt; (counts, last_moment(rt.alloc())), ([1, 1, 0, 1], Some(5)));
    Ok(())
}
