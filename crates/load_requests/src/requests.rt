//! The requests of the load.
ghost use Rattle.std.specs.Prelude.{◌≡◌, ◌++◌, codes, decimal, string_bytes, IfOk};
ghost use Rattle.load_requests.specs.Requests.{request_text, task_uuid, task_id, priority_text, dependencies_text, definition_text, creation_text, claim_text, outcome_text, reason_text, report_text};

use farm_text::{SlugId, Text};
use std::alloc::{AllocError, Global};

/// A run that a worker has.
#[derive(Drop)]
pub struct ClaimedRun {
    /// The slugid of its task.
    pub task: Text,
    /// Its number, from 0.
    pub number: u64,
}

/// A request with this method and target, and this body.
#[tactic(auto, unfolding(crate::specs::Requests::request_text))]
fn request(alloc: Global, front: &str, body: &str) -> Result<String, AllocError>
    ensures { IfOk result (λ text. string_bytes text ≡ request_text front.now body.now) }
{
    let length = body.len();
    format!(in alloc;
        "{front} HTTP/1.1\r\nHost: localhost\r\nContent-Length: {length}\r\n\r\n{body}"
    )
}

/// The id of the task of this number.
pub(crate) fn task_of(number: u32) -> SlugId
    ensures { result ≡ task_uuid number }
{
    let [a, b, c, d] = number.to_be_bytes();
    let uuid = [0, 0, 0, 0, 0, 0, 0x40, 0, 0x80, 0, 0, 0, a, b, c, d];
    let Some(id) = SlugId::of_uuid(uuid) else {
        unreachable!();
    };
    id
}

/// The same, as a text.
#[tactic(auto, unfolding(crate::specs::Requests::task_id))]
fn task_text(alloc: Global, number: u32) -> Result<Text, AllocError>
    ensures { IfOk result (λ text. text ≡ task_id number) }
{
    task_of(number).to_text(alloc)
}

/// The priority of a task, by what was drawn for it.
#[tactic(auto, unfolding(crate::specs::Requests::priority_text))]
fn priority(draw: u64) -> &'static str
    ensures { result.now ≡ priority_text draw }
{
    match draw % 7 {
        0 => "highest",
        1 => "very-high",
        2 => "high",
        3 => "medium",
        4 => "low",
        5 => "very-low",
        _ => "lowest",
    }
}

/// What a task waits for, by its number and what was drawn for it: for nothing, or for the task before it.
#[tactic(auto, unfolding(crate::specs::Requests::dependencies_text))]
fn dependencies(alloc: Global, number: u32, draw: u64) -> Result<String, AllocError>
    ensures { IfOk result (λ text. string_bytes text ≡ dependencies_text number draw) }
{
    if number == 0 || draw % 3 != 0 {
        return Ok(String::new(alloc));
    }
    let before = task_text(alloc, number - 1)?;
    let id = before.as_str();
    format!(in alloc; "\"{id}\"")
}

/// The definition of a task.
#[tactic(auto, unfolding(crate::specs::Requests::definition_text))]
fn definition(alloc: Global, number: u32, draw: u64) -> Result<String, AllocError>
    ensures { IfOk result (λ text. string_bytes text ≡ definition_text number draw) }
{
    let listed = dependencies(alloc, number, draw)?;
    let dependencies = listed.as_str();
    let priority = priority(draw);
    format!(in alloc;
        "{{\"created\":\"2024-01-01T00:00:00.000Z\",\"deadline\":\"2024-01-02T00:00:00.000Z\",\"dependencies\":[{dependencies}],\"metadata\":{{\"description\":\"d\",\"name\":\"n\",\"owner\":\"o@example.com\",\"source\":\"https://example.com/\"}},\"payload\":{{}},\"priority\":\"{priority}\",\"retries\":1,\"taskQueueId\":\"bulk/w\"}}"
    )
}

/// The method and the target of the request that makes a task.
fn creation_front(alloc: Global, number: u32) -> Result<String, AllocError>
    ensures { IfOk result (λ text. string_bytes text ≡ codes "PUT /api/queue/v1/task/" ++ task_id number) }
{
    let task = task_text(alloc, number)?;
    let id = task.as_str();
    format!(in alloc; "PUT /api/queue/v1/task/{id}")
}

/// The request that makes the task of this number, with what was drawn for it (0 to 32767).
#[tactic(auto, unfolding(crate::specs::Requests::creation_text))]
pub fn creation(alloc: Global, number: u32, draw: u64) -> Result<String, AllocError>
    ensures { IfOk result (λ text. string_bytes text ≡ creation_text number draw) }
{
    let front = creation_front(alloc, number)?;
    let body = definition(alloc, number, draw)?;
    request(alloc, front.as_str(), body.as_str())
}

/// The request for one run.
#[tactic(auto, unfolding(crate::specs::Requests::claim_text))]
pub fn claim(alloc: Global) -> Result<String, AllocError>
    ensures { IfOk result (λ text. string_bytes text ≡ claim_text) }
{
    request(
        alloc,
        "POST /api/queue/v1/claim-work/bulk/w",
        "{\"workerGroup\":\"g\",\"workerId\":\"w\"}",
    )
}

/// How a run ends, by what was drawn for it.
#[tactic(auto, unfolding(crate::specs::Requests::outcome_text))]
fn outcome(draw: u64) -> &'static str
    ensures { result.now ≡ outcome_text draw }
{
    match draw % 4 {
        2 => "failed",
        3 => "exception",
        _ => "completed",
    }
}

/// What else its report says.
#[tactic(auto, unfolding(crate::specs::Requests::reason_text))]
fn reason(draw: u64) -> &'static str
    ensures { result.now ≡ reason_text draw }
{
    if draw % 4 == 3 {
        "{\"reason\":\"worker-shutdown\"}"
    } else {
        ""
    }
}

/// The method and the target of the report of a run.
fn report_front(alloc: Global, run: &ClaimedRun, draw: u64) -> Result<String, AllocError>
    ensures { IfOk result (λ text. string_bytes text ≡ codes "POST /api/queue/v1/task/" ++ (run.now.task ++ (codes "/runs/" ++ (decimal run.now.number ++ (codes "/" ++ outcome_text draw))))) }
{
    let task = run.task.as_str();
    let number = run.number;
    let outcome = outcome(draw);
    format!(in alloc; "POST /api/queue/v1/task/{task}/runs/{number}/{outcome}")
}

/// The request that reports how a run ended, with what was drawn for it (0 to 32767).
#[tactic(auto, unfolding(crate::specs::Requests::report_text))]
pub fn report(alloc: Global, run: &ClaimedRun, draw: u64) -> Result<String, AllocError>
    ensures { IfOk result (λ text. string_bytes text ≡ report_text run.now draw) }
{
    let front = report_front(alloc, run, draw)?;
    request(alloc, front.as_str(), reason(draw))
}
