//! Questions that a farm is asked: who calls, what for, and when.
ghost use Rattle.std.specs.Prelude.{◌≡◌, ◌≤◌};
ghost use Rattle.farm_text.specs.declared.moment.TheConstants.{LAST_TOLD_MOMENT};
ghost use Rattle.farm_asks.specs.Questions.{IsSaidCall};

use call_rules::HookName;
use farm_text::{Moment, SlugId, Text};
use octets::Bytes;
use std::marker::Model;
use task_defs::DefFault;
use task_types::{Creation, Identifier, Object, Resolution, RunName, TaskQueue};

/// A parameter of a target, by its name in the route or the query.
#[derive(Clone, Copy, Debug, PartialEq, Eq)]
pub enum Parameter {
    TaskId,
    RunId,
    TaskGroupId,
    Queue,
    HookGroupId,
    HookId,
    /// How many tasks a page has at most.
    Limit,
    /// The token of a page.
    ContinuationToken,
}

impl Parameter {
    ghost use Rattle.farm_asks.specs.Questions.{parameter_name};

    /// The name by which a reply tells of it.
    pub fn name(self) -> &'static str
        ensures { result.now ≡ parameter_name self }
    {
        match self {
            Parameter::TaskId => "taskId",
            Parameter::RunId => "runId",
            Parameter::TaskGroupId => "taskGroupId",
            Parameter::Queue => "queue",
            Parameter::HookGroupId => "hookGroupId",
            Parameter::HookId => "hookId",
            Parameter::Limit => "limit",
            Parameter::ContinuationToken => "continuationToken",
        }
    }
}

/// The credentials of a request, and what of it they sign (Hawk, scheme 1).
#[derive(Drop)]
pub struct Credentials {
    /// The value of the first Authorization field.
    pub header: Bytes,
    /// How many Authorization fields there are.
    pub count: u64,
    pub method: Bytes,
    /// The target as it was sent.
    pub target: Bytes,
    /// The value of the first Content-Type field, if there is one.
    pub content_type: Option<Bytes>,
    pub body: Bytes,
}

/// Who calls, as far as the request tells.
#[derive(Drop)]
pub enum Caller {
    /// No credentials are given.
    Anonymous,
    /// These are given.
    Signed(Credentials),
}

/// Why a body is none that its call has.
#[derive(Drop)]
pub enum BodyFault {
    /// It is no JSON that nests at most 127 deep.
    NotJson,
    /// It has a number that is not whole, or has no `i64`: where the first one stands, as a JSON pointer (RFC 6901).
    NotWhole(Text),
    /// It is no task definition.
    NoDefinition(DefFault),
    /// It is no worker's request for work.
    NoWork,
    /// It is no reason for which a worker ends a run as an exception.
    NoReason,
    /// It is no object, as what a hook is triggered with is.
    NoPayload,
}

/// What a worker asks for: runs of a queue.
#[derive(Drop)]
pub struct WorkRequest {
    pub queue: TaskQueue,
    pub worker_group: Identifier,
    pub worker_id: Identifier,
    /// How many runs it takes at most: 1 to 32.
    pub tasks: u8,
}

/// Which hook is triggered, and with what.
#[derive(Drop)]
pub struct Trigger {
    pub hook: HookName,
    /// What its template sees as `payload`.
    pub payload: Object,
}

/// Which tasks of a list are asked for: those behind one that a token names, or from the first on, so many at most.
#[derive(Clone, Copy, Debug, PartialEq, Eq)]
pub struct PageRequest {
    pub after: Option<SlugId>,
    pub limit: u16,
}

/// What is called.
#[derive(Drop)]
pub enum Call {
    /// No route has the method and the target. The name is the target before `?` where it is printable ASCII, else `-`.
    NoRoute(Text),
    /// A route has them, and this parameter is off its form.
    BadParameter(Parameter),
    /// The parameters are of their form, and the body is not.
    BadBody(BodyFault),
    /// Whether the farm is there.
    Ping,
    /// The definition of a task.
    Task(SlugId),
    /// The status of a task.
    Status(SlugId),
    /// A page of the tasks of a group.
    ListTaskGroup(SlugId, PageRequest),
    /// A page of the tasks that wait for a task.
    ListDependentTasks(SlugId, PageRequest),
    /// How many tasks wait in a queue.
    PendingTasks(TaskQueue),
    /// A task is made.
    CreateTask(Creation),
    /// A worker takes runs.
    ClaimWork(WorkRequest),
    /// A worker keeps its run for longer.
    ReclaimTask(RunName),
    /// A worker tells how its run ended: reportCompleted, reportFailed and reportException.
    ReportRun(Resolution),
    /// An unscheduled task becomes pending.
    ScheduleTask(SlugId),
    /// A resolved task is run again.
    RerunTask(SlugId),
    /// A task is resolved, where it was not.
    CancelTask(SlugId),
    /// A hook is fired, and the task that it makes is created under the id that was drawn.
    TriggerHook(Trigger),
}

/// One question to the farm: the moment that the clock told, the id that was drawn, who calls, and what.
///
/// Its moment is at most the greatest that a clock tells, and some document says the definition of a task that it makes.
#[derive(Drop)]
pub struct Question {
    moment: Moment,
    drawn: SlugId,
    caller: Caller,
    call: Call,
}

impl Model for Question {
    ghost use Rattle.std.specs.Coded.{codes};
    ghost use Rattle.task_types.specs.Codes.{members_code};
    ghost use Rattle.hook_book.specs.Codes.{document_code};
    ghost use Rattle.std.specs.Prelude.{◌≤◌};
    ghost use Rattle.farm_text.specs.declared.moment.TheConstants.{LAST_TOLD_MOMENT};
    ghost use Rattle.farm_asks.specs.Questions.{Asking};
    ghost use Rattle.farm_asks.specs.Questions.{IsSaidCall};

    ghost Value = { Asking };

    ghost coded = { Prim.hlevel (codes, members_code, document_code) };

    ghost view = { λ q. record { moment = q.moment; drawn = q.drawn; caller = q.caller; call = q.call } };

    ghost invariant = { λ q. (q.moment ≤ LAST_TOLD_MOMENT) × IsSaidCall q.call };
}

impl Question {
    /// The question of a caller.
    pub fn new(moment: Moment, drawn: SlugId, caller: Caller, call: Call) -> Self
        requires told { moment ≤ LAST_TOLD_MOMENT }
        requires said { IsSaidCall call }
        ensures { result ≡ record { moment = moment; drawn = drawn; caller = caller; call = call } }
    {
        Question {
            moment,
            drawn,
            caller,
            call,
        }
    }

    /// The moment that the clock told.
    pub fn moment(&self) -> Moment
        ensures moment { result ≡ self.now.moment }
        ensures told { result ≤ LAST_TOLD_MOMENT }
    {
        self.moment
    }

    /// The id that was drawn.
    pub fn drawn(&self) -> SlugId
        ensures { result ≡ self.now.drawn }
    {
        self.drawn
    }

    /// Who calls, and what.
    pub fn into_parts(self) -> (Caller, Call)
        ensures caller { result.0 ≡ self.caller }
        ensures call { result.1 ≡ self.call }
        ensures said { IsSaidCall result.1 }
    {
        (self.caller, self.call)
    }
}
