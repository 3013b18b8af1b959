//! The routes.
ghost use Rattle.std.specs.Prelude.{◌≡◌, ◌≢◌, MatchOption};
ghost use Rattle.route_table.specs.Routes.{method_of, path_of};

use crate::path::PathForm;

/// A route of the API, by what it calls. A queue is one part of the path, or two.
#[derive(Clone, Copy, Debug, PartialEq, Eq)]
pub enum Route {
    Ping,
    CreateTask,
    Task,
    Status,
    ScheduleTask,
    RerunTask,
    CancelTask,
    ClaimWork,
    ClaimWorkInTwo,
    ReclaimTask,
    ReportCompleted,
    ReportFailed,
    ReportException,
    ListTaskGroup,
    ListDependentTasks,
    PendingTasks,
    PendingTasksInTwo,
    TriggerHook,
}

impl Route {
    /// The route's method.
    fn method(self) -> &'static str
        ensures { result.now ≡ method_of self }
    {
        match self {
            Route::CreateTask => "PUT",
            Route::Ping
            | Route::Task
            | Route::Status
            | Route::ListTaskGroup
            | Route::ListDependentTasks
            | Route::PendingTasks
            | Route::PendingTasksInTwo => "GET",
            Route::ScheduleTask
            | Route::RerunTask
            | Route::CancelTask
            | Route::ClaimWork
            | Route::ClaimWorkInTwo
            | Route::ReclaimTask
            | Route::ReportCompleted
            | Route::ReportFailed
            | Route::ReportException
            | Route::TriggerHook => "POST",
        }
    }
}

/// The route of a form of path under a method, if there is one.
pub(crate) fn route_of(path: PathForm, method: &[u8]) -> Option<Route>
    ensures { MatchOption result ((route : Route) → path_of route ≡ path → method.now ≢ method_of route)
        (λ route. (path_of route ≡ path) × (method.now ≡ method_of route)) }
{
    let route = candidate(path, method);
    if route.method().as_bytes() == method {
        Some(route)
    } else {
        None
    }
}

/// The one route of a form of path that may have this method.
fn candidate(path: PathForm, method: &[u8]) -> Route
    ensures path { path_of result ≡ path }
    ensures only { (route : Route) → path_of route ≡ path → method.now ≡ method_of route → route ≡ result }
{
    match path {
        PathForm::Ping => Route::Ping,
        PathForm::Task => task_route(method),
        PathForm::Status => Route::Status,
        PathForm::Schedule => Route::ScheduleTask,
        PathForm::Rerun => Route::RerunTask,
        PathForm::Cancel => Route::CancelTask,
        PathForm::Claim => Route::ClaimWork,
        PathForm::ClaimInTwo => Route::ClaimWorkInTwo,
        PathForm::Reclaim => Route::ReclaimTask,
        PathForm::Completed => Route::ReportCompleted,
        PathForm::Failed => Route::ReportFailed,
        PathForm::Exception => Route::ReportException,
        PathForm::Group => Route::ListTaskGroup,
        PathForm::Dependents => Route::ListDependentTasks,
        PathForm::Pending => Route::PendingTasks,
        PathForm::PendingInTwo => Route::PendingTasksInTwo,
        PathForm::Trigger => Route::TriggerHook,
    }
}

/// Of the two routes of a task's path, the one that may have this method.
fn task_route(method: &[u8]) -> Route
    ensures path { path_of result ≡ PathForm.Task }
    ensures only { (route : Route) → path_of route ≡ PathForm.Task → method.now ≡ method_of route → route ≡ result }
{
    if method == b"PUT".as_slice() {
        Route::CreateTask
    } else {
        Route::Task
    }
}
