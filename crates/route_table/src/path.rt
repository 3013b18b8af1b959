//! The forms of path that routes have.
ghost use Rattle.std.specs.Prelude.{◌≡◌};
ghost use Rattle.matchit.specs.Route.{parse_route};
ghost use Rattle.route_table.specs.Routes.{segments_of};
ghost use Rattle.route_table.specs.Texts.{segments_in, IsPattern};
ghost use Rattle.route_table.specs.Tokens.{tokens_of};

/// The form of a route's path. The base is `/api/queue/v1`, for `Trigger` `/api/hooks/v1`.
#[derive(Clone, Copy, Debug, PartialEq, Eq)]
pub enum PathForm {
    /// `/ping`
    Ping,
    /// `/task/{taskId}`
    Task,
    /// `/task/{taskId}/status`
    Status,
    /// `/task/{taskId}/schedule`
    Schedule,
    /// `/task/{taskId}/rerun`
    Rerun,
    /// `/task/{taskId}/cancel`
    Cancel,
    /// `/claim-work/{queue}`
    Claim,
    /// `/claim-work/{provisionerId}/{workerType}`
    ClaimInTwo,
    /// `/task/{taskId}/runs/{runId}/reclaim`
    Reclaim,
    /// `/task/{taskId}/runs/{runId}/completed`
    Completed,
    /// `/task/{taskId}/runs/{runId}/failed`
    Failed,
    /// `/task/{taskId}/runs/{runId}/exception`
    Exception,
    /// `/task-group/{taskGroupId}/list`
    Group,
    /// `/task/{taskId}/dependents`
    Dependents,
    /// `/pending/{queue}`
    Pending,
    /// `/pending/{provisionerId}/{workerType}`
    PendingInTwo,
    /// `/hooks/{hookGroupId}/{hookId}/trigger`
    Trigger,
}

impl PathForm {
    /// The path as `matchit` writes it: parameters stand in braces.
    pub(crate) fn text(self) -> &'static str
        ensures spells { segments_in result.now ≡ segments_of self }
        ensures reads { IsPattern (tokens_of (segments_of self)) (parse_route result.now) }
    {
        match self {
            PathForm::Ping => "/api/queue/v1/ping",
            PathForm::Task => "/api/queue/v1/task/{id}",
            PathForm::Status => "/api/queue/v1/task/{id}/status",
            PathForm::Schedule => "/api/queue/v1/task/{id}/schedule",
            PathForm::Rerun => "/api/queue/v1/task/{id}/rerun",
            PathForm::Cancel => "/api/queue/v1/task/{id}/cancel",
            PathForm::Claim => "/api/queue/v1/claim-work/{queue}",
            PathForm::ClaimInTwo => "/api/queue/v1/claim-work/{queue}/{type}",
            PathForm::Reclaim => "/api/queue/v1/task/{id}/runs/{run}/reclaim",
            PathForm::Completed => "/api/queue/v1/task/{id}/runs/{run}/completed",
            PathForm::Failed => "/api/queue/v1/task/{id}/runs/{run}/failed",
            PathForm::Exception => "/api/queue/v1/task/{id}/runs/{run}/exception",
            PathForm::Group => "/api/queue/v1/task-group/{id}/list",
            PathForm::Dependents => "/api/queue/v1/task/{id}/dependents",
            PathForm::Pending => "/api/queue/v1/pending/{queue}",
            PathForm::PendingInTwo => "/api/queue/v1/pending/{queue}/{type}",
            PathForm::Trigger => "/api/hooks/v1/hooks/{group}/{hook}/trigger",
        }
    }
}
