//! Steps that a task takes, worked by hand, in scripts between empty lines. A script begins with the name of the task's definition.
use super::other_script;
use run_states::{ReasonCreated, ReasonResolved, RunState};

/// Tasks that are scheduled, taken and fall due: a new task has its retries and no run; a task is scheduled once; a pending one exceeds its
/// deadline once; the deadline of an unscheduled one makes a run; a pending run is taken once; a claim, kept until 00:40:09.999, falls due at
/// that very moment, and run 1 follows; a report after the end of the claim is refused; a claim falls due without a retry; and a deadline at
/// the end of a claim comes first, and uses no retry.
const DUE: &str = "all-retries
yes is of AAAAAAAAQACAAAAAAAAAAA
yes is until 2024-01-02T00:00:00.000Z
yes stands unscheduled 0 49
yes is unscheduled

plain
yes schedule 2024-01-01T00:00:00.000Z 3
no schedule 2024-01-02T00:00:00.000Z 4
yes run 0 scheduled 2024-01-01T00:00:00.000Z 3 -
yes stands pending 1 5
yes is pending

plain
yes schedule 2024-01-01T00:00:00.000Z 3
yes exceed 2024-01-02T00:00:00.000Z
no exceed 2024-01-02T00:00:00.001Z
yes run 0 scheduled 2024-01-01T00:00:00.000Z 3 deadline-exceeded@2024-01-02T00:00:00.000Z
yes stands exception 1 5

plain
yes exceed 2024-01-02T00:00:00.000Z
yes run 0 exception 2024-01-02T00:00:00.000Z none deadline-exceeded@2024-01-02T00:00:00.000Z
yes stands exception 1 5

plain
yes schedule 2024-01-01T00:00:00.000Z 3
yes take
yes stands running 1 5
yes taken 0 2024-01-01T00:20:10.000Z
yes is due 2024-01-01T00:20:10.000Z
no take
yes stands running 1 5

plain
yes schedule 2024-01-01T00:00:00.000Z 3
yes take
yes reclaim 2024-01-01T00:40:09.999Z 0
yes taken 0 2024-01-01T00:40:09.999Z
no expire 2024-01-01T00:40:09.998Z 8
yes expire 2024-01-01T00:40:09.999Z 8
yes run 0 scheduled 2024-01-01T00:00:00.000Z 3 claim-expired@2024-01-01T00:40:09.999Z
yes taken 0 2024-01-01T00:40:09.999Z
yes run 1 retry 2024-01-01T00:40:09.999Z 8 -
yes stands pending 2 4

plain
yes schedule 2024-01-01T00:00:00.000Z 3
yes take
yes expire 2024-01-01T00:20:10.000Z 8
not-running resolve 2024-01-01T00:20:10.000Z 9 0 completed
not-running reclaim 2024-01-02T00:00:00.000Z 0
yes stands pending 2 4

no-retry
yes schedule 2024-01-01T00:00:00.000Z 3
yes take
yes expire 2024-01-01T00:20:10.000Z 8
no expire 2024-01-01T00:20:10.000Z 9
yes stands exception 1 0

plain
yes schedule 2024-01-01T00:00:00.000Z 3
yes take
yes exceed 2024-01-01T00:20:10.000Z
no expire 2024-01-01T00:20:10.000Z 8
yes run 0 scheduled 2024-01-01T00:00:00.000Z 3 deadline-exceeded@2024-01-01T00:20:10.000Z
yes stands exception 1 5";

/// Reports: with one retry, the first intermittent fault is followed by a new run, and the second is not; most reports end the task without a
/// retry; a shutdown is followed by a run; a report of a run that is not running is refused; and a repeated report stays as it was, also
/// where the run is no longer the last, and another report is refused.
const REPORTED: &str = "one-retry
yes schedule 2024-01-01T00:00:00.000Z 3
yes take
yes resolve 2024-01-01T00:00:10.005Z 8 0 intermittent-task
yes run 1 task-retry 2024-01-01T00:00:10.005Z 8 -
yes stands pending 2 0
yes take
yes resolve 2024-01-01T00:00:10.009Z 9 1 intermittent-task
yes stands exception 2 0

plain
yes schedule 2024-01-01T00:00:00.000Z 3
yes take
yes resolve 2024-01-01T00:00:10.005Z 8 0 completed
yes stands completed 1 5
yes rerun 2024-01-01T00:00:10.006Z 9
yes take
yes resolve 2024-01-01T00:00:10.005Z 8 1 failed
yes stands failed 2 5
yes rerun 2024-01-01T00:00:10.006Z 9
yes take
yes resolve 2024-01-01T00:00:10.005Z 8 2 superseded
yes stands exception 3 5
yes rerun 2024-01-01T00:00:10.006Z 9
yes take
yes resolve 2024-01-01T00:00:10.005Z 8 3 malformed-payload
yes stands exception 4 5
yes rerun 2024-01-01T00:00:10.006Z 9
yes take
yes resolve 2024-01-01T00:00:10.005Z 8 4 resource-unavailable
yes stands exception 5 5
yes rerun 2024-01-01T00:00:10.006Z 9
yes take
yes resolve 2024-01-01T00:00:10.005Z 8 5 internal-error
yes stands exception 6 5
yes rerun 2024-01-01T00:00:10.006Z 9
yes take

plain
yes schedule 2024-01-01T00:00:00.000Z 3
yes take
yes resolve 2024-01-01T00:00:10.005Z 8 0 worker-shutdown
yes run 1 retry 2024-01-01T00:00:10.005Z 8 -
yes stands pending 2 4

plain
yes schedule 2024-01-01T00:00:00.000Z 3
not-running resolve 2024-01-01T00:00:10.000Z 8 0 completed
no-run resolve 2024-01-01T00:00:10.000Z 8 1 completed
not-running reclaim 2024-01-01T00:00:10.000Z 0
no-run reclaim 2024-01-01T00:00:10.000Z 1
yes stands pending 1 5

plain
yes schedule 2024-01-01T00:00:00.000Z 3
yes take
yes resolve 2024-01-01T00:00:10.005Z 8 0 completed
no resolve 2024-01-01T00:00:10.006Z 8 0 completed
not-running resolve 2024-01-01T00:00:10.005Z 8 0 failed
yes rerun 2024-01-01T00:00:10.005Z 8
no resolve 2024-01-01T00:00:10.006Z 9 0 completed
yes run 0 scheduled 2024-01-01T00:00:00.000Z 3 completed@2024-01-01T00:00:10.005Z
yes run 1 rerun 2024-01-01T00:00:10.005Z 8 -";

/// Calls: a rerun gives the task its retries again; of 49 retries 48 are left beside two runs; a rerun may be refused; a task has fifty runs;
/// it is canceled once, also where it is unscheduled; a copy is canceled, and the row that it was made of stays; a completed task serves also
/// after a rerun; and a run that failed does not serve those that require a completed one, also where it is run again.
const CALLED: &str = "plain
yes schedule 2024-01-01T00:00:00.000Z 3
yes take
yes expire 2024-01-01T00:20:10.000Z 8
yes cancel 2024-01-01T00:20:10.000Z
yes rerun 2024-01-01T00:20:10.000Z 9
yes stands pending 3 5

all-retries
yes schedule 2024-01-01T00:00:00.000Z 3
yes stands pending 1 49
yes cancel 2024-01-01T00:00:10.000Z
yes rerun 2024-01-01T00:00:10.000Z 8
yes stands pending 2 48

plain
unscheduled rerun 2024-01-02T00:00:00.000Z 3
yes schedule 2024-01-01T00:00:00.000Z 3
no rerun 2024-01-02T00:00:00.000Z 4
yes cancel 2024-01-01T00:00:10.000Z
deadline-came rerun 2024-01-02T00:00:00.000Z 4
yes stands exception 1 5
yes rerun 2024-01-01T23:59:59.999Z 4
yes stands pending 2 5

no-retry
yes schedule 2024-01-01T00:00:00.000Z 3
49: yes take;yes resolve 2024-01-01T00:00:10.000Z 8 # failed;yes rerun 2024-01-01T00:00:10.000Z 8
yes take
yes resolve 2024-01-01T00:00:10.000Z 8 49 failed
fifty-runs rerun 2024-01-01T00:00:10.000Z 8
no resolve 2024-01-01T00:00:10.000Z 8 49 failed
yes stands failed 50 0

plain
yes schedule 2024-01-01T00:00:00.000Z 3
yes take
yes cancel 2024-01-01T00:00:10.005Z
no cancel 2024-01-01T00:00:10.006Z
yes run 0 scheduled 2024-01-01T00:00:00.000Z 3 canceled@2024-01-01T00:00:10.005Z
yes stands exception 1 5
yes is due -

plain
yes cancel 2024-01-01T00:00:10.000Z
yes run 0 exception 2024-01-01T00:00:10.000Z none canceled@2024-01-01T00:00:10.000Z
yes stands exception 1 5

plain
yes schedule 2024-01-01T00:00:00.000Z 3
yes take
copied: yes taken 0 2024-01-01T00:20:10.000Z;yes cancel 2024-01-01T00:00:10.005Z;yes is until 2024-01-02T00:00:00.000Z;yes stands exception 1 5
yes stands running 1 5

plain
yes schedule 2024-01-01T00:00:00.000Z 3
yes take
yes serves no no
yes resolve 2024-01-01T00:00:10.005Z 8 0 completed
yes serves yes yes
yes rerun 2024-01-01T00:00:10.005Z 8
yes is pending
yes serves yes yes

plain
yes schedule 2024-01-01T00:00:00.000Z 3
yes take
yes resolve 2024-01-01T00:00:10.005Z 8 0 failed
yes serves no yes
yes rerun 2024-01-01T00:00:10.005Z 8
yes is pending
yes serves no yes";

/// Statuses: an unscheduled task; its definition in full form; a deadline that resolves the last run; one that makes a run where there is
/// none; a claim, reclaimed a millisecond before its end, that falls due at the later end; and a rerun that follows a failure.
const TOLD: &str = r#"plain
yes told 5||unscheduled

plain
yes is plain

plain
yes schedule 2024-01-01T00:00:00.000Z 0
yes told 5|{"reasonCreated":"scheduled","runId":0,"scheduled":"2024-01-01T00:00:00.000Z","state":"pending"}|pending
yes exceed 2024-01-02T00:00:00.000Z
yes told 5|{"reasonCreated":"scheduled","reasonResolved":"deadline-exceeded","resolved":"2024-01-02T00:00:00.000Z","runId":0,"scheduled":"2024-01-01T00:00:00.000Z","state":"exception"}|exception

plain
yes exceed 2024-01-02T00:00:00.000Z
yes told 5|{"reasonCreated":"exception","reasonResolved":"deadline-exceeded","resolved":"2024-01-02T00:00:00.000Z","runId":0,"scheduled":"2024-01-02T00:00:00.000Z","state":"exception"}|exception

plain
yes schedule 2024-01-01T00:00:00.000Z 0
yes take
yes told 5|{"reasonCreated":"scheduled","runId":0,"scheduled":"2024-01-01T00:00:00.000Z","started":"2024-01-01T00:00:10.000Z","state":"running","takenUntil":"2024-01-01T00:20:10.000Z","workerGroup":"g","workerId":"w"}|running
yes reclaim 2024-01-01T00:40:09.999Z 0
yes expire 2024-01-01T00:40:09.999Z 1
yes told 4|{"reasonCreated":"scheduled","reasonResolved":"claim-expired","resolved":"2024-01-01T00:40:09.999Z","runId":0,"scheduled":"2024-01-01T00:00:00.000Z","started":"2024-01-01T00:00:10.000Z","state":"exception","takenUntil":"2024-01-01T00:40:09.999Z","workerGroup":"g","workerId":"w"},{"reasonCreated":"retry","runId":1,"scheduled":"2024-01-01T00:40:09.999Z","state":"pending"}|pending

plain
yes schedule 2024-01-01T00:00:00.000Z 0
yes take
yes resolve 2024-01-01T00:00:10.000Z 1 0 failed
yes told 5|{"reasonCreated":"scheduled","reasonResolved":"failed","resolved":"2024-01-01T00:00:10.000Z","runId":0,"scheduled":"2024-01-01T00:00:00.000Z","started":"2024-01-01T00:00:10.000Z","state":"failed","takenUntil":"2024-01-01T00:20:10.000Z","workerGroup":"g","workerId":"w"}|failed
yes rerun 2024-01-01T00:00:10.000Z 1
yes told 5|{"reasonCreated":"scheduled","reasonResolved":"failed","resolved":"2024-01-01T00:00:10.000Z","runId":0,"scheduled":"2024-01-01T00:00:00.000Z","started":"2024-01-01T00:00:10.000Z","state":"failed","takenUntil":"2024-01-01T00:20:10.000Z","workerGroup":"g","workerId":"w"},{"reasonCreated":"rerun","runId":1,"scheduled":"2024-01-01T00:00:10.000Z","state":"pending"}|pending"#;

#[test]
fn tasks_are_taken_and_fall_due(rt: HostRuntime) {
    let other = other_script(rt.alloc(), DUE);
    assert!(rt; other == "none", "{other}");
}

#[test]
fn workers_report(rt: HostRuntime) {
    let other = other_script(rt.alloc(), REPORTED);
    assert!(rt; other == "none", "{other}");
}

#[test]
fn callers_run_and_cancel(rt: HostRuntime) {
    let other = other_script(rt.alloc(), CALLED);
    assert!(rt; other == "none", "{other}");
}

#[test]
fn statuses_are_told(rt: HostRuntime) {
    let other = other_script(rt.alloc(), TOLD);
    assert!(rt; other == "none", "{other}");
}

/// Whether some reasons and a state have their names.
fn have_names() -> bool {
    ReasonResolved::DeadlineExceeded.name() == "deadline-exceeded"
        && ReasonResolved::WorkerShutdown.name() == "worker-shutdown"
        && ReasonCreated::TaskRetry.name() == "task-retry"
        && RunState::Running.name() == "running"
}

#[test]
fn reasons_and_states_have_names(rt: HostRuntime) {
    assert!(rt; have_names());
}
