//! Steps that tables take, worked by hand, in scripts between empty lines. A script begins with no task.
use super::other_script;

/// Tasks that are created and fall due: a task is pending as it is created; a deadline falls due at its very moment; each deadline counts in
/// one tick; what may not be created is not; a pending task is not scheduled; and more tasks than the first list has room for.
const CREATED: &str = "made create 2024-01-01T00:00:00.000Z 1 plain
yes is only 1 scheduled 2024-01-01T00:00:00.000Z 0 -
yes is counts 1 1 2024-01-01T00:00:00.000Z
no is due 2024-01-01T23:59:59.999Z
yes is due 2024-01-02T00:00:00.000Z

made create 2024-01-01T00:00:00.000Z 1 plain
yes tick 2024-01-01T23:59:59.999Z
yes is only 1 scheduled 2024-01-01T00:00:00.000Z 0 -
yes tick 2024-01-02T00:00:00.000Z
yes is only 1 scheduled 2024-01-01T00:00:00.000Z 0 deadline-exceeded@2024-01-02T00:00:00.000Z
yes is row 1 exception 1 5
no is due 2024-01-02T00:00:00.000Z

made create 2024-01-01T00:00:00.000Z 1 plain
made create 2024-01-01T00:00:00.000Z 2 due-at-noon
yes is due 2024-01-01T12:00:00.000Z
yes tick 2024-01-02T00:00:00.005Z
yes is only 1 scheduled 2024-01-01T00:00:00.000Z 0 deadline-exceeded@2024-01-02T00:00:00.000Z
yes is only 2 scheduled 2024-01-01T00:00:00.000Z 1 deadline-exceeded@2024-01-01T12:00:00.000Z
yes is counts 2 2 2024-01-02T00:00:00.005Z

made create 2024-01-01T00:00:00.000Z 1 plain
refused create 2024-01-01T00:00:00.000Z 1 due-at-noon
refused create 2024-01-01T12:00:00.000Z 2 due-at-noon
refused create 2023-12-31T23:59:59.999Z 2 plain
refused create 2024-01-02T00:00:00.000Z 2 plain
yes is counts 1 1 2024-01-01T00:00:00.000Z

made create 2024-01-01T00:00:00.000Z 1 plain
refused schedule 2024-01-01T12:00:00.000Z 1

each 0 70 made create 2024-01-01T00:00:00.000Z # plain
yes is counts 70 70 2024-01-01T00:00:00.000Z
yes is only 0 scheduled 2024-01-01T00:00:00.000Z 0 -
yes is only 69 scheduled 2024-01-01T00:00:00.000Z 69 -";

/// What workers and callers do: a claim, reclaimed at 00:20:09.999, falls due at its later end; a claim falls due without a retry; a deadline
/// at the end of a claim comes first, and uses no retry; an intermittent fault uses a retry; fifty rounds end with fifty runs; the later
/// task goes first by its priority, and of one priority the lesser number does; a task is canceled once.
const WORKED: &str = "made create 2024-01-01T00:00:00.000Z 1 plain
made claim 2024-01-01T00:00:10.000Z 1 0 2024-01-01T00:20:10.000Z
refused claim 2024-01-01T00:00:10.000Z 1 0 2024-01-01T00:20:10.000Z
yes is due 2024-01-01T00:20:10.000Z
made reclaim 2024-01-01T00:20:09.999Z 1 0 2024-01-01T00:40:09.999Z
no is due 2024-01-01T00:40:09.998Z
yes is due 2024-01-01T00:40:09.999Z
yes tick 2024-01-01T00:40:09.999Z
yes is ended 1 claim-expired@2024-01-01T00:40:09.999Z
yes is row 1 pending 2 4
yes is next 2
refused completed 2024-01-01T00:40:09.999Z 1 0

made create 2024-01-01T00:00:00.000Z 1 no-retry
made claim 2024-01-01T00:00:10.000Z 1 0 2024-01-01T00:20:10.000Z
yes tick 2024-01-01T00:20:10.000Z
yes is ended 1 claim-expired@2024-01-01T00:20:10.000Z
yes is row 1 exception 1 0
yes is next 1

made create 2024-01-01T00:00:00.000Z 1 due-with-claim
made claim 2024-01-01T00:00:10.000Z 1 0 2024-01-01T00:20:10.000Z
yes tick 2024-01-01T00:20:10.000Z
yes is ended 1 deadline-exceeded@2024-01-01T00:20:10.000Z
yes is row 1 exception 1 5
yes is next 1

made create 2024-01-01T00:00:00.000Z 1 one-retry
made claim 2024-01-01T00:00:10.000Z 1 0 2024-01-01T00:20:10.000Z
made intermittent-task 2024-01-01T00:00:10.005Z 1 0
yes is row 1 pending 2 0
yes is next 2
made claim 2024-01-01T00:00:10.006Z 1 1 2024-01-01T00:20:10.000Z
made intermittent-task 2024-01-01T00:00:10.007Z 1 1
yes is row 1 exception 2 0
yes is next 2

made create 2024-01-01T00:00:00.000Z 1 no-retry
each 0 49 made claim 2024-01-01T00:00:10.000Z 1 # 2024-01-01T00:20:10.000Z;made failed 2024-01-01T00:00:10.000Z 1 #;made rerun 2024-01-01T00:00:10.000Z 1
made claim 2024-01-01T00:00:10.000Z 1 49 2024-01-01T00:20:10.000Z
made failed 2024-01-01T00:00:10.000Z 1 49
yes is row 1 failed 50 0
yes is next 50
refused rerun 2024-01-01T00:00:10.000Z 1

made create 2024-01-01T00:00:00.000Z 1 plain
made create 2024-01-01T00:00:00.000Z 2 high
made create 2024-01-01T00:00:00.000Z 3 plain
refused claim 2024-01-01T00:00:10.000Z 1 0 2024-01-01T00:20:10.000Z
refused claim 2024-01-01T00:00:10.000Z 2 0 2024-01-02T00:00:10.001Z
yes is picked 1 213
made claim 2024-01-01T00:00:10.000Z 2 0 2024-01-02T00:00:10.000Z
yes is picked 1 13

made create 2024-01-01T00:00:00.000Z 1 plain
made cancel 2024-01-01T00:00:10.000Z 1
yes is ended 1 canceled@2024-01-01T00:00:10.000Z
refused cancel 2024-01-01T00:00:10.000Z 1";

/// Tasks that wait, and lists: a diamond, in which two tasks wait for the first and one for both; a chain of a hundred; a task that waits for
/// itself; a tick in which a task becomes pending at noon and its own deadline comes; tasks that wait for one that is missing or expires
/// early; and a group with its scheduler and its pages, of two tasks each, and the dependants of a task, also by their places, and past the room
/// of their first lists.
const WAITING: &str = "made create 2024-01-01T00:00:00.000Z 1 plain
made create 2024-01-01T00:00:00.000Z 2 after-first
made create 2024-01-01T00:00:00.000Z 3 after-first
made create 2024-01-01T00:00:00.000Z 4 after-both
yes is row 2 unscheduled 0 5
yes is row 3 unscheduled 0 5
yes is row 4 unscheduled 0 5
made claim 2024-01-01T00:00:10.000Z 1 0 2024-01-01T00:20:10.000Z
made completed 2024-01-01T00:00:10.000Z 1 0
yes is only 2 scheduled 2024-01-01T00:00:10.000Z 1 -
yes is only 3 scheduled 2024-01-01T00:00:10.000Z 2 -
made claim 2024-01-01T00:00:10.000Z 2 0 2024-01-01T00:20:10.000Z
made completed 2024-01-01T00:00:10.000Z 2 0
yes is row 4 unscheduled 0 5
made claim 2024-01-01T00:00:10.000Z 3 0 2024-01-01T00:20:10.000Z
made completed 2024-01-01T00:00:10.000Z 3 0
yes is only 4 scheduled 2024-01-01T00:00:10.000Z 3 -

made create 2024-01-01T00:00:00.000Z 0 plain
each 1 100 made create 2024-01-01T00:00:00.000Z # link
yes is row 99 unscheduled 0 5
each 0 100 made claim 2024-01-01T00:00:10.000Z # 0 2024-01-01T00:20:10.000Z;made completed 2024-01-01T00:00:10.000Z # 0
yes is next 100
yes is row 99 completed 1 5

made create 2024-01-01T00:00:00.000Z 1 after-first
yes is row 1 unscheduled 0 5
made schedule 2024-01-01T00:00:10.000Z 1
yes is only 1 scheduled 2024-01-01T00:00:10.000Z 0 -
refused schedule 2024-01-01T00:00:10.000Z 1
yes list places dependants 1 - 0 last

made create 2024-01-01T00:00:00.000Z 1 due-at-noon
made create 2024-01-01T00:00:00.000Z 2 once-resolved
yes is row 2 unscheduled 0 5
yes tick 2024-01-02T00:00:00.005Z
yes is only 2 scheduled 2024-01-01T12:00:00.000Z 1 deadline-exceeded@2024-01-02T00:00:00.000Z

yes list judged 5 once-resolved 1 -
refused create 2024-01-01T00:00:00.000Z 5 once-resolved
made create 2024-01-01T00:00:00.000Z 3 soon-forgotten
yes list judged 5 after-both 2 3
refused create 2024-01-01T00:00:00.000Z 5 after-both
made create 2024-01-01T00:00:00.000Z 2 plain
yes list judged 5 after-both - 3
refused create 2024-01-01T00:00:00.000Z 5 after-both
made create 2024-01-01T00:00:00.000Z 1 plain
yes list judged 5 once-resolved - -
made create 2024-01-01T00:00:00.000Z 5 once-resolved

made create 2024-01-01T00:00:00.000Z 1 plain
made create 2024-01-01T00:00:00.000Z 2 after-first
made create 2024-01-01T00:00:00.000Z 3 after-first
refused create 2024-01-01T00:00:00.000Z 4 other-scheduler
yes is scheduler 1 -
yes is scheduler 2 none
yes list page group 1 - 12 more
yes list page group 1 2 3 last
yes list page group 1 3  last
yes list page group 1 4 off
yes list page dependants 1 - 23 last
no list lists dependants 1 1
yes list page dependants 1 1 off
yes list places group 1 - 01 more
yes list places group 1 1 2 last
yes list places group 1 2  last
yes list places group 2 - off
yes list places dependants 1 - 12 last
yes list places dependants 3 -  last
yes list places dependants 4 -  last
each 4 80 made create 2024-01-01T00:00:00.000Z # after-first
yes list places group 1 - 01 more
yes list places group 1 5 67 more
yes list places dependants 1 - 12 more
yes list page group 1 3 45 more";

#[test]
fn tasks_are_created_and_fall_due(rt: HostRuntime) {
    let other = other_script(rt.alloc(), CREATED);
    assert!(rt; other == "none", "{other}");
}

#[test]
fn workers_and_callers_do_things(rt: HostRuntime) {
    let other = other_script(rt.alloc(), WORKED);
    assert!(rt; other == "none", "{other}");
}

#[test]
fn tasks_wait_and_are_listed(rt: HostRuntime) {
    let other = other_script(rt.alloc(), WAITING);
    assert!(rt; other == "none", "{other}");
}
