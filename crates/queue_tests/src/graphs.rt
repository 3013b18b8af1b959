//! Graphs of `dep_graph` that were worked by hand.
use dep_graph::{Graph, Progress, Requires};
use std::alloc::Global;
use std::test::Fail;

/// It waits.
const UNSCHEDULED: Progress = Progress {
    unscheduled: true,
    was_completed: false,
    was_resolved: false,
};

/// It is pending or running, for the first time.
const SCHEDULED: Progress = Progress {
    unscheduled: false,
    was_completed: false,
    was_resolved: false,
};

/// It was completed.
const COMPLETED: Progress = Progress {
    unscheduled: false,
    was_completed: true,
    was_resolved: true,
};

/// It failed, or was canceled.
const FAILED: Progress = Progress {
    unscheduled: false,
    was_completed: false,
    was_resolved: true,
};

/// Adds a task of this row that depends on these, where it may be added and memory is there. Tells whether it did.
fn add(alloc: Global, graph: &mut Graph, row: u32, needs: Requires, on: &[u32]) -> bool {
    if !graph.may_add(row, on) {
        return false;
    }
    match graph.reserve(alloc, row, on) {
        Ok(()) => {
            graph.add(row, needs, on);
            true
        }
        Err(_) => false,
    }
}

/// Makes a task come so far, where it is there.
fn proceed(graph: &mut Graph, row: u32, progress: Progress) {
    if graph.holds(row) {
        graph.state_changed(row, progress);
    }
}

/// Task 0, tasks 1 and 2 that depend on it, and task 3 that depends on both.
fn diamond(alloc: Global, needs: Requires) -> Result<Graph, Fail> {
    let mut graph = Graph::new(alloc);
    let first = add(alloc, &mut graph, 0, needs, &[]);
    let left = add(alloc, &mut graph, 1, needs, &[0]);
    let right = add(alloc, &mut graph, 2, needs, &[0]);
    let last = add(alloc, &mut graph, 3, needs, &[1, 2]);
    if first && left && right && last {
        Ok(graph)
    } else {
        drop(graph);
        Err("not added".into())
    }
}

/// Makes a task come so far, and tells whether this one is ready then.
fn readies(graph: &mut Graph, row: u32, progress: Progress, ready: Option<u32>) -> bool {
    proceed(graph, row, progress);
    graph.ready() == ready
}

/// Whether the tasks of a diamond are ready one after the other; the last is not after the first of two completions.
fn runs_through(graph: &mut Graph) -> bool {
    graph.ready() == Some(0)
        && readies(graph, 0, SCHEDULED, None)
        && readies(graph, 0, COMPLETED, Some(1))
        && readies(graph, 1, SCHEDULED, Some(2))
        && readies(graph, 2, COMPLETED, None)
        && readies(graph, 1, COMPLETED, Some(3))
}

/// Whether the rows of a diamond, and one that is not there, are ready where their tasks are.
fn are_ready(graph: &mut Graph) -> bool {
    let before = [graph.is_ready(0), graph.is_ready(1), graph.is_ready(9)];
    proceed(graph, 0, COMPLETED);
    let left = graph.is_ready(1) && graph.is_ready(2);
    let after = [graph.is_ready(0), left, graph.is_ready(3)];
    before == [true, false, false] && after == [false, true, false]
}

/// Whether a diamond tells the dependants of its tasks, and of one that is not there, in order.
fn tells_dependants(graph: &Graph) -> bool {
    graph.dependants(0) == [1, 2].as_slice()
        && graph.dependants(1) == [3].as_slice()
        && graph.dependants(2) == [3].as_slice()
        && graph.dependants(3).is_empty()
        && graph.dependants(9).is_empty()
}

/// Whether a task may be added to a diamond, and neither a row that is there, nor one behind a row that is not there or that is named twice.
fn adds_once(graph: &Graph) -> bool {
    graph.may_add(4, &[0, 4, 3])
        && !graph.may_add(3, &[])
        && !graph.may_add(4, &[5])
        && !graph.may_add(4, &[1, 2, 1])
}

/// Whether what this word says is so of a graph.
fn is_so(graph: &mut Graph, word: &str) -> bool {
    match word {
        "runs through" => runs_through(graph),
        "none is ready after a failure" => readies(graph, 0, FAILED, None),
        "a next one is ready after a failure" => readies(graph, 0, FAILED, Some(1)),
        "are ready" => are_ready(graph),
        "tells dependants" => tells_dependants(graph),
        "adds once" => adds_once(graph),
        _ => false,
    }
}

/// Whether it is so of a diamond.
fn diamond_is_so(alloc: Global, needs: Requires, word: &str) -> Result<bool, Fail> {
    let mut graph = diamond(alloc, needs)?;
    let is_so = is_so(&mut graph, word);
    drop(graph);
    Ok(is_so)
}

#[test]
fn a_diamond_is_run_through(rt: HostRuntime) -> Result<(), Fail> {
    for word in [
        "runs through",
        "none is ready after a failure",
        "are ready",
        "tells dependants",
        "adds once",
    ] {
        assert!(rt;
            diamond_is_so(rt.alloc(), Requires::AllCompleted, word)?,
            "{word}"
        );
    }
    Ok(())
}

#[test]
fn a_failed_task_is_resolved_and_not_completed(rt: HostRuntime) -> Result<(), Fail> {
    let word = "a next one is ready after a failure";
    assert!(rt; diamond_is_so(rt.alloc(), Requires::AllResolved, word)?);
    Ok(())
}

/// Whether a task that depends on itself waits.
fn waits_for_itself(alloc: Global, graph: &mut Graph) -> bool {
    add(alloc, graph, 0, Requires::AllCompleted, &[0])
        && graph.ready().is_none()
        && graph.dependants(0) == [0].as_slice()
        && readies(graph, 0, UNSCHEDULED, None)
}

#[test]
fn a_task_that_depends_on_itself_waits(rt: HostRuntime) {
    let mut graph = Graph::new(rt.alloc());
    let waits = waits_for_itself(rt.alloc(), &mut graph);
    drop(graph);
    assert!(rt; waits);
}

/// Whether a hundred tasks are added, each of which depends on the one before.
fn adds_chain(alloc: Global, graph: &mut Graph) -> bool {
    let mut added = add(alloc, graph, 0, Requires::AllCompleted, &[]);
    for row in 1..100u32 {
        added = added && add(alloc, graph, row, Requires::AllCompleted, &[row - 1]);
    }
    added
}

/// Whether they are ready one by one.
fn goes_one_by_one(graph: &mut Graph) -> bool {
    let mut goes = true;
    for row in 0..100u32 {
        goes = goes && graph.ready() == Some(row);
        proceed(graph, row, COMPLETED);
    }
    goes && graph.ready().is_none()
}

#[test]
fn a_chain_of_a_hundred_goes_one_by_one(rt: HostRuntime) {
    let mut graph = Graph::new(rt.alloc());
    let goes = adds_chain(rt.alloc(), &mut graph) && goes_one_by_one(&mut graph);
    drop(graph);
    assert!(rt; goes);
}
