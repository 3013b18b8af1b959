//! Loads, with the summaries that `bench/bulk_model.py` prints: a model of the rules that was written apart from this program.
use farm_bulk::{bulk, summary_line};
use farm_text::Text;
use load_requests::{ClaimedRun, Generator, creation, report};
use std::alloc::Global;
use std::test::Fail;

/// The lines of seeds 0 to 4, each with 0, 1, 2, 3 and 50 tasks.
const LOADS: &str = "tasks=0 completed=0 failed=0 exception=0 unscheduled=0 runs=0
tasks=1 completed=1 failed=0 exception=0 unscheduled=0 runs=1
tasks=2 completed=2 failed=0 exception=0 unscheduled=0 runs=2
tasks=3 completed=2 failed=1 exception=0 unscheduled=0 runs=4
tasks=50 completed=30 failed=14 exception=2 unscheduled=4 runs=53
tasks=0 completed=0 failed=0 exception=0 unscheduled=0 runs=0
tasks=1 completed=0 failed=1 exception=0 unscheduled=0 runs=1
tasks=2 completed=1 failed=0 exception=1 unscheduled=0 runs=3
tasks=3 completed=0 failed=1 exception=1 unscheduled=1 runs=4
tasks=50 completed=20 failed=13 exception=3 unscheduled=14 runs=42
tasks=0 completed=0 failed=0 exception=0 unscheduled=0 runs=0
tasks=1 completed=1 failed=0 exception=0 unscheduled=0 runs=1
tasks=2 completed=1 failed=1 exception=0 unscheduled=0 runs=3
tasks=3 completed=1 failed=1 exception=0 unscheduled=1 runs=2
tasks=50 completed=31 failed=9 exception=5 unscheduled=5 runs=59
tasks=0 completed=0 failed=0 exception=0 unscheduled=0 runs=0
tasks=1 completed=1 failed=0 exception=0 unscheduled=0 runs=2
tasks=2 completed=2 failed=0 exception=0 unscheduled=0 runs=2
tasks=3 completed=1 failed=1 exception=0 unscheduled=1 runs=2
tasks=50 completed=24 failed=16 exception=0 unscheduled=10 runs=47
tasks=0 completed=0 failed=0 exception=0 unscheduled=0 runs=0
tasks=1 completed=0 failed=1 exception=0 unscheduled=0 runs=1
tasks=2 completed=1 failed=0 exception=1 unscheduled=0 runs=4
tasks=3 completed=1 failed=0 exception=1 unscheduled=1 runs=3
tasks=50 completed=23 failed=14 exception=2 unscheduled=11 runs=48
";

/// The line of a load.
fn line_of(alloc: Global, seed: u64, tasks: u32) -> Result<String, Fail> {
    Ok(summary_line(alloc, bulk(alloc, seed, tasks)?)?)
}

#[test]
fn loads_end_as_the_model_has_it(rt: HostRuntime) -> Result<(), Fail> {
    let mut lines = String::new(rt.alloc());
    for seed in 0..5 {
        for tasks in [0, 1, 2, 3, 50] {
            lines.push_str(line_of(rt.alloc(), seed, tasks)?.as_str())?;
        }
    }
    assert_eq!(rt; lines.as_str(), LOADS);
    Ok(())
}

/// The greatest seed, and one that leaves the generator as 0 does.
#[test]
fn a_seed_may_be_any_number(rt: HostRuntime) -> Result<(), Fail> {
    let three = line_of(rt.alloc(), 2_147_483_648, 3)?;
    let fifty = line_of(rt.alloc(), 9_223_372_036_854_775_807, 50)?;
    let wanted = [
        "tasks=3 completed=2 failed=1 exception=0 unscheduled=0 runs=4\n",
        "tasks=50 completed=31 failed=12 exception=2 unscheduled=5 runs=61\n",
    ];
    assert_eq!(rt; [three.as_str(), fifty.as_str()], wanted);
    Ok(())
}

/// A thousand tasks fill a connection, and one more takes another.
#[test]
fn tasks_are_made_over_two_connections(rt: HostRuntime) -> Result<(), Fail> {
    assert_eq!(rt;
        line_of(rt.alloc(), 7, 1_001)?.as_str(),
        "tasks=1001 completed=533 failed=259 exception=50 unscheduled=159 runs=1030\n"
    );
    Ok(())
}

/// The first draws of seed 0, worked out by hand.
#[test]
fn the_first_draws(rt: HostRuntime) {
    let mut generator = Generator::new(0);
    for wanted in [0, 21_468, 9_988, 22_117, 3_498, 16_927, 16_045] {
        assert_eq!(rt; generator.draw(), wanted);
    }
}

#[test]
fn requests_as_they_are_sent(rt: HostRuntime) -> Result<(), Fail> {
    let alloc = rt.alloc();
    assert_eq!(rt;
        creation(alloc, 1, 21_468)?.as_str(),
        "PUT /api/queue/v1/task/AAAAAAAAQACAAAAAAAAAAQ HTTP/1.1\r\nHost: localhost\r\nContent-Length: 284\r\n\r\n{\"created\":\"2024-01-01T00:00:00.000Z\",\"deadline\":\"2024-01-02T00:00:00.000Z\",\"dependencies\":[\"AAAAAAAAQACAAAAAAAAAAA\"],\"metadata\":{\"description\":\"d\",\"name\":\"n\",\"owner\":\"o@example.com\",\"source\":\"https://example.com/\"},\"payload\":{},\"priority\":\"lowest\",\"retries\":1,\"taskQueueId\":\"bulk/w\"}"
    );
    let run = ClaimedRun {
        task: Text::from_str(alloc, "AAAAAAAAQACAAAAAAAAAAA")?,
        number: 1,
    };
    assert_eq!(rt;
        report(alloc, &run, 3)?.as_str(),
        "POST /api/queue/v1/task/AAAAAAAAQACAAAAAAAAAAA/runs/1/exception HTTP/1.1\r\nHost: localhost\r\nContent-Length: 28\r\n\r\n{\"reason\":\"worker-shutdown\"}"
    );
    Ok(())
}
