//! Workers whose gates hold one until another has answered: this is so only where they run beside each other.
ghost use Rattle.std.specs.Prelude.{None};

use super::{PING, link, served};
use farm_server::{Gate, When};
use farm_serving::Worker;
use farm_text::{ListClock, ListDraws};
use listeners::MemoryListener;
use std::alloc::{AllocError, Global};
use std::hint;
use std::sync::Wait;
use std::sync::atomic::{AtomicBool, Ordering};
use std::test::Fail;
use std::thread::Threads;

/// A gate that is held before the first ask until a sign is given, or that gives the sign once the first reply is written.
#[derive(Drop)]
struct Turnstile<'a> {
    sign: &'a AtomicBool,
    is_held: bool,
    /// Whether the sign came while the gate was held.
    came_in_time: bool,
}

impl Gate for Turnstile<'_> {
    ghost told = { λ _. None };

    fn at(&mut self, when: When) {
        match when {
            When::Asked(0) if self.is_held => self.came_in_time = await_sign(self.sign),
            When::Answered(0) if !self.is_held => self.sign.store(true, Ordering::SeqCst),
            _ => {}
        }
    }
}

/// Waits until the sign is given, for so many turns at most, and says whether it is.
fn await_sign(sign: &AtomicBool) -> bool {
    for _ in 0..100_000_000u32 {
        if sign.load(Ordering::SeqCst) {
            return true;
        }
        hint::spin_loop();
    }
    false
}

/// A worker with a door in memory and such a gate.
type TurnedWorker<'a> = Worker<MemoryListener, ListClock, ListDraws, Turnstile<'a>>;

/// A worker at whose door one link comes, with one ping, and whose gate is held or gives the sign.
fn turned<'a>(
    alloc: Global,
    sign: &'a AtomicBool,
    is_held: bool,
) -> Result<TurnedWorker<'a>, AllocError> {
    let coming = vec![in alloc; link(alloc, &[PING], &[], &[])?]?;
    Ok(Worker {
        door: MemoryListener::new(alloc, coming, Vec::new(alloc), Vec::new(alloc))?,
        clock: ListClock::new(Vec::new(alloc)),
        draws: ListDraws::new(Vec::new(alloc)),
        gate: Turnstile {
            sign,
            is_held,
            came_in_time: false,
        },
    })
}

/// Two such workers, of which the gate of the first or of the second is held.
fn two_turned<'a>(
    alloc: Global,
    sign: &'a AtomicBool,
    is_first_held: bool,
) -> Result<[TurnedWorker<'a>; 2], AllocError> {
    let first = turned(alloc, sign, is_first_held)?;
    match turned(alloc, sign, !is_first_held) {
        Ok(second) => Ok([first, second]),
        Err(error) => {
            drop(first);
            Err(error)
        }
    }
}

/// Lets two workers serve a ping each, the first or the second of which is held until the other has answered: how many messages were
/// asked, and whether the sign came in time.
fn ask_through_gates<R: Threads + Wait + Sync>(
    rt: &R,
    alloc: Global,
    is_first_held: bool,
) -> Result<(u64, bool), Fail> {
    let sign = AtomicBool::new(false);
    let mut workers = two_turned(alloc, &sign, is_first_held)?;
    let told = served(rt, alloc, &mut workers, 1);
    let came_in_time = workers[0].gate.came_in_time || workers[1].gate.came_in_time;
    drop(workers);
    let (ended, _) = told?;
    Ok((ended.served, came_in_time))
}

/// The first worker waits for the second, and then the second for the first.
#[test]
fn gate_two_workers(rt: HostRuntime) -> Result<(), Fail> {
    let told = [
        ask_through_gates(&rt, rt.alloc(), true)?,
        ask_through_gates(&rt, rt.alloc(), false)?,
    ];
    assert_eq!(rt; told, [(2, true); 2]);
    Ok(())
}
