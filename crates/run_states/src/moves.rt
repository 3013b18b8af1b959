//! What workers and callers do to a task. None of it takes memory.
ghost use Rattle.std.specs.Prelude.{◌≡◌, ◌-◌, length, not};
ghost use Rattle.run_states.specs.Rows.{is_resolved, is_pending, is_running_at, loses_claim};
ghost use Rattle.run_states.specs.Moves.{claimed, reclaimed, retried, closed, resolved, expired, canceled, run_again, run_refusal, reclaim_answer, ended_for_at, resolve_answer, rerun_answer};

use crate::reasons::{ReasonCreated, ReasonResolved};
use crate::refusal::Refusal;
use crate::room::RunRoom;
use crate::row::{MOST_RUNS, TaskRow};
use crate::run::Claim;
use crate::runs::{add_pending, at as run_at, end, keep, take_last};
use farm_text::Moment;

impl TaskRow {
    /// A worker takes the pending run of the task. Answers whether there was one.
    pub fn claim(&mut self, claim: Claim) -> bool
        ensures changed { result ≡ is_pending self.old }
        ensures row { self.new ≡ claimed claim self.old }
    {
        if !self.is_pending() {
            return false;
        }
        take_last(&mut self.runs, claim);
        true
    }

    /// The worker of a running run keeps it until this moment, which may be an earlier one too. Answers true, or why it is refused.
    pub fn reclaim(&mut self, run: u8, taken_until: Moment) -> Result<bool, Refusal>
        ensures answer { result ≡ reclaim_answer run self.old }
        ensures row { self.new ≡ reclaimed run taken_until self.old }
    {
        if !self.is_running_at(run) {
            return Err(self.run_refusal(run));
        }
        keep(&mut self.runs, usize::from(run), taken_until);
        Ok(true)
    }

    /// A worker reports how a running run ended. Where the reason is followed by a new run, and a retry is left, that is made, with the
    /// number that it draws. Answers whether the run ended by it: it stays where it ended for this reason before. Or why it is refused.
    pub fn resolve(
        &mut self,
        at: Moment,
        run: u8,
        reason: ReasonResolved,
        number: u64,
    ) -> Result<bool, Refusal>
        ensures answer { result ≡ resolve_answer run reason self.old }
        ensures row { self.new ≡ resolved run reason number at self.old }
    {
        if self.is_running_at(run) {
            self.close(usize::from(run), reason, at, number);
            return Ok(true);
        }
        if self.ended_for_at(run, reason) {
            return Ok(false);
        }
        Err(self.run_refusal(run))
    }

    /// Runs a resolved task again, with the number that the new run draws, and in this room, where it has less. Answers whether it did: a
    /// pending or running task stays. Or why it is refused.
    pub fn rerun(&mut self, at: Moment, number: u64, room: RunRoom) -> Result<bool, Refusal>
        ensures answer { result ≡ rerun_answer at self.old }
        ensures row { self.new ≡ run_again number at self.old }
    {
        if self.is_unscheduled() {
            return Err(Refusal::Unscheduled);
        }
        if !self.is_resolved() {
            return Ok(false);
        }
        if at >= self.definition.deadline {
            return Err(Refusal::DeadlineCame);
        }
        let stand = self.runs.len();
        if stand >= MOST_RUNS {
            return Err(Refusal::FiftyRuns);
        }
        room.give(&mut self.runs);
        add_pending(&mut self.runs, ReasonCreated::Rerun, number, at);
        self.retries_left = self.definition.retries.min((MOST_RUNS - 1 - stand) as u8);
        Ok(true)
    }

    /// Cancels the task, where it is not resolved: the last run ends, and where there is none, one is made that has ended. Answers
    /// whether it did.
    pub fn cancel(&mut self, at: Moment) -> bool
        ensures changed { result ≡ not (is_resolved self.old) }
        ensures row { self.new ≡ canceled at self.old }
    {
        self.finish(ReasonResolved::Canceled, at)
    }

    /// The claim of the last run falls due, where it does so at this moment or before: the run ends, and while a retry is left, a new run
    /// is made, with the number that it draws. Answers whether it did.
    pub fn expire(&mut self, at: Moment, number: u64) -> bool
        ensures changed { result ≡ loses_claim at self.old }
        ensures row { self.new ≡ expired number at self.old }
    {
        if !self.loses_claim(at) {
            return false;
        }
        self.close_last(at, number);
        true
    }

    /// Whether the claim of the last run falls due at this moment or did so before.
    pub fn loses_claim(&self, at: Moment) -> bool
        ensures { result ≡ loses_claim at self.now }
    {
        match self.claim_due() {
            Some(due) => due <= at,
            None => false,
        }
    }

    /// Whether the run of this number is there and running.
    pub fn is_running_at(&self, run: u8) -> bool
        ensures { result ≡ is_running_at run self.now }
    {
        match run_at(&self.runs, usize::from(run)) {
            Some(run) => run.is_running(),
            None => false,
        }
    }

    /// Whether the run of this number is there, and ended for this reason.
    pub fn ended_for_at(&self, run: u8, reason: ReasonResolved) -> bool
        ensures { result ≡ ended_for_at run reason self.now }
    {
        match run_at(&self.runs, usize::from(run)) {
            Some(run) => run.ended_for(reason),
            None => false,
        }
    }

    /// Why a run that is not running is refused.
    fn run_refusal(&self, run: u8) -> Refusal
        ensures { result ≡ run_refusal run self.now }
    {
        if usize::from(run) < self.runs.len() {
            Refusal::NotRunning
        } else {
            Refusal::NoRun
        }
    }

    /// The last run ends, since its claim fell due, and a new run follows while a retry is left.
    fn close_last(&mut self, at: Moment, number: u64)
        ensures { self.new ≡ closed (length self.old.runs - 1) ReasonResolved.ClaimExpired number at self.old }
    {
        let last = self.runs.len().saturating_sub(1);
        self.close(last, ReasonResolved::ClaimExpired, at, number);
    }

    /// The run at a place ends, and a new run follows where the reason has one and a retry is left.
    fn close(&mut self, place: usize, reason: ReasonResolved, at: Moment, number: u64)
        ensures { self.new ≡ closed place reason number at self.old }
    {
        end(&mut self.runs, place, reason, at);
        if let Some(created) = reason.retry_after() {
            self.retry(created, at, number);
        }
    }

    /// Makes a new run, which uses up a retry, while one is left.
    fn retry(&mut self, created: ReasonCreated, at: Moment, number: u64)
        ensures { self.new ≡ retried created number at self.old }
    {
        if self.retries_left == 0 {
            return;
        }
        add_pending(&mut self.runs, created, number, at);
        self.retries_left -= 1;
    }
}
