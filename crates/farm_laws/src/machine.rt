//! Laws of the farm machine. The functions do nothing: each contract is a law.
ghost use Rattle.std.specs.Prelude.{◌≤◌, ℕ};
ghost use Rattle.hawk_auth.specs.Clients.{IsBook};
ghost use Rattle.role_expand.specs.Cycles.{IsAccepted};
ghost use Rattle.farm_machine.specs.Changes.{moment_of};
ghost use Rattle.farm_asks.specs.Questions.{Asking};
ghost use Rattle.farm_machine.specs.State.{State};
ghost use Rattle.farm_machine.specs.Judgement.{Judgement};
ghost use Rattle.farm_machine.specs.HookLaws.{CallersAreExact, HooksAreExact, StarMayTrigger, StarMayCreate};
ghost use Rattle.farm_machine.specs.Laws.{FiringEnds, AccessIsExact, StarIsNotDenied, IsCreatedOnce, CreatedStands, RecordedStands, AnswersAgain};
ghost use Rattle.farm_machine.specs.ReadyLaws.{LeavesNoneReady, IsScheduledOnce, StartsWhereReady, StartsWhatItSchedules, IsServedForGood};
ghost use Rattle.farm_machine.specs.Replay.{ReplaysAreSound, RecordsRestore, KeptMayFollow, FrontsReplay};
ghost use Rattle.farm_machine.specs.RunLaws.{IsClaimedOnce, IsClaimedOnceWithRecords, EndsOnce, EndsOnceWithRecords, IsReportedOnceWithRecords, ReportsInTime, ReportsInTimeWithRecords};
ghost use Rattle.farm_machine.specs.Step.{farm_rules};
ghost use Rattle.farm_machine.specs.Verdict.{setting_of, IsVerdict};
ghost use Rattle.history.specs.Asks.{HasOneEntry};

/// In a state a question and a reply have one entry, so asks that are answered alike have one history.
pub fn a_question_and_a_reply_have_one_entry()
    ensures { HasOneEntry farm_rules }
{}

/// No call up to the end of the year 9999 is without a verdict, over each accepted set of roles and each book of clients. The verdict is
/// found where the call is no triggerHook, or is given what the firing of its hook comes to.
pub fn each_call_has_a_verdict()
    ensures exists { (longest : ℕ) (state : State) (asking : Asking) → IsAccepted longest state.config.roles → IsBook state.config.clients
        → moment_of state.contents asking ≤ 253_402_300_799_999 → ¬ ¬ ((judgement : Judgement) × IsVerdict state asking judgement) }
    ensures found { (longest : ℕ) (state : State) (asking : Asking) → IsAccepted longest state.config.roles → IsBook state.config.clients
        → FiringEnds (setting_of state asking) asking.call → (judgement : Judgement) × IsVerdict state asking judgement }
{}

/// A call that is of its form and names what is there is denied exactly where its caller's scopes do not hold what it asks; then its
/// answer tells what is missing, which lists a scope.
pub fn a_denial_is_of_scopes_that_are_missing()
    ensures { AccessIsExact }
{}

/// Whoever triggers a hook that is there is denied exactly where its scopes do not hold what that asks; and where they hold it, the hook is
/// exactly where all that its own scopes give does not hold what a createTask of its definition asks. Then the answer tells what is
/// missing, which lists a scope.
pub fn a_hook_has_its_own_scopes()
    ensures callers { CallersAreExact }
    ensures hooks { HooksAreExact }
{}

/// Whoever has the scope `*` is denied nothing, and no hook is that has it.
pub fn the_scope_star_is_never_denied()
    ensures calls { StarIsNotDenied }
    ensures triggers { StarMayTrigger }
    ensures hooks { StarMayCreate }
{}

/// At most one task is ever created under an id, counted with the one that stood there when the farm was opened.
pub fn a_task_is_created_once()
    ensures { IsCreatedOnce }
{}

/// A task that was created stands from then on with its definition, also where the farm was opened from records since; and where a task
/// stands, a createTask of its id with an equal definition is answered with the status that the task has then, and changes nothing.
pub fn an_equal_call_acts_once()
    ensures created { CreatedStands }
    ensures recorded { RecordedStands }
    ensures again { AnswersAgain }
{}

/// Each run is claimed at most once, counted with the claim that it stood in at the opening; and counted with the records that the farm was
/// opened from.
pub fn a_run_is_claimed_once()
    ensures since { IsClaimedOnce }
    ensures recorded { IsClaimedOnceWithRecords }
{}

/// A run that ended stays as it ended, with its claim, whatever comes; also one that had ended before, in what the first of the records leave
/// that the farm was opened from. Of these records and those since, at most one reports a run.
pub fn a_run_ends_once()
    ensures since { EndsOnce }
    ensures recorded { EndsOnceWithRecords }
    ensures reported { IsReportedOnceWithRecords }
{}

/// A report ends a run only before the end of its claim, in a farm that began empty or from records; and so did each report among these
/// records.
pub fn a_report_ends_a_run_in_time()
    ensures since { ReportsInTime }
    ensures recorded { ReportsInTimeWithRecords }
{}

/// Whatever comes, no task is left ready: so one that waits becomes pending by the first event after which what it waits for is there.
pub fn no_task_is_left_ready()
    ensures { LeavesNoneReady }
{}

/// Each task is scheduled at most once, by a call that schedules it or where it is ready, and then each that is, and no other.
pub fn a_task_is_scheduled_once()
    ensures once { IsScheduledOnce }
    ensures ready { StartsWhereReady }
    ensures scheduled { StartsWhatItSchedules }
{}

/// What a task serves those that wait for it, it serves whatever comes, in a farm that began empty or from records: a rerun of it takes
/// nothing back.
pub fn what_is_served_stays()
    ensures { IsServedForGood }
{}

/// Whatever changes may be replayed from no tasks leave no task ready, none that was scheduled twice, and for each an id of its own.
pub fn what_replays_is_sound()
    ensures { ReplaysAreSound }
{}

/// The records that an opening was replayed from, and those of a legal history since, restore the history's end: its rows and its next
/// number, with a last moment that is no greater. What a call there is about to keep may be replayed behind them; and so may a front of
/// all these records alone.
pub fn records_restore()
    ensures restored { RecordsRestore }
    ensures followed { KeptMayFollow }
    ensures cut_short { FrontsReplay }
{}
