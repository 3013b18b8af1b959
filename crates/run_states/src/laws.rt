//! Laws of a task: the functions do nothing, and their contracts are the laws.
ghost use Rattle.std.specs.Prelude.{◌≡◌, ℕ, List, true, false};
ghost use Rattle.std.specs.Thread.{IsSend};
ghost use Rattle.task_types.specs.declared.choices.Requires.{Requires};
ghost use Rattle.run_states.specs.contracts.row.TaskRow.{the_row};
ghost use Rattle.run_states.specs.declared.reasons.ReasonResolved.{ReasonResolved};
ghost use Rattle.run_states.specs.declared.run.Claim.{Claim};
ghost use Rattle.run_states.specs.Reasons.{resolved_name};
ghost use Rattle.run_states.specs.Rows.{Row, is_unscheduled, is_resolved, is_running_at, scheduled, exceeded};
ghost use Rattle.run_states.specs.Moves.{claimed, reclaimed, resolved, expired, canceled, run_again};
ghost use Rattle.run_states.specs.Later.{RowLater, RowsLater};
ghost use Rattle.run_states.specs.Serving.{was_completed, serves};

use task_types::definitions_cross_threads;

/// Whatever happens to a task, its runs stay, made as they were made, with their claims, of which only the end moves, and once they have
/// an outcome unchanged.
pub fn runs_stay()
    ensures scheduled { (number at : ℕ) (row : Row) → RowLater row (scheduled number at row) }
    ensures claimed { (claim : Claim) (row : Row) → RowLater row (claimed claim row) }
    ensures reclaimed { (run moment : ℕ) (row : Row) → RowLater row (reclaimed run moment row) }
    ensures resolved { (run : ℕ) (reason : ReasonResolved) (number at : ℕ) (row : Row) → RowLater row (resolved run reason number at row) }
    ensures expired { (number at : ℕ) (row : Row) → RowLater row (expired number at row) }
    ensures exceeded { (at : ℕ) (row : Row) → RowLater row (exceeded at row) }
    ensures canceled { (at : ℕ) (row : Row) → RowLater row (canceled at row) }
    ensures rerun { (number at : ℕ) (row : Row) → RowLater row (run_again number at row) }
{}

/// A task whose deadline came is resolved.
pub fn a_deadline_resolves()
    ensures { (at : ℕ) (row : Row) → is_resolved (exceeded at row) ≡ true }
{}

/// What is later than something later is later too.
pub fn later_goes_on()
    ensures same { (rows : List Row) → RowsLater rows rows }
    ensures on { (first next last : List Row) → RowsLater first next → RowsLater next last → RowsLater first last }
{}

/// The reasons for which a run ends have names of their own, so one that is compared by its name is compared.
pub fn reasons_have_names_of_their_own()
    ensures { (a b : ReasonResolved) → resolved_name a ≡ resolved_name b → a ≡ b }
{}

/// What a task serves those that wait for it, nothing takes back. (A resolved task has no running run, so that no run of it is reported.)
pub fn what_is_served_stays()
    ensures later { (before after : Row) → RowLater before after → was_completed before ≡ true → was_completed after ≡ true }
    ensures claimed { (needs : Requires) (claim : Claim) (row : Row) → serves needs row ≡ true → serves needs (claimed claim row) ≡ true }
    ensures reclaimed { (needs : Requires) (run moment : ℕ) (row : Row) → serves needs row ≡ true
        → serves needs (reclaimed run moment row) ≡ true }
    ensures resolved { (needs : Requires) (run : ℕ) (reason : ReasonResolved) (number at : ℕ) (row : Row)
        → (is_resolved row ≡ true → is_running_at run row ≡ false) → serves needs row ≡ true
        → serves needs (resolved run reason number at row) ≡ true }
    ensures expired { (needs : Requires) (number at : ℕ) (row : Row) → serves needs row ≡ true → serves needs (expired number at row) ≡ true }
    ensures exceeded { (needs : Requires) (at : ℕ) (row : Row) → serves needs row ≡ true → serves needs (exceeded at row) ≡ true }
    ensures canceled { (needs : Requires) (at : ℕ) (row : Row) → serves needs row ≡ true → serves needs (canceled at row) ≡ true }
    ensures rerun { (needs : Requires) (number at : ℕ) (row : Row) → serves needs row ≡ true → serves needs (run_again number at row) ≡ true }
{}

/// That a task is scheduled changes nothing that it serves; and where it is unscheduled, it serves nobody.
pub fn a_schedule_serves_nobody()
    ensures same { (needs : Requires) (number at : ℕ) (row : Row) → serves needs (scheduled number at row) ≡ serves needs row }
    ensures none { (needs : Requires) (row : Row) → is_unscheduled row ≡ true → serves needs row ≡ false }
{}

/// The row of a task may go to another thread.
pub fn rows_cross_threads()
    ensures sent { IsSend the_row }
{
    definitions_cross_threads();
}
