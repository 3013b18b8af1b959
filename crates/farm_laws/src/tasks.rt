//! Laws of the tasks of a farm: what falls due, and the changes. The functions do nothing: each contract is a law.
ghost use Rattle.std.specs.Prelude.{◌≡◌, ◌<◌, ◌≤◌, ◌+◌, ◌++◌, ◌&&◌, ℕ, List, Option, max, map, length, is_none, true, false, Some};
ghost use Rattle.run_states.specs.Rows.{Row, claim_due, new_row, scheduled};
ghost use Rattle.run_states.specs.Later.{RowsLater};
ghost use Rattle.task_types.specs.declared.change.Change.{Change};
ghost use Rattle.task_types.specs.declared.change.Creation.{Creation};
ghost use Rattle.task_types.specs.declared.change.Kind.{Kind};
ghost use Rattle.task_types.specs.declared.change.Kind.TheVariants.{Schedule, Rerun};
ghost use Rattle.task_types.specs.declared.choices.Requires.{Requires};
ghost use Rattle.task_types.specs.declared.choices.Requires.TheVariants.{AllCompleted};
ghost use Rattle.task_index.specs.Contents.{Contents, row_with, HaveOwnIds};
ghost use Rattle.task_index.specs.Ready.{id_serves, is_ready, has_ready, settled_row, settled};
ghost use Rattle.task_index.specs.Due.{all_due_moments, is_due, first_due, change_first, resolved_at, advance};
ghost use Rattle.task_index.specs.Changes.{waits_well, creating, may_apply, after_kind, applied};
ghost use Rattle.farm_rows.specs.Waits.{missing_dependency, early_dependency};
ghost use Rattle.task_index.specs.Lists.{listed, behind, page_rows, next_token, pages};
ghost use Rattle.task_index.specs.declared.lists.TaskList.{TaskList};
ghost use Rattle.farm_rows.specs.Starts.{starts, more_starts, starts_once, may_start, starts_by};

/// Settling starts the first task that is ready, again and again, with the number that is next; where none is ready, it changes nothing;
/// and so none is ready afterwards.
pub fn settling_goes_one_by_one()
    ensures first { (contents : Contents) (at : ℕ) → has_ready contents ≡ true → settled contents at
        ≡ settled (record contents { rows = change_first (is_ready contents.rows) (scheduled contents.next at) contents.rows; next = contents.next + 1 }) at }
    ensures idle { (contents : Contents) (at : ℕ) → has_ready contents ≡ false → settled contents at ≡ contents }
    ensures none { (contents : Contents) (at : ℕ) → has_ready (settled contents at) ≡ false }
{}

/// Settling takes no task or run away, and nothing falls due earlier or later by it.
pub fn settling_takes_nothing_away()
    ensures stays { (contents : Contents) (at : ℕ) → RowsLater contents.rows (settled contents at).rows }
    ensures due { (contents : Contents) (at : ℕ) → all_due_moments (settled contents at).rows ≡ all_due_moments contents.rows }
{}

/// Nothing is due after an advance.
pub fn nothing_is_due_after_an_advance()
    ensures { (contents : Contents) (moment : ℕ) → is_due (advance contents moment) moment ≡ false }
{}

/// What falls due first is resolved first, at its own moment, and then the tasks settle; and where nothing is due, only the last moment changes.
pub fn an_advance_goes_turn_by_turn()
    ensures due { (contents : Contents) (moment at : ℕ) → first_due contents moment ≡ Some at
        → advance contents moment ≡ advance (settled (resolved_at contents at) at) moment }
    ensures idle { (contents : Contents) (moment : ℕ) → is_due contents moment ≡ false
        → advance contents moment ≡ record contents { last = max contents.last moment } }
{}

/// No task is ready after an advance, where none was before, nor after any change.
pub fn no_task_is_ready()
    ensures advanced { (contents : Contents) (moment : ℕ) → has_ready contents ≡ false → has_ready (advance contents moment) ≡ false }
    ensures applied { (contents : Contents) (change : Change) → may_apply contents change ≡ true → has_ready (applied contents change) ≡ false }
{}

/// A run is made as its task is scheduled where the tasks settle, one of each that is ready and of no other, and else by the change alone that
/// schedules the task; and no task is scheduled twice.
pub fn a_task_is_scheduled_once()
    ensures due { (contents : Contents) (at : ℕ) → map starts (resolved_at contents at).rows ≡ map starts contents.rows }
    ensures changed { (contents : Contents) (at : ℕ) (kind : Kind) → may_start kind ≡ false
        → map starts (after_kind contents at kind).rows ≡ starts_by kind contents.rows }
    ensures scheduled { (contents : Contents) (at : ℕ) (id : List ℕ) → HaveOwnIds contents.rows
        → map starts (after_kind contents at (Schedule id)).rows ≡ starts_by (Schedule id) contents.rows }
    ensures settled { (contents : Contents) (at : ℕ) → map starts (settled contents at).rows ≡ more_starts (is_ready contents.rows) contents.rows }
    ensures advanced { (contents : Contents) (moment : ℕ) → starts_once contents.rows ≡ true → starts_once (advance contents moment).rows ≡ true }
    ensures applied { (contents : Contents) (change : Change) → starts_once contents.rows ≡ true
        → starts_once (applied contents change).rows ≡ true }
{}

/// What a task serves those that wait for it, no advance takes back, and no rerun; and of a run that completed, nothing does.
pub fn what_is_served_stays()
    ensures completed { (contents : Contents) (change : Change) (id : List ℕ) → id_serves AllCompleted contents.rows id ≡ true
        → id_serves AllCompleted (applied contents change).rows id ≡ true }
    ensures advanced { (needs : Requires) (contents : Contents) (moment : ℕ) (id : List ℕ) → id_serves needs contents.rows id ≡ true
        → id_serves needs (advance contents moment).rows id ≡ true }
    ensures rerun { (needs : Requires) (contents : Contents) (at : ℕ) (task id : List ℕ) → id_serves needs contents.rows id ≡ true
        → id_serves needs (applied contents (record { at = at; kind = Rerun task })).rows id ≡ true }
{}

/// To advance to a moment and then to a later one is to advance to the later one: when ticks come does not matter.
pub fn advances_go_together()
    ensures { (contents : Contents) (early late : ℕ) → early ≤ late → advance (advance contents early) late ≡ advance contents late }
{}

/// Whatever happens, each task is there later in its place, with its definition; each of its runs too, made as it was made, and once it
/// has an outcome unchanged.
pub fn tasks_and_runs_stay()
    ensures advanced { (contents : Contents) (moment : ℕ) → RowsLater contents.rows (advance contents moment).rows }
    ensures applied { (contents : Contents) (change : Change) → RowsLater contents.rows (applied contents change).rows }
{}

/// A task that was created stands, and where it is ready it is pending, with the number that was next (where no other was ready); no task is created under an id that one has; and so each task
/// keeps an id of its own.
pub fn a_task_is_created_once()
    ensures stands { (contents : Contents) (at : ℕ) (creation : Creation) → has_ready contents ≡ false
        → may_apply contents (creating at creation) ≡ true → row_with creation.id (applied contents (creating at creation)).rows
        ≡ Some (settled_row contents at (new_row creation.id creation.definition)) }
    ensures refused { (contents : Contents) (at : ℕ) (creation : Creation) (row : Row) → row_with creation.id contents.rows ≡ Some row
        → may_apply contents (creating at creation) ≡ false }
    ensures advanced { (contents : Contents) (moment : ℕ) → HaveOwnIds contents.rows → HaveOwnIds (advance contents moment).rows }
    ensures applied { (contents : Contents) (change : Change) → HaveOwnIds contents.rows → may_apply contents change ≡ true
        → HaveOwnIds (applied contents change).rows }
{}

/// No change is made while a claim that has ended stands: so a report, like any other change, comes before the end of each claim.
pub fn a_change_comes_before_the_ends_of_claims()
    ensures { (contents : Contents) (change : Change) (id : List ℕ) (row : Row) (end : ℕ) → may_apply contents change ≡ true
        → row_with id contents.rows ≡ Some row → claim_due row ≡ Some end → change.at < end }
{}

/// A task waits well for others exactly where none of them is missing, and none expires too early.
pub fn a_task_waits_well()
    ensures { (creation : Creation) (rows : List Row) → waits_well creation rows
        ≡ (is_none (missing_dependency creation rows) && is_none (early_dependency creation rows)) }
{}

/// A page, and what comes behind it, are what comes behind its token; and so the pages of a list, put together, are the whole list: there are
/// as many as tasks stand at most.
pub fn pages_are_the_whole_list()
    ensures page { (list : TaskList) (after : Option (List ℕ)) (limit : ℕ) (rows : List Row) → HaveOwnIds rows → behind after (listed list rows)
        ≡ page_rows after limit (listed list rows) ++ behind (next_token after limit (listed list rows)) (listed list rows) }
    ensures whole { (list : TaskList) (count limit : ℕ) (after : Option (List ℕ)) (rows : List Row) → HaveOwnIds rows → 0 < limit
        → length rows ≤ count → pages count after limit (listed list rows) ≡ behind after (listed list rows) }
{}
