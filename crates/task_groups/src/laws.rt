//! What follows from the definitions. The functions do nothing: their contracts are laws.
ghost use Rattle.std.specs.Prelude.{◌≡◌, ◌≢◌, ◌<◌, ◌≤◌, ℕ, List, [], ◌∷◌, ◌++◌, Option, Some, None, length};
ghost use Rattle.std.specs.List.{AllPairs};
ghost use Rattle.task_groups.specs.Members.{TaskGroup, group_with, rows_of, kept_scheduler, joined};
ghost use Rattle.task_groups.specs.Pages.{rows_after, page_rows, next_token, pages};

/// A page, and what comes behind it, are what comes behind its token; and so the pages of a list, put together, are the whole list: there
/// are as many as the list has rows at most.
pub fn pages_are_the_whole_list()
    ensures page { (after : Option ℕ) (limit : ℕ) (rows : List ℕ) → AllPairs (λ x y. x < y) rows
        → rows_after after rows ≡ page_rows after limit rows ++ rows_after (next_token after limit rows) rows }
    ensures whole { (count limit : ℕ) (after : Option ℕ) (rows : List ℕ) → AllPairs (λ x y. x < y) rows → 0 < limit → length rows ≤ count
        → pages count after limit rows ≡ rows_after after rows }
{}

/// A task that joins a group comes last in it; the scheduler that the group has stays, or is that of its first task; and no other group
/// changes.
pub fn a_task_joins_its_group()
    ensures last { (id scheduler : List ℕ) (row : ℕ) (groups : List TaskGroup)
        → rows_of id (joined id scheduler row groups) ≡ rows_of id groups ++ row ∷ [] }
    ensures scheduler { (id scheduler : List ℕ) (row : ℕ) (groups : List TaskGroup) (kept : List ℕ) → kept_scheduler id groups ≡ Some kept
        → kept_scheduler id (joined id scheduler row groups) ≡ Some kept }
    ensures first { (id scheduler : List ℕ) (row : ℕ) (groups : List TaskGroup) → kept_scheduler id groups ≡ None
        → kept_scheduler id (joined id scheduler row groups) ≡ Some scheduler }
    ensures others { (id other scheduler : List ℕ) (row : ℕ) (groups : List TaskGroup) → other ≢ id
        → group_with other (joined id scheduler row groups) ≡ group_with other groups }
{}
