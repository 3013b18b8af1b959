//! A page of a group's tasks.
ghost use Rattle.std.specs.Prelude.{◌≡◌, ◌<◌, ◌≤◌, drop, length, Some, None};
ghost use Rattle.std.specs.List.{AllPairs, last_or};
ghost use Rattle.task_groups.specs.Pages.{rows_after, page_rows, has_more};

/// Some tasks of a group, in the order of creation.
#[derive(Drop)]
pub struct Page<'a> {
    /// The rows of the tasks.
    pub rows: &'a [u32],
    /// Whether the group has tasks behind these.
    pub more: bool,
}

/// The page of so many rows at most, behind the row of a token where there is one.
pub(crate) fn page_of<'a>(rows: &'a [u32], after: Option<u32>, limit: usize) -> Page<'a>
    requires { AllPairs (λ x y. x < y) rows.now }
    ensures rows { result.rows.now ≡ page_rows after limit rows.now }
    ensures more { result.more ≡ has_more after limit rows.now }
{
    let rest = rows_after(rows, after);
    if rest.len() > limit {
        Page {
            rows: &rest[..limit],
            more: true,
        }
    } else {
        Page {
            rows: rest,
            more: false,
        }
    }
}

/// The rows behind the row of a token, where there is one.
fn rows_after<'a>(rows: &'a [u32], after: Option<u32>) -> &'a [u32]
    requires { AllPairs (λ x y. x < y) rows.now }
    ensures { result.now ≡ rows_after after rows.now }
{
    match after {
        None => rows,
        Some(token) => &rows[place_behind(rows, token)..],
    }
}

/// How many rows, from the first on, are not above the token.
fn place_behind(rows: &[u32], token: u32) -> usize
    requires { AllPairs (λ x y. x < y) rows.now }
    ensures within { result ≤ length rows.now }
    ensures rest { drop result rows.now ≡ rows_after (Some token) rows.now }
{
    rows.partition_point(|row| *row <= token)
}

/// The last row, if there is one.
pub(crate) fn last_of(rows: &[u32]) -> Option<u32>
    ensures { result ≡ last_or None rows.now }
{
    rows.last().copied()
}
