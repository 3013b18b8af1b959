//! Pages of tasks, by the places at which these stand.
ghost use Rattle.std.specs.Prelude.{◌≡◌, ◌↔◌, ◌+◌, ◌<◌, ◌≤◌, [], All, IfOk, IfSome, IsNone, MatchOption, Some, drop, length, map, nat_lt, slice_get, take};
ghost use Rattle.std.specs.List.{AllPairs};
ghost use Rattle.task_groups.specs.Pages.{page_rows, has_more};
ghost use Rattle.task_index.specs.Listing.{starting_at};

use crate::lists::Page;
use run_states::TaskRow;
use std::alloc::{AllocError, Global};

/// The places of some tasks of a list, in the order of their creation. A place is counted from 0 in that order among all tasks.
#[derive(Drop)]
pub struct PlacePage<'a> {
    /// The places, which rise.
    pub places: &'a [u32],
    /// Whether the list has tasks behind these.
    pub more: bool,
}

/// So many of some places at most, from behind one on, or from the first, where there is none; or none, where there are no places.
pub fn page_behind(places: &[u32], after: Option<u32>, limit: u16) -> Option<PlacePage<'_>>
    requires { AllPairs (λ x y. x < y) places.now }
    ensures none { IsNone result ↔ (places.now ≡ []) }
    ensures places { IfSome result (λ page. page.places.now ≡ page_rows after limit places.now) }
    ensures more { IfSome result (λ page. page.more ≡ has_more after limit places.now) }
{
    if places.is_empty() {
        return None;
    }
    Some(page_from(places, first_behind(after), usize::from(limit)))
}

/// The first place behind this one, or the first of all.
fn first_behind(after: Option<u32>) -> usize
    ensures { MatchOption after (result ≡ 0) (λ place. place + 1 ≡ result) }
{
    match after {
        Some(place) => place as usize + 1,
        None => 0,
    }
}

/// So many of some places at most, from one on.
pub(crate) fn page_from(places: &[u32], start: usize, limit: usize) -> PlacePage<'_>
    requires { AllPairs (λ x y. x < y) places.now }
    ensures places { result.places.now ≡ take limit (starting_at start places.now) }
    ensures more { result.more ≡ nat_lt limit (length (starting_at start places.now)) }
{
    let rest = &places[count_before(places, start)..];
    if rest.len() > limit {
        PlacePage {
            places: &rest[..limit],
            more: true,
        }
    } else {
        PlacePage {
            places: rest,
            more: false,
        }
    }
}

/// How many of some places come before this one.
fn count_before(places: &[u32], start: usize) -> usize
    requires { AllPairs (λ x y. x < y) places.now }
    ensures within { result ≤ length places.now }
    ensures rest { drop result places.now ≡ starting_at start places.now }
{
    places.partition_point(|place| (*place as usize) < start)
}

/// The page of the tasks at these places.
pub(crate) fn page_at<'a>(
    alloc: Global,
    rows: &'a [TaskRow],
    page: PlacePage<'_>,
) -> Result<Page<'a>, AllocError>
    requires { All (λ place. place < length rows.now) page.places.now }
    ensures { IfOk result (λ p. (map Some (map (λ row. row.now) p.rows.items) ≡ map (slice_get rows.now) page.entry.places.now) × (p.more ≡ page.entry.more)) }
{
    let mut found = Vec::with_capacity(alloc, page.places.len())?;
    for place in page.places {
        found.push(&rows[*place as usize])?;
    }
    Ok(Page {
        rows: found,
        more: page.more,
    })
}
