//! Ranks of roles that rise along no parameter edge: a role lies on no cycle if those of all its edges fall.
ghost use Rattle.std.specs.Prelude.{◌≡◌, ℕ, ◌+◌, ◌-◌, ◌<◌, ◌≤◌, IfOk, IsTrue, MatchOption, length, slice_index, slice_index_or};
ghost use Rattle.role_expand.specs.Index.{AreLinks, AreRising};
ghost use Rattle.role_expand.specs.Marks.{rank_of, bound_of, AreTopsAbove, AreTopsBelow, Falls};
ghost use Rattle.role_expand.specs.declared.index.RoleKey.{RoleKey};

use crate::index::RoleKey;
use std::alloc::{AllocError, Global};

/// The rank of a place, 0 for those behind all roles.
fn rank_at(ranks: &[usize], place: usize) -> usize
    ensures { result ≡ slice_index ranks.now place }
{
    match ranks.get(place) {
        Some(rank) => *rank,
        None => 0,
    }
}

/// The greater of a rank and of the top where the link leads, if it leads anywhere.
fn top_of(tops: &[usize], link: usize, own: usize) -> usize
    requires { link ≤ length tops.now }
    ensures own { own ≤ result }
    ensures linked { 0 < link → slice_index tops.now (link - 1) ≤ result }
{
    if link == 0 || tops[link - 1] < own {
        return own;
    }
    tops[link - 1]
}

/// For each mark the greatest rank of it and of the marks with which it begins before it.
fn tops_above(
    alloc: Global,
    marks: &[RoleKey],
    links: &[usize],
    ranks: &[usize],
) -> Result<Vec<usize>, AllocError>
    requires as_long { length links.now ≡ length marks.now }
    requires linked { AreLinks marks.now links.now }
    ensures len { IfOk result (λ tops. length tops.items ≡ length marks.now) }
    ensures tops { IfOk result (λ tops. AreTopsAbove marks.now ranks.now tops.items) }
{
    let mut tops: Vec<usize> = Vec::new(alloc);
    for at in 0..marks.len() {
        let own = rank_at(ranks, marks[at].place);
        tops.push(top_of(&tops, links[at], own))?;
    }
    Ok(tops)
}

/// The ranks of the marks.
fn own_ranks(alloc: Global, marks: &[RoleKey], ranks: &[usize]) -> Result<Vec<usize>, AllocError>
    ensures len { IfOk result (λ own. length own.items ≡ length marks.now) }
    ensures own { IfOk result (λ own. (j : ℕ) (d : RoleKey) → j < length marks.now
        → rank_of ranks.now (slice_index_or marks.now j d) ≡ slice_index own.items j) }
{
    let mut own = Vec::new(alloc);
    for at in 0..marks.len() {
        own.push(rank_at(ranks, marks[at].place))?;
    }
    Ok(own)
}

/// Makes the number at a place at least this one.
fn raise(tops: &mut Vec<usize>, place: usize, top: usize)
    requires { place < length tops.old.items }
    ensures len { length tops.new.items ≡ length tops.old.items }
    ensures there { top ≤ slice_index tops.new.items place }
    ensures grows { (k : ℕ) → slice_index tops.old.items k ≤ slice_index tops.new.items k }
{
    if tops[place] < top {
        tops[place] = top;
    }
}

/// For each mark the greatest rank of it and of the later marks that begin with it.
fn tops_below(
    alloc: Global,
    marks: &[RoleKey],
    links: &[usize],
    ranks: &[usize],
) -> Result<Vec<usize>, AllocError>
    requires as_long { length links.now ≡ length marks.now }
    requires linked { AreLinks marks.now links.now }
    ensures len { IfOk result (λ tops. length tops.items ≡ length marks.now) }
    ensures tops { IfOk result (λ tops. AreTopsBelow marks.now ranks.now tops.items) }
{
    let mut tops = own_ranks(alloc, marks, ranks)?;
    let mut at = marks.len();
    while at > 0 {
        at -= 1;
        let top = tops[at];
        if links[at] > 0 {
            raise(&mut tops, links[at] - 1, top);
        }
    }
    Ok(tops)
}

/// Whether both tops are less than the rank and the slack of the role whose text has this place, if it is one of a text.
fn is_less_than_text(
    place: usize,
    ranks: &[usize],
    slack: &[usize],
    above: usize,
    below: usize,
) -> bool
    ensures { IsTrue result → length ranks.now ≤ place
        → (above < slice_index ranks.now (place - length ranks.now) + slice_index slack.now (place - length ranks.now))
        × (below < slice_index ranks.now (place - length ranks.now) + slice_index slack.now (place - length ranks.now)) }
{
    if place < ranks.len() {
        return true;
    }
    let role = place - ranks.len();
    let bound = rank_at(ranks, role).saturating_add(rank_at(slack, role));
    above < bound && below < bound
}

/// Gives slack to a role.
fn loosen(slack: &mut Vec<usize>, role: usize)
    ensures { ((i : ℕ) → slice_index slack.old.items i ≤ 1) → (i : ℕ) → slice_index slack.new.items i ≤ 1 }
{
    if role < slack.len() {
        slack[role] = 1;
    }
}

/// A slack of 1 for each role of which a text's tops are not less than its rank, and 0 for the others.
fn slack_for(
    alloc: Global,
    marks: &[RoleKey],
    ranks: &[usize],
    above: &[usize],
    below: &[usize],
) -> Result<Vec<usize>, AllocError>
    requires above_len { length above.now ≡ length marks.now }
    requires below_len { length below.now ≡ length marks.now }
    ensures { IfOk result (λ slack. (i : ℕ) → slice_index slack.items i ≤ 1) }
{
    let mut slack = vec![in alloc; 0; ranks.len()]?;
    for at in 0..marks.len() {
        let place = marks[at].place;
        if !is_less_than_text(place, ranks, [].as_slice(), above[at], below[at]) {
            loosen(&mut slack, place.saturating_sub(ranks.len()));
        }
    }
    Ok(slack)
}

/// Whether each text's tops are less than the rank and the slack of the role whose text it is.
fn all_fall(
    marks: &[RoleKey],
    ranks: &[usize],
    slack: &[usize],
    above: &[usize],
    below: &[usize],
) -> bool
    requires above_len { length above.now ≡ length marks.now }
    requires below_len { length below.now ≡ length marks.now }
    ensures { IsTrue result → (k : ℕ) (d : RoleKey) → k < length marks.now
        → length ranks.now ≤ (slice_index_or marks.now k d).place
        → (slice_index above.now k < bound_of ranks.now slack.now (slice_index_or marks.now k d))
        × (slice_index below.now k < bound_of ranks.now slack.now (slice_index_or marks.now k d)) }
{
    for at in 0..marks.len() {
        if !is_less_than_text(marks[at].place, ranks, slack, above[at], below[at]) {
            return false;
        }
    }
    true
}

/// A slack of 0 or 1 for each role, where ranks are known to rise along no edge: those without slack have edges along which they
/// fall.
pub(crate) fn slack_of(
    alloc: Global,
    marks: &[RoleKey],
    links: &[usize],
    ranks: &[usize],
) -> Result<Option<Vec<usize>>, AllocError>
    requires rising { AreRising marks.now }
    requires as_long { length links.now ≡ length marks.now }
    requires linked { AreLinks marks.now links.now }
    ensures { IfOk result (λ found. MatchOption found (Unit {0})
        (λ slack. ((i : ℕ) → slice_index slack.items i ≤ 1) × Falls marks.now ranks.now slack.items)) }
{
    let above = tops_above(alloc, marks, links, ranks)?;
    let below = tops_below(alloc, marks, links, ranks)?;
    let slack = slack_for(alloc, marks, ranks, &above, &below)?;
    if all_fall(marks, ranks, &slack, &above, &below) {
        return Ok(Some(slack));
    }
    Ok(None)
}
