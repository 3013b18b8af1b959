//! Ranks for roles, by two searches in depth: one along the parameter edges, which leaves each role after all that it leads to, and
//! one against them, from the roles in the order that is the reverse of that (Kosaraju's algorithm). Roles that lie on one cycle are
//! of one rank, and edges to roles of another rank lead down.
//!
//! No contract says so: `slack_of` sees whether they do.
ghost use Rattle.std.specs.Prelude.{◌≡◌, ◌≤◌, length, slice_index};

use crate::index::RoleKey;
use std::alloc::{AllocError, Global};

/// The state of a search. Marks are told by one more than their place, and 0 is none.
#[derive(Drop)]
struct Search {
    /// How many roles there are.
    roles: usize,
    /// For each mark the last one that begins with it.
    ends: Vec<usize>,
    /// For each mark itself, or once it is met one with which it begins, up to which all are met.
    above: Vec<usize>,
    /// For each mark itself, or once it is met one behind it before which all are met.
    behind: Vec<usize>,
    /// For each role the first of its texts that is left.
    texts: Vec<usize>,
    /// For each mark the next text of its role.
    next: Vec<usize>,
    /// For each role 1 once it is met.
    met: Vec<usize>,
    /// The roles on the way.
    way: Vec<usize>,
    /// The roles that are done, in the order in which they were left.
    left: Vec<usize>,
}

/// The number at a place, or 0.
pub(crate) fn get(numbers: &[usize], at: usize) -> usize
    ensures { result ≡ slice_index numbers.now at }
{
    match numbers.get(at) {
        Some(number) => *number,
        None => 0,
    }
}

/// Writes the number at a place, if there is one.
fn put(numbers: &mut [usize], at: usize, number: usize)
    ensures { length numbers.new ≡ length numbers.old }
{
    if at < numbers.len() {
        numbers[at] = number;
    }
}

/// Follows the numbers down to one that is its own, halving the way.
fn lowest(numbers: &mut [usize], from: usize) -> usize
    ensures { length numbers.new ≡ length numbers.old }
{
    let mut at = from;
    while get(numbers, at) < at {
        let next = get(numbers, at);
        let further = get(numbers, next);
        put(numbers, at, further);
        at = next;
    }
    at
}

/// Follows the numbers up to one that is its own, halving the way.
fn highest(numbers: &mut [usize], from: usize) -> usize
    ensures { length numbers.new ≡ length numbers.old }
{
    let mut at = from;
    while get(numbers, at) > at {
        let next = get(numbers, at);
        let further = get(numbers, next);
        if further > next {
            put(numbers, at, further);
        }
        at = next;
    }
    at
}

/// The numbers from 0 to before this one.
fn count_up(alloc: Global, end: usize) -> Result<Vec<usize>, AllocError> {
    let mut numbers = Vec::new(alloc);
    for number in 0..end {
        numbers.push(number)?;
    }
    Ok(numbers)
}

impl Search {
    /// A search that has met nothing.
    fn new(
        alloc: Global,
        places: &[usize],
        links: &[usize],
        roles: usize,
    ) -> Result<Search, AllocError> {
        let numbers = places.len().saturating_add(1);
        let mut search = Search {
            roles,
            ends: count_up(alloc, numbers)?,
            above: count_up(alloc, numbers)?,
            behind: count_up(alloc, numbers.saturating_add(1))?,
            texts: vec![in alloc; 0; roles]?,
            next: vec![in alloc; 0; numbers]?,
            met: vec![in alloc; 0; roles]?,
            way: Vec::new(alloc),
            left: Vec::new(alloc),
        };
        search.find_texts(places);
        search.find_ends(links);
        Ok(search)
    }

    /// Lists the texts of each role.
    fn find_texts(&mut self, places: &[usize]) {
        for at in 0..places.len() {
            let place = places[at];
            if place >= self.roles {
                let role = place - self.roles;
                let next = get(&self.texts, role);
                put(&mut self.next, at + 1, next);
                put(&mut self.texts, role, at + 1);
            }
        }
    }

    /// Finds for each mark the last one that begins with it.
    fn find_ends(&mut self, links: &[usize]) {
        let mut at = links.len();
        while at > 0 {
            let link = links[at - 1];
            let end = get(&self.ends, at);
            if get(&self.ends, link) < end {
                put(&mut self.ends, link, end);
            }
            at -= 1;
        }
    }

    /// Meets a mark, and the role whose front it is.
    fn meet(&mut self, places: &[usize], links: &[usize], mark: usize) -> Result<(), AllocError> {
        let Some(at) = mark.checked_sub(1) else {
            return Ok(());
        };
        put(&mut self.above, mark, get(links, at));
        put(&mut self.behind, mark, mark.saturating_add(1));
        match places.get(at) {
            Some(place) => self.enter(*place),
            None => Ok(()),
        }
    }

    /// Goes on to a role, if it is one that has not been met.
    fn enter(&mut self, role: usize) -> Result<(), AllocError> {
        if role < self.roles && get(&self.met, role) == 0 {
            put(&mut self.met, role, 1);
            self.way.push(role)?;
        }
        Ok(())
    }

    /// Goes back from the last role on the way.
    fn leave(&mut self, role: usize) -> Result<(), AllocError> {
        self.left.push(role)?;
        self.way.pop();
        Ok(())
    }

    /// Goes from the last role on the way to one that has not been met, or back.
    fn step(&mut self, places: &[usize], links: &[usize], role: usize) -> Result<(), AllocError> {
        let text = get(&self.texts, role);
        if text == 0 {
            return self.leave(role);
        }
        let above = lowest(&mut self.above, text);
        if above > 0 {
            return self.meet(places, links, above);
        }
        let behind = highest(&mut self.behind, text);
        if behind <= get(&self.ends, text) {
            return self.meet(places, links, behind);
        }
        let next = get(&self.next, text);
        put(&mut self.texts, role, next);
        Ok(())
    }

    /// Goes on until no role is left on the way.
    fn run(&mut self, places: &[usize], links: &[usize]) -> Result<(), AllocError> {
        let most = places.len().saturating_add(1).saturating_mul(3);
        for _ in 0..most {
            match self.way.last() {
                None => return Ok(()),
                Some(last) => {
                    let role = *last;
                    self.step(places, links, role)?;
                }
            }
        }
        Ok(())
    }

    /// Goes through all that a role leads to and that has not been met.
    fn visit(&mut self, places: &[usize], links: &[usize], role: usize) -> Result<(), AllocError> {
        self.enter(role)?;
        self.run(places, links)
    }

    /// Goes through all roles in turn.
    fn visit_all(&mut self, places: &[usize], links: &[usize]) -> Result<(), AllocError> {
        for role in 0..self.roles {
            self.visit(places, links, role)?;
        }
        Ok(())
    }

    /// Goes through the roles from the last of these to the first, and gives a rank to those that each leads to.
    fn rank_all(
        &mut self,
        places: &[usize],
        links: &[usize],
        turn: &[usize],
        ranks: &mut [usize],
    ) -> Result<(), AllocError> {
        for at in 0..turn.len() {
            let from = self.left.len();
            self.visit(places, links, turn[turn.len() - 1 - at])?;
            rank_from(ranks, &self.left, from, self.roles.saturating_sub(at));
        }
        Ok(())
    }
}

/// The places of the marks.
fn places_of(alloc: Global, marks: &[RoleKey]) -> Result<Vec<usize>, AllocError> {
    let mut places = Vec::new(alloc);
    for mark in marks {
        places.push(mark.place)?;
    }
    Ok(places)
}

/// The same marks for a search against the edges: fronts are taken as texts, and texts as fronts.
fn turned(alloc: Global, places: &[usize], roles: usize) -> Result<Vec<usize>, AllocError> {
    let mut others = Vec::new(alloc);
    for place in places {
        match place.checked_sub(roles) {
            Some(role) => others.push(role)?,
            None => others.push(place.saturating_add(roles))?,
        }
    }
    Ok(others)
}

/// The roles in the order in which a search along the edges leaves them.
fn left_in_turn(
    alloc: Global,
    places: &[usize],
    links: &[usize],
    roles: usize,
) -> Result<Vec<usize>, AllocError> {
    let mut search = Search::new(alloc, places, links, roles)?;
    match search.visit_all(places, links) {
        Ok(()) => Ok(search.left),
        Err(error) => {
            drop(search);
            Err(error)
        }
    }
}

/// Gives the rank to the roles that stand from a place on.
fn rank_from(ranks: &mut [usize], roles: &[usize], from: usize, rank: usize)
    ensures { length ranks.new ≡ length ranks.old }
{
    for at in from..roles.len() {
        put(ranks, roles[at], rank);
    }
}

/// The ranks by a search that begins with the last of these roles.
fn ranks_by(
    alloc: Global,
    places: &[usize],
    links: &[usize],
    roles: usize,
    turn: &[usize],
) -> Result<Vec<usize>, AllocError> {
    let mut ranks = vec![in alloc; 0; roles]?;
    let mut search = Search::new(alloc, places, links, roles)?;
    let ranked = search.rank_all(places, links, turn, &mut ranks);
    drop(search);
    ranked?;
    Ok(ranks)
}

/// A rank for each role, the same for roles that lie on one cycle: along an edge it stays or falls.
pub(crate) fn rank_roles(
    alloc: Global,
    marks: &[RoleKey],
    links: &[usize],
    roles: usize,
) -> Result<Vec<usize>, AllocError> {
    let places = places_of(alloc, marks)?;
    let turn = left_in_turn(alloc, &places, links, roles)?;
    let places = turned(alloc, &places, roles)?;
    ranks_by(alloc, &places, links, roles, &turn)
}
