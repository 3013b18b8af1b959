//! The least of the rows that stand at places, found without a walk over them.
ghost use Rattle.std.specs.Prelude.{◌≡◌, ℕ, ◌+◌, ◌*◌, ◌≤◌, ◌<◌, [], None, Some, IfSome, IfOk, OnOk, length, replicate, slice_set};
ghost use Rattle.dep_graph.specs.Trees.{lesser, node_at, leaves_of, IsTree};

use std::alloc::{AllocError, Global};
use std::marker::Model;

/// Rows, each at a place, or none there.
///
/// The places stand in the second half of an array, and before them each pair has the lesser of its two above it: those at 2 n and
/// 2 n + 1 have it at n. So the least of all is at 1.
#[derive(Drop)]
pub(crate) struct Least {
    nodes: Vec<Option<u32>>,
}

impl Model for Least {
    ghost use Rattle.std.specs.Prelude.{List, Option, ℕ};
    ghost use Rattle.dep_graph.specs.Trees.{leaves_of, IsTree};

    ghost Value = { List (Option ℕ) };

    ghost view = { λ l. leaves_of l.nodes.items };

    ghost invariant = { λ l. IsTree l.nodes.items };
}

impl Least {
    /// No places. It takes no memory.
    pub(crate) fn new(alloc: Global) -> Self
        ensures { result ≡ [] }
    {
        Least {
            nodes: Vec::new(alloc),
        }
    }

    /// How many places there are.
    fn places(&self) -> usize
        ensures { result ≡ length self.now }
    {
        self.nodes.len() / 2
    }

    /// Makes so many places at least. What stands at those that are there stays, and nothing stands at those that are new.
    pub(crate) fn widen(&mut self, alloc: Global, places: usize) -> Result<(), AllocError>
        ensures kept { (place : ℕ) → node_at self.new place ≡ node_at self.old place }
        ensures more { length self.old ≤ length self.new }
        ensures ok { OnOk result (places ≤ length self.new) }
    {
        if places <= self.places() {
            return Ok(());
        }
        self.nodes = wider(alloc, &self.nodes, places)?;
        Ok(())
    }

    /// Lets this row stand at a place, or none.
    pub(crate) fn put(&mut self, place: usize, row: Option<u32>)
        requires { place < length self.old }
        ensures { self.new ≡ slice_set self.old place row }
    {
        let leaf = self.places() + place;
        put(&mut self.nodes, leaf, row);
    }

    /// The least of the rows.
    pub(crate) fn least(&self) -> Option<u32>
        ensures some { IfSome result (λ least. (place : ℕ) × (node_at self.now place ≡ Some least)) }
        ensures least { (place row : ℕ) → node_at self.now place ≡ Some row → (least : ℕ) × (result ≡ Some least) × (least ≤ row) }
    {
        top(&self.nodes)
    }
}

/// What stands at the top of a tree.
fn top(nodes: &[Option<u32>]) -> Option<u32>
    ensures { result ≡ node_at nodes.now 1 }
{
    nodes.get(1).copied().unwrap_or(None)
}

/// A tree of twice as many places, and of so many at least.
fn wider(
    alloc: Global,
    nodes: &[Option<u32>],
    places: usize,
) -> Result<Vec<Option<u32>>, AllocError>
    requires { IsTree nodes.now }
    ensures tree { IfOk result (λ tree. IsTree tree.items) }
    ensures wide { IfOk result (λ tree. (2 * places ≤ length tree.items) × (length nodes.now ≤ length tree.items)) }
    ensures kept { IfOk result (λ tree. (place : ℕ) → node_at (leaves_of tree.items) place ≡ node_at (leaves_of nodes.now) place) }
{
    let half = nodes.len() / 2;
    let wide = places.max(nodes.len());
    let mut tree = empty(alloc, wide)?;
    for place in 0..half {
        put(&mut tree, wide + place, nodes[half + place]);
    }
    Ok(tree)
}

/// A tree of so many places where nothing stands.
fn empty(alloc: Global, places: usize) -> Result<Vec<Option<u32>>, AllocError>
    ensures { IfOk result (λ tree. tree.items ≡ replicate (places * 2) None) }
{
    let Some(len) = places.checked_mul(2) else {
        return Err(AllocError);
    };
    let mut nodes = Vec::new(alloc);
    nodes.resize(len, None)?;
    Ok(nodes)
}

/// Lets this row stand at a leaf of the tree, or none, and so in what is above it.
fn put(nodes: &mut Vec<Option<u32>>, leaf: usize, row: Option<u32>)
    requires leaf { (0 < leaf) × (leaf < length nodes.old.items) × (length nodes.old.items ≤ 2 * leaf) }
    requires tree { IsTree nodes.old.items }
    ensures tree { IsTree nodes.new.items }
    ensures long { length nodes.new.items ≡ length nodes.old.items }
    ensures leaves { (k : ℕ) → length nodes.old.items ≤ 2 * k → node_at nodes.new.items k ≡ node_at (slice_set nodes.old.items leaf row) k }
{
    nodes[leaf] = row;
    let mut at = leaf;
    while at > 1 {
        at /= 2;
        nodes[at] = lesser(nodes[2 * at], nodes[2 * at + 1]);
    }
}

/// The lesser of the two.
fn lesser(one: Option<u32>, other: Option<u32>) -> Option<u32>
    ensures { result ≡ lesser one other }
{
    match (one, other) {
        (Some(row), Some(held)) => Some(row.min(held)),
        (Some(row), None) => Some(row),
        (None, held) => held,
    }
}
