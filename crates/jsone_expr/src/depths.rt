//! How deep a tree is.
ghost use Rattle.std.specs.Prelude.{◌≡◌, [], ◌∷◌, IfOk, OnOk, max, reverse};
ghost use Rattle.jsone_expr.specs.Depths.{top, below, side_top, side_below, deeper, after_node, after_nodes};

use crate::nodes::Node;
use std::alloc::{AllocError, Global};

/// One level more; 65 stands for all that is deeper than 64.
fn deeper(depth: u8) -> u8
    ensures { result ≡ deeper depth }
{
    if depth < 65 { depth + 1 } else { 65 }
}

fn greater(left: u8, right: u8) -> u8
    ensures { result ≡ max left right }
{
    if left < right { right } else { left }
}

fn take(depths: &mut Vec<u8>) -> u8
    ensures top { result ≡ top (reverse depths.old.items) }
    ensures below { reverse depths.new.items ≡ below (reverse depths.old.items) }
{
    match depths.pop() {
        Some(depth) => depth,
        None => 0,
    }
}

/// The depth of a side of a slice.
fn take_side(depths: &mut Vec<u8>, is_there: bool) -> u8
    ensures top { result ≡ side_top is_there (reverse depths.old.items) }
    ensures below { reverse depths.new.items ≡ side_below is_there (reverse depths.old.items) }
{
    if is_there { take(depths) } else { 0 }
}

/// The greater one of the last two depths.
fn take_two(depths: &mut Vec<u8>) -> u8
    ensures top { result ≡ max (top (below (reverse depths.old.items))) (top (reverse depths.old.items)) }
    ensures below { reverse depths.new.items ≡ below (below (reverse depths.old.items)) }
{
    let right = take(depths);
    let left = take(depths);
    greater(left, right)
}

fn take_slice(depths: &mut Vec<u8>, from: bool, to: bool) -> u8
    ensures { result ∷ reverse depths.new.items ≡ after_node (Node.Slice from to) (reverse depths.old.items) }
{
    let end = take_side(depths, to);
    let start = take_side(depths, from);
    let value = take(depths);
    deeper(greater(value, greater(start, end)))
}

/// How deep the node is, whose children are the last depths.
fn depth_of(node: Node, depths: &mut Vec<u8>) -> u8
    ensures { result ∷ reverse depths.new.items ≡ after_node node (reverse depths.old.items) }
{
    match node {
        Node::Number(_) | Node::Text(_) | Node::Literal(_) | Node::Name(_) => 1,
        Node::Unary(_)
        | Node::Group
        | Node::Member(_)
        | Node::Call(_)
        | Node::Items
        | Node::Entries => deeper(take(depths)),
        Node::Left(_) => take(depths),
        Node::Binary(_) | Node::Index => deeper(take_two(depths)),
        Node::Slice(from, to) => take_slice(depths, from, to),
        Node::Begin => 0,
        Node::Item | Node::Field(_) => take_two(depths),
    }
}

/// How deep the tree of these nodes is, or 65 where it is deeper than 64.
pub fn deepest(alloc: Global, nodes: &[Node]) -> Result<u8, AllocError>
    ensures { IfOk result (λ depth. depth ≡ top (after_nodes nodes.now [])) }
{
    let mut depths = Vec::new(alloc);
    for node in nodes {
        let depth = depth_of(*node, &mut depths);
        depths.push(depth)?;
    }
    Ok(take(&mut depths))
}
