//! Where the right sides of operators end, so that one that is not evaluated is passed over at once.
ghost use Rattle.std.specs.Prelude.{◌≡◌, IfOk, OnOk, reverse};
ghost use Rattle.jsone_eval.specs.Ends.{AreEnds, met, place_in};

use jsone_expr::nodes::Node;
use std::alloc::{AllocError, Global};

/// Walking from the end of a tree's nodes, keeps the places behind the right sides that are not begun yet, the innermost last.
fn meet(places: &mut Vec<usize>, node: Node, place: usize) -> Result<(), AllocError>
    ensures { OnOk result (reverse places.new.items ≡ met node place (reverse places.old.items)) }
{
    match node {
        Node::Left(_) => {
            places.pop();
            Ok(())
        }
        Node::Binary(_) => {
            places.push(place)?;
            Ok(())
        }
        _ => Ok(()),
    }
}

/// The place behind the innermost of them, or else the number of all nodes.
fn innermost(places: &[usize], count: usize) -> usize
    ensures { result ≡ place_in count (reverse places.now) 0 }
{
    match places.last() {
        Some(place) => *place,
        None => count,
    }
}

/// Of each node the place behind the right side that begins behind it, which is passed over where the left side decides.
pub fn ends_of(alloc: Global, nodes: &[Node]) -> Result<Vec<usize>, AllocError>
    ensures { IfOk result (λ ends. AreEnds nodes.now ends.items) }
{
    let mut ends = Vec::with_capacity(alloc, nodes.len())?;
    let mut places = Vec::new(alloc);
    let mut at = nodes.len();
    while at > 0 {
        at -= 1;
        ends.push(innermost(&places, nodes.len()))?;
        meet(&mut places, nodes[at], at + 1)?;
    }
    ends.reverse();
    Ok(ends)
}
