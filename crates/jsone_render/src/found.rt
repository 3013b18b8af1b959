//! What a text is as an expression.
ghost use Rattle.std.specs.Prelude.{IfOk};
ghost use Rattle.jsone_render.specs.Readings.{IsFound};

use jsone_eval::ends_of;
use jsone_expr::nodes::Node;
use jsone_expr::{ParseFault, Tree, parse};
use std::alloc::{AllocError, Global};

/// What a text is as an expression.
#[derive(Drop)]
pub(crate) enum Found {
    /// The nodes of its tree, and where the right sides end that may be passed over.
    Tree(Vec<Node>, Vec<usize>),
    TooDeep,
    NoTree,
}

/// What the text is as an expression.
pub(crate) fn find(alloc: Global, source: &[u8]) -> Result<Found, AllocError>
    ensures { IfOk result (IsFound source.now) }
{
    match parse(alloc, source) {
        Ok(tree) => {
            let Tree { text: _, nodes } = tree;
            let ends = ends_of(alloc, &nodes)?;
            Ok(Found::Tree(nodes, ends))
        }
        Err(ParseFault::Syntax(_)) => Ok(Found::NoTree),
        Err(ParseFault::TooDeep) => Ok(Found::TooDeep),
        Err(ParseFault::NoMemory) => Err(AllocError),
    }
}
