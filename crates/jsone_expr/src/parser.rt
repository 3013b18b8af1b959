//! Parsing: the tree of a text.
ghost use Rattle.std.specs.Prelude.{◌≡◌, ℕ, IfOk, Err};
ghost use Rattle.jsone_expr.specs.Trees.{Tree as Shape};
ghost use Rattle.jsone_expr.specs.Grammar.{IsExpression, IsBadPlace};
ghost use Rattle.jsone_expr.specs.Postfix.{postfix};
ghost use Rattle.jsone_expr.specs.Texts.{token_list, place_of, IsBadByte, IsParsed, IsTooDeep};

use crate::depths::deepest;
use crate::lexer::tokens;
use crate::machine::Reader;
use crate::nodes::Node;
use crate::tokens::Piece;
use std::alloc::Global;

/// The tree of a text, written out node by node, each after its children. Names, numbers and texts are places in the text.
#[derive(Drop)]
pub struct Tree<'a> {
    pub text: &'a [u8],
    pub nodes: Vec<Node>,
}

/// Why a text has no tree that is at most 64 deep.
#[derive(Clone, Copy, Debug, PartialEq, Eq)]
pub enum ParseFault {
    /// The text is no expression: the first token begins here with which it can no longer become one, or the text ends here, too early.
    Syntax(usize),
    /// The text is an expression that is more than 64 deep.
    TooDeep,
    NoMemory,
}

/// Why tokens have no tree.
#[derive(Clone, Copy)]
enum ReadFault {
    /// The tokens before this one can go on to an expression, and with it they no longer can; or they end too early.
    Syntax(usize),
    NoMemory,
}

/// The nodes of the tree that the tokens are, each after its children.
fn read_tokens(alloc: Global, pieces: &[Piece]) -> Result<Vec<Node>, ReadFault>
    ensures tree { IfOk result (λ nodes. (t : Shape) × IsExpression (token_list pieces.now) t × (nodes.items ≡ postfix t)) }
    ensures bad_place { (i : ℕ) → result ≡ Err (ReadFault.Syntax i) → IsBadPlace (token_list pieces.now) i }
{
    let mut reader = Reader::new(alloc);
    let mut at = 0;
    while at < pieces.len() {
        match reader.read(pieces[at].token) {
            Ok(true) => at += 1,
            Ok(false) => return Err(ReadFault::Syntax(at)),
            Err(_) => return Err(ReadFault::NoMemory),
        }
    }
    match reader.finish() {
        Ok(Some(nodes)) => Ok(nodes),
        Ok(None) => Err(ReadFault::Syntax(at)),
        Err(_) => Err(ReadFault::NoMemory),
    }
}

/// Where the token begins; behind the last one, where the text ends.
fn place_of(text: &[u8], pieces: &[Piece], token: usize) -> usize
    ensures { result ≡ place_of text.now pieces.now token }
{
    match pieces.get(token) {
        Some(piece) => piece.span.from,
        None => text.len(),
    }
}

/// The tree of the text.
pub fn parse<'a>(alloc: Global, text: &'a [u8]) -> Result<Tree<'a>, ParseFault>
    ensures text { IfOk result (λ tree. tree.text.now ≡ text.now) }
    ensures tree { IfOk result (λ tree. IsParsed text.now tree.nodes.items) }
    ensures syntax { (i : ℕ) → result ≡ Err (ParseFault.Syntax i) → IsBadByte text.now i }
    ensures too_deep { result ≡ Err ParseFault.TooDeep → IsTooDeep text.now }
{
    let pieces = match tokens(alloc, text) {
        Ok(pieces) => pieces,
        Err(_) => return Err(ParseFault::NoMemory),
    };
    let nodes = match read_tokens(alloc, &pieces) {
        Ok(nodes) => nodes,
        Err(ReadFault::Syntax(token)) => return Err(ParseFault::Syntax(place_of(
            text, &pieces, token,
        ))),
        Err(ReadFault::NoMemory) => return Err(ParseFault::NoMemory),
    };
    let depth = match deepest(alloc, &nodes) {
        Ok(depth) => depth,
        Err(_) => return Err(ParseFault::NoMemory),
    };
    if depth > 64 {
        return Err(ParseFault::TooDeep);
    }
    Ok(Tree { text, nodes })
}
