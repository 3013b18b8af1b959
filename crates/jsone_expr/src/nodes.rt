//! Trees, written out node by node.
use crate::marks::{Literal, Operator, Sign};
use crate::tokens::{Key, Span, Word};

/// A node of a tree that is written out with its children before it.
#[derive(Clone, Copy)]
pub enum Node {
    Number(Span),
    Text(Span),
    Literal(Literal),
    Name(Word),
    Unary(Sign),
    /// Behind the left side of an operator, where `&&` and `||` may stop.
    Left(Operator),
    Binary(Operator),
    Group,
    Member(Word),
    Index,
    /// Which of its sides are there.
    Slice(bool, bool),
    /// Before the members of a list, the arguments of a call or the entries of a map.
    Begin,
    /// After each member and argument.
    Item,
    Call(Word),
    Items,
    /// After each value of a map.
    Field(Key),
    Entries,
}
