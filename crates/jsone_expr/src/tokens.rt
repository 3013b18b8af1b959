//! The tokens of an expression.
use crate::functions::Function;
use crate::marks::{Literal, Mark, Operator};

/// Bytes of the text, from a place on and up to another.
#[derive(Clone, Copy)]
pub struct Span {
    pub from: usize,
    pub to: usize,
}

/// A name in the text, and the function of that name, if there is one.
#[derive(Clone, Copy)]
pub struct Word {
    pub span: Span,
    pub function: Option<Function>,
}

/// A token: digits, what stands between two quotes, a name, a word that is a value, an operator or another mark.
#[derive(Clone, Copy)]
pub enum Token {
    Digits(Span),
    Quoted(Span),
    Word(Word),
    Literal(Literal),
    Operator(Operator),
    Mark(Mark),
}

/// A token, and where it stands, with its quotes.
#[derive(Clone, Copy)]
pub struct Piece {
    pub token: Token,
    pub span: Span,
}

/// A key of a map: a name, or what stands between two quotes.
#[derive(Clone, Copy)]
pub enum Key {
    Plain(Word),
    InQuotes(Span),
}
