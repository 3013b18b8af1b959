//! A machine that reads an expression token by token.
ghost use Rattle.std.specs.Prelude.{◌≡◌, [], ◌∷◌, ◌++◌, Some, None, OnOk, IfOk, MatchOption, option_map, reverse};
ghost use Rattle.jsone_expr.specs.Moves.{flat, flat_of, closed, closing_node, comma_move, colon_move, round_move, square_move, curly_move, open_move, have_mark_move, empty_round_move, empty_square_move, empty_colon_move, want_mark_move, want_move, have_move, member_move, key_move, after_key_move, move, Went, ended_nodes};

use crate::marks::{Mark, Operator, Sign};
use crate::nodes::Node;
use crate::tokens::{Key, Token, Word};
use std::alloc::{AllocError, Global};

/// What waits for an expression on its right.
#[derive(Clone, Copy)]
pub enum Frame {
    Beside(Operator),
    Signed(Sign),
    Group,
    Index,
    /// Whether its first side is there.
    Slice(bool),
    /// Whether nothing stands in it so far.
    Call(Word, bool),
    Items(bool),
    Entries(Key),
}

/// What comes next.
#[derive(Clone, Copy)]
pub enum Next {
    Expression,
    Operator,
    Member,
    /// A key; whether it is the first.
    Key(bool),
    Colon(Key),
}

/// What has been read so far.
#[derive(Drop)]
pub struct Reader {
    pub nodes: Vec<Node>,
    /// The innermost stands last.
    pub frames: Vec<Frame>,
    pub next: Next,
}

/// The node that a frame closes with, where it binds tighter than the level.
fn closing_node(frame: Option<Frame>, level: u8) -> Option<Node>
    ensures { result ≡ closing_node frame level }
{
    match frame {
        Some(Frame::Beside(operator)) if level < operator.right_level() => Some(Node::Binary(
            operator,
        )),
        Some(Frame::Signed(sign)) => Some(Node::Unary(sign)),
        _ => None,
    }
}

impl Reader {
    /// Nothing has been read.
    pub fn new(alloc: Global) -> Reader
        ensures { flat_of result ≡ flat [] [] Next.Expression }
    {
        Reader {
            nodes: Vec::new(alloc),
            frames: Vec::new(alloc),
            next: Next::Expression,
        }
    }

    fn node(&mut self, node: Node) -> Result<(), AllocError>
        ensures { OnOk result (flat_of self.new
            ≡ flat (self.old.nodes.items ++ node ∷ []) (reverse self.old.frames.items) self.old.next) }
    {
        self.nodes.push(node)?;
        Ok(())
    }

    fn value(&mut self, node: Node) -> Result<bool, AllocError>
        ensures { IfOk result (λ went. Went (Some (flat (self.old.nodes.items ++ node ∷ []) (reverse self.old.frames.items) Next.Operator)) went (flat_of self.new)) }
    {
        self.node(node)?;
        self.next = Next::Operator;
        Ok(true)
    }

    fn open(&mut self, frame: Frame) -> Result<bool, AllocError>
        ensures { IfOk result (λ went. Went (Some (flat self.old.nodes.items (frame ∷ reverse self.old.frames.items) Next.Expression)) went (flat_of self.new)) }
    {
        self.frames.push(frame)?;
        self.next = Next::Expression;
        Ok(true)
    }

    fn wait(&mut self, next: Next) -> bool
        ensures { Went (Some (flat self.old.nodes.items (reverse self.old.frames.items) next)) result (flat_of self.new) }
    {
        self.next = next;
        true
    }

    /// The nodes of the whole, where all that was begun has ended.
    pub fn finish(mut self) -> Result<Option<Vec<Node>>, AllocError>
        ensures { IfOk result (λ o. option_map (λ v. v.items) o ≡ ended_nodes self.nodes.items (reverse self.frames.items) self.next) }
    {
        match self.next {
            Next::Operator => {
                self.close(0)?;
                if self.frames.is_empty() {
                    Ok(Some(self.nodes))
                } else {
                    Ok(None)
                }
            }
            _ => Ok(None),
        }
    }

    fn innermost(&mut self) -> Option<Frame>
        ensures nodes { self.new.nodes.items ≡ self.old.nodes.items }
        ensures frames { MatchOption result (reverse self.old.frames.items ≡ [])
            (λ f. reverse self.old.frames.items ≡ f ∷ reverse self.new.frames.items) }
    {
        self.frames.pop()
    }
}

impl Reader {
    /// The frames that bind tighter than the level are closed.
    fn close(&mut self, level: u8) -> Result<(), AllocError>
        ensures { OnOk result (let p = closed level self.old.nodes.items (reverse self.old.frames.items) in
            flat_of self.new ≡ flat p.0 p.1 self.old.next) }
    {
        while let Some(node) = closing_node(self.frames.last().copied(), level) {
            self.frames.pop();
            self.nodes.push(node)?;
        }
        Ok(())
    }

    fn comma(&mut self) -> Result<bool, AllocError>
        ensures { IfOk result (λ went. Went (comma_move self.old.nodes.items (reverse self.old.frames.items)) went (flat_of self.new)) }
    {
        match self.innermost() {
            Some(Frame::Call(word, _)) => {
                self.node(Node::Item)?;
                self.open(Frame::Call(word, false))
            }
            Some(Frame::Items(_)) => {
                self.node(Node::Item)?;
                self.open(Frame::Items(false))
            }
            Some(Frame::Entries(key)) => {
                self.node(Node::Field(key))?;
                Ok(self.wait(Next::Key(false)))
            }
            _ => Ok(false),
        }
    }

    fn colon(&mut self) -> Result<bool, AllocError>
        ensures { IfOk result (λ went. Went (colon_move self.old.nodes.items (reverse self.old.frames.items)) went (flat_of self.new)) }
    {
        match self.innermost() {
            Some(Frame::Index) => self.open(Frame::Slice(true)),
            _ => Ok(false),
        }
    }

    fn close_round(&mut self) -> Result<bool, AllocError>
        ensures { IfOk result (λ went. Went (round_move self.old.nodes.items (reverse self.old.frames.items)) went (flat_of self.new)) }
    {
        match self.innermost() {
            Some(Frame::Group) => self.value(Node::Group),
            Some(Frame::Call(word, _)) => {
                self.node(Node::Item)?;
                self.value(Node::Call(word))
            }
            _ => Ok(false),
        }
    }

    fn close_square(&mut self) -> Result<bool, AllocError>
        ensures { IfOk result (λ went. Went (square_move self.old.nodes.items (reverse self.old.frames.items)) went (flat_of self.new)) }
    {
        match self.innermost() {
            Some(Frame::Index) => self.value(Node::Index),
            Some(Frame::Slice(from)) => self.value(Node::Slice(from, true)),
            Some(Frame::Items(_)) => {
                self.node(Node::Item)?;
                self.value(Node::Items)
            }
            _ => Ok(false),
        }
    }

    fn close_curly(&mut self) -> Result<bool, AllocError>
        ensures { IfOk result (λ went. Went (curly_move self.old.nodes.items (reverse self.old.frames.items)) went (flat_of self.new)) }
    {
        match self.innermost() {
            Some(Frame::Entries(key)) => {
                self.node(Node::Field(key))?;
                self.value(Node::Entries)
            }
            _ => Ok(false),
        }
    }

    /// A bracket behind a name opens a call, where a function has that name.
    fn call(&mut self) -> Result<bool, AllocError>
        ensures { IfOk result (λ went. Went (open_move (reverse self.old.nodes.items) (reverse self.old.frames.items)) went (flat_of self.new)) }
    {
        match self.nodes.pop() {
            Some(Node::Name(word)) if word.function.is_some() => {
                self.node(Node::Begin)?;
                self.open(Frame::Call(word, true))
            }
            _ => Ok(false),
        }
    }

    fn mark_behind(&mut self, mark: Mark) -> Result<bool, AllocError>
        ensures { IfOk result (λ went. Went (have_mark_move self.old.nodes.items (reverse self.old.frames.items) mark) went (flat_of self.new)) }
    {
        match mark {
            Mark::Dot => Ok(self.wait(Next::Member)),
            Mark::Comma => {
                self.close(0)?;
                self.comma()
            }
            Mark::Colon => {
                self.close(0)?;
                self.colon()
            }
            Mark::OpenRound => self.call(),
            Mark::CloseRound => {
                self.close(0)?;
                self.close_round()
            }
            Mark::OpenSquare => self.open(Frame::Index),
            Mark::CloseSquare => {
                self.close(0)?;
                self.close_square()
            }
            Mark::CloseCurly => {
                self.close(0)?;
                self.close_curly()
            }
            Mark::Bang | Mark::OpenCurly | Mark::Unknown => Ok(false),
        }
    }

    fn empty_round(&mut self) -> Result<bool, AllocError>
        ensures { IfOk result (λ went. Went (empty_round_move self.old.nodes.items (reverse self.old.frames.items)) went (flat_of self.new)) }
    {
        match self.innermost() {
            Some(Frame::Call(word, true)) => self.value(Node::Call(word)),
            _ => Ok(false),
        }
    }

    fn empty_square(&mut self) -> Result<bool, AllocError>
        ensures { IfOk result (λ went. Went (empty_square_move self.old.nodes.items (reverse self.old.frames.items)) went (flat_of self.new)) }
    {
        match self.innermost() {
            Some(Frame::Items(true)) => self.value(Node::Items),
            Some(Frame::Slice(from)) => self.value(Node::Slice(from, false)),
            _ => Ok(false),
        }
    }

    fn empty_colon(&mut self) -> Result<bool, AllocError>
        ensures { IfOk result (λ went. Went (empty_colon_move self.old.nodes.items (reverse self.old.frames.items)) went (flat_of self.new)) }
    {
        match self.innermost() {
            Some(Frame::Index) => self.open(Frame::Slice(false)),
            _ => Ok(false),
        }
    }

    fn opening_mark(&mut self, mark: Mark) -> Result<bool, AllocError>
        ensures { IfOk result (λ went. Went (want_mark_move self.old.nodes.items (reverse self.old.frames.items) mark) went (flat_of self.new)) }
    {
        match mark {
            Mark::Bang => self.open(Frame::Signed(Sign::Denied)),
            Mark::OpenRound => self.open(Frame::Group),
            Mark::OpenSquare => {
                self.node(Node::Begin)?;
                self.open(Frame::Items(true))
            }
            Mark::OpenCurly => {
                self.node(Node::Begin)?;
                Ok(self.wait(Next::Key(true)))
            }
            Mark::CloseRound => self.empty_round(),
            Mark::CloseSquare => self.empty_square(),
            Mark::Colon => self.empty_colon(),
            Mark::Dot | Mark::Comma | Mark::CloseCurly | Mark::Unknown => Ok(false),
        }
    }

    fn begin(&mut self, token: Token) -> Result<bool, AllocError>
        ensures { IfOk result (λ went. Went (want_move self.old.nodes.items (reverse self.old.frames.items) token) went (flat_of self.new)) }
    {
        match token {
            Token::Digits(span) => self.value(Node::Number(span)),
            Token::Quoted(span) => self.value(Node::Text(span)),
            Token::Word(word) => self.value(Node::Name(word)),
            Token::Literal(literal) => self.value(Node::Literal(literal)),
            Token::Operator(Operator::Plus) => self.open(Frame::Signed(Sign::Positive)),
            Token::Operator(Operator::Minus) => self.open(Frame::Signed(Sign::Negative)),
            Token::Operator(_) => Ok(false),
            Token::Mark(mark) => self.opening_mark(mark),
        }
    }

    fn go_on(&mut self, token: Token) -> Result<bool, AllocError>
        ensures { IfOk result (λ went. Went (have_move self.old.nodes.items (reverse self.old.frames.items) token) went (flat_of self.new)) }
    {
        match token {
            Token::Operator(operator) => {
                self.close(operator.level())?;
                self.node(Node::Left(operator))?;
                self.open(Frame::Beside(operator))
            }
            Token::Mark(mark) => self.mark_behind(mark),
            _ => Ok(false),
        }
    }

    fn member(&mut self, token: Token) -> Result<bool, AllocError>
        ensures { IfOk result (λ went. Went (member_move self.old.nodes.items (reverse self.old.frames.items) token) went (flat_of self.new)) }
    {
        match token {
            Token::Word(word) => self.value(Node::Member(word)),
            _ => Ok(false),
        }
    }

    fn key(&mut self, first: bool, token: Token) -> Result<bool, AllocError>
        ensures { IfOk result (λ went. Went (key_move self.old.nodes.items (reverse self.old.frames.items) first token) went (flat_of self.new)) }
    {
        match token {
            Token::Word(word) => Ok(self.wait(Next::Colon(Key::Plain(word)))),
            Token::Quoted(span) => Ok(self.wait(Next::Colon(Key::InQuotes(span)))),
            Token::Mark(Mark::CloseCurly) if first => self.value(Node::Entries),
            _ => Ok(false),
        }
    }

    fn colon_behind(&mut self, key: Key, token: Token) -> Result<bool, AllocError>
        ensures { IfOk result (λ went. Went (after_key_move self.old.nodes.items (reverse self.old.frames.items) key token) went (flat_of self.new)) }
    {
        match token {
            Token::Mark(Mark::Colon) => self.open(Frame::Entries(key)),
            _ => Ok(false),
        }
    }

    /// Reads one more token; false where it may not come.
    pub fn read(&mut self, token: Token) -> Result<bool, AllocError>
        ensures { IfOk result (λ went. Went (move (flat_of self.old) token) went (flat_of self.new)) }
    {
        match self.next {
            Next::Expression => self.begin(token),
            Next::Operator => self.go_on(token),
            Next::Member => self.member(token),
            Next::Key(first) => self.key(first, token),
            Next::Colon(key) => self.colon_behind(key, token),
        }
    }
}
