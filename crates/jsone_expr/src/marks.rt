//! The words and marks of expressions.
ghost use Rattle.std.specs.Prelude.{◌≡◌};
ghost use Rattle.jsone_expr.specs.Grammar.{level as level_of, right_level as right_level_of};

/// An operator between two expressions.
#[derive(Clone, Copy)]
pub enum Operator {
    Or,
    And,
    Within,
    Equal,
    NotEqual,
    Below,
    AtMost,
    Above,
    AtLeast,
    Plus,
    Minus,
    Times,
    Over,
    Power,
}

impl Operator {
    /// How tight it binds, from 1 on.
    pub fn level(self) -> u8
        ensures { result ≡ level_of self }
    {
        match self {
            Operator::Or => 1,
            Operator::And => 2,
            Operator::Within => 3,
            Operator::Equal | Operator::NotEqual => 4,
            Operator::Below | Operator::AtMost | Operator::Above | Operator::AtLeast => 5,
            Operator::Plus | Operator::Minus => 6,
            Operator::Times | Operator::Over => 7,
            Operator::Power => 8,
        }
    }

    /// How tight what stands on its right has to bind.
    pub fn right_level(self) -> u8
        ensures { result ≡ right_level_of self }
    {
        match self {
            Operator::Or => 2,
            Operator::And => 3,
            Operator::Within => 4,
            Operator::Equal | Operator::NotEqual => 5,
            Operator::Below | Operator::AtMost | Operator::Above | Operator::AtLeast => 6,
            Operator::Plus | Operator::Minus => 7,
            Operator::Times | Operator::Over | Operator::Power => 8,
        }
    }
}

/// A word that is a value.
#[derive(Clone, Copy)]
pub enum Literal {
    True,
    False,
    Null,
}

/// A mark that is no operator between two expressions. `Unknown` is a byte that begins no token.
#[derive(Clone, Copy)]
pub enum Mark {
    Bang,
    Dot,
    Comma,
    Colon,
    OpenRound,
    CloseRound,
    OpenSquare,
    CloseSquare,
    OpenCurly,
    CloseCurly,
    Unknown,
}

/// What stands before an expression.
#[derive(Clone, Copy)]
pub enum Sign {
    Denied,
    Negative,
    Positive,
}
