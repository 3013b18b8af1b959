//! What keeps an expression, or a template, from a value.
ghost use Rattle.std.specs.Prelude.{◌≡◌};
ghost use Rattle.jsone_values.specs.Faults.{rule_of};

/// Why there is no value.
#[derive(Clone, Copy, Debug, PartialEq, Eq)]
pub enum Fault {
    /// The text is no expression.
    Syntax,
    /// Nothing is bound to the name.
    UnknownName,
    /// A value of another kind than the operator takes, a text that is no number or no moment, or another number of arguments.
    WrongKind,
    /// A number past 64 bits with a sign, a step of 0, or a moment past its range.
    OutOfRange,
    /// A division with a rest or by 0, or an exponent below 0.
    NotExact,
    /// No member has this index or key.
    NoMember,
    /// An unknown operator of templates, a key of it that is missing or too many, two operators, or a bad binder.
    BadOperator,
    /// Two branches are true.
    TwoBranches,
    /// Two keys of a map are equal.
    KeyTwice,
    /// The expression is more than 64 deep.
    TooDeep,
    /// The text is no span of time.
    BadSpan,
    /// The context is no map, or a key of it is no name.
    BadContext,
}

impl Fault {
    /// The number of the fault.
    pub fn rule(self) -> u8
        ensures { result ≡ rule_of self }
    {
        match self {
            Fault::Syntax => 1,
            Fault::UnknownName => 2,
            Fault::WrongKind => 3,
            Fault::OutOfRange => 4,
            Fault::NotExact => 5,
            Fault::NoMember => 6,
            Fault::BadOperator => 7,
            Fault::TwoBranches => 8,
            Fault::KeyTwice => 9,
            Fault::TooDeep => 10,
            Fault::BadSpan => 11,
            Fault::BadContext => 12,
        }
    }
}

/// Why there is no value: a fault, or want of memory.
#[derive(Clone, Copy, Debug, PartialEq, Eq)]
pub enum Stop {
    Fault(Fault),
    NoMemory,
}
