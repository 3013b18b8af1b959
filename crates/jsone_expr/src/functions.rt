//! The functions that an expression may call.
ghost use Rattle.std.specs.Prelude.{◌≡◌};
ghost use Rattle.std.specs.Str.{bytes_eq};
ghost use Rattle.jsone_expr.specs.Functions.{function_of};

/// A function of the language.
#[derive(Clone, Copy)]
pub enum Function {
    Min,
    Max,
    Abs,
    Len,
    Str,
    Number,
    Lowercase,
    Uppercase,
    Strip,
    StripLeft,
    StripRight,
    Split,
    Join,
    Range,
    TypeOf,
    Defined,
    FromNow,
}

impl Function {
    /// The function of this name, if there is one.
    pub fn from_name(name: &[u8]) -> Option<Function>
        ensures { result ≡ function_of name.now }
    {
        if is(name, "min") {
            Some(Function::Min)
        } else if is(name, "max") {
            Some(Function::Max)
        } else if is(name, "abs") {
            Some(Function::Abs)
        } else if is(name, "len") {
            Some(Function::Len)
        } else if is(name, "str") {
            Some(Function::Str)
        } else if is(name, "number") {
            Some(Function::Number)
        } else if is(name, "lowercase") {
            Some(Function::Lowercase)
        } else if is(name, "uppercase") {
            Some(Function::Uppercase)
        } else if is(name, "strip") {
            Some(Function::Strip)
        } else if is(name, "lstrip") {
            Some(Function::StripLeft)
        } else if is(name, "rstrip") {
            Some(Function::StripRight)
        } else if is(name, "split") {
            Some(Function::Split)
        } else if is(name, "join") {
            Some(Function::Join)
        } else if is(name, "range") {
            Some(Function::Range)
        } else if is(name, "typeof") {
            Some(Function::TypeOf)
        } else if is(name, "defined") {
            Some(Function::Defined)
        } else if is(name, "fromNow") {
            Some(Function::FromNow)
        } else {
            None
        }
    }
}

/// Whether a name is this word.
fn is(name: &[u8], word: &str) -> bool
    ensures { result ≡ bytes_eq name.now word.now }
{
    name == word.as_bytes()
}
