//! Where an expression in a text can end: at the first `}` outside its brackets and its texts.
ghost use Rattle.std.specs.Prelude.{◌≡◌, ◌+◌, ◌<◌, ◌^◌};
ghost use Rattle.jsone_render.specs.Answers.{EndsOnlyAt};
ghost use Rattle.jsone_render.specs.Ends.{opened, beside, behind};

/// Where a byte of an expression stands, and in how many brackets.
#[derive(Clone, Copy)]
enum Place {
    Outside(usize),
    /// In a text that ends at such a quote.
    Quoted(u8, usize),
}

/// The place behind a byte outside texts. None where a bracket ends that did not begin.
fn beside(byte: u8, depth: usize) -> Option<Place>
    requires { depth + 1 < 2 ^ 64 }
    ensures { result ≡ beside byte depth }
{
    match byte {
        b'"' | b'\'' => Some(Place::Quoted(byte, depth)),
        b'(' | b'[' | b'{' => Some(Place::Outside(depth + 1)),
        b')' | b']' | b'}' if depth == 0 => None,
        b')' | b']' | b'}' => Some(Place::Outside(depth - 1)),
        _ => Some(Place::Outside(depth)),
    }
}

impl Place {
    /// The place behind one more byte. None where a bracket ends that did not begin.
    fn behind(self, byte: u8) -> Option<Place>
        requires { opened self + 1 < 2 ^ 64 }
        ensures { result ≡ behind byte self }
    {
        match self {
            Place::Outside(depth) => beside(byte, depth),
            Place::Quoted(quote, depth) if byte == quote => Some(Place::Outside(depth)),
            Place::Quoted(_, _) => Some(self),
        }
    }
}

/// The one `}` that can end an expression, in one walk over the bytes.
pub(crate) fn only_end(bytes: &[u8]) -> Option<usize>
    ensures { EndsOnlyAt bytes.now result }
{
    let mut place = Place::Outside(0);
    for (i, byte) in bytes.iter().enumerate() {
        match place.behind(*byte) {
            Some(next) => place = next,
            None if *byte == b'}' => return Some(i),
            None => return None,
        }
    }
    None
}
