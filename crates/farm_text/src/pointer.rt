//! The JSON pointer (RFC 6901) to a place in a document, which is found from the inside out.
ghost use Rattle.std.specs.Prelude.{◌≡◌, [], ◌∷◌, ◌++◌, OnOk, IfOk, string_bytes};
ghost use Rattle.std.specs.Char.{encode_utf8};
ghost use Rattle.farm_text.specs.Pointer.{part_text, pointer_under};
ghost use Rattle.farm_text.specs.Reading.{escaped};

use crate::text::Text;
use itoa::Buffer;
use std::alloc::{AllocError, Global};

/// One step into a document.
#[derive(Drop)]
pub(crate) enum Part {
    Index(usize),
    Key(String),
}

/// The pointer that these steps make, the innermost first.
pub(crate) fn pointer(alloc: Global, mut parts: Vec<Part>) -> Result<Text, AllocError>
    ensures { IfOk result (λ t. t ≡ pointer_under [] parts.items) }
{
    let mut out = String::new(alloc);
    'parts: while let Some(part) = parts.pop() {
        push_part(&mut out, &part)?;
    }
    Ok(Text::from_string(out))
}

fn push_part(out: &mut String, part: &Part) -> Result<(), AllocError>
    ensures { OnOk result (string_bytes out.new ≡ string_bytes out.old ++ 47 ∷ part_text part.now) }
{
    out.push_str("/")?;
    match part {
        Part::Index(index) => out.push_str(Buffer::new().format(*index)),
        Part::Key(key) => push_escaped(out, key.as_str()),
    }
}

fn push_escaped(out: &mut String, key: &str) -> Result<(), AllocError>
    ensures { OnOk result (string_bytes out.new ≡ string_bytes out.old ++ escaped key.now) }
{
    'chars: for c in key.chars() {
        push_char(out, c)?;
    }
    Ok(())
}

fn push_char(out: &mut String, c: char) -> Result<(), AllocError>
    ensures { OnOk result (string_bytes out.new ≡ string_bytes out.old ++ escaped (encode_utf8 c)) }
{
    match c {
        '~' => out.push_str("~0"),
        '/' => out.push_str("~1"),
        _ => out.push(c),
    }
}
