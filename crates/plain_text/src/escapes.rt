//! Copies of texts in printable ASCII.
ghost use Rattle.std.specs.Prelude.{◌≡◌, ◌<◌, ◌≤◌, ◌++◌, ◌∷◌, [], All, IfOk, Bool, false, true, string_bytes};
ghost use Rattle.scope_sets.specs.Scopes.{IsPrintable};
ghost use Rattle.plain_text.specs.Plain.{IsPlain, IsKept, is_kept, digit_of, escape, escaped};

use std::alloc::{AllocError, Global};

/// The text as one line of printable ASCII: each other byte is written as `\x` with two digits of base 16, the line feed too.
pub fn escape_line(alloc: Global, text: &str) -> Result<String, AllocError>
    ensures written { IfOk result (λ line. string_bytes line ≡ escaped false text.now) }
    ensures printable { IfOk result (λ line. All IsPrintable (string_bytes line)) }
{
    let bytes = escaped(alloc, text.as_bytes(), false)?;
    Ok(text_of(bytes))
}

/// The text as lines of printable ASCII: each byte that is neither that nor a line feed is written as `\x` with two digits of base 16.
pub fn escape_lines(alloc: Global, text: &str) -> Result<String, AllocError>
    ensures written { IfOk result (λ lines. string_bytes lines ≡ escaped true text.now) }
    ensures plain { IfOk result (λ lines. All IsPlain (string_bytes lines)) }
{
    let bytes = escaped(alloc, text.as_bytes(), true)?;
    Ok(text_of(bytes))
}

/// The bytes with their escapes, where line feeds are kept or not.
fn escaped(alloc: Global, text: &[u8], feeds: bool) -> Result<Vec<u8>, AllocError>
    ensures written { IfOk result (λ bytes. bytes.items ≡ escaped feeds text.now) }
    ensures kept { IfOk result (λ bytes. All (IsKept feeds) bytes.items) }
{
    let mut bytes = Vec::new(alloc);
    for byte in text {
        add(&mut bytes, *byte, feeds)?;
    }
    Ok(bytes)
}

/// Adds a byte, or its escape.
fn add(bytes: &mut Vec<u8>, byte: u8, feeds: bool) -> Result<(), AllocError>
    ensures written { IfOk result (λ _. bytes.new.items ≡ bytes.old.items ++ escape feeds byte) }
    ensures kept { IfOk result (λ _. All (IsKept feeds) bytes.old.items → All (IsKept feeds) bytes.new.items) }
{
    if is_kept(byte, feeds) {
        push(bytes, byte, feeds)?;
        return Ok(());
    }
    push(bytes, b'\\', feeds)?;
    push(bytes, b'x', feeds)?;
    push(bytes, digit(byte / 16), feeds)?;
    push(bytes, digit(byte % 16), feeds)?;
    Ok(())
}

/// Whether a byte is kept as it is.
fn is_kept(byte: u8, feeds: bool) -> bool
    ensures is { result ≡ is_kept feeds byte }
    ensures kept { result ≡ true → IsKept feeds byte }
{
    if b' ' <= byte && byte <= b'~' {
        return true;
    }
    feeds && byte == b'\n'
}

/// Adds a byte that is kept.
fn push(bytes: &mut Vec<u8>, byte: u8, feeds: bool) -> Result<(), AllocError>
    requires { IsKept feeds byte }
    ensures written { IfOk result (λ _. bytes.new.items ≡ bytes.old.items ++ byte ∷ []) }
    ensures kept { IfOk result (λ _. All (IsKept feeds) bytes.old.items → All (IsKept feeds) bytes.new.items) }
{
    bytes.push(byte)?;
    Ok(())
}

/// A digit of base 16.
fn digit(value: u8) -> u8
    requires { value < 16 }
    ensures is { result ≡ digit_of value }
    ensures low { 32 ≤ result }
    ensures high { result ≤ 126 }
{
    if value < 10 {
        b'0' + value
    } else {
        b'a' + (value - 10)
    }
}

/// The text of plain bytes.
fn text_of(bytes: Vec<u8>) -> String
    requires { All IsPlain bytes.items }
    ensures { string_bytes result ≡ bytes.items }
{
    match String::from_utf8(bytes) {
        Ok(text) => text,
        Err(_) => unreachable!(),
    }
}
