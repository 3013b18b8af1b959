//! Bytes that would do something to a terminal.
use plain_text::{escape_line, escape_lines};
use std::alloc::{AllocError, Global};
use std::test::Fail;

/// Whether a text comes to these, as one line and as lines.
fn comes_to(alloc: Global, text: &str, line: &str, lines: &str) -> Result<bool, AllocError> {
    if escape_line(alloc, text)?.as_str() != line {
        return Ok(false);
    }
    Ok(escape_lines(alloc, text)?.as_str() == lines)
}

#[test]
fn texts_are_escaped(rt: HostRuntime) -> Result<(), Fail> {
    let alloc = rt.alloc();
    let (colour, others) = ("\\x1b[31m\\x0d\\x09", "\\x7f\\xc3\\xa9");
    let told = [
        comes_to(alloc, "", "", "")?,
        comes_to(alloc, "a ~", "a ~", "a ~")?,
        comes_to(alloc, "a\nb", "a\\x0ab", "a\nb")?,
        comes_to(alloc, "\u{1b}[31m\r\t", colour, colour)?,
        comes_to(alloc, "\u{7f}\u{e9}", others, others)?,
    ];
    assert_eq!(rt; told, [true; 5]);
    Ok(())
}
