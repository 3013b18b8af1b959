//! Runs over houses in memory at the limits of their inputs.

use crate::outcomes::{Case, PING, outcome_of};
use crate::rows::{comes_to, cut, words_of};
use std::alloc::{AllocError, Global};
use std::sync::Wait;
use std::test::Fail;
use std::thread::Threads;

/// The words, of how many letters the input is, which letter that is, the status, the output and the notes.
const LETTERS: &str =
    r#"answer farm.toml|16385|a|8|HTTP/1.1 431 Request Header Fields Too Large\r\nConnection: close\r\nContent-Length: 69\r\nContent-Type: application/json\r\n\r\n{"code":"HeadTooLarge","details":{},"message":"the head is too long"}|the input is refused: a request's head has more than 16384 bytes\n
expand farm.toml|4097|a|3||the input is refused: line 1: a scope has at most 4096 bytes\n
expand farm.toml|1048577|a|3||the input is refused: it has more than 1048576 bytes\n
sign --id dh37fgj492je --token werxhqb98rpaxn39848xrunpaw3489ruxnpa98w4rxn --method POST --target /resource/1?b=1&a=2 --host example.com --port 8000 --ts 1353832234 --nonce j4h3g2 --type text/plain|1048576|a|0|*|
sign --id dh37fgj492je --token werxhqb98rpaxn39848xrunpaw3489ruxnpa98w4rxn --method POST --target /resource/1?b=1&a=2 --host example.com --port 8000 --ts 1353832234 --nonce j4h3g2 --type text/plain|1048577|a|3||the input is refused: the body has more than 1048576 bytes\n
sign --id dh37fgj492je --token werxhqb98rpaxn39848xrunpaw3489ruxnpa98w4rxn --method POST --target /resource/1?b=1&a=2 --host example.com --port 8000 --ts 1353832234 --nonce j4h3g2|1048577|a|0|*|
render|1048577| |3||the input is refused: it has more than 1048576 bytes\n"#;

/// Whether an input of so many such letters comes to this.
fn letters_come_to(
    rt: &(impl Threads + Wait + Sync),
    alloc: Global,
    words: &[&str],
    letters: &[u8],
    code: &str,
    told: &str,
) -> Result<bool, Fail> {
    let case = Case {
        words,
        ..Case::over(letters)
    };
    comes_to(rt, alloc, &case, code, told)
}

/// Whether such a row holds.
fn letters_hold(rt: &(impl Threads + Wait + Sync), alloc: Global, row: &str) -> Result<bool, Fail> {
    let (line, rest) = cut(row);
    let (count, rest) = cut(rest);
    let (letter, rest) = cut(rest);
    let (code, told) = cut(rest);
    let count: usize = count.parse().ok().ok_or("a number")?;
    let letters = letter.repeat(alloc, count)?;
    let words = words_of(alloc, line)?;
    letters_come_to(rt, alloc, &words, letters.as_bytes(), code, told)
}

/// The first of some such rows that does not hold, or `none`.
fn first_other<'a>(
    rt: &(impl Threads + Wait + Sync),
    alloc: Global,
    rows: &'a str,
) -> Result<&'a str, Fail> {
    for row in rows.split('\n') {
        if !letters_hold(rt, alloc, row)? {
            return Ok(row);
        }
    }
    Ok("none")
}

/// So many scopes, each a number between these texts.
fn numbered(alloc: Global, count: usize, before: &str, after: &str) -> Result<String, AllocError> {
    let mut text = String::new(alloc);
    for number in 0..count {
        text.push_str(&format!(in alloc; "{before}{number}{after}")?)?;
    }
    Ok(text)
}

const TOO_MANY: &str = r"|the input is refused: its scopes give more than 10000 scopes\n";

/// Whether too many scopes are not expanded.
fn are_not_expanded(rt: &(impl Threads + Wait + Sync), alloc: Global) -> Result<bool, Fail> {
    let lines = numbered(alloc, 10_001, "", "\n")?;
    let expand = Case {
        words: &["expand", "farm.toml"],
        ..Case::over(lines.as_bytes())
    };
    comes_to(rt, alloc, &expand, "3", TOO_MANY)
}

const EXPANSION_LIMIT: &str =
    r#"HTTP/1.1 403 Forbidden\r\nContent-Length: 93\r\nContent-Type: application/json\r\n\r\n{"code":"ExpansionLimit","details":{"limit":10000},"message":"too many scopes are derivable"}|"#;

/// The file of a farm in which whoever gives no credentials has so many scopes.
fn farm_with(alloc: Global, count: usize) -> Result<String, AllocError> {
    let scopes = numbered(alloc, count, "'", "',")?;
    format!(in alloc; "[[role]]\nid = 'anonymous'\nscopes = [{scopes}]\n")
}

/// Whether too many scopes are not derived.
fn are_not_derived(rt: &(impl Threads + Wait + Sync), alloc: Global) -> Result<bool, Fail> {
    let farm = farm_with(alloc, 10_000)?;
    let answer = Case {
        farm: farm.as_bytes(),
        ..Case::over(PING)
    };
    comes_to(rt, alloc, &answer, "0", EXPANSION_LIMIT)
}

#[test]
fn inputs_have_their_limits(rt: HostRuntime) -> Result<(), Fail> {
    assert_eq!(rt; first_other(&rt, rt.alloc(), LETTERS)?, "none");
    Ok(())
}

#[test]
fn too_many_scopes_are_not_expanded(rt: HostRuntime) -> Result<(), Fail> {
    assert!(rt; are_not_expanded(&rt, rt.alloc())?);
    Ok(())
}

#[test]
fn too_many_scopes_are_not_derived(rt: HostRuntime) -> Result<(), Fail> {
    assert!(rt; are_not_derived(&rt, rt.alloc())?);
    Ok(())
}

/// Whether the notes of a run tell the word that clap does not know, and tell it in printable ASCII.
fn tells_the_word(notes: &[u8]) -> Result<[bool; 2], Fail> {
    let text = str::from_utf8(notes)?;
    let mut is_printable = true;
    for byte in notes {
        is_printable = is_printable && (*byte == b'\n' || (b' '..=b'~').contains(byte));
    }
    let is_told = text.contains("\\x1b[31mred\\x7f\\xc3\\xa9");
    Ok([is_told, is_printable])
}

/// The same of a run with a word of other bytes.
fn tells_a_word(rt: &(impl Threads + Wait + Sync), alloc: Global) -> Result<[bool; 2], Fail> {
    let case = Case {
        words: &["\u{1b}[31mred\u{7f}\u{e9}"],
        ..Case::over(PING)
    };
    let done = outcome_of(rt, alloc, &case)?;
    let told = tells_the_word(&done.notes);
    drop(done);
    told
}

/// clap repeats the word that it does not know. No byte of it reaches a terminal as it is.
#[test]
fn a_word_is_told_in_printable_ascii(rt: HostRuntime) -> Result<(), Fail> {
    assert_eq!(rt; tells_a_word(&rt, rt.alloc())?, [true, true]);
    Ok(())
}
