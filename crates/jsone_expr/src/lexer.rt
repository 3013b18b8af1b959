//! The tokens of a text.
ghost use Rattle.std.specs.Prelude.{◌≡◌, ◌+◌, ◌<◌, ◌≤◌, ◌^◌, true, false, length, slice_index, drop, IfOk, MatchOption, not, ◌==◌, Some, None};
ghost use Rattle.std.specs.List.{prefix_len, position};
ghost use Rattle.std.specs.Char.{is_ascii_digit};
ghost use Rattle.std.specs.Map.{lookup};
ghost use Rattle.std.specs.Str.{bytes_eq};
ghost use Rattle.jsone_expr.specs.Tokens.{is_space, is_quote, is_letter, is_word_byte, words, symbols, word_token, token_at, IsLongest, BeginsNone, behind_spaces, AreTokens};

use crate::functions::Function;
use crate::marks::{Literal, Mark, Operator};
use crate::tokens::{Piece, Span, Token, Word};
use std::alloc::{AllocError, Global};

fn is_space(byte: u8) -> bool
    ensures { result ≡ is_space byte }
{
    byte == b' ' || byte == b'\t' || byte == b'\n' || byte == b'\r'
}

fn is_quote(byte: u8) -> bool
    ensures { result ≡ is_quote byte }
{
    byte == b'"' || byte == b'\''
}

fn is_letter(byte: u8) -> bool
    ensures { result ≡ is_letter byte }
{
    byte.is_ascii_alphabetic() || byte == b'_'
}

fn is_word_byte(byte: u8) -> bool
    ensures { result ≡ is_word_byte byte }
{
    is_letter(byte) || byte.is_ascii_digit()
}

fn spaces_len(bytes: &[u8]) -> usize
    ensures { result ≡ prefix_len is_space bytes.now }
{
    bytes.iter().take_while(|byte| is_space(**byte)).count()
}

fn digits_len(bytes: &[u8]) -> usize
    ensures { result ≡ prefix_len is_ascii_digit bytes.now }
{
    bytes
        .iter()
        .take_while(|byte| byte.is_ascii_digit())
        .count()
}

fn word_len(bytes: &[u8]) -> usize
    ensures { result ≡ prefix_len is_word_byte bytes.now }
{
    bytes.iter().take_while(|byte| is_word_byte(**byte)).count()
}

/// Where the first of these bytes stands.
fn place_of(bytes: &[u8], wanted: u8) -> Option<usize>
    ensures { result ≡ position (λ b. b == wanted) bytes.now }
{
    bytes.iter().position(|byte| *byte == wanted)
}

/// The symbol that the bytes are.
fn symbol(bytes: &[u8]) -> Option<Token>
    ensures { result ≡ lookup (bytes_eq bytes.now) symbols }
{
    match bytes {
        b"||" => Some(Token::Operator(Operator::Or)),
        b"&&" => Some(Token::Operator(Operator::And)),
        b"==" => Some(Token::Operator(Operator::Equal)),
        b"!=" => Some(Token::Operator(Operator::NotEqual)),
        b"<=" => Some(Token::Operator(Operator::AtMost)),
        b">=" => Some(Token::Operator(Operator::AtLeast)),
        b"**" => Some(Token::Operator(Operator::Power)),
        b"<" => Some(Token::Operator(Operator::Below)),
        b">" => Some(Token::Operator(Operator::Above)),
        b"+" => Some(Token::Operator(Operator::Plus)),
        b"-" => Some(Token::Operator(Operator::Minus)),
        b"*" => Some(Token::Operator(Operator::Times)),
        b"/" => Some(Token::Operator(Operator::Over)),
        b"!" => Some(Token::Mark(Mark::Bang)),
        b"." => Some(Token::Mark(Mark::Dot)),
        b"," => Some(Token::Mark(Mark::Comma)),
        b":" => Some(Token::Mark(Mark::Colon)),
        b"(" => Some(Token::Mark(Mark::OpenRound)),
        b")" => Some(Token::Mark(Mark::CloseRound)),
        b"[" => Some(Token::Mark(Mark::OpenSquare)),
        b"]" => Some(Token::Mark(Mark::CloseSquare)),
        b"{" => Some(Token::Mark(Mark::OpenCurly)),
        b"}" => Some(Token::Mark(Mark::CloseCurly)),
        _ => None,
    }
}

/// The word that is no name, if the bytes are one.
fn keyword(bytes: &[u8]) -> Option<Token>
    ensures { result ≡ lookup (bytes_eq bytes.now) words }
{
    match bytes {
        b"in" => Some(Token::Operator(Operator::Within)),
        b"true" => Some(Token::Literal(Literal::True)),
        b"false" => Some(Token::Literal(Literal::False)),
        b"null" => Some(Token::Literal(Literal::Null)),
        _ => None,
    }
}

/// The token that a word is, which stands at this place.
fn word_token(bytes: &[u8], at: usize) -> Token
    requires { at + length bytes.now < 2 ^ 64 }
    ensures { result ≡ word_token at bytes.now }
{
    match keyword(bytes) {
        Some(token) => token,
        None => Token::Word(Word {
            span: Span {
                from: at,
                to: at + bytes.len(),
            },
            function: Function::from_name(bytes),
        }),
    }
}

/// The number that the bytes begin with, where they stand at this place, and how long it is.
fn digits(bytes: &[u8], at: usize) -> (Token, usize)
    requires begins { 0 < length bytes.now }
    requires digit { is_ascii_digit (slice_index bytes.now 0) ≡ true }
    requires room { at + length bytes.now < 2 ^ 64 }
    ensures { IsLongest at bytes.now result.0 result.1 }
{
    let len = digits_len(bytes);
    (
        Token::Digits(Span {
            from: at,
            to: at + len,
        }),
        len,
    )
}

/// The word that the bytes begin with, and how long it is.
fn word(bytes: &[u8], at: usize) -> (Token, usize)
    requires begins { 0 < length bytes.now }
    requires no_digit { is_ascii_digit (slice_index bytes.now 0) ≡ false }
    requires no_quote { is_quote (slice_index bytes.now 0) ≡ false }
    requires letter { is_letter (slice_index bytes.now 0) ≡ true }
    requires room { at + length bytes.now < 2 ^ 64 }
    ensures { IsLongest at bytes.now result.0 result.1 }
{
    let len = word_len(bytes);
    (word_token(&bytes[..len], at), len)
}

/// The text in quotes that the bytes begin with, and how long it is with its quotes.
fn quoted(bytes: &[u8], at: usize) -> Option<(Token, usize)>
    requires begins { 0 < length bytes.now }
    requires no_digit { is_ascii_digit (slice_index bytes.now 0) ≡ false }
    requires quote { is_quote (slice_index bytes.now 0) ≡ true }
    requires room { at + length bytes.now < 2 ^ 64 }
    ensures { MatchOption result (BeginsNone at bytes.now) (λ r. IsLongest at bytes.now r.0 r.1) }
{
    match place_of(&bytes[1..], bytes[0]) {
        Some(len) => Some((
            Token::Quoted(Span {
                from: at + 1,
                to: at + 1 + len,
            }),
            len + 2,
        )),
        None => None,
    }
}

/// The symbol that the bytes begin with, and how long it is.
fn longest_symbol(bytes: &[u8], at: usize) -> Option<(Token, usize)>
    requires begins { 0 < length bytes.now }
    requires no_digit { is_ascii_digit (slice_index bytes.now 0) ≡ false }
    requires no_quote { is_quote (slice_index bytes.now 0) ≡ false }
    requires no_letter { is_letter (slice_index bytes.now 0) ≡ false }
    ensures { MatchOption result (BeginsNone at bytes.now) (λ r. IsLongest at bytes.now r.0 r.1) }
{
    if bytes.len() >= 2 {
        if let Some(token) = symbol(&bytes[..2]) {
            return Some((token, 2));
        }
    }
    match symbol(&bytes[..1]) {
        Some(token) => Some((token, 1)),
        None => None,
    }
}

/// The longest token that the bytes begin with, where they stand at this place, and how long it is.
fn longest(bytes: &[u8], at: usize) -> Option<(Token, usize)>
    requires begins { 0 < length bytes.now }
    requires room { at + length bytes.now < 2 ^ 64 }
    ensures { MatchOption result (BeginsNone at bytes.now) (λ r. IsLongest at bytes.now r.0 r.1) }
{
    let first = bytes[0];
    if first.is_ascii_digit() {
        Some(digits(bytes, at))
    } else if is_quote(first) {
        quoted(bytes, at)
    } else if is_letter(first) {
        Some(word(bytes, at))
    } else {
        longest_symbol(bytes, at)
    }
}

/// The tokens of the text. Where no token begins, an unknown one ends them.
pub fn tokens(alloc: Global, text: &[u8]) -> Result<Vec<Piece>, AllocError>
    ensures { IfOk result (λ v. AreTokens text.now 0 v.items) }
{
    let mut pieces = Vec::new(alloc);
    let mut at = spaces_len(text);
    while at < text.len() {
        let rest = &text[at..];
        match longest(rest, at) {
            Some((token, len)) => {
                let end = at + len;
                pieces.push(Piece {
                    token,
                    span: Span { from: at, to: end },
                })?;
                at = end + spaces_len(&text[end..]);
            }
            None => {
                pieces.push(Piece {
                    token: Token::Mark(Mark::Unknown),
                    span: Span {
                        from: at,
                        to: text.len(),
                    },
                })?;
                return Ok(pieces);
            }
        }
    }
    Ok(pieces)
}
