//! The tokens of a text.
ghost use Rattle.std.specs.Prelude.{◌≡◌, ◌<◌, length};
ghost use Rattle.std.specs.Str.{bytes_eq};
ghost use Rattle.language.specs.Faults.{IsTextResultOrMemory};
ghost use Rattle.language.specs.Lexemes.{begins_name, continues_name, is_blank, is_sign, lexeme_at, line_end_at, line_length, message_word, name_in, name_length, number_in, number_length, quoted_in, quoted_length, word_of};
ghost use Rattle.language.specs.internal.Lexemes.{IsWithin};
ghost use Rattle.language.specs.Tokens.{depth_after, tokens_of};

use crate::fault::{Fault, TextFault, Why};
use crate::number::{Decimal, read_decimal};
use crate::place::mark_length;
use crate::token::{Kind, Span, Token, Word};
use std::alloc::Global;

/// What stands at the front of some bytes.
#[derive(Debug, Clone, Copy)]
pub(crate) enum Lexeme {
    /// So many bytes that are no token.
    Blank(usize),
    /// A token of `len` bytes, and which of them are its own.
    Token {
        kind: Kind,
        start: usize,
        end: usize,
        len: usize,
    },
    /// Nothing that may stand there.
    Fault(Why),
}

/// The tokens of a text, with their places: names, numbers, quoted files, signs, and line ends
/// outside parentheses. Behind the last one stand a line end and the end of the text.
///
/// Blanks are spaces, tabs, CRs, and all from a `#` to the end of its line. A name is a letter or
/// `_` with any letters, digits, `_`, `.`, `[` and `]` after it, or any text in backquotes. A
/// byte-order mark before all else is no token.
///
/// Refuses the first byte that begins no token, quote that is not closed on its line, or number
/// of 2^64 or more.
pub fn tokens(alloc: Global, text: &[u8]) -> Result<Vec<Token>, TextFault>
    ensures { IsTextResultOrMemory (λ v. v.items) result (tokens_of text.now) }
{
    let mut found = Vec::new(alloc);
    let mut at = mark_length(text);
    let mut depth = 0;
    while at < text.len() {
        match front_lexeme(&text[at..], depth) {
            Lexeme::Blank(len) => at += len,
            Lexeme::Token {
                kind,
                start,
                end,
                len,
            } => {
                found.push((
                    kind,
                    Span {
                        start: at + start,
                        end: at + end,
                    },
                ))?;
                depth = next_depth(kind, depth);
                at += len;
            }
            Lexeme::Fault(why) => return Err(TextFault::Fault(Fault { at, why })),
        }
    }
    found.push((Kind::Line, Span { start: at, end: at }))?;
    found.push((Kind::End, Span { start: at, end: at }))?;
    Ok(found)
}

/// How many parentheses are open after a token.
fn next_depth(kind: Kind, depth: usize) -> usize
    requires { depth < 18446744073709551615 }
    ensures { result ≡ depth_after kind depth }
{
    match kind {
        Kind::Sign(sign) => {
            if sign == b'(' {
                depth + 1
            } else if sign == b')' {
                depth.saturating_sub(1)
            } else {
                depth
            }
        }
        _ => depth,
    }
}

/// What stands at the front of some bytes, within so many open parentheses.
#[tactic(auto, unfolding(crate::specs::Lexemes::lexeme_at))]
fn front_lexeme(bytes: &[u8], depth: usize) -> Lexeme
    ensures is { result ≡ lexeme_at depth bytes.now }
    ensures within { IsWithin (length bytes.now) result }
{
    match bytes {
        [] => Lexeme::Fault(Why::Strange),
        [first, rest @ ..] => {
            let first = *first;
            if is_blank(first) {
                Lexeme::Blank(1)
            } else if first == b'\n' {
                line_end(depth)
            } else if first == b'#' {
                Lexeme::Blank(1 + line_length(rest))
            } else if first == b'"' || first == b'`' {
                quoted(first, rest)
            } else if first.is_ascii_digit() {
                numeral(bytes)
            } else if begins_name(first) {
                name(bytes)
            } else if is_sign(first) {
                Lexeme::Token {
                    kind: Kind::Sign(first),
                    start: 0,
                    end: 1,
                    len: 1,
                }
            } else {
                Lexeme::Fault(Why::Strange)
            }
        }
    }
}

/// A line end is a token outside parentheses.
fn line_end(depth: usize) -> Lexeme
    ensures { result ≡ line_end_at depth }
{
    if depth == 0 {
        Lexeme::Token {
            kind: Kind::Line,
            start: 0,
            end: 0,
            len: 1,
        }
    } else {
        Lexeme::Blank(1)
    }
}

/// What a quote begins, by the bytes after it.
fn quoted(quote: u8, rest: &[u8]) -> Lexeme
    ensures { result ≡ quoted_in quote rest.now }
{
    let len = quoted_length(quote, rest);
    if len >= rest.len() || rest[len] != quote {
        return Lexeme::Fault(Why::Unclosed);
    }
    let kind = if quote == b'"' {
        Kind::Quoted
    } else {
        Kind::Name(Word::Other)
    };
    Lexeme::Token {
        kind,
        start: 1,
        end: 1 + len,
        len: 2 + len,
    }
}

/// The number that begins with the first of some bytes.
fn numeral(bytes: &[u8]) -> Lexeme
    requires { 0 < length bytes.now }
    ensures { result ≡ number_in bytes.now }
{
    let len = 1 + number_length(&bytes[1..]);
    match read_decimal(&bytes[..len]) {
        Decimal::Value(value) => {
            Lexeme::Token {
                kind: Kind::Number(value),
                start: 0,
                end: len,
                len,
            }
        }
        _ => Lexeme::Fault(Why::LongNumber),
    }
}

/// The name that begins with the first of some bytes.
fn name(bytes: &[u8]) -> Lexeme
    requires { 0 < length bytes.now }
    ensures { result ≡ name_in bytes.now }
{
    let len = 1 + name_length(&bytes[1..]);
    Lexeme::Token {
        kind: Kind::Name(word(&bytes[..len])),
        start: 0,
        end: len,
        len,
    }
}

/// How many bytes stand before the end of the line.
pub(crate) fn line_length(bytes: &[u8]) -> usize
    ensures { result ≡ line_length bytes.now }
{
    bytes.iter().take_while(|b| **b != b'\n').count()
}

/// How many bytes stand before a quote or the end of the line.
fn quoted_length(quote: u8, bytes: &[u8]) -> usize
    ensures { result ≡ quoted_length quote bytes.now }
{
    bytes
        .iter()
        .take_while(|b| **b != quote && **b != b'\n')
        .count()
}

/// How many digits stand at the front.
fn number_length(bytes: &[u8]) -> usize
    ensures { result ≡ number_length bytes.now }
{
    bytes.iter().take_while(|b| b.is_ascii_digit()).count()
}

/// How many bytes at the front go on with a name.
fn name_length(bytes: &[u8]) -> usize
    ensures { result ≡ name_length bytes.now }
{
    bytes.iter().take_while(|b| continues_name(**b)).count()
}

fn is_blank(byte: u8) -> bool
    ensures { result ≡ is_blank byte }
{
    byte == b' ' || (byte == b'\t' || byte == b'\r')
}

fn begins_name(byte: u8) -> bool
    ensures { result ≡ begins_name byte }
{
    (97 <= byte && byte <= 122) || ((65 <= byte && byte <= 90) || byte == b'_')
}

fn continues_name(byte: u8) -> bool
    ensures { result ≡ continues_name byte }
{
    begins_name(byte) || (byte.is_ascii_digit() || (byte == b'.' || (byte == b'[' || byte == b']')))
}

fn is_sign(byte: u8) -> bool
    ensures { result ≡ is_sign byte }
{
    (byte == b'(' || (byte == b')' || (byte == b'{' || (byte == b'}' || byte == b','))))
        || (byte == b'+' || (byte == b'-' || (byte == b'*' || (byte == b'^' || byte == b'='))))
}

fn is(bytes: &[u8], word: &str) -> bool
    ensures { result ≡ bytes_eq bytes.now word.now }
{
    bytes == word.as_bytes()
}

/// What a name means where the grammar asks for a word.
#[tactic(auto, unfolding(crate::specs::Lexemes::word_of))]
fn word(bytes: &[u8]) -> Word
    ensures { result ≡ word_of bytes.now }
{
    if is(bytes, "bus") {
        Word::Bus
    } else if is(bytes, "air") {
        Word::Air
    } else if is(bytes, "trace") {
        Word::Trace
    } else if is(bytes, "preprocessed") {
        Word::Preprocessed
    } else if is(bytes, "lookups") {
        Word::Lookups
    } else if is(bytes, "height") {
        Word::Height
    } else if is(bytes, "columns") {
        Word::Columns
    } else if is(bytes, "public") {
        Word::Public
    } else if is(bytes, "let") {
        Word::Let
    } else if is(bytes, "assert") {
        Word::Assert
    } else if is(bytes, "bool") {
        Word::Bool
    } else if is(bytes, "next") {
        Word::Next
    } else {
        message_word(bytes)
    }
}

#[tactic(auto, unfolding(crate::specs::Lexemes::message_word))]
fn message_word(bytes: &[u8]) -> Word
    ensures { result ≡ message_word bytes.now }
{
    if is(bytes, "query") {
        Word::Query
    } else if is(bytes, "provide") {
        Word::Provide
    } else if is(bytes, "send") {
        Word::Send
    } else if is(bytes, "receive") {
        Word::Receive
    } else if is(bytes, "local") {
        Word::Local
    } else if is(bytes, "times") {
        Word::Times
    } else if is(bytes, "at") {
        Word::At
    } else if is(bytes, "most") {
        Word::Most
    } else if is(bytes, "together") {
        Word::Together
    } else if is(bytes, "exclusive") {
        Word::Exclusive
    } else if is(bytes, "when") {
        Word::When
    } else {
        Word::Other
    }
}
