//! The tokens of a text, and where they stand.
use super::{holds, is_at};
use language::{Kind, Place, Span, TextFault, Token, Why, Word, place_of, tokens};
use std::alloc::Global;

/// Whether a text has these tokens, and behind them its end.
fn has(alloc: Global, text: &[u8], wanted: &[Token]) -> bool {
    match tokens(alloc, text) {
        Ok(found) => found.as_slice() == wanted,
        Err(_) => false,
    }
}

fn at(kind: Kind, start: usize, end: usize) -> Token {
    (kind, Span { start, end })
}

#[test]
fn words_and_signs(rt: HostRuntime) {
    let text = b"air a[3] { # {\n\tlet `x y` = 2*next(b.c)\n";
    let wanted = [
        at(Kind::Name(Word::Air), 0, 3),
        at(Kind::Name(Word::Other), 4, 8),
        at(Kind::Sign(b'{'), 9, 10),
        at(Kind::Line, 14, 14),
        at(Kind::Name(Word::Let), 16, 19),
        at(Kind::Name(Word::Other), 21, 24),
        at(Kind::Sign(b'='), 26, 27),
        at(Kind::Number(2), 28, 29),
        at(Kind::Sign(b'*'), 29, 30),
        at(Kind::Name(Word::Next), 30, 34),
        at(Kind::Sign(b'('), 34, 35),
        at(Kind::Name(Word::Other), 35, 38),
        at(Kind::Sign(b')'), 38, 39),
        at(Kind::Line, 39, 39),
        at(Kind::Line, 40, 40),
        at(Kind::End, 40, 40),
    ];
    holds(&rt, "each token", has(rt.alloc(), text, &wanted));
}

#[test]
fn line_ends(rt: HostRuntime) {
    let marked = b"\xef\xbb\xbf\"f.csv\"\r\n(\r\n1)";
    let wanted = [
        at(Kind::Quoted, 4, 9),
        at(Kind::Line, 11, 11),
        at(Kind::Sign(b'('), 12, 13),
        at(Kind::Number(1), 15, 16),
        at(Kind::Sign(b')'), 16, 17),
        at(Kind::Line, 17, 17),
        at(Kind::End, 17, 17),
    ];
    holds(
        &rt,
        "a mark, CRLF and parentheses",
        has(rt.alloc(), marked, &wanted),
    );
    holds(
        &rt,
        "no text",
        has(
            rt.alloc(),
            b"",
            &[at(Kind::Line, 0, 0), at(Kind::End, 0, 0)],
        ),
    );
}

/// Whether a text has this fault at this place.
fn fails(alloc: Global, text: &[u8], line: usize, column: usize, why: Why) -> bool {
    match tokens(alloc, text) {
        Ok(_) => false,
        Err(fault) => is_at(text, fault, line, column, why),
    }
}

#[test]
fn faults(rt: HostRuntime) {
    let alloc = rt.alloc();
    holds(
        &rt,
        "an open quote",
        fails(alloc, b"a\n \"f.csv\n\"", 2, 2, Why::Unclosed),
    );
    holds(
        &rt,
        "an open backquote",
        fails(alloc, b"a `b", 1, 3, Why::Unclosed),
    );
    holds(
        &rt,
        "a strange byte",
        fails(alloc, "é".as_bytes(), 1, 1, Why::Strange),
    );
    holds(
        &rt,
        "2^64",
        fails(alloc, b"1 18446744073709551616", 1, 3, Why::LongNumber),
    );
    let most = [
        at(Kind::Number(18446744073709551615), 0, 20),
        at(Kind::Line, 20, 20),
        at(Kind::End, 20, 20),
    ];
    holds(&rt, "2^64 - 1", has(alloc, b"18446744073709551615", &most));
    let refused = tokens(alloc, b"\xef\xbb\xbf?").err();
    holds(
        &rt,
        "a mark has bytes",
        refused.is_some_and(|fault| is_first(fault)),
    );
}

fn is_first(fault: TextFault) -> bool {
    is_at(b"\xef\xbb\xbf?", fault, 1, 1, Why::Strange)
}

#[test]
fn places(rt: HostRuntime) {
    let text = "é b\r\nc".as_bytes();
    holds(
        &rt,
        "a character",
        place_of(text, 3) == Place { line: 1, column: 3 },
    );
    holds(
        &rt,
        "after an LF",
        place_of(text, 6) == Place { line: 2, column: 1 },
    );
    holds(
        &rt,
        "the end",
        place_of(text, 99) == Place { line: 2, column: 2 },
    );
}
