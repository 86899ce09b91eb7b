//! What stands at the front of some tokens.
ghost use Rattle.std.specs.Prelude.{◌≡◌, drop, option_map};
ghost use Rattle.language.specs.Faults.{IsTextResultOrMemory};
ghost use Rattle.language.specs.Fronts.{after_lines, at_front, is_end, line_needed, named_at, rest_after_sign, number_at, quoted_at, rest_if_sign, word_at};

use crate::fault::{Fault, TextFault, Why};
use crate::token::{Kind, Span, Token, Word};

/// Where the first of some tokens begins.
pub(crate) fn place(tokens: &[Token]) -> usize
    ensures { result ≡ at_front tokens.now }
{
    match tokens {
        [(_, span), ..] => span.start,
        [] => 0,
    }
}

/// The tokens after a sign, if they begin with it.
pub(crate) fn take(tokens: &[Token], sign: u8) -> Option<&[Token]>
    ensures { option_map (λ x. x.now) result ≡ rest_if_sign sign tokens.now }
{
    match tokens {
        [(Kind::Sign(found), _), rest @ ..] => { if *found == sign { Some(rest) } else { None } }
        _ => None,
    }
}

/// The tokens after a sign that has to be there.
pub(crate) fn need(tokens: &[Token], sign: u8) -> Result<&[Token], TextFault>
    ensures { IsTextResultOrMemory (λ x. x.now) result (rest_after_sign sign tokens.now) }
{
    match take(tokens, sign) {
        Some(rest) => Ok(rest),
        None => Err(TextFault::Fault(Fault {
            at: place(tokens),
            why: Why::Sign(sign),
        })),
    }
}

/// A number that has to be there, and the tokens after it.
pub(crate) fn number(tokens: &[Token]) -> Result<(u64, &[Token]), TextFault>
    ensures { IsTextResultOrMemory (λ x. (x.0, x.1.now)) result (number_at tokens.now) }
{
    match tokens {
        [(Kind::Number(value), _), rest @ ..] => Ok((*value, rest)),
        _ => Err(TextFault::Fault(Fault {
            at: place(tokens),
            why: Why::Number,
        })),
    }
}

/// A name that has to be there, and the tokens after it.
pub(crate) fn name(tokens: &[Token], why: Why) -> Result<(Span, &[Token]), TextFault>
    ensures { IsTextResultOrMemory (λ x. (x.0, x.1.now)) result (named_at why tokens.now) }
{
    match tokens {
        [(Kind::Name(_), span), rest @ ..] => Ok((*span, rest)),
        _ => Err(TextFault::Fault(Fault {
            at: place(tokens),
            why,
        })),
    }
}

/// A text in double quotes that has to be there, and the tokens after it.
pub(crate) fn quoted(tokens: &[Token]) -> Result<(Span, &[Token]), TextFault>
    ensures { IsTextResultOrMemory (λ x. (x.0, x.1.now)) result (quoted_at tokens.now) }
{
    match tokens {
        [(Kind::Quoted, span), rest @ ..] => Ok((*span, rest)),
        _ => Err(TextFault::Fault(Fault {
            at: place(tokens),
            why: Why::File,
        })),
    }
}

/// The word at the front, and `Other` where none is.
pub(crate) fn word(tokens: &[Token]) -> Word
    ensures { result ≡ word_at tokens.now }
{
    match tokens {
        [(Kind::Name(word), _), ..] => *word,
        _ => Word::Other,
    }
}

/// The tokens after the first.
pub(crate) fn rest(tokens: &[Token]) -> &[Token]
    ensures { result.now ≡ drop 1 tokens.now }
{
    match tokens {
        [_, rest @ ..] => rest,
        [] => tokens,
    }
}

/// Whether the text ends.
pub(crate) fn is_end(tokens: &[Token]) -> bool
    ensures { result ≡ is_end tokens.now }
{
    match tokens {
        [(Kind::End, _), ..] => true,
        _ => false,
    }
}

/// The tokens after the end of a line, which has to be there.
pub(crate) fn need_line(tokens: &[Token]) -> Result<&[Token], TextFault>
    ensures { IsTextResultOrMemory (λ x. x.now) result (line_needed tokens.now) }
{
    match tokens {
        [(Kind::Line, _), rest @ ..] => Ok(rest),
        _ => Err(TextFault::Fault(Fault {
            at: place(tokens),
            why: Why::Line,
        })),
    }
}

/// The tokens after any ends of lines.
pub(crate) fn skip_lines(tokens: &[Token]) -> &[Token]
    ensures { result.now ≡ after_lines tokens.now }
{
    let mut left = tokens;
    while let [(Kind::Line, _), rest @ ..] = left {
        left = rest;
    }
    left
}
