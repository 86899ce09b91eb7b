//! Refusals with their places, as compilers write them.
ghost use Rattle.std.specs.Prelude.{◌≤◌, length};

use crate::hint::Hint;
use crate::names::is_name;
use check_page::Page;
use language::{Why, place_of};
use language_meaning::NameWhy;
use std::alloc::AllocError;

/// The longest line that is shown.
const MAX_LINE: usize = 200;

/// Appends `FILE:LINE:COLUMN: error: ` for the byte of a text.
pub(crate) fn push_place(
    page: &mut Page,
    file: &[u8],
    text: &[u8],
    at: usize,
) -> Result<(), AllocError> {
    let place = place_of(text, at);
    page.shown(file)?;
    page.word(":")?;
    page.number(place.line as u128)?;
    page.word(":")?;
    page.number(place.column as u128)?;
    page.word(": error: ")
}

/// Ends the line of a refusal, and appends the line of the text with a mark below the byte, and behind
/// it what helps to mend the fault. A line of more than 200 bytes is left out.
pub(crate) fn push_mark(
    page: &mut Page,
    text: &[u8],
    at: usize,
    hint: &Option<Hint>,
) -> Result<(), AllocError> {
    page.word("\n")?;
    let (start, end) = line_around(text, at);
    let line = without_mark(&text[start..end], start);
    let before = at.min(end).saturating_sub(end.saturating_sub(line.len()));
    if line.is_empty() || line.len() > MAX_LINE || before > line.len() {
        return Ok(());
    }
    let number = place_of(text, at).line as u128;
    let mut shown = Page::new(page.alloc());
    shown.number(number)?;
    page.blanks(5usize.saturating_sub(shown.bytes.len()))?;
    page.bytes.extend_from_slice(&shown.bytes)?;
    page.word(" | ")?;
    push_line(page, line)?;
    page.word("\n      | ")?;
    push_blanks(page, &line[..before])?;
    for _ in 0..marked(&line[before..]) {
        page.word("^")?;
    }
    if let Some(hint) = hint {
        push_hint(page, hint)?;
    }
    page.word("\n")
}

/// Appends what helps to mend a fault.
fn push_hint(page: &mut Page, hint: &Hint) -> Result<(), AllocError> {
    match hint {
        Hint::Name(name) => {
            page.word(" did you mean `")?;
            page.shown(name)?;
            page.word("`?")
        }
        Hint::Bus { line, values } => {
            page.word(" line ")?;
            page.number(*line as u128)?;
            page.word(" declares ")?;
            page.number(*values as u128)?;
            page.word(if *values == 1 { " value" } else { " values" })
        }
        Hint::Sign => page.word(" is a comma or an operator missing before it?"),
    }
}

/// The first and the last byte of the line with this byte, without the end of the line.
fn line_around(text: &[u8], at: usize) -> (usize, usize)
    ensures { (result.0 ≤ result.1) × (result.1 ≤ length text.now) }
{
    let at = at.min(text.len());
    let start = match text[..at].iter().rposition(|byte| *byte == b'\n') {
        Some(before) => before + 1,
        None => 0,
    };
    let end = match text[at..].iter().position(|byte| *byte == b'\n') {
        Some(more) => at + more,
        None => text.len(),
    };
    (start, end)
}

/// The first line of a text, without a byte-order mark.
fn without_mark(line: &[u8], start: usize) -> &[u8] {
    match line {
        [0xef, 0xbb, 0xbf, rest @ ..] if start == 0 => rest,
        _ => line,
    }
}

/// Appends a line of a text. Tabs stay.
fn push_line(page: &mut Page, line: &[u8]) -> Result<(), AllocError> {
    for byte in line {
        if *byte == b'\t' {
            page.word("\t")?;
        } else if *byte != b'\r' {
            page.shown(&[*byte])?;
        }
    }
    Ok(())
}

/// Appends a blank for each character, and the tabs.
fn push_blanks(page: &mut Page, front: &[u8]) -> Result<(), AllocError> {
    for byte in front {
        if *byte == b'\t' {
            page.word("\t")?;
        } else if *byte < 128 || *byte >= 192 {
            page.word(" ")?;
        }
    }
    Ok(())
}

/// How many characters are marked: those of a name or number, at least one.
fn marked(rest: &[u8]) -> usize {
    let name = rest.iter().take_while(|byte| is_name(**byte)).count();
    name.max(1)
}

/// Appends what is wrong with a text.
pub(crate) fn push_why(page: &mut Page, why: Why) -> Result<(), AllocError> {
    match why {
        Why::Sign(sign) => {
            page.word("expected `")?;
            page.shown(&[sign])?;
            page.word("`")
        }
        other => page.word(why_text(other)),
    }
}

fn why_text(why: Why) -> &'static str {
    match why {
        Why::Unclosed => "this quote is not closed on its line",
        Why::Strange => "this stands for nothing here",
        Why::LongNumber => "this number is not below 2^64",
        Why::Deep => "this expression has more than 1,024 layers",
        Why::Expression => "expected an expression",
        Why::Column => "expected a column",
        Why::Number => "expected a number",
        Why::Exponent => "expected an exponent from 1 to 64",
        Why::Header => "expected the names of columns",
        Why::EmptyName => "this column has no name",
        Why::RepeatedName => "a column before this one has the same name",
        Why::LargeNumber => "this number is not below the characteristic",
        Why::MissingCell => "this line has too few numbers",
        Why::ExtraCell => "this line has too many numbers",
        Why::File => "expected a file in double quotes",
        Why::Line => "expected the end of the line",
        Why::Name => "expected a name",
        Why::Bus => "expected a bus, or `local`",
        Why::Most => "expected `most`",
        Why::Verb => "expected `query`, `provide`, `send` or `receive`",
        Why::When => "expected `when`",
        Why::Item => "this begins no line of an AIR",
        Why::Section => "expected `bus` or `air`",
        Why::Endless | Why::Sign(_) => "this cannot be read",
    }
}

/// What is wrong with a name or a message.
pub(crate) fn name_text(why: NameWhy) -> &'static str {
    match why {
        NameWhy::UnknownName => "no column, public value or definition has this name",
        NameWhy::UnknownColumn => "no column has this name",
        NameWhy::NoWeight => {
            "how often this counts is not written as a number: add `at most N`, the most on one row"
        }
        NameWhy::LargeExpression => "the expressions up to here have more than 1,048,576 nodes",
        NameWhy::DeepExpression => "with what its names stand for, this has more than 1,024 layers",
        NameWhy::RepeatedDefinition => "a definition before this one has the same name",
        NameWhy::RepeatedBus => "a bus was declared before with this name",
        NameWhy::UndeclaredBus => "no bus is declared with this name",
        NameWhy::TupleWidth => "this bus carries another number of values",
        NameWhy::OtherBus => "this message is on another bus than the first of its group",
        NameWhy::EmptyGroup => "this group has no message",
        NameWhy::LookupsFile => "lookups from a file are not read",
    }
}
