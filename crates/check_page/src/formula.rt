//! Expressions as their author wrote them, but for blanks and parentheses.
use crate::page::Page;
use language::{Span, Tree};
use language_meaning::bytes_of;
use std::alloc::AllocError;

/// How tightly what stands around an expression binds: where it binds more tightly than the
/// expression does, parentheses are written.
#[derive(Clone, Copy, PartialEq, Eq, PartialOrd)]
pub enum Around {
    Nothing,
    Product,
    Sign,
    Power,
}

/// Appends an expression, with the parentheses that it needs to be read as it is.
pub fn push_formula(
    page: &mut Page,
    text: &[u8],
    tree: &Tree,
    around: Around,
) -> Result<(), AllocError> {
    match tree {
        Tree::Sum(left, right) => {
            page.word(parenthesis("(", around > Around::Nothing))?;
            push_formula(page, text, left, Around::Nothing)?;
            page.word(" + ")?;
            push_formula(page, text, right, Around::Product)?;
            page.word(parenthesis(")", around > Around::Nothing))
        }
        Tree::Difference(left, right) => {
            page.word(parenthesis("(", around > Around::Nothing))?;
            push_formula(page, text, left, Around::Nothing)?;
            page.word(" - ")?;
            push_formula(page, text, right, Around::Product)?;
            page.word(parenthesis(")", around > Around::Nothing))
        }
        Tree::Product(left, right) => {
            page.word(parenthesis("(", around > Around::Product))?;
            push_formula(page, text, left, Around::Product)?;
            page.word(" * ")?;
            push_formula(page, text, right, Around::Sign)?;
            page.word(parenthesis(")", around > Around::Product))
        }
        Tree::Negative(inner) => {
            page.word(parenthesis("(", around > Around::Sign))?;
            page.word("-")?;
            push_formula(page, text, inner, Around::Sign)?;
            page.word(parenthesis(")", around > Around::Sign))
        }
        Tree::Power(base, exponent) => {
            page.word(parenthesis("(", around > Around::Sign))?;
            push_formula(page, text, base, Around::Power)?;
            page.word("^")?;
            page.number(u128::from(*exponent))?;
            page.word(parenthesis(")", around > Around::Sign))
        }
        leaf => push_leaf(page, text, leaf),
    }
}

/// Appends a name, a cell of the next row, or a number.
fn push_leaf(page: &mut Page, text: &[u8], leaf: &Tree) -> Result<(), AllocError> {
    match leaf {
        Tree::Name(name) => push_name(page, text, *name),
        Tree::Next(name) => {
            page.word("next(")?;
            push_name(page, text, *name)?;
            page.word(")")
        }
        Tree::Number(number, _) => page.number(u128::from(*number)),
        _ => Ok(()),
    }
}

fn parenthesis(sign: &'static str, is_closed: bool) -> &'static str {
    if is_closed { sign } else { "" }
}

/// Appends a name, in backquotes if it stands in backquotes.
fn push_name(page: &mut Page, text: &[u8], name: Span) -> Result<(), AllocError> {
    let quote = match text.get(name.start.saturating_sub(1)) {
        Some(b'`') if name.start > 0 => "`",
        _ => "",
    };
    page.word(quote)?;
    page.shown(bytes_of(text, name))?;
    page.word(quote)
}
