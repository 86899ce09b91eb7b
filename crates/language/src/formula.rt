//! An expression, by recursive descent over its tokens. Each call on the stack takes one layer.
ghost use Rattle.language.specs.Faults.{IsTextResultOrMemory};
ghost use Rattle.language.specs.Reading.{a_factor, a_product, a_sum, an_atom, formula_at, more_product as more_product_part, more_sum as more_sum_part, next_at, power_at, reads};
ghost use Rattle.language.specs.Formulas.{formula_of};

use crate::fault::{Fault, TextFault, Why};
use crate::front::{name, need, number, place, take};
use crate::token::{Kind, Span, Token, Word};
use std::alloc::Global;

/// An expression over names.
#[derive(Debug, Drop)]
pub enum Tree {
    Name(Span),
    Next(Span),
    Number(u64, Span),
    Negative(Box<Tree>),
    Sum(Box<Tree>, Box<Tree>),
    Difference(Box<Tree>, Box<Tree>),
    Product(Box<Tree>, Box<Tree>),
    Power(Box<Tree>, u64),
}

/// How many layers an expression may have: each operator, sign and parenthesis is in some.
const MAX_LAYERS: usize = 1024;

/// The expression at the front of some tokens, and the tokens after it.
pub fn read_formula(alloc: Global, tokens: &[Token]) -> Result<(Tree, &[Token]), TextFault>
    ensures { IsTextResultOrMemory (λ x. (formula_of x.0, x.1.now)) result (formula_at tokens.now) }
{
    read_sum(alloc, tokens, MAX_LAYERS)
}

#[cycle(grammar)]
#[tactic(auto, unfolding(crate::specs::Reading::reads))]
fn read_sum(alloc: Global, tokens: &[Token], layers: usize) -> Result<(Tree, &[Token]), TextFault>
    ensures { IsTextResultOrMemory (λ x. (formula_of x.0, x.1.now)) result (reads layers a_sum tokens.now) }
{
    if layers == 0 {
        return Err(TextFault::Fault(Fault {
            at: place(tokens),
            why: Why::Deep,
        }));
    }
    let (left, rest) = read_product(alloc, tokens, layers - 1)?;
    more_sum(alloc, left, rest, layers - 1)
}

#[cycle(grammar)]
#[tactic(auto, unfolding(crate::specs::Reading::reads))]
fn more_sum(
    alloc: Global,
    left: Tree,
    tokens: &[Token],
    layers: usize,
) -> Result<(Tree, &[Token]), TextFault>
    ensures { IsTextResultOrMemory (λ x. (formula_of x.0, x.1.now)) result
        (reads layers (more_sum_part (formula_of left)) tokens.now) }
{
    if layers == 0 {
        return Err(TextFault::Fault(Fault {
            at: place(tokens),
            why: Why::Deep,
        }));
    }
    if let Some(rest) = take(tokens, b'+') {
        let (right, rest) = read_product(alloc, rest, layers - 1)?;
        let both = Tree::Sum(Box::new(alloc, left)?, Box::new(alloc, right)?);
        return more_sum(alloc, both, rest, layers - 1);
    }
    if let Some(rest) = take(tokens, b'-') {
        let (right, rest) = read_product(alloc, rest, layers - 1)?;
        let both = Tree::Difference(Box::new(alloc, left)?, Box::new(alloc, right)?);
        return more_sum(alloc, both, rest, layers - 1);
    }
    Ok((left, tokens))
}

#[cycle(grammar)]
#[tactic(auto, unfolding(crate::specs::Reading::reads))]
fn read_product(
    alloc: Global,
    tokens: &[Token],
    layers: usize,
) -> Result<(Tree, &[Token]), TextFault>
    ensures { IsTextResultOrMemory (λ x. (formula_of x.0, x.1.now)) result (reads layers a_product tokens.now) }
{
    if layers == 0 {
        return Err(TextFault::Fault(Fault {
            at: place(tokens),
            why: Why::Deep,
        }));
    }
    let (left, rest) = read_factor(alloc, tokens, layers - 1)?;
    more_product(alloc, left, rest, layers - 1)
}

#[cycle(grammar)]
#[tactic(auto, unfolding(crate::specs::Reading::reads))]
fn more_product(
    alloc: Global,
    left: Tree,
    tokens: &[Token],
    layers: usize,
) -> Result<(Tree, &[Token]), TextFault>
    ensures { IsTextResultOrMemory (λ x. (formula_of x.0, x.1.now)) result
        (reads layers (more_product_part (formula_of left)) tokens.now) }
{
    if layers == 0 {
        return Err(TextFault::Fault(Fault {
            at: place(tokens),
            why: Why::Deep,
        }));
    }
    if let Some(rest) = take(tokens, b'*') {
        let (right, rest) = read_factor(alloc, rest, layers - 1)?;
        let both = Tree::Product(Box::new(alloc, left)?, Box::new(alloc, right)?);
        return more_product(alloc, both, rest, layers - 1);
    }
    Ok((left, tokens))
}

#[cycle(grammar)]
#[tactic(auto, unfolding(crate::specs::Reading::reads))]
fn read_factor(
    alloc: Global,
    tokens: &[Token],
    layers: usize,
) -> Result<(Tree, &[Token]), TextFault>
    ensures { IsTextResultOrMemory (λ x. (formula_of x.0, x.1.now)) result (reads layers a_factor tokens.now) }
{
    if layers == 0 {
        return Err(TextFault::Fault(Fault {
            at: place(tokens),
            why: Why::Deep,
        }));
    }
    if let Some(rest) = take(tokens, b'-') {
        let (inner, rest) = read_factor(alloc, rest, layers - 1)?;
        return Ok((Tree::Negative(Box::new(alloc, inner)?), rest));
    }
    let (base, rest) = read_atom(alloc, tokens, layers - 1)?;
    read_power(alloc, base, rest)
}

/// An expression with the exponent behind it, if one is there.
#[tactic(auto, unfolding(crate::specs::Reading::power_at))]
fn read_power(alloc: Global, base: Tree, tokens: &[Token]) -> Result<(Tree, &[Token]), TextFault>
    ensures { IsTextResultOrMemory (λ x. (formula_of x.0, x.1.now)) result
        (power_at (formula_of base) tokens.now) }
{
    match take(tokens, b'^') {
        None => Ok((base, tokens)),
        Some(after) => {
            let (exponent, rest) = number(after)?;
            if exponent == 0 || exponent > 64 {
                return Err(TextFault::Fault(Fault {
                    at: place(after),
                    why: Why::Exponent,
                }));
            }
            Ok((Tree::Power(Box::new(alloc, base)?, exponent), rest))
        }
    }
}

#[cycle(grammar)]
#[tactic(auto, unfolding(crate::specs::Reading::reads))]
fn read_atom(alloc: Global, tokens: &[Token], layers: usize) -> Result<(Tree, &[Token]), TextFault>
    ensures { IsTextResultOrMemory (λ x. (formula_of x.0, x.1.now)) result (reads layers an_atom tokens.now) }
{
    if layers == 0 {
        return Err(TextFault::Fault(Fault {
            at: place(tokens),
            why: Why::Deep,
        }));
    }
    match tokens {
        [(Kind::Name(word), span), rest @ ..] => read_name(*word, *span, rest),
        [(Kind::Number(value), span), rest @ ..] => Ok((Tree::Number(*value, *span), rest)),
        _ => {
            let Some(rest) = take(tokens, b'(') else {
                return Err(TextFault::Fault(Fault {
                    at: place(tokens),
                    why: Why::Expression,
                }));
            };
            let (inner, rest) = read_sum(alloc, rest, layers - 1)?;
            Ok((inner, need(rest, b')')?))
        }
    }
}

/// A name, or that of the next row where `next` stands before parentheses.
#[tactic(auto, unfolding(crate::specs::Reading::next_at))]
fn read_name(word: Word, span: Span, tokens: &[Token]) -> Result<(Tree, &[Token]), TextFault>
    ensures { IsTextResultOrMemory (λ x. (formula_of x.0, x.1.now)) result (next_at word span tokens.now) }
{
    match (word, take(tokens, b'(')) {
        (Word::Next, Some(rest)) => {
            let (column, rest) = name(rest, Why::Column)?;
            Ok((Tree::Next(column), need(rest, b')')?))
        }
        _ => Ok((Tree::Name(span), tokens)),
    }
}
