//! Messages: what a row sends on which bus, and how often.
ghost use Rattle.std.specs.Prelude.{◌≡◌, ◌∷◌, [], length, map, option_map};
ghost use Rattle.language.specs.Faults.{IsTextResultOrMemory};
ghost use Rattle.language.specs.Formulas.{formula_of};
ghost use Rattle.language.specs.Lists.{many, with_front};
ghost use Rattle.language.specs.Messages.{message_bus_at, count_at, message_at, message_of, most_at, most_needed, more_formula, tuple_at, verb_at};

use crate::fault::{Fault, TextFault, Why};
use crate::formula::{Tree, read_formula};
use crate::front::{name, need, number, place, rest, take, word};
use crate::token::{Kind, Span, Token, Word};
use std::alloc::Global;

/// What a message does. A query and a send count with a plus, a provision and a receipt with a
/// minus.
#[derive(Debug, Clone, Copy, PartialEq, Eq)]
pub enum Verb {
    Query,
    Provide,
    Send,
    Receive,
}

/// A message as it is written.
#[derive(Debug, Drop)]
pub struct MessageText {
    /// The byte at which it begins.
    pub at: usize,
    pub verb: Verb,
    /// The name of its bus, and `None` for `local`.
    pub bus: Option<Span>,
    pub tuple: Vec<Tree>,
    /// How often it counts, where that is said.
    pub times: Option<Tree>,
    /// The most that it counts on one row, where that is said.
    pub at_most: Option<u64>,
}

/// The message at the front of some tokens, and the tokens after it.
#[tactic(auto, unfolding(crate::specs::Messages::message_at))]
pub(crate) fn read_message(
    alloc: Global,
    tokens: &[Token],
) -> Result<(MessageText, &[Token]), TextFault>
    ensures { IsTextResultOrMemory (λ x. (message_of x.0, x.1.now)) result (message_at tokens.now) }
{
    let at = place(tokens);
    let (verb, after) = read_verb(tokens)?;
    let (bus, after) = read_bus(after)?;
    let (tuple, after) = read_tuple(alloc, need(after, b'(')?)?;
    let (times, at_most, after) = read_count(alloc, after)?;
    Ok((
        MessageText {
            at,
            verb,
            bus,
            tuple,
            times,
            at_most,
        },
        after,
    ))
}

#[tactic(auto, unfolding(crate::specs::Messages::verb_at))]
fn read_verb(tokens: &[Token]) -> Result<(Verb, &[Token]), TextFault>
    ensures { IsTextResultOrMemory (λ x. (x.0, x.1.now)) result (verb_at tokens.now) }
{
    match word(tokens) {
        Word::Query => Ok((Verb::Query, rest(tokens))),
        Word::Provide => Ok((Verb::Provide, rest(tokens))),
        Word::Send => Ok((Verb::Send, rest(tokens))),
        Word::Receive => Ok((Verb::Receive, rest(tokens))),
        _ => Err(TextFault::Fault(Fault {
            at: place(tokens),
            why: Why::Verb,
        })),
    }
}

/// The name of a bus, or `None` at `local`.
#[tactic(auto, unfolding(crate::specs::Messages::message_bus_at))]
fn read_bus(tokens: &[Token]) -> Result<(Option<Span>, &[Token]), TextFault>
    ensures { IsTextResultOrMemory (λ x. (x.0, x.1.now)) result (message_bus_at tokens.now) }
{
    match word(tokens) {
        Word::Local => Ok((None, rest(tokens))),
        _ => {
            let (bus, after) = name(tokens, Why::Bus)?;
            Ok((Some(bus), after))
        }
    }
}

/// Expressions between commas, and what stands after the parenthesis that closes them.
#[tactic(auto, unfolding(crate::specs::Messages::tuple_at))]
fn read_tuple(alloc: Global, tokens: &[Token]) -> Result<(Vec<Tree>, &[Token]), TextFault>
    ensures { IsTextResultOrMemory (λ x. (map formula_of x.0.items, x.1.now)) result (tuple_at tokens.now) }
{
    let (first, after) = read_formula(alloc, tokens)?;
    more_values(alloc, first, after)
}

/// A first expression with all further ones.
fn more_values(
    alloc: Global,
    first: Tree,
    tokens: &[Token],
) -> Result<(Vec<Tree>, &[Token]), TextFault>
    ensures { IsTextResultOrMemory (λ x. (map formula_of x.0.items, x.1.now)) result
        (with_front (formula_of first ∷ []) (many more_formula (length tokens.now) tokens.now)) }
{
    let mut values = Vec::new(alloc);
    values.push(first)?;
    let mut left = tokens;
    for _ in 0..tokens.len() {
        let (value, after) = one_more(alloc, left)?;
        let Some(value) = value else {
            return Ok((values, after));
        };
        values.push(value)?;
        left = after;
    }
    Err(TextFault::Fault(Fault {
        at: place(left),
        why: Why::Endless,
    }))
}

/// One more expression behind a comma, or none where a parenthesis closes.
#[tactic(auto, unfolding(crate::specs::Messages::more_formula))]
fn one_more(alloc: Global, tokens: &[Token]) -> Result<(Option<Tree>, &[Token]), TextFault>
    ensures { IsTextResultOrMemory (λ x. (option_map formula_of x.0, x.1.now)) result (more_formula tokens.now) }
{
    match take(tokens, b',') {
        Some(after) => {
            let (value, after) = read_formula(alloc, after)?;
            Ok((Some(value), after))
        }
        None => Ok((None, need(tokens, b')')?)),
    }
}

/// How often a message counts, where `times` says it, and the most, where `at most` says that.
#[tactic(auto, unfolding(crate::specs::Messages::count_at))]
fn read_count(
    alloc: Global,
    tokens: &[Token],
) -> Result<(Option<Tree>, Option<u64>, &[Token]), TextFault>
    ensures { IsTextResultOrMemory (λ x. ((option_map formula_of x.0, x.1), x.2.now)) result
        (count_at tokens.now) }
{
    match word(tokens) {
        Word::Times => {
            let (times, after) = read_formula(alloc, rest(tokens))?;
            let (at_most, after) = read_most(after)?;
            Ok((Some(times), at_most, after))
        }
        _ => Ok((None, None, tokens)),
    }
}

/// The most that a message counts, where `at most` says it.
#[tactic(auto, unfolding(crate::specs::Messages::most_at))]
fn read_most(tokens: &[Token]) -> Result<(Option<u64>, &[Token]), TextFault>
    ensures { IsTextResultOrMemory (λ x. (x.0, x.1.now)) result (most_at tokens.now) }
{
    match word(tokens) {
        Word::At => {
            let (most, after) = number(need_most(rest(tokens))?)?;
            Ok((Some(most), after))
        }
        _ => Ok((None, tokens)),
    }
}

/// The tokens after `most`, which has to be there.
#[tactic(auto, unfolding(crate::specs::Messages::most_needed))]
fn need_most(tokens: &[Token]) -> Result<&[Token], TextFault>
    ensures { IsTextResultOrMemory (λ x. x.now) result (most_needed tokens.now) }
{
    match word(tokens) {
        Word::Most => Ok(rest(tokens)),
        _ => Err(TextFault::Fault(Fault {
            at: place(tokens),
            why: Why::Most,
        })),
    }
}
