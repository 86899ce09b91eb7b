//! The items of an AIR.
ghost use Rattle.std.specs.Prelude.{◌≡◌, ◌∷◌, [], length, map, option_map};
ghost use Rattle.language.specs.Faults.{IsTextResultOrMemory};
ghost use Rattle.language.specs.Formulas.{formula_of};
ghost use Rattle.language.specs.Items.{declaration_in, flag_at, assertion_at, item_at, item_in, item_of, let_at, more_name, more_part, names_at, part_at, group_part_of, parts_at, placed_of, public_at, when_needed};
ghost use Rattle.language.specs.Lists.{many, with_front};

use crate::fault::{Fault, TextFault, Why};
use crate::formula::{Tree, read_formula};
use crate::front::{name, need, need_line, number, place, quoted, rest, skip_lines, take, word};
use crate::message::{MessageText, read_message};
use crate::token::{Span, Token, Word};
use std::alloc::Global;

/// A message of a group, in an exclusive group with its flag.
#[derive(Debug, Drop)]
pub struct PartText {
    pub flag: Option<Tree>,
    pub message: MessageText,
}

/// An item of an AIR.
#[derive(Debug, Drop)]
pub enum ItemText {
    /// The file that has the main trace.
    Trace(Span),
    /// The file that has the preprocessed trace.
    Preprocessed(Span),
    /// A file that has lookups.
    Lookups(Span),
    /// How many rows the trace has.
    Height(u64),
    /// The columns of the main trace.
    Columns(Vec<Span>),
    /// A public value, by its name.
    Public(Span, u64),
    /// An expression, by its name.
    Let(Span, Tree),
    /// An expression that has to be zero on every row.
    Assert(Tree),
    /// An expression that has to be 0 or 1 on every row.
    AssertBool(Tree),
    Message(MessageText),
    /// Messages in one column, all of which count.
    Together(Vec<PartText>),
    /// Messages in one column, of which at most one counts on a row: that whose flag is set.
    Exclusive(Vec<PartText>),
}

/// An item of an AIR, and the byte at which it begins.
#[derive(Debug, Drop)]
pub struct PlacedItem {
    pub at: usize,
    pub item: ItemText,
}

/// The item at the front of some tokens, and the tokens after it.
#[tactic(auto, unfolding(crate::specs::Items::item_at))]
pub(crate) fn read_item(
    alloc: Global,
    tokens: &[Token],
) -> Result<(PlacedItem, &[Token]), TextFault>
    ensures { IsTextResultOrMemory (λ x. (placed_of x.0, x.1.now)) result (item_at tokens.now) }
{
    let at = place(tokens);
    let (item, after) = read_kind(alloc, word(tokens), tokens)?;
    Ok((PlacedItem { at, item }, after))
}

/// An item that begins with this word.
#[tactic(auto, unfolding(crate::specs::Items::item_in))]
fn read_kind(alloc: Global, word: Word, tokens: &[Token]) -> Result<(ItemText, &[Token]), TextFault>
    ensures { IsTextResultOrMemory (λ x. (item_of x.0, x.1.now)) result (item_in word tokens.now) }
{
    match word {
        Word::Query | Word::Provide | Word::Send | Word::Receive => {
            let (message, after) = read_message(alloc, tokens)?;
            Ok((ItemText::Message(message), after))
        }
        Word::Together => {
            let (parts, after) = read_parts(alloc, false, rest(tokens))?;
            Ok((ItemText::Together(parts), after))
        }
        Word::Exclusive => {
            let (parts, after) = read_parts(alloc, true, rest(tokens))?;
            Ok((ItemText::Exclusive(parts), after))
        }
        word => read_declaration(alloc, word, tokens),
    }
}

/// An item that is no message.
#[tactic(auto, unfolding(crate::specs::Items::declaration_in))]
fn read_declaration(
    alloc: Global,
    word: Word,
    tokens: &[Token],
) -> Result<(ItemText, &[Token]), TextFault>
    ensures { IsTextResultOrMemory (λ x. (item_of x.0, x.1.now)) result (declaration_in word tokens.now) }
{
    match word {
        Word::Trace => {
            let (file, after) = quoted(rest(tokens))?;
            Ok((ItemText::Trace(file), after))
        }
        Word::Preprocessed => {
            let (file, after) = quoted(rest(tokens))?;
            Ok((ItemText::Preprocessed(file), after))
        }
        Word::Lookups => {
            let (file, after) = quoted(rest(tokens))?;
            Ok((ItemText::Lookups(file), after))
        }
        Word::Height => {
            let (height, after) = number(rest(tokens))?;
            Ok((ItemText::Height(height), after))
        }
        Word::Columns => {
            let (columns, after) = read_names(alloc, need(rest(tokens), b'(')?)?;
            Ok((ItemText::Columns(columns), after))
        }
        Word::Public => read_public(rest(tokens)),
        Word::Let => read_let(alloc, rest(tokens)),
        Word::Assert => read_assertion(alloc, rest(tokens)),
        _ => Err(TextFault::Fault(Fault {
            at: place(tokens),
            why: Why::Item,
        })),
    }
}

/// A public value with its name.
#[tactic(auto, unfolding(crate::specs::Items::public_at))]
fn read_public(tokens: &[Token]) -> Result<(ItemText, &[Token]), TextFault>
    ensures { IsTextResultOrMemory (λ x. (item_of x.0, x.1.now)) result (public_at tokens.now) }
{
    let (name, after) = name(tokens, Why::Name)?;
    let (value, after) = number(need(after, b'=')?)?;
    Ok((ItemText::Public(name, value), after))
}

/// An expression with its name.
#[tactic(auto, unfolding(crate::specs::Items::let_at))]
fn read_let(alloc: Global, tokens: &[Token]) -> Result<(ItemText, &[Token]), TextFault>
    ensures { IsTextResultOrMemory (λ x. (item_of x.0, x.1.now)) result (let_at tokens.now) }
{
    let (name, after) = name(tokens, Why::Name)?;
    let (value, after) = read_formula(alloc, need(after, b'=')?)?;
    Ok((ItemText::Let(name, value), after))
}

/// An expression that has to be zero on every row, or behind `bool` one that has to be 0 or 1.
#[tactic(auto, unfolding(crate::specs::Items::assertion_at))]
fn read_assertion(alloc: Global, tokens: &[Token]) -> Result<(ItemText, &[Token]), TextFault>
    ensures { IsTextResultOrMemory (λ x. (item_of x.0, x.1.now)) result (assertion_at tokens.now) }
{
    match word(tokens) {
        Word::Bool => {
            let (value, after) = read_formula(alloc, rest(tokens))?;
            Ok((ItemText::AssertBool(value), after))
        }
        _ => {
            let (value, after) = read_formula(alloc, tokens)?;
            Ok((ItemText::Assert(value), after))
        }
    }
}

/// Names between commas, and what stands after the parenthesis that closes them.
#[tactic(auto, unfolding(crate::specs::Items::names_at))]
pub(crate) fn read_names(
    alloc: Global,
    tokens: &[Token],
) -> Result<(Vec<Span>, &[Token]), TextFault>
    ensures { IsTextResultOrMemory (λ x. (x.0.items, x.1.now)) result (names_at tokens.now) }
{
    let (first, after) = name(tokens, Why::Name)?;
    more_names(alloc, first, after)
}

/// A first name with all further ones.
fn more_names(
    alloc: Global,
    first: Span,
    tokens: &[Token],
) -> Result<(Vec<Span>, &[Token]), TextFault>
    ensures { IsTextResultOrMemory (λ x. (x.0.items, x.1.now)) result
        (with_front (first ∷ []) (many more_name (length tokens.now) tokens.now)) }
{
    let mut values = Vec::new(alloc);
    values.push(first)?;
    let mut left = tokens;
    for _ in 0..tokens.len() {
        let (value, after) = one_more_name(left)?;
        let Some(value) = value else {
            return Ok((values, after));
        };
        values.push(value)?;
        left = after;
    }
    Err(TextFault::Fault(Fault {
        at: place(left),
        why: Why::Endless,
    }))
}

/// One more name behind a comma, or none where a parenthesis closes.
#[tactic(auto, unfolding(crate::specs::Items::more_name))]
fn one_more_name(tokens: &[Token]) -> Result<(Option<Span>, &[Token]), TextFault>
    ensures { IsTextResultOrMemory (λ x. (x.0, x.1.now)) result (more_name tokens.now) }
{
    match take(tokens, b',') {
        Some(after) => {
            let (value, after) = name(after, Why::Name)?;
            Ok((Some(value), after))
        }
        None => Ok((None, need(tokens, b')')?)),
    }
}

/// The messages of a group, in braces.
#[tactic(auto, unfolding(crate::specs::Items::parts_at))]
fn read_parts(
    alloc: Global,
    exclusive: bool,
    tokens: &[Token],
) -> Result<(Vec<PartText>, &[Token]), TextFault>
    ensures { IsTextResultOrMemory (λ x. (map group_part_of x.0.items, x.1.now)) result
        (parts_at exclusive tokens.now) }
{
    all_parts(alloc, exclusive, need(tokens, b'{')?)
}

/// The messages of a group, up to the brace that closes it.
fn all_parts(
    alloc: Global,
    exclusive: bool,
    tokens: &[Token],
) -> Result<(Vec<PartText>, &[Token]), TextFault>
    ensures { IsTextResultOrMemory (λ x. (map group_part_of x.0.items, x.1.now)) result
        (many (more_part exclusive) (length tokens.now) tokens.now) }
{
    let mut values = Vec::new(alloc);
    let mut left = tokens;
    for _ in 0..tokens.len() {
        let (value, after) = one_more_part(alloc, exclusive, left)?;
        let Some(value) = value else {
            return Ok((values, after));
        };
        values.push(value)?;
        left = after;
    }
    Err(TextFault::Fault(Fault {
        at: place(left),
        why: Why::Endless,
    }))
}

/// One more message of a group on its line, or none where the group ends.
#[tactic(auto, unfolding(crate::specs::Items::more_part))]
fn one_more_part(
    alloc: Global,
    exclusive: bool,
    tokens: &[Token],
) -> Result<(Option<PartText>, &[Token]), TextFault>
    ensures { IsTextResultOrMemory (λ x. (option_map group_part_of x.0, x.1.now)) result
        (more_part exclusive tokens.now) }
{
    let tokens = skip_lines(tokens);
    match take(tokens, b'}') {
        Some(after) => Ok((None, after)),
        None => {
            let (part, after) = read_part(alloc, exclusive, tokens)?;
            Ok((Some(part), need_line(after)?))
        }
    }
}

/// A message of a group.
#[tactic(auto, unfolding(crate::specs::Items::part_at))]
fn read_part(
    alloc: Global,
    exclusive: bool,
    tokens: &[Token],
) -> Result<(PartText, &[Token]), TextFault>
    ensures { IsTextResultOrMemory (λ x. (group_part_of x.0, x.1.now)) result (part_at exclusive tokens.now) }
{
    let (flag, after) = read_flag(alloc, exclusive, tokens)?;
    let (message, after) = read_message(alloc, after)?;
    Ok((PartText { flag, message }, after))
}

/// The flag of a message in an exclusive group.
#[tactic(auto, unfolding(crate::specs::Items::flag_at))]
fn read_flag(
    alloc: Global,
    exclusive: bool,
    tokens: &[Token],
) -> Result<(Option<Tree>, &[Token]), TextFault>
    ensures { IsTextResultOrMemory (λ x. (option_map formula_of x.0, x.1.now)) result
        (flag_at exclusive tokens.now) }
{
    if exclusive {
        let (flag, after) = read_formula(alloc, need_when(tokens)?)?;
        Ok((Some(flag), after))
    } else {
        Ok((None, tokens))
    }
}

/// The tokens after `when`, which has to be there.
#[tactic(auto, unfolding(crate::specs::Items::when_needed))]
fn need_when(tokens: &[Token]) -> Result<&[Token], TextFault>
    ensures { IsTextResultOrMemory (λ x. x.now) result (when_needed tokens.now) }
{
    match word(tokens) {
        Word::When => Ok(rest(tokens)),
        _ => Err(TextFault::Fault(Fault {
            at: place(tokens),
            why: Why::When,
        })),
    }
}
