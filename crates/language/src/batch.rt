//! A whole text: buses and AIRs.
ghost use Rattle.std.specs.Prelude.{◌≡◌, length, map, option_map};
ghost use Rattle.language.specs.Batches.{air_at, air_of, batch_at, batch_of, bus_section_at, bus_section_of, more_item, more_section, section_at, section_of};
ghost use Rattle.language.specs.Faults.{IsTextResultOrMemory};
ghost use Rattle.language.specs.Items.{placed_of};
ghost use Rattle.language.specs.Lists.{many};

use crate::fault::{Fault, TextFault, Why};
use crate::front::{is_end, name, need, need_line, place, rest, skip_lines, take, word};
use crate::item::{PlacedItem, read_item, read_names};
use crate::lexer::tokens;
use crate::token::{Span, Token, Word};
use std::alloc::Global;

/// A bus with the names of the values that its messages carry.
#[derive(Debug, Drop)]
pub struct BusText {
    pub name: Span,
    pub fields: Vec<Span>,
}

/// An AIR with its items.
#[derive(Debug, Drop)]
pub struct AirText {
    pub name: Span,
    pub items: Vec<PlacedItem>,
}

/// A bus or an AIR.
#[derive(Debug, Drop)]
pub enum SectionText {
    Bus(BusText),
    Air(AirText),
}

/// What a text says: buses and AIRs, in their order.
#[derive(Debug, Drop)]
pub struct BatchText {
    pub sections: Vec<SectionText>,
}

/// The buses and AIRs of a text, with the places of all names, messages and items.
///
/// Names are not looked up: the same name may stand for two things here, or for none.
///
/// Refuses the first fault: one of `tokens` anywhere in the text, else the first token with which
/// no bus or AIR can go on, or an expression of more than 1,024 layers. Each operator and sign is
/// a layer of its own, and a parenthesis four.
#[tactic(auto, unfolding(crate::specs::Batches::batch_at))]
pub fn read_batch(alloc: Global, text: &[u8]) -> Result<BatchText, TextFault>
    ensures { IsTextResultOrMemory batch_of result (batch_at text.now) }
{
    let tokens = tokens(alloc, text)?;
    let (sections, _) = read_sections(alloc, tokens.as_slice())?;
    Ok(BatchText { sections })
}

/// All buses and AIRs.
fn read_sections(alloc: Global, tokens: &[Token]) -> Result<(Vec<SectionText>, &[Token]), TextFault>
    ensures { IsTextResultOrMemory (λ x. (map section_of x.0.items, x.1.now)) result
        (many more_section (length tokens.now) tokens.now) }
{
    let mut values = Vec::new(alloc);
    let mut left = tokens;
    for _ in 0..tokens.len() {
        let (value, after) = one_more_section(alloc, left)?;
        let Some(value) = value else {
            return Ok((values, after));
        };
        values.push(value)?;
        left = after;
    }
    Err(TextFault::Fault(Fault {
        at: place(left),
        why: Why::Endless,
    }))
}

/// One more bus or AIR on its lines, or none where the text ends.
#[tactic(auto, unfolding(crate::specs::Batches::more_section))]
fn one_more_section(
    alloc: Global,
    tokens: &[Token],
) -> Result<(Option<SectionText>, &[Token]), TextFault>
    ensures { IsTextResultOrMemory (λ x. (option_map section_of x.0, x.1.now)) result
        (more_section tokens.now) }
{
    let tokens = skip_lines(tokens);
    if is_end(tokens) {
        return Ok((None, tokens));
    }
    let (section, after) = read_section(alloc, tokens)?;
    Ok((Some(section), need_line(after)?))
}

/// A bus or an AIR.
#[tactic(auto, unfolding(crate::specs::Batches::section_at))]
fn read_section(alloc: Global, tokens: &[Token]) -> Result<(SectionText, &[Token]), TextFault>
    ensures { IsTextResultOrMemory (λ x. (section_of x.0, x.1.now)) result (section_at tokens.now) }
{
    match word(tokens) {
        Word::Bus => {
            let (bus, after) = read_bus(alloc, rest(tokens))?;
            Ok((SectionText::Bus(bus), after))
        }
        Word::Air => {
            let (air, after) = read_air(alloc, rest(tokens))?;
            Ok((SectionText::Air(air), after))
        }
        _ => Err(TextFault::Fault(Fault {
            at: place(tokens),
            why: Why::Section,
        })),
    }
}

/// A bus, behind its first word.
#[tactic(auto, unfolding(crate::specs::Batches::bus_section_at))]
fn read_bus(alloc: Global, tokens: &[Token]) -> Result<(BusText, &[Token]), TextFault>
    ensures { IsTextResultOrMemory (λ x. (bus_section_of x.0, x.1.now)) result (bus_section_at tokens.now) }
{
    let (name, after) = name(tokens, Why::Name)?;
    let (fields, after) = read_names(alloc, need(after, b'(')?)?;
    Ok((BusText { name, fields }, after))
}

/// An AIR, behind its first word.
#[tactic(auto, unfolding(crate::specs::Batches::air_at))]
fn read_air(alloc: Global, tokens: &[Token]) -> Result<(AirText, &[Token]), TextFault>
    ensures { IsTextResultOrMemory (λ x. (air_of x.0, x.1.now)) result (air_at tokens.now) }
{
    let (name, after) = name(tokens, Why::Name)?;
    let (items, after) = read_items(alloc, need(after, b'{')?)?;
    Ok((AirText { name, items }, after))
}

/// The items of an AIR, up to the brace that closes it.
fn read_items(alloc: Global, tokens: &[Token]) -> Result<(Vec<PlacedItem>, &[Token]), TextFault>
    ensures { IsTextResultOrMemory (λ x. (map placed_of x.0.items, x.1.now)) result
        (many more_item (length tokens.now) tokens.now) }
{
    let mut values = Vec::new(alloc);
    let mut left = tokens;
    for _ in 0..tokens.len() {
        let (value, after) = one_more_item(alloc, left)?;
        let Some(value) = value else {
            return Ok((values, after));
        };
        values.push(value)?;
        left = after;
    }
    Err(TextFault::Fault(Fault {
        at: place(left),
        why: Why::Endless,
    }))
}

/// One more item on its lines, or none where the AIR ends.
#[tactic(auto, unfolding(crate::specs::Batches::more_item))]
fn one_more_item(
    alloc: Global,
    tokens: &[Token],
) -> Result<(Option<PlacedItem>, &[Token]), TextFault>
    ensures { IsTextResultOrMemory (λ x. (option_map placed_of x.0, x.1.now)) result (more_item tokens.now) }
{
    let tokens = skip_lines(tokens);
    match take(tokens, b'}') {
        Some(after) => Ok((None, after)),
        None => {
            let (item, after) = read_item(alloc, tokens)?;
            Ok((Some(item), need_line(after)?))
        }
    }
}
