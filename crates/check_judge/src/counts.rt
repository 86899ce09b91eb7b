//! What a text says of how often messages count: which are queries, and the most that each counts on a row.
ghost use Rattle.std.specs.Prelude.{◌≡◌, ◌∷◌, [], IfOk, map};
ghost use Rattle.language.specs.Items.{group_part_of, placed_of};
ghost use Rattle.language.specs.Messages.{message_of};
ghost use Rattle.check_judge.specs.Counts.{count_of, counts_for, counts_in, is_query};

use language::{ItemText, MessageText, PartText, PlacedItem, Verb};
use std::alloc::{AllocError, Global};

/// What a text says of how often a message counts.
#[derive(Debug, Clone, Copy, PartialEq, Eq)]
pub struct SaidCount {
    /// Whether it is a query. All messages are, but those that are provided.
    pub is_query: bool,
    /// The most that it counts on one row, where `at most` says that.
    pub at_most: Option<u64>,
}

/// What the items of an AIR say of how often messages count: for each lookup, in the order of the text, and for each of
/// its messages.
///
/// Fails only when out of memory.
pub(crate) fn counts_of(
    alloc: Global,
    items: &[PlacedItem],
) -> Result<Vec<Vec<SaidCount>>, AllocError>
    ensures { IfOk result (λ v. map (λ c. c.items) v.items ≡ counts_in (map placed_of items.now)) }
{
    let mut counts = Vec::new(alloc);
    for item in items {
        match &item.item {
            ItemText::Message(message) => counts.push(Vec::from_array(
                alloc,
                [count_of(message)],
            )?)?,
            ItemText::Together(parts) | ItemText::Exclusive(parts) => {
                counts.push(counts_of_parts(alloc, parts)?)?;
            }
            _ => {}
        }
    }
    Ok(counts)
}

/// The same of the messages of a group.
fn counts_of_parts(alloc: Global, parts: &[PartText]) -> Result<Vec<SaidCount>, AllocError>
    ensures { IfOk result (λ v. v.items ≡ map (λ p. count_of p.message) (map group_part_of parts.now)) }
{
    let mut counts = Vec::with_capacity(alloc, parts.len())?;
    for part in parts {
        counts.push(count_of(&part.message))?;
    }
    Ok(counts)
}

/// What is said of the counts of the lookup with this number.
pub(crate) fn counts_at(counts: &[Vec<SaidCount>], number: usize) -> &[SaidCount]
    ensures { result.now ≡ counts_for (map (λ c. c.items) counts.now) number }
{
    if number < counts.len() {
        counts[number].as_slice()
    } else {
        &[]
    }
}

/// What is said of how often a message counts.
fn count_of(message: &MessageText) -> SaidCount
    ensures { result ≡ count_of (message_of message.now) }
{
    SaidCount {
        is_query: is_query(message.verb),
        at_most: message.at_most,
    }
}

/// Whether messages of a verb are queries.
fn is_query(verb: Verb) -> bool
    ensures { result ≡ is_query verb }
{
    match verb {
        Verb::Provide => false,
        Verb::Query | Verb::Send | Verb::Receive => true,
    }
}
