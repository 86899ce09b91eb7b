//! What a text says of the AIRs and buses of a report, found again by their numbers.
use language::{
    AirText, BatchText, BusText, ItemText, MessageText, PlacedItem, SectionText, Span, Tree, Verb,
};
use language_meaning::bytes_of;

/// The lines of a text, found one after the other.
#[derive(Drop)]
pub struct Lines<'a> {
    text: &'a [u8],
    at: usize,
    line: usize,
}

impl<'a> Lines<'a> {
    /// The lines of a text.
    pub fn of(text: &'a [u8]) -> Lines<'a> {
        Lines {
            text,
            at: 0,
            line: 1,
        }
    }

    /// The line of a byte. Bytes that are asked for in order take one pass over the text.
    pub fn line_of(&mut self, at: usize) -> usize {
        if at < self.at {
            self.at = 0;
            self.line = 1;
        }
        let at = at.min(self.text.len());
        if self.at < at {
            let ends = self.text[self.at..at]
                .iter()
                .filter(|byte| **byte == b'\n')
                .count();
            self.line = self.line.saturating_add(ends);
            self.at = at;
        }
        self.line
    }
}

/// The AIR with this number.
pub fn air_at(batch: &BatchText, air: usize) -> Option<&AirText> {
    let mut before = air;
    for section in &batch.sections {
        if let SectionText::Air(found) = section {
            if before == 0 {
                return Some(found);
            }
            before -= 1;
        }
    }
    None
}

/// The declaration of the bus with this name.
pub fn bus_named<'a>(text: &[u8], batch: &'a BatchText, name: &[u8]) -> Option<&'a BusText> {
    for section in &batch.sections {
        if let SectionText::Bus(bus) = section {
            if bytes_of(text, bus.name) == name {
                return Some(bus);
            }
        }
    }
    None
}

/// The item with the lookup of this number.
pub fn lookup_at(air: &AirText, lookup: usize) -> Option<&PlacedItem> {
    air.items
        .iter()
        .filter(|item| is_lookup(&item.item))
        .nth(lookup)
}

/// Whether an item has a lookup.
pub fn is_lookup(item: &ItemText) -> bool {
    matches!(
        item,
        ItemText::Message(_) | ItemText::Together(_) | ItemText::Exclusive(_)
    )
}

/// How many constraints some AIRs have.
pub fn constraint_count(airs: &[&AirText]) -> usize {
    let mut count = 0usize;
    for air in airs {
        let items = air.items.iter();
        let found = items.filter(|item| is_constraint(&item.item)).count();
        count = count.saturating_add(found);
    }
    count
}

/// Whether an item has a constraint.
pub fn is_constraint(item: &ItemText) -> bool {
    matches!(item, ItemText::Assert(_) | ItemText::AssertBool(_))
}

/// The word with which an item with a lookup or a constraint begins.
pub fn first_word(item: &ItemText) -> &'static str {
    match item {
        ItemText::Message(message) => verb_word(message.verb),
        ItemText::Together(_) => "together",
        ItemText::Assert(_) | ItemText::AssertBool(_) => "assert",
        _ => "exclusive",
    }
}

/// The word of a verb.
pub fn verb_word(verb: Verb) -> &'static str {
    match verb {
        Verb::Query => "query",
        Verb::Provide => "provide",
        Verb::Send => "send",
        Verb::Receive => "receive",
    }
}

/// The message with this number of an item with a lookup.
pub fn message_at(item: &ItemText, number: usize) -> Option<&MessageText> {
    match item {
        ItemText::Message(message) if number == 0 => Some(message),
        ItemText::Together(parts) | ItemText::Exclusive(parts) => {
            let part = parts.get(number)?;
            Some(&part.message)
        }
        _ => None,
    }
}

/// The flag of that message, if it has one.
pub fn flag_at(item: &ItemText, number: usize) -> Option<&Tree> {
    match item {
        ItemText::Exclusive(parts) => parts.get(number)?.flag.as_ref(),
        _ => None,
    }
}

/// Whether an item has a message that is not provided.
pub fn has_queries(item: &ItemText) -> bool {
    match item {
        ItemText::Message(message) => message.verb != Verb::Provide,
        ItemText::Together(parts) | ItemText::Exclusive(parts) => {
            parts.iter().any(|part| part.message.verb != Verb::Provide)
        }
        _ => false,
    }
}

/// The most that a row adds to a count by a message.
pub fn weight_of(message: &MessageText) -> u64 {
    match (message.verb, message.at_most, &message.times) {
        (Verb::Provide, _, _) => 0,
        (_, Some(most), _) => most,
        (_, None, None) => 1,
        (_, None, Some(Tree::Number(number, _))) => *number,
        _ => 0,
    }
}

/// The file of the main or the preprocessed trace of an AIR.
pub fn trace_file(air: &AirText, preprocessed: bool) -> Option<Span> {
    for item in &air.items {
        match &item.item {
            ItemText::Trace(file) if !preprocessed => return Some(*file),
            ItemText::Preprocessed(file) if preprocessed => return Some(*file),
            _ => {}
        }
    }
    None
}

/// Whether any of these AIRs has fixed columns.
pub fn have_fixed_columns(airs: &[&AirText]) -> bool {
    airs.iter().any(|air| trace_file(air, true).is_some())
}

/// The name of the public value with this number.
pub fn public_name<'a>(text: &'a [u8], air: &AirText, index: usize) -> &'a [u8] {
    let mut before = index;
    for item in &air.items {
        if let ItemText::Public(name, _) = &item.item {
            if before == 0 {
                return bytes_of(text, *name);
            }
            before -= 1;
        }
    }
    &[]
}
