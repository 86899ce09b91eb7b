//! What is written behind the mark below a fault.
use crate::given::Given;
use crate::names::name_at;
use crate::near::near_name;
use check_page::bus_named;
use language::{BatchText, Fault, Kind, TextFault, Why, place_of, tokens};
use language_meaning::{NameRefusal, NameWhy};
use std::alloc::{AllocError, Global};

/// What helps to mend a fault.
#[derive(Debug, Drop)]
pub(crate) enum Hint {
    /// The name that was meant.
    Name(Vec<u8>),
    /// The line that declares the bus, and how many values its messages carry.
    Bus { line: usize, values: usize },
    /// A comma or an operator may be missing before this place.
    Sign,
}

/// What helps to mend a fault of a text, if anything does: where a name, a number or `(` stands in place
/// of `)`, a comma or an operator may be missing before it.
pub(crate) fn hint_of_text(
    alloc: Global,
    text: &[u8],
    fault: Fault,
) -> Result<Option<Hint>, AllocError> {
    let Why::Sign(b')') = fault.why else {
        return Ok(None);
    };
    let found = match tokens(alloc, text) {
        Ok(found) => found,
        Err(TextFault::Memory) => return Err(AllocError),
        Err(TextFault::Fault(_)) => return Ok(None),
    };
    for (kind, span) in &found {
        let begins_value = matches!(*kind, Kind::Name(_) | Kind::Number(_) | Kind::Sign(b'('));
        if begins_value && span.start == fault.at {
            return Ok(Some(Hint::Sign));
        }
    }
    Ok(None)
}

/// What helps to mend a fault of a name, if anything does.
pub(crate) fn hint_of(
    alloc: Global,
    given: Given<'_>,
    batch: &BatchText,
    fault: NameRefusal,
) -> Result<Option<Hint>, AllocError> {
    match fault.why {
        NameWhy::TupleWidth => Ok(declared_bus(given.text, batch, fault.at)),
        why => match near_name(alloc, given, batch, fault.at, why)? {
            Some(name) => Ok(Some(Hint::Name(name))),
            None => Ok(None),
        },
    }
}

/// Where the bus is declared whose name stands at a byte of the text.
fn declared_bus(text: &[u8], batch: &BatchText, at: usize) -> Option<Hint> {
    let bus = bus_named(text, batch, name_at(text, at))?;
    Some(Hint::Bus {
        line: place_of(text, bus.name.start).line,
        values: bus.fields.len(),
    })
}
