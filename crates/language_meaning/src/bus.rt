//! The buses that a text declares.
ghost use Rattle.std.specs.Prelude.{◌≡◌, map};
ghost use Rattle.language.specs.Batches.{section_of};
ghost use Rattle.language_meaning.specs.Buses.{bus_checked, buses_of, declared_width, declares_any, distinct_buses, same_bus};
ghost use Rattle.language_meaning.specs.Scopes.{bytes_in};

use crate::name_fault::{NameRefusal, NameWhy};
use crate::scope::bytes_of;
use language::{BatchText, SectionText, Span};

/// Whether no bus of a text is declared twice. Refuses the first bus whose name was declared before.
pub fn check_buses(text: &[u8], batch: &BatchText) -> Result<(), NameRefusal>
    ensures { result ≡ distinct_buses text.now (map section_of batch.now.sections.items) }
{
    for index in 0..batch.sections.len() {
        if let SectionText::Bus(bus) = &batch.sections[index] {
            if declared_width(text, &batch.sections[..index], bus.name).is_some() {
                return Err(refusal(bus.name, NameWhy::RepeatedBus));
            }
        }
    }
    Ok(())
}

/// Whether a tuple of so many values can be sent on a bus.
///
/// Where a text declares a bus, each bus has to be declared, and a tuple has as many values as its
/// bus declares. A bus of a lookup's own takes all tuples.
#[tactic(auto, unfolding(crate::specs::Buses::bus_checked))]
pub(crate) fn check_bus(
    text: &[u8],
    sections: &[SectionText],
    bus: Option<Span>,
    width: usize,
) -> Result<(), NameRefusal>
    ensures { result ≡ bus_checked text.now (buses_of (map section_of sections.now)) bus width }
{
    let Some(name) = bus else {
        return Ok(());
    };
    match declared_width(text, sections, name) {
        Some(declared) => {
            if declared == width {
                Ok(())
            } else {
                Err(refusal(name, NameWhy::TupleWidth))
            }
        }
        None => {
            if declares(sections) {
                Err(refusal(name, NameWhy::UndeclaredBus))
            } else {
                Ok(())
            }
        }
    }
}

fn refusal(name: Span, why: NameWhy) -> NameRefusal
    ensures { result ≡ record { at = name.start; why = why } }
{
    NameRefusal {
        at: name.start,
        why,
    }
}

/// How many values a tuple on the bus with this name has, if that is declared.
fn declared_width(text: &[u8], sections: &[SectionText], name: Span) -> Option<usize>
    ensures { result ≡ declared_width text.now (bytes_in name text.now)
        (buses_of (map section_of sections.now)) }
{
    let name = bytes_of(text, name);
    for section in sections {
        if let SectionText::Bus(bus) = section {
            if bytes_of(text, bus.name) == name {
                return Some(bus.fields.len());
            }
        }
    }
    None
}

/// Whether some bus is declared.
fn declares(sections: &[SectionText]) -> bool
    ensures { result ≡ declares_any (buses_of (map section_of sections.now)) }
{
    for section in sections {
        if let SectionText::Bus(_) = section {
            return true;
        }
    }
    false
}

/// Whether two buses are one: both have the same name. Both may be a lookup's own.
#[tactic(auto, unfolding(crate::specs::Buses::same_bus))]
pub(crate) fn same_bus(text: &[u8], left: Option<Span>, right: Option<Span>) -> bool
    ensures { result ≡ same_bus text.now left right }
{
    match (left, right) {
        (None, None) => true,
        (Some(left), Some(right)) => bytes_of(text, left) == bytes_of(text, right),
        _ => false,
    }
}
