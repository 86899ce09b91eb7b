//! Names that are off by a letter from one that is there.
use crate::given::Given;
use crate::names::name_at;
use check_page::air_at;
use language::{BatchText, ItemText, SectionText};
use language_meaning::{NameWhy, TableFault, bytes_of, read_shapes};
use std::alloc::{AllocError, Global};

/// The longest name that is compared.
const MAX_NAME: usize = 64;

/// A name that is there and differs by one letter from that at a byte of the text, which stands for
/// nothing: the first bus, or the first column, definition or public value of its AIR.
pub(crate) fn near_name(
    alloc: Global,
    given: Given<'_>,
    batch: &BatchText,
    at: usize,
    why: NameWhy,
) -> Result<Option<Vec<u8>>, AllocError> {
    let name = name_at(given.text, at);
    match why {
        NameWhy::UndeclaredBus => near_bus(alloc, given.text, batch, name),
        NameWhy::UnknownColumn => near_column(alloc, given, batch, at, name),
        NameWhy::UnknownName => match near_column(alloc, given, batch, at, name)? {
            Some(column) => Ok(Some(column)),
            None => near_definition(alloc, given.text, batch, at, name),
        },
        _ => Ok(None),
    }
}

/// Whether two names differ by one letter, and each has another one.
fn is_near(alloc: Global, left: &[u8], right: &[u8]) -> Result<bool, AllocError> {
    let (shorter, longer) = (left.len().min(right.len()), left.len().max(right.len()));
    if shorter < 2 || longer > MAX_NAME {
        return Ok(false);
    }
    Ok(strsim::generic_levenshtein(alloc, left, right)? == 1)
}

/// A bus that is declared.
fn near_bus(
    alloc: Global,
    text: &[u8],
    batch: &BatchText,
    name: &[u8],
) -> Result<Option<Vec<u8>>, AllocError> {
    for section in &batch.sections {
        if let SectionText::Bus(bus) = section {
            let other = bytes_of(text, bus.name);
            if is_near(alloc, other, name)? {
                return Ok(Some(Vec::from_slice(alloc, other)?));
            }
        }
    }
    Ok(None)
}

/// The number of the AIR around a byte of a text: the last that is named before it.
fn air_around(batch: &BatchText, at: usize) -> usize {
    let mut before = 0usize;
    for section in &batch.sections {
        if let SectionText::Air(air) = section {
            if air.name.start <= at {
                before = before.saturating_add(1);
            }
        }
    }
    before.saturating_sub(1)
}

/// A column of the AIR around a byte.
fn near_column(
    alloc: Global,
    given: Given<'_>,
    batch: &BatchText,
    at: usize,
    name: &[u8],
) -> Result<Option<Vec<u8>>, AllocError> {
    let shapes = match read_shapes(alloc, given.text, batch, given.files, u64::MAX) {
        Ok(shapes) => shapes,
        Err(TableFault::Memory) => return Err(AllocError),
        Err(TableFault::Refused(_)) => return Ok(None),
    };
    let Some(shape) = shapes.get(air_around(batch, at)) else {
        return Ok(None);
    };
    for column in &shape.columns {
        // a name that begins with `pre.` is one of a fixed column
        if !column.starts_with(b"pre.") && is_near(alloc, column, name)? {
            return Ok(Some(Vec::from_slice(alloc, column)?));
        }
    }
    for column in &shape.preprocessed {
        let mut other = Vec::from_slice(alloc, b"pre.")?;
        other.extend_from_slice(column)?;
        if is_near(alloc, &other, name)? {
            return Ok(Some(other));
        }
    }
    Ok(None)
}

/// A definition or a public value of the AIR around a byte.
fn near_definition(
    alloc: Global,
    text: &[u8],
    batch: &BatchText,
    at: usize,
    name: &[u8],
) -> Result<Option<Vec<u8>>, AllocError> {
    let Some(air) = air_at(batch, air_around(batch, at)) else {
        return Ok(None);
    };
    for index in 1..air.items.len() {
        // the item around the byte is not known in itself
        if air.items[index].at > at {
            break;
        }
        if let ItemText::Let(other, _) | ItemText::Public(other, _) = &air.items[index - 1].item {
            let other = bytes_of(text, *other);
            if is_near(alloc, other, name)? {
                return Ok(Some(Vec::from_slice(alloc, other)?));
            }
        }
    }
    Ok(None)
}
