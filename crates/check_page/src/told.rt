//! What the sections of a report are told with.
use crate::page::Page;
use crate::words::first_word;
use field_list::FieldEntry;
use language::{AirText, BatchText, ItemText};
use language_meaning::bytes_of;
use lookup::debug_util::GroupName;
use std::alloc::AllocError;

/// What the sections of a report are told with.
#[derive(Clone, Copy)]
pub struct Told<'a> {
    /// The text of the batch.
    pub text: &'a [u8],
    pub batch: &'a BatchText,
    /// Its AIRs, in their order.
    pub airs: &'a [&'a AirText],
    pub field: FieldEntry,
    /// How many unbalanced tuples of a bus are told, and how many places of a tuple.
    pub limit: usize,
    /// The degree within which columns are packed.
    pub max_degree: usize,
    /// Whether it is asked whether all flags and weights are enforced.
    pub enforced: bool,
    /// Whether traces were looked at, and so the cells of fixed columns.
    pub over_traces: bool,
}

/// The name of the AIR with this number.
pub fn air_name(told: Told<'_>, air: usize) -> &[u8] {
    match told.airs.get(air) {
        Some(said) => bytes_of(told.text, said.name),
        None => &[],
    }
}

/// Appends how a lookup or a constraint is printed: the word with which its item begins, and its line.
pub fn push_lookup(page: &mut Page, item: &ItemText, line: usize) -> Result<(), AllocError> {
    page.word(first_word(item))?;
    page.word(" of line ")?;
    page.number(line as u128)
}

/// A cell with the name of a group.
pub fn group_cell(page: &Page, told: Told<'_>, group: &GroupName) -> Result<Vec<u8>, AllocError> {
    let mut cell = Page::new(page.alloc());
    match group {
        GroupName::Bus(name) => cell.shown(name.as_bytes())?,
        GroupName::Local { instance, lookup } => {
            cell.word("local ")?;
            cell.shown(air_name(told, *instance))?;
            cell.word(" ")?;
            cell.number(*lookup as u128)?;
        }
    }
    Ok(cell.bytes)
}
