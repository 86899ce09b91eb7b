//! Counts that are above what `at most` says.
use crate::unbalanced::push_signed;
use check_judge::{Excess, Report};
use check_page::{Lines, Page, Told, air_name, is_lookup, message_at, trace_file, verb_word};
use field_list::TableField;
use language::{AirText, ItemText, Verb};
use language_meaning::bytes_of;
use std::alloc::AllocError;

/// Appends for each lookup with a count above what `at most` says the first place at which it is; nothing if there is
/// none.
pub(crate) fn push_excesses<F: TableField>(
    page: &mut Page,
    told: Told<'_>,
    report: &Report<F>,
) -> Result<(), AllocError> {
    if report.within {
        return Ok(());
    }
    page.word("\nAT MOST (the first row on which a count is above it)\n")?;
    let mut lines = Lines::of(told.text);
    let mut has_query = false;
    for (index, (found, said)) in report.excesses.iter().zip(told.airs).enumerate() {
        let items = said.items.iter().filter(|item| is_lookup(&item.item));
        for (excess, item) in found.iter().zip(items) {
            if let Some(excess) = excess {
                page.word("  ")?;
                page.shown(air_name(told, index))?;
                page.word(": ")?;
                let is_query = push_excess(page, told.text, said, &item.item, *excess, &mut lines)?;
                has_query = has_query || is_query;
            }
        }
    }
    page.word(if has_query {
        "  so the height bound says nothing of these traces\n"
    } else {
        ""
    })
}

/// Appends the count of a message and its place: the line of the table, the row, the line of the text, and what is
/// said there. Whether it is a query.
fn push_excess<F: TableField>(
    page: &mut Page,
    text: &[u8],
    said: &AirText,
    item: &ItemText,
    excess: Excess<F>,
    lines: &mut Lines<'_>,
) -> Result<bool, AllocError> {
    push_signed(page, excess.count)?;
    page.word(" at ")?;
    if let Some(file) = trace_file(said, false) {
        page.shown(bytes_of(text, file))?;
    }
    page.word(":")?;
    page.number(excess.row as u128 + 2)?;
    page.word(" (row ")?;
    page.number(excess.row as u128)?;
    page.word(")")?;
    let Some(message) = message_at(item, excess.message) else {
        page.word("\n")?;
        return Ok(false);
    };
    page.word(", ")?;
    page.word(verb_word(message.verb))?;
    page.word(" of line ")?;
    page.number(lines.line_of(message.at) as u128)?;
    if let Some(most) = message.at_most {
        page.word(", at most ")?;
        page.grouped(u128::from(most))?;
    }
    page.word("\n")?;
    Ok(message.verb != Verb::Provide)
}
