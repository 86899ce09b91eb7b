//! What constraints enforce of lookups, whatever the traces are.
ghost use Rattle.std.specs.Prelude.{◌≡◌, ◌++◌, OnOk};
ghost use Rattle.check_report.specs.Told.{enforced_line};

use air_constraints::RowKind;
use check_judge::{EnforcedAirs, PlanReport};
use check_page::{
    Around, Lines, Page, Told, air_name, constraint_count, flag_at, has_queries,
    have_fixed_columns, head, is_lookup, message_at, push_formula, push_lookup, shown_cell,
    weight_of, word_cell,
};
use language::{ItemText, MessageText, PlacedItem, Tree, Verb};
use lookup_enforced::{Enforcement, Missing};
use std::alloc::{AllocError, Global};

/// What is shown of a lookup, with its item.
#[derive(Clone, Copy)]
struct Shown<'a> {
    text: &'a [u8],
    item: &'a PlacedItem,
    enforcement: &'a Enforcement,
    keeps_weight: bool,
    characteristic: u128,
}

/// Whether it is told what constraints enforce: if there are any, or if it is asked for.
pub fn is_enforcement_told(told: Told<'_>) -> bool {
    told.enforced || constraint_count(told.airs) > 0
}

/// Appends whether all is enforced, if that is asked for.
pub fn push_enforced_line(page: &mut Page, asked: bool, all: bool) -> Result<(), AllocError>
    ensures { OnOk result (page.new.bytes.items ≡ page.old.bytes.items ++ enforced_line asked all) }
{
    if !asked {
        return page.word("");
    }
    if all {
        return page.word("\nENFORCED: all flags and weights are shown to be enforced\n");
    }
    page.word("\nTRUSTED: not all flags and weights are shown to be enforced\n")
}

/// Appends for which traces a bound holds, if it is told what constraints enforce.
pub(crate) fn push_premise(
    page: &mut Page,
    told: Told<'_>,
    enforced: &EnforcedAirs,
) -> Result<(), AllocError> {
    if !is_enforcement_told(told) {
        return Ok(());
    }
    page.word("    for all traces")?;
    push_with_fixed(page, told, " with these fixed columns")?;
    let word = if is_with_fixed(told) {
        ", on which"
    } else {
        " on which"
    };
    push_where_they_hold(page, word, constraint_count(told.airs))?;
    if !enforced.all {
        page.word(", as long as what is marked TRUSTED is so")?;
    }
    page.word("\n")
}

/// Whether fixed columns were looked at.
fn is_with_fixed(told: Told<'_>) -> bool {
    told.over_traces && have_fixed_columns(told.airs)
}

/// Appends these words, if fixed columns were looked at.
fn push_with_fixed(page: &mut Page, told: Told<'_>, words: &str) -> Result<(), AllocError> {
    page.word(if is_with_fixed(told) { words } else { "" })
}

/// Appends, with a word before it, that so many constraints hold; nothing if there are none.
fn push_where_they_hold(page: &mut Page, word: &str, count: usize) -> Result<(), AllocError> {
    if count == 0 {
        return Ok(());
    }
    page.word(word)?;
    if count == 1 {
        return page.word(" this constraint holds");
    }
    page.word(" these ")?;
    page.grouped(count as u128)?;
    page.word(" constraints hold")
}

/// Appends what constraints enforce of each lookup, and what is missing.
pub(crate) fn push_enforced(
    page: &mut Page,
    told: Told<'_>,
    plan: &PlanReport,
    enforced: &EnforcedAirs,
) -> Result<(), AllocError> {
    page.word("  whatever traces of these heights a prover picks")?;
    push_with_fixed(page, told, ", with these fixed columns")?;
    push_where_they_hold(page, ", where", constraint_count(told.airs))?;
    page.word(":\n")?;
    let alloc = page.alloc();
    let (mut lines, mut notes) = (Vec::new(alloc), Vec::new(alloc));
    lines.push(head(alloc, &["air", "lookup", "flags", "weight"])?)?;
    notes.push(Vec::new(alloc))?;
    let mut text_lines = Lines::of(told.text);
    for (index, (air, said)) in enforced.airs.iter().zip(told.airs).enumerate() {
        let shown = air.lookups.iter().zip(&air.weights);
        let items = said.items.iter().filter(|item| is_lookup(&item.item));
        for ((enforcement, keeps_weight), item) in shown.zip(items) {
            let shown = Shown {
                text: told.text,
                item,
                enforcement,
                keeps_weight: *keeps_weight,
                characteristic: plan.characteristic,
            };
            let name = air_name(told, index);
            lines.push(cells_of(alloc, name, shown, text_lines.line_of(item.at))?)?;
            notes.push(notes_of(alloc, shown, &mut text_lines)?)?;
        }
    }
    page.noted_table(&lines, &notes, &[false, false, false, false])
}

/// The cells of a lookup.
fn cells_of(
    alloc: Global,
    air: &[u8],
    shown: Shown<'_>,
    line: usize,
) -> Result<Vec<Vec<u8>>, AllocError> {
    let mut lookup = Page::new(alloc);
    push_lookup(&mut lookup, &shown.item.item, line)?;
    let has_flags = matches!(&shown.item.item, ItemText::Exclusive(_));
    let mut cells = Vec::new(alloc);
    cells.push(shown_cell(alloc, air)?)?;
    cells.push(lookup.bytes)?;
    cells.push(word_cell(alloc, mark(has_flags, shown.enforcement.flags))?)?;
    cells.push(word_cell(
        alloc,
        mark(has_queries(&shown.item.item), shown.keeps_weight),
    )?)?;
    Ok(cells)
}

/// How it is marked whether something is shown to be enforced, if it is there.
fn mark(is_there: bool, is_shown: bool) -> &'static str {
    match (is_there, is_shown) {
        (false, _) => "-",
        (true, true) => "enforced",
        (true, false) => "TRUSTED",
    }
}

/// What is missing of a lookup, each on a line: of its flags, and then of its weight.
fn notes_of(
    alloc: Global,
    shown: Shown<'_>,
    text_lines: &mut Lines<'_>,
) -> Result<Vec<u8>, AllocError> {
    let (mut notes, mut of_weight) = (Page::new(alloc), Page::new(alloc));
    if let Some(Missing::Exclusive { kind }) = shown.enforcement.missing {
        push_missing_exclusion(&mut notes, shown, kind)?;
    }
    for (number, bound) in shown.enforcement.bounds.iter().enumerate() {
        let Some(message) = message_at(&shown.item.item, number) else {
            continue;
        };
        let line = text_lines.line_of(message.at);
        if let Some(Missing::Flag { flag, kind }) = shown.enforcement.missing {
            if flag == number {
                push_missing_flag(&mut notes, shown, number, line, kind)?;
            }
        }
        if !shown.keeps_weight && message.verb != Verb::Provide {
            let allowed = allowed_of(&shown.item.item, message);
            push_missing_bound(&mut of_weight, shown, message, line, *bound, allowed)?;
        }
    }
    if !shown.keeps_weight && of_weight.bytes.is_empty() {
        push_missing_sum(&mut of_weight, shown)?;
    }
    notes.bytes.extend_from_slice(&of_weight.bytes)?;
    Ok(notes.bytes)
}

/// How often a message may count on a row: as is said of it, and in an exclusive group as is said of any of its
/// messages.
fn allowed_of(item: &ItemText, message: &MessageText) -> u64 {
    match item {
        ItemText::Exclusive(parts) => {
            let mut most = 0;
            for part in parts {
                most = weight_of(&part.message).max(most);
            }
            most
        }
        _ => weight_of(message),
    }
}

/// Appends that a flag is not shown to be 0 or 1.
fn push_missing_flag(
    notes: &mut Page,
    shown: Shown<'_>,
    number: usize,
    line: usize,
    kind: RowKind,
) -> Result<(), AllocError> {
    notes.word("      the flag of line ")?;
    notes.number(line as u128)?;
    notes.word(" is not shown to be 0 or 1 on ")?;
    notes.word(rows_of(kind))?;
    if let Some(flag) = flag_at(&shown.item.item, number) {
        notes.word(" (add: assert bool ")?;
        push_formula(notes, shown.text, flag, Around::Nothing)?;
        notes.word(")")?;
    }
    notes.word("\n")
}

/// Appends that it is not shown that at most one flag is 1.
fn push_missing_exclusion(
    notes: &mut Page,
    shown: Shown<'_>,
    kind: RowKind,
) -> Result<(), AllocError> {
    notes.word("      it is not shown that at most one flag is 1 on ")?;
    notes.word(rows_of(kind))?;
    let flags = shown.enforcement.bounds.len();
    if (flags as u128) < shown.characteristic {
        notes.word(" (add: assert bool ")?;
        for number in 0..flags {
            if let Some(flag) = flag_at(&shown.item.item, number) {
                let around = if number == 0 {
                    Around::Nothing
                } else {
                    Around::Product
                };
                notes.word(if number == 0 { "" } else { " + " })?;
                push_formula(notes, shown.text, flag, around)?;
            }
        }
        notes.word(")")?;
    }
    notes.word("\n")
}

/// Appends that the count of a message is not shown to be within what is allowed, unless it is.
fn push_missing_bound(
    notes: &mut Page,
    shown: Shown<'_>,
    message: &MessageText,
    line: usize,
    bound: Option<u64>,
    allowed: u64,
) -> Result<(), AllocError> {
    match bound {
        Some(bound) if bound <= allowed => Ok(()),
        Some(bound) => {
            notes.word("      the count of line ")?;
            notes.number(line as u128)?;
            notes.word(" is shown to be at most ")?;
            push_above(notes, bound, allowed)
        }
        None => {
            notes.word("      no bound is shown of the count of line ")?;
            notes.number(line as u128)?;
            if let Some(times) = &message.times {
                push_bound_hint(notes, shown.text, times, allowed)?;
            }
            notes.word("\n")
        }
    }
}

/// Appends which assertion bounds a count by 1 or by 0, where no more is allowed.
fn push_bound_hint(
    notes: &mut Page,
    text: &[u8],
    times: &Tree,
    allowed: u64,
) -> Result<(), AllocError> {
    if allowed > 1 {
        return Ok(());
    }
    notes.word(if allowed == 1 {
        " (add: assert bool "
    } else {
        " (add: assert "
    })?;
    push_formula(notes, text, times, Around::Nothing)?;
    notes.word(")")
}

/// Appends that the counts of an exclusive group are only bounded together, since its flags are not shown.
fn push_missing_sum(notes: &mut Page, shown: Shown<'_>) -> Result<(), AllocError> {
    let (mut sum, mut allowed) = (0u64, 0);
    for (number, bound) in shown.enforcement.bounds.iter().enumerate() {
        if let Some(message) = message_at(&shown.item.item, number) {
            if message.verb != Verb::Provide {
                sum = sum.saturating_add(bound.unwrap_or(0));
                allowed = allowed_of(&shown.item.item, message);
            }
        }
    }
    notes.word("      unless its flags are lawful, its counts may add up to ")?;
    push_above(notes, sum, allowed)
}

/// Appends a number that is above another one.
fn push_above(notes: &mut Page, number: u64, other: u64) -> Result<(), AllocError> {
    notes.grouped(u128::from(number))?;
    notes.word(", which is above ")?;
    notes.grouped(u128::from(other))?;
    notes.word("\n")
}

/// Rows of a kind, in words.
fn rows_of(kind: RowKind) -> &'static str {
    match (kind.is_first, kind.is_last) {
        (true, true) => "the only row",
        (true, false) => "the first row",
        (false, true) => "the last row",
        (false, false) => "a row between the first and the last",
    }
}
