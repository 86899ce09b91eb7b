//! The sections of a report, as text.
ghost use Rattle.std.specs.Prelude.{◌≡◌, ◌++◌, ℕ, List, OnOk};
ghost use Rattle.check_report.specs.Told.{enforced_line, verdict_line};

use crate::bits::push_bits;
use crate::columns::push_columns;
use crate::constraints::{push_constraints, push_planned_constraints};
use crate::enforced::{push_enforced_line, push_premise};
use crate::excess::push_excesses;
use crate::unbalanced::push_unbalanced;
use check_judge::{AirReport, EnforcedAirs, PlanJudgement, PlanReport, Report};
use check_page::{
    Page, Told, air_name, bus_named, group_cell, head, number_cell, numbers_cell, shown_cell,
    word_cell,
};
use field_list::TableField;
use language_meaning::bytes_of;
use lookup::debug_util::{BusGroup, GroupName};
use std::alloc::AllocError;

/// Appends a report of a batch over its traces.
pub fn push_report<F: TableField>(
    page: &mut Page,
    told: Told<'_>,
    report: &Report<F>,
) -> Result<(), AllocError>
    ensures { OnOk result ((front : List ℕ)
        × (page.new.bytes.items ≡ front ++ (verdict_line report.now.balanced report.now.hold report.now.within
        ++ enforced_line told.entry.enforced report.now.enforced.all))) }
{
    push_sizes(page, told, &report.plan.airs)?;
    push_heights(page, &report.plan)?;
    push_excesses(page, told, report)?;
    push_buses(page, told, &report.groups)?;
    push_unbalanced(page, told, &report.groups)?;
    push_soundness(page, told, report)?;
    push_constraints(page, told, report)?;
    push_verdict(page, report.balanced, report.hold, report.within)?;
    push_enforced_line(page, told.enforced, report.enforced.all)
}

/// Appends whether all messages balance; and that a constraint fails, or that a count is above what `at most` says, if
/// one is.
fn push_verdict(page: &mut Page, balanced: bool, hold: bool, within: bool) -> Result<(), AllocError>
    ensures { OnOk result (page.new.bytes.items
        ≡ page.old.bytes.items ++ verdict_line balanced hold within) }
{
    match (balanced, hold, within) {
        (true, true, true) => {
            page.word("\nBALANCED: every tuple of every bus and local lookup cancels\n")
        }
        (true, false, true) => page.word(
            "\nNOT SATISFIED: all messages balance, but a constraint fails\n",
        ),
        (true, true, false) => page.word(
            "\nNOT SATISFIED: all messages balance, but a count is above its `at most`\n",
        ),
        (true, false, false) => page.word(
            "\nNOT SATISFIED: all messages balance, but a constraint fails and a count is above its `at most`\n",
        ),
        (false, true, true) => page.word("\nNOT BALANCED\n"),
        (false, false, true) => page.word("\nNOT BALANCED, and a constraint fails\n"),
        (false, true, false) => page.word("\nNOT BALANCED, and a count is above its `at most`\n"),
        (false, false, false) => page.word(
            "\nNOT BALANCED, a constraint fails, and a count is above its `at most`\n",
        ),
    }
}

/// Appends a report of a batch whose traces are not there yet.
pub fn push_plan(
    page: &mut Page,
    told: Told<'_>,
    judged: &PlanJudgement,
) -> Result<(), AllocError> {
    let PlanJudgement { report, enforced } = judged;
    push_sizes(page, told, &report.airs)?;
    push_heights(page, report)?;
    page.word("\nSOUNDNESS\n")?;
    push_all_traces(page, told, report, enforced)?;
    push_planned_constraints(page, told, report, enforced)
}

/// Appends a line for each AIR, and one for each packed column.
pub fn push_airs(page: &mut Page, told: Told<'_>, airs: &[AirReport]) -> Result<(), AllocError> {
    push_sizes(page, told, airs)?;
    push_columns(page, told, airs)
}

/// Appends a line for each AIR.
fn push_sizes(page: &mut Page, told: Told<'_>, airs: &[AirReport]) -> Result<(), AllocError> {
    let alloc = page.alloc();
    page.word("AIRS (packed: within degree ")?;
    page.number(told.max_degree as u128)?;
    page.word(")\n")?;
    let titles = [
        "air", "rows", "columns", "lookups", "weight", "degrees", "packed", "degrees",
    ];
    let mut lines = Vec::new(alloc);
    lines.push(head(alloc, &titles)?)?;
    for (index, air) in airs.iter().enumerate() {
        let name = air_name(told, index);
        let mut cells = Vec::new(alloc);
        cells.push(shown_cell(alloc, name)?)?;
        cells.push(number_cell(alloc, air.rows as u128)?)?;
        cells.push(number_cell(alloc, air.columns as u128)?)?;
        cells.push(number_cell(alloc, air.degrees.len() as u128)?)?;
        cells.push(number_cell(alloc, air.weight)?)?;
        cells.push(numbers_cell(alloc, &air.degrees)?)?;
        cells.push(number_cell(alloc, air.packed.len() as u128)?)?;
        cells.push(numbers_cell(alloc, &air.packed)?)?;
        lines.push(cells)?;
    }
    page.table(&lines, &[false, true, true, true, true, false, true, false])
}

/// Appends the height bound.
fn push_heights(page: &mut Page, report: &PlanReport) -> Result<(), AllocError> {
    page.word("\nHEIGHT BOUND  weights times heights: ")?;
    page.grouped(report.height_sum)?;
    page.word(" of ")?;
    page.grouped(report.characteristic)?;
    page.word("\n              ids: ")?;
    page.grouped(report.ids as u128)?;
    page.word(", widest tuple: ")?;
    page.grouped(report.widest as u128)?;
    page.word("\n")
}

/// Appends a line for each bus.
fn push_buses<F>(
    page: &mut Page,
    told: Told<'_>,
    groups: &[BusGroup<F>],
) -> Result<(), AllocError> {
    let alloc = page.alloc();
    page.word("\nBUSES (messages whose count is not zero)\n")?;
    let titles = [
        "bus",
        "carries",
        "sent",
        "received",
        "distinct",
        "unbalanced",
    ];
    let mut lines = Vec::new(alloc);
    lines.push(head(alloc, &titles)?)?;
    for group in groups {
        let mut cells = Vec::new(alloc);
        cells.push(group_cell(page, told, &group.name)?)?;
        cells.push(carries_cell(page, told, &group.name)?)?;
        cells.push(number_cell(alloc, group.sent as u128)?)?;
        cells.push(number_cell(alloc, group.received as u128)?)?;
        cells.push(number_cell(alloc, group.distinct as u128)?)?;
        cells.push(if group.unbalanced == 0 {
            word_cell(alloc, "-")?
        } else {
            number_cell(alloc, group.unbalanced as u128)?
        })?;
        lines.push(cells)?;
    }
    page.table(&lines, &[false, false, true, true, true, true])
}

/// A cell with the names of the values that a bus carries.
fn carries_cell(page: &Page, told: Told<'_>, group: &GroupName) -> Result<Vec<u8>, AllocError> {
    let mut cell = Page::new(page.alloc());
    if let GroupName::Bus(name) = group {
        if let Some(bus) = bus_named(told.text, told.batch, name.as_bytes()) {
            for (index, field) in bus.fields.iter().enumerate() {
                if index > 0 {
                    cell.word(", ")?;
                }
                cell.shown(bytes_of(told.text, *field))?;
            }
        }
    }
    Ok(cell.bytes)
}

/// Appends how many challenges may deceive.
fn push_soundness<F>(
    page: &mut Page,
    told: Told<'_>,
    report: &Report<F>,
) -> Result<(), AllocError> {
    page.word("\nSOUNDNESS\n  these traces: n = ")?;
    page.grouped(report.counts.messages)?;
    page.word(" distinct messages, k = ")?;
    page.grouped(report.counts.unbalanced)?;
    page.word(" of them unbalanced, widest tuple W = ")?;
    page.grouped(report.plan.widest as u128)?;
    page.word("\n")?;
    let deceiving = report.for_these_traces();
    if let Some(alphas) = deceiving.alphas {
        page.word("    all but ")?;
        page.grouped(deceiving.betas)?;
        page.word(" betas leave at most ")?;
        page.grouped(alphas)?;
        page.word(" alphas at which any witness is accepted\n")?;
        push_bits(page, told.field, deceiving)?;
    }
    push_all_traces(page, told, &report.plan, &report.enforced)
}

/// Appends how many challenges may deceive, whatever the traces are; and for which traces that holds, if it is told what
/// constraints enforce.
fn push_all_traces(
    page: &mut Page,
    told: Told<'_>,
    report: &PlanReport,
    enforced: &EnforcedAirs,
) -> Result<(), AllocError> {
    page.word("  whatever traces of these heights a prover picks: at most ")?;
    page.grouped(report.heights.most_messages)?;
    page.word(" messages\n")?;
    let deceiving = report.for_all_traces();
    if let Some(alphas) = deceiving.alphas {
        page.word("    if they do not balance, all but ")?;
        page.grouped(deceiving.betas)?;
        page.word(" betas leave at most ")?;
        page.grouped(alphas)?;
        page.word(" alphas\n")?;
        push_bits(page, told.field, deceiving)?;
    }
    push_premise(page, told, enforced)
}
