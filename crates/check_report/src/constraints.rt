//! The constraints of AIRs: whether they hold, where they fail, and what they enforce.
use crate::enforced::{is_enforcement_told, push_enforced};
use crate::unbalanced::push_signed;
use check_judge::{ConstraintFailure, EnforcedAirs, PlanReport, Report};
use check_page::{
    Lines, Page, Told, air_name, constraint_count, is_constraint, push_lookup, trace_file,
};
use field_list::TableField;
use language_meaning::bytes_of;
use std::alloc::AllocError;

/// Appends that all constraints hold, or for each AIR with one that does not the first place at which it
/// fails; and what they enforce. Where there are no constraints, appends the last alone, if it is asked for.
pub(crate) fn push_constraints<F: TableField>(
    page: &mut Page,
    told: Told<'_>,
    report: &Report<F>,
) -> Result<(), AllocError> {
    if !is_enforcement_told(told) {
        return Ok(());
    }
    let count = constraint_count(told.airs);
    if count == 0 {
        page.word("\nCONSTRAINTS\n  there are none\n")?;
    } else if report.hold {
        page.word("\nCONSTRAINTS\n  ")?;
        page.grouped(count as u128)?;
        page.word(if count == 1 {
            " constraint holds"
        } else {
            " constraints hold"
        })?;
        page.word(" on all rows of the traces\n")?;
    } else {
        push_failures(page, told, report)?;
    }
    push_enforced(page, told, &report.plan, &report.enforced)
}

/// Appends for each AIR with a constraint that fails the first place at which it does.
fn push_failures<F: TableField>(
    page: &mut Page,
    told: Told<'_>,
    report: &Report<F>,
) -> Result<(), AllocError> {
    page.word("\nCONSTRAINTS (the first row of an AIR on which one is not zero)\n")?;
    let mut lines = Lines::of(told.text);
    for (air, failure) in report.failures.iter().enumerate() {
        if let Some(failure) = failure {
            push_failure(page, told, air, *failure, &mut lines)?;
        }
    }
    Ok(())
}

/// Appends where a constraint of the AIR with this number fails: its value, the line of the table, the row, and the line
/// of the text.
fn push_failure<F: TableField>(
    page: &mut Page,
    told: Told<'_>,
    air: usize,
    failure: ConstraintFailure<F>,
    lines: &mut Lines<'_>,
) -> Result<(), AllocError> {
    page.word("  ")?;
    page.shown(air_name(told, air))?;
    page.word(": ")?;
    push_signed(page, failure.value)?;
    page.word(" at ")?;
    let Some(said) = told.airs.get(air) else {
        return page.word("?\n");
    };
    if let Some(file) = trace_file(said, false) {
        page.shown(bytes_of(told.text, file))?;
    }
    page.word(":")?;
    page.number(failure.row as u128 + 2)?;
    page.word(" (row ")?;
    page.number(failure.row as u128)?;
    page.word(")")?;
    let mut constraints = said.items.iter().filter(|item| is_constraint(&item.item));
    if let Some(item) = constraints.nth(failure.constraint) {
        page.word(", ")?;
        push_lookup(page, &item.item, lines.line_of(item.at))?;
    }
    page.word("\n")
}

/// Appends what constraints enforce, before any trace is seen, if there are any or it is asked for.
pub(crate) fn push_planned_constraints(
    page: &mut Page,
    told: Told<'_>,
    plan: &PlanReport,
    enforced: &EnforcedAirs,
) -> Result<(), AllocError> {
    if !is_enforcement_told(told) {
        return Ok(());
    }
    page.word(if constraint_count(told.airs) == 0 {
        "\nCONSTRAINTS\n  there are none\n"
    } else {
        "\nCONSTRAINTS\n"
    })?;
    push_enforced(page, told, plan, enforced)
}
