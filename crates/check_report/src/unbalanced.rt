//! The tuples that do not balance, with the names and lines of their author.
use check_judge::magnitude;
use check_page::{
    Page, Told, bus_named, characters, group_cell, lookup_at, push_lookup, told_places, trace_file,
};
use field_list::TableField;
use language::{Span, place_of};
use language_meaning::bytes_of;
use lookup::debug_util::{BusGroup, GroupName, Location, SignedField, UnbalancedTuple};
use std::alloc::AllocError;

/// Appends the first unbalanced tuples of each group, at most as many as are told.
pub(crate) fn push_unbalanced<F: TableField>(
    page: &mut Page,
    told: Told<'_>,
    groups: &[BusGroup<F>],
) -> Result<(), AllocError> {
    for group in groups {
        for tuple in group.first.iter().take(told.limit) {
            push_tuple(page, told, &group.name, tuple)?;
            push_near_tuple(page, told, group, tuple)?;
        }
        let more = group
            .unbalanced
            .saturating_sub(group.first.len().min(told.limit));
        if more > 0 {
            page.word("\n  and ")?;
            page.grouped(more as u128)?;
            page.word(" more unbalanced tuples on ")?;
            let name = group_cell(page, told, &group.name)?;
            page.bytes.extend_from_slice(&name)?;
            page.word("\n")?;
        }
    }
    Ok(())
}

/// Appends an unbalanced tuple with the places that are told of it.
fn push_tuple<F: TableField>(
    page: &mut Page,
    told: Told<'_>,
    group: &GroupName,
    tuple: &UnbalancedTuple<F>,
) -> Result<(), AllocError> {
    page.word("\nUNBALANCED on ")?;
    let name = group_cell(page, told, group)?;
    page.bytes.extend_from_slice(&name)?;
    page.word(": ")?;
    push_values(page, told, group, &tuple.tuple)?;
    page.word(if tuple.net.is_negative() {
        " is received or provided too often, by "
    } else {
        " is sent or queried too often, by "
    })?;
    page.grouped(magnitude(tuple.net))?;
    page.word("\n")?;
    let places = told_places(page.alloc(), &tuple.places, told.limit)?;
    for place in &places {
        push_place(page, told, place.location, place.count)?;
    }
    push_more_places(page, tuple.place_count.saturating_sub(places.len()))
}

/// Appends the values of a tuple, each with its name where its bus declares one.
fn push_values<F: TableField>(
    page: &mut Page,
    told: Told<'_>,
    group: &GroupName,
    tuple: &[F],
) -> Result<(), AllocError> {
    page.word("(")?;
    for (index, value) in tuple.iter().enumerate() {
        if index > 0 {
            page.word(", ")?;
        }
        if let Some(field) = field_of(told, group, index) {
            page.shown(bytes_of(told.text, field))?;
            page.word(" ")?;
        }
        page.number(u128::from(value.as_number()))?;
    }
    page.word(")")
}

/// Appends the first tuple that differs from this one in one value alone and is off by as much the
/// other way, if one is known: most likely one of both was meant to be the other.
fn push_near_tuple<F: TableField>(
    page: &mut Page,
    told: Told<'_>,
    group: &BusGroup<F>,
    tuple: &UnbalancedTuple<F>,
) -> Result<(), AllocError> {
    for other in &group.first {
        if other.net + tuple.net != F::ZERO {
            continue;
        }
        let Some(index) = only_difference(&tuple.tuple, &other.tuple) else {
            continue;
        };
        page.word("           differs only in ")?;
        match field_of(told, &group.name, index) {
            Some(field) => page.shown(bytes_of(told.text, field))?,
            None => {
                page.word("value ")?;
                page.number(index as u128)?;
            }
        }
        page.word(" from ")?;
        push_values(page, told, &group.name, &other.tuple)?;
        return page.word(", which is off by as much the other way\n");
    }
    Ok(())
}

/// The one place at which two tuples differ, if they differ at one place alone.
fn only_difference<F: PartialEq>(left: &[F], right: &[F]) -> Option<usize> {
    if left.len() != right.len() {
        return None;
    }
    let mut found = None;
    for index in 0..left.len() {
        if left[index] != right[index] {
            if found.is_some() {
                return None;
            }
            found = Some(index);
        }
    }
    found
}

fn push_more_places(page: &mut Page, more: usize) -> Result<(), AllocError> {
    if more > 0 {
        page.word("           and ")?;
        page.grouped(more as u128)?;
        page.word(" more places\n")?;
    }
    Ok(())
}

/// The name of a value of a tuple, where its bus declares one.
fn field_of(told: Told<'_>, group: &GroupName, index: usize) -> Option<Span> {
    match group {
        GroupName::Local { .. } => None,
        GroupName::Bus(name) => {
            let bus = bus_named(told.text, told.batch, name.as_bytes())?;
            bus.fields.get(index).copied()
        }
    }
}

/// Appends an element as a whole number, with a sign where it is negative.
pub(crate) fn push_signed<F: TableField>(page: &mut Page, element: F) -> Result<(), AllocError> {
    if element.is_negative() {
        page.word("-")?;
    }
    page.grouped(magnitude(element))
}

/// Appends a place: the count, the line of the table, and the line of the message.
fn push_place<F: TableField>(
    page: &mut Page,
    told: Told<'_>,
    location: Location,
    count: F,
) -> Result<(), AllocError> {
    let mut number = Page::new(page.alloc());
    push_signed(&mut number, count)?;
    page.blanks(10usize.saturating_sub(characters(&number.bytes)))?;
    page.bytes.extend_from_slice(&number.bytes)?;
    page.word(" at ")?;
    let Some(air) = told.airs.get(location.instance) else {
        return page.word("?\n");
    };
    if let Some(file) = trace_file(air, false) {
        page.shown(bytes_of(told.text, file))?;
    }
    page.word(":")?;
    page.number(location.row as u128 + 2)?;
    if let Some(item) = lookup_at(air, location.lookup) {
        page.word(", ")?;
        push_lookup(page, &item.item, place_of(told.text, item.at).line)?;
    }
    page.word("\n")
}
