//! The places of an unbalanced tuple that are told.
use field_list::TableField;
use lookup::debug_util::Place;
use std::alloc::{AllocError, Global};

/// The first of these places, at most so many. If all of them send, or all receive, and there are more than one, the last
/// one gives way to the first place that does otherwise, if there is one.
pub fn told_places<F: TableField>(
    alloc: Global,
    places: &[Place<F>],
    limit: usize,
) -> Result<Vec<&Place<F>>, AllocError> {
    let mut told = Vec::new(alloc);
    for place in places.iter().take(limit) {
        told.push(place)?;
    }
    if let Some(other) = other_place(places, limit) {
        told.pop();
        told.push(other)?;
    }
    Ok(told)
}

/// The first place past so many that is the first one of its sign, unless no more than one is told.
fn other_place<F: TableField>(places: &[Place<F>], limit: usize) -> Option<&Place<F>> {
    let Some(first) = places.first() else {
        return None;
    };
    for (index, place) in places.iter().enumerate() {
        if place.count.is_negative() != first.count.is_negative() {
            return if index >= limit && limit > 1 {
                Some(place)
            } else {
                None
            };
        }
    }
    None
}
