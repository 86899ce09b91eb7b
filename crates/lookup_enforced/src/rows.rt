//! What is known of the rows of traces of a height, by their kinds.
ghost use Rattle.std.specs.Prelude.{◌≡◌, IfOk};
ghost use Rattle.air_constraints.specs.Facts.{AreSo};
ghost use Rattle.air_constraints.specs.Hold.{Hold, IsRowOf};
ghost use Rattle.air_constraints.specs.Kinds.{IsOfKind};
ghost use Rattle.air_expressions.specs.Window.{Window};
ghost use Rattle.lookup_enforced.specs.internal.Shown.{IsAnyOf};

use air_constraints::{Facts, RowKind, facts_of};
use air_expressions::SymbolicExpression;
use field::Field;
use std::alloc::{AllocError, Global};

/// How many terms a polynomial may have. What would have more is not shown.
pub(crate) const LIMIT: usize = 4096;

/// What is known of the rows of a kind.
#[derive(Drop)]
pub struct RowFacts<F> {
    /// The kind.
    pub kind: RowKind,
    /// What constraints say of these rows.
    pub facts: Facts<F>,
}

/// What constraints say of the rows of a kind.
///
/// Fails only when out of memory.
fn row_facts<F: Field>(
    alloc: Global,
    constraints: &[SymbolicExpression<F>],
    is_first: bool,
    is_last: bool,
) -> Result<RowFacts<F>, AllocError>
    ensures { IfOk result (λ row. (row.kind.is_first ≡ is_first) × (row.kind.is_last ≡ is_last)
        × ((w : Window F) → IsOfKind row.kind w → Hold F.ring w constraints.now → AreSo F.ring w row.facts)) }
{
    let kind = RowKind { is_first, is_last };
    let facts = facts_of(alloc, constraints, kind, LIMIT)?;
    Ok(RowFacts { kind, facts })
}

/// What constraints say of the rows of traces of a height, by their kinds: of height 1 of its only row, and else of
/// first rows, last rows and, of heights above 2, those between.
///
/// Fails only when out of memory.
pub(crate) fn rows_of<F: Field>(
    alloc: Global,
    constraints: &[SymbolicExpression<F>],
    height: usize,
) -> Result<Vec<RowFacts<F>>, AllocError>
    ensures { IfOk result (λ rows. (w : Window F) → IsRowOf height w → Hold F.ring w constraints.now
        → IsAnyOf F.ring rows.items w) }
{
    if height == 0 {
        return Ok(Vec::new(alloc));
    }
    if height == 1 {
        let only = row_facts(alloc, constraints, true, true)?;
        let rows = Vec::from_array(alloc, [only])?;
        return Ok(rows);
    }
    let first = row_facts(alloc, constraints, true, false)?;
    let last = row_facts(alloc, constraints, false, true)?;
    if height == 2 {
        let rows = Vec::from_array(alloc, [first, last])?;
        return Ok(rows);
    }
    let between = row_facts(alloc, constraints, false, false)?;
    let rows = Vec::from_array(alloc, [first, last, between])?;
    Ok(rows)
}
