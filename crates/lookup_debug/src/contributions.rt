//! What a lookup contributes, row by row.
ghost use Rattle.std.specs.Prelude.{◌≡◌, ◌<◌, ◌++◌, [], ◌∷◌, Some, OnOk, length, slice_get};
ghost use Rattle.air_expressions.specs.Layout.{Fits};
ghost use Rattle.air_expressions.specs.Tree.{tree_of};
ghost use Rattle.lookup_debug.specs.Contributions.{SentLocation, amounts, contributions_at, nonzero};
ghost use Rattle.lookup_debug.specs.internal.Appended.{Appends, Collects};
ghost use Rattle.lookup_debug.specs.internal.Arena.{AreWithin};
ghost use Rattle.lookup_debug.specs.internal.Visits.{collects_walk};
ghost use Rattle.lookup_messages.specs.TraceBuilder.{builder_layout, builder_window};
ghost use Rattle.lookup_model.specs.Records.{AllFit, HasEqualLengths, IsWithin};
ghost use Rattle.lookup_model.specs.Sent.{branches_at, flags_at, value, values};

use crate::arena::{Contributions, TupleSpan, merge_at_limit};
use crate::fault::Location;
use crate::walk::RowVisitor;
use air::SymbolicExpression;
use field::Field;
use lookup_messages::LookupTraceBuilder;
use lookup_model::Lookup;
use std::alloc::{AllocError, Global};

/// Appends the values of a tuple on the builder's row.
pub(crate) fn push_tuple<F: Field>(
    elements: &mut Vec<F>,
    tuple: &[SymbolicExpression<F>],
    builder: &LookupTraceBuilder<'_, F, F>,
) -> Result<(), AllocError>
    requires { AllFit (builder_layout builder.now) tuple.now }
    ensures { OnOk result (elements.new.items ≡ elements.old.items
        ++ values F.ring (builder_window builder.now) tuple.now) }
{
    for element in tuple {
        elements.push(builder.value_of(element))?;
    }
    Ok(())
}

/// Appends the contribution of one branch, unless its amount is zero.
fn push_branch<F: Field>(
    contributions: &mut Contributions<F>,
    tuple: &[SymbolicExpression<F>],
    amount: F,
    builder: &LookupTraceBuilder<'_, F, F>,
) -> Result<(), AllocError>
    requires within { AreWithin contributions.now }
    requires fits { AllFit (builder_layout builder.now) tuple.now }
    ensures { (location : SentLocation) → OnOk result (Appends contributions.old contributions.new
        (nonzero F.ring F.eq (record {
          tuple = values F.ring (builder_window builder.now) tuple.now;
          amount = amount;
          location = location;
        } ∷ []))) }
{
    if amount == F::ZERO {
        return Ok(());
    }
    let start = contributions.elements.len();
    push_tuple(&mut contributions.elements, tuple, builder)?;
    let end = contributions.elements.len();
    contributions.spans.push(TupleSpan { start, end, amount })?;
    Ok(())
}

/// Flag times count on the builder's row. The count under a flag of zero is not evaluated.
fn flagged_amount<F: Field>(
    flag: &SymbolicExpression<F>,
    count: &SymbolicExpression<F>,
    builder: &LookupTraceBuilder<'_, F, F>,
) -> F
    requires flag_fits { Fits (builder_layout builder.now) (tree_of flag.now) }
    requires count_fits { Fits (builder_layout builder.now) (tree_of count.now) }
    ensures { let w = builder_window builder.now in
        result ≡ F.ring.mul (value F.ring w flag.now) (value F.ring w count.now) }
{
    let flag = builder.value_of(flag);
    if flag.is_zero() {
        return F::ZERO;
    }
    flag * builder.value_of(count)
}

/// How much a lookup sends of one of its branches on the builder's row.
pub(crate) fn amount_of<F: Field>(
    lookup: &Lookup<F>,
    branch: usize,
    builder: &LookupTraceBuilder<'_, F, F>,
) -> F
    requires branch { branch < length lookup.now.elements.items }
    requires lengths { HasEqualLengths lookup.now }
    requires fits { IsWithin (builder_layout builder.now) lookup.now }
    ensures { let w = builder_window builder.now in
        slice_get (amounts F.ring (flags_at F.ring w lookup.now)
        (branches_at F.ring w 0 lookup.now)) branch ≡ Some result }
{
    let multiplicity = &lookup.multiplicities[branch];
    match &lookup.flags {
        None => builder.value_of(multiplicity),
        Some(flags) => {
            let flag = &flags[branch];
            flagged_amount(flag, multiplicity, builder)
        }
    }
}

/// Appends the contributions of a lookup on the builder's row.
pub(crate) fn push_on_row<F: Field>(
    contributions: &mut Contributions<F>,
    lookup: &Lookup<F>,
    builder: &LookupTraceBuilder<'_, F, F>,
) -> Result<(), AllocError>
    requires within { AreWithin contributions.now }
    requires lengths { HasEqualLengths lookup.now }
    requires fits { IsWithin (builder_layout builder.now) lookup.now }
    ensures { (location : SentLocation) → OnOk result (Appends contributions.old contributions.new
        (contributions_at F.ring F.eq location (builder_window builder.now) lookup.now)) }
{
    for branch in 0..lookup.elements.len() {
        let tuple = &lookup.elements[branch];
        let amount = amount_of(lookup, branch, builder);
        push_branch(contributions, tuple, amount, builder)?;
    }
    Ok(())
}

impl<F: Field> RowVisitor<F> for Contributions<F> {
    ghost ready = { AreWithin };

    ghost changes = { Collects F.ring F.eq };

    ghost composes = { collects_walk F.ring F.eq };

    /// Appends what the lookup contributes on the builder's row, and then merges equal tuples at the
    /// limit.
    fn visit(
        &mut self,
        alloc: Global,
        lookup: &Lookup<F>,
        builder: &LookupTraceBuilder<'_, F, F>,
        _location: Location,
    ) -> Result<(), AllocError> {
        push_on_row(self, lookup, builder)?;
        merge_at_limit(alloc, self)
    }
}
