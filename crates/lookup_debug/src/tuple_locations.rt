//! The locations of one tuple, which a second walk over the rows of a group finds. Nothing else is kept.
ghost use Rattle.std.specs.Prelude.{◌≡◌, ◌++◌, [], ◌∷◌, List, OnOk, map, ⊤};
ghost use Rattle.std.specs.Cmp.Lexicographic.{pointwise};
ghost use Rattle.lookup_debug.specs.Contributions.{contributions_at, nonzero, location_of};
ghost use Rattle.lookup_debug.specs.internal.Appended.{AppendsLocations, FindsLocations};
ghost use Rattle.lookup_debug.specs.internal.Visits.{locations_walk};
ghost use Rattle.lookup_messages.specs.TraceBuilder.{builder_layout, builder_window};
ghost use Rattle.lookup_model.specs.Records.{AllFit, HasEqualLengths, IsWithin};
ghost use Rattle.lookup_model.specs.Sent.{values};

use crate::contributions::amount_of;
use crate::fault::Location;
use crate::walk::RowVisitor;
use air::SymbolicExpression;
use field::Field;
use lookup_messages::LookupTraceBuilder;
use lookup_model::Lookup;
use std::alloc::{AllocError, Global};

/// Whether these elements have the values of a tuple on the builder's row. Nothing is evaluated past the
/// first difference.
fn has_values<F: Field>(
    elements: &[SymbolicExpression<F>],
    tuple: &[F],
    builder: &LookupTraceBuilder<'_, F, F>,
) -> bool
    requires { AllFit (builder_layout builder.now) elements.now }
    ensures { result ≡ pointwise F.eq tuple.now
        (values F.ring (builder_window builder.now) elements.now) }
{
    if elements.len() != tuple.len() {
        return false;
    }
    for index in 0..tuple.len() {
        let value = builder.value_of(&elements[index]);
        if !(tuple[index] == value) {
            return false;
        }
    }
    true
}

/// Appends the location for each contribution of a tuple on the builder's row.
fn push_row_locations<F: Field>(
    locations: &mut Vec<Location>,
    tuple: &[F],
    lookup: &Lookup<F>,
    builder: &LookupTraceBuilder<'_, F, F>,
    location: Location,
) -> Result<(), AllocError>
    requires lengths { HasEqualLengths lookup.now }
    requires fits { IsWithin (builder_layout builder.now) lookup.now }
    ensures { OnOk result (AppendsLocations F.ring F.eq tuple.now locations.old locations.new
        (contributions_at F.ring F.eq (location_of location) (builder_window builder.now)
        lookup.now)) }
{
    for branch in 0..lookup.elements.len() {
        let elements = &lookup.elements[branch];
        if has_values(elements, tuple, builder) {
            let amount = amount_of(lookup, branch, builder);
            push_nonzero(locations, amount, location)?;
        }
    }
    Ok(())
}

/// Appends the location of a contribution unless its amount is zero.
fn push_nonzero<F: Field>(
    locations: &mut Vec<Location>,
    amount: F,
    location: Location,
) -> Result<(), AllocError>
    ensures { (tuple : List F) → OnOk result (map location_of locations.new.items
        ≡ map location_of locations.old.items
        ++ map (λ c. c.location) (nonzero F.ring F.eq (record {
          tuple = tuple;
          amount = amount;
          location = location_of location;
        } ∷ []))) }
{
    if amount == F::ZERO {
        return Ok(());
    }
    locations.push(location)?;
    Ok(())
}

/// The locations of one tuple, as far as they are found.
#[derive(Drop)]
pub(crate) struct TupleLocations<'a, F> {
    tuple: &'a [F],
    locations: Vec<Location>,
}

impl<'a, F> TupleLocations<'a, F> {
    /// No locations of this tuple.
    pub(crate) fn new(alloc: Global, tuple: &'a [F]) -> TupleLocations<'a, F>
        ensures tuple { result.tuple.now ≡ tuple.now }
        ensures empty { result.locations.items ≡ [] }
    {
        TupleLocations {
            tuple,
            locations: Vec::new(alloc),
        }
    }

    /// The locations, in the order of the contributions.
    pub(crate) fn into_locations(self) -> Vec<Location>
        ensures { result ≡ self.entry.locations }
    {
        self.locations
    }
}

impl<F: Field> RowVisitor<F> for TupleLocations<'_, F> {
    ghost ready = { λ _. ⊤ };

    ghost changes = { FindsLocations F.ring F.eq };

    ghost composes = { locations_walk F.ring F.eq };

    /// Appends the locations of the tuple on the builder's row.
    fn visit(
        &mut self,
        _alloc: Global,
        lookup: &Lookup<F>,
        builder: &LookupTraceBuilder<'_, F, F>,
        location: Location,
    ) -> Result<(), AllocError> {
        push_row_locations(&mut self.locations, self.tuple, lookup, builder, location)
    }
}
