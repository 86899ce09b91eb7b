//! The walk over what a group sends: the rows of its lookups, AIR by AIR. Both passes of the check use
//! it.
ghost use Rattle.std.specs.Prelude.{◌≡◌, List, OnOk, Some, filter, map, slice_get};
ghost use Rattle.std.specs.List.{flat_map};
ghost use Rattle.lookup_debug.specs.Contributions.{AreFitting, Contribution, IsTracedFitting, contributions_at, contributions_of, location_of, traced_of};
ghost use Rattle.lookup_debug.specs.Groups.{is_on, all_lookups, lookup_contributions, lookups_in};
ghost use Rattle.lookup_debug.specs.internal.Walks.{IsWalk};
ghost use Rattle.lookup_messages.specs.TraceBuilder.{builder_layout, builder_window};
ghost use Rattle.lookup_model.specs.Records.{HasEqualLengths, IsWithin};

use crate::fault::Location;
use crate::groups::is_on_bus;
use crate::instance::LookupDebugInstance;
use air::Traces;
use field::Field;
use lookup_messages::{LookupTraceBuilder, row_builder};
use lookup_model::Lookup;
use std::alloc::{AllocError, Global};

/// Visits the rows of lookups, one by one.
///
/// `ready` says what holds of a visitor before each row. `changes before after contributions` says how a
/// visitor changes over rows that send these contributions.
pub(crate) trait RowVisitor<F: Field> {
    ghost ready: { Self → Type 0 };

    ghost changes: { Self → Self → List (Contribution F) → Type 0 };

    /// Visits a lookup on the builder's row. Fails only when out of memory.
    fn visit(
        &mut self,
        alloc: Global,
        lookup: &Lookup<F>,
        builder: &LookupTraceBuilder<'_, F, F>,
        location: Location,
    ) -> Result<(), AllocError>
        requires ready { ready self.now }
        requires lengths { HasEqualLengths lookup.now }
        requires fits { IsWithin (builder_layout builder.now) lookup.now }
        ensures { OnOk result (changes self.old self.new
            (contributions_at F.ring F.eq (location_of location) (builder_window builder.now)
            lookup.now)) };

    ghost composes: { IsWalk ready changes };
}

/// Visits the lookup at `index` of an AIR on all rows of its traces.
pub(crate) fn walk_lookup<F: Field, V: RowVisitor<F>>(
    alloc: Global,
    visitor: &mut V,
    traced: &LookupDebugInstance<'_, F>,
    lookup: &Lookup<F>,
    instance: usize,
    index: usize,
) -> Result<(), AllocError>
    requires ready { V.ready visitor.now }
    requires at_index { slice_get traced.now.lookups.now index ≡ Some lookup.now }
    requires fit { IsTracedFitting (traced_of traced.now) }
    ensures { OnOk result (V.changes visitor.old visitor.new
        (contributions_of F.ring F.eq instance index (traced_of traced.now) lookup.now)) }
{
    let traces = Traces {
        main: traced.main_trace,
        preprocessed: traced.preprocessed_trace,
        public_values: traced.public_values,
    };
    let rows = traced.main_trace.height();
    for row in 0..rows {
        let builder = row_builder(&traces, traced.permutation_challenges, rows, row);
        let location = Location {
            instance,
            lookup: index,
            row,
        };
        visitor.visit(alloc, lookup, &builder, location)?;
    }
    Ok(())
}

/// Visits all lookups on a bus.
pub(crate) fn walk_bus<F: Field, V: RowVisitor<F>>(
    alloc: Global,
    visitor: &mut V,
    instances: &[LookupDebugInstance<'_, F>],
    name: &str,
) -> Result<(), AllocError>
    requires ready { V.ready visitor.now }
    requires fit { AreFitting instances.now }
    ensures { OnOk result (V.changes visitor.old visitor.new
        (flat_map (lookup_contributions F.ring F.eq)
        (filter (is_on name.now) (all_lookups (map traced_of instances.now))))) }
{
    for instance in 0..instances.len() {
        walk_bus_of(alloc, visitor, &instances[instance], instance, name)?;
    }
    Ok(())
}

/// Visits the lookups of one AIR on a bus.
fn walk_bus_of<F: Field, V: RowVisitor<F>>(
    alloc: Global,
    visitor: &mut V,
    traced: &LookupDebugInstance<'_, F>,
    instance: usize,
    name: &str,
) -> Result<(), AllocError>
    requires ready { V.ready visitor.now }
    requires fit { IsTracedFitting (traced_of traced.now) }
    ensures { OnOk result (V.changes visitor.old visitor.new
        (flat_map (lookup_contributions F.ring F.eq)
        (filter (is_on name.now) (lookups_in (instance, traced_of traced.now))))) }
{
    for index in 0..traced.lookups.len() {
        let lookup = &traced.lookups[index];
        if is_on_bus(lookup, name) {
            walk_lookup(alloc, visitor, traced, lookup, instance, index)?;
        }
    }
    Ok(())
}
