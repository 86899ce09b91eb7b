//! The lookups of an AIR with its constraints.
ghost use Rattle.air_expressions.specs.Layout.{layout_of_widths};

use air::{Air, AirLayout};
use air_expressions::SymbolicExpression;
use field::{ExtensionField, Field};
use lookup::{InteractionSymbolicBuilder, Lookups};
use lookup_model::LookupError;
use std::alloc::Global;

/// The lookups of an AIR, and the constraints over the field that it asserts, in order.
#[derive(Debug, Drop)]
pub struct ConstrainedLookups<F> {
    /// The lookups.
    pub lookups: Lookups<F>,
    /// The constraints: on each row of its traces each of them is to be zero.
    pub constraints: Vec<SymbolicExpression<F>>,
}

impl<F: Field> ConstrainedLookups<F> {
    ghost use Rattle.lookup_enforced.specs.Extraction.{ExtractsBoth};

    /// What an AIR records in a new builder with its own layout: the lookups as
    /// [`Lookups::from_air`](lookup::Lookups::from_air) extracts them, and its assertions over the field. Both
    /// are of one evaluation. Assertions over an extension are left out.
    ///
    /// Refuses as [`Lookups::from_air`](lookup::Lookups::from_air) does.
    pub fn from_air<EF: ExtensionField<F>, A: Air<InteractionSymbolicBuilder<F, EF>>>(
        alloc: Global,
        air: &A,
    ) -> Result<Self, LookupError>
        ensures { ExtractsBoth A.evaluates air.now
            (layout_of_widths (A.width air.now) (A.preprocessed_width air.now)
            (A.num_public_values air.now)) result }
    {
        let layout = AirLayout::from_air(air);
        let builder = InteractionSymbolicBuilder::from_air(alloc, air, layout)?;
        let constraints = builder.base_constraints(alloc)?;
        let lookups = Lookups::from_builder(alloc, builder)?;
        Ok(ConstrainedLookups {
            lookups,
            constraints,
        })
    }
}
