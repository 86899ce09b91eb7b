//! The places of several tuples, which a second walk over the rows of a group finds.
ghost use Rattle.std.specs.Prelude.{◌≡◌, ◌∷◌, [], IfOk, OnOk, map};
ghost use Rattle.lookup_debug.specs.BusTable.{entry_of};
ghost use Rattle.lookup_debug.specs.Contributions.{AreFitting, location_of, nonzero, traced_of};
ghost use Rattle.lookup_debug.specs.internal.GroupList.{IsWalkable, group_of};
ghost use Rattle.lookup_debug.specs.internal.Places.{FindsPlaces, HasEntries, HasPlaces, placed_entry, places_walk};
ghost use Rattle.lookup_messages.specs.TraceBuilder.{builder_layout, builder_window};
ghost use Rattle.lookup_model.specs.Records.{AllFit};
ghost use Rattle.lookup_model.specs.Sent.{values};

use crate::arena::entry_at;
use crate::contributions::{amount_of, push_tuple};
use crate::fault::Location;
use crate::instance::LookupDebugInstance;
use crate::named_group::{GroupAt, walk_group};
use crate::unbalanced::{Place, UnbalancedTuple};
use crate::walk::RowVisitor;
use air::SymbolicExpression;
use field::Field;
use indexmap::IndexMap;
use lookup_messages::LookupTraceBuilder;
use lookup_model::Lookup;
use std::alloc::{AllocError, Global};
use std::hash::Hash;

/// The tuples of a map, each with its places as far as they are found. A tuple on a row is made in
/// `scratch`, and looked up in the map.
#[derive(Drop)]
pub(crate) struct TuplePlaces<'a, F: Eq + Hash> {
    listed: IndexMap<&'a [F], F>,
    tuples: Vec<UnbalancedTuple<F>>,
    limit: usize,
    scratch: Vec<F>,
}

impl<'a, F: Field> TuplePlaces<'a, F> {
    /// No places of these tuples, which have these nets.
    fn new(
        alloc: Global,
        listed: IndexMap<&'a [F], F>,
        limit: usize,
    ) -> Result<TuplePlaces<'a, F>, AllocError>
        ensures { IfOk result (λ s. (s.listed ≡ listed.entry) × (s.limit ≡ limit)
            × HasPlaces F.ring F.eq s []) }
    {
        let mut tuples = Vec::with_capacity(alloc, listed.len())?;
        for index in 0..listed.len() {
            let (tuple, net) = entry_at(&listed, index);
            tuples.push(UnbalancedTuple::new(alloc, tuple, net)?)?;
        }
        Ok(TuplePlaces {
            listed,
            tuples,
            limit,
            scratch: Vec::new(alloc),
        })
    }

    /// Adds the contribution of one branch to the places of its tuple, if that is listed and the amount
    /// is not zero.
    fn push_branch(
        &mut self,
        tuple: &[SymbolicExpression<F>],
        amount: F,
        builder: &LookupTraceBuilder<'_, F, F>,
        location: Location,
    ) -> Result<(), AllocError>
        requires entries { HasEntries self.now }
        requires fits { AllFit (builder_layout builder.now) tuple.now }
        ensures { OnOk result (FindsPlaces F.ring F.eq self.old self.new
            (nonzero F.ring F.eq (record {
              tuple = values F.ring (builder_window builder.now) tuple.now;
              amount = amount;
              location = location_of location;
            } ∷ []))) }
    {
        if amount == F::ZERO {
            return Ok(());
        }
        self.scratch.clear();
        push_tuple(&mut self.scratch, tuple, builder)?;
        if let Some(index) = self.listed.get_index_of(self.scratch.as_slice()) {
            let place = Place {
                location,
                count: amount,
            };
            self.tuples[index].push(place, self.limit)?;
        }
        Ok(())
    }

    /// The tuples with their places.
    fn into_tuples(self) -> Vec<UnbalancedTuple<F>>
        ensures { result ≡ self.entry.tuples }
    {
        self.tuples
    }
}

impl<F: Field> RowVisitor<F> for TuplePlaces<'_, F> {
    ghost ready = { HasEntries };

    ghost changes = { FindsPlaces F.ring F.eq };

    ghost composes = { places_walk F.ring F.eq };

    /// Adds what the lookup contributes on the builder's row to the places of the listed tuples.
    fn visit(
        &mut self,
        _alloc: Global,
        lookup: &Lookup<F>,
        builder: &LookupTraceBuilder<'_, F, F>,
        location: Location,
    ) -> Result<(), AllocError> {
        for branch in 0..lookup.elements.len() {
            let tuple = &lookup.elements[branch];
            let amount = amount_of(lookup, branch, builder);
            self.push_branch(tuple, amount, builder, location)?;
        }
        Ok(())
    }
}

/// The tuples of a map, with these nets, and with their places in a group: how many, and the first
/// `limit` of them. Nothing is walked over for an empty map.
pub(crate) fn tuples_with_places<F: Field>(
    alloc: Global,
    instances: &[LookupDebugInstance<'_, F>],
    group: &GroupAt<'_, F>,
    listed: IndexMap<&[F], F>,
    limit: usize,
) -> Result<Vec<UnbalancedTuple<F>>, AllocError>
    requires fit { AreFitting instances.now }
    requires walkable { IsWalkable group.now }
    ensures { let own = group_of F.ring F.eq (map traced_of instances.now) group.now in
        IfOk result (λ tuples. map entry_of tuples.items
        ≡ map (placed_entry F.ring F.eq limit own.contributions) listed.entry.entries) }
{
    if listed.is_empty() {
        return Ok(Vec::new(alloc));
    }
    let mut places = TuplePlaces::new(alloc, listed, limit)?;
    walk_group(alloc, &mut places, instances, group)?;
    Ok(places.into_tuples())
}
