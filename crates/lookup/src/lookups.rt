//! The lookups of one AIR.
ghost use Rattle.std.specs.Prelude.{◌≡◌, ◌↔◌, ℕ, IfOk, IsTrue, MatchResult, map, ⊤};
ghost use Rattle.std.specs.List.{sum_by};
ghost use Rattle.air_expressions.specs.Layout.{layout_of_widths};
ghost use Rattle.serde.specs.Event.{WritesSeq};
ghost use Rattle.lookup_model.specs.Outline.{outline_of};
ghost use Rattle.lookup_model.specs.Records.{AreRecords, IsFirstMalformed, LookupsFit};

use crate::protocol::LookupProtocol;
use crate::{extraction, packing};
use air::{Air, AirLayout};
use field::{ExtensionField, Field};
use lookup_model::{Lookup, LookupError};
use lookup_record::InteractionSymbolicBuilder;
use serde::{Described, Serialize, Serializer};
use std::alloc::{AllocError, Global};

/// The lookups of one AIR: each has as many multiplicities as tuples and, if it has flags, as many
/// flags. Their columns are 0, 1, 2, …
#[derive(Debug, Drop)]
pub struct Lookups<F> {
    lookups: Vec<Lookup<F>>,
    pub ghost records: { AreRecords lookups.items },
}

impl<F: Field> Lookups<F> {
    ghost use Rattle.lookup.specs.Extraction.{Extracts, ExtractsRecords};
    ghost use Rattle.lookup.specs.Lookups.{StillFit, lookups_of};
    ghost use Rattle.lookup_record.specs.RecordedAir.{recorded_air};
    ghost use Rattle.lookup_record.specs.RecordedWithin.{EvaluatesWithin};
    ghost use Rattle.std.specs.Fn.{FnReturnsAt};
    ghost use Rattle.lookup_model.specs.Outline.{fields_of};
    ghost use Rattle.lookup.specs.Fewest.{AnswersDegree, HasFewestColumns};
    ghost use Rattle.lookup.specs.KeptByPacking.{KeepsSent};
    ghost use Rattle.lookup.specs.Packing.{Packs};
    ghost use Rattle.lookup.specs.Trials.{AnswersTrial, IsBusTrial};

    /// The lookups that an AIR records in a new builder with its own layout: local ones, then those
    /// on buses, then groups, each in the order of their pushes, in the columns 0, 1, 2, …
    ///
    /// The weight of a local lookup is the sum over its tuples. That of a group is the greatest
    /// weight of its branches, 0 without branches.
    ///
    /// Fails with the first of these, or with `Memory` when out of memory:
    ///
    /// - the AIR's own refusal;
    /// - at the first local lookup with a fault, `CountWeightOverflow` if its weights do not fit,
    ///   or `TupleWidths` if its tuples have two widths.
    pub fn from_air<EF: ExtensionField<F>, A: Air<InteractionSymbolicBuilder<F, EF>>>(
        alloc: Global,
        air: &A,
    ) -> Result<Self, LookupError>
        ensures extracts { Extracts A.evaluates air.now
            (layout_of_widths (A.width air.now) (A.preprocessed_width air.now)
            (A.num_public_values air.now)) result }
        ensures within { IfOk result (λ set. EvaluatesWithin A.evaluates air.now
            → LookupsFit (layout_of_widths (A.width air.now) (A.preprocessed_width air.now)
            (A.num_public_values air.now)) (lookups_of set)) }
    {
        let layout = AirLayout::from_air(air);
        let builder = InteractionSymbolicBuilder::from_air(alloc, air, layout)?;
        let (locals, globals, exclusives) = builder.into_interactions();
        let lookups = extraction::extract_lookups(alloc, locals, globals, exclusives)?;
        Ok(Lookups { lookups })
    }

    /// The lookups that a builder holds, as [`from_air`](Lookups::from_air) makes them of the builder on which
    /// it evaluates the AIR. So a caller can take the constraints of the same evaluation before.
    ///
    /// Refuses the fault of the first local lookup that has one, or `Memory` when out of memory.
    pub fn from_builder<EF: ExtensionField<F>>(
        alloc: Global,
        builder: InteractionSymbolicBuilder<F, EF>,
    ) -> Result<Self, LookupError>
        ensures { ExtractsRecords (recorded_air builder) result }
    {
        let (locals, globals, groups) = builder.into_interactions();
        let lookups = extraction::extract_lookups(alloc, locals, globals, groups)?;
        Ok(Lookups { lookups })
    }

    /// The set of these lookups, unchanged.
    ///
    /// Refuses `BadRecord` at the first lookup whose lists have different lengths or whose column
    /// is not its index. The lookups are then dropped. Like every call that makes a set it takes the
    /// allocator, though it allocates nothing.
    pub fn from_records(_alloc: Global, records: Vec<Lookup<F>>) -> Result<Self, LookupError>
        ensures { MatchResult result
            (λ lookups. lookups_of lookups ≡ records.items)
            (λ e. (i : ℕ) × (e ≡ LookupError.BadRecord i) × IsFirstMalformed records.items i) }
    {
        match lookup_model::first_malformed(&records) {
            Some(lookup) => Err(LookupError::BadRecord { lookup }),
            None => Ok(Lookups { lookups: records }),
        }
    }

    /// Fills the columns of each bus greedily, by the degree that the closure gives; see
    /// [`pack_lookups`](crate::packing::pack_lookups).
    ///
    /// Local lookups and those with flags come first, in their order, then the buses in the order
    /// of their first other lookups. Refuses `TupleWidths` at the first bus with two widths; then,
    /// at the first refused trial, bus by bus, the closure's own refusal or `CountWeightOverflow`.
    /// The set is then dropped.
    ///
    /// The packed set sends the same messages on every row, if each column has the id of its
    /// lookups. So keys, nets and the total weight stay. It fits the layouts that the set fits.
    pub fn pack_same_bus_with_degree<D: Fn(&Lookup<F>) -> Result<usize, LookupError>>(
        self,
        alloc: Global,
        max_degree: usize,
        degree: D,
    ) -> Result<Self, LookupError>
        requires callable { (lookup : _) → IsBusTrial (map fields_of (lookups_of self)) lookup.now
            → D.pre degree lookup }
        ensures packs { Packs (AnswersTrial (FnReturnsAt D.Fn degree)) max_degree
            (λ set. map fields_of (lookups_of set)) (map fields_of (lookups_of self)) result }
        ensures kept { IfOk result (λ set. KeepsSent F.ring F.eq (lookups_of self)
            (lookups_of set)) }
        ensures fits { IfOk result (λ set. StillFit (lookups_of self) (lookups_of set)) }
    {
        let lookups = packing::pack_lookups(alloc, self.lookups, max_degree, degree)?;
        Ok(Lookups { lookups })
    }

    /// As [`pack_same_bus_with_degree`](Lookups::pack_same_bus_with_degree), by the degree of the
    /// gadget at transition degree 0. No consecutive split of the additive lookups of a bus within
    /// `max_degree` has fewer columns.
    ///
    /// It takes time linear in the size of the lookups. The gadget is not called: its contract
    /// fixes its answers, so the degrees of an open column are kept. The degree of a lookup alone
    /// is not refused.
    pub fn pack_same_bus<LG: LookupProtocol>(
        self,
        alloc: Global,
        _gadget: &LG,
        max_degree: usize,
    ) -> Result<Self, LookupError>
        ensures packs { Packs AnswersDegree max_degree (λ set. map fields_of (lookups_of set))
            (map fields_of (lookups_of self)) result }
        ensures fewest { IfOk result (λ set. HasFewestColumns max_degree
            (map fields_of (lookups_of self)) (map fields_of (lookups_of set))) }
        ensures kept { IfOk result (λ set. KeepsSent F.ring F.eq (lookups_of self)
            (lookups_of set)) }
        ensures fits { IfOk result (λ set. StillFit (lookups_of self) (lookups_of set)) }
    {
        let lookups = packing::pack_by_degree(alloc, self.lookups, max_degree)?;
        Ok(Lookups { lookups })
    }

    /// The lookups in the order of their columns.
    pub fn as_slice(&self) -> &[Lookup<F>]
        ensures lookups { result.now ≡ lookups_of self.now }
        ensures records { AreRecords (lookups_of self.now) }
    {
        self.lookups.as_slice()
    }

    /// The sum of the weights of all lookups.
    pub fn total_count_weight(&self) -> u128
        ensures { result ≡ sum_by (λ lookup. lookup.count_weight) (lookups_of self.now) }
    {
        self.lookups
            .iter()
            .map(|lookup| u128::from(lookup.count_weight))
            .sum()
    }

    /// Whether the lookups fit an AIR of this layout; see [`fits`](crate::fits).
    pub fn fits(&self, layout: &AirLayout) -> bool
        ensures { IsTrue result ↔ LookupsFit layout.now (lookups_of self.now) }
    {
        lookup_model::fits(self.as_slice(), layout)
    }

    /// A deep copy: expressions are equal node by node.
    ///
    /// Fails only when out of memory.
    pub fn copy(&self, alloc: Global) -> Result<Self, AllocError>
        ensures { IfOk result (λ r. map outline_of (lookups_of r)
            ≡ map outline_of (lookups_of self.now)) }
    {
        let lookups = copy_lookups(alloc, self.as_slice())?;
        Ok(Lookups { lookups })
    }
}

/// Copies of the lookups.
fn copy_lookups<F: Field>(
    alloc: Global,
    lookups: &[Lookup<F>],
) -> Result<Vec<Lookup<F>>, AllocError>
    ensures { IfOk result (λ v. map outline_of v.items ≡ map outline_of lookups.now) }
{
    let mut copies = Vec::new(alloc);
    for lookup in lookups {
        copies.push(lookup.copy(alloc)?)?;
    }
    Ok(copies)
}

impl<F> Described for Lookups<F> {
    ghost use Rattle.lookup.specs.Lookups.{lookups_of};

    ghost writes = { λ set. WritesSeq (λ _ _ _. ⊤) (lookups_of set) };
}

/// A set is written as the list of its lookups. It is not read as such: read a `Vec` of lookups and
/// pass it to [`Lookups::from_records`].
impl<F: Serialize> Serialize for Lookups<F> {
    fn serialize<S: Serializer>(&self, out: &mut S) -> Result<(), S::Error> {
        self.lookups.serialize(out)
    }
}
