//! Which layouts the lookups of an AIR are within.
ghost use Rattle.std.specs.Prelude.{◌<◌, ◌≤◌, ◌↔◌, ℕ, All, IfOk, IsTrue};
ghost use Rattle.std.specs.List.{AllZip};
ghost use Rattle.batch.specs.Reaches.{IsBelow, IsReachOf, StaysWithin};
ghost use Rattle.air_expressions.specs.Layout.{EntryFits, Fits, LeafFits};
ghost use Rattle.air_expressions.specs.Tree.{tree_of};
ghost use Rattle.air_expressions.specs.declared.layout.AirLayout.{AirLayout};
ghost use Rattle.lookup.specs.Lookups.{lookups_of};
ghost use Rattle.lookup_model.specs.Records.{AllFit, IsWithin};

use air::{AirLayout, BaseEntry, BaseLeaf, SymbolicExpression, SymbolicVariable};
use field::Field;
use lookup::{Lookup, Lookups};
use std::alloc::{AllocError, Global};

/// How far the variables of some expressions reach: the greatest index in either trace and among the
/// public values, if there is one, and whether all offsets are 0 or 1.
///
/// A plan walks the expressions of its AIRs once. Each later call only compares these numbers with the
/// widths of the traces that it is given.
#[derive(Clone, Copy, Debug)]
pub(crate) struct Reach {
    main: Option<usize>,
    preprocessed: Option<usize>,
    public_value: Option<usize>,
    has_valid_offsets: bool,
}

/// The reaches of the lookups of AIRs. Fails only when out of memory.
pub(crate) fn reaches_of<F: Field>(
    alloc: Global,
    airs: &[Lookups<F>],
) -> Result<Vec<Reach>, AllocError>
    ensures { IfOk result (λ reaches. AllZip (λ reach air. IsReachOf reach (lookups_of air))
        reaches.items airs.now) }
{
    let mut reaches = Vec::with_capacity(alloc, airs.len())?;
    for air in airs {
        reaches.push(Reach::of_lookups(air.as_slice()))?;
    }
    Ok(reaches)
}

impl Reach {
    /// That of the lookups of an AIR.
    pub(crate) fn of_lookups<F>(lookups: &[Lookup<F>]) -> Self
        ensures { IsReachOf result lookups.now }
    {
        let mut reach = Reach {
            main: None,
            preprocessed: None,
            public_value: None,
            has_valid_offsets: true,
        };
        for lookup in lookups {
            reach = reach.with_lookup(lookup);
        }
        reach
    }

    /// Whether all variables are within a layout.
    pub(crate) fn stays_within(&self, layout: &AirLayout) -> bool
        ensures { IsTrue result ↔ StaysWithin self.now layout.now }
    {
        self.has_valid_offsets
            && is_below(self.main, layout.main_width)
            && is_below(self.preprocessed, layout.preprocessed_width)
            && is_below(self.public_value, layout.num_public_values)
    }

    /// With those of a lookup.
    fn with_lookup<F>(self, lookup: &Lookup<F>) -> Self
        ensures { (layout : AirLayout) → StaysWithin result layout
            ↔ (StaysWithin self layout × IsWithin layout lookup.now) }
    {
        let reach = self
            .with_tuples(&lookup.elements)
            .with_all(&lookup.multiplicities);
        match &lookup.flags {
            Some(flags) => reach.with_all(flags),
            None => reach,
        }
    }

    /// With those of some tuples.
    fn with_tuples<F>(self, tuples: &[Vec<SymbolicExpression<F>>]) -> Self
        ensures { (layout : AirLayout) → StaysWithin result layout
            ↔ (StaysWithin self layout × All (λ tuple. AllFit layout tuple.items) tuples.now) }
    {
        let mut reach = self;
        for tuple in tuples {
            reach = reach.with_all(tuple);
        }
        reach
    }

    /// With those of some expressions.
    fn with_all<F>(self, expressions: &[SymbolicExpression<F>]) -> Self
        ensures { (layout : AirLayout) → StaysWithin result layout
            ↔ (StaysWithin self layout × AllFit layout expressions.now) }
    {
        let mut reach = self;
        for expression in expressions {
            reach.add_expression(expression);
        }
        reach
    }

    /// Adds those of an expression. It works in place, so that a layer of an expression takes little of
    /// the stack.
    fn add_expression<F>(&mut self, expression: &SymbolicExpression<F>)
        ensures { (layout : AirLayout) → StaysWithin self.new layout
            ↔ (StaysWithin self.old layout × Fits layout (tree_of expression.now)) }
    {
        match expression {
            SymbolicExpression::Leaf(leaf) => self.add_leaf(leaf),
            SymbolicExpression::Add(a, b)
            | SymbolicExpression::Sub(a, b)
            | SymbolicExpression::Mul(a, b) => {
                self.add_expression(a);
                self.add_expression(b);
            }
            SymbolicExpression::Neg(a) => self.add_expression(a),
        }
    }

    /// Adds that of a leaf, if it is a variable.
    fn add_leaf<F>(&mut self, leaf: &BaseLeaf<F>)
        ensures { (layout : AirLayout) → StaysWithin self.new layout
            ↔ (StaysWithin self.old layout × LeafFits layout leaf.now) }
    {
        *self = self.with_leaf(leaf);
    }

    /// With that of a leaf, if it is a variable.
    fn with_leaf<F>(self, leaf: &BaseLeaf<F>) -> Self
        ensures { (layout : AirLayout) → StaysWithin result layout
            ↔ (StaysWithin self layout × LeafFits layout leaf.now) }
    {
        match leaf {
            BaseLeaf::Variable(variable) => self.with_variable(variable),
            BaseLeaf::IsFirstRow
            | BaseLeaf::IsLastRow
            | BaseLeaf::IsTransition
            | BaseLeaf::Constant(_) => self,
        }
    }

    /// With a variable.
    fn with_variable<F>(self, variable: &SymbolicVariable<F>) -> Self
        ensures { (layout : AirLayout) → StaysWithin result layout
            ↔ (StaysWithin self layout × EntryFits layout variable.now.entry variable.now.index) }
    {
        match variable.entry {
            BaseEntry::Main { offset } => Reach {
                main: Some(greatest(self.main, variable.index)),
                has_valid_offsets: are_valid(self.has_valid_offsets, offset),
                ..self
            },
            BaseEntry::Preprocessed { offset } => Reach {
                preprocessed: Some(greatest(self.preprocessed, variable.index)),
                has_valid_offsets: are_valid(self.has_valid_offsets, offset),
                ..self
            },
            BaseEntry::Public => Reach {
                public_value: Some(greatest(self.public_value, variable.index)),
                ..self
            },
        }
    }
}

/// Whether the offsets so far are 0 or 1, and one more.
fn are_valid(so_far: bool, offset: usize) -> bool
    ensures { IsTrue result ↔ (IsTrue so_far × (offset ≤ 1)) }
{
    so_far && offset <= 1
}

/// The greatest index so far and another one.
fn greatest(so_far: Option<usize>, index: usize) -> usize
    ensures { (width : ℕ) → result < width ↔ (IsBelow so_far width × (index < width)) }
{
    match so_far {
        Some(greatest) => greatest.max(index),
        None => index,
    }
}

/// Whether an index, if there is one, is below a width.
fn is_below(index: Option<usize>, width: usize) -> bool
    ensures { IsTrue result ↔ IsBelow index width }
{
    match index {
        Some(index) => index < width,
        None => true,
    }
}
