//! Why lookups do not fit the traces of their AIR.
ghost use Rattle.std.specs.Prelude.{◌≡◌, ◌↔◌, All, IsTrue, MatchOption};
ghost use Rattle.std.specs.Option.{option_copied};
ghost use Rattle.air.specs.Traces.{air_traces};
ghost use Rattle.air_expressions.specs.Layout.{Fits, LeafFits};
ghost use Rattle.air_expressions.specs.Tree.{tree_of};
ghost use Rattle.lookup_debug.specs.Fits.{FitTraces, IsFirstMissing, IsFirstOutside, IsFirstOutsideLookup, IsFirstOutsideOf, IsFirstOutsideTuples, IsFitFault, IsLeafOutside, HasOffset, width_at};
ghost use Rattle.lookup_model.specs.Records.{AllFit, IsWithin};

use air::{AirLayout, BaseEntry, BaseLeaf, SymbolicExpression};
use lookup_model::{Lookup, first_malformed};
use matrix::RowMajorMatrix;

/// A cell of a window, or a public value.
#[derive(Clone, Copy, Debug, PartialEq, Eq)]
pub struct Cell {
    /// Where it is read.
    pub entry: BaseEntry,
    /// The column, or the index among the public values.
    pub index: usize,
}

/// Why lookups do not fit the traces of their AIR.
#[derive(Clone, Copy, Debug, PartialEq, Eq)]
pub enum FitFault {
    /// A lookup has lists of different lengths, or another column than its index.
    Malformed {
        lookup: usize,
    },
    /// A lookup reads a cell that is not there, in a row of so many cells; or it reads another row than the
    /// current one and the next.
    Missing {
        lookup: usize,
        cell: Cell,
        width: usize,
    },
    /// The preprocessed trace has another height than the main trace.
    Heights {
        main: usize,
        preprocessed: usize,
    },
}

/// The first reason why lookups do not fit the traces of their AIR, or `None` if they do.
///
/// That is the first lookup with lists of different lengths, or with another column than its index; else the
/// first one that reads what the traces do not have, with the first such cell of its tuples, its
/// multiplicities and then its flags, each from left to right; else the heights. Lookups fit traces without rows;
/// what is checked over those alone is no evidence. Allocates nothing.
pub fn fit_fault<F>(
    main: &RowMajorMatrix<F>,
    preprocessed: Option<&RowMajorMatrix<F>>,
    public_values: &[F],
    lookups: &[Lookup<F>],
) -> Option<FitFault>
    ensures { let traces = air_traces main.now (option_copied preprocessed.entry) public_values.now in
        MatchOption result (FitTraces traces lookups.now) (IsFitFault traces lookups.now) }
{
    if let Some(lookup) = first_malformed(lookups) {
        return Some(FitFault::Malformed { lookup });
    }
    let layout = AirLayout::of_traces(main, preprocessed, public_values);
    if let Some((lookup, cell)) = first_missing(lookups, &layout) {
        return Some(FitFault::Missing {
            lookup,
            cell,
            width: width_at(&layout, cell.entry),
        });
    }
    let height = main.height();
    match preprocessed {
        Some(trace) if trace.height() != height => Some(FitFault::Heights {
            main: height,
            preprocessed: trace.height(),
        }),
        _ => None,
    }
}

/// How many cells of a row, or public values, a layout has where a variable is read.
fn width_at(layout: &AirLayout, entry: BaseEntry) -> usize
    ensures { result ≡ width_at layout.now entry }
{
    match entry {
        BaseEntry::Main { .. } => layout.main_width,
        BaseEntry::Preprocessed { .. } => layout.preprocessed_width,
        BaseEntry::Public => layout.num_public_values,
    }
}

/// The first lookup that reads what a layout does not have, and what that is.
fn first_missing<F>(lookups: &[Lookup<F>], layout: &AirLayout) -> Option<(usize, Cell)>
    ensures { MatchOption result (All (IsWithin layout.now) lookups.now)
        (λ found. IsFirstMissing layout.now found.0 found.1 lookups.now) }
{
    for (index, lookup) in lookups.iter().enumerate() {
        if let Some(cell) = outside_lookup(lookup, layout) {
            return Some((index, cell));
        }
    }
    None
}

/// The first cell that a lookup reads, and a layout does not have.
fn outside_lookup<F>(lookup: &Lookup<F>, layout: &AirLayout) -> Option<Cell>
    ensures { MatchOption result (IsWithin layout.now lookup.now)
        (λ cell. IsFirstOutsideLookup layout.now cell lookup.now) }
{
    if let Some(cell) = outside_tuples(&lookup.elements, layout) {
        return Some(cell);
    }
    if let Some(cell) = outside_of(&lookup.multiplicities, layout) {
        return Some(cell);
    }
    match &lookup.flags {
        Some(flags) => outside_of(flags, layout),
        None => None,
    }
}

/// The first one of some tuples.
fn outside_tuples<F>(tuples: &[Vec<SymbolicExpression<F>>], layout: &AirLayout) -> Option<Cell>
    ensures { MatchOption result (All (λ tuple. AllFit layout.now tuple.items) tuples.now)
        (λ cell. IsFirstOutsideTuples layout.now cell tuples.now) }
{
    for tuple in tuples {
        if let Some(cell) = outside_of(tuple, layout) {
            return Some(cell);
        }
    }
    None
}

/// The first one of some expressions.
fn outside_of<F>(expressions: &[SymbolicExpression<F>], layout: &AirLayout) -> Option<Cell>
    ensures { MatchOption result (AllFit layout.now expressions.now)
        (λ cell. IsFirstOutsideOf layout.now cell expressions.now) }
{
    for expression in expressions {
        if let Some(cell) = outside(expression, layout) {
            return Some(cell);
        }
    }
    None
}

/// The first one of an expression.
fn outside<F>(expression: &SymbolicExpression<F>, layout: &AirLayout) -> Option<Cell>
    ensures { MatchOption result (Fits layout.now (tree_of expression.now))
        (λ cell. IsFirstOutside layout.now cell (tree_of expression.now)) }
{
    match expression {
        SymbolicExpression::Leaf(leaf) => outside_leaf(leaf, layout),
        SymbolicExpression::Add(a, b)
        | SymbolicExpression::Sub(a, b)
        | SymbolicExpression::Mul(a, b) => match outside(a, layout) {
            Some(cell) => Some(cell),
            None => outside(b, layout),
        },
        SymbolicExpression::Neg(a) => outside(a, layout),
    }
}

/// The cell of a leaf, if a layout does not have it.
fn outside_leaf<F>(leaf: &BaseLeaf<F>, layout: &AirLayout) -> Option<Cell>
    ensures { MatchOption result (LeafFits layout.now leaf.now)
        (λ cell. IsLeafOutside layout.now cell leaf.now) }
{
    match leaf {
        BaseLeaf::Variable(variable) => {
            let (entry, index) = (variable.entry, variable.index);
            if has_offset(entry) && index < width_at(layout, entry) {
                None
            } else {
                Some(Cell { entry, index })
            }
        }
        BaseLeaf::IsFirstRow
        | BaseLeaf::IsLastRow
        | BaseLeaf::IsTransition
        | BaseLeaf::Constant(_) => None,
    }
}

/// Whether a variable is read in the current row or the next, or is a public value.
fn has_offset(entry: BaseEntry) -> bool
    ensures { IsTrue result ↔ HasOffset entry }
{
    match entry {
        BaseEntry::Main { offset } | BaseEntry::Preprocessed { offset } => offset <= 1,
        BaseEntry::Public => true,
    }
}
