//! Variables by entry and index.
ghost use Rattle.std.specs.Prelude.{◌≡◌, ℕ, IfOk};
ghost use Rattle.air.specs.internal.Variables.{IsVariableRow, IsVariableMatrix};

use air_expressions::{BaseEntry, ExtEntry, SymbolicVariable, SymbolicVariableExt};
use matrix::RowMajorMatrix;
use std::alloc::{AllocError, Global};

/// A kind of variable, named by an entry and an index.
pub trait VariableKind: Copy {
    /// Where variables of this kind are read.
    type Entry: Copy;

    ghost entry_of: { Self → Self.Entry };

    ghost index_of: { Self → ℕ };

    /// The variable at `index` of `entry`.
    fn at(entry: Self::Entry, index: usize) -> Self
        ensures entry { entry_of result ≡ entry }
        ensures index { index_of result ≡ index };
}

impl<F: Copy> VariableKind for SymbolicVariable<F> {
    type Entry = BaseEntry;

    ghost entry_of = { λ v. v.entry };

    ghost index_of = { λ v. v.index };

    fn at(entry: BaseEntry, index: usize) -> Self {
        SymbolicVariable::new(entry, index)
    }
}

impl<F: Copy, EF: Copy> VariableKind for SymbolicVariableExt<F, EF> {
    type Entry = ExtEntry;

    ghost entry_of = { λ v. v.entry };

    ghost index_of = { λ v. v.index };

    fn at(entry: ExtEntry, index: usize) -> Self {
        SymbolicVariableExt::new(entry, index)
    }
}

/// The first `count` variables of an entry. Fails only when out of memory.
#[tactic(auto, using(crate::proofs::VariableRows::variables_more))]
pub fn variables<V: VariableKind>(
    alloc: Global,
    entry: V::Entry,
    count: usize,
) -> Result<Vec<V>, AllocError>
    ensures { IfOk result (λ v. IsVariableRow V.entry_of V.index_of entry count v.items) }
{
    let mut all = Vec::with_capacity(alloc, count)?;
    for i in 0..count {
        all.push(V::at(entry, i))?;
    }
    Ok(all)
}

/// A matrix of two rows: the first `width` variables of `current` above those of `next`. Fails only
/// when out of memory.
#[tactic(auto, using(matrix::proofs::Shapes::shaped_by_two))]
pub fn variable_rows<V: VariableKind>(
    alloc: Global,
    current: V::Entry,
    next: V::Entry,
    width: usize,
) -> Result<RowMajorMatrix<V>, AllocError>
    ensures { IfOk result (λ m. IsVariableMatrix V.entry_of V.index_of current next width m) }
{
    let mut values = variables(alloc, current, width)?;
    let below = variables(alloc, next, width)?;
    values.extend_from_slice(below.as_slice())?;
    Ok(RowMajorMatrix::new(values, width))
}
