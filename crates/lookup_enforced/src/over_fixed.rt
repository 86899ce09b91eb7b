//! What a preprocessed trace says of the columns that lookups read.
ghost use Rattle.std.specs.Prelude.{◌≡◌, ◌++◌, IfOk, List, OnOk, Some, map};
ghost use Rattle.matrix.specs.Matrix.{height};
ghost use Rattle.air_expressions.specs.Tree.{Tree, tree_of};
ghost use Rattle.lookup_enforced.specs.Fixed.{FollowOver, HoldOverFixed};

use crate::fixed::{push_bits, push_exclusive};
use air_expressions::{BaseEntry, BaseLeaf, SymbolicExpression, copy_expressions};
use field::Field;
use lookup_model::Lookup;
use matrix::RowMajorMatrix;
use std::alloc::{AllocError, Global};

/// The constraints of an AIR, and behind them what its preprocessed trace says of the columns that the flags and the
/// counts of its lookups read: which are bits, and of the flags of one lookup which are never set together, as
/// [`fixed_constraints`](crate::fixed_constraints) finds it.
///
/// They hold on all traces with this preprocessed trace, and its height, on which the constraints of the AIR do. So
/// [`enforcements`](crate::enforcements) of them at that height are what the constraints enforce, since a verifier knows
/// what it fixes. Fails only when out of memory.
pub fn constraints_over_fixed<F: Field>(
    alloc: Global,
    constraints: &[SymbolicExpression<F>],
    lookups: &[Lookup<F>],
    preprocessed: &RowMajorMatrix<F>,
) -> Result<Vec<SymbolicExpression<F>>, AllocError>
    ensures follow { IfOk result (λ all. FollowOver F.ring (Some preprocessed.now)
        (height preprocessed.now) constraints.now all.items) }
    ensures front { IfOk result (λ all. (further : List (Tree F))
        × (map tree_of all.items ≡ map tree_of constraints.now ++ further)) }
{
    let mut all = copy_expressions(alloc, constraints)?;
    let mut further = fixed_by_lookups(alloc, lookups, preprocessed)?;
    all.append(&mut further)?;
    Ok(all)
}

/// What a preprocessed trace says of the columns that the flags and the counts of these lookups read.
///
/// Fails only when out of memory.
fn fixed_by_lookups<F: Field>(
    alloc: Global,
    lookups: &[Lookup<F>],
    preprocessed: &RowMajorMatrix<F>,
) -> Result<Vec<SymbolicExpression<F>>, AllocError>
    ensures { IfOk result (λ found. HoldOverFixed F.ring preprocessed.now found.items) }
{
    let mut found = Vec::new(alloc);
    let mut bits = Vec::new(alloc);
    let columns = columns_read(alloc, lookups)?;
    push_bits(
        alloc,
        &mut found,
        &mut bits,
        preprocessed,
        columns.as_slice(),
    )?;
    for lookup in lookups {
        let flags = flag_columns(alloc, lookup, bits.as_slice())?;
        push_exclusive(alloc, &mut found, preprocessed, flags.as_slice())?;
    }
    Ok(found)
}

/// The preprocessed columns that the flags and the counts of these lookups read, each once.
///
/// Fails only when out of memory.
fn columns_read<F: Field>(alloc: Global, lookups: &[Lookup<F>]) -> Result<Vec<usize>, AllocError> {
    let mut columns = Vec::new(alloc);
    for lookup in lookups {
        push_flag_columns(&mut columns, lookup)?;
        for multiplicity in &lookup.multiplicities {
            push_columns(&mut columns, multiplicity)?;
        }
    }
    Ok(columns)
}

/// Those of these columns that the flags of a lookup read, each once.
///
/// Fails only when out of memory.
fn flag_columns<F: Field>(
    alloc: Global,
    lookup: &Lookup<F>,
    among: &[usize],
) -> Result<Vec<usize>, AllocError> {
    let mut read = Vec::new(alloc);
    push_flag_columns(&mut read, lookup)?;
    let mut columns = Vec::new(alloc);
    for column in &read {
        if among.contains(column) {
            columns.push(*column)?;
        }
    }
    Ok(columns)
}

/// Appends the preprocessed columns that the flags of a lookup read and that are not in the list.
///
/// Fails only when out of memory.
fn push_flag_columns<F: Field>(
    columns: &mut Vec<usize>,
    lookup: &Lookup<F>,
) -> Result<(), AllocError> {
    if let Some(flags) = &lookup.flags {
        for flag in flags {
            push_columns(columns, flag)?;
        }
    }
    Ok(())
}

/// Appends the preprocessed columns that an expression reads and that are not in the list.
///
/// Fails only when out of memory.
fn push_columns<F: Field>(
    columns: &mut Vec<usize>,
    expression: &SymbolicExpression<F>,
) -> Result<(), AllocError> {
    match expression {
        SymbolicExpression::Leaf(BaseLeaf::Variable(variable)) => {
            if let BaseEntry::Preprocessed { .. } = variable.entry {
                if !columns.as_slice().contains(&variable.index) {
                    columns.push(variable.index)?;
                }
            }
            Ok(())
        }
        SymbolicExpression::Leaf(_) => Ok(()),
        SymbolicExpression::Add(a, b)
        | SymbolicExpression::Sub(a, b)
        | SymbolicExpression::Mul(a, b) => {
            push_columns(columns, a)?;
            push_columns(columns, b)
        }
        SymbolicExpression::Neg(a) => push_columns(columns, a),
    }
}
