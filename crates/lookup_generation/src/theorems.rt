//! What holds of ranges of rows, whoever makes them.
ghost use Rattle.lookup_generation.specs.Ranges.{RangesJoin};

use field::{ExtensionField, Field, Over};

/// Does nothing. Its contract says that ranges of rows join, wherever they are made: the rows of two that
/// follow one another, the second shifted by the sum of the first, are the rows of both, and their sums
/// add. The rows of the range of all rows are the auxiliary trace, and its sum is the terminal. The first
/// fault is that of the first range that has one.
pub fn ranges_join<F: Field, EF: ExtensionField<F>>()
    ensures { RangesJoin ⟦<EF as Over<F>>⟧.fields }
{}
