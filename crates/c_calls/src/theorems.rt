//! What holds of the numbers that calls write, on whatever threads they run.
ghost use Rattle.c_calls.specs.JoinedRows.{RowsJoin};

use field::Over;
use field_monty::{MontyField31, MontyQuartic, QuarticParameters};
use lookup_generation::ranges_join;

/// Does nothing. Its contract says that ranges of rows join, wherever the calls run: what
/// `volgwain_generate_rows` writes for ranges that follow one another, shifted by `volgwain_shift` and put one
/// after the other, is what `volgwain_generate_by_ids` writes for the whole trace, and no other numbers are.
/// And what `volgwain_verify_rows` accepts for a range is true of the rows of the whole trace.
pub fn rows_join<const P: u32, K: QuarticParameters<P>>()
    ensures { RowsJoin K.positive ⟦<MontyQuartic<P, K> as Over<MontyField31<P, K>>>⟧.fields }
{
    ranges_join::<MontyField31<P, K>, MontyQuartic<P, K>>();
}
