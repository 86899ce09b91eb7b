//! Checks of a witness of a batch of AIRs (LogUp, eprint 2022/1530).
//!
//! `check_witness` checks all of it, `check_result` the part of one AIR, and `check_shape` and
//! `rows_hold_until` its shape and a range of its rows. `check_columns`, `check_in_columns` and
//! `columns_hold_until` do so under challenges that a prover has of its own. `rows_hold_around` and
//! `generate_around` work on a range of rows with three parts of the traces: row 0, the rows of the range, and
//! the row after them. `results_join` says how checks of AIRs join, and `checks_join` how checks of ranges do.
#![tactic(auto)]

mod accumulator;
mod chunks;
mod columns;
mod few_rows;
mod fractions;
mod joins;
mod products;
mod range;
mod range_check;
mod range_generation;
mod rows;
mod shape;
mod trace_row;
mod witness;

pub use columns::{check_columns, check_in_columns};
pub use joins::{checks_join, results_join};
pub use range::RowRange;
pub use range_check::rows_hold_around;
pub use range_generation::generate_around;
pub use rows::{columns_hold_until, rows_hold_until};
pub use shape::check_shape;
pub use witness::{check_in_ranges, check_result, check_witness};
