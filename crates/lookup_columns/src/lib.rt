//! Values of expressions, denominators of tuples and the columns of lookups over many rows of the traces
//! of an AIR, a column at a time, in lists whose memory is used again.
//!
//! `steps_of_lookups` flattens the expressions of lookups once. `columns_of_lookup` computes the
//! flags, the multiplicities and the denominators of a lookup on some rows, as `rows_between` lists
//! them. `ColumnMemory` keeps these lists for the next rows.
#![tactic(auto)]

mod branches;
mod column;
mod columns;
mod denominators;
mod lookup_steps;
mod memory;
mod rows;
mod slots;
mod spare;
mod step;

pub use branches::columns_of_lookup;
pub use column::column_of;
pub use columns::{BranchColumns, ColumnInputs};
pub use denominators::denominators_of;
pub use lookup_steps::{LookupSteps, steps_of_lookups};
pub use memory::ColumnMemory;
pub use rows::rows_between;
pub use slots::Slots;
pub use spare::SpareLists;
pub use step::{Step, steps_of, steps_of_each};
