//! Checking constraints on the rows of given traces.

mod builder;
mod check;
mod inputs;

pub use builder::{DebugConstraintBuilder, judge};
pub use check::check_rows;
pub use inputs::RowInputs;
