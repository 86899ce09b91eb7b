//! Builders that record constraints or check them on given rows, the cells of a row for authors of
//! AIRs, and the traces of an AIR as one value. Re-exports all of `air_expressions`.
#![tactic(auto)]

mod cell;
mod debug;
mod recording;
mod traces;

pub use air_expressions::{
    Air, AirBuilder, AirError, AirLayout, BaseAir, BaseEntry, BaseLeaf, BuilderView, Expression,
    ExtEntry, ExtLeaf, ExtensionBuilder, FilteredAirBuilder, LayoutPart, PermutationAirBuilder,
    SeenExtWindow, SeenWindow, SymbolicExpression, SymbolicExpressionExt, SymbolicVariable,
    SymbolicVariableExt, WholeNumbers, copy_expressions, resolve_over,
};
pub use cell::{current_cell, current_cells, next_cell};
pub use debug::{DebugConstraintBuilder, RowInputs, check_rows, judge};
pub use recording::{ConstraintLayout, SymbolicAirBuilder};
pub use traces::{Traces, next_row};
