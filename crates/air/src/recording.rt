//! Recording constraints, over all windows of a layout.

mod builder;
mod variable_kind;
mod variables;

pub use builder::{ConstraintLayout, SymbolicAirBuilder};
