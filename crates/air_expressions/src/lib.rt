//! What constraints are written with: expressions over the cells of a window, and the traits of the
//! builders that take them.
#![tactic(auto)]

mod air;
mod base_expression;
mod builder;
mod degree;
mod error;
mod expression;
mod ext_degree;
mod ext_expression;
mod extension;
mod fits;
mod layout;
mod reading;
mod resolve;
mod variable;
mod view;

pub use air::{Air, BaseAir};
pub use base_expression::{BaseLeaf, SeenWindow, SymbolicExpression, copy_expressions};
pub use builder::{AirBuilder, FilteredAirBuilder};
pub use error::{AirError, LayoutPart};
pub use expression::{Expression, WholeNumbers};
pub use ext_expression::{ExtLeaf, SeenExtWindow, SymbolicExpressionExt};
pub use extension::{ExtensionBuilder, PermutationAirBuilder};
pub use layout::AirLayout;
pub use resolve::resolve_over;
pub use variable::{BaseEntry, ExtEntry, SymbolicVariable, SymbolicVariableExt};
pub use view::BuilderView;
