//! What the constraints of an AIR say of the cells of a row, and whether they hold on traces.
#![tactic(auto)]

mod bits;
mod bounds;
mod cells;
mod check;
mod error;
mod exclusive;
mod exclusive_sums;
mod facts;
mod given;
mod kind;
mod learn;
mod polynomial;
mod term;
mod trees;
mod zero_products;
mod zeros;

pub use bounds::{Range, WholeNumber, bound_of};
pub use check::{ConstraintFault, check_constraints, value_on_row};
pub use error::PolynomialError;
pub use facts::{Facts, Given};
pub use kind::RowKind;
pub use learn::facts_of;
pub use term::Term;
pub use trees::{limited_sum, polynomial_of};
pub use zeros::is_bit;
