//! What the constraints of an AIR enforce of its lookups: that flags are lawful, and that the queries of a row
//! stay within the weight.
#![tactic(auto)]

mod bounds;
mod constrained;
mod enforcement;
mod fixed;
mod flags;
mod over_fixed;
mod rows;
mod shown;
mod weight;

pub use constrained::ConstrainedLookups;
pub use enforcement::{Enforcement, Missing};
pub use fixed::fixed_constraints;
pub use over_fixed::constraints_over_fixed;
pub use shown::{enforcements, missing_flags};
pub use weight::keeps_weight;
