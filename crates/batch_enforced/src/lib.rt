//! Plans with the constraints of their AIRs, which enforce the flags of all lookups. So what a plan says of
//! batches with lawful flags holds of all traces on which the constraints hold.
#![tactic(auto)]

mod error;
mod flags;
mod plan;
mod queries;
mod unshown;
mod weights;

pub use error::EnforcementError;
pub use flags::flags_are_enforced;
pub use plan::EnforcedPlan;
pub use queries::queries_are_provided;
pub use unshown::UnshownFlags;
pub use weights::{UnshownWeight, WeightError};
