//! The program `lookup-run MACHINE FIELD ALPHA BETA` as one call, over streams that the caller hands in:
//! it reads the rows of a machine, prints the auxiliary traces and terminals of its AIRs and whether the
//! terminals cancel, and names the first tuple that does not balance on standard error.
#![tactic(auto)]

mod airs;
mod command;
mod error;
mod machine;
mod mismatch;
mod report;
mod rows;
mod traces;

pub use command::{refuse, run};
pub use error::RunError;
