//! Witnesses as text: `push_witness` writes one, and `read_witness` reads it again.
#![tactic(auto)]

mod reading;
mod writing;

pub use reading::{WitnessFault, read_witness};
pub use writing::push_witness;
