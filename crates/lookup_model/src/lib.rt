//! What lookups are and what they mean, of one AIR and of a batch of AIRs: their types, their refusals,
//! their challenges, and which of them fit an AIR.
//!
//! `with_flag` counts the set flags of an exclusive lookup in whole numbers.
//! `BatchInstance` is one AIR of a batch, `Witness` what a prover makes of a batch, `BatchFault` why
//! it makes none, and `SoundnessCount` says at how few challenges an unbalanced batch can be accepted.
//! `specs/` defines the messages that lookups send, the plain result of generation, the equations of a
//! satisfied witness, and under `Batches` what holds of all AIRs together (LogUp, eprint 2022/1530).
//! `proofs/` has the laws of these, which the crates above cite.
#![tactic(auto)]

mod challenges;
mod collisions;
mod copies;
mod count;
mod degree;
mod error;
mod expression_degree;
mod fault;
mod fitting;
mod flags;
mod instance;
mod reading;
mod sum_degrees;
mod types;
mod witness;

pub use challenges::Challenges;
pub use collisions::few_collisions;
pub use count::SoundnessCount;
pub use degree::constraint_degree;
pub use error::LookupError;
pub use fault::BatchFault;
pub use fitting::{first_malformed, fits, has_equal_lengths};
pub use flags::{SetFlags, with_flag};
pub use instance::BatchInstance;
pub use sum_degrees::SumDegrees;
pub use types::{Kind, Lookup, LookupTerminal};
pub use witness::Witness;
