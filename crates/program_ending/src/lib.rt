//! How a run of a program ends: what it writes, and its status.
#![tactic(auto)]

mod answer;

pub use answer::{write_answer, write_refusal};
