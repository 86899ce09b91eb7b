//! Calls over a batch of AIRs that make a witness and count (LogUp, eprint 2022/1530).
//!
//! `instances_fit` and `ids_are_lawful` test what the other calls require, and `ids_are_kept` that packing
//! keeps ids. `generate_batch` makes the witness of a batch, and `some_witness` says whether any is accepted.
//! `soundness_count` bounds the challenges at which one can be, if the messages do not balance;
//! `counted_soundness`, `linear_soundness` and `joint_soundness` say the same of every batch, and
//! `packing_keeps_batch` that packing changes neither count.
#![tactic(auto)]

mod counting;
mod existence;
mod generation;
mod ids;
mod instances;
mod same_ids;
mod sums;
mod theorems;

pub use counting::{soundness_count, soundness_of_counts};
pub use existence::some_witness;
pub use generation::generate_batch;
pub use ids::ids_are_lawful;
pub use instances::{instance_fits, instances_fit};
pub use same_ids::ids_are_kept;
pub use theorems::{
    accepted_is_accepting, counted_soundness, joint_soundness, linear_soundness,
    packing_keeps_batch,
};
