//! An offline memory check by lookups: the model to copy for AIRs of one's own.
//!
//! Three AIRs on two buses, in `airs.rt`, say what their rows look up:
//!
//! - [`AccessesAir`]: each row reads a cell of the memory as it was left, and writes it back;
//! - [`BoundaryAir`]: each row has an address, what it holds at first and what it holds at last;
//! - [`GapsAir`]: the gaps between the times of two accesses that are allowed.
//!
//! [`memory_plan`] makes a plan of what they look up. [`check_memory`] proves their traces over it, and
//! verifies the witness.
#![tactic(auto)]

mod airs;
mod memory;

pub use airs::{AccessesAir, BoundaryAir, GapsAir};
pub use memory::{MemoryTraces, check_memory, memory_plan};
