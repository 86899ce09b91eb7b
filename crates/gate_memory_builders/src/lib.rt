//! Inputs for the program `gate_memory`, the lines that it writes, and calls over builders.
#![tactic(auto)]

pub mod airs;
pub mod any_builder;
pub mod inputs;
pub mod layouts;
pub mod over;
pub mod records;
pub mod show;
