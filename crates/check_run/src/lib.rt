//! The program `lookup-check` over streams: `run` takes what its words ask for, reads the text and its
//! tables, judges the batch or makes and checks its witnesses, and writes the answer, as text or as
//! JSON.
#![tactic(auto)]

mod answer;
mod commands;
mod opened;
mod program;
mod reading;
mod witness;

pub use answer::Answer;
pub use program::{Inputs, refuse, run};
