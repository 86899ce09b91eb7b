//! The command line of the program `lookup-check`: what its words ask for.
#![tactic(auto)]

mod arguments;
mod commands;
mod line;
mod reading;
mod refusal;
mod request;

pub use line::asked;
pub use refusal::WordsRefusal;
pub use request::{Asked, BatchRequest, BitsRequest, ChallengeWords, Task};
