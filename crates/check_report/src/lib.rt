//! What is told of a batch that is judged, as text: the sections of a report, the lookups as they
//! are understood, and why a run is refused, with the place in the text.
//!
//! What the texts say is tested. Proved are the last line of a report, the line about a whole file,
//! and that a refusal for want of memory is told as one.
#![tactic(auto)]

mod bits;
mod columns;
mod constraints;
mod enforced;
mod excess;
mod given;
mod hint;
mod mark;
mod names;
mod near;
mod refusal;
mod sections;
mod show;
mod unbalanced;

pub use bits::{push_bits_table, push_target};
pub use enforced::{is_enforcement_told, push_enforced_line};
pub use given::Given;
pub use refusal::RunRefusal;
pub use sections::{push_airs, push_plan, push_report};
pub use show::push_lookups;
