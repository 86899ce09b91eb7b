//! The text in which authors of AIRs write lookups, and traces as CSV.
#![tactic(auto)]

mod batch;
mod fault;
mod formula;
mod front;
mod item;
mod lexer;
mod message;
mod number;
mod place;
mod table;
mod theorems;
mod token;

pub use batch::{AirText, BatchText, BusText, SectionText, read_batch};
pub use fault::{Fault, TextFault, Why};
pub use formula::{Tree, read_formula};
pub use item::{ItemText, PartText, PlacedItem};
pub use lexer::tokens;
pub use message::{MessageText, Verb};
pub use place::{Place, place_of};
pub use table::{Table, read_table};
pub use theorems::{formulas_are_said, rows_are_read};
pub use token::{Kind, Span, Token, Word};
