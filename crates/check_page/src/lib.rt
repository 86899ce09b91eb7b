//! What reports are told with: a page, what a batch calls its parts, and expressions as their author wrote them.
//!
//! What the texts say is tested. Proved is how bytes of a file and numbers are shown.
#![tactic(auto)]

mod formula;
mod page;
mod places;
mod told;
mod words;

pub use formula::{Around, push_formula};
pub use page::{Page, characters, head, number_cell, numbers_cell, shown_cell, word_cell};
pub use places::told_places;
pub use told::{Told, air_name, group_cell, push_lookup};
pub use words::{
    Lines, air_at, bus_named, constraint_count, first_word, flag_at, has_queries,
    have_fixed_columns, is_constraint, is_lookup, lookup_at, message_at, public_name, trace_file,
    verb_word, weight_of,
};
