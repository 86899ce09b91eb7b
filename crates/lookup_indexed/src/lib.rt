//! Indexed declarations and their checks: the tables that AIRs declare, the readers that name the
//! entry they read, what makes one of them faulty, and which fault comes first.
//!
//! Declarations are written to and read from a format such as JSON. A reader or a table names
//! columns of a trace. `check_declarations` checks them against the widths of an AIR's layout.
#![tactic(auto)]

mod check;
mod columns;
mod declarations;
mod error;
mod indexed;

pub use check::check_declarations;
pub use declarations::IndexedDeclarations;
pub use error::IndexedLookupError;
pub use indexed::{IndexedRead, IndexedTable, TraceWindow};
