//! Lookups and traces as tables of plain data: numbers, and structs of numbers and slices.
//!
//! A caller that has no Rattle types writes its expressions as nodes in postfix order, and its
//! lookups as records that name ranges of them. `read_lookups` reads the lookups that tables
//! encode, `write_lookups` writes tables for given lookups, and `read_traces` reads traces.
//! `elements`, `extensions` and `element_numbers` convert numbers to elements and back. `specs/`
//! defines which lookups a table encodes by the nodes of expressions, and not by the reader: there
//! is at most one list of lookups.
#![tactic(auto)]

mod nodes;
mod numbers;
mod part;
mod reader;
mod tables;
mod traces;
mod writer;

pub use nodes::{Node, NodeFault};
pub use numbers::{NumberFault, element_numbers, elements, extension, extensions};
pub use reader::read_expressions;
pub use tables::{Record, Span, TableFault, Tables, read_lookups, read_range};
pub use traces::{ReadTraces, TraceFault, TracePart, Traces, makes_rows, read_traces};
pub use writer::{Written, write_lookups};
