//! What a text of lookups means: what its names stand for, the files that it names with the tables
//! in them, and its lookups and traces over a field.
//!
//! Names: expressions become values over columns by their numbers, messages get signed counts and
//! weights, and the items of an AIR become its lookups; no field is needed yet. Files: where they
//! are, the tables in them, and how large traces are that are not there yet. Over a field: values
//! become expressions, lookups of names become lookups, and tables become traces.
#![tactic(auto)]

mod bus;
mod constraint;
mod element_fault;
mod expression;
mod files;
mod lookups;
mod message;
mod name_fault;
mod named_air;
mod path;
mod scope;
mod shapes;
mod table_fault;
mod tables;
mod theorems;
mod traces;
mod value;

pub use bus::check_buses;
pub use constraint::{NamedConstraint, constraints_over};
pub use element_fault::{ElementFault, ElementRefusal, ElementWhy};
pub use expression::expression_of;
pub use files::{NamedFile, content_of, files_of};
pub use lookups::lookups_over;
pub use message::{NamedMessage, named_message};
pub use name_fault::{NameFault, NameRefusal, NameWhy};
pub use named_air::{NamedAir, NamedLookup, NamedPart, lookups_of};
pub use path::path_beside;
pub use scope::{Defined, Scope, boolean_value_of, bytes_of, value_of};
pub use shapes::{AirShape, read_shapes};
pub use table_fault::{TableFault, TableRefusal, TableWhy};
pub use tables::{AirTables, read_tables};
pub use theorems::room_is_taken;
pub use traces::{has_whole_rows, matrix_of};
pub use value::{Value, copy_of};
