//! One row of the traces of an AIR as its lookups see it, the messages that rows send, and their nets.
//!
//! `LookupTraceBuilder` is one row, and `row_builder` makes it of traces. `push_messages` collects what the
//! rows of an AIR send.
//! `key_counts` goes through messages once, with a map from keys to nets in the order in which the keys
//! are first seen; `add_at` is its step, for any type of keys.
#![tactic(auto)]

mod counts;
mod flags;
mod messages;
mod net_map;
mod row;
mod trace_builder;

pub use counts::key_counts;
pub use messages::{SentMessage, push_messages};
pub use net_map::{KeyRef, add_at, nets};
pub use row::row_builder;
pub use trace_builder::LookupTraceBuilder;
