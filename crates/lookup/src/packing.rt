//! Packing: lookups on one bus share columns, as many as a degree allows.
//!
//! `pack_lookups` fills the columns of each bus with its additive lookups, greedily and in order;
//! `pack_by_degree` does so by the degree of the gadget's constraint. `by_bus` groups lookups by the
//! name of their bus, and `assert_uniform_tuple_width` compares the widths of tuples.
//! `messages_keep_terminals` says that packing changes no terminal. `specs/` says what a greedy cut is,
//! that no consecutive split has fewer columns, and that packing keeps every message.

mod degrees;
mod filling;
mod greedy;
mod terminals;
mod trials;

pub use crate::buses::by_bus;
pub use crate::tuple_widths::assert_uniform_tuple_width;
pub use greedy::{may_be_joined, pack_by_degree, pack_lookups};
pub use terminals::messages_keep_terminals;
