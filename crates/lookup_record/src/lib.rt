//! What AIRs say about lookups while they are evaluated, and the builders that take it: messages on
//! buses with signed counts, local lookups and indexed declarations.
//!
//! An AIR sends through a `LookupBus` or a `PermutationCheckBus`, or pushes on an
//! `InteractionBuilder` itself. `InteractionSymbolicBuilder` records a whole AIR: its constraints, the
//! messages that it pushes and its indexed declarations, each kind in order. The row checker of `air`
//! takes every push and keeps none. `IndexedLookups` are those that an AIR declares.
#![tactic(auto)]

mod builder;
mod bus;
mod count;
mod debug;
pub mod indexed;
mod interaction;
pub mod symbolic;

pub use builder::{IndexedLookupBuilder, InteractionBuilder};
pub use bus::{LookupBus, PermutationCheckBus};
pub use count::Count;
pub use indexed::{
    IndexedDeclarations, IndexedLookupError, IndexedLookups, IndexedRead, IndexedTable, TraceWindow,
};
pub use interaction::{
    LocalTuple, SymbolicExclusiveBranch, SymbolicExclusiveInteraction, SymbolicInteraction,
    SymbolicLocalInteraction,
};
pub use symbolic::InteractionSymbolicBuilder;
