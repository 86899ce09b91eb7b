//! The LogUp lookup argument (eprint 2022/1530): lookups, their challenges, and the auxiliary
//! traces that show that all messages cancel.
//!
//! An AIR says on buses what its rows look up, and `Lookups::from_air` extracts it.
//! `LogUpGadget::generate_permutation` makes the auxiliary trace of one AIR, and `eval_all` asserts
//! its constraints. `verify_terminal_sum` says whether the terminals of all AIRs cancel.
#![tactic(auto)]

mod bus_widths;
mod buses;
pub mod debug_util;
mod extraction;
mod guards;
pub mod indexed;
pub mod logup;
mod lookups;
pub mod packing;
pub mod protocol;
pub mod symbolic;
pub mod traits;
mod tuple_widths;

pub use bus_widths::check_bus_widths;
pub use guards::{check_multiplicity_height_bound, height_law};
pub use logup::LogUpGadget;
pub use lookup_model::{
    Challenges, Kind, Lookup, LookupError, LookupTerminal, few_collisions, fits, has_equal_lengths,
};
pub use lookup_record::{
    Count, IndexedDeclarations, IndexedLookupBuilder, IndexedLookupError, IndexedLookups,
    IndexedRead, IndexedTable, InteractionBuilder, InteractionSymbolicBuilder, LocalTuple,
    LookupBus, PermutationCheckBus, SymbolicExclusiveBranch, SymbolicExclusiveInteraction,
    SymbolicInteraction, SymbolicLocalInteraction, TraceWindow,
};
pub use lookups::Lookups;
pub use packing::{assert_uniform_tuple_width, messages_keep_terminals};
pub use protocol::LookupProtocol;
