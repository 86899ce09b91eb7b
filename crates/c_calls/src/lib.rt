//! The calls of the lookup layer as C functions, over `BabyBear` and over `KoalaBear`, each with its quartic
//! extension.
//!
//! Each call gets all that it reads as tables of numbers, the lookups and traces of `c_tables`, and
//! writes into arrays of its caller. It answers a code: 0, or that of a refusal, with its fields and its
//! text. Each call is in the file of its name: what it does over any such field, which answers a `Result`, and the
//! C function over `BabyBear`; those over `KoalaBear` are in `koala_bear` and `koala_bear_checks`. A refused call
//! leaves the other arrays as they were. No memory and no handle crosses the boundary. `bindings/c/volgwain.h`
//! declares the calls for C, and docs/guide/RUST_AND_C.md says how they are used.
#![tactic(auto)]

mod abi;
mod batch_tables;
mod bus_table;
mod check_constraints;
mod codes;
mod constraints;
mod debug_check;
mod debug_numbers;
mod degrees;
mod enforced;
mod fault;
mod fit_fault;
mod generate;
mod generate_by_ids;
mod generate_rows;
mod grid_count;
mod group_numbers;
mod inputs;
mod koala_bear;
mod koala_bear_checks;
mod mismatch;
mod outputs;
mod pack;
mod plan;
mod planned_air;
mod prove;
mod read_json;
mod refusal;
mod rows;
mod shift;
mod soundness_count;
mod soundness_of_heights;
mod text;
mod theorems;
mod verify;
mod verify_air;
mod verify_rows;
mod witness;
mod written_tables;

pub use batch_tables::Air;
pub use bus_table::volgwain_bus_table;
pub use check_constraints::volgwain_check_constraints;
pub use debug_check::volgwain_debug_check;
pub use degrees::volgwain_degrees;
pub use enforced::{Bound, Enforced, volgwain_enforced};
pub use fit_fault::{Fit, volgwain_fit_fault};
pub use generate::volgwain_generate;
pub use generate_by_ids::volgwain_generate_by_ids;
pub use generate_rows::volgwain_generate_rows;
pub use grid_count::{Grid, volgwain_grid_count};
pub use koala_bear::{
    volgwain_koala_bear_debug_check, volgwain_koala_bear_degrees, volgwain_koala_bear_generate,
    volgwain_koala_bear_generate_by_ids, volgwain_koala_bear_generate_rows,
    volgwain_koala_bear_grid_count, volgwain_koala_bear_pack, volgwain_koala_bear_plan,
    volgwain_koala_bear_prove, volgwain_koala_bear_read_json, volgwain_koala_bear_shift,
    volgwain_koala_bear_soundness_count, volgwain_koala_bear_soundness_of_heights,
    volgwain_koala_bear_verify, volgwain_koala_bear_verify_rows,
};
pub use koala_bear_checks::{
    volgwain_koala_bear_bus_table, volgwain_koala_bear_check_constraints,
    volgwain_koala_bear_enforced, volgwain_koala_bear_fit_fault, volgwain_koala_bear_mismatch,
    volgwain_koala_bear_verify_air,
};
pub use mismatch::volgwain_mismatch;
pub use outputs::{Terminal, Wide};
pub use pack::volgwain_pack;
pub use plan::{PlanSizes, volgwain_plan};
pub use prove::volgwain_prove;
pub use read_json::volgwain_read_json;
pub use refusal::Refusal;
pub use rows::Rows;
pub use shift::volgwain_shift;
pub use soundness_count::{Counts, volgwain_soundness_count};
pub use soundness_of_heights::{HeightCounts, volgwain_soundness_of_heights};
pub use theorems::rows_join;
pub use verify::volgwain_verify;
pub use verify_air::volgwain_verify_air;
pub use verify_rows::volgwain_verify_rows;
pub use witness::AirWitness;
pub use written_tables::TableSizes;
