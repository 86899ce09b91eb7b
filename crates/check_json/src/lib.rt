//! What is told of a batch that is judged, as JSON.
//!
//! What the objects hold is tested, and not proved.
#![tactic(auto)]

mod answers;

pub use answers::{
    push_airs_json, push_bits_json, push_lookups_json, push_plan_json, push_report_json,
};
