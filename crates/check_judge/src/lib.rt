//! Batches that are written as text, judged: whether all messages balance and all constraints hold, how heavy
//! and how sound the batch is, which tuples are sent too often, where constraints fail, what they enforce for all
//! traces with the same fixed columns, and which counts are above what the text says.
//!
//! `judge` takes a batch of `language` and the tables of its AIRs over one field, and calls the
//! lookup library over the lookups and traces that they say. `judge_plan` needs no tables, but how
//! large they are.
#![tactic(auto)]

mod airs;
mod bits;
mod constraints;
mod counts;
mod enforced;
mod excess;
mod fault;
mod judgement;
mod plan;
mod report;
mod sharing;
mod sizes;

pub use airs::{AirOver, MAX_NODES, airs_named, airs_of, sets_over};
pub use bits::{Deceiving, bits_of};
pub use constraints::ConstraintFailure;
pub use counts::SaidCount;
pub use enforced::{EnforcedAir, EnforcedAirs};
pub use excess::{Excess, magnitude};
pub use fault::JudgeFault;
pub use judgement::{PlannedAirs, judge, planned_airs, traces_of};
pub use plan::judge_plan;
pub use report::{AirReport, PlanJudgement, PlanReport, Report};
