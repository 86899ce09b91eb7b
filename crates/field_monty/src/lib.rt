//! The prime fields below 2^31 in Montgomery's form, and their quartic extensions.
//!
//! `BabyBear` and `KoalaBear` are such fields. Lists over the quartic extensions are divided by
//! vectors of four.
#![tactic(auto)]

mod baby_bear;
mod koala_bear;
mod lane_division;
mod lanes;
mod monty_extension;
mod monty_field;
mod monty_quartic;
mod planes;

pub use baby_bear::{BabyBear, BabyBear4, BabyBearParameters};
pub use koala_bear::{KoalaBear, KoalaBear4, KoalaBearParameters};
pub use monty_field::{MontyField31, MontyParameters, QuarticParameters};
pub use monty_quartic::MontyQuartic;
