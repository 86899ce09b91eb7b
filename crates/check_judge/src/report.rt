//! What is found of a batch.
ghost use Rattle.std.specs.Prelude.{◌≡◌, ◌&&◌, ℕ, ◌-◌, ◌*◌, ◌/◌};

use crate::bits::Deceiving;
use crate::constraints::ConstraintFailure;
use crate::enforced::EnforcedAirs;
use crate::excess::Excess;
use batch::{HeightSoundness, SoundnessCount};
use lookup::debug_util::BusGroup;

/// What is found of an AIR.
#[derive(Debug, Drop)]
pub struct AirReport {
    pub rows: usize,
    pub columns: usize,
    /// The sum of the weights of all lookups.
    pub weight: u128,
    /// The degree of the constraint of each lookup.
    pub degrees: Vec<usize>,
    /// The same of the columns that packing within the degree leaves.
    pub packed: Vec<usize>,
    /// The numbers of the lookups that share each of these columns, from 0 in the order of the text.
    pub packed_lookups: Vec<Vec<usize>>,
}

/// What is found of a batch before any trace is seen.
#[derive(Debug, Drop)]
pub struct PlanReport {
    /// The AIRs, in their order.
    pub airs: Vec<AirReport>,
    /// How many ids the lookups take: one for each bus and each lookup on a bus of its own.
    pub ids: usize,
    /// The number of values of the widest tuple, at least 1.
    pub widest: usize,
    /// The sum of weights times heights.
    pub height_sum: u128,
    /// The characteristic, which is above that sum.
    pub characteristic: u128,
    /// How many messages there are at the most, whatever the traces are, and how few challenges
    /// accept a batch that does not balance.
    pub heights: HeightSoundness,
}

/// What is found of a batch before any trace is seen, with what its constraints are shown to enforce.
#[derive(Debug, Drop)]
pub struct PlanJudgement {
    pub report: PlanReport,
    /// What the constraints are shown to enforce, whatever the traces of these heights are.
    pub enforced: EnforcedAirs,
}

impl PlanReport {
    /// At how few challenges a batch that does not balance is accepted, whatever its traces hold.
    pub fn for_all_traces(&self) -> Deceiving
        ensures { (result.betas ≡ self.now.heights.bad_betas)
            × (result.alphas ≡ self.now.heights.accepting_alphas) }
    {
        Deceiving {
            betas: self.heights.bad_betas,
            alphas: self.heights.accepting_alphas,
        }
    }
}

/// What is found of a batch over traces, over a field with elements `F`.
#[derive(Debug, Drop)]
pub struct Report<F> {
    pub plan: PlanReport,
    /// How many messages there are over these traces, and how few challenges accept a batch that
    /// does not balance.
    pub counts: SoundnessCount,
    /// The table of buses; see `lookup::debug_util::bus_table`.
    pub groups: Vec<BusGroup<F>>,
    /// Whether all messages balance.
    pub balanced: bool,
    /// For each AIR, in their order, where a constraint fails, if one does.
    pub failures: Vec<Option<ConstraintFailure<F>>>,
    /// Whether all constraints are zero on all rows.
    pub hold: bool,
    /// What the constraints are shown to enforce, whatever the traces of these heights are that have the preprocessed ones
    /// of these.
    pub enforced: EnforcedAirs,
    /// For each AIR and each lookup, in their order, a count that is above what `at most` says, if one is.
    pub excesses: Vec<Vec<Option<Excess<F>>>>,
    /// Whether no count is above what `at most` says.
    pub within: bool,
}

impl<F> Report<F> {
    /// Whether all messages balance, all constraints hold, and no count is above what `at most` says.
    pub fn is_good(&self) -> bool
        ensures { result ≡ (self.now.balanced && (self.now.hold && self.now.within)) }
    {
        self.balanced && self.hold && self.within
    }

    /// At how few challenges the batch is accepted over these traces, if it does not balance.
    pub fn for_these_traces(&self) -> Deceiving
        ensures alphas { result.alphas ≡ self.now.counts.accepting_alphas }
        ensures betas { (W : ℕ) → let k = self.now.counts.unbalanced in
            self.now.counts.bad_betas ≡ W * k * (k - 1) / 2 → result.betas ≡ W * (k - 1) }
    {
        Deceiving {
            betas: self.counts.linear_bad_betas(),
            alphas: self.counts.accepting_alphas,
        }
    }
}
