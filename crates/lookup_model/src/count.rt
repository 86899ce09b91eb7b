//! The counts of a batch.
ghost use Rattle.std.specs.Prelude.{◌≡◌, ℕ, ◌-◌, ◌*◌, ◌/◌};

/// How many messages a batch has, how many of them do not balance, and upper bounds on the challenges
/// at which an unbalanced batch can still be accepted.
///
/// Let `n` be `messages`, `k` be `unbalanced`, and `W` the width that the challenges are made for. At
/// a beta an alpha is accepting if any witness, whoever made it, is accepted. A beta is bad if `n + k`
/// alphas are accepting at it; then two unbalanced messages have the same point there.
#[derive(Debug, Clone, Copy, PartialEq, Eq)]
pub struct SoundnessCount {
    /// The number of distinct messages, each an id with the values of a tuple, including those of
    /// multiplicity zero.
    pub messages: u128,
    /// The number of those whose multiplicities do not sum to zero.
    pub unbalanced: u128,
    /// `W * k * (k - 1) / 2`: at most this many betas are bad.
    pub bad_betas: u128,
    /// `n + k - 1`, or none if `k` is zero: at a beta where no two unbalanced messages have the same
    /// point, at most this many alphas are accepting.
    pub accepting_alphas: Option<u128>,
}

impl SoundnessCount {
    /// `W * (k - 1)`, or 0 if `k` is zero, of counts whose `bad_betas` is `W * k * (k - 1) / 2`, as those of a
    /// batch: at most this many betas are bad.
    ///
    /// It is never above `bad_betas`. A beta is bad only if each unbalanced message shares its point there
    /// with another one; for any one of them that is so at `W * (k - 1)` betas at most.
    pub fn linear_bad_betas(&self) -> u128
        ensures { (W : ℕ) → let k = self.now.unbalanced in
            self.now.bad_betas ≡ W * k * (k - 1) / 2 → result ≡ W * (k - 1) }
    {
        let k = self.unbalanced;
        if k < 2 {
            0
        } else if k % 2 == 0 {
            self.bad_betas / (k / 2)
        } else {
            self.bad_betas / k * 2
        }
    }
}
