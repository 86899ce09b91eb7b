//! At how few challenges a batch can be accepted, by the heights of its traces alone.
ghost use Rattle.std.specs.Prelude.{◌≡◌, ◌+◌, ◌*◌, ◌^◌, ◌≤◌, MatchOption, length};
ghost use Rattle.lookup_model.specs.Batches.Linear.{most_of_row, most_sent};
ghost use Rattle.batch.specs.Heights.{CountsHeights, most_planned};

use crate::error::BatchError;
use field::Field;
use lookup::{Lookup, Lookups};

/// The most messages that a batch with lawful flags can have, and upper bounds on the challenges at which it
/// can be accepted although it does not balance, whatever its traces hold.
///
/// Let `M` be `most_messages`, and `W` the plan's `max_message_width`. A beta is bad by heights if `2 * M`
/// alphas are accepting at it: at each of them some witness, whoever made it, is accepted. Both bounds are of
/// batches with lawful flags that do not balance.
#[derive(Debug, Clone, Copy, PartialEq, Eq)]
pub struct HeightSoundness {
    /// The height times the messages of a row, over all AIRs. A row has one message for each lookup with
    /// flags, and each tuple of every other lookup.
    pub most_messages: u128,
    /// `W * (M - 1)`, or 0 if `M` is zero: at most this many betas are bad by heights.
    pub bad_betas: u128,
    /// `2 * M - 1`, or none if `M` is zero, where every batch balances: at every other beta at most this
    /// many alphas are accepting.
    pub accepting_alphas: Option<u128>,
}

/// The numbers of AIRs of these heights.
///
/// Refuses `CountOverflow` if one of them does not fit `u128`: if the messages do not, twice as many don't.
pub(crate) fn soundness_by_heights<F: Field>(
    airs: &[Lookups<F>],
    heights: &[usize],
    width: usize,
) -> Result<HeightSoundness, BatchError>
    requires lengths { length heights.now ≡ length airs.now }
    requires positive { 1 ≤ width }
    ensures { CountsHeights (most_planned airs.now heights.now) width result }
{
    let Some(most_messages) = most_messages(airs, heights) else {
        return Err(BatchError::CountOverflow);
    };
    let others = most_messages.saturating_sub(1);
    let Some(bad_betas) = others.checked_mul(width as u128) else {
        return Err(BatchError::CountOverflow);
    };
    let Some(most_alphas) = most_messages.checked_add(others) else {
        return Err(BatchError::CountOverflow);
    };
    let accepting_alphas = if most_messages == 0 {
        None
    } else {
        Some(most_alphas)
    };
    Ok(HeightSoundness {
        most_messages,
        bad_betas,
        accepting_alphas,
    })
}

/// The most messages of all AIRs, if they fit.
fn most_messages<F: Field>(airs: &[Lookups<F>], heights: &[usize]) -> Option<u128>
    requires { length heights.now ≡ length airs.now }
    ensures { MatchOption result (2 ^ 128 ≤ most_planned airs.now heights.now)
        (λ most. most ≡ most_planned airs.now heights.now) }
{
    let mut most: u128 = 0;
    for air in 0..airs.len() {
        let of_row = most_on_row(airs[air].as_slice());
        let Some(sum) = with_product(most, heights[air] as u128, of_row) else {
            return None;
        };
        most = sum;
    }
    Some(most)
}

/// `sum + a * b`, if it fits.
fn with_product(sum: u128, a: u128, b: u128) -> Option<u128>
    ensures { MatchOption result (2 ^ 128 ≤ sum + a * b) (λ more. more ≡ sum + a * b) }
{
    let product = a.checked_mul(b)?;
    sum.checked_add(product)
}

/// The most messages of an AIR on a row.
fn most_on_row<F: Field>(lookups: &[Lookup<F>]) -> u128
    ensures { result ≡ most_of_row lookups.now }
{
    let mut most: u128 = 0;
    for index in 0..lookups.len() {
        most += most_of_lookup(&lookups[index]);
    }
    most
}

/// The most messages of a lookup on a row: one with flags, and else each tuple.
fn most_of_lookup<F: Field>(lookup: &Lookup<F>) -> u128
    ensures { result ≡ most_sent lookup.now.flags (length lookup.now.elements.items) }
{
    match &lookup.flags {
        Some(_) => 1,
        None => lookup.elements.len() as u128,
    }
}
