//! Guards on the lookups of all AIRs.
ghost use Rattle.std.specs.Prelude.{◌≡◌, ◌<◌, ◌-◌, ◌^◌, ℕ, IfOk, List, MatchResult, length, map, min};
ghost use Rattle.lookup_model.specs.declared.types.Lookup.{Lookup};
ghost use Rattle.lookup.specs.Guards.{IsBitLength, IsHeightRefusal, weighted_height_sum};
ghost use Rattle.lookup.specs.Lookups.{lookups_of};
ghost use Rattle.lookup.specs.Weights.{HeightLaws};

use crate::lookups::Lookups;
use field::Field;
use lookup_model::LookupError;

/// Whether the sum over all AIRs of total weight times height is below the characteristic.
///
/// Refuses `MultiplicityHeightBoundExceeded` otherwise, with this sum, or `u128::MAX` if it is
/// greater, and the number of binary digits of the characteristic. Allocates nothing.
///
/// The height law: let the bound hold for the heights of the traces, let each query's multiplicity be
/// a signed whole number, let the absolute values of these numbers add up, for each lookup on each
/// row, to at most its weight, and let all messages balance. Then a key whose query numbers do not
/// cancel is the key of a provided entry.
pub fn check_multiplicity_height_bound<F: Field>(
    airs: &[Lookups<F>],
    heights: &[usize],
) -> Result<(), LookupError>
    requires { length heights.now ≡ length airs.now }
    ensures bound { MatchResult result
        (λ _. weighted_height_sum (map lookups_of airs.now) heights.now < F.CHARACTERISTIC)
        (λ e. IsHeightRefusal F.CHARACTERISTIC
        (weighted_height_sum (map lookups_of airs.now) heights.now) e) }
    ensures law { IfOk result (λ _. HeightLaws F.ring F.eq (map lookups_of airs.now) heights.now) }
{
    let sum = saturated_height_sum(airs, heights);
    if sum < F::CHARACTERISTIC {
        return Ok(());
    }
    Err(LookupError::MultiplicityHeightBoundExceeded {
        weighted_height_sum: sum,
        field_bits: bit_length(F::CHARACTERISTIC),
    })
}

/// The height law: a theorem, as the contract of a function that does nothing; see
/// [`check_multiplicity_height_bound`], which tests its bound.
pub fn height_law<F: Field>()
    ensures { (airs : List (List (Lookup F))) (heights : List ℕ)
        → weighted_height_sum airs heights < F.CHARACTERISTIC → HeightLaws F.ring F.eq airs heights }
{}

/// The sum of total weight times height, or `u128::MAX` if it is greater.
fn saturated_height_sum<F: Field>(airs: &[Lookups<F>], heights: &[usize]) -> u128
    requires { length heights.now ≡ length airs.now }
    ensures { result ≡ min (weighted_height_sum (map lookups_of airs.now) heights.now)
        (2 ^ 128 - 1) }
{
    let mut sum: u128 = 0;
    for air in 0..airs.len() {
        let weight = airs[air].total_count_weight();
        sum = sum.saturating_add(weight.saturating_mul(heights[air] as u128));
    }
    sum
}

/// The number of binary digits, 0 for 0.
fn bit_length(number: u128) -> usize
    ensures { IsBitLength number result }
{
    (128 - number.leading_zeros()) as usize
}
