//! The shapes that are measured, and checksums of their auxiliary traces. `bench` makes C functions of
//! this, for the comparisons in `bench/`, and `lookup_generation_tests` tests it.
#![tactic(auto)]

ghost use Rattle.std.specs.Prelude.{◌↔◌, ◌*◌, ◌≤◌, [], IsTrue, None, length};
ghost use Rattle.air_expressions.specs.Layout.{layout_of_traces};
ghost use Rattle.lookup_model.specs.Records.{LookupsFit};

mod shapes;

use crate::shapes::challenges_of;
use air::{AirLayout, Traces};
use field::PrimeCharacteristicRing;
use field_monty::{BabyBear, BabyBear4};
use lookup_generation::generate_permutation;
use lookup_model::{Lookup, LookupError, LookupTerminal, fits};
use matrix::RowMajorMatrix;
pub use shapes::{column, columns, element, lookups_of, width_of};
use std::alloc::{AllocError, Global};

/// The answer where a call is refused.
pub const REFUSED: u32 = u32::MAX;

/// The checksum of a shape's auxiliary trace, as `lookup_generate` of `bench` says it. Fails
/// where generation is refused.
pub fn generate(
    alloc: Global,
    numbers: &[u32],
    shape: u32,
    rounds: u32,
    skip: u32,
) -> Result<u32, LookupError> {
    let Some(main) = trace(alloc, numbers, width_of(shape))? else {
        return Ok(REFUSED);
    };
    let lookups = lookups_of(alloc, shape)?;
    let challenges = challenges_of(alloc, shape)?;
    if lookups.len() > challenges.len() / 2 || !lookups_fit(&main, &lookups) {
        return Ok(REFUSED);
    }
    let mut sum = BabyBear4::ZERO;
    for _ in 0..rounds {
        let (auxiliary, terminal) = generate_alone(alloc, &main, &lookups, &challenges)?;
        if skip != 1 {
            sum = checksum(&auxiliary, terminal);
        }
    }
    Ok(number(sum))
}

/// The matrix of these numbers, or `None` unless they make whole rows of `width`.
///
/// Fails only when out of memory.
pub fn trace(
    alloc: Global,
    numbers: &[u32],
    width: usize,
) -> Result<Option<RowMajorMatrix<BabyBear>>, AllocError> {
    let mut values = Vec::with_capacity(alloc, numbers.len())?;
    for n in numbers {
        values.push(BabyBear::new(*n))?;
    }
    if width == 0 || values.len() % width != 0 {
        return Ok(None);
    }
    Ok(Some(RowMajorMatrix::new(values, width)))
}

/// Whether the lookups fit the trace.
fn lookups_fit(main: &RowMajorMatrix<BabyBear>, lookups: &[Lookup<BabyBear>]) -> bool
    ensures { IsTrue result ↔ LookupsFit (layout_of_traces main.now None []) lookups.now }
{
    fits(lookups, &AirLayout::of_traces(main, None, &[]))
}

/// The auxiliary trace and the terminal, over a main trace alone.
fn generate_alone(
    alloc: Global,
    main: &RowMajorMatrix<BabyBear>,
    lookups: &[Lookup<BabyBear>],
    challenges: &[BabyBear4],
) -> Result<(RowMajorMatrix<BabyBear4>, Option<LookupTerminal<BabyBear4>>), LookupError>
    requires fit { LookupsFit (layout_of_traces main.now None []) lookups.now }
    requires challenges { 2 * length lookups.now ≤ length challenges.now }
{
    let traces = Traces {
        main,
        preprocessed: None,
        public_values: &[],
    };
    generate_permutation(alloc, &traces, lookups, challenges)
}

fn checksum(
    auxiliary: &RowMajorMatrix<BabyBear4>,
    terminal: Option<LookupTerminal<BabyBear4>>,
) -> BabyBear4 {
    let point = element([2, 3, 5, 7]);
    let mut sum = BabyBear4::ZERO;
    for x in auxiliary.values() {
        sum = sum * point + *x;
    }
    match terminal {
        Some(LookupTerminal(x)) => sum * point + x,
        None => sum,
    }
}

/// The sum of the coefficients as a number below the modulus.
pub fn number(x: BabyBear4) -> u32 {
    let [c0, c1, c2, c3] = x.coefficients();
    (c0 + c1 + c2 + c3).as_canonical_u32()
}
