//! The debug check.
ghost use Rattle.std.specs.Prelude.{◌↔◌, [], IsTrue, None};
ghost use Rattle.air_expressions.specs.Layout.{layout_of_traces};
ghost use Rattle.lookup_model.specs.Records.{LookupsFit};

use crate::debug_shapes::{lookups_of, width_of};
use air::AirLayout;
use bench_shapes::trace;
use field_monty::BabyBear;
use lookup_debug::{LookupDebugInstance, LookupFault, check_lookups};
use lookup_model::{Lookup, fits};
use matrix::RowMajorMatrix;
use std::alloc::{AllocError, Global};

/// The answer where everything balances.
const BALANCED: u32 = 0;

/// The answer for an unknown shape, or numbers that do not make whole rows.
const NO_ROWS: u32 = u32::MAX - 1;

/// The answer of the last round; see `debug_check`.
pub(crate) fn check(
    alloc: Global,
    numbers: &[u32],
    shape: u32,
    rounds: u32,
    skip: u32,
) -> Result<u32, AllocError> {
    let Some(main) = trace(alloc, numbers, width_of(shape))? else {
        return Ok(NO_ROWS);
    };
    let lookups = lookups_of(alloc, shape)?;
    if !lookups_fit(&main, &lookups) {
        return Ok(NO_ROWS);
    }
    let mut answer = BALANCED;
    if skip != 1 {
        for _ in 0..rounds {
            answer = answer_of(alloc, &main, &lookups)?;
        }
    }
    Ok(answer)
}

/// Whether the lookups fit the trace.
fn lookups_fit(main: &RowMajorMatrix<BabyBear>, lookups: &[Lookup<BabyBear>]) -> bool
    ensures { IsTrue result ↔ LookupsFit (layout_of_traces main.now None []) lookups.now }
{
    fits(lookups, &AirLayout::of_traces(main, None, &[]))
}

/// 0, or the checksum of the mismatch.
fn answer_of<'a>(
    alloc: Global,
    main: &'a RowMajorMatrix<BabyBear>,
    lookups: &'a [Lookup<BabyBear>],
) -> Result<u32, AllocError>
    requires { LookupsFit (layout_of_traces main.now None []) lookups.now }
{
    let instance = LookupDebugInstance {
        main_trace: main,
        preprocessed_trace: None,
        public_values: &[],
        lookups,
        permutation_challenges: &[],
    };
    match check_lookups(alloc, &[instance]) {
        Ok(()) => Ok(BALANCED),
        Err(LookupFault::Memory) => Err(AllocError),
        Err(fault) => Ok(checksum(fault.text(alloc)?.as_str())),
    }
}

fn checksum(text: &str) -> u32 {
    let mut sum: u32 = 1;
    for byte in text.as_bytes() {
        sum = sum.wrapping_mul(31).wrapping_add(u32::from(*byte));
    }
    sum
}
