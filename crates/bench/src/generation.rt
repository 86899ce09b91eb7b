//! Generation of the same traces without a plan.
ghost use Rattle.std.specs.Prelude.{◌↔◌, ◌*◌, ◌≤◌, [], IsTrue, None, length};
ghost use Rattle.air_expressions.specs.Layout.{layout_of_traces};
ghost use Rattle.lookup_model.specs.Records.{LookupsFit};

use crate::airs::{Side, Traces, challenges, lookups_of};
use crate::checksums::checksum;
use air::AirLayout;
use bench_shapes::{REFUSED, number};
use field::PrimeCharacteristicRing;
use field_monty::{BabyBear, BabyBear4};
use lookup::{LogUpGadget, Lookup, LookupError, LookupProtocol, LookupTerminal, fits};
use matrix::RowMajorMatrix;
use std::alloc::Global;

/// The checksum of the last auxiliary traces and terminals of both AIRs.
pub(crate) fn generate(
    alloc: Global,
    asked: &[u32],
    provided: &[u32],
    rounds: u32,
    skip: u32,
) -> Result<u32, LookupError> {
    let Some(traces) = Traces::of_numbers(alloc, asked, provided)? else {
        return Ok(REFUSED);
    };
    let asks = lookups_of(alloc, Side::Asks)?;
    let provides = lookups_of(alloc, Side::Provides)?;
    let challenges = challenges(alloc)?;
    if !can_generate(&traces.asks, asks.as_slice(), &challenges)
        || !can_generate(&traces.provides, provides.as_slice(), &challenges)
    {
        return Ok(REFUSED);
    }
    let mut sum = BabyBear4::ZERO;
    for _ in 0..rounds {
        let (aux, terminal) = generate_alone(alloc, &traces.asks, asks.as_slice(), &challenges)?;
        let (other_aux, other_terminal) = generate_alone(
            alloc,
            &traces.provides,
            provides.as_slice(),
            &challenges,
        )?;
        if skip != 1 {
            sum = checksum(BabyBear4::ZERO, &aux, &terminal);
            sum = checksum(sum, &other_aux, &other_terminal);
        }
    }
    Ok(number(sum))
}

/// Whether the lookups fit the trace, and have an alpha and a beta each.
fn can_generate(
    main: &RowMajorMatrix<BabyBear>,
    lookups: &[Lookup<BabyBear>],
    challenges: &[BabyBear4],
) -> bool
    ensures { IsTrue result ↔ (LookupsFit (layout_of_traces main.now None []) lookups.now
        × (2 * length lookups.now ≤ length challenges.now)) }
{
    lookups.len() <= challenges.len() / 2 && fits(lookups, &AirLayout::of_traces(main, None, &[]))
}

/// The auxiliary trace and the terminal of one AIR.
fn generate_alone(
    alloc: Global,
    main: &RowMajorMatrix<BabyBear>,
    lookups: &[Lookup<BabyBear>],
    challenges: &[BabyBear4],
) -> Result<(RowMajorMatrix<BabyBear4>, Option<LookupTerminal<BabyBear4>>), LookupError>
    requires fit { LookupsFit (layout_of_traces main.now None []) lookups.now }
    requires challenges { 2 * length lookups.now ≤ length challenges.now }
{
    LogUpGadget::new().generate_permutation(alloc, main, None, &[], lookups, challenges)
}
