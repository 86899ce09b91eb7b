//! The calls of a prover and a verifier on a plan.

use crate::airs::{Planned, alpha, beta};
use crate::checksums::checksum;
use batch::BatchError;
use bench_shapes::{REFUSED, number};
use field::PrimeCharacteristicRing;
use field_monty::BabyBear4;
use lookup::LookupError;
use std::alloc::Global;

/// The answer where a witness is accepted.
pub(crate) const ACCEPTED: u32 = 0;

/// The answer where only the terminals of a witness do not sum to zero.
const UNBALANCED: u32 = 1;

/// The checksum of the last witness; see `batch_prove`.
pub(crate) fn prove(
    alloc: Global,
    asked: &[u32],
    provided: &[u32],
    rounds: u32,
    skip: u32,
) -> Result<u32, BatchError> {
    let Some(Planned { traces, plan }) = Planned::of_numbers(alloc, asked, provided)? else {
        return Ok(REFUSED);
    };
    let mut sum = BabyBear4::ZERO;
    for _ in 0..rounds {
        let witness = plan.prove(alloc, traces.of_airs().as_slice(), alpha(), beta())?;
        if skip != 1 {
            sum = BabyBear4::ZERO;
            for (aux, terminal) in witness.aux.iter().zip(&witness.terminals) {
                sum = checksum(sum, aux, terminal);
            }
        }
    }
    Ok(number(sum))
}

/// The last verdict; see `batch_verify`.
pub(crate) fn verify(
    alloc: Global,
    asked: &[u32],
    provided: &[u32],
    rounds: u32,
) -> Result<u32, BatchError> {
    let Some(Planned { traces, plan }) = Planned::of_numbers(alloc, asked, provided)? else {
        return Ok(REFUSED);
    };
    let witness = plan.prove(alloc, traces.of_airs().as_slice(), alpha(), beta())?;
    let mut verdict = ACCEPTED;
    for _ in 0..rounds {
        let verified = plan.verify(
            alloc,
            traces.of_airs().as_slice(),
            alpha(),
            beta(),
            &witness,
        );
        verdict = verdict_of(verified);
    }
    Ok(verdict)
}

/// What a verdict is as a number.
pub(crate) fn verdict_of(verified: Result<(), BatchError>) -> u32 {
    match verified {
        Ok(()) => ACCEPTED,
        Err(BatchError::Lookup(LookupError::TerminalSumNonZero)) => UNBALANCED,
        Err(_) => REFUSED,
    }
}
