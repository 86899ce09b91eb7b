//! Plans of one AIR with the lookups of a shape.

use crate::airs::{alone, alpha, beta};
use crate::plans::{ACCEPTED, verdict_of};
use batch::{BatchError, BatchPlan};
use bench_shapes::{REFUSED, lookups_of, trace, width_of};
use lookup::Lookups;
use std::alloc::Global;

/// The last verdict on the witness of a shape.
pub(crate) fn verify_shape(
    alloc: Global,
    numbers: &[u32],
    shape: u32,
    rounds: u32,
) -> Result<u32, BatchError> {
    let Some(main) = trace(alloc, numbers, width_of(shape))? else {
        return Ok(REFUSED);
    };
    let lookups = Lookups::from_records(alloc, lookups_of(alloc, shape)?)?;
    let plan = BatchPlan::new(
        alloc,
        Vec::from_array(alloc, [lookups])?,
        Vec::from_array(alloc, [main.height()])?,
    )?;
    let traces = [alone(&main)];
    let witness = plan.prove(alloc, traces.as_slice(), alpha(), beta())?;
    let mut verdict = ACCEPTED;
    for _ in 0..rounds {
        verdict = verdict_of(plan.verify(alloc, traces.as_slice(), alpha(), beta(), &witness));
    }
    Ok(verdict)
}
