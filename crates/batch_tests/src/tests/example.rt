//! The example of the README: two AIRs on one bus, from their evaluation to an accepted witness.
ghost use Rattle.std.specs.Prelude.{OnOk};
ghost use Rattle.air_expressions.specs.StaysWithin.{StaysWithin};

use super::{alone, has_result, holds, trace};
use air::{Air, AirError, BaseAir, current_cell, current_cells};
use batch::{BatchPlan, Witness};
use field::{F7, PrimeCharacteristicRing};
use lookup::{Count, InteractionBuilder, LookupBus, Lookups};
use matrix::RowMajorMatrix;
use std::alloc::Global;
use std::test::Fail;

/// Column `key`: a row queries its key.
struct KeysAir;

impl<F> BaseAir<F> for KeysAir {
    ghost width = { λ _. 1 };

    ghost preprocessed_width = { λ _. 0 };

    ghost num_public_values = { λ _. 0 };

    fn width(&self) -> usize {
        1
    }

    fn preprocessed_width(&self) -> usize {
        0
    }

    fn num_public_values(&self) -> usize {
        0
    }
}

impl<AB: InteractionBuilder> Air<AB> for KeysAir {
    ghost evaluates = { λ _ before answer after.
        OnOk answer (StaysWithin AB.AirBuilder before after) };

    fn eval(&self, alloc: Global, builder: &mut AB) -> Result<(), AirError> {
        let key = current_cells(alloc, builder, 1, &[0])?;
        LookupBus::new("keys").lookup_key(alloc, builder, key, Count::from(1))
    }

    ghost keeps_layout = { λ air before after h. h.0 };
}

/// Columns `entry uses`: a row provides its entry, used that often.
struct EntriesAir;

impl<F> BaseAir<F> for EntriesAir {
    ghost width = { λ _. 2 };

    ghost preprocessed_width = { λ _. 0 };

    ghost num_public_values = { λ _. 0 };

    fn width(&self) -> usize {
        2
    }

    fn preprocessed_width(&self) -> usize {
        0
    }

    fn num_public_values(&self) -> usize {
        0
    }
}

impl<AB: InteractionBuilder> Air<AB> for EntriesAir {
    ghost evaluates = { λ _ before answer after.
        OnOk answer (StaysWithin AB.AirBuilder before after) };

    fn eval(&self, alloc: Global, builder: &mut AB) -> Result<(), AirError> {
        let entry = current_cells(alloc, builder, 2, &[0])?;
        let uses = current_cell(alloc, builder, 2, 1)?;
        LookupBus::new("keys").table_entry(alloc, builder, entry, uses)
    }

    ghost keeps_layout = { λ air before after h. h.0 };
}

/// The plan of both AIRs for traces of these heights.
fn planned(
    alloc: Global,
    keys: &RowMajorMatrix<F7>,
    entries: &RowMajorMatrix<F7>,
) -> Result<BatchPlan<F7>, Fail> {
    let asks = Lookups::from_air::<F7, KeysAir>(alloc, &KeysAir)?;
    let provides = Lookups::from_air::<F7, EntriesAir>(alloc, &EntriesAir)?;
    let airs = Vec::from_array(alloc, [asks, provides])?;
    let heights = Vec::from_array(alloc, [keys.height(), entries.height()])?;
    let plan = BatchPlan::new(alloc, airs, heights)?;
    Ok(plan)
}

/// The witness of keys and entries, which has to be accepted.
fn accepted(
    alloc: Global,
    plan: &BatchPlan<F7>,
    keys: &RowMajorMatrix<F7>,
    entries: &RowMajorMatrix<F7>,
) -> Result<Witness<F7>, Fail> {
    let traces = [alone(keys), alone(entries)];
    let (alpha, beta) = (F7::new(5), F7::new(2));
    let witness = plan.prove(alloc, traces.as_slice(), alpha, beta)?;
    plan.verify(alloc, traces.as_slice(), alpha, beta, &witness)?;
    Ok(witness)
}

#[test]
fn keys_are_found_in_the_entries(rt: HostRuntime) -> Result<(), Fail> {
    let alloc = rt.alloc();
    let keys = trace(&rt, alloc, &[3, 3], 1);
    let entries = trace(&rt, alloc, &[3, 2, 4, 0], 2);
    let plan = planned(alloc, &keys, &entries)?;
    let witness = accepted(alloc, &plan, &keys, &entries)?;
    let (first, second) = ([0, 2, 2, 2].map(F7::new), [0, 3, 3, 0].map(F7::new));
    holds(
        &rt,
        "the keys",
        has_result(&witness, 0, first.as_slice(), F7::from_u32(4)),
    );
    holds(
        &rt,
        "the entries",
        has_result(&witness, 1, second.as_slice(), F7::from_u32(3)),
    );
    Ok(())
}
