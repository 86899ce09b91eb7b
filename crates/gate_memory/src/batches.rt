//! Calls over batches.
ghost use Rattle.std.specs.Prelude.{◌↔◌, ◌<◌, All, IsTrue};
ghost use Rattle.checker_witness.specs.Answers.{AreReady};

use air::AirLayout;
use checker::{
    BatchInstance, Witness, check_witness, generate_batch, ids_are_kept, ids_are_lawful,
    instances_fit, some_witness, soundness_count,
};
use field::F7;
use gate_memory_builders::inputs::{
    BALANCED, LOOKUPS, ON_A_BUS, UNBALANCED, lookups_of, table, trace,
};
use gate_memory_builders::show::{Out, input, show};
use lookup::debug_util::{LookupDebugInstance, LookupFault, check_lookups};
use lookup::{Challenges, LogUpGadget, Lookup, LookupProtocol, fits};
use matrix::RowMajorMatrix;
use std::alloc::Global;

/// An AIR of a batch without preprocessed trace or public values.
fn instance<'a>(
    lookups: &'a [Lookup<F7>],
    main: &'a RowMajorMatrix<F7>,
    ids: &'a [usize],
) -> BatchInstance<'a, F7> {
    BatchInstance {
        lookups,
        main,
        preprocessed: None,
        public_values: &[],
        ids,
    }
}

fn are_below(ids: &[usize], count: usize) -> bool
    ensures { IsTrue result ↔ All (λ id. id < count) ids.now }
{
    ids.iter().all(|id| *id < count)
}

fn have_prefixes(instances: &[BatchInstance<'_, F7>], count: usize) -> bool
    ensures { IsTrue result ↔ All (λ b. All (λ id. id < count) b.ids.now) instances.now }
{
    instances
        .iter()
        .all(|instance| are_below(instance.ids, count))
}

/// Whether a batch fits, and the table has a prefix for each of its ids.
fn are_ready(instances: &[BatchInstance<'_, F7>], table: &Challenges<F7>) -> bool
    ensures { IsTrue result → AreReady table.now instances.now }
{
    instances_fit(instances) && have_prefixes(instances, table.bus_prefix.len())
}

/// Calls over a batch without a table.
fn on_ids(alloc: Global, out: &mut Out, instances: &[BatchInstance<'_, F7>]) {
    show(out, "instances_fit", instances_fit(instances));
    if !instances_fit(instances) {
        return;
    }
    let lawful = ids_are_lawful(alloc, instances, 1, 2);
    show(out, "ids_are_lawful", lawful);
    match ids_are_lawful(alloc, instances, 1, 2) {
        Ok(true) => {
            let counts = soundness_count::<F7, F7>(alloc, instances, 1);
            show(out, "soundness_count", counts);
        }
        _ => out.close(),
    }
    for before in instances {
        let after = instance(before.lookups, before.main, before.ids);
        show(out, "ids_are_kept", ids_are_kept(alloc, before, &after));
    }
}

/// Calls over a batch with a table.
fn on_table(
    alloc: Global,
    out: &mut Out,
    instances: &[BatchInstance<'_, F7>],
    table: &Challenges<F7>,
) {
    if are_ready(instances, table) {
        let witness = generate_batch(alloc, instances, table);
        show(out, "generate_batch", witness);
        let accepted = some_witness(alloc, instances, table);
        show(out, "some_witness", accepted);
    }
}

/// The check of a witness.
fn check(
    alloc: Global,
    out: &mut Out,
    instances: &[BatchInstance<'_, F7>],
    table: &Challenges<F7>,
    witness: &Witness<F7>,
)
    requires { AreReady table.now instances.now }
{
    let (aux, terminals) = (witness.aux.as_slice(), witness.terminals.as_slice());
    if aux.len() == instances.len() && terminals.len() == instances.len() {
        let answer = check_witness(alloc, instances, table, aux, terminals);
        show(out, "check_witness", answer);
    }
    let sum = LogUpGadget::new().verify_terminal_sum(terminals);
    show(out, "verify_terminal_sum", sum);
    show(out, "input", witness);
}

/// The check of the witness that generation makes of a batch, twice.
fn on_witness(
    alloc: Global,
    out: &mut Out,
    instances: &[BatchInstance<'_, F7>],
    table: &Challenges<F7>,
) {
    if are_ready(instances, table) {
        if let Some(witness) = input(out, generate_batch(alloc, instances, table)) {
            for _ in 0..2 {
                check(alloc, out, instances, table, &witness);
            }
        }
    }
}

/// Calls over a batch at the alpha 1, where a denominator vanishes.
fn on_vanishing(alloc: Global, out: &mut Out, instances: &[BatchInstance<'_, F7>]) {
    if let Some(table) = table(alloc, out, 1) {
        on_table(alloc, out, instances, &table);
        on_table(alloc, out, instances, &table);
    }
}

/// All calls over a batch at the alpha 5.
fn on_batch(alloc: Global, out: &mut Out, instances: &[BatchInstance<'_, F7>]) {
    on_ids(alloc, out, instances);
    on_ids(alloc, out, instances);
    if let Some(table) = table(alloc, out, 5) {
        on_table(alloc, out, instances, &table);
        on_table(alloc, out, instances, &table);
        on_witness(alloc, out, instances, &table);
    }
}

/// Calls over a batch of two AIRs whose messages balance, and over one whose messages do not.
fn on_batches<'a>(
    alloc: Global,
    out: &mut Out,
    lookups: &'a [Lookup<F7>],
    traces: &'a (RowMajorMatrix<F7>, RowMajorMatrix<F7>),
) {
    let (even, odd) = (&traces.0, &traces.1);
    let ids = [0, 1, 1, 1];
    let balanced = [instance(lookups, even, &ids), instance(&[], odd, &[])];
    on_batch(alloc, out, balanced.as_slice());
    let unbalanced = [instance(lookups, odd, &ids)];
    on_batch(alloc, out, unbalanced.as_slice());
    on_vanishing(alloc, out, unbalanced.as_slice());
}

/// The traces that balance and that do not.
fn two_traces(alloc: Global, out: &mut Out) -> Option<(RowMajorMatrix<F7>, RowMajorMatrix<F7>)> {
    let even = trace(alloc, out, &BALANCED, 3)?;
    let odd = trace(alloc, out, &UNBALANCED, 3)?;
    Some((even, odd))
}

/// The calls of batches, and of the debug check.
pub fn batch(alloc: Global, out: &mut Out) {
    if let Some(traces) = two_traces(alloc, out) {
        if let Some(lookups) = lookups_of(alloc, out, LOOKUPS) {
            on_batches(alloc, out, lookups.as_slice(), &traces);
            debug(alloc, out, lookups.as_slice(), &traces);
            show(out, "input", &lookups);
            show(out, "input", &traces);
        }
    }
}

/// All calls over the batch of one AIR with one lookup.
pub fn check_alone(
    alloc: Global,
    out: &mut Out,
    lookups: &[Lookup<F7>],
    main: &RowMajorMatrix<F7>,
) {
    let instances = [instance(lookups, main, &[0])];
    on_ids(alloc, out, instances.as_slice());
    if let Some(table) = table(alloc, out, 5) {
        on_table(alloc, out, instances.as_slice(), &table);
        on_witness(alloc, out, instances.as_slice(), &table);
    }
}

/// The fault that the debug check finds in an AIR beside one without lookups.
fn fault_of<'a>(
    alloc: Global,
    lookups: &'a [Lookup<F7>],
    main: &'a RowMajorMatrix<F7>,
    other: &'a RowMajorMatrix<F7>,
) -> Option<LookupFault<F7>> {
    let layout = AirLayout::of_traces(main, None, &[]);
    if !fits(lookups, &layout) {
        return None;
    }
    let instance = LookupDebugInstance {
        main_trace: main,
        preprocessed_trace: None,
        public_values: &[],
        lookups,
        permutation_challenges: &[],
    };
    let instance_of_none = LookupDebugInstance {
        main_trace: other,
        preprocessed_trace: None,
        public_values: &[],
        lookups: &[],
        permutation_challenges: &[],
    };
    check_lookups(alloc, &[instance, instance_of_none]).err()
}

/// The text of the mismatch in one AIR.
pub fn show_mismatch(
    alloc: Global,
    out: &mut Out,
    lookups: &[Lookup<F7>],
    main: &RowMajorMatrix<F7>,
) {
    if let Some(fault) = fault_of(alloc, lookups, main, main) {
        match &fault {
            LookupFault::Mismatch { .. } => show(out, "LookupFault::text", fault.text(alloc)),
            LookupFault::Memory => out.close(),
        }
    }
}

/// The debug check over AIRs: with a local mismatch, with one on a bus, and without any.
fn on_debug(
    alloc: Global,
    out: &mut Out,
    lookups: &[Lookup<F7>],
    on_a_bus: &[Lookup<F7>],
    traces: &(RowMajorMatrix<F7>, RowMajorMatrix<F7>),
) {
    let (even, odd) = (&traces.0, &traces.1);
    show(out, "check_lookups", fault_of(alloc, lookups, odd, even));
    show(out, "check_lookups", fault_of(alloc, on_a_bus, odd, even));
    show(out, "check_lookups", fault_of(alloc, on_a_bus, even, even));
    show_mismatch(alloc, out, on_a_bus, odd);
}

/// The calls of the debug check, twice.
fn debug(
    alloc: Global,
    out: &mut Out,
    lookups: &[Lookup<F7>],
    traces: &(RowMajorMatrix<F7>, RowMajorMatrix<F7>),
) {
    if let Some(on_a_bus) = lookups_of(alloc, out, ON_A_BUS) {
        on_debug(alloc, out, lookups, on_a_bus.as_slice(), traces);
        on_debug(alloc, out, lookups, on_a_bus.as_slice(), traces);
        show(out, "input", &on_a_bus);
    }
}
