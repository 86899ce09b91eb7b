//! The counts of batches of one AIR with one lookup, and the refusals of its flags.
use super::{generate, group, have_ids, holds, instance, list, lookup, range, table, trace};
use checker::{
    BatchFault, BatchInstance, SoundnessCount, accepted_is_accepting, counted_soundness,
    ids_are_kept, ids_are_lawful, instances_fit, joint_soundness, linear_soundness,
    packing_keeps_batch, soundness_count, soundness_of_counts,
};
use field::{ExtensionField, F2, F7, Field, PrimeCharacteristicRing};
use field_monty::{BabyBear, BabyBear4};
use lookup::{LogUpGadget, Lookup, LookupError, Lookups};
use std::alloc::Global;
use std::process::Abort;

/// The counts of a batch, which has to fit, with lawful ids below 1.
pub(super) fn counts<F: Field, EF: ExtensionField<F>>(
    rt: &impl Abort,
    alloc: Global,
    instances: &[BatchInstance<'_, F>],
    width: usize,
) -> Result<SoundnessCount, BatchFault> {
    assert!(rt; instances_fit(instances));
    assert!(rt; have_ids(instances));
    assert!(rt; ids_are_lawful(alloc, instances, width, 1).expect(rt, "memory"));
    soundness_count::<F, EF>(alloc, instances, width)
}

/// Those of the range machine over these rows.
fn of_rows(rt: &impl Abort, alloc: Global, numbers: &[u32], width: usize) -> SoundnessCount {
    let main = trace(rt, alloc, numbers, 3);
    let lookups = [range(rt, alloc)];
    let instances = [instance(lookups.as_slice(), &main, &[0])];
    counts::<F7, F7>(rt, alloc, instances.as_slice(), width).expect(rt, "no fault")
}

/// The same over BabyBear, with challenges of its quartic extension, for the width 1.
fn of_large_rows(rt: &impl Abort, alloc: Global, numbers: &[u32]) -> SoundnessCount {
    let main = trace(rt, alloc, numbers, 3);
    let lookups = [range(rt, alloc)];
    let instances = [instance(lookups.as_slice(), &main, &[0])];
    counts::<BabyBear, BabyBear4>(rt, alloc, instances.as_slice(), 1).expect(rt, "no fault")
}

/// These four counts.
pub(super) fn count(
    messages: u128,
    unbalanced: u128,
    bad_betas: u128,
    accepting_alphas: Option<u128>,
) -> SoundnessCount {
    SoundnessCount {
        messages,
        unbalanced,
        bad_betas,
        accepting_alphas,
    }
}

/// A provided entry of multiplicity zero counts as a message. Seven reads of one key are none modulo 7,
/// but over BabyBear.
#[test]
fn counts_of_the_range_machine(rt: HostRuntime) {
    let alloc = rt.alloc();
    let seven: [u32; 21] = [
        3, 4, 0, 3, 4, 0, 3, 4, 0, 3, 4, 0, 3, 4, 0, 3, 4, 0, 3, 4, 0,
    ];
    let cases: [(&str, &[u32], usize, SoundnessCount); 5] = [
        ("balanced", &[3, 4, 1, 4, 3, 1], 1, count(2, 0, 0, None)),
        ("one key", &[4, 3, 0], 1, count(2, 1, 0, Some(2))),
        ("two keys", &[3, 1, 0, 4, 1, 0], 1, count(3, 2, 1, Some(4))),
        (
            "the greatest width",
            &[3, 1, 0, 4, 1, 0],
            18446744073709551615,
            count(3, 2, 18446744073709551615, Some(4)),
        ),
        ("seven reads", seven.as_slice(), 1, count(2, 0, 0, None)),
    ];
    for (what, numbers, width, expected) in cases {
        let counted = of_rows(&rt, alloc, numbers, width);
        holds(&rt, what, counted == expected);
    }
    let counted = of_large_rows(&rt, alloc, seven.as_slice());
    holds(&rt, "over BabyBear", counted == count(2, 1, 0, Some(2)));
}

#[test]
fn laws_of_the_headline_are_there(rt: HostRuntime) {
    let alloc = rt.alloc();
    joint_soundness::<F7, F7>();
    counted_soundness::<F7, F7>();
    linear_soundness::<F7, F7>();
    accepted_is_accepting::<F7, F7>();
    let none = counts::<F7, F7>(&rt, alloc, &[], 1);
    holds(&rt, "no AIR", none.ok() == Some(count(0, 0, 0, None)));
}

/// Whether the linear bound of k unbalanced messages of this width is this number.
fn is_linear(rt: &impl Abort, unbalanced: usize, width: usize, expected: u128) -> bool {
    let counts = soundness_of_counts(unbalanced, unbalanced, width).expect(rt, "it fits");
    counts.linear_bad_betas() == expected
}

/// `W * (k - 1)`. The last is that of 2^18 rows of eight lookups of width 4: 4 * (2^21 - 1).
#[test]
fn linear_bounds(rt: HostRuntime) {
    let cases: [(usize, usize, u128); 7] = [
        (0, 4, 0),
        (1, 4, 0),
        (2, 4, 4),
        (3, 5, 10),
        (4, 3, 9),
        (2, 18446744073709551615, 18446744073709551615),
        (2097152, 4, 8388604),
    ];
    for (unbalanced, width, expected) in cases {
        let same = is_linear(&rt, unbalanced, width, expected);
        holds(&rt, "W times k less one", same);
    }
}

fn is_of_air_zero(fault: Option<BatchFault>, error: LookupError) -> bool {
    match fault {
        Some(fault) => fault.air == Some(0) && fault.error == error,
        None => false,
    }
}

/// Two lookups on one bus: of cell 0 and of cell 1, each with count 1.
fn two_reads(rt: &impl Abort, alloc: Global) -> Vec<Lookup<F7>> {
    let first = lookup(rt, alloc, Some("a"), [(0, None)]);
    let mut second = lookup(rt, alloc, Some("a"), [(1, None)]);
    second.column = 1;
    list(rt, alloc, [first, second])
}

/// The same two, packed into one column.
fn packed_reads(rt: &impl Abort, alloc: Global) -> Lookups<F7> {
    Lookups::from_records(alloc, two_reads(rt, alloc))
        .expect(rt, "records")
        .pack_same_bus(alloc, &LogUpGadget::new(), 3)
        .expect(rt, "packed")
}

/// What the two reads look up.
const READS: [u32; 4] = [1, 2, 3, 1];

/// Entries, each with the count by which it is provided.
const ENTRIES: [u32; 4] = [1, 2, 5, 1];

/// The counts of the reads apart, beside their provider.
fn counts_apart(rt: &impl Abort, alloc: Global) -> Option<SoundnessCount> {
    let reads = trace(rt, alloc, READS.as_slice(), 2);
    let entries = trace(rt, alloc, ENTRIES.as_slice(), 2);
    let apart = two_reads(rt, alloc);
    let provided = [lookup(rt, alloc, Some("a"), [(0, Some(1))])];
    let instances = [
        instance(apart.as_slice(), &reads, &[0, 0]),
        instance(provided.as_slice(), &entries, &[0]),
    ];
    counts::<F7, F7>(rt, alloc, instances.as_slice(), 1).ok()
}

/// The counts of the reads packed, beside their provider.
fn counts_packed(rt: &impl Abort, alloc: Global) -> Option<SoundnessCount> {
    let reads = trace(rt, alloc, READS.as_slice(), 2);
    let entries = trace(rt, alloc, ENTRIES.as_slice(), 2);
    let packed = packed_reads(rt, alloc);
    let provided = [lookup(rt, alloc, Some("a"), [(0, Some(1))])];
    let instances = [
        instance(packed.as_slice(), &reads, &[0]),
        instance(provided.as_slice(), &entries, &[0]),
    ];
    counts::<F7, F7>(rt, alloc, instances.as_slice(), 1).ok()
}

/// Whether the reads keep their ids if the packed lookup has this one.
fn are_kept(rt: &impl Abort, alloc: Global, id: usize) -> Option<bool> {
    let before = trace(rt, alloc, READS.as_slice(), 2);
    let after = trace(rt, alloc, READS.as_slice(), 2);
    let apart = two_reads(rt, alloc);
    let packed = packed_reads(rt, alloc);
    let ids = [id];
    let first = instance(apart.as_slice(), &before, &[0, 0]);
    let second = instance(packed.as_slice(), &after, ids.as_slice());
    ids_are_kept(alloc, &first, &second).ok()
}

#[test]
fn packing_keeps_the_counts_of_a_batch(rt: HostRuntime) {
    let alloc = rt.alloc();
    packing_keeps_batch::<F7, F7>();
    let kept = are_kept(&rt, alloc, 0);
    holds(&rt, "the ids of before", kept == Some(true));
    let kept = are_kept(&rt, alloc, 1);
    holds(&rt, "another id", kept == Some(false));
    let expected = count(4, 3, 3, Some(6));
    let before = counts_apart(&rt, alloc);
    holds(&rt, "before", before == Some(expected));
    let after = counts_packed(&rt, alloc);
    holds(&rt, "after", after == Some(expected));
    let again = soundness_of_counts(4, 3, 1);
    holds(&rt, "counted", again.ok() == Some(expected));
    let large = soundness_of_counts(4, usize::MAX, usize::MAX).err();
    let refused = large.map(|fault| fault.error);
    holds(
        &rt,
        "too large",
        refused == Some(LookupError::CountOverflow),
    );
}

/// Three set flags are one modulo 2, and refused all the same.
#[test]
fn set_flags_are_refused(rt: HostRuntime) {
    let alloc = rt.alloc();
    let main = trace::<F2>(&rt, alloc, &[1, 0], 2);
    let lookups = [group(&rt, alloc, [(0, 1), (0, 1), (0, 1)], F2::ONE)];
    let instances = [instance(lookups.as_slice(), &main, &[0])];
    let refused = LookupError::FlagsNotExclusive { row: 0, lookup: 0 };
    let counted = counts::<F2, F2>(&rt, alloc, instances.as_slice(), 1);
    holds(&rt, "three of F2", is_of_air_zero(counted.err(), refused));
    let main = trace::<F7>(&rt, alloc, &[1, 3, 1, 5], 4);
    let lookups = [group(&rt, alloc, [(0, 1), (2, 3)], F7::ONE)];
    let instances = [instance(lookups.as_slice(), &main, &[0])];
    let challenges = table(&rt, alloc, 5, 2, 1);
    let refused = LookupError::FlagsNotExclusive { row: 0, lookup: 0 };
    let made = generate(&rt, alloc, instances.as_slice(), &challenges);
    holds(&rt, "by generation", is_of_air_zero(made.err(), refused));
}

#[test]
fn a_selected_denominator_vanishes_under_a_count_of_zero(rt: HostRuntime) {
    let alloc = rt.alloc();
    let main = trace(&rt, alloc, &[1, 3], 2);
    let lookups = [group(&rt, alloc, [(0, 1)], F7::ZERO)];
    let instances = [instance(lookups.as_slice(), &main, &[0])];
    let challenges = table(&rt, alloc, 1, 2, 1);
    let refused = LookupError::VanishingDenominator { row: 0, lookup: 0 };
    let made = generate(&rt, alloc, instances.as_slice(), &challenges);
    holds(&rt, "by generation", is_of_air_zero(made.err(), refused));
    let counted = counts::<F7, F7>(&rt, alloc, instances.as_slice(), 1);
    let one = counted.ok() == Some(count(1, 0, 0, None));
    holds(&rt, "one message of multiplicity zero", one);
}
