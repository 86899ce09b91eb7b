//! The call that says what the constraints of an AIR are shown to enforce of its lookups.
ghost use Rattle.std.specs.Prelude.{◌≡◌, ◌≢◌, ◌++◌, All, IfOk, MatchResult, length, map};
ghost use Rattle.std.specs.List.{AllZip, flat_map, zip};
ghost use Rattle.std.specs.Result.{OnErr};
ghost use Rattle.c_tables.specs.Tables.{IsTableRange, table_items};
ghost use Rattle.c_calls.specs.Enforced.{AnswersEnforced, IsAnswerFor, IsAnswerOf, IsEnforcedRefusal, bound_list, bound_numbers, enforced_numbers, is_query, missing_numbers, rows_number};
ghost use Rattle.c_calls.specs.internal.Enforced.{ResultOfEnforced, ShowsInRoom, ShowsTables, IsShowRefusal};

use crate::batch_tables::set_of;
use crate::codes::Part;
use crate::constraints::constraints_of;
use crate::fault::Fault;
use crate::refusal::{Refusal, accept, refuse};
use air_constraints::RowKind;
use c_tables::{Record, Span, Tables};
use field::{Field, PrimeCharacteristicRing};
use field_monty::{BabyBear, BabyBearParameters, MontyField31, QuarticParameters};
use lookup::Lookup;
use lookup_enforced::{Enforcement, Missing, enforcements, keeps_weight};
use std::alloc::{AllocError, Global};

/// What constraints are shown to enforce of a lookup. What is not shown may still be so. A field that a case does not
/// have is 0.
#[repr(C)]
#[derive(Clone, Copy, Drop)]
pub struct Enforced {
    /// 1 if its flags are shown to be lawful, as those of a lookup without flags are, and 0 if not.
    pub flags: u32,
    /// 1 if its queries are shown to stay within its weight, and 0 if not.
    pub weight: u32,
    /// What is missing first of the flags: 0 nothing, 1 that a flag is 0 or 1, 2 that at most one is 1.
    pub missing: u32,
    /// On which rows: 0 on those between the first and the last, 1 on the first, 2 on the last, 3 on the only one.
    pub rows: u32,
    /// Which flag.
    pub flag: usize,
}

/// A bound of a multiplicity, if one is shown.
#[repr(C)]
#[derive(Clone, Copy, Drop)]
pub struct Bound {
    /// 1 if one is shown, and 0 if not.
    pub present: u32,
    /// The bound, 0 if none is shown.
    pub bound: u64,
}

/// What is shown of the lookups of an AIR, as numbers.
#[derive(Drop)]
struct Shown {
    /// For each lookup what is shown of it.
    lookups: Vec<Enforced>,
    /// For each multiplicity its bound, lookup by lookup.
    bounds: Vec<Bound>,
}

/// The number of a kind of rows: 1 of the first one, 2 of the last one.
fn rows_number(kind: RowKind) -> u32
    ensures { result ≡ rows_number kind }
{
    u32::from(kind.is_first) + 2 * u32::from(kind.is_last)
}

/// The numbers of a bound.
fn bound_numbers(bound: Option<u64>) -> Bound
    ensures { result ≡ bound_numbers bound }
{
    match bound {
        Some(bound) => Bound { present: 1, bound },
        None => Bound {
            present: 0,
            bound: 0,
        },
    }
}

/// Numbers with those of what is missing.
fn missing_numbers(missing: Option<Missing>, numbers: Enforced) -> Enforced
    ensures { result ≡ missing_numbers missing numbers }
{
    match missing {
        None => numbers,
        Some(Missing::Flag { flag, kind }) => Enforced {
            missing: 1,
            rows: rows_number(kind),
            flag,
            ..numbers
        },
        Some(Missing::Exclusive { kind }) => Enforced {
            missing: 2,
            rows: rows_number(kind),
            ..numbers
        },
    }
}

/// The numbers of what is shown of a lookup, and of whether its weight is kept.
fn enforced_numbers(shown: &Enforcement, kept: bool) -> Enforced
    ensures { result ≡ enforced_numbers shown.now kept }
{
    let numbers = Enforced {
        flags: u32::from(shown.flags),
        weight: u32::from(kept),
        missing: 0,
        rows: 0,
        flag: 0,
    };
    missing_numbers(shown.missing, numbers)
}

/// Which tuples are queries, by bytes.
fn queries_of(alloc: Global, bytes: &[u8]) -> Result<Vec<bool>, AllocError>
    ensures { IfOk result (λ v. v.items ≡ map is_query bytes.now) }
{
    let mut queries = Vec::with_capacity(alloc, bytes.len())?;
    for byte in bytes {
        queries.push(*byte != 0)?;
    }
    Ok(queries)
}

/// Appends the bounds of a lookup.
fn push_bounds(numbers: &mut Vec<Bound>, bounds: &[Option<u64>]) -> Result<(), AllocError>
    ensures { IfOk result
        (λ _. numbers.new.items ≡ numbers.old.items ++ map bound_numbers bounds.now) }
{
    for bound in bounds {
        numbers.push(bound_numbers(*bound))?;
    }
    Ok(())
}

/// The bounds of all lookups, one lookup after the other.
fn bounds_of(alloc: Global, shown: &[Enforcement]) -> Result<Vec<Bound>, AllocError>
    ensures { IfOk result (λ v. v.items ≡ flat_map bound_list shown.now) }
{
    let mut numbers = Vec::new(alloc);
    for one in shown {
        push_bounds(&mut numbers, one.bounds.as_slice())?;
    }
    Ok(numbers)
}

/// What is answered for a lookup of a record, whose queries are those at the places of its tuples.
fn answer_for<F: Field>(
    entry: &Record,
    lookup: &Lookup<F>,
    shown: &Enforcement,
    queries: &[bool],
) -> Enforced
    requires { IsTableRange queries.now entry.now.tuples }
    ensures { IsAnswerFor F.ring F.eq (table_items queries.now entry.now.tuples) lookup.now
        shown.now result }
{
    let span = entry.tuples;
    let kept = keeps_weight(lookup, shown, &queries[span.start..span.end]);
    enforced_numbers(shown, kept)
}

/// What is answered for all lookups.
fn answers_of<F: Field>(
    alloc: Global,
    records: &[Record],
    lookups: &[Lookup<F>],
    shown: &[Enforcement],
    queries: &[bool],
) -> Result<Vec<Enforced>, AllocError>
    requires records { length records.now ≡ length lookups.now }
    requires shown { length shown.now ≡ length lookups.now }
    requires queries { All (λ r. IsTableRange queries.now r.tuples) records.now }
    ensures { IfOk result (λ v. AllZip (IsAnswerOf F.ring F.eq queries.now)
        (zip records.now (zip lookups.now shown.now)) v.items) }
{
    let mut answers = Vec::with_capacity(alloc, lookups.len())?;
    for index in 0..lookups.len() {
        answers.push(answer_for(&records[index], &lookups[index], &shown[index], queries))?;
    }
    Ok(answers)
}

/// What the constraints of an AIR that tables encode are shown to enforce.
///
/// Refuses the first of these with a fault: the tables, the constraints, and the number of queries.
fn show_tables<const P: u32, K: QuarticParameters<P>>(
    alloc: Global,
    tables: &Tables<'_>,
    constraints: &Span,
    height: usize,
    queries: &[u8],
) -> Result<Shown, Fault>
    ensures { let R = ⟦<MontyField31<P, K> as PrimeCharacteristicRing>⟧.ring in
        let eq = ⟦<MontyField31<P, K> as PartialEq>⟧.eq in
        MatchResult result (ShowsTables R eq tables.now constraints.now height queries.now)
        (IsShowRefusal P tables.now constraints.now queries.now) }
{
    let set = set_of::<P, K>(alloc, 0, tables)?;
    let list = constraints_of::<P, K>(alloc, tables.nodes, *constraints)?;
    if queries.len() != tables.tuples.len() {
        return Err(Fault::Length {
            part: Part::Queries,
            expected: tables.tuples.len(),
            actual: queries.len(),
        });
    }
    let shown = enforcements(alloc, &list, set.as_slice(), height)?;
    let queries = queries_of(alloc, queries)?;
    let bounds = bounds_of(alloc, &shown)?;
    let lookups = answers_of(alloc, tables.records, set.as_slice(), &shown, &queries)?;
    Ok(Shown { lookups, bounds })
}

/// Checks that there is room for exactly so many items.
fn check_exact(part: Part, expected: usize, actual: usize) -> Result<(), Fault>
    ensures { MatchResult result (λ _. expected ≡ actual)
        (λ fault. (expected ≢ actual) × (fault ≡ Fault.Length part expected actual)) }
{
    if expected != actual {
        return Err(Fault::Length {
            part,
            expected,
            actual,
        });
    }
    Ok(())
}

/// What is shown, for room for so many lookups and so many bounds.
fn show_into_room<const P: u32, K: QuarticParameters<P>>(
    alloc: Global,
    tables: &Tables<'_>,
    constraints: &Span,
    height: usize,
    queries: &[u8],
    room: (usize, usize),
) -> Result<Shown, Fault>
    ensures { let R = ⟦<MontyField31<P, K> as PrimeCharacteristicRing>⟧.ring in
        let eq = ⟦<MontyField31<P, K> as PartialEq>⟧.eq in
        MatchResult result (ShowsInRoom R eq tables.now constraints.now height queries.now room.0 room.1)
        (IsEnforcedRefusal R eq tables.now constraints.now height queries.now room.0 room.1) }
{
    let made = show_tables::<P, K>(alloc, tables, constraints, height, queries)?;
    check_exact(Part::Enforced, made.lookups.len(), room.0)?;
    check_exact(Part::Bounds, made.bounds.len(), room.1)?;
    Ok(made)
}

/// Does what `volgwain_enforced` does, over any prime field below 2^31.
pub(crate) fn answer_enforced<const P: u32, K: QuarticParameters<P>>(
    alloc: Global,
    tables: &Tables<'_>,
    constraints: &Span,
    height: usize,
    queries: &[u8],
    shown: &mut [Enforced],
    bounds: &mut [Bound],
) -> Result<(), Fault>
    ensures answers { let R = ⟦<MontyField31<P, K> as PrimeCharacteristicRing>⟧.ring in
        let eq = ⟦<MontyField31<P, K> as PartialEq>⟧.eq in
        ResultOfEnforced R eq tables.now constraints.now height queries.now (length shown.old)
        (length bounds.old) shown.new bounds.new result }
    ensures kept { OnErr result ((shown.new ≡ shown.old) × (bounds.new ≡ bounds.old)) }
{
    let room = (shown.len(), bounds.len());
    let made = show_into_room::<P, K>(alloc, tables, constraints, height, queries, room)?;
    shown.copy_from_slice(&made.lookups);
    bounds.copy_from_slice(&made.bounds);
    Ok(())
}

/// Says what the constraints that stand in a range of the nodes are shown to enforce of each lookup, on each row of
/// traces of this height on which they hold: whether its flags are lawful, whether its queries stay within its weight,
/// and a bound of each multiplicity. What is not shown may still be so.
///
/// `queries` has a byte for each range of the tuples: 0 for a provided entry, and any other for a query. `shown` has
/// room for exactly one answer for each lookup, and `bounds` for one bound for each multiplicity, lookup by lookup.
///
/// Answers 0, or the code of a refusal. A refused call leaves both arrays as they were.
#[unsafe(no_mangle)]
pub extern "C" fn volgwain_enforced(
    alloc: Global,
    tables: &Tables<'_>,
    constraints: &Span,
    height: usize,
    queries: &[u8],
    shown: &mut [Enforced],
    bounds: &mut [Bound],
    refusal: &mut Refusal,
    text: &mut [u8],
) -> u32
    ensures answers { AnswersEnforced ⟦<BabyBear as PrimeCharacteristicRing>⟧.ring
        ⟦<BabyBear as PartialEq>⟧.eq tables.now constraints.now height queries.now
        (length shown.old) (length bounds.old) shown.new bounds.new result refusal.new }
    ensures kept { result ≢ 0 → (shown.new ≡ shown.old) × (bounds.new ≡ bounds.old) }
{
    match answer_enforced::<2_013_265_921, BabyBearParameters>(
        alloc,
        tables,
        constraints,
        height,
        queries,
        shown,
        bounds,
    ) {
        Ok(()) => accept(refusal),
        Err(fault) => refuse(&fault, refusal, text),
    }
}
