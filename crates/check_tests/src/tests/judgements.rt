//! Batches, judged.
use super::holds;
use air_constraints::RowKind;
use check_judge::{EnforcedAirs, PlanJudgement, PlanReport, Report, judge, judge_plan, magnitude};
use field_monty::{BabyBear, BabyBear4};
use language::{BatchText, read_batch};
use language_meaning::{NamedFile, read_shapes, read_tables};
use lookup_enforced::Missing;
use std::alloc::{AllocError, Global};

const MODULUS: u64 = 2_013_265_921;

/// Two AIRs on one bus: what the first sends the second receives, but for the 3.
pub(crate) const TEXT: &[u8] = b"bus b(value)
air sender {
trace \"sent.csv\"
send b(x)
}
air receiver {
trace \"received.csv\"
receive b(x)
}";

/// The files of that text.
pub(crate) fn files(alloc: Global, received: &[u8]) -> Result<Vec<NamedFile>, AllocError> {
    let sent = NamedFile {
        name: Vec::from_slice(alloc, b"sent.csv")?,
        content: Some(Vec::from_slice(alloc, b"x\n1\n2\n3\n")?),
    };
    let received = NamedFile {
        name: Vec::from_slice(alloc, b"received.csv")?,
        content: Some(Vec::from_slice(alloc, received)?),
    };
    Ok(Vec::from_array(alloc, [sent, received])?)
}

/// What is found over those files.
fn found(alloc: Global, received: &[u8]) -> Option<Report<BabyBear>> {
    let batch: BatchText = read_batch(alloc, TEXT).ok()?;
    let files = files(alloc, received).ok()?;
    let tables = read_tables(alloc, TEXT, &batch, &files, MODULUS).ok()?;
    judge::<BabyBear, BabyBear4>(alloc, TEXT, &batch, &tables, 4, 3).ok()
}

// Each of both lookups has degree 2 and weight 1, on three rows.
#[test]
fn batches(rt: HostRuntime) {
    let Some(report) = found(rt.alloc(), b"x\n3\n1\n2\n") else {
        return holds(&rt, "the batch is judged", false);
    };
    holds(
        &rt,
        "it balances",
        report.balanced && report.counts.unbalanced == 0,
    );
    holds(&rt, "three messages", report.counts.messages == 3);
    holds(&rt, "the height bound", report.plan.height_sum == 6);
    let Some(report) = found(rt.alloc(), b"x\n4\n1\n2\n") else {
        return holds(&rt, "the other batch is judged", false);
    };
    holds(&rt, "it does not balance", !report.balanced);
    holds(
        &rt,
        "3 and 4 do not",
        report.counts.unbalanced == 2 && report.counts.messages == 4,
    );
}

/// The same two AIRs with constraints: the first column begins with 1 and grows by 1, and the second one has
/// values that are 1 or 2.
const CONSTRAINED: &[u8] = b"air sender {
trace \"sent.csv\"
assert is_first_row * (x - 1)
assert is_transition * (next(x) - x - 1)
send b(x)
}
air receiver {
trace \"received.csv\"
let less = x - 1
assert bool less
receive b(x)
}";

/// Where a constraint of the second AIR fails: the row, the constraint, and whether the value is this one.
/// The first AIR has no such row.
fn fails_at(alloc: Global, received: &[u8], value: u32) -> Option<(usize, usize, bool)> {
    let batch: BatchText = read_batch(alloc, CONSTRAINED).ok()?;
    let files = files(alloc, received).ok()?;
    let tables = read_tables(alloc, CONSTRAINED, &batch, &files, MODULUS).ok()?;
    let report = judge::<BabyBear, BabyBear4>(alloc, CONSTRAINED, &batch, &tables, 4, 3).ok()?;
    match report.failures.as_slice() {
        [None, Some(failure)] if !report.hold && !report.is_good() => {
            Some((
                failure.row,
                failure.constraint,
                failure.value == BabyBear::new(value),
            ))
        }
        _ => None,
    }
}

#[test]
fn constraints(rt: HostRuntime) {
    let alloc = rt.alloc();
    // 3 - 1 is 2, and 2 * (2 - 1) is 2.
    let fails = fails_at(alloc, b"x\n1\n2\n3\n", 2);
    holds(&rt, "the third row", fails == Some((2, 0, true)));
    // 5 - 1 is 4, and 4 * 3 is 12.
    let fails = fails_at(alloc, b"x\n1\n5\n7\n", 12);
    holds(&rt, "the second row", fails == Some((1, 0, true)));
    holds(&rt, "no row", fails_at(alloc, b"x\n1\n2\n1\n", 0) == None);
}

/// Two AIRs with flags: those of the first exclude each other by its constraints, and of the second nothing is said of
/// `x` on the last row. The third message is provided, and the fourth may count more than once.
const FLAGGED: &[u8] = b"air sender {
trace \"sent.csv\"
assert bool x
exclusive {
when x send b(1)
when 1 - x send b(2)
}
}
air receiver {
trace \"received.csv\"
assert is_transition * x * (x - 1)
exclusive {
when x send b(1)
}
provide b(1) times x
query b(1) times x at most 1
}";

/// The files of that text: the first column has bits.
fn flag_files(alloc: Global, received: &[u8]) -> Result<Vec<NamedFile>, AllocError> {
    let sent = NamedFile {
        name: Vec::from_slice(alloc, b"sent.csv")?,
        content: Some(Vec::from_slice(alloc, b"x\n1\n0\n")?),
    };
    let received = NamedFile {
        name: Vec::from_slice(alloc, b"received.csv")?,
        content: Some(Vec::from_slice(alloc, received)?),
    };
    Ok(Vec::from_array(alloc, [sent, received])?)
}

fn flagged(alloc: Global, received: &[u8]) -> Option<Report<BabyBear>> {
    let batch: BatchText = read_batch(alloc, FLAGGED).ok()?;
    let files = flag_files(alloc, received).ok()?;
    let tables = read_tables(alloc, FLAGGED, &batch, &files, MODULUS).ok()?;
    judge::<BabyBear, BabyBear4>(alloc, FLAGGED, &batch, &tables, 4, 3).ok()
}

/// Whether each flag, and then each weight, of the lookups of an AIR is shown to be enforced.
fn marks(airs: &EnforcedAirs, air: usize, flags: &[bool], weights: &[bool]) -> bool {
    match airs.airs.get(air) {
        Some(found) => {
            found.weights.as_slice() == weights
                && found.lookups.len() == flags.len()
                && found
                    .lookups
                    .iter()
                    .zip(flags)
                    .all(|(shown, flag)| shown.flags == *flag)
        }
        None => false,
    }
}

// Of the two flags of the second AIR's group nothing is shown on the last row, and of the query's count no bound; a
// message that is provided needs none.
#[test]
fn enforced(rt: HostRuntime) {
    let Some(report) = flagged(rt.alloc(), b"x\n0\n1\n") else {
        return holds(&rt, "the batch is judged", false);
    };
    holds(&rt, "not all", !report.enforced.all);
    holds(
        &rt,
        "the first AIR",
        marks(&report.enforced, 0, &[true], &[true]),
    );
    let second = marks(
        &report.enforced,
        1,
        &[false, true, true],
        &[true, true, false],
    );
    holds(&rt, "the second AIR", second);
    let missing = match report.enforced.airs.get(1) {
        Some(air) => match air.lookups.first() {
            Some(shown) => shown.missing,
            None => None,
        },
        None => None,
    };
    let kind = RowKind {
        is_first: false,
        is_last: true,
    };
    let wanted = Some(Missing::Flag { flag: 0, kind });
    holds(&rt, "a flag on the last row", missing == wanted);
}

/// The first count that is above its `at most`, as the AIR, the lookup, the row, the message and the count.
fn above(report: &Report<BabyBear>) -> Option<(usize, usize, usize, usize, BabyBear)> {
    for (air, found) in report.excesses.iter().enumerate() {
        for (lookup, excess) in found.iter().enumerate() {
            if let Some(excess) = excess {
                return Some((air, lookup, excess.row, excess.message, excess.count));
            }
        }
    }
    None
}

/// A query that counts `x` times, a provision, and in a group a query that counts only where `x` is 1.
const COUNTED: &[u8] = b"air sender {
trace \"sent.csv\"
exclusive {
when is_first_row query b(1)
when is_last_row query b(1) times x at most 2
}
}
air receiver {
trace \"received.csv\"
together {
provide b(1) times x
query b(1) times x at most 2
}
}";

fn counted(alloc: Global, sent: &[u8], received: &[u8]) -> Option<Report<BabyBear>> {
    let batch: BatchText = read_batch(alloc, COUNTED).ok()?;
    let mut files = flag_files(alloc, received).ok()?;
    if let Some(file) = files.first_mut() {
        file.content = Some(Vec::from_slice(alloc, sent).ok()?);
    }
    let tables = read_tables(alloc, COUNTED, &batch, &files, MODULUS).ok()?;
    judge::<BabyBear, BabyBear4>(alloc, COUNTED, &batch, &tables, 4, 3).ok()
}

#[test]
fn counts(rt: HostRuntime) {
    let alloc = rt.alloc();
    // The 3 of the first row is not counted, and -2 is no more than 2.
    let Some(report) = counted(alloc, b"x\n3\n-2\n", b"x\n2\n-2\n1\n") else {
        return holds(&rt, "the batch is judged", false);
    };
    holds(&rt, "within", report.within && above(&report).is_none());
    let Some(report) = counted(alloc, b"x\n3\n-3\n", b"x\n0\n3\n4\n") else {
        return holds(&rt, "the other batch is judged", false);
    };
    let wanted = Some((0, 0, 1, 1, -BabyBear::new(3)));
    holds(&rt, "the last row of the first", above(&report) == wanted);
    let Some(report) = counted(alloc, b"x\n0\n0\n", b"x\n0\n3\n4\n") else {
        return holds(&rt, "the third batch is judged", false);
    };
    let wanted = Some((1, 0, 1, 1, BabyBear::new(3)));
    holds(&rt, "a row of the second", above(&report) == wanted);
    holds(&rt, "no good", !report.within && !report.is_good());
    holds(
        &rt,
        "without its sign",
        magnitude(-BabyBear::new(3)) == 3
            && magnitude(BabyBear::new(1_006_632_960)) == 1_006_632_960,
    );
}

/// A batch that has no trace yet: on 5 rows two messages, which share a column within degree 3.
const PLANNED: &[u8] = b"air a {
height 5
columns (x, y)
query b(x)
query b(y)
}";

fn judged(alloc: Global, text: &[u8]) -> Option<PlanJudgement> {
    let batch = read_batch(alloc, text).ok()?;
    let shapes = read_shapes(alloc, text, &batch, &[], MODULUS).ok()?;
    judge_plan::<BabyBear, BabyBear4>(alloc, text, &batch, &shapes, 3).ok()
}

fn plan(alloc: Global, text: &[u8]) -> Option<PlanReport> {
    let PlanJudgement { report, .. } = judged(alloc, text)?;
    Some(report)
}

/// Flags that are the first and the last row, over traces of two rows and of one.
const ENDS: &[u8] = b"air two {
height 2
columns (x)
exclusive {
when is_first_row send b(x)
when is_last_row receive b(x)
}
}
air one {
height 1
columns (x)
exclusive {
when is_first_row send b(x)
when is_last_row receive b(x)
}
}";

// On the only row of a trace both flags are 1, and both messages count.
#[test]
fn enforced_before_traces(rt: HostRuntime) {
    let Some(found) = judged(rt.alloc(), ENDS) else {
        return holds(&rt, "the plan is judged", false);
    };
    holds(&rt, "two rows", marks(&found.enforced, 0, &[true], &[true]));
    holds(
        &rt,
        "one row",
        marks(&found.enforced, 1, &[false], &[false]),
    );
    holds(&rt, "not all", !found.enforced.all);
    match judged(rt.alloc(), PLANNED) {
        Some(found) => holds(&rt, "all of messages alone", found.enforced.all),
        None => holds(&rt, "the other plan is judged", false),
    }
}

#[test]
fn plans(rt: HostRuntime) {
    let Some(report) = plan(rt.alloc(), PLANNED) else {
        return holds(&rt, "the plan is judged", false);
    };
    let Some(air) = report.airs.first() else {
        return holds(&rt, "an AIR", false);
    };
    holds(
        &rt,
        "its size",
        (air.rows, air.columns, air.weight) == (5, 2, 2),
    );
    holds(
        &rt,
        "its degrees",
        air.degrees.as_slice() == [2, 2].as_slice(),
    );
    holds(&rt, "one column", air.packed.as_slice() == [3].as_slice());
    let Some(shared) = air.packed_lookups.first() else {
        return holds(&rt, "its lookups", false);
    };
    holds(&rt, "of both", shared.as_slice() == [0, 1].as_slice());
    holds(&rt, "its messages", report.heights.most_messages == 10);
}

/// Lookups 0, 1, 3 and 4 are on one bus, of which 1 has a flag; lookup 2 is on another.
const SHARED: &[u8] = b"air a {
height 5
columns (x, y)
query b(x)
exclusive {
when x query b(y)
}
query c(x)
query b(y)
query b(x)
}";

// The lookup with a flag comes first, and stays alone. Of the three others on its bus two share a column,
// since three would have degree 4.
#[test]
fn shares(rt: HostRuntime) {
    let Some(report) = plan(rt.alloc(), SHARED) else {
        return holds(&rt, "the plan is judged", false);
    };
    let Some(air) = report.airs.first() else {
        return holds(&rt, "an AIR", false);
    };
    let [flagged, two, third, other] = air.packed_lookups.as_slice() else {
        return holds(&rt, "four columns", false);
    };
    holds(&rt, "the flag", flagged.as_slice() == [1].as_slice());
    holds(&rt, "two on a bus", two.as_slice() == [0, 3].as_slice());
    holds(&rt, "the third", third.as_slice() == [4].as_slice());
    holds(&rt, "the other bus", other.as_slice() == [2].as_slice());
}
