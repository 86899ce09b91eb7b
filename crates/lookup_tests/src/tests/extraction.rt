//! Lookups of AIRs that push what a test asks for.
ghost use Rattle.std.specs.Prelude.{◌≡◌, ◌<◌, All, IfOk, OnOk};
ghost use Rattle.air_expressions.specs.StaysWithin.{StaysWithin};
ghost use Rattle.air_expressions.specs.declared.layout.AirLayout.{AirLayout};
ghost use Rattle.lookup_record.specs.Within.{KeyWithin};

use super::{holds, is_on, one, text};
use air::{
    Air, AirBuilder, AirError, AirLayout, BaseAir, BaseEntry, BaseLeaf, Expression,
    SymbolicExpression, current_cell, current_cells,
};
use field::{ExtensionField, F7, Field, PrimeCharacteristicRing};
use field_monty::{BabyBear, BabyBear4};
use lookup::{
    Count, InteractionBuilder, Lookup, LookupBus, LookupError, Lookups, assert_uniform_tuple_width,
};
use matrix::WindowAccess;
use std::alloc::Global;
use std::process::Abort;

/// What an AIR does in its evaluation.
#[derive(Clone, Copy)]
enum Step<'a> {
    /// Pushes a local lookup of tuples of ones, each a width and a weight.
    Local(&'a [(usize, u64)]),
    /// Pushes the local lookup of cell 0 and of cell 1, which is provided as often as cell 2 says.
    Range,
    /// Queries the tuple of 1 on a bus.
    Global(&'a str),
    /// Pushes a group on a bus, whose branches have these weights.
    Exclusive(&'a str, &'a [u64]),
    /// Queries, on a bus, cell 1 under the flag of cell 0, or cell 3 under that of cell 2.
    Keys(&'a str),
    /// Refuses an assertion on this row.
    Assertion(usize),
    /// Refuses a degree.
    Overflow,
}

/// An AIR of so many columns that does these, in order.
#[derive(Clone, Copy)]
struct Steps<'a> {
    width: usize,
    steps: &'a [Step<'a>],
}

impl<F> BaseAir<F> for Steps<'_> {
    ghost width = { λ air. air.width };

    ghost preprocessed_width = { λ _. 0 };

    ghost num_public_values = { λ _. 0 };

    fn width(&self) -> usize {
        self.width
    }

    fn preprocessed_width(&self) -> usize {
        0
    }

    fn num_public_values(&self) -> usize {
        0
    }
}

/// A tuple of as many ones.
fn ones<AB: AirBuilder>(alloc: Global, width: usize) -> Result<Vec<AB::Expr>, AirError>
    ensures { IfOk result (λ tuple. (layout : AirLayout)
        → All (AB.Expr.within layout) tuple.items) }
{
    let mut tuple = Vec::new(alloc);
    for _ in 0..width {
        tuple.push(AB::Expr::constant(AB::F::ONE))?;
    }
    Ok(tuple)
}

fn push_local<AB: InteractionBuilder>(
    alloc: Global,
    builder: &mut AB,
    shapes: &[(usize, u64)],
) -> Result<(), AirError>
    ensures layout { OnOk result (AB.layout builder.new ≡ AB.layout builder.old) }
    ensures within { OnOk result (AB.pushed_within builder.old → AB.pushed_within builder.new) }
{
    let mut tuples = Vec::new(alloc);
    for (width, weight) in shapes {
        let count = Count::bounded(AB::Expr::constant(AB::F::ONE), *weight);
        tuples.push((ones::<AB>(alloc, *width)?, count))?;
    }
    builder.push_local_interaction(alloc, tuples)
}

/// Pushes the local lookup of cell 0 and of cell 1, which is provided as often as cell 2 says.
fn push_range<AB: InteractionBuilder>(alloc: Global, builder: &mut AB) -> Result<(), AirError>
    ensures layout { OnOk result (AB.layout builder.new ≡ AB.layout builder.old) }
    ensures within { OnOk result (AB.pushed_within builder.old → AB.pushed_within builder.new) }
{
    let mut tuples = Vec::new(alloc);
    let read = current_cells(alloc, builder, 3, &[0])?;
    tuples.push((read, Count::from(1)))?;
    let provided = Count::provided(current_cell(alloc, builder, 3, 2)?.neg(alloc)?);
    let entry = current_cells(alloc, builder, 3, &[1])?;
    tuples.push((entry, provided))?;
    builder.push_local_interaction(alloc, tuples)
}

/// Pushes a group on a bus, whose branches have these weights.
fn push_exclusive<AB: InteractionBuilder>(
    alloc: Global,
    builder: &mut AB,
    name: &str,
    weights: &[u64],
) -> Result<(), AirError>
    ensures layout { OnOk result (AB.layout builder.new ≡ AB.layout builder.old) }
    ensures within { OnOk result (AB.pushed_within builder.old → AB.pushed_within builder.new) }
{
    let mut branches = Vec::new(alloc);
    for weight in weights {
        let count = Count::bounded(AB::Expr::constant(AB::F::ONE), *weight);
        branches.push((builder.is_first_row(), count, ones::<AB>(alloc, 1)?))?;
    }
    builder.push_exclusive_interaction(alloc, name, branches)
}

/// The flag of a branch and its key, which are the cells `2 * branch` and `2 * branch + 1`.
fn flagged_key<AB: AirBuilder>(
    alloc: Global,
    builder: &AB,
    branch: usize,
) -> Result<(AB::Expr, Vec<AB::Expr>), AirError>
    requires { branch < 2 }
    ensures { IfOk result (KeyWithin AB.Expr.within (AB.layout builder.now)) }
{
    let flag = current_cell(alloc, builder, 4, 2 * branch)?;
    let key = current_cells(alloc, builder, 4, &[2 * branch + 1])?;
    Ok((flag, key))
}

fn query_keys<AB: InteractionBuilder>(
    alloc: Global,
    builder: &mut AB,
    name: &str,
) -> Result<(), AirError>
    ensures layout { OnOk result (AB.layout builder.new ≡ AB.layout builder.old) }
    ensures within { OnOk result (AB.pushed_within builder.old → AB.pushed_within builder.new) }
{
    let mut branches = Vec::new(alloc);
    for branch in 0..2 {
        branches.push(flagged_key(alloc, builder, branch)?)?;
    }
    LookupBus::new(name).lookup_key_exclusive(alloc, builder, branches)
}

fn query_one<AB: InteractionBuilder>(
    alloc: Global,
    builder: &mut AB,
    name: &str,
) -> Result<(), AirError>
    ensures layout { OnOk result (AB.layout builder.new ≡ AB.layout builder.old) }
    ensures within { OnOk result (AB.pushed_within builder.old → AB.pushed_within builder.new) }
{
    let key = ones::<AB>(alloc, 1)?;
    LookupBus::new(name).lookup_key(alloc, builder, key, Count::from(1))
}

fn take_step<AB: InteractionBuilder>(
    alloc: Global,
    builder: &mut AB,
    step: &Step<'_>,
) -> Result<(), AirError>
    ensures layout { OnOk result (AB.layout builder.new ≡ AB.layout builder.old) }
    ensures within { OnOk result (AB.pushed_within builder.old → AB.pushed_within builder.new) }
{
    match step {
        Step::Local(shapes) => push_local(alloc, builder, shapes),
        Step::Range => push_range(alloc, builder),
        Step::Global(name) => query_one(alloc, builder, name),
        Step::Exclusive(name, weights) => push_exclusive(alloc, builder, name, weights),
        Step::Keys(name) => query_keys(alloc, builder, name),
        Step::Assertion(row) => Err(AirError::Assertion { row: *row }),
        Step::Overflow => Err(AirError::DegreeOverflow),
    }
}

impl<AB: InteractionBuilder> Air<AB> for Steps<'_> {
    ghost evaluates = { λ _ before answer after.
        OnOk answer (StaysWithin AB.AirBuilder before after) };

    fn eval(&self, alloc: Global, builder: &mut AB) -> Result<(), AirError> {
        for step in self.steps {
            take_step(alloc, builder, step)?;
        }
        Ok(())
    }

    ghost keeps_layout = { λ air before after h. h.0 };
}

/// The lookups of an AIR of four columns that does these.
fn extract<F: Field, EF: ExtensionField<F>>(
    alloc: Global,
    steps: &[Step<'_>],
) -> Result<Lookups<F>, LookupError> {
    Lookups::from_air::<EF, Steps<'_>>(alloc, &Steps { width: 4, steps })
}

/// Whether the lookup in a column stands on this bus, or is local where that is empty, and has this
/// weight and as many tuples, each with a multiplicity, and with a flag if it is exclusive.
fn is_lookup<F>(
    lookups: &[Lookup<F>],
    column: usize,
    bus: &str,
    weight: u64,
    tuples: usize,
    is_exclusive: bool,
) -> bool {
    let Some(lookup) = lookups.get(column) else {
        return false;
    };
    let has_flags = match &lookup.flags {
        Some(flags) => is_exclusive && flags.len() == tuples,
        None => !is_exclusive,
    };
    let has_tuples = lookup.elements.len() == tuples && lookup.multiplicities.len() == tuples;
    is_on(lookup, bus)
        && has_flags
        && has_tuples
        && lookup.column == column
        && lookup.count_weight == weight
}

/// Whether lookups have these buses, weights and numbers of tuples, and are groups or not, in order.
fn are_lookups<F>(lookups: &[Lookup<F>], expected: &[(&str, u64, usize, bool)]) -> bool {
    for (column, (bus, weight, tuples, is_exclusive)) in expected.iter().enumerate() {
        if !is_lookup(lookups, column, bus, *weight, *tuples, *is_exclusive) {
            return false;
        }
    }
    lookups.len() == expected.len()
}

/// Whether an expression is the variable of an entry in this column.
fn is_cell<F: Field>(expression: &SymbolicExpression<F>, entry: BaseEntry, column: usize) -> bool {
    match expression {
        SymbolicExpression::Leaf(BaseLeaf::Variable(variable)) => {
            variable.entry == entry && variable.index == column
        }
        _ => false,
    }
}

/// Whether expressions are these two cells of the main trace.
fn is_pair_of_cells<F: Field>(
    expressions: &[SymbolicExpression<F>],
    first: usize,
    second: usize,
) -> bool {
    let main = BaseEntry::Main { offset: 0 };
    match expressions {
        [a, b] => is_cell(a, main, first) && is_cell(b, main, second),
        _ => false,
    }
}

/// Whether a tuple is such a variable alone.
fn is_single<F: Field>(tuple: &[SymbolicExpression<F>], entry: BaseEntry, column: usize) -> bool {
    match tuple {
        [a] => is_cell(a, entry, column),
        _ => false,
    }
}

/// Whether tuples are two, of one of these cells of the main trace each.
fn are_cells<F: Field>(tuples: &[Vec<SymbolicExpression<F>>], first: usize, second: usize) -> bool {
    let main = BaseEntry::Main { offset: 0 };
    match tuples {
        [a, b] => is_single(a, main, first) && is_single(b, main, second),
        _ => false,
    }
}

/// Whether counts are 1, and cell 2 negated.
fn are_range_counts(counts: &[SymbolicExpression<BabyBear>]) -> bool {
    let main = BaseEntry::Main { offset: 0 };
    match counts {
        [
            SymbolicExpression::Leaf(BaseLeaf::Constant(once)),
            SymbolicExpression::Neg(taken),
        ] => { *once == BabyBear::new(1) && is_cell(taken, main, 2) }
        _ => false,
    }
}

/// Fails unless an AIR that does these steps has such lookups, of this weight in all.
fn expect_lookups(
    rt: &impl Abort,
    alloc: Global,
    steps: &[Step<'_>],
    expected: &[(&str, u64, usize, bool)],
    total: u128,
) {
    let lookups = extract::<F7, F7>(alloc, steps).expect(rt, "lookups");
    holds(rt, "the lookups", are_lookups(lookups.as_slice(), expected));
    holds(rt, "the weight", lookups.total_count_weight() == total);
}

/// Local lookups come first and groups last. The weights of a local lookup are summed, and a group has
/// the greatest of its weights.
#[test]
fn lookups_of_pushes(rt: HostRuntime) {
    let alloc = rt.alloc();
    let one: (&str, u64, usize, bool) = ("", 1, 1, false);
    expect_lookups(
        &rt,
        alloc,
        &[
            Step::Global("a"),
            Step::Local(&[(1, 1)]),
            Step::Exclusive("b", &[2, 5]),
            Step::Global("c"),
        ],
        &[
            one,
            ("a", 1, 1, false),
            ("c", 1, 1, false),
            ("b", 5, 2, true),
        ],
        8,
    );
    let no_weights = &[Step::Local(&[(1, 0)]), Step::Exclusive("b", &[0, 0])];
    let weightless = &[("", 0, 1, false), ("b", 0, 2, true)];
    expect_lookups(&rt, alloc, no_weights, weightless, 0);
    let no_branches = &[Step::Exclusive("b", &[])];
    expect_lookups(&rt, alloc, no_branches, &[("b", 0, 0, true)], 0);
    // a sum of 33 bits
    let heavy = &[Step::Local(&[(2, 4294967295), (2, 1)]), Step::Global("a")];
    let sum = &[("", 4294967296, 2, false), ("a", 1, 1, false)];
    expect_lookups(&rt, alloc, heavy, sum, 4294967297);
    let keys = &[("rc", 1, 2, true)];
    expect_lookups(&rt, alloc, &[Step::Keys("rc")], keys, 1);
    let three = [Step::Range, Step::Range, Step::Range];
    let lookups = extract::<BabyBear, BabyBear4>(alloc, three.as_slice());
    let lookups = lookups.expect(&rt, "range lookups");
    let are_three = are_lookups(lookups.as_slice(), &[("", 1, 2, false); 3]);
    holds(&rt, "three range lookups", are_three);
    for lookup in lookups.as_slice() {
        let are_cells = are_cells(&lookup.elements, 0, 1);
        holds(&rt, "the tuples", are_cells);
        holds(&rt, "the counts", are_range_counts(&lookup.multiplicities));
    }
}

/// Cell 1 is sent under the flag of cell 0, and cell 3 under that of cell 2.
#[test]
fn the_cells_of_a_group(rt: HostRuntime) {
    let lookups = extract::<F7, F7>(rt.alloc(), &[Step::Keys("rc")]).expect(&rt, "lookups");
    let [group] = lookups.as_slice() else {
        holds(&rt, "one lookup", false);
        return;
    };
    holds(&rt, "the keys", are_cells(&group.elements, 1, 3));
    let are_flags = match &group.flags {
        Some(flags) => is_pair_of_cells(flags, 0, 2),
        None => false,
    };
    holds(&rt, "the flags", are_flags);
}

/// Fails unless an AIR that does these steps is refused for this.
fn expect_refusal(rt: &impl Abort, alloc: Global, steps: &[Step<'_>], refusal: LookupError) {
    let refused = extract::<F7, F7>(alloc, steps).err();
    assert!(rt; refused == Some(refusal));
}

/// The refusal of a local lookup with tuples of widths 1 and 2.
fn two_widths(rt: &impl Abort, alloc: Global) -> LookupError {
    LookupError::TupleWidths {
        context: text(rt, alloc, "local lookup"),
        width: 1,
        other: 2,
    }
}

/// The first local lookup with a fault decides, and its weights come before its widths. What an AIR
/// refuses is handed on.
#[test]
fn refused_extractions(rt: HostRuntime) {
    let alloc = rt.alloc();
    let weights: &[Step<'_>] = &[Step::Local(&[(1, 18446744073709551615), (1, 1)])];
    expect_refusal(&rt, alloc, weights, LookupError::CountWeightOverflow);
    let both: &[Step<'_>] = &[Step::Local(&[(1, 18446744073709551615), (2, 1)])];
    expect_refusal(&rt, alloc, both, LookupError::CountWeightOverflow);
    let widths: &[Step<'_>] = &[Step::Local(&[(1, 1), (2, 1)])];
    expect_refusal(&rt, alloc, widths, two_widths(&rt, alloc));
    let in_order: &[Step<'_>] = &[
        Step::Local(&[(1, 1), (2, 1)]),
        Step::Local(&[(1, 18446744073709551615), (1, 1)]),
    ];
    expect_refusal(&rt, alloc, in_order, two_widths(&rt, alloc));
    let degree = LookupError::DegreeOverflow;
    expect_refusal(&rt, alloc, &[Step::Overflow], degree);
    let assertion = LookupError::Air(AirError::Assertion { row: 3 });
    expect_refusal(&rt, alloc, &[Step::Assertion(3)], assertion);
}

/// An AIR of one preprocessed column, whose cell is the tuple of a local lookup.
struct Fixed;

impl<F> BaseAir<F> for Fixed {
    ghost width = { λ _. 1 };

    ghost preprocessed_width = { λ _. 1 };

    ghost num_public_values = { λ _. 0 };

    fn width(&self) -> usize {
        1
    }

    fn preprocessed_width(&self) -> usize {
        1
    }

    fn num_public_values(&self) -> usize {
        0
    }
}

impl<AB: InteractionBuilder> Air<AB> for Fixed {
    ghost evaluates = { λ _ before answer after. OnOk answer (AB.layout after ≡ AB.layout before) };

    fn eval(&self, alloc: Global, builder: &mut AB) -> Result<(), AirError> {
        let Some(fixed) = builder.preprocessed().current(0) else {
            return Err(AirError::DegreeOverflow);
        };
        let mut tuple = Vec::new(alloc);
        tuple.push(fixed.into())?;
        let mut tuples = Vec::new(alloc);
        tuples.push((tuple, Count::from(1)))?;
        builder.push_local_interaction(alloc, tuples)
    }

    ghost keeps_layout = { λ air before after h. h };
}

/// The lookups of this AIR. Over any field, since the recorder's types cost much to prove over a given one.
fn extract_fixed<F: Field, EF: ExtensionField<F>>(
    alloc: Global,
) -> Result<Lookups<F>, LookupError> {
    Lookups::from_air::<EF, Fixed>(alloc, &Fixed)
}

#[test]
fn a_preprocessed_cell_is_extracted(rt: HostRuntime) {
    let lookups = extract_fixed::<F7, F7>(rt.alloc()).expect(&rt, "a lookup");
    let is_one = are_lookups(lookups.as_slice(), &[("", 1, 1, false)]);
    holds(&rt, "one lookup", is_one);
    let fixed = BaseEntry::Preprocessed { offset: 0 };
    let is_there = match lookups.as_slice() {
        [lookup] => match lookup.elements.as_slice() {
            [tuple] => is_single(tuple, fixed, 0),
            _ => false,
        },
        _ => false,
    };
    holds(&rt, "the cell", is_there);
    let mut layout = AirLayout::default();
    holds(&rt, "no column", !lookups.fits(&layout));
    layout.preprocessed_width = 1;
    holds(&rt, "one column", lookups.fits(&layout));
}

/// The common width of tuples of these widths, or the refusal.
fn common_width(rt: &impl Abort, alloc: Global, widths: &[usize]) -> Result<usize, LookupError> {
    let mut tuples: Vec<Vec<SymbolicExpression<F7>>> = Vec::new(alloc);
    for width in widths {
        let mut tuple = Vec::new(alloc);
        for _ in 0..*width {
            tuple.push(one()).expect(rt, "memory");
        }
        tuples.push(tuple).expect(rt, "memory");
    }
    assert_uniform_tuple_width(alloc, tuples.as_slice(), "here")
}

#[test]
fn tuples_of_one_width(rt: HostRuntime) {
    let alloc = rt.alloc();
    let none = common_width(&rt, alloc, &[]);
    holds(&rt, "no tuples", none == Ok(0));
    let three = common_width(&rt, alloc, &[2, 2, 2]);
    holds(&rt, "three tuples", three == Ok(2));
    let refusal = LookupError::TupleWidths {
        context: text(&rt, alloc, "here"),
        width: 2,
        other: 1,
    };
    let refused = common_width(&rt, alloc, &[2, 2, 1, 3]);
    holds(&rt, "the third differs", refused == Err(refusal));
}
