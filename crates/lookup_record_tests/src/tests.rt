//! What the tests share: expressions, records, and the builder that records them.
mod buses;
mod copies;
mod counts;
mod declaration;
mod indexed;
mod recording;
mod row_checker;

use air::{AirLayout, BaseLeaf, Expression, SymbolicExpression};
use field::{ExtensionField, F7, Field, PrimeCharacteristicRing};
use lookup_record::{
    Count, IndexedLookupBuilder, InteractionBuilder, InteractionSymbolicBuilder, LocalTuple,
    LookupBus, PermutationCheckBus, SymbolicExclusiveBranch, SymbolicInteraction,
};
use std::alloc::Global;
use std::process::Abort;

type Recorder = InteractionSymbolicBuilder<F7, F7>;

type Tree = SymbolicExpression<F7>;

/// Fails with this text unless the condition holds.
fn holds(rt: &impl Abort, what: &str, condition: bool) {
    assert!(rt; condition, "{what}");
}

/// A list of these values.
fn list<T: Drop, const N: usize>(rt: &impl Abort, alloc: Global, values: [T; N]) -> Vec<T> {
    Vec::from_array(alloc, values).expect(rt, "memory")
}

/// A recorder of an AIR with two columns.
///
/// Tests let go of it by `drop`, which is one call: at the end of a scope each of its many fields
/// would be dropped there, and proved there.
fn recorder(rt: &impl Abort, alloc: Global) -> Recorder {
    let layout = AirLayout {
        main_width: 2,
        permutation_width: 1,
        num_permutation_challenges: 1,
        num_permutation_values: 1,
        ..AirLayout::default()
    };
    Recorder::new(alloc, layout).expect(rt, "memory")
}

/// A constant of F7.
fn constant(value: u32) -> Tree {
    SymbolicExpression::constant(F7::new(value))
}

/// Constants of F7.
fn constants(rt: &impl Abort, alloc: Global, values: &[u32]) -> Vec<Tree> {
    let mut all = Vec::new(alloc);
    for value in values {
        all.push(constant(*value)).expect(rt, "memory");
    }
    all
}

/// The value of a constant or of a negated constant.
fn value(tree: &Tree) -> Option<F7> {
    match tree {
        SymbolicExpression::Leaf(BaseLeaf::Constant(x)) => Some(*x),
        SymbolicExpression::Neg(inner) => Some(-value(inner)?),
        _ => None,
    }
}

/// Whether an expression is a constant of this value, or negated one that has it.
fn has_value(tree: &Tree, number: u32) -> bool {
    value(tree) == Some(F7::new(number))
}

/// Whether expressions are constants of these values.
fn have_values(trees: &[Tree], numbers: &[u32]) -> bool {
    for (tree, number) in trees.iter().zip(numbers) {
        if !has_value(tree, *number) {
            return false;
        }
    }
    trees.len() == numbers.len()
}

/// Whether a message stands on this bus, with these fields, this count and this weight.
fn is_message(
    message: Option<&SymbolicInteraction<F7>>,
    bus: &str,
    fields: &[u32],
    count: u32,
    weight: u64,
) -> bool {
    match message {
        Some(message) => {
            message.bus_name.as_str() == bus
                && have_values(message.fields.as_slice(), fields)
                && has_value(&message.count, count)
                && message.count_weight == weight
        }
        None => false,
    }
}

/// Whether a tuple has these fields and this weight.
fn is_tuple(tuple: Option<&LocalTuple<F7>>, fields: &[u32], weight: u64) -> bool {
    match tuple {
        Some(tuple) => have_values(tuple.0.as_slice(), fields) && tuple.1.weight() == weight,
        None => false,
    }
}

/// Whether a branch has this flag, this count, these fields and this weight.
fn is_branch(
    branch: Option<&SymbolicExclusiveBranch<F7>>,
    flag: u32,
    count: u32,
    fields: &[u32],
    weight: u64,
) -> bool {
    match branch {
        Some(branch) => {
            has_value(&branch.flag, flag)
                && has_value(&branch.count, count)
                && have_values(branch.fields.as_slice(), fields)
                && branch.count_weight == weight
        }
        None => false,
    }
}

/// The count 1.
fn once() -> Count<Tree> {
    Count::from(1)
}

/// A call of a bus, by the numbers that its keys and messages are.
#[derive(Clone, Copy)]
enum Call<'a> {
    /// Queries a key once.
    Query(&'a [u32]),
    /// Provides a key this many times.
    Provide(&'a [u32], u32),
    /// Queries one of several keys of one element, each after its flag.
    QueryOneOf(&'a [(u32, u32)]),
    /// Sends a message once.
    Send(&'a [u32]),
    /// Receives a message once.
    Receive(&'a [u32]),
}

/// The constant of a number.
fn number<AB: InteractionBuilder>(value: u32) -> AB::Expr {
    AB::Expr::constant(AB::F::from_u32(value))
}

/// The constants of numbers.
fn numbers<AB: InteractionBuilder>(
    rt: &impl Abort,
    alloc: Global,
    values: &[u32],
) -> Vec<AB::Expr> {
    let mut all = Vec::new(alloc);
    for value in values {
        all.push(number::<AB>(*value)).expect(rt, "memory");
    }
    all
}

/// The branches of flags and keys.
fn branches<AB: InteractionBuilder>(
    rt: &impl Abort,
    alloc: Global,
    keys: &[(u32, u32)],
) -> Vec<(AB::Expr, Vec<AB::Expr>)> {
    let mut all = Vec::new(alloc);
    for (flag, key) in keys {
        let key = numbers::<AB>(rt, alloc, &[*key]);
        all.push((number::<AB>(*flag), key)).expect(rt, "memory");
    }
    all
}

/// Hands a builder what calls of buses ask for, each with the name of its bus.
fn ask<AB: InteractionBuilder>(
    rt: &impl Abort,
    alloc: Global,
    builder: &mut AB,
    calls: &[(&str, Call<'_>)],
) {
    for (bus, call) in calls {
        let lookup = LookupBus::new(bus);
        let permutation = PermutationCheckBus::new(bus);
        let once = Count::from(1);
        let answer = match call {
            Call::Query(key) => {
                lookup.lookup_key(alloc, builder, numbers::<AB>(rt, alloc, key), once)
            }
            Call::Provide(key, times) => {
                let key = numbers::<AB>(rt, alloc, key);
                lookup.table_entry(alloc, builder, key, number::<AB>(*times))
            }
            Call::QueryOneOf(keys) => {
                lookup.lookup_key_exclusive(alloc, builder, branches::<AB>(rt, alloc, keys))
            }
            Call::Send(fields) => {
                permutation.send(alloc, builder, numbers::<AB>(rt, alloc, fields), once)
            }
            Call::Receive(fields) => {
                permutation.receive(alloc, builder, numbers::<AB>(rt, alloc, fields), once)
            }
        };
        answer.expect(rt, "memory");
    }
}

/// Hands a recorder what calls of buses ask for. Over any field, since the recorder's types cost much to
/// prove over a given one.
fn record<F: Field, EF: ExtensionField<F>>(
    rt: &impl Abort,
    alloc: Global,
    recorder: &mut InteractionSymbolicBuilder<F, EF>,
    calls: &[(&str, Call<'_>)],
) {
    ask(rt, alloc, recorder, calls);
}

/// A recorder after these calls, each with the name of its bus.
fn recorded(rt: &impl Abort, alloc: Global, calls: &[(&str, Call<'_>)]) -> Recorder {
    let mut recorder = recorder(rt, alloc);
    record(rt, alloc, &mut recorder, calls);
    recorder
}

/// How many messages, local lookups and groups a recorder counts, and how many reads and tables.
fn recorded_counts(recorder: &Recorder) -> [usize; 5] {
    [
        recorder.num_global_interactions(),
        recorder.num_local_interactions(),
        recorder.num_exclusive_interactions(),
        recorder.num_indexed_reads(),
        recorder.num_indexed_tables(),
    ]
}
