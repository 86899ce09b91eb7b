//! What names and messages mean.
use super::holds;
use language::{ItemText, MessageText, SectionText, Span, read_batch, read_formula, tokens};
use language_meaning::{
    Defined, NameFault, NameRefusal, NameWhy, NamedMessage, Scope, Value, bytes_of, copy_of,
    named_message, value_of,
};
use std::alloc::{AllocError, Global};

/// A number for a value: a cell is 1,000 or 2,000 with its row as hundreds and its column, a public
/// value 3,000 with its number, and the selectors are 4,000 to 4,002.
pub fn number(value: &Value) -> u64 {
    match value {
        Value::Main { offset, column } => cell(1000, *offset, *column),
        Value::Preprocessed { offset, column } => cell(2000, *offset, *column),
        Value::Public(index) => cell(3000, 0, *index),
        Value::FirstRow => 4000,
        Value::LastRow => 4001,
        Value::Transition => 4002,
        Value::Number(n) => *n,
        Value::Negative(inner) => 0u64.wrapping_sub(number(inner)),
        Value::Sum(left, right) => number(left).wrapping_add(number(right)),
        Value::Difference(left, right) => number(left).wrapping_sub(number(right)),
        Value::Product(left, right) => number(left).wrapping_mul(number(right)),
    }
}

fn cell(base: u64, offset: usize, column: usize) -> u64 {
    base.wrapping_add((offset as u64).wrapping_mul(100))
        .wrapping_add(column as u64)
}

/// The columns `a` and `limb[3]`, the fixed column `x`, and the public value 7 as `s` and as `x`.
#[derive(Drop)]
struct Tables {
    columns: Vec<Vec<u8>>,
    preprocessed: Vec<Vec<u8>>,
    defined: Vec<Defined>,
}

fn some_tables(alloc: Global) -> Result<Tables, AllocError> {
    let columns = Vec::from_array(
        alloc,
        [
            Vec::from_slice(alloc, b"a")?,
            Vec::from_slice(alloc, b"limb[3]")?,
        ],
    )?;
    let preprocessed = Vec::from_array(alloc, [Vec::from_slice(alloc, b"x")?])?;
    let first = Defined {
        name: Vec::from_slice(alloc, b"s")?,
        value: Value::Public(7),
    };
    let second = Defined {
        name: Vec::from_slice(alloc, b"x")?,
        value: Value::Public(8),
    };
    let defined = Vec::from_array(alloc, [first, second])?;
    Ok(Tables {
        columns,
        preprocessed,
        defined,
    })
}

fn scope<'a>(text: &'a [u8], tables: &'a Tables) -> Scope<'a> {
    Scope {
        text,
        columns: tables.columns.as_slice(),
        preprocessed: tables.preprocessed.as_slice(),
        defined: tables.defined.as_slice(),
    }
}

/// How many nodes an expression may have in most of these tests.
const ROOM: usize = 65_536;

/// The number of an expression and the room that it leaves, or the refusal of a name in it. `None`
/// where it is not read.
fn meaning(alloc: Global, text: &[u8], room: usize) -> Option<Result<(u64, usize), NameFault>> {
    let tables = some_tables(alloc).ok()?;
    let found = tokens(alloc, text).ok()?;
    let (tree, _) = read_formula(alloc, &found).ok()?;
    match value_of(alloc, &scope(text, &tables), &tree, room) {
        Ok((value, left)) => Some(Ok((number(&value), left))),
        Err(fault) => Some(Err(fault)),
    }
}

fn means(alloc: Global, text: &[u8], wanted: u64) -> bool {
    match meaning(alloc, text, ROOM) {
        Some(Ok((found, _))) => found == wanted,
        _ => false,
    }
}

/// Whether an expression leaves this of some room.
fn leaves(alloc: Global, text: &[u8], room: usize, wanted: usize) -> bool {
    match meaning(alloc, text, room) {
        Some(Ok((_, left))) => left == wanted,
        _ => false,
    }
}

fn unknown(alloc: Global, text: &[u8], at: usize, why: NameWhy) -> bool {
    match meaning(alloc, text, ROOM) {
        Some(Err(fault)) => fault == NameFault::Refused(NameRefusal { at, why }),
        _ => false,
    }
}

#[test]
fn expressions(rt: HostRuntime) {
    let alloc = rt.alloc();
    holds(&rt, "columns", means(alloc, b"a + 2 * next(limb[3])", 3202));
    holds(
        &rt,
        "fixed columns",
        means(alloc, b"pre.x^2 - next(pre.x)", 3997900),
    );
    holds(&rt, "definitions", means(alloc, b"-s + x", 1));
    holds(
        &rt,
        "selectors",
        means(
            alloc,
            b"is_first_row + is_last_row * is_transition",
            16016002,
        ),
    );
    holds(
        &rt,
        "a name",
        unknown(alloc, b"a + b", 4, NameWhy::UnknownName),
    );
    holds(
        &rt,
        "a fixed column",
        unknown(alloc, b"pre.a", 0, NameWhy::UnknownName),
    );
    holds(
        &rt,
        "a next row",
        unknown(alloc, b"next(s)", 5, NameWhy::UnknownColumn),
    );
}

#[test]
fn sizes(rt: HostRuntime) {
    let alloc = rt.alloc();
    let power = b"((a^64)^64)^64";
    holds(
        &rt,
        "a power",
        unknown(alloc, power, 2, NameWhy::LargeExpression),
    );
    let sum =
        b"--((a^64)^64+(a^64)^64+(a^64)^64+(a^64)^64+(a^64)^64+(a^64)^64+(a^64)^64+(a^64)^64)";
    holds(&rt, "65,536 nodes", means(alloc, &sum[1..], 0));
    holds(&rt, "no room left", leaves(alloc, &sum[1..], ROOM, 0));
    holds(
        &rt,
        "one more",
        unknown(alloc, sum, 74, NameWhy::LargeExpression),
    );
    holds(&rt, "a cell", leaves(alloc, b"next(a)", 1, 0));
    holds(&rt, "a cube", leaves(alloc, b"-x^3 + 1", 20, 12));
}

/// The number of a copy of `next(limb[3]) - 2 * pre.x`.
fn copied(alloc: Global) -> Result<u64, AllocError> {
    let cell = Value::Main {
        offset: 1,
        column: 1,
    };
    let fixed = Value::Preprocessed {
        offset: 0,
        column: 0,
    };
    let twice = Value::Product(Box::new(alloc, Value::Number(2))?, Box::new(alloc, fixed)?);
    let value = Value::Difference(Box::new(alloc, cell)?, Box::new(alloc, twice)?);
    Ok(number(&copy_of(alloc, &value)?))
}

#[test]
fn copies(rt: HostRuntime) {
    let minus = 0u64.wrapping_sub(2899);
    holds(&rt, "a difference", copied(rt.alloc()) == Ok(minus));
}

/// Whether these are the bytes of a text from `start` up to `end`.
fn stands(text: &[u8], start: usize, end: usize, wanted: &[u8]) -> bool {
    bytes_of(text, Span { start, end }) == wanted
}

#[test]
fn spans(rt: HostRuntime) {
    let text = b"air t {";
    holds(&rt, "a name", stands(text, 4, 5, b"t"));
    holds(&rt, "the end", stands(text, 6, 7, b"{"));
    holds(&rt, "nothing", stands(text, 3, 3, b""));
    holds(&rt, "past the end", stands(text, 6, 8, b""));
    holds(&rt, "back to front", stands(text, 3, 2, b""));
}

/// The first message of a text.
fn first_message(section: &SectionText) -> Option<&MessageText> {
    match section {
        SectionText::Air(air) => match &air.items.first()?.item {
            ItemText::Message(message) => Some(message),
            _ => None,
        },
        SectionText::Bus(_) => None,
    }
}

/// What a message sends, and the room that it leaves.
type Sent = (NamedMessage, usize);

/// What the first message of a text sends, or why not. `None` where the text is not read.
fn sent(alloc: Global, text: &[u8], room: usize) -> Option<Result<Sent, NameFault>> {
    let tables = some_tables(alloc).ok()?;
    let batch = read_batch(alloc, text).ok()?;
    let message = first_message(batch.sections.first()?)?;
    Some(named_message(alloc, &scope(text, &tables), message, room))
}

/// Whether the first message of a text has these values in its tuple, this count and this weight.
fn sends(alloc: Global, text: &[u8], tuple: &[u64], count: u64, weight: u64) -> bool {
    let Some(Ok((message, _))) = sent(alloc, text, ROOM) else {
        return false;
    };
    let mut same = message.tuple.len() == tuple.len();
    for (value, wanted) in message.tuple.iter().zip(tuple) {
        same = same && number(value) == *wanted;
    }
    same && number(&message.count) == count && message.weight == weight
}

#[test]
fn messages(rt: HostRuntime) {
    let alloc = rt.alloc();
    let minus = 0u64.wrapping_sub(1000);
    holds(
        &rt,
        "a query",
        sends(alloc, b"air t {\nquery b(a, 2)\n}", &[1000, 2], 1, 1),
    );
    holds(
        &rt,
        "a send",
        sends(alloc, b"air t {\nsend b(a) times 5\n}", &[1000], 5, 5),
    );
    let most = b"air t {\nreceive b(1) times a at most 3\n}";
    holds(&rt, "a receipt", sends(alloc, most, &[1], minus, 3));
    holds(
        &rt,
        "a provision",
        sends(alloc, b"air t {\nprovide b(1) times a\n}", &[1], minus, 0),
    );
    let text = b"air t {\n  query b(1) times a\n}";
    holds(
        &rt,
        "no weight",
        is_refused(alloc, text, ROOM, 10, NameWhy::NoWeight),
    );
}

/// Whether the first message of a text is refused at this byte, in room for so many nodes.
fn is_refused(alloc: Global, text: &[u8], room: usize, at: usize, why: NameWhy) -> bool {
    match sent(alloc, text, room) {
        Some(Err(fault)) => fault == NameFault::Refused(NameRefusal { at, why }),
        _ => false,
    }
}

/// Whether the first message of a text leaves this of some room.
fn message_leaves(alloc: Global, text: &[u8], room: usize, wanted: usize) -> bool {
    match sent(alloc, text, room) {
        Some(Ok((_, left))) => left == wanted,
        _ => false,
    }
}

#[test]
fn rooms(rt: HostRuntime) {
    let alloc = rt.alloc();
    // three nodes, three and one; the sign of the count is not counted
    let text = b"air t {\nreceive b(a + 1, 2 * a) times a at most 3\n}";
    holds(&rt, "all of it", message_leaves(alloc, text, 7, 0));
    holds(&rt, "some of it", message_leaves(alloc, text, 9, 2));
    holds(
        &rt,
        "none for the count",
        is_refused(alloc, text, 6, 38, NameWhy::LargeExpression),
    );
    holds(
        &rt,
        "none for the second value",
        is_refused(alloc, text, 5, 29, NameWhy::LargeExpression),
    );
    let once = b"air t {\nprovide b(a)\n}";
    holds(&rt, "once", message_leaves(alloc, once, 1, 0));
}
