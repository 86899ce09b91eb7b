//! What texts say over a field.
use super::holds;
use air_expressions::{BaseEntry, BaseLeaf, SymbolicExpression};
use field::{F7, PrimeCharacteristicRing};
use field_goldilocks::{Goldilocks, Goldilocks2};
use field_monty::{BabyBear, BabyBear4};
use field_words::{Challenge, elements_of, number};
use language::{SectionText, Table, read_batch, read_table};
use language_meaning::{
    NamedAir, Value, expression_of, has_whole_rows, lookups_of, lookups_over, matrix_of,
};
use lookup_model::{Kind, Lookup};
use std::alloc::{AllocError, Global};

fn baby_bear(number: u64) -> BabyBear {
    BabyBear::from_u64(number)
}

// 2013265921 + 5 is 5, and 2^64 - 1 = 9162596893 * 2013265921 + 1172168162.
#[test]
fn numbers(rt: HostRuntime) {
    let of = |number| baby_bear(number).as_canonical_u32();
    holds(
        &rt,
        "small ones",
        of(0) == 0 && of(2_013_265_920) == 2_013_265_920,
    );
    holds(&rt, "one above", of(2_013_265_926) == 5);
    holds(&rt, "the greatest", of(u64::MAX) == 1_172_168_162);
    let Ok(elements) = elements_of::<BabyBear>(rt.alloc(), &[7, 2_013_265_921]) else {
        return holds(&rt, "memory", false);
    };
    holds(
        &rt,
        "both",
        elements.as_slice() == [baby_bear(7), baby_bear(0)].as_slice(),
    );
}

/// The expression of `2 - next(column 3)`.
fn difference(alloc: Global) -> Result<SymbolicExpression<BabyBear>, AllocError> {
    let cell = Box::new(
        alloc,
        Value::Main {
            offset: 1,
            column: 3,
        },
    )?;
    let value = Value::Difference(Box::new(alloc, Value::Number(2))?, cell);
    expression_of(alloc, &value)
}

fn is_cell(leaf: &BaseLeaf<BabyBear>, entry: BaseEntry, index: usize) -> bool {
    match leaf {
        BaseLeaf::Variable(cell) => cell.entry == entry && cell.index == index,
        _ => false,
    }
}

#[test]
fn expressions(rt: HostRuntime) {
    let Ok(SymbolicExpression::Sub(left, right)) = difference(rt.alloc()) else {
        return holds(&rt, "a difference", false);
    };
    let (SymbolicExpression::Leaf(left), SymbolicExpression::Leaf(right)) = (&*left, &*right) else {
        return holds(&rt, "two leaves", false);
    };
    holds(
        &rt,
        "a number",
        matches!(left, BaseLeaf::Constant(value) if *value == baby_bear(2)),
    );
    holds(
        &rt,
        "a cell",
        is_cell(right, BaseEntry::Main { offset: 1 }, 3),
    );
}

const TEXT: &[u8] = b"air a {
send b(x) times 3
exclusive {
when x query local(1) times x at most 5
when 0 query local(y) times x at most 4
}
}";

/// What the AIR says over the columns `x` and `y`.
fn said(alloc: Global) -> Option<NamedAir> {
    let batch = read_batch(alloc, TEXT).ok()?;
    let table = read_table(alloc, b"x,y\n", 7).ok()?;
    let SectionText::Air(air) = batch.sections.first()? else {
        return None;
    };
    lookups_of(alloc, TEXT, &batch, air, &table.names, &[], 100).ok()
}

/// Whether the first lookup is on the bus `b` with weight 3, and the second one on none with the
/// greater of both weights, a flag for each message, and in the next column.
fn are_both(lookups: &[Lookup<BabyBear>]) -> bool {
    let [sent, local] = lookups else {
        return false;
    };
    let flags = match &local.flags {
        Some(flags) => flags.len(),
        None => 0,
    };
    matches!(&sent.kind, Kind::Global(name) if name.as_str() == "b")
        && matches!(local.kind, Kind::Local)
        && (sent.count_weight, local.count_weight) == (3, 5)
        && (local.column, local.elements.len(), flags) == (1, 2, 2)
}

#[test]
fn lookups(rt: HostRuntime) {
    let Some(said) = said(rt.alloc()) else {
        return holds(&rt, "the text is read", false);
    };
    match lookups_over::<BabyBear>(rt.alloc(), TEXT, &said.lookups) {
        Ok(lookups) => holds(&rt, "both lookups", are_both(&lookups)),
        Err(_) => holds(&rt, "two lookups", false),
    }
}

#[test]
fn words(rt: HostRuntime) {
    holds(&rt, "zeros", number(b"007", 8) == Some(7));
    holds(&rt, "not below", number(b"8", 8).is_none());
    holds(&rt, "no digit", number(b"+7", 8).is_none());
    holds(&rt, "of F7", F7::from_word(b"6") == Some(F7::new(6)));
    let pair = Goldilocks2::new([Goldilocks::from_u64(3), Goldilocks::from_u64(1)]);
    holds(&rt, "two", Goldilocks2::from_word(b"3,1") == Some(pair));
    holds(
        &rt,
        "three of four",
        BabyBear4::from_word(b"1,2,3").is_none(),
    );
}

/// The table of two columns with these numbers.
fn table(alloc: Global, numbers: &[u64]) -> Result<Table, AllocError> {
    let names = [Vec::from_slice(alloc, b"x")?, Vec::from_slice(alloc, b"y")?];
    Ok(Table {
        names: Vec::from_array(alloc, names)?,
        cells: Vec::from_slice(alloc, numbers)?,
    })
}

#[test]
fn traces(rt: HostRuntime) {
    let alloc = rt.alloc();
    let (Ok(whole), Ok(half), Ok(none)) = (
        table(alloc, &[1, 2, 3, 4]),
        table(alloc, &[1, 2, 3]),
        table(alloc, &[]),
    ) else {
        return holds(&rt, "memory", false);
    };
    holds(&rt, "half a row", !has_whole_rows(&half));
    holds(&rt, "no row", !has_whole_rows(&none));
    if !has_whole_rows(&whole) {
        return holds(&rt, "two rows", false);
    }
    match matrix_of::<BabyBear>(alloc, &whole) {
        Ok(matrix) => holds(
            &rt,
            "two by two",
            (matrix.height(), matrix.width()) == (2, 2),
        ),
        Err(_) => holds(&rt, "memory", false),
    }
}
