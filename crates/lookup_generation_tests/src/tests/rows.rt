//! The builder that stands for one row with the next one.
use super::holds;
use air::{AirBuilder, AirError, judge};
use field::{F7, PrimeCharacteristicRing};
use lookup::traits::LookupTraceBuilder;
use lookup_model::{SetFlags, with_flag};
use matrix::{ViewPair, WindowAccess};
use std::alloc::Global;
use std::process::Abort;

type SmallBuilder<'a> = LookupTraceBuilder<'a, F7, F7>;

/// Whether the main trace has these rows.
fn has_rows(
    rt: &impl Abort,
    alloc: Global,
    builder: &SmallBuilder<'_>,
    current: &[F7],
    next: &[F7],
) -> bool {
    let window = builder.main(alloc).expect(rt, "memory");
    window.current_slice() == current && window.next_slice() == next
}

/// The selectors of the first row, the last row and a transition.
fn selectors(builder: &SmallBuilder<'_>) -> [F7; 3] {
    [
        builder.is_first_row(),
        builder.is_last_row(),
        builder.is_transition(),
    ]
}

/// The refusal of a value that is asserted to be zero.
fn refusal(alloc: Global, builder: &mut SmallBuilder<'_>, x: F7) -> Option<AirError> {
    builder.assert_zero(alloc, x).err()
}

#[test]
fn a_row_with_its_next_row(rt: HostRuntime) {
    let alloc = rt.alloc();
    let (top, bottom) = ([F7::new(2)], [F7::new(5)]);
    let main = ViewPair {
        top: top.as_slice(),
        bottom: bottom.as_slice(),
    };
    let nothing = ViewPair {
        top: &[],
        bottom: &[],
    };
    let challenges = [F7::new(1)];
    let mut builder = LookupTraceBuilder::new(main, nothing, &[], challenges.as_slice(), 2, 1);
    let has_rows = has_rows(&rt, alloc, &builder, top.as_slice(), bottom.as_slice());
    holds(&rt, "the rows", has_rows);
    holds(&rt, "its number", builder.row() == 1);
    let last = [F7::new(0), F7::new(1), F7::new(0)];
    holds(
        &rt,
        "the selectors of the last row",
        selectors(&builder) == last,
    );
    holds(
        &rt,
        "zero",
        refusal(alloc, &mut builder, F7::new(0)).is_none(),
    );
    let refused = refusal(alloc, &mut builder, F7::new(3));
    holds(
        &rt,
        "3 is not zero",
        refused == Some(AirError::Assertion { row: 1 }),
    );
}

#[test]
fn an_assertion_is_judged(rt: HostRuntime) {
    holds(&rt, "zero", judge(F7::new(0), 3).is_ok());
    let refused = judge(F7::new(1), 3).err();
    holds(&rt, "one", refused == Some(AirError::Assertion { row: 3 }));
}

#[test]
fn one_set_flag(rt: HostRuntime) {
    let set = with_flag(SetFlags::Nothing, 3, F7::new(1), 0, 0).ok();
    holds(&rt, "the fourth flag", set == Some(SetFlags::One(3)));
}
