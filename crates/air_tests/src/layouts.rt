use crate::cases::holds;
use crate::errors::{mismatch, prints};
use crate::traces::trace_of;
use air_expressions::{
    AirError, AirLayout, BaseAir, BaseEntry, BaseLeaf, LayoutPart, SymbolicExpression,
    SymbolicVariable,
};
use field::F7;
use std::alloc::Global;

/// Two columns and one public value.
struct Pairs;

impl BaseAir<F7> for Pairs {
    ghost width = { λ _. 2 };

    ghost preprocessed_width = { λ _. 0 };

    ghost num_public_values = { λ _. 1 };

    fn width(&self) -> usize {
        2
    }

    fn preprocessed_width(&self) -> usize {
        0
    }

    fn num_public_values(&self) -> usize {
        1
    }
}

/// So many columns.
struct Columns(usize);

impl<F> BaseAir<F> for Columns {
    ghost width = { λ a. a.0 };

    ghost preprocessed_width = { λ _. 0 };

    ghost num_public_values = { λ _. 0 };

    fn width(&self) -> usize {
        self.0
    }

    fn preprocessed_width(&self) -> usize {
        0
    }

    fn num_public_values(&self) -> usize {
        0
    }
}

/// The layout of these widths, with nothing of a permutation argument.
fn layout_of(main: usize, preprocessed: usize, public_values: usize) -> AirLayout {
    AirLayout {
        main_width: main,
        preprocessed_width: preprocessed,
        num_public_values: public_values,
        ..AirLayout::default()
    }
}

#[test]
fn an_air_has_a_layout(rt: HostRuntime) {
    let layout = AirLayout::from_air::<F7, Pairs>(&Pairs);
    holds(&rt, "its widths", layout == layout_of(2, 0, 1));
    holds(&rt, "no mismatch", amiss(layout) == Ok(()));
}

/// What is first amiss in a layout for `Pairs`.
fn amiss(layout: AirLayout) -> Result<(), AirError> {
    layout.validate_against_air::<F7, Pairs>(&Pairs)
}

#[test]
fn layouts_are_compared_with_airs(rt: HostRuntime) {
    // The main width is looked at first, then the preprocessed one.
    let main = mismatch(LayoutPart::Main, 2, 1);
    let preprocessed = mismatch(LayoutPart::Preprocessed, 0, 1);
    let public_values = mismatch(LayoutPart::PublicValues, 1, 0);
    holds(&rt, "main", amiss(layout_of(1, 1, 0)) == Err(main));
    holds(
        &rt,
        "preprocessed",
        amiss(layout_of(2, 1, 0)) == Err(preprocessed),
    );
    holds(
        &rt,
        "public values",
        amiss(layout_of(2, 0, 0)) == Err(public_values),
    );
}

/// What is amiss in a layout of two columns for an AIR of three.
fn narrow() -> Result<(), AirError> {
    layout_of(2, 0, 0).validate_against_air::<F7, Columns>(&Columns(3))
}

#[test]
fn a_narrow_layout_is_named(rt: HostRuntime) {
    let Err(error) = narrow() else {
        return holds(&rt, "a narrow layout is refused", false);
    };
    let text = "main width: layout says 2, the AIR has 3";
    holds(&rt, "main", error == mismatch(LayoutPart::Main, 3, 2));
    prints(&rt, rt.alloc(), error, text);
}

fn layout_of_pairs(alloc: Global) -> Option<AirLayout> {
    let pairs = trace_of(alloc, &[1, 2], 2)?;
    Some(AirLayout::of_traces(&pairs, Some(&pairs), &[F7::new(1)]))
}

#[test]
fn traces_have_a_layout(rt: HostRuntime) {
    let layout = layout_of_pairs(rt.alloc());
    holds(&rt, "its widths", layout == Some(layout_of(2, 2, 1)));
}

/// Whether a variable is within a layout of two columns and one public value.
fn fits(entry: BaseEntry, index: usize) -> bool {
    let variable = SymbolicVariable::new(entry, index);
    let expression: SymbolicExpression<F7> = SymbolicExpression::Leaf(BaseLeaf::Variable(variable));
    expression.fits(&layout_of(2, 0, 1))
}

#[test]
fn expressions_fit_a_layout_or_not(rt: HostRuntime) {
    holds(&rt, "next row", fits(BaseEntry::Main { offset: 1 }, 1));
    holds(
        &rt,
        "second next row",
        !fits(BaseEntry::Main { offset: 2 }, 1),
    );
    holds(&rt, "third column", !fits(BaseEntry::Main { offset: 0 }, 2));
    holds(
        &rt,
        "preprocessed",
        !fits(BaseEntry::Preprocessed { offset: 0 }, 0),
    );
    holds(&rt, "public value", fits(BaseEntry::Public, 0));
}
