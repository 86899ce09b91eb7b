use crate::cases::holds;
use crate::machines::{Claim, Machine};
use air::{
    Air, AirError, AirLayout, BaseLeaf, SymbolicAirBuilder, SymbolicExpression,
    SymbolicExpressionExt,
};
use field::{ExtensionField, F7, Field};
use std::alloc::Global;
use std::process::Abort;

pub type Recorder = SymbolicAirBuilder<F7, F7>;

/// The constraints of a machine over a layout. Over any field, since the recorder's types cost more to
/// prove over a given one.
///
/// A recorder is let go of by `drop`, which is one call: at the end of a scope each of its many fields
/// would be dropped there, and proved there.
pub fn recorded<F: Field, EF: ExtensionField<F>>(
    alloc: Global,
    machine: &Machine,
    layout: AirLayout,
) -> Result<SymbolicAirBuilder<F, EF>, AirError> {
    let mut recorder = SymbolicAirBuilder::new(alloc, layout)?;
    match machine.eval(alloc, &mut recorder) {
        Ok(()) => Ok(recorder),
        Err(error) => {
            drop(recorder);
            Err(error)
        }
    }
}

/// The three filtered constraints over two columns.
pub fn record_selected(alloc: Global) -> Result<Recorder, AirError> {
    let machine = Machine {
        width: 2,
        num_public_values: 0,
        claim: Claim::IsSelected,
    };
    recorded(
        alloc,
        &machine,
        AirLayout::from_air::<F7, Machine>(&machine),
    )
}

/// The selector of the constraint at this index, which it is multiplied by.
fn selector_at(recorder: &Recorder, index: usize) -> Option<BaseLeaf<F7>> {
    match recorder.base_constraints().get(index)? {
        SymbolicExpression::Mul(selector, _) => match &**selector {
            SymbolicExpression::Leaf(leaf) => Some(*leaf),
            _ => None,
        },
        _ => None,
    }
}

/// Whether constraints were recorded at these indices of the one order, and no others.
fn has_indices(recorder: &Recorder, base: &[usize], extension: &[usize]) -> bool {
    let indices = recorder.constraint_layout();
    indices.base_indices.as_slice() == base && indices.ext_indices.as_slice() == extension
}

/// Ends the test where the filtered constraints are recorded in another order or with other selectors.
fn is_in_order(rt: &impl Abort, recorder: &Recorder) {
    holds(rt, "places", has_indices(recorder, &[0, 1, 2], &[]));
    holds(rt, "no other", recorder.extension_constraints().is_empty());
    let (first, last) = (selector_at(recorder, 0), selector_at(recorder, 1));
    let step = selector_at(recorder, 2);
    holds(rt, "first row", matches!(first, Some(BaseLeaf::IsFirstRow)));
    holds(rt, "last row", matches!(last, Some(BaseLeaf::IsLastRow)));
    holds(
        rt,
        "transition",
        matches!(step, Some(BaseLeaf::IsTransition)),
    );
}

#[test]
fn filters_put_the_selector_first(rt: HostRuntime) {
    match record_selected(rt.alloc()) {
        Ok(recorder) => {
            is_in_order(&rt, &recorder);
            drop(recorder);
        }
        Err(_) => holds(&rt, "the machine is recorded", false),
    }
}

fn record_both_kinds(alloc: Global) -> Result<Recorder, AirError> {
    let machine = Machine {
        width: 0,
        num_public_values: 0,
        claim: Claim::IsOfBothKinds,
    };
    let layout = AirLayout {
        preprocessed_width: 1,
        main_width: 0,
        num_public_values: 0,
        permutation_width: 2,
        num_permutation_challenges: 2,
        num_permutation_values: 1,
    };
    recorded(alloc, &machine, layout)
}

/// Ends the test where both kinds of constraints are not recorded in their one order.
fn has_both_kinds(rt: &impl Abort, recorder: &Recorder) {
    let constraints = recorder.extension_constraints();
    let (first, second) = (constraints.first(), constraints.get(1));
    holds(rt, "places", has_indices(recorder, &[1], &[0, 2, 3]));
    holds(
        rt,
        "a cell",
        matches!(first, Some(SymbolicExpressionExt::Leaf(_))),
    );
    holds(
        rt,
        "a filter",
        matches!(second, Some(SymbolicExpressionExt::Mul(_, _))),
    );
}

#[test]
fn both_kinds_of_constraints_share_one_order(rt: HostRuntime) {
    match record_both_kinds(rt.alloc()) {
        Ok(recorder) => {
            has_both_kinds(&rt, &recorder);
            drop(recorder);
        }
        Err(_) => holds(&rt, "the machine is recorded", false),
    }
}
