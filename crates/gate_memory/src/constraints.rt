//! Calls on the constraints of AIRs.
use crate::sets::set;
use air::{BaseEntry, Expression, SymbolicExpression, SymbolicVariable};
use batch_enforced::EnforcedPlan;
use field::F7;
use gate_memory_builders::airs::EachRecord;
use gate_memory_builders::inputs::{LOCAL, LOOKUPS, alone, trace};
use gate_memory_builders::show::{Out, input, show};
use lookup_enforced::{
    ConstrainedLookups, constraints_over_fixed, enforcements, fixed_constraints,
};
use std::alloc::{AllocError, Global};

/// `f * f - f`, where `f` is the cell that is the flag of the lookups.
fn bit(alloc: Global) -> Result<SymbolicExpression<F7>, AllocError> {
    let flag = SymbolicVariable::<F7>::new(BaseEntry::Main { offset: 0 }, 2);
    let (one, other, less): (
        SymbolicExpression<F7>,
        SymbolicExpression<F7>,
        SymbolicExpression<F7>,
    ) = (flag.into(), flag.into(), flag.into());
    one.mul(alloc, other)?.sub(alloc, less)
}

/// The constraints of the one AIR.
fn constraints_of(alloc: Global, out: &mut Out) -> Option<Vec<SymbolicExpression<F7>>> {
    let constraint = input(out, bit(alloc))?;
    input(out, alone(alloc, constraint))
}

/// The call that makes a plan of an AIR whose constraints are these.
fn make_plan(alloc: Global, out: &mut Out, constraints: Vec<SymbolicExpression<F7>>) -> Option<()> {
    let set = set(alloc, out, LOOKUPS)?;
    let airs = input(out, alone(alloc, set))?;
    let two: &[usize] = &[2];
    let heights = input(out, Vec::from_slice(alloc, two))?;
    let lists = input(out, alone(alloc, constraints))?;
    let answer = EnforcedPlan::new(alloc, airs, heights, lists);
    show(out, "EnforcedPlan::new", answer);
    Some(())
}

/// The call that checks the weights of a plan of one AIR, whose one lookup has a query and a provided entry.
fn check_weights(alloc: Global, out: &mut Out) -> Option<()> {
    let set = set(alloc, out, LOCAL)?;
    let airs = input(out, alone(alloc, set))?;
    let two: &[usize] = &[2];
    let heights = input(out, Vec::from_slice(alloc, two))?;
    let lists = input(out, alone(alloc, Vec::new(alloc)))?;
    let plan = input(out, EnforcedPlan::<F7>::new(alloc, airs, heights, lists))?;
    let kinds: &[bool] = &[true, false];
    let lookup = input(out, Vec::from_slice(alloc, kinds))?;
    let air = input(out, alone(alloc, lookup))?;
    let queries = input(out, alone(alloc, air))?;
    let answer = plan.check_weights(alloc, queries.as_slice());
    show(out, "EnforcedPlan::check_weights", answer);
    Some(())
}

/// The calls that take memory: extraction, what is enforced, plans that are accepted and refused, and what
/// a fixed trace says.
pub fn constraints(alloc: Global, out: &mut Out) {
    let both = ConstrainedLookups::<F7>::from_air::<F7, EachRecord>(alloc, &EachRecord);
    show(out, "ConstrainedLookups::from_air", both);
    if let Some(set) = set(alloc, out, LOOKUPS) {
        if let Some(list) = constraints_of(alloc, out) {
            let shown = enforcements(alloc, list.as_slice(), set.as_slice(), 2);
            show(out, "enforcements", shown);
        }
    }
    if let Some(list) = constraints_of(alloc, out) {
        let _ = make_plan(alloc, out, list);
    }
    let _ = make_plan(alloc, out, Vec::new(alloc));
    let _ = check_weights(alloc, out);
    if let Some(fixed) = trace::<F7>(alloc, out, &[1, 0, 0, 1], 2) {
        let found = fixed_constraints(alloc, &fixed, &[0, 1]);
        show(out, "fixed_constraints", found);
        if let Some(list) = constraints_of(alloc, out) {
            if let Some(set) = set(alloc, out, LOOKUPS) {
                let all = constraints_over_fixed(alloc, &list, set.as_slice(), &fixed);
                show(out, "constraints_over_fixed", all);
            }
        }
    }
}
