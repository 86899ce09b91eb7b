//! Whether the constraints of AIRs are zero on all rows of their traces.
ghost use Rattle.std.specs.Prelude.{◌≡◌, ◌↔◌, All, IfOk, IsTrue, None};
ghost use Rattle.std.specs.List.{AllZip};
ghost use Rattle.check_judge.specs.Airs.{AreFittingAirs, IsFittingAir};
ghost use Rattle.check_judge.specs.Constraints.{IsChecked, over_constrained};

use crate::airs::AirOver;
use air::Traces;
use air_constraints::{check_constraints, value_on_row};
use field::Field;
use std::alloc::{AllocError, Global};

/// The first row of an AIR on which a constraint is not zero, and the first such constraint on it. Both count
/// from 0.
#[derive(Debug, Clone, Copy)]
pub struct ConstraintFailure<F> {
    pub row: usize,
    pub constraint: usize,
    /// The value of the constraint on the row.
    pub value: F,
}

/// What is found of the constraints of each AIR: nothing where they are zero on all rows.
pub(crate) fn failures_of<F: Field>(
    alloc: Global,
    airs: &[AirOver<F>],
) -> Result<Vec<Option<ConstraintFailure<F>>>, AllocError>
    requires { AreFittingAirs airs.now }
    ensures { IfOk result (λ v. AllZip (λ air found. IsChecked F.ring (over_constrained air) found)
        airs.now v.items) }
{
    let mut failures = Vec::new(alloc);
    for index in 0..airs.len() {
        failures.push(failure_of(&airs[index]))?;
    }
    Ok(failures)
}

/// What is found of the constraints of an AIR.
fn failure_of<F: Field>(air: &AirOver<F>) -> Option<ConstraintFailure<F>>
    requires { IsFittingAir air.now }
    ensures { IsChecked F.ring (over_constrained air.now) result }
{
    let traces = Traces {
        main: &air.main,
        preprocessed: air.preprocessed.as_ref(),
        public_values: air.public_values.as_slice(),
    };
    match check_constraints(air.constraints.as_slice(), &traces) {
        Ok(()) => None,
        Err(fault) => Some(ConstraintFailure {
            row: fault.row,
            constraint: fault.constraint,
            value: value_on_row(&air.constraints[fault.constraint], &traces, fault.row),
        }),
    }
}

/// Whether nothing is found of the constraints of any AIR.
pub(crate) fn all_hold<F>(failures: &[Option<ConstraintFailure<F>>]) -> bool
    ensures { IsTrue result ↔ All (λ failure. failure ≡ None) failures.now }
{
    failures.iter().all(|failure| failure.is_none())
}
