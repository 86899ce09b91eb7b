//! The lookups and the constraints of one evaluation of an AIR.
ghost use Rattle.std.specs.Prelude.{◌≡◌, ◌<◌, OnOk};

use super::{IS_REAL, IS_WRITE, holds};
use air::{Air, AirBuilder, AirError, BaseAir, Expression, current_cell};
use field::{F7, PrimeCharacteristicRing};
use lookup::{Count, InteractionBuilder, LookupBus};
use lookup_enforced::ConstrainedLookups;
use std::alloc::Global;

/// Columns `is_real is_write address`: both bits are asserted, and the address is queried on the bus `memory`.
#[derive(Clone, Copy)]
struct MemoryAir;

impl<F> BaseAir<F> for MemoryAir {
    ghost width = { λ _. 3 };

    ghost preprocessed_width = { λ _. 0 };

    ghost num_public_values = { λ _. 0 };

    fn width(&self) -> usize {
        3
    }

    fn preprocessed_width(&self) -> usize {
        0
    }

    fn num_public_values(&self) -> usize {
        0
    }
}

impl<AB: InteractionBuilder> Air<AB> for MemoryAir {
    ghost evaluates = { λ _ before answer after. OnOk answer (AB.layout after ≡ AB.layout before) };

    fn eval(&self, alloc: Global, builder: &mut AB) -> Result<(), AirError> {
        assert_bit(alloc, builder, IS_REAL)?;
        assert_bit(alloc, builder, IS_WRITE)?;
        let mut key = Vec::new(alloc);
        key.push(current_cell(alloc, builder, 3, 2)?)?;
        LookupBus::new("memory").lookup_key(alloc, builder, key, Count::from(1))
    }

    ghost keeps_layout = { λ air before after h. h };
}

/// Asserts that a cell is zero or one.
fn assert_bit<AB: AirBuilder>(
    alloc: Global,
    builder: &mut AB,
    column: usize,
) -> Result<(), AirError>
    requires { column < 3 }
    ensures { OnOk result (AB.layout builder.new ≡ AB.layout builder.old) }
{
    let bit = current_cell(alloc, builder, 3, column)?;
    let one = AB::Expr::constant(AB::F::ONE);
    let less = current_cell(alloc, builder, 3, column)?.sub(alloc, one)?;
    builder.assert_zero(alloc, bit.mul(alloc, less)?)
}

#[test]
fn both_of_one_evaluation(rt: HostRuntime) {
    let alloc = rt.alloc();
    let found = ConstrainedLookups::<F7>::from_air::<F7, MemoryAir>(alloc, &MemoryAir);
    let found = found.expect(&rt, "recorded");
    holds(&rt, "two assertions", found.constraints.len() == 2);
    holds(&rt, "one query", found.lookups.as_slice().len() == 1);
}
