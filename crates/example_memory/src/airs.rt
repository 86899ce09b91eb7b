//! The AIRs of the memory check, which say what each row looks up.
ghost use Rattle.std.specs.Prelude.{All, IfErr, IfOk, MatchResult};
ghost use Rattle.air.specs.Cell.{IsCellsRefusal};
ghost use Rattle.air_expressions.specs.StaysWithin.{StaysWithin};
ghost use Rattle.example_memory.specs.Pushes.{IsRefusedAfter};

use air::{Air, AirBuilder, AirError, BaseAir, Expression, current_cell, current_cells};
use field::PrimeCharacteristicRing;
use lookup::{Count, InteractionBuilder, LookupBus, PermutationCheckBus};
use std::alloc::Global;

/// Columns `address old_value old_time new_value new_time`: a row accesses an address.
///
/// On the bus `memory` it receives what the access before it left there,
/// `[address, old_value, old_time]`, and sends what it leaves itself,
/// `[address, new_value, new_time]`. A row that only reads has the same value twice. On the bus
/// `gaps` it queries `[new_time - old_time - 1]`, so that each access to an address is later than
/// the one before it.
#[derive(Clone, Copy, Debug)]
pub struct AccessesAir;

impl<F> BaseAir<F> for AccessesAir {
    ghost width = { λ _. 5 };

    ghost preprocessed_width = { λ _. 0 };

    ghost num_public_values = { λ _. 0 };

    fn width(&self) -> usize {
        5
    }

    fn preprocessed_width(&self) -> usize {
        0
    }

    fn num_public_values(&self) -> usize {
        0
    }
}

impl<AB: InteractionBuilder> Air<AB> for AccessesAir {
    ghost evaluates = { λ _ before answer after. MatchResult answer
        (λ _. StaysWithin AB.AirBuilder before after)
        (λ e. IsRefusedAfter AB.pushes AB.refuses_push AB.window_refuses AB.layout 5 before e
        after) };

    fn eval(&self, alloc: Global, builder: &mut AB) -> Result<(), AirError> {
        let memory = PermutationCheckBus::new("memory");
        let found = current_cells(alloc, builder, 5, &[0, 1, 2])?;
        memory.receive(alloc, builder, found, Count::from(1))?;
        let left = current_cells(alloc, builder, 5, &[0, 3, 4])?;
        memory.send(alloc, builder, left, Count::from(1))?;
        let gap = gap(alloc, builder)?;
        LookupBus::new("gaps").lookup_key(alloc, builder, gap, Count::from(1))
    }

    ghost keeps_layout = { λ air before after h. h.0 };
}

/// The tuple `[new_time - old_time - 1]` of an access.
fn gap<AB: AirBuilder>(alloc: Global, builder: &AB) -> Result<Vec<AB::Expr>, AirError>
    ensures within { IfOk result (λ tuple. All (AB.Expr.within (AB.layout builder.now)) tuple.items) }
    ensures refused { IfErr result (IsCellsRefusal AB.window_refuses AB.layout 5 builder.now) }
{
    let old_time = current_cell(alloc, builder, 5, 2)?;
    let new_time = current_cell(alloc, builder, 5, 4)?;
    let passed = new_time.sub(alloc, old_time)?;
    let mut tuple = Vec::new(alloc);
    tuple.push(passed.sub(alloc, AB::Expr::constant(AB::F::ONE))?)?;
    Ok(tuple)
}

/// Columns `address initial_value final_value final_time`: a row has an address of the memory.
///
/// On the bus `memory` it sends what stands there at time 0, `[address, initial_value, 0]`, and
/// receives what the last access left, `[address, final_value, final_time]`.
#[derive(Clone, Copy, Debug)]
pub struct BoundaryAir;

impl<F> BaseAir<F> for BoundaryAir {
    ghost width = { λ _. 4 };

    ghost preprocessed_width = { λ _. 0 };

    ghost num_public_values = { λ _. 0 };

    fn width(&self) -> usize {
        4
    }

    fn preprocessed_width(&self) -> usize {
        0
    }

    fn num_public_values(&self) -> usize {
        0
    }
}

impl<AB: InteractionBuilder> Air<AB> for BoundaryAir {
    ghost evaluates = { λ _ before answer after. MatchResult answer
        (λ _. StaysWithin AB.AirBuilder before after)
        (λ e. IsRefusedAfter AB.pushes AB.refuses_push AB.window_refuses AB.layout 4 before e
        after) };

    fn eval(&self, alloc: Global, builder: &mut AB) -> Result<(), AirError> {
        let memory = PermutationCheckBus::new("memory");
        let initial = initial(alloc, builder)?;
        memory.send(alloc, builder, initial, Count::from(1))?;
        let last = current_cells(alloc, builder, 4, &[0, 2, 3])?;
        memory.receive(alloc, builder, last, Count::from(1))
    }

    ghost keeps_layout = { λ air before after h. h.0 };
}

/// The tuple `[address, initial_value, 0]` of an address.
fn initial<AB: AirBuilder>(alloc: Global, builder: &AB) -> Result<Vec<AB::Expr>, AirError>
    ensures within { IfOk result (λ tuple. All (AB.Expr.within (AB.layout builder.now)) tuple.items) }
    ensures refused { IfErr result (IsCellsRefusal AB.window_refuses AB.layout 4 builder.now) }
{
    let mut tuple = current_cells(alloc, builder, 4, &[0, 1])?;
    tuple.push(AB::Expr::constant(AB::F::ZERO))?;
    Ok(tuple)
}

/// Columns `gap uses`: a row provides `[gap]` on the bus `gaps`, used that often.
#[derive(Clone, Copy, Debug)]
pub struct GapsAir;

impl<F> BaseAir<F> for GapsAir {
    ghost width = { λ _. 2 };

    ghost preprocessed_width = { λ _. 0 };

    ghost num_public_values = { λ _. 0 };

    fn width(&self) -> usize {
        2
    }

    fn preprocessed_width(&self) -> usize {
        0
    }

    fn num_public_values(&self) -> usize {
        0
    }
}

impl<AB: InteractionBuilder> Air<AB> for GapsAir {
    ghost evaluates = { λ _ before answer after. MatchResult answer
        (λ _. StaysWithin AB.AirBuilder before after)
        (λ e. IsRefusedAfter AB.pushes AB.refuses_push AB.window_refuses AB.layout 2 before e
        after) };

    fn eval(&self, alloc: Global, builder: &mut AB) -> Result<(), AirError> {
        let entry = current_cells(alloc, builder, 2, &[0])?;
        let uses = current_cell(alloc, builder, 2, 1)?;
        LookupBus::new("gaps").table_entry(alloc, builder, entry, uses)
    }

    ghost keeps_layout = { λ air before after h. h.0 };
}
