//! The AIRs of a machine over the rows of its input.
ghost use Rattle.std.specs.Prelude.{◌≡◌, ◌≤◌, ◌+◌, IfOk, MatchResult, map};
ghost use Rattle.std.specs.List.{AllZip};
ghost use Rattle.lookup.specs.Lookups.{lookups_of};
ghost use Rattle.lookup_debug.specs.Contributions.{traced_of};
ghost use Rattle.example_machines.specs.Machines.{AreLookupsOf, machine_air_trace, airs_of, input_columns, first_column_of, width_of};
ghost use Rattle.batch.specs.Traces.{traces_of_main, view_of};
ghost use Rattle.example_machines.specs.internal.Traces.{IsTraceOf, traced_over};
ghost use Rattle.matrix.specs.Matrix.{height};

use crate::airs::MachineAir;
use crate::error::RunError;
use crate::machine::Machine;
use batch::BatchTrace;
use field::{ExtensionField, Field};
use lookup::debug_util::LookupDebugInstance;
use lookup::{LogUpGadget, LookupError, Lookups};
use matrix::RowMajorMatrix;
use std::alloc::{AllocError, Global};

/// An AIR of a machine: its lookups, and its trace.
#[derive(Debug, Drop)]
pub struct AirTrace<F> {
    lookups: Lookups<F>,
    main: RowMajorMatrix<F>,
}

/// The AIRs of a machine with their traces, in order.
///
/// Fails only when out of memory.
pub fn air_traces<F: Field, EF: ExtensionField<F>>(
    alloc: Global,
    machine: Machine,
    input: &RowMajorMatrix<F>,
) -> Result<Vec<AirTrace<F>>, RunError>
    requires { input.now.width ≡ input_columns machine }
    ensures { MatchResult result
        (λ traces. AllZip (IsTraceOf F.ring F.eq input.now) (airs_of machine) traces.items)
        (λ e. e ≡ RunError.Memory) }
{
    let mut traces = Vec::new(alloc);
    for air in machine.airs() {
        let lookups = match lookups_for::<F, EF>(alloc, *air) {
            Ok(lookups) => lookups,
            Err(_) => return Err(RunError::Memory),
        };
        let main = trace_for(alloc, *air, input)?;
        traces.push(AirTrace { lookups, main })?;
    }
    Ok(traces)
}

/// The greatest degree of the constraint of a packed column.
const MAX_DEGREE: usize = 3;

/// The lookups that an AIR records, packed: one, which fits the AIR's trace.
///
/// Fails only when out of memory.
fn lookups_for<F: Field, EF: ExtensionField<F>>(
    alloc: Global,
    air: MachineAir,
) -> Result<Lookups<F>, LookupError>
    ensures { MatchResult result
        (λ lookups. AreLookupsOf F.ring F.eq air (lookups_of lookups))
        (λ e. e ≡ LookupError.Memory) }
{
    let lookups = machine_air_lookups::<F, EF>(alloc, air)?;
    lookups.pack_same_bus(alloc, &LogUpGadget::new(), MAX_DEGREE)
}

/// The lookups that an AIR records.
///
/// Fails only when out of memory.
fn machine_air_lookups<F: Field, EF: ExtensionField<F>>(
    alloc: Global,
    air: MachineAir,
) -> Result<Lookups<F>, LookupError>
    ensures { MatchResult result
        (λ lookups. AreLookupsOf F.ring F.eq air (lookups_of lookups))
        (λ e. e ≡ LookupError.Memory) }
{
    Lookups::from_air::<EF, MachineAir>(alloc, &air)
}

/// The columns that an AIR holds of the rows of the input.
fn trace_for<F: Field>(
    alloc: Global,
    air: MachineAir,
    input: &RowMajorMatrix<F>,
) -> Result<RowMajorMatrix<F>, AllocError>
    requires { first_column_of air + width_of air ≤ input.now.width }
    ensures { IfOk result (λ trace. trace ≡ machine_air_trace air input.now) }
{
    let first = air.first_column();
    let last = first + air.columns();
    let mut values = Vec::new(alloc);
    for row in 0..input.height() {
        values.extend_from_slice(&input.row_slice(row)[first..last])?;
    }
    Ok(RowMajorMatrix::new(values, air.columns()))
}

/// AIRs in parts: their lookups, their traces, and the heights of these.
#[derive(Debug, Drop)]
pub struct AirParts<F> {
    pub lookups: Vec<Lookups<F>>,
    pub mains: Vec<RowMajorMatrix<F>>,
    pub heights: Vec<usize>,
}

/// The parts of these AIRs, in order. Fails only when out of memory; the AIRs are then dropped.
pub fn air_parts<F: Field>(
    alloc: Global,
    traces: Vec<AirTrace<F>>,
) -> Result<AirParts<F>, AllocError>
    ensures { IfOk result (λ parts. (parts.lookups.items ≡ map (λ t. t.lookups) traces.items)
        × (parts.mains.items ≡ map (λ t. t.main) traces.items)
        × (parts.heights.items ≡ map (λ t. height t.main) traces.items)) }
{
    let mut lookups = Vec::new(alloc);
    let mut mains = Vec::new(alloc);
    let mut heights = Vec::new(alloc);
    for trace in traces {
        heights.push(trace.main.height())?;
        lookups.push(trace.lookups)?;
        mains.push(trace.main)?;
    }
    Ok(AirParts {
        lookups,
        mains,
        heights,
    })
}

/// These main traces as a plan takes them, without preprocessed traces and public values. Fails
/// only when out of memory.
pub fn plan_traces<'a, F: Field>(
    alloc: Global,
    mains: &'a [RowMajorMatrix<F>],
) -> Result<Vec<BatchTrace<'a, F>>, AllocError>
    ensures { IfOk result (λ traces. map view_of traces.items ≡ map traces_of_main mains.now) }
{
    let mut traces = Vec::new(alloc);
    for main in mains {
        traces.push(BatchTrace {
            main,
            preprocessed: None,
            public_values: &[],
        })?;
    }
    Ok(traces)
}

/// These AIRs as the debug check takes them. Fails only when out of memory.
pub fn debug_instances<'a, F: Field>(
    alloc: Global,
    traces: &'a [AirTrace<F>],
) -> Result<Vec<LookupDebugInstance<'a, F>>, AllocError>
    ensures { IfOk result (λ instances. map traced_of instances.items
        ≡ map traced_over traces.now) }
{
    let mut instances = Vec::new(alloc);
    for trace in traces {
        instances.push(LookupDebugInstance {
            main_trace: &trace.main,
            preprocessed_trace: None,
            public_values: &[],
            lookups: trace.lookups.as_slice(),
            permutation_challenges: &[],
        })?;
    }
    Ok(instances)
}
