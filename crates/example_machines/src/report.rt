//! What a run prints.
ghost use Rattle.std.specs.Prelude.{◌≡◌, ◌<◌, ◌⊎◌, MatchResult, length};
ghost use Rattle.std.specs.List.{AllZip};
ghost use Rattle.matrix.specs.Matrix.{height};
ghost use Rattle.lookup_model.specs.Batches.Witnesses.{results_of};
ghost use Rattle.example_machines.specs.Machines.{airs_of, input_columns};
ghost use Rattle.example_machines.specs.Program.{AreFaultlessMachineAirs, IsFirstAirFault, IsHeavyInput, IsReport, IsReportRefusal, height_sum, machine_witness};
ghost use Rattle.field_words.specs.Fields.{run_fields};
ghost use Rattle.example_machines.specs.internal.Traces.{IsTraceOf};

use crate::error::RunError;
use crate::machine::Machine;
use crate::mismatch::mismatch_line;
use crate::rows::read_rows;
use crate::traces::{AirParts, AirTrace, air_parts, air_traces, plan_traces};
use batch::{BatchPlan, Witness};
use field::{ExtensionField, Field, Over};
use field_words::Challenge;
use language_witness::push_witness;
use lookup::{LogUpGadget, LookupProtocol};
use matrix::RowMajorMatrix;
use std::alloc::Global;

/// The result of a run that is not refused.
#[derive(Debug, Drop)]
pub struct Report {
    /// What is written to standard output.
    pub text: String,
    /// Whether the terminals cancel.
    pub balanced: bool,
    /// What is written to standard error: the line of the first tuple that does not balance.
    pub mismatch: Option<String>,
}

/// The report of a machine over the rows of `input`, with its alpha and its beta.
///
/// Refuses a faulty line, then an input without rows, then one whose weights times heights reach the
/// characteristic, then the first fault of the first AIR that has one.
pub fn report_of<F: Field, EF: Challenge<F>>(
    alloc: Global,
    machine: Machine,
    challenges: (EF, EF),
    input: &[u8],
) -> Result<Report, RunError>
    ensures { let fields = run_fields F.ring F.eq F.CHARACTERISTIC EF.ring EF.eq EF.embed EF.inverse
        EF.written EF.text F.text in MatchResult result
        (λ report. IsReport fields machine challenges.0 challenges.1 input.now report)
        (λ e. (e ≡ RunError.Memory)
        ⊎ IsReportRefusal fields machine challenges.0 challenges.1 input.now e) }
{
    let rows = read_rows::<F>(alloc, input, machine.columns())?;
    let traces = air_traces::<F, EF>(alloc, machine, &rows)?;
    let mismatch = mismatch_line(alloc, traces.as_slice())?;
    let witness = prove_machine::<F, EF>(alloc, machine, challenges, &rows, traces)?;
    let balanced = LogUpGadget::new()
        .verify_terminal_sum(witness.terminals.as_slice())
        .is_ok();
    let mut text = String::new(alloc);
    push_witness(alloc, &mut text, &witness)?;
    text.push_str(if balanced {
        "balanced\n"
    } else {
        "unbalanced\n"
    })?;
    Ok(Report {
        text,
        balanced,
        mismatch,
    })
}

/// The witness of a plan of these AIRs, which are those of a machine over the rows of its input.
fn prove_machine<F: Field, EF: ExtensionField<F>>(
    alloc: Global,
    machine: Machine,
    challenges: (EF, EF),
    input: &RowMajorMatrix<F>,
    traces: Vec<AirTrace<F>>,
) -> Result<Witness<EF>, RunError>
    requires width { input.now.width ≡ input_columns machine }
    requires rows { 0 < height input.now }
    requires traces { AllZip (IsTraceOf F.ring F.eq input.now) (airs_of machine) traces.items }
    ensures { let E = ⟦<EF as Over<F>>⟧.fields in
        let alpha = challenges.0 in let beta = challenges.1 in MatchResult result
        (λ w. (results_of w ≡ machine_witness E machine alpha beta input.now)
        × (length w.aux.items ≡ length w.terminals.items)
        × AreFaultlessMachineAirs E machine alpha beta input.now
        × (height_sum machine input.now < F.CHARACTERISTIC))
        (λ e. (e ≡ RunError.Memory) ⊎ (IsHeavyInput F.CHARACTERISTIC machine input.now e
        ⊎ ((height_sum machine input.now < F.CHARACTERISTIC)
        × IsFirstAirFault E machine alpha beta input.now e))) }
{
    let AirParts {
        lookups,
        mains,
        heights,
    } = air_parts(alloc, traces)?;
    let plan = BatchPlan::new(alloc, lookups, heights)?;
    let traces = plan_traces(alloc, mains.as_slice())?;
    let (alpha, beta) = challenges;
    let witness = plan.prove(alloc, traces.as_slice(), alpha, beta)?;
    Ok(witness)
}
