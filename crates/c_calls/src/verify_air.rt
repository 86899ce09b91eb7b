//! The call of a verifier on one AIR, under challenges that are given for each lookup.
ghost use Rattle.std.specs.Prelude.{◌≤◌, ◌*◌, MatchResult, length};
ghost use Rattle.field_monty.specs.laws.BabyBear.{baby_bear_positive};
ghost use Rattle.c_calls.specs.Generate.{GenerateFits};
ghost use Rattle.c_calls.specs.Inputs.{view_of_read};
ghost use Rattle.c_calls.specs.VerifyAir.{AnswersVerifyAir};
ghost use Rattle.c_calls.specs.internal.Faults.{IsCheckFault};
ghost use Rattle.c_calls.specs.internal.VerifyAir.{IsUnsatisfiedReadRefusal, IsVerifyReadRefusal, ResultOfVerifyAir, SatisfiesRead, VerifiesRead};

use crate::codes::Part;
use crate::fault::Fault;
use crate::generate::{check_enough, check_fit, traces_as_one};
use crate::inputs::{list_of, lookups_of, traces_of};
use crate::refusal::{Refusal, accept, refuse};
use crate::witness::{AirWitness, read_auxiliary, read_terminal};
use batch::BatchError;
use c_tables::{ReadTraces, Tables, Traces};
use checker::check_columns;
use field::Over;
use field_monty::{
    BabyBear, BabyBear4, BabyBearParameters, MontyField31, MontyQuartic, QuarticParameters,
};
use lookup::{Lookup, LookupError, LookupTerminal};
use matrix::RowMajorMatrix;
use std::alloc::Global;

/// What a witness has for one AIR, as elements.
#[derive(Drop)]
struct ReadResult<EF> {
    auxiliary: RowMajorMatrix<EF>,
    terminal: Option<LookupTerminal<EF>>,
}

/// Why the check of one AIR is refused.
fn check_fault(error: LookupError) -> Fault
    ensures { IsCheckFault error result }
{
    match error {
        LookupError::Memory => Fault::Memory,
        error => Fault::Batch(BatchError::Lookup(error)),
    }
}

/// Checks a result over lookups that fit their traces.
fn check_air<const P: u32, K: QuarticParameters<P>>(
    alloc: Global,
    traces: &ReadTraces<MontyField31<P, K>>,
    lookups: &[Lookup<MontyField31<P, K>>],
    challenges: &[MontyQuartic<P, K>],
    result_of: &ReadResult<MontyQuartic<P, K>>,
) -> Result<(), Fault>
    requires fit { GenerateFits (view_of_read traces.now) lookups.now }
    requires challenges { 2 * length lookups.now ≤ length challenges.now }
    ensures { let E = ⟦<MontyQuartic<P, K> as Over<MontyField31<P, K>>>⟧.fields in
        MatchResult result (λ _. SatisfiesRead E traces.now lookups.now challenges.now
        result_of.now) (IsUnsatisfiedReadRefusal E traces.now lookups.now challenges.now result_of.now) }
{
    let one = traces_as_one(traces);
    let (auxiliary, terminal) = (&result_of.auxiliary, &result_of.terminal);
    match check_columns(alloc, &one, lookups, challenges, auxiliary, terminal) {
        Ok(()) => Ok(()),
        Err(error) => Err(check_fault(error)),
    }
}

/// Checks a result over lookups.
///
/// Refuses lookups that do not fit their traces or have no row to read, another height, too few challenges, and
/// then a result that does not satisfy the constraints.
fn verify_read<const P: u32, K: QuarticParameters<P>>(
    alloc: Global,
    traces: &ReadTraces<MontyField31<P, K>>,
    lookups: &[Lookup<MontyField31<P, K>>],
    challenges: &[MontyQuartic<P, K>],
    result_of: &ReadResult<MontyQuartic<P, K>>,
) -> Result<(), Fault>
    ensures { let E = ⟦<MontyQuartic<P, K> as Over<MontyField31<P, K>>>⟧.fields in
        MatchResult result (λ _. VerifiesRead E traces.now lookups.now challenges.now
        result_of.now) (IsVerifyReadRefusal E traces.now lookups.now challenges.now result_of.now) }
{
    check_fit(traces, lookups)?;
    check_enough(lookups, challenges)?;
    check_air(alloc, traces, lookups, challenges, result_of)
}

/// Whether what a witness has for one AIR satisfies the constraints of its lookups, over what tables and numbers
/// encode, in any prime field below 2^31.
///
/// Refuses the first of these with a fault: the tables, the traces, the challenges, the numbers of the
/// witness, whether the lookups fit the traces and have a row to read, the heights of the traces, the number
/// of challenges, the shape of the witness, and a row on which a constraint is not zero.
pub(crate) fn answer_verify_air<const P: u32, K: QuarticParameters<P>>(
    alloc: Global,
    tables: &Tables<'_>,
    traces: &Traces<'_>,
    challenges: &[[u32; 4]],
    witness: &AirWitness<'_>,
) -> Result<(), Fault>
    ensures { let E = ⟦<MontyQuartic<P, K> as Over<MontyField31<P, K>>>⟧.fields in
        ResultOfVerifyAir K.positive E tables.now traces.now challenges.now witness.now result }
{
    let lookups = lookups_of::<P, K>(alloc, 0, tables)?;
    let read = traces_of::<P, K>(alloc, 0, traces)?;
    let elements = list_of::<P, K>(alloc, Part::Challenges, 0, challenges)?;
    let auxiliary = read_auxiliary::<P, K>(alloc, 0, witness)?;
    let terminal = read_terminal::<P, K>(0, witness.terminal)?;
    let result_of = ReadResult {
        auxiliary,
        terminal,
    };
    verify_read(alloc, &read, &lookups, &elements, &result_of)
}

/// Whether the auxiliary trace and the terminal of one AIR satisfy the constraints of its lookups under an alpha
/// and a beta for each of them; further challenges are ignored.
///
/// So a prover's own challenges can be given, whatever ids it has. That lookups on one bus share an alpha and a
/// beta and others do not, and that the terminals of a batch sum to zero, is for the caller to see to. An AIR with
/// lookups needs a row: over none it is refused. Of what passes, the terminal is the sum of all fractions.
///
/// Answers 0 if they do, and otherwise the code of the first refusal.
#[unsafe(no_mangle)]
pub extern "C" fn volgwain_verify_air(
    alloc: Global,
    tables: &Tables<'_>,
    traces: &Traces<'_>,
    challenges: &[[u32; 4]],
    witness: &AirWitness<'_>,
    refusal: &mut Refusal,
    text: &mut [u8],
) -> u32
    ensures answers { AnswersVerifyAir baby_bear_positive ⟦<BabyBear4 as Over<BabyBear>>⟧.fields
        tables.now traces.now challenges.now witness.now result refusal.new }
{
    match answer_verify_air::<2_013_265_921, BabyBearParameters>(
        alloc, tables, traces, challenges, witness,
    ) {
        Ok(()) => accept(refusal),
        Err(fault) => refuse(&fault, refusal, text),
    }
}
