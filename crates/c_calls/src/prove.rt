//! The call of a prover on the plan of a batch.
ghost use Rattle.std.specs.Prelude.{◌≡◌, ◌≢◌, MatchResult, length};
ghost use Rattle.std.specs.Result.{OnErr};
ghost use Rattle.field_monty.specs.laws.BabyBear.{baby_bear_positive};
ghost use Rattle.c_calls.specs.Prove.{AnswersProve, HasProveRoom, IsProveRefusal, IsProveRoomRefusal, ProvesTables};
ghost use Rattle.c_calls.specs.internal.Batches.{ResultOfProve, ResultOfProveInRoom};

use crate::batch_tables::{Air, all_traces, plan_of, plan_traces};
use crate::codes::Part;
use crate::fault::Fault;
use crate::inputs::challenge_of;
use crate::outputs::{Terminal, cell_count, write_terminals, write_traces};
use crate::refusal::{Refusal, accept, refuse};
use c_tables::Traces;
use checker::Witness;
use field::Over;
use field_monty::{
    BabyBear, BabyBear4, BabyBearParameters, MontyField31, MontyQuartic, QuarticParameters,
};
use std::alloc::Global;

/// The witness of the batch that tables encode.
///
/// Refuses the first of these with a fault: the plan of the AIRs, the traces, alpha, beta, and the proof.
fn prove_tables<const P: u32, K: QuarticParameters<P>>(
    alloc: Global,
    airs: &[Air<'_>],
    traces: &[Traces<'_>],
    alpha: &[u32; 4],
    beta: &[u32; 4],
) -> Result<Witness<MontyQuartic<P, K>>, Fault>
    ensures { let E = ⟦<MontyQuartic<P, K> as Over<MontyField31<P, K>>>⟧.fields in
        MatchResult result (ProvesTables K.positive E airs.now traces.now alpha.now beta.now)
        (IsProveRefusal K.positive E airs.now traces.now alpha.now beta.now) }
{
    let plan = plan_of::<P, K>(alloc, airs)?;
    let all = all_traces::<P, K>(alloc, traces)?;
    let alpha = challenge_of::<P, K>(Part::Alphas, *alpha)?;
    let beta = challenge_of::<P, K>(Part::Betas, *beta)?;
    let given = plan_traces(alloc, &all)?;
    Ok(plan.prove(alloc, &given, alpha, beta)?)
}

/// Whether there is room for exactly the cells and the terminals of a witness.
fn check_room<const P: u32, K: QuarticParameters<P>>(
    witness: &Witness<MontyQuartic<P, K>>,
    cells: usize,
    terminals: usize,
) -> Result<(), Fault>
    ensures { MatchResult result (λ _. HasProveRoom witness.now cells terminals)
        (IsProveRoomRefusal witness.now cells terminals) }
{
    let Some(expected) = cell_count(&witness.aux) else {
        return Err(Fault::Memory);
    };
    if expected != cells {
        return Err(Fault::Length {
            part: Part::Auxiliary,
            expected,
            actual: cells,
        });
    }
    if witness.terminals.len() != terminals {
        return Err(Fault::Length {
            part: Part::Terminals,
            expected: witness.terminals.len(),
            actual: terminals,
        });
    }
    Ok(())
}

/// The witness of the batch that tables encode, for room for so many cells and terminals.
fn prove_into_room<const P: u32, K: QuarticParameters<P>>(
    alloc: Global,
    airs: &[Air<'_>],
    traces: &[Traces<'_>],
    alpha: &[u32; 4],
    beta: &[u32; 4],
    cells: usize,
    terminals: usize,
) -> Result<Witness<MontyQuartic<P, K>>, Fault>
    ensures { let E = ⟦<MontyQuartic<P, K> as Over<MontyField31<P, K>>>⟧.fields in
        ResultOfProveInRoom K.positive E airs.now traces.now alpha.now beta.now cells terminals
        result }
{
    let witness = prove_tables::<P, K>(alloc, airs, traces, alpha, beta)?;
    check_room(&witness, cells, terminals)?;
    Ok(witness)
}

/// Does what `volgwain_prove` does, over any prime field below 2^31.
pub(crate) fn answer_prove<const P: u32, K: QuarticParameters<P>>(
    alloc: Global,
    airs: &[Air<'_>],
    traces: &[Traces<'_>],
    alpha: &[u32; 4],
    beta: &[u32; 4],
    auxiliary: &mut [[u32; 4]],
    terminals: &mut [Terminal],
) -> Result<(), Fault>
    ensures answers { let E = ⟦<MontyQuartic<P, K> as Over<MontyField31<P, K>>>⟧.fields in
        ResultOfProve K.positive E airs.now traces.now alpha.now beta.now (length auxiliary.old)
        (length terminals.old) auxiliary.new terminals.new result }
    ensures kept { OnErr result
        ((auxiliary.new ≡ auxiliary.old) × (terminals.new ≡ terminals.old)) }
{
    let (cells, endings) = (auxiliary.len(), terminals.len());
    let witness = prove_into_room::<P, K>(alloc, airs, traces, alpha, beta, cells, endings)?;
    write_traces(auxiliary, &witness.aux);
    write_terminals(terminals, &witness.terminals);
    Ok(())
}

/// Makes the witness of a batch: the auxiliary traces and the terminals of its AIRs.
///
/// The plan is that of the AIRs' lookups, heights and ids, if these are given. The auxiliary traces stand one
/// after the other, each row after row: an AIR with lookups has a row for each row of its traces, and one cell more than lookups
/// in each, and one without lookups has none. There is a terminal for each AIR.
///
/// Answers 0, or the code of a refusal. A refused call leaves the auxiliary traces and the terminals as
/// they were.
#[unsafe(no_mangle)]
pub extern "C" fn volgwain_prove(
    alloc: Global,
    airs: &[Air<'_>],
    traces: &[Traces<'_>],
    alpha: &[u32; 4],
    beta: &[u32; 4],
    auxiliary: &mut [[u32; 4]],
    terminals: &mut [Terminal],
    refusal: &mut Refusal,
    text: &mut [u8],
) -> u32
    ensures answers { AnswersProve baby_bear_positive ⟦<BabyBear4 as Over<BabyBear>>⟧.fields
        airs.now traces.now alpha.now beta.now (length auxiliary.old) (length terminals.old)
        auxiliary.new terminals.new result refusal.new }
    ensures kept { result ≢ 0
        → (auxiliary.new ≡ auxiliary.old) × (terminals.new ≡ terminals.old) }
{
    match answer_prove::<2_013_265_921, BabyBearParameters>(
        alloc, airs, traces, alpha, beta, auxiliary, terminals,
    ) {
        Ok(()) => accept(refusal),
        Err(fault) => refuse(&fault, refusal, text),
    }
}
