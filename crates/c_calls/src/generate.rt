//! The call that generates the auxiliary trace of one AIR.
ghost use Rattle.std.specs.Prelude.{◌≡◌, ◌≢◌, ◌≤◌, ◌*◌, MatchResult, length};
ghost use Rattle.std.specs.Result.{OnErr};
ghost use Rattle.field_monty.specs.laws.BabyBear.{baby_bear_positive};
ghost use Rattle.air.specs.Traces.{HaveOneHeight, traces_of};
ghost use Rattle.c_calls.specs.Generate.{AnswersGenerate, GenerateFits, HasFewChallenges, HasOtherGenerateRoom, IsGenerateRefusal, IsGenerateUnfit};
ghost use Rattle.c_calls.specs.Inputs.{view_of_read};
ghost use Rattle.c_calls.specs.internal.Generate.{AreNumbersOfGenerated, GeneratesRead, GeneratesTables, IsFirstGenerateReadFault, IsGenerateReadRefusal, ResultOfGenerate};

use crate::codes::Part;
use crate::fault::{Fault, lookup_fault};
use crate::inputs::{list_of, lookups_of, traces_of};
use crate::outputs::{Terminal, terminal_numbers, write_cells};
use crate::refusal::{Refusal, accept, refuse};
use air_expressions::AirLayout;
use c_tables::{ReadTraces, Tables, Traces};
use field::Over;
use field_monty::{
    BabyBear, BabyBear4, BabyBearParameters, MontyField31, MontyQuartic, QuarticParameters,
};
use lookup::{Lookup, LookupTerminal, fits};
use lookup_generation::generate_permutation;
use matrix::RowMajorMatrix;
use std::alloc::Global;

/// The auxiliary trace of an AIR, and its terminal.
#[derive(Drop)]
pub(crate) struct Generated<EF> {
    pub(crate) auxiliary: RowMajorMatrix<EF>,
    pub(crate) terminal: Option<LookupTerminal<EF>>,
}

/// Whether lookups fit the traces of their AIR, have a row to read, and the traces have one height.
pub(crate) fn check_fit<const P: u32, K: QuarticParameters<P>>(
    traces: &ReadTraces<MontyField31<P, K>>,
    lookups: &[Lookup<MontyField31<P, K>>],
) -> Result<(), Fault>
    ensures { MatchResult result (λ _. GenerateFits (view_of_read traces.now) lookups.now)
        (IsGenerateUnfit (view_of_read traces.now) lookups.now) }
{
    let main = &traces.main;
    let preprocessed = traces.preprocessed.as_ref();
    let layout = AirLayout::of_traces(main, preprocessed, traces.public_values.as_slice());
    if !fits(lookups, &layout) {
        return Err(Fault::Misfit { air: 0 });
    }
    if !lookups.is_empty() && main.height() == 0 {
        return Err(Fault::Misfit { air: 0 });
    }
    if let Some(trace) = preprocessed {
        if trace.height() != main.height() {
            return Err(Fault::Heights { air: 0 });
        }
    }
    Ok(())
}

/// Whether there are two challenges for each lookup.
pub(crate) fn check_enough<const P: u32, K: QuarticParameters<P>>(
    lookups: &[Lookup<MontyField31<P, K>>],
    challenges: &[MontyQuartic<P, K>],
) -> Result<(), Fault>
    ensures { MatchResult result (λ _. 2 * length lookups.now ≤ length challenges.now)
        (HasFewChallenges lookups.now challenges.now) }
{
    if challenges.len() / 2 < lookups.len() {
        return Err(Fault::Length {
            part: Part::Challenges,
            expected: lookups.len().saturating_mul(2),
            actual: challenges.len(),
        });
    }
    Ok(())
}

/// The traces of an AIR as one value.
pub(crate) fn traces_as_one<const P: u32, K: QuarticParameters<P>>(
    traces: &ReadTraces<MontyField31<P, K>>,
) -> air::Traces<'_, MontyField31<P, K>>
    requires { HaveOneHeight (view_of_read traces.now) }
    ensures { traces_of result ≡ view_of_read traces.now }
{
    air::Traces {
        main: &traces.main,
        preprocessed: traces.preprocessed.as_ref(),
        public_values: traces.public_values.as_slice(),
    }
}

/// Generates over lookups that fit the traces.
pub(crate) fn generate_fitting<const P: u32, K: QuarticParameters<P>>(
    alloc: Global,
    traces: &ReadTraces<MontyField31<P, K>>,
    lookups: &[Lookup<MontyField31<P, K>>],
    challenges: &[MontyQuartic<P, K>],
) -> Result<Generated<MontyQuartic<P, K>>, Fault>
    requires fit { GenerateFits (view_of_read traces.now) lookups.now }
    requires challenges { 2 * length lookups.now ≤ length challenges.now }
    ensures { let E = ⟦<MontyQuartic<P, K> as Over<MontyField31<P, K>>>⟧.fields in
        MatchResult result (GeneratesRead E traces.now challenges.now lookups.now)
        (IsFirstGenerateReadFault E traces.now challenges.now lookups.now) }
{
    match generate_permutation(alloc, &traces_as_one(traces), lookups, challenges) {
        Ok((auxiliary, terminal)) => Ok(Generated {
            auxiliary,
            terminal,
        }),
        Err(error) => Err(lookup_fault(error)),
    }
}

/// Generates over lookups.
fn generate_lookups<const P: u32, K: QuarticParameters<P>>(
    alloc: Global,
    traces: &ReadTraces<MontyField31<P, K>>,
    lookups: &[Lookup<MontyField31<P, K>>],
    challenges: &[MontyQuartic<P, K>],
) -> Result<Generated<MontyQuartic<P, K>>, Fault>
    ensures { let E = ⟦<MontyQuartic<P, K> as Over<MontyField31<P, K>>>⟧.fields in
        MatchResult result (GeneratesRead E traces.now challenges.now lookups.now)
        (IsGenerateReadRefusal E traces.now challenges.now lookups.now) }
{
    check_fit(traces, lookups)?;
    check_enough(lookups, challenges)?;
    generate_fitting(alloc, traces, lookups, challenges)
}

/// Generates over what tables encode.
///
/// Refuses the first of these with a fault: the tables, the traces, the challenges, whether the lookups
/// fit the traces, the heights of the traces, the number of challenges, and the generation.
fn generate_tables<const P: u32, K: QuarticParameters<P>>(
    alloc: Global,
    tables: &Tables<'_>,
    traces: &Traces<'_>,
    challenges: &[[u32; 4]],
) -> Result<Generated<MontyQuartic<P, K>>, Fault>
    ensures { let E = ⟦<MontyQuartic<P, K> as Over<MontyField31<P, K>>>⟧.fields in
        MatchResult result (GeneratesTables K.positive E tables.now traces.now challenges.now)
        (IsGenerateRefusal K.positive E tables.now traces.now challenges.now) }
{
    let lookups = lookups_of::<P, K>(alloc, 0, tables)?;
    let traces = traces_of::<P, K>(alloc, 0, traces)?;
    let challenges = list_of::<P, K>(alloc, Part::Challenges, 0, challenges)?;
    generate_lookups(alloc, &traces, &lookups, &challenges)
}

/// Writes what was generated for one AIR.
///
/// Refuses a caller that does not have room for exactly the cells, and then writes nothing.
pub(crate) fn write_generated<const P: u32, K: QuarticParameters<P>>(
    made: Generated<MontyQuartic<P, K>>,
    auxiliary: &mut [[u32; 4]],
    terminal: &mut Terminal,
) -> Result<(), Fault>
    ensures answers { MatchResult result
        (λ _. AreNumbersOfGenerated made auxiliary.new terminal.new)
        (HasOtherGenerateRoom made.auxiliary (length auxiliary.old)) }
    ensures kept { OnErr result
        ((auxiliary.new ≡ auxiliary.old) × (terminal.new ≡ terminal.old)) }
{
    write_cells(&made.auxiliary, auxiliary)?;
    *terminal = terminal_numbers(made.terminal);
    Ok(())
}

/// Does what `volgwain_generate` does, over any prime field below 2^31.
pub(crate) fn answer_generate<const P: u32, K: QuarticParameters<P>>(
    alloc: Global,
    tables: &Tables<'_>,
    traces: &Traces<'_>,
    challenges: &[[u32; 4]],
    auxiliary: &mut [[u32; 4]],
    terminal: &mut Terminal,
) -> Result<(), Fault>
    ensures answers { let E = ⟦<MontyQuartic<P, K> as Over<MontyField31<P, K>>>⟧.fields in
        ResultOfGenerate K.positive E tables.now traces.now challenges.now (length auxiliary.old)
        auxiliary.new terminal.new result }
    ensures kept { OnErr result
        ((auxiliary.new ≡ auxiliary.old) × (terminal.new ≡ terminal.old)) }
{
    let made = generate_tables::<P, K>(alloc, tables, traces, challenges)?;
    write_generated(made, auxiliary, terminal)
}

/// Generates the auxiliary trace of one AIR, and its terminal.
///
/// The challenges are an alpha and a beta for each lookup; further ones are ignored. The auxiliary trace
/// has a row for each row of the main trace, and one cell more than there are lookups; without lookups it
/// has none.
///
/// Answers 0, or the code of a refusal. A refused call leaves the auxiliary trace and the terminal as they
/// were.
#[unsafe(no_mangle)]
pub extern "C" fn volgwain_generate(
    alloc: Global,
    tables: &Tables<'_>,
    traces: &Traces<'_>,
    challenges: &[[u32; 4]],
    auxiliary: &mut [[u32; 4]],
    terminal: &mut Terminal,
    refusal: &mut Refusal,
    text: &mut [u8],
) -> u32
    ensures answers { AnswersGenerate baby_bear_positive ⟦<BabyBear4 as Over<BabyBear>>⟧.fields
        tables.now traces.now challenges.now (length auxiliary.old) auxiliary.new terminal.new
        result refusal.new }
    ensures kept { result ≢ 0
        → (auxiliary.new ≡ auxiliary.old) × (terminal.new ≡ terminal.old) }
{
    match answer_generate::<2_013_265_921, BabyBearParameters>(
        alloc, tables, traces, challenges, auxiliary, terminal,
    ) {
        Ok(()) => accept(refusal),
        Err(fault) => refuse(&fault, refusal, text),
    }
}
