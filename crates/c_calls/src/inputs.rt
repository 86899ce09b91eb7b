//! What calls read: lookups, traces and challenges, with the refusals of each.
ghost use Rattle.std.specs.Prelude.{MatchResult};
ghost use Rattle.c_tables.specs.Tables.{TablesEncode};
ghost use Rattle.c_tables.specs.TraceNumbers.{AreTracesOfNumbers};
ghost use Rattle.c_calls.specs.Inputs.{AreInputElements, IsInputChallenge, IsInputChallengeRefusal, IsInputListRefusal, IsInputTableRefusal, IsInputTracesRefusal};

use crate::codes::Part;
use crate::fault::Fault;
use c_tables::{
    NumberFault, ReadTraces, TableFault, Tables, TraceFault, Traces, extension, extensions,
    read_lookups, read_traces,
};
use field_monty::{MontyField31, MontyQuartic, QuarticParameters};
use lookup::Lookup;
use std::alloc::Global;

/// The lookups that the tables of an AIR encode.
pub(crate) fn lookups_of<const P: u32, K: QuarticParameters<P>>(
    alloc: Global,
    air: usize,
    tables: &Tables<'_>,
) -> Result<Vec<Lookup<MontyField31<P, K>>>, Fault>
    ensures { MatchResult result (λ v. TablesEncode tables.now v.items)
        (IsInputTableRefusal P air tables.now) }
{
    match read_lookups(alloc, tables) {
        Ok(lookups) => Ok(lookups),
        Err((_, TableFault::Memory)) => Err(Fault::Memory),
        Err((lookup, fault)) => Err(Fault::Table { air, lookup, fault }),
    }
}

/// The traces that the tables of an AIR encode.
pub(crate) fn traces_of<const P: u32, K: QuarticParameters<P>>(
    alloc: Global,
    air: usize,
    traces: &Traces<'_>,
) -> Result<ReadTraces<MontyField31<P, K>>, Fault>
    ensures { MatchResult result (AreTracesOfNumbers K.positive traces.now)
        (IsInputTracesRefusal P air traces.now) }
{
    match read_traces(alloc, traces) {
        Ok(traces) => Ok(traces),
        Err(TraceFault::Memory) => Err(Fault::Memory),
        Err(fault) => Err(Fault::Traces { air, fault }),
    }
}

/// The elements of the extension that a list of groups of four numbers says.
pub(crate) fn list_of<const P: u32, K: QuarticParameters<P>>(
    alloc: Global,
    part: Part,
    air: usize,
    groups: &[[u32; 4]],
) -> Result<Vec<MontyQuartic<P, K>>, Fault>
    ensures { MatchResult result (λ v. AreInputElements K.positive groups.now v.items)
        (IsInputListRefusal P part air groups.now) }
{
    match extensions(alloc, groups) {
        Ok(values) => Ok(values),
        Err(NumberFault::Memory) => Err(Fault::Memory),
        Err(NumberFault::Large(index)) => Err(Fault::Large { part, air, index }),
    }
}

/// The challenge that four numbers encode.
pub(crate) fn challenge_of<const P: u32, K: QuarticParameters<P>>(
    part: Part,
    numbers: [u32; 4],
) -> Result<MontyQuartic<P, K>, Fault>
    ensures { MatchResult result (IsInputChallenge K.positive numbers)
        (IsInputChallengeRefusal P part numbers) }
{
    match extension::<P, K>(numbers) {
        Some(x) => Ok(x),
        None => Err(Fault::Large {
            part,
            air: 0,
            index: 0,
        }),
    }
}
