//! What the debug check finds, as numbers for C.
ghost use Rattle.std.specs.Prelude.{◌≡◌, MatchResult, map};
ghost use Rattle.c_calls.specs.DebugNumbers.{IsTellingRefusal, TellsNumbers};
ghost use Rattle.c_calls.specs.declared.fault.Fault.TheVariants.{Memory};
ghost use Rattle.lookup_debug.specs.Contributions.{AreFitting, traced_of};
ghost use Rattle.c_calls.specs.internal.Batches.{TellsInRoom};

use crate::batch_tables::all_traces;
use crate::codes::Part;
use crate::debug_check::{debug_instances, table_sets};
use crate::fault::Fault;
use crate::group_numbers::{numbers_of_mismatch, numbers_of_table};
use crate::written_tables::check_items;
use c_tables::{Tables, Traces};
use field::Over;
use field_monty::{MontyField31, MontyQuartic, QuarticParameters};
use lookup::debug_util::{LookupDebugInstance, bus_table, mismatch_of};
use std::alloc::Global;

/// What is asked of the debug check.
#[derive(Clone, Copy)]
pub(crate) enum Asked {
    /// The table of all groups.
    Table,
    /// The first mismatch.
    Mismatch,
}

/// The numbers of what is found in a batch.
fn numbers_of<const P: u32, K: QuarticParameters<P>>(
    alloc: Global,
    instances: &[LookupDebugInstance<'_, MontyField31<P, K>>],
    asked: Asked,
    limit: usize,
) -> Result<Vec<usize>, Fault>
    requires { AreFitting instances.now }
    ensures { let E = ⟦<MontyQuartic<P, K> as Over<MontyField31<P, K>>>⟧.fields in
        MatchResult result (λ v. TellsNumbers E limit (map traced_of instances.now) v.items asked)
        (λ fault. fault ≡ Memory) }
{
    match asked {
        Asked::Table => {
            let table = bus_table(alloc, instances, limit)?;
            Ok(numbers_of_table(alloc, &table)?)
        }
        Asked::Mismatch => {
            let found = mismatch_of(alloc, instances, limit)?;
            Ok(numbers_of_mismatch(alloc, &found)?)
        }
    }
}

/// The numbers of what is found in the batch that tables encode, over any prime field below 2^31.
///
/// Refuses the first of these with a fault: the number of traces, the tables, the traces, the first AIR whose
/// lookups do not fit its traces, and less room than there are numbers.
pub(crate) fn answer_debug_numbers<const P: u32, K: QuarticParameters<P>>(
    alloc: Global,
    airs: &[Tables<'_>],
    traces: &[Traces<'_>],
    asked: Asked,
    limit: usize,
    room: usize,
) -> Result<Vec<usize>, Fault>
    ensures { let E = ⟦<MontyQuartic<P, K> as Over<MontyField31<P, K>>>⟧.fields in
        MatchResult result (TellsInRoom K.positive E asked airs.now traces.now limit room)
        (IsTellingRefusal K.positive E asked airs.now traces.now limit room) }
{
    if traces.len() != airs.len() {
        return Err(Fault::Length {
            part: Part::Batch,
            expected: airs.len(),
            actual: traces.len(),
        });
    }
    let sets = table_sets::<P, K>(alloc, airs)?;
    let all = all_traces::<P, K>(alloc, traces)?;
    let instances = debug_instances(alloc, &sets, &all)?;
    let made = numbers_of(alloc, &instances, asked, limit)?;
    check_items(Part::Numbers, made.len(), room)?;
    Ok(made)
}
