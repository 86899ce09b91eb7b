//! The call that packs the lookups of an AIR.
ghost use Rattle.std.specs.Prelude.{◌≡◌, ◌≢◌, MatchResult};
ghost use Rattle.std.specs.Result.{OnErr};
ghost use Rattle.lookup.specs.Lookups.{lookups_of};
ghost use Rattle.c_calls.specs.Pack.{AnswersPack, IsPackRefusal, IsPackSetRefusal, CallPacksFrom};
ghost use Rattle.c_calls.specs.WrittenTables.{table_arrays};
ghost use Rattle.c_calls.specs.internal.Packing.{PacksInRoom, ResultOfPack};

use crate::batch_tables::set_of;
use crate::fault::{Fault, lookup_fault};
use crate::refusal::{Refusal, accept, refuse};
use crate::written_tables::{TableSizes, room_of, tables_for, write_tables};
use c_tables::{Node, Record, Span, Tables, Written};
use field::Over;
use field_monty::{
    BabyBear, BabyBear4, BabyBearParameters, MontyField31, MontyQuartic, QuarticParameters,
};
use lookup::{LogUpGadget, Lookups};
use std::alloc::Global;

/// The packed lookups of a set.
fn pack_set<const P: u32, K: QuarticParameters<P>>(
    alloc: Global,
    set: Lookups<MontyField31<P, K>>,
    max_degree: usize,
) -> Result<Lookups<MontyField31<P, K>>, Fault>
    ensures { let E = ⟦<MontyQuartic<P, K> as Over<MontyField31<P, K>>>⟧.fields in
        MatchResult result (λ after. CallPacksFrom E max_degree (lookups_of set) (lookups_of after))
        (IsPackSetRefusal max_degree (lookups_of set)) }
{
    match set.pack_same_bus(alloc, &LogUpGadget::new(), max_degree) {
        Ok(after) => Ok(after),
        Err(error) => Err(lookup_fault(error)),
    }
}

/// Tables of the packed lookups that tables encode.
fn pack_tables<const P: u32, K: QuarticParameters<P>>(
    alloc: Global,
    tables: &Tables<'_>,
    max_degree: usize,
    room: TableSizes,
) -> Result<Written, Fault>
    ensures { let E = ⟦<MontyQuartic<P, K> as Over<MontyField31<P, K>>>⟧.fields in
        MatchResult result (PacksInRoom E tables.now max_degree room)
        (IsPackRefusal E tables.now max_degree room) }
{
    let set = set_of::<P, K>(alloc, 0, tables)?;
    let after = pack_set(alloc, set, max_degree)?;
    tables_for(alloc, &after, room)
}

/// Does what `volgwain_pack` does, over any prime field below 2^31, and answers the sizes of what is written.
pub(crate) fn answer_pack<const P: u32, K: QuarticParameters<P>>(
    alloc: Global,
    tables: &Tables<'_>,
    max_degree: usize,
    nodes: &mut [Node],
    tuples: &mut [Span],
    names: &mut [u8],
    records: &mut [Record],
) -> Result<TableSizes, Fault>
    ensures answers { ResultOfPack ⟦<MontyQuartic<P, K> as Over<MontyField31<P, K>>>⟧.fields
        tables.now max_degree (table_arrays nodes.old tuples.old names.old records.old)
        (table_arrays nodes.new tuples.new names.new records.new) result }
    ensures kept { OnErr result ((nodes.new ≡ nodes.old) × (tuples.new ≡ tuples.old)
        × (names.new ≡ names.old) × (records.new ≡ records.old)) }
{
    let room = room_of(nodes, tuples, names, records);
    let made = pack_tables::<P, K>(alloc, tables, max_degree, room)?;
    Ok(write_tables(&made, nodes, tuples, names, records))
}

/// Packs the lookups of an AIR: those on one bus share columns, as many as the degree allows.
///
/// Each array is at least as long as what is written, from its start on; the sizes say how much that is.
///
/// Answers 0, or the code of a refusal. A refused call leaves the arrays and the sizes as they were.
#[unsafe(no_mangle)]
pub extern "C" fn volgwain_pack(
    alloc: Global,
    tables: &Tables<'_>,
    max_degree: usize,
    nodes: &mut [Node],
    tuples: &mut [Span],
    names: &mut [u8],
    records: &mut [Record],
    sizes: &mut TableSizes,
    refusal: &mut Refusal,
    text: &mut [u8],
) -> u32
    ensures answers { AnswersPack ⟦<BabyBear4 as Over<BabyBear>>⟧.fields tables.now max_degree
        (table_arrays nodes.old tuples.old names.old records.old)
        (table_arrays nodes.new tuples.new names.new records.new) sizes.new result refusal.new }
    ensures kept { result ≢ 0 → (nodes.new ≡ nodes.old) × (tuples.new ≡ tuples.old)
        × (names.new ≡ names.old) × (records.new ≡ records.old) × (sizes.new ≡ sizes.old) }
{
    match answer_pack::<2_013_265_921, BabyBearParameters>(
        alloc, tables, max_degree, nodes, tuples, names, records,
    ) {
        Ok(written) => {
            *sizes = written;
            accept(refusal)
        }
        Err(fault) => refuse(&fault, refusal, text),
    }
}
