//! The call that reads lookups from JSON.
ghost use Rattle.std.specs.Prelude.{◌≡◌, ◌≢◌, MatchResult};
ghost use Rattle.std.specs.Result.{OnErr};
ghost use Rattle.std.specs.Str.{IsUtf8};
ghost use Rattle.c_calls.specs.ReadJson.{AnswersReadJson, IsReadJsonRefusal, IsJsonRefusal, IsJsonTextRefusal, ReadsJsonTables};
ghost use Rattle.c_calls.specs.WrittenTables.{HasTableRoom, table_arrays, sizes_of_written};
ghost use Rattle.c_calls.specs.internal.Packing.{ResultOfReadJson};

use crate::fault::Fault;
use crate::refusal::{Refusal, accept, refuse};
use crate::written_tables::{TableSizes, room_of, tables_for, write_tables};
use c_tables::{Node, Record, Span, Written};
use field_monty::{BabyBearParameters, MontyField31, QuarticParameters};
use lookup::{Lookup, Lookups};
use serde_json::error::Category;
use std::alloc::Global;

/// Why a text was not read.
fn text_fault(error: serde_json::Error) -> Fault
    ensures { IsJsonTextRefusal error result }
{
    if error.classify() == Category::Memory {
        Fault::Memory
    } else {
        Fault::Text(error)
    }
}

/// The set of lookups that a text says.
///
/// Refuses a text that is no JSON or not that of lookups, and then the first lookup whose lists have
/// different lengths or whose column is not its index.
fn set_from_json<const P: u32, K: QuarticParameters<P>>(
    alloc: Global,
    json: &[u8],
) -> Result<Lookups<MontyField31<P, K>>, Fault>
    ensures { MatchResult result (λ _. IsUtf8 json.now) (IsJsonRefusal P) }
{
    let records: Vec<Lookup<MontyField31<P, K>>> = match serde_json::from_slice(alloc, json) {
        Ok(records) => records,
        Err(error) => return Err(text_fault(error)),
    };
    match Lookups::from_records(alloc, records) {
        Ok(set) => Ok(set),
        Err(error) => Err(Fault::Lookup { air: 0, error }),
    }
}

/// Tables of the lookups that a text says.
fn tables_from_json<const P: u32, K: QuarticParameters<P>>(
    alloc: Global,
    json: &[u8],
    room: TableSizes,
) -> Result<Written, Fault>
    ensures { MatchResult result
        (λ w. ReadsJsonTables P json.now w × HasTableRoom (sizes_of_written w) room)
        (IsReadJsonRefusal P json.now room) }
{
    let set = set_from_json::<P, K>(alloc, json)?;
    tables_for(alloc, &set, room)
}

/// Does what `volgwain_read_json` does, over any prime field below 2^31, and answers the sizes of what is
/// written.
pub(crate) fn answer_read_json<const P: u32, K: QuarticParameters<P>>(
    alloc: Global,
    json: &[u8],
    nodes: &mut [Node],
    tuples: &mut [Span],
    names: &mut [u8],
    records: &mut [Record],
) -> Result<TableSizes, Fault>
    ensures answers { ResultOfReadJson P json.now
        (table_arrays nodes.old tuples.old names.old records.old)
        (table_arrays nodes.new tuples.new names.new records.new) result }
    ensures kept { OnErr result ((nodes.new ≡ nodes.old) × (tuples.new ≡ tuples.old)
        × (names.new ≡ names.old) × (records.new ≡ records.old)) }
{
    let room = room_of(nodes, tuples, names, records);
    let made = tables_from_json::<P, K>(alloc, json, room)?;
    Ok(write_tables(&made, nodes, tuples, names, records))
}

/// Reads the lookups of an AIR from JSON into tables.
///
/// Each array is at least as long as what is written, from its start on; the sizes say how much that is.
///
/// Answers 0, or the code of a refusal. A refused call leaves the arrays and the sizes as they were.
#[unsafe(no_mangle)]
pub extern "C" fn volgwain_read_json(
    alloc: Global,
    json: &[u8],
    nodes: &mut [Node],
    tuples: &mut [Span],
    names: &mut [u8],
    records: &mut [Record],
    sizes: &mut TableSizes,
    refusal: &mut Refusal,
    text: &mut [u8],
) -> u32
    ensures answers { AnswersReadJson 2013265921 json.now
        (table_arrays nodes.old tuples.old names.old records.old)
        (table_arrays nodes.new tuples.new names.new records.new) sizes.new result refusal.new }
    ensures kept { result ≢ 0 → (nodes.new ≡ nodes.old) × (tuples.new ≡ tuples.old)
        × (names.new ≡ names.old) × (records.new ≡ records.old) × (sizes.new ≡ sizes.old) }
{
    match answer_read_json::<2_013_265_921, BabyBearParameters>(
        alloc, json, nodes, tuples, names, records,
    ) {
        Ok(written) => {
            *sizes = written;
            accept(refusal)
        }
        Err(fault) => refuse(&fault, refusal, text),
    }
}
