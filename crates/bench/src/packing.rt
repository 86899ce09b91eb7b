//! Packing of many lookups.
ghost use Rattle.std.specs.Prelude.{◌<◌};

use bench_shapes::{REFUSED, column, columns};
use field_monty::BabyBear;
use lookup::{Kind, LogUpGadget, Lookup, LookupError, Lookups};
use std::alloc::{AllocError, Global};

/// How many columns the last packed set has.
pub(crate) fn pack(
    alloc: Global,
    count: u32,
    buses: u32,
    max_degree: u32,
    rounds: u32,
    skip: u32,
) -> Result<u32, LookupError> {
    if buses == 0 {
        return Ok(REFUSED);
    }
    let lookups = on_buses(alloc, count as usize, buses as usize)?;
    let mut packed_columns = 0;
    for _ in 0..rounds {
        let copy = lookups.copy(alloc)?;
        if skip != 1 {
            let packed = copy.pack_same_bus(alloc, &LogUpGadget::new(), max_degree as usize)?;
            packed_columns = u32::try_from(packed.as_slice().len()).unwrap_or(REFUSED);
        }
    }
    Ok(packed_columns)
}

/// So many lookups on so many buses, in turn.
fn on_buses(alloc: Global, count: usize, buses: usize) -> Result<Lookups<BabyBear>, LookupError>
    requires { 0 < buses }
{
    let mut records = Vec::with_capacity(alloc, count)?;
    for index in 0..count {
        records.push(on_bus(alloc, index, index % buses)?)?;
    }
    Lookups::from_records(alloc, records)
}

/// The lookup of this column on this bus.
fn on_bus(alloc: Global, index: usize, bus: usize) -> Result<Lookup<BabyBear>, AllocError> {
    Ok(Lookup {
        kind: Kind::Global(format!(in alloc; "bus {bus}")?),
        elements: Vec::from_array(alloc, [columns(alloc, 4 * (index % 8), 4)?])?,
        multiplicities: Vec::from_array(alloc, [column(32)])?,
        count_weight: 1,
        column: index,
        flags: None,
    })
}
