//! The two AIRs: their lookups, traces, plan and challenges.
ghost use Rattle.std.specs.Prelude.{◌<◌};

use air::Expression;
use batch::{BatchError, BatchPlan, BatchTrace};
use bench_shapes::{column, columns, element, trace};
use field_monty::{BabyBear, BabyBear4};
use lookup::{Challenges, Kind, Lookup, LookupError, Lookups};
use matrix::RowMajorMatrix;
use std::alloc::{AllocError, Global};

/// How many columns an AIR has: a tuple of four for each bus, and the count.
const WIDTH: usize = 17;

/// The column of the count.
const COUNT: usize = 16;

/// What an AIR does on each bus.
#[derive(Clone, Copy)]
pub(crate) enum Side {
    Asks,
    Provides,
}

/// The traces of both AIRs.
#[derive(Drop)]
pub(crate) struct Traces {
    pub asks: RowMajorMatrix<BabyBear>,
    pub provides: RowMajorMatrix<BabyBear>,
}

impl Traces {
    /// Those of these numbers, or `None` unless they make whole rows.
    pub(crate) fn of_numbers(
        alloc: Global,
        asked: &[u32],
        provided: &[u32],
    ) -> Result<Option<Self>, AllocError> {
        let Some(asks) = trace(alloc, asked, WIDTH)? else {
            return Ok(None);
        };
        let Some(provides) = trace(alloc, provided, WIDTH)? else {
            return Ok(None);
        };
        Ok(Some(Traces { asks, provides }))
    }

    /// Those that a plan takes.
    pub(crate) fn of_airs(&self) -> [BatchTrace<'_, BabyBear>; 2] {
        [alone(&self.asks), alone(&self.provides)]
    }
}

/// The traces of both AIRs with their plan.
#[derive(Drop)]
pub(crate) struct Planned {
    pub traces: Traces,
    pub plan: BatchPlan<BabyBear>,
}

impl Planned {
    /// Those of these numbers, or `None` unless they make whole rows.
    pub(crate) fn of_numbers(
        alloc: Global,
        asked: &[u32],
        provided: &[u32],
    ) -> Result<Option<Self>, BatchError> {
        let Some(traces) = Traces::of_numbers(alloc, asked, provided)? else {
            return Ok(None);
        };
        let airs = [
            lookups_of(alloc, Side::Asks)?,
            lookups_of(alloc, Side::Provides)?,
        ];
        let heights = [traces.asks.height(), traces.provides.height()];
        let plan = BatchPlan::new(
            alloc,
            Vec::from_array(alloc, airs)?,
            Vec::from_array(alloc, heights)?,
        )?;
        Ok(Some(Planned { traces, plan }))
    }
}

/// The lookups of an AIR. Lookup `i` has the tuple of columns `4 * i` to `4 * i + 3` on bus `i`. Its
/// count is column 16 where the AIR asks, at most 4, and the negative of that where it provides.
pub(crate) fn lookups_of(alloc: Global, side: Side) -> Result<Lookups<BabyBear>, LookupError> {
    let mut records = Vec::with_capacity(alloc, 4)?;
    for bus in 0..4 {
        records.push(bus_lookup(alloc, side, bus)?)?;
    }
    Lookups::from_records(alloc, records)
}

pub(crate) fn alpha() -> BabyBear4 {
    element([9, 2, 6, 5])
}

pub(crate) fn beta() -> BabyBear4 {
    element([3, 1, 4, 15])
}

/// An alpha and a beta for each lookup of an AIR, as the plan makes them.
pub(crate) fn challenges(alloc: Global) -> Result<Vec<BabyBear4>, AllocError> {
    Challenges::new(alloc, alpha(), beta(), 4, 4)?.for_columns(alloc, &[0, 1, 2, 3])
}

/// A main trace alone.
pub(crate) fn alone(main: &RowMajorMatrix<BabyBear>) -> BatchTrace<'_, BabyBear> {
    BatchTrace {
        main,
        preprocessed: None,
        public_values: &[],
    }
}

/// The lookup on a bus.
fn bus_lookup(alloc: Global, side: Side, bus: usize) -> Result<Lookup<BabyBear>, AllocError>
    requires { bus < 4 }
{
    let (count, count_weight) = match side {
        Side::Asks => (column(COUNT), 4),
        Side::Provides => (column(COUNT).neg(alloc)?, 0),
    };
    Ok(Lookup {
        kind: Kind::Global(format!(in alloc; "bus {bus}")?),
        elements: Vec::from_array(alloc, [columns(alloc, 4 * bus, 4)?])?,
        multiplicities: Vec::from_array(alloc, [count])?,
        count_weight,
        column: bus,
        flags: None,
    })
}
