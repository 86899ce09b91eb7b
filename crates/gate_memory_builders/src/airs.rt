//! Pushes to a recorder and calls of buses, and two AIRs: one makes such pushes, one only asserts.
ghost use Rattle.std.specs.Prelude.{◌≡◌, OnOk};
ghost use Rattle.lookup_record.specs.RecordedAir.{recorded_air};

use crate::inputs::{Recorder, alone, cell, ext_cell};
use air::{
    Air, AirBuilder, AirError, BaseAir, ExtensionBuilder, SymbolicExpression, current_cell,
    current_cells,
};
use field::Field;
use lookup::{
    Count, IndexedLookupBuilder, InteractionBuilder, InteractionSymbolicBuilder, LookupBus,
    PermutationCheckBus, TraceWindow,
};
use std::alloc::{AllocError, Global};

/// A push to a recorder: an assertion, or a record of some kind.
#[derive(Clone, Copy)]
pub enum Push {
    AssertZero,
    AssertZeroExt,
    LocalInteraction,
    ExclusiveInteraction,
    Interaction,
    IndexedRead,
    IndexedTable,
}

impl Push {
    /// The name in the lines.
    pub fn name(self) -> &'static str {
        match self {
            Push::AssertZero => "assert_zero",
            Push::AssertZeroExt => "assert_zero_ext",
            Push::LocalInteraction => "push_local_interaction",
            Push::ExclusiveInteraction => "push_exclusive_interaction",
            Push::Interaction => "push_interaction",
            Push::IndexedRead => "push_indexed_read",
            Push::IndexedTable => "push_indexed_table",
        }
    }
}

/// Two assertions, and a record of each kind.
pub const PUSHES: [Push; 7] = [
    Push::AssertZero,
    Push::AssertZeroExt,
    Push::LocalInteraction,
    Push::ExclusiveInteraction,
    Push::Interaction,
    Push::IndexedRead,
    Push::IndexedTable,
];

/// Two cells.
fn key<F: Field>(alloc: Global) -> Result<Vec<SymbolicExpression<F>>, AllocError> {
    let mut key = alone(alloc, cell(0))?;
    key.push(cell(1))?;
    Ok(key)
}

/// Makes this push.
pub fn make_push<F: Field>(
    alloc: Global,
    builder: &mut Recorder<F>,
    push: Push,
) -> Result<(), AirError>
    ensures { OnOk result ((recorded_air builder.new).constraints.layout
        ≡ (recorded_air builder.old).constraints.layout) }
{
    match push {
        Push::AssertZero => builder.assert_zero(alloc, cell(0)),
        Push::AssertZeroExt => builder.assert_zero_ext(alloc, ext_cell()),
        Push::LocalInteraction => push_local(alloc, builder),
        Push::ExclusiveInteraction => push_group(alloc, builder),
        Push::Interaction => {
            builder.push_interaction(alloc, "other", key(alloc)?, Count::from(1))
        }
        Push::IndexedRead => {
            let payload = Vec::from_slice(alloc, &[1usize, 2])?;
            builder.push_indexed_read(alloc, "table", 0, payload)
        }
        Push::IndexedTable => {
            let columns = Vec::from_slice(alloc, &[1usize, 2])?;
            builder.push_indexed_table(alloc, "table", TraceWindow::Main, columns)
        }
    }
}

/// Pushes a local lookup of one tuple.
fn push_local<F: Field>(alloc: Global, builder: &mut Recorder<F>) -> Result<(), AirError>
    ensures { OnOk result ((recorded_air builder.new).constraints.layout
        ≡ (recorded_air builder.old).constraints.layout) }
{
    let tuples = alone(alloc, (key(alloc)?, Count::from(1)))?;
    builder.push_local_interaction(alloc, tuples)
}

/// Pushes a group of one branch.
fn push_group<F: Field>(alloc: Global, builder: &mut Recorder<F>) -> Result<(), AirError>
    ensures { OnOk result ((recorded_air builder.new).constraints.layout
        ≡ (recorded_air builder.old).constraints.layout) }
{
    let key = key(alloc)?;
    let branches = alone(alloc, (cell(2), Count::from(1), key))?;
    builder.push_exclusive_interaction(alloc, "other", branches)
}

/// A call of a bus, or of the filter of the first row. The other two filters differ from it in their condition alone,
/// so they are not called.
#[derive(Clone, Copy)]
pub enum BusCall {
    TableEntry,
    LookupKey,
    Send,
    Receive,
    LookupKeyExclusive,
    AssertOnFirstRow,
    AssertExtOnFirstRow,
    MainOnFirstRow,
}

impl BusCall {
    /// The name in the lines.
    pub fn name(self) -> &'static str {
        match self {
            BusCall::TableEntry => "table_entry",
            BusCall::LookupKey => "lookup_key",
            BusCall::Send => "send",
            BusCall::Receive => "receive",
            BusCall::LookupKeyExclusive => "lookup_key_exclusive",
            BusCall::AssertOnFirstRow => "assert_zero on the first row",
            BusCall::AssertExtOnFirstRow => "assert_zero_ext on the first row",
            BusCall::MainOnFirstRow => "main on the first row",
        }
    }
}

/// Makes this call on cells.
pub fn call_bus<AB: InteractionBuilder + ExtensionBuilder>(
    alloc: Global,
    builder: &mut AB,
    call: BusCall,
) -> Result<(), AirError> {
    let key = current_cells(alloc, &*builder, 3, &[0, 1])?;
    let cell = current_cell(alloc, &*builder, 3, 2)?;
    let (keys, sent) = (LookupBus::new("keys"), PermutationCheckBus::new("sent"));
    match call {
        BusCall::TableEntry => keys.table_entry(alloc, builder, key, cell),
        BusCall::LookupKey => keys.lookup_key(alloc, builder, key, Count::bounded(cell, 2)),
        BusCall::Send => sent.send(alloc, builder, key, Count::bounded(cell, 2)),
        BusCall::Receive => sent.receive(alloc, builder, key, Count::bounded(cell, 2)),
        BusCall::LookupKeyExclusive => {
            let branches = alone(alloc, (cell, key))?;
            keys.lookup_key_exclusive(alloc, builder, branches)
        }
        BusCall::AssertOnFirstRow => builder.when_first_row().assert_zero(alloc, cell),
        BusCall::AssertExtOnFirstRow => {
            let cell = AB::lift(cell);
            builder.when_first_row().assert_zero_ext(alloc, cell)
        }
        BusCall::MainOnFirstRow => {
            builder.when_first_row().main(alloc)?;
            Ok(())
        }
    }
}

/// Three columns. Makes all [`PUSHES`].
pub struct EachRecord;

impl<F> BaseAir<F> for EachRecord {
    ghost width = { λ _. 3 };

    ghost preprocessed_width = { λ _. 0 };

    ghost num_public_values = { λ _. 0 };

    fn width(&self) -> usize {
        3
    }

    fn preprocessed_width(&self) -> usize {
        0
    }

    fn num_public_values(&self) -> usize {
        0
    }
}

impl<F: Field> Air<InteractionSymbolicBuilder<F, F>> for EachRecord {
    ghost evaluates = { λ _ before answer after. OnOk answer
        ((recorded_air after).constraints.layout ≡ (recorded_air before).constraints.layout) };

    fn eval(
        &self,
        alloc: Global,
        builder: &mut InteractionSymbolicBuilder<F, F>,
    ) -> Result<(), AirError> {
        for push in &PUSHES {
            make_push(alloc, builder, *push)?;
        }
        Ok(())
    }

    ghost keeps_layout = { λ air before after h. h };
}

/// Three columns. Asserts that cells are zero, and pushes nothing.
pub struct Zeros;

impl<F> BaseAir<F> for Zeros {
    ghost width = { λ _. 3 };

    ghost preprocessed_width = { λ _. 0 };

    ghost num_public_values = { λ _. 0 };

    fn width(&self) -> usize {
        3
    }

    fn preprocessed_width(&self) -> usize {
        0
    }

    fn num_public_values(&self) -> usize {
        0
    }
}

impl<AB: AirBuilder> Air<AB> for Zeros {
    ghost evaluates = { λ _ before answer after. OnOk answer (AB.layout after ≡ AB.layout before) };

    /// Asserts that five cells are zero, two of them twice.
    fn eval(&self, alloc: Global, builder: &mut AB) -> Result<(), AirError> {
        let cells = current_cells(alloc, &*builder, 3, &[0, 1, 2, 0, 1])?;
        builder.assert_zeros(alloc, cells)
    }

    ghost keeps_layout = { λ air before after h. h };
}
