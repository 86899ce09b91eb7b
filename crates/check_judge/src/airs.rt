//! The AIRs of a text over a field: what it says of each, over its columns or over its tables.
ghost use Rattle.std.specs.Prelude.{◌≡◌, ◌⊎◌, IfErr, IfOk, MatchResult, map, option_map, true};
ghost use Rattle.std.specs.List.{AllZip};
ghost use Rattle.field.specs.Ring.{of_nat};
ghost use Rattle.lookup.specs.Lookups.{lookups_of};
ghost use Rattle.language_meaning.specs.Shapes.{column_names, shape_of};
ghost use Rattle.language_meaning.specs.Tables.{tables_of};
ghost use Rattle.check_judge.specs.Causes.{IsAirRefusal, IsElementRefusal, IsFirstElementRefusal, IsMiscounted, IsSayingRefusal, IsTableRefusal};
ghost use Rattle.check_judge.specs.Said.{AreLookupsOf, AreSaid, AreWhole, IsSaid, SayOver, airs_of, trace_in};
ghost use Rattle.check_judge.specs.Airs.{AreFittingAirs, IsFittingAir, over_traced};
ghost use Rattle.check_judge.specs.Constraints.{AreConstrained, IsConstrained, over_constrained};
ghost use Rattle.language_meaning.specs.Lookups.{Said, said_of};
ghost use Rattle.language.specs.Batches.{air_of, section_of};
ghost use Rattle.language.specs.Tables.{table_of};

use crate::counts::{SaidCount, counts_of};
use crate::fault::JudgeFault;
use air_expressions::SymbolicExpression;
use field::Field;
use field_words::elements_of;
use language::{AirText, BatchText, SectionText, Table};
use language_meaning::{
    AirShape, AirTables, NamedAir, constraints_over, has_whole_rows, lookups_of, lookups_over,
    matrix_of,
};
use lookup::Lookups;
use lookup::debug_util::fit_fault;
use matrix::RowMajorMatrix;
use std::alloc::{AllocError, Global};

/// How many nodes all expressions of a text may have together.
pub const MAX_NODES: usize = 1_048_576;

/// An AIR over a field: its lookups, its traces and its constraints, and for each lookup what the text says of
/// the count of each message.
#[derive(Drop)]
pub struct AirOver<F> {
    pub lookups: Lookups<F>,
    pub main: RowMajorMatrix<F>,
    pub preprocessed: Option<RowMajorMatrix<F>>,
    pub public_values: Vec<F>,
    pub constraints: Vec<SymbolicExpression<F>>,
    pub counts: Vec<Vec<SaidCount>>,
}

/// What the items of each AIR of a batch say, over the columns of these shapes, one for each AIR.
///
/// Refuses another number of shapes than of AIRs, and then the faults of `lookups_of`. Also fails when out of
/// memory.
pub fn airs_named(
    alloc: Global,
    text: &[u8],
    batch: &BatchText,
    shapes: &[AirShape],
) -> Result<Vec<NamedAir>, JudgeFault>
    ensures { let sections = map section_of batch.now.sections.items in
        let sizes = map shape_of shapes.now in
        MatchResult result (λ v. SayOver text.now sections 1048576 (airs_of sections) sizes
        (map said_of v.items))
        (λ e. (e ≡ JudgeFault.Memory) ⊎ IsSayingRefusal text.now sections sizes e) }
{
    let airs = airs_of(alloc, batch)?;
    check_count(airs.len(), shapes.len())?;
    let mut named = Vec::new(alloc);
    let mut room = MAX_NODES;
    for index in 0..shapes.len() {
        let AirShape {
            columns,
            preprocessed,
            ..
        } = &shapes[index];
        let air = lookups_of(alloc, text, batch, airs[index], columns, preprocessed, room)?;
        room = air.room;
        named.push(air)?;
    }
    Ok(named)
}

/// The AIRs of a batch over these tables, one for each AIR.
pub(crate) fn airs_over<F: Field>(
    alloc: Global,
    text: &[u8],
    batch: &BatchText,
    tables: &[AirTables],
) -> Result<Vec<AirOver<F>>, JudgeFault>
    ensures said { IfOk result (λ v. let sections = map section_of batch.now.sections.items in
        AreSaid (of_nat F.ring) text.now sections 1048576 (airs_of sections)
        (map tables_of tables.now) (map over_traced v.items)) }
    ensures fit { IfOk result (λ v. AreFittingAirs v.items) }
    ensures constrained { IfOk result (λ v. let sections = map section_of batch.now.sections.items in
        AreConstrained (of_nat F.ring) text.now sections 1048576 (airs_of sections)
        (map tables_of tables.now) (map over_constrained v.items)) }
    ensures refused { IfErr result (λ e. (e ≡ JudgeFault.Memory)
        ⊎ IsTableRefusal text.now (map section_of batch.now.sections.items) (of_nat F.ring)
        (map tables_of tables.now) e) }
{
    let said = airs_of(alloc, batch)?;
    check_count(said.len(), tables.len())?;
    let mut airs = Vec::new(alloc);
    let mut room = MAX_NODES;
    for index in 0..tables.len() {
        let (air, left) = air_over(alloc, text, batch, said[index], &tables[index], index, room)?;
        room = left;
        airs.push(air)?;
    }
    Ok(airs)
}

/// Whether there are as many shapes or tables as AIRs.
fn check_count(airs: usize, tables: usize) -> Result<(), JudgeFault>
    ensures { MatchResult result (λ _. airs ≡ tables) (IsMiscounted airs tables) }
{
    if airs == tables {
        Ok(())
    } else {
        Err(JudgeFault::Tables { airs, tables })
    }
}

/// The AIRs among the sections of a batch.
pub fn airs_of(alloc: Global, batch: &BatchText) -> Result<Vec<&AirText>, AllocError>
    ensures { IfOk result (λ v. map (λ a. air_of a.now) v.items
        ≡ airs_of (map section_of batch.now.sections.items)) }
{
    let mut airs = Vec::new(alloc);
    for section in &batch.sections {
        if let SectionText::Air(air) = section {
            airs.push(air)?;
        }
    }
    Ok(airs)
}

/// An AIR with this number over its tables, and the room that it leaves.
fn air_over<F: Field>(
    alloc: Global,
    text: &[u8],
    batch: &BatchText,
    air: &AirText,
    tables: &AirTables,
    index: usize,
    room: usize,
) -> Result<(AirOver<F>, usize), JudgeFault>
    ensures said { IfOk result (λ r. (said : Said) × (r.1 ≡ said.room)
        × IsSaid (of_nat F.ring) text.now (map section_of batch.now.sections.items)
        (air_of air.now) (tables_of tables.now) room said (over_traced r.0)) }
    ensures fit { IfOk result (λ r. IsFittingAir r.0) }
    ensures constrained { IfOk result (λ r. (said : Said) × (r.1 ≡ said.room)
        × IsConstrained (of_nat F.ring) text.now (map section_of batch.now.sections.items)
        (air_of air.now) (tables_of tables.now) room said (over_constrained r.0)) }
    ensures refused { IfErr result (λ e. (e ≡ JudgeFault.Memory)
        ⊎ IsAirRefusal text.now (map section_of batch.now.sections.items) (of_nat F.ring) index
        (air_of air.now) (tables_of tables.now) room e) }
{
    let AirTables { main, preprocessed } = tables;
    let (fixed_names, fixed) = fixed_trace(alloc, preprocessed, index)?;
    if !has_whole_rows(main) {
        return Err(JudgeFault::Rows {
            air: index,
            preprocessed: false,
        });
    }
    let named = lookups_of(alloc, text, batch, air, &main.names, fixed_names, room)?;
    let lookups = lookup_set(alloc, text, &named, index)?;
    let public_values = elements_of(alloc, &named.public_values)?;
    let main = matrix_of(alloc, main)?;
    let constraints = constraints_over(alloc, &named.constraints)?;
    let counts = counts_of(alloc, &air.items)?;
    match fit_fault(&main, fixed.as_ref(), &public_values, lookups.as_slice()) {
        Some(fault) => Err(JudgeFault::Fit { air: index, fault }),
        None => Ok((
            AirOver {
                lookups,
                main,
                preprocessed: fixed,
                public_values,
                constraints,
                counts,
            },
            named.room,
        )),
    }
}

/// The lookups of an AIR with this number over a field.
fn lookup_set<F: Field>(
    alloc: Global,
    text: &[u8],
    named: &NamedAir,
    air: usize,
) -> Result<Lookups<F>, JudgeFault>
    ensures { MatchResult result (λ set. AreLookupsOf (of_nat F.ring) text.now
        (said_of named.now) (lookups_of set))
        (λ e. (e ≡ JudgeFault.Memory) ⊎ IsElementRefusal text.now (said_of named.now) e) }
{
    let records = lookups_over(alloc, text, &named.lookups)?;
    match Lookups::from_records(alloc, records) {
        Ok(lookups) => Ok(lookups),
        Err(error) => Err(JudgeFault::Lookups { air, error }),
    }
}

/// The lookups of each AIR over a field.
pub fn sets_over<F: Field>(
    alloc: Global,
    text: &[u8],
    named: &[NamedAir],
) -> Result<Vec<Lookups<F>>, JudgeFault>
    ensures { MatchResult result (λ v. AllZip (λ air set. AreLookupsOf (of_nat F.ring) text.now
        (said_of air) (lookups_of set)) named.now v.items)
        (λ e. (e ≡ JudgeFault.Memory)
        ⊎ IsFirstElementRefusal (of_nat F.ring) text.now (map said_of named.now) e) }
{
    let mut sets = Vec::new(alloc);
    for index in 0..named.len() {
        sets.push(lookup_set(alloc, text, &named[index], index)?)?;
    }
    Ok(sets)
}

/// The names and the trace of a preprocessed table, if there is one.
fn fixed_trace<F: Field>(
    alloc: Global,
    table: &Option<Table>,
    air: usize,
) -> Result<(&[Vec<u8>], Option<RowMajorMatrix<F>>), JudgeFault>
    ensures { let numbers = option_map table_of table.now in
        MatchResult result (λ r. (map (λ name. name.items) r.0.now ≡ column_names numbers)
        × (r.1 ≡ option_map (trace_in (of_nat F.ring)) numbers) × AreWhole numbers)
        (λ e. (e ≡ JudgeFault.Memory)
        ⊎ ((¬ AreWhole numbers) × (e ≡ JudgeFault.Rows air true))) }
{
    match table {
        None => Ok((&[], None)),
        Some(table) => {
            if !has_whole_rows(table) {
                return Err(JudgeFault::Rows {
                    air,
                    preprocessed: true,
                });
            }
            Ok((table.names.as_slice(), Some(matrix_of(alloc, table)?)))
        }
    }
}
