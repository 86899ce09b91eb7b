//! What a run reads of its files: the batch, its tables, and the shapes of its AIRs.
ghost use Rattle.std.specs.Prelude.{◌≡◌, ◌⊎◌, Err, MatchResult, Ok, map};
ghost use Rattle.language_meaning.specs.Files.{named_of};
ghost use Rattle.language_meaning.specs.Shapes.{all_shapes, shape_of};
ghost use Rattle.language_meaning.specs.Tables.{all_tables, tables_of};
ghost use Rattle.language_meaning.specs.declared.table_fault.TableRefusal.{TableRefusal};
ghost use Rattle.language.specs.Batches.{batch_at, section_of};
ghost use Rattle.language.specs.declared.fault.Fault.{Fault};

use check_report::{Given, RunRefusal};
use language::{BatchText, TextFault, read_batch};
use language_meaning::{AirShape, AirTables, TableFault, read_shapes, read_tables};
use std::alloc::Global;

/// The batch in a text.
pub(crate) fn batch_of(alloc: Global, given: Given<'_>) -> Result<BatchText, RunRefusal>
    ensures { MatchResult result (λ batch. batch_at given.entry.text.now
        ≡ Ok (map section_of batch.sections.items))
        (λ e. (e ≡ RunRefusal.Memory)
        ⊎ ((fault : Fault) × (batch_at given.entry.text.now ≡ Err fault))) }
{
    match read_batch(alloc, given.text) {
        Ok(batch) => Ok(batch),
        Err(TextFault::Memory) => Err(RunRefusal::Memory),
        Err(TextFault::Fault(fault)) => {
            Err(RunRefusal::of_text(alloc, given.file, given.text, fault)?)
        }
    }
}

/// The tables that a batch names.
pub(crate) fn tables_in(
    alloc: Global,
    given: Given<'_>,
    batch: &BatchText,
    modulus: u64,
) -> Result<Vec<AirTables>, RunRefusal>
    ensures { let read = all_tables given.entry.text.now (map named_of given.entry.files.now) modulus
        (map section_of batch.now.sections.items) in
        MatchResult result (λ v. read ≡ Ok (map tables_of v.items))
        (λ e. (e ≡ RunRefusal.Memory) ⊎ ((refusal : TableRefusal) × (read ≡ Err refusal))) }
{
    match read_tables(alloc, given.text, batch, given.files, modulus) {
        Ok(tables) => Ok(tables),
        Err(TableFault::Memory) => Err(RunRefusal::Memory),
        Err(TableFault::Refused(refusal)) => Err(RunRefusal::of_tables(alloc, given, refusal)?),
    }
}

/// The shapes of the AIRs of a batch.
pub(crate) fn shapes_in(
    alloc: Global,
    given: Given<'_>,
    batch: &BatchText,
    modulus: u64,
) -> Result<Vec<AirShape>, RunRefusal>
    ensures { let read = all_shapes given.entry.text.now (map named_of given.entry.files.now) modulus
        (map section_of batch.now.sections.items) in
        MatchResult result (λ v. read ≡ Ok (map shape_of v.items))
        (λ e. (e ≡ RunRefusal.Memory) ⊎ ((refusal : TableRefusal) × (read ≡ Err refusal))) }
{
    match read_shapes(alloc, given.text, batch, given.files, modulus) {
        Ok(shapes) => Ok(shapes),
        Err(TableFault::Memory) => Err(RunRefusal::Memory),
        Err(TableFault::Refused(refusal)) => Err(RunRefusal::of_tables(alloc, given, refusal)?),
    }
}
