//! Indexed lookups, whose readers name the entry that they read.
ghost use Rattle.std.specs.Prelude.{◌≡◌, ◌⊎◌, ◌↔◌, [], IfOk, IsTrue, MatchResult, map};
ghost use Rattle.air_expressions.specs.Layout.{layout_of_widths};
ghost use Rattle.lookup_indexed.specs.Declaration.{read_of, declared_table};
ghost use Rattle.lookup_indexed.specs.Faults.{AreFaultlessDeclarations, IsFirstDeclarationFault};
ghost use Rattle.lookup_indexed.specs.declared.error.IndexedLookupError.TheVariants.{Memory};

use crate::symbolic::InteractionSymbolicBuilder;
use air::{Air, AirLayout};
use field::{ExtensionField, Field};
pub use lookup_indexed::{
    IndexedDeclarations, IndexedLookupError, IndexedRead, IndexedTable, TraceWindow,
};
use serde::Serialize;
use std::alloc::{AllocError, Global};

/// The indexed lookups of one AIR: the tables that it reads and those that it provides. Each
/// declaration was checked against the widths of the AIR.
///
/// They are written as an object of both lists, and not read as such: read
/// [`IndexedDeclarations`](crate::IndexedDeclarations) and pass them to [`IndexedLookups::new`].
#[derive(Debug, Drop, PartialEq, Eq, Serialize)]
pub struct IndexedLookups {
    reads: Vec<IndexedRead>,
    tables: Vec<IndexedTable>,
}

impl IndexedLookups {
    ghost use Rattle.lookup_record.specs.IndexedLookups.{Declares, reads_of, tables_of};

    /// These readers and tables, unchanged. They are checked against the widths of a layout, and
    /// the first fault is refused.
    ///
    /// Readers come first, each against the main width, in this order:
    ///
    /// - `ColumnOutOfRange` if its position is not below the width;
    /// - `EmptyPayload`;
    /// - `ColumnOutOfRange` or `RepeatedColumn` at the first bad column of the payload; the range
    ///   is checked first. A payload may name the position's column.
    ///
    /// Then the tables, each against the width of its own window: `EmptyTable`, and then its
    /// columns as above. Also fails when out of memory, with `Memory`. After a refusal the lists
    /// are dropped.
    pub fn new(
        alloc: Global,
        reads: Vec<IndexedRead>,
        tables: Vec<IndexedTable>,
        layout: &AirLayout,
    ) -> Result<Self, IndexedLookupError>
        ensures { MatchResult result
            (λ set. (reads_of set ≡ reads.items) × (tables_of set ≡ tables.items)
            × AreFaultlessDeclarations layout.now
            (map read_of reads.items) (map declared_table tables.items))
            (λ e. (e ≡ Memory)
            ⊎ IsFirstDeclarationFault layout.now
            (map read_of reads.items) (map declared_table tables.items) e) }
    {
        lookup_indexed::check_declarations(alloc, &reads, &tables, layout)?;
        Ok(IndexedLookups { reads, tables })
    }

    /// What an AIR declares in a new builder with its own layout, in the order of its declarations.
    ///
    /// Fails with the AIR's own refusal, and then as [`IndexedLookups::new`] does. Also fails when
    /// out of memory, with `Memory`.
    pub fn from_air<F: Field, EF: ExtensionField<F>, A: Air<InteractionSymbolicBuilder<F, EF>>>(
        alloc: Global,
        air: &A,
    ) -> Result<Self, IndexedLookupError>
        ensures { Declares A.evaluates air.now
            (layout_of_widths (A.width air.now) (A.preprocessed_width air.now)
            (A.num_public_values air.now)) result }
    {
        let layout = AirLayout::from_air(air);
        let builder = InteractionSymbolicBuilder::from_air(alloc, air, layout)?;
        let (reads, tables) = builder.into_declarations();
        IndexedLookups::new(alloc, reads, tables, &layout)
    }

    /// The readers, in the order in which they were declared.
    pub fn reads(&self) -> &[IndexedRead]
        ensures { result.now ≡ reads_of self.now }
    {
        self.reads.as_slice()
    }

    /// The tables, in the order in which they were declared.
    pub fn tables(&self) -> &[IndexedTable]
        ensures { result.now ≡ tables_of self.now }
    {
        self.tables.as_slice()
    }

    /// Whether the AIR reads no table and provides none.
    pub fn is_empty(&self) -> bool
        ensures { IsTrue result ↔ ((reads_of self.now ≡ []) × (tables_of self.now ≡ [])) }
    {
        self.reads.is_empty() && self.tables.is_empty()
    }

    /// A deep copy.
    ///
    /// Fails only when out of memory.
    pub fn copy(&self, alloc: Global) -> Result<Self, AllocError>
        ensures reads { IfOk result (λ r. map read_of (reads_of r)
            ≡ map read_of (reads_of self.now)) }
        ensures tables { IfOk result (λ r. map declared_table (tables_of r)
            ≡ map declared_table (tables_of self.now)) }
    {
        Ok(IndexedLookups {
            reads: copy_reads(alloc, self.reads())?,
            tables: copy_tables(alloc, self.tables())?,
        })
    }
}

/// Copies of the readers.
fn copy_reads(alloc: Global, reads: &[IndexedRead]) -> Result<Vec<IndexedRead>, AllocError>
    ensures { IfOk result (λ v. map read_of v.items ≡ map read_of reads.now) }
{
    let mut copies = Vec::new(alloc);
    for read in reads {
        copies.push(read.copy(alloc)?)?;
    }
    Ok(copies)
}

/// Copies of the tables.
fn copy_tables(alloc: Global, tables: &[IndexedTable]) -> Result<Vec<IndexedTable>, AllocError>
    ensures { IfOk result (λ v. map declared_table v.items ≡ map declared_table tables.now) }
{
    let mut copies = Vec::new(alloc);
    for table in tables {
        copies.push(table.copy(alloc)?)?;
    }
    Ok(copies)
}
