//! Indexed lookups, whose readers name the entry that they read.
ghost use Rattle.std.specs.Prelude.{◌≡◌, IfOk};
ghost use Rattle.lookup_indexed.specs.Declaration.{read_of, declared_table};

use serde::{Deserialize, DeserializeOwned, Deserializer, Format, Name, Serialize};
use std::alloc::{AllocError, Global};

/// The committed trace of an AIR that holds a table's columns.
#[derive(Clone, Copy, Debug, Default, PartialEq, Eq, Hash, Serialize)]
pub enum TraceWindow {
    /// The main trace.
    #[default]
    Main,
    /// The preprocessed trace.
    Preprocessed,
}

/// A window is read by its name alone.
impl DeserializeOwned for TraceWindow {
    fn deserialize_owned<R: Format>(
        _alloc: Global,
        from: &mut Deserializer<'_, '_, R>,
    ) -> Result<TraceWindow, R::Error> {
        let names = [Name::exact("Main"), Name::exact("Preprocessed")];
        match from.variant(&names)? {
            0 => Ok(TraceWindow::Main),
            1 => Ok(TraceWindow::Preprocessed),
            _ => Err(from.unknown_variant()),
        }
    }
}

/// Reads as `DeserializeOwned` does.
impl<'de> Deserialize<'de> for TraceWindow {
    fn deserialize<R: Format>(
        alloc: Global,
        from: &mut Deserializer<'de, '_, R>,
    ) -> Result<TraceWindow, R::Error> {
        TraceWindow::deserialize_owned(alloc, from)
    }
}

/// A reader of a table. On each row `i`, `payload[j][i] = columns[j][position[i]]` for each `j`,
/// where `columns` are the table's columns.
#[derive(Debug, Drop, PartialEq, Eq, Serialize, Deserialize)]
pub struct IndexedRead {
    /// The name of the table.
    pub table: String,
    /// The column of the main trace that holds the index of the entry that each row reads.
    pub position: usize,
    /// The columns of the main trace that hold what is read, in the order of the table's columns.
    pub payload: Vec<usize>,
}

impl IndexedRead {
    /// A deep copy.
    ///
    /// Fails only when out of memory.
    pub fn copy(&self, alloc: Global) -> Result<Self, AllocError>
        ensures { IfOk result (λ r. read_of r ≡ read_of self.now) }
    {
        Ok(IndexedRead {
            table: String::from_str(alloc, self.table.as_str())?,
            position: self.position,
            payload: Vec::from_slice(alloc, self.payload.as_slice())?,
        })
    }
}

/// A table that is provided once and read by any number of readers.
#[derive(Debug, Drop, PartialEq, Eq, Serialize, Deserialize)]
pub struct IndexedTable {
    /// The name that its readers use.
    pub name: String,
    /// The trace that has the columns.
    pub window: TraceWindow,
    /// The columns of an entry, in the order in which readers read them.
    pub columns: Vec<usize>,
}

impl IndexedTable {
    /// A deep copy.
    ///
    /// Fails only when out of memory.
    pub fn copy(&self, alloc: Global) -> Result<Self, AllocError>
        ensures { IfOk result (λ t. declared_table t ≡ declared_table self.now) }
    {
        Ok(IndexedTable {
            name: String::from_str(alloc, self.name.as_str())?,
            window: self.window,
            columns: Vec::from_slice(alloc, self.columns.as_slice())?,
        })
    }
}
