//! The variables of expressions.
ghost use Rattle.std.specs.Prelude.{◌≡◌};

use serde::{Case, Described, Serialize, Serializer};
use std::marker::PhantomData;

/// Where a variable is read.
#[derive(Clone, Copy, Debug, PartialEq, Eq, Hash)]
pub enum BaseEntry {
    /// A cell of the preprocessed trace, in the current row at offset 0 and the next one at 1.
    Preprocessed {
        /// 0 for the current row, 1 for the next one.
        offset: usize,
    },
    /// A cell of the main trace, in the current row at offset 0 and the next one at 1.
    Main {
        /// 0 for the current row, 1 for the next one.
        offset: usize,
    },
    /// A public value.
    Public,
}

/// What an entry with data holds, as it is written.
#[derive(Drop, Serialize)]
struct Offset {
    offset: usize,
}

impl Described for BaseEntry {}

/// An entry with data is written as a map with one member, named for it. A public value is its name.
impl Serialize for BaseEntry {
    fn serialize<S: Serializer>(&self, out: &mut S) -> Result<(), S::Error> {
        match self {
            BaseEntry::Preprocessed { offset } => {
                write_variant("Preprocessed", &Offset { offset: *offset }, out)
            }
            BaseEntry::Main { offset } => write_variant("Main", &Offset { offset: *offset }, out),
            BaseEntry::Public => out.str_cased("Public", Case::AsIs),
        }
    }
}

/// Writes a variant with data: a map with one member, named for the variant.
pub(crate) fn write_variant<T: Serialize, S: Serializer>(
    name: &str,
    data: &T,
    out: &mut S,
) -> Result<(), S::Error> {
    out.begin_map(Some(1))?;
    out.variant_key(name, Case::AsIs)?;
    data.serialize(out)?;
    out.end_map()
}

/// A cell of a window or a public value.
#[derive(Clone, Copy, Debug, Serialize)]
pub struct SymbolicVariable<F> {
    /// Where it is read.
    pub entry: BaseEntry,
    /// The column, or the index among the public values.
    pub index: usize,
    #[serde(skip)]
    field: PhantomData<F>,
}

impl<F> SymbolicVariable<F> {
    /// The variable at `index` of `entry`.
    pub fn new(entry: BaseEntry, index: usize) -> Self
        ensures entry { result.entry ≡ entry }
        ensures index { result.index ≡ index }
    {
        SymbolicVariable {
            entry,
            index,
            field: PhantomData,
        }
    }
}

/// Where a variable of an extension is read.
#[derive(Clone, Copy, Debug, PartialEq, Eq, Hash)]
pub enum ExtEntry {
    /// A cell of the permutation trace, in the current row at offset 0 and the next one at 1.
    Permutation {
        /// 0 for the current row, 1 for the next one.
        offset: usize,
    },
    /// A challenge.
    Challenge,
    /// A value of the permutation argument.
    PermutationValue,
}

/// A cell of the permutation trace, a challenge or a value of the permutation argument.
#[derive(Clone, Copy, Debug)]
pub struct SymbolicVariableExt<F, EF> {
    /// Where it is read.
    pub entry: ExtEntry,
    /// The column, or the index among the challenges or the values.
    pub index: usize,
    fields: PhantomData<(F, EF)>,
}

impl<F, EF> SymbolicVariableExt<F, EF> {
    /// The variable at `index` of `entry`.
    pub fn new(entry: ExtEntry, index: usize) -> Self
        ensures entry { result.entry ≡ entry }
        ensures index { result.index ≡ index }
    {
        SymbolicVariableExt {
            entry,
            index,
            fields: PhantomData,
        }
    }
}
