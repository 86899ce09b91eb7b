//! Why a text is refused, and where.
ghost use Rattle.std.specs.Prelude.{◌≡◌};
ghost use Rattle.language.specs.declared.fault.TextFault.TheVariants.{Memory};

use std::alloc::{AllocError, AllocFailed};

/// What is wrong at a place of a text.
#[derive(Debug, Clone, Copy, PartialEq, Eq)]
pub enum Why {
    /// A quoted file or name that does not end on its line.
    Unclosed,
    /// A byte that begins nothing.
    Strange,
    /// A number of 2^64 or more.
    LongNumber,
    /// An expression of more than 1,024 layers.
    Deep,
    /// An expression was expected.
    Expression,
    /// A column was expected.
    Column,
    /// A number was expected.
    Number,
    /// An exponent from 1 to 64 was expected.
    Exponent,
    /// The names of columns were expected.
    Header,
    /// A column has no name.
    EmptyName,
    /// A column stood before it with the same name.
    RepeatedName,
    /// A number that is not below the modulus.
    LargeNumber,
    /// A line has fewer numbers than there are columns.
    MissingCell,
    /// A line has more numbers than there are columns.
    ExtraCell,
    /// A file in double quotes was expected.
    File,
    /// The end of a line was expected.
    Line,
    /// A name was expected.
    Name,
    /// A bus was expected, or `local`.
    Bus,
    /// `most` was expected, after `at`.
    Most,
    /// `query`, `provide`, `send` or `receive` was expected.
    Verb,
    /// `when` was expected.
    When,
    /// An item of an AIR was expected.
    Item,
    /// `bus` or `air` was expected.
    Section,
    /// A list has more parts than tokens, which no text has.
    Endless,
    /// This sign was expected.
    Sign(u8),
}

/// A fault of a text: the byte at which it is, and what is wrong there.
#[derive(Debug, Clone, Copy, PartialEq, Eq)]
pub struct Fault {
    pub at: usize,
    pub why: Why,
}

/// Why a text could not be read.
#[derive(Debug, Clone, Copy, PartialEq, Eq)]
pub enum TextFault {
    /// Memory ran out.
    Memory,
    /// The first fault of the text.
    Fault(Fault),
}

impl From<AllocError> for TextFault {
    ghost from_gives = { λ _ e. e ≡ Memory };

    fn from(_error: AllocError) -> TextFault {
        TextFault::Memory
    }
}

impl<T: Drop> From<AllocFailed<T>> for TextFault {
    ghost from_gives = { λ _ e. e ≡ Memory };

    fn from(_error: AllocFailed<T>) -> TextFault {
        TextFault::Memory
    }
}
