//! The numbers of `bindings/c/volgwain.h`: codes and parts under its names, and what can be wrong with a record
//! by the numbers in its comment.

use std::fmt;

/// Why a call is refused.
#[derive(Clone, Copy)]
pub(crate) enum Code {
    Ok = 0,
    OutOfMemory = 1,
    BadTable = 2,
    BadNumber = 3,
    BadLength = 4,
    NoWholeRows = 5,
    DoesNotFit = 6,
    OtherHeight = 7,
    VanishingDenominator = 8,
    FlagNotBoolean = 9,
    FlagsNotExclusive = 10,
    MalformedLookup = 11,
    BusWidths = 12,
    TupleWidths = 13,
    TooManyIds = 14,
    HeightBound = 15,
    TraceMismatch = 16,
    TerminalPresence = 17,
    AuxiliaryWidth = 18,
    AuxiliaryHeight = 19,
    ConstraintFailed = 20,
    TerminalSum = 21,
    RepeatedChallenge = 22,
    CountOverflow = 23,
    WeightOverflow = 24,
    DegreeOverflow = 25,
    Mismatch = 26,
    BadText = 27,
    UnlawfulIds = 28,
    BadConstraints = 29,
    NonzeroConstraint = 30,
    /// A refusal that no call can meet, which the header has no name for.
    Unmet = 31,
}

/// What is wrong with a record: the part of `BadTable`, and of `BadConstraints`.
#[derive(Clone, Copy)]
pub(crate) enum RecordFault {
    Node = 1,
    Range = 2,
    LongList = 3,
    Kind = 4,
    Name = 5,
    DeepExpression = 6,
    LargeRow = 7,
    LongWrittenList = 8,
}

/// A part of a call: the part of `BadNumber`, `BadLength`, `NoWholeRows` and `OtherHeight`.
#[derive(Clone, Copy, Debug)]
pub enum Part {
    /// The main trace.
    Main = 1,
    /// The preprocessed trace.
    Preprocessed = 2,
    /// The public values.
    PublicValues = 3,
    /// An alpha and a beta for each lookup.
    Challenges = 4,
    /// Alpha, or the alphas of a grid.
    Alphas = 5,
    /// Beta, or the betas of a grid.
    Betas = 6,
    /// The cells of auxiliary traces.
    Auxiliary = 7,
    /// The terminals.
    Terminals = 8,
    /// What there is for each AIR.
    Batch = 9,
    /// The degrees.
    Degrees = 10,
    /// The ids.
    Ids = 11,
    /// The sizes of a plan.
    Sizes = 12,
    /// The nodes that a call writes.
    Nodes = 13,
    /// The ranges of tuples that a call writes.
    Tuples = 14,
    /// The names that a call writes.
    Names = 15,
    /// The records that a call writes.
    Records = 16,
    /// A range of rows, or the rows around it.
    Rows = 17,
    /// What rows are shifted by.
    Offset = 18,
    /// The numbers of a table of groups, or of a mismatch.
    Numbers = 19,
    /// Which tuples are queries.
    Queries = 20,
    /// What is shown of each lookup.
    Enforced = 21,
    /// The bounds of multiplicities.
    Bounds = 22,
}

impl fmt::Display for Part {
    fn fmt<W: fmt::Write>(&self, f: &mut fmt::Formatter<W>) -> fmt::Result {
        match self {
            Part::Main => write!(f, "main trace"),
            Part::Preprocessed => write!(f, "preprocessed trace"),
            Part::PublicValues => write!(f, "public values"),
            Part::Challenges => write!(f, "challenges"),
            Part::Alphas => write!(f, "alphas"),
            Part::Betas => write!(f, "betas"),
            Part::Auxiliary => write!(f, "auxiliary trace"),
            Part::Terminals => write!(f, "terminals"),
            Part::Batch => write!(f, "entries for the AIRs"),
            Part::Degrees => write!(f, "degrees"),
            Part::Ids => write!(f, "ids"),
            Part::Sizes => write!(f, "sizes of the plan"),
            Part::Nodes => write!(f, "nodes"),
            Part::Tuples => write!(f, "tuples"),
            Part::Names => write!(f, "names"),
            Part::Records => write!(f, "records"),
            Part::Rows => write!(f, "rows"),
            Part::Offset => write!(f, "offset"),
            Part::Numbers => write!(f, "numbers"),
            Part::Queries => write!(f, "queries"),
            Part::Enforced => write!(f, "answers for the lookups"),
            Part::Bounds => write!(f, "bounds"),
        }
    }
}
