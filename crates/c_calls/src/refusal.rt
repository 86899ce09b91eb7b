//! Refusals as C sees them.
ghost use Rattle.std.specs.Prelude.{◌≡◌, ◌≢◌, ◌<◌, Some, length, slice_get};
ghost use Rattle.c_calls.specs.Codes.{call_part_of};
ghost use Rattle.c_calls.specs.Refusals.{IsRefusalOf, bad_length, bad_number, bad_rows, bad_table, batch_refusal, constraints_refusal, lookup_refusal, no_refusal, of_air, of_code, on_row, refusal_numbers, refusal_of, table_refusal, trace_refusal, refusal_of_size, witness_refusal};

use crate::codes::{Code, Part, RecordFault};
use crate::fault::Fault;
use crate::text::write_text;
use batch::BatchError;
use c_tables::{TableFault, TraceFault, TracePart};
use lookup::LookupError;

/// What was refused, and where. All are 0 where nothing was.
#[repr(C)]
#[derive(Clone, Copy, Drop)]
pub struct Refusal {
    /// One of the codes, 0 if the call was not refused.
    pub code: u32,
    /// The part of the call, or what is wrong with a record.
    pub part: u32,
    /// The AIR.
    pub air: usize,
    /// The row, the index in a part, or the node.
    pub row: usize,
    /// The lookup, which is the record, or the constraint.
    pub lookup: usize,
    /// What was expected.
    pub expected: usize,
    /// What was there.
    pub actual: usize,
    /// The length of the whole text, in bytes.
    pub text_length: usize,
}

impl Refusal {
    /// The refusal with this code and no fields.
    fn of(code: Code) -> Refusal
        ensures { result ≡ refusal_numbers (of_code code) }
    {
        Refusal {
            code: code as u32,
            part: 0,
            air: 0,
            row: 0,
            lookup: 0,
            expected: 0,
            actual: 0,
            text_length: 0,
        }
    }
}

/// The refusal of an AIR, with this code and no other fields.
fn of_air(code: Code, air: usize) -> Refusal
    ensures { result ≡ refusal_numbers (of_air code air) }
{
    Refusal {
        air,
        ..Refusal::of(code)
    }
}

/// The refusal of a lookup of an AIR on a row.
fn on_row(code: Code, air: usize, row: usize, lookup: usize) -> Refusal
    ensures { result ≡ refusal_numbers (on_row code air row lookup) }
{
    Refusal {
        row,
        lookup,
        ..of_air(code, air)
    }
}

/// The refusal of a size that is not the one that is expected.
fn unexpected(code: Code, expected: usize, actual: usize) -> Refusal
    ensures { result ≡ refusal_numbers (refusal_of_size code expected actual) }
{
    Refusal {
        expected,
        actual,
        ..Refusal::of(code)
    }
}

/// The refusal of a number of a part.
fn bad_number(part: Part, air: usize, index: usize) -> Refusal
    ensures { result ≡ refusal_numbers (bad_number part air index) }
{
    Refusal {
        part: part as u32,
        row: index,
        ..of_air(Code::BadNumber, air)
    }
}

/// The refusal of the length of a part.
fn bad_length(part: Part, expected: usize, actual: usize) -> Refusal
    ensures { result ≡ refusal_numbers (bad_length part expected actual) }
{
    Refusal {
        part: part as u32,
        ..unexpected(Code::BadLength, expected, actual)
    }
}

/// The refusal of the rows of a part.
fn bad_rows(code: Code, part: Part, air: usize) -> Refusal
    ensures { result ≡ refusal_numbers (bad_rows code part air) }
{
    Refusal {
        part: part as u32,
        ..of_air(code, air)
    }
}

/// The refusal of a record, for what is wrong with it.
fn bad_table(air: usize, lookup: usize, fault: RecordFault) -> Refusal
    ensures { result ≡ refusal_numbers (bad_table air lookup fault) }
{
    Refusal {
        part: fault as u32,
        air,
        lookup,
        ..Refusal::of(Code::BadTable)
    }
}

fn table_refusal(air: usize, lookup: usize, fault: &TableFault) -> Refusal
    ensures { result ≡ refusal_numbers (table_refusal air lookup fault.now) }
{
    match fault {
        TableFault::Memory => Refusal::of(Code::OutOfMemory),
        TableFault::Node(node) => Refusal {
            row: *node,
            ..bad_table(air, lookup, RecordFault::Node)
        },
        TableFault::Range => bad_table(air, lookup, RecordFault::Range),
        TableFault::TooManyNodesRead => bad_table(air, lookup, RecordFault::LongList),
        TableFault::BadKind => bad_table(air, lookup, RecordFault::Kind),
        TableFault::NameNotUtf8 => bad_table(air, lookup, RecordFault::Name),
        TableFault::TooDeep => bad_table(air, lookup, RecordFault::DeepExpression),
        TableFault::RowTooLarge => bad_table(air, lookup, RecordFault::LargeRow),
        TableFault::TooManyNodesWritten => bad_table(air, lookup, RecordFault::LongWrittenList),
    }
}

/// The refusal of constraints, for what is wrong with their range, and where.
fn constraints_refusal(fault: &TableFault) -> Refusal
    ensures { result ≡ refusal_numbers (constraints_refusal fault.now) }
{
    Refusal {
        code: Code::BadConstraints as u32,
        ..table_refusal(0, 0, fault)
    }
}

fn part_of(part: TracePart) -> Part
    ensures { result ≡ call_part_of part }
{
    match part {
        TracePart::Main => Part::Main,
        TracePart::Preprocessed => Part::Preprocessed,
        TracePart::PublicValues => Part::PublicValues,
    }
}

fn trace_refusal(air: usize, fault: &TraceFault) -> Refusal
    ensures { result ≡ refusal_numbers (trace_refusal air fault.now) }
{
    match fault {
        TraceFault::Memory => Refusal::of(Code::OutOfMemory),
        TraceFault::Large { part, index } => bad_number(part_of(*part), air, *index),
        TraceFault::Ragged { part } => bad_rows(Code::NoWholeRows, part_of(*part), air),
    }
}

/// The refusal of a witness, at the AIR that it names. No other refusal is told by it.
fn witness_refusal(error: &LookupError) -> Refusal
    ensures { result ≡ refusal_numbers (witness_refusal error.now) }
{
    match error {
        LookupError::TerminalPresenceMismatch {
            air,
            expected_present,
            got_present,
        } => Refusal {
            expected: usize::from(*expected_present),
            actual: usize::from(*got_present),
            ..of_air(Code::TerminalPresence, *air)
        },
        LookupError::PermutationWidthMismatch { air, expected } => Refusal {
            expected: *expected,
            ..of_air(Code::AuxiliaryWidth, *air)
        },
        LookupError::PermutationHeightMismatch { air } => of_air(Code::AuxiliaryHeight, *air),
        LookupError::ConstraintFailed { air, row } => {
            on_row(Code::ConstraintFailed, *air, *row, 0)
        }
        LookupError::TerminalSumNonZero => Refusal::of(Code::TerminalSum),
        _ => Refusal::of(Code::Unmet),
    }
}

/// The refusal of the lookup layer, at this AIR unless it names one.
fn lookup_refusal(at: usize, error: &LookupError) -> Refusal
    ensures { result ≡ refusal_numbers (lookup_refusal at error.now) }
{
    match error {
        LookupError::Memory => Refusal::of(Code::OutOfMemory),
        LookupError::VanishingDenominator { row, lookup } => {
            on_row(Code::VanishingDenominator, at, *row, *lookup)
        }
        LookupError::FlagNotBoolean { row, lookup } => {
            on_row(Code::FlagNotBoolean, at, *row, *lookup)
        }
        LookupError::FlagsNotExclusive { row, lookup } => {
            on_row(Code::FlagsNotExclusive, at, *row, *lookup)
        }
        LookupError::BadRecord { lookup } => on_row(Code::MalformedLookup, at, 0, *lookup),
        LookupError::BusWidthMismatch {
            expected,
            actual,
            ..
        } => unexpected(Code::BusWidths, *expected, *actual),
        LookupError::TupleWidths { width, other, .. } => {
            unexpected(Code::TupleWidths, *width, *other)
        }
        LookupError::MultiplicityHeightBoundExceeded { .. } => Refusal::of(Code::HeightBound),
        LookupError::CountOverflow => Refusal::of(Code::CountOverflow),
        LookupError::CountWeightOverflow => of_air(Code::WeightOverflow, at),
        LookupError::DegreeOverflow => of_air(Code::DegreeOverflow, at),
        LookupError::CommitmentMismatch
        | LookupError::PermutationLengthMismatch { .. }
        | LookupError::Air(_) => of_air(Code::Unmet, at),
        LookupError::TerminalPresenceMismatch { .. }
        | LookupError::PermutationWidthMismatch { .. }
        | LookupError::PermutationHeightMismatch { .. }
        | LookupError::ConstraintFailed { .. }
        | LookupError::TerminalSumNonZero => witness_refusal(error),
    }
}

fn batch_refusal(error: &BatchError) -> Refusal
    ensures { result ≡ refusal_numbers (batch_refusal error.now) }
{
    match error {
        BatchError::Memory => Refusal::of(Code::OutOfMemory),
        BatchError::Lookup(error) => lookup_refusal(0, error),
        BatchError::LengthMismatch { expected, actual } => {
            bad_length(Part::Batch, *expected, *actual)
        }
        BatchError::TooManyIds { ids } => unexpected(Code::TooManyIds, 0, *ids),
        BatchError::UnlawfulIds => Refusal::of(Code::UnlawfulIds),
        BatchError::TraceMismatch { air } => of_air(Code::TraceMismatch, *air),
        BatchError::RepeatedChallenge => Refusal::of(Code::RepeatedChallenge),
        BatchError::Air { air, error } => lookup_refusal(*air, error),
        BatchError::CountOverflow => Refusal::of(Code::CountOverflow),
    }
}

/// A refusal as C sees it, without the length of its text.
fn refusal_of(fault: &Fault) -> Refusal
    ensures { result ≡ refusal_numbers (refusal_of fault.now) }
{
    match fault {
        Fault::Memory => Refusal::of(Code::OutOfMemory),
        Fault::Table { air, lookup, fault } => table_refusal(*air, *lookup, fault),
        Fault::Traces { air, fault } => trace_refusal(*air, fault),
        Fault::Large { part, air, index } => bad_number(*part, *air, *index),
        Fault::Id { index } => bad_number(Part::Ids, 0, *index),
        Fault::Width => bad_number(Part::Sizes, 0, 0),
        Fault::Rows => bad_number(Part::Rows, 0, 0),
        Fault::Text(_) => Refusal::of(Code::BadText),
        Fault::Length {
            part,
            expected,
            actual,
        } => bad_length(*part, *expected, *actual),
        Fault::Ragged { air } => bad_rows(Code::NoWholeRows, Part::Auxiliary, *air),
        Fault::Misfit { air } => of_air(Code::DoesNotFit, *air),
        Fault::Heights { air } => bad_rows(Code::OtherHeight, Part::Preprocessed, *air),
        Fault::Lookup { air, error } => lookup_refusal(*air, error),
        Fault::Mismatch { .. } => Refusal::of(Code::Mismatch),
        Fault::Batch(error) => batch_refusal(error),
        Fault::Constraints { fault } => constraints_refusal(fault),
        Fault::UnfitConstraints => of_air(Code::DoesNotFit, 0),
        Fault::Nonzero(fault) => { on_row(Code::NonzeroConstraint, 0, fault.row, fault.constraint) }
    }
}

/// Writes a refusal and its text, and returns its code.
pub(crate) fn refuse(fault: &Fault, refusal: &mut Refusal, text: &mut [u8]) -> u32
    ensures code { result ≡ refusal.new.code }
    ensures refused { result ≢ 0 }
    ensures is { IsRefusalOf fault.now refusal.new }
    ensures closed { refusal.new.text_length < length text.old
        → slice_get text.new refusal.new.text_length ≡ Some 0 }
{
    let made = refusal_of(fault);
    let text_length = write_text(fault, text);
    *refusal = Refusal {
        text_length,
        ..made
    };
    made.code
}

/// Writes that nothing is refused, and returns 0.
pub(crate) fn accept(refusal: &mut Refusal) -> u32
    ensures code { result ≡ refusal.new.code }
    ensures accepted { result ≡ 0 }
    ensures is { refusal.new ≡ no_refusal }
{
    *refusal = Refusal::of(Code::Ok);
    0
}
