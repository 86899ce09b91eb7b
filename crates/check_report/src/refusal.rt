//! Why a run is refused, as text.
ghost use Rattle.std.specs.Prelude.{◌≡◌, IfOk};
ghost use Rattle.check_report.specs.Told.{file_line, refusal_text};
ghost use Rattle.check_report.specs.declared.refusal.RunRefusal.TheVariants.{Memory};

use crate::given::Given;
use crate::hint::{Hint, hint_of, hint_of_text};
use crate::mark::{name_text, push_mark, push_place, push_why};
use batch::BatchError;
use check_judge::JudgeFault;
use check_page::{Page, air_at, lookup_at, trace_file};
use field_list::FieldEntry;
use language::{BatchText, Fault, Span, place_of};
use language_meaning::{ElementWhy, TableRefusal, TableWhy, bytes_of, content_of, path_beside};
use lookup::LookupError;
use lookup::debug_util::FitFault;
use std::alloc::{AllocError, AllocFailed, Global};

/// A refusal of the program.
#[derive(Debug, Drop)]
pub enum RunRefusal {
    /// Out of memory.
    Memory,
    /// Anything else, as the lines that tell it.
    Told(Vec<u8>),
}

impl From<AllocError> for RunRefusal {
    ghost from_gives = { λ _ e. e ≡ Memory };

    fn from(_error: AllocError) -> RunRefusal {
        RunRefusal::Memory
    }
}

impl<T: Drop> From<AllocFailed<T>> for RunRefusal {
    ghost from_gives = { λ _ e. e ≡ Memory };

    fn from(_error: AllocFailed<T>) -> RunRefusal {
        RunRefusal::Memory
    }
}

impl RunRefusal {
    /// The line `FILE: error: WHAT` about a whole file. Each ASCII control character of the file's name
    /// is a question mark.
    ///
    /// Fails when out of memory.
    pub fn of_file(alloc: Global, file: &[u8], what: &str) -> Result<RunRefusal, AllocError>
        ensures { IfOk result (λ e. refusal_text e ≡ file_line file.now what.now) }
    {
        let mut line = Page::new(alloc);
        line.shown(file)?;
        line.word(": error: ")?;
        line.word(what)?;
        line.word("\n")?;
        Ok(RunRefusal::Told(line.bytes))
    }

    /// A word that writes no challenge, which is the value of an option.
    pub fn of_challenge(
        alloc: Global,
        field: FieldEntry,
        option: &str,
        word: &str,
    ) -> Result<RunRefusal, AllocError> {
        let mut page = Page::new(alloc);
        page.word("error: '--")?;
        page.word(option)?;
        page.word("' is no element of ")?;
        page.word(field.title)?;
        page.word(" (")?;
        page.word(field.challenge_form)?;
        page.word("): ")?;
        page.shown(word.as_bytes())?;
        page.word("\n")?;
        Ok(RunRefusal::Told(page.bytes))
    }

    /// A line of a file that is not as a witness is written.
    pub fn of_witness(alloc: Global, file: &str, line: usize) -> Result<RunRefusal, AllocError> {
        let mut page = Page::new(alloc);
        page.shown(file.as_bytes())?;
        page.word(":")?;
        page.number(line as u128)?;
        page.word(": error: this line is not as a witness is written\n")?;
        Ok(RunRefusal::Told(page.bytes))
    }

    /// What is wrong at a byte of a file.
    fn at(
        alloc: Global,
        file: &[u8],
        text: &[u8],
        at: usize,
        what: &str,
    ) -> Result<RunRefusal, AllocError> {
        RunRefusal::with_hint(alloc, file, text, at, what, &None)
    }

    /// What is wrong at a byte of a file, with what helps to mend it.
    fn with_hint(
        alloc: Global,
        file: &[u8],
        text: &[u8],
        at: usize,
        what: &str,
        hint: &Option<Hint>,
    ) -> Result<RunRefusal, AllocError> {
        let mut page = Page::new(alloc);
        push_place(&mut page, file, text, at)?;
        page.word(what)?;
        push_mark(&mut page, text, at, hint)?;
        Ok(RunRefusal::Told(page.bytes))
    }

    /// The fault of the text of a file.
    pub fn of_text(
        alloc: Global,
        file: &[u8],
        text: &[u8],
        fault: Fault,
    ) -> Result<RunRefusal, AllocError> {
        let mut page = Page::new(alloc);
        push_place(&mut page, file, text, fault.at)?;
        push_why(&mut page, fault.why)?;
        let hint = hint_of_text(alloc, text, fault)?;
        push_mark(&mut page, text, fault.at, &hint)?;
        Ok(RunRefusal::Told(page.bytes))
    }

    /// What is wrong with the tables of a batch.
    pub fn of_tables(
        alloc: Global,
        given: Given<'_>,
        refusal: TableRefusal,
    ) -> Result<RunRefusal, AllocError> {
        let Given {
            file,
            text,
            files,
            ..
        } = given;
        let TableRefusal {
            file: named,
            at,
            why,
        } = refusal;
        let what = match why {
            TableWhy::NoTrace => "this AIR has no trace",
            TableWhy::RepeatedTrace => "this AIR has a trace already",
            TableWhy::RepeatedPreprocessed => "this AIR has a preprocessed trace already",
            TableWhy::NoColumns => "this AIR has no trace, and says no `columns`",
            TableWhy::NoHeight => "this AIR has no trace, and says no `height`",
            TableWhy::RepeatedColumns => "this AIR says its columns already",
            TableWhy::RepeatedHeight => "this AIR says its height already",
            TableWhy::RepeatedColumn => "a column before this one has the same name",
            TableWhy::Unreadable => "this file cannot be read",
            TableWhy::Text(why) => {
                let fault = Fault { at, why };
                let Some(named) = named else {
                    return RunRefusal::of_text(alloc, file, text, fault);
                };
                let name = bytes_of(text, named);
                let content = content_of(files, name).unwrap_or(&[]);
                let path = path_beside(alloc, file, name)?;
                return RunRefusal::of_text(alloc, &path, content, fault);
            }
        };
        RunRefusal::at(alloc, file, text, at, what)
    }

    /// Why a batch is not judged.
    pub fn of_judge(
        alloc: Global,
        given: Given<'_>,
        batch: &BatchText,
        fault: JudgeFault,
    ) -> Result<RunRefusal, AllocError>
        ensures { IfOk result (λ e. fault ≡ JudgeFault.Memory → e ≡ Memory) }
    {
        let Given { file, text, .. } = given;
        match fault {
            JudgeFault::Memory => Ok(RunRefusal::Memory),
            JudgeFault::Name(found) => {
                let hint = hint_of(alloc, given, batch, found)?;
                RunRefusal::with_hint(alloc, file, text, found.at, name_text(found.why), &hint)
            }
            JudgeFault::Element(found) => {
                RunRefusal::at(alloc, file, text, found.at, element_text(found.why))
            }
            JudgeFault::Rows { air, preprocessed } => {
                let path = path_of(alloc, file, text, batch, air, preprocessed)?;
                RunRefusal::of_file(alloc, &path, "there are no rows")
            }
            JudgeFault::Fit { air, fault } => {
                let at = name_of(batch, air).start;
                RunRefusal::at(alloc, file, text, at, fit_text(fault))
            }
            JudgeFault::Lookups { air, error }
            | JudgeFault::Batch(BatchError::Air { air, error }) => {
                RunRefusal::of_air(alloc, file, text, batch, air, &error)
            }
            JudgeFault::Tables { .. } => RunRefusal::of_file(alloc, file, "tables are missing"),
            JudgeFault::Batch(error) => {
                let what = format!(in alloc; "{error}")?;
                RunRefusal::of_file(alloc, file, what.as_str())
            }
        }
    }

    /// Why the lookups of the AIR with this number are refused: at a row of its table, where the
    /// flags or the denominators of a row are at fault, and else at its name.
    fn of_air(
        alloc: Global,
        file: &[u8],
        text: &[u8],
        batch: &BatchText,
        air: usize,
        error: &LookupError,
    ) -> Result<RunRefusal, AllocError> {
        let (row, lookup, which, what) = match error {
            LookupError::FlagNotBoolean { row, lookup } => {
                (*row, *lookup, "a flag", " is neither 0 nor 1 on this row\n")
            }
            LookupError::FlagsNotExclusive { row, lookup } => {
                (
                    *row,
                    *lookup,
                    "a flag",
                    " is 1 on this row, and so is another one\n",
                )
            }
            LookupError::VanishingDenominator { row, lookup } => {
                (*row, *lookup, "a denominator", " is zero on this row\n")
            }
            other => {
                let what = format!(in alloc; "{other}")?;
                let at = name_of(batch, air).start;
                return RunRefusal::at(alloc, file, text, at, what.as_str());
            }
        };
        let mut page = Page::new(alloc);
        page.shown(&path_of(alloc, file, text, batch, air, false)?)?;
        page.word(":")?;
        page.number(row as u128 + 2)?;
        page.word(": error: ")?;
        page.word(which)?;
        page.word(" of ")?;
        page.shown(file)?;
        page.word(":")?;
        page.number(line_of(text, batch, air, lookup) as u128)?;
        page.word(what)?;
        Ok(RunRefusal::Told(page.bytes))
    }
}

/// The line of a lookup of the AIR with this number.
fn line_of(text: &[u8], batch: &BatchText, air: usize, lookup: usize) -> usize {
    match air_at(batch, air) {
        Some(air) => match lookup_at(air, lookup) {
            Some(item) => place_of(text, item.at).line,
            None => 0,
        },
        None => 0,
    }
}

/// The name of the AIR with this number.
fn name_of(batch: &BatchText, air: usize) -> Span {
    match air_at(batch, air) {
        Some(air) => air.name,
        None => Span { start: 0, end: 0 },
    }
}

/// The path of the file of the main or the preprocessed trace of the AIR with this number.
fn path_of(
    alloc: Global,
    file: &[u8],
    text: &[u8],
    batch: &BatchText,
    air: usize,
    preprocessed: bool,
) -> Result<Vec<u8>, AllocError> {
    let name = match air_at(batch, air) {
        Some(air) => match trace_file(air, preprocessed) {
            Some(name) => bytes_of(text, name),
            None => &[],
        },
        None => &[],
    };
    path_beside(alloc, file, name)
}

/// Why a lookup cannot be made.
fn element_text(why: ElementWhy) -> &'static str {
    match why {
        ElementWhy::BusName => "the name of a bus has to be UTF-8",
        ElementWhy::Weight => "these weights do not fit 64 bits",
    }
}

/// Why lookups do not fit the tables of their AIR.
fn fit_text(fault: FitFault) -> &'static str {
    match fault {
        FitFault::Heights { .. } =>
            "the two tables of this AIR do not have the same number of rows",
        FitFault::Missing { .. } | FitFault::Malformed { .. } => {
            "the lookups of this AIR do not fit its tables"
        }
    }
}
