//! The call that says why lookups do not fit the traces of their AIR.
ghost use Rattle.std.specs.Prelude.{◌≡◌, ◌≢◌, MatchOption, MatchResult};
ghost use Rattle.field_monty.specs.laws.BabyBear.{baby_bear_positive};
ghost use Rattle.lookup_debug.specs.Fits.{FitTraces, IsFitFault};
ghost use Rattle.c_calls.specs.CallAnswers.{CallAnswers};
ghost use Rattle.c_calls.specs.Inputs.{view_of_read};
ghost use Rattle.c_calls.specs.FitFault.{CallTellsFit, IsFitCallRefusal, cell_part, cell_row, fit_numbers};

use crate::codes::Part;
use crate::fault::Fault;
use crate::inputs::{lookups_of, traces_of};
use crate::refusal::{Refusal, accept, refuse};
use air_expressions::BaseEntry;
use c_tables::{ReadTraces, Tables, Traces};
use field_monty::{BabyBearParameters, MontyField31, QuarticParameters};
use lookup::Lookup;
use lookup::debug_util::{FitFault, fit_fault};
use std::alloc::Global;

/// Why lookups do not fit the traces of their AIR. A field that a reason does not have is 0.
#[repr(C)]
#[derive(Clone, Copy, Drop)]
pub struct Fit {
    /// 0 if they fit, else the reason: 1 a malformed lookup, 2 a cell that is not there, 3 the heights.
    pub reason: u32,
    /// Where the cell is read: the main trace, the preprocessed trace or the public values.
    pub part: u32,
    /// The lookup.
    pub lookup: usize,
    /// The row of the cell: 0 the current one, 1 the next one, or one that no lookup may read.
    pub row: usize,
    /// The column of the cell, or the index of the public value.
    pub column: usize,
    /// How many columns, or public values, there are.
    pub width: usize,
    /// The height of the main trace.
    pub height: usize,
    /// The height of the preprocessed trace.
    pub preprocessed_height: usize,
}

/// The numbers of lookups that fit.
const FITS: Fit = Fit {
    reason: 0,
    part: 0,
    lookup: 0,
    row: 0,
    column: 0,
    width: 0,
    height: 0,
    preprocessed_height: 0,
};

/// The part of a call in which a variable is read.
fn cell_part(entry: BaseEntry) -> Part
    ensures { result ≡ cell_part entry }
{
    match entry {
        BaseEntry::Main { .. } => Part::Main,
        BaseEntry::Preprocessed { .. } => Part::Preprocessed,
        BaseEntry::Public => Part::PublicValues,
    }
}

/// The row of a window in which a variable is read, 0 for a public value.
fn cell_row(entry: BaseEntry) -> usize
    ensures { result ≡ cell_row entry }
{
    match entry {
        BaseEntry::Main { offset } | BaseEntry::Preprocessed { offset } => offset,
        BaseEntry::Public => 0,
    }
}

/// The numbers of a reason, or of none.
fn fit_numbers(found: Option<FitFault>) -> Fit
    ensures { result ≡ fit_numbers found }
{
    match found {
        None => FITS,
        Some(FitFault::Malformed { lookup }) => Fit {
            reason: 1,
            lookup,
            ..FITS
        },
        Some(
            FitFault::Missing {
                lookup,
                cell,
                width,
            },
        ) => Fit {
            reason: 2,
            part: cell_part(cell.entry) as u32,
            lookup,
            row: cell_row(cell.entry),
            column: cell.index,
            width,
            ..FITS
        },
        Some(FitFault::Heights { main, preprocessed }) => Fit {
            reason: 3,
            height: main,
            preprocessed_height: preprocessed,
            ..FITS
        },
    }
}

/// Why lookups do not fit traces that were read, if they do not.
fn fault_of<const P: u32, K: QuarticParameters<P>>(
    traces: &ReadTraces<MontyField31<P, K>>,
    lookups: &[Lookup<MontyField31<P, K>>],
) -> Option<FitFault>
    ensures { MatchOption result (FitTraces (view_of_read traces.now) lookups.now)
        (IsFitFault (view_of_read traces.now) lookups.now) }
{
    let public_values = traces.public_values.as_slice();
    fit_fault(
        &traces.main,
        traces.preprocessed.as_ref(),
        public_values,
        lookups,
    )
}

/// Why the lookups that tables encode do not fit the traces of these numbers, over any prime field below
/// 2^31.
///
/// Refuses the first of these with a fault: the tables, and the traces.
pub(crate) fn answer_fit_fault<const P: u32, K: QuarticParameters<P>>(
    alloc: Global,
    tables: &Tables<'_>,
    traces: &Traces<'_>,
) -> Result<Fit, Fault>
    ensures { MatchResult result (CallTellsFit K.positive tables.now traces.now)
        (IsFitCallRefusal P tables.now traces.now) }
{
    let lookups = lookups_of::<P, K>(alloc, 0, tables)?;
    let read = traces_of::<P, K>(alloc, 0, traces)?;
    let found = fault_of(&read, &lookups);
    Ok(fit_numbers(found))
}

/// Says why the lookups of an AIR do not fit its traces, or that they do.
///
/// Answers 0, or the code of a refusal. A refused call leaves `fit` as it was.
#[unsafe(no_mangle)]
pub extern "C" fn volgwain_fit_fault(
    alloc: Global,
    tables: &Tables<'_>,
    traces: &Traces<'_>,
    fit: &mut Fit,
    refusal: &mut Refusal,
    text: &mut [u8],
) -> u32
    ensures answers { CallAnswers result refusal.new
        (CallTellsFit baby_bear_positive tables.now traces.now fit.new)
        (IsFitCallRefusal 2013265921 tables.now traces.now) }
    ensures kept { result ≢ 0 → fit.new ≡ fit.old }
{
    match answer_fit_fault::<2_013_265_921, BabyBearParameters>(alloc, tables, traces) {
        Ok(made) => {
            *fit = made;
            accept(refusal)
        }
        Err(fault) => refuse(&fault, refusal, text),
    }
}
