//! The calls over `KoalaBear` that check one AIR, that say what its constraints enforce, and that tell what the debug
//! check finds.
ghost use Rattle.std.specs.Prelude.{◌≡◌, ◌≢◌, length};
ghost use Rattle.field_monty.specs.laws.KoalaBear.{koala_bear_positive};
ghost use Rattle.c_calls.specs.CallAnswers.{CallAnswers};
ghost use Rattle.c_calls.specs.Constraints.{AnswersCheckConstraints};
ghost use Rattle.c_calls.specs.DebugNumbers.{AnswersTelling};
ghost use Rattle.c_calls.specs.Enforced.{AnswersEnforced};
ghost use Rattle.c_calls.specs.FitFault.{CallTellsFit, IsFitCallRefusal};
ghost use Rattle.c_calls.specs.VerifyAir.{AnswersVerifyAir};
ghost use Rattle.c_calls.specs.declared.debug_numbers.Asked.TheVariants.{Mismatch, Table};

use crate::check_constraints::answer_check_constraints;
use crate::debug_numbers::{Asked, answer_debug_numbers};
use crate::enforced::{Bound, Enforced, answer_enforced};
use crate::fit_fault::{Fit, answer_fit_fault};
use crate::refusal::{Refusal, accept, refuse};
use crate::verify_air::answer_verify_air;
use crate::witness::AirWitness;
use crate::written_tables::write_items;
use c_tables::{Span, Tables, Traces};
use field::{Over, PrimeCharacteristicRing};
use field_monty::{KoalaBear, KoalaBear4, KoalaBearParameters};
use std::alloc::Global;

/// As [`volgwain_verify_air`](crate::volgwain_verify_air), over `KoalaBear`.
#[unsafe(no_mangle)]
pub extern "C" fn volgwain_koala_bear_verify_air(
    alloc: Global,
    tables: &Tables<'_>,
    traces: &Traces<'_>,
    challenges: &[[u32; 4]],
    witness: &AirWitness<'_>,
    refusal: &mut Refusal,
    text: &mut [u8],
) -> u32
    ensures answers { AnswersVerifyAir koala_bear_positive ⟦<KoalaBear4 as Over<KoalaBear>>⟧.fields
        tables.now traces.now challenges.now witness.now result refusal.new }
{
    match answer_verify_air::<2_130_706_433, KoalaBearParameters>(
        alloc, tables, traces, challenges, witness,
    ) {
        Ok(()) => accept(refusal),
        Err(fault) => refuse(&fault, refusal, text),
    }
}

/// As [`volgwain_fit_fault`](crate::volgwain_fit_fault), over `KoalaBear`.
#[unsafe(no_mangle)]
pub extern "C" fn volgwain_koala_bear_fit_fault(
    alloc: Global,
    tables: &Tables<'_>,
    traces: &Traces<'_>,
    fit: &mut Fit,
    refusal: &mut Refusal,
    text: &mut [u8],
) -> u32
    ensures answers { CallAnswers result refusal.new
        (CallTellsFit koala_bear_positive tables.now traces.now fit.new)
        (IsFitCallRefusal 2130706433 tables.now traces.now) }
    ensures kept { result ≢ 0 → fit.new ≡ fit.old }
{
    match answer_fit_fault::<2_130_706_433, KoalaBearParameters>(alloc, tables, traces) {
        Ok(made) => {
            *fit = made;
            accept(refusal)
        }
        Err(fault) => refuse(&fault, refusal, text),
    }
}

/// As [`volgwain_bus_table`](crate::volgwain_bus_table), over `KoalaBear`.
#[unsafe(no_mangle)]
pub extern "C" fn volgwain_koala_bear_bus_table(
    alloc: Global,
    airs: &[Tables<'_>],
    traces: &[Traces<'_>],
    limit: usize,
    numbers: &mut [usize],
    written: &mut usize,
    refusal: &mut Refusal,
    text: &mut [u8],
) -> u32
    ensures answers { AnswersTelling koala_bear_positive ⟦<KoalaBear4 as Over<KoalaBear>>⟧.fields
        Table airs.now traces.now limit numbers.old numbers.new written.new result refusal.new }
    ensures kept { result ≢ 0 → (numbers.new ≡ numbers.old) × (written.new ≡ written.old) }
{
    match answer_debug_numbers::<2_130_706_433, KoalaBearParameters>(
        alloc,
        airs,
        traces,
        Asked::Table,
        limit,
        numbers.len(),
    ) {
        Ok(made) => {
            write_items(numbers, &made);
            *written = made.len();
            accept(refusal)
        }
        Err(fault) => refuse(&fault, refusal, text),
    }
}

/// As [`volgwain_mismatch`](crate::volgwain_mismatch), over `KoalaBear`.
#[unsafe(no_mangle)]
pub extern "C" fn volgwain_koala_bear_mismatch(
    alloc: Global,
    airs: &[Tables<'_>],
    traces: &[Traces<'_>],
    limit: usize,
    numbers: &mut [usize],
    written: &mut usize,
    refusal: &mut Refusal,
    text: &mut [u8],
) -> u32
    ensures answers { AnswersTelling koala_bear_positive ⟦<KoalaBear4 as Over<KoalaBear>>⟧.fields
        Mismatch airs.now traces.now limit numbers.old numbers.new written.new result refusal.new }
    ensures kept { result ≢ 0 → (numbers.new ≡ numbers.old) × (written.new ≡ written.old) }
{
    match answer_debug_numbers::<2_130_706_433, KoalaBearParameters>(
        alloc,
        airs,
        traces,
        Asked::Mismatch,
        limit,
        numbers.len(),
    ) {
        Ok(made) => {
            write_items(numbers, &made);
            *written = made.len();
            accept(refusal)
        }
        Err(fault) => refuse(&fault, refusal, text),
    }
}

/// As [`volgwain_enforced`](crate::volgwain_enforced), over `KoalaBear`.
#[unsafe(no_mangle)]
pub extern "C" fn volgwain_koala_bear_enforced(
    alloc: Global,
    tables: &Tables<'_>,
    constraints: &Span,
    height: usize,
    queries: &[u8],
    shown: &mut [Enforced],
    bounds: &mut [Bound],
    refusal: &mut Refusal,
    text: &mut [u8],
) -> u32
    ensures answers { AnswersEnforced ⟦<KoalaBear as PrimeCharacteristicRing>⟧.ring
        ⟦<KoalaBear as PartialEq>⟧.eq tables.now constraints.now height queries.now
        (length shown.old) (length bounds.old) shown.new bounds.new result refusal.new }
    ensures kept { result ≢ 0 → (shown.new ≡ shown.old) × (bounds.new ≡ bounds.old) }
{
    match answer_enforced::<2_130_706_433, KoalaBearParameters>(
        alloc,
        tables,
        constraints,
        height,
        queries,
        shown,
        bounds,
    ) {
        Ok(()) => accept(refusal),
        Err(fault) => refuse(&fault, refusal, text),
    }
}

/// As [`volgwain_check_constraints`](crate::volgwain_check_constraints), over `KoalaBear`.
#[unsafe(no_mangle)]
pub extern "C" fn volgwain_koala_bear_check_constraints(
    alloc: Global,
    tables: &Tables<'_>,
    constraints: &Span,
    traces: &Traces<'_>,
    refusal: &mut Refusal,
    text: &mut [u8],
) -> u32
    ensures answers { AnswersCheckConstraints koala_bear_positive
        ⟦<KoalaBear as PrimeCharacteristicRing>⟧.ring tables.now constraints.now traces.now result
        refusal.new }
{
    match answer_check_constraints::<2_130_706_433, KoalaBearParameters>(
        alloc,
        tables,
        constraints,
        traces,
    ) {
        Ok(()) => accept(refusal),
        Err(fault) => refuse(&fault, refusal, text),
    }
}
