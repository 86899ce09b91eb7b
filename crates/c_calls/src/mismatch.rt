//! The call that tells the first tuple that does not balance.
ghost use Rattle.std.specs.Prelude.{◌≡◌, ◌≢◌};
ghost use Rattle.field_monty.specs.laws.BabyBear.{baby_bear_positive};
ghost use Rattle.c_calls.specs.DebugNumbers.{AnswersTelling};
ghost use Rattle.c_calls.specs.declared.debug_numbers.Asked.TheVariants.{Mismatch};

use crate::debug_numbers::{Asked, answer_debug_numbers};
use crate::refusal::{Refusal, accept, refuse};
use crate::written_tables::write_items;
use c_tables::{Tables, Traces};
use field::Over;
use field_monty::{BabyBear, BabyBear4, BabyBearParameters};
use std::alloc::Global;

/// Tells the mismatch that `volgwain_debug_check` names, with the first `limit` of its places, or that all tuples
/// balance.
///
/// The numbers are written from the start of the array on, and `written` says how many they are.
///
/// Answers 0, or the code of a refusal. A refused call leaves the array and `written` as they were.
#[unsafe(no_mangle)]
pub extern "C" fn volgwain_mismatch(
    alloc: Global,
    airs: &[Tables<'_>],
    traces: &[Traces<'_>],
    limit: usize,
    numbers: &mut [usize],
    written: &mut usize,
    refusal: &mut Refusal,
    text: &mut [u8],
) -> u32
    ensures answers { AnswersTelling baby_bear_positive ⟦<BabyBear4 as Over<BabyBear>>⟧.fields
        Mismatch airs.now traces.now limit numbers.old numbers.new written.new result refusal.new }
    ensures kept { result ≢ 0 → (numbers.new ≡ numbers.old) × (written.new ≡ written.old) }
{
    match answer_debug_numbers::<2_013_265_921, BabyBearParameters>(
        alloc,
        airs,
        traces,
        Asked::Mismatch,
        limit,
        numbers.len(),
    ) {
        Ok(made) => {
            write_items(numbers, &made);
            *written = made.len();
            accept(refusal)
        }
        Err(fault) => refuse(&fault, refusal, text),
    }
}
