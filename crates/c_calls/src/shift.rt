//! The call that adds to the accumulators of rows, in place.
ghost use Rattle.std.specs.Prelude.{◌≡◌, ◌≢◌, ◌/◌, ◌==◌, if◌then◌else◌, MatchOption, MatchResult, length};
ghost use Rattle.std.specs.Result.{OnErr};
ghost use Rattle.field_monty.specs.laws.BabyBear.{baby_bear_positive};
ghost use Rattle.matrix.specs.Matrix.{IsShaped};
ghost use Rattle.c_tables.specs.Numbers.{AreNumberGroupsBelow, IsFirstLargeNumberGroup};
ghost use Rattle.c_calls.specs.Shift.{AnswersShift, IsShiftRefusal, ShiftsCells, shift_rows, shifted_cells};
ghost use Rattle.c_calls.specs.internal.Shift.{AreShiftable};

use crate::codes::Part;
use crate::fault::Fault;
use crate::refusal::{Refusal, accept, refuse};
use c_tables::{element_numbers, extension, makes_rows};
use field::PrimeCharacteristicRing;
use field_monty::{BabyBear4, BabyBearParameters, MontyQuartic, QuarticParameters};

/// The index of the first cell that is no element, if there is one.
fn first_large_cell<const P: u32, K: QuarticParameters<P>>(cells: &[[u32; 4]]) -> Option<usize>
    ensures { MatchOption result (AreNumberGroupsBelow P (length cells.now) cells.now)
        (IsFirstLargeNumberGroup P cells.now) }
{
    for (index, group) in cells.iter().enumerate() {
        match extension::<P, K>(*group) {
            Some(_) => {}
            None => return Some(index),
        }
    }
    None
}

/// The offset that numbers encode, where the cells are rows.
///
/// Refuses the first of these with a fault: the offset, the width, and a cell.
fn offset_of<const P: u32, K: QuarticParameters<P>>(
    cells: &[[u32; 4]],
    width: usize,
    offset: &[u32; 4],
) -> Result<MontyQuartic<P, K>, Fault>
    ensures { MatchResult result (AreShiftable K.positive cells.now width offset.now)
        (IsShiftRefusal P cells.now width offset.now) }
{
    let Some(element) = extension::<P, K>(*offset) else {
        return Err(Fault::Large {
            part: Part::Offset,
            air: 0,
            index: 0,
        });
    };
    if !makes_rows(cells.len(), width) {
        return Err(Fault::Ragged { air: 0 });
    }
    match first_large_cell::<P, K>(cells) {
        Some(index) => Err(Fault::Large {
            part: Part::Auxiliary,
            air: 0,
            index,
        }),
        None => Ok(element),
    }
}

/// How many rows of this width so many cells make.
fn row_count(cells: usize, width: usize) -> usize
    ensures { result ≡ (if width == 0 then 0 else (cells / width)) }
{
    if width == 0 { 0 } else { cells / width }
}

/// Adds `offset` to the first cell of each row.
fn shift_cells<const P: u32, K: QuarticParameters<P>>(
    cells: &mut [[u32; 4]],
    width: usize,
    offset: MontyQuartic<P, K>,
)
    requires shaped { IsShaped (shift_rows K.positive cells.old width) }
    requires below { AreNumberGroupsBelow P (length cells.old) cells.old }
    ensures { cells.new ≡ shifted_cells K.positive
        ⟦<MontyQuartic<P, K> as PrimeCharacteristicRing>⟧.ring offset width cells.old }
{
    for row in 0..row_count(cells.len(), width) {
        let at = row * width;
        if let Some(x) = extension::<P, K>(cells[at]) {
            cells[at] = element_numbers(offset + x);
        }
    }
}

/// Does what `volgwain_shift` does, over any prime field below 2^31.
pub(crate) fn answer_shift<const P: u32, K: QuarticParameters<P>>(
    cells: &mut [[u32; 4]],
    width: usize,
    offset: &[u32; 4],
) -> Result<(), Fault>
    ensures answers { let R = ⟦<MontyQuartic<P, K> as PrimeCharacteristicRing>⟧.ring in
        MatchResult result (λ _. ShiftsCells K.positive cells.old width offset.now R cells.new)
        (IsShiftRefusal P cells.old width offset.now) }
    ensures kept { OnErr result (cells.new ≡ cells.old) }
{
    let element = offset_of::<P, K>(cells, width, offset)?;
    shift_cells::<P, K>(cells, width, element);
    Ok(())
}

/// Adds `offset` to the accumulator of each row, its first cell. A row has `width` cells.
///
/// Answers 0, or the code of a refusal. A refused call leaves the cells as they were. It asks for no memory.
#[unsafe(no_mangle)]
pub extern "C" fn volgwain_shift(
    cells: &mut [[u32; 4]],
    width: usize,
    offset: &[u32; 4],
    refusal: &mut Refusal,
    text: &mut [u8],
) -> u32
    ensures answers { AnswersShift baby_bear_positive
        ⟦<BabyBear4 as PrimeCharacteristicRing>⟧.ring cells.old width offset.now cells.new result
        refusal.new }
    ensures kept { result ≢ 0 → cells.new ≡ cells.old }
{
    match answer_shift::<2_013_265_921, BabyBearParameters>(cells, width, offset) {
        Ok(()) => accept(refusal),
        Err(fault) => refuse(&fault, refusal, text),
    }
}
