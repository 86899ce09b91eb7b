//! The rows of the input.
ghost use Rattle.std.specs.Prelude.{◌≡◌, ◌+◌, ◌%◌, ◌<◌, ◌++◌, ◌⊎◌, IfOk, MatchResult, OnOk, map, vec_len};
ghost use Rattle.std.specs.List.{list_all};
ghost use Rattle.matrix.specs.Matrix.{height};
ghost use Rattle.example_machines.specs.Input.{AreNumbers, IsFirstLineRefusal, IsInput, IsInputRefusal, line_refusal};
ghost use Rattle.example_machines.specs.Words.{words_of};
ghost use Rattle.field_words.specs.Words.{is_number, number_of, number_bound};
ghost use Rattle.example_machines.specs.internal.Words.{numbers_or_zeros};

use crate::error::RunError;
use field::Field;
use field_words::{elements_of, number};
use matrix::RowMajorMatrix;
use std::alloc::{AllocError, Global};

/// The rows of the input as a matrix with `columns` columns.
///
/// Lines end at LF or at the end of the input. Spaces, tabs and CR separate words, and a line
/// without words is skipped.
///
/// Refuses the first faulty line: one that has words, but not `columns` of them or, checked next,
/// one with a word that is not a number below the characteristic and 2^64. Then refuses an input
/// without rows.
pub fn read_rows<F: Field>(
    alloc: Global,
    text: &[u8],
    columns: usize,
) -> Result<RowMajorMatrix<F>, RunError>
    requires { 0 < columns }
    ensures some_rows { IfOk result (λ m. 0 < height m) }
    ensures cases { let bound = number_bound F.CHARACTERISTIC in MatchResult result
        (λ m. IsInput F.ring columns bound text.now m)
        (λ e. (e ≡ RunError.Memory) ⊎ IsInputRefusal columns bound text.now e) }
{
    let numbers = read_numbers(alloc, text, columns, F::CHARACTERISTIC)?;
    if numbers.is_empty() {
        return Err(RunError::NoRows);
    }
    Ok(RowMajorMatrix::new(elements_of(alloc, &numbers)?, columns))
}

/// The numbers of all lines, line after line.
fn read_numbers(
    alloc: Global,
    text: &[u8],
    columns: usize,
    bound: u128,
) -> Result<Vec<u64>, RunError>
    requires { 0 < columns }
    ensures whole_rows { IfOk result (λ v. vec_len v % columns ≡ 0) }
    ensures cases { let bound = number_bound bound in MatchResult result
        (λ v. AreNumbers columns bound text.now v.items)
        (λ e. (e ≡ RunError.Memory) ⊎ IsFirstLineRefusal columns bound text.now e) }
{
    let mut numbers = Vec::new(alloc);
    let mut line = 0usize;
    for words in text.split(|byte| *byte == b'\n') {
        line += 1;
        push_line(&mut numbers, words, line, columns, bound)?;
    }
    Ok(numbers)
}

/// Appends the numbers of the line with this number: `columns` numbers or none.
fn push_line(
    numbers: &mut Vec<u64>,
    words: &[u8],
    line: usize,
    columns: usize,
    bound: u128,
) -> Result<(), RunError>
    ensures whole_row { OnOk result ((vec_len numbers.new ≡ vec_len numbers.old)
        ⊎ (vec_len numbers.new ≡ vec_len numbers.old + columns)) }
    ensures cases { let bound = number_bound bound in MatchResult result
        (λ _. (line_refusal columns bound line words.now ≡ None)
        × (map Some numbers.new.items ≡ map Some numbers.old.items
        ++ map (number_of bound) (words_of words.now)))
        (λ e. (e ≡ RunError.Memory) ⊎ (line_refusal columns bound line words.now ≡ Some e)) }
{
    let start = numbers.len();
    let good = push_words(numbers, words, bound)?;
    let count = numbers.len() - start;
    if count != 0 && count != columns {
        return Err(RunError::WrongCount { line, columns });
    }
    if good {
        Ok(())
    } else {
        Err(RunError::BadNumber { line })
    }
}

/// Appends a number for each word, 0 for a word that is not a number below `bound`. Returns whether
/// every word is one.
fn push_words(numbers: &mut Vec<u64>, words: &[u8], bound: u128) -> Result<bool, AllocError>
    ensures numbers { OnOk result (numbers.new.items ≡ numbers.old.items
        ++ numbers_or_zeros (number_bound bound) (words_of words.now)) }
    ensures good { IfOk result (λ good. good ≡ list_all (is_number (number_bound bound))
        (words_of words.now)) }
{
    let mut good = true;
    for word in words.split(|byte| matches!(*byte, b' ' | b'\t' | b'\r')) {
        if !word.is_empty() {
            let value = number(word, bound);
            good = good && value.is_some();
            numbers.push(value.unwrap_or(0))?;
        }
    }
    Ok(good)
}
