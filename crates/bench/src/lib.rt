//! What is measured in `bench/`, as C functions.
//!
//! Each works on what it is given for some rounds, and returns a checksum, a verdict or a number of
//! columns. `u32::MAX` says that a call is refused or that memory ran out.
#![tactic(auto)]

mod airs;
mod checksums;
mod debug;
mod debug_shapes;
mod fields;
mod generation;
mod packing;
mod plans;
mod shapes;

use bench_shapes::{REFUSED, generate};
use field_goldilocks::{Goldilocks, Goldilocks2};
use field_monty::{BabyBear, BabyBear4};
use std::alloc::Global;

/// Sets each number `x` to `x * a + b`, `rounds` times.
#[unsafe(no_mangle)]
pub extern "C" fn field_base_multiply_add(alloc: Global, numbers: &[u32], rounds: u32) -> u32 {
    fields::base_multiply_add::<BabyBear, BabyBear4>(alloc, numbers, rounds).unwrap_or(REFUSED)
}

/// As `field_base_multiply_add`, over the quartic extension, with an element for each number.
#[unsafe(no_mangle)]
pub extern "C" fn field_extension_multiply_add(alloc: Global, numbers: &[u32], rounds: u32) -> u32 {
    fields::extension_multiply_add::<BabyBear, BabyBear4>(alloc, numbers, rounds).unwrap_or(REFUSED)
}

/// Sets each nonzero element to its inverse, `rounds` times.
#[unsafe(no_mangle)]
pub extern "C" fn field_extension_inverse(alloc: Global, numbers: &[u32], rounds: u32) -> u32 {
    fields::extension_inverse::<BabyBear, BabyBear4>(alloc, numbers, rounds).unwrap_or(REFUSED)
}

/// Inverts all nonzero elements at once, `rounds` times, and adds up all inverses.
#[unsafe(no_mangle)]
pub extern "C" fn field_batch_inversion(alloc: Global, numbers: &[u32], rounds: u32) -> u32 {
    fields::batch_inversion::<BabyBear, BabyBear4>(alloc, numbers, rounds).unwrap_or(REFUSED)
}

/// As `field_base_multiply_add`, over `Goldilocks`, with elements that fill 64 bits.
#[unsafe(no_mangle)]
pub extern "C" fn goldilocks_base_multiply_add(alloc: Global, numbers: &[u32], rounds: u32) -> u32 {
    fields::base_multiply_add::<Goldilocks, Goldilocks2>(alloc, numbers, rounds).unwrap_or(REFUSED)
}

/// The same over the quadratic extension, with an element for each number.
#[unsafe(no_mangle)]
pub extern "C" fn goldilocks_extension_multiply_add(
    alloc: Global,
    numbers: &[u32],
    rounds: u32,
) -> u32 {
    fields::extension_multiply_add::<Goldilocks, Goldilocks2>(alloc, numbers, rounds).unwrap_or(
        REFUSED,
    )
}

/// Sets each nonzero element of that extension to its inverse, `rounds` times.
#[unsafe(no_mangle)]
pub extern "C" fn goldilocks_extension_inverse(alloc: Global, numbers: &[u32], rounds: u32) -> u32 {
    fields::extension_inverse::<Goldilocks, Goldilocks2>(alloc, numbers, rounds).unwrap_or(REFUSED)
}

/// Inverts all nonzero elements of it at once, `rounds` times, and adds up all inverses.
#[unsafe(no_mangle)]
pub extern "C" fn goldilocks_batch_inversion(alloc: Global, numbers: &[u32], rounds: u32) -> u32 {
    fields::batch_inversion::<Goldilocks, Goldilocks2>(alloc, numbers, rounds).unwrap_or(REFUSED)
}

/// Generates the auxiliary trace of a shape over `BabyBear` and `BabyBear4`, `rounds` times. The main
/// trace has `numbers`, row after row.
///
/// - Shape 0 has three columns, `read`, `provide` and `mult`, and one local lookup of the tuples
///   `[read]` with count 1 and `[provide]` with count `-mult`.
/// - Shape 1 has 33 columns and eight lookups. Lookup `i` has one tuple, of columns `4 * i` to
///   `4 * i + 3`, on bus `i % 4`. Its count is column 32 for the first four lookups, and the negative
///   of that for the others.
/// - Shape 2 has twelve columns and one exclusive lookup of four branches. Branch `i` has the flag of
///   column `i`, the tuple of columns `4 + 2 * i` and `5 + 2 * i`, and count 1.
/// - Shape 3 has eight columns and one local lookup of the tuple
///   `[c0 * c1 + c2 - c3, c0 * (c1 - c2) + c3 * c4]` with count `c5 * c6`.
///
/// The challenges are those for messages of width 4 and four ids, with alpha `[9, 2, 6, 5]` and beta
/// `[3, 1, 4, 15]`. Buses have their own number as id, and all other lookups have id 0.
///
/// Returns 0 with `skip` 1. Otherwise the last trace gives a checksum, over all cells, row after row,
/// and then the terminal: from 0 on, `sum = sum * [2, 3, 5, 7] + x`. The answer is the sum of its four
/// coefficients, as a number below the modulus. It is `u32::MAX` if generation is refused or memory
/// runs out, and for another shape or numbers that do not make whole rows.
#[unsafe(no_mangle)]
pub extern "C" fn lookup_generate(
    alloc: Global,
    numbers: &[u32],
    shape: u32,
    rounds: u32,
    skip: u32,
) -> u32 {
    generate(alloc, numbers, shape, rounds, skip).unwrap_or(REFUSED)
}

/// Checks the lookups of a shape over `BabyBear`, `rounds` times. The main trace has `numbers`, row
/// after row.
///
/// - Shape 0 has three columns, `read`, `provide` and `mult`, and one local lookup of the tuples
///   `[read]` with count 1 and `[provide]` with count `-mult`.
/// - Shape 1 has 33 columns and eight lookups on one bus. Lookup `i` has one tuple, of columns
///   `4 * i` to `4 * i + 3`. Its count is column 32 for the first four lookups, and the negative of
///   that for the others.
///
/// Returns 0 if all tuples balance, and otherwise a checksum of the text of the mismatch: from 1 on,
/// `sum = sum * 31 + byte` modulo 2^32. With `skip` 1 it makes the trace and the lookups, checks
/// nothing and returns 0. It returns `u32::MAX` if memory runs out, and `u32::MAX - 1` for another
/// shape or numbers that do not make whole rows.
#[unsafe(no_mangle)]
pub extern "C" fn debug_check(
    alloc: Global,
    numbers: &[u32],
    shape: u32,
    rounds: u32,
    skip: u32,
) -> u32 {
    debug::check(alloc, numbers, shape, rounds, skip).unwrap_or(REFUSED)
}

/// Makes the witness of a plan over `BabyBear` and `BabyBear4`, `rounds` times.
///
/// The plan has two AIRs of 17 columns with four lookups each. Lookup `i` of either has one tuple, of
/// columns `4 * i` to `4 * i + 3`, on bus `i`. In the first AIR, whose trace has the numbers `asked`,
/// row after row, its count is column 16; in the second one, with `provided`, the negative of that. The
/// challenges are alpha `[9, 2, 6, 5]` and beta `[3, 1, 4, 15]`.
///
/// Returns 0 with `skip` 1 or without a round. Otherwise the last witness gives a checksum, AIR after
/// AIR, over all cells of the auxiliary trace, row after row, and then the terminal: from 0 on,
/// `sum = sum * [2, 3, 5, 7] + x`. The answer is the sum of its four coefficients, as a number below the
/// modulus. It is `u32::MAX` if a call is refused or memory runs out, and for numbers that do not make
/// whole rows.
#[unsafe(no_mangle)]
pub extern "C" fn batch_prove(
    alloc: Global,
    asked: &[u32],
    provided: &[u32],
    rounds: u32,
    skip: u32,
) -> u32 {
    plans::prove(alloc, asked, provided, rounds, skip).unwrap_or(REFUSED)
}

/// Makes the same auxiliary traces and terminals without a plan, by `generate_permutation` of each AIR
/// over challenges that are made once. Takes and returns what `batch_prove` does.
#[unsafe(no_mangle)]
pub extern "C" fn batch_generate(
    alloc: Global,
    asked: &[u32],
    provided: &[u32],
    rounds: u32,
    skip: u32,
) -> u32 {
    generation::generate(alloc, asked, provided, rounds, skip).unwrap_or(REFUSED)
}

/// Makes the witness that `batch_prove` makes once, and verifies it `rounds` times.
///
/// Returns 0 if it is accepted, and without a round; 1 if only its terminals do not sum to zero; and
/// `u32::MAX` for every other refusal, if memory runs out, and for numbers that do not make whole rows.
#[unsafe(no_mangle)]
pub extern "C" fn batch_verify(alloc: Global, asked: &[u32], provided: &[u32], rounds: u32) -> u32 {
    plans::verify(alloc, asked, provided, rounds).unwrap_or(REFUSED)
}

/// Makes the witness of a plan of one AIR over `BabyBear` and `BabyBear4` once, and verifies it `rounds`
/// times. The AIR has the lookups of a shape of `lookup_generate`, and its trace `numbers`, row after row.
///
/// Returns what `batch_verify` does, and `u32::MAX` for another shape.
#[unsafe(no_mangle)]
pub extern "C" fn shape_verify(alloc: Global, numbers: &[u32], shape: u32, rounds: u32) -> u32 {
    shapes::verify_shape(alloc, numbers, shape, rounds).unwrap_or(REFUSED)
}

/// Packs a copy of `count` lookups over `BabyBear` within `max_degree`, `rounds` times. Lookup `i` is on
/// bus `i % buses`, with a tuple of the four columns from `4 * (i % 8)` on, and its count is column 32.
///
/// Returns how many columns the last packed set has, and 0 without a round. With `skip` 1 the copies are
/// made and not packed, and the answer is 0. It is `u32::MAX` without a bus, and if memory runs out.
#[unsafe(no_mangle)]
pub extern "C" fn lookups_pack(
    alloc: Global,
    count: u32,
    buses: u32,
    max_degree: u32,
    rounds: u32,
    skip: u32,
) -> u32 {
    packing::pack(alloc, count, buses, max_degree, rounds, skip).unwrap_or(REFUSED)
}
