//! Numbers as elements, and elements as numbers.
ghost use Rattle.std.specs.Prelude.{◌≡◌, ◌⊎◌, ◌↔◌, ◌+◌, ◌<◌, ◌≤◌, ◌++◌, ℕ, All, IfOk, IsTrue, MatchOption, MatchResult, length, map, vec_capacity};
ghost use Rattle.field.specs.Residue.{residue_of};
ghost use Rattle.c_tables.specs.Numbers.{AreNumberGroupsBelow, AreNumbersBelow, IsFirstLargeNumber, IsFirstLargeNumberGroup, IsNumberGroup, numbers_of, quartic_of_numbers};
ghost use Rattle.c_tables.specs.declared.numbers.NumberFault.TheVariants.{Memory, Large};
ghost use Rattle.c_tables.specs.internal.Numbers.{AreNumbersUpTo, IsNumberGroupUpTo};

use field_monty::{MontyField31, MontyParameters, MontyQuartic, QuarticParameters};
use std::alloc::{AllocError, AllocFailed, Global};

/// How many groups of four numbers are read at a time.
const CHUNK: usize = 64;

/// Why numbers are not elements.
#[derive(Debug, Drop)]
pub enum NumberFault {
    /// Out of memory.
    Memory,
    /// The number at this index, or one of the four there, is not below the modulus.
    Large(usize),
}

impl From<AllocError> for NumberFault {
    ghost from_gives = { λ _ e. e ≡ Memory };

    fn from(_error: AllocError) -> NumberFault {
        NumberFault::Memory
    }
}

impl<T: Drop> From<AllocFailed<T>> for NumberFault {
    ghost from_gives = { λ _ e. e ≡ Memory };

    fn from(_error: AllocFailed<T>) -> NumberFault {
        NumberFault::Memory
    }
}

/// Whether this number is that of an element.
fn is_below_modulus<const P: u32>(number: u32) -> bool
    ensures { IsTrue result ↔ number < P }
{
    number < P
}

/// These numbers as elements.
///
/// Refuses the first number that is not below the modulus. Also fails when out of memory.
pub fn elements<const P: u32, K: MontyParameters<P>>(
    alloc: Global,
    numbers: &[u32],
) -> Result<Vec<MontyField31<P, K>>, NumberFault>
    ensures { MatchResult result
        (λ v. (v.items ≡ map (residue_of P K.positive) numbers.now)
        × AreNumbersBelow P (length numbers.now) numbers.now)
        (λ e. (e ≡ Memory) ⊎ (i : ℕ) × (e ≡ Large i) × IsFirstLargeNumber P numbers.now i) }
{
    let made = residues_of(alloc, numbers)?;
    if is_below_modulus::<P>(made.most) {
        return Ok(made.values);
    }
    match first_large::<P>(numbers) {
        Some(index) => Err(NumberFault::Large(index)),
        None => Ok(made.values),
    }
}

/// The residues of numbers.
#[derive(Drop)]
struct Residues<F> {
    values: Vec<F>,
    /// None of the numbers is above this one.
    most: u32,
}

/// The residues of these numbers. The loop tests none of them, so that it takes many at a time.
fn residues_of<const P: u32, K: MontyParameters<P>>(
    alloc: Global,
    numbers: &[u32],
) -> Result<Residues<MontyField31<P, K>>, AllocError>
    ensures { IfOk result (λ made. (made.values.items ≡ map (residue_of P K.positive) numbers.now)
        × AreNumbersUpTo made.most (length numbers.now) numbers.now) }
{
    let mut values = Vec::with_capacity(alloc, numbers.len())?;
    let mut greatest: u32 = 0;
    for n in numbers {
        greatest = greatest.max(*n);
        values.push_reserved(MontyField31::new(*n));
    }
    Ok(Residues {
        values,
        most: greatest,
    })
}

/// The index of the first number that is not below the modulus, if there is one.
fn first_large<const P: u32>(numbers: &[u32]) -> Option<usize>
    ensures { MatchOption result (AreNumbersBelow P (length numbers.now) numbers.now)
        (IsFirstLargeNumber P numbers.now) }
{
    for (index, n) in numbers.iter().enumerate() {
        if *n >= P {
            return Some(index);
        }
    }
    None
}

/// These numbers as elements of the extension, four each, lowest power first.
///
/// Refuses the first group with a number that is not below the modulus. Also fails when out of
/// memory.
pub fn extensions<const P: u32, K: QuarticParameters<P>>(
    alloc: Global,
    groups: &[[u32; 4]],
) -> Result<Vec<MontyQuartic<P, K>>, NumberFault>
    ensures { MatchResult result
        (λ v. (v.items ≡ map (quartic_of_numbers K.positive) groups.now)
        × AreNumberGroupsBelow P (length groups.now) groups.now)
        (λ e. (e ≡ Memory) ⊎ (i : ℕ) × (e ≡ Large i) × IsFirstLargeNumberGroup P groups.now i) }
{
    let made = quartics_of(alloc, groups)?;
    if is_below_modulus::<P>(made.most) {
        return Ok(made.values);
    }
    match first_large_group::<P, K>(groups) {
        Some(index) => Err(NumberFault::Large(index)),
        None => Ok(made.values),
    }
}

/// Elements with residues as coefficients.
#[derive(Drop)]
struct Quartics<EF> {
    values: Vec<EF>,
    /// None of the numbers is above this one.
    most: u32,
}

/// The elements whose coefficients are the residues of these numbers, a chunk of them at a time.
fn quartics_of<const P: u32, K: QuarticParameters<P>>(
    alloc: Global,
    groups: &[[u32; 4]],
) -> Result<Quartics<MontyQuartic<P, K>>, AllocError>
    ensures { IfOk result
        (λ made. (made.values.items ≡ map (quartic_of_numbers K.positive) groups.now)
        × All (IsNumberGroupUpTo made.most) groups.now) }
{
    let mut values = Vec::with_capacity(alloc, groups.len())?;
    let mut greatest: u32 = 0;
    let mut first = 0;
    while first < groups.len() {
        let end = chunk_end(first, groups.len());
        let most = push_quartics(alloc, &mut values, &groups[first..end])?;
        greatest = greatest.max(most);
        first = end;
    }
    Ok(Quartics {
        values,
        most: greatest,
    })
}

/// Where the chunk ends that begins at `first`.
fn chunk_end(first: usize, end: usize) -> usize
    requires { first < end }
    ensures further { first < result }
    ensures within { result ≤ end }
{
    if end - first > CHUNK {
        first + CHUNK
    } else {
        end
    }
}

/// Appends the elements of a chunk, and answers a number that none of its numbers is above.
fn push_quartics<const P: u32, K: QuarticParameters<P>>(
    alloc: Global,
    values: &mut Vec<MontyQuartic<P, K>>,
    groups: &[[u32; 4]],
) -> Result<u32, AllocError>
    requires { length values.old.items + length groups.now ≤ vec_capacity values.old }
    ensures pushed { IfOk result
        (λ _. values.new.items
        ≡ values.old.items ++ map (quartic_of_numbers K.positive) groups.now) }
    ensures room { IfOk result (λ _. vec_capacity values.new ≡ vec_capacity values.old) }
    ensures most { IfOk result (λ most. All (IsNumberGroupUpTo most) groups.now) }
{
    let made = residues_of::<P, K>(alloc, groups.as_flattened())?;
    let (fours, _) = made.values.as_chunks::<4>();
    for four in fours {
        values.push_reserved(MontyQuartic::new(*four));
    }
    Ok(made.most)
}

/// The index of the first four of which one is not below the modulus, if there are such.
fn first_large_group<const P: u32, K: QuarticParameters<P>>(groups: &[[u32; 4]]) -> Option<usize>
    ensures { MatchOption result (AreNumberGroupsBelow P (length groups.now) groups.now)
        (IsFirstLargeNumberGroup P groups.now) }
{
    for (index, group) in groups.iter().enumerate() {
        match extension::<P, K>(*group) {
            Some(_) => {}
            None => return Some(index),
        }
    }
    None
}

/// The element of the extension with these coefficients, lowest power first, if they are all below the
/// modulus.
pub fn extension<const P: u32, K: QuarticParameters<P>>(
    numbers: [u32; 4],
) -> Option<MontyQuartic<P, K>>
    ensures { MatchOption result (¬ IsNumberGroup P numbers)
        (λ x. (x ≡ quartic_of_numbers K.positive numbers) × IsNumberGroup P numbers) }
{
    let [a, b, c, d] = numbers;
    if a >= P || b >= P || c >= P || d >= P {
        return None;
    }
    Some(MontyQuartic::new([
        MontyField31::new(a),
        MontyField31::new(b),
        MontyField31::new(c),
        MontyField31::new(d),
    ]))
}

/// The numbers of an element of the extension: its coefficients, lowest power first.
pub fn element_numbers<const P: u32, K: QuarticParameters<P>>(x: MontyQuartic<P, K>) -> [u32; 4]
    ensures { result ≡ numbers_of x }
{
    let [a, b, c, d] = x.coefficients();
    [
        a.as_canonical_u32(),
        b.as_canonical_u32(),
        c.as_canonical_u32(),
        d.as_canonical_u32(),
    ]
}
