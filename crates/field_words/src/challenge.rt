//! Reading numbers and challenges from words.
ghost use Rattle.std.specs.Prelude.{◌≡◌, ℕ, List, MatchOption, false, length, option_map, true};
ghost use Rattle.field.specs.Ring.{of_nat};
ghost use Rattle.field_words.specs.Fields.{Fields, run_fields};
ghost use Rattle.field_words.specs.Words.{WritesNumbers, WritesQuadratic, WritesQuartic, WritesResidue, number_of, number_bound};

use field::{ExtensionField, F7, Field, PrimeCharacteristicRing};
use field_goldilocks::{Goldilocks, Goldilocks2};
use field_monty::{MontyField31, MontyQuartic, QuarticParameters};

/// A field whose elements can be given as challenges for rows over the field `F`. `written` says
/// which element a word gives.
pub trait Challenge<F: Field>: ExtensionField<F> {
    ghost written: { List ℕ → Self → Type 0 };

    /// The element that a word gives, or `None` if it gives none.
    fn from_word(word: &[u8]) -> Option<Self>
        ensures { MatchOption result ((x : Self) → ¬ written word.now x)
            (λ x. written word.now x) };
}

/// Two fields whose elements are written as words, in one word for contracts:
/// `⟦<EF as Written<F>>⟧.fields` is what a run over the two works with.
///
/// Every pair is one, so bounds say `EF: Challenge<F>`.
pub trait Written<F: Field>: Challenge<F> {
    ghost fields: { Fields F Self };
}

impl<F: Field, EF: Challenge<F>> Written<F> for EF {
    ghost fields = { run_fields F.ring F.eq F.CHARACTERISTIC EF.ring EF.eq EF.embed EF.inverse
        EF.written EF.text F.text };
}

/// A number below 7.
impl Challenge<F7> for F7 {
    ghost written = { λ word x. WritesResidue word x };

    fn from_word(word: &[u8]) -> Option<F7> {
        element(word)
    }
}

/// Four numbers below the characteristic, separated by commas: the coefficients of
/// `1, X, X^2, X^3`.
impl<const P: u32, K: QuarticParameters<P>> Challenge<MontyField31<P, K>> for MontyQuartic<P, K> {
    ghost written = { λ word x. WritesQuartic word x };

    fn from_word(word: &[u8]) -> Option<MontyQuartic<P, K>> {
        let mut numbers = [0; 4];
        if !read_coefficients(word, P as u128, &mut numbers) {
            return None;
        }
        let [c0, c1, c2, c3] = numbers;
        Some(MontyQuartic::new([
            MontyField31::from_u64(c0),
            MontyField31::from_u64(c1),
            MontyField31::from_u64(c2),
            MontyField31::from_u64(c3),
        ]))
    }
}

/// Two numbers below the characteristic, separated by a comma: the coefficients of `1, X`.
impl Challenge<Goldilocks> for Goldilocks2 {
    ghost written = { λ word x. WritesQuadratic word x };

    fn from_word(word: &[u8]) -> Option<Goldilocks2> {
        let mut numbers = [0; 2];
        if !read_coefficients(word, Goldilocks::CHARACTERISTIC, &mut numbers) {
            return None;
        }
        let [c0, c1] = numbers;
        Some(Goldilocks2::new([Goldilocks::from_u64(c0), Goldilocks::from_u64(c1)]))
    }
}

/// Reads numbers that are separated by commas. Returns whether they are as many as there is room for,
/// and each is below `bound` and fits 64 bits.
fn read_coefficients(word: &[u8], bound: u128, numbers: &mut [u64]) -> bool
    ensures long { length numbers.new ≡ length numbers.old }
    ensures read { result ≡ true → WritesNumbers (number_bound bound) word.now numbers.new }
    ensures refused { result ≡ false → (others : List ℕ) → length others ≡ length numbers.old
        → ¬ WritesNumbers (number_bound bound) word.now others }
{
    let mut parts = word.split(|byte| *byte == b',');
    for place in numbers.iter_mut() {
        let Some(part) = parts.next() else {
            return false;
        };
        let Some(value) = number(part, bound) else {
            return false;
        };
        *place = value;
    }
    match parts.next() {
        None => true,
        Some(_) => false,
    }
}

/// The element of a prime field that is given by a number below its characteristic.
fn element<F: PrimeCharacteristicRing>(word: &[u8]) -> Option<F>
    ensures { result ≡ option_map (of_nat F.ring)
        (number_of (number_bound F.CHARACTERISTIC) word.now) }
{
    number(word, F::CHARACTERISTIC).map(|value| F::from_u64(value))
}

/// The value of one or more decimal digits, if it is below `bound` and fits 64 bits. Leading zeros
/// are allowed.
pub fn number(word: &[u8], bound: u128) -> Option<u64>
    ensures { result ≡ number_of (number_bound bound) word.now }
{
    if word.is_empty() {
        return None;
    }
    let mut value = 0u64;
    for byte in word {
        if !byte.is_ascii_digit() {
            return None;
        }
        value = value.checked_mul(10)?.checked_add(u64::from(*byte - b'0'))?;
    }
    if u128::from(value) < bound {
        Some(value)
    } else {
        None
    }
}
