//! Four elements of a prime field below 2^31 side by side, in one vector.
ghost use Rattle.std.specs.Prelude.{◌≡◌, ◌<◌, ◌≤◌, ◌+◌, ◌-◌, ◌*◌, ◌/◌, ◌%◌, ◌↔◌, ℕ, [], ◌∷◌, IsTrue, length, slice_index};
ghost use Rattle.std.proofs.Common.{ap};
ghost use Rattle.std.specs.Simd.Lanes.{Each1};
ghost use Rattle.field_monty.specs.Montgomery.{from_stored};
ghost use Rattle.field.specs.Residue.{residue_of};
ghost use Rattle.field.specs.ResidueRing.{residue_ring};
ghost use Rattle.field.specs.Ring.{sub_in};
ghost use Rattle.field_monty.specs.internal.Four.{AllFour, coefficients_ring, element_of, four, map_four, same_four, zip_four};
ghost use Rattle.field_monty.specs.internal.Lanes.{AreDifferences, AreReduced, AreStored, from_lanes, lane_sums, lanes_ring, lanes_w};
ghost use Rattle.field_monty.specs.laws.Four.{coefficients_lawful};
ghost use Rattle.field.specs.laws.ResidueRing.{residue_ring_lawful};

use crate::monty_field::{MontyField31, MontyParameters, QuarticParameters};
use crate::monty_quartic::MontyQuartic;
use field::chains::Factor;
use std::marker::{Model, PhantomData};
use std::ops::{Add, Mul, Neg, Sub};
use std::simd::prelude::*;

/// The products of the lanes 0 and 2.
#[inline(always)]
fn even_products(a: u32x4, b: u32x4) -> u64x2
    requires a { Each1 (λ x. x < 2147483648) a }
    requires b { Each1 (λ x. x < 2147483648) b }
    ensures { result ≡ slice_index a 0 * slice_index b 0 ∷ slice_index a 2 * slice_index b 2 ∷ [] }
{
    a.swizzle::<2>([0, 2]).cast::<u64>() * b.swizzle::<2>([0, 2]).cast::<u64>()
}

/// The products of the lanes 1 and 3.
#[inline(always)]
fn odd_products(a: u32x4, b: u32x4) -> u64x2
    requires a { Each1 (λ x. x < 2147483648) a }
    requires b { Each1 (λ x. x < 2147483648) b }
    ensures { result ≡ slice_index a 1 * slice_index b 1 ∷ slice_index a 3 * slice_index b 3 ∷ [] }
{
    a.swizzle::<2>([1, 3]).cast::<u64>() * b.swizzle::<2>([1, 3]).cast::<u64>()
}

/// The multiples of a modulus with the same low halves, by its inverse modulo 2^32.
#[inline(always)]
fn multiple(x: u64x2, inverse: u32, modulus: u32) -> u64x2
    ensures { result ≡ slice_index x 0 % 4294967296 * inverse % 4294967296 * modulus
        ∷ slice_index x 1 % 4294967296 * inverse % 4294967296 * modulus ∷ [] }
{
    let radix = u64x2::splat(4_294_967_296);
    x % radix * u64x2::splat(inverse as u64) % radix * u64x2::splat(modulus as u64)
}

/// The high halves of the even lanes and those of the odd lanes, in turn.
#[inline(always)]
fn high(even: u64x2, odd: u64x2) -> u32x4
    ensures { result ≡ slice_index even 0 / 4294967296 ∷ slice_index odd 0 / 4294967296
        ∷ slice_index even 1 / 4294967296 ∷ slice_index odd 1 / 4294967296 ∷ [] }
{
    let even = (even >> u64x2::splat(32)).cast::<u32>();
    let odd = (odd >> u64x2::splat(32)).cast::<u32>();
    even.shuffle::<4>(odd, [0, 2, 1, 3])
}

/// The differences of numbers below a modulus, plus the modulus where they are negative.
#[inline(always)]
fn difference(a: u32x4, b: u32x4, modulus: u32) -> u32x4
    requires small { modulus < 2147483648 }
    requires a { Each1 (λ x. x < modulus) a }
    requires b { Each1 (λ x. x < modulus) b }
    ensures { AreDifferences modulus a b result }
{
    let wrapped = a - b;
    wrapped.simd_min(wrapped + u32x4::splat(modulus))
}

/// The numbers, minus a modulus unless they are below it.
#[inline(always)]
fn reduce_once(x: u32x4, modulus: u32) -> u32x4
    requires small { modulus < 2147483648 }
    requires below { Each1 (λ n. n < 2 * modulus) x }
    ensures { AreReduced modulus x result }
{
    x.simd_min(x - u32x4::splat(modulus))
}

/// The sums.
#[inline(always)]
fn sums(a: u32x4, b: u32x4) -> u32x4
    requires a { Each1 (λ x. x < 2147483648) a }
    requires b { Each1 (λ x. x < 2147483648) b }
    ensures { result ≡ lane_sums a b }
{
    a + b
}

/// The lanes 0 of all four, then their lanes 1, 2 and 3.
#[inline(always)]
fn transposed(a: u32x4, b: u32x4, c: u32x4, d: u32x4) -> (u32x4, u32x4, u32x4, u32x4)
    ensures first { result.0 ≡ slice_index a 0 ∷ slice_index b 0 ∷ slice_index c 0
        ∷ slice_index d 0 ∷ [] }
    ensures second { result.1 ≡ slice_index a 1 ∷ slice_index b 1 ∷ slice_index c 1
        ∷ slice_index d 1 ∷ [] }
    ensures third { result.2 ≡ slice_index a 2 ∷ slice_index b 2 ∷ slice_index c 2
        ∷ slice_index d 2 ∷ [] }
    ensures fourth { result.3 ≡ slice_index a 3 ∷ slice_index b 3 ∷ slice_index c 3
        ∷ slice_index d 3 ∷ [] }
{
    let front = a.shuffle::<4>(b, [0, 4, 1, 5]);
    let back = c.shuffle::<4>(d, [0, 4, 1, 5]);
    let other_front = a.shuffle::<4>(b, [2, 6, 3, 7]);
    let other_back = c.shuffle::<4>(d, [2, 6, 3, 7]);
    (
        front.shuffle::<4>(back, [0, 1, 4, 5]),
        front.shuffle::<4>(back, [2, 3, 6, 7]),
        other_front.shuffle::<4>(other_back, [0, 1, 4, 5]),
        other_front.shuffle::<4>(other_back, [2, 3, 6, 7]),
    )
}

/// Four numbers of 64 bits, those of the lanes 0 and 2 and those of the lanes 1 and 3.
#[derive(Drop)]
struct Products {
    even: u64x2,
    odd: u64x2,
}

impl Model for Products {
    ghost use Rattle.std.specs.Prelude.{◌≡◌, ℕ, length};
    ghost use Rattle.field_monty.specs.internal.Four.{Four};
    ghost use Rattle.field_monty.specs.internal.Lanes.{lanes_in_turn};

    ghost Value = { Four ℕ };

    ghost view = { λ s. lanes_in_turn s.even s.odd };

    ghost invariant = { λ s. (length s.even ≡ 2) × (length s.odd ≡ 2) };
}

impl Products {
    /// The numbers of both, added.
    #[inline(always)]
    fn plus(self, rhs: Products) -> Self
        requires lhs { AllFour (λ n. n < 9223372036854775808) self }
        requires rhs { AllFour (λ n. n < 9223372036854775808) rhs }
        ensures { result ≡ zip_four (λ m n. m + n) self rhs }
    {
        Products {
            even: self.even + rhs.even,
            odd: self.odd + rhs.odd,
        }
    }
}

/// Four elements of [`MontyField31`], each stored as it stores it.
#[derive_where(Clone, Copy)]
pub(crate) struct Lanes<const P: u32, K: MontyParameters<P>> {
    stored: [u32; 4],
    parameters: PhantomData<K>,
}

impl<const P: u32, K: MontyParameters<P>> Model for Lanes<P, K> {
    ghost use Rattle.field_monty.specs.internal.Four.{Four, four_coded};
    ghost use Rattle.field_monty.specs.internal.Lanes.{AreStored, from_lanes, stored_lanes};
    ghost use Rattle.field_monty.specs.laws.Lanes.{lanes_again};
    ghost use Rattle.field.specs.Residue.{Residue, residue_coded};

    ghost Value = { Four (Residue P) };

    ghost coded = { four_coded (residue_coded P) };

    ghost view = { λ s. from_lanes P K.radix_inverse K.positive s.stored };

    ghost invariant = { λ s. AreStored P s.stored };

    ghost inverse = { λ d. record { stored = stored_lanes P d; parameters = record {} } };

    ghost inverse_ok = { λ a h i. record {
      stored = lanes_again K.positive K.right a.stored h i;
      parameters = record {};
    } };
}

impl<const P: u32, K: MontyParameters<P>> Lanes<P, K> {
    /// The elements that are stored in the lanes of a vector.
    #[inline(always)]
    fn from_vector(stored: u32x4) -> Self
        requires { AreStored P stored }
        ensures { result ≡ from_lanes P K.radix_inverse K.positive stored }
    {
        Lanes {
            stored: stored.to_array(),
            parameters: PhantomData,
        }
    }

    /// The vector that they are stored in.
    #[inline(always)]
    fn vector(self) -> u32x4
        ensures stored { AreStored P result }
        ensures value { from_lanes P K.radix_inverse K.positive result ≡ self }
    {
        u32x4::from_array(self.stored)
    }

    /// Zero four times.
    #[inline(always)]
    pub(crate) fn zero() -> Self
        ensures { result ≡ (lanes_ring P K.positive).zero }
    {
        Self::from_vector(u32x4::splat(0))
    }

    /// One four times.
    #[inline(always)]
    pub(crate) fn one() -> Self
        ensures { result ≡ (lanes_ring P K.positive).one }
    {
        Self::from_vector(u32x4::splat(K::ONE))
    }

    /// Four elements side by side.
    #[inline(always)]
    pub(crate) fn new(
        first: MontyField31<P, K>,
        second: MontyField31<P, K>,
        third: MontyField31<P, K>,
        fourth: MontyField31<P, K>,
    ) -> Self
        ensures { result ≡ four first second third fourth }
    {
        Lanes {
            stored: [
                first.stored(),
                second.stored(),
                third.stored(),
                fourth.stored(),
            ],
            parameters: PhantomData,
        }
    }

    /// The four elements.
    #[inline(always)]
    pub(crate) fn elements(
        self,
    ) -> (
        MontyField31<P, K>,
        MontyField31<P, K>,
        MontyField31<P, K>,
        MontyField31<P, K>,
    )
        ensures { four result.0 result.1 result.2 result.3 ≡ self }
    {
        let [first, second, third, fourth] = self.stored;
        (
            MontyField31::from_stored(first),
            MontyField31::from_stored(second),
            MontyField31::from_stored(third),
            MontyField31::from_stored(fourth),
        )
    }

    /// Whether all four are zero.
    #[inline(always)]
    pub(crate) fn are_zero(self) -> bool
        ensures { IsTrue result ↔ self ≡ (lanes_ring P K.positive).zero }
    {
        let [first, second, third, fourth] = self.stored;
        if first != 0 {
            return false;
        }
        if second != 0 {
            return false;
        }
        if third != 0 {
            return false;
        }
        fourth == 0
    }

    /// The first of all four, then the second, the third and the fourth.
    #[inline(always)]
    pub(crate) fn transposed(a: Self, b: Self, c: Self, d: Self) -> (Self, Self, Self, Self)
        ensures first { result.0 ≡ four a.first b.first c.first d.first }
        ensures second { result.1 ≡ four a.second b.second c.second d.second }
        ensures third { result.2 ≡ four a.third b.third c.third d.third }
        ensures fourth { result.3 ≡ four a.fourth b.fourth c.fourth d.fourth }
    {
        let (first, second, third, fourth) = transposed(
            a.vector(),
            b.vector(),
            c.vector(),
            d.vector(),
        );
        (
            Self::from_vector(first),
            Self::from_vector(second),
            Self::from_vector(third),
            Self::from_vector(fourth),
        )
    }
}

impl<const P: u32, K: MontyParameters<P>> Lanes<P, K> {
    /// The products of the stored numbers.
    #[inline(always)]
    fn products(self, rhs: Self) -> Products
        ensures below { AllFour (λ n. n < P * 2147483648) result }
        ensures value { map_four (from_stored P K.radix_inverse K.positive) result
            ≡ (lanes_ring P K.positive).mul (same_four (residue_of P K.positive 4294967296))
            ((lanes_ring P K.positive).mul self rhs) }
    {
        let (a, b) = (self.vector(), rhs.vector());
        Products {
            even: even_products(a, b),
            odd: odd_products(a, b),
        }
    }

    /// Numbers divided by 2^32 modulo the modulus, by Montgomery reduction, as stored numbers.
    #[inline(always)]
    fn reduce(products: Products) -> Self
        requires { AllFour (λ n. n < P * 8589934592) products }
        ensures { result ≡ (lanes_ring P K.positive).mul
            (same_four (residue_of P K.positive K.radix_inverse))
            (map_four (from_stored P K.radix_inverse K.positive) products) }
    {
        let high_halves = reduce_once(high(products.even, products.odd), P);
        let taken = high(
            multiple(products.even, K::MODULUS_INVERSE, P),
            multiple(products.odd, K::MODULUS_INVERSE, P),
        );
        Self::from_vector(difference(high_halves, taken, P))
    }

    /// The sum of two products, reduced once.
    #[inline(always)]
    pub(crate) fn sum_of_two(x: (Self, Self), y: (Self, Self)) -> Self
        ensures { result ≡ (lanes_ring P K.positive).add ((lanes_ring P K.positive).mul x.0 x.1)
            ((lanes_ring P K.positive).mul y.0 y.1) }
    {
        Self::reduce(x.0.products(x.1).plus(y.0.products(y.1)))
    }

    /// The sum of three products, reduced once.
    #[inline(always)]
    pub(crate) fn sum_of_three(x: (Self, Self), y: (Self, Self), z: (Self, Self)) -> Self
        ensures { result ≡ (lanes_ring P K.positive).add
            ((lanes_ring P K.positive).add ((lanes_ring P K.positive).mul x.0 x.1)
            ((lanes_ring P K.positive).mul y.0 y.1)) ((lanes_ring P K.positive).mul z.0 z.1) }
    {
        let front = x.0.products(x.1).plus(y.0.products(y.1));
        Self::reduce(front.plus(z.0.products(z.1)))
    }

    /// The sum of four products, reduced once.
    #[inline(always)]
    pub(crate) fn sum_of_four(
        x: (Self, Self),
        y: (Self, Self),
        z: (Self, Self),
        w: (Self, Self),
    ) -> Self
        ensures { result ≡ (lanes_ring P K.positive).add
            ((lanes_ring P K.positive).add ((lanes_ring P K.positive).mul x.0 x.1)
            ((lanes_ring P K.positive).mul y.0 y.1))
            ((lanes_ring P K.positive).add ((lanes_ring P K.positive).mul z.0 z.1)
            ((lanes_ring P K.positive).mul w.0 w.1)) }
    {
        let front = x.0.products(x.1).plus(y.0.products(y.1));
        let back = z.0.products(z.1).plus(w.0.products(w.1));
        Self::reduce(front.plus(back))
    }
}

impl<const P: u32, K: QuarticParameters<P>> Lanes<P, K> {
    /// `W` times each. For the numbers 3 and 11 by sums: a product with a constant is merged with the
    /// constants of its reduction, and then takes more multiplications.
    #[inline(always)]
    pub(crate) fn times_w(self) -> Self
        ensures { result ≡ (lanes_ring P K.positive).mul (lanes_w P K.positive K.W)
            self }
    {
        if K::W == 3 {
            self + self + self
        } else if K::W == 11 {
            self.times_eleven()
        } else {
            Self::from_vector(u32x4::splat(K::STORED_W)) * self
        }
    }

    /// 11 times each.
    #[inline(always)]
    fn times_eleven(self) -> Self
        ensures { result ≡ (lanes_ring P K.positive).mul (lanes_w P K.positive 11)
            self }
    {
        let twice = self + self;
        let fourfold = twice + twice;
        let eightfold = fourfold + fourfold;
        (eightfold + twice) + self
    }
}

/// Lanes as factors. A list keeps four elements side by side as the coefficients of one element of
/// the quartic extension.
impl<const P: u32, K: QuarticParameters<P>> Factor<MontyQuartic<P, K>> for Lanes<P, K> {
    ghost factors = { coefficients_ring (residue_ring P K.positive) };

    ghost are_lawful = { coefficients_lawful (residue_ring_lawful P K.positive) };

    ghost kept = { element_of };

    ghost may_multiply = { λ a b. tt };

    ghost product_is = { λ a b r is. ap element_of is };

    #[inline(always)]
    fn one() -> Self {
        Lanes::one()
    }

    #[inline(always)]
    fn of(x: MontyQuartic<P, K>) -> Self {
        let [c0, c1, c2, c3] = x.coefficients();
        Lanes::new(c0, c1, c2, c3)
    }

    #[inline(always)]
    fn keep(self) -> MontyQuartic<P, K> {
        let (c0, c1, c2, c3) = self.elements();
        MontyQuartic::new([c0, c1, c2, c3])
    }
}

impl<const P: u32, K: MontyParameters<P>> Add for Lanes<P, K> {
    type Output = Lanes<P, K>;

    ghost add_gives = { λ a b r. r ≡ (lanes_ring P K.positive).add a b };

    #[inline(always)]
    fn add(self, rhs: Self) -> Self {
        Self::from_vector(reduce_once(sums(self.vector(), rhs.vector()), P))
    }
}

impl<const P: u32, K: MontyParameters<P>> Sub for Lanes<P, K> {
    type Output = Lanes<P, K>;

    ghost sub_gives = { λ a b r. r ≡ sub_in (lanes_ring P K.positive) a b };

    #[inline(always)]
    fn sub(self, rhs: Self) -> Self {
        Self::from_vector(difference(self.vector(), rhs.vector(), P))
    }
}

impl<const P: u32, K: MontyParameters<P>> Mul for Lanes<P, K> {
    type Output = Lanes<P, K>;

    ghost mul_gives = { λ a b r. r ≡ (lanes_ring P K.positive).mul a b };

    #[inline(always)]
    fn mul(self, rhs: Self) -> Self {
        Self::reduce(self.products(rhs))
    }
}

impl<const P: u32, K: MontyParameters<P>> Neg for Lanes<P, K> {
    type Output = Lanes<P, K>;

    ghost neg_gives = { λ a r. r ≡ (lanes_ring P K.positive).neg a };

    #[inline(always)]
    fn neg(self) -> Self {
        Self::zero() - self
    }
}
