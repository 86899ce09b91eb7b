//! The field of the integers modulo 2^64 - 2^32 + 1.
ghost use Rattle.std.specs.Prelude.{◌≡◌, IfOk, ◌<◌, ◌≤◌, ◌+◌, ◌-◌, ◌*◌, ℕ, refl, decimal};
ghost use Rattle.std.proofs.Common.{rules, arith};
ghost use Rattle.field_goldilocks.specs.Goldilocks.{goldilocks_inverse, goldilocks_of, goldilocks_positive, goldilocks_ring};
ghost use Rattle.field_goldilocks.specs.laws.Goldilocks.{goldilocks_characteristic, goldilocks_domain, goldilocks_inverse_is, goldilocks_lawful, goldilocks_prime};
ghost use Rattle.field.specs.Residue.{Residue};
ghost use Rattle.field.specs.laws.Residue.{residue_equality};
ghost use Rattle.field.specs.laws.ResidueRing.{value_is};
ghost use Rattle.field.specs.Ring.{sub_in};
ghost use Rattle.serde.specs.Event.{Sends, unsigned};
ghost use Rattle.serde.specs.Steps.{Gives};

use crate::reading::number_below;
use field::{Domain, Field, PrimeCharacteristicRing, SignedField};
use serde::{
    Described, Deserialize, DeserializeOwned, Deserializer, Format, Serialize, Serializer,
};
use std::alloc::{AllocError, Global};
use std::marker::Model;
use std::ops::{Add, Mul, Neg, Sub};

/// The modulus, a prime.
const MODULUS: u64 = 18_446_744_069_414_584_321;

/// 2^64 modulo the modulus.
const EPSILON: u64 = 4_294_967_295;

/// An integer modulo 2^64 - 2^32 + 1.
#[derive(Clone, Copy, Debug, PartialEq, Eq, Hash)]
pub struct Goldilocks {
    value: u64,
}

/// Zero and one, for the constants of the extension.
pub(crate) const ZERO: Goldilocks = Goldilocks { value: 0 };

pub(crate) const ONE: Goldilocks = Goldilocks { value: 1 };

impl Model for Goldilocks {
    ghost use Rattle.std.specs.Prelude.{◌<◌};
    ghost use native.Mathlib.Nat.{mod-eq_of_lt};
    ghost use Rattle.field_goldilocks.specs.Goldilocks.{goldilocks_of};
    ghost use Rattle.field.specs.Residue.{Residue, residue_coded};

    ghost Value = { Residue 18446744069414584321 };

    ghost coded = { residue_coded 18446744069414584321 };

    ghost view = { λ s. goldilocks_of s.value };

    ghost invariant = { λ s. s.value < 18446744069414584321 };

    ghost inverse = { λ d. record { value = d.value } };

    ghost inverse_ok = { λ a h i. record { value = mod-eq_of_lt h i } };
}

/// `x`, minus the modulus unless `x` is below it: the lesser of two numbers, so no branch is taken.
#[inline]
fn reduce_once(x: u64) -> u64
    ensures below { result < 18446744069414584321 }
    ensures value { goldilocks_of result ≡ goldilocks_of x }
{
    x.min(x.wrapping_sub(MODULUS))
}

/// `a - b`, plus the modulus if that is negative.
#[inline]
fn difference(a: u64, b: u64) -> u64
    requires { b ≤ 18446744069414584321 }
    ensures borrowing { a < b → result + b ≡ a + 18446744069414584321 }
    ensures plain { b ≤ a → result + b ≡ a }
{
    let (wrapped, borrows) = a.overflowing_sub(b);
    if borrows {
        wrapped.wrapping_add(MODULUS)
    } else {
        wrapped
    }
}

/// `a + b`, minus the modulus if that does not fit.
#[inline]
fn sum(a: u64, b: u64) -> u64
    requires { b ≤ 18446744065119617025 }
    ensures carrying { 18446744073709551616 ≤ a + b → result + 18446744069414584321 ≡ a + b }
    ensures plain { a + b < 18446744073709551616 → result ≡ a + b }
{
    let (wrapped, carries) = a.overflowing_add(b);
    if carries { wrapped + EPSILON } else { wrapped }
}

/// A number in three parts, of 64, 32 and 32 bits: 2^64 is 2^32 - 1, and 2^96 is -1.
#[inline]
fn reduce_parts(low: u64, middle: u64, high: u64) -> u64
    requires middle { middle < 4294967296 }
    requires high { high < 4294967296 }
    ensures below { result < 18446744069414584321 }
    ensures value { goldilocks_of result
        ≡ goldilocks_of (low + 18446744073709551616 * (middle + 4294967296 * high)) }
{
    reduce_once(sum(difference(low, high), middle * EPSILON))
}

/// The residue of a number of 128 bits.
#[inline]
fn reduce(x: u128) -> u64
    ensures below { result < 18446744069414584321 }
    ensures value { goldilocks_of result ≡ goldilocks_of x }
{
    let low = (x % 18_446_744_073_709_551_616) as u64;
    let rest = (x / 18_446_744_073_709_551_616) as u64;
    reduce_parts(low, rest % 4_294_967_296, rest / 4_294_967_296)
}

impl Goldilocks {
    /// The residue of `n`.
    pub fn new(n: u64) -> Self
        ensures { result ≡ goldilocks_of n }
    {
        Goldilocks {
            value: reduce_once(n),
        }
    }

    /// The element that is stored as this number, which is below the modulus.
    #[inline]
    fn stored(value: u64) -> Self
        requires { value < 18446744069414584321 }
        ensures { result ≡ goldilocks_of value }
    {
        Goldilocks { value }
    }

    /// The whole number below the modulus whose residue the element is.
    pub fn as_canonical_u64(self) -> u64
        ensures value { result ≡ self.value }
        ensures below { result < 18446744069414584321 }
    {
        self.value
    }
}

impl Add for Goldilocks {
    type Output = Goldilocks;

    ghost add_gives = { λ a b r. r ≡ goldilocks_ring.add a b };

    #[inline]
    fn add(self, rhs: Goldilocks) -> Goldilocks {
        let (a, b) = (self.as_canonical_u64(), rhs.as_canonical_u64());
        Goldilocks::stored(difference(a, MODULUS - b))
    }
}

impl Sub for Goldilocks {
    type Output = Goldilocks;

    ghost sub_gives = { λ a b r. r ≡ sub_in goldilocks_ring a b };

    #[inline]
    fn sub(self, rhs: Goldilocks) -> Goldilocks {
        let (a, b) = (self.as_canonical_u64(), rhs.as_canonical_u64());
        Goldilocks::stored(difference(a, b))
    }
}

impl Mul for Goldilocks {
    type Output = Goldilocks;

    ghost mul_gives = { λ a b r. r ≡ goldilocks_ring.mul a b };

    #[inline]
    fn mul(self, rhs: Goldilocks) -> Goldilocks {
        let product = self.as_canonical_u64() as u128 * rhs.as_canonical_u64() as u128;
        Goldilocks::stored(reduce(product))
    }
}

impl Neg for Goldilocks {
    type Output = Goldilocks;

    ghost neg_gives = { λ a r. r ≡ goldilocks_ring.neg a };

    #[inline]
    fn neg(self) -> Goldilocks {
        Goldilocks::stored(difference(0, self.as_canonical_u64()))
    }
}

impl PrimeCharacteristicRing for Goldilocks {
    ghost ring = { goldilocks_ring };

    ghost lawful = { goldilocks_lawful };

    ghost ZERO = { goldilocks_of 0 };

    const ZERO: Goldilocks = Goldilocks { value: 0 };

    ghost ONE = { goldilocks_of 1 };

    const ONE: Goldilocks = Goldilocks { value: 1 };

    ghost CHARACTERISTIC = { 18446744069414584321 };

    const CHARACTERISTIC: u128 = 18_446_744_069_414_584_321;

    fn from_u32(n: u32) -> Goldilocks {
        Goldilocks::new(n as u64)
    }

    ghost zero_is = { refl };

    ghost one_is = { refl };

    ghost eq_is = { residue_equality };

    ghost may_add = { Prim.search rules };

    ghost add_is = { λ a b r h. h };

    ghost may_sub = { Prim.search rules };

    ghost sub_is = { λ a b r h. h };

    ghost may_mul = { Prim.search rules };

    ghost mul_is = { λ a b r h. h };

    ghost may_neg = { Prim.search rules };

    ghost neg_is = { λ a r h. h };

    ghost characteristic = { goldilocks_characteristic };

    ghost prime = { goldilocks_prime };

    ghost characteristic_fits = { Prim.search (rules, arith) };
}

impl Domain for Goldilocks {
    ghost domain = { goldilocks_domain };
}

impl Field for Goldilocks {
    ghost inverse = { goldilocks_inverse };

    ghost text = { λ a. decimal a.value };

    fn try_inverse(self) -> Option<Goldilocks> {
        if self.is_zero() {
            None
        } else {
            Some(self.exp_u64(18_446_744_069_414_584_319))
        }
    }

    fn text(self, alloc: Global) -> Result<String, AllocError> {
        format!(in alloc; "{}", self.as_canonical_u64())
    }

    ghost inverse_is = { goldilocks_inverse_is };
}

impl SignedField for Goldilocks {
    ghost number = { λ a. a.value };

    ghost number_is = { value_is 18446744069414584321 goldilocks_positive };

    ghost number_below = { λ a. a.below };

    fn is_negative(self) -> bool {
        2 * self.as_canonical_u64() as u128 > 18_446_744_069_414_584_321
    }
}

impl Described for Goldilocks {
    ghost writes = { λ x old new. Sends (unsigned x.value) old new };
}

/// An element is written as its own number, unsigned and below the modulus.
impl Serialize for Goldilocks {
    fn serialize<S: Serializer>(&self, out: &mut S) -> Result<(), S::Error> {
        self.as_canonical_u64().serialize(out)
    }
}

/// Refuses anything but a whole number below the modulus.
impl DeserializeOwned for Goldilocks {
    fn deserialize_owned<R: Format>(
        alloc: Global,
        from: &mut Deserializer<'_, '_, R>,
    ) -> Result<Goldilocks, R::Error>
        ensures { IfOk result (λ x. Gives R.gives from.old (unsigned x.value) from.new) }
    {
        let number = number_below(alloc, MODULUS, from)?;
        Ok(Goldilocks::new(number))
    }
}

/// Refuses anything but a whole number below the modulus.
impl<'de> Deserialize<'de> for Goldilocks {
    fn deserialize<R: Format>(
        alloc: Global,
        from: &mut Deserializer<'de, '_, R>,
    ) -> Result<Goldilocks, R::Error>
        ensures { IfOk result (λ x. Gives R.gives from.old (unsigned x.value) from.new) }
    {
        Goldilocks::deserialize_owned(alloc, from)
    }
}
