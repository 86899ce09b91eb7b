//! Generation over a domain that is no field, by an inverter made for it.
ghost use Rattle.std.specs.Prelude.{◌≡◌, ◌<◌, refl};
ghost use Rattle.std.proofs.Common.{rules, arith};
ghost use Rattle.field.specs.internal.IntegersModulo2.{f2_of, f2_positive, f2_ring};
ghost use Rattle.field.specs.laws.IntegersModulo2.{f2_prime};
ghost use Rattle.field.specs.laws.PrimeResidues.{residue_domain};
ghost use Rattle.field.specs.Residue.{Residue};
ghost use Rattle.field.specs.laws.Residue.{residue_equality};
ghost use Rattle.field.specs.laws.ResidueRing.{residue_characteristic, residue_ring_lawful};
ghost use Rattle.field.specs.Ring.{sub_in};

use super::chunks::generate_counted;
use super::{are_numbers, holds, range, trace};
use field::{Domain, ExtensionDomain, F2, Inverter, PrimeCharacteristicRing};
use lookup::LookupError;
use std::alloc::Global;
use std::marker::Model;
use std::ops::{Add, Mul, Neg, Sub};

/// An integer modulo 2 that has no inverse of its own.
#[derive(Clone, Copy, Debug, PartialEq, Eq, Hash)]
struct Bit {
    value: u32,
}

impl Model for Bit {
    ghost use Rattle.std.specs.Prelude.{◌<◌};
    ghost use native.Mathlib.Nat.{mod-eq_of_lt};
    ghost use Rattle.field.specs.internal.IntegersModulo2.{f2_of};
    ghost use Rattle.field.specs.Residue.{Residue, residue_coded};

    ghost Value = { Residue 2 };

    ghost coded = { residue_coded 2 };

    ghost view = { λ s. f2_of s.value };

    ghost invariant = { λ s. s.value < 2 };

    ghost inverse = { λ d. record { value = d.value } };

    ghost inverse_ok = { λ a h i. record { value = mod-eq_of_lt h i } };
}

impl Bit {
    /// The residue of `n`.
    fn new(n: u32) -> Self
        ensures { result ≡ f2_of n }
    {
        Bit { value: n % 2 }
    }

    fn number(self) -> u32
        ensures value { result ≡ self.value }
        ensures below { result < 2 }
    {
        self.value
    }
}

impl Add for Bit {
    type Output = Bit;

    ghost add_gives = { λ a b r. r ≡ f2_ring.add a b };

    fn add(self, rhs: Bit) -> Bit {
        Bit::new(self.number() + rhs.number())
    }
}

impl Sub for Bit {
    type Output = Bit;

    ghost sub_gives = { λ a b r. r ≡ sub_in f2_ring a b };

    fn sub(self, rhs: Bit) -> Bit {
        Bit::new(self.number() + 2 - rhs.number())
    }
}

impl Mul for Bit {
    type Output = Bit;

    ghost mul_gives = { λ a b r. r ≡ f2_ring.mul a b };

    fn mul(self, rhs: Bit) -> Bit {
        Bit::new(self.number() * rhs.number())
    }
}

impl Neg for Bit {
    type Output = Bit;

    ghost neg_gives = { λ a r. r ≡ f2_ring.neg a };

    fn neg(self) -> Bit {
        Bit::new(2 - self.number())
    }
}

impl PrimeCharacteristicRing for Bit {
    ghost ring = { f2_ring };

    ghost lawful = { residue_ring_lawful 2 f2_positive };

    ghost ZERO = { f2_of 0 };

    const ZERO: Bit = Bit { value: 0 };

    ghost ONE = { f2_of 1 };

    const ONE: Bit = Bit { value: 1 };

    ghost CHARACTERISTIC = { 2 };

    const CHARACTERISTIC: u128 = 2;

    fn from_u32(n: u32) -> Bit {
        Bit::new(n)
    }

    ghost zero_is = { refl };

    ghost one_is = { refl };

    ghost eq_is = { residue_equality };

    ghost may_add = { Prim.search rules };

    ghost add_is = { λ a b r h. h };

    ghost may_sub = { Prim.search rules };

    ghost sub_is = { λ a b r h. h };

    ghost may_mul = { Prim.search rules };

    ghost mul_is = { λ a b r h. h };

    ghost may_neg = { Prim.search rules };

    ghost neg_is = { λ a r h. h };

    ghost characteristic = { residue_characteristic 2 f2_positive };

    ghost prime = { f2_prime };

    ghost characteristic_fits = { Prim.search (rules, arith) };
}

impl Domain for Bit {
    ghost domain = { residue_domain 2 f2_positive f2_prime };
}

impl ExtensionDomain<F2> for Bit {
    ghost embed = { λ x. x };

    ghost embeds = { record {
      zero = refl;
      one = refl;
      add = λ a b. refl;
      mul = λ a b. refl;
      injective = λ a b e. e;
    } };

    ghost same_characteristic = { refl };

    fn embed(x: F2) -> Bit {
        if x.is_zero() { Bit::ZERO } else { Bit::ONE }
    }
}

/// Inverts bits: 1 is its own inverse.
#[derive(Drop)]
struct BitInverter {
    calls: u64,
}

impl Inverter<Bit> for BitInverter {
    ghost count = { λ s. s.calls };

    fn invert(&mut self, x: Bit) -> Option<Bit> {
        self.calls = self.calls.saturating_add(1);
        if x.is_zero() { None } else { Some(x) }
    }

    fn get(&self) -> u64 {
        self.calls
    }
}

/// At the prefix 1 a row reads 0 once, whose denominator is 1, and provides 1 no time. At the prefix 0
/// the denominator of 0 vanishes.
#[test]
fn bits_by_their_own_inverter(rt: HostRuntime) {
    let alloc = rt.alloc();
    let main = trace::<F2>(&rt, alloc, &[0, 1, 0], 3);
    let lookups = [range(&rt, alloc, 0)];
    let mut inverter = BitInverter { calls: 0 };
    let challenges = [Bit::ONE, Bit::ONE];
    let made = generate_counted(
        &rt,
        alloc,
        &main,
        lookups.as_slice(),
        &challenges,
        &mut inverter,
    );
    let made = made.expect(&rt, "no fault");
    let cells = made.auxiliary.values() == [Bit::ZERO, Bit::ONE].as_slice();
    holds(&rt, "the cells", cells && made.terminal == Some(Bit::ONE));
    holds(&rt, "at most one inverse", inverter.get() <= 1);
    let challenges = [Bit::ZERO, Bit::ONE];
    let refused = generate_counted(
        &rt,
        alloc,
        &main,
        lookups.as_slice(),
        &challenges,
        &mut inverter,
    );
    let fault = LookupError::VanishingDenominator { row: 0, lookup: 0 };
    holds(&rt, "the fault", refused.err() == Some(fault));
}
