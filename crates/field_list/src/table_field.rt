//! Fields whose elements fill tables.
ghost use Rattle.std.specs.Prelude.{◌≡◌};

use field::{F7, PrimeCharacteristicRing, SignedField};
use field_goldilocks::Goldilocks;
use field_monty::{MontyField31, MontyParameters};
use serde::Serialize;

/// A field of the traces of a text: its elements are told as numbers below the characteristic, which
/// fits 64 bits.
pub trait TableField: SignedField + Serialize {
    /// The characteristic.
    fn modulus() -> u64
        ensures { result ≡ Self.CHARACTERISTIC };

    /// The number of the element.
    fn as_number(self) -> u64
        ensures { result ≡ Self.number self };
}

impl<const P: u32, K: MontyParameters<P>> TableField for MontyField31<P, K> {
    fn modulus() -> u64 {
        u64::from(P)
    }

    fn as_number(self) -> u64 {
        u64::from(self.as_canonical_u32())
    }
}

impl TableField for Goldilocks {
    fn modulus() -> u64 {
        18_446_744_069_414_584_321
    }

    fn as_number(self) -> u64 {
        self.as_canonical_u64()
    }
}

impl TableField for F7 {
    fn modulus() -> u64 {
        7
    }

    fn as_number(self) -> u64 {
        for number in 0..6u32 {
            if F7::new(number) == self {
                return u64::from(number);
            }
        }
        6
    }
}
