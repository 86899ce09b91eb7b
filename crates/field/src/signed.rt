//! Fields whose elements have a sign.
ghost use Rattle.std.specs.Prelude.{◌≡◌, ◌<◌, ℕ};
ghost use Rattle.field.specs.Ring.{of_nat};
ghost use Rattle.field.specs.Signs.{is_negative};

use crate::traits::{Field, PrimeCharacteristicRing};

/// A field whose elements have a sign: each of them is a whole number below the characteristic, and
/// those past half of the characteristic are negative. So a count of -1 is told from one of 1.
///
/// `F2`, `F7`, `Goldilocks` and the fields below 2^31 are such fields.
pub trait SignedField: Field {
    ghost number: { Self → ℕ };

    /// Whether the number of the element is more than half of the characteristic.
    fn is_negative(self) -> bool
        ensures { result ≡ is_negative Self.CHARACTERISTIC number self };

    ghost number_is: { (a : Self) → of_nat Self.ring (number a) ≡ a };

    ghost number_below: { (a : Self) → number a < Self.CHARACTERISTIC };
}
