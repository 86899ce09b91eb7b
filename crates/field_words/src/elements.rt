//! Numbers as elements of a field.
ghost use Rattle.std.specs.Prelude.{◌≡◌, IfOk, map};
ghost use Rattle.field.specs.Ring.{of_nat};

use field::PrimeCharacteristicRing;
use std::alloc::{AllocError, Global};

/// The elements of some numbers: each number times one. Fails only when out of memory.
pub fn elements_of<F: PrimeCharacteristicRing>(
    alloc: Global,
    numbers: &[u64],
) -> Result<Vec<F>, AllocError>
    ensures { IfOk result (λ v. v.items ≡ map (of_nat F.ring) numbers.now) }
{
    let mut elements = Vec::with_capacity(alloc, numbers.len())?;
    for number in numbers {
        elements.push(F::from_u64(*number))?;
    }
    Ok(elements)
}
