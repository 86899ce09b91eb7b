//! The numbers that elements are read from.
ghost use Rattle.std.specs.Prelude.{◌<◌, IfOk};
ghost use Rattle.serde.specs.Event.{unsigned};
ghost use Rattle.serde.specs.Steps.{Gives};

use serde::{DeserializeOwned, Deserializer, Format};
use std::alloc::Global;

/// Reads a whole number below the modulus.
pub(crate) fn number_below<R: Format>(
    alloc: Global,
    modulus: u64,
    from: &mut Deserializer<'_, '_, R>,
) -> Result<u64, R::Error>
    ensures below { IfOk result (λ n. n < modulus) }
    ensures read { IfOk result (λ n. Gives R.gives from.old (unsigned n) from.new) }
{
    let number = u64::deserialize_owned(alloc, from)?;
    if number < modulus {
        Ok(number)
    } else {
        Err(from.custom("not below the modulus"))
    }
}
