//! Whether a result of an AIR has the right shape.
ghost use Rattle.checker_witness.specs.Ranges.{ChecksShape};
ghost use Rattle.lookup_model.specs.Batches.Instances.{instance_of};

use lookup::{LookupError, LookupTerminal};
use lookup_model::BatchInstance;
use matrix::RowMajorMatrix;

/// Whether the result of an AIR, number `air` of its batch, has a terminal and an auxiliary trace of the
/// right width and height.
///
/// Refuses, in this order, `TerminalPresenceMismatch`, `PermutationWidthMismatch` and
/// `PermutationHeightMismatch`, as [`check_witness`](crate::check_witness) does.
pub fn check_shape<F, EF>(
    air: usize,
    instance: &BatchInstance<'_, F>,
    aux: &RowMajorMatrix<EF>,
    terminal: &Option<LookupTerminal<EF>>,
) -> Result<(), LookupError>
    ensures { ChecksShape air (instance_of instance.now) (aux.now, terminal.now) result }
{
    let expected_present = !instance.lookups.is_empty();
    let got_present = terminal.is_some();
    if got_present != expected_present {
        return Err(LookupError::TerminalPresenceMismatch {
            air,
            expected_present,
            got_present,
        });
    }
    let (expected, height) = if expected_present {
        (instance.lookups.len() + 1, instance.main.height())
    } else {
        (0, 0)
    };
    if aux.width() != expected {
        return Err(LookupError::PermutationWidthMismatch { air, expected });
    }
    if aux.height() != height {
        return Err(LookupError::PermutationHeightMismatch { air });
    }
    Ok(())
}
