//! The first tuple that does not balance.
ghost use Rattle.std.specs.Prelude.{◌≡◌, ◌≢◌, ◌++◌, IfOk, codes, string_bytes};
ghost use Rattle.std.specs.List.{AllZip};
ghost use Rattle.lookup_debug.specs.FaultText.{fault_text};
ghost use Rattle.example_machines.specs.Machines.{airs_of};
ghost use Rattle.example_machines.specs.Mismatches.{IsMismatchLine};
ghost use Rattle.example_machines.specs.declared.machine.Machine.{Machine};
ghost use Rattle.example_machines.specs.internal.Mismatches.{AreFlagsBoolean};
ghost use Rattle.example_machines.specs.internal.Traces.{AreTracesOf, IsTraceOf};
ghost use Rattle.matrix.specs.Matrix.{Matrix};

use crate::traces::{AirTrace, debug_instances};
use field::Field;
use lookup::debug_util::{LookupFault, check_lookups};
use std::alloc::{AllocError, Global};

/// The line of the first tuple that does not balance over these AIRs of a machine, none if all do.
/// The contract says so if each flag is zero or one, as it is where generation succeeds.
///
/// Fails only when out of memory.
pub fn mismatch_line<F: Field>(
    alloc: Global,
    traces: &[AirTrace<F>],
) -> Result<Option<String>, AllocError>
    requires { AreTracesOf F.ring F.eq traces.now }
    ensures { IfOk result (λ line. (machine : Machine) (input : Matrix F)
        → AllZip (IsTraceOf F.ring F.eq input) (airs_of machine) traces.now
        → AreFlagsBoolean F.ring F.eq machine input
        → IsMismatchLine F.ring F.eq F.text machine input line) }
{
    let instances = debug_instances(alloc, traces)?;
    match check_lookups(alloc, instances.as_slice()) {
        Ok(()) => Ok(None),
        Err(fault) => Ok(Some(line_of(alloc, &fault)?)),
    }
}

/// The line of a mismatch.
///
/// Fails when out of memory, and if the fault is that memory ran out.
fn line_of<F: Field>(alloc: Global, fault: &LookupFault<F>) -> Result<String, AllocError>
    ensures { IfOk result (λ line. (fault.now ≢ LookupFault.Memory)
        × (string_bytes line ≡ fault_text F.text fault.now ++ codes "\n")) }
{
    match fault {
        LookupFault::Memory => Err(AllocError),
        LookupFault::Mismatch { .. } => {
            let mut line = fault.text(alloc)?;
            line.push_str("\n")?;
            Ok(line)
        }
    }
}
