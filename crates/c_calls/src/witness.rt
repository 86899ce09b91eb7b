//! Witnesses as a verifier gets them.
ghost use Rattle.std.specs.Prelude.{◌≡◌, MatchResult, length, true};
ghost use Rattle.c_calls.specs.Witnesses.{IsWitnessOfNumbers, IsWitnessAuxiliary, IsWitnessAuxiliaryRefusal, IsWitnessTerminal, IsWitnessTerminalRefusal, IsWitnessRefusal, witness_terminal};

use crate::codes::Part;
use crate::fault::Fault;
use crate::inputs::list_of;
use crate::outputs::Terminal;
use c_tables::{extension, makes_rows};
use checker::Witness;
use field_monty::{MontyQuartic, QuarticParameters};
use lookup::LookupTerminal;
use matrix::RowMajorMatrix;
use std::alloc::Global;

/// What a witness has for one AIR.
#[repr(C)]
#[derive(Drop)]
pub struct AirWitness<'a> {
    /// The cells of the auxiliary trace, row after row.
    pub auxiliary: &'a [[u32; 4]],
    /// The width of the auxiliary trace.
    pub width: usize,
    /// The terminal.
    pub terminal: Terminal,
}

/// The auxiliary trace of an AIR.
///
/// Refuses cells that make no whole rows, and then the first one that is no element.
pub(crate) fn read_auxiliary<const P: u32, K: QuarticParameters<P>>(
    alloc: Global,
    air: usize,
    witness: &AirWitness<'_>,
) -> Result<RowMajorMatrix<MontyQuartic<P, K>>, Fault>
    ensures { MatchResult result (IsWitnessAuxiliary K.positive witness.now)
        (IsWitnessAuxiliaryRefusal P air witness.now) }
{
    let width = witness.width;
    if !makes_rows(witness.auxiliary.len(), width) {
        return Err(Fault::Ragged { air });
    }
    let values = list_of::<P, K>(alloc, Part::Auxiliary, air, witness.auxiliary)?;
    Ok(RowMajorMatrix::new(values, width))
}

/// The terminal of an AIR.
///
/// Refuses one that is present and no element.
pub(crate) fn read_terminal<const P: u32, K: QuarticParameters<P>>(
    air: usize,
    terminal: Terminal,
) -> Result<Option<LookupTerminal<MontyQuartic<P, K>>>, Fault>
    ensures { MatchResult result (λ t. (t ≡ witness_terminal K.positive terminal)
        × IsWitnessTerminal P terminal)
        (IsWitnessTerminalRefusal P air terminal) }
{
    if terminal.present == 0 {
        return Ok(None);
    }
    match extension::<P, K>(terminal.value) {
        Some(x) => Ok(Some(LookupTerminal(x))),
        None => Err(Fault::Large {
            part: Part::Terminals,
            air,
            index: 0,
        }),
    }
}

/// The witness that numbers encode.
///
/// Refuses the first AIR whose auxiliary trace, or then whose terminal, is refused. Also fails when out of
/// memory.
pub(crate) fn read_witness<const P: u32, K: QuarticParameters<P>>(
    alloc: Global,
    witness: &[AirWitness<'_>],
) -> Result<Witness<MontyQuartic<P, K>>, Fault>
    ensures { MatchResult result (IsWitnessOfNumbers K.positive witness.now)
        (IsWitnessRefusal P witness.now) }
{
    let mut aux = Vec::with_capacity(alloc, witness.len())?;
    let mut terminals = Vec::with_capacity(alloc, witness.len())?;
    for (index, air) in witness.iter().enumerate() {
        aux.push(read_auxiliary::<P, K>(alloc, index, air)?)?;
        terminals.push(read_terminal::<P, K>(index, air.terminal)?)?;
    }
    Ok(Witness { aux, terminals })
}
