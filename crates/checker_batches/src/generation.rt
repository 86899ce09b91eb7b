//! The witness of a batch.
ghost use Rattle.lookup_model.specs.Challenges.{table_of};
ghost use Rattle.checker_witness.specs.Answers.{AreReady};
ghost use Rattle.checker_batches.specs.Answers.{GivesAcceptedIfBalanced, GivesPlainWitness, GivesSatisfied, SucceedsIfRegular};
ghost use Rattle.lookup_model.specs.Batches.Instances.{HasPrefixes, IsFitting, instance_of, instances_of};
ghost use Rattle.checker_batches.specs.internal.Results.{GivesPlainResult};

use field::{ExtensionField, Field, Over};
use lookup::{Challenges, LogUpGadget, LookupError, LookupProtocol, LookupTerminal};
use lookup_model::{BatchFault, BatchInstance, Witness};
use matrix::RowMajorMatrix;
use std::alloc::Global;

/// The auxiliary traces and the terminals of a batch.
///
/// Requires instances that fit (`instances_fit`), with ids below the number of prefixes.
///
/// They satisfy the constraints of all lookups. If all flags are lawful and no denominator vanishes,
/// there are no others that do. If all messages balance, the terminals sum to zero.
///
/// Refuses the first fault of the first AIR that has one, in the order row, lookup; see
/// `LookupProtocol::generate_permutation`. Out of memory has no AIR.
pub fn generate_batch<F: Field, EF: ExtensionField<F>>(
    alloc: Global,
    instances: &[BatchInstance<'_, F>],
    challenges: &Challenges<EF>,
) -> Result<Witness<EF>, BatchFault>
    requires { AreReady challenges.now instances.now }
    ensures answer { GivesPlainWitness ⟦<EF as Over<F>>⟧.fields (table_of challenges.now)
        (instances_of instances.now) result }
    ensures succeeds { SucceedsIfRegular ⟦<EF as Over<F>>⟧.fields (table_of challenges.now)
        (instances_of instances.now) result }
    ensures satisfied { GivesSatisfied ⟦<EF as Over<F>>⟧.fields (table_of challenges.now)
        (instances_of instances.now) result }
    ensures balanced { GivesAcceptedIfBalanced
        ⟦<EF as Over<F>>⟧.fields (table_of challenges.now) (instances_of instances.now) result }
{
    let mut aux = Vec::new(alloc);
    let mut terminals = Vec::new(alloc);
    for air in 0..instances.len() {
        match generate_result(alloc, &instances[air], challenges) {
            Ok((trace, terminal)) => {
                aux.push(trace)?;
                terminals.push(terminal)?;
            }
            Err(error) => return Err(BatchFault::of_air(air, error)),
        }
    }
    Ok(Witness { aux, terminals })
}

/// The auxiliary trace and the terminal of one AIR.
fn generate_result<F: Field, EF: ExtensionField<F>>(
    alloc: Global,
    instance: &BatchInstance<'_, F>,
    challenges: &Challenges<EF>,
) -> Result<(RowMajorMatrix<EF>, Option<LookupTerminal<EF>>), LookupError>
    requires fit { IsFitting (instance_of instance.now) }
    requires ids { HasPrefixes challenges.now instance.now }
    ensures { GivesPlainResult ⟦<EF as Over<F>>⟧.fields (table_of challenges.now)
        (instance_of instance.now) result }
{
    let columns = challenges.for_columns(alloc, instance.ids)?;
    LogUpGadget::new().generate_permutation(
        alloc,
        instance.main,
        instance.preprocessed,
        instance.public_values,
        instance.lookups,
        columns.as_slice(),
    )
}
