//! The counts of a batch.
ghost use Rattle.std.specs.Prelude.{ℕ, IfOk};
ghost use Rattle.checker_batches.specs.Answers.{GivesCounts};
ghost use Rattle.lookup_model.specs.Batches.Counts.{IsCountedSound};
ghost use Rattle.lookup_model.specs.Batches.Ids.{AreLawfulIds};
ghost use Rattle.lookup_model.specs.Batches.Instances.{InstancesFit, IsFitting, instance_of, instances_of};
ghost use Rattle.lookup_model.specs.Batches.Linear.{IsLinearlySound};
ghost use Rattle.checker_batches.specs.Collected.{IsCountOf};
ghost use Rattle.checker_batches.specs.internal.Collected.{GivesMessages, PushesMessages};

use air::Traces;
use field::{ExtensionField, Field, Over};
use lookup::LookupError;
use lookup_messages::{SentMessage, key_counts, push_messages};
use lookup_model::{BatchFault, BatchInstance, SoundnessCount};
use std::alloc::Global;

/// How many messages a batch has, how many of them do not balance, and upper bounds on the challenges
/// of `EF` at which it can still be accepted; see `SoundnessCount`. The challenges are made for tuples
/// of at most `max_message_width` elements.
///
/// Requires instances that fit (`instances_fit`), with ids that are lawful for this width and some
/// number of prefixes (`ids_are_lawful`).
///
/// Refuses the first fault of flags of the first AIR that has one, in the order row, lookup: a flag
/// that is neither zero nor one, then more than one set flag. Refuses `CountOverflow`, of no AIR,
/// if the bound of bad betas does not fit. Out of memory has no AIR. Once the messages are counted,
/// `soundness_of_counts` answers, which needs no memory.
pub fn soundness_count<F: Field, EF: ExtensionField<F>>(
    alloc: Global,
    instances: &[BatchInstance<'_, F>],
    max_message_width: usize,
) -> Result<SoundnessCount, BatchFault>
    requires fit { InstancesFit instances.now }
    requires ids { (m : ℕ) × AreLawfulIds max_message_width m F.CHARACTERISTIC
        (instances_of instances.now) }
    ensures answer { GivesCounts ⟦<EF as Over<F>>⟧.fields (instances_of instances.now)
        max_message_width result }
    ensures sound { IfOk result (λ _. IsCountedSound ⟦<EF as Over<F>>⟧.fields
        (instances_of instances.now) max_message_width) }
    ensures linear { IfOk result (λ _. IsLinearlySound ⟦<EF as Over<F>>⟧.fields
        (instances_of instances.now) max_message_width) }
{
    let messages = collect_messages(alloc, instances)?;
    let (keys, unbalanced) = key_counts(alloc, messages.as_slice())?;
    soundness_of_counts(keys, unbalanced, max_message_width)
}

/// All messages of a batch.
fn collect_messages<F: Field>(
    alloc: Global,
    instances: &[BatchInstance<'_, F>],
) -> Result<Vec<SentMessage<F>>, BatchFault>
    requires fit { InstancesFit instances.now }
    ensures { GivesMessages F.ring F.eq (instances_of instances.now) result }
{
    let mut messages = Vec::new(alloc);
    for air in 0..instances.len() {
        match push_instance(alloc, &mut messages, &instances[air]) {
            Ok(()) => {}
            Err(error) => return Err(BatchFault::of_air(air, error)),
        }
    }
    Ok(messages)
}

/// Appends the messages of one AIR.
fn push_instance<F: Field>(
    alloc: Global,
    messages: &mut Vec<SentMessage<F>>,
    instance: &BatchInstance<'_, F>,
) -> Result<(), LookupError>
    requires { IsFitting (instance_of instance.now) }
    ensures { PushesMessages F.ring F.eq (instance_of instance.now) messages.old.items
        messages.new.items result }
{
    let traces = Traces {
        main: instance.main,
        preprocessed: instance.preprocessed,
        public_values: instance.public_values,
    };
    push_messages(alloc, messages, &traces, instance.lookups, instance.ids)
}

/// The counts of a batch whose messages are counted: the last step of `soundness_count`, which needs no
/// memory. `keys` is the number of distinct messages, and `unbalanced` that of those that do not
/// balance; the challenges are made for tuples of at most `width` elements.
///
/// Refuses `CountOverflow`, of no AIR, exactly if the bound of bad betas does not fit.
pub fn soundness_of_counts(
    keys: usize,
    unbalanced: usize,
    width: usize,
) -> Result<SoundnessCount, BatchFault>
    ensures { IsCountOf keys unbalanced width result }
{
    let messages = keys as u128;
    let unbalanced = unbalanced as u128;
    let pairs = unbalanced * unbalanced.saturating_sub(1) / 2;
    let Some(bad_betas) = pairs.checked_mul(width as u128) else {
        return Err(BatchFault {
            air: None,
            error: LookupError::CountOverflow,
        });
    };
    let accepting_alphas = if unbalanced == 0 {
        None
    } else {
        Some(messages + unbalanced - 1)
    };
    Ok(SoundnessCount {
        messages,
        unbalanced,
        bad_betas,
        accepting_alphas,
    })
}
