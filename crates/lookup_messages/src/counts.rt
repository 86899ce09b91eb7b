//! How many keys there are, and how many of them do not balance.
ghost use Rattle.std.specs.Prelude.{◌≡◌, IfOk, length, filter, not};
ghost use Rattle.indexmap.specs.IndexMap.{values};
ghost use Rattle.lookup_messages.specs.SentMessages.{messages_of};
ghost use Rattle.lookup_model.specs.Net.{keys, unbalanced_keys};

use crate::messages::SentMessage;
use crate::net_map::{KeyRef, nets};
use field::Field;
use indexmap::IndexMap;
use std::alloc::{AllocError, Global};

/// How many distinct keys the messages have, and how many of them have a net that is not zero.
///
/// Fails only when out of memory.
pub fn key_counts<F: Field>(
    alloc: Global,
    messages: &[SentMessage<F>],
) -> Result<(usize, usize), AllocError>
    ensures all { IfOk result (λ r. r.0 ≡ length (keys F.eq (messages_of messages.now))) }
    ensures unbalanced { IfOk result (λ r. r.1
        ≡ length (unbalanced_keys F.ring F.eq (messages_of messages.now))) }
{
    let nets = nets(alloc, messages)?;
    let nonzero = nonzero_count(&nets);
    Ok((nets.len(), nonzero))
}

/// How many values are not zero.
fn nonzero_count<F: Field>(nets: &IndexMap<KeyRef<'_, F>, F>) -> usize
    ensures { result ≡ length (filter (λ v. not (F.eq v F.ring.zero)) (values nets.now)) }
{
    let mut count = 0;
    for index in 0..nets.len() {
        if !(nets[index] == F::ZERO) {
            count += 1;
        }
    }
    count
}
