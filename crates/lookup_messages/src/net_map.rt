//! The net of each key.
ghost use Rattle.std.specs.Prelude.{◌≡◌, IfErr, IfOk, None, OnErr, OnOk};
ghost use Rattle.std.specs.Option.{unwrap_or};
ghost use Rattle.indexmap.specs.IndexMap.{get, insert_entry};
ghost use Rattle.lookup_messages.specs.SentMessages.{messages_of};
ghost use Rattle.lookup_messages.specs.Entries.{key_entries, nets_of};

use crate::messages::SentMessage;
use field::Field;
use indexmap::IndexMap;
use std::alloc::{AllocError, AllocFailed, Global};
use std::hash::Hash;

/// A key that borrows its tuple.
#[derive(Clone, Copy, PartialEq, Eq, Hash)]
pub struct KeyRef<'a, F> {
    /// The id under which the tuple is sent.
    pub id: usize,
    /// The values of the tuple.
    pub tuple: &'a [F],
}

/// The net of each key, in the order in which the keys are first seen.
///
/// Fails only when out of memory.
pub fn nets<'a, F: Field>(
    alloc: Global,
    messages: &'a [SentMessage<F>],
) -> Result<IndexMap<KeyRef<'a, F>, F>, AllocError>
    ensures { IfOk result (λ m. key_entries m.entries
        ≡ nets_of F.ring F.eq (messages_of messages.now)) }
{
    let mut nets = IndexMap::new(alloc);
    for message in messages {
        let key = KeyRef {
            id: message.id,
            tuple: message.tuple.as_slice(),
        };
        add_at(&mut nets, key, message.multiplicity)?;
    }
    Ok(nets)
}

/// Adds to the value at a key, which is zero where the key is new. A new key goes last.
///
/// Fails only when out of memory, and only for a new key. The key is then returned, and the map is
/// unchanged.
#[inline(always)]
pub fn add_at<K: Eq + Hash + Drop, F: Field>(
    nets: &mut IndexMap<K, F>,
    key: K,
    amount: F,
) -> Result<(), AllocFailed<K>>
    ensures adds { OnOk result (nets.new.entries ≡ insert_entry K.eq nets.old.entries key
        (F.ring.add (unwrap_or (get K.eq nets.old key) F.ring.zero) amount)) }
    ensures refused { IfErr result (λ e. (e.value ≡ key) × (get K.eq nets.old key ≡ None)) }
    ensures unchanged { OnErr result (nets.new.entries ≡ nets.old.entries) }
{
    let net = nets.entry(key)?.or_insert(F::ZERO);
    *net = *net + amount;
    Ok(())
}
