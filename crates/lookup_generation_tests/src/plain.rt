//! The plain result of generation, computed slowly from its definition: tests compare the fast
//! calls with it.
ghost use Rattle.std.specs.Prelude.{◌≡◌, ◌≢◌, ◌+◌, ◌*◌, ◌<◌, ◌⊎◌, ◌||◌, All, IfOk, IsTrue, List, [], ◌∷◌, Some, false, length, map, MatchOption, MatchResult};
ghost use Rattle.std.specs.List.{list_all, list_any};
ghost use Rattle.field.specs.Polynomial.{combined};
ghost use Rattle.lookup_generation_tests.specs.PlainProgram.{as_message, as_messages, net_vanishes, sent_of};
ghost use Rattle.lookup_generation_tests.specs.internal.PlainProgram.{IsSumOfQuotients};
ghost use Rattle.lookup_model.specs.Denominators.{key_denominator};
ghost use Rattle.lookup_model.specs.Fault.{fault_of, set_indices, vanishes};
ghost use Rattle.lookup_model.specs.Message.{Message, same_key};
ghost use Rattle.lookup_model.specs.Net.{net};
ghost use Rattle.lookup_model.specs.Plain.{counted_messages, net_sum, plain_fraction, quotient};
ghost use Rattle.lookup_model.specs.Sent.{sent};

use field::{ExtensionField, Field, Over};
use lookup_model::LookupError;
use std::alloc::{AllocError, Global};

/// A message: an id, which is a column, the values of a tuple, and a multiplicity.
#[derive(Drop)]
pub struct PlainMessage<F> {
    pub id: usize,
    pub tuple: Vec<F>,
    pub multiplicity: F,
}

/// The fraction of an additive lookup that sends these messages, and `None` exactly where a
/// denominator under a multiplicity that is not zero vanishes.
pub fn fraction_of<F: Field, EF: ExtensionField<F>>(
    messages: &[PlainMessage<F>],
    challenges: &[EF],
) -> Option<EF>
    requires { All (λ m. 2 * m.id + 1 < length challenges.now) messages.now }
    ensures { let E = ⟦<EF as Over<F>>⟧.fields in
        let denominator = key_denominator E challenges.now in
        let vanishing = vanishes E denominator (counted_messages F.ring F.eq (as_messages messages.now)) in
        MatchOption result (IsTrue vanishing)
        (λ f. (f ≡ plain_fraction E denominator (sent_of messages.now)) × (vanishing ≡ false)) }
{
    let mut sum = EF::ZERO;
    for message in messages {
        sum = sum + quotient_of(message, message.multiplicity, challenges)?;
    }
    Some(sum)
}

/// The sum of net over denominator over the keys of these messages whose net is not zero, and
/// `None` exactly where such a denominator vanishes.
pub fn terminal_of<F: Field, EF: ExtensionField<F>>(
    messages: &[PlainMessage<F>],
    challenges: &[EF],
) -> Option<EF>
    requires { All (λ m. 2 * m.id + 1 < length challenges.now) messages.now }
    ensures { let E = ⟦<EF as Over<F>>⟧.fields in
        let denominator = key_denominator E challenges.now in
        let vanishing = net_vanishes E denominator (as_messages messages.now) in
        MatchOption result (IsTrue vanishing)
        (λ t. (t ≡ net_sum E denominator (as_messages messages.now)) × (vanishing ≡ false)) }
{
    let mut sum = EF::ZERO;
    for index in 0..messages.len() {
        let message = &messages[index];
        if !holds(&messages[..index], message) {
            sum = sum + quotient_of(message, net_of(messages, message), challenges)?;
        }
    }
    Some(sum)
}

/// The fraction of an exclusive lookup with these values of its flags, one for each message.
///
/// Refuses its fault, by the names of the row and the lookup: a flag that is neither zero nor one,
/// then more than one set flag, then a denominator of a set flag that vanishes.
pub fn exclusive_fraction_of<F: Field, EF: ExtensionField<F>>(
    alloc: Global,
    row: usize,
    lookup: usize,
    flags: &[F],
    messages: &[PlainMessage<F>],
    challenges: &[EF],
) -> Result<EF, LookupError>
    requires ids { All (λ m. 2 * m.id + 1 < length challenges.now) messages.now }
    requires lengths { length messages.now ≡ length flags.now }
    ensures { let E = ⟦<EF as Over<F>>⟧.fields in
        let denominator = key_denominator E challenges.now in
        let sent = sent F.ring F.eq (Some flags.now) (as_messages messages.now) in
        MatchResult result
        (λ f. (f ≡ plain_fraction E denominator sent)
        × (fault_of E denominator row lookup sent ≡ None))
        (λ e. (e ≡ LookupError.Memory) ⊎ (fault_of E denominator row lookup sent ≡ Some e)) }
{
    if !are_boolean(flags) {
        return Err(LookupError::FlagNotBoolean { row, lookup });
    }
    let indices = indices_of_set(alloc, flags)?;
    if indices.len() > 1 {
        return Err(LookupError::FlagsNotExclusive { row, lookup });
    }
    if indices.is_empty() {
        return Ok(EF::ZERO);
    }
    single_quotient(row, lookup, &messages[indices[0]], challenges)
}

/// The quotient of a message, also where its multiplicity is zero.
fn single_quotient<F: Field, EF: ExtensionField<F>>(
    row: usize,
    lookup: usize,
    message: &PlainMessage<F>,
    challenges: &[EF],
) -> Result<EF, LookupError>
    requires { 2 * message.now.id + 1 < length challenges.now }
    ensures { let E = ⟦<EF as Over<F>>⟧.fields in
        let denominator = key_denominator E challenges.now in
        let key = (as_message message.now).key in
        MatchResult result
        (λ q. (denominator key ≢ EF.ring.zero)
        × (q ≡ quotient E denominator message.now.multiplicity key))
        (λ e. (e ≡ LookupError.VanishingDenominator row lookup)
        × (denominator key ≡ EF.ring.zero)) }
{
    let denominator = denominator_of(message, challenges);
    if denominator.is_zero() {
        Err(LookupError::VanishingDenominator { row, lookup })
    } else {
        Ok(EF::embed(message.multiplicity) * denominator.inverse())
    }
}

/// Whether each flag is zero or one.
fn are_boolean<F: Field>(flags: &[F]) -> bool
    ensures { result ≡ list_all (λ f. F.eq f F.ring.zero || F.eq f F.ring.one) flags.now }
{
    for flag in flags {
        if !is_boolean(*flag) {
            return false;
        }
    }
    true
}

/// Whether a flag is zero or one.
fn is_boolean<F: Field>(flag: F) -> bool
    ensures { result ≡ (F.eq flag F.ring.zero || F.eq flag F.ring.one) }
{
    flag == F::ZERO || flag == F::ONE
}

/// The indices of the flags that are one, in order.
fn indices_of_set<F: Field>(alloc: Global, flags: &[F]) -> Result<Vec<usize>, AllocError>
    ensures { IfOk result (λ indices. indices.items ≡ set_indices F.ring F.eq 0 flags.now) }
{
    let mut indices = Vec::new(alloc);
    for index in 0..flags.len() {
        if flags[index] == F::ONE {
            indices.push(index)?;
        }
    }
    Ok(indices)
}

/// A multiplicity over the denominator of a message's key: zero where the multiplicity is, else
/// `None` where the denominator is zero.
fn quotient_of<F: Field, EF: ExtensionField<F>>(
    message: &PlainMessage<F>,
    multiplicity: F,
    challenges: &[EF],
) -> Option<EF>
    requires { 2 * message.now.id + 1 < length challenges.now }
    ensures { let E = ⟦<EF as Over<F>>⟧.fields in
        let denominator = key_denominator E challenges.now in
        let alone : List (Message F) = record
        { key = (as_message message.now).key; multiplicity = multiplicity } ∷ [] in
        MatchOption result (IsTrue (vanishes E denominator (counted_messages F.ring F.eq alone)))
        (λ q. IsSumOfQuotients E denominator alone q) }
{
    if multiplicity.is_zero() {
        return Some(EF::ZERO);
    }
    let denominator = denominator_of(message, challenges);
    if denominator.is_zero() {
        None
    } else {
        Some(EF::embed(multiplicity) * denominator.inverse())
    }
}

/// The denominator of a message's key.
fn denominator_of<F: Field, EF: ExtensionField<F>>(
    message: &PlainMessage<F>,
    challenges: &[EF],
) -> EF
    requires { 2 * message.now.id + 1 < length challenges.now }
    ensures { result ≡ key_denominator ⟦<EF as Over<F>>⟧.fields challenges.now
        (as_message message.now).key }
{
    challenges[2 * message.id] - combined_of(&message.tuple, challenges[2 * message.id + 1])
}

/// The combined tuple.
fn combined_of<F: Field, EF: ExtensionField<F>>(tuple: &[F], beta: EF) -> EF
    ensures { result ≡ combined EF.ring (map EF.embed tuple.now) beta }
{
    let mut sum = EF::ZERO;
    for element in tuple {
        sum = EF::embed(*element) + beta * sum;
    }
    sum
}

/// The sum of the multiplicities of the messages that have the key of `like`.
fn net_of<F: Field>(messages: &[PlainMessage<F>], like: &PlainMessage<F>) -> F
    ensures { result ≡ net F.ring F.eq (as_messages messages.now) (as_message like.now).key }
{
    let mut sum = F::ZERO;
    for message in messages {
        if is_same(like, message) {
            sum = sum + message.multiplicity;
        }
    }
    sum
}

/// Whether one of the messages has the key of `like`.
fn holds<F: Field>(messages: &[PlainMessage<F>], like: &PlainMessage<F>) -> bool
    ensures { result ≡ list_any (λ m. same_key F.eq (as_message m).key (as_message like.now).key)
        messages.now }
{
    for message in messages {
        if is_same(message, like) {
            return true;
        }
    }
    false
}

/// Whether two messages have one key.
fn is_same<F: Field>(a: &PlainMessage<F>, b: &PlainMessage<F>) -> bool
    ensures { result ≡ same_key F.eq (as_message a.now).key (as_message b.now).key }
{
    a.id == b.id && a.tuple == b.tuple
}
