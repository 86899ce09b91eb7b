//! What messages send, and how often.
ghost use Rattle.std.specs.Prelude.{◌≡◌, IfOk, map};
ghost use Rattle.language.specs.Formulas.{formula_of};
ghost use Rattle.language.specs.Messages.{message_of as said_by};
ghost use Rattle.language_meaning.specs.Faults.{IsNameResultOrMemory};
ghost use Rattle.language_meaning.specs.Messages.{all_meant, constant_of, count_of, meant_message, sent_of, signed_count, times_of, weight_of_message};
ghost use Rattle.language_meaning.specs.Room.{in_room};
ghost use Rattle.language_meaning.specs.Scopes.{names_of};
ghost use Rattle.language_meaning.specs.Values.{meant_of};

use crate::name_fault::{NameFault, NameRefusal, NameWhy};
use crate::scope::{Scope, value_of};
use crate::value::Value;
use language::{MessageText, Tree, Verb};
use std::alloc::{AllocError, Global};

/// A message over columns by their numbers.
#[derive(Debug, Drop)]
pub struct NamedMessage {
    /// The byte at which it begins.
    pub at: usize,
    pub tuple: Vec<Value>,
    /// How often it counts: with a minus where it is provided or received.
    pub count: Value,
    /// The most that a row adds to a count by it: 0 where it is provided.
    pub weight: u64,
}

/// What a message sends and how often, with its weight, and how much it leaves of the room for so
/// many nodes. Each value of the tuple leaves room for the next, and the last one for the count. A
/// count's sign takes none, nor does the number 1 where `times` is not there.
///
/// Refuses the first fault of `value_of`, and then a message whose weight is not known: it is not
/// provided, no `at most` is there, and the count is no number.
#[tactic(auto, unfolding(crate::specs::Messages::meant_message))]
pub fn named_message(
    alloc: Global,
    scope: &Scope<'_>,
    message: &MessageText,
    room: usize,
) -> Result<(NamedMessage, usize), NameFault>
    ensures { IsNameResultOrMemory (in_room sent_of) result (meant_message (names_of scope.now) (said_by message.now) room) }
{
    let (tuple, room) = values_of(alloc, scope, &message.tuple, room)?;
    let (count, room) = count_of(alloc, scope, message, room)?;
    let weight = weight_of(message)?;
    let named = NamedMessage {
        at: message.at,
        tuple,
        count,
        weight,
    };
    Ok((named, room))
}

/// What each expression of a tuple means, and the room that they leave.
fn values_of(
    alloc: Global,
    scope: &Scope<'_>,
    trees: &[Tree],
    room: usize,
) -> Result<(Vec<Value>, usize), NameFault>
    ensures { IsNameResultOrMemory (in_room (λ v. map meant_of v.items)) result
        (all_meant (names_of scope.now) (map formula_of trees.now) room) }
{
    let mut values = Vec::new(alloc);
    let mut left = room;
    for tree in trees {
        let (value, after) = value_of(alloc, scope, tree, left)?;
        values.push(value)?;
        left = after;
    }
    Ok((values, left))
}

/// How often a message counts, with its sign, and the room that the count leaves.
#[tactic(auto, unfolding(crate::specs::Messages::count_of))]
fn count_of(
    alloc: Global,
    scope: &Scope<'_>,
    message: &MessageText,
    room: usize,
) -> Result<(Value, usize), NameFault>
    ensures { IsNameResultOrMemory (in_room meant_of) result
        (count_of (names_of scope.now) (said_by message.now) room) }
{
    let (times, left) = times_of(alloc, scope, message, room)?;
    Ok((with_sign(alloc, message.verb, times)?, left))
}

/// What `times` says, and else one, and the room that it leaves.
#[tactic(auto, unfolding(crate::specs::Messages::times_of))]
fn times_of(
    alloc: Global,
    scope: &Scope<'_>,
    message: &MessageText,
    room: usize,
) -> Result<(Value, usize), NameFault>
    ensures { IsNameResultOrMemory (in_room meant_of) result
        (times_of (names_of scope.now) (said_by message.now).times room) }
{
    match &message.times {
        Some(tree) => value_of(alloc, scope, tree, room),
        None => Ok((Value::Number(1), room)),
    }
}

/// A count with the sign of a verb.
fn with_sign(alloc: Global, verb: Verb, times: Value) -> Result<Value, AllocError>
    ensures { IfOk result (λ v. meant_of v ≡ signed_count verb (meant_of times)) }
{
    match verb {
        Verb::Query | Verb::Send => Ok(times),
        Verb::Provide | Verb::Receive => Ok(Value::Negative(Box::new(alloc, times)?)),
    }
}

/// The most that a row adds to a count by a message.
#[tactic(auto, unfolding(crate::specs::Messages::weight_of_message))]
fn weight_of(message: &MessageText) -> Result<u64, NameRefusal>
    ensures { result ≡ weight_of_message (said_by message.now) }
{
    match message.verb {
        Verb::Provide => Ok(0),
        _ => match message.at_most {
            Some(most) => Ok(most),
            None => constant_of(message),
        },
    }
}

/// The count of a message that is a number.
#[tactic(auto, unfolding(crate::specs::Messages::constant_of))]
fn constant_of(message: &MessageText) -> Result<u64, NameRefusal>
    ensures { result ≡ constant_of (said_by message.now).at (said_by message.now).times }
{
    match &message.times {
        None => Ok(1),
        Some(Tree::Number(number, _)) => Ok(*number),
        Some(_) => Err(NameRefusal {
            at: message.at,
            why: NameWhy::NoWeight,
        }),
    }
}
