//! The lookups of an AIR.
ghost use Rattle.std.specs.Prelude.{◌≡◌, IfOk, map, option_map};
ghost use Rattle.language.specs.Batches.{section_of};
ghost use Rattle.language.specs.Formulas.{formula_of};
ghost use Rattle.language.specs.Items.{group_part_of as said_part, placed_of};
ghost use Rattle.language.specs.Messages.{message_of as said_by};
ghost use Rattle.language_meaning.specs.Faults.{IsNameResultOrMemory};
ghost use Rattle.language_meaning.specs.Lookups.{addition, addition_of, constraint_at, constraint_of, bus_kept, column_alone, column_of, column_together, defined_by, flag_meant, message_on, new_name, sent_part_of, part_on, parts_on, said_by_items, said_of};
ghost use Rattle.language_meaning.specs.Messages.{sent_of};
ghost use Rattle.language_meaning.specs.Room.{in_room};
ghost use Rattle.language_meaning.specs.Scopes.{boolean_of, bytes_in, defined_of, names_for, names_of};
ghost use Rattle.language_meaning.specs.Values.{meant_of};

use crate::bus::{check_bus, same_bus};
use crate::constraint::NamedConstraint;
use crate::message::{NamedMessage, named_message};
use crate::name_fault::{NameFault, NameRefusal, NameWhy, refused};
use crate::scope::{Defined, Scope, boolean_value_of, bytes_of, defined_value, value_of};
use crate::value::Value;
use language::{
    AirText, BatchText, ItemText, MessageText, PartText, PlacedItem, SectionText, Span, Tree,
};
use std::alloc::{AllocError, Global};

/// A message of a lookup, in an exclusive lookup with its flag.
#[derive(Debug, Drop)]
pub struct NamedPart {
    pub flag: Option<Value>,
    pub message: NamedMessage,
}

/// Messages in one column of fractions.
#[derive(Debug, Drop)]
pub struct NamedLookup {
    /// The byte at which it begins.
    pub at: usize,
    /// The name of the bus that all its messages are on, or `None` for a bus of its own.
    pub bus: Option<Span>,
    /// Whether at most one of its messages counts on a row: that whose flag is set.
    pub exclusive: bool,
    /// The messages, at least one.
    pub parts: Vec<NamedPart>,
}

/// The lookups of an AIR, its public values and its constraints, in their order.
#[derive(Debug, Drop)]
pub struct NamedAir {
    pub lookups: Vec<NamedLookup>,
    pub public_values: Vec<u64>,
    pub constraints: Vec<NamedConstraint>,
    /// How many nodes the expressions of further AIRs may have.
    pub room: usize,
}

/// What an item adds to the lookups and names before it.
#[derive(Debug, Drop)]
enum Added {
    Nothing,
    Definition(Defined),
    Public(Defined, u64),
    Constraint(NamedConstraint),
    Lookup(NamedLookup),
}

/// The lookups of an AIR over these columns of its main and its preprocessed trace, its public values and
/// its constraints. A definition or a public value stands for its name in all later items.
///
/// All expressions together have room for so many nodes: each leaves room for those after it, and
/// the answer says how much is left for further AIRs. A definition takes room where it stands, and
/// again where its name does.
///
/// Refuses the first fault from left to right: those of `value_of` and `named_message`; a name that
/// is defined twice; a bus that is not declared, where the text declares one; a tuple with another
/// number of values than its bus declares; a message of a group on another bus than the first; a
/// group without messages; lookups from a file. It does not call `check_buses`: of two declarations
/// of a bus the first one counts.
pub fn lookups_of(
    alloc: Global,
    text: &[u8],
    batch: &BatchText,
    air: &AirText,
    columns: &[Vec<u8>],
    preprocessed: &[Vec<u8>],
    room: usize,
) -> Result<NamedAir, NameFault>
    ensures { IsNameResultOrMemory said_of result (said_by_items (map section_of batch.now.sections.items)
        (names_for text.now columns.now preprocessed.now) 0
        (map placed_of air.now.items.items) room) }
{
    let (mut defined, mut lookups) = (Vec::new(alloc), Vec::new(alloc));
    let (mut publics, mut constraints) = (Vec::new(alloc), Vec::new(alloc));
    let mut left = room;
    for item in &air.items {
        let scope = Scope {
            text,
            columns,
            preprocessed,
            defined: defined.as_slice(),
        };
        let (added, after) = added_by(alloc, &scope, &batch.sections, publics.len(), item, left)?;
        left = after;
        match added {
            Added::Nothing => {}
            Added::Definition(definition) => defined.push(definition)?,
            Added::Public(definition, value) => {
                defined.push(definition)?;
                publics.push(value)?;
            }
            Added::Constraint(constraint) => constraints.push(constraint)?,
            Added::Lookup(lookup) => lookups.push(lookup)?,
        }
    }
    Ok(NamedAir {
        lookups,
        public_values: publics,
        constraints,
        room: left,
    })
}

/// What an item adds, after so many public values, and the room that it leaves.
#[tactic(auto, unfolding(crate::specs::Lookups::addition_at))]
fn added_by(
    alloc: Global,
    scope: &Scope<'_>,
    sections: &[SectionText],
    publics: usize,
    item: &PlacedItem,
    room: usize,
) -> Result<(Added, usize), NameFault>
    ensures { IsNameResultOrMemory (in_room addition_of) result (addition (map section_of sections.now)
        (names_of scope.now) publics (placed_of item.now) room) }
{
    match &item.item {
        ItemText::Trace(_)
        | ItemText::Preprocessed(_)
        | ItemText::Height(_)
        | ItemText::Columns(_) => Ok((Added::Nothing, room)),
        ItemText::Lookups(_) => Err(refused(item.at, NameWhy::LookupsFile)),
        ItemText::Public(name, number) => {
            check_new(scope, *name)?;
            let definition = define(alloc, scope, *name, Value::Public(publics))?;
            Ok((Added::Public(definition, *number), room))
        }
        ItemText::Let(name, tree) => {
            let (definition, left) = defined_by(alloc, scope, *name, tree, room)?;
            Ok((Added::Definition(definition), left))
        }
        ItemText::Assert(tree) => {
            let (value, left) = value_of(alloc, scope, tree, room)?;
            Ok((
                Added::Constraint(NamedConstraint { at: item.at, value }),
                left,
            ))
        }
        ItemText::AssertBool(tree) => {
            let (value, left) = boolean_value_of(alloc, scope, tree, room)?;
            Ok((
                Added::Constraint(NamedConstraint { at: item.at, value }),
                left,
            ))
        }
        ItemText::Message(message) => {
            let (lookup, left) = lookup_alone(alloc, scope, sections, message, room)?;
            Ok((Added::Lookup(lookup), left))
        }
        ItemText::Together(parts) => {
            let (lookup, left) = group_of(alloc, scope, sections, item.at, false, parts, room)?;
            Ok((Added::Lookup(lookup), left))
        }
        ItemText::Exclusive(parts) => {
            let (lookup, left) = group_of(alloc, scope, sections, item.at, true, parts, room)?;
            Ok((Added::Lookup(lookup), left))
        }
    }
}

/// A definition of a name that has none yet, and the room that it leaves.
fn defined_by(
    alloc: Global,
    scope: &Scope<'_>,
    name: Span,
    tree: &Tree,
    room: usize,
) -> Result<(Defined, usize), NameFault>
    ensures { IsNameResultOrMemory (in_room defined_of) result
        (defined_by (names_of scope.now) name (formula_of tree.now) room) }
{
    check_new(scope, name)?;
    let (value, left) = value_of(alloc, scope, tree, room)?;
    Ok((define(alloc, scope, name, value)?, left))
}

/// Whether a name is not defined before.
fn check_new(scope: &Scope<'_>, name: Span) -> Result<(), NameRefusal>
    ensures { result ≡ new_name (names_of scope.now) name }
{
    if defined_value(scope.defined, bytes_of(scope.text, name)).is_some() {
        return Err(NameRefusal {
            at: name.start,
            why: NameWhy::RepeatedDefinition,
        });
    }
    Ok(())
}

/// A definition of a name.
fn define(alloc: Global, scope: &Scope<'_>, name: Span, value: Value) -> Result<Defined, AllocError>
    ensures { IfOk result
        (λ d. defined_of d ≡ (bytes_in name scope.now.text.now, meant_of value)) }
{
    let name = Vec::from_slice(alloc, bytes_of(scope.text, name))?;
    Ok(Defined { name, value })
}

/// The lookup of a message in a column of its own, and the room that it leaves.
#[tactic(auto, unfolding(crate::specs::Lookups::column_alone))]
fn lookup_alone(
    alloc: Global,
    scope: &Scope<'_>,
    sections: &[SectionText],
    message: &MessageText,
    room: usize,
) -> Result<(NamedLookup, usize), NameFault>
    ensures { IsNameResultOrMemory (in_room column_of) result (column_alone (map section_of sections.now)
        (names_of scope.now) (said_by message.now) room) }
{
    let (named, left) = message_on(alloc, scope, sections, message, room)?;
    let mut parts = Vec::new(alloc);
    parts.push(NamedPart {
        flag: None,
        message: named,
    })?;
    let lookup = NamedLookup {
        at: message.at,
        bus: message.bus,
        exclusive: false,
        parts,
    };
    Ok((lookup, left))
}

/// What a message sends, on a bus that takes it, and the room that it leaves.
fn message_on(
    alloc: Global,
    scope: &Scope<'_>,
    sections: &[SectionText],
    message: &MessageText,
    room: usize,
) -> Result<(NamedMessage, usize), NameFault>
    ensures { IsNameResultOrMemory (in_room sent_of) result (message_on (map section_of sections.now)
        (names_of scope.now) (said_by message.now) room) }
{
    check_bus(scope.text, sections, message.bus, message.tuple.len())?;
    named_message(alloc, scope, message, room)
}

/// The lookup of a group that begins here, and the room that it leaves.
#[tactic(auto, unfolding(crate::specs::Lookups::column_together))]
fn group_of(
    alloc: Global,
    scope: &Scope<'_>,
    sections: &[SectionText],
    at: usize,
    exclusive: bool,
    parts: &[PartText],
    room: usize,
) -> Result<(NamedLookup, usize), NameFault>
    ensures { IsNameResultOrMemory (in_room column_of) result (column_together (map section_of sections.now)
        (names_of scope.now) at exclusive (map said_part parts.now) room) }
{
    let Some(first) = parts.first() else {
        return Err(refused(at, NameWhy::EmptyGroup));
    };
    let bus = first.message.bus;
    let (parts, left) = parts_on(alloc, scope, sections, bus, parts, room)?;
    let lookup = NamedLookup {
        at,
        bus,
        exclusive,
        parts,
    };
    Ok((lookup, left))
}

/// The messages of a group, all of which are on this bus, and the room that they leave.
fn parts_on(
    alloc: Global,
    scope: &Scope<'_>,
    sections: &[SectionText],
    bus: Option<Span>,
    parts: &[PartText],
    room: usize,
) -> Result<(Vec<NamedPart>, usize), NameFault>
    ensures { IsNameResultOrMemory (in_room (λ v. map sent_part_of v.items)) result
        (parts_on (map section_of sections.now) (names_of scope.now) bus
        (map said_part parts.now) room) }
{
    let mut named = Vec::new(alloc);
    let mut left = room;
    for part in parts {
        let (one, after) = part_on(alloc, scope, sections, bus, part, left)?;
        named.push(one)?;
        left = after;
    }
    Ok((named, left))
}

/// A message of a group on this bus, with its flag, and the room that it leaves.
#[tactic(auto, unfolding(crate::specs::Lookups::part_on))]
fn part_on(
    alloc: Global,
    scope: &Scope<'_>,
    sections: &[SectionText],
    bus: Option<Span>,
    part: &PartText,
    room: usize,
) -> Result<(NamedPart, usize), NameFault>
    ensures { IsNameResultOrMemory (in_room sent_part_of) result (part_on (map section_of sections.now)
        (names_of scope.now) bus (said_part part.now) room) }
{
    let (flag, left) = flag_value(alloc, scope, &part.flag, room)?;
    keep_bus(scope, bus, &part.message)?;
    let (message, left) = message_on(alloc, scope, sections, &part.message, left)?;
    Ok((NamedPart { flag, message }, left))
}

/// What the flag of a message means, if it has one, and the room that it leaves.
fn flag_value(
    alloc: Global,
    scope: &Scope<'_>,
    flag: &Option<Tree>,
    room: usize,
) -> Result<(Option<Value>, usize), NameFault>
    ensures { IsNameResultOrMemory (in_room (option_map meant_of)) result
        (flag_meant (names_of scope.now) (option_map formula_of flag.now) room) }
{
    match flag {
        Some(flag) => {
            let (value, left) = value_of(alloc, scope, flag, room)?;
            Ok((Some(value), left))
        }
        None => Ok((None, room)),
    }
}

/// Whether a message is on the bus of its group.
fn keep_bus(scope: &Scope<'_>, bus: Option<Span>, message: &MessageText) -> Result<(), NameRefusal>
    ensures { result ≡ bus_kept (names_of scope.now) bus (said_by message.now) }
{
    if same_bus(scope.text, bus, message.bus) {
        Ok(())
    } else {
        Err(NameRefusal {
            at: message.at,
            why: NameWhy::OtherBus,
        })
    }
}
