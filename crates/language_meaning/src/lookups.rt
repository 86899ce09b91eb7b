//! Lookups of names as lookups over a field.
ghost use Rattle.std.specs.Prelude.{◌≡◌, ◌⊎◌, ◌^◌, ◌≤◌, IfOk, MatchOption, MatchResult, map, option_map};
ghost use Rattle.air_expressions.specs.Tree.{tree_of};
ghost use Rattle.field.specs.Ring.{of_nat};
ghost use Rattle.lookup_model.specs.Outline.{bus_of, outline_of};
ghost use Rattle.lookup_model.specs.Records.{AreRecords, IsRecordAt};
ghost use Rattle.language_meaning.specs.Lookups.{column_of, sent_part_of};
ghost use Rattle.language_meaning.specs.Scopes.{bytes_in};
ghost use Rattle.language_meaning.specs.Values.{meant_of};
ghost use Rattle.language_meaning.specs.Columns.{IsColumnRefusal, IsFirstColumnRefusal, IsMade, IsNameRefusal, IsNamed, flag_or_one, flags_in, greatest_weight, outline_in, outlines_in, sum_of_weights, weight_in};
ghost use Rattle.language_meaning.specs.Expressions.{tree_in};

use crate::element_fault::{ElementFault, ElementRefusal, ElementWhy};
use crate::expression::expression_of;
use crate::named_air::{NamedLookup, NamedPart};
use crate::scope::bytes_of;
use crate::value::Value;
use air_expressions::SymbolicExpression;
use field::PrimeCharacteristicRing;
use language::Span;
use lookup_model::{Kind, Lookup};
use std::alloc::{AllocError, Global};

/// Lookups of a text over a field, in the columns 0, 1, 2, …
///
/// The weight of a lookup is the sum over its messages; that of an exclusive one is the greatest.
///
/// Refuses the first lookup whose bus has a name that is no UTF-8, or else whose weights do not fit
/// 64 bits. Also fails when out of memory.
pub fn lookups_over<F: PrimeCharacteristicRing>(
    alloc: Global,
    text: &[u8],
    named: &[NamedLookup],
) -> Result<Vec<Lookup<F>>, ElementFault>
    ensures lookups { MatchResult result
        (λ v. map outline_of v.items
        ≡ outlines_in (of_nat F.ring) text.now 0 (map column_of named.now))
        (λ e. (e ≡ ElementFault.Memory) ⊎ (refusal : ElementRefusal)
        × (e ≡ ElementFault.Refused refusal)
        × IsFirstColumnRefusal text.now (map column_of named.now) refusal) }
    ensures records { IfOk result (λ v. AreRecords v.items) }
{
    let mut lookups = Vec::new(alloc);
    for index in 0..named.len() {
        lookups.push(lookup_over(alloc, text, &named[index], index)?)?;
    }
    Ok(lookups)
}

/// A lookup of a text in this column.
fn lookup_over<F: PrimeCharacteristicRing>(
    alloc: Global,
    text: &[u8],
    named: &NamedLookup,
    column: usize,
) -> Result<Lookup<F>, ElementFault>
    ensures lookup { MatchResult result
        (λ l. (outline_of l ≡ outline_in (of_nat F.ring) text.now column
        (column_of named.now)) × IsMade text.now (column_of named.now))
        (λ e. (e ≡ ElementFault.Memory) ⊎ (refusal : ElementRefusal)
        × (e ≡ ElementFault.Refused refusal)
        × IsColumnRefusal text.now (column_of named.now) refusal) }
    ensures record { IfOk result (IsRecordAt column) }
{
    let kind = kind_of(alloc, text, named.bus)?;
    let Some(count_weight) = weight_of(named) else {
        return Err(ElementFault::Refused(ElementRefusal {
            at: named.at,
            why: ElementWhy::Weight,
        }));
    };
    let elements = tuples_over(alloc, &named.parts)?;
    let multiplicities = counts_over(alloc, &named.parts)?;
    let flags = if named.exclusive {
        Some(flags_over(alloc, &named.parts)?)
    } else {
        None
    };
    Ok(Lookup {
        kind,
        elements,
        multiplicities,
        count_weight,
        column,
        flags,
    })
}

/// The kind of a lookup on the bus with this name, or on a bus of its own.
fn kind_of(alloc: Global, text: &[u8], bus: Option<Span>) -> Result<Kind, ElementFault>
    ensures { MatchResult result
        (λ kind. (bus_of kind ≡ option_map (λ s. bytes_in s text.now) bus) × IsNamed text.now bus)
        (λ e. (e ≡ ElementFault.Memory) ⊎ (refusal : ElementRefusal)
        × (e ≡ ElementFault.Refused refusal) × IsNameRefusal text.now bus refusal) }
{
    let Some(span) = bus else {
        return Ok(Kind::Local);
    };
    match str::from_utf8(bytes_of(text, span)) {
        Ok(name) => Ok(Kind::Global(String::from_str(alloc, name)?)),
        Err(_) => Err(ElementFault::Refused(ElementRefusal {
            at: span.start,
            why: ElementWhy::BusName,
        })),
    }
}

/// The most that a row adds to a count by a lookup, if it fits.
fn weight_of(named: &NamedLookup) -> Option<u64>
    ensures { MatchOption result (2 ^ 64 ≤ weight_in (column_of named.now))
        (λ weight. weight ≡ weight_in (column_of named.now)) }
{
    if named.exclusive {
        Some(greatest_weight(&named.parts))
    } else {
        sum_of_weights(&named.parts)
    }
}

/// The greatest weight of some messages, 0 where there are none.
fn greatest_weight(parts: &[NamedPart]) -> u64
    ensures { result ≡ greatest_weight (map sent_part_of parts.now) }
{
    let mut most = 0;
    for part in parts {
        most = part.message.weight.max(most);
    }
    most
}

/// The sum of the weights of some messages, if it fits.
fn sum_of_weights(parts: &[NamedPart]) -> Option<u64>
    ensures { MatchOption result (2 ^ 64 ≤ sum_of_weights (map sent_part_of parts.now))
        (λ sum. sum ≡ sum_of_weights (map sent_part_of parts.now)) }
{
    let mut sum = 0u64;
    for part in parts {
        sum = sum.checked_add(part.message.weight)?;
    }
    Some(sum)
}

/// The expressions of the tuples of some messages.
fn tuples_over<F: PrimeCharacteristicRing>(
    alloc: Global,
    parts: &[NamedPart],
) -> Result<Vec<Vec<SymbolicExpression<F>>>, AllocError>
    ensures { IfOk result (λ v. map (λ tuple. map tree_of tuple.items) v.items
        ≡ map (λ p. map (tree_in (of_nat F.ring)) p.message.tuple)
        (map sent_part_of parts.now)) }
{
    let mut tuples = Vec::new(alloc);
    for part in parts {
        tuples.push(tuple_over(alloc, &part.message.tuple)?)?;
    }
    Ok(tuples)
}

/// The expressions of the counts of some messages.
fn counts_over<F: PrimeCharacteristicRing>(
    alloc: Global,
    parts: &[NamedPart],
) -> Result<Vec<SymbolicExpression<F>>, AllocError>
    ensures { IfOk result (λ v. map tree_of v.items
        ≡ map (λ p. tree_in (of_nat F.ring) p.message.count) (map sent_part_of parts.now)) }
{
    let mut counts = Vec::new(alloc);
    for part in parts {
        counts.push(expression_of(alloc, &part.message.count)?)?;
    }
    Ok(counts)
}

/// The expressions of the flags of some messages, one where there is none.
fn flags_over<F: PrimeCharacteristicRing>(
    alloc: Global,
    parts: &[NamedPart],
) -> Result<Vec<SymbolicExpression<F>>, AllocError>
    ensures { IfOk result (λ v. map tree_of v.items
        ≡ map (λ p. tree_in (of_nat F.ring) (flag_or_one p.flag))
        (map sent_part_of parts.now)) }
{
    let mut flags = Vec::new(alloc);
    for part in parts {
        flags.push(flag_over(alloc, &part.flag)?)?;
    }
    Ok(flags)
}

/// The expression of a flag, one where there is none.
fn flag_over<F: PrimeCharacteristicRing>(
    alloc: Global,
    flag: &Option<Value>,
) -> Result<SymbolicExpression<F>, AllocError>
    ensures { IfOk result (λ r. tree_of r
        ≡ tree_in (of_nat F.ring) (flag_or_one (option_map meant_of flag.now))) }
{
    match flag {
        Some(value) => expression_of(alloc, value),
        None => expression_of(alloc, &Value::Number(1)),
    }
}

/// The expressions of a tuple.
fn tuple_over<F: PrimeCharacteristicRing>(
    alloc: Global,
    values: &[Value],
) -> Result<Vec<SymbolicExpression<F>>, AllocError>
    ensures { IfOk result (λ v. map tree_of v.items
        ≡ map (tree_in (of_nat F.ring)) (map meant_of values.now)) }
{
    let mut tuple = Vec::new(alloc);
    for value in values {
        tuple.push(expression_of(alloc, value)?)?;
    }
    Ok(tuple)
}
