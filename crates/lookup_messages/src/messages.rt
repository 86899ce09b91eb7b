//! The messages of an AIR, collected row by row.
ghost use Rattle.std.specs.Prelude.{◌≡◌, ◌<◌, ◌⊎◌, ◌∷◌, ◌++◌, [], None, Some, IfErr, MatchResult, length, slice_get, slice_index_or};
ghost use Rattle.air.specs.Traces.{layout_of, traces_of};
ghost use Rattle.air_expressions.specs.Layout.{Fits};
ghost use Rattle.air_expressions.specs.Tree.{tree_of};
ghost use Rattle.lookup_messages.specs.SentMessages.{HasSentRow, HasSentRows, StayInFront, messages_of};
ghost use Rattle.lookup_messages.specs.TraceBuilder.{builder_layout, builder_window};
ghost use Rattle.lookup_model.specs.Fault.{flag_fault_of};
ghost use Rattle.lookup_model.specs.FlagFault.{row_flag_faults, trace_flag_faults};
ghost use Rattle.lookup_model.specs.Records.{AllFit, HasEqualLengths, IsWithin, LookupsFit};
ghost use Rattle.lookup_model.specs.Sent.{branch_at, branches_at, sent, sent_at, values};
ghost use Rattle.lookup_model.specs.Trace.{sent_row_under, sent_rows_under};

use crate::flags::set_flags;
use crate::row::row_builder;
use crate::trace_builder::LookupTraceBuilder;
use air::{SymbolicExpression, Traces};
use field::Field;
use lookup_model::{Lookup, LookupError, SetFlags};
use std::alloc::Global;

/// A message: the id under which it is sent, the values of its tuple, and its multiplicity.
#[derive(Debug, Drop)]
pub struct SentMessage<F> {
    pub id: usize,
    pub tuple: Vec<F>,
    pub multiplicity: F,
}

/// The values of a tuple on the builder's row.
fn tuple_values<F: Field>(
    alloc: Global,
    tuple: &[SymbolicExpression<F>],
    builder: &LookupTraceBuilder<'_, F, F>,
) -> Result<Vec<F>, LookupError>
    requires { AllFit (builder_layout builder.now) tuple.now }
    ensures { MatchResult result
        (λ v. v.items ≡ values F.ring (builder_window builder.now) tuple.now)
        (λ e. e ≡ LookupError.Memory) }
{
    let mut values = Vec::with_capacity(alloc, tuple.len())?;
    for element in tuple {
        values.push(builder.value_of(element))?;
    }
    Ok(values)
}

/// Appends the message of one branch.
fn push_branch<F: Field>(
    alloc: Global,
    messages: &mut Vec<SentMessage<F>>,
    id: usize,
    tuple: &[SymbolicExpression<F>],
    multiplicity: &SymbolicExpression<F>,
    builder: &LookupTraceBuilder<'_, F, F>,
) -> Result<(), LookupError>
    requires tuple_fits { AllFit (builder_layout builder.now) tuple.now }
    requires multiplicity_fits { Fits (builder_layout builder.now) (tree_of multiplicity.now) }
    ensures pushes { MatchResult result
        (λ _. messages_of messages.new.items ≡ messages_of messages.old.items
        ++ branch_at F.ring (builder_window builder.now) id tuple.now multiplicity.now ∷ [])
        (λ e. e ≡ LookupError.Memory) }
    ensures front { StayInFront messages.old.items messages.new.items }
{
    let tuple = tuple_values(alloc, tuple, builder)?;
    let multiplicity = builder.value_of(multiplicity);
    messages.push(SentMessage {
        id,
        tuple,
        multiplicity,
    })?;
    Ok(())
}

/// Appends the messages of all branches of a lookup.
fn push_branches<F: Field>(
    alloc: Global,
    messages: &mut Vec<SentMessage<F>>,
    id: usize,
    lookup: &Lookup<F>,
    builder: &LookupTraceBuilder<'_, F, F>,
) -> Result<(), LookupError>
    requires lengths { HasEqualLengths lookup.now }
    requires within { IsWithin (builder_layout builder.now) lookup.now }
    ensures pushes { MatchResult result
        (λ _. messages_of messages.new.items ≡ messages_of messages.old.items
        ++ branches_at F.ring (builder_window builder.now) id lookup.now)
        (λ e. e ≡ LookupError.Memory) }
    ensures front { StayInFront messages.old.items messages.new.items }
{
    for branch in 0..lookup.elements.len() {
        let tuple = &lookup.elements[branch];
        let multiplicity = &lookup.multiplicities[branch];
        push_branch(alloc, messages, id, tuple, multiplicity, builder)?;
    }
    Ok(())
}

/// Appends the message of the branch whose flag is set, if one is.
///
/// Refuses a flag that is neither zero nor one, and then more than one set flag.
fn push_selected<F: Field>(
    alloc: Global,
    messages: &mut Vec<SentMessage<F>>,
    id: usize,
    lookup: &Lookup<F>,
    flags: &[SymbolicExpression<F>],
    builder: &LookupTraceBuilder<'_, F, F>,
) -> Result<(), LookupError>
    requires lengths { HasEqualLengths lookup.now }
    requires flag_number { length flags.now ≡ length lookup.now.elements.items }
    requires within { IsWithin (builder_layout builder.now) lookup.now }
    requires flags_fit { AllFit (builder_layout builder.now) flags.now }
    ensures pushes { let w = builder_window builder.now in
        let sent = sent F.ring F.eq (Some (values F.ring w flags.now))
        (branches_at F.ring w id lookup.now) in
        let fault = flag_fault_of F.ring F.eq builder.now.row lookup.now.column sent.flags in
        MatchResult result
        (λ _. (messages_of messages.new.items ≡ messages_of messages.old.items ++ sent.messages)
        × (fault ≡ None))
        (λ e. (e ≡ LookupError.Memory) ⊎ (fault ≡ Some e)) }
    ensures front { StayInFront messages.old.items messages.new.items }
{
    match set_flags(flags, builder, lookup.column)? {
        SetFlags::Nothing => Ok(()),
        SetFlags::One(branch) => {
            let tuple = &lookup.elements[branch];
            let multiplicity = &lookup.multiplicities[branch];
            push_branch(alloc, messages, id, tuple, multiplicity, builder)
        }
        SetFlags::Several => Err(LookupError::FlagsNotExclusive {
            row: builder.row(),
            lookup: lookup.column,
        }),
    }
}

/// Appends the messages that a lookup sends on the builder's row.
///
/// Refuses the fault of its flags, if they have one.
fn push_sent<F: Field>(
    alloc: Global,
    messages: &mut Vec<SentMessage<F>>,
    id: usize,
    lookup: &Lookup<F>,
    builder: &LookupTraceBuilder<'_, F, F>,
) -> Result<(), LookupError>
    requires lengths { HasEqualLengths lookup.now }
    requires within { IsWithin (builder_layout builder.now) lookup.now }
    ensures pushes { let sent = sent_at F.ring F.eq (builder_window builder.now) id lookup.now in
        let fault = flag_fault_of F.ring F.eq builder.now.row lookup.now.column sent.flags in
        MatchResult result
        (λ _. (messages_of messages.new.items ≡ messages_of messages.old.items ++ sent.messages)
        × (fault ≡ None))
        (λ e. (e ≡ LookupError.Memory) ⊎ (fault ≡ Some e)) }
    ensures front { StayInFront messages.old.items messages.new.items }
{
    match &lookup.flags {
        None => push_branches(alloc, messages, id, lookup, builder),
        Some(flags) => push_selected(alloc, messages, id, lookup, flags, builder),
    }
}

/// Appends the messages that the lookups of an AIR send on the builder's row.
///
/// Refuses the first fault of their flags.
fn push_row_messages<F: Field>(
    alloc: Global,
    messages: &mut Vec<SentMessage<F>>,
    ids: &[usize],
    lookups: &[Lookup<F>],
    builder: &LookupTraceBuilder<'_, F, F>,
) -> Result<(), LookupError>
    requires fit { LookupsFit (builder_layout builder.now) lookups.now }
    requires ids { length ids.now ≡ length lookups.now }
    ensures pushes { let sents = sent_row_under F.ring F.eq (λ l. slice_index_or ids.now l.column 0)
        (builder_window builder.now) lookups.now in
        MatchResult result
        (λ _. HasSentRow F.ring F.eq builder.now.row messages.old.items messages.new.items sents)
        (λ e. (e ≡ LookupError.Memory)
        ⊎ (slice_get (row_flag_faults F.ring F.eq builder.now.row sents) 0 ≡ Some e)) }
    ensures front { StayInFront messages.old.items messages.new.items }
{
    for lookup in lookups {
        let id = ids[lookup.column];
        push_sent(alloc, messages, id, lookup, builder)?;
    }
    Ok(())
}

/// Appends the messages of an AIR, row by row. After a refusal some of them may be there, behind the
/// earlier ones.
fn push_rows<'a, F: Field>(
    alloc: Global,
    messages: &mut Vec<SentMessage<F>>,
    traces: &Traces<'a, F>,
    lookups: &[Lookup<F>],
    ids: &[usize],
) -> Result<(), LookupError>
    requires fit { LookupsFit (layout_of (traces_of traces.now)) lookups.now }
    requires ids { length ids.now ≡ length lookups.now }
    ensures pushes { let rows = sent_rows_under F.ring F.eq
        (λ l. slice_index_or ids.now l.column 0) (traces_of traces.now) lookups.now in
        MatchResult result
        (λ _. HasSentRows F.ring F.eq messages.old.items messages.new.items rows)
        (λ e. (e ≡ LookupError.Memory)
        ⊎ (slice_get (trace_flag_faults F.ring F.eq rows) 0 ≡ Some e)) }
    ensures front { StayInFront messages.old.items messages.new.items }
{
    // messages need no challenges, so the field stands where its extension would
    let challenges: &'a [F] = &[];
    let height = traces.main.height();
    for row in 0..height {
        let builder = row_builder(traces, challenges, height, row);
        push_row_messages(alloc, messages, ids, lookups, &builder)?;
    }
    Ok(())
}

/// Appends the messages that the lookups of an AIR send over its traces, row by row. There is an id
/// for each lookup, in the order of their columns.
///
/// Refuses the first fault of flags, in the order row, lookup: a flag that is neither zero nor one,
/// then more than one set flag. Also fails when out of memory. After a refusal `messages` is
/// unchanged.
pub fn push_messages<F: Field>(
    alloc: Global,
    messages: &mut Vec<SentMessage<F>>,
    traces: &Traces<'_, F>,
    lookups: &[Lookup<F>],
    ids: &[usize],
) -> Result<(), LookupError>
    requires fit { LookupsFit (layout_of (traces_of traces.now)) lookups.now }
    requires ids { length ids.now ≡ length lookups.now }
    ensures pushes { let rows = sent_rows_under F.ring F.eq
        (λ l. slice_index_or ids.now l.column 0) (traces_of traces.now) lookups.now in
        MatchResult result
        (λ _. HasSentRows F.ring F.eq messages.old.items messages.new.items rows)
        (λ e. (e ≡ LookupError.Memory)
        ⊎ (slice_get (trace_flag_faults F.ring F.eq rows) 0 ≡ Some e)) }
    ensures unchanged { IfErr result (λ _. messages.new.items ≡ messages.old.items) }
{
    let before = messages.len();
    match push_rows(alloc, messages, traces, lookups, ids) {
        Ok(()) => Ok(()),
        Err(error) => {
            messages.truncate(before);
            Err(error)
        }
    }
}
