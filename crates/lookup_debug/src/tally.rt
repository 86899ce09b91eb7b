//! The first walk of the table of groups: what is contributed, and how much of it is sent and received.
ghost use Rattle.std.specs.Prelude.{◌≡◌, ◌≤◌, [], drop, length, map};
ghost use Rattle.field.specs.Signs.{is_negative};
ghost use Rattle.lookup_debug.specs.internal.Arena.{AreWithin, amounts_in};
ghost use Rattle.lookup_debug.specs.internal.Tallies.{AreSignCounts, IsReady, Tallies, tallies_walk};

use crate::arena::{Contributions, merge_at_limit};
use crate::contributions::push_on_row;
use crate::fault::Location;
use crate::walk::RowVisitor;
use field::SignedField;
use lookup_messages::LookupTraceBuilder;
use lookup_model::Lookup;
use std::alloc::{AllocError, Global};

/// Contributions, with the number of those that are sent and of those that are received.
#[derive(Drop)]
pub(crate) struct Tally<F> {
    pub(crate) contributions: Contributions<F>,
    pub(crate) sent: usize,
    pub(crate) received: usize,
}

impl<F: SignedField> Tally<F> {
    /// No contributions.
    pub(crate) fn new(alloc: Global) -> Tally<F> {
        Tally {
            contributions: Contributions::new(alloc),
            sent: 0,
            received: 0,
        }
    }

    /// Removes all contributions, and keeps the memory.
    pub(crate) fn clear(&mut self)
        ensures within { AreWithin self.new.contributions }
        ensures empty { amounts_in self.new.contributions ≡ [] }
        ensures sent { self.new.sent ≡ 0 }
        ensures received { self.new.received ≡ 0 }
    {
        self.contributions.clear();
        self.sent = 0;
        self.received = 0;
    }
}

/// How many of the amounts from an index on are not negative, and how many are.
fn sign_counts<F: SignedField>(contributions: &Contributions<F>, start: usize) -> (usize, usize)
    requires { start ≤ length contributions.now.spans.items }
    ensures { AreSignCounts (is_negative F.CHARACTERISTIC F.number)
        (map (λ s. s.amount) (drop start contributions.now.spans.items)) result.0 result.1 }
{
    let mut sent: usize = 0;
    let mut received: usize = 0;
    for span in &contributions.spans[start..] {
        if span.amount.is_negative() {
            received = received.saturating_add(1);
        } else {
            sent = sent.saturating_add(1);
        }
    }
    (sent, received)
}

impl<F: SignedField> RowVisitor<F> for Tally<F> {
    ghost ready = { IsReady };

    ghost changes = { Tallies F.ring F.eq (is_negative F.CHARACTERISTIC F.number) };

    ghost composes = { tallies_walk F.ring F.eq (is_negative F.CHARACTERISTIC F.number) };

    /// Appends what the lookup contributes on the builder's row, counts it, and then merges equal tuples
    /// at the limit.
    fn visit(
        &mut self,
        alloc: Global,
        lookup: &Lookup<F>,
        builder: &LookupTraceBuilder<'_, F, F>,
        _location: Location,
    ) -> Result<(), AllocError> {
        let start = self.contributions.spans.len();
        push_on_row(&mut self.contributions, lookup, builder)?;
        let (sent, received) = sign_counts(&self.contributions, start);
        self.sent = self.sent.saturating_add(sent);
        self.received = self.received.saturating_add(received);
        merge_at_limit(alloc, &mut self.contributions)
    }
}
