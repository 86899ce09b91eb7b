//! Builders that take interactions and indexed declarations as well as constraints.
ghost use Rattle.std.specs.Prelude.{◌≡◌, ℕ, ◌↔◌, MatchResult};
ghost use Rattle.air_expressions.specs.Window.{Window};
ghost use Rattle.air_expressions.specs.declared.error.AirError.{AirError};
ghost use Rattle.lookup_indexed.specs.Declaration.{Declaration, read, table};
ghost use Rattle.lookup_record.specs.Interaction.{Interaction};
ghost use Rattle.lookup_record.specs.Pushed.{pushed_exclusive, pushed_global, pushed_local};
ghost use Rattle.lookup_record.specs.Within.{IsInteractionWithin};
ghost use Rattle.lookup_indexed.specs.declared.indexed.TraceWindow.{TraceWindow};

use crate::count::Count;
use air::{AirBuilder, AirError};
use lookup_indexed::TraceWindow;
use std::alloc::Global;

/// A builder that AIRs push messages to: on named buses, which all AIRs share by name, and in local
/// lookups.
///
/// A push is accepted or refused. After an accepted one the builder stands for the same windows and
/// has the same layout.
pub trait InteractionBuilder: AirBuilder {
    ghost pushes: { Self → Interaction Self.Expr → Self → Type 0 };

    ghost refuses_push: { Self → Interaction Self.Expr → AirError → Self → Type 0 };

    ghost global_count: { Self → ℕ };

    ghost local_count: { Self → ℕ };

    ghost exclusive_count: { Self → ℕ };

    /// Pushes the message `fields` on the bus of this name, sent `count` times on each row. Fails
    /// as `refuses_push` says, which also says what the builder is then.
    fn push_interaction(
        &mut self,
        alloc: Global,
        bus_name: &str,
        fields: Vec<Self::Expr>,
        count: Count<Self::Expr>,
    ) -> Result<(), AirError>
        ensures { MatchResult result
            (λ _. pushes self.old (pushed_global bus_name.now fields.items count) self.new)
            (λ e. refuses_push self.old (pushed_global bus_name.now fields.items count) e
            self.new) };

    /// Pushes one lookup inside the AIR, which consists of all these tuples, each with its count.
    /// Fails as `refuses_push` says, which also says what the builder is then.
    fn push_local_interaction(
        &mut self,
        alloc: Global,
        tuples: Vec<(Vec<Self::Expr>, Count<Self::Expr>)>,
    ) -> Result<(), AirError>
        ensures { MatchResult result
            (λ _. pushes self.old (pushed_local tuples.items) self.new)
            (λ e. refuses_push self.old (pushed_local tuples.items) e self.new) };

    /// Pushes a group on the bus of this name. Each branch is a flag, a count and a message; a row
    /// sends the branch whose flag is set, or none.
    ///
    /// The AIR must enforce that each flag is 0 or 1 and that at most one is set on each row. Fails
    /// as `refuses_push` says, which also says what the builder is then.
    fn push_exclusive_interaction(
        &mut self,
        alloc: Global,
        bus_name: &str,
        branches: Vec<(Self::Expr, Count<Self::Expr>, Vec<Self::Expr>)>,
    ) -> Result<(), AirError>
        ensures { MatchResult result
            (λ _. pushes self.old (pushed_exclusive bus_name.now branches.items) self.new)
            (λ e. refuses_push self.old (pushed_exclusive bus_name.now branches.items) e
            self.new) };

    /// How many messages on buses are recorded.
    fn num_global_interactions(&self) -> usize
        ensures { result ≡ global_count self.now };

    /// How many local lookups are recorded.
    fn num_local_interactions(&self) -> usize
        ensures { result ≡ local_count self.now };

    /// How many groups are recorded.
    fn num_exclusive_interactions(&self) -> usize
        ensures { result ≡ exclusive_count self.now };

    ghost push_keeps: { (b : Self) (m : Interaction Self.Expr) (c : Self) (w : Window Self.F)
        → pushes b m c
        → Self.stands_for b w ↔ Self.stands_for c w };

    ghost push_keeps_layout: { (b : Self) (m : Interaction Self.Expr) (c : Self) → pushes b m c
        → Self.layout c ≡ Self.layout b };

    ghost push_within: { (b : Self) (m : Interaction Self.Expr) (c : Self) → pushes b m c
        → IsInteractionWithin Self.Expr.within (Self.layout b) m → Self.pushed_within b
        → Self.pushed_within c };
}

/// A builder that AIRs can declare indexed lookups to.
///
/// A declaration names committed columns and no expressions. It is accepted or refused; after an
/// accepted one the builder stands for the same windows and has the same layout.
pub trait IndexedLookupBuilder: AirBuilder {
    ghost declares: { Self → Declaration → Self → Type 0 };

    ghost refuses_declaration: { Self → Declaration → AirError → Self → Type 0 };

    ghost read_count: { Self → ℕ };

    ghost table_count: { Self → ℕ };

    /// Declares that the AIR reads from the table of this name. The column `position` of its main
    /// trace holds the index of the entry that a row reads. The columns `payload` hold what is
    /// read, in the order of the table's columns. Fails as `refuses_declaration` says, which also
    /// says what the builder is then.
    fn push_indexed_read(
        &mut self,
        alloc: Global,
        table: &str,
        position: usize,
        payload: Vec<usize>,
    ) -> Result<(), AirError>
        ensures { MatchResult result
            (λ _. declares self.old (read (record
            { table = table.now; position = position; payload = payload.items })) self.new)
            (λ e. refuses_declaration self.old
            (read (record { table = table.now; position = position; payload = payload.items })) e
            self.new) };

    /// Declares that the AIR provides a table of this name, with these columns of this trace. Fails
    /// as `refuses_declaration` says, which also says what the builder is then.
    fn push_indexed_table(
        &mut self,
        alloc: Global,
        name: &str,
        window: TraceWindow,
        columns: Vec<usize>,
    ) -> Result<(), AirError>
        ensures { MatchResult result
            (λ _. declares self.old (table (record
            { name = name.now; window = window; columns = columns.items })) self.new)
            (λ e. refuses_declaration self.old
            (table (record { name = name.now; window = window; columns = columns.items })) e
            self.new) };

    /// How many readers are declared.
    fn num_indexed_reads(&self) -> usize
        ensures { result ≡ read_count self.now };

    /// How many tables are declared.
    fn num_indexed_tables(&self) -> usize
        ensures { result ≡ table_count self.now };

    ghost declaration_keeps: { (b : Self) (d : Declaration) (c : Self) (w : Window Self.F)
        → declares b d c
        → Self.stands_for b w ↔ Self.stands_for c w };

    ghost declaration_keeps_layout: { (b : Self) (d : Declaration) (c : Self) → declares b d c
        → Self.layout c ≡ Self.layout b };

    ghost declaration_keeps_pushed: { (b : Self) (d : Declaration) (c : Self) → declares b d c
        → Self.pushed_within b → Self.pushed_within c };
}
