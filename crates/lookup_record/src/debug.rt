//! The row checker accepts interactions and declarations, and records none.
ghost use Rattle.std.specs.Prelude.{◌≡◌, MatchResult};
ghost use Rattle.std.proofs.Common.{rules};

use crate::builder::{IndexedLookupBuilder, InteractionBuilder};
use crate::count::Count;
use air::{AirError, DebugConstraintBuilder};
use field::{ExtensionField, Field};
use lookup_indexed::TraceWindow;
use std::alloc::Global;

/// Accepts every push and leaves the builder as it was: on a single row a message has no equation
/// of its own.
impl<'a, F: Field, EF: ExtensionField<F>> InteractionBuilder for DebugConstraintBuilder<'a, F, EF> {
    ghost pushes = { λ b m c. c ≡ b };

    ghost refuses_push = { λ b m e c. ⊥ };

    ghost global_count = { λ _. 0 };

    ghost local_count = { λ _. 0 };

    ghost exclusive_count = { λ _. 0 };

    ghost push_keeps = { Prim.search rules };

    ghost push_keeps_layout = { Prim.search rules };

    ghost push_within = { λ b m c h i s. s };

    fn push_interaction(
        &mut self,
        _alloc: Global,
        _bus_name: &str,
        fields: Vec<F>,
        count: Count<F>,
    ) -> Result<(), AirError>
        ensures { MatchResult result (λ _. self.new ≡ self.old) (λ _. ⊥) }
    {
        drop_pushed((fields, count))
    }

    fn push_local_interaction(
        &mut self,
        _alloc: Global,
        tuples: Vec<(Vec<F>, Count<F>)>,
    ) -> Result<(), AirError>
        ensures { MatchResult result (λ _. self.new ≡ self.old) (λ _. ⊥) }
    {
        drop_pushed(tuples)
    }

    fn push_exclusive_interaction(
        &mut self,
        _alloc: Global,
        _bus_name: &str,
        branches: Vec<(F, Count<F>, Vec<F>)>,
    ) -> Result<(), AirError>
        ensures { MatchResult result (λ _. self.new ≡ self.old) (λ _. ⊥) }
    {
        drop_pushed(branches)
    }

    fn num_global_interactions(&self) -> usize {
        0
    }

    fn num_local_interactions(&self) -> usize {
        0
    }

    fn num_exclusive_interactions(&self) -> usize {
        0
    }
}

/// Accepts every declaration and leaves the builder as it was: what is read is shown against a
/// commitment, not on a row.
impl<'a, F: Field, EF: ExtensionField<F>> IndexedLookupBuilder
    for DebugConstraintBuilder<'a, F, EF> {
    ghost declares = { λ b d c. c ≡ b };

    ghost refuses_declaration = { λ b d e c. ⊥ };

    ghost read_count = { λ _. 0 };

    ghost table_count = { λ _. 0 };

    ghost declaration_keeps = { Prim.search rules };

    ghost declaration_keeps_layout = { Prim.search rules };

    ghost declaration_keeps_pushed = { λ b d c h s. s };

    fn push_indexed_read(
        &mut self,
        _alloc: Global,
        _table: &str,
        _position: usize,
        payload: Vec<usize>,
    ) -> Result<(), AirError> {
        drop_pushed(payload)
    }

    fn push_indexed_table(
        &mut self,
        _alloc: Global,
        _name: &str,
        _window: TraceWindow,
        columns: Vec<usize>,
    ) -> Result<(), AirError> {
        drop_pushed(columns)
    }

    fn num_indexed_reads(&self) -> usize {
        0
    }

    fn num_indexed_tables(&self) -> usize {
        0
    }
}

/// Drops what is pushed.
fn drop_pushed<T: Drop>(_pushed: T) -> Result<(), AirError>
    ensures { result ≡ Ok tt }
{
    Ok(())
}
