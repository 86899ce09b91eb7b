//! Terminals of packed lookups.
ghost use Rattle.std.specs.Prelude.{List};
ghost use Rattle.lookup_model.specs.declared.types.Lookup.{Lookup};
ghost use Rattle.lookup.specs.KeptByPacking.{KeepsMessages, KeepsTerminal};

use field::{ExtensionField, Field, Over};

/// What keeps the messages of every row, as packing does, keeps the terminal of an AIR: a theorem, as
/// the contract of a function that does nothing.
pub fn messages_keep_terminals<F: Field, EF: ExtensionField<F>>()
    ensures { (before after : List (Lookup F)) → KeepsMessages F.ring F.eq before after
        → KeepsTerminal ⟦<EF as Over<F>>⟧.fields before after }
{}
