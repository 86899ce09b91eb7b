//! Calls over any builder.
ghost use Rattle.std.specs.Prelude.{◌≡◌};
ghost use Rattle.gate_memory_builders.specs.Layout.{swept_layout};

use crate::airs::{BusCall, Zeros, call_bus};
use crate::inputs::layout;
use crate::layouts::has_room;
use crate::show::{Out, show};
use air::{
    Air, AirBuilder, AirError, Expression, ExtensionBuilder, PermutationAirBuilder,
    SymbolicExpression, current_cell, current_cells, next_cell, resolve_over,
};
use field::PrimeCharacteristicRing;
use lookup::{InteractionBuilder, LogUpGadget, Lookup, LookupProtocol, has_equal_lengths};
use std::alloc::Global;
use std::fmt::Debug;

/// Calls on a builder that read cells, and the one that asserts some.
pub fn on_cells<AB: AirBuilder + Debug>(alloc: Global, out: &mut Out, builder: &mut AB)
where
    AB::Expr: Debug,
{
    show(out, "current_cell", current_cell(alloc, &*builder, 3, 0));
    show(out, "next_cell", next_cell(alloc, &*builder, 3, 1));
    let cells = current_cells(alloc, &*builder, 3, &[2, 1]);
    show(out, "current_cells", cells);
    show(out, "assert_zeros", Zeros.eval(alloc, builder));
    show(out, "left", &*builder);
}

/// Makes this call five times, and shows the builder before and after each: a list grows at its first and at its
/// fifth item.
pub fn call_five_times<AB: InteractionBuilder + ExtensionBuilder + Debug>(
    alloc: Global,
    out: &mut Out,
    builder: &mut AB,
    call: BusCall,
) {
    let name = call.name();
    for _ in 0..5 {
        show(out, "before", &*builder);
        show(out, name, call_bus(alloc, builder, call));
        show(out, "after", &*builder);
    }
}

/// Calls that resolve expressions which fit: on a builder, and with its main window.
pub fn resolve_all<AB: AirBuilder>(
    alloc: Global,
    out: &mut Out,
    trees: &[SymbolicExpression<AB::F>],
    builder: &AB,
)
where
    AB::Expr: Debug,
    requires { AB.layout builder.now ≡ swept_layout }
{
    let Ok(main) = builder.main(alloc) else {
        return out.close();
    };
    let layout = layout();
    for tree in trees {
        if tree.fits(&layout) {
            show(out, "resolve", tree.resolve(alloc, builder));
            let answer = resolve_over(alloc, tree, builder, &main);
            show(out, "resolve_over", answer);
        }
    }
}

/// An evaluation: of all lookups, of the accumulator with the terminal 0, of an AIR and all lookups, or of the
/// fraction of the first lookup.
#[derive(Clone, Copy)]
pub enum Evaluation {
    All,
    Accumulator,
    AirAndLookups,
    Fraction,
}

impl Evaluation {
    /// The name in the lines.
    pub fn name(self) -> &'static str {
        match self {
            Evaluation::All => "eval_all",
            Evaluation::Accumulator => "eval_accumulator",
            Evaluation::AirAndLookups => "eval_air_and_lookups",
            Evaluation::Fraction => "eval_fraction",
        }
    }
}

/// Makes this evaluation.
pub fn evaluate<AB: PermutationAirBuilder>(
    alloc: Global,
    builder: &mut AB,
    lookups: &[Lookup<AB::F>],
    evaluation: Evaluation,
) -> Result<(), AirError>
    requires { AB.layout builder.old ≡ swept_layout }
{
    if !has_room(lookups) {
        return Err(AirError::DegreeOverflow);
    }
    let gadget = LogUpGadget::new();
    match evaluation {
        Evaluation::All => gadget.eval_all(alloc, builder, lookups),
        Evaluation::Accumulator => {
            let terminal = AB::ExprEF::constant(AB::EF::ZERO);
            gadget.eval_accumulator(alloc, builder, lookups, terminal)
        }
        Evaluation::AirAndLookups => {
            gadget.eval_air_and_lookups(alloc, &Zeros, builder, lookups)
        }
        Evaluation::Fraction => match lookups {
            [lookup, ..] if has_equal_lengths(lookup) && lookup.column == 0 => {
                gadget.eval_fraction(alloc, builder, lookup)
            }
            _ => Err(AirError::DegreeOverflow),
        },
    }
}
