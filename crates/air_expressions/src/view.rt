//! What contracts see of a builder over an extension.
ghost use Rattle.std.specs.Prelude.{ℕ};
ghost use Rattle.air_expressions.specs.Window.{ExtWindow};
ghost use Rattle.air_expressions.specs.declared.error.AirError.{AirError};

use crate::extension::ExtensionBuilder;

/// What contracts see of a builder over an extension: `⟦<AB as BuilderView>⟧` has the windows that
/// it stands for, what it accepts and refuses, and what its expressions mean at a window, with
/// their degrees.
///
/// Every such builder implements it, so bounds say `AB: ExtensionBuilder`.
pub trait BuilderView {
    /// The field of the traces.
    type F;

    /// The extension.
    type EF;

    /// What assertions over the extension are made of.
    type ExprEF;

    ghost window_refuses: { Self → AirError → Type 0 };

    ghost stands_for_ext: { Self → ExtWindow Self.F Self.EF → Type 0 };

    ghost accepts_ext: { Self → Self.ExprEF → Self → Type 0 };

    ghost refuses_ext: { Self → Self.ExprEF → AirError → Self → Type 0 };

    ghost means: { Self.ExprEF → ExtWindow Self.F Self.EF → Self.EF };

    ghost degree: { Self.ExprEF → ℕ → ℕ };
}

impl<AB: ExtensionBuilder> BuilderView for AB {
    type F = AB::F;

    type EF = AB::EF;

    type ExprEF = AB::ExprEF;

    ghost window_refuses = { AB.window_refuses };

    ghost stands_for_ext = { AB.stands_for_ext };

    ghost accepts_ext = { AB.accepts_ext };

    ghost refuses_ext = { AB.refuses_ext };

    ghost means = { λ x w. AB.ExprEF.value x (AB.seen_ext w) };

    ghost degree = { AB.ExprEF.degree };
}
