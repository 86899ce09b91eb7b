//! What an AIR is: a set of constraints over a trace of a given width.
ghost use Rattle.std.specs.Prelude.{◌≡◌, ℕ, Result, Ok};
ghost use Rattle.air_expressions.specs.declared.error.AirError.{AirError};

use crate::builder::AirBuilder;
use crate::error::AirError;
use std::alloc::Global;

/// The widths of an AIR's traces, and how many public values it has.
pub trait BaseAir<F> {
    ghost width: { Self → ℕ };

    ghost preprocessed_width: { Self → ℕ };

    ghost num_public_values: { Self → ℕ };

    /// The number of columns of the main trace.
    fn width(&self) -> usize
        ensures { result ≡ width self.now };

    /// The number of columns of the preprocessed trace.
    fn preprocessed_width(&self) -> usize
        ensures { result ≡ preprocessed_width self.now };

    /// The number of public values.
    fn num_public_values(&self) -> usize
        ensures { result ≡ num_public_values self.now };
}

/// An AIR that can assert its constraints on the builder `AB`.
///
/// An implementation defines `evaluates`, which relates the builder before, the answer and the
/// builder after. Contracts speak of an evaluation by this relation. By the law `keeps_layout` an
/// accepted evaluation leaves a builder of the same layout.
pub trait Air<AB: AirBuilder>: BaseAir<AB::F> {
    ghost evaluates: { Self → AB → Result (Unit {0}) AirError → AB → Type 0 };

    /// Asserts the constraints on the builder. Fails with the first refusal; `evaluates` says what
    /// the builder is then.
    fn eval(&self, alloc: Global, builder: &mut AB) -> Result<(), AirError>
        ensures { evaluates self.now builder.old result builder.new };

    ghost keeps_layout: { (a : Self) (b c : AB) → evaluates a b (Ok tt) c
        → AB.layout c ≡ AB.layout b };
}
