//! The widths that a builder works with.
ghost use Rattle.std.specs.Prelude.{◌≡◌, ◌≢◌, MatchResult, None, Some};
ghost use Rattle.std.specs.Option.{option_copied};

use crate::air::BaseAir;
use crate::error::{AirError, LayoutPart};
use matrix::RowMajorMatrix;

/// The widths of the traces that an AIR's constraints can read, and how many other values they can
/// read.
#[derive(Clone, Copy, Debug, Default, PartialEq, Eq)]
pub struct AirLayout {
    /// The number of columns of the preprocessed trace.
    pub preprocessed_width: usize,
    /// The number of columns of the main trace.
    pub main_width: usize,
    /// The number of public values.
    pub num_public_values: usize,
    /// The number of columns of the permutation trace.
    pub permutation_width: usize,
    /// The number of challenges.
    pub num_permutation_challenges: usize,
    /// The number of values of the permutation argument, such as its terminals.
    pub num_permutation_values: usize,
}

impl AirLayout {
    ghost use Rattle.air_expressions.specs.Layout.{first_mismatch, layout_of_traces, layout_of_widths};

    /// The layout of an AIR's traces, without a permutation argument.
    pub fn from_air<F, A: BaseAir<F>>(air: &A) -> Self
        ensures { result ≡ layout_of_widths (A.width air.now) (A.preprocessed_width air.now)
            (A.num_public_values air.now) }
    {
        AirLayout {
            preprocessed_width: air.preprocessed_width(),
            main_width: air.width(),
            num_public_values: air.num_public_values(),
            permutation_width: 0,
            num_permutation_challenges: 0,
            num_permutation_values: 0,
        }
    }

    /// Checks that the layout has the AIR's main width, preprocessed width and number of public
    /// values.
    ///
    /// Fails with `LayoutMismatch` at the first of them that differs, with the AIR's number as the
    /// expected one. Allocates nothing.
    pub fn validate_against_air<F, A: BaseAir<F>>(&self, air: &A) -> Result<(), AirError>
        ensures { MatchResult result
            (λ _. first_mismatch (A.width air.now) (A.preprocessed_width air.now)
            (A.num_public_values air.now) self.now ≡ None)
            (λ e. first_mismatch (A.width air.now) (A.preprocessed_width air.now)
            (A.num_public_values air.now) self.now ≡ Some e) }
    {
        compare(LayoutPart::Main, air.width(), self.main_width)?;
        compare(
            LayoutPart::Preprocessed,
            air.preprocessed_width(),
            self.preprocessed_width,
        )?;
        compare(
            LayoutPart::PublicValues,
            air.num_public_values(),
            self.num_public_values,
        )
    }

    /// The layout of these traces, without a permutation argument.
    pub fn of_traces<'a, T>(
        main: &'a RowMajorMatrix<T>,
        preprocessed: Option<&'a RowMajorMatrix<T>>,
        public_values: &[T],
    ) -> Self
        ensures { result ≡ layout_of_traces main.now
            (option_copied preprocessed.entry) public_values.now }
    {
        AirLayout {
            preprocessed_width: preprocessed.map_or(0, |trace| trace.width()),
            main_width: main.width(),
            num_public_values: public_values.len(),
            permutation_width: 0,
            num_permutation_challenges: 0,
            num_permutation_values: 0,
        }
    }
}

fn compare(part: LayoutPart, expected: usize, actual: usize) -> Result<(), AirError>
    ensures { MatchResult result (λ _. expected ≡ actual)
        (λ e. (expected ≢ actual) × (e ≡ AirError.LayoutMismatch part expected actual)) }
{
    if expected == actual {
        Ok(())
    } else {
        Err(AirError::LayoutMismatch {
            part,
            expected,
            actual,
        })
    }
}
