//! A field that the programs offer.
ghost use Rattle.std.specs.Prelude.{◌≡◌, ◌^◌, ℕ, List};
ghost use Rattle.field_list.specs.Coefficients.{HasCoefficients};

use crate::table_field::TableField;
use field_words::Challenge;

/// What is told of a field that the programs offer.
#[derive(Debug, Clone, Copy, PartialEq, Eq)]
pub struct FieldEntry {
    /// Its name on a command line.
    pub name: &'static str,
    /// Its name in a report.
    pub title: &'static str,
    /// What a challenge is written as: how many numbers, and below what.
    pub challenge_form: &'static str,
    /// How many challenges there are, fewer than 2^128.
    pub challenges: u128,
}

/// A field of challenges that the programs offer: `Challenges`, over the field `Base` of traces.
pub trait OfferedField {
    type Base: TableField;

    type Challenges: Challenge<Self::Base>;

    /// The name on a command line.
    ghost name: { List ℕ };

    /// How many coefficients a challenge has.
    ghost degree: { ℕ };

    /// The coefficients of a challenge.
    ghost coefficients: { Self.Challenges → List Self.Base };

    /// What is told of it. There are as many challenges as the characteristic to the power of the degree;
    /// that is fewer than 2^128.
    fn entry() -> FieldEntry
        ensures name { result.name.now ≡ name }
        ensures challenges { result.challenges ≡ Self.Base.CHARACTERISTIC ^ degree };

    /// A challenge has as many coefficients as the degree, and any so many are those of one challenge.
    ghost has_coefficients: { HasCoefficients coefficients degree };
}
