//! `KoalaBear4`, as the programs offer it.
ghost use Rattle.std.specs.Prelude.{codes};
ghost use Rattle.field_monty.specs.Quartic.{coefficients_of};
ghost use Rattle.field_list.specs.laws.Coefficients.{has_four};

use crate::offered::{FieldEntry, OfferedField};
use field_monty::{KoalaBear, KoalaBear4};

impl OfferedField for KoalaBear4 {
    type Base = KoalaBear;

    type Challenges = KoalaBear4;

    ghost name = { codes "koalabear4" };

    ghost degree = { 4 };

    ghost coefficients = { coefficients_of };

    ghost has_coefficients = { has_four };

    fn entry() -> FieldEntry {
        FieldEntry {
            name: "koalabear4",
            title: "KoalaBear^4",
            challenge_form: "four numbers joined by commas without blanks, each below 2130706433",
            challenges: 20_610_781_933_055_814_402_734_644_169_665_413_121,
        }
    }
}
