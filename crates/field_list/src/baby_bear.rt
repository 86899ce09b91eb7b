//! `BabyBear4`, as the programs offer it.
ghost use Rattle.std.specs.Prelude.{codes};
ghost use Rattle.field_monty.specs.Quartic.{coefficients_of};
ghost use Rattle.field_list.specs.laws.Coefficients.{has_four};

use crate::offered::{FieldEntry, OfferedField};
use field_monty::{BabyBear, BabyBear4};

impl OfferedField for BabyBear4 {
    type Base = BabyBear;

    type Challenges = BabyBear4;

    ghost name = { codes "babybear4" };

    ghost degree = { 4 };

    ghost coefficients = { coefficients_of };

    ghost has_coefficients = { has_four };

    fn entry() -> FieldEntry {
        FieldEntry {
            name: "babybear4",
            title: "BabyBear^4",
            challenge_form: "four numbers joined by commas without blanks, each below 2013265921",
            challenges: 16_428_751_811_598_850_197_311_699_254_593_454_081,
        }
    }
}
