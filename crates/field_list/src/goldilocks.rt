//! `Goldilocks2`, as the programs offer it.
ghost use Rattle.std.specs.Prelude.{codes};
ghost use Rattle.field_goldilocks.specs.Quadratic.{coefficients_of};
ghost use Rattle.field_list.specs.laws.Coefficients.{has_two};

use crate::offered::{FieldEntry, OfferedField};
use field_goldilocks::{Goldilocks, Goldilocks2};

impl OfferedField for Goldilocks2 {
    type Base = Goldilocks;

    type Challenges = Goldilocks2;

    ghost name = { codes "goldilocks2" };

    ghost degree = { 2 };

    ghost coefficients = { coefficients_of };

    ghost has_coefficients = { has_two };

    fn entry() -> FieldEntry {
        FieldEntry {
            name: "goldilocks2",
            title: "Goldilocks^2",
            challenge_form: "two numbers joined by a comma without blanks, each below 18446744069414584321",
            challenges: 340_282_366_762_482_138_490_186_164_457_219_031_041,
        }
    }
}
