//! The integers modulo 7, as the programs offer them.
ghost use Rattle.std.specs.Prelude.{[], ◌∷◌, codes};
ghost use Rattle.field_list.specs.laws.Coefficients.{has_one};

use crate::offered::{FieldEntry, OfferedField};
use field::F7;

impl OfferedField for F7 {
    type Base = F7;

    type Challenges = F7;

    ghost name = { codes "f7" };

    ghost degree = { 1 };

    ghost coefficients = { λ x. x ∷ [] };

    ghost has_coefficients = { has_one };

    fn entry() -> FieldEntry {
        FieldEntry {
            name: "f7",
            title: "F7",
            challenge_form: "one number below 7",
            challenges: 7,
        }
    }
}
