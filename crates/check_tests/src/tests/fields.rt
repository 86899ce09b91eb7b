//! The list of fields.
ghost use Rattle.std.specs.Prelude.{◌≡◌};

use super::holds;
use field_list::{FieldEntry, FieldList, FieldTask, Offered, OfferedField};

/// What is told of a field.
#[derive(Drop)]
struct Entry;

impl FieldTask for Entry {
    type Answer = FieldEntry;

    ghost answers = { λ _ entry F K o. entry.name.now ≡ o.name };

    fn over<O: OfferedField>(self) -> FieldEntry {
        O::entry()
    }
}

/// Whether the field with a name is told by this title, and has the power of `characteristic` by
/// `degree` challenges.
fn is_told(name: &str, title: &str, characteristic: u128, degree: u32) -> bool {
    match Offered::over(name, Entry) {
        Some(entry) => {
            entry.name == name
                && entry.title == title
                && Some(entry.challenges) == characteristic.checked_pow(degree)
        }
        None => false,
    }
}

#[test]
fn fields_by_name(rt: HostRuntime) {
    holds(&rt, "f7", is_told("f7", "F7", 7, 1));
    let baby_bear = is_told("babybear4", "BabyBear^4", 2_013_265_921, 4);
    holds(&rt, "babybear4", baby_bear);
    let koala_bear = is_told("koalabear4", "KoalaBear^4", 2_130_706_433, 4);
    holds(&rt, "koalabear4", koala_bear);
    let goldilocks = is_told("goldilocks2", "Goldilocks^2", 18_446_744_069_414_584_321, 2);
    holds(&rt, "goldilocks2", goldilocks);
    holds(
        &rt,
        "no such field",
        Offered::over("babybear", Entry).is_none(),
    );
}
