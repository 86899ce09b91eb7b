//! The list of fields, and tasks over one of them.
ghost use Rattle.std.specs.Prelude.{◌≡◌, ◌≢◌, ◌++◌, All, IfOk, MatchOption, map};
ghost use Rattle.field_list.specs.Offers.{HoldsOf, Offers, Statement, counts_of, names_of, no_offer, offer, offer_and};

use crate::offered::{FieldEntry, OfferedField};
use field::F7;
use field_goldilocks::Goldilocks2;
use field_monty::{BabyBear4, KoalaBear4};
use field_words::Written;
use std::alloc::AllocError;

/// The fields that the programs offer. **A further field is one more entry here**, and an `impl` of
/// `OfferedField` in a file of its own. Its name is that of its type in small letters.
pub type Offered = (F7, (BabyBear4, (KoalaBear4, (Goldilocks2, ()))));

/// Something that is done over a field which is known only when the program runs.
pub trait FieldTask {
    type Answer;

    /// What the answer of a task has to do with the field that it is done over.
    ghost answers: { Self → Self.Answer → Statement };

    /// Does it over a field.
    fn over<O: OfferedField>(self) -> Self::Answer
        ensures { answers self result O.Base O.Challenges (offer O.name
            ⟦<O::Challenges as Written<O::Base>>⟧.fields O.Base.number O.degree) };
}

/// A list of fields.
pub trait FieldList {
    /// The fields, in order.
    ghost offers: { Offers };

    /// Does a task over the first field with this name. `None` if no field has it.
    fn over<T: FieldTask + Drop>(name: &str, task: T) -> Option<T::Answer>
        ensures { MatchOption result (All (λ other. other ≢ name.now) (names_of offers))
            (λ answer. HoldsOf name.now (T.answers task answer) offers) };

    /// Appends the name of each field, in order. Fails when out of memory; some may then be appended.
    fn push_names(names: &mut Vec<&'static str>) -> Result<(), AllocError>
        ensures { IfOk result (λ _. map (λ name. name.now) names.new.items
            ≡ map (λ name. name.now) names.old.items ++ names_of offers) };

    /// Appends what is told of each field, in order. Fails when out of memory; some may then be
    /// appended.
    fn push_entries(entries: &mut Vec<FieldEntry>) -> Result<(), AllocError>
        ensures names { IfOk result (λ _. map (λ entry. entry.name.now) entries.new.items
            ≡ map (λ entry. entry.name.now) entries.old.items ++ names_of offers) }
        ensures challenges { IfOk result (λ _. map (λ entry. entry.challenges) entries.new.items
            ≡ map (λ entry. entry.challenges) entries.old.items ++ counts_of offers) };
}

impl FieldList for () {
    ghost offers = { no_offer };

    fn over<T: FieldTask + Drop>(_name: &str, _task: T) -> Option<T::Answer> {
        None
    }

    fn push_names(_names: &mut Vec<&'static str>) -> Result<(), AllocError> {
        Ok(())
    }

    fn push_entries(_entries: &mut Vec<FieldEntry>) -> Result<(), AllocError> {
        Ok(())
    }
}

impl<O: OfferedField, L: FieldList> FieldList for (O, L) {
    ghost offers = { offer_and (offer O.name ⟦<O::Challenges as Written<O::Base>>⟧.fields
        O.Base.number O.degree) L.offers };

    fn over<T: FieldTask + Drop>(name: &str, task: T) -> Option<T::Answer> {
        if O::entry().name == name {
            Some(task.over::<O>())
        } else {
            L::over(name, task)
        }
    }

    fn push_names(names: &mut Vec<&'static str>) -> Result<(), AllocError> {
        names.push(O::entry().name)?;
        L::push_names(names)
    }

    fn push_entries(entries: &mut Vec<FieldEntry>) -> Result<(), AllocError> {
        entries.push(O::entry())?;
        L::push_entries(entries)
    }
}
