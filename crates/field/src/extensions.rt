//! Extensions of a field, as traits.
ghost use Rattle.std.specs.Prelude.{◌≡◌, ◌≢◌, ◌≤◌, ◌<◌, ◌+◌, ◌-◌, ◌^◌, All, OnOk, OnErr, length, min, refl};
ghost use Rattle.field.specs.Extension.{Extension, IsLawful, extension};
ghost use Rattle.field.specs.Lists.{AreQuotients};
ghost use Rattle.field.specs.Ring.{IsEmbedding, sub_in};
ghost use Rattle.field.specs.laws.Extension.{identity_embeds, lawful_extension};

use crate::batch_inverse::divide_by_inverses;
use crate::division::DivisionLists;
use crate::inverter::Inverter;
use crate::traits::{Domain, Field};
use std::alloc::AllocError;

/// A domain that extends the field `F`: `embed` is injective and preserves zero, one, sums and
/// products.
pub trait ExtensionDomain<F: Field>: Domain {
    ghost embed: { F → Self };

    /// The element `x` of `F`, as an element of the extension.
    fn embed(x: F) -> Self
        ensures { result ≡ embed x };

    /// `self * by`, with `by` embedded.
    fn scaled(self, by: F) -> Self
        ensures { result ≡ Self.ring.mul self (embed by) }
    {
        self * Self::embed(by)
    }

    /// `self - power * by`, with `by` embedded.
    fn minus_scaled(self, power: Self, by: F) -> Self
        ensures { result ≡ sub_in Self.ring self (Self.ring.mul power (embed by)) }
    {
        self - power.scaled(by)
    }

    /// Divides each numerator by the denominator at its place. None of the denominators may be zero.
    ///
    /// All quotients come from one inverse, and `lists` grow only where a longer list than before is
    /// divided. If memory runs out, the numerators are unchanged, and `inverter` has not been called.
    fn divide_all<I: Inverter<Self>>(
        lists: &mut DivisionLists<Self>,
        numerators: &mut [Self],
        denominators: &[Self],
        inverter: &mut I,
    ) -> Result<(), AllocError>
        requires long { length numerators.old ≡ length denominators.now }
        requires nonzero { All (λ x. x ≢ Self.ring.zero) denominators.now }
        ensures quotients { OnOk result (AreQuotients Self.ring numerators.old denominators.now
            numerators.new) }
        ensures counted_once { OnOk result (0 < length denominators.now
            → I.count inverter.new ≡ min (I.count inverter.old + 1) (2 ^ 64 - 1)) }
        ensures not_counted_empty { length denominators.now ≡ 0
            → I.count inverter.new ≡ I.count inverter.old }
        ensures refused { OnErr result ((numerators.new ≡ numerators.old)
            × (I.count inverter.new ≡ I.count inverter.old)) }
    {
        divide_by_inverses(lists, numerators, denominators, inverter)
    }

    ghost embeds: { IsEmbedding F.ring Self.ring embed };

    ghost same_characteristic: { F.CHARACTERISTIC ≡ Self.CHARACTERISTIC };
}

/// A field that extends the field `F`.
pub trait ExtensionField<F: Field>: ExtensionDomain<F> + Field {
    ghost lawful_fields: { IsLawful (extension F.ring F.eq Self.ring Self.eq Self.embed Self.inverse) };
}

/// A field over the field `F`, in one word for contracts: `⟦<EF as Over<F>>⟧.fields` are the
/// operations and equality tests of `F` and `EF`, the embedding, and the inverse in `EF`.
///
/// Every extension is one, so bounds say `EF: ExtensionField<F>`. A bound `EF: Over<F>` would hide
/// what `fields` are.
pub trait Over<F: Field>: ExtensionField<F> {
    ghost fields: { Extension F Self };
}

impl<F: Field, EF: ExtensionField<F>> Over<F> for EF {
    ghost fields = { extension F.ring F.eq EF.ring EF.eq EF.embed EF.inverse };
}

/// Every field extends itself by the identity.
impl<F: Field> ExtensionDomain<F> for F {
    ghost embed = { λ x. x };

    ghost embeds = { record {
      zero = refl;
      one = refl;
      add = λ a b. refl;
      mul = λ a b. refl;
      injective = λ a b e. e;
    } };

    ghost same_characteristic = { refl };

    fn embed(x: F) -> F {
        x
    }
}

impl<F: Field> ExtensionField<F> for F {
    ghost lawful_fields = { lawful_extension F.lawful F.eq_is F.lawful F.domain F.eq_is
        identity_embeds F.inverse_is };
}
