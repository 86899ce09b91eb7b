//! The quartic extensions, over their prime fields.
ghost use Rattle.std.specs.Prelude.{refl};
ghost use Rattle.field.specs.ResidueRing.{residue_ring};
ghost use Rattle.field.specs.laws.Extension.{lawful_extension};
ghost use Rattle.field.specs.laws.ResidueRing.{residue_ring_lawful};
ghost use Rattle.field_monty.specs.Quartic.{quartic_embed};
ghost use Rattle.field_monty.specs.laws.Montgomery.{stored_equality};
ghost use Rattle.field_monty.specs.laws.Quartic.{quartic_equality};
ghost use Rattle.field_monty.specs.laws.QuarticResidues.{quartic_residues_domain, quartic_residues_embed, quartic_residues_invert, quartic_residues_lawful};

use crate::lane_division::divide_by_lanes;
use crate::monty_field::{MontyField31, QuarticParameters};
use crate::monty_quartic::MontyQuartic;
use field::{DivisionLists, ExtensionDomain, ExtensionField, Inverter};
use std::alloc::AllocError;

impl<const P: u32, K: QuarticParameters<P>> ExtensionDomain<MontyField31<P, K>>
    for MontyQuartic<P, K> {
    ghost embed = { quartic_embed (residue_ring P K.positive) };

    #[inline]
    fn embed(x: MontyField31<P, K>) -> Self {
        MontyQuartic::constant(x)
    }

    /// Four products, where the product of two polynomials takes sixteen.
    #[inline]
    fn scaled(self, by: MontyField31<P, K>) -> Self {
        MontyQuartic {
            c0: self.c0 * by,
            c1: self.c1 * by,
            c2: self.c2 * by,
            c3: self.c3 * by,
        }
    }

    /// Four products as well.
    #[inline]
    fn minus_scaled(self, power: Self, by: MontyField31<P, K>) -> Self {
        MontyQuartic {
            c0: self.c0 - power.c0 * by,
            c1: self.c1 - power.c1 * by,
            c2: self.c2 - power.c2 * by,
            c3: self.c3 - power.c3 * by,
        }
    }

    /// Four at a time, by their norms.
    fn divide_all<I: Inverter<Self>>(
        lists: &mut DivisionLists<Self>,
        numerators: &mut [Self],
        denominators: &[Self],
        inverter: &mut I,
    ) -> Result<(), AllocError> {
        divide_by_lanes(lists, numerators, denominators, inverter)
    }

    ghost embeds = { quartic_residues_embed P K.positive K.W };

    ghost same_characteristic = { refl };
}

impl<const P: u32, K: QuarticParameters<P>> ExtensionField<MontyField31<P, K>>
    for MontyQuartic<P, K> {
    ghost lawful_fields = { lawful_extension (residue_ring_lawful P K.positive)
        (stored_equality K.positive K.right) (quartic_residues_lawful P K.positive K.W)
        (quartic_residues_domain P K.positive K.right.prime K.W K.i K.roots)
        (quartic_equality _ (stored_equality K.positive K.right))
        (quartic_residues_embed P K.positive K.W)
        (quartic_residues_invert P K.positive K.right.prime K.W K.i K.roots) };
}
