//! The field of the integers modulo 2130706433.
ghost use Rattle.field_monty.specs.laws.KoalaBear.{koala_bear_montgomery, koala_bear_positive, koala_bear_roots, koala_bear_three, koala_bear_three_below};

use crate::monty_field::{MontyField31, MontyParameters, QuarticParameters};
use crate::monty_quartic::MontyQuartic;

/// The constants of [`KoalaBear`].
#[derive(Clone, Copy)]
pub struct KoalaBearParameters;

impl MontyParameters<2_130_706_433> for KoalaBearParameters {
    ghost MODULUS_INVERSE = { 2164260865 };

    const MODULUS_INVERSE: u32 = 2_164_260_865;

    ghost RADIX_SQUARED = { 402124772 };

    const RADIX_SQUARED: u32 = 402_124_772;

    ghost ONE = { 33554430 };

    const ONE: u32 = 33_554_430;

    ghost radix_inverse = { 1057030144 };

    ghost positive = { koala_bear_positive };

    ghost right = { koala_bear_montgomery };
}

/// An integer modulo 2130706433 = 127 * 2^24 + 1.
pub type KoalaBear = MontyField31<2_130_706_433, KoalaBearParameters>;

impl QuarticParameters<2_130_706_433> for KoalaBearParameters {
    ghost W = { 3 };

    const W: u32 = 3;

    ghost STORED_W = { 100663290 };

    const STORED_W: u32 = 100_663_290;

    ghost i = { 2113994754 };

    ghost stored_w_below = { koala_bear_three_below };

    ghost stored_w_is = { koala_bear_three };

    ghost roots = { koala_bear_roots };
}

/// A polynomial of degree at most 3 over [`KoalaBear`], modulo `X^4 - 3`.
pub type KoalaBear4 = MontyQuartic<2_130_706_433, KoalaBearParameters>;
