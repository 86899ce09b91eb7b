//! The field of the integers modulo 2013265921.
ghost use Rattle.field_monty.specs.laws.BabyBear.{baby_bear_eleven, baby_bear_eleven_below, baby_bear_montgomery, baby_bear_positive, baby_bear_roots};

use crate::monty_field::{MontyField31, MontyParameters, QuarticParameters};
use crate::monty_quartic::MontyQuartic;

/// The constants of [`BabyBear`].
#[derive(Clone, Copy)]
pub struct BabyBearParameters;

impl MontyParameters<2_013_265_921> for BabyBearParameters {
    ghost MODULUS_INVERSE = { 2281701377 };

    const MODULUS_INVERSE: u32 = 2_281_701_377;

    ghost RADIX_SQUARED = { 1172168163 };

    const RADIX_SQUARED: u32 = 1_172_168_163;

    ghost ONE = { 268435454 };

    const ONE: u32 = 268_435_454;

    ghost radix_inverse = { 943718400 };

    ghost positive = { baby_bear_positive };

    ghost right = { baby_bear_montgomery };
}

/// An integer modulo 2013265921 = 15 * 2^27 + 1.
pub type BabyBear = MontyField31<2_013_265_921, BabyBearParameters>;

impl QuarticParameters<2_013_265_921> for BabyBearParameters {
    ghost W = { 11 };

    const W: u32 = 11;

    ghost STORED_W = { 939524073 };

    const STORED_W: u32 = 939_524_073;

    ghost i = { 1728404513 };

    ghost stored_w_below = { baby_bear_eleven_below };

    ghost stored_w_is = { baby_bear_eleven };

    ghost roots = { baby_bear_roots };
}

/// A polynomial of degree at most 3 over [`BabyBear`], modulo `X^4 - 11`.
pub type BabyBear4 = MontyQuartic<2_013_265_921, BabyBearParameters>;
