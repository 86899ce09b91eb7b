//! How few betas let messages collide.
ghost use Rattle.std.specs.Prelude.{◌≤◌, ℕ};
ghost use Rattle.lookup_model.specs.Collisions.{FewCombineAlike, FewShareAPoint, IgnoresLeadingZero};

use field::Field;

/// Few betas let messages collide: a theorem, as the contract of a function that does nothing.
///
/// Two distinct tuples of the same width `w` combine alike for at most `w - 1` betas. A key is an id
/// with a tuple, and its point is the alpha at which its denominator is zero. Let challenges be made
/// for tuples of at most `W` elements and `m` ids, where `m` is at most the characteristic. Two
/// distinct keys have the same point for at most `W` betas, if their ids are below `m` and each tuple
/// has the width of its id, at most `W`.
pub fn few_collisions<EF: Field>()
    ensures leading_zero { IgnoresLeadingZero EF.ring }
    ensures few_combine_alike { FewCombineAlike EF.ring }
    ensures few_share_a_point { (W m : ℕ) → m ≤ EF.CHARACTERISTIC → FewShareAPoint EF.ring W m }
{}
