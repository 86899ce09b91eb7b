//! What a builder provides for lookups: challenges, cells of the auxiliary trace and the terminal.
ghost use Rattle.std.specs.Prelude.{◌≡◌, ◌+◌, ◌*◌, ◌<◌, ℕ, slice_index_or};
ghost use Rattle.air_expressions.specs.Window.{ExtWindow};
ghost use Rattle.lookup_constraints.specs.internal.Meanings.{MeansOn, cell_meaning, challenge_meaning};
ghost use Rattle.lookup_constraints.specs.internal.Windows.{IsPermutationWindow};
ghost use Rattle.lookup_model.specs.Constraints.{accumulator_at, fraction_at, next_accumulator_at};

use air_expressions::{BuilderView, PermutationAirBuilder};
use field::Over;
use matrix::WindowAccess;

/// The challenges of a column: its alpha and its beta.
pub(crate) fn column_challenges<AB: PermutationAirBuilder>(
    builder: &AB,
    column: usize,
) -> (AB::ExprEF, AB::ExprEF)
    requires { 2 * column + 1 < (AB.layout builder.now).num_permutation_challenges }
    ensures alpha { MeansOn ⟦<AB as BuilderView>⟧ builder.now
        (challenge_meaning ⟦<AB::EF as Over<AB::F>>⟧.fields (2 * column)) result.0 }
    ensures beta { MeansOn ⟦<AB as BuilderView>⟧ builder.now
        (challenge_meaning ⟦<AB::EF as Over<AB::F>>⟧.fields (2 * column + 1)) result.1 }
{
    let challenges = builder.permutation_randomness();
    (
        challenges[2 * column].into(),
        challenges[2 * column + 1].into(),
    )
}

/// The terminal, which is the first permutation value.
pub fn terminal<AB: PermutationAirBuilder>(builder: &AB) -> AB::ExprEF
    requires { 0 < (AB.layout builder.now).num_permutation_values }
    ensures means { (w : ExtWindow AB.F AB.EF) → AB.stands_for_ext builder.now w
        → AB.ExprEF.value result (AB.seen_ext w)
        ≡ slice_index_or w.permutation_values 0 AB.EF.ring.zero }
    ensures degree { (t : ℕ) → AB.ExprEF.degree result t ≡ 0 }
{
    builder.permutation_values()[0].into()
}

/// The accumulator on the current row.
pub(crate) fn accumulator_cell<AB: PermutationAirBuilder>(
    builder: &AB,
    permutation: &AB::MP,
) -> AB::ExprEF
    requires window { IsPermutationWindow AB.layout AB.stands_for_ext AB.variable_ext
        AB.MP.WindowAccess builder.now permutation.now }
    requires within { 0 < (AB.layout builder.now).permutation_width }
    ensures { MeansOn ⟦<AB as BuilderView>⟧ builder.now
        (cell_meaning (accumulator_at ⟦<AB::EF as Over<AB::F>>⟧.fields)) result }
{
    permutation.current_slice()[0].into()
}

/// The accumulator on the next row.
pub(crate) fn next_accumulator_cell<AB: PermutationAirBuilder>(
    builder: &AB,
    permutation: &AB::MP,
) -> AB::ExprEF
    requires window { IsPermutationWindow AB.layout AB.stands_for_ext AB.variable_ext
        AB.MP.WindowAccess builder.now permutation.now }
    requires within { 0 < (AB.layout builder.now).permutation_width }
    ensures { MeansOn ⟦<AB as BuilderView>⟧ builder.now
        (cell_meaning (next_accumulator_at ⟦<AB::EF as Over<AB::F>>⟧.fields)) result }
{
    permutation.next_slice()[0].into()
}

/// The fraction of the lookup in `column`, on the current row.
pub(crate) fn fraction_cell<AB: PermutationAirBuilder>(
    builder: &AB,
    permutation: &AB::MP,
    column: usize,
) -> AB::ExprEF
    requires window { IsPermutationWindow AB.layout AB.stands_for_ext AB.variable_ext
        AB.MP.WindowAccess builder.now permutation.now }
    requires within { column + 1 < (AB.layout builder.now).permutation_width }
    ensures { MeansOn ⟦<AB as BuilderView>⟧ builder.now
        (cell_meaning (fraction_at ⟦<AB::EF as Over<AB::F>>⟧.fields column)) result }
{
    let row = permutation.current_slice();
    row[column + 1].into()
}
