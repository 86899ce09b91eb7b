//! Constraints of lookups after those of an AIR, as a symbolic builder records them.
ghost use Rattle.std.specs.Prelude.{◌≡◌, ◌*◌, ◌<◌, ◌≤◌, IfOk, IsTrue, OnOk, length};
ghost use Rattle.lookup_model.specs.Records.{LookupsFit};

use super::{group, holds, list, range, single};
use air::{
    Air, AirBuilder, AirError, AirLayout, BaseAir, PermutationAirBuilder, SymbolicAirBuilder,
    current_cell,
};
use field::{ExtensionField, F7, Field};
use lookup::{LogUpGadget, Lookup, LookupProtocol, fits};
use matrix::WindowAccess;
use std::alloc::Global;
use std::process::Abort;

type Recorder = SymbolicAirBuilder<F7, F7>;

/// The widths that a builder works with.
fn layout_of<AB: PermutationAirBuilder>(alloc: Global, builder: &AB) -> Result<AirLayout, AirError>
    ensures { IfOk result (λ r. r ≡ AB.layout builder.now) }
{
    let main = builder.main(alloc)?;
    let permutation = builder.permutation(alloc)?;
    Ok(AirLayout {
        preprocessed_width: builder.preprocessed().current_slice().len(),
        main_width: main.current_slice().len(),
        num_public_values: builder.public_values().len(),
        permutation_width: permutation.current_slice().len(),
        num_permutation_challenges: builder.permutation_randomness().len(),
        num_permutation_values: builder.permutation_values().len(),
    })
}

/// Whether a builder of these widths has room for lookups.
fn has_room<F>(lookups: &[Lookup<F>], layout: &AirLayout) -> bool
    ensures fit { IsTrue result → LookupsFit layout.now lookups.now }
    ensures challenges { IsTrue result
        → 2 * length lookups.now ≤ layout.now.num_permutation_challenges }
    ensures cells { IsTrue result → length lookups.now < layout.now.permutation_width }
    ensures terminal { IsTrue result → 0 < layout.now.num_permutation_values }
{
    fits(lookups, layout)
        && lookups.len() <= layout.num_permutation_challenges / 2
        && lookups.len() < layout.permutation_width
        && 0 < layout.num_permutation_values
}

/// An AIR of eight columns, of which the first is zero. It asserts that, and may then be refused.
#[derive(Drop)]
struct ZeroColumn {
    refused: Option<AirError>,
}

impl<F> BaseAir<F> for ZeroColumn {
    ghost width = { λ _. 8 };

    ghost preprocessed_width = { λ _. 0 };

    ghost num_public_values = { λ _. 0 };

    fn width(&self) -> usize {
        8
    }

    fn preprocessed_width(&self) -> usize {
        0
    }

    fn num_public_values(&self) -> usize {
        0
    }
}

impl<AB: AirBuilder> Air<AB> for ZeroColumn {
    ghost evaluates = { λ _ before answer after. OnOk answer (AB.layout after ≡ AB.layout before) };

    fn eval(&self, alloc: Global, builder: &mut AB) -> Result<(), AirError> {
        let first = current_cell(alloc, &*builder, 8, 0)?;
        builder.assert_zero(alloc, first)?;
        match self.refused {
            Some(error) => Err(error),
            None => Ok(()),
        }
    }

    ghost keeps_layout = { λ air before after h. h };
}

/// Evaluates an AIR with lookups, for which the builder has to have room.
fn evaluated<AB: PermutationAirBuilder>(
    rt: &impl Abort,
    alloc: Global,
    air: &ZeroColumn,
    builder: &mut AB,
    lookups: &[Lookup<AB::F>],
) -> Result<(), AirError> {
    let layout = layout_of(alloc, &*builder)?;
    assert!(rt; has_room(lookups, &layout));
    LogUpGadget::new().eval_air_and_lookups(alloc, air, builder, lookups)
}

/// What a recorder refuses, if anything, and the recorder after it has evaluated such an AIR with
/// these lookups. Over any field, since the recorder's types cost more to prove over a given one.
fn recorded<F: Field, EF: ExtensionField<F>>(
    rt: &impl Abort,
    alloc: Global,
    refused: Option<AirError>,
    lookups: &[Lookup<F>],
) -> (Option<AirError>, SymbolicAirBuilder<F, EF>) {
    let layout = AirLayout {
        preprocessed_width: 0,
        main_width: 8,
        num_public_values: 0,
        permutation_width: 3,
        num_permutation_challenges: 4,
        num_permutation_values: 1,
    };
    let mut builder = SymbolicAirBuilder::new(alloc, layout).expect(rt, "memory");
    let air = ZeroColumn { refused };
    let answer = evaluated(rt, alloc, &air, &mut builder, lookups);
    (answer.err(), builder)
}

/// Whether recorded constraints of the extension have these degrees, where the transition selector has
/// this one.
fn have_degrees(rt: &impl Abort, builder: &Recorder, transition: usize, degrees: &[usize]) -> bool {
    let constraints = builder.extension_constraints();
    for (constraint, degree) in constraints.iter().zip(degrees) {
        let own = constraint
            .degree_multiple_with_transition(transition)
            .expect(rt, "a degree");
        if own != *degree {
            return false;
        }
    }
    constraints.len() == degrees.len()
}

/// Fails unless the one constraint of the AIR comes first, and then those of lookups, at these indices
/// and of these degrees, where the transition selector has degree 0 and 1.
fn expect(
    rt: &impl Abort,
    alloc: Global,
    what: &str,
    refused: Option<AirError>,
    lookups: &[Lookup<F7>],
    indices: &[usize],
    degrees: (&[usize], &[usize]),
) {
    let (answer, builder) = recorded(rt, alloc, refused, lookups);
    holds(rt, what, answer == refused);
    let layout = builder.constraint_layout();
    holds(rt, what, layout.base_indices.as_slice() == [0].as_slice());
    holds(rt, what, layout.ext_indices.as_slice() == indices);
    holds(rt, what, have_degrees(rt, &builder, 0, degrees.0));
    holds(rt, what, have_degrees(rt, &builder, 1, degrees.1));
    drop(builder);
}

/// Of a lookup the fraction comes first; then the accumulator on the first row, on transitions and on
/// the last row.
#[test]
fn constraints_are_recorded_after_those_of_the_air(rt: HostRuntime) {
    let alloc = rt.alloc();
    let one = list(&rt, alloc, [single(&rt, alloc, 1, 0)]);
    let two = list(&rt, alloc, [range(&rt, alloc, 0), single(&rt, alloc, 1, 1)]);
    let branches = list(&rt, alloc, [group(&rt, alloc, 4, 0)]);
    let refusal = Some(AirError::DegreeOverflow);
    let degrees: (&[usize], &[usize]) = (&[2, 2, 1, 2], &[2, 2, 2, 2]);
    let indices: &[usize] = &[1, 2, 3, 4];
    let one = one.as_slice();
    expect(&rt, alloc, "one lookup", None, one, indices, degrees);
    let degrees: (&[usize], &[usize]) = (&[3, 2, 1, 2], &[3, 2, 2, 2]);
    let group = branches.as_slice();
    expect(&rt, alloc, "a group", None, group, indices, degrees);
    let degrees: (&[usize], &[usize]) = (&[3, 2, 2, 1, 2], &[3, 2, 2, 2, 2]);
    let indices: &[usize] = &[1, 2, 3, 4, 5];
    let two = two.as_slice();
    expect(&rt, alloc, "two lookups", None, two, indices, degrees);
    let nothing: (&[usize], &[usize]) = (&[], &[]);
    expect(&rt, alloc, "no lookups", None, &[], &[], nothing);
    expect(&rt, alloc, "a refusal", refusal, one, &[], nothing);
}
