//! Calls of generation.
ghost use Rattle.std.specs.Prelude.{◌*◌, ◌≤◌, None, length};
ghost use Rattle.air_expressions.specs.Layout.{layout_of_traces};
ghost use Rattle.lookup_model.specs.Records.{LookupsFit};

use air::{AirLayout, Traces};
use field::{ExtensionField, F7, Field, InverseCount};
use gate_memory_builders::inputs::{
    BALANCED, LOCAL, LOOKUPS, UNLAWFUL, VANISHING, elements, lookups_of, read, table, trace,
};
use gate_memory_builders::show::{Out, input, show};
use lookup::{Challenges, LogUpGadget, Lookup, LookupError, LookupProtocol, LookupTerminal, fits};
use matrix::RowMajorMatrix;
use serde::DeserializeOwned;
use std::alloc::Global;
use std::fmt::Debug;

/// What generation gives: the auxiliary trace and the terminal.
type Generated<EF> = Result<(RowMajorMatrix<EF>, Option<LookupTerminal<EF>>), LookupError>;

/// What generation makes of lookups that fit, by the call that counts its inverses if there is a count.
fn generate<F: Field, EF: ExtensionField<F>>(
    alloc: Global,
    main: &RowMajorMatrix<F>,
    lookups: &[Lookup<F>],
    challenges: &[EF],
    count: Option<&mut InverseCount>,
) -> Generated<EF> {
    let layout = AirLayout::of_traces(main, None, &[]);
    if !fits(lookups, &layout) || lookups.len() > challenges.len() / 2 {
        return Err(LookupError::DegreeOverflow);
    }
    match count {
        Some(count) => generate_counted(alloc, main, &[], lookups, challenges, count),
        None => {
            LogUpGadget::new().generate_permutation(alloc, main, None, &[], lookups, challenges)
        }
    }
}

/// What generation makes over a main trace and public values, with a count of its inverses.
fn generate_counted<'a, F: Field, EF: ExtensionField<F>>(
    alloc: Global,
    main: &'a RowMajorMatrix<F>,
    public_values: &'a [F],
    lookups: &[Lookup<F>],
    challenges: &[EF],
    count: &mut InverseCount,
) -> Generated<EF>
    requires fit { LookupsFit (layout_of_traces main.now None public_values.now) lookups.now }
    requires challenges { 2 * length lookups.now ≤ length challenges.now }
{
    let traces = Traces {
        main,
        preprocessed: None,
        public_values,
    };
    LogUpGadget::new().generate_counted(alloc, &traces, lookups, challenges, count)
}

/// Both calls over one trace, and what the second one has counted.
pub fn show_generated<F: Field, EF: ExtensionField<F> + Debug>(
    alloc: Global,
    out: &mut Out,
    main: &RowMajorMatrix<F>,
    lookups: &[Lookup<F>],
    challenges: &[EF],
) {
    let mut count = InverseCount::new();
    let answer = generate(alloc, main, lookups, challenges, None);
    show(out, "generate_permutation", answer);
    let answer = generate(alloc, main, lookups, challenges, Some(&mut count));
    show(out, "generate_counted", answer);
    show(out, "count", count.get());
}

/// An alpha and a beta for each lookup. The first alpha less the key of [`VANISHING`] is zero.
const CHALLENGES: [u32; 8] = [5, 2, 6, 2, 7, 2, 8, 2];

/// Generation over a trace, of all lookups and of none, twice.
fn over_trace<F: Field + Debug, EF: ExtensionField<F> + Debug>(
    alloc: Global,
    out: &mut Out,
    lookups: &[Lookup<F>],
    numbers: &[u32],
    challenges: &[EF],
) {
    if let Some(main) = trace(alloc, out, numbers, 3) {
        for _ in 0..2 {
            show_generated(alloc, out, &main, lookups, challenges);
            show_generated(alloc, out, &main, &lookups[..0], challenges);
            show(out, "input", &main);
        }
    }
}

/// A trace that balances, one with an unlawful flag, and one with a denominator of zero.
const TRACES: [&[u32]; 3] = [&BALANCED, &UNLAWFUL, &VANISHING];

/// Generation over these traces.
fn over_traces<F: Field + Debug, EF: ExtensionField<F> + Debug>(
    alloc: Global,
    out: &mut Out,
    lookups: &[Lookup<F>],
    challenges: &[EF],
) {
    for numbers in &TRACES {
        over_trace::<F, EF>(alloc, out, lookups, numbers, challenges);
    }
}

/// The calls of generation.
pub fn generation<F: Field + Debug + DeserializeOwned, EF: ExtensionField<F> + Debug>(
    alloc: Global,
    out: &mut Out,
) {
    let lookups: Option<Vec<Lookup<F>>> = read(alloc, out, LOOKUPS);
    if let Some(lookups) = lookups {
        if let Some(challenges) = input(out, elements::<EF>(alloc, &CHALLENGES)) {
            over_traces::<F, EF>(alloc, out, lookups.as_slice(), challenges.as_slice());
            show(out, "input", &lookups);
        }
    }
}

/// Calls on a table of challenges.
fn on_table(alloc: Global, out: &mut Out, table: &Challenges<F7>) {
    let answer = Challenges::new(alloc, F7::new(5), F7::new(2), 1, 2);
    show(out, "Challenges::new", answer.map(|table| table.bus_prefix));
    if table.bus_prefix.len() > 1 {
        show(out, "for_columns", table.for_columns(alloc, &[1, 0]));
        let answer = Challenges::for_ids(alloc, F7::new(5), F7::new(2), 1, &[1, 0]);
        show(out, "for_ids", answer);
    }
    show(out, "input", &table.bus_prefix);
}

/// The calls of challenges, twice over the same table. Over an extension `check_memory` makes them.
pub fn challenges(alloc: Global, out: &mut Out) {
    if let Some(table) = table(alloc, out, 5) {
        on_table(alloc, out, &table);
        on_table(alloc, out, &table);
    }
}

/// Generation over two chunks of rows, of a lookup that sends and takes back the same.
pub fn chunks(alloc: Global, out: &mut Out) {
    if let Some(lookups) = lookups_of(alloc, out, LOCAL) {
        let challenges = [F7::new(5), F7::new(2)];
        over_trace::<F7, F7>(
            alloc,
            out,
            lookups.as_slice(),
            &[1; 3075],
            challenges.as_slice(),
        );
    }
}
