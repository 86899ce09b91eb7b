//! Calls of AIR builders, and what they leave of a builder.
use air::{AirBuilder, ExtensionBuilder, PermutationAirBuilder, SymbolicAirBuilder};
use field::{F7, Field};
use gate_memory_builders::airs::{BusCall, PUSHES, Push, make_push};
use gate_memory_builders::inputs::{Recorder, cell, ext_cell, layout};
use gate_memory_builders::over::{Call, over_recorder};
use gate_memory_builders::show::{Out, input, show};
use std::alloc::Global;
use std::fmt::Debug;

/// Makes this push five times, and shows the recorder before and after each: a list grows at its first and at its
/// fifth item.
fn push_five_times<F: Field + Debug>(alloc: Global, out: &mut Out, push: Push) {
    if let Some(mut builder) = input(out, Recorder::<F>::new(alloc, layout())) {
        let name = push.name();
        for _ in 0..5 {
            show(out, "before", &builder);
            show(out, name, make_push(alloc, &mut builder, push));
            show(out, "after", &builder);
        }
        drop(builder);
    }
}

/// The windows of a builder that records assertions alone, and five assertions over the field or over the extension, as
/// [`push_five_times`] makes its pushes.
fn assert_five_times<F: Field + Debug>(alloc: Global, out: &mut Out, is_ext: bool) {
    if let Some(mut builder) = input(out, SymbolicAirBuilder::<F, F>::new(alloc, layout())) {
        show(out, "main of SymbolicAirBuilder", builder.main(alloc));
        show(
            out,
            "permutation of SymbolicAirBuilder",
            builder.permutation(alloc),
        );
        for _ in 0..5 {
            show(out, "before", &builder);
            if is_ext {
                let answer = builder.assert_zero_ext(alloc, ext_cell());
                show(out, "assert_zero_ext of SymbolicAirBuilder", answer);
            } else {
                let answer = builder.assert_zero(alloc, cell(0));
                show(out, "assert_zero of SymbolicAirBuilder", answer);
            }
            show(out, "after", &builder);
        }
        drop(builder);
    }
}

/// All pushes and assertions, each on a builder of its own.
pub fn pushes<F: Field + Debug>(alloc: Global, out: &mut Out) {
    for push in &PUSHES {
        push_five_times::<F>(alloc, out, *push);
    }
    assert_five_times::<F>(alloc, out, false);
    assert_five_times::<F>(alloc, out, true);
}

/// The calls over a builder. Those on cells stand here twice, since each call is made twice; one of a bus is made five
/// times anyway.
const CALLS: [Call; 10] = [
    Call::Cells,
    Call::Cells,
    Call::Bus(BusCall::TableEntry),
    Call::Bus(BusCall::LookupKey),
    Call::Bus(BusCall::Send),
    Call::Bus(BusCall::Receive),
    Call::Bus(BusCall::LookupKeyExclusive),
    Call::Bus(BusCall::AssertOnFirstRow),
    Call::Bus(BusCall::AssertExtOnFirstRow),
    Call::Bus(BusCall::MainOnFirstRow),
];

/// All calls over a builder, each on one of its own.
pub fn builders(alloc: Global, out: &mut Out) {
    for call in &CALLS {
        over_recorder::<F7, F7>(alloc, *call, out, &[], &[]);
    }
}
