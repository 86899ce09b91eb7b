//! Challenges, generated traces and sums of terminals, at values calculated by hand.
use super::{Made, are_numbers, generate, holds, pair, single, trace};
use air::AirLayout;
use field::{ExtensionField, F7, PrimeCharacteristicRing};
use field_monty::{BabyBear, BabyBear4};
use lookup::{
    Challenges, Kind, LogUpGadget, LookupError, LookupProtocol, LookupTerminal, TraceWindow,
    indexed, logup, protocol, symbolic, traits,
};
use std::alloc::Global;
use std::process::Abort;

#[test]
fn prefixes_of_two_buses(rt: HostRuntime) {
    let alloc = rt.alloc();
    let (alpha, beta) = (BabyBear::new(5), BabyBear::new(2));
    let challenges = Challenges::new(alloc, alpha, beta, 3, 2).expect(&rt, "memory");
    holds(&rt, "alpha", challenges.alpha == alpha);
    holds(&rt, "beta", challenges.beta == beta);
    let prefixes = challenges.bus_prefix.as_slice();
    holds(&rt, "prefixes", are_numbers(prefixes, &[13, 21]));
    let columns = challenges.for_columns(alloc, &[1, 0]).expect(&rt, "memory");
    let are_these = are_numbers(columns.as_slice(), &[21, 2, 13, 2]);
    holds(&rt, "columns", are_these);
}

// The prefix of id 2^31 is 5 + (2^31 + 1) * 8, and 2^31 is 134217727 modulo 2013265921.
#[test]
fn challenges_of_ids_alone(rt: HostRuntime) {
    let (alpha, beta) = (BabyBear::new(5), BabyBear::new(2));
    let ids = [1, 0, 2_147_483_648];
    let columns = Challenges::for_ids(rt.alloc(), alpha, beta, 3, &ids).expect(&rt, "memory");
    let are_these = are_numbers(columns.as_slice(), &[21, 2, 13, 2, 1_073_741_829, 2]);
    holds(&rt, "columns", are_these);
}

/// What generation makes of the lookup of a tuple of all cells with count 1, over one row.
fn of_one_row<EF: ExtensionField<BabyBear>>(
    rt: &impl Abort,
    alloc: Global,
    row: &[u32],
    alpha: EF,
    beta: EF,
) -> Made<EF> {
    let main = trace::<BabyBear>(rt, alloc, row, row.len());
    let lookups = [single(rt, alloc, row.len(), 0)];
    let challenges = pair(rt, alloc, alpha, beta);
    generate(rt, alloc, &main, lookups.as_slice(), challenges.as_slice()).expect(rt, "no fault")
}

/// Fails unless the fraction and the terminal of such a row are this number.
fn expect(rt: &impl Abort, alloc: Global, row: &[u32], alpha: u32, beta: u32, fraction: u32) {
    let (alpha, beta) = (BabyBear::new(alpha), BabyBear::new(beta));
    let made = of_one_row(rt, alloc, row, alpha, beta);
    let are_these = are_numbers(made.auxiliary.values(), &[0, fraction]);
    holds(rt, "the cells", made.auxiliary.width() == 2 && are_these);
    let is_this = made.terminal == Some(BabyBear::new(fraction));
    holds(rt, "the terminal", is_this);
}

/// At alpha 7 the tuple 5 has the denominator 2. At alpha 17 and beta 2 the tuple `1 2 3` combines to 11,
/// and has the denominator 6. At alpha X the tuple 0 has X, and 1 / X is X^3 / 11.
#[test]
fn one_tuple_over_one_row(rt: HostRuntime) {
    let alloc = rt.alloc();
    expect(&rt, alloc, &[5], 7, 3, 1006632961);
    expect(&rt, alloc, &[1, 2, 3], 17, 2, 1677721601);
    let x = BabyBear4::new([0, 1, 0, 0].map(BabyBear::new));
    let made = of_one_row(&rt, alloc, &[0], x, x);
    let inverse = BabyBear4::new([0, 0, 0, 549072524].map(BabyBear::new));
    holds(&rt, "X", made.terminal == Some(inverse));
}

#[test]
fn the_first_fault_is_refused(rt: HostRuntime) {
    let alloc = rt.alloc();
    let main = trace::<F7>(&rt, alloc, &[3, 2, 4, 1], 2);
    let mut second = single::<F7>(&rt, alloc, 2, 1);
    second.kind = Kind::Global(String::from_str(alloc, "b").expect(&rt, "memory"));
    let lookups = [single(&rt, alloc, 1, 0), second];
    let challenges = [F7::new(4), F7::new(1), F7::new(5), F7::new(1)];
    let made = generate(&rt, alloc, &main, lookups.as_slice(), challenges.as_slice());
    let fault = LookupError::VanishingDenominator { row: 0, lookup: 1 };
    let is_first = made.err() == Some(fault);
    holds(&rt, "the fault of the second lookup", is_first);
}

#[test]
fn no_lookups_have_no_columns(rt: HostRuntime) {
    let alloc = rt.alloc();
    let main = trace::<F7>(&rt, alloc, &[3, 4], 1);
    let made = generate::<F7, F7>(&rt, alloc, &main, &[], &[]).expect(&rt, "no fault");
    let has_none = made.auxiliary.width() == 0 && made.auxiliary.values().is_empty();
    holds(&rt, "no columns", has_none);
    holds(&rt, "no terminal", made.terminal.is_none());
}

/// The terminal of a number.
fn terminal(number: i32) -> Option<LookupTerminal<F7>> {
    Some(LookupTerminal(F7::from_i32(number)))
}

/// Whether these terminals cancel. The refusal of others has to be that of their sum.
fn cancel(rt: &impl Abort, terminals: &[Option<LookupTerminal<F7>>]) -> bool {
    match LogUpGadget::new().verify_terminal_sum(terminals) {
        Ok(()) => true,
        Err(error) => {
            holds(rt, "the sum", error == LookupError::TerminalSumNonZero);
            false
        }
    }
}

#[test]
fn terminals_that_cancel(rt: HostRuntime) {
    let three = [terminal(5), terminal(-5), None];
    holds(
        &rt,
        "5, -5 and an absent one",
        cancel(&rt, three.as_slice()),
    );
    let two = [terminal(5), terminal(3)];
    holds(&rt, "5 and 3", !cancel(&rt, two.as_slice()));
    holds(&rt, "none", cancel(&rt, &[]));
    holds(&rt, "absent ones", cancel(&rt, &[None, None, None]));
    let zero = LookupTerminal::<F7>::default();
    holds(&rt, "the default", zero.0 == F7::ZERO);
}

#[test]
fn items_are_reached_through_their_modules(rt: HostRuntime) {
    let gadget = logup::LogUpGadget::new();
    let challenges = protocol::LookupProtocol::num_challenges(&gadget);
    holds(&rt, "protocol", challenges == 2);
    let window = indexed::TraceWindow::default();
    holds(&rt, "indexed", window == TraceWindow::Main);
    let layout = AirLayout::default();
    let builder = symbolic::InteractionSymbolicBuilder::<F7, F7>::new(rt.alloc(), layout);
    let builder = builder.expect(&rt, "memory");
    holds(&rt, "symbolic", builder.global_interactions().is_empty());
    let terminal = traits::LookupTerminal(F7::new(3));
    holds(&rt, "traits", terminal.0 == F7::new(3));
    drop(builder);
}
