//! The LogUp gadget (eprint 2022/1530).
ghost use Rattle.std.specs.Prelude.{◌≡◌, ◌<◌, ◌+◌, ◌*◌, ◌≤◌, ◌⊎◌, IfErr, length};
ghost use Rattle.air.specs.Traces.{height_of, layout_of, traces_of};
ghost use Rattle.lookup_generation.specs.Inverses.{ForExtensions};
ghost use Rattle.lookup_generation.specs.Progress.{HaveNoTuples, started_chunks};
ghost use Rattle.lookup_model.specs.Generation.{AnswersGeneration};
ghost use Rattle.lookup_model.specs.LookupDegree.{IsDegree, lookup_degree};
ghost use Rattle.lookup_model.specs.Records.{HasEqualLengths, LookupsFit};
ghost use Rattle.lookup_model.specs.Terminals.{terminal_sum, terminal_value};

use crate::protocol::LookupProtocol;
use air::{AirBuilder, AirError, ExtensionBuilder, PermutationAirBuilder, Traces};
use field::{ExtensionDomain, ExtensionField, Field, Inverter};
use lookup_messages::LookupTraceBuilder;
use lookup_model::{Lookup, LookupError, LookupTerminal};
use matrix::RowMajorMatrix;
use std::alloc::Global;

/// The trace builder, named for its role here: what the evaluation of a row sees.
pub type RowEvalContext<'a, F, EF> = LookupTraceBuilder<'a, F, EF>;

/// The lookup argument by logarithmic derivatives (eprint 2022/1530).
///
/// A message is a tuple with a signed multiplicity `m`; queries and entries are in one list, with
/// opposite signs. Let `t` be its tuple, combined by `beta` to one element. LogUp tests whether
///
/// ```text
/// sum of m / (alpha - t) = 0
/// ```
///
/// over all messages. This is the logarithmic derivative of `product of (alpha - t)^m = 1`, and
/// needs no powers.
///
/// The auxiliary trace of an AIR has `acc` in column 0, and in column `c + 1` the fraction `f_c` of
/// lookup `c`: on each row its part of the sum, one quotient `V_c / U_c`. For a trace of `h` rows
/// the constraints are
///
/// ```text
/// U_c * f_c - V_c = 0                      on every row, for each lookup c
/// acc[0] = 0
/// acc[r + 1] = acc[r] + sum of f_c[r]      for r + 1 < h
/// terminal = acc[h - 1] + sum of f_c[h - 1]
/// ```
///
/// [`eval_fraction`](LookupProtocol::eval_fraction) says what `U_c` and `V_c` are, with and without
/// flags. The terminals of all AIRs have to sum to zero.
#[derive(Clone, Debug, Default, Drop)]
pub struct LogUpGadget;

impl LogUpGadget {
    /// Creates the gadget (a unit type).
    pub fn new() -> Self {
        LogUpGadget
    }

    /// The degree of the equation of a lookup's fraction, if the transition selector has degree
    /// `transition`. The constraint that `eval_fraction` asserts has at most this degree.
    ///
    /// Refuses `DegreeOverflow` if a sum of degrees does not fit `usize`. Allocates nothing.
    pub fn constraint_degree_with_transition<F>(
        &self,
        lookup: &Lookup<F>,
        transition: usize,
    ) -> Result<usize, LookupError>
        requires { HasEqualLengths lookup.now }
        ensures { IsDegree result (lookup_degree transition lookup.now) }
    {
        lookup_model::constraint_degree(lookup, transition)
    }

    /// The auxiliary trace of one AIR and its terminal, as `generate_permutation` makes them, with an
    /// inverter that counts.
    ///
    /// `challenges` are an alpha and a beta for each lookup, in the order of their columns. The trace has
    /// the height of `traces` and one column more than there are lookups: the accumulator, then the
    /// fraction of each lookup. Without lookups it has width 0, and there is no terminal.
    ///
    /// Rows are made in chunks of 1024, and all fractions of a chunk are divided by one inverse.
    /// `inverter` counts at most one call for each chunk that is started, even if the trace is
    /// refused: at most the height divided by 1024, rounded up. It counts at least one call less if
    /// a fault is refused, and none if no lookup has tuples. The challenges may be of a domain
    /// without an inverse of its own: for each function that inverts its elements, the answer is that
    /// of generation by this function.
    ///
    /// Refuses the first fault in the order row, lookup, and returns nothing of the trace; on one
    /// row of one lookup, in the order of `generate_permutation`. Also fails when out of memory,
    /// with `Memory`.
    pub fn generate_counted<F: Field, EF: ExtensionDomain<F>, I: Inverter<EF>>(
        &self,
        alloc: Global,
        traces: &Traces<'_, F>,
        lookups: &[Lookup<F>],
        challenges: &[EF],
        inverter: &mut I,
    ) -> Result<(RowMajorMatrix<EF>, Option<LookupTerminal<EF>>), LookupError>
        requires fit { LookupsFit (layout_of (traces_of traces.now)) lookups.now }
        requires challenges { 2 * length lookups.now ≤ length challenges.now }
        ensures answers { ForExtensions F.ring F.eq EF.ring EF.eq EF.embed (λ E.
            AnswersGeneration E (traces_of traces.now) lookups.now challenges.now result) }
        ensures counted { I.count inverter.new
            ≤ I.count inverter.old + started_chunks (height_of (traces_of traces.now)) }
        ensures one_fewer_if_refused { IfErr result (λ e. (e ≡ LookupError.Memory)
            ⊎ (I.count inverter.new
            < I.count inverter.old + started_chunks (height_of (traces_of traces.now)))) }
        ensures nothing_sent { HaveNoTuples lookups.now
            → I.count inverter.new ≡ I.count inverter.old }
    {
        lookup_generation::generate_counted(alloc, traces, lookups, challenges, inverter)
    }
}

impl LookupProtocol for LogUpGadget {
    fn num_challenges(&self) -> usize {
        2
    }

    fn eval_fraction<AB: PermutationAirBuilder>(
        &self,
        alloc: Global,
        builder: &mut AB,
        lookup: &Lookup<AB::F>,
    ) -> Result<(), AirError> {
        lookup_constraints::eval_fraction(alloc, builder, lookup)
    }

    fn eval_accumulator<AB: PermutationAirBuilder>(
        &self,
        alloc: Global,
        builder: &mut AB,
        lookups: &[Lookup<AB::F>],
        terminal: AB::ExprEF,
    ) -> Result<(), AirError> {
        lookup_constraints::eval_accumulator(alloc, builder, lookups, terminal)
    }

    fn constraint_degree<F>(&self, lookup: &Lookup<F>) -> Result<usize, LookupError> {
        self.constraint_degree_with_transition(lookup, 0)
    }

    fn generate_permutation<'a, F: Field, EF: ExtensionField<F>>(
        &self,
        alloc: Global,
        main: &'a RowMajorMatrix<F>,
        preprocessed: Option<&'a RowMajorMatrix<F>>,
        public_values: &[F],
        lookups: &[Lookup<F>],
        challenges: &[EF],
    ) -> Result<(RowMajorMatrix<EF>, Option<LookupTerminal<EF>>), LookupError> {
        let traces = Traces {
            main,
            preprocessed,
            public_values,
        };
        lookup_generation::generate_permutation(alloc, &traces, lookups, challenges)
    }

    fn verify_terminal_sum<EF: Field>(
        &self,
        terminals: &[Option<LookupTerminal<EF>>],
    ) -> Result<(), LookupError> {
        if sum_of_terminals(terminals).is_zero() {
            Ok(())
        } else {
            Err(LookupError::TerminalSumNonZero)
        }
    }
}

/// The sum of the terminals that are present.
fn sum_of_terminals<EF: Field>(terminals: &[Option<LookupTerminal<EF>>]) -> EF
    ensures { result ≡ terminal_sum EF.ring terminals.now }
{
    let mut sum = EF::ZERO;
    for terminal in terminals {
        sum = sum + value_of_terminal(*terminal);
    }
    sum
}

fn value_of_terminal<EF: Field>(terminal: Option<LookupTerminal<EF>>) -> EF
    ensures { result ≡ terminal_value EF.ring terminal }
{
    match terminal {
        Some(LookupTerminal(value)) => value,
        None => EF::ZERO,
    }
}
