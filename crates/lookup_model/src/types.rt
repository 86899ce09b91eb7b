//! Lookups and their parts.
ghost use Rattle.std.specs.Prelude.{◌≡◌};

use air_expressions::SymbolicExpression;
use field::PrimeCharacteristicRing;
use serde::{Described, Deserialize, Serialize, Serializer};

/// Whether a lookup is local to one AIR or sent on a bus.
#[derive(Debug, Drop, PartialEq, Eq, Serialize)]
pub enum Kind {
    /// A lookup inside one AIR.
    Local,
    /// A lookup on the bus of this name, which other AIRs share.
    Global(String),
}

/// One lookup: on each row its tuples, each with a multiplicity.
///
/// Without `flags` (additive) a row sends every tuple with its multiplicity. With `flags`
/// (exclusive), one for each tuple, a row sends the tuple whose flag is set, with its multiplicity.
///
/// # Soundness
///
/// The AIR has to constrain two things, which a lookup only carries:
///
/// - on every row each flag is 0 or 1, and at most one of them is 1;
/// - on every row the queries stay within `count_weight` in absolute value.
///
/// Generation refuses other flags, but no constraint of a lookup tests them.
#[derive(Debug, Drop, Serialize)]
pub struct Lookup<F> {
    /// Local, or global on a named bus.
    pub kind: Kind,
    /// The tuples, each a list of expressions.
    pub elements: Vec<Vec<SymbolicExpression<F>>>,
    /// One signed multiplicity for each tuple.
    pub multiplicities: Vec<SymbolicExpression<F>>,
    /// The most that the queries of one row add to a count, in absolute value.
    pub count_weight: u64,
    /// The index of the lookup in its AIR: its fractions are in auxiliary column `column + 1`.
    pub column: usize,
    /// One flag for each tuple, if the lookup is exclusive.
    pub flags: Option<Vec<SymbolicExpression<F>>>,
}

/// The sum of all fractions of one AIR, which its prover provides.
#[derive(Clone, Copy, Debug, Deserialize)]
pub struct LookupTerminal<F>(pub F);

impl<F: Described> Described for LookupTerminal<F> {
    ghost writes = { λ terminal. F.writes terminal.0 };
}

/// A terminal is written as its element.
impl<F: Serialize> Serialize for LookupTerminal<F> {
    fn serialize<S: Serializer>(&self, out: &mut S) -> Result<(), S::Error> {
        self.0.serialize(out)
    }
}

/// Zero, the terminal of an AIR that sends nothing.
impl<F: PrimeCharacteristicRing> Default for LookupTerminal<F> {
    ghost is_default = { λ terminal. terminal.0 ≡ F.ring.zero };

    fn default() -> LookupTerminal<F> {
        LookupTerminal(F::ZERO)
    }
}
