//! The call that gives the degrees of lookups.
ghost use Rattle.std.specs.Prelude.{◌≡◌, ◌≢◌, MatchResult, length, map};
ghost use Rattle.std.specs.Result.{OnErr};
ghost use Rattle.lookup.specs.Lookups.{lookups_of};
ghost use Rattle.lookup_model.specs.LookupDegree.{lookup_degree};
ghost use Rattle.c_calls.specs.Degrees.{CallGivesDegrees, IsLargeDegreesRefusal, IsDegreesRefusal};
ghost use Rattle.c_calls.specs.CallAnswers.{CallAnswers};

use crate::batch_tables::set_of;
use crate::codes::Part;
use crate::fault::Fault;
use crate::refusal::{Refusal, accept, refuse};
use c_tables::Tables;
use field_monty::{BabyBearParameters, MontyField31, QuarticParameters};
use lookup::Lookups;
use lookup_model::constraint_degree;
use std::alloc::Global;

/// The degrees of the lookups of a set, where the transition selector has this degree.
///
/// Refuses the first one that does not fit.
fn degrees_of<const P: u32, K: QuarticParameters<P>>(
    alloc: Global,
    set: &Lookups<MontyField31<P, K>>,
    transition_degree: usize,
) -> Result<Vec<usize>, Fault>
    ensures { MatchResult result (λ v. v.items ≡ map (lookup_degree transition_degree) (lookups_of set.now))
        (IsLargeDegreesRefusal transition_degree (lookups_of set.now)) }
{
    let lookups = set.as_slice();
    let mut degrees = Vec::with_capacity(alloc, lookups.len())?;
    for lookup in lookups {
        match constraint_degree(lookup, transition_degree) {
            Ok(degree) => degrees.push(degree)?,
            Err(error) => return Err(Fault::Lookup { air: 0, error }),
        }
    }
    Ok(degrees)
}

/// The degrees of the lookups that tables encode, for room for so many.
fn degrees_into_room<const P: u32, K: QuarticParameters<P>>(
    alloc: Global,
    tables: &Tables<'_>,
    transition_degree: usize,
    room: usize,
) -> Result<Vec<usize>, Fault>
    ensures { MatchResult result
        (λ v. CallGivesDegrees P tables.now transition_degree v.items × (length v.items ≡ room))
        (IsDegreesRefusal P tables.now transition_degree room) }
{
    let set = set_of::<P, K>(alloc, 0, tables)?;
    let degrees = degrees_of::<P, K>(alloc, &set, transition_degree)?;
    if degrees.len() != room {
        return Err(Fault::Length {
            part: Part::Degrees,
            expected: degrees.len(),
            actual: room,
        });
    }
    Ok(degrees)
}

/// Does what `volgwain_degrees` does, over any prime field below 2^31.
pub(crate) fn answer_degrees<const P: u32, K: QuarticParameters<P>>(
    alloc: Global,
    tables: &Tables<'_>,
    transition_degree: usize,
    degrees: &mut [usize],
) -> Result<(), Fault>
    ensures answers { MatchResult result (λ _. CallGivesDegrees P tables.now transition_degree degrees.new)
        (IsDegreesRefusal P tables.now transition_degree (length degrees.old)) }
    ensures kept { OnErr result (degrees.new ≡ degrees.old) }
{
    let made = degrees_into_room::<P, K>(alloc, tables, transition_degree, degrees.len())?;
    degrees.copy_from_slice(&made);
    Ok(())
}

/// Gives the degree of the constraint of each lookup of an AIR, where the transition selector has the given degree.
///
/// Answers 0, or the code of a refusal. A refused call leaves the degrees as they were.
#[unsafe(no_mangle)]
pub extern "C" fn volgwain_degrees(
    alloc: Global,
    tables: &Tables<'_>,
    transition_degree: usize,
    degrees: &mut [usize],
    refusal: &mut Refusal,
    text: &mut [u8],
) -> u32
    ensures answers { CallAnswers result refusal.new
        (CallGivesDegrees 2013265921 tables.now transition_degree degrees.new)
        (IsDegreesRefusal 2013265921 tables.now transition_degree (length degrees.old)) }
    ensures kept { result ≢ 0 → degrees.new ≡ degrees.old }
{
    match answer_degrees::<2_013_265_921, BabyBearParameters>(
        alloc,
        tables,
        transition_degree,
        degrees,
    ) {
        Ok(()) => accept(refusal),
        Err(fault) => refuse(&fault, refusal, text),
    }
}
