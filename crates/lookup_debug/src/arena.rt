//! Tuples with amounts, whose elements stand in one list.
ghost use Rattle.std.specs.Prelude.{◌≡◌, ◌<◌, ◌∷◌, ◌++◌, [], IfOk, OnOk, Some, slice_get};
ghost use Rattle.indexmap.specs.IndexMap.{index_map_len};
ghost use Rattle.lookup_debug.specs.internal.Arena.{AreWithin, amounts_in};
ghost use Rattle.lookup_debug.specs.internal.Nets.{amount_nets, tuple_entries};

use field::Field;
use indexmap::IndexMap;
use lookup_messages::add_at;
use std::alloc::{AllocError, Global};

/// A tuple with its amount. The tuple is `elements[start..end]`.
#[derive(Clone, Copy)]
pub(crate) struct TupleSpan<F> {
    pub(crate) start: usize,
    pub(crate) end: usize,
    pub(crate) amount: F,
}

/// At how many contributions equal tuples are merged, in addition to eight for each tuple that the last
/// merge left.
const FREE_CONTRIBUTIONS: usize = 1 << 18;

/// Tuples with amounts. The tuples stand one after another in `elements`. Where there are `limit` of
/// them, equal ones are merged.
#[derive(Drop)]
pub(crate) struct Contributions<F> {
    pub(crate) elements: Vec<F>,
    pub(crate) spans: Vec<TupleSpan<F>>,
    limit: usize,
}

impl<F: Field> Contributions<F> {
    /// No contributions.
    pub(crate) fn new(alloc: Global) -> Contributions<F>
        ensures within { AreWithin result }
        ensures empty { amounts_in result ≡ [] }
    {
        Contributions {
            elements: Vec::new(alloc),
            spans: Vec::new(alloc),
            limit: FREE_CONTRIBUTIONS,
        }
    }

    /// Removes all contributions, and keeps the memory. The limit is the first one again.
    pub(crate) fn clear(&mut self)
        ensures within { AreWithin self.new }
        ensures empty { amounts_in self.new ≡ [] }
    {
        self.elements.clear();
        self.spans.clear();
        self.limit = FREE_CONTRIBUTIONS;
    }

    /// Appends one more tuple with its amount.
    fn push(&mut self, tuple: &[F], amount: F) -> Result<(), AllocError>
        requires within { AreWithin self.now }
        ensures { OnOk result (AreWithin self.new
            × (amounts_in self.new ≡ amounts_in self.old ++ (tuple.now, amount) ∷ [])) }
    {
        let start = self.elements.len();
        self.elements.extend_from_slice(tuple)?;
        let end = self.elements.len();
        self.spans.push(TupleSpan { start, end, amount })?;
        Ok(())
    }
}

/// The net of each tuple, in the order in which the tuples are first seen.
pub(crate) fn nets<'a, F: Field>(
    alloc: Global,
    contributions: &'a Contributions<F>,
) -> Result<IndexMap<&'a [F], F>, AllocError>
    requires within { AreWithin contributions.now }
    ensures { IfOk result (λ m. tuple_entries m.entries
        ≡ amount_nets F.ring F.eq (amounts_in contributions.now)) }
{
    let elements = contributions.elements.as_slice();
    let mut nets = IndexMap::new(alloc);
    for span in &contributions.spans {
        let tuple = &elements[span.start..span.end];
        add_at(&mut nets, tuple, span.amount)?;
    }
    Ok(nets)
}

/// Merges equal tuples where the list has reached its limit: each stays once, with its net. So memory is
/// not linear in what is contributed.
pub(crate) fn merge_at_limit<F: Field>(
    alloc: Global,
    contributions: &mut Contributions<F>,
) -> Result<(), AllocError>
    requires within { AreWithin contributions.now }
    ensures { OnOk result (AreWithin contributions.new
        × (amount_nets F.ring F.eq (amounts_in contributions.new)
        ≡ amount_nets F.ring F.eq (amounts_in contributions.old))) }
{
    if contributions.spans.len() < contributions.limit {
        return Ok(());
    }
    let mut merged = merge_equal(alloc, contributions)?;
    let tuples = merged.spans.len();
    merged.limit = tuples.saturating_mul(8).saturating_add(FREE_CONTRIBUTIONS);
    *contributions = merged;
    Ok(())
}

/// Each tuple once, with its net, in the order in which the tuples are first seen.
fn merge_equal<F: Field>(
    alloc: Global,
    contributions: &Contributions<F>,
) -> Result<Contributions<F>, AllocError>
    requires within { AreWithin contributions.now }
    ensures { IfOk result (λ v. AreWithin v
        × (amounts_in v ≡ amount_nets F.ring F.eq (amounts_in contributions.now))) }
{
    let nets = nets(alloc, contributions)?;
    let mut merged = Contributions::new(alloc);
    for index in 0..nets.len() {
        let (tuple, net) = entry_at(&nets, index);
        merged.push(tuple, net)?;
    }
    Ok(merged)
}

/// The entry at an index.
pub(crate) fn entry_at<'a, F: Field>(nets: &IndexMap<&'a [F], F>, index: usize) -> (&'a [F], F)
    requires { index < index_map_len nets.now }
    ensures { slice_get nets.now.entries index ≡ Some result }
{
    match nets.get_index(index) {
        Some((tuple, net)) => (*tuple, *net),
        None => unreachable!(),
    }
}
