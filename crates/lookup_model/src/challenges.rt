//! The denominators of every bus, from one pair of challenges.
ghost use Rattle.std.specs.Prelude.{◌≡◌, ◌*◌, ◌<◌, All, IfOk, length, map};
ghost use Rattle.std.specs.Box.{boxed_slice_items};
ghost use Rattle.std.specs.List.{range_with_len};
ghost use Rattle.lookup_model.specs.Challenges.{bus_table, column_challenges, prefix_of_bus, table_of};
ghost use Rattle.field.specs.Ring.{power};
ghost use Rattle.lookup_model.specs.Points.{HasPoints};

use field::Field;
use std::alloc::{AllocError, Global};
use std::boxed::BoxedSlice;

/// The product of `n` factors `base`, of which there has to be one. Widths are small, so it takes no product
/// by one, and squares nothing that is not used.
fn positive_power<EF: Field>(base: EF, n: usize) -> EF
    requires { 0 < n }
    ensures { result ≡ power EF.ring base n }
{
    let mut product = base;
    let mut square = base;
    let mut left = n - 1;
    while left > 1 {
        if left % 2 == 1 {
            product = product * square;
        }
        square = square * square;
        left /= 2;
    }
    if left == 1 { product * square } else { product }
}

/// The challenges of a batch: one pair `(alpha, beta)` and, for each bus id, the prefix of its
/// denominators.
///
/// The denominator of a message on bus `i` is `bus_prefix[i]` minus its combined tuple. Here
/// `bus_prefix[i] = alpha + (i + 1) * beta^W`, where `W` is at least the width of each tuple: one
/// power above every element of a tuple.
#[derive(Drop)]
pub struct Challenges<EF> {
    /// The randomness that all buses share.
    pub alpha: EF,
    /// The randomness whose powers weight the elements of a tuple.
    pub beta: EF,
    /// The prefix of each bus id.
    pub bus_prefix: BoxedSlice<EF>,
}

impl<EF: Field> Challenges<EF> {
    /// The table of `num_bus_ids` prefixes for tuples of at most `max_message_width` elements.
    ///
    /// Few betas let messages collide: [`few_collisions`](crate::few_collisions).
    ///
    /// Fails only when out of memory.
    pub fn new(
        alloc: Global,
        alpha: EF,
        beta: EF,
        max_message_width: usize,
        num_bus_ids: usize,
    ) -> Result<Self, AllocError>
        requires { 0 < max_message_width }
        ensures alpha { IfOk result (λ c. c.alpha ≡ alpha) }
        ensures beta { IfOk result (λ c. c.beta ≡ beta) }
        ensures prefixes { IfOk result
            (λ c. boxed_slice_items c.bus_prefix
            ≡ map (prefix_of_bus EF.ring alpha beta max_message_width)
            (range_with_len 0 num_bus_ids)) }
        ensures points { IfOk result (λ c. HasPoints EF.ring max_message_width alpha beta
            num_bus_ids (table_of c)) }
    {
        let gamma = positive_power(beta, max_message_width);
        let mut prefixes = Vec::with_capacity(alloc, num_bus_ids)?;
        let mut prefix = alpha;
        for _ in 0..num_bus_ids {
            prefix = prefix + gamma;
            prefixes.push(prefix)?;
        }
        Ok(Challenges {
            alpha,
            beta,
            bus_prefix: prefixes.into_boxed_slice(),
        })
    }

    /// The challenges of the columns of one AIR whose lookups have these bus ids, in order: for
    /// each id its prefix and then `beta`. [`for_ids`](Challenges::for_ids) makes them without a table.
    ///
    /// Fails only when out of memory.
    pub fn for_columns(&self, alloc: Global, ids: &[usize]) -> Result<Vec<EF>, AllocError>
        requires { All (λ id. id < length (boxed_slice_items self.now.bus_prefix)) ids.now }
        ensures challenges { IfOk result (λ v. v.items
            ≡ column_challenges (table_of self.now) ids.now) }
        ensures len { IfOk result (λ v. length v.items ≡ 2 * length ids.now) }
    {
        let mut challenges = Vec::new(alloc);
        for id in ids {
            challenges.push(self.bus_prefix[*id])?;
            challenges.push(self.beta)?;
        }
        Ok(challenges)
    }

    /// The challenges that [`new`](Challenges::new) and then [`for_columns`](Challenges::for_columns) give for
    /// these bus ids. Only their prefixes are made, so memory and time do not depend on how great the ids are.
    ///
    /// Fails only when out of memory.
    pub fn for_ids(
        alloc: Global,
        alpha: EF,
        beta: EF,
        max_message_width: usize,
        ids: &[usize],
    ) -> Result<Vec<EF>, AllocError>
        requires { 0 < max_message_width }
        ensures challenges { IfOk result (λ v. v.items
            ≡ column_challenges (bus_table EF.ring max_message_width beta alpha) ids.now) }
        ensures len { IfOk result (λ v. length v.items ≡ 2 * length ids.now) }
    {
        let step = positive_power(beta, max_message_width);
        let mut challenges = Vec::new(alloc);
        for id in ids {
            challenges.push(alpha + (EF::from_u64(*id as u64) * step + step))?;
            challenges.push(beta)?;
        }
        Ok(challenges)
    }
}
