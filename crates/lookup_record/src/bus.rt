//! The buses of AIRs: between queries and a table, and between senders and receivers.
ghost use Rattle.std.specs.Prelude.{◌≡◌, All, IfOk, MatchResult, OnOk, map};
ghost use Rattle.lookup_record.specs.Messages.{IsExclusiveQuery, IsNegatedMessage, IsUnitQuery, PushesOne, flag_and_fields, flag_and_key};
ghost use Rattle.lookup_record.specs.Pushed.{pushed_branch, pushed_global};
ghost use Rattle.lookup_record.specs.Within.{KeyWithin};
ghost use Rattle.air_expressions.specs.declared.layout.AirLayout.{AirLayout};

use crate::builder::InteractionBuilder;
use crate::count::Count;
use air::{AirError, Expression};
use field::{Field, PrimeCharacteristicRing};
use std::alloc::{AllocError, Global};
use std::marker::Model;

/// A bus between queries and a table: if all messages cancel, every query is an entry of the table.
#[derive(Clone, Debug, Drop)]
pub struct LookupBus<'a> {
    name: &'a str,
}

impl<'a> Model for LookupBus<'a> {
    ghost use Rattle.std.specs.Prelude.{ℕ, List};

    ghost Value = { List ℕ };

    ghost view = { λ b. b.name.now };
}

impl<'a> LookupBus<'a> {
    /// The bus of this name.
    pub fn new(name: &'a str) -> Self
        ensures { result ≡ name.now }
    {
        LookupBus { name }
    }

    /// The name of the bus.
    pub fn name(&self) -> &str
        ensures { result.now ≡ self.now }
    {
        self.name
    }

    /// Queries `key` in the table, `count` times on each row.
    ///
    /// Fails as the builder does.
    pub fn lookup_key<AB: InteractionBuilder>(
        &self,
        alloc: Global,
        builder: &mut AB,
        key: Vec<AB::Expr>,
        count: Count<AB::Expr>,
    ) -> Result<(), AirError>
        ensures pushed { MatchResult result
            (λ _. AB.pushes builder.old (pushed_global self.now key.items count) builder.new)
            (λ e. AB.refuses_push builder.old (pushed_global self.now key.items count) e
            builder.new) }
        ensures within { OnOk result (All (AB.Expr.within (AB.layout builder.old)) key.items
            → AB.Expr.within (AB.layout builder.old) count.expression → AB.pushed_within builder.old
            → AB.pushed_within builder.new) }
        ensures layout { OnOk result (AB.layout builder.new ≡ AB.layout builder.old) }
    {
        builder.push_interaction(alloc, self.name, key, count)
    }

    /// Provides `key` as an entry of the table, used `num_lookups` times on each row. Its count is
    /// `-num_lookups`, with weight 0.
    ///
    /// Fails as the builder does, or when out of memory with nothing pushed.
    pub fn table_entry<AB: InteractionBuilder>(
        &self,
        alloc: Global,
        builder: &mut AB,
        key: Vec<AB::Expr>,
        num_lookups: AB::Expr,
    ) -> Result<(), AirError>
        ensures pushed { PushesOne AB.pushes AB.refuses_push
            (IsNegatedMessage AB.F.ring.neg AB.Expr.value AB.Expr.degree self.now key.items
            num_lookups 0)
            builder.old result builder.new }
        ensures within { OnOk result (All (AB.Expr.within (AB.layout builder.old)) key.items
            → AB.Expr.within (AB.layout builder.old) num_lookups → AB.pushed_within builder.old
            → AB.pushed_within builder.new) }
        ensures layout { OnOk result (AB.layout builder.new ≡ AB.layout builder.old) }
    {
        let taken = num_lookups.neg(alloc)?;
        builder.push_interaction(alloc, self.name, key, Count::provided(taken))
    }

    /// Queries one of several keys: each row queries, once, the key whose flag is set, or none.
    /// Each branch is a flag with its key.
    ///
    /// The AIR must enforce that each flag is 0 or 1 and that at most one is set on each row. Fails
    /// as the builder does, or when out of memory with nothing pushed.
    pub fn lookup_key_exclusive<AB: InteractionBuilder>(
        &self,
        alloc: Global,
        builder: &mut AB,
        branches: Vec<(AB::Expr, Vec<AB::Expr>)>,
    ) -> Result<(), AirError>
        ensures pushed { PushesOne AB.pushes AB.refuses_push
            (IsExclusiveQuery AB.F.ring.one AB.Expr.value AB.Expr.degree self.now branches.items)
            builder.old result builder.new }
        ensures within { OnOk result (All (KeyWithin AB.Expr.within (AB.layout builder.old))
            branches.items
            → AB.pushed_within builder.old → AB.pushed_within builder.new) }
        ensures layout { OnOk result (AB.layout builder.new ≡ AB.layout builder.old) }
    {
        let queries = unit_queries::<AB::F, AB::Expr>(alloc, branches)?;
        builder.push_exclusive_interaction(alloc, self.name, queries)
    }
}

/// A bus between senders and receivers: if all messages cancel, what is sent is what is received.
#[derive(Clone, Debug, Drop)]
pub struct PermutationCheckBus<'a> {
    name: &'a str,
}

impl<'a> Model for PermutationCheckBus<'a> {
    ghost use Rattle.std.specs.Prelude.{ℕ, List};

    ghost Value = { List ℕ };

    ghost view = { λ b. b.name.now };
}

impl<'a> PermutationCheckBus<'a> {
    /// The bus of this name.
    pub fn new(name: &'a str) -> Self
        ensures { result ≡ name.now }
    {
        PermutationCheckBus { name }
    }

    /// The name of the bus.
    pub fn name(&self) -> &str
        ensures { result.now ≡ self.now }
    {
        let PermutationCheckBus { name } = self;
        name
    }

    /// Sends the message `fields`, `count` times on each row.
    ///
    /// Fails as the builder does.
    pub fn send<AB: InteractionBuilder>(
        &self,
        alloc: Global,
        builder: &mut AB,
        fields: Vec<AB::Expr>,
        count: Count<AB::Expr>,
    ) -> Result<(), AirError>
        ensures pushed { MatchResult result
            (λ _. AB.pushes builder.old (pushed_global self.now fields.items count) builder.new)
            (λ e. AB.refuses_push builder.old (pushed_global self.now fields.items count) e
            builder.new) }
        ensures within { OnOk result (All (AB.Expr.within (AB.layout builder.old)) fields.items
            → AB.Expr.within (AB.layout builder.old) count.expression → AB.pushed_within builder.old
            → AB.pushed_within builder.new) }
        ensures layout { OnOk result (AB.layout builder.new ≡ AB.layout builder.old) }
    {
        builder.push_interaction(alloc, self.name, fields, count)
    }

    /// Receives the message `fields`, `count` times on each row. It is pushed with the negated
    /// count, of the same weight.
    ///
    /// Fails as the builder does, or when out of memory with nothing pushed.
    pub fn receive<AB: InteractionBuilder>(
        &self,
        alloc: Global,
        builder: &mut AB,
        fields: Vec<AB::Expr>,
        count: Count<AB::Expr>,
    ) -> Result<(), AirError>
        ensures pushed { PushesOne AB.pushes AB.refuses_push
            (IsNegatedMessage AB.F.ring.neg AB.Expr.value AB.Expr.degree self.now fields.items
            count.expression count.weight)
            builder.old result builder.new }
        ensures within { OnOk result (All (AB.Expr.within (AB.layout builder.old)) fields.items
            → AB.Expr.within (AB.layout builder.old) count.expression → AB.pushed_within builder.old
            → AB.pushed_within builder.new) }
        ensures layout { OnOk result (AB.layout builder.new ≡ AB.layout builder.old) }
    {
        let received = count.negate(alloc)?;
        builder.push_interaction(alloc, self.name, fields, received)
    }
}

/// Each branch with the count 1.
fn unit_queries<F: Field, E: Expression<F>>(
    alloc: Global,
    branches: Vec<(E, Vec<E>)>,
) -> Result<Vec<(E, Count<E>, Vec<E>)>, AllocError>
    ensures flags_and_fields { IfOk result (λ v. map flag_and_fields (map pushed_branch v.items)
        ≡ map flag_and_key branches.items) }
    ensures queries { IfOk result (λ v. All (IsUnitQuery F.ring.one E.value E.degree)
        (map pushed_branch v.items)) }
    ensures counts { IfOk result (λ v. (l : AirLayout)
        → All (λ b. E.within l b.count) (map pushed_branch v.items)) }
{
    let mut queries = Vec::new(alloc);
    for (flag, key) in branches {
        queries.push(unit_query::<F, E>(flag, key))?;
    }
    Ok(queries)
}

/// The branch with this flag, this key and the count 1.
fn unit_query<F: Field, E: Expression<F>>(flag: E, key: Vec<E>) -> (E, Count<E>, Vec<E>)
    ensures flag_and_fields { flag_and_fields (pushed_branch result) ≡ (flag, key.items) }
    ensures query { IsUnitQuery F.ring.one E.value E.degree (pushed_branch result) }
    ensures count { (l : AirLayout) → E.within l (pushed_branch result).count }
{
    let one = E::constant(F::ONE);
    (flag, Count::bounded(one, 1), key)
}
