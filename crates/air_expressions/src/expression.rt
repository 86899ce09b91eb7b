//! What field elements and expression trees have in common: both are built up from constants.
ghost use Rattle.std.specs.Prelude.{◌≡◌, ℕ, ℤ, ◌+◌, max, IfOk, refl};
ghost use Rattle.field.specs.Ring.{of_int, sub_in};
ghost use Rattle.air_expressions.specs.declared.layout.AirLayout.{AirLayout};

use field::Field;
use std::alloc::{AllocError, Global};

/// A type that whole numbers convert to: field elements and expressions.
///
/// It is separate from [`Expression`], which takes its field as a parameter: here no field is
/// named.
pub trait WholeNumbers: Sized {
    ghost is_whole: { ℤ → Self → Type 0 };

    /// `n` times one. For a negative number: the negative of `-n` times one.
    fn whole(n: i32) -> Self
        ensures { is_whole n result };
}

/// A whole number in a field is that many times one.
impl<F: Field> WholeNumbers for F {
    ghost is_whole = { λ n x. x ≡ of_int F.ring n };

    fn whole(n: i32) -> F {
        F::from_i32(n)
    }
}

/// A value that constraints are built from: an element of the field `F`, or an expression tree
/// with constants in `F`.
///
/// Contracts see two things of it: its value at each `Seen`, which is the window for a tree and
/// nothing for an element, and its degree if the transition selector has degree `t`. They also know
/// copies (`same`) and products (`is_product`) by their nodes, and whether all variables of a tree
/// are `within` a layout; elements have none.
pub trait Expression<F: Field>: Drop + WholeNumbers {
    /// What values of the type are evaluated at.
    type Seen;

    ghost value: { Self → Self.Seen → F };

    ghost degree: { Self → ℕ → ℕ };

    ghost same: { Self → Self → Type 0 };

    ghost is_product: { Self → Self → Self → Type 0 };

    ghost within: { AirLayout → Self → Type 0 };

    /// The expression whose value is `x` everywhere.
    fn constant(x: F) -> Self
        ensures means { (w : Self.Seen) → value result w ≡ x }
        ensures degree { (t : ℕ) → degree result t ≡ 0 }
        ensures within { (l : AirLayout) → within l result };

    /// The sum `self + other`. Fails only when out of memory.
    fn add(self, alloc: Global, other: Self) -> Result<Self, AllocError>
        ensures means { IfOk result (λ r. (w : Self.Seen)
            → value r w ≡ F.ring.add (value self w) (value other w)) }
        ensures degree { IfOk result (λ r. (t : ℕ)
            → degree r t ≡ max (degree self t) (degree other t)) }
        ensures within { IfOk result (λ r. (l : AirLayout) → within l self → within l other
            → within l r) };

    /// The difference `self - other`. Fails only when out of memory.
    fn sub(self, alloc: Global, other: Self) -> Result<Self, AllocError>
        ensures means { IfOk result (λ r. (w : Self.Seen)
            → value r w ≡ sub_in F.ring (value self w) (value other w)) }
        ensures degree { IfOk result (λ r. (t : ℕ)
            → degree r t ≡ max (degree self t) (degree other t)) }
        ensures within { IfOk result (λ r. (l : AirLayout) → within l self → within l other
            → within l r) };

    /// The product `self * other`. Fails only when out of memory.
    fn mul(self, alloc: Global, other: Self) -> Result<Self, AllocError>
        ensures means { IfOk result (λ r. (w : Self.Seen)
            → value r w ≡ F.ring.mul (value self w) (value other w)) }
        ensures degree { IfOk result (λ r. (t : ℕ) → degree r t ≡ degree self t + degree other t) }
        ensures node { IfOk result (λ r. is_product self other r) }
        ensures within { IfOk result (λ r. (l : AirLayout) → within l self → within l other
            → within l r) };

    /// The negation `-self`. Fails only when out of memory.
    fn neg(self, alloc: Global) -> Result<Self, AllocError>
        ensures means { IfOk result (λ r. (w : Self.Seen) → value r w ≡ F.ring.neg (value self w)) }
        ensures degree { IfOk result (λ r. (t : ℕ) → degree r t ≡ degree self t) }
        ensures within { IfOk result (λ r. (l : AirLayout) → within l self → within l r) };

    /// A deep copy. Fails only when out of memory.
    fn copy(&self, alloc: Global) -> Result<Self, AllocError>
        ensures means { IfOk result (λ r. (w : Self.Seen) → value r w ≡ value self.now w) }
        ensures degree { IfOk result (λ r. (t : ℕ) → degree r t ≡ degree self.now t) }
        ensures same { IfOk result (λ r. same self.now r) }
        ensures within { IfOk result (λ r. (l : AirLayout) → within l self.now → within l r) };

    ghost whole_value: { (n : ℤ) (x : Self) (w : Self.Seen) → Self.is_whole n x
        → value x w ≡ of_int F.ring n };

    ghost whole_degree: { (n : ℤ) (x : Self) (t : ℕ) → Self.is_whole n x → degree x t ≡ 0 };

    ghost whole_within: { (n : ℤ) (x : Self) (l : AirLayout) → Self.is_whole n x → within l x };
}

/// Elements of a field are their own values and have degree 0. No call fails.
impl<F: Field> Expression<F> for F {
    type Seen = ();

    ghost value = { λ x _. x };

    ghost degree = { λ _ _. 0 };

    ghost same = { λ x y. y ≡ x };

    ghost is_product = { λ x y r. r ≡ F.ring.mul x y };

    ghost within = { λ _ _. Unit {0} };

    fn constant(x: F) -> F {
        x
    }

    fn add(self, _alloc: Global, other: F) -> Result<F, AllocError>
        ensures { result ≡ Ok (F.ring.add self other) }
    {
        Ok(self + other)
    }

    fn sub(self, _alloc: Global, other: F) -> Result<F, AllocError>
        ensures { result ≡ Ok (sub_in F.ring self other) }
    {
        Ok(self - other)
    }

    fn mul(self, _alloc: Global, other: F) -> Result<F, AllocError>
        ensures { result ≡ Ok (F.ring.mul self other) }
    {
        Ok(self * other)
    }

    fn neg(self, _alloc: Global) -> Result<F, AllocError>
        ensures { result ≡ Ok (F.ring.neg self) }
    {
        Ok(-self)
    }

    fn copy(&self, _alloc: Global) -> Result<F, AllocError>
        ensures { result ≡ Ok self.now }
    {
        Ok(*self)
    }

    ghost whole_value = { λ n x w h. h };

    ghost whole_degree = { λ n x t h. refl };

    ghost whole_within = { λ n x l h. tt };
}

/// Both operands of a node, each in a box.
pub(crate) fn boxed_pair<E: Drop>(
    alloc: Global,
    left: E,
    right: E,
) -> Result<(Box<E>, Box<E>), AllocError>
    ensures left { IfOk result (λ boxes. boxes.0.value ≡ left) }
    ensures right { IfOk result (λ boxes. boxes.1.value ≡ right) }
{
    let left = Box::new(alloc, left)?;
    let right = Box::new(alloc, right)?;
    Ok((left, right))
}

/// Both values. Without the second one, the first is dropped.
pub(crate) fn both<E: Drop>(first: E, second: Result<E, AllocError>) -> Result<(E, E), AllocError>
    ensures first { IfOk result (λ two. two.0 ≡ first) }
    ensures second { IfOk result (λ two. second ≡ Ok two.1) }
{
    match second {
        Ok(second) => Ok((first, second)),
        Err(error) => Err(error),
    }
}
