//! Reading base expressions from a format, as JSON.
//!
//! A variant with data is a map with one member, named for it. A variant without data is its name.
//! A variable is a map of its members. Missing and duplicate members and unknown variants are
//! refused; unknown members are ignored.
ghost use Rattle.std.specs.Prelude.{◌≡◌, ◌≤◌, IfOk};
ghost use Rattle.air_expressions.specs.Depth.{depth_of};
ghost use Rattle.air_expressions.specs.Tree.{tree_of};

use crate::base_expression::{BaseLeaf, SymbolicExpression};
use crate::variable::{BaseEntry, SymbolicVariable};
use serde::{Deserialize, DeserializeOwned, Deserializer, Format, Kind, Name};
use std::alloc::Global;

/// How deep an expression that is read may nest; a leaf has depth 1.
const DEPTH: u32 = 128;

/// The value that was read, after the end of the map that holds a variant's data.
fn after_end<T: Drop, R: Format>(
    from: &mut Deserializer<'_, '_, R>,
    value: T,
) -> Result<T, R::Error>
    ensures { IfOk result (λ v. v ≡ value) }
{
    match from.next_key(&[])? {
        Some(_) => Err(from.invalid()),
        None => Ok(value),
    }
}

/// Reads the one member of an entry with data.
fn read_offset<R: Format>(
    alloc: Global,
    from: &mut Deserializer<'_, '_, R>,
) -> Result<usize, R::Error> {
    let mut offset = None;
    from.begin_map()?;
    for _ in 0..u64::MAX {
        match from.next_key(&[Name::exact("offset")])? {
            Some(0) if offset.is_some() => return Err(from.duplicate("offset")),
            Some(0) => offset = Some(usize::deserialize_owned(alloc, from)?),
            Some(_) => from.skip()?,
            None => break,
        }
    }
    match offset {
        Some(offset) => Ok(offset),
        None => Err(from.missing("offset")),
    }
}

impl DeserializeOwned for BaseEntry {
    fn deserialize_owned<R: Format>(
        alloc: Global,
        from: &mut Deserializer<'_, '_, R>,
    ) -> Result<BaseEntry, R::Error> {
        if let Kind::Str = from.peek()? {
            return match from.variant(&[Name::exact("Public")])? {
                0 => Ok(BaseEntry::Public),
                _ => Err(from.unknown_variant()),
            };
        }
        from.begin_map()?;
        let entry = match from.next_key(&[Name::exact("Preprocessed"), Name::exact("Main")])? {
            Some(0) => BaseEntry::Preprocessed {
                offset: read_offset(alloc, from)?,
            },
            Some(1) => BaseEntry::Main {
                offset: read_offset(alloc, from)?,
            },
            Some(_) => return Err(from.unknown_variant()),
            None => return Err(from.invalid()),
        };
        after_end(from, entry)
    }
}

impl<F> DeserializeOwned for SymbolicVariable<F> {
    fn deserialize_owned<R: Format>(
        alloc: Global,
        from: &mut Deserializer<'_, '_, R>,
    ) -> Result<SymbolicVariable<F>, R::Error> {
        let (mut entry, mut index) = (None, None);
        from.begin_map()?;
        for _ in 0..u64::MAX {
            match from.next_key(&[Name::exact("entry"), Name::exact("index")])? {
                Some(0) if entry.is_some() => return Err(from.duplicate("entry")),
                Some(0) => entry = Some(BaseEntry::deserialize_owned(alloc, from)?),
                Some(1) if index.is_some() => return Err(from.duplicate("index")),
                Some(1) => index = Some(usize::deserialize_owned(alloc, from)?),
                Some(_) => from.skip()?,
                None => break,
            }
        }
        match (entry, index) {
            (Some(entry), Some(index)) => Ok(SymbolicVariable::new(entry, index)),
            (None, _) => Err(from.missing("entry")),
            (_, None) => Err(from.missing("index")),
        }
    }
}

impl<F: DeserializeOwned> DeserializeOwned for BaseLeaf<F> {
    fn deserialize_owned<R: Format>(
        alloc: Global,
        from: &mut Deserializer<'_, '_, R>,
    ) -> Result<BaseLeaf<F>, R::Error> {
        if let Kind::Str = from.peek()? {
            let names = [
                Name::exact("IsFirstRow"),
                Name::exact("IsLastRow"),
                Name::exact("IsTransition"),
            ];
            return match from.variant(&names)? {
                0 => Ok(BaseLeaf::IsFirstRow),
                1 => Ok(BaseLeaf::IsLastRow),
                2 => Ok(BaseLeaf::IsTransition),
                _ => Err(from.unknown_variant()),
            };
        }
        from.begin_map()?;
        let leaf = match from.next_key(&[Name::exact("Variable"), Name::exact("Constant")])? {
            Some(0) => BaseLeaf::Variable(SymbolicVariable::deserialize_owned(alloc, from)?),
            Some(1) => BaseLeaf::Constant(F::deserialize_owned(alloc, from)?),
            Some(_) => return Err(from.unknown_variant()),
            None => return Err(from.invalid()),
        };
        after_end(from, leaf)
    }
}

/// Reads an expression that nests at most `depth` deep.
#[cycle(reader)]
fn read_expression<F: DeserializeOwned, R: Format>(
    alloc: Global,
    depth: u32,
    from: &mut Deserializer<'_, '_, R>,
) -> Result<SymbolicExpression<F>, R::Error>
    ensures { IfOk result (λ e. depth_of (tree_of e) ≤ depth) }
{
    if depth == 0 {
        return Err(from.custom("nests too deep"));
    }
    let names = [
        Name::exact("Leaf"),
        Name::exact("Add"),
        Name::exact("Sub"),
        Name::exact("Mul"),
        Name::exact("Neg"),
    ];
    from.begin_map()?;
    let expression = match from.next_key(&names)? {
        Some(0) => SymbolicExpression::Leaf(BaseLeaf::deserialize_owned(alloc, from)?),
        Some(1) => {
            let (left, right) = read_two(alloc, depth - 1, from)?;
            SymbolicExpression::Add(left, right)
        }
        Some(2) => {
            let (left, right) = read_two(alloc, depth - 1, from)?;
            SymbolicExpression::Sub(left, right)
        }
        Some(3) => {
            let (left, right) = read_two(alloc, depth - 1, from)?;
            SymbolicExpression::Mul(left, right)
        }
        Some(4) => SymbolicExpression::Neg(read_boxed(alloc, depth - 1, from)?),
        Some(_) => return Err(from.unknown_variant()),
        None => return Err(from.invalid()),
    };
    after_end(from, expression)
}

/// The value in a box.
fn boxed<T: Drop, R: Format>(
    alloc: Global,
    value: T,
    from: &mut Deserializer<'_, '_, R>,
) -> Result<Box<T>, R::Error>
    ensures { IfOk result (λ b. b.value ≡ value) }
{
    match Box::new(alloc, value) {
        Ok(boxed) => Ok(boxed),
        Err(_) => Err(from.no_memory()),
    }
}

/// As `read_expression`, in a box.
#[cycle(reader)]
fn read_boxed<F: DeserializeOwned, R: Format>(
    alloc: Global,
    depth: u32,
    from: &mut Deserializer<'_, '_, R>,
) -> Result<Box<SymbolicExpression<F>>, R::Error>
    ensures { IfOk result (λ e. depth_of (tree_of e.value) ≤ depth) }
{
    let expression = read_expression(alloc, depth, from)?;
    boxed(alloc, expression, from)
}

/// Reads the list of two operands.
#[cycle(reader)]
fn read_two<F: DeserializeOwned, R: Format>(
    alloc: Global,
    depth: u32,
    from: &mut Deserializer<'_, '_, R>,
) -> Result<(Box<SymbolicExpression<F>>, Box<SymbolicExpression<F>>), R::Error>
    ensures left { IfOk result (λ two. depth_of (tree_of two.0.value) ≤ depth) }
    ensures right { IfOk result (λ two. depth_of (tree_of two.1.value) ≤ depth) }
{
    from.begin_seq()?;
    from.expect_item()?;
    let left = read_boxed(alloc, depth, from)?;
    from.expect_item()?;
    let right = read_boxed(alloc, depth, from)?;
    from.expect_end()?;
    Ok((left, right))
}

/// An expression nests at most 128 deep, where a leaf has depth 1; deeper ones are refused. A
/// format's own limit on nesting also holds: that of `serde_json`, 127 maps and lists, is reached
/// first.
impl<F: DeserializeOwned> DeserializeOwned for SymbolicExpression<F> {
    fn deserialize_owned<R: Format>(
        alloc: Global,
        from: &mut Deserializer<'_, '_, R>,
    ) -> Result<SymbolicExpression<F>, R::Error>
        ensures { IfOk result (λ e. depth_of (tree_of e) ≤ 128) }
    {
        read_expression(alloc, DEPTH, from)
    }
}

/// Reads as `DeserializeOwned` does.
impl<'de, F: DeserializeOwned> Deserialize<'de> for SymbolicExpression<F> {
    fn deserialize<R: Format>(
        alloc: Global,
        from: &mut Deserializer<'de, '_, R>,
    ) -> Result<SymbolicExpression<F>, R::Error>
        ensures { IfOk result (λ e. depth_of (tree_of e) ≤ 128) }
    {
        SymbolicExpression::deserialize_owned(alloc, from)
    }
}
