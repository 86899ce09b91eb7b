//! Reading lookups from a format, as JSON.
ghost use Rattle.std.specs.Prelude.{◌≡◌, IfOk, Some};

use crate::types::{Kind, Lookup};
use air_expressions::SymbolicExpression;
use serde::{Deserialize, DeserializeOwned, Deserializer, Format, Name};
use std::alloc::Global;

/// A local kind is read by its name alone, a global one as a map with one member, its bus.
impl DeserializeOwned for Kind {
    fn deserialize_owned<R: Format>(
        alloc: Global,
        from: &mut Deserializer<'_, '_, R>,
    ) -> Result<Kind, R::Error> {
        if let serde::Kind::Str = from.peek()? {
            return match from.variant(&[Name::exact("Local")])? {
                0 => Ok(Kind::Local),
                _ => Err(from.unknown_variant()),
            };
        }
        from.begin_map()?;
        let bus = match from.next_key(&[Name::exact("Global")])? {
            Some(0) => from.string(alloc)?,
            Some(_) => return Err(from.unknown_variant()),
            None => return Err(from.invalid()),
        };
        match from.next_key(&[])? {
            Some(_) => Err(from.invalid()),
            None => Ok(Kind::Global(bus)),
        }
    }
}

/// Reads as `DeserializeOwned` does.
impl<'de> Deserialize<'de> for Kind {
    fn deserialize<R: Format>(
        alloc: Global,
        from: &mut Deserializer<'de, '_, R>,
    ) -> Result<Kind, R::Error> {
        Kind::deserialize_owned(alloc, from)
    }
}

/// The members of a lookup that have been read so far.
#[derive(Drop)]
struct Members<F> {
    kind: Option<Kind>,
    elements: Option<Vec<Vec<SymbolicExpression<F>>>>,
    multiplicities: Option<Vec<SymbolicExpression<F>>>,
    count_weight: Option<u64>,
    column: Option<usize>,
    flags: Option<Option<Vec<SymbolicExpression<F>>>>,
}

impl<F: DeserializeOwned> Members<F> {
    fn new() -> Self {
        Members {
            kind: None,
            elements: None,
            multiplicities: None,
            count_weight: None,
            column: None,
            flags: None,
        }
    }

    /// Reads the member with this index.
    fn read<R: Format>(
        &mut self,
        alloc: Global,
        at: usize,
        from: &mut Deserializer<'_, '_, R>,
    ) -> Result<(), R::Error> {
        match at {
            0 => fill(alloc, "kind", &mut self.kind, from),
            1 => fill(alloc, "elements", &mut self.elements, from),
            2 => fill(alloc, "multiplicities", &mut self.multiplicities, from),
            3 => fill(alloc, "count_weight", &mut self.count_weight, from),
            4 => fill(alloc, "column", &mut self.column, from),
            5 => fill(alloc, "flags", &mut self.flags, from),
            _ => from.skip(),
        }
    }

    /// The lookup with these members.
    fn into_lookup<R: Format>(self, from: &Deserializer<'_, '_, R>) -> Result<Lookup<F>, R::Error>
        ensures { IfOk result (λ lookup. (self.kind ≡ Some lookup.kind)
            × (self.elements ≡ Some lookup.elements)
            × (self.multiplicities ≡ Some lookup.multiplicities)
            × (self.count_weight ≡ Some lookup.count_weight)
            × (self.column ≡ Some lookup.column)) }
    {
        Ok(Lookup {
            kind: present("kind", self.kind, from)?,
            elements: present("elements", self.elements, from)?,
            multiplicities: present("multiplicities", self.multiplicities, from)?,
            count_weight: present("count_weight", self.count_weight, from)?,
            column: present("column", self.column, from)?,
            flags: self.flags.flatten(),
        })
    }
}

/// Reads the value of a member into its place, which must be empty.
fn fill<T: DeserializeOwned, R: Format>(
    alloc: Global,
    name: &str,
    member: &mut Option<T>,
    from: &mut Deserializer<'_, '_, R>,
) -> Result<(), R::Error> {
    if member.is_some() {
        return Err(from.duplicate(name));
    }
    *member = Some(T::deserialize_owned(alloc, from)?);
    Ok(())
}

/// A member that must be there.
fn present<T: Drop, R: Format>(
    name: &str,
    member: Option<T>,
    from: &Deserializer<'_, '_, R>,
) -> Result<T, R::Error>
    ensures { IfOk result (λ value. member ≡ Some value) }
{
    match member {
        Some(value) => Ok(value),
        None => Err(from.missing(name)),
    }
}

/// A lookup is a map of its members. Missing and duplicate members are refused, except that `flags`
/// may be missing if there are none. Members with other names are ignored.
impl<F: DeserializeOwned> DeserializeOwned for Lookup<F> {
    fn deserialize_owned<R: Format>(
        alloc: Global,
        from: &mut Deserializer<'_, '_, R>,
    ) -> Result<Lookup<F>, R::Error> {
        let names = [
            Name::exact("kind"),
            Name::exact("elements"),
            Name::exact("multiplicities"),
            Name::exact("count_weight"),
            Name::exact("column"),
            Name::exact("flags"),
        ];
        let mut members = Members::new();
        from.begin_map()?;
        for _ in 0..u64::MAX {
            match from.next_key(&names)? {
                Some(at) => members.read(alloc, at, from)?,
                None => break,
            }
        }
        members.into_lookup(from)
    }
}

/// Reads as `DeserializeOwned` does.
impl<'de, F: DeserializeOwned> Deserialize<'de> for Lookup<F> {
    fn deserialize<R: Format>(
        alloc: Global,
        from: &mut Deserializer<'de, '_, R>,
    ) -> Result<Lookup<F>, R::Error> {
        Lookup::deserialize_owned(alloc, from)
    }
}
