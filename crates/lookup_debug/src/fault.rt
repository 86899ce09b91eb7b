//! What the debug check finds.
ghost use Rattle.std.specs.Prelude.{◌≡◌, IfOk, OnOk, ◌++◌, codes, string_bytes, map};
ghost use Rattle.std.specs.List.{flat_map, join_by};
ghost use Rattle.lookup_debug.specs.Contributions.{location_of};
ghost use Rattle.lookup_debug.specs.FaultText.{fault_text, location_text};

use field::Field;
use std::alloc::{AllocError, AllocFailed, Global};

/// Where a tuple is sent.
#[derive(Clone, Copy, Debug, PartialEq, Eq)]
pub struct Location {
    /// The index of the AIR in its list.
    pub instance: usize,
    /// The index of the lookup in its AIR.
    pub lookup: usize,
    /// The row.
    pub row: usize,
}

/// Why lookups do not pass the debug check.
#[derive(Debug, Drop)]
pub enum LookupFault<F> {
    /// A tuple that does not balance.
    Mismatch {
        /// `instance I local lookup L`, or `global lookup 'NAME'`.
        label: String,
        /// The texts of its elements.
        tuple: Vec<String>,
        /// How much of it is sent in total.
        net: F,
        /// Where it is sent, in the order instance, lookup, row, tuple. Contributions of zero are left
        /// out.
        locations: Vec<Location>,
    },
    /// Out of memory.
    Memory,
}

impl<F> From<AllocError> for LookupFault<F> {
    ghost use Rattle.lookup_debug.specs.declared.fault.LookupFault.TheVariants.{Memory};

    ghost from_gives = { λ _ fault. fault ≡ Memory };

    fn from(_error: AllocError) -> LookupFault<F> {
        LookupFault::Memory
    }
}

impl<F, T: Drop> From<AllocFailed<T>> for LookupFault<F> {
    ghost use Rattle.lookup_debug.specs.declared.fault.LookupFault.TheVariants.{Memory};

    ghost from_gives = { λ _ fault. fault ≡ Memory };

    fn from(_error: AllocFailed<T>) -> LookupFault<F> {
        LookupFault::Memory
    }
}

impl<F: Field> LookupFault<F> {
    /// The fault as a sentence: `Lookup mismatch (LABEL): tuple [T, T] has net multiplicity N at instance
    /// I lookup L row R`, with further locations after `; `, or `out of memory`.
    ///
    /// Fails only when out of memory.
    pub fn text(&self, alloc: Global) -> Result<String, AllocError>
        ensures { IfOk result (λ line. string_bytes line ≡ fault_text F.text self.now) }
    {
        let LookupFault::Mismatch {
            label,
            tuple,
            net,
            locations,
        } = self
        else {
            return String::from_str(alloc, "out of memory");
        };
        let mut line = String::new(alloc);
        line.push_str("Lookup mismatch (")?;
        line.push_str(label.as_str())?;
        line.push_str("): tuple [")?;
        push_elements(&mut line, tuple.as_slice())?;
        line.push_str("] has net multiplicity ")?;
        line.push_str(net.text(alloc)?.as_str())?;
        line.push_str(" at ")?;
        push_locations(alloc, &mut line, locations.as_slice())?;
        Ok(line)
    }
}

/// Appends the texts of the elements of a tuple, separated by a comma and a space.
fn push_elements(line: &mut String, elements: &[String]) -> Result<(), AllocError>
    ensures { OnOk result (string_bytes line.new ≡ string_bytes line.old
        ++ join_by (λ t. t) (codes ", ") (map (λ t. string_bytes t) elements.now)) }
{
    if let Some((first, rest)) = elements.split_first() {
        line.push_str(first.as_str())?;
        push_further_elements(line, rest)?;
    }
    Ok(())
}

/// Appends further elements, each after a comma and a space.
fn push_further_elements(line: &mut String, elements: &[String]) -> Result<(), AllocError>
    ensures { OnOk result (string_bytes line.new ≡ string_bytes line.old
        ++ flat_map (λ t. codes ", " ++ t) (map (λ t. string_bytes t) elements.now)) }
{
    for element in elements {
        line.push_str(", ")?;
        line.push_str(element.as_str())?;
    }
    Ok(())
}

/// Appends the texts of locations, separated by a semicolon and a space.
fn push_locations(
    alloc: Global,
    line: &mut String,
    locations: &[Location],
) -> Result<(), AllocError>
    ensures { OnOk result (string_bytes line.new ≡ string_bytes line.old
        ++ join_by location_text (codes "; ") (map location_of locations.now)) }
{
    if let Some((first, rest)) = locations.split_first() {
        push_location(alloc, line, first)?;
        push_further_locations(alloc, line, rest)?;
    }
    Ok(())
}

/// Appends further locations, each after a semicolon and a space.
fn push_further_locations(
    alloc: Global,
    line: &mut String,
    locations: &[Location],
) -> Result<(), AllocError>
    ensures { OnOk result (string_bytes line.new ≡ string_bytes line.old
        ++ flat_map (λ p. codes "; " ++ location_text p) (map location_of locations.now)) }
{
    for location in locations {
        line.push_str("; ")?;
        push_location(alloc, line, location)?;
    }
    Ok(())
}

/// Appends the text of a location.
fn push_location(alloc: Global, line: &mut String, location: &Location) -> Result<(), AllocError>
    ensures { OnOk result (string_bytes line.new ≡ string_bytes line.old
        ++ location_text (location_of location.now)) }
{
    let Location {
        instance,
        lookup,
        row,
    } = location;
    line.push_str(format!(in alloc; "instance {instance} lookup {lookup} row {row}")?.as_str())
}
