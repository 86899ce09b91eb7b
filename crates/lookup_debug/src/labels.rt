//! The labels of what is checked by itself.
ghost use Rattle.std.specs.Prelude.{◌≡◌, IfOk, string_bytes};
ghost use Rattle.lookup_debug.specs.Groups.{bus_label, local_label};

use std::alloc::{AllocError, Global};

/// `instance I local lookup L`.
pub(crate) fn label_of_local(
    alloc: Global,
    instance: usize,
    lookup: usize,
) -> Result<String, AllocError>
    ensures { IfOk result (λ label. string_bytes label ≡ local_label instance lookup) }
{
    format!(in alloc; "instance {instance} local lookup {lookup}")
}

/// `global lookup 'NAME'`.
pub(crate) fn label_of_bus(alloc: Global, name: &str) -> Result<String, AllocError>
    ensures { IfOk result (λ label. string_bytes label ≡ bus_label name.now) }
{
    format!(in alloc; "global lookup '{name}'")
}
