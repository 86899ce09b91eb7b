//! Lists of rows.
ghost use Rattle.std.specs.Prelude.{◌≡◌, ◌-◌, ◌<◌, ◌≤◌, ℕ, All, IfOk, length};
ghost use Rattle.std.specs.List.{range_with_len};
ghost use Rattle.lookup_columns.specs.internal.ChunkColumns.{AreSelected, selected_rows};

use crate::spare::SpareLists;
use field::{Domain, Field};
use std::alloc::{AllocError, Global};

/// The indices of the rows from `first` up to `end`. Fails only when out of memory.
pub fn rows_between(
    alloc: Global,
    spare: &mut SpareLists<usize>,
    first: usize,
    end: usize,
) -> Result<Vec<usize>, AllocError>
    requires { first ≤ end }
    ensures { IfOk result (λ v. v.items ≡ range_with_len first (end - first)) }
{
    let mut rows = spare.take(alloc, end - first)?;
    for row in first..end {
        rows.push(row)?;
    }
    Ok(rows)
}

/// Selects the rows whose flag is not zero. Returns, at the index of each of them, its index among the
/// selected rows, and then the selected rows. What stands at the index of another row has no meaning.
///
/// Each row is stored, and kept if its flag is not zero, so that no branch depends on a flag. Both lists
/// have their length before that, so that nothing is appended.
#[inline(never)]
pub(crate) fn selected_rows<F: Field>(
    alloc: Global,
    spare: &mut SpareLists<usize>,
    flags: &[F],
    rows: &[usize],
) -> Result<(Vec<usize>, Vec<usize>), AllocError>
    requires { length flags.now ≡ length rows.now }
    ensures selected { IfOk result (λ v. v.1.items
        ≡ selected_rows F.ring F.eq flags.now rows.now) }
    ensures indices { IfOk result (λ v. AreSelected F.ring flags.now rows.now v.0.items v.1.items) }
    ensures rows_exist { (n : ℕ) → All (λ r. r < n) rows.now
        → IfOk result (λ v. All (λ r. r < n) v.1.items) }
{
    let mut indices = spare.take(alloc, rows.len())?;
    let mut selected = spare.take(alloc, rows.len())?;
    indices.resize(rows.len(), 0)?;
    selected.resize(rows.len(), 0)?;
    let mut count = 0;
    for i in 0..rows.len() {
        indices[i] = count;
        selected[count] = rows[i];
        if !flags[i].is_zero() {
            count += 1;
        }
    }
    selected.truncate(count);
    Ok((indices, selected))
}
