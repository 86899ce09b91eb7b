//! The inputs of the calls.
ghost use Rattle.std.specs.Prelude.{◌≡◌};
ghost use Rattle.gate_memory_builders.specs.Layout.{swept_layout};

use crate::show::{Out, input};
use air::{
    AirLayout, BaseEntry, BaseLeaf, ExtLeaf, SymbolicExpression, SymbolicExpressionExt,
    SymbolicVariable,
};
use field::{F7, PrimeCharacteristicRing};
use lookup::{Challenges, InteractionSymbolicBuilder, Lookup};
use matrix::RowMajorMatrix;
use serde::Deserialize;
use std::alloc::{AllocError, Global};

/// A local lookup that reads cell 0 and provides cell 1, cell 2 times; the same by two lookups on a bus; and
/// a group on that bus with the flag of cell 2, whose count is 0.
pub const LOOKUPS: &str =
    r#"[{"kind":"Local","elements":[[{"Leaf":{"Variable":{"entry":{"Main":{"offset":0}},"index":0}}}],[{"Leaf":{"Variable":{"entry":{"Main":{"offset":0}},"index":1}}}]],"multiplicities":[{"Leaf":{"Constant":1}},{"Neg":{"Leaf":{"Variable":{"entry":{"Main":{"offset":0}},"index":2}}}}],"count_weight":1,"column":0,"flags":null},{"kind":{"Global":"keys"},"elements":[[{"Leaf":{"Variable":{"entry":{"Main":{"offset":0}},"index":0}}}]],"multiplicities":[{"Leaf":{"Constant":1}}],"count_weight":1,"column":1,"flags":null},{"kind":{"Global":"keys"},"elements":[[{"Leaf":{"Variable":{"entry":{"Main":{"offset":0}},"index":1}}}]],"multiplicities":[{"Neg":{"Leaf":{"Variable":{"entry":{"Main":{"offset":0}},"index":2}}}}],"count_weight":0,"column":2,"flags":null},{"kind":{"Global":"keys"},"elements":[[{"Leaf":{"Variable":{"entry":{"Main":{"offset":0}},"index":0}}}]],"multiplicities":[{"Leaf":{"Constant":0}}],"count_weight":1,"column":3,"flags":[{"Leaf":{"Variable":{"entry":{"Main":{"offset":0}},"index":2}}}]}]"#;

/// The local one alone.
pub const LOCAL: &str =
    r#"[{"kind":"Local","elements":[[{"Leaf":{"Variable":{"entry":{"Main":{"offset":0}},"index":0}}}],[{"Leaf":{"Variable":{"entry":{"Main":{"offset":0}},"index":1}}}]],"multiplicities":[{"Leaf":{"Constant":1}},{"Neg":{"Leaf":{"Variable":{"entry":{"Main":{"offset":0}},"index":2}}}}],"count_weight":1,"column":0,"flags":null}]"#;

/// Those on the bus alone.
pub const ON_A_BUS: &str =
    r#"[{"kind":{"Global":"keys"},"elements":[[{"Leaf":{"Variable":{"entry":{"Main":{"offset":0}},"index":0}}}]],"multiplicities":[{"Leaf":{"Constant":1}}],"count_weight":1,"column":0,"flags":null},{"kind":{"Global":"keys"},"elements":[[{"Leaf":{"Variable":{"entry":{"Main":{"offset":0}},"index":1}}}]],"multiplicities":[{"Neg":{"Leaf":{"Variable":{"entry":{"Main":{"offset":0}},"index":2}}}}],"count_weight":0,"column":1,"flags":null}]"#;

/// Two on a bus whose tuples have two widths.
pub const UNEVEN: &str =
    r#"[{"kind":{"Global":"keys"},"elements":[[{"Leaf":{"Variable":{"entry":{"Main":{"offset":0}},"index":0}}}]],"multiplicities":[{"Leaf":{"Constant":1}}],"count_weight":1,"column":0,"flags":null},{"kind":{"Global":"keys"},"elements":[[{"Leaf":{"Variable":{"entry":{"Main":{"offset":0}},"index":0}}},{"Leaf":{"Variable":{"entry":{"Main":{"offset":0}},"index":1}}}]],"multiplicities":[{"Leaf":{"Constant":1}}],"count_weight":1,"column":1,"flags":null}]"#;

/// Three lookups on two buses. All tuples on a bus have one width, the two buses have different ones.
pub const ON_TWO_BUSES: &str =
    r#"[{"kind":{"Global":"keys"},"elements":[[{"Leaf":{"Variable":{"entry":{"Main":{"offset":0}},"index":0}}}]],"multiplicities":[{"Leaf":{"Constant":1}}],"count_weight":1,"column":0,"flags":null},{"kind":{"Global":"pairs"},"elements":[[{"Leaf":{"Variable":{"entry":{"Main":{"offset":0}},"index":0}}},{"Leaf":{"Variable":{"entry":{"Main":{"offset":0}},"index":1}}}]],"multiplicities":[{"Leaf":{"Constant":1}}],"count_weight":1,"column":1,"flags":null},{"kind":{"Global":"keys"},"elements":[[{"Leaf":{"Variable":{"entry":{"Main":{"offset":0}},"index":1}}}]],"multiplicities":[{"Leaf":{"Constant":1}}],"count_weight":1,"column":2,"flags":null}]"#;

/// A local lookup whose tuples have two widths.
pub const UNEVEN_LOCAL: &str =
    r#"[{"kind":"Local","elements":[[],[{"Leaf":"IsFirstRow"}]],"multiplicities":[{"Leaf":{"Constant":1}},{"Leaf":{"Constant":1}}],"count_weight":1,"column":0,"flags":null}]"#;

/// The difference of two cells times the negative of a third, and a selector and 1.
pub const TREES: &str =
    r#"[{"Mul":[{"Sub":[{"Leaf":{"Variable":{"entry":{"Main":{"offset":0}},"index":0}}},{"Leaf":{"Variable":{"entry":{"Main":{"offset":0}},"index":1}}}]},{"Neg":{"Leaf":{"Variable":{"entry":{"Main":{"offset":0}},"index":2}}}}]},{"Add":[{"Leaf":"IsFirstRow"},{"Leaf":{"Constant":1}}]}]"#;

/// Two rows that balance.
pub const BALANCED: [u32; 6] = [3, 4, 1, 4, 3, 1];

/// Two rows, of which the second provides a key that neither reads.
pub const UNBALANCED: [u32; 6] = [3, 4, 1, 4, 6, 1];

/// A row whose flag is 2.
pub const UNLAWFUL: [u32; 3] = [3, 4, 2];

/// A row whose key is the alpha 5.
pub const VANISHING: [u32; 3] = [5, 4, 1];

/// The lookups of a text.
pub fn lookups_of(alloc: Global, out: &mut Out, text: &'static str) -> Option<Vec<Lookup<F7>>> {
    read(alloc, out, text)
}

/// The value of a text.
pub fn read<'a, T: Deserialize<'a>>(alloc: Global, out: &mut Out, text: &'a str) -> Option<T> {
    input(out, serde_json::from_str(alloc, text))
}

/// A cell of the current row of the main trace.
pub fn cell<F>(index: usize) -> SymbolicExpression<F> {
    SymbolicExpression::Leaf(BaseLeaf::Variable(SymbolicVariable::new(
        BaseEntry::Main { offset: 0 },
        index,
    )))
}

/// The first cell, as an expression over the extension.
pub fn ext_cell<F>() -> SymbolicExpressionExt<F, F> {
    SymbolicExpressionExt::Leaf(ExtLeaf::Base(cell(0)))
}

/// A list of one value.
pub fn alone<T: Drop>(alloc: Global, value: T) -> Result<Vec<T>, AllocError> {
    let mut values = Vec::new(alloc);
    values.push(value)?;
    Ok(values)
}

/// These numbers as elements.
pub fn elements<F: PrimeCharacteristicRing>(
    alloc: Global,
    numbers: &[u32],
) -> Result<Vec<F>, AllocError> {
    let mut values = Vec::new(alloc);
    for number in numbers {
        values.push(F::from_u32(*number))?;
    }
    Ok(values)
}

/// A matrix of these numbers, row after row.
pub fn trace<F: PrimeCharacteristicRing>(
    alloc: Global,
    out: &mut Out,
    numbers: &[u32],
    width: usize,
) -> Option<RowMajorMatrix<F>> {
    let values = input(out, elements(alloc, numbers))?;
    if width == 0 || values.len() % width != 0 {
        out.close();
        return None;
    }
    Some(RowMajorMatrix::new(values, width))
}

/// The table of an alpha and the beta 2, for tuples of one element and two ids.
pub fn table(alloc: Global, out: &mut Out, alpha: u32) -> Option<Challenges<F7>> {
    input(
        out,
        Challenges::new(alloc, F7::new(alpha), F7::new(2), 1, 2),
    )
}

/// The builder that keeps assertions and records.
pub type Recorder<F> = InteractionSymbolicBuilder<F, F>;

/// The layout of the AIRs with room for four lookups.
pub fn layout() -> AirLayout
    ensures { result ≡ swept_layout }
{
    AirLayout {
        preprocessed_width: 0,
        main_width: 3,
        num_public_values: 0,
        permutation_width: 5,
        num_permutation_challenges: 8,
        num_permutation_values: 1,
    }
}
