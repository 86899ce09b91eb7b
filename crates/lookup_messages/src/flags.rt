//! The set flags of an exclusive lookup on the row of a builder.
ghost use Rattle.lookup_model.specs.Records.{AllFit};
ghost use Rattle.lookup_model.specs.Selection.{AnswersFlags};
ghost use Rattle.lookup_model.specs.Sent.{values};
ghost use Rattle.lookup_messages.specs.TraceBuilder.{builder_layout, builder_row, builder_window};

use crate::trace_builder::LookupTraceBuilder;
use air::SymbolicExpression;
use field::{Domain, Field};
use lookup_model::{LookupError, SetFlags, with_flag};

/// The set flags on the builder's row.
///
/// Refuses a flag that is neither zero nor one.
pub(crate) fn set_flags<F: Field, EF: Domain>(
    flags: &[SymbolicExpression<F>],
    builder: &LookupTraceBuilder<'_, F, EF>,
    column: usize,
) -> Result<SetFlags, LookupError>
    requires { AllFit (builder_layout builder.now) flags.now }
    ensures { AnswersFlags F.ring F.eq (builder_row builder.now) column
        (values F.ring (builder_window builder.now) flags.now) result }
{
    let mut set = SetFlags::Nothing;
    for index in 0..flags.len() {
        let flag = builder.value_of(&flags[index]);
        set = with_flag(set, index, flag, builder.row(), column)?;
    }
    Ok(set)
}
