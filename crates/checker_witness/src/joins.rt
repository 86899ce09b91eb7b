//! How checks join, as the contracts of functions that do nothing: those of ranges of rows, and those of AIRs.
ghost use Rattle.std.specs.Prelude.{List};
ghost use Rattle.lookup_model.specs.Batches.Instances.{Instance};
ghost use Rattle.lookup_model.specs.Batches.Witnesses.{AirResult};
ghost use Rattle.lookup_model.specs.Challenges.{ChallengeTable};
ghost use Rattle.checker_witness.specs.Ranges.{ChecksJoin};
ghost use Rattle.checker_witness.specs.Results.{ResultsJoin};

use field::{ExtensionField, Field, Over};

/// How checks of ranges of rows join, wherever they are made: where every constraint is zero on a range, the
/// answer for the next one is that for both, and the first failing row of a range is that of a longer one
/// that begins with it. The rows of a range on which every constraint is zero add up, if there are any. A result
/// of the right shape whose constraints are zero on all rows is satisfied and, if there is a row where there are
/// lookups, its terminal is the sum of its fractions.
pub fn checks_join<F: Field, EF: ExtensionField<F>>()
    ensures { (table : ChallengeTable EF) (instance : Instance F) (result : AirResult EF)
        → ChecksJoin ⟦<EF as Over<F>>⟧.fields table instance result }
{}

/// How checks of the AIRs of a batch join, wherever they are made: where the results before an AIR are
/// satisfied, its refusal by [`check_result`](crate::check_result) is the answer for the witness; where all
/// are, the answer for the sum of the terminals is. So [`check_witness`](crate::check_witness) answers; where
/// the instances fit, what else it promises follows.
pub fn results_join<F: Field, EF: ExtensionField<F>>()
    ensures { (table : ChallengeTable EF) (instances : List (Instance F)) (witness : List (AirResult EF))
        → ResultsJoin ⟦<EF as Over<F>>⟧.fields table instances witness }
{}
