//! The variables of a layout.
ghost use Rattle.std.specs.Prelude.{◌≡◌, IfOk};
ghost use Rattle.air.specs.internal.Variables.{IsVariableMatrix, IsVariableRow};
ghost use Rattle.air_expressions.specs.declared.variable.BaseEntry.TheVariants.{Main, Preprocessed, Public};
ghost use Rattle.air_expressions.specs.declared.variable.ExtEntry.TheVariants.{Challenge, Permutation, PermutationValue};

use crate::recording::variable_kind::{variable_rows, variables};
use air_expressions::{AirLayout, BaseEntry, ExtEntry, SymbolicVariable, SymbolicVariableExt};
use matrix::RowMajorMatrix;
use std::alloc::{AllocError, Global};
use std::marker::Model;

/// All variables of a layout, each at its index.
#[derive(Debug, Drop)]
pub struct LayoutVariables<F, EF> {
    layout: AirLayout,
    main: RowMajorMatrix<SymbolicVariable<F>>,
    preprocessed: RowMajorMatrix<SymbolicVariable<F>>,
    public_values: Vec<SymbolicVariable<F>>,
    permutation: RowMajorMatrix<SymbolicVariableExt<F, EF>>,
    challenges: Vec<SymbolicVariableExt<F, EF>>,
    permutation_values: Vec<SymbolicVariableExt<F, EF>>,
}

impl<F, EF> Model for LayoutVariables<F, EF> {
    ghost use Rattle.air_expressions.specs.declared.layout.AirLayout.{AirLayout};

    ghost Value = { AirLayout };

    ghost use Rattle.air.specs.internal.Stored.{IsStored};

    ghost view = { λ s. s.layout };

    ghost invariant = { IsStored };
}

impl<F: Copy, EF: Copy> LayoutVariables<F, EF> {
    /// The variables of a layout. Fails only when out of memory.
    pub fn new(alloc: Global, layout: AirLayout) -> Result<Self, AllocError>
        ensures { IfOk result (λ s. s ≡ layout) }
    {
        let main = BaseEntry::Main { offset: 0 };
        let main_next = BaseEntry::Main { offset: 1 };
        let preprocessed = BaseEntry::Preprocessed { offset: 0 };
        let preprocessed_next = BaseEntry::Preprocessed { offset: 1 };
        let permutation = ExtEntry::Permutation { offset: 0 };
        let permutation_next = ExtEntry::Permutation { offset: 1 };
        Ok(LayoutVariables {
            layout,
            main: variable_rows(alloc, main, main_next, layout.main_width)?,
            preprocessed: variable_rows(
                alloc,
                preprocessed,
                preprocessed_next,
                layout.preprocessed_width,
            )?,
            public_values: variables(alloc, BaseEntry::Public, layout.num_public_values)?,
            permutation: variable_rows(
                alloc,
                permutation,
                permutation_next,
                layout.permutation_width,
            )?,
            challenges: variables(
                alloc,
                ExtEntry::Challenge,
                layout.num_permutation_challenges,
            )?,
            permutation_values: variables(
                alloc,
                ExtEntry::PermutationValue,
                layout.num_permutation_values,
            )?,
        })
    }

    /// The layout.
    pub fn layout(&self) -> AirLayout
        ensures { result ≡ self.now }
    {
        self.layout
    }

    /// The variables of the main trace.
    pub fn main(&self) -> &RowMajorMatrix<SymbolicVariable<F>>
        ensures { IsVariableMatrix (λ v. v.entry) (λ v. v.index) (Main 0)
            (Main 1) self.now.main_width result.now }
    {
        &self.main
    }

    /// The variables of the preprocessed trace.
    pub fn preprocessed(&self) -> &RowMajorMatrix<SymbolicVariable<F>>
        ensures { IsVariableMatrix (λ v. v.entry) (λ v. v.index) (Preprocessed 0) (Preprocessed 1)
            self.now.preprocessed_width result.now }
    {
        &self.preprocessed
    }

    /// The public values.
    pub fn public_values(&self) -> &[SymbolicVariable<F>]
        ensures { IsVariableRow (λ v. v.entry)
            (λ v. v.index) Public self.now.num_public_values result.now }
    {
        self.public_values.as_slice()
    }

    /// The variables of the permutation trace.
    pub fn permutation(&self) -> &RowMajorMatrix<SymbolicVariableExt<F, EF>>
        ensures { IsVariableMatrix (λ v. v.entry) (λ v. v.index) (Permutation 0) (Permutation 1)
            self.now.permutation_width result.now }
    {
        &self.permutation
    }

    /// The challenges.
    pub fn challenges(&self) -> &[SymbolicVariableExt<F, EF>]
        ensures { IsVariableRow (λ v. v.entry)
            (λ v. v.index) Challenge self.now.num_permutation_challenges result.now }
    {
        self.challenges.as_slice()
    }

    /// The values of the permutation argument.
    pub fn permutation_values(&self) -> &[SymbolicVariableExt<F, EF>]
        ensures { IsVariableRow (λ v. v.entry) (λ v. v.index) PermutationValue
            self.now.num_permutation_values result.now }
    {
        self.permutation_values.as_slice()
    }
}
