//! What reading has to do with what texts say. Each function does nothing: its contract is the
//! theorem.
ghost use Rattle.std.specs.Prelude.{◌≡◌, List, Ok, ℕ, ◌++◌};
ghost use Rattle.language.specs.Formulas.{Formula};
ghost use Rattle.language.specs.Grammar.{IsFound, IsOver, IsReadAs, Says, sums};
ghost use Rattle.language.specs.Reading.{formula_at};
ghost use Rattle.language.specs.Tables.{AreRows, rows_at};
ghost use Rattle.language.specs.Tokens.{Token};

/// The formula that is read is said by the tokens that were taken. Tokens that say a formula are
/// read as that one, whatever stands after them with which no expression goes on, or refused for
/// too many layers. So no tokens say two formulas that are read.
pub fn formulas_are_said()
    ensures found { (ts rest : List Token) (f : Formula) → formula_at ts ≡ Ok (f, rest)
        → IsFound ts f rest }
    ensures only { (ts rest : List Token) (f : Formula) → Says sums ts f → IsOver rest
        → IsReadAs (formula_at (ts ++ rest)) f rest }
{}

/// Lines of a CSV text are read, wherever they begin, exactly if each has as many cells as there
/// are columns and each cell has a number; and what is read is these numbers, line after line.
pub fn rows_are_read()
    ensures found { (modulus width at : ℕ) (lines : List (List ℕ)) (numbers : List ℕ)
        → rows_at modulus width at lines ≡ Ok numbers → AreRows modulus width lines numbers }
    ensures only { (modulus width at : ℕ) (lines : List (List ℕ)) (numbers : List ℕ)
        → AreRows modulus width lines numbers → rows_at modulus width at lines ≡ Ok numbers }
{}
