//! What expressions take of the room for nodes. The function does nothing: its contract is the
//! theorem.
ghost use Rattle.std.specs.Prelude.{◌≡◌, ◌+◌, ◌≤◌, ℕ, Ok};
ghost use Rattle.language.specs.Formulas.{Formula};
ghost use Rattle.language_meaning.specs.Scopes.{NamesInScope, meaning};
ghost use Rattle.language_meaning.specs.Values.{Meant, layers_of, node_count_of};

/// What an expression means, and what it leaves of the room: its nodes and what is left are all of
/// the room, without exception, and it has at most 1,024 layers.
pub fn room_is_taken()
    ensures nodes { (names : NamesInScope) (f : Formula) (room rest : ℕ) (m : Meant)
        → meaning names f room ≡ Ok (m, rest) → node_count_of m + rest ≡ room }
    ensures layers { (names : NamesInScope) (f : Formula) (room rest : ℕ) (m : Meant)
        → meaning names f room ≡ Ok (m, rest) → layers_of m ≤ 1024 }
{}
