//! What the definitions of this crate have in common.

ghost use Rattle.std.specs.Prelude.{◌∷◌, ◌++◌, [], ℕ, List};
ghost use Rattle.trapeze_io.specs.Seen.{Seen, AddsUp, OpensAll};

/// Where files are opened in turn, each open counts one, and the last name is that of the last.
pub fn opens_add_up()
    ensures { (names : List (List ℕ)) (name : List ℕ) (old new : Seen) → OpensAll (names ++ name ∷ []) old new → AddsUp names name old new }
{}
