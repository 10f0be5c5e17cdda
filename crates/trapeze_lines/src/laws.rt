//! Laws of lines, each the contract of a call that does nothing.

ghost use Rattle.std.specs.Prelude.{◌≡◌, ℕ, List, length};
ghost use Rattle.label_lattice.specs.Sound.{AreNames};
ghost use Rattle.trapeze_lines.specs.declared.line.Line.{Line};
ghost use Rattle.trapeze_lines.specs.Lines.{IsLine};
ghost use Rattle.trapeze_lines.specs.Texts.{line_text};

/// Two lines with equal texts are equal.
pub fn texts_tell_lines()
    ensures { (names : List (List ℕ)) → AreNames names → (a b : Line) → IsLine (length names) a → IsLine (length names) b
        → line_text names a ≡ line_text names b → a ≡ b }
{}
